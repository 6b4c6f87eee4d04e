// What is told for a name.
ghost use Rattle.std.specs.Prelude.{◌≡◌};
ghost use Rattle.std.specs.Option.{option_copied};
ghost use Rattle.cedar_substitution.specs.Told.{told_for};

use std::collections::BTreeMap;
use std::rc::RcStr;

/// What is told for a name; `None` where nothing is.
pub fn find_told<'t, T>(told: &'t BTreeMap<RcStr, T>, name: &str) -> Option<&'t T>
    ensures { option_copied result ≡ told_for told.now.entries name.now }
{
    told.get(name)
}
