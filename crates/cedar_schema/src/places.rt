// Where written names are looked up.
ghost use Rattle.std.specs.Prelude.{◌≡◌, IfOk};
ghost use Rattle.std.specs.BTreeMap.{get};
ghost use Rattle.std.specs.Option.{option_copied};
ghost use Rattle.cedar_language.specs.Order.{name_cmp};
ghost use Rattle.cedar_schema_grammar.specs.Declared.{first_of, places};
ghost use Rattle.cedar_schema_syntax.specs.View.{path_view};
ghost use Rattle.cedar_schema.specs.Tables.{places_view};

use crate::names::TypeName;
use cedar_names::texts::SharedText;
use cedar_schema_syntax::Path;
use std::alloc::{AllocError, Global};
use std::collections::BTreeMap;

/// The full names at which a written name is looked up, one after the other: a name alone in its namespace, then in none; a path
/// as it is written. (Cedar language reference, "Schema", name resolution.)
#[derive(Drop)]
pub struct Places {
    first: TypeName,
    second: Option<TypeName>,
}

impl Places {
    /// Where a name is looked up that is written in a namespace. Refused for memory alone.
    pub fn of(alloc: Global, namespace: &[SharedText], path: &Path) -> Result<Places, AllocError>
        ensures { IfOk result (λ found. places_view found ≡ places namespace.now (path_view path.now)) }
    {
        let alone = TypeName::from_path(alloc, path)?;
        if path.words.len() != 1 {
            return Ok(Places {
                first: alone,
                second: None,
            });
        }
        Ok(Places {
            first: TypeName::within(alloc, namespace, path)?,
            second: Some(alone),
        })
    }

    /// What stands at the first of these names at which something does.
    pub fn find<'a, V>(&self, by_name: &'a BTreeMap<TypeName, V>) -> Option<&'a V>
        ensures { option_copied result ≡ first_of (get name_cmp by_name.now) (places_view self.now) }
    {
        match by_name.get(&self.first) {
            Some(found) => Some(found),
            None => by_name.get(self.second.as_ref()?),
        }
    }
}
