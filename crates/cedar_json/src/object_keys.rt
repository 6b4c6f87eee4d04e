// The keys of an object.
ghost use Rattle.std.specs.Prelude.{◌≡◌, map};
ghost use Rattle.json.specs.Value.{members_view};
ghost use Rattle.cedar_grammar.specs.Names.{is_among};
ghost use Rattle.cedar_json.specs.Entities.{only_under};

use crate::writing::Members;

/// Whether the key is one of these.
pub fn is_one_of(key: &str, names: &[&str]) -> bool
    ensures { result ≡ is_among key.now (map (λ name. name.now) names.now) }
{
    for name in names {
        if key == *name {
            return true;
        }
    }
    false
}

/// Whether no key stands there but these.
pub fn has_only(members: &Members<'_>, names: &[&str]) -> bool
    ensures { result ≡ only_under (map (λ name. name.now) names.now) (members_view members.now.items) }
{
    for member in members {
        if !is_one_of(member.0, names) {
            return false;
        }
    }
    true
}
