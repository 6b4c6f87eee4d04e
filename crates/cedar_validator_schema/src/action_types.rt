// The types of actions, and those of the groups that they are in.
ghost use Rattle.std.specs.Prelude.{◌≡◌, ◌&&◌, ◌||◌, [], ◌∷◌, false, map, IfOk, OnOk};
ghost use Rattle.std.specs.List.{list_any};
ghost use Rattle.std.specs.BTreeSet.{contains};
ghost use Rattle.cedar_language.specs.Uid.{Name};
ghost use Rattle.cedar_language.specs.Order.{same_name, name_cmp, uid_cmp};
ghost use Rattle.cedar_schema_resolution.specs.Declarations.{action_view};
ghost use Rattle.cedar_validator_schema.specs.Hierarchies.{targets_at, leads};
ghost use Rattle.cedar_validator_schema.specs.Actions.{types_lead, is_type_among};

use crate::hierarchies::Hierarchy;
use cedar_schema::TypeName;
use cedar_schema_resolution::{DeclaredAction, Uid};
use std::alloc::{AllocError, Global};
use std::collections::BTreeSet;

// Lets edges lead from a type to those of groups.
fn add_types_of(
    alloc: Global,
    parents: &mut Hierarchy<TypeName>,
    from: &TypeName,
    groups: &[Uid],
) -> Result<(), AllocError>
    ensures { OnOk result ((n m : Name) → leads same_name name_cmp parents.new n m ≡ (leads same_name name_cmp parents.old n m
        || (same_name from.now n && list_any (λ w. same_name w.type_name m) groups.now))) }
{
    for group in groups {
        let to = group.type_name().clone()?;
        let copy = from.clone()?;
        parents.add(alloc, copy, to)?;
    }
    Ok(())
}

/// Lets edges lead from the types of actions to those of the groups that they are in. Refused for memory alone.
pub(crate) fn add_group_types(
    alloc: Global,
    parents: &mut Hierarchy<TypeName>,
    groups: &Hierarchy<Uid>,
    actions: &[DeclaredAction<'_>],
) -> Result<(), AllocError>
    ensures { OnOk result ((n m : Name) → leads same_name name_cmp parents.new n m ≡ (leads same_name name_cmp parents.old n m
        || types_lead (targets_at uid_cmp groups.now) (map action_view actions.now) n m)) }
{
    for action in actions {
        let uid = Uid::of(alloc, action)?;
        add_types_of(alloc, parents, uid.type_name(), groups.targets_of(&uid))?;
    }
    Ok(())
}

/// The types of actions. Refused for memory alone.
pub(crate) fn action_types_of(
    alloc: Global,
    actions: &[DeclaredAction<'_>],
) -> Result<BTreeSet<TypeName>, AllocError>
    ensures { IfOk result (λ types. (n : Name) → contains name_cmp types n ≡ is_type_among (map action_view actions.now) n) }
{
    let mut types = BTreeSet::new(alloc);
    for action in actions {
        let uid = Uid::of(alloc, action)?;
        let name = uid.type_name().clone()?;
        types.insert(name)?;
    }
    Ok(types)
}
