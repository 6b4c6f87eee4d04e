// The policies that another set has more.
ghost use Rattle.std.specs.Prelude.{◌≡◌, IfOk, true, false};
ghost use Rattle.std.specs.Map.{values_of};
ghost use Rattle.cedar_policies.specs.Templates.{template_id, syntax_of, listed_slots};
ghost use Rattle.cedar_policies.specs.Policies.{policy_id};
ghost use Rattle.cedar_policy_set.specs.Entries.{is_link};
ghost use Rattle.cedar_policy_set.specs.Bounds.{bound_id, entry_of, entries_of, policy_entry, IsNamed, ListsSlots, ListTheirSlots};
ghost use Rattle.cedar_store.specs.Renaming.{IsRenaming, new_id, renamed};
ghost use Rattle.cedar_store.specs.Merged.{is_more, joining};

use crate::renaming::{Renaming, conflicts, copied, given_id, renamed_id};
use cedar_policies::policies::Policy;
use cedar_policies::templates::Template;
use cedar_policy_set::bounds::{Bound, BoundKind};
use cedar_policy_set::policy_map::PolicyMap;
use cedar_policy_set::sets::PolicySet;
use std::alloc::{AllocError, Global};
use std::rc::Rc;

// What the other set has more, renamed.
pub(crate) fn joining(
    alloc: Global,
    mine: &PolicySet,
    theirs: &PolicySet,
    renaming: &Renaming,
) -> Result<PolicyMap<Bound>, AllocError>
    requires { IsRenaming mine.now theirs.now renaming.now }
    ensures named { IfOk result (λ more. IsNamed more) }
    ensures listed { IfOk result (λ more. ListTheirSlots (values_of more)) }
    ensures more { IfOk result (λ more. entries_of more ≡ joining mine.now renaming.now theirs.now) }
{
    // The contract of `len` is what says that a set is whole.
    let _theirs = theirs.len();
    let mut more = PolicyMap::new(alloc);
    for bound in theirs.values() {
        if is_more(mine, bound) {
            renamed(alloc, renaming, bound)?.insert_into(&mut more)?;
        }
    }
    Ok(more)
}

// Whether what the other set binds is more than this one has.
fn is_more(mine: &PolicySet, theirs: &Bound) -> bool
    ensures { result ≡ is_more mine.now (bound_id theirs.now, entry_of theirs.now) }
{
    !mine.is_bound(theirs.id()) || conflicts(mine, theirs)
}

// The same under its new id, a link with the new id of its template.
fn renamed(alloc: Global, renaming: &Renaming, bound: &Bound) -> Result<Bound, AllocError>
    requires { ListsSlots bound.now }
    ensures id { IfOk result (λ made. bound_id made ≡ new_id renaming.now (bound_id bound.now)) }
    ensures listed { IfOk result ListsSlots }
    ensures entry { IfOk result (λ made. entry_of made ≡ renamed renaming.now (entry_of bound.now)) }
{
    match bound.kind() {
        BoundKind::Template(template) => {
            let template = renamed_template(alloc, renaming, template)?;
            Bound::from_template(alloc, template)
        }
        BoundKind::Policy(policy) if policy.is_static() => {
            let policy = renamed_static(alloc, renaming, policy)?;
            Bound::from_policy(alloc, policy)
        }
        BoundKind::Policy(policy) => {
            let policy = renamed_link(alloc, renaming, policy)?;
            Bound::from_policy(alloc, policy)
        }
    }
}

// The template under its new id, where it has one.
fn renamed_template(
    alloc: Global,
    renaming: &Renaming,
    template: &Rc<Template>,
) -> Result<Rc<Template>, AllocError>
    ensures id { IfOk result (λ made. template_id made.value ≡ new_id renaming.now (template_id template.now.value)) }
    ensures syntax { IfOk result (λ made. syntax_of made.value ≡ syntax_of template.now.value) }
    ensures lists { IfOk result (λ made. listed_slots made.value ≡ listed_slots template.now.value) }
{
    match given_id(renaming, template.id()) {
        None => Ok(template.clone()?),
        Some(id) => {
            let template = template.new_id(alloc, copied(id)?)?;
            Ok(Rc::new(alloc, template)?)
        }
    }
}

// The static policy under its new id, where it has one.
fn renamed_static(alloc: Global, renaming: &Renaming, policy: &Policy) -> Result<Policy, AllocError>
    requires { is_link (policy_entry policy.now) ≡ false }
    ensures id { IfOk result (λ made. policy_id made ≡ new_id renaming.now (policy_id policy.now)) }
    ensures entry { IfOk result (λ made. policy_entry made ≡ renamed renaming.now (policy_entry policy.now)) }
{
    match given_id(renaming, policy.id()) {
        None => policy.clone(alloc),
        Some(id) => policy.new_id(alloc, copied(id)?),
    }
}

// The link under its new id, of the template under its own.
fn renamed_link(alloc: Global, renaming: &Renaming, link: &Policy) -> Result<Policy, AllocError>
    requires { is_link (policy_entry link.now) ≡ true }
    ensures id { IfOk result (λ made. policy_id made ≡ new_id renaming.now (policy_id link.now)) }
    ensures entry { IfOk result (λ made. policy_entry made ≡ renamed renaming.now (policy_entry link.now)) }
{
    let template = renamed_template(alloc, renaming, link.template_arc())?;
    link.relink(alloc, template, renamed_id(renaming, link.id())?)
}
