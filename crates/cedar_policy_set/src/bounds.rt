// What an id of a policy set is bound to.
ghost use Rattle.std.specs.Prelude.{◌≡◌, ◌∷◌, ◌++◌, [], Some, None, OnOk, OnErr, IfOk, IfSome, option_map, if◌then◌else◌};
ghost use Rattle.std.specs.Option.{option_copied};
ghost use Rattle.std.specs.Map.{lookup};
ghost use Rattle.cedar_language.specs.Order.{same_text};
ghost use Rattle.cedar_policies.specs.Templates.{template_id, syntax_of};
ghost use Rattle.cedar_policies.specs.Policies.{policy_id};
ghost use Rattle.cedar_policy_set.specs.Entries.{template as a_template, IsFull, is_link, is_link_to, is_of_template, is_policy, is_static, own_template, slotted_template, named};
ghost use Rattle.cedar_policy_set.specs.EntryNodes.{same_entry};
ghost use Rattle.cedar_policy_set.specs.Bounds.{policy_entry, link_entry, policy_seen, template_seen};

use crate::policy_map::PolicyMap;
use cedar_policies::policies::Policy;
use cedar_policies::templates::Template;
use cedar_policy_parts::PolicyID;
use std::alloc::{AllocError, Global};
use std::marker::Model;
use std::rc::Rc;

/// What an id is bound to: a policy, which is a static one or a link, or a template. It is one handle, so that what a
/// removal moves up in a set is small. Contracts see its kind: the id through `bound_id`, and the rest, without places,
/// through `entry_of`.
#[derive(Debug, Drop)]
pub struct Bound {
    kind: Box<BoundKind>,
}

/// What an id is bound to, by its kind.
#[derive(Debug, Drop)]
pub enum BoundKind {
    /// A static policy or a link.
    Policy(Policy),
    /// A template, shared with its links.
    Template(Rc<Template>),
}

impl Model for Bound {
    ghost use Rattle.std.specs.Coded.{codes};
    ghost use Rattle.cedar_policy_set.specs.contracts.bounds.BoundKind.{the_row};
    ghost use Rattle.cedar_policy_set.specs.declared.bounds.BoundKind.{BoundKind};

    ghost Value = { BoundKind };

    ghost coded = { Prim.hlevel (codes, the_row.coded) };

    ghost view = { λ b. b.kind.value };
}

/// Both stand under one id and are the same; places don't count.
impl PartialEq for Bound {
    ghost use Rattle.std.specs.Cmp.{partial_equiv_from_equiv};
    ghost use Rattle.cedar_policy_set.specs.SameSets.{same_bound, same_bound_equiv};

    ghost eq = { same_bound };

    ghost laws = { partial_equiv_from_equiv same_bound_equiv };

    fn eq(&self, other: &Bound) -> bool {
        self.id() == other.id() && self.is_same(other)
    }
}

impl Eq for Bound {
    ghost use Rattle.cedar_policy_set.specs.SameSets.{same_bound_equiv};

    ghost laws = { same_bound_equiv };
}

impl Clone for Bound {
    ghost use Rattle.cedar_policy_set.specs.Bounds.{IsCopy};

    ghost is_clone = { IsCopy };

    fn clone(&self) -> Result<Bound, AllocError> {
        Ok(Bound {
            kind: self.kind.clone()?,
        })
    }
}

impl Clone for BoundKind {
    ghost use Rattle.cedar_policy_set.specs.Bounds.{IsCopy};

    ghost is_clone = { IsCopy };

    fn clone(&self) -> Result<BoundKind, AllocError> {
        match self {
            BoundKind::Policy(policy) => Ok(BoundKind::Policy(Clone::clone(policy)?)),
            BoundKind::Template(template) => Ok(BoundKind::Template(template.clone()?)),
        }
    }
}

impl Bound {
    ghost use Rattle.cedar_policy_set.specs.Bounds.{bound_id, entry_of, IsCopy, ListsSlots};

    /// A static policy or a link, to be bound. Refused for memory alone.
    pub fn from_policy(alloc: Global, policy: Policy) -> Result<Bound, AllocError>
        ensures id { IfOk result (λ bound. bound_id bound ≡ policy_id policy) }
        ensures entry { IfOk result (λ bound. entry_of bound ≡ policy_entry policy) }
        ensures listed { IfOk result ListsSlots }
    {
        Ok(Bound {
            kind: Box::new(alloc, BoundKind::Policy(policy))?,
        })
    }

    /// A template, to be bound. Refused for memory alone.
    pub fn from_template(alloc: Global, template: Rc<Template>) -> Result<Bound, AllocError>
        ensures { IfOk result (λ bound. bound ≡ BoundKind.Template template) }
    {
        Ok(Bound {
            kind: Box::new(alloc, BoundKind::Template(template))?,
        })
    }

    /// What it is.
    pub fn kind(&self) -> &BoundKind
        ensures { result.now ≡ self.now }
    {
        &self.kind
    }

    /// What it is, given up.
    pub fn into_kind(self) -> BoundKind
        ensures { result ≡ self }
    {
        Box::into_inner(self.kind)
    }

    /// A copy that shares its parts; refused for memory alone.
    pub fn clone(&self, _alloc: Global) -> Result<Bound, AllocError>
        ensures { IfOk result (IsCopy self.now) }
    {
        Clone::clone(self)
    }

    /// The id.
    pub fn id(&self) -> &PolicyID
        ensures { result.now ≡ bound_id self.now }
    {
        match self.kind() {
            BoundKind::Policy(policy) => policy.id(),
            BoundKind::Template(template) => template.id(),
        }
    }

    /// Whether both are the same, places and ids aside: of one kind, and of one syntax; links name one
    /// template, of one syntax, and bind its slots to the same entities.
    pub fn is_same(&self, other: &Bound) -> bool
        ensures { result ≡ same_entry (entry_of self.now) (entry_of other.now) }
    {
        match (self.kind(), other.kind()) {
            (BoundKind::Policy(mine), BoundKind::Policy(theirs)) => is_same_policy(mine, theirs),
            (BoundKind::Template(mine), BoundKind::Template(theirs)) => mine.has_same_syntax(
                theirs,
            ),
            _ => false,
        }
    }

    /// Puts it under its id, which isn't there yet, after what is there. Refused for memory alone.
    pub fn insert_into(self, entries: &mut PolicyMap<Bound>) -> Result<(), AllocError>
        requires { lookup (same_text (bound_id self)) entries.old ≡ None }
        ensures inserted { OnOk result (entries.new ≡ entries.old ++ (bound_id self, self) ∷ []) }
        ensures err { OnErr result (entries.new ≡ entries.old) }
    {
        let id = self.own_id()?;
        entries.push(id, self)
    }

    // The id, to stand before it.
    fn own_id(&self) -> Result<PolicyID, AllocError>
        ensures { IfOk result (λ id. id ≡ bound_id self.now) }
    {
        Ok(self.id().clone()?)
    }

    /// Whether it is a link.
    pub fn is_link(&self) -> bool
        ensures { result ≡ is_link (entry_of self.now) }
    {
        match self.kind() {
            BoundKind::Policy(policy) => is_link(policy),
            BoundKind::Template(_) => false,
        }
    }

    /// Whether it is a link of the template with this id.
    pub fn is_link_to(&self, id: &PolicyID) -> bool
        ensures { result ≡ is_link_to id.now (entry_of self.now) }
    {
        match self.kind() {
            BoundKind::Policy(policy) => !policy.is_static() && policy.template().id() == id,
            BoundKind::Template(_) => false,
        }
    }

    /// Whether it is this static policy, or a link of this template.
    pub fn is_of_template(&self, id: &PolicyID) -> bool
        ensures { result ≡ is_of_template id.now (bound_id self.now) (entry_of self.now) }
    {
        match self.kind() {
            BoundKind::Policy(policy) => policy.template().id() == id,
            BoundKind::Template(_) => false,
        }
    }

    // Whether it is the template of this syntax.
    pub(crate) fn is_template(&self, template: &Template) -> bool
        ensures { result ≡ same_entry (entry_of self.now) (a_template (syntax_of template.now)) }
    {
        match self.kind() {
            BoundKind::Policy(_) => false,
            BoundKind::Template(mine) => mine.has_same_syntax(template),
        }
    }

    // The policy, where it is one.
    pub(crate) fn as_policy(&self) -> Option<&Policy>
        ensures { option_map policy_seen (option_copied result) ≡ (if is_policy (entry_of self.now) then Some (bound_id self.now, entry_of self.now) else None) }
    {
        match self.kind() {
            BoundKind::Policy(policy) => Some(policy),
            BoundKind::Template(_) => None,
        }
    }

    // The policy, where it is a static one.
    pub(crate) fn as_static(&self) -> Option<&Policy>
        ensures { option_map policy_seen (option_copied result) ≡ (if is_static (entry_of self.now) then Some (bound_id self.now, entry_of self.now) else None) }
    {
        match self.kind() {
            BoundKind::Policy(policy) if policy.is_static() => Some(policy),
            _ => None,
        }
    }

    // The template, where it is one and has slots.
    pub(crate) fn slotted_template(&self) -> Option<&Rc<Template>>
        ensures { option_map (λ t. template_seen t.value) (option_copied result) ≡ named (bound_id self.now) (slotted_template (entry_of self.now)) }
    {
        match self.kind() {
            BoundKind::Template(template) if !template.held_slots().is_empty() => Some(template),
            _ => None,
        }
    }

    /// The template, or that of a static policy.
    pub fn own_template(&self) -> Option<&Rc<Template>>
        ensures syntax { option_map (λ t. syntax_of t.value) (option_copied result) ≡ own_template (entry_of self.now) }
        ensures id { IfSome result (λ template. template_id template.now.value ≡ bound_id self.now) }
    {
        match self.kind() {
            BoundKind::Policy(policy) if policy.is_static() => Some(policy.template_arc()),
            BoundKind::Policy(_) => None,
            BoundKind::Template(template) => Some(template),
        }
    }
}

// Whether both are static policies of one syntax, or links of one template with the same entities.
fn is_same_policy(mine: &Policy, theirs: &Policy) -> bool
    ensures { result ≡ same_entry (policy_entry mine.now) (policy_entry theirs.now) }
{
    match (mine.is_static(), theirs.is_static()) {
        (true, true) => mine.template().has_same_syntax(theirs.template()),
        (false, false) => is_same_link(mine, theirs),
        _ => false,
    }
}

// Whether both have one template and bind its slots to the same entities.
fn is_same_link(mine: &Policy, theirs: &Policy) -> bool
    ensures { result ≡ same_entry (link_entry mine.now) (link_entry theirs.now) }
{
    mine.template().id() == theirs.template().id()
        && (mine.template().has_same_syntax(theirs.template()) && mine.env() == theirs.env())
}

// Whether a policy is a link.
pub(crate) fn is_link(policy: &Policy) -> bool
    ensures link { result ≡ is_link (policy_entry policy.now) }
    ensures full { IsFull (policy_entry policy.now) }
{
    !policy.is_static()
}
