// Policies: static ones, and links of templates.
ghost use Rattle.std.specs.Prelude.{◌≡◌, [], ◌↔◌, IsTrue, IsNone, IsSome, IfOk, option_map, is_some, Some, true};
ghost use Rattle.std.specs.Option.{option_copied, ForNone, ForSome};
ghost use Rattle.std.specs.Map.{lookup};
ghost use Rattle.cedar_language.specs.Order.{same_text};
ghost use Rattle.cedar_grammar.specs.Policy.{condition, anything, any_action};
ghost use Rattle.cedar_grammar.specs.Bindings.{binds_exactly};
ghost use Rattle.cedar_trees.specs.Bare.{bare};
ghost use Rattle.cedar_policy_parts.specs.Effects.{effect_of};
ghost use Rattle.cedar_policy_parts.specs.Actions.{action_of};
ghost use Rattle.cedar_policy_parts.specs.Bindings.{unbound};
ghost use Rattle.cedar_policies.specs.Bodies.{shared_tree};
ghost use Rattle.cedar_policies.specs.Templates.{template_place, syntax_of, listed_slots};

use crate::templates::Template;
use cedar_literals::slots::SlotId;
use cedar_names::identifiers::AnyId;
use cedar_names::places::Loc;
use cedar_policy_parts::actions::ActionConstraint;
use cedar_policy_parts::annotations::{Annotation, Annotations};
use cedar_policy_parts::bindings::SlotEnv;
use cedar_policy_parts::principals::PrincipalConstraint;
use cedar_policy_parts::resources::ResourceConstraint;
use cedar_policy_parts::{Effect, PolicyID};
use cedar_trees::expr::Expr;
use std::alloc::{AllocError, Global};
use std::rc::Rc;

/// A policy in force: a static one, which is its own template, or a link of a template with an entity for
/// each slot that it holds, and for no other. A static policy lists no slot and binds none; where it was made
/// of a clause, that clause may hold slots, and they stay without entities. (Cedar language reference, "Policy
/// templates".)
#[derive(Debug)]
pub struct Policy {
    template: Rc<Template>,
    link: Option<PolicyID>,
    values: SlotEnv,
    pub ghost fills: { ForSome link (λ _. binds_exactly values (syntax_of template.value) ≡ true) },
    pub ghost own: { ForNone link ((listed_slots template.value ≡ []) × (values ≡ unbound)) },
}

// Written by hand, so that a function which may return early lets go of a policy by a call.
impl Drop for Policy {
    fn drop(self) {
        let Policy {
            template: _template,
            link: _link,
            values: _values,
        } = self;
    }
}

impl Policy {
    ghost use Rattle.cedar_policies.specs.Policies.{KeepsTemplate, policy_template, policy_syntax, policy_id, link_of, bindings_of, written, IsOwn, IsLink};

    // The link of this template, or the static policy that it is.
    pub(crate) fn new(template: Rc<Template>, link: Option<PolicyID>, values: SlotEnv) -> Policy
        requires fills { ForSome link (λ _. binds_exactly values (syntax_of template.value) ≡ true) }
        requires own { ForNone link ((listed_slots template.value ≡ []) × (values ≡ unbound)) }
        ensures template { policy_template result ≡ template.value }
        ensures link { link_of result ≡ link }
        ensures bindings { bindings_of result ≡ values }
    {
        Policy {
            template,
            link,
            values,
        }
    }

    /// The static policy of this one clause, which applies to every request. It lists no slot and binds none: a
    /// slot of the clause stays without an entity. Refused for memory alone.
    pub fn from_when_clause(
        alloc: Global,
        effect: Effect,
        when: Expr,
        id: PolicyID,
        loc: Option<Loc>,
    ) -> Result<Policy, AllocError>
        ensures own { IfOk result (λ policy. IsOwn id record {
          effect = effect_of effect;
          annotations = [];
          principal = anything;
          action = any_action;
          resource = anything;
          body = Some (bare when);
        } policy) }
        ensures lists { IfOk result (λ policy. listed_slots (policy_template policy) ≡ []) }
    {
        let annotations = Rc::new(alloc, Annotations::new(alloc))?;
        let when = Rc::new(alloc, when)?;
        Policy::from_when_clause_annos(alloc, effect, when, id, loc, annotations)
    }

    /// The static policy of this one clause and these annotations, which applies to every request; the
    /// clause and the annotations are shared. It lists no slot and binds none: a slot of the clause stays
    /// without an entity. Refused for memory alone.
    pub fn from_when_clause_annos(
        alloc: Global,
        effect: Effect,
        when: Rc<Expr>,
        id: PolicyID,
        loc: Option<Loc>,
        annotations: Rc<Annotations>,
    ) -> Result<Policy, AllocError>
        ensures own { IfOk result (λ policy. IsOwn id record {
          effect = effect_of effect;
          annotations = annotations.value;
          principal = anything;
          action = any_action;
          resource = anything;
          body = Some (shared_tree when);
        } policy) }
        ensures lists { IfOk result (λ policy. listed_slots (policy_template policy) ≡ []) }
    {
        let template = Template::new_shared(
            alloc,
            id,
            loc,
            annotations,
            effect,
            PrincipalConstraint::any(),
            ActionConstraint::any(),
            ResourceConstraint::any(),
            Some(when),
        )?;
        let template = Rc::new(alloc, template.unlisted())?;
        Ok(Policy::new(template, None, SlotEnv::new()))
    }

    /// The template that it is a link of; a static policy is its own.
    pub fn template(&self) -> &Template
        ensures { result.now ≡ policy_template self.now }
    {
        &self.template
    }

    /// The template that it is a link of, shared with the other links of that template; a static policy
    /// is its own, under its own id. A clone of the handle keeps the template, and copies nothing of it.
    pub fn template_arc(&self) -> &Rc<Template>
        ensures { result.now.value ≡ policy_template self.now }
    {
        &self.template
    }

    /// The entities that the slots of its template are bound to: of a link each slot's, and no other's; of a
    /// static policy none.
    pub fn env(&self) -> &SlotEnv
        ensures bindings { result.now ≡ bindings_of self.now }
        ensures fills { ForSome (link_of self.now) (λ _. binds_exactly (bindings_of self.now) (policy_syntax self.now) ≡ true) }
    {
        &self.values
    }

    /// The id: that of the link, or that of the static policy.
    pub fn id(&self) -> &PolicyID
        ensures { result.now ≡ policy_id self.now }
    {
        match &self.link {
            Some(id) => id,
            None => self.template.id(),
        }
    }

    /// The same policy under another id: a link stays a link of its template. Refused for memory alone.
    pub fn new_id(&self, alloc: Global, id: PolicyID) -> Result<Policy, AllocError>
        ensures id { IfOk result (λ made. policy_id made ≡ id) }
        ensures syntax { IfOk result (λ made. policy_syntax made ≡ policy_syntax self.now) }
        ensures bindings { IfOk result (λ made. bindings_of made ≡ bindings_of self.now) }
        ensures link { IfOk result (λ made. is_some (link_of made) ≡ is_some (link_of self.now)) }
        ensures template { IfOk result (λ made. KeepsTemplate (link_of self.now) (policy_template self.now) (policy_template made)) }
        ensures lists { IfOk result (λ made. listed_slots (policy_template made) ≡ listed_slots (policy_template self.now)) }
    {
        let values = self.values.clone(alloc)?;
        match &self.link {
            Some(_) => Ok(Policy::new(self.template.clone()?, Some(id), values)),
            None => {
                let template = self.template.new_id(alloc, id)?;
                Ok(Policy::new(Rc::new(alloc, template)?, None, values))
            }
        }
    }

    /// The link under this id of another template of the same syntax, with the same entities; refused for
    /// memory alone.
    pub fn relink(
        &self,
        alloc: Global,
        template: Rc<Template>,
        id: PolicyID,
    ) -> Result<Policy, AllocError>
        requires syntax { syntax_of template.value ≡ policy_syntax self.now }
        requires link { IsSome (link_of self.now) }
        ensures { IfOk result (IsLink template.value id (bindings_of self.now)) }
    {
        let values = self.values.clone(alloc)?;
        Ok(Policy::new(template, Some(id), values))
    }

    /// A copy that shares its parts; refused for memory alone.
    pub fn clone(&self, _alloc: Global) -> Result<Policy, AllocError>
        ensures template { IfOk result (λ copy. policy_template copy ≡ policy_template self.now) }
        ensures link { IfOk result (λ copy. link_of copy ≡ link_of self.now) }
        ensures bindings { IfOk result (λ copy. bindings_of copy ≡ bindings_of self.now) }
    {
        Clone::clone(self)
    }

    /// Whether it is no link.
    pub fn is_static(&self) -> bool
        ensures link { IsTrue result ↔ IsNone (link_of self.now) }
        ensures own { ForNone (link_of self.now) ((listed_slots (policy_template self.now) ≡ []) × (bindings_of self.now ≡ unbound)) }
    {
        self.link.is_none()
    }

    /// Where it was read, if it was; of a link, where its template was.
    pub fn loc(&self) -> Option<&Loc>
        ensures { option_copied result ≡ template_place (policy_template self.now) }
    {
        self.template.loc()
    }

    /// The effect.
    pub fn effect(&self) -> Effect
        ensures { effect_of result ≡ (policy_syntax self.now).effect }
    {
        self.template.effect()
    }

    /// The annotation of this key, if there is one.
    pub fn annotation(&self, key: &AnyId) -> Option<&Annotation>
        ensures { option_copied result ≡ lookup (same_text key.now) (policy_syntax self.now).annotations }
    {
        self.template.annotation(key)
    }

    /// The annotations of its template, lent: `iter` of them goes by their keys.
    pub fn annotations(&self) -> &Annotations
        ensures { result.now ≡ (policy_syntax self.now).annotations }
    {
        self.template.annotations()
    }

    /// The annotations, shared.
    pub fn annotations_arc(&self) -> &Rc<Annotations>
        ensures { result.now.value ≡ (policy_syntax self.now).annotations }
    {
        self.template.annotations_arc()
    }

    /// What the scope asks of the principal, with its entity in the place of the slot; refused for memory
    /// alone.
    #[tactic(auto, using(crate::proofs::Unbound::unbound_stays))]
    pub fn principal_constraint(&self, alloc: Global) -> Result<PrincipalConstraint, AllocError>
        ensures { IfOk result (λ made. made ≡ (written self.now).principal) }
    {
        let constraint = self.template.principal_constraint().clone(alloc)?;
        match self.values.get(&SlotId::principal()) {
            None => Ok(constraint),
            Some(uid) => Ok(constraint.with_filled_slot(Rc::new(alloc, uid.clone(alloc)?)?)),
        }
    }

    /// What the scope asks of the action.
    pub fn action_constraint(&self) -> &ActionConstraint
        ensures { action_of result.now ≡ (policy_syntax self.now).action }
    {
        self.template.action_constraint()
    }

    /// What the scope asks of the resource, with its entity in the place of the slot; refused for memory
    /// alone.
    #[tactic(auto, using(crate::proofs::Unbound::unbound_stays))]
    pub fn resource_constraint(&self, alloc: Global) -> Result<ResourceConstraint, AllocError>
        ensures { IfOk result (λ made. made ≡ (written self.now).resource) }
    {
        let constraint = self.template.resource_constraint().clone(alloc)?;
        match self.values.get(&SlotId::resource()) {
            None => Ok(constraint),
            Some(uid) => Ok(constraint.with_filled_slot(Rc::new(alloc, uid.clone(alloc)?)?)),
        }
    }

    /// What the clauses ask, if there are any.
    pub fn non_scope_constraints(&self) -> Option<&Expr>
        ensures { option_map bare (option_copied result) ≡ (policy_syntax self.now).body }
    {
        self.template.non_scope_constraints()
    }

    /// What the clauses ask, if there are any, shared.
    pub fn non_scope_constraints_arc(&self) -> Option<&Rc<Expr>>
        ensures { option_map shared_tree (option_copied result) ≡ (policy_syntax self.now).body }
    {
        self.template.non_scope_constraints_arc()
    }

    /// The condition of its template, which holds the slots; `env` says which entities they stand for.
    /// Refused for memory alone.
    pub fn condition(&self, alloc: Global) -> Result<Expr, AllocError>
        ensures { IfOk result (λ made. bare made ≡ condition (policy_syntax self.now)) }
    {
        self.template.condition(alloc)
    }
}

impl Clone for Policy {
    ghost use Rattle.cedar_policies.specs.Policies.{IsCopy};

    ghost is_clone = { IsCopy };

    fn clone(&self) -> Result<Policy, AllocError> {
        let values = Clone::clone(&self.values)?;
        let link = self.link.clone()?;
        Ok(Policy::new(self.template.clone()?, link, values))
    }
}

impl PartialEq for Policy {
    ghost use Rattle.std.specs.Cmp.{partial_equiv_from_equiv};
    ghost use Rattle.cedar_policies.specs.SamePolicies.{same_policies, same_policies_equiv};

    ghost eq = { same_policies };

    ghost laws = { partial_equiv_from_equiv same_policies_equiv };

    fn eq(&self, other: &Policy) -> bool {
        *self.template == *other.template && self.link == other.link && self.values == other.values
    }
}

impl Eq for Policy {
    ghost use Rattle.cedar_policies.specs.SamePolicies.{same_policies_equiv};

    ghost laws = { same_policies_equiv };
}
