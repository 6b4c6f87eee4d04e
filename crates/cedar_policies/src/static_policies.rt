// Policies without slots.
ghost use Rattle.std.specs.Prelude.{◌≡◌, ◌↔◌, [], IsTrue, IfOk, option_map};
ghost use Rattle.std.specs.Option.{option_copied};
ghost use Rattle.std.specs.Map.{lookup};
ghost use Rattle.cedar_language.specs.Order.{same_text};
ghost use Rattle.cedar_language.specs.Tree.{Principal, PrincipalSlot, Resource, ResourceSlot};
ghost use Rattle.cedar_grammar.specs.Policy.{condition, constraint_tree, action_tree, slots as slots_of};
ghost use Rattle.cedar_trees.specs.Bare.{bare};
ghost use Rattle.cedar_policy_parts.specs.Effects.{effect_of};
ghost use Rattle.cedar_policy_parts.specs.Actions.{action_of};
ghost use Rattle.cedar_policies.specs.Bodies.{body_id, body_place, body_syntax};

use crate::bodies::TemplateBody;
use crate::templates::Template;
use cedar_names::conversions::FromIn;
use cedar_names::identifiers::AnyId;
use cedar_names::places::Loc;
use cedar_policy_parts::actions::ActionConstraint;
use cedar_policy_parts::annotations::{Annotation, Annotations};
use cedar_policy_parts::errors::UnexpectedSlotError;
use cedar_policy_parts::principals::PrincipalConstraint;
use cedar_policy_parts::resources::ResourceConstraint;
use cedar_policy_parts::{Effect, PolicyID};
use cedar_trees::expr::Expr;
use std::alloc::{AllocError, Global};
use std::rc::Rc;

/// A policy without slots, under an id. Contracts see the id through `static_id` and the rest, without
/// places, through `static_syntax`. (Cedar language reference, "Policies".)
#[derive(Debug)]
pub struct StaticPolicy {
    body: TemplateBody,
    pub ghost has_no_slot: { slots_of (body_syntax body) ≡ [] },
}

// Written by hand, so that a function which may return early lets go of a policy by a call.
impl Drop for StaticPolicy {
    fn drop(self) {
        let StaticPolicy { body: _body } = self;
    }
}

impl StaticPolicy {
    ghost use Rattle.cedar_policies.specs.StaticPolicies.{static_id, static_place, static_syntax, MakesStatic, TakesStatic};

    /// The policy of these parts; refused for the first slot of the scope and the clauses, or for memory.
    pub fn new(
        alloc: Global,
        id: PolicyID,
        loc: Option<Loc>,
        annotations: Annotations,
        effect: Effect,
        principal_constraint: PrincipalConstraint,
        action_constraint: ActionConstraint,
        resource_constraint: ResourceConstraint,
        non_scope_constraint: Option<Expr>,
    ) -> Result<StaticPolicy, UnexpectedSlotError>
        ensures { MakesStatic id record {
          effect = effect_of effect;
          annotations = annotations;
          principal = principal_constraint;
          action = action_of action_constraint;
          resource = resource_constraint;
          body = option_map bare non_scope_constraint;
        } result }
    {
        let template = Template::new(
            alloc,
            id,
            loc,
            annotations,
            effect,
            principal_constraint,
            action_constraint,
            resource_constraint,
            non_scope_constraint,
        )?;
        StaticPolicy::from_template(template)
    }

    /// The template as a policy, where it has no slot; refused for its first slot otherwise.
    pub fn from_template(template: Template) -> Result<StaticPolicy, UnexpectedSlotError>
        ensures { TakesStatic template result }
    {
        let (body, slots) = template.into_parts();
        match slots.into_iter().next() {
            None => Ok(StaticPolicy { body }),
            Some(slot) => Err(UnexpectedSlotError::FoundSlot(slot)),
        }
    }

    /// Its body, lent: all that is written of it, under its id.
    pub fn body(&self) -> &TemplateBody
        ensures id { body_id result.now ≡ static_id self.now }
        ensures place { body_place result.now ≡ static_place self.now }
        ensures syntax { body_syntax result.now ≡ static_syntax self.now }
        ensures no_slot { slots_of (static_syntax self.now) ≡ [] }
    {
        &self.body
    }

    /// Its body, given up without a copy.
    pub fn into_body(self) -> TemplateBody
        ensures id { body_id result ≡ static_id self }
        ensures place { body_place result ≡ static_place self }
        ensures syntax { body_syntax result ≡ static_syntax self }
        ensures no_slot { slots_of (static_syntax self) ≡ [] }
    {
        let StaticPolicy { body } = self;
        body
    }

    /// The id.
    pub fn id(&self) -> &PolicyID
        ensures { result.now ≡ static_id self.now }
    {
        self.body.id()
    }

    /// The same policy under another id; refused for memory alone.
    pub fn new_id(&self, alloc: Global, id: PolicyID) -> Result<StaticPolicy, AllocError>
        ensures id { IfOk result (λ made. static_id made ≡ id) }
        ensures place { IfOk result (λ made. static_place made ≡ static_place self.now) }
        ensures syntax { IfOk result (λ made. static_syntax made ≡ static_syntax self.now) }
    {
        let body = self.body.new_id(alloc, id)?;
        Ok(StaticPolicy { body })
    }

    /// A copy that shares its parts; refused for memory alone.
    pub fn clone(&self, alloc: Global) -> Result<StaticPolicy, AllocError>
        ensures id { IfOk result (λ copy. static_id copy ≡ static_id self.now) }
        ensures place { IfOk result (λ copy. static_place copy ≡ static_place self.now) }
        ensures syntax { IfOk result (λ copy. static_syntax copy ≡ static_syntax self.now) }
    {
        let body = self.body.clone(alloc)?;
        Ok(StaticPolicy { body })
    }

    /// Where it was read, if it was.
    pub fn loc(&self) -> Option<&Loc>
        ensures { option_copied result ≡ static_place self.now }
    {
        self.body.loc()
    }

    /// The effect.
    pub fn effect(&self) -> Effect
        ensures { effect_of result ≡ (static_syntax self.now).effect }
    {
        self.body.effect()
    }

    /// The annotation of this key, if there is one.
    pub fn annotation(&self, key: &AnyId) -> Option<&Annotation>
        ensures { option_copied result ≡ lookup (same_text key.now) (static_syntax self.now).annotations }
    {
        self.body.annotation(key)
    }

    /// The annotations, lent: `iter` of them goes by their keys.
    pub fn annotations(&self) -> &Annotations
        ensures { result.now ≡ (static_syntax self.now).annotations }
    {
        self.body.annotations()
    }

    /// What the scope asks of the principal.
    pub fn principal_constraint(&self) -> &PrincipalConstraint
        ensures { result.now ≡ (static_syntax self.now).principal }
    {
        self.body.principal_constraint()
    }

    /// The condition that it is; refused for memory alone.
    pub fn principal_constraint_expr(&self, alloc: Global) -> Result<Expr, AllocError>
        ensures { IfOk result (λ made. bare made ≡ constraint_tree Principal PrincipalSlot (static_syntax self.now).principal) }
    {
        self.body.principal_constraint_expr(alloc)
    }

    /// What the scope asks of the action.
    pub fn action_constraint(&self) -> &ActionConstraint
        ensures { action_of result.now ≡ (static_syntax self.now).action }
    {
        self.body.action_constraint()
    }

    /// The condition that it is; refused for memory alone.
    pub fn action_constraint_expr(&self, alloc: Global) -> Result<Expr, AllocError>
        ensures { IfOk result (λ made. bare made ≡ action_tree (static_syntax self.now).action) }
    {
        self.body.action_constraint_expr(alloc)
    }

    /// What the scope asks of the resource.
    pub fn resource_constraint(&self) -> &ResourceConstraint
        ensures { result.now ≡ (static_syntax self.now).resource }
    {
        self.body.resource_constraint()
    }

    /// The condition that it is; refused for memory alone.
    pub fn resource_constraint_expr(&self, alloc: Global) -> Result<Expr, AllocError>
        ensures { IfOk result (λ made. bare made ≡ constraint_tree Resource ResourceSlot (static_syntax self.now).resource) }
    {
        self.body.resource_constraint_expr(alloc)
    }

    /// What the clauses ask, if there are any.
    pub fn non_scope_constraints(&self) -> Option<&Expr>
        ensures { option_map bare (option_copied result) ≡ (static_syntax self.now).body }
    {
        self.body.non_scope_constraints()
    }

    /// Whether both have the same syntax, under whatever ids: places don't count. Takes no memory, and no
    /// stack for a chain down the first parts of the clauses.
    pub fn has_same_syntax(&self, other: &StaticPolicy) -> bool
        ensures { IsTrue result ↔ (static_syntax self.now ≡ static_syntax other.now) }
    {
        self.body.has_same_syntax(&other.body)
    }

    /// The condition: what the scope asks of the principal, of the action and of the resource, and then
    /// what the clauses ask, each joined by `&&`. Refused for memory alone.
    pub fn condition(&self, alloc: Global) -> Result<Expr, AllocError>
        ensures { IfOk result (λ made. bare made ≡ condition (static_syntax self.now)) }
    {
        self.body.condition(alloc)
    }
}

impl TryFrom<Template> for StaticPolicy {
    type Error = UnexpectedSlotError;

    ghost use Rattle.cedar_policies.specs.StaticPolicies.{TakesStatic};

    ghost try_from_gives = { TakesStatic };

    fn try_from(template: Template) -> Result<StaticPolicy, UnexpectedSlotError> {
        StaticPolicy::from_template(template)
    }
}

impl From<StaticPolicy> for TemplateBody {
    ghost use Rattle.cedar_policies.specs.Bodies.{body_id, body_syntax};
    ghost use Rattle.cedar_policies.specs.StaticPolicies.{static_id, static_syntax};

    ghost from_gives = { λ policy body. (body_id body ≡ static_id policy) × (body_syntax body ≡ static_syntax policy) };

    fn from(policy: StaticPolicy) -> TemplateBody {
        policy.into_body()
    }
}

impl FromIn<StaticPolicy> for Rc<Template> {
    type Error = AllocError;

    ghost use Rattle.std.specs.Prelude.{IfOk};
    ghost use Rattle.cedar_policies.specs.StaticPolicies.{static_id, static_syntax};
    ghost use Rattle.cedar_policies.specs.Templates.{IsTemplate};

    ghost from_in_gives = { λ policy result. IfOk result (λ made. IsTemplate (static_id policy) (static_syntax policy) made.value) };

    fn from_in(alloc: Global, policy: StaticPolicy) -> Result<Rc<Template>, AllocError> {
        Ok(Rc::new(alloc, Template::from_body(alloc, policy.into_body())?)?)
    }
}

impl PartialEq for StaticPolicy {
    ghost use Rattle.std.specs.Cmp.{partial_equiv_from_equiv};
    ghost use Rattle.cedar_policies.specs.Same.{same_policy, same_policy_equiv};
    ghost use Rattle.cedar_policies.specs.StaticPolicies.{static_id, static_syntax};

    ghost eq = { same_policy static_id static_syntax };

    ghost laws = { partial_equiv_from_equiv (same_policy_equiv static_id static_syntax) };

    fn eq(&self, other: &StaticPolicy) -> bool {
        self.body == other.body
    }
}

impl Eq for StaticPolicy {
    ghost use Rattle.cedar_policies.specs.Same.{same_policy_equiv};
    ghost use Rattle.cedar_policies.specs.StaticPolicies.{static_id, static_syntax};

    ghost laws = { same_policy_equiv static_id static_syntax };
}
