// What is written of a policy or a template.
ghost use Rattle.std.specs.Prelude.{◌≡◌, ◌↔◌, IsTrue, IfOk, option_map};
ghost use Rattle.std.specs.Option.{option_copied};
ghost use Rattle.std.specs.Map.{lookup};
ghost use Rattle.cedar_language.specs.Order.{same_text};
ghost use Rattle.cedar_language.specs.Tree.{Principal, PrincipalSlot, Resource, ResourceSlot};
ghost use Rattle.cedar_grammar.specs.Policy.{constraint_tree, action_tree, condition};
ghost use Rattle.cedar_trees.specs.Bare.{bare};
ghost use Rattle.cedar_policy_parts.specs.Effects.{effect_of};
ghost use Rattle.cedar_policy_parts.specs.Actions.{action_of};
ghost use Rattle.cedar_policies.specs.Bodies.{body_id, body_place, body_syntax, shared_tree};
ghost use Rattle.cedar_policies.specs.Same.{same_clauses, same_syntax};

use cedar_names::identifiers::AnyId;
use cedar_names::places::Loc;
use cedar_policy_parts::actions::ActionConstraint;
use cedar_policy_parts::annotations::{Annotation, Annotations};
use cedar_policy_parts::principals::PrincipalConstraint;
use cedar_policy_parts::resources::ResourceConstraint;
use cedar_policy_parts::{Effect, PolicyID};
use cedar_shapes::shapes::ExprShape;
use cedar_trees::expr::Expr;
use std::alloc::{AllocError, Global};
use std::rc::Rc;

/// What is written of a policy or of a template, under an id. Contracts see the id through `body_id`
/// and the rest, without places, through `body_syntax`. (Cedar language reference, "Policy syntax".)
#[derive(Debug)]
pub struct TemplateBody {
    id: PolicyID,
    loc: Option<Loc>,
    annotations: Rc<Annotations>,
    effect: Effect,
    principal_constraint: PrincipalConstraint,
    action_constraint: ActionConstraint,
    resource_constraint: ResourceConstraint,
    non_scope_constraints: Option<Rc<Expr>>,
}

// Written by hand, so that a function which may return early lets go of a body by a call.
impl Drop for TemplateBody {
    fn drop(self) {
        let TemplateBody {
            id: _id,
            loc: _loc,
            annotations: _annotations,
            effect: _effect,
            principal_constraint: _principal_constraint,
            action_constraint: _action_constraint,
            resource_constraint: _resource_constraint,
            non_scope_constraints: _non_scope_constraints,
        } = self;
    }
}

/// The parts of a body, which are the body itself.
pub type TemplateBodyImpl = TemplateBody;

impl TemplateBody {
    /// The body of these parts, some of them shared; takes no memory.
    pub fn new_shared(
        id: PolicyID,
        loc: Option<Loc>,
        annotations: Rc<Annotations>,
        effect: Effect,
        principal_constraint: PrincipalConstraint,
        action_constraint: ActionConstraint,
        resource_constraint: ResourceConstraint,
        non_scope_constraints: Option<Rc<Expr>>,
    ) -> TemplateBody
        ensures id { body_id result ≡ id }
        ensures place { body_place result ≡ loc }
        ensures syntax { body_syntax result ≡ record {
          effect = effect_of effect;
          annotations = annotations.value;
          principal = principal_constraint;
          action = action_of action_constraint;
          resource = resource_constraint;
          body = option_map shared_tree non_scope_constraints;
        } }
    {
        TemplateBody {
            id,
            loc,
            annotations,
            effect,
            principal_constraint,
            action_constraint,
            resource_constraint,
            non_scope_constraints,
        }
    }

    /// The body of these parts; refused for memory alone.
    pub fn new(
        alloc: Global,
        id: PolicyID,
        loc: Option<Loc>,
        annotations: Annotations,
        effect: Effect,
        principal_constraint: PrincipalConstraint,
        action_constraint: ActionConstraint,
        resource_constraint: ResourceConstraint,
        non_scope_constraints: Option<Expr>,
    ) -> Result<TemplateBody, AllocError>
        ensures id { IfOk result (λ made. body_id made ≡ id) }
        ensures place { IfOk result (λ made. body_place made ≡ loc) }
        ensures syntax { IfOk result (λ made. body_syntax made ≡ record {
          effect = effect_of effect;
          annotations = annotations;
          principal = principal_constraint;
          action = action_of action_constraint;
          resource = resource_constraint;
          body = option_map bare non_scope_constraints;
        }) }
    {
        let non_scope_constraints = match non_scope_constraints {
            None => None,
            Some(expr) => Some(Rc::new(alloc, expr)?),
        };
        Ok(TemplateBody::new_shared(
            id,
            loc,
            Rc::new(alloc, annotations)?,
            effect,
            principal_constraint,
            action_constraint,
            resource_constraint,
            non_scope_constraints,
        ))
    }

    /// The id.
    pub fn id(&self) -> &PolicyID
        ensures { result.now ≡ body_id self.now }
    {
        &self.id
    }

    /// The same body under another id; refused for memory alone.
    pub fn new_id(&self, alloc: Global, id: PolicyID) -> Result<TemplateBody, AllocError>
        ensures id { IfOk result (λ made. body_id made ≡ id) }
        ensures place { IfOk result (λ made. body_place made ≡ body_place self.now) }
        ensures syntax { IfOk result (λ made. body_syntax made ≡ body_syntax self.now) }
    {
        let loc = match &self.loc {
            None => None,
            Some(loc) => Some(loc.clone(alloc)?),
        };
        let non_scope_constraints = match &self.non_scope_constraints {
            None => None,
            Some(expr) => Some(expr.clone()?),
        };
        Ok(TemplateBody {
            id,
            loc,
            annotations: self.annotations.clone()?,
            effect: self.effect,
            principal_constraint: self.principal_constraint.clone(alloc)?,
            action_constraint: self.action_constraint.clone(alloc)?,
            resource_constraint: self.resource_constraint.clone(alloc)?,
            non_scope_constraints,
        })
    }

    /// A copy that shares its parts; refused for memory alone.
    pub fn clone(&self, alloc: Global) -> Result<TemplateBody, AllocError>
        ensures id { IfOk result (λ copy. body_id copy ≡ body_id self.now) }
        ensures place { IfOk result (λ copy. body_place copy ≡ body_place self.now) }
        ensures syntax { IfOk result (λ copy. body_syntax copy ≡ body_syntax self.now) }
    {
        self.new_id(alloc, self.id.clone()?)
    }

    /// Where it was read, if it was.
    pub fn loc(&self) -> Option<&Loc>
        ensures { option_copied result ≡ body_place self.now }
    {
        self.loc.as_ref()
    }

    /// The effect.
    pub fn effect(&self) -> Effect
        ensures { effect_of result ≡ (body_syntax self.now).effect }
    {
        self.effect
    }

    /// The annotation of this key, if there is one.
    pub fn annotation(&self, key: &AnyId) -> Option<&Annotation>
        ensures { option_copied result ≡ lookup (same_text key.now) (body_syntax self.now).annotations }
    {
        self.annotations.get(key)
    }

    /// The annotations, lent: `iter` of them goes by their keys.
    pub fn annotations(&self) -> &Annotations
        ensures { result.now ≡ (body_syntax self.now).annotations }
    {
        &self.annotations
    }

    /// The annotations, shared.
    pub fn annotations_arc(&self) -> &Rc<Annotations>
        ensures { result.now.value ≡ (body_syntax self.now).annotations }
    {
        &self.annotations
    }

    /// What the scope asks of the principal.
    pub fn principal_constraint(&self) -> &PrincipalConstraint
        ensures { result.now ≡ (body_syntax self.now).principal }
    {
        &self.principal_constraint
    }

    /// The condition that it is; refused for memory alone.
    pub fn principal_constraint_expr(&self, alloc: Global) -> Result<Expr, AllocError>
        ensures { IfOk result (λ made. bare made ≡ constraint_tree Principal PrincipalSlot (body_syntax self.now).principal) }
    {
        self.principal_constraint.as_expr(alloc)
    }

    /// What the scope asks of the action.
    pub fn action_constraint(&self) -> &ActionConstraint
        ensures { action_of result.now ≡ (body_syntax self.now).action }
    {
        &self.action_constraint
    }

    /// The condition that it is; refused for memory alone.
    pub fn action_constraint_expr(&self, alloc: Global) -> Result<Expr, AllocError>
        ensures { IfOk result (λ made. bare made ≡ action_tree (body_syntax self.now).action) }
    {
        self.action_constraint.as_expr(alloc)
    }

    /// What the scope asks of the resource.
    pub fn resource_constraint(&self) -> &ResourceConstraint
        ensures { result.now ≡ (body_syntax self.now).resource }
    {
        &self.resource_constraint
    }

    /// The condition that it is; refused for memory alone.
    pub fn resource_constraint_expr(&self, alloc: Global) -> Result<Expr, AllocError>
        ensures { IfOk result (λ made. bare made ≡ constraint_tree Resource ResourceSlot (body_syntax self.now).resource) }
    {
        self.resource_constraint.as_expr(alloc)
    }

    /// What the clauses ask, if there are any.
    pub fn non_scope_constraints(&self) -> Option<&Expr>
        ensures { option_map bare (option_copied result) ≡ (body_syntax self.now).body }
    {
        match &self.non_scope_constraints {
            None => None,
            Some(expr) => Some(expr),
        }
    }

    /// What the clauses ask, if there are any, shared.
    pub fn non_scope_constraints_arc(&self) -> Option<&Rc<Expr>>
        ensures { option_map shared_tree (option_copied result) ≡ (body_syntax self.now).body }
    {
        self.non_scope_constraints.as_ref()
    }

    // Whether what the clauses ask is the same.
    fn has_same_clauses(&self, other: &TemplateBody) -> bool
        ensures { result ≡ same_clauses (body_syntax self.now).body (body_syntax other.now).body }
    {
        match (&self.non_scope_constraints, &other.non_scope_constraints) {
            (None, None) => true,
            (Some(a), Some(b)) => a.cmp_shape(b).is_eq(),
            _ => false,
        }
    }

    // Whether both have the same parts.
    fn has_same_parts(&self, other: &TemplateBody) -> bool
        ensures { result ≡ same_syntax (body_syntax self.now) (body_syntax other.now) }
    {
        self.effect == other.effect
            && *self.annotations == *other.annotations
            && self.principal_constraint == other.principal_constraint
            && self.action_constraint == other.action_constraint
            && self.resource_constraint == other.resource_constraint
            && self.has_same_clauses(other)
    }

    /// Whether both have the same syntax, under whatever ids: places don't count. Takes no memory, and no
    /// stack for a chain down the first parts of the clauses.
    pub fn has_same_syntax(&self, other: &TemplateBody) -> bool
        ensures { IsTrue result ↔ (body_syntax self.now ≡ body_syntax other.now) }
    {
        self.has_same_parts(other)
    }

    /// The condition: what the scope asks of the principal, of the action and of the resource, and then
    /// what the clauses ask, each joined by `&&`. Refused for memory alone.
    pub fn condition(&self, alloc: Global) -> Result<Expr, AllocError>
        ensures { IfOk result (λ made. bare made ≡ condition (body_syntax self.now)) }
    {
        let principal = self.principal_constraint_expr(alloc)?;
        let scope = Expr::and(alloc, principal, self.action_constraint_expr(alloc)?)?;
        let scope = Expr::and(alloc, scope, self.resource_constraint_expr(alloc)?)?;
        match &self.non_scope_constraints {
            None => Ok(scope),
            Some(expr) => Expr::and(alloc, scope, expr.as_ref().clone(alloc)?),
        }
    }
}

impl PartialEq for TemplateBody {
    ghost use Rattle.std.specs.Cmp.{partial_equiv_from_equiv};
    ghost use Rattle.cedar_policies.specs.Same.{same_policy, same_policy_equiv};
    ghost use Rattle.cedar_policies.specs.Bodies.{body_id, body_syntax};

    ghost eq = { same_policy body_id body_syntax };

    ghost laws = { partial_equiv_from_equiv (same_policy_equiv body_id body_syntax) };

    fn eq(&self, other: &TemplateBody) -> bool {
        self.id == other.id && self.has_same_parts(other)
    }
}

impl Eq for TemplateBody {
    ghost use Rattle.cedar_policies.specs.Same.{same_policy_equiv};
    ghost use Rattle.cedar_policies.specs.Bodies.{body_id, body_syntax};

    ghost laws = { same_policy_equiv body_id body_syntax };
}
