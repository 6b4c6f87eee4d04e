// Templates.
ghost use Rattle.std.specs.Prelude.{◌≡◌, [], ◌↔◌, IsTrue, IfOk, option_map, true};
ghost use Rattle.std.specs.Option.{option_copied};
ghost use Rattle.std.specs.Map.{lookup};
ghost use Rattle.cedar_language.specs.Order.{same_text};
ghost use Rattle.cedar_grammar.specs.Policy.{condition, scope_slots, slots as slots_of};
ghost use Rattle.cedar_trees.specs.Bare.{bare};
ghost use Rattle.cedar_policy_parts.specs.Effects.{effect_of};
ghost use Rattle.cedar_policy_parts.specs.Actions.{action_of};
ghost use Rattle.cedar_policies.specs.Bodies.{body_id, body_place, body_syntax, shared_tree};
ghost use Rattle.cedar_policies.specs.Slots.{slot_ids};

use crate::bodies::TemplateBody;
use crate::held_slots::held_slots;
use cedar_literals::slots::Slot;
use cedar_names::conversions::FromIn;
use cedar_names::identifiers::AnyId;
use cedar_names::places::Loc;
use cedar_policy_parts::actions::ActionConstraint;
use cedar_policy_parts::annotations::{Annotation, Annotations};
use cedar_policy_parts::principals::PrincipalConstraint;
use cedar_policy_parts::resources::ResourceConstraint;
use cedar_policy_parts::{Effect, PolicyID};
use cedar_trees::expr::Expr;
use std::alloc::{AllocError, Global};
use std::rc::Rc;

/// A policy with or without slots, under an id. It lists the slots that its scope and its clauses hold; only one that
/// was made of a clause alone lists none. Contracts see the id through `template_id`, what it lists through
/// `listed_slots`, and the rest, without places, through `syntax_of`. (Cedar language reference, "Policy templates".)
#[derive(Debug)]
pub struct Template {
    body: TemplateBody,
    // those that are held, listed or not
    slots: Vec<Slot>,
    unlisted: bool,
    pub ghost holds_slots: { slot_ids slots.items ≡ slots_of (body_syntax body) },
    pub ghost bare_scope: { unlisted ≡ true → scope_slots (body_syntax body) ≡ [] },
}

// Written by hand, so that a function which may return early lets go of a template by a call.
impl Drop for Template {
    fn drop(self) {
        let Template {
            body: _body,
            slots: _slots,
            unlisted: _unlisted,
        } = self;
    }
}

impl Template {
    ghost use Rattle.cedar_policies.specs.Templates.{template_id, template_place, syntax_of, listed_slots};

    /// The template with this body; refused for memory alone.
    pub fn from_body(alloc: Global, body: TemplateBody) -> Result<Template, AllocError>
        ensures id { IfOk result (λ made. template_id made ≡ body_id body) }
        ensures place { IfOk result (λ made. template_place made ≡ body_place body) }
        ensures syntax { IfOk result (λ made. syntax_of made ≡ body_syntax body) }
        ensures lists { IfOk result (λ made. listed_slots made ≡ slots_of (body_syntax body)) }
    {
        let slots = held_slots(alloc, &body)?;
        Ok(Template {
            body,
            slots,
            unlisted: false,
        })
    }

    /// The same template, which lists its slots, also where it was made of a clause alone. Takes no memory.
    pub fn listed(self) -> Template
        ensures id { template_id result ≡ template_id self }
        ensures place { template_place result ≡ template_place self }
        ensures syntax { syntax_of result ≡ syntax_of self }
        ensures lists { listed_slots result ≡ slots_of (syntax_of self) }
    {
        let (body, slots) = self.into_parts();
        Template {
            body,
            slots,
            unlisted: false,
        }
    }

    // The same template, whose scope has no slot, and which lists none.
    pub(crate) fn unlisted(self) -> Template
        requires { scope_slots (syntax_of self) ≡ [] }
        ensures id { template_id result ≡ template_id self }
        ensures place { template_place result ≡ template_place self }
        ensures syntax { syntax_of result ≡ syntax_of self }
        ensures lists { listed_slots result ≡ [] }
    {
        let (body, slots) = self.into_parts();
        Template {
            body,
            slots,
            unlisted: true,
        }
    }

    /// The template of these parts; refused for memory alone.
    pub fn new(
        alloc: Global,
        id: PolicyID,
        loc: Option<Loc>,
        annotations: Annotations,
        effect: Effect,
        principal_constraint: PrincipalConstraint,
        action_constraint: ActionConstraint,
        resource_constraint: ResourceConstraint,
        non_scope_constraint: Option<Expr>,
    ) -> Result<Template, AllocError>
        ensures id { IfOk result (λ made. template_id made ≡ id) }
        ensures place { IfOk result (λ made. template_place made ≡ loc) }
        ensures syntax { IfOk result (λ made. syntax_of made ≡ record {
          effect = effect_of effect;
          annotations = annotations;
          principal = principal_constraint;
          action = action_of action_constraint;
          resource = resource_constraint;
          body = option_map bare non_scope_constraint;
        }) }
        ensures lists { IfOk result (λ made. listed_slots made ≡ slots_of (syntax_of made)) }
    {
        let body = TemplateBody::new(
            alloc,
            id,
            loc,
            annotations,
            effect,
            principal_constraint,
            action_constraint,
            resource_constraint,
            non_scope_constraint,
        )?;
        Template::from_body(alloc, body)
    }

    /// The template of these parts, some of them shared; refused for memory alone.
    pub fn new_shared(
        alloc: Global,
        id: PolicyID,
        loc: Option<Loc>,
        annotations: Rc<Annotations>,
        effect: Effect,
        principal_constraint: PrincipalConstraint,
        action_constraint: ActionConstraint,
        resource_constraint: ResourceConstraint,
        non_scope_constraint: Option<Rc<Expr>>,
    ) -> Result<Template, AllocError>
        ensures id { IfOk result (λ made. template_id made ≡ id) }
        ensures place { IfOk result (λ made. template_place made ≡ loc) }
        ensures syntax { IfOk result (λ made. syntax_of made ≡ record {
          effect = effect_of effect;
          annotations = annotations.value;
          principal = principal_constraint;
          action = action_of action_constraint;
          resource = resource_constraint;
          body = option_map shared_tree non_scope_constraint;
        }) }
        ensures lists { IfOk result (λ made. listed_slots made ≡ slots_of (syntax_of made)) }
    {
        let body = TemplateBody::new_shared(
            id,
            loc,
            annotations,
            effect,
            principal_constraint,
            action_constraint,
            resource_constraint,
            non_scope_constraint,
        );
        Template::from_body(alloc, body)
    }

    /// Its body: all that is written of it, under its id.
    pub fn body(&self) -> &TemplateBody
        ensures id { body_id result.now ≡ template_id self.now }
        ensures place { body_place result.now ≡ template_place self.now }
        ensures syntax { body_syntax result.now ≡ syntax_of self.now }
    {
        &self.body
    }

    /// Whether the slots that it lists are those of its scope and its clauses, as they are unless it was made of a
    /// clause alone.
    pub fn check_invariant(&self) -> bool
        ensures { IsTrue result ↔ (listed_slots self.now ≡ slots_of (syntax_of self.now)) }
    {
        !self.unlisted || self.slots.is_empty()
    }

    /// The id.
    pub fn id(&self) -> &PolicyID
        ensures { result.now ≡ template_id self.now }
    {
        self.body.id()
    }

    /// The same template under another id; refused for memory alone.
    pub fn new_id(&self, alloc: Global, id: PolicyID) -> Result<Template, AllocError>
        ensures id { IfOk result (λ made. template_id made ≡ id) }
        ensures place { IfOk result (λ made. template_place made ≡ template_place self.now) }
        ensures syntax { IfOk result (λ made. syntax_of made ≡ syntax_of self.now) }
        ensures lists { IfOk result (λ made. listed_slots made ≡ listed_slots self.now) }
    {
        Ok(Template {
            body: self.body.new_id(alloc, id)?,
            slots: self.slots.clone()?,
            unlisted: self.unlisted,
        })
    }

    /// A copy that shares its parts; refused for memory alone.
    pub fn clone(&self, alloc: Global) -> Result<Template, AllocError>
        ensures id { IfOk result (λ copy. template_id copy ≡ template_id self.now) }
        ensures place { IfOk result (λ copy. template_place copy ≡ template_place self.now) }
        ensures syntax { IfOk result (λ copy. syntax_of copy ≡ syntax_of self.now) }
        ensures lists { IfOk result (λ copy. listed_slots copy ≡ listed_slots self.now) }
    {
        self.new_id(alloc, self.id().clone()?)
    }

    /// Where it was read, if it was.
    pub fn loc(&self) -> Option<&Loc>
        ensures { option_copied result ≡ template_place self.now }
    {
        self.body.loc()
    }

    /// The effect.
    pub fn effect(&self) -> Effect
        ensures { effect_of result ≡ (syntax_of self.now).effect }
    {
        self.body.effect()
    }

    /// The annotation of this key, if there is one.
    pub fn annotation(&self, key: &AnyId) -> Option<&Annotation>
        ensures { option_copied result ≡ lookup (same_text key.now) (syntax_of self.now).annotations }
    {
        self.body.annotation(key)
    }

    /// The annotations, lent: `iter` of them goes by their keys.
    pub fn annotations(&self) -> &Annotations
        ensures { result.now ≡ (syntax_of self.now).annotations }
    {
        self.body.annotations()
    }

    /// The annotations, shared.
    pub fn annotations_arc(&self) -> &Rc<Annotations>
        ensures { result.now.value ≡ (syntax_of self.now).annotations }
    {
        self.body.annotations_arc()
    }

    /// What the scope asks of the principal.
    pub fn principal_constraint(&self) -> &PrincipalConstraint
        ensures { result.now ≡ (syntax_of self.now).principal }
    {
        self.body.principal_constraint()
    }

    /// What the scope asks of the action.
    pub fn action_constraint(&self) -> &ActionConstraint
        ensures { action_of result.now ≡ (syntax_of self.now).action }
    {
        self.body.action_constraint()
    }

    /// What the scope asks of the resource.
    pub fn resource_constraint(&self) -> &ResourceConstraint
        ensures { result.now ≡ (syntax_of self.now).resource }
    {
        self.body.resource_constraint()
    }

    /// What the clauses ask, if there are any.
    pub fn non_scope_constraints(&self) -> Option<&Expr>
        ensures { option_map bare (option_copied result) ≡ (syntax_of self.now).body }
    {
        self.body.non_scope_constraints()
    }

    /// What the clauses ask, if there are any, shared.
    pub fn non_scope_constraints_arc(&self) -> Option<&Rc<Expr>>
        ensures { option_map shared_tree (option_copied result) ≡ (syntax_of self.now).body }
    {
        self.body.non_scope_constraints_arc()
    }

    /// Whether both have the same syntax, under whatever ids: places don't count. Takes no memory, and no
    /// stack for a chain down the first parts of the clauses.
    pub fn has_same_syntax(&self, other: &Template) -> bool
        ensures { IsTrue result ↔ (syntax_of self.now ≡ syntax_of other.now) }
    {
        self.body.has_same_syntax(&other.body)
    }

    /// The condition: what the scope asks of the principal, of the action and of the resource, and then
    /// what the clauses ask, each joined by `&&`. Refused for memory alone.
    pub fn condition(&self, alloc: Global) -> Result<Expr, AllocError>
        ensures { IfOk result (λ made. bare made ≡ condition (syntax_of self.now)) }
    {
        self.body.condition(alloc)
    }

    /// The slots that it lists: those of its scope and its clauses, the principal's first. No slot stands twice, so
    /// there are two at the most. Of one that was made of a clause alone none, whatever slots stand there.
    pub fn slots(&self) -> &[Slot]
        ensures { slot_ids result.now ≡ listed_slots self.now }
    {
        if self.unlisted {
            &[]
        } else {
            self.held_slots()
        }
    }

    /// The slots of its scope and its clauses, also where it doesn't list them.
    pub fn held_slots(&self) -> &[Slot]
        ensures { slot_ids result.now ≡ slots_of (syntax_of self.now) }
    {
        self.slots.as_slice()
    }

    /// Whether it lists no slot.
    pub fn is_static(&self) -> bool
        ensures { IsTrue result ↔ (listed_slots self.now ≡ []) }
    {
        self.slots().is_empty()
    }

    // Its body and the slots that it holds.
    pub(crate) fn into_parts(self) -> (TemplateBody, Vec<Slot>)
        ensures id { body_id result.0 ≡ template_id self }
        ensures place { body_place result.0 ≡ template_place self }
        ensures syntax { body_syntax result.0 ≡ syntax_of self }
        ensures slots { slot_ids result.1.items ≡ slots_of (syntax_of self) }
    {
        let Template {
            body,
            slots,
            unlisted: _,
        } = self;
        (body, slots)
    }
}

impl FromIn<TemplateBody> for Template {
    type Error = AllocError;

    ghost use Rattle.std.specs.Prelude.{IfOk};
    ghost use Rattle.cedar_policies.specs.Bodies.{body_id, body_syntax};
    ghost use Rattle.cedar_policies.specs.Templates.{IsTemplate};

    ghost from_in_gives = { λ body result. IfOk result (IsTemplate (body_id body) (body_syntax body)) };

    fn from_in(alloc: Global, body: TemplateBody) -> Result<Template, AllocError> {
        Template::from_body(alloc, body)
    }
}

impl From<Template> for TemplateBody {
    ghost use Rattle.cedar_policies.specs.Bodies.{body_id, body_syntax};
    ghost use Rattle.cedar_policies.specs.Templates.{template_id, syntax_of};

    ghost from_gives = { λ template body. (body_id body ≡ template_id template) × (body_syntax body ≡ syntax_of template) };

    fn from(template: Template) -> TemplateBody {
        template.into_parts().0
    }
}

impl PartialEq for Template {
    ghost use Rattle.std.specs.Cmp.{partial_equiv_from_equiv};
    ghost use Rattle.cedar_policies.specs.Same.{same_policy, same_policy_equiv};
    ghost use Rattle.cedar_policies.specs.Templates.{template_id, syntax_of};

    ghost eq = { same_policy template_id syntax_of };

    ghost laws = { partial_equiv_from_equiv (same_policy_equiv template_id syntax_of) };

    fn eq(&self, other: &Template) -> bool {
        self.body == other.body
    }
}

impl Eq for Template {
    ghost use Rattle.cedar_policies.specs.Same.{same_policy_equiv};
    ghost use Rattle.cedar_policies.specs.Templates.{template_id, syntax_of};

    ghost laws = { same_policy_equiv template_id syntax_of };
}
