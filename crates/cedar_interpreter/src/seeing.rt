// What stands for the variables of a request. What a store holds of the entities among it is looked up once.
ghost use Rattle.std.specs.Prelude.{◌≡◌, ℕ, Option, Some, IfSome};
ghost use Rattle.std.specs.Option.{option_map, option_copied};
ghost use Rattle.cedar_entities.specs.declared.store.Entities.{Entities as Store};
ghost use Rattle.cedar_extensions.specs.Table.{Table};
ghost use Rattle.cedar_language.specs.Tree as tree;
ghost use Rattle.cedar_language.specs.Tree.{Variable};
ghost use Rattle.cedar_language.specs.Uid.{Text, Uid};
ghost use Rattle.cedar_language.specs.Value.{Plain, Value as Meant};
ghost use Rattle.cedar_literals.specs.Variables.{variable_of};
ghost use Rattle.cedar_partial_evaluation.specs.Partial.{Answer, Evaluated};
ghost use Rattle.cedar_restricted.specs.PartialValues.{partial_of};
ghost use Rattle.cedar_restricted_evaluation.specs.Evaluations.{part_answer};
ghost use Rattle.cedar_interpreter.specs.Asking.{entity_among, AnswersFor};
ghost use Rattle.cedar_interpreter.specs.Holding.{variable_in, variable_held, entity_held};
ghost use Rattle.cedar_interpreter.specs.Seen.{IsSeen, IsSeenFor, uid_standing};

use crate::evaluator::{EntityVariable, Evaluator, Variables};
use crate::given::GivenEntity;
use crate::lent_lookups::held;
use cedar_entities::entity::Entity;
use cedar_entities::store::Entities;
use cedar_extensions::objects::ExtensionFunctionObject;
use cedar_literals::uids::EntityUID;
use cedar_literals::variables::Var;
use cedar_restricted::partial_values::PartialValue;

// The entity that stands there.
fn standing(part: &PartialValue) -> Option<&EntityUID>
    ensures { uid_standing (partial_of part.now) ≡ option_copied result }
{
    match part {
        PartialValue::Value(value) => match value.as_entity() {
            Some(uid) => Some(&**uid),
            None => None,
        },
        PartialValue::Residual(_) => None,
    }
}

// What a store holds of the entity that stands there, if one does.
fn seen_for<'s>(entities: &'s Entities, part: &PartialValue) -> Option<&'s Entity>
    ensures { (uid : Uid) → uid_standing (partial_of part.now) ≡ Some uid → IsSeen entities.now uid (option_copied result) }
{
    match standing(part) {
        Some(uid) => held(entities, uid),
        None => None,
    }
}

impl<'s> EntityVariable<'s> {
    /// What stands for a variable, with what a store holds of it, if it is an entity.
    pub(crate) fn of(entities: &'s Entities, part: PartialValue) -> EntityVariable<'s>
        ensures stands { result.part ≡ part }
        ensures seen { IsSeenFor entities.now result }
    {
        let entity = seen_for(entities, &part);
        EntityVariable { part, entity }
    }

    /// The entity that stands there, with what the store holds of it.
    pub(crate) fn given<'v>(&'v self) -> Option<GivenEntity<'v, 's>>
        ensures stands { option_map (λ given. given.uid.now) result ≡ uid_standing (partial_of self.now.part) }
        ensures seen { (store : Store) → IsSeenFor store self.now →
            IfSome result (λ given. (part_answer (partial_of self.now.part) ≡ Evaluated (Plain (tree.Entity given.uid.now))) × IsSeen store given.uid.now (option_copied given.entity)) }
    {
        match standing(&self.part) {
            Some(uid) => Some(GivenEntity {
                uid,
                entity: self.entity,
            }),
            None => None,
        }
    }
}

impl<'s> Variables<'s> {
    /// What stands for a variable.
    pub(crate) fn part(&self, var: Var) -> &PartialValue
        ensures { result.now ≡ variable_in self.now (variable_of var) }
    {
        match var {
            Var::Principal => &self.principal.part,
            Var::Action => &self.action.part,
            Var::Resource => &self.resource.part,
            Var::Context => &self.context,
        }
    }
}

impl<'s, 'e, 'f, F: ExtensionFunctionObject> Evaluator<'s, 'e, 'f, F> {
    /// The entity that stands for the principal, the action or the resource, with what the store holds of it;
    /// `None` exactly where none does, and for the context. Nothing is looked up, and no memory taken.
    pub fn given_entity(&self, var: Var) -> Option<GivenEntity<'_, 's>>
        ensures given { (variables : Variable → Answer) (told : Text → Option Meant) (store : Store) (table : Table) (depth : ℕ) → AnswersFor F.answers variables told store table depth self.now →
            option_map (λ given. given.uid.now) result ≡ entity_among variables (variable_of var) }
        ensures seen { (variables : Variable → Answer) (told : Text → Option Meant) (store : Store) (table : Table) (depth : ℕ) → AnswersFor F.answers variables told store table depth self.now →
            IfSome result (λ given. (variables (variable_of var) ≡ Evaluated (Plain (tree.Entity given.uid.now))) × IsSeen store given.uid.now (option_copied given.entity)) }
    {
        self.given(var)
    }
}

impl<'s, 'e, 'f, F> Evaluator<'s, 'e, 'f, F> {
    /// The entity that stands for a variable, with what the store holds of it; none where what stands there
    /// isn't known, and for the context. Nothing is looked up.
    pub(crate) fn given(&self, var: Var) -> Option<GivenEntity<'_, 's>>
        ensures stands { option_map (λ given. given.uid.now) result ≡ entity_held self.now (variable_of var) }
        ensures seen { IfSome result (λ given. (variable_held self.now (variable_of var) ≡ Evaluated (Plain (tree.Entity given.uid.now))) × IsSeen self.now.entities.now given.uid.now (option_copied given.entity)) }
    {
        let variables = self.variables.get();
        match var {
            Var::Principal => variables.principal.given(),
            Var::Action => variables.action.given(),
            Var::Resource => variables.resource.given(),
            Var::Context => None,
        }
    }
}
