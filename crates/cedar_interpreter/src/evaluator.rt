// What is asked, and what is held besides.
ghost use Rattle.cedar_interpreter.specs.Seen.{AreSeen, are_seen_prop};

use cedar_entities::entity::Entity;
use cedar_entities::store::Entities;
use cedar_extensions::extensions::Extensions;
use cedar_extensions::objects::NoFunction;
use cedar_names::shared::Shared;
use cedar_restricted::partial_values::PartialValue;
use cedar_values::values::Value;
use std::collections::BTreeMap;
use std::fmt;
use std::rc::RcStr;

// What stands for the principal, the action or the resource of a request: an entity or an unknown, and with
// the entity what a store holds of it, looked up once. Where no entity stands there, nothing is said.
#[derive(Drop)]
pub(crate) struct EntityVariable<'s> {
    pub(crate) part: PartialValue,
    pub(crate) entity: Option<&'s Entity>,
}

// What stands for the variables of a request; for the context a record, what is left of one, or an unknown.
#[derive(Drop)]
pub(crate) struct Variables<'s> {
    pub(crate) principal: EntityVariable<'s>,
    pub(crate) action: EntityVariable<'s>,
    pub(crate) resource: EntityVariable<'s>,
    pub(crate) context: PartialValue,
}

/// A request and what is held besides it, by which expressions are evaluated: the entities of a store,
/// the functions of extensions, and the values that are told for unknowns. No evaluation nests deeper
/// than a limit. Contracts see it by `held_by`, what is held of the leaves of trees, by `Serves`, the
/// facts and trees that it serves, and by `depth_of`, its limit.
#[derive(Drop)]
pub struct Evaluator<'s, 'e, 'f, F = NoFunction> {
    pub(crate) variables: Shared<Variables<'s>>,
    pub(crate) entities: &'s Entities,
    pub(crate) extensions: &'e Extensions<'f, F>,
    pub(crate) depth: u32,
    pub(crate) told: Option<&'s BTreeMap<RcStr, Value>>,
    ghost are_seen: { AreSeen entities.now variables } by { are_seen_prop entities.now variables },
}

/// What stands for the principal, the action and the resource.
impl<F> fmt::Debug for Evaluator<'_, '_, '_, F> {
    fn fmt<W: fmt::Write>(&self, f: &mut fmt::Formatter<W>) -> fmt::Result {
        let variables = self.variables.get();
        let principal = &variables.principal.part;
        let action = &variables.action.part;
        let resource = &variables.resource.part;
        write!(f, "<evaluator of {principal}, {action}, {resource}>")
    }
}
