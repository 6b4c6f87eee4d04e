// A question of which all is given.
ghost use Rattle.std.specs.Prelude.{◌≡◌, true};
ghost use Rattle.cedar_data.specs.Simple.{tree_of, is_simple, record_value};

use crate::attributes::Attributes;
use cedar_literals::uids::EntityUID;
use std::rc::Rc;

/// A question of which all is given: its principal, its action, its resource, and a context of literals and of records of
/// them, in which nothing is unknown.
pub struct GivenQuestion {
    /// Who asks.
    pub principal: Rc<EntityUID>,
    /// What is to be done.
    pub action: Rc<EntityUID>,
    /// What it is to be done to.
    pub resource: Rc<EntityUID>,
    /// What else is known.
    pub context: Rc<Attributes>,
    ghost simple: { is_simple (tree_of (record_value context.value.entries)) ≡ true },
}

impl Drop for GivenQuestion {
    fn drop(self) {
        let GivenQuestion {
            principal: _,
            action: _,
            resource: _,
            context: _,
        } = self;
    }
}
