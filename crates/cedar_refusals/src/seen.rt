// What a session holds that shows why it refuses a command.
use cedar_extensions::objects::{ExtensionFunctionObject, NoFunction};
use cedar_session::{Entities, Extensions};
use cedar_values::values::Value;
use std::collections::BTreeMap;
use std::rc::RcStr;

/// What a session holds that shows why it refuses a command: both [`Session`](cedar_session::Session) and
/// [`OwnedSession`](cedar_session::OwnedSession) lend it.
pub struct Seen<'s, 'f, F: ExtensionFunctionObject = NoFunction> {
    /// The functions that its texts may call.
    pub extensions: &'s Extensions<'f, F>,
    /// Its limit of depth.
    pub depth: u32,
    /// The entities that are held.
    pub entities: &'s Entities,
    /// The names for which the open question wants values.
    pub untold: &'s [&'s str],
    /// What the open question was told since it was asked; none where no question is open.
    pub told: Option<&'s BTreeMap<RcStr, Value>>,
}

impl<F: ExtensionFunctionObject> Drop for Seen<'_, '_, F> {
    fn drop(self) {
        let Seen {
            extensions: _,
            depth: _,
            entities: _,
            untold: _,
            told: _,
        } = self;
    }
}
