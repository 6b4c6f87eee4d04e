// A session with a table of its own.
ghost use Rattle.std.specs.Prelude.{◌≡◌, ◌≤◌, length};
ghost use Rattle.cedar_frames.specs.Heads.{body_limit};
ghost use Rattle.cedar_replies.specs.Replies.{reply_of};
ghost use Rattle.cedar_world.specs.RunText.{BodyStep};
ghost use Rattle.cedar_world.specs.World.{new_world};
ghost use Rattle.cedar_parser.specs.Settings.{functions_of};
ghost use Rattle.cedar_session.specs.Calling.{AreNamesOf};
ghost use Rattle.cedar_session.specs.Open.{KeepsOpen};
ghost use Rattle.cedar_session.specs.Settings.{setting_with};

use crate::command::Command;
use crate::held::Held;
use crate::session::Session;
use cedar_extensions::extensions::Extensions;
use cedar_extensions::objects::{ExtensionFunctionObject, NoFunction};
use cedar_frames::Verb;
use cedar_replies::{Refusal, Reply};
use std::alloc::Global;
use std::mem;

/// A session that owns the table of its functions, where [`Session`] borrows one: it is kept where nothing
/// can be borrowed, as behind a pointer that another language holds.
pub struct OwnedSession<'f, F: ExtensionFunctionObject = NoFunction> {
    pub(crate) allocator: Global,
    pub(crate) extensions: Extensions<'f, F>,
    pub(crate) depth: u32,
    pub(crate) held: Held,
    ghost called: { AreNamesOf (functions_of F.answers extensions) held.names },
    ghost steady: { ∥ KeepsOpen (setting_with F.answers extensions depth) held.policies held.entities held.asked ∥₁ },
}

impl<F: ExtensionFunctionObject> Drop for OwnedSession<'_, F> {
    fn drop(self) {
        let OwnedSession {
            allocator: _,
            extensions: _,
            depth: _,
            held: _,
        } = self;
    }
}

impl<'f, F: ExtensionFunctionObject> OwnedSession<'f, F> {
    ghost use Rattle.cedar_session.specs.Owning.{owned_world, owned_setting};

    /// A session without policies and entities, in which no question is open, as [`Session::new`] makes it of
    /// such a table and such a limit. It takes no memory.
    pub fn new(allocator: Global, extensions: Extensions<'f, F>, depth: u32) -> OwnedSession<'f, F>
        ensures world { owned_world result ≡ new_world }
        ensures setting { owned_setting result ≡ setting_with F.answers extensions.entry depth }
    {
        OwnedSession {
            allocator,
            extensions,
            depth,
            held: Held::nothing(allocator),
        }
    }

    /// Answers the command of a verb and a body, as a run answers that of a frame which it could keep: by what
    /// [`Session::apply`] answers, and refused `NotUtf8`, never `Memory`, where the body is no UTF-8. A refused
    /// command changes nothing.
    pub fn answer(&mut self, verb: Verb, body: &[u8]) -> Result<Reply, Refusal>
        requires { length body.now ≤ body_limit }
        ensures step { BodyStep (owned_setting self.old) (owned_world self.old) verb body.now (reply_of result) (owned_world self.new) }
        ensures setting { owned_setting self.new ≡ owned_setting self.old }
    {
        let Ok(text) = str::from_utf8(body) else {
            return Err(Refusal::NotUtf8);
        };
        let held = mem::replace(&mut self.held, Held::nothing(self.allocator));
        let mut session = Session::resumed(self.allocator, &self.extensions, self.depth, held);
        let outcome = session.apply(&Command::of(verb, text));
        self.held = session.into_held();
        outcome
    }
}
