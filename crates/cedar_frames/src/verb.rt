// What a command does, as its frame says.
ghost use Rattle.std.specs.Prelude.{◌≡◌, IfSome, IfNone};
ghost use Rattle.cedar_frames.specs.Heads.{verb_name};

/// What a command does.
#[derive(Clone, Copy, Debug, PartialEq, Eq)]
pub enum Verb {
    /// Adds the policies of a text.
    Load,
    /// Links a template.
    Link,
    /// Takes a link away.
    Unlink,
    /// Takes a static policy away.
    RemoveStatic,
    /// Takes a template away.
    RemoveTemplate,
    /// Adds entities.
    Add,
    /// Adds or replaces entities.
    Put,
    /// Takes entities away.
    Remove,
    /// Asks a question.
    Ask,
    /// Tells what the open question left out.
    Tell,
}

impl Verb {
    /// The verb that is spelled so, or `None` where none is.
    pub fn named(name: &[u8]) -> Option<Verb>
        ensures found { IfSome result (λ verb. name.now ≡ verb_name verb) }
        ensures none { IfNone result ((verb : Verb) → name.now ≡ verb_name verb → ⊥) }
    {
        if name == b"load".as_slice() {
            Some(Verb::Load)
        } else if name == b"link".as_slice() {
            Some(Verb::Link)
        } else if name == b"unlink".as_slice() {
            Some(Verb::Unlink)
        } else if name == b"remove-static".as_slice() {
            Some(Verb::RemoveStatic)
        } else if name == b"remove-template".as_slice() {
            Some(Verb::RemoveTemplate)
        } else if name == b"add".as_slice() {
            Some(Verb::Add)
        } else if name == b"put".as_slice() {
            Some(Verb::Put)
        } else if name == b"remove".as_slice() {
            Some(Verb::Remove)
        } else if name == b"ask".as_slice() {
            Some(Verb::Ask)
        } else if name == b"tell".as_slice() {
            Some(Verb::Tell)
        } else {
            None
        }
    }

    /// How it is spelled.
    pub fn name(self) -> &'static str
        ensures { result.now ≡ verb_name self }
    {
        match self {
            Verb::Load => "load",
            Verb::Link => "link",
            Verb::Unlink => "unlink",
            Verb::RemoveStatic => "remove-static",
            Verb::RemoveTemplate => "remove-template",
            Verb::Add => "add",
            Verb::Put => "put",
            Verb::Remove => "remove",
            Verb::Ask => "ask",
            Verb::Tell => "tell",
        }
    }
}
