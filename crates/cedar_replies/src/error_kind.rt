// Why a policy errs.
ghost use Rattle.std.specs.Prelude.{◌≡◌};
ghost use Rattle.cedar_replies.specs.Kinds.{error_name};

/// Why an evaluation errs, without what it met.
#[derive(Clone, Copy, Debug, PartialEq, Eq)]
pub enum ErrorKind {
    /// An attribute or a tag is read of an entity that isn't held.
    EntityDoesNotExist,
    /// An entity lacks the attribute or the tag.
    EntityAttrDoesNotExist,
    /// A record lacks the attribute.
    RecordAttrDoesNotExist,
    /// An extension function isn't known.
    FailedExtensionFunctionLookup,
    /// A value has another type than the operator takes.
    TypeError,
    /// An extension function is called with too few or too many arguments.
    WrongNumArguments,
    /// A number lies outside the 64-bit integers.
    IntegerOverflow,
    /// A slot has no entity.
    UnlinkedSlot,
    /// An extension function fails.
    FailedExtensionFunctionExecution,
    /// A value is wanted where something unknown is left.
    NonValue,
    /// An evaluation is deeper than its limit. No answer shows it.
    RecursionLimit,
    /// There was no memory. No answer shows it.
    Memory,
}

impl ErrorKind {
    /// How it is written.
    pub fn name(self) -> &'static str
        ensures { result.now ≡ error_name self }
    {
        match self {
            ErrorKind::EntityDoesNotExist => "EntityDoesNotExist",
            ErrorKind::EntityAttrDoesNotExist => "EntityAttrDoesNotExist",
            ErrorKind::RecordAttrDoesNotExist => "RecordAttrDoesNotExist",
            ErrorKind::FailedExtensionFunctionLookup => "FailedExtensionFunctionLookup",
            ErrorKind::TypeError => "TypeError",
            ErrorKind::WrongNumArguments => "WrongNumArguments",
            ErrorKind::IntegerOverflow => "IntegerOverflow",
            ErrorKind::UnlinkedSlot => "UnlinkedSlot",
            ErrorKind::FailedExtensionFunctionExecution => "FailedExtensionFunctionExecution",
            ErrorKind::NonValue => "NonValue",
            ErrorKind::RecursionLimit => "RecursionLimit",
            ErrorKind::Memory => "Memory",
        }
    }
}
