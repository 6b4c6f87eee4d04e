// Why data isn't read straight from its text.
use std::alloc::{AllocError, AllocFailed};

/// Why data isn't read here.
#[derive(Debug, Clone, Copy)]
pub enum Unread {
    /// The text isn't data that is read here: the parser has to tell what it is.
    Other,
    /// Memory ran out.
    Memory,
}

impl From<AllocError> for Unread {
    ghost use Rattle.std.specs.Prelude.{◌≡◌};
    ghost use Rattle.cedar_data.specs.declared.unread.Unread.TheVariants.{Memory};

    ghost from_gives = { λ _ made. made ≡ Memory };

    fn from(_error: AllocError) -> Unread {
        Unread::Memory
    }
}

impl<T: Drop> From<AllocFailed<T>> for Unread {
    ghost use Rattle.std.specs.Prelude.{◌≡◌};
    ghost use Rattle.cedar_data.specs.declared.unread.Unread.TheVariants.{Memory};

    ghost from_gives = { λ _ made. made ≡ Memory };

    fn from(_error: AllocFailed<T>) -> Unread {
        Unread::Memory
    }
}
