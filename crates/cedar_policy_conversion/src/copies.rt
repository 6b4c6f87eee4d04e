// Copies of words.
ghost use Rattle.std.specs.Prelude.{◌≡◌, IfOk};
ghost use Rattle.std.specs.Option.{option_map};
ghost use Rattle.cedar_cst.specs.LeafView.{view_ident};

use cedar_cst::cst::Ident;
use std::alloc::AllocError;

/// A copy of a word.
pub(crate) fn copied(word: &Ident) -> Result<Ident, AllocError>
    ensures { IfOk result (λ copy. view_ident copy ≡ view_ident word.now) }
{
    match word {
        Ident::Invalid(text) => Ok(Ident::Invalid(text.clone()?)),
        Ident::Ident(text) => Ok(Ident::Ident(text.clone()?)),
        _ => word.clone(),
    }
}

/// A copy of a word that may be missing.
pub(crate) fn copied_if_any(word: &Option<Ident>) -> Result<Option<Ident>, AllocError>
    ensures { IfOk result (λ copy. option_map view_ident copy ≡ option_map view_ident word.now) }
{
    match word {
        None => Ok(None),
        Some(word) => Ok(Some(copied(word)?)),
    }
}
