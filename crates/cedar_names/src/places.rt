// Places in a text.
ghost use Rattle.std.specs.Prelude.{◌≡◌, IfOk};
ghost use Rattle.std.specs.Str.Pattern.{GetsRange};
ghost use Rattle.std.specs.Rc.{rc_str_bytes};

use crate::shared::Shared;
use crate::texts::SharedText;
use std::alloc::{AllocError, Global};
use std::marker::Model;
use std::rc::RcStr;

/// A range of bytes of a text: from `start`, up to and without `end`.
#[derive(Clone, Copy, Debug, PartialEq, Eq, PartialOrd, Ord, Hash)]
pub struct Span {
    pub start: usize,
    pub end: usize,
}

/// What a place is: a range of bytes, and the text that they are of.
#[derive(Debug, PartialEq, Eq, PartialOrd, Ord, Hash, Drop)]
pub struct Place {
    pub span: Span,
    pub src: SharedText,
}

/// Where something stands in a text: a range of its bytes, and the text. Copies share it, so that what
/// stands at one place holds it once.
#[derive(Debug, PartialEq, Eq, PartialOrd, Ord, Hash, Clone)]
pub struct Loc {
    place: Shared<Place>,
}

// By hand, so that letting go of one is a call.
impl Drop for Loc {
    fn drop(self) {
        let Loc { place: _ } = self;
    }
}

impl Model for Loc {
    ghost use Rattle.cedar_names.specs.declared.places.Place.{Place};

    ghost Value = { Place };

    ghost view = { λ l. l.place };

    ghost inverse = { λ place. record { place = place } };
}

impl Loc {
    /// The place of `span` in the text `src`; refused for memory alone.
    pub fn new(alloc: Global, span: Span, src: RcStr) -> Result<Loc, AllocError>
        ensures span { IfOk result (λ loc. loc.span ≡ span) }
        ensures src { IfOk result (λ loc. loc.src ≡ rc_str_bytes src) }
    {
        let src = SharedText::new(src);
        Ok(Loc {
            place: Shared::new(alloc, Place { span, src })?,
        })
    }

    /// The range: its first byte and the byte after it, counted from the text's start.
    pub fn span(&self) -> Span
        ensures { result ≡ self.now.span }
    {
        self.place.get().span
    }

    /// The first byte of the range, counted from the text's start.
    pub fn start(&self) -> usize
        ensures { result ≡ self.now.span.start }
    {
        self.place.get().span.start
    }

    /// The byte after the range, counted from the text's start.
    pub fn end(&self) -> usize
        ensures { result ≡ self.now.span.end }
    {
        self.place.get().span.end
    }

    /// The text of the range; none where it ends before it starts, ends past the text or cuts a
    /// character.
    pub fn snippet(&self) -> Option<&str>
        ensures { GetsRange self.now.src self.now.span.start self.now.span.end result }
    {
        let Place { span, src } = self.place.get();
        src.as_str().get(span.start..span.end)
    }

    /// A copy, which shares the place; refused for memory alone.
    pub fn clone(&self, _alloc: Global) -> Result<Loc, AllocError>
        ensures { IfOk result (λ copy. copy ≡ self.now) }
    {
        Clone::clone(self)
    }
}
