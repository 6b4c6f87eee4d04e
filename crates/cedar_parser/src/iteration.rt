// The errors of a text, one after the other.
ghost use Rattle.std.specs.Prelude.{◌≡◌};
ghost use Rattle.cedar_parser.specs.ErrorsLeft.{errors_of, lent_left};

use crate::errors::{ParseError, ParseErrors};
use cedar_trees::unknowns::NonEmpty;
use std::{slice, vec};

/// The errors of a text, lent, in their order.
#[derive(Drop)]
pub struct Iter<'a> {
    head: Option<&'a ParseError>,
    tail: slice::Iter<'a, ParseError>,
}

impl<'a> Iterator for Iter<'a> {
    type Item = &'a ParseError;

    ghost use Rattle.std.specs.Iterator.{YieldsFirstRef, item_count};
    ghost use Rattle.cedar_parser.specs.ErrorsLeft.{lent_left};

    ghost next_gives = { YieldsFirstRef lent_left };

    ghost remaining = { item_count lent_left };

    fn next(&mut self) -> Option<&'a ParseError> {
        match self.head.take() {
            Some(error) => Some(error),
            None => self.tail.next(),
        }
    }
}

/// The errors of a text, each taken out, in their order.
#[derive(Drop)]
pub struct IntoIter {
    head: Option<ParseError>,
    tail: vec::IntoIter<ParseError>,
}

impl Iterator for IntoIter {
    type Item = ParseError;

    ghost use Rattle.std.specs.Iterator.{YieldsFirst, item_count};
    ghost use Rattle.cedar_parser.specs.ErrorsLeft.{errors_left};

    ghost next_gives = { YieldsFirst errors_left };

    ghost remaining = { item_count errors_left };

    fn next(&mut self) -> Option<ParseError> {
        match self.head.take() {
            Some(error) => Some(error),
            None => self.tail.next(),
        }
    }
}

impl ParseErrors {
    /// The errors, in their order.
    pub fn iter(&self) -> Iter<'_>
        ensures { lent_left result ≡ errors_of self.now }
    {
        Iter {
            head: Some(&self.0.head),
            tail: self.0.tail.iter(),
        }
    }
}

impl<'a> IntoIterator for &'a ParseErrors {
    type Item = &'a ParseError;

    type IntoIter = Iter<'a>;

    ghost use Rattle.std.specs.Prelude.{◌≡◌};
    ghost use Rattle.cedar_parser.specs.ErrorsLeft.{errors_of, lent_left};

    ghost into_iter_gives = { λ errors it. lent_left it ≡ errors_of errors.now };

    fn into_iter(self) -> Iter<'a> {
        self.iter()
    }
}

impl IntoIterator for ParseErrors {
    type Item = ParseError;

    type IntoIter = IntoIter;

    ghost use Rattle.std.specs.Prelude.{◌≡◌};
    ghost use Rattle.cedar_parser.specs.ErrorsLeft.{errors_left, errors_of};

    ghost into_iter_gives = { λ errors it. errors_left it ≡ errors_of errors };

    fn into_iter(self) -> IntoIter {
        let ParseErrors(NonEmpty { head, tail }) = self;
        IntoIter {
            head: Some(head),
            tail: tail.into_iter(),
        }
    }
}
