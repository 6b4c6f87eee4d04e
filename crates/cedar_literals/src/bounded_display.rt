// Printing with a bound on the elements of sets and records.
ghost use Rattle.std.specs.Fmt.{DisplaysOnOk};
ghost use Rattle.std.specs.Prelude.{◌≡◌, ℕ, Option, Some, None, IfSome, IfOk};
ghost use Rattle.std.specs.String.{string_bytes};
ghost use Rattle.cedar_language.specs.Uid.{Text};

use std::alloc::{AllocError, Global};
use std::fmt;

/// What is printed with a bound on the elements of each set and each record.
pub trait BoundedDisplay {
    // Its text under a bound, or `None` where the impl doesn't specify it.
    ghost bounded_output: { Self → Option ℕ → Option Text };

    /// Writes it: of each set and each record the first `n` elements, or all where no bound is given.
    fn fmt<W: fmt::Write>(&self, f: &mut fmt::Formatter<W>, n: Option<usize>) -> fmt::Result
        ensures { DisplaysOnOk W.write_str_gives f.old result (bounded_output self.now n) f.new };

    /// Writes it: of each set and each record the first `n` elements.
    fn fmt_bounded<W: fmt::Write>(&self, f: &mut fmt::Formatter<W>, n: usize) -> fmt::Result
        ensures { DisplaysOnOk W.write_str_gives f.old result (bounded_output self.now (Some n)) f.new }
    {
        self.fmt(f, Some(n))
    }

    /// Writes all of it.
    fn fmt_unbounded<W: fmt::Write>(&self, f: &mut fmt::Formatter<W>) -> fmt::Result
        ensures { DisplaysOnOk W.write_str_gives f.old result (bounded_output self.now None) f.new }
    {
        self.fmt(f, None)
    }
}

/// The texts of what is printed with a bound.
pub trait BoundedToString {
    // Its text under a bound, or `None` where the impl doesn't specify it.
    ghost bounded_text: { Self → Option ℕ → Option Text };

    /// Its text, with the first `n` elements of each set and each record, or all where no bound is
    /// given; refused for memory alone.
    fn to_string(&self, alloc: Global, n: Option<usize>) -> Result<String, AllocError>
        ensures { IfSome (bounded_text self.now n) (λ text. IfOk result (λ string. string_bytes string ≡ text)) };

    /// Its text, with the first `n` elements of each set and each record; refused for memory alone.
    fn to_string_bounded(&self, alloc: Global, n: usize) -> Result<String, AllocError>
        ensures { IfSome (bounded_text self.now (Some n)) (λ text. IfOk result (λ string. string_bytes string ≡ text)) };

    /// Its whole text; refused for memory alone.
    fn to_string_unbounded(&self, alloc: Global) -> Result<String, AllocError>
        ensures { IfSome (bounded_text self.now None) (λ text. IfOk result (λ string. string_bytes string ≡ text)) };
}

impl<T: BoundedDisplay> BoundedToString for T {
    ghost bounded_text = { T.bounded_output };

    fn to_string(&self, alloc: Global, n: Option<usize>) -> Result<String, AllocError> {
        let bounded = Bounded { value: self, n };
        ToString::to_string(&bounded, alloc)
    }

    fn to_string_bounded(&self, alloc: Global, n: usize) -> Result<String, AllocError> {
        BoundedToString::to_string(self, alloc, Some(n))
    }

    fn to_string_unbounded(&self, alloc: Global) -> Result<String, AllocError> {
        BoundedToString::to_string(self, alloc, None)
    }
}

/// A value under a bound.
#[derive(Drop)]
struct Bounded<'a, T> {
    value: &'a T,
    n: Option<usize>,
}

impl<T: BoundedDisplay> fmt::Display for Bounded<'_, T> {
    ghost output = { λ bounded. T.bounded_output bounded.value.now bounded.n };

    fn fmt<W: fmt::Write>(&self, f: &mut fmt::Formatter<W>) -> fmt::Result {
        self.value.fmt(f, self.n)
    }
}
