// Results that are never errors.

use std::convert::Infallible;

/// Results that are never errors.
pub trait UnwrapInfallible<A> {
    // holds of a result and the value in it
    ghost holds: { Self → A → Type 0 };

    /// The value in it. Takes no memory.
    fn unwrap_infallible(self) -> A
        ensures { holds self result };
}

impl<A> UnwrapInfallible<A> for Result<A, Infallible> {
    ghost use Rattle.std.specs.Prelude.{◌≡◌, Ok};

    ghost holds = { λ result value. result ≡ Ok value };

    fn unwrap_infallible(self) -> A {
        match self {
            Ok(value) => value,
            Err(error) => match error {},
        }
    }
}
