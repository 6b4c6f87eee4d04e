// What a scope compares its variable with.
use either::Either;
use std::error::Error;
use std::fmt;

/// What a scope may compare its variable with.
#[derive(Clone, Copy, Debug, PartialEq, Eq)]
pub enum Ref {
    /// One entity.
    Single,
    /// A set of entities.
    Set,
    /// A slot of a template.
    Template,
}

impl fmt::Display for Ref {
    fn fmt<W: fmt::Write>(&self, f: &mut fmt::Formatter<W>) -> fmt::Result {
        match self {
            Ref::Single => f.write_str("single entity uid"),
            Ref::Set => f.write_str("set of entity uids"),
            Ref::Template => f.write_str("template slot"),
        }
    }
}

/// A scope compares its variable with something that it can't be compared with.
#[derive(Clone, Copy, Debug, PartialEq, Eq)]
pub struct WrongEntityArgument {
    /// What should stand there, or one of what two.
    pub expected: Either<Ref, (Ref, Ref)>,
    /// What stands there.
    pub got: Ref,
}

impl fmt::Display for WrongEntityArgument {
    fn fmt<W: fmt::Write>(&self, f: &mut fmt::Formatter<W>) -> fmt::Result {
        let got = self.got;
        match &self.expected {
            Either::Left(one) => write!(f, "expected {one}, found {got}"),
            Either::Right((one, other)) => write!(f, "expected {one} or {other}, found {got}"),
        }
    }
}

impl Error for WrongEntityArgument {}
