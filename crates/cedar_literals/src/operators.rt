// Operators that evaluate all of their operands.

use std::fmt;

/// An operator of one operand. (Cedar language reference, "Operators and functions".)
#[derive(Clone, Copy, Debug, PartialEq, Eq, PartialOrd, Ord, Hash)]
pub enum UnaryOp {
    /// Not, of a Boolean.
    Not,
    /// The negative of a long.
    Neg,
    /// Whether a set is empty.
    IsEmpty,
}

/// An operator of two operands. (Cedar language reference, "Operators and functions".)
#[derive(Clone, Copy, Debug, PartialEq, Eq, PartialOrd, Ord, Hash)]
pub enum BinaryOp {
    /// Whether two values are equal.
    Eq,
    /// Whether the first is below the second.
    Less,
    /// Whether the first is below the second, or equal to it.
    LessEq,
    /// The sum of two longs.
    Add,
    /// The difference of two longs.
    Sub,
    /// The product of two longs.
    Mul,
    /// Whether an entity is another, or below it, or below one of a set.
    In,
    /// Whether a set has a member.
    Contains,
    /// Whether a set has all members of another.
    ContainsAll,
    /// Whether a set has a member of another.
    ContainsAny,
    /// An entity's tag.
    GetTag,
    /// Whether an entity has a tag.
    HasTag,
}

impl fmt::Display for UnaryOp {
    ghost use Rattle.std.specs.Prelude.{Some};
    ghost use Rattle.cedar_literals.specs.Operators.{unary_operator_text};

    ghost output = { λ operator. Some (unary_operator_text operator) };

    fn fmt<W: fmt::Write>(&self, f: &mut fmt::Formatter<W>) -> fmt::Result {
        f.write_str(match self {
            UnaryOp::Not => "!",
            UnaryOp::Neg => "-",
            UnaryOp::IsEmpty => "isEmpty",
        })
    }
}

impl fmt::Display for BinaryOp {
    ghost use Rattle.std.specs.Prelude.{Some};
    ghost use Rattle.cedar_literals.specs.Operators.{binary_operator_text};

    ghost output = { λ operator. Some (binary_operator_text operator) };

    fn fmt<W: fmt::Write>(&self, f: &mut fmt::Formatter<W>) -> fmt::Result {
        f.write_str(match self {
            BinaryOp::Eq => "==",
            BinaryOp::Less => "<",
            BinaryOp::LessEq => "<=",
            BinaryOp::Add => "+",
            BinaryOp::Sub => "-",
            BinaryOp::Mul => "*",
            BinaryOp::In => "in",
            BinaryOp::Contains => "contains",
            BinaryOp::ContainsAll => "containsAll",
            BinaryOp::ContainsAny => "containsAny",
            BinaryOp::GetTag => "getTag",
            BinaryOp::HasTag => "hasTag",
        })
    }
}
