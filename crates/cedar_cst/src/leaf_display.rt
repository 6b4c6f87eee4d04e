// How nodes and leaves are printed: as a text that is read as the same again.
use crate::leaves::{AddOp, Ident, Literal, MultOp, Name, NegOp, Ref, RefInit, RelOp, Slot, Str};
use crate::node::Node;
use std::fmt;

/// Writes what the node holds; `[error]` where it is empty. What is printed of trees is only tested.
pub fn write_part<T: fmt::Display, W: fmt::Write>(
    f: &mut fmt::Formatter<W>,
    part: &Node<Option<T>>,
) -> fmt::Result {
    match part.as_inner() {
        Some(part) => part.fmt(f),
        None => f.write_str("[error]"),
    }
}

/// Writes what the nodes hold, with a comma between each two, which is only tested. It takes the `Vec` that a
/// tree holds, and no slice, since printing a tree leads back here.
pub fn write_list<T: fmt::Display, W: fmt::Write>(
    f: &mut fmt::Formatter<W>,
    parts: &Vec<Node<Option<T>>>,
) -> fmt::Result {
    let mut between = "";
    for part in parts {
        f.write_str(between)?;
        write_part(f, part)?;
        between = ", ";
    }
    Ok(())
}

impl fmt::Display for Ident {
    fn fmt<W: fmt::Write>(&self, f: &mut fmt::Formatter<W>) -> fmt::Result {
        match self {
            Ident::Principal => write!(f, "principal"),
            Ident::Action => write!(f, "action"),
            Ident::Resource => write!(f, "resource"),
            Ident::Context => write!(f, "context"),
            Ident::True => write!(f, "true"),
            Ident::False => write!(f, "false"),
            Ident::Permit => write!(f, "permit"),
            Ident::Forbid => write!(f, "forbid"),
            Ident::When => write!(f, "when"),
            Ident::Unless => write!(f, "unless"),
            Ident::In => write!(f, "in"),
            Ident::Has => write!(f, "has"),
            Ident::Like => write!(f, "like"),
            Ident::Is => write!(f, "is"),
            Ident::If => write!(f, "if"),
            Ident::Then => write!(f, "then"),
            Ident::Else => write!(f, "else"),
            Ident::Ident(word) => write!(f, "{word}"),
            Ident::Invalid(text) => write!(f, "{text}"),
        }
    }
}

impl fmt::Display for Str {
    fn fmt<W: fmt::Write>(&self, f: &mut fmt::Formatter<W>) -> fmt::Result {
        match self {
            Str::String(text) | Str::Invalid(text) => write!(f, "\"{text}\""),
        }
    }
}

impl fmt::Display for Name {
    fn fmt<W: fmt::Write>(&self, f: &mut fmt::Formatter<W>) -> fmt::Result {
        for word in &self.path {
            write_part(f, word)?;
            f.write_str("::")?;
        }
        write_part(f, &self.name)
    }
}

impl fmt::Display for Ref {
    fn fmt<W: fmt::Write>(&self, f: &mut fmt::Formatter<W>) -> fmt::Result {
        match self {
            Ref::Uid { path, eid } => {
                write_part(f, path)?;
                f.write_str("::")?;
                write_part(f, eid)
            }
            Ref::Ref { path, rinits } => {
                write_part(f, path)?;
                f.write_str("::{")?;
                write_list(f, rinits)?;
                f.write_str("}")
            }
        }
    }
}

impl fmt::Display for RefInit {
    fn fmt<W: fmt::Write>(&self, f: &mut fmt::Formatter<W>) -> fmt::Result {
        write_part(f, &self.0)?;
        f.write_str(": ")?;
        write_part(f, &self.1)
    }
}

impl fmt::Display for Literal {
    fn fmt<W: fmt::Write>(&self, f: &mut fmt::Formatter<W>) -> fmt::Result {
        match self {
            Literal::True => write!(f, "true"),
            Literal::False => write!(f, "false"),
            Literal::Num(number) => write!(f, "{number}"),
            Literal::Str(text) => write_part(f, text),
        }
    }
}

impl fmt::Display for Slot {
    fn fmt<W: fmt::Write>(&self, f: &mut fmt::Formatter<W>) -> fmt::Result {
        match self {
            Slot::Principal => write!(f, "?principal"),
            Slot::Resource => write!(f, "?resource"),
            Slot::Other(word) => write!(f, "?{word}"),
        }
    }
}

impl fmt::Display for RelOp {
    fn fmt<W: fmt::Write>(&self, f: &mut fmt::Formatter<W>) -> fmt::Result {
        match self {
            RelOp::Less => write!(f, "<"),
            RelOp::LessEq => write!(f, "<="),
            RelOp::GreaterEq => write!(f, ">="),
            RelOp::Greater => write!(f, ">"),
            RelOp::NotEq => write!(f, "!="),
            RelOp::Eq => write!(f, "=="),
            RelOp::In => write!(f, "in"),
            RelOp::InvalidSingleEq => write!(f, "="),
        }
    }
}

impl fmt::Display for AddOp {
    fn fmt<W: fmt::Write>(&self, f: &mut fmt::Formatter<W>) -> fmt::Result {
        match self {
            AddOp::Plus => write!(f, "+"),
            AddOp::Minus => write!(f, "-"),
        }
    }
}

impl fmt::Display for MultOp {
    fn fmt<W: fmt::Write>(&self, f: &mut fmt::Formatter<W>) -> fmt::Result {
        match self {
            MultOp::Times => write!(f, "*"),
            MultOp::Divide => write!(f, "/"),
            MultOp::Mod => write!(f, "%"),
        }
    }
}

/// How many signs stand for more than four.
const OVER: u8 = 5;

impl fmt::Display for NegOp {
    fn fmt<W: fmt::Write>(&self, f: &mut fmt::Formatter<W>) -> fmt::Result {
        let (sign, count) = match self {
            NegOp::Bang(count) => ("!", *count),
            NegOp::OverBang => ("!", OVER),
            NegOp::Dash(count) => ("-", *count),
            NegOp::OverDash => ("-", OVER),
        };
        for _ in 0..count {
            write!(f, "{sign}")?;
        }
        Ok(())
    }
}
