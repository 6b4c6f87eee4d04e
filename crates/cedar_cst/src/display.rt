// How trees are printed: as a text that is read as the same tree again.
use crate::cst::{
    Add, And, Annotation, Cond, Expr, ExprData, ExprImpl, MemAccess, Member, Mult, Or, Policies,
    Policy, PolicyImpl, Primary, RecInit, Relation, Unary, VariableDef,
};
use crate::leaf_display::{write_list, write_part};
use std::fmt;

impl fmt::Display for Policies {
    fn fmt<W: fmt::Write>(&self, f: &mut fmt::Formatter<W>) -> fmt::Result {
        let mut between = "";
        for policy in &self.0 {
            f.write_str(between)?;
            write_part(f, policy)?;
            between = " ";
        }
        Ok(())
    }
}

impl fmt::Display for Policy {
    fn fmt<W: fmt::Write>(&self, f: &mut fmt::Formatter<W>) -> fmt::Result {
        match self {
            Policy::Policy(policy) => policy.fmt(f),
        }
    }
}

impl fmt::Display for PolicyImpl {
    fn fmt<W: fmt::Write>(&self, f: &mut fmt::Formatter<W>) -> fmt::Result {
        for annotation in &self.annotations {
            write_part(f, annotation)?;
            f.write_str(" ")?;
        }
        write_part(f, &self.effect)?;
        f.write_str("(")?;
        write_list(f, &self.variables)?;
        f.write_str(")")?;
        for cond in &self.conds {
            f.write_str(" ")?;
            write_part(f, cond)?;
        }
        f.write_str(";")
    }
}

impl fmt::Display for Annotation {
    fn fmt<W: fmt::Write>(&self, f: &mut fmt::Formatter<W>) -> fmt::Result {
        f.write_str("@")?;
        write_part(f, &self.key)?;
        if let Some(value) = &self.value {
            f.write_str("(")?;
            write_part(f, value)?;
            f.write_str(")")?;
        }
        Ok(())
    }
}

impl fmt::Display for VariableDef {
    fn fmt<W: fmt::Write>(&self, f: &mut fmt::Formatter<W>) -> fmt::Result {
        write_part(f, &self.variable)?;
        if let Some(type_name) = &self.unused_type_name {
            f.write_str(": ")?;
            write_part(f, type_name)?;
        }
        if let Some(entity_type) = &self.entity_type {
            f.write_str(" is ")?;
            write_part(f, entity_type)?;
        }
        if let Some((op, expr)) = &self.ineq {
            write!(f, " {op} ")?;
            write_part(f, expr)?;
        }
        Ok(())
    }
}

impl fmt::Display for Cond {
    fn fmt<W: fmt::Write>(&self, f: &mut fmt::Formatter<W>) -> fmt::Result {
        write_part(f, &self.cond)?;
        f.write_str(" {")?;
        if let Some(expr) = &self.expr {
            write_part(f, expr)?;
        }
        f.write_str("}")
    }
}

impl fmt::Display for Expr {
    #[cycle(display)]
    fn fmt<W: fmt::Write>(&self, f: &mut fmt::Formatter<W>) -> fmt::Result {
        match self {
            Expr::Expr(expr) => expr.fmt(f),
        }
    }
}

impl fmt::Display for ExprImpl {
    #[cycle(display)]
    fn fmt<W: fmt::Write>(&self, f: &mut fmt::Formatter<W>) -> fmt::Result {
        self.expr.fmt(f)
    }
}

impl fmt::Display for ExprData {
    #[cycle(display)]
    fn fmt<W: fmt::Write>(&self, f: &mut fmt::Formatter<W>) -> fmt::Result {
        match self {
            ExprData::Or(or) => write_part(f, or),
            ExprData::If(test, yes, no) => {
                f.write_str("if ")?;
                write_part(f, test)?;
                f.write_str(" then ")?;
                write_part(f, yes)?;
                f.write_str(" else ")?;
                write_part(f, no)
            }
        }
    }
}

impl fmt::Display for Or {
    #[cycle(display)]
    fn fmt<W: fmt::Write>(&self, f: &mut fmt::Formatter<W>) -> fmt::Result {
        write_part(f, &self.initial)?;
        for and in &self.extended {
            f.write_str(" || ")?;
            write_part(f, and)?;
        }
        Ok(())
    }
}

impl fmt::Display for And {
    #[cycle(display)]
    fn fmt<W: fmt::Write>(&self, f: &mut fmt::Formatter<W>) -> fmt::Result {
        write_part(f, &self.initial)?;
        for relation in &self.extended {
            f.write_str(" && ")?;
            write_part(f, relation)?;
        }
        Ok(())
    }
}

impl fmt::Display for Relation {
    #[cycle(display)]
    fn fmt<W: fmt::Write>(&self, f: &mut fmt::Formatter<W>) -> fmt::Result {
        match self {
            Relation::Common { initial, extended } => {
                write_part(f, initial)?;
                for (op, add) in extended {
                    write!(f, " {op} ")?;
                    write_part(f, add)?;
                }
                Ok(())
            }
            Relation::Has { target, field } => {
                write_part(f, target)?;
                f.write_str(" has ")?;
                write_part(f, field)
            }
            Relation::Like { target, pattern } => {
                write_part(f, target)?;
                f.write_str(" like ")?;
                write_part(f, pattern)
            }
            Relation::IsIn {
                target,
                entity_type,
                in_entity,
            } => {
                write_part(f, target)?;
                f.write_str(" is ")?;
                write_part(f, entity_type)?;
                if let Some(entity) = in_entity {
                    f.write_str(" in ")?;
                    write_part(f, entity)?;
                }
                Ok(())
            }
        }
    }
}

impl fmt::Display for Add {
    #[cycle(display)]
    fn fmt<W: fmt::Write>(&self, f: &mut fmt::Formatter<W>) -> fmt::Result {
        write_part(f, &self.initial)?;
        for (op, mult) in &self.extended {
            write!(f, " {op} ")?;
            write_part(f, mult)?;
        }
        Ok(())
    }
}

impl fmt::Display for Mult {
    #[cycle(display)]
    fn fmt<W: fmt::Write>(&self, f: &mut fmt::Formatter<W>) -> fmt::Result {
        write_part(f, &self.initial)?;
        for (op, unary) in &self.extended {
            write!(f, " {op} ")?;
            write_part(f, unary)?;
        }
        Ok(())
    }
}

impl fmt::Display for Unary {
    #[cycle(display)]
    fn fmt<W: fmt::Write>(&self, f: &mut fmt::Formatter<W>) -> fmt::Result {
        if let Some(op) = self.op {
            write!(f, "{op}")?;
        }
        write_part(f, &self.item)
    }
}

impl fmt::Display for Member {
    #[cycle(display)]
    fn fmt<W: fmt::Write>(&self, f: &mut fmt::Formatter<W>) -> fmt::Result {
        write_part(f, &self.item)?;
        for access in &self.access {
            write_part(f, access)?;
        }
        Ok(())
    }
}

impl fmt::Display for MemAccess {
    #[cycle(display)]
    fn fmt<W: fmt::Write>(&self, f: &mut fmt::Formatter<W>) -> fmt::Result {
        match self {
            MemAccess::Field(name) => {
                f.write_str(".")?;
                write_part(f, name)
            }
            MemAccess::Call(args) => {
                f.write_str("(")?;
                write_list(f, args)?;
                f.write_str(")")
            }
            MemAccess::Index(index) => {
                f.write_str("[")?;
                write_part(f, index)?;
                f.write_str("]")
            }
        }
    }
}

impl fmt::Display for Primary {
    #[cycle(display)]
    fn fmt<W: fmt::Write>(&self, f: &mut fmt::Formatter<W>) -> fmt::Result {
        match self {
            Primary::Literal(literal) => write_part(f, literal),
            Primary::Ref(entity) => write_part(f, entity),
            Primary::Name(name) => write_part(f, name),
            Primary::Slot(slot) => write_part(f, slot),
            Primary::Expr(expr) => {
                f.write_str("(")?;
                write_part(f, expr)?;
                f.write_str(")")
            }
            Primary::EList(elements) => {
                f.write_str("[")?;
                write_list(f, elements)?;
                f.write_str("]")
            }
            Primary::RInits(entries) => {
                f.write_str("{")?;
                write_list(f, entries)?;
                f.write_str("}")
            }
        }
    }
}

impl fmt::Display for RecInit {
    #[cycle(display)]
    fn fmt<W: fmt::Write>(&self, f: &mut fmt::Formatter<W>) -> fmt::Result {
        write_part(f, &self.0)?;
        f.write_str(": ")?;
        write_part(f, &self.1)
    }
}
