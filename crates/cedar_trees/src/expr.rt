// Expressions.
ghost use Rattle.std.specs.Prelude.{◌≡◌, map};
ghost use Rattle.std.specs.Option.{option_copied};
ghost use Rattle.cedar_trees.specs.Bare.{bare};
ghost use Rattle.cedar_trees.specs.Shapes.{is_entity, are_entities, is_slot_tree, is_set_of_entities};
ghost use Rattle.cedar_grammar.specs.Build.{trees};

use crate::unknowns::{NonEmpty, Unknown};
use cedar_literals::literals::Literal;
use cedar_literals::operators::{BinaryOp, UnaryOp};
use cedar_literals::patterns::Pattern;
use cedar_literals::slots::SlotId;
use cedar_literals::uids::EntityType;
use cedar_literals::variables::Var;
use cedar_names::names::Name;
use cedar_names::places::Loc;
use std::collections::BTreeMap;
use std::rc::{Rc, RcStr};

/// An expression, with the place that it was read at and data of its owner's. Its parts are shared.
/// (Cedar language reference, "Expressions".)
#[cycle(expr)]
pub struct Expr<T = ()> {
    /// Which construct it is, and its parts.
    pub expr_kind: ExprKind<T>,
    /// Where it was read, if it was.
    pub source_loc: Option<Loc>,
    /// Its owner's data.
    pub data: T,
}

/// The constructs of the language.
#[cycle(expr)]
#[derive(Drop)]
pub enum ExprKind<T = ()> {
    /// A literal.
    Lit(Literal),
    /// A variable of the request.
    Var(Var),
    /// A slot of a template.
    Slot(SlotId),
    /// A value that isn't known yet.
    Unknown(Unknown),
    /// `if .. then .. else ..`.
    If {
        test_expr: Rc<Expr<T>>,
        then_expr: Rc<Expr<T>>,
        else_expr: Rc<Expr<T>>,
    },
    /// `&&`.
    And {
        left: Rc<Expr<T>>,
        right: Rc<Expr<T>>,
    },
    /// `||`.
    Or {
        left: Rc<Expr<T>>,
        right: Rc<Expr<T>>,
    },
    /// An operator of one operand.
    UnaryApp {
        op: UnaryOp,
        arg: Rc<Expr<T>>,
    },
    /// An operator of two operands.
    BinaryApp {
        op: BinaryOp,
        arg1: Rc<Expr<T>>,
        arg2: Rc<Expr<T>>,
    },
    /// A call of an extension function.
    ExtensionFunctionApp {
        fn_name: Name,
        args: Rc<Vec<Expr<T>>>,
    },
    /// `expr.attr`.
    GetAttr {
        expr: Rc<Expr<T>>,
        attr: RcStr,
    },
    /// `expr has attr`.
    HasAttr {
        expr: Rc<Expr<T>>,
        attr: RcStr,
    },
    /// `expr has a.b.c`.
    ExtHasAttr {
        expr: Rc<Expr<T>>,
        attrs: NonEmpty<RcStr>,
    },
    /// `expr like ".."`.
    Like {
        expr: Rc<Expr<T>>,
        pattern: Pattern,
    },
    /// `expr is T`.
    Is {
        expr: Rc<Expr<T>>,
        entity_type: EntityType,
    },
    /// A set, by its items in their order.
    Set(Rc<Vec<Expr<T>>>),
    /// A record, by its keys.
    Record(Rc<BTreeMap<RcStr, Expr<T>>>),
}

/// Lets go of an expression. A text may hold a chain as `a && b && ..` or `a.f().f()..` of hundreds of
/// thousands of links, each the first part of the next: a loop goes down the first parts, so that the
/// chain takes no stack.
impl<T: Drop> Drop for Expr<T> {
    fn drop(mut self) {
        loop {
            let Expr {
                expr_kind,
                source_loc: _source_loc,
                data: _data,
            } = self;
            let first = match expr_kind {
                ExprKind::Lit(_literal) => return,
                ExprKind::Var(_var) => return,
                ExprKind::Slot(_slot) => return,
                ExprKind::Unknown(_unknown) => return,
                ExprKind::If {
                    test_expr,
                    then_expr: _then_expr,
                    else_expr: _else_expr,
                } => test_expr,
                ExprKind::And {
                    left,
                    right: _right,
                } => left,
                ExprKind::Or {
                    left,
                    right: _right,
                } => left,
                ExprKind::UnaryApp { op: _op, arg } => arg,
                ExprKind::BinaryApp {
                    op: _op,
                    arg1,
                    arg2: _arg2,
                } => arg1,
                ExprKind::ExtensionFunctionApp {
                    fn_name: _fn_name,
                    args,
                } => match Rc::try_unwrap(args) {
                    Ok(mut items) => {
                        if items.is_empty() {
                            return;
                        }
                        self = items.remove(0);
                        continue;
                    }
                    Err(_shared) => return,
                },
                ExprKind::GetAttr { expr, attr: _attr } => expr,
                ExprKind::HasAttr { expr, attr: _attr } => expr,
                ExprKind::ExtHasAttr {
                    expr,
                    attrs: _attrs,
                } => expr,
                ExprKind::Like {
                    expr,
                    pattern: _pattern,
                } => expr,
                ExprKind::Is {
                    expr,
                    entity_type: _entity_type,
                } => expr,
                ExprKind::Set(_items) => return,
                ExprKind::Record(_entries) => return,
            };
            match Rc::try_unwrap(first) {
                Ok(next) => self = next,
                Err(_shared) => return,
            }
        }
    }
}

impl<T> Expr<T> {
    /// Which construct it is, and its parts.
    pub fn expr_kind(&self) -> &ExprKind<T>
        ensures { result.now ≡ self.now.expr_kind }
    {
        &self.expr_kind
    }

    /// Its owner's data.
    pub fn data(&self) -> &T
        ensures { result.now ≡ self.now.«data» }
    {
        &self.data
    }

    /// Where it was read, if it was.
    pub fn source_loc(&self) -> Option<&Loc>
        ensures { option_copied result ≡ self.now.source_loc }
    {
        self.source_loc.as_ref()
    }

    /// Its construct, its place and its data.
    pub fn into_parts(self) -> (ExprKind<T>, Option<Loc>, T)
        ensures { result ≡ (self.expr_kind, self.source_loc, self.«data») }
    {
        let Expr {
            expr_kind,
            source_loc,
            data,
        } = self;
        (expr_kind, source_loc, data)
    }

    /// Its construct; place and data are let go.
    pub fn into_expr_kind(self) -> ExprKind<T>
    where
        T: Drop,
        ensures { result ≡ self.expr_kind }
    {
        self.into_parts().0
    }

    /// Its data; the rest is let go.
    pub fn into_data(self) -> T
    where
        T: Drop,
        ensures { result ≡ self.«data» }
    {
        self.into_parts().2
    }

    /// The same expression at another place, or at none.
    pub fn with_maybe_source_loc(self, source_loc: Option<Loc>) -> Expr<T>
        ensures { result ≡ record self { source_loc = source_loc } }
    {
        let (expr_kind, _place, data) = self.into_parts();
        Expr {
            expr_kind,
            source_loc,
            data,
        }
    }

    /// Puts other data in the place of its own; what was there is let go.
    pub fn set_data(&mut self, data: T)
    where
        T: Drop,
        ensures { self.new ≡ record self.old { «data» = «data» } }
    {
        self.data = data;
    }

    /// Whether it is a literal entity.
    pub fn is_ref(&self) -> bool
        ensures { result ≡ is_entity (bare self.now) }
    {
        match &self.expr_kind {
            ExprKind::Lit(Literal::EntityUID(_uid)) => true,
            _ => false,
        }
    }

    /// Whether it is a slot.
    pub fn is_slot(&self) -> bool
        ensures { result ≡ is_slot_tree (bare self.now) }
    {
        match &self.expr_kind {
            ExprKind::Slot(_slot) => true,
            _ => false,
        }
    }

    /// Whether it is a set of literal entities alone; the empty set is one.
    pub fn is_ref_set(&self) -> bool
        ensures { result ≡ is_set_of_entities (bare self.now) }
    {
        match &self.expr_kind {
            ExprKind::Set(items) => are_refs(items),
            _ => false,
        }
    }
}

// Whether all are literal entities.
fn are_refs<T>(items: &[Expr<T>]) -> bool
    ensures { result ≡ are_entities (trees (map bare items.now)) }
{
    for item in items {
        if !item.is_ref() {
            return false;
        }
    }
    true
}
