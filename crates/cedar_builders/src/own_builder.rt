//! The builder of `Expr`.
ghost use Rattle.std.specs.Prelude.{◌≡◌, None, Some, IfOk, IfNone, IfSome, map};
ghost use Rattle.std.specs.Option.{option_copied};
ghost use Rattle.cedar_language.specs.Tree as tree;
ghost use Rattle.cedar_trees.specs.Bare.{bare, bare_entries, record_tree};
ghost use Rattle.cedar_trees.specs.Records.{refused_key, record_made};
ghost use Rattle.cedar_grammar.specs.Build.{trees};
ghost use Rattle.cedar_builders.specs.Operations.{Gives, Builds};

use crate::expr_builder;
use cedar_literals::literals::Literal;
use cedar_literals::operators::{BinaryOp, UnaryOp};
use cedar_literals::patterns::Pattern;
use cedar_literals::slots::SlotId;
use cedar_literals::uids::EntityType;
use cedar_literals::variables::Var;
use cedar_names::names::Name;
use cedar_names::places::Loc;
use cedar_trees::errors::ExpressionConstructionError;
use cedar_trees::expr::{Expr, ExprKind};
use cedar_trees::kinds;
use cedar_trees::unknowns::{NonEmpty, Unknown};
use std::alloc::{AllocError, Global};
use std::collections::BTreeMap;
use std::rc::{Rc, RcStr};

/// Builds an `Expr` at a place, with data.
#[derive(Debug, Drop)]
pub struct ExprBuilder<T = ()> {
    /// Where its expressions lie.
    pub alloc: Global,
    /// The place of what it builds.
    pub source_loc: Option<Loc>,
    /// The data of what it builds.
    pub data: T,
}

impl<T> ExprBuilder<T> {
    /// The expression of this construct, at the builder's place and with its data.
    pub fn with_expr_kind(self, expr_kind: ExprKind<T>) -> Expr<T>
        ensures { result ≡ record {
          expr_kind = expr_kind;
          source_loc = self.source_loc;
          «data» = self.«data»;
        } }
    {
        Expr {
            expr_kind,
            source_loc: self.source_loc,
            data: self.data,
        }
    }

    /// The record of a map that is shared; takes no memory.
    pub fn record_arc(self, entries: Rc<BTreeMap<RcStr, Expr<T>>>) -> Expr<T>
        ensures { bare result ≡ record_tree (bare_entries entries.value.entries) }
    {
        self.with_expr_kind(ExprKind::Record(entries))
    }

    /// The same builder at the place of an expression, or where it was, if that has none; refused for
    /// memory alone.
    pub fn with_same_source_loc<U>(self, expr: &Expr<U>) -> Result<ExprBuilder<T>, AllocError>
    where
        T: Drop,
        ensures without { IfNone expr.now.source_loc (IfOk result (λ builder. builder ≡ self)) }
        ensures place { IfSome expr.now.source_loc (λ loc.
            IfOk result (λ builder. builder.source_loc ≡ Some loc)) }
        ensures same_data { IfOk result (λ builder. builder.«data» ≡ self.«data») }
    {
        match &expr.source_loc {
            None => Ok(self),
            Some(loc) => {
                let source_loc = loc.clone(self.alloc)?;
                Ok(ExprBuilder {
                    alloc: self.alloc,
                    source_loc: Some(source_loc),
                    data: self.data,
                })
            }
        }
    }
}

impl<T: Clone + Drop> Clone for ExprBuilder<T> {
    ghost is_clone = { λ builder copy. T.is_clone builder.«data» copy.«data» × (copy.source_loc ≡ builder.source_loc) };

    fn clone(&self) -> Result<ExprBuilder<T>, AllocError> {
        let data = self.data.clone()?;
        let source_loc = match &self.source_loc {
            None => None,
            Some(loc) => Some(loc.clone(self.alloc)?),
        };
        Ok(ExprBuilder {
            alloc: self.alloc,
            source_loc,
            data,
        })
    }
}

impl expr_builder::ExprBuilder for ExprBuilder {
    ghost use Rattle.std.proofs.Common.{ap};
    ghost use Rattle.cedar_language.specs.Uid.{Text};
    ghost use Rattle.cedar_language.specs.Tree.{Tree};
    ghost use Rattle.cedar_builders.specs.Own.{own_operations, own_lawful};

    type Expr = Expr;

    type Data = ();

    type BuildError = ExpressionConstructionError;

    ghost Meaning = { Tree };

    ghost Refusal = { Text };

    ghost operations = { own_operations };

    ghost meaning = { bare };

    ghost refusal = { refused_key };

    ghost lawful = { own_lawful };

    ghost memory = { λ a e is. ap refused_key is };

    fn new(alloc: Global) -> ExprBuilder
        ensures { result.source_loc ≡ None }
    {
        ExprBuilder {
            alloc,
            source_loc: None,
            data: (),
        }
    }

    fn with_data(alloc: Global, data: ()) -> ExprBuilder
        ensures { result.source_loc ≡ None }
    {
        ExprBuilder {
            alloc,
            source_loc: None,
            data,
        }
    }

    fn with_maybe_source_loc(self, source_loc: Option<Loc>) -> ExprBuilder
        ensures { result.source_loc ≡ source_loc }
    {
        ExprBuilder {
            alloc: self.alloc,
            source_loc,
            data: self.data,
        }
    }

    fn with_source_loc(self, source_loc: Loc) -> ExprBuilder
        ensures { result.source_loc ≡ Some source_loc }
    {
        self.with_maybe_source_loc(Some(source_loc))
    }

    fn loc(&self) -> Option<&Loc>
        ensures { option_copied result ≡ self.now.source_loc }
    {
        self.source_loc.as_ref()
    }

    fn data(&self) -> &() {
        &self.data
    }

    fn val(self, literal: Literal) -> Result<Expr, ExpressionConstructionError> {
        Ok(self.with_expr_kind(ExprKind::Lit(literal)))
    }

    fn unknown(self, unknown: Unknown) -> Result<Expr, ExpressionConstructionError> {
        Ok(self.with_expr_kind(ExprKind::Unknown(unknown)))
    }

    fn var(self, var: Var) -> Result<Expr, ExpressionConstructionError> {
        Ok(self.with_expr_kind(ExprKind::Var(var)))
    }

    fn slot(self, slot: SlotId) -> Result<Expr, ExpressionConstructionError> {
        Ok(self.with_expr_kind(ExprKind::Slot(slot)))
    }

    fn ite(
        self,
        test_expr: Expr,
        then_expr: Expr,
        else_expr: Expr,
    ) -> Result<Expr, ExpressionConstructionError> {
        let kind = kinds::ite(self.alloc, test_expr, then_expr, else_expr)?;
        Ok(self.with_expr_kind(kind))
    }

    fn and(self, left: Expr, right: Expr) -> Result<Expr, ExpressionConstructionError> {
        let kind = kinds::and(self.alloc, left, right)?;
        Ok(self.with_expr_kind(kind))
    }

    fn or(self, left: Expr, right: Expr) -> Result<Expr, ExpressionConstructionError> {
        let kind = kinds::or(self.alloc, left, right)?;
        Ok(self.with_expr_kind(kind))
    }

    fn set(self, items: Vec<Expr>) -> Result<Expr, ExpressionConstructionError>
        ensures { Builds bare refused_key result
            (tree.Apply tree.MakeSet (trees (map bare items.items))) }
    {
        let kind = kinds::set(self.alloc, items)?;
        Ok(self.with_expr_kind(kind))
    }

    fn record(self, pairs: Vec<(RcStr, Expr)>) -> Result<Expr, ExpressionConstructionError>
        ensures { Gives bare refused_key result (record_made (bare_entries pairs.items)) }
    {
        let kind = kinds::record(self.alloc, pairs)?;
        Ok(self.with_expr_kind(kind))
    }

    fn call_extension_fn(
        self,
        fn_name: Name,
        args: Vec<Expr>,
    ) -> Result<Expr, ExpressionConstructionError>
        ensures { Builds bare refused_key result
            (tree.Apply (tree.Call fn_name) (trees (map bare args.items))) }
    {
        let kind = kinds::call_extension_fn(self.alloc, fn_name, args)?;
        Ok(self.with_expr_kind(kind))
    }

    fn unary_app(self, op: UnaryOp, arg: Expr) -> Result<Expr, ExpressionConstructionError> {
        let kind = kinds::unary_app(self.alloc, op, arg)?;
        Ok(self.with_expr_kind(kind))
    }

    fn binary_app(
        self,
        op: BinaryOp,
        arg1: Expr,
        arg2: Expr,
    ) -> Result<Expr, ExpressionConstructionError> {
        let kind = kinds::binary_app(self.alloc, op, arg1, arg2)?;
        Ok(self.with_expr_kind(kind))
    }

    fn get_attr(self, expr: Expr, attr: RcStr) -> Result<Expr, ExpressionConstructionError> {
        let kind = kinds::get_attr(self.alloc, expr, attr)?;
        Ok(self.with_expr_kind(kind))
    }

    fn has_attr(self, expr: Expr, attr: RcStr) -> Result<Expr, ExpressionConstructionError> {
        let kind = kinds::has_attr(self.alloc, expr, attr)?;
        Ok(self.with_expr_kind(kind))
    }

    fn extended_has_attr(
        self,
        expr: Expr,
        attrs: NonEmpty<RcStr>,
    ) -> Result<Expr, ExpressionConstructionError> {
        let kind = kinds::extended_has_attr(self.alloc, expr, attrs)?;
        Ok(self.with_expr_kind(kind))
    }

    fn like(self, expr: Expr, pattern: Pattern) -> Result<Expr, ExpressionConstructionError> {
        let kind = kinds::like(self.alloc, expr, pattern)?;
        Ok(self.with_expr_kind(kind))
    }

    fn is_entity_type(
        self,
        expr: Expr,
        entity_type: EntityType,
    ) -> Result<Expr, ExpressionConstructionError> {
        let kind = kinds::is_entity_type(self.alloc, expr, entity_type)?;
        Ok(self.with_expr_kind(kind))
    }

    fn is_in_entity_type(
        self,
        expr: Expr,
        entity_type: EntityType,
        in_entity: Expr,
    ) -> Result<Expr, ExpressionConstructionError> {
        let copy = expr.clone(self.alloc)?;
        let (one, other) = (self.clone()?, self.clone()?);
        let is = one.with_expr_kind(kinds::is_entity_type(self.alloc, copy, entity_type)?);
        let within = kinds::binary_app(self.alloc, BinaryOp::In, expr, in_entity)?;
        let within = other.with_expr_kind(within);
        let kind = kinds::and(self.alloc, is, within)?;
        Ok(self.with_expr_kind(kind))
    }
}
