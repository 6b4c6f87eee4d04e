//! A builder of a caller's own: an expression is converted to the names of the attributes that it reads, and no tree
//! is made. So a caller's analysis of policies reads what the library's reads, and no more.
ghost use Rattle.std.specs.Prelude.{Bool, true, None, Ok};
ghost use Rattle.std.specs.declared.alloc.AllocError.{AllocError as OutOfMemory};
ghost use Rattle.cedar_builders.specs.Operations.{Gives};

use crate::DEPTH;
use anyhow::Result;
use cedar_evaluator::Extensions;
use cedar_expressions::ast::{
    BinaryOp, EntityType, Literal, Name, NonEmpty, Pattern, SlotId, UnaryOp, Unknown, Var,
};
use cedar_expressions::expr_builder::ExprBuilder;
use cedar_expressions::parser::Loc;
use cedar_parser::ExtStyles;
use cedar_parser::cst_to_ast::to_expr;
use cedar_parser::prelude::StylesOfExtensions;
use cedar_parser::text_to_cst::parse_expr;
use std::alloc::{AllocError, Global};
use std::rc::RcStr;

const CONDITION: &str = "resource.owner == principal && context.hour < 18 || context has mfa";

/// The names of attributes, one for each place.
type Names = Vec<RcStr>;

/// Gathers the names, those of the left part first.
#[derive(Clone, Copy)]
struct Reader {
    alloc: Global,
    data: (),
}

impl Reader {
    fn nothing(self) -> Result<Names, AllocError> {
        Ok(Vec::new(self.alloc))
    }
}

/// The names of both parts.
fn both(mut left: Names, right: Names) -> Result<Names, AllocError> {
    for name in right {
        left.push(name)?;
    }
    Ok(left)
}

/// The names of all these parts.
fn all(alloc: Global, parts: Vec<Names>) -> Result<Names, AllocError> {
    let mut names = Vec::new(alloc);
    for part in parts {
        names = both(names, part)?;
    }
    Ok(names)
}

fn with(mut names: Names, attr: RcStr) -> Result<Names, AllocError> {
    names.push(attr)?;
    Ok(names)
}

// A builder says by `operations` what its calls mean. This one promises nothing of the names, so each means the same.
impl ExprBuilder for Reader {
    ghost use Rattle.std.specs.Prelude.{Bool, true, None, Ok, refl};
    ghost use Rattle.cedar_builders.specs.Operations.{Operations, IsLawful};

    type Expr = Names;

    type Data = ();

    type BuildError = AllocError;

    ghost Meaning = { Bool };

    ghost Refusal = { Bool };

    ghost operations = { record {
      val = λ l. true;
      var = λ v. true;
      slot = λ s. true;
      unknown = λ n ty. true;
      ite = λ x y z. true;
      and = λ x y. true;
      or = λ x y. true;
      apply = λ op xs. true;
      call = λ f xs. Ok true;
      record_of = λ es. Ok true;
    } };

    ghost meaning = { λ x. true };

    ghost refusal = { λ e. None };

    ghost lawful = { record {
      and_of_literals = λ a b. refl;
      or_of_literals = λ a b. refl;
      one_attribute = λ a x. refl;
      distinct_keys = λ es h. (true, refl);
    } };

    ghost memory = { λ a e is. refl };

    fn new(alloc: Global) -> Reader {
        Reader { alloc, data: () }
    }

    fn with_data(alloc: Global, data: ()) -> Reader {
        Reader { alloc, data }
    }

    fn with_maybe_source_loc(self, _source_loc: Option<Loc>) -> Reader {
        self
    }

    fn loc(&self) -> Option<&Loc> {
        None
    }

    fn data(&self) -> &() {
        &self.data
    }

    fn val(self, _literal: Literal) -> Result<Names, AllocError> {
        self.nothing()
    }

    fn unknown(self, _unknown: Unknown) -> Result<Names, AllocError> {
        self.nothing()
    }

    fn var(self, _var: Var) -> Result<Names, AllocError> {
        self.nothing()
    }

    fn slot(self, _slot: SlotId) -> Result<Names, AllocError> {
        self.nothing()
    }

    fn ite(
        self,
        test_expr: Names,
        then_expr: Names,
        else_expr: Names,
    ) -> Result<Names, AllocError> {
        both(both(test_expr, then_expr)?, else_expr)
    }

    fn and(self, left: Names, right: Names) -> Result<Names, AllocError> {
        both(left, right)
    }

    fn or(self, left: Names, right: Names) -> Result<Names, AllocError> {
        both(left, right)
    }

    fn set(self, items: Vec<Names>) -> Result<Names, AllocError>
        ensures { Gives {R = Bool} (λ x. true) (λ (e : OutOfMemory). None) result (Ok true) }
    {
        all(self.alloc, items)
    }

    fn record(self, pairs: Vec<(RcStr, Names)>) -> Result<Names, AllocError>
        ensures { Gives {R = Bool} (λ x. true) (λ (e : OutOfMemory). None) result (Ok true) }
    {
        let mut names = Vec::new(self.alloc);
        for (_key, part) in pairs {
            names = both(names, part)?;
        }
        Ok(names)
    }

    fn call_extension_fn(self, _fn_name: Name, args: Vec<Names>) -> Result<Names, AllocError>
        ensures { Gives {R = Bool} (λ x. true) (λ (e : OutOfMemory). None) result (Ok true) }
    {
        all(self.alloc, args)
    }

    fn unary_app(self, _op: UnaryOp, arg: Names) -> Result<Names, AllocError> {
        Ok(arg)
    }

    fn binary_app(self, _op: BinaryOp, arg1: Names, arg2: Names) -> Result<Names, AllocError> {
        both(arg1, arg2)
    }

    fn get_attr(self, expr: Names, attr: RcStr) -> Result<Names, AllocError> {
        with(expr, attr)
    }

    fn has_attr(self, expr: Names, attr: RcStr) -> Result<Names, AllocError> {
        with(expr, attr)
    }

    fn extended_has_attr(self, expr: Names, attrs: NonEmpty<RcStr>) -> Result<Names, AllocError> {
        let NonEmpty { head, tail } = attrs;
        both(with(expr, head)?, tail)
    }

    fn like(self, expr: Names, _pattern: Pattern) -> Result<Names, AllocError> {
        Ok(expr)
    }

    fn is_entity_type(self, expr: Names, _entity_type: EntityType) -> Result<Names, AllocError> {
        Ok(expr)
    }

    fn is_in_entity_type(
        self,
        expr: Names,
        _entity_type: EntityType,
        in_entity: Names,
    ) -> Result<Names, AllocError> {
        both(expr, in_entity)
    }
}

/// Converts the condition, and prints the names.
pub(crate) fn show(rt: &impl Print, alloc: Global, extensions: &Extensions<'_>) -> Result<()> {
    println!(rt; "collecting")?;
    println!(rt; "  {CONDITION}")?;
    let styles = ExtStyles::for_policies(alloc, extensions)?;
    let tree = parse_expr(alloc, CONDITION, DEPTH)?;
    match to_expr::<Reader>(alloc, &tree, &styles) {
        Ok(names) => print_names(rt, names.as_slice()),
        Err(_) => Ok(println!(rt; "    refused")?),
    }
}

fn print_names(rt: &impl Print, names: &[RcStr]) -> Result<()> {
    for name in names {
        println!(rt; "    reads {name}")?;
    }
    Ok(())
}
