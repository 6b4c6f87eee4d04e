// The evaluation of restricted expressions.
ghost use Rattle.std.specs.Prelude.{◌≡◌, ◌≤◌, IfOk};
ghost use Rattle.cedar_language.specs.Height.{height};
ghost use Rattle.cedar_extensions.specs.Table.{as_table};
ghost use Rattle.cedar_restricted.specs.PartialValues.{partial_of};
ghost use Rattle.cedar_restricted.specs.Views.{borrowed_tree};
ghost use Rattle.cedar_restricted_evaluation.specs.Evaluations.{MeansKnown, Answers, IsLeft};
ghost use Rattle.cedar_interpreter.specs.Restricted.{table_of, limit_of, MeansValue, AnswersValue};

use cedar_extensions::evaluation_error::EvaluationError;
use cedar_extensions::extensions::Extensions;
use cedar_extensions::objects::{ExtensionFunctionObject, NoFunction};
use cedar_restricted::borrowed::BorrowedRestrictedExpr;
use cedar_restricted::partial_values::PartialValue;
use cedar_restricted_evaluation::interpret_restricted;
use cedar_values::values::Value;
use std::alloc::Global;
use std::fmt;

/// The functions by which restricted expressions are evaluated: these read neither a request nor
/// entities. No evaluation nests deeper than a limit. Contracts see it by `table_of` and `limit_of`.
#[derive(Drop)]
pub struct RestrictedEvaluator<'e, 'f, F = NoFunction> {
    extensions: &'e Extensions<'f, F>,
    depth: u32,
}

impl<F> fmt::Debug for RestrictedEvaluator<'_, '_, F> {
    fn fmt<W: fmt::Write>(&self, f: &mut fmt::Formatter<W>) -> fmt::Result {
        f.debug_struct("RestrictedEvaluator")
            .field("extensions", &self.extensions)
            .field("depth", &self.depth)
            .finish()
    }
}

impl<'e, 'f, F: ExtensionFunctionObject> RestrictedEvaluator<'e, 'f, F> {
    /// The evaluator with these functions. No evaluation nests deeper than `depth`, the outermost
    /// expression being at 1.
    pub fn new(extensions: &'e Extensions<'f, F>, depth: u32) -> RestrictedEvaluator<'e, 'f, F>
        ensures table { table_of F.answers result ≡ as_table F.answers extensions.now }
        ensures limit { limit_of result ≡ depth }
    {
        RestrictedEvaluator { extensions, depth }
    }

    /// The value of a restricted expression, or what is left of it where it waits for unknowns.
    ///
    /// It errs with what the functions err with, `FailedExtensionFunctionLookup` where one isn't there,
    /// `RecursionLimit` where the evaluation nests deeper than the limit, and `Memory`.
    pub fn partial_interpret(
        &self,
        alloc: Global,
        expr: BorrowedRestrictedExpr<'_>,
    ) -> Result<PartialValue, EvaluationError>
        ensures meaning { MeansKnown (table_of F.answers self.now) (limit_of self.now) (borrowed_tree expr.entry) result }
        ensures answer { Answers (table_of F.answers self.now) (limit_of self.now) (borrowed_tree expr.entry) result }
        ensures left { IfOk result (λ partial. IsLeft (partial_of partial)) }
        ensures limit { IfOk result (λ partial. height (borrowed_tree expr.entry) ≤ limit_of self.now) }
    {
        interpret_restricted(alloc, expr, self.extensions, self.depth)
    }

    /// The value of a restricted expression. It errs besides with `NonValue` where something is left of
    /// it.
    pub fn interpret(
        &self,
        alloc: Global,
        expr: BorrowedRestrictedExpr<'_>,
    ) -> Result<Value, EvaluationError>
        ensures meaning { MeansValue (table_of F.answers self.now) (limit_of self.now) (borrowed_tree expr.entry) result }
        ensures answer { AnswersValue (table_of F.answers self.now) (limit_of self.now) (borrowed_tree expr.entry) result }
        ensures limit { IfOk result (λ value. height (borrowed_tree expr.entry) ≤ limit_of self.now) }
    {
        match self.partial_interpret(alloc, expr) {
            Ok(PartialValue::Value(value)) => Ok(value),
            Ok(PartialValue::Residual(rest)) => Err(EvaluationError::non_value(alloc, rest)?),
            Err(error) => Err(error),
        }
    }
}
