// What a builder gives.
ghost use Rattle.std.specs.Prelude.{◌≡◌, ◌⊎◌, List, [], ◌∷◌, ◌++◌, Option, Some, Result, IfErr};
ghost use Rattle.cedar_language.specs.Tree.{Tree};
ghost use Rattle.cedar_builders.specs.Operations.{Gives};
ghost use Rattle.cedar_faults.specs.Reasons.{reason, out_of_memory};
ghost use Rattle.cedar_faults.specs.Converts.{and_then};
ghost use Rattle.cedar_faults.specs.Telling.{Told, TellsOnly};
ghost use Rattle.cedar_conversion.specs.Building.{MakesTree, MakesTrees, Takes};

use cedar_builders::expr_builder::ExprBuilder;
use cedar_faults::{ConversionError, flatten_tuple_2};
use cedar_names::places::Loc;
use std::alloc::Global;

/// A builder at a copy of this place.
pub(crate) fn builder_at<B: ExprBuilder>(
    alloc: Global,
    loc: Option<&Loc>,
) -> Result<B, ConversionError<B::BuildError>>
    ensures { IfErr result (λ error. reason error ≡ out_of_memory) }
{
    Ok(B::new(alloc).with_maybe_source_loc(loc.cloned()?))
}

/// What the builder gave, or its own error.
pub(crate) fn taken<B: ExprBuilder>(
    given: Result<B::Expr, B::BuildError>,
) -> Result<B::Expr, ConversionError<B::BuildError>>
    ensures taken { (meant : Result B.Meaning B.Refusal) → Gives B.meaning B.refusal given meant → Takes B.meaning B.refusal result meant }
    ensures shown { IfErr result (λ error. TellsOnly error (λ kind. ⊥)) }
{
    match given {
        Ok(expr) => Ok(expr),
        Err(error) => Err(ConversionError::Builder(error)),
    }
}

/// One more expression at the end, or the faults of all.
pub fn pushed<B: ExprBuilder>(
    made: Result<Vec<B::Expr>, ConversionError<B::BuildError>>,
    next: Result<B::Expr, ConversionError<B::BuildError>>,
) -> Result<Vec<B::Expr>, ConversionError<B::BuildError>>
    ensures trees { (v : Option (List Tree)) (w : Option Tree) → MakesTrees B.operations B.meaning B.refusal made v → MakesTree B.operations B.meaning B.refusal next w →
        MakesTrees B.operations B.meaning B.refusal result (and_then v (λ xs. and_then w (λ x. Some (xs ++ x ∷ [])))) }
    ensures shown { IfErr result (λ error. TellsOnly error (λ kind. Told made kind ⊎ Told next kind)) }
{
    let (mut made, next) = flatten_tuple_2(made, next)?;
    made.push(next)?;
    Ok(made)
}
