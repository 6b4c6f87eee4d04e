// Clauses.
ghost use Rattle.std.specs.Prelude.{◌≡◌, ◌⊎◌, map, IfOk, IfErr, Option, Some};
ghost use Rattle.std.specs.Option.{option_map};
ghost use Rattle.cedar_language.specs.Tree.{Tree};
ghost use Rattle.cedar_grammar.specs.Converting.{clause, expr_tree};
ghost use Rattle.cedar_cst.specs.LeafView.{shown_ident, view_ident, written_ident};
ghost use Rattle.cedar_cst.specs.View.{shown_cond, shown_expr};
ghost use Rattle.cedar_trees.specs.Bare.{bare};
ghost use Rattle.cedar_faults.specs.Telling.{Told, TellsOnly};
ghost use Rattle.cedar_faults.specs.Converts.{and_then, Finds};
ghost use Rattle.cedar_conversion.specs.Shows.{expr_shows};
ghost use Rattle.cedar_policy_conversion.specs.Clauses.{clause_word, word_of, condition_tree, clauses_of, one_more};
ghost use Rattle.cedar_policy_conversion.specs.ClausesShow.{clause_word_shows, condition_shows, clause_shows, clauses_show};

use crate::copies::{copied, copied_if_any};
use cedar_builders::own_builder::ExprBuilder;
use cedar_conversion::{spelling, to_expr, trees_are_built};
use cedar_cst::cst;
use cedar_cst::cst::{Cond, Ident};
use cedar_cst::node::Node;
use cedar_faults::{ConversionError, ExtStyles, ToASTErrorKind, flatten_tuple_2};
use cedar_names::places::Loc;
use cedar_trees::errors::ExpressionConstructionError;
use cedar_trees::expr::Expr;
use std::alloc::{AllocError, Global};

/// Why the conversion of a policy gives nothing.
pub type PolicyError = ConversionError<ExpressionConstructionError>;

// How a clause begins.
#[derive(Clone, Copy, Debug, PartialEq, Eq)]
pub(crate) enum ClauseWord {
    When,
    Unless,
}

// The beginning that is so written.
fn clause_word_named(text: &str) -> Option<ClauseWord>
    ensures { option_map word_of result ≡ clause_word (written_ident text.now) }
{
    match text {
        "when" => Some(ClauseWord::When),
        "unless" => Some(ClauseWord::Unless),
        _ => None,
    }
}

// The beginning that a word is.
fn word_to_clause_word(word: &Ident) -> Option<ClauseWord>
    ensures { option_map word_of result ≡ clause_word (view_ident word.now) }
{
    match spelling(word) {
        None => None,
        Some(text) => clause_word_named(text),
    }
}

// How a clause begins; faults where its word is missing, or is neither `when` nor `unless`.
fn to_clause_word<E: Drop>(
    alloc: Global,
    node: &Node<Option<Ident>>,
) -> Result<ClauseWord, ConversionError<E>>
    ensures word { Finds word_of result (clause_word (shown_ident node.now)) }
    ensures shown { IfErr result (λ error. TellsOnly error (clause_word_shows (shown_ident node.now))) }
{
    let Some(word) = &node.node else {
        return Err(ConversionError::missing(alloc, node.loc()));
    };
    match word_to_clause_word(word) {
        Some(word) => Ok(word),
        None => {
            let kind = ToASTErrorKind::InvalidCondition(copied(word)?);
            Err(ConversionError::fault(alloc, kind, node.loc()))
        }
    }
}

// An expression, by the own builder. It refuses only a record with a key twice, and no loose tree is
// converted to one.
#[tactic(auto, using(crate::proofs::Finding::nothing))]
fn to_own_expr(
    alloc: Global,
    styles: &ExtStyles,
    node: &Node<Option<cst::Expr>>,
) -> Result<Expr, PolicyError>
    ensures tree { Finds bare result (expr_tree styles.now (shown_expr node.now)) }
    ensures shown { IfErr result (λ error. TellsOnly error (expr_shows styles.now (shown_expr node.now))) }
{
    // This runs no code: its contract is a law of what a conversion gives.
    trees_are_built();

    match to_expr::<ExprBuilder>(alloc, node, styles) {
        Ok(expr) => Ok(expr),
        Err(error) => match &error {
            ConversionError::Faults(_) => Err(error),
            ConversionError::Builder(_) => Err(ConversionError::Memory),
            ConversionError::Memory => Err(ConversionError::Memory),
        },
    }
}

// What stands between the braces of a clause; a fault where nothing does.
fn to_condition(
    alloc: Global,
    styles: &ExtStyles,
    cond: &Cond,
    loc: Option<&Loc>,
) -> Result<Expr, PolicyError>
    ensures tree { Finds bare result (condition_tree styles.now (option_map shown_expr cond.now.expr)) }
    ensures shown { IfErr result (λ error. TellsOnly error (condition_shows styles.now (shown_ident cond.now.cond) (option_map shown_expr cond.now.expr))) }
{
    match &cond.expr {
        Some(expr) => to_own_expr(alloc, styles, expr),
        None => {
            let kind = ToASTErrorKind::EmptyClause(copied_if_any(&cond.cond.node)?);
            Err(ConversionError::fault(alloc, kind, loc))
        }
    }
}

// The same expression at a copy of this place.
fn placed(expr: Expr, loc: Option<&Loc>) -> Result<Expr, AllocError>
    ensures { IfOk result (λ made. bare made ≡ bare expr) }
{
    Ok(expr.with_maybe_source_loc(loc.cloned()?))
}

// What a clause asks; or the faults of its parts.
fn to_clause(
    alloc: Global,
    styles: &ExtStyles,
    node: &Node<Option<Cond>>,
) -> Result<Expr, PolicyError>
    ensures clause { Finds bare result (clause styles.now (shown_cond node.now)) }
    ensures shown { IfErr result (λ error. TellsOnly error (clause_shows styles.now (shown_cond node.now))) }
{
    let Some(cond) = &node.node else {
        return Err(ConversionError::missing(alloc, node.loc()));
    };
    let word = to_clause_word(alloc, &cond.cond);
    let expr = to_condition(alloc, styles, cond, node.loc());
    let (word, expr) = flatten_tuple_2(word, expr)?;
    match word {
        ClauseWord::When => Ok(expr),
        ClauseWord::Unless => Ok(placed(Expr::not(alloc, expr)?, node.loc())?),
    }
}

// A clause behind those before it, joined by `&&`; or the faults of all.
fn join_clause(
    alloc: Global,
    loc: Option<&Loc>,
    earlier: Result<Option<Expr>, PolicyError>,
    next: Result<Expr, PolicyError>,
) -> Result<Option<Expr>, PolicyError>
    ensures joined { (before : Option (Option Tree)) (more : Option Tree) → Finds (option_map bare) earlier before → Finds bare next more →
        Finds (option_map bare) result (and_then before (λ b. and_then more (λ t. Some (Some (one_more b t))))) }
    ensures told { IfErr result (λ error. TellsOnly error (λ kind. Told earlier kind ⊎ Told next kind)) }
{
    let (earlier, next) = flatten_tuple_2(earlier, next)?;
    match earlier {
        None => Ok(Some(next)),
        Some(earlier) => Ok(Some(placed(Expr::and(alloc, earlier, next)?, loc)?)),
    }
}

/// What the clauses of a policy at this place ask, joined by `&&` from the left; none where there is no
/// clause. Slots of templates may stand in them. The faults of all clauses are gathered. (Cedar language
/// reference, "Conditions" and "Policy templates".)
pub fn to_clauses(
    alloc: Global,
    styles: &ExtStyles,
    nodes: &Vec<Node<Option<Cond>>>,
    loc: Option<&Loc>,
) -> Result<Option<Expr>, PolicyError>
    ensures clauses { Finds (option_map bare) result (clauses_of styles.now (map shown_cond nodes.now.items)) }
    ensures shown { IfErr result (λ error. TellsOnly error (clauses_show styles.now (map shown_cond nodes.now.items))) }
{
    let mut clauses = Ok(None);
    for node in nodes {
        let next = to_clause(alloc, styles, node);
        clauses = join_clause(alloc, loc, clauses, next);
    }
    clauses
}
