// Operands, and what accesses make of them.
ghost use Rattle.std.specs.Prelude.{◌≡◌, ◌⊎◌, List, Option, Some, IfOk, IfErr};
ghost use Rattle.std.specs.Option.{option_map};
ghost use Rattle.std.specs.Rc.{rc_str_bytes};
ghost use Rattle.cedar_language.specs.Tree as tree;
ghost use Rattle.cedar_language.specs.Tree.{SlotId, Tree};
ghost use Rattle.cedar_language.specs.Uid.{Text, Uid};
ghost use Rattle.cedar_literals.specs.Literals.{literal_of};
ghost use Rattle.cedar_grammar.specs.Build.{trees, unary};
ghost use Rattle.cedar_grammar.specs.Converting as converting;
ghost use Rattle.cedar_grammar.specs.Converting.{head_tree};
ghost use Rattle.cedar_cst.specs.LeafView.{shown_name};
ghost use Rattle.cedar_faults.specs.Reasons.{IsFault};
ghost use Rattle.cedar_faults.specs.Converts.{and_then, Finds};
ghost use Rattle.cedar_faults.specs.Telling.{Told, TellsOnly};
ghost use Rattle.cedar_conversion.specs.Building.{IsBuilt, MakesTree, MakesTrees};
ghost use Rattle.cedar_conversion.specs.Choices.{IsNoVariable, used_as, by_itself, no_variable_shows, misuse_shows};
ghost use Rattle.cedar_conversion.specs.Heads.{MakesHead, given, head_shows};
ghost use Rattle.cedar_conversion.specs.Shows.{used_before, used_at};

use crate::building::{builder_at, taken};
use crate::names::to_name;
use crate::variables::to_variable;
use cedar_builders::expr_builder::ExprBuilder;
use cedar_cst::cst::Name;
use cedar_cst::node::Node;
use cedar_faults::{ConversionError, ToASTErrorKind, flatten_tuple_2};
use cedar_literals::literals::Literal;
use cedar_literals::slots;
use cedar_literals::uids::EntityUID;
use cedar_names::identifiers::UnreservedId;
use cedar_names::names;
use cedar_names::places::Loc;
use std::alloc::{AllocError, Global};
use std::rc::{Rc, RcStr};

/// What accesses have made of an operand so far.
#[derive(Drop)]
pub enum Head<'a, E> {
    /// An expression.
    Expr(E),
    /// A name, which may be called yet.
    Name(&'a Node<Option<Name>>),
    /// An attribute of an expression, or a method that isn't called yet, and where its name stands.
    Attribute(E, UnreservedId, Option<&'a Loc>),
}

/// A literal, or its faults.
pub fn literal_to_head<'a, B: ExprBuilder>(
    alloc: Global,
    loc: Option<&Loc>,
    literal: Result<Literal, ConversionError<B::BuildError>>,
) -> Result<Head<'a, B::Expr>, ConversionError<B::BuildError>>
    ensures head { (v : Option Tree) → Finds (λ l. tree.Lit (literal_of l)) literal v →
        MakesHead B.operations B.meaning B.refusal result (and_then v (λ t. Some (converting.a_tree t))) }
    ensures shown { IfErr result (λ error. TellsOnly error (Told literal)) }
{
    let literal = literal?;
    let builder = builder_at::<B>(alloc, loc)?;
    expr_to_head::<B>(taken::<B>(builder.val(literal)))
}

/// An entity, or the faults of how it is written.
pub fn entity_to_head<'a, B: ExprBuilder>(
    alloc: Global,
    loc: Option<&Loc>,
    uid: Result<EntityUID, ConversionError<B::BuildError>>,
) -> Result<Head<'a, B::Expr>, ConversionError<B::BuildError>>
    ensures head { (v : Option Uid) → Finds (λ u. u) uid v →
        MakesHead B.operations B.meaning B.refusal result (and_then v (λ u. Some (converting.a_tree (tree.Lit (tree.Entity u))))) }
    ensures shown { IfErr result (λ error. TellsOnly error (Told uid)) }
{
    let uid = uid?;
    let shared = Rc::new(alloc, uid)?;
    let builder = builder_at::<B>(alloc, loc)?;
    expr_to_head::<B>(taken::<B>(builder.val(Literal::EntityUID(shared))))
}

/// A slot of templates, or the fault of how it is written.
pub fn slot_to_head<'a, B: ExprBuilder>(
    alloc: Global,
    loc: Option<&Loc>,
    id: Result<slots::SlotId, ConversionError<B::BuildError>>,
) -> Result<Head<'a, B::Expr>, ConversionError<B::BuildError>>
    ensures head { (v : Option SlotId) → Finds (λ s. s) id v →
        MakesHead B.operations B.meaning B.refusal result (and_then v (λ s. Some (converting.a_tree (tree.Slot s)))) }
    ensures shown { IfErr result (λ error. TellsOnly error (Told id)) }
{
    let id = id?;
    let builder = builder_at::<B>(alloc, loc)?;
    expr_to_head::<B>(taken::<B>(builder.slot(id)))
}

/// An expression that stands alone.
pub fn expr_to_head<'a, B: ExprBuilder>(
    expr: Result<B::Expr, ConversionError<B::BuildError>>,
) -> Result<Head<'a, B::Expr>, ConversionError<B::BuildError>>
    ensures head { (v : Option Tree) → MakesTree B.operations B.meaning B.refusal expr v →
        MakesHead B.operations B.meaning B.refusal result (and_then v (λ t. Some (converting.a_tree t))) }
    ensures shown { IfErr result (λ error. TellsOnly error (Told expr)) }
{
    let expr = expr?;
    Ok(Head::Expr(expr))
}

/// The set of these expressions.
pub fn set_to_head<'a, B: ExprBuilder>(
    alloc: Global,
    loc: Option<&Loc>,
    items: Result<Vec<B::Expr>, ConversionError<B::BuildError>>,
) -> Result<Head<'a, B::Expr>, ConversionError<B::BuildError>>
    ensures head { (v : Option (List Tree)) → MakesTrees B.operations B.meaning B.refusal items v →
        MakesHead B.operations B.meaning B.refusal result (and_then v (λ xs. Some (converting.a_tree (tree.Apply tree.MakeSet (trees xs))))) }
    ensures shown { IfErr result (λ error. TellsOnly error (Told items)) }
{
    let items = items?;
    let builder = builder_at::<B>(alloc, loc)?;
    expr_to_head::<B>(taken::<B>(builder.set(items)))
}

// How a name is used that stands where a variable should.
#[derive(Clone, Copy)]
enum Use<'a> {
    // Nothing of it is accessed.
    Alone,
    // This attribute of it is accessed.
    Attribute(&'a UnreservedId),
    // This method of it is called.
    Method(&'a UnreservedId),
    // This attribute of it is accessed by its text.
    Index(&'a RcStr),
}

// The variable that a name is.
fn variable<B: ExprBuilder>(
    alloc: Global,
    loc: Option<&Loc>,
    name: &Node<Option<Name>>,
    used: Use<'_>,
) -> Result<B::Expr, ConversionError<B::BuildError>>
    ensures tree { MakesTree B.operations B.meaning B.refusal result (head_tree (converting.a_name (shown_name name.now))) }
    ensures shown { IfErr result (λ error. TellsOnly error (misuse_shows (shown_name name.now) (used_as used.entry))) }
{
    match to_variable(name) {
        Some(var) => {
            let builder = builder_at::<B>(alloc, loc)?;
            taken::<B>(builder.var(var))
        }
        None => Err(no_variable(alloc, name, loc, used)),
    }
}

// The fault of a name that is no variable.
#[tactic(auto, using(crate::proofs::Converting::is_fault))]
fn no_variable<E: Drop>(
    alloc: Global,
    name: &Node<Option<Name>>,
    loc: Option<&Loc>,
    used: Use<'_>,
) -> ConversionError<E>
    ensures fault { IsFault result }
    ensures kind { TellsOnly result (no_variable_shows (shown_name name.now) (used_as used.entry)) }
{
    match to_name(alloc, name) {
        Ok(name) => match kind_of_no_variable(alloc, name, used) {
            Ok(kind) => ConversionError::fault(alloc, kind, loc),
            Err(_) => ConversionError::Memory,
        },
        Err(error) => error,
    }
}

// Which fault it is.
fn kind_of_no_variable(
    alloc: Global,
    name: names::Name,
    used: Use<'_>,
) -> Result<ToASTErrorKind, AllocError>
    ensures { IfOk result (λ kind. IsNoVariable name used.entry kind) }
{
    match used {
        Use::Alone => {
            let text = RcStr::from_string(name.to_string(alloc)?)?;
            Ok(ToASTErrorKind::ArbitraryVariable(text))
        }
        Use::Attribute(id) => {
            let field = id.clone(alloc)?.into_smolstr();
            Ok(ToASTErrorKind::InvalidAccess { lhs: name, field })
        }
        Use::Method(id) => Ok(ToASTErrorKind::NoMethods(name, id.clone(alloc)?)),
        Use::Index(text) => {
            let field = text.clone()?;
            Ok(ToASTErrorKind::InvalidIndex { lhs: name, field })
        }
    }
}

// The attribute of an expression.
fn accessed<B: ExprBuilder>(
    alloc: Global,
    loc: Option<&Loc>,
    expr: B::Expr,
    id: UnreservedId,
) -> Result<B::Expr, ConversionError<B::BuildError>>
    ensures tree { (t : Tree) → IsBuilt B.operations B.meaning expr t →
        MakesTree B.operations B.meaning B.refusal result (Some (unary (tree.GetAttr id) t)) }
    ensures shown { IfErr result (λ error. TellsOnly error (λ kind. ⊥)) }
{
    let builder = builder_at::<B>(alloc, loc)?;
    taken::<B>(builder.get_attr(expr, id.into_smolstr()))
}

/// The expression of an operand with its accesses.
pub fn head_to_expr<B: ExprBuilder>(
    alloc: Global,
    loc: Option<&Loc>,
    head: Result<Head<'_, B::Expr>, ConversionError<B::BuildError>>,
) -> Result<B::Expr, ConversionError<B::BuildError>>
    ensures tree { (v : Option converting.Head) → MakesHead B.operations B.meaning B.refusal head.entry v →
        MakesTree B.operations B.meaning B.refusal result (and_then v head_tree) }
    ensures shown { IfErr result (λ error. TellsOnly error (λ kind. Told head.entry kind ⊎ head_shows by_itself head.entry kind)) }
{
    used_to_expr::<B>(alloc, loc, head, Use::Alone)
}

// The same, where this is done with it.
fn used_to_expr<B: ExprBuilder>(
    alloc: Global,
    loc: Option<&Loc>,
    head: Result<Head<'_, B::Expr>, ConversionError<B::BuildError>>,
    used: Use<'_>,
) -> Result<B::Expr, ConversionError<B::BuildError>>
    ensures tree { (v : Option converting.Head) → MakesHead B.operations B.meaning B.refusal head.entry v →
        MakesTree B.operations B.meaning B.refusal result (and_then v head_tree) }
    ensures shown { IfErr result (λ error. TellsOnly error (λ kind. Told head.entry kind ⊎ head_shows (used_as used.entry) head.entry kind)) }
{
    match head {
        Ok(Head::Expr(expr)) => Ok(expr),
        Ok(Head::Name(name)) => variable::<B>(alloc, loc, name, used),
        Ok(Head::Attribute(expr, id, _)) => accessed::<B>(alloc, loc, expr, id),
        Err(error) => Err(error),
    }
}

// How a name is used before this attribute, or this method.
fn use_of<'a, E>(id: &'a Result<UnreservedId, E>, is_called: bool) -> Use<'a>
    ensures { used_as result ≡ used_before is_called (given id.now) }
{
    match id {
        Ok(id) => {
            if is_called {
                Use::Method(id)
            } else {
                Use::Attribute(id)
            }
        }
        Err(_) => Use::Alone,
    }
}

// How a name is used before this attribute between brackets.
fn use_by_text<'a, E>(text: &'a Result<RcStr, E>) -> Use<'a>
    ensures { used_as result ≡ used_at (option_map rc_str_bytes (given text.now)) }
{
    match text {
        Ok(text) => Use::Index(text),
        Err(_) => Use::Alone,
    }
}

/// `head.id`, whose name stands at `name_loc`, and which may be called yet; whether it is says `is_called`,
/// for the faults of a name that has neither attributes nor methods.
pub fn attribute<'a, B: ExprBuilder>(
    alloc: Global,
    loc: Option<&Loc>,
    head: Result<Head<'_, B::Expr>, ConversionError<B::BuildError>>,
    id: Result<UnreservedId, ConversionError<B::BuildError>>,
    name_loc: Option<&'a Loc>,
    is_called: bool,
) -> Result<Head<'a, B::Expr>, ConversionError<B::BuildError>>
    ensures head { (v : Option converting.Head) (w : Option Text) → MakesHead B.operations B.meaning B.refusal head.entry v → Finds (λ s. s) id w →
        MakesHead B.operations B.meaning B.refusal result (and_then v (λ h. and_then (head_tree h) (λ a. and_then w (λ s. Some (converting.an_attribute a s))))) }
    ensures shown { (w : Option Text) → Finds (λ s. s) id w →
        IfErr result (λ error. TellsOnly error (λ kind. Told head.entry kind ⊎ Told id kind ⊎ head_shows (used_before is_called w) head.entry kind)) }
{
    let expr = used_to_expr::<B>(alloc, loc, head, use_of(&id, is_called));
    let (expr, id) = flatten_tuple_2(expr, id)?;
    Ok(Head::Attribute(expr, id, name_loc))
}

/// `head["text"]`.
pub fn index<'a, B: ExprBuilder>(
    alloc: Global,
    loc: Option<&Loc>,
    head: Result<Head<'_, B::Expr>, ConversionError<B::BuildError>>,
    text: Result<RcStr, ConversionError<B::BuildError>>,
) -> Result<Head<'a, B::Expr>, ConversionError<B::BuildError>>
    ensures head { (v : Option converting.Head) (w : Option Text) → MakesHead B.operations B.meaning B.refusal head.entry v → Finds rc_str_bytes text w →
        MakesHead B.operations B.meaning B.refusal result (and_then v (λ h. and_then (head_tree h) (λ a. and_then w (λ s. Some (converting.a_tree (unary (tree.GetAttr s) a)))))) }
    ensures shown { (w : Option Text) → Finds rc_str_bytes text w →
        IfErr result (λ error. TellsOnly error (λ kind. Told head.entry kind ⊎ Told text kind ⊎ head_shows (used_at w) head.entry kind)) }
{
    let expr = used_to_expr::<B>(alloc, loc, head, use_by_text(&text));
    let (expr, text) = flatten_tuple_2(expr, text)?;
    let builder = builder_at::<B>(alloc, loc)?;
    expr_to_head::<B>(taken::<B>(builder.get_attr(expr, text)))
}
