// Calls of functions and methods.
ghost use Rattle.std.specs.Prelude.{◌≡◌, ◌⊎◌, ⊤, false, [], ◌∷◌, length, cond, codes, Option, Some, None, List, IfOk, IfErr, MatchOption};
ghost use Rattle.cedar_language.specs.Tree as tree;
ghost use Rattle.cedar_language.specs.Tree.{Tree};
ghost use Rattle.cedar_literals.specs.Operators.{binary_operator_of};
ghost use Rattle.cedar_grammar.specs.Build.{method, with_argument, without_argument, trees};
ghost use Rattle.cedar_grammar.specs.Names.{is_among};
ghost use Rattle.cedar_grammar.specs.Converting as converting;
ghost use Rattle.cedar_grammar.specs.Converting.{name_variable};
ghost use Rattle.cedar_cst.specs.LeafView.{shown_name};
ghost use Rattle.cedar_faults.specs.Reasons.{IsFault};
ghost use Rattle.cedar_faults.specs.Converts.{and_then};
ghost use Rattle.cedar_faults.specs.Telling.{Told, TellsOnly};
ghost use Rattle.cedar_conversion.specs.Building.{IsBuilt, MakesTree, AreBuilt, MakesTrees};
ghost use Rattle.cedar_conversion.specs.Choices.{own_methods, IsNoFunction, IsNoMethod, IsWrongArity, function_shows, method_shows};
ghost use Rattle.cedar_conversion.specs.Heads.{IsHead, MakesHead, before_of, called_shows};
ghost use Rattle.cedar_conversion.specs.Shows.{call_shows};

use crate::building::{builder_at, taken};
use crate::heads::{Head, expr_to_head};
use crate::names::to_name;
use crate::variables::to_variable;
use cedar_builders::expr_builder::ExprBuilder;
use cedar_cst::cst;
use cedar_cst::node::Node;
use cedar_faults::{ConversionError, ExtStyles, ToASTErrorKind};
use cedar_literals::operators::BinaryOp;
use cedar_names::identifiers::UnreservedId;
use cedar_names::names::Name;
use cedar_names::places::Loc;
use std::alloc::{AllocError, Global};

// Whether Cedar itself has a method that is so called. (Cedar language reference, "Operators and functions".)
fn is_own_method(name: &str) -> bool
    ensures { result ≡ is_among name.now own_methods }
{
    matches!(
        name,
        "contains" | "containsAll" | "containsAny" | "getTag" | "hasTag" | "isEmpty"
    )
}

// The fault of a name that is called before its arguments, and is no function, at that name.
fn no_function<E: Drop>(
    alloc: Global,
    styles: &ExtStyles,
    name: &Node<Option<cst::Name>>,
    function: Name,
) -> ConversionError<E>
    ensures fault { IsFault result }
    ensures kind { TellsOnly result (IsNoFunction styles.now (name_variable (shown_name name.now)) function) }
{
    match kind_of_no_function(alloc, styles, name, function) {
        Ok(kind) => ConversionError::fault(alloc, kind, name.loc()),
        Err(_) => ConversionError::Memory,
    }
}

// Which fault it is.
fn kind_of_no_function(
    alloc: Global,
    styles: &ExtStyles,
    name: &Node<Option<cst::Name>>,
    function: Name,
) -> Result<ToASTErrorKind, AllocError>
    ensures { IfOk result (λ kind. IsNoFunction styles.now (name_variable (shown_name name.now)) function kind) }
{
    if let Some(var) = to_variable(name) {
        return Ok(ToASTErrorKind::VariableCall(var));
    }
    if function.is_unqualified() {
        let id = function.basename(alloc)?;
        if is_own_method(id.as_str()) || styles.is_method(&id) {
            return Ok(ToASTErrorKind::FunctionCallOnMethod(id));
        }
    }
    Ok(ToASTErrorKind::UnknownFunction { id: function })
}

// The fault of a name that is called behind its first argument, and is no method, at that name.
fn no_method<E: Drop>(
    alloc: Global,
    styles: &ExtStyles,
    name_loc: Option<&Loc>,
    id: UnreservedId,
) -> ConversionError<E>
    ensures fault { IsFault result }
    ensures kind { TellsOnly result (IsNoMethod styles.now id) }
{
    match kind_of_no_method(alloc, styles, id) {
        Ok(kind) => ConversionError::fault(alloc, kind, name_loc),
        Err(_) => ConversionError::Memory,
    }
}

// Which fault it is.
fn kind_of_no_method(
    alloc: Global,
    styles: &ExtStyles,
    id: UnreservedId,
) -> Result<ToASTErrorKind, AllocError>
    ensures { IfOk result (λ kind. IsNoMethod styles.now id kind) }
{
    let function = Name::unqualified_name(alloc, id.clone(alloc)?, None)?;
    if styles.is_function(&function) {
        Ok(ToASTErrorKind::MethodCallOnFunction(id))
    } else {
        Ok(ToASTErrorKind::UnknownMethod { id })
    }
}

// The call of a function by its name.
fn call_function<B: ExprBuilder>(
    alloc: Global,
    styles: &ExtStyles,
    loc: Option<&Loc>,
    name: &Node<Option<cst::Name>>,
    args: Vec<B::Expr>,
) -> Result<B::Expr, ConversionError<B::BuildError>>
    ensures tree { (xs : List Tree) → AreBuilt B.operations B.meaning args xs →
        MakesTree B.operations B.meaning B.refusal result (converting.called styles.now (converting.a_name (shown_name name.now)) xs) }
    ensures shown { IfErr result (λ error. TellsOnly error (function_shows styles.now (shown_name name.now))) }
{
    let function = to_name(alloc, name)?;
    if !styles.is_function(&function) {
        return Err(no_function(alloc, styles, name, function));
    }
    let builder = builder_at::<B>(alloc, loc)?;
    taken::<B>(builder.call_extension_fn(function, args))
}

// The one argument of a method, where it was given one.
fn only<E: Drop>(mut args: Vec<E>) -> Option<E>
    ensures { MatchOption result (length args.items ≡ 1 → ⊥) (λ arg. args.items ≡ arg ∷ []) }
{
    if args.len() == 1 { args.pop() } else { None }
}

// The call of a method with one argument.
fn with_argument<B: ExprBuilder>(
    alloc: Global,
    loc: Option<&Loc>,
    name: &'static str,
    op: BinaryOp,
    expr: B::Expr,
    args: Vec<B::Expr>,
) -> Result<B::Expr, ConversionError<B::BuildError>>
    ensures tree { (t : Tree) (xs : List Tree) → IsBuilt B.operations B.meaning expr t → AreBuilt B.operations B.meaning args xs →
        MakesTree B.operations B.meaning B.refusal result (with_argument (binary_operator_of op) t xs) }
    ensures shown { IfErr result (λ error. TellsOnly error (IsWrongArity name.entry.now 1 (length args.items))) }
{
    let got = args.len();
    match only(args) {
        Some(arg) => {
            let builder = builder_at::<B>(alloc, loc)?;
            taken::<B>(builder.binary_app(op, expr, arg))
        }
        None => {
            let kind = ToASTErrorKind::WrongArity {
                name,
                expected: 1,
                got,
            };
            Err(ConversionError::fault(alloc, kind, loc))
        }
    }
}

// The call of the method without arguments.
fn is_empty<B: ExprBuilder>(
    alloc: Global,
    loc: Option<&Loc>,
    expr: B::Expr,
    args: Vec<B::Expr>,
) -> Result<B::Expr, ConversionError<B::BuildError>>
    ensures tree { (t : Tree) (xs : List Tree) → IsBuilt B.operations B.meaning expr t → AreBuilt B.operations B.meaning args xs →
        MakesTree B.operations B.meaning B.refusal result (without_argument tree.IsEmpty t xs) }
    ensures shown { IfErr result (λ error. TellsOnly error (IsWrongArity (codes "isEmpty") 0 (length args.items))) }
{
    if args.is_empty() {
        let builder = builder_at::<B>(alloc, loc)?;
        return taken::<B>(builder.is_empty(expr));
    }
    let kind = ToASTErrorKind::WrongArity {
        name: "isEmpty",
        expected: 0,
        got: args.len(),
    };
    Err(ConversionError::fault(alloc, kind, loc))
}

// The call of a method of the table.
fn call_table_method<B: ExprBuilder>(
    alloc: Global,
    styles: &ExtStyles,
    loc: Option<&Loc>,
    expr: B::Expr,
    id: UnreservedId,
    name_loc: Option<&Loc>,
    args: Vec<B::Expr>,
) -> Result<B::Expr, ConversionError<B::BuildError>>
    ensures tree { (t : Tree) (xs : List Tree) → IsBuilt B.operations B.meaning expr t → AreBuilt B.operations B.meaning args xs →
        MakesTree B.operations B.meaning B.refusal result
        (cond (is_among id styles.now.methods) (Some (tree.Apply (tree.Call (id ∷ [])) (trees (t ∷ xs)))) None) }
    ensures shown { IfErr result (λ error. TellsOnly error (λ kind. (is_among id styles.now.methods ≡ false) × IsNoMethod styles.now id kind)) }
{
    if !styles.is_method(&id) {
        return Err(no_method(alloc, styles, name_loc, id));
    }
    let mut args = args;
    args.insert(0, expr)?;
    let function = Name::unqualified_name(alloc, id, loc.cloned()?)?;
    let builder = builder_at::<B>(alloc, loc)?;
    taken::<B>(builder.call_extension_fn(function, args))
}

// The call of a method: the language's own go before the table's.
fn call_method<B: ExprBuilder>(
    alloc: Global,
    styles: &ExtStyles,
    loc: Option<&Loc>,
    expr: B::Expr,
    id: UnreservedId,
    name_loc: Option<&Loc>,
    args: Vec<B::Expr>,
) -> Result<B::Expr, ConversionError<B::BuildError>>
    ensures tree { (t : Tree) (xs : List Tree) → IsBuilt B.operations B.meaning expr t → AreBuilt B.operations B.meaning args xs →
        MakesTree B.operations B.meaning B.refusal result (method styles.now id t xs) }
    ensures shown { IfErr result (λ error. TellsOnly error (method_shows styles.now id (length args.items))) }
{
    match id.as_str() {
        "contains" => with_argument::<B>(alloc, loc, "contains", BinaryOp::Contains, expr, args),
        "containsAll" => {
            with_argument::<B>(alloc, loc, "containsAll", BinaryOp::ContainsAll, expr, args)
        }
        "containsAny" => {
            with_argument::<B>(alloc, loc, "containsAny", BinaryOp::ContainsAny, expr, args)
        }
        "getTag" => with_argument::<B>(alloc, loc, "getTag", BinaryOp::GetTag, expr, args),
        "hasTag" => with_argument::<B>(alloc, loc, "hasTag", BinaryOp::HasTag, expr, args),
        "isEmpty" => is_empty::<B>(alloc, loc, expr, args),
        _ => call_table_method::<B>(alloc, styles, loc, expr, id, name_loc, args),
    }
}

// `head(args)` where both parts are there.
fn called<B: ExprBuilder>(
    alloc: Global,
    styles: &ExtStyles,
    loc: Option<&Loc>,
    head: Head<'_, B::Expr>,
    args: Vec<B::Expr>,
) -> Result<B::Expr, ConversionError<B::BuildError>>
    ensures tree { (h : converting.Head) (xs : List Tree) → IsHead B.operations B.meaning head.entry h → AreBuilt B.operations B.meaning args xs →
        MakesTree B.operations B.meaning B.refusal result (converting.called styles.now h xs) }
    ensures shown { IfErr result (λ error. TellsOnly error (call_shows styles.now (before_of head.entry) (length args.items))) }
{
    match head {
        Head::Expr(_) => {
            let kind = ToASTErrorKind::ExpressionCall;
            Err(ConversionError::fault(alloc, kind, loc))
        }
        Head::Name(name) => call_function::<B>(alloc, styles, loc, name, args),
        Head::Attribute(expr, id, name_loc) => {
            call_method::<B>(alloc, styles, loc, expr, id, name_loc, args)
        }
    }
}

/// `head(args)`, or the faults of both. What is no function, or no method, is told at its name.
pub fn call<'a, B: ExprBuilder>(
    alloc: Global,
    styles: &ExtStyles,
    loc: Option<&Loc>,
    head: Result<Head<'_, B::Expr>, ConversionError<B::BuildError>>,
    args: Result<Vec<B::Expr>, ConversionError<B::BuildError>>,
) -> Result<Head<'a, B::Expr>, ConversionError<B::BuildError>>
    ensures head { (v : Option converting.Head) (w : Option (List Tree)) → MakesHead B.operations B.meaning B.refusal head.entry v → MakesTrees B.operations B.meaning B.refusal args w →
        MakesHead B.operations B.meaning B.refusal result (and_then v (λ h. and_then w (λ xs. and_then (converting.called styles.now h xs) (λ t. Some (converting.a_tree t))))) }
    ensures shown { IfErr result (λ error. TellsOnly error (λ kind. Told head.entry kind ⊎ Told args kind ⊎ called_shows styles.now head.entry args kind)) }
{
    match head {
        Ok(head) => match args {
            Ok(args) => expr_to_head::<B>(called::<B>(alloc, styles, loc, head, args)),
            Err(error) => Err(error),
        },
        Err(error) => match args {
            Ok(_) => Err(error),
            Err(other) => Err(error.and(other)),
        },
    }
}
