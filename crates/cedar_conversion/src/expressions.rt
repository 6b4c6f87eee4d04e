// Expressions.
ghost use Rattle.std.specs.Prelude.{◌≡◌, ◌⊎◌, map, Option, IfErr};
ghost use Rattle.cedar_grammar.specs.Loose as loose;
ghost use Rattle.cedar_grammar.specs.Converting as converting;
ghost use Rattle.cedar_grammar.specs.Converting.{expr_tree, or_tree, and_tree, relation_tree, add_tree, mult_tree, unary_tree, member_tree, access_head, primary_head, rec_init_tree};
ghost use Rattle.cedar_cst.specs.View.{shown_expr, shown_or, shown_and, shown_relation, shown_add, shown_mult, shown_unary, shown_member, shown_mem_access, shown_primary, shown_rec_init};
ghost use Rattle.cedar_faults.specs.Converts.{and_then};
ghost use Rattle.cedar_faults.specs.Telling.{Told, TellsOnly};
ghost use Rattle.cedar_conversion.specs.Building.{MakesTree};
ghost use Rattle.cedar_conversion.specs.Entries.{MakesEntry};
ghost use Rattle.cedar_conversion.specs.Heads.{MakesHead, IsBefore};
ghost use Rattle.cedar_conversion.specs.Shows.{Before, is_call, calls_method, expr_shows, or_shows, and_shows, relation_shows, add_shows, mult_shows, unary_shows, member_shows, access_shows, primary_shows, rec_init_shows};

use crate::lookahead::{enter_add, enter_or, lone_member, lone_relation, only_expr};
use crate::relations::{has_to_expr, is_in_to_expr, is_to_expr, like_to_expr};
use crate::signs::number_to_expr;
use crate::{
    Head, Joint, Sign, attribute, call, entity_to_head, expr_to_head, head_to_expr, index, ite,
    join, literal_to_head, lone_comparison, lone_number, pushed, pushed_entry, record_to_head,
    set_to_head, signed, slot_to_head, to_index, to_key, to_literal, to_ref, to_slot,
    to_unreserved_ident,
};
use cedar_builders::expr_builder::ExprBuilder;
use cedar_cst::cst::{
    Add, And, Expr, ExprData, MemAccess, Member, Mult, NegOp, Or, Primary, RecInit, Relation, Unary,
};
use cedar_cst::node::Node;
use cedar_faults::{ConversionError, ExtStyles, ToASTErrorKind, flatten_tuple_2};
use cedar_literals::operators::UnaryOp;
use cedar_names::places::Loc;
use std::alloc::Global;
use std::rc::RcStr;

/// The expression; what the builder refuses of its parts is answered also where it has faults behind them. What stands alone
/// takes no frame of the stack for each kind of operators.
#[cycle(to_expr)]
pub(crate) fn expr_to_expr<B: ExprBuilder>(
    alloc: Global,
    styles: &ExtStyles,
    node: &Node<Option<Expr>>,
) -> Result<B::Expr, ConversionError<B::BuildError>>
    ensures tree { MakesTree B.operations B.meaning B.refusal result (expr_tree styles.now (shown_expr node.now)) }
    ensures shown { IfErr result (λ error. TellsOnly error (expr_shows styles.now (shown_expr node.now))) }
{
    match lone_relation(node) {
        Some(relation) => relation_to_expr::<B>(alloc, styles, relation),
        None => match enter_or(node) {
            Some(or) => or_to_expr::<B>(alloc, styles, or),
            None => if_to_expr::<B>(alloc, styles, node),
        },
    }
}

// An expression that is no chain of `||`.
#[cycle(to_expr)]
#[inline(never)]
fn if_to_expr<B: ExprBuilder>(
    alloc: Global,
    styles: &ExtStyles,
    node: &Node<Option<Expr>>,
) -> Result<B::Expr, ConversionError<B::BuildError>>
    ensures tree { MakesTree B.operations B.meaning B.refusal result (expr_tree styles.now (shown_expr node.now)) }
    ensures shown { IfErr result (λ error. TellsOnly error (expr_shows styles.now (shown_expr node.now))) }
{
    match &node.node {
        None => Err(ConversionError::missing(alloc, node.loc())),
        Some(expr) => match expr {
            Expr::Expr(inner) => {
                let data = &*inner.expr;
                match data {
                    ExprData::Or(or) => or_to_expr::<B>(alloc, styles, or),
                    ExprData::If(test, then_expr, else_expr) => {
                        let tested = expr_to_expr::<B>(alloc, styles, test);
                        let taken = expr_to_expr::<B>(alloc, styles, then_expr);
                        let other = expr_to_expr::<B>(alloc, styles, else_expr);
                        ite::<B>(alloc, node.loc(), tested, taken, other)
                    }
                }
            }
        },
    }
}

// A chain of `||`.
#[cycle(to_expr)]
#[inline(never)]
fn or_to_expr<B: ExprBuilder>(
    alloc: Global,
    styles: &ExtStyles,
    node: &Node<Option<Or>>,
) -> Result<B::Expr, ConversionError<B::BuildError>>
    ensures tree { MakesTree B.operations B.meaning B.refusal result (or_tree styles.now (shown_or node.now)) }
    ensures shown { IfErr result (λ error. TellsOnly error (or_shows styles.now (shown_or node.now))) }
{
    match &node.node {
        None => Err(ConversionError::missing(alloc, node.loc())),
        Some(or) => {
            let mut whole = and_to_expr::<B>(alloc, styles, &or.initial);
            let parts = &or.extended;
            'parts: for part in parts {
                let next = and_to_expr::<B>(alloc, styles, part);
                whole = join::<B>(alloc, node.loc(), Joint::Or, whole, next);
            }
            whole
        }
    }
}

// A chain of `&&`.
#[cycle(to_expr)]
fn and_to_expr<B: ExprBuilder>(
    alloc: Global,
    styles: &ExtStyles,
    node: &Node<Option<And>>,
) -> Result<B::Expr, ConversionError<B::BuildError>>
    ensures tree { MakesTree B.operations B.meaning B.refusal result (and_tree styles.now (shown_and node.now)) }
    ensures shown { IfErr result (λ error. TellsOnly error (and_shows styles.now (shown_and node.now))) }
{
    match &node.node {
        None => Err(ConversionError::missing(alloc, node.loc())),
        Some(and) => {
            let mut whole = relation_to_expr::<B>(alloc, styles, &and.initial);
            let parts = &and.extended;
            'parts: for part in parts {
                let next = relation_to_expr::<B>(alloc, styles, part);
                whole = join::<B>(alloc, node.loc(), Joint::And, whole, next);
            }
            whole
        }
    }
}

// A relation, which may be one sum alone.
#[cycle(to_expr)]
fn relation_to_expr<B: ExprBuilder>(
    alloc: Global,
    styles: &ExtStyles,
    node: &Node<Option<Relation>>,
) -> Result<B::Expr, ConversionError<B::BuildError>>
    ensures tree { MakesTree B.operations B.meaning B.refusal result (relation_tree styles.now (shown_relation node.now)) }
    ensures shown { IfErr result (λ error. TellsOnly error (relation_shows styles.now (shown_relation node.now))) }
{
    match enter_add(node) {
        Some(add) => add_to_expr::<B>(alloc, styles, add),
        None => comparison_to_expr::<B>(alloc, styles, node),
    }
}

// A relation that is no sum alone.
#[cycle(to_expr)]
#[inline(never)]
fn comparison_to_expr<B: ExprBuilder>(
    alloc: Global,
    styles: &ExtStyles,
    node: &Node<Option<Relation>>,
) -> Result<B::Expr, ConversionError<B::BuildError>>
    ensures tree { MakesTree B.operations B.meaning B.refusal result (relation_tree styles.now (shown_relation node.now)) }
    ensures shown { IfErr result (λ error. TellsOnly error (relation_shows styles.now (shown_relation node.now))) }
{
    match &node.node {
        None => Err(ConversionError::missing(alloc, node.loc())),
        Some(relation) => match relation {
            Relation::Common { initial, extended } => {
                let operand = &**initial;
                let first = add_to_expr::<B>(alloc, styles, operand);
                match lone_comparison(alloc, extended.as_slice(), node.loc()) {
                    Ok(comparison) => match comparison {
                        None => first,
                        Some(link) => {
                            let second = add_to_expr::<B>(alloc, styles, &link.1);
                            join::<B>(alloc, node.loc(), Joint::Relation(link.0), first, second)
                        }
                    },
                    Err(error) => Err(error),
                }
            }
            Relation::Has { target, field } => {
                let holder = &**target;
                let path = &**field;
                let held = add_to_expr::<B>(alloc, styles, holder);
                has_to_expr::<B>(alloc, node.loc(), held, path)
            }
            Relation::Like { target, pattern } => {
                let matched = &**target;
                let text = &**pattern;
                let subject = add_to_expr::<B>(alloc, styles, matched);
                like_to_expr::<B>(alloc, node.loc(), subject, text)
            }
            Relation::IsIn {
                target,
                entity_type,
                in_entity,
            } => {
                let typed = &**target;
                let named = &**entity_type;
                let value = add_to_expr::<B>(alloc, styles, typed);
                match in_entity {
                    None => is_to_expr::<B>(alloc, node.loc(), value, named),
                    Some(entity) => {
                        let among = &**entity;
                        let within = add_to_expr::<B>(alloc, styles, among);
                        is_in_to_expr::<B>(alloc, node.loc(), value, named, within)
                    }
                }
            }
        },
    }
}

// A sum, which may be one operand alone.
#[cycle(to_expr)]
fn add_to_expr<B: ExprBuilder>(
    alloc: Global,
    styles: &ExtStyles,
    node: &Node<Option<Add>>,
) -> Result<B::Expr, ConversionError<B::BuildError>>
    ensures tree { MakesTree B.operations B.meaning B.refusal result (add_tree styles.now (shown_add node.now)) }
    ensures shown { IfErr result (λ error. TellsOnly error (add_shows styles.now (shown_add node.now))) }
{
    match lone_member(node) {
        Some(member) => member_to_expr::<B>(alloc, styles, member),
        None => sum_to_expr::<B>(alloc, styles, node),
    }
}

// A sum that is no operand alone.
#[cycle(to_expr)]
#[inline(never)]
fn sum_to_expr<B: ExprBuilder>(
    alloc: Global,
    styles: &ExtStyles,
    node: &Node<Option<Add>>,
) -> Result<B::Expr, ConversionError<B::BuildError>>
    ensures tree { MakesTree B.operations B.meaning B.refusal result (add_tree styles.now (shown_add node.now)) }
    ensures shown { IfErr result (λ error. TellsOnly error (add_shows styles.now (shown_add node.now))) }
{
    match &node.node {
        None => Err(ConversionError::missing(alloc, node.loc())),
        Some(add) => {
            let mut whole = mult_to_expr::<B>(alloc, styles, &add.initial);
            let parts = &add.extended;
            'parts: for part in parts {
                let next = mult_to_expr::<B>(alloc, styles, &part.1);
                whole = join::<B>(alloc, node.loc(), Joint::Sum(part.0), whole, next);
            }
            whole
        }
    }
}

// A product.
#[cycle(to_expr)]
fn mult_to_expr<B: ExprBuilder>(
    alloc: Global,
    styles: &ExtStyles,
    node: &Node<Option<Mult>>,
) -> Result<B::Expr, ConversionError<B::BuildError>>
    ensures tree { MakesTree B.operations B.meaning B.refusal result (mult_tree styles.now (shown_mult node.now)) }
    ensures shown { IfErr result (λ error. TellsOnly error (mult_shows styles.now (shown_mult node.now))) }
{
    match &node.node {
        None => Err(ConversionError::missing(alloc, node.loc())),
        Some(mult) => {
            let mut whole = unary_to_expr::<B>(alloc, styles, &mult.initial);
            let parts = &mult.extended;
            'parts: for part in parts {
                let next = unary_to_expr::<B>(alloc, styles, &part.1);
                whole = join::<B>(alloc, node.loc(), Joint::Product(part.0), whole, next);
            }
            whole
        }
    }
}

// An operand and the signs before it.
#[cycle(to_expr)]
fn unary_to_expr<B: ExprBuilder>(
    alloc: Global,
    styles: &ExtStyles,
    node: &Node<Option<Unary>>,
) -> Result<B::Expr, ConversionError<B::BuildError>>
    ensures tree { MakesTree B.operations B.meaning B.refusal result (unary_tree styles.now (shown_unary node.now)) }
    ensures shown { IfErr result (λ error. TellsOnly error (unary_shows styles.now (shown_unary node.now))) }
{
    match &node.node {
        None => Err(ConversionError::missing(alloc, node.loc())),
        Some(unary) => match unary.op {
            None => member_to_expr::<B>(alloc, styles, &unary.item),
            Some(op) => match op {
                NegOp::Bang(count) => {
                    let item = member_to_expr::<B>(alloc, styles, &unary.item);
                    signed::<B>(alloc, node.loc(), Sign::Bang, count, item)
                }
                NegOp::Dash(count) => match lone_number(&unary.item) {
                    Some(number) => {
                        if count == 0 {
                            member_to_expr::<B>(alloc, styles, &unary.item)
                        } else {
                            number_to_expr::<B>(alloc, node.loc(), number, count - 1)
                        }
                    }
                    None => {
                        let item = member_to_expr::<B>(alloc, styles, &unary.item);
                        signed::<B>(alloc, node.loc(), Sign::Minus, count, item)
                    }
                },
                NegOp::OverBang => {
                    let kind = ToASTErrorKind::UnaryOpLimit(UnaryOp::Not);
                    Err(ConversionError::fault(alloc, kind, node.loc()))
                }
                NegOp::OverDash => {
                    let kind = ToASTErrorKind::UnaryOpLimit(UnaryOp::Neg);
                    Err(ConversionError::fault(alloc, kind, node.loc()))
                }
            },
        },
    }
}

// An operand and its accesses.
#[cycle(to_expr)]
fn member_to_expr<B: ExprBuilder>(
    alloc: Global,
    styles: &ExtStyles,
    node: &Node<Option<Member>>,
) -> Result<B::Expr, ConversionError<B::BuildError>>
    ensures tree { MakesTree B.operations B.meaning B.refusal result (member_tree styles.now (shown_member node.now)) }
    ensures shown { IfErr result (λ error. TellsOnly error (member_shows styles.now (shown_member node.now))) }
{
    match &node.node {
        None => Err(ConversionError::missing(alloc, node.loc())),
        Some(member) => {
            let operand = &*member.item;
            let mut head = primary_to_head::<B>(alloc, styles, operand);
            let accesses = &member.access;
            let is_called = calls_method(accesses);
            'accesses: for access in accesses {
                head = access_to_head::<B>(alloc, styles, access, head, is_called);
            }
            head_to_expr::<B>(alloc, node.loc(), head)
        }
    }
}

// Whether the second access is a call, so that the first one names a method.
fn calls_method(accesses: &Vec<Node<Option<MemAccess>>>) -> bool
    ensures { result ≡ calls_method (loose.accesses (map shown_mem_access accesses.now.items)) }
{
    match accesses.get(1) {
        Some(access) => is_call(access),
        None => false,
    }
}

fn is_call(node: &Node<Option<MemAccess>>) -> bool
    ensures { result ≡ is_call (shown_mem_access node.now) }
{
    match &node.node {
        None => false,
        Some(access) => match access {
            MemAccess::Field(_) => false,
            MemAccess::Call(_) => true,
            MemAccess::Index(_) => false,
        },
    }
}

// What an access makes of an operand; of a name, whether a method of it `is_called`.
#[cycle(to_expr)]
#[inline(never)]
fn access_to_head<'a, B: ExprBuilder>(
    alloc: Global,
    styles: &ExtStyles,
    node: &'a Node<Option<MemAccess>>,
    head: Result<Head<'a, B::Expr>, ConversionError<B::BuildError>>,
    is_called: bool,
) -> Result<Head<'a, B::Expr>, ConversionError<B::BuildError>>
    ensures head { (v : Option converting.Head) → MakesHead B.operations B.meaning B.refusal head.entry v →
        MakesHead B.operations B.meaning B.refusal result (and_then v (λ h. access_head styles.now h (shown_mem_access node.now))) }
    ensures shown { (b : Before) → IsBefore head.entry b →
        IfErr result (λ error. TellsOnly error (λ kind. Told head.entry kind ⊎ access_shows styles.now b is_called (shown_mem_access node.now) kind)) }
{
    match &node.node {
        None => Err(ConversionError::missing(alloc, node.loc())),
        Some(access) => match access {
            MemAccess::Field(id) => {
                let word = to_unreserved_ident(alloc, id);
                attribute::<B>(alloc, node.loc(), head, word, id.loc(), is_called)
            }
            MemAccess::Call(args) => {
                let mut values = Ok(Vec::new(alloc));
                'values: for arg in args {
                    let value = expr_to_expr::<B>(alloc, styles, arg);
                    values = pushed::<B>(values, value);
                }
                call::<B>(alloc, styles, node.loc(), head, values)
            }
            MemAccess::Index(text) => {
                let key = to_index(alloc, text);
                index::<B>(alloc, node.loc(), head, key)
            }
        },
    }
}

/// An operand without signs and accesses.
#[cycle(to_expr)]
pub(crate) fn primary_to_head<'a, B: ExprBuilder>(
    alloc: Global,
    styles: &ExtStyles,
    node: &'a Node<Option<Primary>>,
) -> Result<Head<'a, B::Expr>, ConversionError<B::BuildError>>
    ensures head { MakesHead B.operations B.meaning B.refusal result (primary_head styles.now (shown_primary node.now)) }
    ensures shown { IfErr result (λ error. TellsOnly error (primary_shows styles.now (shown_primary node.now))) }
{
    match only_expr(node) {
        Some(expr) => {
            let inner = expr_to_expr::<B>(alloc, styles, expr);
            expr_to_head::<B>(inner)
        }
        None => operand_to_head::<B>(alloc, styles, node),
    }
}

// An operand that is no expression in brackets.
#[cycle(to_expr)]
#[inline(never)]
fn operand_to_head<'a, B: ExprBuilder>(
    alloc: Global,
    styles: &ExtStyles,
    node: &'a Node<Option<Primary>>,
) -> Result<Head<'a, B::Expr>, ConversionError<B::BuildError>>
    ensures head { MakesHead B.operations B.meaning B.refusal result (primary_head styles.now (shown_primary node.now)) }
    ensures shown { IfErr result (λ error. TellsOnly error (primary_shows styles.now (shown_primary node.now))) }
{
    match &node.node {
        None => Err(ConversionError::missing(alloc, node.loc())),
        Some(primary) => match primary {
            Primary::Literal(literal) => {
                let value = to_literal(alloc, literal);
                literal_to_head::<B>(alloc, node.loc(), value)
            }
            Primary::Ref(entity) => {
                let reference = &**entity;
                let uid = to_ref(alloc, reference);
                entity_to_head::<B>(alloc, node.loc(), uid)
            }
            Primary::Name(name) => {
                let inner = &**name;
                Ok(Head::Name(inner))
            }
            Primary::Slot(slot) => {
                let id = to_slot(alloc, slot, node.loc());
                slot_to_head::<B>(alloc, node.loc(), id)
            }
            Primary::Expr(expr) => {
                let inner = expr_to_expr::<B>(alloc, styles, expr);
                expr_to_head::<B>(inner)
            }
            Primary::EList(list) => {
                let mut made = Ok(Vec::new(alloc));
                'items: for item in list {
                    let next = expr_to_expr::<B>(alloc, styles, item);
                    made = pushed::<B>(made, next);
                }
                set_to_head::<B>(alloc, node.loc(), made)
            }
            Primary::RInits(fields) => {
                let mut pairs = Ok(Vec::new(alloc));
                'entries: for entry in fields {
                    let pair = entry_to_pair::<B>(alloc, styles, entry);
                    pairs = pushed_entry::<B>(pairs, pair);
                }
                record_to_head::<B>(alloc, node.loc(), pairs)
            }
        },
    }
}

// An entry of a record, or the faults of its parts.
#[cycle(to_expr)]
fn entry_to_pair<B: ExprBuilder>(
    alloc: Global,
    styles: &ExtStyles,
    node: &Node<Option<RecInit>>,
) -> Result<(RcStr, B::Expr), ConversionError<B::BuildError>>
    ensures entry { MakesEntry B.operations B.meaning B.refusal result (rec_init_tree styles.now (shown_rec_init node.now)) }
    ensures shown { IfErr result (λ error. TellsOnly error (rec_init_shows styles.now (shown_rec_init node.now))) }
{
    match &node.node {
        None => Err(ConversionError::missing(alloc, node.loc())),
        Some(entry) => {
            let key = to_key(alloc, &entry.0);
            let value = expr_to_expr::<B>(alloc, styles, &entry.1);
            flatten_tuple_2(key, value)
        }
    }
}
