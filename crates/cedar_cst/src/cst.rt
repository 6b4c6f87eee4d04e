// The loose syntax of Cedar: what a text is read into before it is known to mean anything.
pub use crate::leaves::{
    AddOp, Ident, Literal, MultOp, Name, NegOp, Ref, RefInit, RelOp, Slot, Str,
};
use crate::node::Node;

/// The policies of a text, in its order.
pub struct Policies(pub Vec<Node<Option<Policy>>>);

impl Drop for Policies {
    fn drop(self) {
        let Policies(_) = self;
    }
}

/// A policy.
pub enum Policy {
    Policy(PolicyImpl),
}

impl Drop for Policy {
    fn drop(self) {
        match self {
            Policy::Policy(_) => {}
        }
    }
}

/// The parts of a policy: `@key("value") effect(variables) conds;`
pub struct PolicyImpl {
    /// The annotations, in the text's order.
    pub annotations: Vec<Node<Option<Annotation>>>,
    /// `permit` or `forbid` in a policy that means something.
    pub effect: Node<Option<Ident>>,
    /// What stands between the parentheses, in the text's order.
    pub variables: Vec<Node<Option<VariableDef>>>,
    /// The `when` and `unless` clauses, in the text's order.
    pub conds: Vec<Node<Option<Cond>>>,
}

impl Drop for PolicyImpl {
    fn drop(self) {
        let PolicyImpl {
            annotations: _,
            effect: _,
            variables: _,
            conds: _,
        } = self;
    }
}

/// An annotation: `@key("value")` or `@key`.
pub struct Annotation {
    /// The key, which may be any word.
    pub key: Node<Option<Ident>>,
    /// The value, where one is written.
    pub value: Option<Node<Option<Str>>>,
}

impl Drop for Annotation {
    fn drop(self) {
        let Annotation { key: _, value: _ } = self;
    }
}

/// A constraint of a policy's scope, as `principal is T in e`.
pub struct VariableDef {
    /// `principal`, `action` or `resource` in a policy that means something.
    pub variable: Node<Option<Ident>>,
    /// The type in `principal: T`, which stands for nothing.
    pub unused_type_name: Option<Node<Option<Name>>>,
    /// The type after `is`.
    pub entity_type: Option<Node<Option<Add>>>,
    /// The operator and what it is compared with.
    pub ineq: Option<(RelOp, Node<Option<Expr>>)>,
}

impl Drop for VariableDef {
    fn drop(self) {
        let VariableDef {
            variable: _,
            unused_type_name: _,
            entity_type: _,
            ineq: _,
        } = self;
    }
}

/// A clause: `when { expr }` or `unless { expr }`.
pub struct Cond {
    /// `when` or `unless` in a policy that means something.
    pub cond: Node<Option<Ident>>,
    /// What stands between the braces; none where nothing does.
    pub expr: Option<Node<Option<Expr>>>,
}

impl Drop for Cond {
    fn drop(self) {
        let Cond { cond: _, expr: _ } = self;
    }
}

/// An expression.
#[cycle(expression)]
pub enum Expr {
    Expr(ExprImpl),
}

impl Drop for Expr {
    #[cycle(expression)]
    fn drop(self) {
        match self {
            Expr::Expr(_) => {}
        }
    }
}

/// What an expression consists of.
#[cycle(expression)]
pub struct ExprImpl {
    pub expr: Box<ExprData>,
}

impl Drop for ExprImpl {
    #[cycle(expression)]
    fn drop(self) {
        let ExprImpl { expr: _ } = self;
    }
}

/// The forms of an expression.
#[cycle(expression)]
pub enum ExprData {
    /// A chain of `||`, which may be one operand alone.
    Or(Node<Option<Or>>),
    /// `if a then b else c`: the test, and the two branches.
    If(Node<Option<Expr>>, Node<Option<Expr>>, Node<Option<Expr>>),
}

impl Drop for ExprData {
    #[cycle(expression)]
    fn drop(self) {
        match self {
            ExprData::Or(_) => {},
            ExprData::If(_, _, _) => {}
        }
    }
}

/// A chain of `||`.
#[cycle(expression)]
pub struct Or {
    /// The first operand.
    pub initial: Node<Option<And>>,
    /// The further operands.
    pub extended: Vec<Node<Option<And>>>,
}

impl Drop for Or {
    #[cycle(expression)]
    fn drop(self) {
        let Or {
            initial: _,
            extended: _,
        } = self;
    }
}

/// A chain of `&&`.
#[cycle(expression)]
pub struct And {
    /// The first operand.
    pub initial: Node<Option<Relation>>,
    /// The further operands.
    pub extended: Vec<Node<Option<Relation>>>,
}

impl Drop for And {
    #[cycle(expression)]
    fn drop(self) {
        let And {
            initial: _,
            extended: _,
        } = self;
    }
}

/// A comparison, or another relation. Its operands stand in boxes, since reading keeps what it makes on
/// the stack, at every level of nested brackets.
#[cycle(expression)]
pub enum Relation {
    /// A chain of comparisons, which may be one operand alone.
    Common {
        /// The first operand.
        initial: Box<Node<Option<Add>>>,
        /// The further operands, each with the operator before it.
        extended: Vec<(RelOp, Node<Option<Add>>)>,
    },
    /// `target has field`
    Has {
        target: Box<Node<Option<Add>>>,
        field: Box<Node<Option<Add>>>,
    },
    /// `target like pattern`
    Like {
        target: Box<Node<Option<Add>>>,
        pattern: Box<Node<Option<Add>>>,
    },
    /// `target is entity_type` or `target is entity_type in in_entity`
    IsIn {
        target: Box<Node<Option<Add>>>,
        entity_type: Box<Node<Option<Add>>>,
        in_entity: Option<Box<Node<Option<Add>>>>,
    },
}

impl Drop for Relation {
    #[cycle(expression)]
    fn drop(self) {
        match self {
            Relation::Common {
                initial: _,
                extended: _,
            } => {},
            Relation::Has {
                target: _,
                field: _,
            } => {},
            Relation::Like {
                target: _,
                pattern: _,
            } => {},
            Relation::IsIn {
                target: _,
                entity_type: _,
                in_entity: _,
            } => {}
        }
    }
}

/// A chain of `+` and `-`.
#[cycle(expression)]
pub struct Add {
    /// The first operand.
    pub initial: Node<Option<Mult>>,
    /// The further operands, each with the operator before it.
    pub extended: Vec<(AddOp, Node<Option<Mult>>)>,
}

impl Drop for Add {
    #[cycle(expression)]
    fn drop(self) {
        let Add {
            initial: _,
            extended: _,
        } = self;
    }
}

/// A chain of `*`, `/` and `%`.
#[cycle(expression)]
pub struct Mult {
    /// The first operand.
    pub initial: Node<Option<Unary>>,
    /// The further operands, each with the operator before it.
    pub extended: Vec<(MultOp, Node<Option<Unary>>)>,
}

impl Drop for Mult {
    #[cycle(expression)]
    fn drop(self) {
        let Mult {
            initial: _,
            extended: _,
        } = self;
    }
}

/// An operand and the signs before it.
#[cycle(expression)]
pub struct Unary {
    pub op: Option<NegOp>,
    pub item: Node<Option<Member>>,
}

impl Drop for Unary {
    #[cycle(expression)]
    fn drop(self) {
        let Unary { op: _, item: _ } = self;
    }
}

/// A primary and what is accessed of it: `item.a(b)["c"]`.
#[cycle(expression)]
pub struct Member {
    pub item: Box<Node<Option<Primary>>>,
    /// The accesses, in the text's order.
    pub access: Vec<Node<Option<MemAccess>>>,
}

impl Drop for Member {
    #[cycle(expression)]
    fn drop(self) {
        let Member { item: _, access: _ } = self;
    }
}

/// One access.
#[cycle(expression)]
pub enum MemAccess {
    /// `.name`
    Field(Node<Option<Ident>>),
    /// `(a, b)`
    Call(Vec<Node<Option<Expr>>>),
    /// `[a]`
    Index(Node<Option<Expr>>),
}

impl Drop for MemAccess {
    #[cycle(expression)]
    fn drop(self) {
        match self {
            MemAccess::Field(_) => {},
            MemAccess::Call(_) => {},
            MemAccess::Index(_) => {}
        }
    }
}

/// An operand without signs and accesses.
#[cycle(expression)]
pub enum Primary {
    /// A Boolean, a number or a string.
    Literal(Node<Option<Literal>>),
    /// An entity.
    Ref(Box<Node<Option<Ref>>>),
    /// A name.
    Name(Box<Node<Option<Name>>>),
    /// A slot of a template.
    Slot(Node<Option<Slot>>),
    /// An expression in parentheses.
    Expr(Node<Option<Expr>>),
    /// A set: `[a, b]`.
    EList(Vec<Node<Option<Expr>>>),
    /// A record: `{a: b, c: d}`.
    RInits(Vec<Node<Option<RecInit>>>),
}

impl Drop for Primary {
    #[cycle(expression)]
    fn drop(self) {
        match self {
            Primary::Literal(_) => {},
            Primary::Ref(_) => {},
            Primary::Name(_) => {},
            Primary::Slot(_) => {},
            Primary::Expr(_) => {},
            Primary::EList(_) => {},
            Primary::RInits(_) => {}
        }
    }
}

/// An entry of a record: a key and its value.
#[cycle(expression)]
pub struct RecInit(pub Node<Option<Expr>>, pub Node<Option<Expr>>);

impl Drop for RecInit {
    #[cycle(expression)]
    fn drop(self) {
        let RecInit(_, _) = self;
    }
}
