// Nodes of expressions, each at the place of what was taken for it. The makers are refused for memory alone.
ghost use Rattle.std.specs.Prelude.{◌≡◌, IfOk, map};
ghost use Rattle.std.specs.Option.{option_map};
ghost use Rattle.cedar_grammar.specs.Loose as loose;
ghost use Rattle.cedar_cst.specs.LeafView.{shown_ident, shown_literal, shown_ref, shown_name, shown_slot, view_neg_op};
ghost use Rattle.cedar_cst.specs.View.{shown_expr, shown_and, shown_relation, shown_add, shown_mult, shown_unary, shown_member, shown_mem_access, shown_primary, shown_rec_init};
ghost use Rattle.cedar_loose.specs.Links.{linked_add, linked_mult, linked_unary};

use crate::cursor::Cursor;
use cedar_cst::cst::{
    Add, AddOp, And, Expr, ExprData, ExprImpl, Ident, Literal, MemAccess, Member, Mult, MultOp,
    Name, NegOp, Or, Primary, RecInit, Ref, RelOp, Relation, Slot, Unary,
};
use cedar_cst::node::Node;
use std::alloc::{AllocError, Global};

impl<'t> Cursor<'t> {
    /// A chain of `||` as an expression.
    #[inline(never)]
    pub(crate) fn or_expr(
        &self,
        alloc: Global,
        start: usize,
        initial: Box<Node<Option<And>>>,
        extended: Vec<Node<Option<And>>>,
    ) -> Result<Node<Option<Expr>>, AllocError>
        ensures { IfOk result (λ node. shown_expr node ≡ loose.or_expr (loose.or (shown_and initial.value) (loose.ands (map shown_and extended.items)))) }
    {
        let initial = Box::into_inner(initial);
        let or = self.node(start, Or { initial, extended })?;
        let expr = Box::new(alloc, ExprData::Or(or))?;
        self.node(start, Expr::Expr(ExprImpl { expr }))
    }

    /// A choice as an expression.
    #[inline(never)]
    pub(crate) fn if_expr(
        &self,
        alloc: Global,
        start: usize,
        test: Node<Option<Expr>>,
        then: Node<Option<Expr>>,
        other: Node<Option<Expr>>,
    ) -> Result<Node<Option<Expr>>, AllocError>
        ensures { IfOk result (λ node. shown_expr node ≡ loose.if_expr (shown_expr test) (shown_expr then) (shown_expr other)) }
    {
        let expr = Box::new(alloc, ExprData::If(test, then, other))?;
        self.node(start, Expr::Expr(ExprImpl { expr }))
    }

    /// A chain of `&&`.
    #[inline(never)]
    pub(crate) fn and_node(
        &self,
        start: usize,
        initial: Box<Node<Option<Relation>>>,
        extended: Vec<Node<Option<Relation>>>,
    ) -> Result<Box<Node<Option<And>>>, AllocError>
        ensures { IfOk result (λ b. shown_and b.value ≡ loose.and (shown_relation initial.value) (loose.relations (map shown_relation extended.items))) }
    {
        self.boxed_node(
            start,
            And {
                initial: Box::into_inner(initial),
                extended,
            },
        )
    }

    /// A chain of comparisons.
    #[inline(never)]
    pub(crate) fn common_relation(
        &self,
        start: usize,
        initial: Box<Node<Option<Add>>>,
        extended: Vec<(RelOp, Node<Option<Add>>)>,
    ) -> Result<Box<Node<Option<Relation>>>, AllocError>
        ensures { IfOk result (λ b. shown_relation b.value ≡ loose.common (shown_add initial.value) (loose.adds (map linked_add extended.items))) }
    {
        self.boxed_node(start, Relation::Common { initial, extended })
    }

    /// `target has field`.
    #[inline(never)]
    pub(crate) fn has_relation(
        &self,
        start: usize,
        target: Box<Node<Option<Add>>>,
        field: Box<Node<Option<Add>>>,
    ) -> Result<Box<Node<Option<Relation>>>, AllocError>
        ensures { IfOk result (λ b. shown_relation b.value ≡ loose.has (shown_add target.value) (shown_add field.value)) }
    {
        self.boxed_node(start, Relation::Has { target, field })
    }

    /// `target like pattern`.
    #[inline(never)]
    pub(crate) fn like_relation(
        &self,
        start: usize,
        target: Box<Node<Option<Add>>>,
        pattern: Box<Node<Option<Add>>>,
    ) -> Result<Box<Node<Option<Relation>>>, AllocError>
        ensures { IfOk result (λ b. shown_relation b.value ≡ loose.like (shown_add target.value) (shown_add pattern.value)) }
    {
        self.boxed_node(start, Relation::Like { target, pattern })
    }

    /// `target is entity_type`.
    #[inline(never)]
    pub(crate) fn is_relation(
        &self,
        start: usize,
        target: Box<Node<Option<Add>>>,
        entity_type: Box<Node<Option<Add>>>,
    ) -> Result<Box<Node<Option<Relation>>>, AllocError>
        ensures { IfOk result (λ b. shown_relation b.value ≡ loose.is_type (shown_add target.value) (shown_add entity_type.value)) }
    {
        self.boxed_node(
            start,
            Relation::IsIn {
                target,
                entity_type,
                in_entity: None,
            },
        )
    }

    /// `target is entity_type in entity`.
    #[inline(never)]
    pub(crate) fn is_in_relation(
        &self,
        start: usize,
        target: Box<Node<Option<Add>>>,
        entity_type: Box<Node<Option<Add>>>,
        entity: Box<Node<Option<Add>>>,
    ) -> Result<Box<Node<Option<Relation>>>, AllocError>
        ensures { IfOk result (λ b. shown_relation b.value ≡ loose.is_type_in (shown_add target.value) (shown_add entity_type.value) (shown_add entity.value)) }
    {
        self.boxed_node(
            start,
            Relation::IsIn {
                target,
                entity_type,
                in_entity: Some(entity),
            },
        )
    }

    /// A chain of `+` and `-`.
    #[inline(never)]
    pub(crate) fn add_node(
        &self,
        start: usize,
        initial: Box<Node<Option<Mult>>>,
        extended: Vec<(AddOp, Node<Option<Mult>>)>,
    ) -> Result<Box<Node<Option<Add>>>, AllocError>
        ensures { IfOk result (λ b. shown_add b.value ≡ loose.add (shown_mult initial.value) (loose.mults (map linked_mult extended.items))) }
    {
        self.boxed_node(
            start,
            Add {
                initial: Box::into_inner(initial),
                extended,
            },
        )
    }

    /// A chain of `*`, `/` and `%`.
    #[inline(never)]
    pub(crate) fn mult_node(
        &self,
        start: usize,
        initial: Box<Node<Option<Unary>>>,
        extended: Vec<(MultOp, Node<Option<Unary>>)>,
    ) -> Result<Box<Node<Option<Mult>>>, AllocError>
        ensures { IfOk result (λ b. shown_mult b.value ≡ loose.mult (shown_unary initial.value) (loose.unaries (map linked_unary extended.items))) }
    {
        self.boxed_node(
            start,
            Mult {
                initial: Box::into_inner(initial),
                extended,
            },
        )
    }

    /// An operand and the signs before it.
    #[inline(never)]
    pub(crate) fn unary_node(
        &self,
        start: usize,
        op: Option<NegOp>,
        item: Node<Option<Member>>,
    ) -> Result<Box<Node<Option<Unary>>>, AllocError>
        ensures { IfOk result (λ b. shown_unary b.value ≡ loose.unary (option_map view_neg_op op) (shown_member item)) }
    {
        self.boxed_node(start, Unary { op, item })
    }

    /// A primary and what is accessed of it.
    #[inline(never)]
    pub(crate) fn member_node(
        &self,
        start: usize,
        item: Box<Node<Option<Primary>>>,
        access: Vec<Node<Option<MemAccess>>>,
    ) -> Result<Node<Option<Member>>, AllocError>
        ensures { IfOk result (λ node. shown_member node ≡ loose.member (shown_primary item.value) (loose.accesses (map shown_mem_access access.items))) }
    {
        self.node(start, Member { item, access })
    }

    /// `.field`.
    #[inline(never)]
    pub(crate) fn field_access(
        &self,
        start: usize,
        field: Node<Option<Ident>>,
    ) -> Result<Box<Node<Option<MemAccess>>>, AllocError>
        ensures { IfOk result (λ b. shown_mem_access b.value ≡ loose.field (shown_ident field)) }
    {
        self.boxed_node(start, MemAccess::Field(field))
    }

    /// `(arguments)`.
    #[inline(never)]
    pub(crate) fn call_access(
        &self,
        start: usize,
        arguments: Vec<Node<Option<Expr>>>,
    ) -> Result<Box<Node<Option<MemAccess>>>, AllocError>
        ensures { IfOk result (λ b. shown_mem_access b.value ≡ loose.call (loose.exprs (map shown_expr arguments.items))) }
    {
        self.boxed_node(start, MemAccess::Call(arguments))
    }

    /// `[index]`.
    #[inline(never)]
    pub(crate) fn index_access(
        &self,
        start: usize,
        index: Node<Option<Expr>>,
    ) -> Result<Box<Node<Option<MemAccess>>>, AllocError>
        ensures { IfOk result (λ b. shown_mem_access b.value ≡ loose.index (shown_expr index)) }
    {
        self.boxed_node(start, MemAccess::Index(index))
    }

    /// A literal as a primary.
    #[inline(never)]
    pub(crate) fn literal_primary(
        &self,
        start: usize,
        literal: Node<Option<Literal>>,
    ) -> Result<Box<Node<Option<Primary>>>, AllocError>
        ensures { IfOk result (λ b. shown_primary b.value ≡ loose.literal (shown_literal literal)) }
    {
        self.boxed_node(start, Primary::Literal(literal))
    }

    /// An entity as a primary.
    #[inline(never)]
    pub(crate) fn entity_primary(
        &self,
        alloc: Global,
        start: usize,
        entity: Node<Option<Ref>>,
    ) -> Result<Box<Node<Option<Primary>>>, AllocError>
        ensures { IfOk result (λ b. shown_primary b.value ≡ loose.entity (shown_ref entity)) }
    {
        let entity = Box::new(alloc, entity)?;
        self.boxed_node(start, Primary::Ref(entity))
    }

    /// A name as a primary.
    #[inline(never)]
    pub(crate) fn name_primary(
        &self,
        alloc: Global,
        start: usize,
        name: Node<Option<Name>>,
    ) -> Result<Box<Node<Option<Primary>>>, AllocError>
        ensures { IfOk result (λ b. shown_primary b.value ≡ loose.named (shown_name name)) }
    {
        let name = Box::new(alloc, name)?;
        self.boxed_node(start, Primary::Name(name))
    }

    /// A slot as a primary.
    #[inline(never)]
    pub(crate) fn slot_primary(
        &self,
        start: usize,
        slot: Node<Option<Slot>>,
    ) -> Result<Box<Node<Option<Primary>>>, AllocError>
        ensures { IfOk result (λ b. shown_primary b.value ≡ loose.slot (shown_slot slot)) }
    {
        self.boxed_node(start, Primary::Slot(slot))
    }

    /// An expression in parentheses.
    #[inline(never)]
    pub(crate) fn expr_primary(
        &self,
        start: usize,
        expr: Node<Option<Expr>>,
    ) -> Result<Box<Node<Option<Primary>>>, AllocError>
        ensures { IfOk result (λ b. shown_primary b.value ≡ loose.expr (shown_expr expr)) }
    {
        self.boxed_node(start, Primary::Expr(expr))
    }

    /// A list.
    #[inline(never)]
    pub(crate) fn list_primary(
        &self,
        start: usize,
        items: Vec<Node<Option<Expr>>>,
    ) -> Result<Box<Node<Option<Primary>>>, AllocError>
        ensures { IfOk result (λ b. shown_primary b.value ≡ loose.e_list (loose.exprs (map shown_expr items.items))) }
    {
        self.boxed_node(start, Primary::EList(items))
    }

    /// A record.
    #[inline(never)]
    pub(crate) fn record_primary(
        &self,
        start: usize,
        entries: Vec<Node<Option<RecInit>>>,
    ) -> Result<Box<Node<Option<Primary>>>, AllocError>
        ensures { IfOk result (λ b. shown_primary b.value ≡ loose.r_inits (loose.rec_inits (map shown_rec_init entries.items))) }
    {
        self.boxed_node(start, Primary::RInits(entries))
    }

    /// An entry of a record.
    #[inline(never)]
    pub(crate) fn rec_init_node(
        &self,
        start: usize,
        key: Node<Option<Expr>>,
        value: Node<Option<Expr>>,
    ) -> Result<Box<Node<Option<RecInit>>>, AllocError>
        ensures { IfOk result (λ b. shown_rec_init b.value ≡ loose.rec_init (shown_expr key) (shown_expr value)) }
    {
        self.boxed_node(start, RecInit(key, value))
    }
}
