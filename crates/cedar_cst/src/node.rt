// What is read from a text, and where it stands there.
ghost use Rattle.std.specs.Prelude.{◌≡◌, Some, None, IfOk, MatchOption, IfSome};
ghost use Rattle.std.specs.Option.{option_copied, option_map, ok_or};
ghost use Rattle.std.specs.Result.{IsOkAnd};
ghost use Rattle.cedar_cst.specs.Nodes.{GivesAtNode, IsRefused};
ghost use Rattle.cedar_cst.specs.declared.errors.EmptyNodeError.TheVariants.{Empty};

use crate::errors::{EmptyNodeError, PlacedError};
use cedar_names::places::Loc;
use std::alloc::{AllocError, Global};
use std::error::Error;
use std::fmt;

/// A value, and where it stands in a text, if that is known. `==`, order and hash look past the place.
#[derive(Clone, Debug)]
#[derive_where(PartialEq, Eq, PartialOrd, Ord, Hash; T)]
pub struct Node<T> {
    pub node: T,
    #[derive_where(skip(EqHashOrd))]
    pub loc: Option<Loc>,
}

impl<T: Drop> Drop for Node<T> {
    fn drop(self) {
        let Node { node: _, loc: _ } = self;
    }
}

impl<T> Node<T> {
    /// The value at this place.
    pub fn with_source_loc(node: T, loc: Loc) -> Node<T>
        ensures value { result.node ≡ node }
        ensures place { result.loc ≡ Some loc }
    {
        Node {
            node,
            loc: Some(loc),
        }
    }

    /// The value at this place, if there is one.
    pub fn with_maybe_source_loc(node: T, loc: Option<Loc>) -> Node<T>
        ensures value { result.node ≡ node }
        ensures place { result.loc ≡ loc }
    {
        Node { node, loc }
    }

    /// The value without a place.
    pub fn new(node: T) -> Node<T>
        ensures value { result.node ≡ node }
        ensures place { result.loc ≡ None }
    {
        Node { node, loc: None }
    }

    /// What `f` makes of the value, at the same place.
    pub fn map<R, F: FnOnce(T) -> R>(self, f: F) -> Node<R>
        requires { F.pre f self.node }
        ensures value { F.post f self.node result.node }
        ensures place { result.loc ≡ self.loc }
    {
        let Node { node, loc } = self;
        Node { node: f(node), loc }
    }

    /// The value, lent, at a copy of the place; refused for memory alone.
    pub fn as_ref(&self, alloc: Global) -> Result<Node<&T>, AllocError>
        ensures value { IfOk result (λ lent. lent.node.now ≡ self.now.node) }
        ensures place { IfOk result (λ lent. lent.loc ≡ self.now.loc) }
    {
        Ok(Node {
            node: &self.node,
            loc: copied(alloc, self.loc())?,
        })
    }

    /// The value, lent for writing, at a copy of the place; refused for memory alone. A caller's proof
    /// doesn't learn what the node holds after a write through it.
    pub fn as_mut(&mut self, alloc: Global) -> Result<Node<&mut T>, AllocError>
        ensures value { IfOk result (λ lent. lent.node.now ≡ self.old.node) }
        ensures place { IfOk result (λ lent. lent.loc ≡ self.old.loc) }
    {
        let loc = copied(alloc, self.loc())?;
        Ok(Node {
            node: &mut self.node,
            loc,
        })
    }

    /// The value and its place.
    pub fn into_inner(self) -> (T, Option<Loc>)
        ensures value { result.0 ≡ self.node }
        ensures place { result.1 ≡ self.loc }
    {
        let Node { node, loc } = self;
        (node, loc)
    }

    /// The place, if it is known.
    pub fn loc(&self) -> Option<&Loc>
        ensures { option_copied result ≡ self.now.loc }
    {
        self.loc.as_ref()
    }

    /// The error of this kind at a copy of this node's place; refused for memory alone.
    pub fn to_ast_err<K: Drop, E: Into<K> + Drop>(
        &self,
        alloc: Global,
        error_kind: E,
    ) -> Result<PlacedError<K>, AllocError>
        ensures kind { IfOk result (λ error. E.converts error_kind error.kind) }
        ensures place { IfOk result (λ error. error.loc ≡ self.now.loc) }
    {
        PlacedError::at(alloc, error_kind.into(), self.loc())
    }
}

// A copy of the place.
fn copied(_alloc: Global, loc: Option<&Loc>) -> Result<Option<Loc>, AllocError>
    ensures { IfOk result (λ copy. copy ≡ option_copied loc.entry) }
{
    loc.cloned()
}

impl<T: Clone> Node<&T> {
    /// A copy of the value, at the same place; refused for memory alone.
    pub fn cloned(self, _alloc: Global) -> Result<Node<T>, AllocError>
        ensures value { IfOk result (λ copy. T.is_clone self.entry.node.now copy.node) }
        ensures place { IfOk result (λ copy. copy.loc ≡ self.entry.loc) }
    {
        let Node { node, loc } = self;
        Ok(Node {
            node: node.clone()?,
            loc,
        })
    }
}

impl<T: Copy> Node<&T> {
    /// The value itself, at the same place.
    pub fn copied(self) -> Node<T>
        ensures value { result.node ≡ self.entry.node.now }
        ensures place { result.loc ≡ self.entry.loc }
    {
        let Node { node, loc } = self;
        Node { node: *node, loc }
    }
}

impl<T> Node<Option<T>> {
    /// The value, if there is one.
    pub fn as_inner(&self) -> Option<&T>
        ensures { option_copied result ≡ self.now.node }
    {
        self.node.as_ref()
    }

    /// The value, lent, at a copy of the place; none where there is none. Refused for memory alone.
    pub fn collapse(&self, alloc: Global) -> Result<Option<Node<&T>>, AllocError>
        ensures value { IfOk result (λ lent. option_map (λ n. n.node.now) lent ≡ self.now.node) }
        ensures place { IfOk result (λ lent. IfSome lent (λ n. n.loc ≡ self.now.loc)) }
    {
        let Some(node) = self.as_inner() else {
            return Ok(None);
        };
        Ok(Some(Node {
            node,
            loc: copied(alloc, self.loc())?,
        }))
    }

    /// What `f` gives for the value and its place, if there is a value.
    pub fn apply<F: FnOnce(&T, Option<&Loc>) -> Option<R>, R>(&self, f: F) -> Option<R>
        requires { F.IsAlwaysCallable f }
        ensures { MatchOption self.now.node (result ≡ None) (λ x. GivesAtNode F.FnOnce f x self.now.loc result) }
    {
        match self.as_inner() {
            Some(node) => f(node, self.loc()),
            None => None,
        }
    }

    /// What `f` gives for the value and its place, if there is a value.
    pub fn into_apply<F: FnOnce(T, Option<Loc>) -> Option<R>, R>(self, f: F) -> Option<R>
        requires { IfSome self.node (λ x. F.pre f x self.loc) }
        ensures { MatchOption self.node (result ≡ None) (λ x. F.post f x self.loc result) }
    {
        let Node { node, loc } = self;
        f(node?, loc)
    }

    /// The value. Refused `Empty`, with a copy of the place, where there is none, and else never;
    /// `Memory` only where there is none, for want of memory.
    pub fn try_as_inner(&self, alloc: Global) -> Result<&T, EmptyNodeError>
        ensures { MatchOption self.now.node (IsRefused self.now.loc result) (λ x. IsOkAnd result (λ lent. lent.now ≡ x)) }
    {
        match self.as_inner() {
            Some(inner) => Ok(inner),
            None => Err(EmptyNodeError::Empty(copied(alloc, self.loc())?)),
        }
    }

    /// The value. Refused `Empty`, with the place, exactly where there is none.
    pub fn try_into_inner(self) -> Result<T, EmptyNodeError>
        ensures { result ≡ ok_or self.node (Empty self.loc) }
    {
        let Node { node, loc } = self;
        node.ok_or(EmptyNodeError::Empty(loc))
    }
}

impl<T: fmt::Display> fmt::Display for Node<T> {
    fn fmt<W: fmt::Write>(&self, f: &mut fmt::Formatter<W>) -> fmt::Result {
        self.node.fmt(f)
    }
}

impl<T: Error> Error for Node<T> {}
