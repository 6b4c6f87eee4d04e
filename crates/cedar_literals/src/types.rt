// Types of values.
ghost use Rattle.std.specs.Prelude.{◌≡◌};
ghost use Rattle.std.specs.Prelude.{IfOk};
ghost use Rattle.cedar_language.specs.Tree as tree;
ghost use Rattle.cedar_language.specs.Tree.{ValueType};
ghost use Rattle.cedar_literals.specs.Types.{type_head, value_type_of};

use crate::literals::Literal;
use crate::uids::{EntityType, EntityUID};
use cedar_names::names::Name;
use std::alloc::{AllocError, Global};
use std::cmp::Ordering;
use std::fmt;
use std::hash::{Hash, Hasher};

/// A type of values. Contracts see it through `value_type_of`; `==`, order and hash look past places.
/// (Cedar language reference, "Data types".)
#[derive(Debug)]
pub enum Type {
    /// `true` and `false`.
    Bool,
    /// Whole numbers.
    Long,
    /// Texts.
    String,
    /// Sets.
    Set,
    /// Records.
    Record,
    /// Entities of one type.
    Entity {
        /// That type.
        ty: EntityType,
    },
    /// Extension values of one type.
    Extension {
        /// The name of that type.
        name: Name,
    },
}

// By hand, so that letting go of one is a call, whichever it is.
impl Drop for Type {
    fn drop(self) {
        match self {
            Type::Bool => {}
            Type::Long => {}
            Type::String => {}
            Type::Set => {}
            Type::Record => {}
            Type::Entity { ty: _ } => {}
            Type::Extension { name: _ } => {}
        }
    }
}

impl Type {
    /// The type of the entities whose type has this name.
    pub fn entity_type(name: Name) -> Type
        ensures { value_type_of result ≡ tree.EntityType name }
    {
        Type::Entity {
            ty: EntityType::from(name),
        }
    }
}

impl Clone for Type {
    ghost use Rattle.std.specs.Prelude.{◌≡◌};
    ghost use Rattle.cedar_literals.specs.Types.{value_type_of};

    ghost is_clone = { λ ty copy. value_type_of copy ≡ value_type_of ty };

    fn clone(&self) -> Result<Type, AllocError> {
        Ok(match self {
            Type::Bool => Type::Bool,
            Type::Long => Type::Long,
            Type::String => Type::String,
            Type::Set => Type::Set,
            Type::Record => Type::Record,
            Type::Entity { ty } => Type::Entity {
                ty: Clone::clone(ty)?,
            },
            Type::Extension { name } => Type::Extension {
                name: Clone::clone(name)?,
            },
        })
    }
}

impl PartialEq for Type {
    ghost use Rattle.std.specs.Ordering.{eq_by_cmp};
    ghost use Rattle.std.specs.Cmp.{partial_equiv_from_equiv};
    ghost use Rattle.std.proofs.lemmas.Cmp.{eq_by_cmp_equiv};
    ghost use Rattle.cedar_literals.specs.Types.{order_of_types, types_total};

    ghost eq = { eq_by_cmp order_of_types };

    ghost laws = { partial_equiv_from_equiv (eq_by_cmp_equiv types_total) };

    fn eq(&self, other: &Type) -> bool {
        self.cmp(other).is_eq()
    }
}

impl Eq for Type {
    ghost use Rattle.std.proofs.lemmas.Cmp.{eq_by_cmp_equiv};
    ghost use Rattle.cedar_literals.specs.Types.{types_total};

    ghost laws = { eq_by_cmp_equiv types_total };
}

impl PartialOrd for Type {
    ghost use Rattle.std.specs.Ordering.{as_partial_cmp};
    ghost use Rattle.std.specs.Cmp.{partial_order_from_total};
    ghost use Rattle.cedar_literals.specs.Types.{order_of_types, types_total};

    ghost partial_cmp = { as_partial_cmp order_of_types };

    ghost laws = { partial_order_from_total types_total };

    fn partial_cmp(&self, other: &Type) -> Option<Ordering> {
        Some(self.cmp(other))
    }
}

impl Ord for Type {
    ghost use Rattle.std.specs.Prelude.{refl};
    ghost use Rattle.cedar_literals.specs.Types.{order_of_types, types_total};

    ghost cmp = { order_of_types };

    ghost total = { types_total };

    ghost matches_partial_cmp = { λ x y. refl };

    ghost matches_eq = { λ x y. refl };

    fn cmp(&self, other: &Type) -> Ordering {
        match (self, other) {
            (Type::Entity { ty: a }, Type::Entity { ty: b }) => a.cmp(b),
            (Type::Extension { name: a }, Type::Extension { name: b }) => a.cmp(b),
            _ => kind(self).cmp(&kind(other)),
        }
    }
}

impl Hash for Type {
    ghost use Rattle.cedar_literals.specs.Types.{value_type_of, type_hash, types_alike};

    ghost hash_input = { λ t. type_hash (value_type_of t) };

    ghost respects_eq = { types_alike.fed };

    fn hash<H: Hasher>(&self, state: &mut H) {
        state.write_u8(kind(self));
        match self {
            Type::Entity { ty } => ty.hash(state),
            Type::Extension { name } => name.hash(state),
            Type::Bool | Type::Long | Type::String | Type::Set | Type::Record => {}
        }
    }
}

// The number of its kind.
fn kind(ty: &Type) -> u8
    ensures { result ≡ (type_head (value_type_of ty.now)).kind }
{
    match ty {
        Type::Bool => 0,
        Type::Long => 1,
        Type::String => 2,
        Type::Set => 3,
        Type::Record => 4,
        Type::Entity { .. } => 5,
        Type::Extension { .. } => 6,
    }
}

impl fmt::Display for Type {
    ghost use Rattle.std.specs.Prelude.{Some};
    ghost use Rattle.cedar_literals.specs.Types.{value_type_of, type_text};

    ghost output = { λ ty. Some (type_text (value_type_of ty)) };

    fn fmt<W: fmt::Write>(&self, f: &mut fmt::Formatter<W>) -> fmt::Result {
        match self {
            Type::Bool => write!(f, "bool"),
            Type::Long => write!(f, "long"),
            Type::String => write!(f, "string"),
            Type::Set => write!(f, "set"),
            Type::Record => write!(f, "record"),
            Type::Entity { ty } => write!(f, "(entity of type `{ty}`)"),
            Type::Extension { name } => write!(f, "{name}"),
        }
    }
}

/// What has a type that is known without evaluating it.
pub trait StaticallyTyped {
    // That type.
    ghost static_type: { Self → ValueType };

    /// Its type, which shares the name of an entity's type; refused for memory alone.
    fn type_of(&self, alloc: Global) -> Result<Type, AllocError>
        ensures { IfOk result (λ ty. value_type_of ty ≡ static_type self.now) };
}

impl StaticallyTyped for EntityUID {
    ghost use Rattle.cedar_language.specs.Tree as tree;

    ghost static_type = { λ uid. tree.EntityType uid.type_name };

    fn type_of(&self, alloc: Global) -> Result<Type, AllocError> {
        let ty = self.entity_type().clone(alloc)?;
        Ok(Type::Entity { ty })
    }
}

impl StaticallyTyped for Literal {
    ghost use Rattle.cedar_literals.specs.Literals.{literal_of};
    ghost use Rattle.cedar_literals.specs.Types.{literal_type};

    ghost static_type = { λ literal. literal_type (literal_of literal) };

    fn type_of(&self, alloc: Global) -> Result<Type, AllocError> {
        match self {
            Literal::Bool(_) => Ok(Type::Bool),
            Literal::Long(_) => Ok(Type::Long),
            Literal::String(_) => Ok(Type::String),
            Literal::EntityUID(uid) => uid.type_of(alloc),
        }
    }
}
