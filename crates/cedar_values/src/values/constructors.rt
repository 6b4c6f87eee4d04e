// Values and their kinds from parts.
ghost use Rattle.std.specs.Prelude.{◌≡◌, [], map, IsTrue, IfOk};
ghost use Rattle.cedar_language.specs.Order.{all_of, set_of};
ghost use Rattle.cedar_language.specs.Value.{SetOf, RecordOf, no_values};
ghost use Rattle.cedar_values.specs.Kinds.{value_of, plain_of, keys_of, values_of};
ghost use Rattle.cedar_values.specs.Records.{IsRecordOf};

use crate::values::{Set, Value, ValueKind};
use cedar_literals::literals::Literal;
use cedar_names::conversions::FromIn;
use cedar_names::places::Loc;
use std::alloc::{AllocError, Global};
use std::collections::BTreeMap;
use std::rc::{Rc, RcStr};

impl ValueKind {
    /// The set without members; refused for memory alone.
    pub fn empty_set(alloc: Global) -> Result<ValueKind, AllocError>
        ensures { IfOk result (λ kind. value_of kind ≡ SetOf no_values) }
    {
        Ok(ValueKind::Set(Set::empty(alloc)?))
    }

    /// The record without attributes; refused for memory alone.
    pub fn empty_record(alloc: Global) -> Result<ValueKind, AllocError>
        ensures { IfOk result (λ kind. value_of kind ≡ RecordOf [] no_values) }
    {
        Ok(ValueKind::Record(Rc::new(alloc, BTreeMap::new(alloc))?))
    }

    /// The set of these values, each once; refused for memory alone.
    pub fn set(alloc: Global, values: Vec<Value>) -> Result<ValueKind, AllocError>
        ensures { IfOk result (λ kind. value_of kind ≡ set_of (all_of values.items)) }
    {
        Ok(ValueKind::Set(Set::new(alloc, values)?))
    }

    /// The set of these literals, each once; refused for memory alone.
    pub fn set_of_lits(alloc: Global, literals: Vec<Literal>) -> Result<ValueKind, AllocError>
        ensures { IfOk result (λ kind. value_of kind ≡ set_of (all_of (map plain_of literals.items))) }
    {
        Ok(ValueKind::Set(Set::from_lits(alloc, literals)?))
    }

    /// The record of these attributes; of pairs with one key the last counts. Refused for memory alone.
    pub fn record(alloc: Global, fields: Vec<(RcStr, Value)>) -> Result<ValueKind, AllocError>
        ensures { IfOk result (λ kind. IsRecordOf fields.items (value_of kind)) }
    {
        let mut record = BTreeMap::new(alloc);
        for (key, value) in fields {
            record.insert(key, value)?;
        }
        Ok(ValueKind::Record(Rc::new(alloc, record)?))
    }

    /// The record of these attributes.
    pub fn record_arc(fields: Rc<BTreeMap<RcStr, Value>>) -> ValueKind
        ensures { value_of result ≡ RecordOf (keys_of fields.value.entries) (values_of fields.value.entries) }
    {
        ValueKind::Record(fields)
    }

    /// A copy that shares what it holds; refused for memory alone.
    pub fn clone(&self, _alloc: Global) -> Result<ValueKind, AllocError>
        ensures { IfOk result (λ copy. value_of copy ≡ value_of self.now) }
    {
        Clone::clone(self)
    }
}

impl Clone for ValueKind {
    ghost is_clone = { λ kind copy. value_of copy ≡ value_of kind };

    fn clone(&self) -> Result<ValueKind, AllocError> {
        Ok(match self {
            ValueKind::Lit(literal) => ValueKind::Lit(literal.clone()?),
            ValueKind::Set(set) => ValueKind::Set(Clone::clone(set)?),
            ValueKind::Record(fields) => ValueKind::Record(fields.clone()?),
            ValueKind::ExtensionValue(value) => ValueKind::ExtensionValue(value.clone()?),
        })
    }
}

impl Value {
    /// The set without members, written at `loc`; refused for memory alone.
    pub fn empty_set(alloc: Global, loc: Option<Loc>) -> Result<Value, AllocError>
        ensures { IfOk result (λ value. value ≡ SetOf no_values) }
    {
        Ok(Value::new(ValueKind::empty_set(alloc)?, loc))
    }

    /// The record without attributes, written at `loc`; refused for memory alone.
    pub fn empty_record(alloc: Global, loc: Option<Loc>) -> Result<Value, AllocError>
        ensures { IfOk result (λ value. value ≡ RecordOf [] no_values) }
    {
        Ok(Value::new(ValueKind::empty_record(alloc)?, loc))
    }

    /// The set of these values, each once, written at `loc`; refused for memory alone.
    pub fn set(alloc: Global, values: Vec<Value>, loc: Option<Loc>) -> Result<Value, AllocError>
        ensures { IfOk result (λ value. value ≡ set_of (all_of values.items)) }
    {
        Ok(Value::new(ValueKind::set(alloc, values)?, loc))
    }

    /// The set of these literals, each once, written at `loc`; refused for memory alone.
    pub fn set_of_lits(
        alloc: Global,
        literals: Vec<Literal>,
        loc: Option<Loc>,
    ) -> Result<Value, AllocError>
        ensures { IfOk result (λ value. value ≡ set_of (all_of (map plain_of literals.items))) }
    {
        Ok(Value::new(ValueKind::set_of_lits(alloc, literals)?, loc))
    }

    /// The record of these attributes, written at `loc`; of pairs with one key the last counts.
    /// Refused for memory alone.
    pub fn record(
        alloc: Global,
        fields: Vec<(RcStr, Value)>,
        loc: Option<Loc>,
    ) -> Result<Value, AllocError>
        ensures { IfOk result (λ value. IsRecordOf fields.items value) }
    {
        Ok(Value::new(ValueKind::record(alloc, fields)?, loc))
    }

    /// The record of these attributes, written at `loc`.
    pub fn record_arc(fields: Rc<BTreeMap<RcStr, Value>>, loc: Option<Loc>) -> Value
        ensures { result ≡ RecordOf (keys_of fields.value.entries) (values_of fields.value.entries) }
    {
        Value::new(ValueKind::record_arc(fields), loc)
    }

    /// Whether the other one is the same value, written at the same place. No contract says more than
    /// that it is the same value, since a value's view has no place.
    pub fn eq_and_same_source_loc(&self, other: &Value) -> bool
        ensures { IsTrue result → self.now ≡ other.now }
    {
        self == other && self.loc == other.loc
    }

    /// A copy that shares what it holds; refused for memory alone.
    pub fn clone(&self, _alloc: Global) -> Result<Value, AllocError>
        ensures { IfOk result (λ copy. copy ≡ self.now) }
    {
        Clone::clone(self)
    }
}

impl Clone for Value {
    ghost is_clone = { λ value copy. copy ≡ value };

    fn clone(&self) -> Result<Value, AllocError> {
        Ok(Value {
            value: Clone::clone(&self.value)?,
            loc: self.loc.clone()?,
        })
    }
}

impl From<Literal> for ValueKind {
    ghost from_gives = { λ literal kind. value_of kind ≡ plain_of literal };

    fn from(literal: Literal) -> ValueKind {
        ValueKind::Lit(literal)
    }
}

impl From<Literal> for Value {
    ghost from_gives = { λ literal value. value ≡ plain_of literal };

    fn from(literal: Literal) -> Value {
        Value::new(ValueKind::Lit(literal), None)
    }
}

impl FromIn<Vec<Value>> for ValueKind {
    type Error = AllocError;

    ghost from_in_gives = { λ values result. IfOk result (λ kind. value_of kind ≡ set_of (all_of values.items)) };

    /// The set of these values, each once; refused for memory alone.
    fn from_in(alloc: Global, values: Vec<Value>) -> Result<ValueKind, AllocError> {
        ValueKind::set(alloc, values)
    }
}

impl FromIn<Vec<Value>> for Value {
    type Error = AllocError;

    ghost from_in_gives = { λ values result. IfOk result (λ value. value ≡ set_of (all_of values.items)) };

    /// The set of these values, each once; refused for memory alone.
    fn from_in(alloc: Global, values: Vec<Value>) -> Result<Value, AllocError> {
        Value::set(alloc, values, None)
    }
}
