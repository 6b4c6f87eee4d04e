// Records of literals and of such records, read straight to values.
ghost use Rattle.std.specs.Prelude.{IfOk, OnOk};
ghost use Rattle.std.specs.Rc.{rc_str_bytes};
ghost use Rattle.cedar_data.specs.Questions.{AddsAttribute, PutsNew, ReadsAttributes, ReadsRecord, ReadsValue};
ghost use Rattle.cedar_data.specs.Simple.{tree_of, written_entries};

use crate::reader::Reader;
use crate::texts::Sign;
use crate::type_names::TypeNames;
use crate::unread::Unread;
use cedar_values::values::{Value, ValueKind};
use std::alloc::Global;
use std::collections::BTreeMap;
use std::rc::{Rc, RcStr};

/// The attributes of a record.
pub type Attributes = BTreeMap<RcStr, Value>;

// Puts a value at a key at which none stands.
fn put_new(attributes: &mut Attributes, key: RcStr, value: Value) -> Result<(), Unread>
    ensures { OnOk result (PutsNew (rc_str_bytes key, tree_of value) (written_entries attributes.old.entries) (written_entries attributes.new.entries)) }
{
    let replaced = attributes.insert(key, value)?;
    if replaced.is_some() {
        return Err(Unread::Other);
    }
    Ok(())
}

impl<'t> Reader<'t> {
    /// Takes a literal, or a record of such values, that nests no deeper than `levels`.
    #[cycle(simple_value)]
    fn simple_value(
        &mut self,
        alloc: Global,
        types: &mut TypeNames,
        levels: u32,
    ) -> Result<Value, Unread>
        ensures { IfOk result (λ value. ReadsValue levels self.old value self.new) }
    {
        if levels == 0 {
            return Err(Unread::Other);
        }
        if self.next_byte() == b'{' {
            let attributes = self.simple_record(alloc, types, levels - 1)?;
            Ok(Value::record_arc(attributes, None))
        } else {
            let literal = self.scalar(alloc, types)?;
            Ok(Value::new(ValueKind::Lit(literal), None))
        }
    }

    /// Takes a record of such values, inside which so many levels may still nest.
    #[cycle(simple_value)]
    pub fn simple_record(
        &mut self,
        alloc: Global,
        types: &mut TypeNames,
        levels: u32,
    ) -> Result<Rc<Attributes>, Unread>
        ensures { IfOk result (λ attributes. ReadsRecord levels self.old attributes.value.entries self.new) }
    {
        self.expect(Sign::LeftBrace)?;
        let attributes = self.attributes(alloc, types, levels)?;
        Ok(Rc::new(alloc, attributes)?)
    }

    /// Takes entries up to the brace that closes their record.
    #[cycle(simple_value)]
    fn attributes(
        &mut self,
        alloc: Global,
        types: &mut TypeNames,
        levels: u32,
    ) -> Result<Attributes, Unread>
        ensures { IfOk result (λ attributes. ReadsAttributes levels self.old attributes.entries self.new) }
    {
        let mut attributes = BTreeMap::new(alloc);
        'entries: while !self.eat(Sign::RightBrace) {
            self.attribute(alloc, types, levels, &mut attributes)?;
            if self.eat(Sign::RightBrace) {
                return Ok(attributes);
            }
            self.expect(Sign::Comma)?;
        }
        Ok(attributes)
    }

    /// Takes an entry of a key that isn't among the attributes, and puts it there.
    #[cycle(simple_value)]
    fn attribute(
        &mut self,
        alloc: Global,
        types: &mut TypeNames,
        levels: u32,
        attributes: &mut Attributes,
    ) -> Result<(), Unread>
        ensures { OnOk result (AddsAttribute levels self.old attributes.old.entries attributes.new.entries self.new) }
    {
        let key = self.key(alloc)?;
        self.expect_colon()?;
        let value = self.simple_value(alloc, types, levels)?;
        put_new(attributes, key, value)?;
        Ok(())
    }
}
