// Data, by a descent whose calls of itself nest no deeper than the data do.
ghost use Rattle.std.specs.Prelude.{◌≡◌, suc, IfOk};
ghost use Rattle.cedar_grammar.specs.Grammar.{Unary, Within, inner};
ghost use Rattle.cedar_names.specs.Identifiers.{IsUnreservedId};
ghost use Rattle.cedar_data.specs.Classes.{mark_of};
ghost use Rattle.cedar_data.specs.Data.{ReadsData, ReadsBehind, ReadsItems, ReadsEntry, ReadsEntries};

use crate::leaves::{Path, boolean, uid_of};
use crate::reader::Reader;
use crate::texts::Sign;
use crate::type_names::TypeNames;
use crate::unread::Unread;
use cedar_faults::ExtStyles;
use cedar_literals::literals::Literal;
use cedar_names::identifiers::is_normalized_ident;
use cedar_trees::errors::ExpressionConstructionError;
use cedar_trees::expr::Expr;
use std::alloc::Global;
use std::rc::RcStr;

impl<'t> Reader<'t> {
    /// Takes data that nest no deeper than `levels`, and are no higher.
    #[cycle(data)]
    pub fn data(
        &mut self,
        alloc: Global,
        styles: &ExtStyles,
        types: &mut TypeNames,
        levels: u32,
    ) -> Result<Expr, Unread>
        ensures { IfOk result (λ e. ReadsData (Within styles.now levels) levels self.old e self.new) }
    {
        if levels == 0 {
            return Err(Unread::Other);
        }
        let operand = self.operand(alloc, styles, types, levels - 1)?;
        Ok(operand)
    }

    /// Takes data inside which so many levels may still nest.
    #[cycle(data)]
    fn operand(
        &mut self,
        alloc: Global,
        styles: &ExtStyles,
        types: &mut TypeNames,
        levels: u32,
    ) -> Result<Expr, Unread>
        ensures { IfOk result (λ e. ReadsData (Unary (inner styles.now levels)) (suc levels) self.old e self.new) }
    {
        match self.next_byte() {
            b'"' | b'-' | b'0'..=b'9' => Ok(Expr::val(self.literal(alloc)?)),
            b'[' => Ok(self.list(alloc, styles, types, levels)?),
            b'{' => Ok(self.record(alloc, styles, types, levels)?),
            _ => Ok(self.named(alloc, styles, types, levels)?),
        }
    }

    /// Takes a list.
    #[cycle(data)]
    fn list(
        &mut self,
        alloc: Global,
        styles: &ExtStyles,
        types: &mut TypeNames,
        levels: u32,
    ) -> Result<Expr, Unread>
        ensures { IfOk result (λ e. ReadsData (Unary (inner styles.now levels)) (suc levels) self.old e self.new) }
    {
        self.expect(Sign::LeftBracket)?;
        let items = self.items(alloc, styles, types, levels, Sign::RightBracket)?;
        Ok(Expr::set(alloc, items)?)
    }

    /// Takes a record.
    #[cycle(data)]
    fn record(
        &mut self,
        alloc: Global,
        styles: &ExtStyles,
        types: &mut TypeNames,
        levels: u32,
    ) -> Result<Expr, Unread>
        ensures { IfOk result (λ e. ReadsData (Unary (inner styles.now levels)) (suc levels) self.old e self.new) }
    {
        self.expect(Sign::LeftBrace)?;
        let entries = self.entries(alloc, styles, types, levels)?;
        match Expr::record(alloc, entries) {
            Ok(record) => Ok(record),
            Err(ExpressionConstructionError::DuplicateKey(_)) => Err(Unread::Other),
            Err(ExpressionConstructionError::Memory(_)) => Err(Unread::Memory),
        }
    }

    /// Takes what a word begins: `true`, `false`, an entity or a call.
    #[cycle(data)]
    fn named(
        &mut self,
        alloc: Global,
        styles: &ExtStyles,
        types: &mut TypeNames,
        levels: u32,
    ) -> Result<Expr, Unread>
        ensures { IfOk result (λ e. ReadsData (Unary (inner styles.now levels)) (suc levels) self.old e self.new) }
    {
        let word = self.word()?;
        match boolean(word) {
            Some(value) => Ok(Expr::val(Literal::Bool(value))),
            None => Ok(self.used(alloc, styles, types, levels, word)?),
        }
    }

    /// Takes what follows the first identifier of an entity or a call.
    #[cycle(data)]
    fn used(
        &mut self,
        alloc: Global,
        styles: &ExtStyles,
        types: &mut TypeNames,
        levels: u32,
        first: &'t str,
    ) -> Result<Expr, Unread>
        ensures { IfOk result (λ e. ReadsBehind (inner styles.now levels) (suc levels) first.now self.old e self.new) }
    {
        if !is_normalized_ident(first) {
            return Err(Unread::Other);
        }
        let path = self.path(alloc, types, first)?;
        match path {
            Path::EntityType(entity_type) => {
                let id = self.string(alloc)?;
                let uid = uid_of(alloc, entity_type, id)?;
                Ok(Expr::val(Literal::EntityUID(uid)))
            }
            Path::Called(function) => {
                if !styles.is_function(&function) {
                    return Err(Unread::Other);
                }
                self.expect(Sign::LeftParen)?;
                let arguments = self.items(alloc, styles, types, levels, Sign::RightParen)?;
                Ok(Expr::call_extension_fn(alloc, function, arguments)?)
            }
        }
    }

    /// Takes items with a comma between each two, up to the mark that closes them.
    #[cycle(data)]
    fn items(
        &mut self,
        alloc: Global,
        styles: &ExtStyles,
        types: &mut TypeNames,
        levels: u32,
        close: Sign,
    ) -> Result<Vec<Expr>, Unread>
        ensures { IfOk result (λ items. ReadsItems styles.now levels (mark_of close) self.old items.items self.new) }
    {
        let mut items = Vec::new(alloc);
        'items: while !self.eat(close) {
            let item = self.data(alloc, styles, types, levels)?;
            items.push(item)?;
            if self.eat(close) {
                return Ok(items);
            }
            self.expect(Sign::Comma)?;
        }
        Ok(items)
    }

    /// Takes entries up to the brace that closes their record.
    #[cycle(data)]
    fn entries(
        &mut self,
        alloc: Global,
        styles: &ExtStyles,
        types: &mut TypeNames,
        levels: u32,
    ) -> Result<Vec<(RcStr, Expr)>, Unread>
        ensures { IfOk result (λ entries. ReadsEntries styles.now levels self.old entries.items self.new) }
    {
        let mut entries = Vec::new(alloc);
        'entries: while !self.eat(Sign::RightBrace) {
            let entry = self.entry(alloc, styles, types, levels)?;
            entries.push(entry)?;
            if self.eat(Sign::RightBrace) {
                return Ok(entries);
            }
            self.expect(Sign::Comma)?;
        }
        Ok(entries)
    }

    /// Takes an entry of a record.
    #[cycle(data)]
    fn entry(
        &mut self,
        alloc: Global,
        styles: &ExtStyles,
        types: &mut TypeNames,
        levels: u32,
    ) -> Result<(RcStr, Expr), Unread>
        ensures { IfOk result (λ entry. ReadsEntry styles.now levels self.old entry self.new) }
    {
        let key = self.key(alloc)?;
        self.expect_colon()?;
        let value = self.data(alloc, styles, types, levels)?;
        Ok((key, value))
    }
}
