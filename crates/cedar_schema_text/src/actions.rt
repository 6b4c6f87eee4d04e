// Declarations of actions.
ghost use Rattle.std.specs.Prelude.{◌≡◌, ◌≤◌, map};
ghost use Rattle.std.specs.Option.{option_map};
ghost use Rattle.std.specs.Rc.{rc_str_bytes};
ghost use Rattle.cedar_schema_grammar.specs.Tokens.{RightBracket, RightBrace};
ghost use Rattle.cedar_schema_grammar.specs.Reading.{items_at, ref_at, ref_then, some_groups_at, groups_at, context_at, entry_at, applies_at};
ghost use Rattle.cedar_schema_syntax.specs.View.{path_view, ref_view, type_view, entry_view, declaration_view};
ghost use Rattle.cedar_schema_text.specs.Gives.{left, bound, Gives};
ghost use Rattle.cedar_schema_text.specs.Parts.{only, action_at};

use crate::read_error::ReadError;
use crate::reader::Reader;
use crate::tokens::Mark;
use cedar_schema_syntax::{ActionRef, ActionSyntax, AppliesEntry, Declaration, Path, TypeSyntax};
use std::rc::RcStr;

/// The word of a path of one word.
fn only_word(mut words: Vec<RcStr>) -> Option<RcStr>
    ensures { option_map rc_str_bytes result ≡ only (map rc_str_bytes words.items) }
{
    if words.len() != 1 {
        return None;
    }
    words.pop()
}

impl<'t> Reader<'t> {
    /// Takes what follows the path of an action: `::` and a string, or nothing.
    fn ref_behind(&self, path: Path, at: &mut usize) -> Result<ActionRef, ReadError>
        ensures gives { Gives ref_view result (left self.now at.new) (ref_then (path_view path, left self.now at.old)) }
        ensures onward { at.old ≤ at.new }
    {
        let place = path.place;
        if self.eat(Mark::ColonColon, at) {
            let name = self.string(at)?;
            return Ok(ActionRef {
                type_name: Some(path),
                name,
                place,
            });
        }
        match only_word(path.words) {
            Some(name) => Ok(ActionRef {
                type_name: None,
                name,
                place,
            }),
            None => Err(self.unexpected(*at)),
        }
    }

    /// Takes an action as it is referred to, which has to be next: a name, or the path of a type with `::` and a string.
    #[tactic(auto, unfolding(cedar_schema_grammar::specs::Reading::ref_at))]
    fn action_ref(&self, at: &mut usize) -> Result<ActionRef, ReadError>
        ensures gives { Gives ref_view result (left self.now at.new) (ref_at (bound self.now) (left self.now at.old)) }
        ensures onward { at.old ≤ at.new }
    {
        if self.begins_word(*at) {
            let path = self.path(at)?;
            return self.ref_behind(path, at);
        }
        let place = self.place(*at);
        let name = self.string(at)?;
        Ok(ActionRef {
            type_name: None,
            name,
            place,
        })
    }

    /// Takes actions up to the bracket that closes their list.
    fn action_refs(&self, at: &mut usize) -> Result<Vec<ActionRef>, ReadError>
        ensures gives { Gives (λ v. map ref_view v.items) result (left self.now at.new)
            (items_at RightBracket (ref_at (bound self.now)) (bound self.now) (left self.now at.old)) }
        ensures onward { at.old ≤ at.new }
    {
        let mut refs = Vec::new(self.alloc);
        'items: while !self.eat(Mark::RightBracket, at) {
            let reference = self.action_ref(at)?;
            refs.push(reference)?;
            if self.eat(Mark::RightBracket, at) {
                return Ok(refs);
            }
            self.expect(Mark::Comma, at)?;
        }
        Ok(refs)
    }

    /// Takes the groups behind an `in`: an action, or actions in brackets.
    fn some_groups(&self, at: &mut usize) -> Result<Vec<ActionRef>, ReadError>
        ensures gives { Gives (λ v. map ref_view v.items) result (left self.now at.new)
            (some_groups_at (bound self.now) (left self.now at.old)) }
        ensures onward { at.old ≤ at.new }
    {
        if self.eat(Mark::LeftBracket, at) {
            return self.action_refs(at);
        }
        let group = self.action_ref(at)?;
        let mut groups = Vec::new(self.alloc);
        groups.push(group)?;
        Ok(groups)
    }

    /// Takes what follows an `in` that is next, if one is.
    fn groups(&self, at: &mut usize) -> Result<Vec<ActionRef>, ReadError>
        ensures gives { Gives (λ v. map ref_view v.items) result (left self.now at.new)
            (groups_at (bound self.now) (left self.now at.old)) }
        ensures onward { at.old ≤ at.new }
    {
        if self.eat_word("in", at) {
            self.some_groups(at)
        } else {
            Ok(Vec::new(self.alloc))
        }
    }

    /// Takes a context, which has to be next: a record, or a path that stands for one.
    fn context(&self, at: &mut usize) -> Result<TypeSyntax, ReadError>
        ensures gives { Gives type_view result (left self.now at.new) (context_at (bound self.now) (left self.now at.old)) }
        ensures onward { at.old ≤ at.new }
    {
        if self.eat(Mark::LeftBrace, at) {
            let attributes = self.attributes(at)?;
            return Ok(TypeSyntax::Record(attributes));
        }
        let path = self.path(at)?;
        Ok(TypeSyntax::Named(path))
    }

    /// Takes an entry of `appliesTo`.
    #[tactic(auto, unfolding(cedar_schema_grammar::specs::Reading::entry_at))]
    fn entry(&self, at: &mut usize) -> Result<AppliesEntry, ReadError>
        ensures gives { Gives entry_view result (left self.now at.new) (entry_at (bound self.now) (left self.now at.old)) }
        ensures onward { at.old ≤ at.new }
    {
        let place = self.place(*at);
        if self.eat_word("principal", at) {
            self.expect(Mark::Colon, at)?;
            let types = self.entity_types(at)?;
            return Ok(AppliesEntry::Principals { types, place });
        }
        if self.eat_word("resource", at) {
            self.expect(Mark::Colon, at)?;
            let types = self.entity_types(at)?;
            return Ok(AppliesEntry::Resources { types, place });
        }
        self.expect_word("context", at)?;
        self.expect(Mark::Colon, at)?;
        let written = self.context(at)?;
        Ok(AppliesEntry::Context { written, place })
    }

    /// Takes entries up to the brace that closes `appliesTo`.
    fn entries(&self, at: &mut usize) -> Result<Vec<AppliesEntry>, ReadError>
        ensures gives { Gives (λ v. map entry_view v.items) result (left self.now at.new)
            (items_at RightBrace (entry_at (bound self.now)) (bound self.now) (left self.now at.old)) }
        ensures onward { at.old ≤ at.new }
    {
        let mut entries = Vec::new(self.alloc);
        'items: while !self.eat(Mark::RightBrace, at) {
            let entry = self.entry(at)?;
            entries.push(entry)?;
            if self.eat(Mark::RightBrace, at) {
                return Ok(entries);
            }
            self.expect(Mark::Comma, at)?;
        }
        Ok(entries)
    }

    /// Takes what an action applies to, if `appliesTo` is next.
    fn applies_to(&self, at: &mut usize) -> Result<Option<Vec<AppliesEntry>>, ReadError>
        ensures gives { Gives (option_map (λ es. map entry_view es.items)) result (left self.now at.new)
            (applies_at (bound self.now) (left self.now at.old)) }
        ensures onward { at.old ≤ at.new }
    {
        if !self.eat_word("appliesTo", at) {
            return Ok(None);
        }
        self.expect(Mark::LeftBrace, at)?;
        let entries = self.entries(at)?;
        Ok(Some(entries))
    }

    /// Takes what follows the `action` of a declaration.
    pub fn action(&self, at: &mut usize) -> Result<Declaration, ReadError>
        ensures gives { Gives declaration_view result (left self.now at.new) (action_at (bound self.now) (left self.now at.old)) }
        ensures onward { at.old ≤ at.new }
    {
        let names = self.names(at)?;
        let groups = self.groups(at)?;
        let applies_to = self.applies_to(at)?;
        self.expect(Mark::Semicolon, at)?;
        Ok(Declaration::Actions(ActionSyntax {
            names,
            groups,
            applies_to,
        }))
    }
}
