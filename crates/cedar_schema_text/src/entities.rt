// Declarations of entity types.
ghost use Rattle.std.specs.Prelude.{◌≡◌, ◌≤◌, map};
ghost use Rattle.std.specs.Option.{option_map};
ghost use Rattle.std.specs.Rc.{rc_str_bytes};
ghost use Rattle.cedar_schema_grammar.specs.Tokens.{RightBracket};
ghost use Rattle.cedar_schema_grammar.specs.Reading.{string_read, several_at, id_read, path_at, items_at, entity_types_at, parents_at, shape_at, tags_at, shaped_at, entity_then};
ghost use Rattle.cedar_schema_syntax.specs.View.{names_view, path_view, paths_view, attributes_view, type_view, declaration_view};
ghost use Rattle.cedar_schema_text.specs.Gives.{left, bound, Gives};
ghost use Rattle.cedar_schema_text.specs.Parts.{enumeration_at, entity_at};

use crate::read_error::ReadError;
use crate::reader::Reader;
use crate::tokens::Mark;
use cedar_schema_syntax::{
    Attribute, Declaration, EntitySyntax, EnumerationSyntax, Name, Path, TypeSyntax,
};
use std::rc::RcStr;

impl<'t> Reader<'t> {
    /// Takes paths up to the bracket that closes their list.
    fn paths(&self, at: &mut usize) -> Result<Vec<Path>, ReadError>
        ensures gives { Gives (λ v. paths_view v.items) result (left self.now at.new)
            (items_at RightBracket (path_at (bound self.now)) (bound self.now) (left self.now at.old)) }
        ensures onward { at.old ≤ at.new }
    {
        let mut paths = Vec::new(self.alloc);
        'items: while !self.eat(Mark::RightBracket, at) {
            let path = self.path(at)?;
            paths.push(path)?;
            if self.eat(Mark::RightBracket, at) {
                return Ok(paths);
            }
            self.expect(Mark::Comma, at)?;
        }
        Ok(paths)
    }

    /// Takes entity types, which have to be next: a path, or paths in brackets.
    pub fn entity_types(&self, at: &mut usize) -> Result<Vec<Path>, ReadError>
        ensures gives { Gives (λ v. paths_view v.items) result (left self.now at.new)
            (entity_types_at (bound self.now) (left self.now at.old)) }
        ensures onward { at.old ≤ at.new }
    {
        if self.eat(Mark::LeftBracket, at) {
            return self.paths(at);
        }
        let path = self.path(at)?;
        let mut paths = Vec::new(self.alloc);
        paths.push(path)?;
        Ok(paths)
    }

    /// Takes what follows an `in` that is next, if one is.
    fn parents(&self, at: &mut usize) -> Result<Vec<Path>, ReadError>
        ensures gives { Gives (λ v. paths_view v.items) result (left self.now at.new)
            (parents_at (bound self.now) (left self.now at.old)) }
        ensures onward { at.old ≤ at.new }
    {
        if self.eat_word("in", at) {
            self.entity_types(at)
        } else {
            Ok(Vec::new(self.alloc))
        }
    }

    /// Takes the attributes of a shape, if one is next. A `=` may stand before it.
    fn shape(&self, at: &mut usize) -> Result<Vec<Attribute>, ReadError>
        ensures gives { Gives (λ v. attributes_view v.items) result (left self.now at.new)
            (shape_at (bound self.now) (left self.now at.old)) }
        ensures onward { at.old ≤ at.new }
    {
        if self.eat(Mark::Equal, at) {
            self.expect(Mark::LeftBrace, at)?;
            return self.attributes(at);
        }
        if self.eat(Mark::LeftBrace, at) {
            self.attributes(at)
        } else {
            Ok(Vec::new(self.alloc))
        }
    }

    /// Takes the type of tags, if `tags` is next.
    fn tags(&self, at: &mut usize) -> Result<Option<TypeSyntax>, ReadError>
        ensures gives { Gives (option_map type_view) result (left self.now at.new) (tags_at (bound self.now) (left self.now at.old)) }
        ensures onward { at.old ≤ at.new }
    {
        if !self.eat_word("tags", at) {
            return Ok(None);
        }
        let written = self.type_syntax(at)?;
        Ok(Some(written))
    }

    /// Takes strings up to the bracket that closes their list.
    fn strings(&self, at: &mut usize) -> Result<Vec<RcStr>, ReadError>
        ensures gives { Gives (λ v. map rc_str_bytes v.items) result (left self.now at.new)
            (items_at RightBracket string_read (bound self.now) (left self.now at.old)) }
        ensures onward { at.old ≤ at.new }
    {
        let mut strings = Vec::new(self.alloc);
        'items: while !self.eat(Mark::RightBracket, at) {
            let string = self.string(at)?;
            strings.push(string)?;
            if self.eat(Mark::RightBracket, at) {
                return Ok(strings);
            }
            self.expect(Mark::Comma, at)?;
        }
        Ok(strings)
    }

    /// Takes what follows the names and the `enum` of an enumeration.
    fn enumeration(&self, names: Vec<Name>, at: &mut usize) -> Result<Declaration, ReadError>
        ensures gives { Gives declaration_view result (left self.now at.new)
            (enumeration_at (bound self.now) (names_view names.items) (left self.now at.old)) }
        ensures onward { at.old ≤ at.new }
    {
        self.expect(Mark::LeftBracket, at)?;
        let ids = self.strings(at)?;
        self.expect(Mark::Semicolon, at)?;
        Ok(Declaration::Enumeration(EnumerationSyntax { names, ids }))
    }

    /// Takes what follows the names of entity types that aren't enumerated.
    fn shaped(&self, names: Vec<Name>, at: &mut usize) -> Result<Declaration, ReadError>
        ensures gives { Gives declaration_view result (left self.now at.new)
            (shaped_at (bound self.now) (names_view names.items) (left self.now at.old)) }
        ensures onward { at.old ≤ at.new }
    {
        let parents = self.parents(at)?;
        let attributes = self.shape(at)?;
        let tags = self.tags(at)?;
        self.expect(Mark::Semicolon, at)?;
        Ok(Declaration::Entities(EntitySyntax {
            names,
            parents,
            attributes,
            tags,
        }))
    }

    /// Takes what follows the `entity` of a declaration.
    pub fn entity(&self, at: &mut usize) -> Result<Declaration, ReadError>
        ensures gives { Gives declaration_view result (left self.now at.new) (entity_at (bound self.now) (left self.now at.old)) }
        ensures onward { at.old ≤ at.new }
    {
        let names = self.ids(at)?;
        if self.eat_word("enum", at) {
            self.enumeration(names, at)
        } else {
            self.shaped(names, at)
        }
    }
}
