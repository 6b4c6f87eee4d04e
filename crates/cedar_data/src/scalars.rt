// Literals and entities.
ghost use Rattle.std.specs.Prelude.{IfOk, suc, ℕ};
ghost use Rattle.cedar_language.specs.Tree as tree;
ghost use Rattle.cedar_grammar.specs.Grammar.{inner};
ghost use Rattle.cedar_grammar.specs.Names.{Names};
ghost use Rattle.cedar_literals.specs.Literals.{literal_of};
ghost use Rattle.cedar_data.specs.Data.{Behind, ReadsLeaf, ReadsTree};

use crate::leaves::{Path, boolean, uid_of};
use crate::reader::Reader;
use crate::type_names::TypeNames;
use crate::unread::Unread;
use cedar_literals::literals::Literal;
use cedar_literals::uids::EntityUID;
use cedar_names::identifiers::is_normalized_ident;
use std::alloc::Global;
use std::rc::Rc;

impl<'t> Reader<'t> {
    // Takes what follows the first identifier of an entity.
    fn uid_behind(
        &mut self,
        alloc: Global,
        types: &mut TypeNames,
        first: &'t str,
    ) -> Result<Rc<EntityUID>, Unread>
        ensures { IfOk result (λ uid. (n : ℕ) (names : Names) → ReadsTree (Behind (inner names n) first.now) (suc n) self.old (tree.Lit (tree.Entity uid.value)) self.new) }
    {
        if !is_normalized_ident(first) {
            return Err(Unread::Other);
        }
        let path = self.path(alloc, types, first)?;
        match path {
            Path::EntityType(entity_type) => {
                let id = self.string(alloc)?;
                Ok(uid_of(alloc, entity_type, id)?)
            }
            Path::Called(_) => Err(Unread::Other),
        }
    }

    /// Takes an entity, which has to be next.
    pub fn uid(&mut self, alloc: Global, types: &mut TypeNames) -> Result<Rc<EntityUID>, Unread>
        ensures { IfOk result (λ uid. ReadsLeaf self.old (tree.Lit (tree.Entity uid.value)) self.new) }
    {
        let word = self.word()?;
        let uid = self.uid_behind(alloc, types, word)?;
        Ok(uid)
    }

    // Takes `true`, `false` or an entity, which has to be next.
    fn named_scalar(&mut self, alloc: Global, types: &mut TypeNames) -> Result<Literal, Unread>
        ensures { IfOk result (λ l. ReadsLeaf self.old (tree.Lit (literal_of l)) self.new) }
    {
        let word = self.word()?;
        match boolean(word) {
            Some(value) => Ok(Literal::Bool(value)),
            None => {
                let uid = self.uid_behind(alloc, types, word)?;
                Ok(Literal::EntityUID(uid))
            }
        }
    }

    /// Takes `true`, `false`, a string, a long or an entity, which has to be next.
    pub fn scalar(&mut self, alloc: Global, types: &mut TypeNames) -> Result<Literal, Unread>
        ensures { IfOk result (λ l. ReadsLeaf self.old (tree.Lit (literal_of l)) self.new) }
    {
        match self.next_byte() {
            b'"' | b'-' | b'0'..=b'9' => Ok(self.literal(alloc)?),
            _ => Ok(self.named_scalar(alloc, types)?),
        }
    }
}
