// Numbers, names and entities.
ghost use Rattle.std.specs.Prelude.{◌≡◌, ◌≢◌, ◌<◌, ◌≤◌, ◌^◌, Bool, IfOk, IfNone, IfSome, codes, cond, pos, neg_ℤ};
ghost use Rattle.std.specs.Rc.{rc_str_bytes};
ghost use Rattle.cedar_language.specs.Tree as tree;
ghost use Rattle.cedar_grammar.specs.Build.{long};
ghost use Rattle.cedar_literals.specs.Literals.{literal_of};
ghost use Rattle.cedar_grammar.specs.Token.{number, word, word_of};
ghost use Rattle.cedar_names.specs.Identifiers.{IsUnreservedId};
ghost use Rattle.cedar_data.specs.Data.{ReadsLeaf, ReadsPathTo, ReadsKey};
ghost use Rattle.cedar_data.specs.Takes.{Takes};

use crate::names::name_of;
use crate::reader::Reader;
use crate::texts::Sign;
use crate::type_names::TypeNames;
use crate::unread::Unread;
use cedar_literals::literals::Literal;
use cedar_literals::uids::{Eid, EntityType, EntityUID};
use cedar_names::comparing::is_same;
use cedar_names::identifiers::is_normalized_ident;
use cedar_names::names::Name;
use std::alloc::{AllocError, Global};
use std::rc::{Rc, RcStr};

/// A path in an expression, by what follows it.
#[derive(Debug, Drop)]
pub enum Path {
    /// The type of an entity, whose string follows.
    EntityType(Name),
    /// Any other path: a function, where it is called.
    Called(Name),
}

/// The least number that is no long.
const TOO_LARGE: u64 = 0x8000_0000_0000_0000;

/// The uid of this type and id; refused for memory alone.
pub fn uid_of(alloc: Global, entity_type: Name, id: RcStr) -> Result<Rc<EntityUID>, AllocError>
    ensures { IfOk result (λ uid. uid.value ≡ record { type_name = entity_type; id = rc_str_bytes id }) }
{
    let eid = Eid::new(id);
    let uid = EntityUID::from_components(EntityType::from(entity_type), eid, None);
    Ok(Rc::new(alloc, uid)?)
}

// The number, where it is a long.
fn plus(number: u64) -> Option<Literal>
    ensures long { IfSome result (λ literal. (tree.Lit (literal_of literal) ≡ long (pos number)) × (number < 2 ^ 63)) }
    ensures none { IfNone result (2 ^ 63 ≤ number) }
{
    if number < TOO_LARGE {
        Some(Literal::Long(number as i64))
    } else {
        None
    }
}

// The number under a minus, where that is a long.
fn minus(number: u64) -> Option<Literal>
    ensures long { IfSome result (λ literal. (tree.Lit (literal_of literal) ≡ long (neg_ℤ (pos number))) × (number ≤ 2 ^ 63)) }
    ensures none { IfNone result (2 ^ 63 < number) }
{
    if number < TOO_LARGE {
        Some(Literal::Long(-(number as i64)))
    } else if number == TOO_LARGE {
        Some(Literal::Long(i64::MIN))
    } else {
        None
    }
}

/// The Boolean that is so written; none where none is.
pub fn boolean(word: &str) -> Option<bool>
    ensures written { IfSome result (λ value. word.now ≡ cond value (codes "true") (codes "false")) }
    ensures none { IfNone result ((value : Bool) → word.now ≢ cond value (codes "true") (codes "false")) }
{
    if is_same(word, "true") {
        Some(true)
    } else if is_same(word, "false") {
        Some(false)
    } else {
        None
    }
}

impl<'t> Reader<'t> {
    // Takes a string, which has to be next.
    fn string_literal(&mut self, alloc: Global) -> Result<Literal, Unread>
        ensures { IfOk result (λ l. ReadsLeaf self.old (tree.Lit (literal_of l)) self.new) }
    {
        let text = self.string(alloc)?;
        Ok(Literal::String(text))
    }

    // Takes a number, which has to be next.
    fn number(&mut self) -> Result<u64, Unread>
        ensures { IfOk result (λ n. Takes (number n) self.old self.new) }
    {
        let digits = self.digits()?;
        match digits.parse::<u64>() {
            Ok(number) => Ok(number),
            Err(_) => Err(Unread::Other),
        }
    }

    // Takes a long without a sign, which has to be next.
    fn positive(&mut self) -> Result<Literal, Unread>
        ensures { IfOk result (λ l. ReadsLeaf self.old (tree.Lit (literal_of l)) self.new) }
    {
        let number = self.number()?;
        match plus(number) {
            Some(long) => Ok(long),
            None => Err(Unread::Other),
        }
    }

    // Takes a long with a minus, which has to be next.
    fn negative(&mut self) -> Result<Literal, Unread>
        ensures { IfOk result (λ l. ReadsLeaf self.old (tree.Lit (literal_of l)) self.new) }
    {
        self.expect(Sign::Minus)?;
        let number = self.number()?;
        match minus(number) {
            Some(long) => Ok(long),
            None => Err(Unread::Other),
        }
    }

    /// Takes a string or a long, which has to be next.
    pub fn literal(&mut self, alloc: Global) -> Result<Literal, Unread>
        ensures { IfOk result (λ l. ReadsLeaf self.old (tree.Lit (literal_of l)) self.new) }
    {
        match self.next_byte() {
            b'"' => Ok(self.string_literal(alloc)?),
            b'-' => Ok(self.negative()?),
            _ => Ok(self.positive()?),
        }
    }

    // Takes an identifier that isn't reserved, which has to be next.
    fn identifier(&mut self) -> Result<&'t str, Unread>
        ensures taken { IfOk result (λ id. Takes (word (word_of id.now)) self.old self.new) }
        ensures unreserved { IfOk result (λ id. IsUnreservedId id.now) }
    {
        let word = self.word()?;
        if is_normalized_ident(word) {
            Ok(word)
        } else {
            Err(Unread::Other)
        }
    }

    /// Takes the key of an entry, which has to be next: an identifier or a string.
    pub fn key(&mut self, alloc: Global) -> Result<RcStr, Unread>
        ensures { IfOk result (λ key. ReadsKey self.old (rc_str_bytes key) self.new) }
    {
        if self.next_byte() == b'"' {
            let text = self.string(alloc)?;
            Ok(text)
        } else {
            let id = self.identifier()?;
            Ok(RcStr::from_str(alloc, id)?)
        }
    }

    /// Takes the key of an entry, which has to be next: an identifier or a string without escapes.
    pub fn plain_key(&mut self) -> Result<&'t str, Unread>
        ensures { IfOk result (λ key. ReadsKey self.old key.now self.new) }
    {
        if self.next_byte() == b'"' {
            let raw = self.plain_string()?;
            Ok(raw)
        } else {
            let id = self.identifier()?;
            Ok(id)
        }
    }

    /// Takes what follows the first identifier of a path, with the separator before the string of an
    /// entity. The names of types are shared with those that were read before.
    pub fn path(
        &mut self,
        alloc: Global,
        types: &mut TypeNames,
        first: &'t str,
    ) -> Result<Path, Unread>
        requires { IsUnreservedId first.now }
        ensures { IfOk result (λ path. ReadsPathTo first.now self.old path self.new) }
    {
        let mut namespace = Vec::new(alloc);
        let mut last = first;
        'path: while self.eat_separator() {
            if self.next_byte() == b'"' {
                let name = types.name(alloc, &namespace, last)?;
                return Ok(Path::EntityType(name));
            }
            namespace.push(last)?;
            let next = self.identifier()?;
            last = next;
        }
        let name = name_of(alloc, &namespace, last)?;
        Ok(Path::Called(name))
    }
}
