// Questions of which all is given.
ghost use Rattle.std.specs.Prelude.{◌≡◌, None, Some, [], suc, IfOk, IfSome, OnOk};
ghost use Rattle.cedar_grammar.specs.Names.{Names};
ghost use Rattle.cedar_data.specs.Parts.{AddsPart, part_entries, ReadsParts};
ghost use Rattle.cedar_data.specs.Questions.{IsQuestionText, ReadsQuestion};

use crate::attributes::Attributes;
use crate::given::GivenQuestion;
use crate::reader::Reader;
use crate::texts::Sign;
use crate::type_names::TypeNames;
use crate::unread::Unread;
use cedar_literals::uids::EntityUID;
use cedar_names::comparing::is_same;
use std::alloc::{AllocError, Global};
use std::rc::Rc;

// The parts of a question that are read by now.
#[derive(Drop)]
struct Parts {
    principal: Option<Rc<EntityUID>>,
    action: Option<Rc<EntityUID>>,
    resource: Option<Rc<EntityUID>>,
    context: Option<Rc<Attributes>>,
}

impl Parts {
    fn none() -> Parts
        ensures { part_entries result ≡ [] }
    {
        Parts {
            principal: None,
            action: None,
            resource: None,
            context: None,
        }
    }
}

// Puts a part where none is.
fn put_new<T: Drop>(place: &mut Option<T>, part: T) -> Result<(), Unread>
    ensures new { OnOk result (place.old ≡ None) }
    ensures put { OnOk result (place.new ≡ Some part) }
{
    if place.is_some() {
        return Err(Unread::Other);
    }
    *place = Some(part);
    Ok(())
}

impl<'t> Reader<'t> {
    // Takes the entry of a part that isn't among the parts, and puts it there. Inside the context so many levels may still nest.
    fn part(
        &mut self,
        alloc: Global,
        types: &mut TypeNames,
        levels: u32,
        parts: &mut Parts,
    ) -> Result<(), Unread>
        ensures { OnOk result (AddsPart (suc levels) self.old parts.old parts.new self.new) }
    {
        let key = self.plain_key()?;
        self.expect_colon()?;
        if is_same(key, "principal") {
            let uid = self.uid(alloc, types)?;
            put_new(&mut parts.principal, uid)?;
        } else if is_same(key, "action") {
            let uid = self.uid(alloc, types)?;
            put_new(&mut parts.action, uid)?;
        } else if is_same(key, "resource") {
            let uid = self.uid(alloc, types)?;
            put_new(&mut parts.resource, uid)?;
        } else if is_same(key, "context") {
            let record = self.simple_record(alloc, types, levels)?;
            put_new(&mut parts.context, record)?;
        } else {
            return Err(Unread::Other);
        }
        Ok(())
    }

    // Takes entries of parts, each of a part of its own, up to the brace that closes them.
    fn parts(&mut self, alloc: Global, types: &mut TypeNames, levels: u32) -> Result<Parts, Unread>
        ensures { IfOk result (λ parts. ReadsParts (suc levels) self.old parts self.new) }
    {
        let mut parts = Parts::none();
        'parts: while !self.eat(Sign::RightBrace) {
            self.part(alloc, types, levels, &mut parts)?;
            if self.eat(Sign::RightBrace) {
                return Ok(parts);
            }
            self.expect(Sign::Comma)?;
        }
        Ok(parts)
    }

    // Takes the body of a question that nests no deeper than `levels`.
    fn question(
        &mut self,
        alloc: Global,
        types: &mut TypeNames,
        levels: u32,
    ) -> Result<GivenQuestion, Unread>
        ensures { IfOk result (λ question. ReadsQuestion levels self.old question self.new) }
    {
        if levels < 2 {
            return Err(Unread::Other);
        }
        self.expect(Sign::LeftBrace)?;
        let parts = self.parts(alloc, types, levels - 2)?;
        let Parts {
            principal,
            action,
            resource,
            context,
        } = parts;
        let Some(principal) = principal else {
            return Err(Unread::Other);
        };
        let Some(action) = action else {
            return Err(Unread::Other);
        };
        let Some(resource) = resource else {
            return Err(Unread::Other);
        };
        let Some(context) = context else {
            return Err(Unread::Other);
        };
        Ok(GivenQuestion {
            principal,
            action,
            resource,
            context,
        })
    }
}

/// The question that a text states within a nesting of `depth`, no higher than that, as most are written: its principal,
/// its action, its resource and its context in any order, the context made of literals and of records of them.
///
/// It is a short way for plain texts, beside [`read_data`](crate::read_data), which makes a tree of them: `None` says
/// nothing of the text. What is written so without comments, parentheses and escapes in its own four keys is read here,
/// and its names of types are shared with those that texts spelled before; refused for memory alone. (Cedar language
/// reference, "Request".)
pub fn read_question(
    alloc: Global,
    text: &str,
    types: &mut TypeNames,
    depth: u32,
) -> Result<Option<GivenQuestion>, AllocError>
    ensures { IfOk result (λ found. IfSome found (λ question. (names : Names) → IsQuestionText names depth text.now question)) }
{
    let mut reader = Reader::new(text);
    match reader.question(alloc, types, depth) {
        Ok(question) => {
            if reader.is_at_end() {
                Ok(Some(question))
            } else {
                Ok(None)
            }
        }
        Err(Unread::Other) => Ok(None),
        Err(Unread::Memory) => Err(AllocError),
    }
}
