// Entities.
ghost use Rattle.std.specs.Prelude.{IfErr};
ghost use Rattle.cedar_grammar.specs.Converting.{ref_entity};
ghost use Rattle.cedar_grammar.specs.LooseReading.{read_ref};
ghost use Rattle.cedar_cst.specs.LeafView.{shown_ref};
ghost use Rattle.cedar_conversion.specs.Shown.{ref_shows};
ghost use Rattle.cedar_loose.specs.Texts.{flat};
ghost use Rattle.cedar_parser.specs.Faults.{TellOnly, text_shows};
ghost use Rattle.cedar_parser.specs.Strict.{Writes, ReadsUid};

use crate::errors::ParseErrors;
use crate::refusals::refused;
use crate::text_to_cst::parse_ref;
use cedar_conversion::to_ref;
use cedar_cst::cst::Ref;
use cedar_cst::node::Node;
use cedar_grammar::{at_most_one_meaning, converting_is_the_grammar};
use cedar_literals::uids::EntityUID;
use cedar_trees::errors::ExpressionConstructionError;
use std::alloc::Global;

/// The entity that a text is, as `Type::"id"`. (Cedar language reference, "Entity".)
///
/// The first error is `ToCST` or `ToAST`, with a place, where the text is none, and `Memory` for want of
/// memory alone. With `ToAST` the errors are all faults of the text, in order, each of a kind that its loose tree
/// shows; each other error stands alone.
pub fn parse_euid_strict(alloc: Global, text: &str) -> Result<EntityUID, ParseErrors>
    ensures uid { ReadsUid text.now result }
    ensures shown { IfErr result (λ errors. TellOnly errors (text_shows (flat read_ref) 0 text.now ref_shows)) }
{
    // These run no code: their contracts are laws of the grammars.
    at_most_one_meaning();
    converting_is_the_grammar();

    match parse_ref(alloc, text) {
        Ok(tree) => converted(alloc, &tree),
        Err(errors) => Err(errors),
    }
}

// The entity that a loose tree writes.
fn converted(alloc: Global, tree: &Node<Option<Ref>>) -> Result<EntityUID, ParseErrors>
    ensures uid { Writes (λ uid. uid) result (ref_entity (shown_ref tree.now)) }
    ensures shown { IfErr result (λ errors. TellOnly errors (ref_shows (shown_ref tree.now))) }
{
    match to_ref::<ExpressionConstructionError>(alloc, tree) {
        Ok(uid) => Ok(uid),
        Err(error) => Err(refused(alloc, error)),
    }
}
