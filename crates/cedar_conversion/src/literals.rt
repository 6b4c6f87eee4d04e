// Literals and entities.
ghost use Rattle.std.specs.Prelude.{◌≡◌, IfErr};
ghost use Rattle.cedar_language.specs.Tree as tree;
ghost use Rattle.cedar_literals.specs.Literals.{literal_of};
ghost use Rattle.cedar_grammar.specs.Converting.{literal_tree, ref_entity};
ghost use Rattle.cedar_cst.specs.LeafView.{shown_literal, shown_ref};
ghost use Rattle.cedar_faults.specs.Converts.{Finds};
ghost use Rattle.cedar_faults.specs.Telling.{TellsOnly};
ghost use Rattle.cedar_conversion.specs.Shown.{literal_shows, ref_shows};

use crate::names::to_name;
use crate::strings::to_text;
use cedar_cst::cst;
use cedar_cst::cst::Ref;
use cedar_cst::node::Node;
use cedar_faults::{ConversionError, ToASTErrorKind, flatten_tuple_2};
use cedar_literals::literals::Literal;
use cedar_literals::uids::{Eid, EntityType, EntityUID};
use std::alloc::Global;

/// The literal; faults where it is missing, a number is too large, or a string stands for no text.
pub fn to_literal<E: Drop>(
    alloc: Global,
    node: &Node<Option<cst::Literal>>,
) -> Result<Literal, ConversionError<E>>
    ensures literal { Finds (λ literal. tree.Lit (literal_of literal)) result (literal_tree (shown_literal node.now)) }
    ensures shown { IfErr result (λ error. TellsOnly error (literal_shows (shown_literal node.now))) }
{
    match &node.node {
        None => Err(ConversionError::missing(alloc, node.loc())),
        Some(cst::Literal::True) => Ok(Literal::Bool(true)),
        Some(cst::Literal::False) => Ok(Literal::Bool(false)),
        Some(cst::Literal::Num(number)) => {
            if *number < 0x8000_0000_0000_0000 {
                Ok(Literal::Long(*number as i64))
            } else {
                let kind = ToASTErrorKind::IntegerLiteralTooLarge(*number);
                Err(ConversionError::fault(alloc, kind, node.loc()))
            }
        }
        Some(cst::Literal::Str(text)) => Ok(Literal::String(to_text(alloc, text)?)),
    }
}

/// The entity; faults where it is missing, a part of it has faults, or it is written by its attributes.
pub fn to_ref<E: Drop>(
    alloc: Global,
    node: &Node<Option<Ref>>,
) -> Result<EntityUID, ConversionError<E>>
    ensures uid { Finds (λ uid. uid) result (ref_entity (shown_ref node.now)) }
    ensures shown { IfErr result (λ error. TellsOnly error (ref_shows (shown_ref node.now))) }
{
    match &node.node {
        None => Err(ConversionError::missing(alloc, node.loc())),
        Some(Ref::Uid { path, eid }) => {
            let name = to_name(alloc, path);
            let text = to_text(alloc, eid);
            let (name, text) = flatten_tuple_2(name, text)?;
            let loc = node.loc().cloned()?;
            let eid = Eid::new(text);
            Ok(EntityUID::from_components(EntityType::from(name), eid, loc))
        }
        Some(Ref::Ref { .. }) => {
            let kind = ToASTErrorKind::UnsupportedEntityLiterals;
            Err(ConversionError::fault(alloc, kind, node.loc()))
        }
    }
}
