// The policies of a text, one after the other.
ghost use Rattle.std.specs.Prelude.{ℕ, ◌<◌, List, [], IfOk, IfErr, IfSome};
ghost use Rattle.cedar_language.specs.Uid.{Text};
ghost use Rattle.cedar_grammar.specs.Loose as loose;
ghost use Rattle.cedar_grammar.specs.LooseReading.{read_policies};

use crate::policies::policy;
use crate::refusal::refusal;
use crate::{Cursor, LooseError, ReadError};
use cedar_cst::cst::Policy;
use cedar_cst::node::Node;
use cedar_grammar::{limits_are_met_where_constructs_open, wider_limits_change_nothing};
use cedar_tokens::Tokens;
use std::alloc::Global;
use std::rc::RcStr;

/// Reads the policies of a text loosely, one after the other, so that the tree of each may be let go before the next
/// is read.
#[derive(Drop)]
pub struct PolicyReader<'t> {
    cursor: Cursor<'t>,
    source: &'t RcStr,
    depth: u32,
    ghost some: { 0 < depth },
}

impl<'t> PolicyReader<'t> {
    ghost use Rattle.cedar_loose.specs.Readers.{HasGiven, GivesNext, unread};
    ghost use Rattle.cedar_loose.specs.Texts.{IsRefused, Refuses, stop_cause};

    /// Before the first policy of `text`, which nodes have from `source`. The text is refused as
    /// [`parse_policies`](crate::parse_policies) refuses it.
    #[tactic(auto, using(crate::proofs::Telling::told_refusal))]
    pub fn new(
        alloc: Global,
        text: &'t str,
        source: &'t RcStr,
        depth: u32,
    ) -> Result<PolicyReader<'t>, LooseError>
        ensures first { IfOk result (λ reader. HasGiven reader depth text.now []) }
        ensures refused { IfErr result (Refuses read_policies depth text.now) }
    {
        match PolicyReader::opened(alloc, text, source, depth) {
            Ok(reader) => Ok(reader),
            Err(error) => Err(refusal(alloc, error, source)),
        }
    }

    /// The same, or what stopped it.
    fn opened(
        alloc: Global,
        text: &'t str,
        source: &'t RcStr,
        depth: u32,
    ) -> Result<PolicyReader<'t>, ReadError>
        ensures first { IfOk result (λ reader. HasGiven reader depth text.now []) }
        ensures refused { IfErr result (λ error. IsRefused read_policies depth text.now (stop_cause error)) }
    {
        // These run no code: their contracts are the laws of the limit.
        wider_limits_change_nothing();
        limits_are_met_where_constructs_open();

        let tokens = Tokens::new(text)?;
        if depth == 0 {
            return Err(ReadError::Depth);
        }
        Ok(PolicyReader {
            cursor: Cursor::new(alloc, tokens, source),
            source,
            depth,
        })
    }

    /// The next policy; none at the end of the text, which then is the policies that were given. The text is refused as
    /// [`parse_policies`](crate::parse_policies) refuses it, at the first policy that can't be read.
    pub fn next(&mut self, alloc: Global) -> Result<Option<Node<Option<Policy>>>, LooseError>
        ensures next { (depth : ℕ) (text : Text) (given : List loose.Policy) → HasGiven self.old depth text given → GivesNext depth text given result self.new }
        ensures fewer { IfOk result (λ policy. IfSome policy (λ node. unread self.new < unread self.old)) }
    {
        // These run no code: their contracts are the laws of the limit.
        wider_limits_change_nothing();
        limits_are_met_where_constructs_open();

        if !self.cursor.is_more() {
            return Ok(None);
        }
        match policy(&mut self.cursor, alloc, self.depth - 1) {
            Ok(policy) => Ok(Some(policy)),
            Err(error) => Err(refusal(alloc, error, self.source)),
        }
    }
}
