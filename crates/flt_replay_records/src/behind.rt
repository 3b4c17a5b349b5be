//! The continuation after the two innermost blocks of a callback: sixteen bytes for the rest of a block. A `repeat`, of which there are
//! fewer, is an empty block there, and is in a list of its own.

ghost use Rattle.std.specs.Prelude.{◌≡◌, ◌<◌, ◌++◌, ◌∷◌, [], length, OnOk, MatchOption};
ghost use Rattle.flt_replay_records.specs.Behind.{parts, TurnsBegun, TurnsLast};
ghost use Rattle.flt_replay_records.specs.declared.rest.Part.TheVariants.{Block, Repeat};

use crate::rest::Part;
use flt_tree::{Span, Statement};
use std::alloc::{AllocError, Global};

/// A `repeat` that was begun.
#[derive(Drop)]
struct OpenRepeat<'a> {
    span: &'a Span,
    /// The number of turns left.
    turns: u64,
    body: &'a [Statement],
}

/// The rest of the outer blocks, and their `repeat`s. The innermost is the last.
#[derive(Drop)]
pub(crate) struct Behind<'a> {
    blocks: Vec<&'a [Statement]>,
    repeats: Vec<OpenRepeat<'a>>,
}

/// Takes a turn of the last of some `repeat`s, if one is left, and returns its body.
#[inline(always)]
#[tactic(auto, unfolding(crate::specs::Behind::TurnsBegun))]
fn turn_of<'a>(repeats: &mut Vec<OpenRepeat<'a>>) -> Option<&'a [Statement]>
    ensures { MatchOption result (repeats.new.items ≡ repeats.old.items) (λ body. TurnsBegun repeats.old.items body.now repeats.new.items) }
{
    let last = repeats.len().checked_sub(1)?;
    let begun = repeats.get_mut(last)?;
    if begun.turns == 0 {
        return None;
    }
    begun.turns -= 1;
    Some(begun.body)
}

/// Makes room for eight blocks at the first one, since most callbacks that have any have several.
fn make_room<'a>(blocks: &mut Vec<&'a [Statement]>) -> Result<(), AllocError>
    ensures { OnOk result (blocks.new.items ≡ blocks.old.items) }
{
    if blocks.is_empty() {
        blocks.reserve(8)?;
    }
    Ok(())
}

impl<'a> Behind<'a> {
    /// Nothing.
    #[tactic(auto, unfolding(crate::specs::Behind::parts_from))]
    pub(crate) fn new(alloc: Global) -> Behind<'a>
        ensures { parts result ≡ [] }
    {
        Behind {
            blocks: Vec::new(alloc),
            repeats: Vec::new(alloc),
        }
    }

    /// Takes out the last one.
    #[tactic(auto, using(crate::proofs::Suspended::nothing_left, crate::proofs::Suspended::block_last, crate::proofs::Suspended::block_alone, crate::proofs::Suspended::repeat_last))]
    pub(crate) fn pop(&mut self) -> Option<Part<'a>>
        ensures { MatchOption result ((parts self.old ≡ []) × (parts self.new ≡ []))
            (λ part. parts self.old ≡ parts self.new ++ part ∷ []) }
    {
        let block = self.blocks.pop()?;
        if let [_, ..] = block {
            return Some(Part::Block(block));
        }
        match self.repeats.pop() {
            Some(begun) => Some(Part::Repeat(begun.span, begun.turns, begun.body)),
            None => Some(Part::Block(block)),
        }
    }

    /// Takes a turn of the last one, if it is a `repeat` with a turn left, and returns its body.
    #[inline(always)]
    pub(crate) fn turn(&mut self) -> Option<&'a [Statement]>
        ensures { MatchOption result (parts self.new ≡ parts self.old) (λ body. TurnsLast (parts self.old) body.now (parts self.new)) }
    {
        match self.blocks.last() {
            Some([]) => turn_of(&mut self.repeats),
            _ => None,
        }
    }

    /// Adds the rest of a block, with which execution will continue before the others.
    #[tactic(auto, using(crate::proofs::Suspended::block_last))]
    pub(crate) fn push_block(&mut self, block: &'a [Statement]) -> Result<(), AllocError>
        requires { 0 < length block.now }
        ensures { OnOk result (parts self.new ≡ parts self.old ++ Block block.entry ∷ []) }
    {
        make_room(&mut self.blocks)?;
        self.blocks.push(block)?;
        Ok(())
    }

    /// Adds a `repeat`, with which execution will continue before the others.
    #[tactic(auto, using(crate::proofs::Suspended::repeat_last))]
    pub(crate) fn push_repeat(
        &mut self,
        span: &'a Span,
        turns: u64,
        body: &'a [Statement],
    ) -> Result<(), AllocError>
        ensures { OnOk result (parts self.new ≡ parts self.old ++ Repeat span.entry turns body.entry ∷ []) }
    {
        self.blocks.reserve(1)?;
        self.repeats.push(OpenRepeat { span, turns, body })?;
        self.blocks.push_reserved(&[]);
        Ok(())
    }
}
