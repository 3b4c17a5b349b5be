//! The rest of a callback while it runs: places in its blocks, so that no statement is copied.

ghost use Rattle.std.specs.Prelude.{◌≡◌, true, false, List, [], ◌∷◌, ◌++◌, MatchOption, OnOk, IfOk};
ghost use Rattle.flt_model.specs.LocalSteps.{turns_left};
ghost use Rattle.flt_replay_records.specs.Kept.{contents};
ghost use Rattle.flt_replay_records.specs.Rest.{statement_of, before, remains, others, IsTurn};
ghost use Rattle.flt_replay_records.specs.declared.rest.Part.{Part};
ghost use Rattle.flt_tree.specs.Filter.{span_of};
ghost use Rattle.flt_tree.specs.declared.filter.Statement.{out-Statement};

use crate::kept::ActivationRest;
use flt_tree::{Span, Statement};
use std::alloc::AllocError;

/// The continuation at the end of a block.
#[derive(Clone, Copy)]
pub enum Part<'a> {
    /// The statements that are left of the block round it.
    Block(&'a [Statement]),
    /// A `repeat`: its place, the turns that are left, and its body.
    Repeat(&'a Span, u64, &'a [Statement]),
}

/// A statement of the text, or a `repeat` that has gone through some of its turns.
#[derive(Clone, Copy)]
pub enum Upcoming<'a> {
    Statement(&'a Statement),
    /// Its place, the turns that are left, and its body.
    Repeat(&'a Span, u64, &'a [Statement]),
}

impl Upcoming<'_> {
    /// Its place in the text.
    pub fn span(&self) -> Span
        ensures { result ≡ span_of (out-Statement (statement_of self.now)) }
    {
        match self {
            Upcoming::Statement(statement) => statement.span(),
            Upcoming::Repeat(span, _, _) => **span,
        }
    }
}

/// The two innermost blocks of a callback. The blocks round these are kept apart, since most callbacks are in two at most.
#[derive(Drop)]
pub(crate) struct Rest<'a> {
    block: &'a [Statement],
    /// The rest of the block round it. It is empty if there is none, or if a `repeat` continues there.
    outer: &'a [Statement],
}

impl<'a> Rest<'a> {
    /// A block and nothing after it.
    pub(crate) fn new(block: &'a [Statement]) -> Rest<'a>
        ensures { remains result [] ≡ block.now }
    {
        Rest { block, outer: &[] }
    }

    /// Takes out the first statement.
    #[tactic(auto, using(crate::proofs::Remaining::before_push))]
    pub(crate) fn next(&mut self, kept: &mut ActivationRest<'a>) -> Option<Upcoming<'a>>
        ensures rest { MatchOption result
            ((remains self.old (contents kept.old).after ≡ []) × (remains self.new (contents kept.new).after ≡ []))
            (λ u. remains self.old (contents kept.old).after ≡ statement_of u ∷ remains self.new (contents kept.new).after) }
        ensures others { contents kept.new ≡ record (contents kept.old) { after = (contents kept.new).after } }
    {
        loop {
            if let [first, others @ ..] = self.block {
                self.block = others;
                return Some(Upcoming::Statement(first));
            }
            if let [first, left @ ..] = self.outer {
                self.block = left;
                self.outer = &[];
                return Some(Upcoming::Statement(first));
            }
            match kept.resume() {
                Some(Part::Block(block)) => self.block = block,
                Some(Part::Repeat(span, turns, body)) => {
                    return Some(Upcoming::Repeat(span, turns, body));
                }
                None => return None,
            }
        }
    }

    /// Takes out the first statement of the block at hand, or none if nothing is left of it.
    #[inline(always)]
    pub(crate) fn next_in_block(&mut self) -> Option<&'a Statement>
        ensures { MatchOption result (self.new ≡ self.old)
            (λ s. (parts : List Part) → remains self.old parts ≡ s.now ∷ remains self.new parts) }
    {
        let [first, behind @ ..] = self.block else {
            return None;
        };
        self.block = behind;
        Some(first)
    }

    /// Begins another turn of a `repeat` whose body is through. False, and nothing is changed, if that doesn't come next.
    #[inline(always)]
    pub(crate) fn turn_again(&mut self, kept: &mut ActivationRest<'a>) -> bool
        ensures turned { result ≡ true → IsTurn (remains self.old (contents kept.old).after) (remains self.new (contents kept.new).after) }
        ensures same { result ≡ false → (self.new ≡ self.old) × (contents kept.new ≡ contents kept.old) }
        ensures others { contents kept.new ≡ record (contents kept.old) { after = (contents kept.new).after } }
    {
        if let [_, ..] = self.block {
            return false;
        }
        if let [_, ..] = self.outer {
            return false;
        }
        let Some(body) = kept.turn_again() else {
            return false;
        };
        self.block = body;
        true
    }

    /// The first statement, which stays. A `repeat` that was begun is taken out and put back.
    #[inline(always)]
    pub(crate) fn first(
        &mut self,
        kept: &mut ActivationRest<'a>,
    ) -> Result<Option<Upcoming<'a>>, AllocError>
        ensures same { OnOk result (remains self.new (contents kept.new).after ≡ remains self.old (contents kept.old).after) }
        ensures first { IfOk result (λ f. MatchOption f (remains self.old (contents kept.old).after ≡ [])
            (λ u. remains self.old (contents kept.old).after ≡ statement_of u ∷ others (remains self.old (contents kept.old).after))) }
        ensures others { OnOk result (contents kept.new ≡ record (contents kept.old) { after = (contents kept.new).after }) }
    {
        loop {
            if let [first, ..] = self.block {
                return Ok(Some(Upcoming::Statement(first)));
            }
            if let [first, ..] = self.outer {
                return Ok(Some(Upcoming::Statement(first)));
            }
            match kept.resume() {
                Some(Part::Block(block)) => self.block = block,
                Some(Part::Repeat(span, turns, body)) => {
                    kept.suspend_repeat(span, turns, body)?;
                    return Ok(Some(Upcoming::Repeat(span, turns, body)));
                }
                None => return Ok(None),
            }
        }
    }

    /// Enters a block in place of the first statement, after which execution continues with the others.
    pub(crate) fn replace_first(
        &mut self,
        kept: &mut ActivationRest<'a>,
        block: &'a [Statement],
    ) -> Result<(), AllocError>
        ensures rest { OnOk result
            (remains self.new (contents kept.new).after ≡ block.now ++ others (remains self.old (contents kept.old).after)) }
        ensures others { OnOk result (contents kept.new ≡ record (contents kept.old) { after = (contents kept.new).after }) }
    {
        let _ = self.next(kept);
        self.enter(kept, block)
    }

    /// Enters a block, after which execution continues here.
    #[inline(always)]
    pub(crate) fn enter(
        &mut self,
        kept: &mut ActivationRest<'a>,
        block: &'a [Statement],
    ) -> Result<(), AllocError>
        ensures rest { OnOk result (remains self.new (contents kept.new).after ≡ block.now ++ remains self.old (contents kept.old).after) }
        ensures others { OnOk result (contents kept.new ≡ record (contents kept.old) { after = (contents kept.new).after }) }
    {
        if block.is_empty() {
            return Ok(());
        }
        let here = self.block;
        self.block = block;
        if here.is_empty() {
            return Ok(());
        }
        let outer = self.outer;
        suspend(kept, outer)?;
        self.outer = here;
        Ok(())
    }

    /// Takes a turn of a `repeat`, if one is left.
    #[tactic(auto, using(crate::proofs::Remaining::before_push, crate::proofs::Remaining::turn_left))]
    pub(crate) fn turn(
        &mut self,
        kept: &mut ActivationRest<'a>,
        span: &'a Span,
        turns: u64,
        body: &'a [Statement],
    ) -> Result<(), AllocError>
        ensures rest { OnOk result
            (remains self.new (contents kept.new).after ≡ turns_left span.now turns body.now (remains self.old (contents kept.old).after)) }
        ensures others { OnOk result (contents kept.new ≡ record (contents kept.old) { after = (contents kept.new).after }) }
    {
        if turns == 0 {
            return Ok(());
        }
        let here = self.block;
        let outer = self.outer;
        suspend(kept, outer)?;
        self.outer = &[];
        suspend(kept, here)?;
        kept.suspend_repeat(span, turns - 1, body)?;
        self.block = body;
        Ok(())
    }
}

/// Puts off the rest of a block.
#[tactic(auto, using(crate::proofs::Remaining::before_push))]
fn suspend<'a>(kept: &mut ActivationRest<'a>, here: &'a [Statement]) -> Result<(), AllocError>
    ensures rest { OnOk result (before [] (contents kept.new).after ≡ here.now ++ before [] (contents kept.old).after) }
    ensures others { OnOk result (contents kept.new ≡ record (contents kept.old) { after = (contents kept.new).after }) }
{
    match here {
        [] => Ok(()),
        [_, ..] => kept.suspend_block(here),
    }
}
