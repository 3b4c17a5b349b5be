//! The arguments of a use of a macro.

ghost use Rattle.std.specs.Prelude.{◌≡◌, ◌+◌, ◌≤◌, ◌<◌, ◌++◌, IfOk, OnOk, length, reverse};
ghost use Rattle.flt_c_macros.specs.Arguments as spec;
ghost use Rattle.flt_c_macros.specs.Items.{text_items};

use crate::item::{Item, Pending, Word, colored, first, plain};
use crate::kind::same_kind;
use crate::note::NoteKind;
use flt_c_tokens::{Kind, Token};
use sqlite_items::Items;
use std::alloc::{AllocError, Global};
use std::mem::replace;

/// How many items a search may pass.
const MAX_PASSED: usize = 4096;

/// Where a search is.
#[derive(Clone, Copy)]
pub enum Stage {
    /// No word was met.
    Before,
    /// The brackets of the arguments are open, and so many within them.
    Within(usize),
    /// The first word was no bracket.
    Absent,
    /// The brackets are closed.
    Closed,
}

/// A search for arguments, which begins after the name of a macro.
#[derive(Drop)]
pub struct Search {
    pub stage: Stage,
    /// The arguments whose ends were met.
    pub arguments: Items<Items<Word>>,
    /// The argument that is being read.
    pub last: Items<Word>,
    /// How many more commas separate arguments.
    pub commas: usize,
    /// How many names are in work after the last item that was passed.
    pub names: usize,
    /// How many more items may be passed.
    pub room: usize,
}

/// How many commas separate the arguments of a macro.
pub fn commas_of(names: &[u32], rest: Option<u32>) -> usize
    ensures { result ≡ spec.commas_of names.now rest }
{
    match rest {
        None => MAX_PASSED,
        Some(_) => names.len().saturating_sub(1),
    }
}

/// Whether there is an argument for each parameter.
fn are_all_given(names: &[u32], arguments: &[Items<Word>]) -> bool
    ensures { result ≡ spec.are_all_given names.now arguments.now }
{
    match (names, arguments) {
        ([], [argument]) => argument.len() == 0,
        _ => names.len() == arguments.len(),
    }
}

/// Whether there is an argument for each parameter. One for `...` may be missing.
pub fn are_given(names: &[u32], rest: Option<u32>, arguments: &[Items<Word>]) -> bool
    ensures { result ≡ spec.are_given names.now rest arguments.now }
{
    match rest {
        None => are_all_given(names, arguments),
        Some(_) => names.len() == arguments.len() || names.len() == arguments.len() + 1,
    }
}

impl Search {
    fn new(alloc: Global, commas: usize, names: usize) -> Search
        ensures { result ≡ spec.begun commas names }
    {
        Search {
            stage: Stage::Before,
            arguments: Items::new(alloc),
            last: Items::new(alloc),
            commas,
            names,
            room: MAX_PASSED,
        }
    }

    /// How many items were passed.
    pub fn passed(&self) -> usize
        ensures { result ≡ spec.passed self.now }
    {
        MAX_PASSED.saturating_sub(self.room)
    }

    /// Why brackets are open.
    pub fn unclosed(&self) -> NoteKind
        ensures { result ≡ spec.unclosed self.now }
    {
        if self.room == 0 {
            NoteKind::Large
        } else {
            NoteKind::Open
        }
    }

    fn is_over(&self) -> bool
        ensures { result ≡ spec.is_over self.now }
    {
        matches!(self.stage, Stage::Absent | Stage::Closed) || self.room == 0
    }

    fn take_in(&mut self, word: Word, depth: usize) -> Result<(), AllocError>
        ensures { OnOk result (self.new ≡ spec.taken_in word depth self.old) }
    {
        self.stage = Stage::Within(depth);
        self.last.push(word)
    }

    fn cut(&mut self, alloc: Global, stage: Stage) -> Result<(), AllocError>
        ensures { OnOk result (self.new ≡ spec.cut stage self.old) }
    {
        self.stage = stage;
        self.commas = self.commas.saturating_sub(1);
        let last = replace(&mut self.last, Items::new(alloc));
        self.arguments.push(last)
    }

    fn see_within(&mut self, alloc: Global, depth: usize, word: Word) -> Result<(), AllocError>
        requires few { depth < 4096 }
        ensures { OnOk result (self.new ≡ spec.seen_within depth word word.token.kind self.old) }
    {
        let kind = word.token.kind;
        if same_kind(kind, Kind::OpenParen) {
            self.take_in(word, depth + 1)
        } else if same_kind(kind, Kind::CloseParen) {
            if depth == 0 {
                self.cut(alloc, Stage::Closed)
            } else {
                self.take_in(word, depth - 1)
            }
        } else if same_kind(kind, Kind::Comma) && depth == 0 && self.commas != 0 {
            self.cut(alloc, Stage::Within(0))
        } else {
            self.take_in(word, depth)
        }
    }

    fn see_word(&mut self, alloc: Global, word: Word) -> Result<(), AllocError>
        requires few { spec.depth_of self.old.stage < 4096 }
        ensures { OnOk result (self.new ≡ spec.seen_word self.old.stage word self.old) }
    {
        match self.stage {
            Stage::Before => {
                self.stage = if same_kind(word.token.kind, Kind::OpenParen) {
                    Stage::Within(0)
                } else {
                    Stage::Absent
                };
                Ok(())
            }
            Stage::Within(depth) => self.see_within(alloc, depth, word),
            Stage::Absent | Stage::Closed => Ok(()),
        }
    }

    /// Passes an item.
    fn see(&mut self, alloc: Global, busy: &[u32], item: Item) -> Result<(), AllocError>
        requires few { spec.depth_of self.old.stage < 4096 }
        ensures { OnOk result (self.new ≡ spec.seen busy.now item self.old) }
    {
        self.room = self.room.saturating_sub(1);
        match item {
            Item::End => {
                self.names = self.names.saturating_sub(1);
                Ok(())
            }
            Item::Read(word) => self.see_word(alloc, colored(first(busy, self.names), word)),
        }
    }

    #[tactic(auto, using(crate::proofs::Uses::looked_over, crate::proofs::Uses::seen_nested, crate::proofs::Uses::some_depth))]
    fn look_in_items(
        &mut self,
        alloc: Global,
        busy: &[u32],
        backwards: &[Item],
    ) -> Result<(), AllocError>
        requires few { spec.IsNested self.old }
        ensures looked { OnOk result (self.new ≡ spec.looked busy.now (reverse backwards.now) self.old) }
        ensures few { OnOk result (spec.IsNested self.new) }
    {
        let mut rest = backwards;
        while let [before @ .., item] = rest {
            if self.is_over() {
                return Ok(());
            }
            self.see(alloc, busy, *item)?;
            rest = before;
        }
        Ok(())
    }

    #[tactic(auto, using(crate::proofs::Uses::looked_over, crate::proofs::Uses::seen_nested, crate::proofs::Uses::some_depth))]
    fn look_in_text(
        &mut self,
        alloc: Global,
        busy: &[u32],
        text: &[Token],
    ) -> Result<(), AllocError>
        requires few { spec.IsNested self.old }
        ensures { OnOk result (self.new ≡ spec.looked busy.now (text_items text.now) self.old) }
    {
        for token in text {
            if self.is_over() {
                return Ok(());
            }
            self.see(alloc, busy, Item::Read(plain(*token)))?;
        }
        Ok(())
    }
}

/// Looks for arguments in items, and then in text.
#[tactic(auto, using(crate::proofs::Uses::looked_append))]
pub fn look(
    alloc: Global,
    commas: usize,
    busy: &[u32],
    items: &Pending,
    text: &[Token],
) -> Result<Search, AllocError>
    ensures { IfOk result (λ s. s ≡ spec.looked busy.now (items.now ++ text_items text.now) (spec.begun commas (length busy.now))) }
{
    let mut search = Search::new(alloc, commas, busy.len());
    search.look_in_items(alloc, busy, items.backwards())?;
    search.look_in_text(alloc, busy, text)?;
    Ok(search)
}
