//! The machine that expands uses of macros.

ghost use Rattle.std.specs.Prelude.{◌≡◌, ◌<◌, false, IfOk, OnOk, length};
ghost use Rattle.flt_c_macros.specs.Machines as spec;

use crate::arguments::{Search, look};
use crate::body::{Given, words_of};
use crate::item::{Item, Pending, Word, first, plain};
use crate::note::{Note, NoteKind};
use flt_c_tokens::Token;
use sqlite_items::Items;
use std::alloc::{AllocError, Global};

/// How many bodies may be read within each other.
const MAX_NAMES: usize = 16;

/// The items of a use that are still read, and the words to which it was expanded so far.
#[derive(Drop)]
pub struct Machine {
    /// The items before the text after the use.
    pub items: Pending,
    /// The names whose bodies are being read, the latest one last.
    pub busy: Items<u32>,
    /// How many more items may be put in.
    pub left: u32,
    /// How many tokens of the text after the use are left.
    pub after: usize,
    /// Brackets are looked for where fewer tokens of the text are left.
    pub quiet: usize,
    pub written: Items<Word>,
    pub notes: Items<Note>,
}

/// The arguments that are put in a body, and what it took to read them.
#[derive(Drop)]
pub struct Prepared {
    pub given: Items<Given>,
    /// How many more items may be put in.
    pub left: u32,
    pub notes: Items<Note>,
}

/// Whether a body is too large, or within too many.
pub fn is_large(count: usize, names: usize, left: u32) -> bool
    ensures value { result ≡ spec.is_large count names left }
    ensures few { result ≡ false → count < left }
{
    left as usize <= count || MAX_NAMES <= names
}

/// The last tokens of a text, as many as there are up to a count.
fn last(source: &[Token], count: usize) -> &[Token]
    ensures { result.now ≡ spec.last count source.now }
{
    &source[source.len().saturating_sub(count)..]
}

impl Prepared {
    pub fn new(alloc: Global, left: u32) -> Prepared
        ensures { result ≡ spec.unprepared left }
    {
        Prepared {
            given: Items::new(alloc),
            left,
            notes: Items::new(alloc),
        }
    }

    /// Adds an argument that isn't read.
    pub fn add_unread(&mut self, alloc: Global, name: u32, raw: &[Word]) -> Result<(), AllocError>
        ensures { OnOk result (self.new ≡ spec.with_unread name raw.now self.old) }
    {
        let raw = Items::from_slice(alloc, raw)?;
        self.given.push(Given {
            name,
            raw,
            words: Items::new(alloc),
        })
    }

    /// Adds an argument, and what the machine made of it.
    pub fn add(
        &mut self,
        alloc: Global,
        name: u32,
        raw: &[Word],
        machine: Machine,
    ) -> Result<(), AllocError>
        ensures { OnOk result (self.new ≡ spec.with_argument name raw.now machine self.old) }
    {
        let raw = Items::from_slice(alloc, raw)?;
        let Machine {
            written,
            left,
            notes,
            ..
        } = machine;
        self.given.push(Given {
            name,
            raw,
            words: written,
        })?;
        self.left = left;
        self.notes.append(notes)
    }
}

impl Machine {
    /// A use at a token of text, which may put in so many items.
    pub fn fresh(
        alloc: Global,
        token: Token,
        left: u32,
        after: usize,
        quiet: usize,
    ) -> Result<Machine, AllocError>
        ensures { IfOk result (λ m. m ≡ spec.fresh token left after quiet) }
    {
        let mut items = Pending::new(alloc);
        items.push(Item::Read(plain(token)))?;
        Ok(Machine {
            items,
            busy: Items::new(alloc),
            left,
            after,
            quiet,
            written: Items::new(alloc),
            notes: Items::new(alloc),
        })
    }

    /// An argument that is read alone.
    pub fn alone(
        alloc: Global,
        busy: &[u32],
        words: &[Word],
        left: u32,
    ) -> Result<Machine, AllocError>
        ensures { IfOk result (λ m. m ≡ spec.alone busy.now words.now left) }
    {
        let mut items = Pending::new(alloc);
        items.put(words)?;
        let busy = Items::from_slice(alloc, busy)?;
        Ok(Machine {
            items,
            busy,
            left,
            after: 0,
            quiet: 1,
            written: Items::new(alloc),
            notes: Items::new(alloc),
        })
    }

    /// How many turns it takes at most.
    pub fn size(&self) -> usize
        ensures { result ≡ spec.size self.now }
    {
        self.items.len() + self.left as usize
    }

    /// The names whose bodies are being read.
    pub fn names(&self) -> &[u32]
        ensures { result.now ≡ self.now.busy }
    {
        self.busy.as_slice()
    }

    /// Looks for the arguments of a name that was read.
    pub fn look(&self, alloc: Global, source: &[Token], commas: usize) -> Result<Search, AllocError>
        ensures { IfOk result (λ s. s ≡ spec.searched source.now commas self.now) }
    {
        let text = last(source, self.after);
        look(alloc, commas, self.busy.as_slice(), &self.items, text)
    }

    pub fn write(&mut self, word: Word) -> Result<(), AllocError>
        ensures { OnOk result (self.new ≡ spec.wrote word self.old) }
    {
        self.written.push(word)
    }

    /// A name stays, for a reason.
    pub fn leave_alone(&mut self, kind: NoteKind, token: Token) -> Result<(), AllocError>
        ensures { OnOk result (self.new ≡ spec.left_alone kind token self.old) }
    {
        self.notes.push(Note { kind, at: token })?;
        self.written.push(Word {
            token,
            is_painted: true,
        })
    }

    /// The latest name isn't in work any longer.
    pub fn end(&mut self)
        ensures { self.new ≡ spec.ended self.old }
    {
        self.busy.pop();
    }

    /// Pays so many words and an end.
    pub fn pay(&mut self, count: usize)
        requires few { count < self.old.left }
        ensures { self.new ≡ spec.paid count self.old }
    {
        let left = self.left;
        self.left = left - (count as u32 + 1);
    }

    /// The words of a body, and its end, will be read.
    pub fn enter(&mut self, name: u32, words: &[Word]) -> Result<(), AllocError>
        ensures { OnOk result (self.new ≡ spec.entered name words.now self.old) }
    {
        self.items.push(Item::End)?;
        self.items.put(words)?;
        self.busy.push(name)
    }

    /// A name of a macro without parameters.
    pub fn open(&mut self, alloc: Global, token: Token, body: &[Token]) -> Result<(), AllocError>
        ensures { OnOk result (self.new ≡ spec.opened token body.now self.old) }
    {
        if is_large(body.len(), self.busy.len(), self.left) {
            return self.leave_alone(NoteKind::Large, token);
        }
        self.pay(body.len());
        let words = words_of(alloc, token, body)?;
        self.enter(token.word, words.as_slice())
    }

    /// How much of the text is left after the last item that a search passed.
    fn behind(&self, search: &Search) -> usize
        ensures { result ≡ spec.behind search.now self.now }
    {
        let of_text = search.passed().saturating_sub(self.items.len());
        self.after.saturating_sub(of_text)
    }

    /// The name of a use whose arguments can't be put in stays.
    pub fn fail(&mut self, kind: NoteKind, token: Token, search: &Search) -> Result<(), AllocError>
        ensures { OnOk result (self.new ≡ spec.failed kind token search.now self.old) }
    {
        self.quiet = self.behind(search);
        self.leave_alone(kind, token)
    }

    /// Takes the items away that a search passed.
    pub fn pass(
        &mut self,
        alloc: Global,
        search: &Search,
        left: u32,
        notes: Items<Note>,
    ) -> Result<(), AllocError>
        ensures { OnOk result (self.new ≡ spec.passed_by search.now left notes self.old) }
    {
        let busy = Items::from_slice(alloc, first(self.busy.as_slice(), search.names))?;
        self.after = self.behind(search);
        self.items.skip(search.passed());
        self.busy = busy;
        self.left = left;
        self.notes.append(notes)
    }
}
