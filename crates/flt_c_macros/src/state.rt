//! The state of reading at a place of the tokens.

ghost use Rattle.std.specs.Prelude.{◌≡◌, ◌∷◌, OnOk};
ghost use Rattle.flt_c_macros.specs.Groups.{with_top, is_read, is_certain};
ghost use Rattle.flt_c_macros.specs.States as spec;

use crate::error::MacroError;
use crate::groups::{Group, Groups};
use crate::macros::Macros;
use crate::note::{Note, NoteKind, same_reason};
use flt_c_tokens::{Kind, Spellings, Token};
use sqlite_items::Items;
use std::alloc::{AllocError, Global};

/// How many tokens, and ends of bodies, macros may add to a file. Where a use would add more, its name stays.
pub const MAX_ADDED: u32 = 4_194_304;

/// How many of them a use may add.
const MAX_ITEMS: u32 = 4096;

#[derive(Drop)]
pub struct State {
    /// The tokens that are read so far, macros expanded.
    pub tokens: Items<Token>,
    pub notes: Items<Note>,
    pub macros: Macros,
    pub groups: Groups,
    /// The headers that are read so far, by their numbers.
    pub headers: Items<u32>,
    /// How many items macros may still add.
    pub room: u32,
    /// Whether a note says that a name stays, and may stay for lack of room.
    pub is_full: bool,
}

impl State {
    pub fn new(alloc: Global) -> State
        ensures { result ≡ spec.start }
    {
        State {
            tokens: Items::new(alloc),
            notes: Items::new(alloc),
            macros: Macros::new(alloc),
            groups: Groups::new(alloc),
            headers: Items::new(alloc),
            room: MAX_ADDED,
            is_full: false,
        }
    }

    pub fn push(&mut self, token: Token) -> Result<(), AllocError>
        ensures { OnOk result (self.new ≡ spec.pushed token self.old) }
    {
        self.tokens.push(token)
    }

    pub fn note(&mut self, kind: NoteKind, at: Token) -> Result<(), AllocError>
        ensures { OnOk result (self.new ≡ spec.noted kind at self.old) }
    {
        self.notes.push(Note { kind, at })
    }

    /// How many items a use may add.
    pub fn allowed(&self) -> u32
        ensures { result ≡ spec.allowed self.now }
    {
        MAX_ITEMS.min(self.room)
    }

    /// Takes so many items from the room.
    pub fn pay(&mut self, count: u32)
        ensures { self.new ≡ spec.paid count self.old }
    {
        self.room = self.room.saturating_sub(count);
    }

    fn is_scarce(&self, note: Note) -> bool
        ensures { result ≡ spec.is_scarce note self.now }
    {
        self.room < MAX_ITEMS && same_reason(note.kind, NoteKind::Large)
    }

    /// Adds a note on a use. Of the names that may stay for lack of room, only the first one is noted.
    pub fn tell(&mut self, note: Note) -> Result<(), AllocError>
        ensures { OnOk result (self.new ≡ spec.told note self.old) }
    {
        if self.is_scarce(note) {
            if self.is_full {
                return Ok(());
            }
            self.is_full = true;
        }
        self.note(note.kind, note.at)
    }

    /// Opens a group.
    pub fn open(&mut self, group: Group) -> Result<(), AllocError>
        ensures { OnOk result (self.new ≡ spec.with_groups (group ∷ self.old.groups) self.old) }
    {
        self.groups.push(group)
    }

    /// Puts another group in the place of the innermost one.
    pub fn change(&mut self, group: Group) -> Result<(), AllocError>
        ensures { OnOk result (self.new ≡ spec.with_groups (with_top group self.old.groups) self.old) }
    {
        self.groups.change(group)
    }

    /// Whether a header was read.
    pub fn has_read(&self, header: u32) -> bool
        ensures { result ≡ spec.was_read header self.now }
    {
        self.headers.as_slice().contains(&header)
    }

    /// A header is read from here on.
    pub fn enter(&mut self, header: u32) -> Result<(), AllocError>
        ensures { OnOk result (self.new ≡ spec.with_header header self.old) }
    {
        self.headers.push(header)
    }

    /// Whether text is read here.
    pub fn is_read(&self) -> bool
        ensures { result ≡ is_read self.now.groups }
    {
        match self.groups.top() {
            None => true,
            Some(group) => group.is_read,
        }
    }

    /// Whether text that is read here is certain to be in the driver.
    pub fn is_certain(&self) -> bool
        ensures { result ≡ is_certain self.now.groups }
    {
        match self.groups.top() {
            None => true,
            Some(group) => group.is_certain,
        }
    }
}

/// The token that marks a group, at the place of a directive.
pub fn mark(kind: Kind, word: u32, at: Token) -> Token
    ensures { result ≡ spec.mark kind word at }
{
    Token { kind, word, ..at }
}

/// The number of a spelling, which is added unless it is there.
#[tactic(auto, using(crate::proofs::Spellings::numbered_some, crate::proofs::Spellings::numbered_none, crate::proofs::Spellings::stay_some, crate::proofs::Spellings::stay_none, crate::proofs::Spellings::stay_same))]
pub fn numbered(
    alloc: Global,
    spellings: &mut Spellings,
    text: &[u8],
    at: Token,
) -> Result<u32, MacroError>
    ensures done { spec.Numbers (spec.numbered text.now at spellings.old) result spellings.new }
    ensures stay { spec.Stay spellings.old spellings.new }
{
    let found = spellings.number(alloc, text)?;
    // The clauses of `len` say that there are not too many.
    let _count = spellings.len();
    match found {
        Some(number) => Ok(number),
        None => Err(MacroError::TooManySpellings {
            line: at.line,
            column: at.column,
        }),
    }
}
