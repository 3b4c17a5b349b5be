//! The items that are read where macros are expanded.

ghost use Rattle.std.specs.Prelude.{◌≡◌, ◌<◌, ◌^◌, ◌∷◌, ◌++◌, [], OnOk, MatchOption, drop, length, reverse, take};
ghost use Rattle.flt_c_macros.specs.Items as spec;

use crate::kind::same_kind;
use flt_c_tokens::{Kind, Token};
use sqlite_items::Items;
use std::alloc::{AllocError, Global};
use std::marker::Model;

/// A token of text, of a body or of an argument.
#[derive(Clone, Copy)]
pub struct Word {
    pub token: Token,
    /// Whether it is a name that is never expanded again.
    pub is_painted: bool,
}

/// An item that is read where macros are expanded.
#[derive(Clone, Copy)]
pub enum Item {
    Read(Word),
    /// The end of a macro's body.
    End,
}

/// The word of a token that may be expanded.
pub fn plain(token: Token) -> Word
    ensures { result ≡ spec.plain token }
{
    Word {
        token,
        is_painted: false,
    }
}

/// A token at the place of another.
pub fn placed(token: Token, at: Token) -> Token
    ensures { result ≡ spec.placed token at }
{
    Token {
        start: at.start,
        line: at.line,
        column: at.column,
        ..token
    }
}

/// Whether a token is the name of a macro whose body is being read.
pub fn is_busy(busy: &[u32], token: Token) -> bool
    ensures { result ≡ spec.is_busy busy.now token }
{
    same_kind(token.kind, Kind::Name) && busy.contains(&token.word)
}

/// A word as it stays.
pub fn colored(busy: &[u32], word: Word) -> Word
    ensures { result ≡ spec.colored busy.now word }
{
    Word {
        is_painted: word.is_painted || is_busy(busy, word.token),
        ..word
    }
}

/// The first numbers, as many as there are up to a count.
pub fn first(numbers: &[u32], count: usize) -> &[u32]
    ensures { result.now ≡ take count numbers.now }
{
    if count < numbers.len() {
        &numbers[..count]
    } else {
        numbers
    }
}

/// The items that are read before the text after a use. A contract sees the next one first.
#[derive(Drop)]
pub struct Pending {
    items: Items<Item>,
}

impl Model for Pending {
    ghost use Rattle.std.specs.Prelude.{List, reverse};
    ghost use Rattle.flt_c_macros.specs.declared.item.Item.{Item};

    ghost Value = { List Item };

    ghost view = { λ a. reverse a.items };
}

impl Pending {
    pub fn new(alloc: Global) -> Pending
        ensures { result ≡ [] }
    {
        Pending {
            items: Items::new(alloc),
        }
    }

    pub fn len(&self) -> usize
        ensures len { result ≡ length self.now }
        ensures few { result < 2 ^ 63 }
    {
        self.items.as_slice().len()
    }

    /// All items, the next one last.
    pub fn backwards(&self) -> &[Item]
        ensures { reverse result.now ≡ self.now }
    {
        self.items.as_slice()
    }

    pub fn push(&mut self, item: Item) -> Result<(), AllocError>
        ensures { OnOk result (self.new ≡ item ∷ self.old) }
    {
        self.items.push(item)
    }

    pub fn pop(&mut self) -> Option<Item>
        ensures { MatchOption result ((self.old ≡ []) × (self.new ≡ [])) (λ item. self.old ≡ item ∷ self.new) }
    {
        self.items.pop()
    }

    /// Puts words before the items.
    pub fn put(&mut self, words: &[Word]) -> Result<(), AllocError>
        ensures { OnOk result (self.new ≡ spec.items_of words.now ++ self.old) }
    {
        let mut rest = words;
        while let [front @ .., last] = rest {
            self.push(Item::Read(*last))?;
            rest = front;
        }
        Ok(())
    }

    /// Takes the next items away, as many as there are up to a count.
    pub fn skip(&mut self, count: usize)
        ensures { self.new ≡ drop count self.old }
    {
        let mut left = count;
        while left > 0 {
            left -= 1;
            self.pop();
        }
    }
}
