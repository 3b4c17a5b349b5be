//! Tokens of C: an expression without its blanks, comments and enclosing brackets.

ghost use Rattle.std.specs.Prelude.{◌≡◌, ◌-◌, drop, length, take, OnOk};
ghost use Rattle.flt_c_drift.specs.Tokens as spec;

use crate::part::{is_blank, is_word_byte};
use std::alloc::{AllocError, Global};

/// The most open brackets that are counted.
pub(crate) const MAX_DEPTH: usize = 255;

/// The most pairs of enclosing brackets that are left out.
const MAX_PAIRS: usize = 8;

// ---- enclosing brackets

/// The state of reading tokens that may be enclosed in brackets.
#[derive(Clone, Copy)]
pub(crate) enum Brackets {
    /// Nothing is read.
    Nothing,
    /// After the first bracket, with so many open ones after it.
    Open(usize),
    /// After the bracket that closes the first one.
    Closed,
    /// The first bracket closes before the end, or there is none.
    Other,
}

/// The state after a bracket that opens.
fn opened(depth: usize) -> Brackets
    ensures { result ≡ spec.opened depth }
{
    if depth < MAX_DEPTH {
        Brackets::Open(depth + 1)
    } else {
        Brackets::Other
    }
}

/// The state after a bracket that closes.
fn closed(depth: usize) -> Brackets
    ensures { result ≡ spec.closed depth }
{
    if depth == 0 {
        Brackets::Closed
    } else {
        Brackets::Open(depth - 1)
    }
}

/// The state after one more byte.
fn brackets_after(brackets: Brackets, b: u8) -> Brackets
    ensures { result ≡ spec.brackets_after brackets b }
{
    match brackets {
        Brackets::Nothing => {
            if b == b'(' {
                Brackets::Open(0)
            } else {
                Brackets::Other
            }
        }
        Brackets::Open(depth) => match b {
            b'(' => opened(depth),
            b')' => closed(depth),
            _ => brackets,
        },
        Brackets::Closed | Brackets::Other => Brackets::Other,
    }
}

fn is_closed(brackets: Brackets) -> bool
    ensures { result ≡ spec.is_closed brackets }
{
    matches!(brackets, Brackets::Closed)
}

/// Whether a pair of brackets encloses all of the tokens.
fn is_enclosed(tokens: &[u8]) -> bool
    ensures { result ≡ spec.is_enclosed tokens.now }
{
    let mut brackets = Brackets::Nothing;
    for b in tokens {
        brackets = brackets_after(brackets, *b);
    }
    is_closed(brackets)
}

/// The bytes from one on.
fn rest_of(bytes: &[u8], start: usize) -> &[u8]
    ensures { result.now ≡ drop start bytes.now }
{
    if start <= bytes.len() {
        &bytes[start..]
    } else {
        &[]
    }
}

/// The first bytes.
fn first_of(bytes: &[u8], count: usize) -> &[u8]
    ensures { result.now ≡ take count bytes.now }
{
    if count <= bytes.len() {
        &bytes[..count]
    } else {
        bytes
    }
}

/// The tokens without the first and the last byte.
fn inside(tokens: &[u8]) -> &[u8]
    ensures { result.now ≡ spec.inside tokens.now }
{
    first_of(rest_of(tokens, 1), tokens.len().saturating_sub(2))
}

/// The tokens without a pair of brackets that encloses them, if one does.
fn unwrapped(tokens: &[u8]) -> &[u8]
    ensures { result.now ≡ spec.unwrapped tokens.now }
{
    if is_enclosed(tokens) {
        inside(tokens)
    } else {
        tokens
    }
}

/// The tokens without the brackets that enclose them.
#[tactic(auto, unfolding(crate::specs::Tokens::bare))]
fn bare(tokens: &[u8]) -> &[u8]
    ensures { result.now ≡ spec.bare 8 tokens.now }
{
    let mut rest = tokens;
    for _pair in 0..MAX_PAIRS {
        rest = unwrapped(rest);
    }
    rest
}

// ---- tokens that are being read

/// The tokens of an expression, as far as it is read.
#[derive(Drop)]
pub(crate) struct Tokens {
    /// Their bytes. A blank is between two words, and nowhere else.
    bytes: Vec<u8>,
    /// The number of the bytes up to the last one that isn't `*`. No expression ends with `*`, and a comment may.
    kept: usize,
    /// Whether the last byte belongs to a word.
    word: bool,
    /// Whether the expression may have ended before this place: the last byte is `*`, or blanks or comments follow it.
    apart: bool,
    /// The number of bytes of the file before the first one.
    start: usize,
    /// The number of bytes of the file from there to the place where it may have ended.
    size: usize,
}

impl Tokens {
    /// Nothing is read.
    pub(crate) fn new(alloc: Global) -> Tokens
        ensures { spec.written_in result ≡ spec.none }
    {
        Tokens {
            bytes: Vec::new(alloc),
            kept: 0,
            word: false,
            apart: true,
            start: 0,
            size: 0,
        }
    }

    /// Begins again.
    pub(crate) fn clear(&mut self)
        ensures { spec.written_in self.new ≡ spec.none }
    {
        self.bytes.clear();
        self.kept = 0;
        self.word = false;
        self.apart = true;
        self.start = 0;
        self.size = 0;
    }

    /// The place of the first byte.
    pub(crate) fn start(&self) -> usize
        ensures { result ≡ (spec.written_in self.now).start }
    {
        self.start
    }

    /// The number of bytes of the file from the first one to the last one, where reading is at a place.
    pub(crate) fn length_at(&self, at: usize) -> usize
        ensures { result ≡ spec.length_at at (spec.written_in self.now) }
    {
        if self.apart {
            self.size
        } else {
            at.saturating_sub(self.start)
        }
    }

    /// Takes a blank, or a byte of a comment.
    pub(crate) fn part(&mut self, at: usize)
        ensures { spec.written_in self.new ≡ spec.parted at (spec.written_in self.old) }
    {
        self.size = self.length_at(at);
        self.apart = true;
    }

    /// The place of the first byte, if one at this place is added.
    fn start_with(&self, at: usize) -> usize
        ensures { result ≡ spec.start_with at (spec.written_in self.now) }
    {
        if self.bytes.is_empty() {
            at
        } else {
            self.start
        }
    }

    /// Takes a `*`.
    fn put_star(&mut self, at: usize) -> Result<(), AllocError>
        ensures { OnOk result (spec.written_in self.new ≡ spec.starred at (spec.written_in self.old)) }
    {
        self.part(at);
        self.start = self.start_with(at);
        self.word = false;
        self.bytes.push(b'*')?;
        Ok(())
    }

    /// Adds a byte, after a blank if it begins another word.
    fn push(&mut self, b: u8) -> Result<(), AllocError>
        ensures { OnOk result (spec.written_in self.new ≡ spec.pushed b (spec.written_in self.old)) }
    {
        if self.apart && self.word && is_word_byte(b) {
            self.bytes.push(b' ')?;
        }
        self.bytes.push(b)?;
        Ok(())
    }

    /// Takes another byte.
    fn put(&mut self, at: usize, b: u8) -> Result<(), AllocError>
        ensures { OnOk result (spec.written_in self.new ≡ spec.put at b (spec.written_in self.old)) }
    {
        self.start = self.start_with(at);
        self.push(b)?;
        self.kept = self.bytes.len();
        self.word = is_word_byte(b);
        self.apart = false;
        Ok(())
    }

    /// Takes one more byte of the expression. A `/` counts as a blank, since it isn't code.
    pub(crate) fn write(&mut self, at: usize, b: u8) -> Result<(), AllocError>
        ensures { OnOk result (spec.written_in self.new ≡ spec.written at b (spec.written_in self.old)) }
    {
        if is_blank(b) || b == b'/' {
            self.part(at);
            return Ok(());
        }
        if b == b'*' {
            self.put_star(at)
        } else {
            self.put(at, b)
        }
    }

    /// The tokens that are read, without the brackets that enclose them.
    pub(crate) fn tokens(&self) -> &[u8]
        ensures { result.now ≡ spec.tokens_of (spec.written_in self.now) }
    {
        bare(first_of(self.bytes.as_slice(), self.kept))
    }
}
