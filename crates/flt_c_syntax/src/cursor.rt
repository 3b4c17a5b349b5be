//! A cursor over the tokens of a body.

ghost use Rattle.flt_c_syntax.specs.Cursor as spec;
ghost use Rattle.flt_c_syntax.specs.Cursor.{Reads};
ghost use Rattle.flt_c_syntax.specs.Tokens as left;
ghost use Rattle.std.specs.Prelude.{◌≡◌, suc, length};

use crate::fault::{Fault, ReadError, Reason};
use crate::tree::Place;
use flt_c_tokens::{Kind, Token};

/// The tokens that are left.
#[derive(Drop)]
pub struct Tokens<'a> {
    pub rest: &'a [Token],
}

impl<'a> Tokens<'a> {
    /// As many turns as a repetition can take, of which each but the last takes a token.
    pub fn turns(&self) -> usize
        ensures { result ≡ suc (length self.now.rest.now) }
    {
        self.rest.len() + 1
    }

    #[inline(always)]
    pub fn front(&self) -> Token
        ensures { result ≡ left.front self.now.rest.now }
    {
        front(self.rest)
    }

    #[inline(always)]
    pub fn peek(&self) -> Kind
        ensures { result ≡ left.kind self.now.rest.now }
    {
        self.front().kind
    }

    #[inline(always)]
    pub fn place(&self) -> Place
        ensures { result ≡ left.place self.now.rest.now }
    {
        let token = self.front();
        Place {
            line: token.line,
            column: token.column,
        }
    }

    #[inline(always)]
    pub fn sees(&self, kind: Kind) -> bool
        ensures { result ≡ left.sees kind self.now.rest.now }
    {
        same_kind(self.peek(), kind)
    }

    pub fn fault(&self, reason: Reason) -> ReadError
        ensures { result ≡ ReadError.Syntax (spec.fault_at reason self.now.rest.now) }
    {
        ReadError::Syntax(Fault {
            reason,
            kind: self.peek(),
            place: self.place(),
        })
    }

    /// The error if no production reads the next token.
    #[cold]
    #[tactic(auto, unfolding(crate::specs::Cursor::refusal))]
    pub fn refuse(&self) -> ReadError
        ensures { result ≡ ReadError.Syntax (spec.refusal self.now.rest.now) }
    {
        self.fault(refusal(self.peek()))
    }

    #[inline(always)]
    pub fn take(&mut self) -> u32
        ensures word { result ≡ (left.front self.old.rest.now).word }
        ensures next { self.new.rest.now ≡ left.next self.old.rest.now }
    {
        let word = self.front().word;
        if let [_, rest @ ..] = self.rest {
            self.rest = rest;
        }
        word
    }

    #[inline(always)]
    #[tactic(auto, unfolding(crate::specs::Cursor::eat))]
    pub fn eat(&mut self, kind: Kind) -> bool
        ensures { spec.eat kind self.old.rest.now ≡ Ok (result, self.new.rest.now) }
    {
        let found = self.sees(kind);
        if found {
            self.take();
        }
        found
    }

    #[inline(always)]
    #[tactic(auto, unfolding(crate::specs::Cursor::expect))]
    pub fn expect(&mut self, kind: Kind) -> Result<(), ReadError>
        ensures { Reads (spec.expect kind self.old.rest.now) result self.new.rest.now }
    {
        if self.sees(kind) {
            self.take();
            Ok(())
        } else {
            Err(self.refuse())
        }
    }

    /// A token of the kind: its word.
    #[tactic(auto, unfolding(crate::specs::Cursor::word))]
    pub fn word(&mut self, kind: Kind) -> Result<u32, ReadError>
        ensures { Reads (spec.word kind self.old.rest.now) result self.new.rest.now }
    {
        if self.sees(kind) {
            Ok(self.take())
        } else {
            Err(self.refuse())
        }
    }

    /// A comma, or the closing bracket, which stays.
    #[tactic(auto, unfolding(crate::specs::Cursor::separator))]
    pub fn separator(&mut self, close: Kind) -> Result<(), ReadError>
        ensures { Reads (spec.separator close self.old.rest.now) result self.new.rest.now }
    {
        if self.sees(Kind::Comma) {
            self.take();
            Ok(())
        } else if self.sees(close) {
            Ok(())
        } else {
            Err(self.refuse())
        }
    }

    /// The value that was read, if a token of the kind ends it. That is taken.
    pub fn ended_by<T: Drop>(&mut self, kind: Kind, found: T) -> Result<T, ReadError>
        ensures { Reads (spec.ended_by kind found self.old.rest.now) result self.new.rest.now }
    {
        self.expect(kind)?;
        Ok(found)
    }

    /// The value that was read, if a comma or the closing bracket follows. A comma is taken.
    pub fn separated<T: Drop>(&mut self, close: Kind, found: T) -> Result<Option<T>, ReadError>
        ensures { Reads (spec.separated close found self.old.rest.now) result self.new.rest.now }
    {
        self.separator(close)?;
        Ok(Some(found))
    }
}

/// The first token, or an end past the last one.
#[inline(always)]
pub fn front(tokens: &[Token]) -> Token
    ensures { result ≡ left.front tokens.now }
{
    match tokens {
        [] => Token {
            kind: Kind::End,
            is_glued: false,
            word: 0,
            start: 0,
            line: 0,
            column: 0,
        },
        [first, ..] => *first,
    }
}

/// The tokens after the first one.
#[inline(always)]
pub fn next(tokens: &[Token]) -> &[Token]
    ensures { result.now ≡ left.next tokens.now }
{
    match tokens {
        [] => tokens,
        [_, rest @ ..] => rest,
    }
}

/// Whether both are one kind.
#[inline(always)]
#[tactic(auto, unfolding(crate::specs::Tokens::same_kind))]
pub fn same_kind(a: Kind, b: Kind) -> bool
    ensures { result ≡ left.same_kind a b }
{
    a == b
}

fn refusal(kind: Kind) -> Reason
    ensures { result ≡ spec.refusal_by kind }
{
    match kind {
        Kind::Stray => Reason::Stray,
        Kind::Unclosed => Reason::Unclosed,
        Kind::Joined => Reason::Joined,
        Kind::OpenComment => Reason::OpenComment,
        Kind::Assembler => Reason::Assembler,
        Kind::CPlusPlus => Reason::CPlusPlus,
        _ => Reason::Unexpected,
    }
}
