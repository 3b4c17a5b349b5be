//! A cursor over the tokens of a text.

ghost use Rattle.flt_syntax.specs.Cursor as spec;
ghost use Rattle.flt_syntax.specs.Cursor.{Reads};
ghost use Rattle.std.specs.Prelude.{◌≡◌, length};

use crate::fault::{FaultKind, ParseError, SyntaxFault};
use crate::lex::same_kind;
use crate::token::{Kind, Token, Word};
use flt_tree::{Position, Span};

/// The tokens that are left.
#[derive(Drop)]
pub struct Tokens<'a> {
    pub rest: &'a [Token],
}

impl<'a> Tokens<'a> {
    pub fn left(&self) -> usize
        ensures { result ≡ length self.now.rest.now }
    {
        self.rest.len()
    }

    #[inline(always)]
    pub fn front(&self) -> Token
        ensures { result ≡ spec.front self.now.rest.now }
    {
        match self.rest {
            [] => Token {
                word: Word {
                    kind: Kind::End,
                    value: 0,
                },
                position: Position { line: 1, column: 1 },
                start: 0,
                end: 0,
            },
            [first, ..] => *first,
        }
    }

    #[inline(always)]
    pub fn peek(&self) -> Kind
        ensures { result ≡ spec.kind self.now.rest.now }
    {
        self.front().word.kind
    }

    #[inline(always)]
    pub fn position(&self) -> Position
        ensures { result ≡ spec.position self.now.rest.now }
    {
        self.front().position
    }

    #[inline(always)]
    pub fn sees(&self, kind: Kind) -> bool
        ensures { result ≡ spec.sees kind self.now.rest.now }
    {
        same_kind(self.peek(), kind)
    }

    pub fn fault(&self, kind: FaultKind) -> ParseError
        ensures { result ≡ ParseError.Syntax (spec.fault_at kind self.now.rest.now) }
    {
        ParseError::Syntax(fault(kind, self.position()))
    }

    /// The error if no production reads the next token.
    #[cold]
    #[tactic(auto, unfolding(crate::specs::Cursor::refusal))]
    pub fn refuse(&self) -> ParseError
        ensures { result ≡ ParseError.Syntax (spec.refusal self.now.rest.now) }
    {
        match self.peek() {
            Kind::Stray => self.fault(FaultKind::E01),
            Kind::Malformed => self.fault(FaultKind::E02),
            _ => self.fault(FaultKind::E03),
        }
    }

    /// The error if the next token is no name of the wanted kind.
    #[cold]
    #[tactic(auto, unfolding(crate::specs::Cursor::unknown))]
    pub fn unknown(&self) -> ParseError
        ensures { result ≡ ParseError.Syntax (spec.unknown self.now.rest.now) }
    {
        if is_word(self.peek()) {
            self.fault(FaultKind::E04)
        } else {
            self.refuse()
        }
    }

    /// The error if a block is read where none is legal.
    #[tactic(auto, unfolding(crate::specs::Cursor::too_deep))]
    pub fn too_deep(&self) -> ParseError
        ensures { result ≡ ParseError.Syntax (spec.too_deep self.now.rest.now) }
    {
        if self.sees(Kind::OpenBrace) {
            self.fault(FaultKind::E06)
        } else {
            self.refuse()
        }
    }

    #[inline(always)]
    pub fn take(&mut self) -> Token
        ensures token { result ≡ spec.front self.old.rest.now }
        ensures next { self.new.rest.now ≡ spec.next self.old.rest.now }
    {
        let token = self.front();
        if let [_, rest @ ..] = self.rest {
            self.rest = rest;
        }
        token
    }

    #[inline(always)]
    #[tactic(auto, unfolding(crate::specs::Cursor::eat))]
    pub fn eat(&mut self, kind: Kind) -> bool
        ensures { spec.eat kind self.old.rest.now ≡ Ok (result, self.new.rest.now) }
    {
        let found = self.sees(kind);
        if found {
            self.take();
        }
        found
    }

    #[inline(always)]
    #[tactic(auto, unfolding(crate::specs::Cursor::expect))]
    pub fn expect(&mut self, kind: Kind) -> Result<(), ParseError>
        ensures { Reads (spec.expect kind self.old.rest.now) result self.new.rest.now }
    {
        if self.sees(kind) {
            self.take();
            Ok(())
        } else {
            Err(self.refuse())
        }
    }

    /// Any word.
    #[tactic(auto, unfolding(crate::specs::Cursor::name))]
    pub fn name(&mut self) -> Result<Token, ParseError>
        ensures { Reads (spec.name self.old.rest.now) result self.new.rest.now }
    {
        if is_word(self.peek()) {
            Ok(self.take())
        } else {
            Err(self.refuse())
        }
    }

    #[tactic(auto, unfolding(crate::specs::Cursor::number_within))]
    pub fn number_within(&mut self, low: u64, high: u64) -> Result<u64, ParseError>
        ensures { Reads (spec.number_within low high self.old.rest.now) result self.new.rest.now }
    {
        if !self.sees(Kind::Number) {
            return Err(self.refuse());
        }
        let n = self.front().word.value;
        if low <= n && n <= high {
            self.take();
            Ok(n)
        } else {
            Err(self.fault(FaultKind::E06))
        }
    }
}

pub fn fault(kind: FaultKind, at: Position) -> SyntaxFault
    ensures { result ≡ spec.fault kind at }
{
    SyntaxFault {
        line: at.line,
        column: at.column,
        kind,
    }
}

fn is_symbol(kind: Kind) -> bool
    ensures { result ≡ spec.is_symbol kind }
{
    matches!(
        kind,
        Kind::OpenBrace
            | Kind::CloseBrace
            | Kind::Assign
            | Kind::Equal
            | Kind::NotEqual
            | Kind::Less
            | Kind::Plus
            | Kind::Minus
    )
}

fn is_other(kind: Kind) -> bool
    ensures { result ≡ spec.is_other kind }
{
    matches!(
        kind,
        Kind::Number | Kind::Stray | Kind::Malformed | Kind::End
    )
}

pub fn is_word(kind: Kind) -> bool
    ensures { result ≡ spec.is_word kind }
{
    !is_symbol(kind) && !is_other(kind)
}

/// The last of a token and those after it.
#[inline(always)]
#[tactic(auto, using(crate::proofs::Spans::last_at))]
fn last<'a>(first: &'a Token, rest: &'a [Token]) -> &'a Token
    ensures { result.now ≡ spec.last first.now rest.now }
{
    match rest {
        [] => first,
        [.., last] => last,
    }
}

/// The span of the tokens that were read: `from` were left before, and `to` are left now.
#[inline(always)]
#[tactic(auto, unfolding(crate::specs::Cursor::span))]
pub fn span(from: &[Token], to: &[Token]) -> Span
    ensures { result ≡ spec.span from.now to.now }
{
    match &from[..from.len().saturating_sub(to.len())] {
        [] => Span {
            line: 0,
            start: 0,
            end: 0,
        },
        [first, rest @ ..] => Span {
            line: first.position.line,
            start: first.start,
            end: last(first, rest).end,
        },
    }
}

/// The bytes of a token of the text.
pub fn bytes_of(text: &[u8], token: Token) -> &[u8]
    ensures { result.now ≡ spec.bytes_of text.now token }
{
    let end = token.end.min(text.len());
    let start = token.start.min(end);
    &text[start..end]
}
