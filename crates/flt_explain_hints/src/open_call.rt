//! A call that isn't complete when the text continues in another line.

ghost use Rattle.std.specs.Prelude.{◌≡◌, map};
ghost use Rattle.std.specs.Option.{option_map};
ghost use Rattle.flt_explain_hints.specs.OpenCall as spec;

use crate::before::kinds_before;
use crate::choices::Choices;
use crate::kinds::{
    is_call, is_context_variable, is_operand_word, is_operation_variable, is_status, lock_of,
};
use flt_rules::LockKind;
use flt_syntax::{FaultKind, Kind, Token, keywords, same_kind};

/// A call that lacks an operand: its word, and the line of that word, from 1.
#[derive(Clone, Copy)]
pub struct OpenCall {
    pub kind: Kind,
    pub line: usize,
}

/// Whether a word may be a part of a call, after the call's own word.
fn is_part(kind: Kind) -> bool
    ensures { result ≡ spec.is_part kind }
{
    is_context_variable(kind)
        || is_operation_variable(kind)
        || is_status(kind)
        || is_operand_word(kind)
}

/// The call that a token leaves open, given the one that was open before it.
fn open_behind(so_far: Option<OpenCall>, token: Token) -> Option<OpenCall>
    ensures { result ≡ spec.open_behind so_far token }
{
    let kind = token.word.kind;
    if is_call(kind) {
        Some(OpenCall {
            kind,
            line: token.position.line,
        })
    } else if is_part(kind) {
        so_far
    } else {
        None
    }
}

/// The call that the tokens before another leave open.
fn open_before(tokens: &[Token], token: Token) -> Option<OpenCall>
    ensures { result ≡ spec.open_before tokens.now token }
{
    let mut so_far = None;
    for other in tokens {
        if other.start >= token.start {
            return so_far;
        }
        so_far = open_behind(so_far, *other);
    }
    so_far
}

/// The last call before a token, if only its operands are between the two, and all of them in lines above.
fn call_above(tokens: &[Token], token: Token) -> Option<OpenCall>
    ensures { result ≡ spec.call_above tokens.now token }
{
    if kinds_before(tokens, token).line < token.position.line {
        open_before(tokens, token)
    } else {
        None
    }
}

/// Whether an operand of a call is legal there, and not a word that follows a call or a variable at the beginning of a statement.
fn take_operand(choices: &Choices<'_>) -> bool
    ensures { result ≡ spec.take_operand choices.now }
{
    choices.takes_name
        || !(choices.takes(Kind::Return)
            || choices.takes(Kind::OpenBrace)
            || choices.takes(Kind::Assign))
}

/// Whether a token is a word or a symbol of the language.
fn is_of_the_language(kind: Kind) -> bool
    ensures { result ≡ spec.is_of_the_language kind }
{
    !matches!(
        kind,
        Kind::Name | Kind::Number | Kind::Stray | Kind::Malformed | Kind::End
    )
}

/// The call that lacks an operand, if a token begins something else in a line of its own.
pub(crate) fn open_call(
    fault: FaultKind,
    tokens: &[Token],
    token: Token,
    choices: &Choices<'_>,
) -> Option<OpenCall>
    ensures { result ≡ spec.open_call fault tokens.now token choices.now }
{
    match fault {
        FaultKind::E03 | FaultKind::E04
            if is_of_the_language(token.word.kind) && take_operand(choices) => {
            call_above(tokens, token)
        }
        _ => None,
    }
}

/// The word of a kind, of those of a table.
fn word_among(table: &[(&'static [u8], Kind)], kind: Kind) -> &'static [u8]
    ensures { result.now ≡ spec.word_among (map (λ e. (e.0.now, e.1)) table.now) kind }
{
    for entry in table {
        if same_kind(entry.1, kind) {
            return entry.0;
        }
    }
    &[]
}

/// The words of a lock that a call takes.
#[derive(Clone, Copy)]
pub(crate) struct LockWords {
    /// The operand that the call lacks.
    pub(crate) name: &'static str,
    /// How it is declared, if the filter declares none.
    pub(crate) declaration: &'static str,
}

const SPIN_LOCK: LockWords = LockWords {
    name: "the name of a spin lock",
    declaration: "; declare one after the altitude, `lock spin NAME`",
};

const FAST_MUTEX: LockWords = LockWords {
    name: "the name of a fast mutex",
    declaration: "; declare one after the altitude, `lock fast NAME`",
};

const PUSH_LOCK: LockWords = LockWords {
    name: "the name of a push lock",
    declaration: "; declare one after the altitude, `lock push NAME`",
};

impl OpenCall {
    /// The call's word.
    pub(crate) fn word(self) -> &'static [u8]
        ensures { result.now ≡ spec.word_of self.kind }
    {
        word_among(keywords(), self.kind)
    }

    /// The lock that the call takes, if it takes one.
    pub(crate) fn lock(self) -> Option<LockWords>
        ensures { option_map (λ lock. (lock.name.now, lock.declaration.now)) result ≡ spec.lock_words self.kind }
    {
        match lock_of(self.kind) {
            Some(LockKind::Spin) => Some(SPIN_LOCK),
            Some(LockKind::Fast) => Some(FAST_MUTEX),
            Some(LockKind::Push) => Some(PUSH_LOCK),
            None => None,
        }
    }
}
