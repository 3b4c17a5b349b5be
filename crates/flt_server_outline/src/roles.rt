//! The roles of tokens: a word after some words of the grammar is a name, whatever it spells.

ghost use Rattle.std.specs.Prelude.{◌≡◌, IfOk};
ghost use Rattle.flt_server_outline.specs.Roles as spec;
ghost use Rattle.flt_server_outline.specs.declared.roles.After.TheVariants.{Anything};
ghost use Rattle.flt_syntax.specs.Cursor.{is_word as is_a_word};

use flt_syntax::{Kind, Token};
use sqlite_items::Items;
use std::alloc::{AllocError, Global};

/// The kind of thing that a name belongs to.
#[derive(Clone, Copy)]
pub enum NameOf {
    Filter,
    Lock,
    Routine,
}

/// The role of a token.
#[derive(Clone, Copy)]
pub enum Role {
    /// A word of the grammar, a symbol, a number, or no token at all.
    Plain,
    Variable,
    /// A name where it is declared.
    Declared(NameOf),
    /// A name where it is used.
    Used(NameOf),
}

/// A token, and its role.
#[derive(Clone, Copy)]
pub struct MarkedToken {
    pub token: Token,
    pub role: Role,
}

/// The expectation after a token.
#[derive(Clone, Copy)]
enum After {
    Anything,
    /// A name, which is declared.
    Declared(NameOf),
    /// A name, which is used.
    Used(NameOf),
    /// An operation, and then the name of a routine.
    Operation,
}

fn is_symbol(kind: Kind) -> bool
    ensures { result ≡ spec.is_symbol kind }
{
    matches!(
        kind,
        Kind::OpenBrace
            | Kind::CloseBrace
            | Kind::Assign
            | Kind::Equal
            | Kind::NotEqual
            | Kind::Less
            | Kind::Plus
            | Kind::Minus
    )
}

fn is_other(kind: Kind) -> bool
    ensures { result ≡ spec.is_other kind }
{
    matches!(
        kind,
        Kind::Number | Kind::Stray | Kind::Malformed | Kind::End
    )
}

/// Whether a token of this kind is a word, so that it may be a name.
pub(crate) fn is_word(kind: Kind) -> bool
    ensures { result ≡ is_a_word kind }
{
    !is_symbol(kind) && !is_other(kind)
}

fn is_number(kind: Kind) -> bool
    ensures { result ≡ spec.is_number kind }
{
    matches!(
        kind,
        Kind::N0 | Kind::N1 | Kind::N2 | Kind::N3 | Kind::N4 | Kind::N5 | Kind::N6 | Kind::N7
    )
}

fn is_context(kind: Kind) -> bool
    ensures { result ≡ spec.is_context kind }
{
    matches!(
        kind,
        Kind::C0
            | Kind::C1
            | Kind::C2
            | Kind::C3
            | Kind::C4
            | Kind::C5
            | Kind::C6
            | Kind::C7
            | Kind::Arg
    )
}

fn is_operation(kind: Kind) -> bool
    ensures { result ≡ spec.is_operation kind }
{
    matches!(kind, Kind::O0 | Kind::O1 | Kind::O2 | Kind::O3 | Kind::Data)
}

/// Whether a token of this kind is a variable where it is no name.
pub fn is_variable(kind: Kind) -> bool
    ensures { result ≡ spec.is_variable kind }
{
    is_number(kind) || is_context(kind) || is_operation(kind)
}

/// The expectation after a word of the grammar.
fn after_word(kind: Kind) -> After
    ensures { result ≡ spec.after_word kind }
{
    match kind {
        Kind::Filter => After::Declared(NameOf::Filter),
        Kind::Spin | Kind::Fast | Kind::Push => After::Declared(NameOf::Lock),
        Kind::DeferredPre | Kind::DeferredPost | Kind::Generic => {
            After::Declared(NameOf::Routine)
        }
        Kind::AcquireSpinLock | Kind::ReleaseSpinLock => After::Used(NameOf::Lock),
        Kind::AcquireFastMutex | Kind::ReleaseFastMutex => After::Used(NameOf::Lock),
        Kind::AcquirePushLock | Kind::AcquirePushLockShared | Kind::ReleasePushLock => {
            After::Used(NameOf::Lock)
        }
        Kind::QueueGenericWorkItem => After::Used(NameOf::Routine),
        Kind::QueueDeferredIoWorkItem => After::Operation,
        _ => After::Anything,
    }
}

/// The expectation after a token, given the one before it.
fn after_token(before: After, kind: Kind) -> After
    ensures { result ≡ spec.after_token before kind }
{
    match (before, kind) {
        (After::Declared(_) | After::Used(_), _) => After::Anything,
        (After::Operation, Kind::Data) => After::Used(NameOf::Routine),
        _ => after_word(kind),
    }
}

fn plain_role(kind: Kind) -> Role
    ensures { result ≡ spec.plain_role kind }
{
    if is_variable(kind) {
        Role::Variable
    } else {
        Role::Plain
    }
}

/// The role of a token, given the expectation before it.
fn role_of(before: After, kind: Kind) -> Role
    ensures { result ≡ spec.role_of before kind }
{
    match before {
        After::Declared(of) if is_word(kind) => Role::Declared(of),
        After::Used(of) if is_word(kind) => Role::Used(of),
        _ => plain_role(kind),
    }
}

/// The tokens of a text, each with its role.
///
/// # Errors
///
/// `AllocError` if a growth is refused.
pub fn mark_tokens(alloc: Global, tokens: &[Token]) -> Result<Items<MarkedToken>, AllocError>
    ensures { IfOk result (λ ms. ms ≡ spec.marked_from Anything tokens.now) }
{
    let mut found = Items::new(alloc);
    let mut before = After::Anything;
    for token in tokens {
        let role = role_of(before, token.word.kind);
        found.push(MarkedToken {
            token: *token,
            role,
        })?;
        before = after_token(before, token.word.kind);
    }
    Ok(found)
}
