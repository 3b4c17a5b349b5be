//! The statements of words: of code, or of annotations.

ghost use Rattle.std.specs.Prelude.{◌≡◌};
ghost use Rattle.flt_c_drift.specs.Marks as spec;

use crate::mark::MarkKind;
use crate::names::{c_status_of, call_of, lock_call_of, operation_of, status_of};
use crate::wrapper::Wrappers;

/// The role of a word for the word after it.
#[derive(Clone, Copy)]
pub(crate) enum Before {
    Nothing,
    Return,
    Pre,
    Post,
    /// A call that takes or releases a lock, by its place among these calls. The lock's name comes next.
    Lock(usize),
}

/// The position in an entry of a table of callbacks, `{ IRP_MJ_READ, 0, PreRead, PostRead }`.
#[derive(Clone, Copy)]
pub(crate) enum Entry {
    /// In no entry.
    Nothing,
    /// After its name. The number is the operation's place among the operations, from 0; another major function has none.
    Name(Option<usize>),
    /// At its flags.
    Flags(Option<usize>),
    /// At its pre callback.
    Pre(Option<usize>),
    /// At its post callback.
    Post(Option<usize>),
}

/// The role of a word that may be a lock's call for the word after it.
fn lock_before(call: Option<usize>) -> Before
    ensures { result ≡ spec.lock_before call }
{
    match call {
        Some(call) => Before::Lock(call),
        None => Before::Nothing,
    }
}

/// The role of a word for the word after it.
pub(crate) fn before_of(word: &[u8]) -> Before
    ensures { result ≡ spec.before_of word.now }
{
    if word == b"return".as_slice() {
        Before::Return
    } else if word == b"pre".as_slice() {
        Before::Pre
    } else if word == b"post".as_slice() {
        Before::Post
    } else {
        lock_before(lock_call_of(word))
    }
}

fn is_null(word: &[u8]) -> bool
    ensures { result ≡ spec.is_null word.now }
{
    word == b"NULL".as_slice() || word == b"0".as_slice()
}

/// The registration that a word of an entry makes.
fn registered(entry: Entry) -> Option<MarkKind>
    ensures { result ≡ spec.registered entry }
{
    match entry {
        Entry::Pre(Some(operation)) => Some(MarkKind::RegistersPre(operation)),
        Entry::Post(Some(operation)) => Some(MarkKind::RegistersPost(operation)),
        Entry::Pre(None) | Entry::Post(None) => Some(MarkKind::RegistersOther),
        _ => None,
    }
}

/// The status that a word of code names, if it follows `return`.
fn returned(before: Before, word: &[u8]) -> Option<usize>
    ensures { result ≡ spec.returned before word.now }
{
    match before {
        Before::Return => c_status_of(word),
        _ => None,
    }
}

/// The statement of a word of code: the status, or else the call.
fn or_called(status: Option<usize>, call: Option<usize>) -> Option<MarkKind>
    ensures { result ≡ spec.or_called status call }
{
    if let Some(status) = status {
        return Some(MarkKind::Returns(status));
    }
    match call {
        Some(call) => Some(MarkKind::Calls(call)),
        None => None,
    }
}

/// The first statement of a word, or else the second.
fn or_said(first: Option<MarkKind>, said: Option<MarkKind>) -> Option<MarkKind>
    ensures { result ≡ spec.or_said first said }
{
    match first {
        Some(first) => Some(first),
        None => said,
    }
}

/// The statement of a word of code.
pub(crate) fn said_by_code(
    wrappers: &Wrappers,
    entry: Entry,
    before: Before,
    word: &[u8],
) -> Option<MarkKind>
    ensures { result ≡ spec.said_by_code wrappers.now entry before word.now }
{
    let first = if is_null(word) {
        None
    } else {
        registered(entry)
    };
    let second = or_called(returned(before, word), wrappers.call_in(word));
    or_said(first, second)
}

/// The statement of a word of an annotation, by the word before it.
fn said_after(before: Before, word: &[u8]) -> Option<MarkKind>
    ensures { result ≡ spec.said_after before word.now }
{
    match before {
        Before::Nothing | Before::Lock(_) => None,
        Before::Return => match status_of(word) {
            Some(status) => Some(MarkKind::Answers(status)),
            None => None,
        },
        Before::Pre => match operation_of(word) {
            Some(operation) => Some(MarkKind::HeadsPre(operation)),
            None => None,
        },
        Before::Post => match operation_of(word) {
            Some(operation) => Some(MarkKind::HeadsPost(operation)),
            None => None,
        },
    }
}

/// The statement of a word of an annotation that names a call.
fn named(call: Option<usize>) -> Option<MarkKind>
    ensures { result ≡ spec.named call }
{
    match call {
        Some(call) => Some(MarkKind::Names(call)),
        None => None,
    }
}

/// The statement of a word of an annotation.
pub(crate) fn said_by_note(alone: bool, before: Before, word: &[u8]) -> Option<MarkKind>
    ensures { result ≡ spec.said_by_note alone before word.now }
{
    if alone {
        return None;
    }
    or_said(said_after(before, word), named(call_of(word)))
}
