//! The state after some items, which decides how the next one is laid.

ghost use Rattle.flt_layout.specs.Layout as spec;
ghost use Rattle.std.specs.List.{position};
ghost use Rattle.std.specs.Prelude.{◌≡◌, ◌<◌, ◌^◌, ◌++◌, length, MatchOption, OnOk};

use crate::space::Space;
use flt_syntax::{Kind, Slot, plain_shape_of, slots_of};
use std::alloc::AllocError;

/// The last item.
#[derive(Clone, Copy)]
pub enum Place {
    Nothing,
    Token,
    Comment,
}

/// The last item, the depth of a statement here, the number of names to come, and whether the last token wants another.
#[derive(Clone, Copy)]
pub struct State {
    pub place: Place,
    pub level: usize,
    pub names: usize,
    pub goes_on: bool,
}

/// Words that begin a statement, a declaration or a head, and the brace that ends a block.
fn is_first(kind: Kind) -> bool
    ensures { result ≡ spec.is_first kind }
{
    matches!(
        kind,
        Kind::CloseBrace
            | Kind::Filter
            | Kind::Lock
            | Kind::Queue
            | Kind::Pre
            | Kind::Post
            | Kind::Canceled
            | Kind::DeferredPre
            | Kind::DeferredPost
            | Kind::Generic
            | Kind::Value
            | Kind::If
            | Kind::Repeat
            | Kind::Return
    )
}

/// Calls that are statements.
fn is_plain_call(kind: Kind) -> bool
    ensures { result ≡ spec.is_plain_call kind }
{
    plain_shape_of(kind).is_some()
}

/// Variables that a statement may set.
fn is_set(kind: Kind) -> bool
    ensures { result ≡ spec.is_set kind }
{
    matches!(
        kind,
        Kind::N0
            | Kind::N1
            | Kind::N2
            | Kind::N3
            | Kind::N4
            | Kind::N5
            | Kind::N6
            | Kind::N7
            | Kind::C0
            | Kind::C1
            | Kind::C2
            | Kind::C3
            | Kind::C4
            | Kind::C5
            | Kind::C6
            | Kind::C7
            | Kind::Arg
            | Kind::O0
            | Kind::O1
            | Kind::O2
            | Kind::O3
    )
}

/// Words that may begin a statement, a declaration or a head, and the brace that ends a block.
fn may_begin(kind: Kind) -> bool
    ensures { result ≡ spec.may_begin kind }
{
    is_first(kind) || is_plain_call(kind) || is_set(kind)
}

/// Words other than calls' after which an operand, a call or a test follows, which begins no statement.
fn is_followed(kind: Kind) -> bool
    ensures { result ≡ spec.is_followed kind }
{
    matches!(
        kind,
        Kind::Assign
            | Kind::Equal
            | Kind::NotEqual
            | Kind::Less
            | Kind::Plus
            | Kind::Minus
            | Kind::Value
            | Kind::File
            | Kind::If
            | Kind::Context
            | Kind::KeepIfExists
            | Kind::ReplaceIfExists
            | Kind::Old
            | Kind::As
    )
}

/// Whether the first slot of a call is a variable's.
fn takes_variable(slots: &[Slot]) -> bool
    ensures { result ≡ spec.takes_variable slots.now }
{
    matches!(slots, [Slot::Operation | Slot::Removed | Slot::Context, ..])
}

/// Words after which an operand, a call or a test follows, which begins no statement.
fn wants_more(kind: Kind) -> bool
    ensures { result ≡ spec.wants_more kind }
{
    is_followed(kind) || takes_variable(slots_of(kind))
}

/// The number of words that follow a word other than a call's whatever they are.
fn names_declared(kind: Kind) -> usize
    ensures { result ≡ spec.names_declared kind }
{
    match kind {
        Kind::Filter | Kind::DeferredPre | Kind::DeferredPost | Kind::Generic => 1,
        Kind::Lock => 2,
        _ => 0,
    }
}

fn is_name(slot: Slot) -> bool
    ensures { result ≡ spec.is_name slot }
{
    matches!(slot, Slot::Routine | Slot::Lock(_))
}

/// The first slot that a name fills.
fn named_slot(slots: &[Slot]) -> Option<usize>
    ensures place { result ≡ position spec.is_name slots.now }
    ensures within { MatchOption result (Unit {0}) (λ at. at < length slots.now) }
{
    slots.iter().position(|slot| is_name(*slot))
}

/// How many words after the word of a call its name is, if it has one.
fn name_among(slots: &[Slot]) -> usize
    ensures { result ≡ spec.name_among slots.now }
{
    match named_slot(slots) {
        Some(at) => at + 1,
        None => 0,
    }
}

/// The number of words that follow a word whatever they are.
fn names_after(kind: Kind) -> usize
    ensures { result ≡ spec.names_after kind }
{
    let declared = names_declared(kind);
    if declared == 0 {
        name_among(slots_of(kind))
    } else {
        declared
    }
}

fn opens(kind: Kind) -> bool
    ensures { result ≡ spec.opens kind }
{
    matches!(kind, Kind::OpenBrace)
}

fn closes(kind: Kind) -> bool
    ensures { result ≡ spec.closes kind }
{
    matches!(kind, Kind::CloseBrace)
}

/// Whether a token begins a statement, a declaration or a head, or ends a block.
fn begins(s: State, kind: Kind) -> bool
    ensures { result ≡ spec.begins s kind }
{
    s.names == 0 && !s.goes_on && may_begin(kind)
}

fn is_comment(place: Place) -> bool
    ensures { result ≡ spec.is_comment place }
{
    matches!(place, Place::Comment)
}

/// Where a token is laid: on a line of its own if it begins one, or after a comment. A blank line before a line stays.
pub fn placed(s: State, kind: Kind, space: Space) -> Space
    ensures { result ≡ spec.placed s kind space }
{
    let own = begins(s, kind) || is_comment(s.place);
    match space {
        Space::First => Space::First,
        Space::Beside | Space::Below => { if own { Space::Below } else { Space::Beside } }
        Space::Apart => { if own { Space::Apart } else { Space::Beside } }
    }
}

/// The depth of a token that is the first of its line.
pub fn depth(s: State, kind: Kind) -> usize
    requires { s.level < 2 ^ 32 }
    ensures { result ≡ spec.depth s kind }
{
    if begins(s, kind) {
        if closes(kind) {
            s.level.saturating_sub(1)
        } else {
            s.level
        }
    } else {
        s.level + 1
    }
}

/// The state after a token.
pub fn past_token(s: State, kind: Kind) -> State
    requires { s.level < 2 ^ 32 }
    ensures { result ≡ spec.past_token s kind }
{
    let level = if opens(kind) {
        s.level + 1
    } else if closes(kind) {
        s.level.saturating_sub(1)
    } else {
        s.level
    };
    let names = if s.names == 0 {
        names_after(kind)
    } else {
        s.names - 1
    };
    State {
        place: Place::Token,
        level,
        names,
        goes_on: s.names == 0 && wants_more(kind),
    }
}

/// The state after a comment.
pub fn past_comment(s: State) -> State
    ensures { result ≡ spec.past_comment s }
{
    State {
        place: Place::Comment,
        ..s
    }
}

/// The end of the last line, if there is one.
pub fn ending(out: &mut Vec<u8>, place: Place) -> Result<(), AllocError>
    ensures { OnOk result (out.new.items ≡ out.old.items ++ spec.ending place) }
{
    match place {
        Place::Nothing => Ok(()),
        Place::Token | Place::Comment => {
            out.push(b'\n')?;
            Ok(())
        }
    }
}
