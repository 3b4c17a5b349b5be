//! How the tokens of a file are cut into chunks, token by token.

ghost use Rattle.std.specs.Prelude.{◌≡◌, ◌<◌, ◌-◌, ◌^◌, ◌++◌, IfOk, OnOk};
ghost use Rattle.flt_c_items.specs.Cutting as spec;

use crate::chunk::{Chunk, Ending, Reason};
use crate::front::{Form, Front, advanced, front_from};
use crate::group::{Group, turn};
use crate::kind::{begins, closes, ends_front, is_group, opens, same_kind};
use crate::words::Words;
use flt_c_tokens::{Kind, Token};
use sqlite_items::Items;
use std::alloc::{AllocError, Global};

/// The effect of the brace that closes a chunk's brackets.
#[derive(Clone, Copy)]
pub(crate) enum Closing {
    /// The chunk continues.
    Nothing,
    /// It ends a function.
    Body,
    /// It ends what can't be read.
    Unread(Reason),
}

/// The state between two tokens.
#[derive(Drop)]
pub(crate) struct State {
    /// The front of the chunk that is being cut.
    pub front: Front,
    /// A front that may be the next function's, if brackets of this chunk aren't closed.
    pub second: Option<Front>,
    /// The groups that are open in the chunk, the innermost last.
    pub groups: Items<Group>,
    pub closing: Closing,
    /// The number of tokens before the last brace that was opened outside of brackets.
    pub body: usize,
    /// How many regions are open: `extern "C" {` and `namespace NAME {`.
    pub regions: usize,
}

/// The state at the front of a chunk.
pub(crate) fn fresh(alloc: Global, from: usize, regions: usize) -> State
    ensures { result ≡ spec.fresh from regions }
{
    State {
        front: front_from(from),
        second: None,
        groups: Items::new(alloc),
        closing: Closing::Nothing,
        body: 0,
        regions,
    }
}

/// How a chunk ends outside of brackets where no brace ends it.
fn sentence(form: Form) -> Ending
    ensures { result ≡ spec.sentence form }
{
    match form {
        Form::Foreign => Ending::Unread(Reason::Foreign),
        _ => Ending::Sentence,
    }
}

/// How a chunk ends before a token.
pub(crate) fn left(front: Front) -> Ending
    ensures { result ≡ spec.left front }
{
    if front.depth == 0 {
        sentence(front.form)
    } else {
        Ending::Unread(Reason::Unclosed)
    }
}

/// Whether a brace after a front opens a function's body.
fn is_head(front: Front) -> bool
    ensures { result ≡ spec.is_head front }
{
    matches!(front.form, Form::Head) && front.depth == 0
}

/// Whether a chunk that has tokens ends before the token: the end of the file, or an `#else` whose `#if` is before the chunk.
fn ends_before(state: &State, at: usize, token: Token) -> bool
    ensures { result ≡ spec.ends_before state.now at token }
{
    state.front.from < at
        && (same_kind(token.kind, Kind::End)
            || same_kind(token.kind, Kind::GroupElse) && state.groups.len() == 0)
}

/// The second front, if it cuts off the chunk: the token opens the body after it.
fn cut_off(state: &State, kind: Kind) -> Option<Front>
    ensures { result ≡ spec.cut_off state.now kind }
{
    match state.second {
        Some(second) if same_kind(kind, Kind::OpenBrace) && is_head(second) => Some(second),
        _ => None,
    }
}

/// The chunk that ends before a token, if one does.
#[tactic(auto, unfolding(crate::specs::Cutting::broken))]
fn broken(alloc: Global, state: &mut State, at: usize, token: Token) -> Option<Chunk>
    ensures chunk { result ≡ (spec.broken state.old at token).0 }
    ensures state { state.new ≡ (spec.broken state.old at token).1 }
{
    let from = state.front.from;
    if let Some(second) = cut_off(state, token.kind) {
        *state = State {
            front: second,
            second: None,
            groups: Items::new(alloc),
            closing: Closing::Nothing,
            body: 0,
            regions: state.regions,
        };
        return Some(Chunk {
            from,
            to: second.from,
            ending: Ending::Unread(Reason::Unclosed),
        });
    }
    if ends_before(state, at, token) {
        let ending = left(state.front);
        *state = fresh(alloc, at, state.regions);
        return Some(Chunk {
            from,
            to: at,
            ending,
        });
    }
    None
}

/// How a `{` outside of brackets ends a chunk, if it does.
fn ending_open(form: Form) -> Option<Ending>
    ensures { result ≡ spec.ending_open form }
{
    match form {
        Form::Region => Some(Ending::Passed),
        _ => None,
    }
}

/// How a `}` outside of brackets ends a chunk.
fn ending_close(form: Form, regions: usize) -> Ending
    ensures { result ≡ spec.ending_close form regions }
{
    match form {
        Form::Empty if regions > 0 => Ending::Passed,
        _ => Ending::Unread(Reason::Unopened),
    }
}

/// How a token that is a chunk by itself ends it.
fn ending_alone(form: Form, kind: Kind) -> Option<Ending>
    ensures { result ≡ spec.ending_alone form kind }
{
    match form {
        Form::Empty if is_group(kind) || same_kind(kind, Kind::End) => Some(Ending::Passed),
        _ => None,
    }
}

/// How a chunk ends with a token outside of brackets, if it does.
fn ending_outside(kind: Kind, form: Form, regions: usize) -> Option<Ending>
    ensures { result ≡ spec.ending_outside kind form regions }
{
    match kind {
        Kind::Semicolon => Some(sentence(form)),
        Kind::OpenBrace => ending_open(form),
        Kind::CloseBrace => Some(ending_close(form, regions)),
        _ => ending_alone(form, kind),
    }
}

/// How a chunk ends with the token that closes its brackets, if it does.
fn ending_closed(state: &State) -> Option<Ending>
    ensures { result ≡ spec.ending_closed state.now }
{
    match state.closing {
        Closing::Nothing => None,
        Closing::Body => Some(Ending::Body {
            name: state.front.name,
            bracket: state.front.bracket,
            body: state.body,
        }),
        Closing::Unread(reason) => Some(Ending::Unread(reason)),
    }
}

/// How a chunk ends with a token, if it does.
fn ending(state: &State, kind: Kind) -> Option<Ending>
    ensures { result ≡ spec.ending state.now kind }
{
    if state.front.depth == 0 {
        ending_outside(kind, state.front.form, state.regions)
    } else if closes(kind) && state.front.depth == 1 {
        ending_closed(state)
    } else {
        None
    }
}

/// How many regions are open after a token with which a chunk ends.
fn regions_after(state: &State, kind: Kind) -> usize
    ensures { result ≡ spec.regions_after state.now kind }
{
    if state.front.depth > 0 {
        state.regions
    } else if same_kind(kind, Kind::OpenBrace) {
        state.regions.saturating_add(1)
    } else if same_kind(kind, Kind::CloseBrace) {
        state.regions.saturating_sub(1)
    } else {
        state.regions
    }
}

/// The effect of the brace that closes one after a front.
fn opened(front: Front) -> Closing
    ensures { result ≡ spec.opened front }
{
    match front.form {
        Form::Head => Closing::Body,
        Form::Empty => Closing::Unread(Reason::Headless),
        Form::Divided => Closing::Unread(Reason::Divided),
        Form::Foreign => Closing::Unread(Reason::Foreign),
        Form::Plain if same_kind(front.before.kind, Kind::OpenParen) => {
            Closing::Unread(Reason::Headless)
        }
        _ => Closing::Nothing,
    }
}

/// The effect of the bracket that closes the chunk's brackets, after one more token.
fn closing_after(state: &State, kind: Kind) -> Closing
    ensures { result ≡ spec.closing_after state.now kind }
{
    if state.front.depth > 0 || !opens(kind) {
        state.closing
    } else if same_kind(kind, Kind::OpenBrace) {
        opened(state.front)
    } else {
        Closing::Nothing
    }
}

/// The second front after one more token in brackets.
fn second_after(words: &Words, state: &State, at: usize, token: Token) -> Option<Front>
    ensures { result ≡ spec.second_after words.now state.now at token }
{
    if ends_front(token.kind) {
        return None;
    }
    match state.second {
        Some(front) => Some(advanced(words, front, at, token)),
        None => {
            if state.front.from < at && begins(token.kind) && token.column == 1 {
                Some(advanced(words, front_from(at), at, token))
            } else {
                None
            }
        }
    }
}

/// Takes one more token into the chunk, which doesn't end with it.
#[tactic(auto, unfolding(crate::specs::Cutting::going_on))]
fn go_on(words: &Words, state: &mut State, at: usize, token: Token) -> Result<(), AllocError>
    ensures { OnOk result (state.new ≡ spec.going_on words.now state.old at token) }
{
    let kind = token.kind;
    let front = advanced(words, state.front, at, token);
    let second = second_after(words, state, at, token);
    let closing = closing_after(state, kind);
    let body = if state.front.depth == 0 && same_kind(kind, Kind::OpenBrace) {
        at
    } else {
        state.body
    };
    let depth = turn(&mut state.groups, kind, state.front.depth)?;
    state.front = Front { depth, ..front };
    state.second = if depth == 0 { None } else { second };
    state.closing = closing;
    state.body = body;
    Ok(())
}

/// Takes a token into the chunk, and answers the chunk if it ends with that.
#[tactic(auto, unfolding(crate::specs::Cutting::taken))]
fn taken(
    alloc: Global,
    words: &Words,
    state: &mut State,
    at: usize,
    token: Token,
) -> Result<Option<Chunk>, AllocError>
    requires { at < 2 ^ 64 - 1 }
    ensures chunk { IfOk result (λ chunk. chunk ≡ (spec.taken words.now state.old at token).0) }
    ensures state { OnOk result (state.new ≡ (spec.taken words.now state.old at token).1) }
{
    match ending(state, token.kind) {
        Some(ending) => {
            let from = state.front.from;
            let regions = regions_after(state, token.kind);
            *state = fresh(alloc, at + 1, regions);
            Ok(Some(Chunk {
                from,
                to: at + 1,
                ending,
            }))
        }
        None => {
            go_on(words, state, at, token)?;
            Ok(None)
        }
    }
}

/// Goes over one token, before which there are `at` tokens, and adds the chunks that end before it or with it.
pub(crate) fn step(
    alloc: Global,
    words: &Words,
    state: &mut State,
    at: usize,
    token: Token,
    found: &mut Vec<Chunk>,
) -> Result<(), AllocError>
    requires { at < 2 ^ 64 - 1 }
    ensures found { OnOk result (found.new.items ≡ found.old.items ++ (spec.stepped words.now state.old at token).0) }
    ensures state { OnOk result (state.new ≡ (spec.stepped words.now state.old at token).1) }
{
    if let Some(chunk) = broken(alloc, state, at, token) {
        found.push(chunk)?;
    }
    if let Some(chunk) = taken(alloc, words, state, at, token)? {
        found.push(chunk)?;
    }
    Ok(())
}
