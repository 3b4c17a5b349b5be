//! Lines that define macros, and lines that take them back.

ghost use Rattle.std.specs.Prelude.{◌≡◌, OnOk, IfOk};
ghost use Rattle.flt_c_macros.specs.Definitions as spec;

use crate::kind::same_kind;
use crate::macros::Macro;
use crate::note::NoteKind;
use crate::state::State;
use flt_c_tokens::{Kind, Spellings, Token};
use sqlite_items::Items;
use std::alloc::{AllocError, Global};

/// How many parameters a macro may have, with that for `...`: as many as the C standard wants.
const MAX_PARAMETERS: usize = 127;

/// The parameters of a macro, the last of them again if it stands for `...`, and its body.
#[derive(Drop)]
struct Head<'a> {
    parameters: Items<u32>,
    rest: Option<u32>,
    body: &'a [Token],
}

fn is_keyword(kind: Kind) -> bool
    ensures { result ≡ spec.is_keyword kind }
{
    matches!(
        kind,
        Kind::If
            | Kind::Else
            | Kind::While
            | Kind::Do
            | Kind::For
            | Kind::Switch
            | Kind::Case
            | Kind::Default
            | Kind::Goto
            | Kind::Return
            | Kind::Break
            | Kind::Continue
            | Kind::Sizeof
            | Kind::Typedef
            | Kind::Struct
            | Kind::TypeWord
            | Kind::Qualifier
            | Kind::Try
            | Kind::Finally
            | Kind::Except
            | Kind::Leave
            | Kind::Attribute
            | Kind::Assembler
            | Kind::Cast
            | Kind::CPlusPlus
    )
}

/// The parameters of a macro after its `...`, with the name of its arguments, and its body.
fn with_rest<'a>(
    parameters: Items<u32>,
    rest: u32,
    line: &'a [Token],
) -> Result<Option<Head<'a>>, AllocError>
    ensures { IfOk result (λ head. spec.IsHead (spec.with_rest rest parameters line.now) head) }
{
    let mut found = parameters;
    match line {
        [token, body @ ..] if same_kind(token.kind, Kind::CloseParen) => {
            found.push(rest)?;
            Ok(Some(Head {
                parameters: found,
                rest: Some(rest),
                body,
            }))
        }
        _ => Ok(None),
    }
}

/// The parameters of a macro, whose bracket is open, and its body. The arguments for `...` have the name before it, or else `rest`.
fn parameters<'a>(
    alloc: Global,
    rest: u32,
    line: &'a [Token],
) -> Result<Option<Head<'a>>, AllocError>
    ensures { IfOk result (λ head. spec.IsHead (spec.parameters rest line.now) head) }
{
    let mut found = Items::new(alloc);
    let mut left = line;
    if let [token, body @ ..] = left {
        if same_kind(token.kind, Kind::CloseParen) {
            return Ok(Some(Head {
                parameters: found,
                rest: None,
                body,
            }));
        }
    }
    while let [token, behind @ ..] = left {
        if same_kind(token.kind, Kind::Ellipsis) {
            return with_rest(found, rest, behind);
        }
        if !same_kind(token.kind, Kind::Name) {
            return Ok(None);
        }
        if let [sign, after @ ..] = behind {
            if same_kind(sign.kind, Kind::Ellipsis) {
                return with_rest(found, token.word, after);
            }
        }
        found.push(token.word)?;
        match behind {
            [sign, body @ ..] if same_kind(sign.kind, Kind::CloseParen) => {
                return Ok(Some(Head {
                    parameters: found,
                    rest: None,
                    body,
                }));
            }
            [sign, after @ ..] if same_kind(sign.kind, Kind::Comma) => left = after,
            _ => return Ok(None),
        }
    }
    Ok(None)
}

/// The name by which a body has the arguments after the named ones, if none is before `...`.
fn rest_name(spellings: &Spellings) -> u32
    ensures { result ≡ spec.rest_name spellings.now }
{
    match spellings.number_of(b"__VA_ARGS__") {
        Some(number) => number,
        None => 0,
    }
}

/// A macro with parameters; `None` where these are too many.
fn macro_with(alloc: Global, head: Head<'_>) -> Result<Option<Macro>, AllocError>
    ensures { IfOk result (λ found. found ≡ spec.macro_with (head.entry.parameters, head.entry.rest, head.entry.body.now)) }
{
    let Head {
        parameters,
        rest,
        body,
    } = head;
    if MAX_PARAMETERS < parameters.len() {
        return Ok(None);
    }
    let body = Items::from_slice(alloc, body)?;
    Ok(Some(Macro::WithParameters(parameters, rest, body)))
}

/// A macro, by the line after its name; `None` where the parameters are malformed, or too many.
fn macro_from(
    alloc: Global,
    spellings: &Spellings,
    line: &[Token],
) -> Result<Option<Macro>, AllocError>
    ensures { IfOk result (λ found. found ≡ spec.macro_from spellings.now line.now) }
{
    match line {
        [token, rest @ ..] if token.is_glued && same_kind(token.kind, Kind::OpenParen) => {
            match parameters(alloc, rest_name(spellings), rest)? {
                None => Ok(None),
                Some(head) => macro_with(alloc, head),
            }
        }
        _ => Ok(Some(Macro::Plain(Items::from_slice(alloc, line)?))),
    }
}

/// Gives a name a definition. In a branch that isn't decided nothing is known of it from there on.
fn settle(state: &mut State, name: u32, what: Macro) -> Result<(), AllocError>
    ensures { OnOk result (state.new ≡ spec.settled name what state.old) }
{
    if state.is_certain() {
        state.macros.set(name, what)
    } else {
        state.macros.set(name, Macro::Undecided)
    }
}

/// The line of a `#define`.
pub fn define(
    alloc: Global,
    spellings: &Spellings,
    state: &mut State,
    at: Token,
    line: &[Token],
) -> Result<(), AllocError>
    ensures { OnOk result (state.new ≡ spec.defined spellings.now at line.now state.old) }
{
    match line {
        [name, rest @ ..] if same_kind(name.kind, Kind::Name) => match macro_from(
            alloc, spellings, rest,
        )? {
            None => state.note(NoteKind::Malformed, at),
            Some(found) => settle(state, name.word, found),
        },
        [name, ..] if is_keyword(name.kind) => state.note(NoteKind::Keyword, at),
        _ => state.note(NoteKind::Malformed, at),
    }
}

/// The line of an `#undef`.
pub fn undefine(state: &mut State, at: Token, line: &[Token]) -> Result<(), AllocError>
    ensures { OnOk result (state.new ≡ spec.undefined at line.now state.old) }
{
    match line {
        [name] if same_kind(name.kind, Kind::Name) => settle(state, name.word, Macro::Undefined),
        [name] if is_keyword(name.kind) => state.note(NoteKind::Keyword, at),
        _ => state.note(NoteKind::Malformed, at),
    }
}
