//! Places outside of bodies that are no token of C.

ghost use Rattle.std.specs.Prelude.{◌≡◌, ◌++◌, OnOk};
ghost use Rattle.flt_c_functions.specs.Strays as spec;

use crate::body::stretch;
use crate::line::{put, put_place};
use crate::place::file_name;
use crate::reason::reason_words;
use flt_c_headers::Headers;
use flt_c_items::{Item, Part};
use flt_c_syntax::Reason;
use flt_c_tokens::{Kind, Token};
use std::alloc::AllocError;

/// A token that is none of C, and why.
#[derive(Clone, Copy)]
pub(crate) struct Stray {
    pub token: Token,
    pub reason: Reason,
}

/// Why a kind of token is none of C, if it is none.
fn stray_reason(kind: Kind) -> Option<Reason>
    ensures { result ≡ spec.stray_reason kind }
{
    match kind {
        Kind::Stray => Some(Reason::Stray),
        Kind::Unclosed => Some(Reason::Unclosed),
        Kind::Joined => Some(Reason::Joined),
        Kind::OpenComment => Some(Reason::OpenComment),
        _ => None,
    }
}

/// The first token that is none of C.
fn first_stray(tokens: &[Token]) -> Option<Stray>
    ensures { result ≡ spec.first_stray tokens.now }
{
    for token in tokens {
        if let Some(reason) = stray_reason(token.kind) {
            return Some(Stray {
                token: *token,
                reason,
            });
        }
    }
    None
}

/// The number of the token at which the front of an item ends: a body, and an item that isn't read, have lines of their own.
fn end_of(part: &Part, from: usize, to: usize) -> usize
    ensures { result ≡ spec.end_of part.now from to }
{
    match part {
        Part::Function(function) => function.body,
        Part::Unread(_) => from,
        _ => to,
    }
}

/// The first token of an item's front that is none of C.
pub(crate) fn stray_in(tokens: &[Token], item: &Item) -> Option<Stray>
    ensures { result ≡ spec.stray_in tokens.now item.now }
{
    let end = end_of(&item.part, item.from, item.to);
    first_stray(stretch(tokens, item.from, end))
}

/// Adds the line of such a token.
#[tactic(auto, unfolding(crate::specs::Strays::stray_line))]
fn put_line(out: &mut Vec<u8>, name: &[u8], stray: Stray) -> Result<(), AllocError>
    ensures { OnOk result (out.new.items ≡ out.old.items ++ spec.stray_line name.now stray.token stray.reason) }
{
    put_place(out, name, stray.token)?;
    put(out, b"not read: ")?;
    put(out, reason_words(stray.reason))?;
    put(out, b"\n")
}

/// Adds it, if there is one.
pub(crate) fn put_stray(
    out: &mut Vec<u8>,
    headers: &Headers,
    name: &str,
    stray: Option<Stray>,
) -> Result<(), AllocError>
    ensures { OnOk result (out.new.items ≡ out.old.items ++ spec.stray_text headers.now.files name.now stray) }
{
    match stray {
        None => Ok(()),
        Some(stray) => put_line(out, file_name(headers, name, stray.token), stray),
    }
}
