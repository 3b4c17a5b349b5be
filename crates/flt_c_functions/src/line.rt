//! Pieces of lines.

ghost use Rattle.std.specs.Prelude.{◌≡◌, ◌++◌, decimal, OnOk};
ghost use Rattle.flt_c_functions.specs.Lines as spec;

use crate::reason::{item_words, reason_words};
use crate::text::put_token;
use flt_c_items::Reason as ItemReason;
use flt_c_syntax::{Fault, Place};
use flt_c_tokens::{Spellings, Token};
use flt_shown::put_shown;
use itoa::Buffer;
use std::alloc::AllocError;

/// Adds bytes as they are.
pub(crate) fn put(out: &mut Vec<u8>, bytes: &[u8]) -> Result<(), AllocError>
    ensures { OnOk result (out.new.items ≡ out.old.items ++ bytes.now) }
{
    out.extend_from_slice(bytes)
}

/// Adds the digits of a number.
fn put_number(out: &mut Vec<u8>, number: u32) -> Result<(), AllocError>
    ensures { OnOk result (out.new.items ≡ out.old.items ++ decimal number) }
{
    let mut buffer = Buffer::new();
    put(out, buffer.format(u64::from(number)).as_bytes())
}

/// Adds the name of a file, and a token's place in it.
#[tactic(auto, unfolding(crate::specs::Lines::place))]
pub(crate) fn put_place(out: &mut Vec<u8>, name: &[u8], token: Token) -> Result<(), AllocError>
    ensures { OnOk result (out.new.items ≡ out.old.items ++ spec.place name.now token) }
{
    put_shown(out, name)?;
    put(out, b":")?;
    put_number(out, token.line)?;
    put(out, b":")?;
    put_number(out, token.column)?;
    put(out, b": ")
}

/// Adds where reading stops.
#[tactic(auto, unfolding(crate::specs::Lines::stop_text))]
fn put_stop(out: &mut Vec<u8>, place: Place) -> Result<(), AllocError>
    ensures { OnOk result (out.new.items ≡ out.old.items ++ spec.stop_text place) }
{
    put(out, b"stops at line ")?;
    put_number(out, place.line)?;
    put(out, b", column ")?;
    put_number(out, place.column)?;
    put(out, b": ")
}

/// The options that help if a line of an `#if` is in a statement.
fn cut_text(is_cut: bool) -> &'static [u8]
    ensures { result.now ≡ spec.cut_text is_cut }
{
    if is_cut {
        b"; --define or --undef may decide this #if"
    } else {
        b""
    }
}

/// Adds where and why reading stops.
#[tactic(auto, unfolding(crate::specs::Lines::fault_text))]
fn put_fault(out: &mut Vec<u8>, fault: Fault, is_cut: bool) -> Result<(), AllocError>
    ensures { OnOk result (out.new.items ≡ out.old.items ++ spec.fault_text fault is_cut) }
{
    put_stop(out, fault.place)?;
    put(out, reason_words(fault.reason))?;
    put(out, cut_text(is_cut))
}

/// Adds whether a function is read, or where and why reading stops.
fn put_outcome(out: &mut Vec<u8>, outcome: Option<Fault>, is_cut: bool) -> Result<(), AllocError>
    ensures { OnOk result (out.new.items ≡ out.old.items ++ spec.outcome_text outcome is_cut) }
{
    match outcome {
        None => put(out, b"read"),
        Some(fault) => put_fault(out, fault, is_cut),
    }
}

/// Adds the line of a function.
#[tactic(auto, unfolding(crate::specs::Lines::function_line))]
pub(crate) fn put_function(
    out: &mut Vec<u8>,
    spellings: &Spellings,
    name: &[u8],
    token: Token,
    outcome: Option<Fault>,
    is_cut: bool,
) -> Result<(), AllocError>
    ensures { OnOk result (out.new.items ≡ out.old.items ++ spec.function_line spellings.now name.now token outcome is_cut) }
{
    put_place(out, name, token)?;
    put(out, b"function ")?;
    put_token(out, spellings, token)?;
    put(out, b": ")?;
    put_outcome(out, outcome, is_cut)?;
    put(out, b"\n")
}

/// Adds the line of an item that isn't read.
#[tactic(auto, unfolding(crate::specs::Lines::unread_line))]
pub(crate) fn put_unread(
    out: &mut Vec<u8>,
    name: &[u8],
    token: Token,
    reason: ItemReason,
) -> Result<(), AllocError>
    ensures { OnOk result (out.new.items ≡ out.old.items ++ spec.unread_line name.now token reason) }
{
    put_place(out, name, token)?;
    put(out, b"not read: ")?;
    put(out, item_words(reason))?;
    put(out, b"\n")
}
