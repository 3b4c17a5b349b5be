//! Notes on directives and macros, in words.

ghost use Rattle.std.specs.Prelude.{◌≡◌, ◌++◌, OnOk};
ghost use Rattle.flt_c_functions.specs.Notes as spec;
ghost use Rattle.flt_c_functions.specs.Texts.{token_text};

use crate::line::{put, put_place};
use crate::place::{file_name, is_told};
use crate::text::put_token;
use flt_c_headers::Headers;
use flt_c_macros::{Note, NoteKind};
use flt_c_tokens::{Spellings, Token};
use std::alloc::AllocError;

/// Adds a name that stays, and why.
#[tactic(auto, unfolding(crate::specs::Notes::unexpanded))]
fn put_unexpanded(
    out: &mut Vec<u8>,
    spellings: &Spellings,
    name: Token,
    why: &[u8],
) -> Result<(), AllocError>
    ensures { OnOk result (out.new.items ≡ out.old.items ++ spec.unexpanded (token_text spellings.now name) why.now) }
{
    put(out, b"not expanded: ")?;
    put_token(out, spellings, name)?;
    put(out, why)
}

/// Adds what a note says.
fn put_words(out: &mut Vec<u8>, spellings: &Spellings, note: Note) -> Result<(), AllocError>
    ensures { OnOk result (out.new.items ≡ out.old.items ++ spec.note_words note.kind (token_text spellings.now note.at)) }
{
    let name = note.at;
    match note.kind {
        NoteKind::Malformed => put(out, b"not read: this line of a directive"),
        NoteKind::Keyword => put(out, b"not read: a keyword is no macro"),
        NoteKind::OpenGroup => put(out, b"not read: this #if has no #endif"),
        NoteKind::NoGroup => put(out, b"not read: no #if is open here"),
        NoteKind::Header => put(
            out,
            b"not read: this header is too large, too deep, or one too many",
        ),
        NoteKind::Large => {
            let why = b": too many tokens, or too many macros within each other";
            put_unexpanded(out, spellings, name, why)
        }
        NoteKind::Parameters => put_unexpanded(out, spellings, name, b": a macro has # or ##"),
        NoteKind::Arguments => {
            let why = b": the macro has another number of parameters";
            put_unexpanded(out, spellings, name, why)
        }
        NoteKind::Open => {
            let why = b": its brackets are not closed before a directive or the end";
            put_unexpanded(out, spellings, name, why)
        }
        NoteKind::Undecided => {
            put_unexpanded(out, spellings, name, b": an #if decides what a macro is")
        }
    }
}

/// Adds the line of a note.
#[tactic(auto, unfolding(crate::specs::Notes::note_line))]
fn put_note(
    out: &mut Vec<u8>,
    spellings: &Spellings,
    name: &[u8],
    note: Note,
) -> Result<(), AllocError>
    ensures { OnOk result (out.new.items ≡ out.old.items ++ spec.note_line spellings.now name.now note) }
{
    put_place(out, name, note.at)?;
    put_words(out, spellings, note)?;
    put(out, b"\n")
}

/// Adds the line of a note of a file of this name, unless it is in a header that is listed already.
fn put_note_once(
    out: &mut Vec<u8>,
    spellings: &Spellings,
    headers: &Headers,
    told: &[u32],
    name: &str,
    note: Note,
) -> Result<(), AllocError>
    ensures { OnOk result (out.new.items ≡
        out.old.items ++ spec.note_text spellings.now headers.now.files told.now name.now note) }
{
    if is_told(headers, told, note.at) {
        return Ok(());
    }
    put_note(out, spellings, file_name(headers, name, note.at), note)
}

/// Adds the lines of notes.
pub(crate) fn put_notes(
    out: &mut Vec<u8>,
    spellings: &Spellings,
    headers: &Headers,
    told: &[u32],
    name: &str,
    notes: &[Note],
) -> Result<(), AllocError>
    ensures { OnOk result (out.new.items ≡
        out.old.items ++ spec.note_lines spellings.now headers.now.files told.now name.now notes.now) }
{
    for note in notes {
        put_note_once(out, spellings, headers, told, name, *note)?;
    }
    Ok(())
}
