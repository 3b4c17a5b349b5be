//! Writes the beginnings and the ends of lines of C.

ghost use Rattle.flt_emit.specs.Line as spec;
ghost use Rattle.std.specs.Prelude.{◌≡◌, ◌<◌, ◌+◌, [], ◌∷◌, ◌++◌, decimal, flat_map, OnOk};

use crate::names::number_name;
use flt_tree::Atom;
use itoa::Buffer;
use std::alloc::AllocError;

/// Text, unchanged.
pub(crate) fn text(out: &mut Vec<u8>, text: &[u8]) -> Result<(), AllocError>
    ensures { OnOk result (out.new.items ≡ out.old.items ++ text.now) }
{
    out.extend_from_slice(text)
}

/// The beginning of a line at a level.
fn begin(out: &mut Vec<u8>, level: usize) -> Result<(), AllocError>
    ensures { OnOk result (out.new.items ≡ out.old.items ++ spec.indentation level) }
{
    for _at in 0..level {
        out.extend_from_slice(b"    ")?;
    }
    Ok(())
}

/// The digits of a number.
fn number(out: &mut Vec<u8>, n: u64) -> Result<(), AllocError>
    ensures { OnOk result (out.new.items ≡ out.old.items ++ decimal n) }
{
    let mut buffer = Buffer::new();
    out.extend_from_slice(buffer.format(n).as_bytes())
}

/// Texts, one after the other.
pub(crate) fn texts(out: &mut Vec<u8>, texts: &[&[u8]]) -> Result<(), AllocError>
    ensures { OnOk result (out.new.items ≡ out.old.items ++ spec.all_of texts.now) }
{
    for found in texts {
        text(out, found)?;
    }
    Ok(())
}

/// A piece of a line.
#[derive(Clone, Copy)]
pub(crate) enum Piece<'a> {
    /// The blanks of a level.
    Level(usize),
    Text(&'a [u8]),
    Number(u64),
    Atom(Atom),
    /// The end of a statement's line: its point, and its line in the text.
    Label(usize, usize),
}

fn atom(out: &mut Vec<u8>, atom: Atom) -> Result<(), AllocError>
    ensures { OnOk result (out.new.items ≡ out.old.items ++ spec.atom_text atom) }
{
    match atom {
        Atom::Number(n) => {
            number(out, n)?;
            text(out, b"ull")
        }
        Atom::Variable(n) => text(out, number_name(n)),
    }
}

fn label(out: &mut Vec<u8>, point: usize, line: usize) -> Result<(), AllocError>
    ensures { OnOk result (out.new.items ≡ out.old.items ++ spec.label point line) }
{
    text(out, b"    // ")?;
    number(out, point as u64)?;
    text(out, b", line ")?;
    number(out, line as u64)?;
    text(out, b"\n")
}

fn write_piece(out: &mut Vec<u8>, piece: Piece<'_>) -> Result<(), AllocError>
    ensures { OnOk result (out.new.items ≡ out.old.items ++ spec.piece_text piece.entry) }
{
    match piece {
        Piece::Level(level) => begin(out, level),
        Piece::Text(found) => text(out, found),
        Piece::Number(n) => number(out, n),
        Piece::Atom(x) => atom(out, x),
        Piece::Label(point, line) => label(out, point, line),
    }
}

/// Pieces, one after the other.
pub(crate) fn write(out: &mut Vec<u8>, pieces: &[Piece<'_>]) -> Result<(), AllocError>
    ensures { OnOk result (out.new.items ≡ out.old.items ++ flat_map spec.piece_text pieces.now) }
{
    for found in pieces {
        write_piece(out, *found)?;
    }
    Ok(())
}
