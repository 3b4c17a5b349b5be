//! Headers of frames, read up to the empty line at their end.

ghost use Rattle.flt_server_frames.specs.Frames as spec;
ghost use Rattle.flt_server_frames.specs.Header.{Goes};
ghost use Rattle.flt_server_frames.specs.Line.{said_by as said_by_line};
ghost use Rattle.std.specs.Prelude.{◌≡◌, ◌≢◌, ℕ, List, [], IfOk, IfErr, OnOk, suc, ◌∷◌};

use crate::fault::ServeFault;
use crate::incoming::{Incoming, next_byte};
use crate::line::{HeaderLine, said_by};
use std::alloc::{AllocError, Global};

/// The header at the front of a stream, or why there is none.
#[derive(Clone, Copy, Drop)]
pub(crate) enum Head {
    /// A header that says this length of the body after it.
    Length(usize),
    /// The end of the stream.
    End,
    /// Bytes that aren't a header, or a header that is too long.
    Malformed,
    /// A part of a header, in which the stream ends.
    Cut,
}

/// The part of a header that was read so far.
#[derive(Drop)]
struct Part {
    /// The bytes of its current line.
    line: Vec<u8>,
    /// The length, if an earlier line says it.
    length: Option<usize>,
}

/// The most bytes that a header has.
const MAX_HEADER: u32 = 8_192;

impl Part {
    /// Begins the next line.
    fn next_line(&mut self, length: Option<usize>)
        ensures line { self.new.line.items ≡ [] }
        ensures length { self.new.length ≡ length }
    {
        self.line.clear();
        self.length = length;
    }

    /// Ends the line. Returns the header, or why there is none, if that is now known.
    fn end_line(&mut self) -> Option<Head>
        ensures { (room : ℕ) (more : List ℕ) → Goes result self.new room more
            (spec.after_line (said_by_line self.old.line.items) self.old.length more (λ said. spec.in_header room [] said more)) }
    {
        match (said_by(self.line.as_slice()), self.length) {
            (HeaderLine::End, Some(length)) => return Some(Head::Length(length)),
            (HeaderLine::Length(length), None) => self.next_line(Some(length)),
            (HeaderLine::Other, length) => self.next_line(length),
            _ => return Some(Head::Malformed),
        }
        None
    }

    /// Adds a byte. Returns the header, or why there is none, if that is now known.
    fn add(&mut self, byte: u8) -> Result<Option<Head>, AllocError>
        ensures { IfOk result (λ head. (room : ℕ) (more : List ℕ) → Goes head self.new room more
            (spec.in_header (suc room) self.old.line.items self.old.length (byte ∷ more))) }
    {
        if byte == b'\n' {
            return Ok(self.end_line());
        }
        self.line.push(byte)?;
        Ok(None)
    }
}

/// The header at the front of a stream. No byte after it is read.
pub(crate) fn read_header<R: Incoming>(alloc: Global, reader: &mut R) -> Result<Head, ServeFault>
    ensures head { IfOk result (spec.IsHead (R.left reader.old) (R.left reader.new)) }
    ensures fine { OnOk result (R.failures reader.new ≡ R.failures reader.old) }
    ensures read { IfErr result (λ e. e ≡ ServeFault.Read → R.failures reader.new ≢ R.failures reader.old) }
    ensures write { IfErr result (λ e. e ≢ ServeFault.Write) }
{
    let mut part = Part {
        line: Vec::new(alloc),
        length: None,
    };
    for at in 0..MAX_HEADER {
        let Some(byte) = next_byte(reader)? else {
            return Ok(if at == 0 { Head::End } else { Head::Cut });
        };
        if let Some(head) = part.add(byte)? {
            return Ok(head);
        }
    }
    Ok(Head::Malformed)
}
