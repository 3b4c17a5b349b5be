//! Frames, read from a stream and written.

ghost use Rattle.flt_server_frames.specs.Frames as spec;
ghost use Rattle.std.specs.Io.KnownBytes.{Consumes, IsAtEnd};
ghost use Rattle.std.specs.Prelude.{◌≡◌, ◌≢◌, ◌<◌, ◌≤◌, ◌++◌, ℕ, List, Option, IfErr, IfNone, IfOk, IfSome, OnErr, OnOk, length};

use crate::fault::ServeFault;
use crate::header::{Head, read_header};
use crate::incoming::Incoming;
use std::alloc::{AllocError, Global};
use std::cmp::min;

/// The next frame of a stream, or why there is none.
#[derive(Drop)]
pub enum Frame {
    /// A frame with this body, which is short enough.
    Body(Vec<u8>),
    /// A frame whose body is too long. It was read past, and isn't kept.
    TooLong,
    /// The end of the stream.
    End,
    /// Bytes that aren't the header of a frame.
    Malformed,
    /// A part of a frame, in which the stream ends.
    Cut,
}

/// The most bytes of a body that is kept.
const MAX_BODY: usize = 16_777_216;

/// How many bytes of a body are read at once.
const AT_ONCE: usize = 4_096;

/// The next `count` bytes of a stream; none if it ends before them.
fn read_body<R: Incoming>(
    alloc: Global,
    reader: &mut R,
    count: usize,
) -> Result<Option<Vec<u8>>, ServeFault>
    ensures bytes { IfOk result (λ found. IfSome found (λ v. Consumes (R.left reader.old) (R.left reader.new) v.items)) }
    ensures count { IfOk result (λ found. IfSome found (λ v. length v.items ≡ count)) }
    ensures cut { IfOk result (λ found. IfNone found ((bytes : List ℕ) × Consumes (R.left reader.old) (R.left reader.new) bytes
        × (length bytes < count) × IsAtEnd (R.left reader.new))) }
    ensures fine { OnOk result (R.failures reader.new ≡ R.failures reader.old) }
    ensures read { IfErr result (λ e. e ≡ ServeFault.Read → R.failures reader.new ≢ R.failures reader.old) }
    ensures write { IfErr result (λ e. e ≢ ServeFault.Write) }
{
    let mut body = Vec::new(alloc);
    let mut buffer = [0u8; AT_ONCE];
    while body.len() < count {
        let room = min(count - body.len(), buffer.len());
        match reader.take(&mut buffer[..room])? {
            0 => return Ok(None),
            n => body.extend_from_slice(&buffer[..n])?,
        }
    }
    Ok(Some(body))
}

/// Reads past the next bytes of a stream. Returns how many there were: fewer than `count` only if it ends.
fn skip<R: Incoming>(reader: &mut R, count: usize) -> Result<usize, ServeFault>
    ensures bytes { IfOk result (λ n. (bytes : List ℕ) × Consumes (R.left reader.old) (R.left reader.new) bytes × (length bytes ≡ n)) }
    ensures few { IfOk result (λ n. n ≤ count) }
    ensures ended { IfOk result (λ n. n < count → IsAtEnd (R.left reader.new)) }
    ensures fine { OnOk result (R.failures reader.new ≡ R.failures reader.old) }
    ensures read { IfErr result (λ e. e ≡ ServeFault.Read → R.failures reader.new ≢ R.failures reader.old) }
    ensures write { IfErr result (λ e. e ≢ ServeFault.Write) }
{
    let mut passed = 0;
    let mut buffer = [0u8; AT_ONCE];
    while passed < count {
        let room = min(count - passed, buffer.len());
        match reader.take(&mut buffer[..room])? {
            0 => return Ok(passed),
            n => passed += n,
        }
    }
    Ok(passed)
}

/// The frame whose header says this length, and was read.
fn read_rest<R: Incoming>(alloc: Global, reader: &mut R, length: usize) -> Result<Frame, ServeFault>
    ensures frame { IfOk result (λ frame. (had : Option (List ℕ)) → spec.Gives had (R.left reader.old) (spec.body_of length) →
        spec.IsFrame had (R.left reader.new) frame) }
    ensures fine { OnOk result (R.failures reader.new ≡ R.failures reader.old) }
    ensures read { IfErr result (λ e. e ≡ ServeFault.Read → R.failures reader.new ≢ R.failures reader.old) }
    ensures write { IfErr result (λ e. e ≢ ServeFault.Write) }
{
    if length > MAX_BODY {
        if skip(reader, length)? < length {
            return Ok(Frame::Cut);
        }
        return Ok(Frame::TooLong);
    }
    match read_body(alloc, reader, length)? {
        Some(body) => Ok(Frame::Body(body)),
        None => Ok(Frame::Cut),
    }
}

/// The next frame of a stream. No byte after it is read. A body of more than 16,777,216 bytes is read to its end, and isn't kept.
///
/// # Errors
///
/// A growth was refused, or a read failed. How much was read then isn't known.
pub fn read_frame<R: Incoming>(alloc: Global, reader: &mut R) -> Result<Frame, ServeFault>
    ensures frame { IfOk result (spec.IsFrame (R.left reader.old) (R.left reader.new)) }
    ensures fine { OnOk result (R.failures reader.new ≡ R.failures reader.old) }
    ensures read { IfErr result (λ e. e ≡ ServeFault.Read → R.failures reader.new ≢ R.failures reader.old) }
    ensures write { IfErr result (λ e. e ≢ ServeFault.Write) }
{
    match read_header(alloc, reader)? {
        Head::Length(length) => read_rest(alloc, reader, length),
        Head::End => Ok(Frame::End),
        Head::Malformed => Ok(Frame::Malformed),
        Head::Cut => Ok(Frame::Cut),
    }
}

/// Appends a body as a frame.
pub fn push_frame(alloc: Global, out: &mut Vec<u8>, body: &[u8]) -> Result<(), AllocError>
    ensures { OnOk result (out.new.items ≡ out.old.items ++ spec.framed body.now) }
{
    let length = body.len();
    let header = format!(in alloc; "Content-Length: {length}\r\n\r\n")?;
    out.extend_from_slice(header.as_bytes())?;
    out.extend_from_slice(body)?;
    Ok(())
}
