//! The text of the annotations of several C files, in order.

ghost use Rattle.std.specs.Prelude.{◌≡◌, IfOk, MatchResult, Ok, Err, map};
ghost use Rattle.flt_c.specs.Files as spec;
ghost use Rattle.flt_c.specs.Texts.{text_in};

use crate::fault::Fault;
use crate::text::Annotations;
use flt_rules::MAX_TEXT;
use std::alloc::{AllocError, Global};

/// A flaw of a file: why its annotations make no text.
#[derive(Clone, Copy, Debug)]
pub enum Flaw {
    /// Its first fault.
    Faulty(Fault),
    /// It has more than `MAX_FILE` bytes.
    Large,
    /// It has no annotation.
    Bare,
    /// With its annotations the text has more than `MAX_TEXT` bytes.
    Long,
}

/// A flaw, and the number of its file, from 0.
#[derive(Clone, Copy, Debug)]
pub struct FileFlaw {
    pub file: usize,
    pub flaw: Flaw,
}

/// The most bytes a C file may have.
pub(crate) const MAX_FILE: usize = 16_777_216;

/// Adds the annotations of one more file.
fn take_file(
    found: &mut Annotations,
    number: usize,
    file: &[u8],
) -> Result<Result<(), FileFlaw>, AllocError>
    ensures { IfOk result (λ done. MatchResult done
        (λ _. spec.with_file number (text_in found.old) file.now ≡ Ok (text_in found.new))
        (λ flaw. spec.with_file number (text_in found.old) file.now ≡ Err flaw)) }
{
    if MAX_FILE < file.len() {
        return Ok(Err(FileFlaw {
            file: number,
            flaw: Flaw::Large,
        }));
    }
    let before = found.bytes.len();
    if let Err(fault) = found.read(number, file)? {
        return Ok(Err(FileFlaw {
            file: number,
            flaw: Flaw::Faulty(fault),
        }));
    }
    if found.bytes.len() == before {
        return Ok(Err(FileFlaw {
            file: number,
            flaw: Flaw::Bare,
        }));
    }
    if MAX_TEXT < found.bytes.len() {
        return Ok(Err(FileFlaw {
            file: number,
            flaw: Flaw::Long,
        }));
    }
    Ok(Ok(()))
}

/// The annotations of some C files, in order, or the flaw of the first file that has one.
fn gather(alloc: Global, files: &[Vec<u8>]) -> Result<Result<Annotations, FileFlaw>, AllocError>
    ensures { IfOk result (λ found. MatchResult found
        (λ text. spec.gathered (map (λ file. file.items) files.now) ≡ Ok (text_in text))
        (λ flaw. spec.gathered (map (λ file. file.items) files.now) ≡ Err flaw)) }
{
    let mut found = Annotations::new(alloc);
    for (number, file) in files.iter().enumerate() {
        if let Err(flaw) = take_file(&mut found, number, file.as_slice())? {
            return Ok(Err(flaw));
        }
    }
    Ok(Ok(found))
}

/// The text of the annotations of some C files, in order, or the flaw of the first file that has one. The expressions by which annotations
/// declare locks are blanks in it.
///
/// # Errors
///
/// `AllocError` if a growth is refused.
pub fn extract(
    alloc: Global,
    files: &[Vec<u8>],
) -> Result<Result<Annotations, FileFlaw>, AllocError>
    ensures { IfOk result (λ found. MatchResult found
        (λ text. spec.extracted (map (λ file. file.items) files.now) ≡ Ok (text_in text))
        (λ flaw. spec.extracted (map (λ file. file.items) files.now) ≡ Err flaw)) }
{
    match gather(alloc, files)? {
        Ok(mut found) => {
            found.take_off_expressions();
            Ok(Ok(found))
        }
        Err(flaw) => Ok(Err(flaw)),
    }
}
