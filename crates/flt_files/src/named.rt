//! The files of a system by their names, as they are read.

ghost use Rattle.std.specs.Prelude.{◌≡◌, ◌⊎◌, IfNone, IfOk, IfSome, IsNone};
ghost use Rattle.flt_files.specs.System as spec;

use crate::inputs::{Inputs, read_pieces_within, read_text_within, read_within};
use crate::pieces::Pieces;
use crate::system::{Reader, System};
use crate::unread::InputFault;
use std::alloc::{AllocError, Global};
use std::cell::Cell;

/// All bytes of a reader that has just been opened; none if a read fails, or if they are too many. The reason of a failure is kept.
fn read_opened<R: Reader + Drop>(
    alloc: Global,
    reader: R,
    fault: &Cell<Option<InputFault>>,
) -> Result<Option<Vec<u8>>, AllocError>
    requires { R.failures reader ≡ 0 }
    ensures all { IfOk result (λ found. IfSome found (λ v. spec.AreAll (R.left reader) v.items)) }
    ensures none { IfOk result (λ found. IfNone found (spec.CanFail R.failures ⊎ spec.IsTooLong (R.left reader))) }
{
    let mut reader = reader;
    let found = read_within(alloc, &mut reader)?;
    fault.set(reader.why());
    Ok(found)
}

/// The bytes of them that are kept if they are a text.
fn read_opened_text<R: Reader + Drop>(
    alloc: Global,
    reader: R,
    fault: &Cell<Option<InputFault>>,
) -> Result<Option<Vec<u8>>, AllocError>
    requires { R.failures reader ≡ 0 }
    ensures all { IfOk result (λ found. IfSome found (λ v. spec.AreKept (R.left reader) v.items)) }
    ensures none { IfOk result (λ found. IfNone found (spec.CanFail R.failures ⊎ spec.IsTooLong (R.left reader))) }
{
    let mut reader = reader;
    let found = read_text_within(alloc, &mut reader)?;
    fault.set(reader.why());
    Ok(found)
}

/// All bytes in pieces.
fn read_opened_pieces<R: Reader + Drop>(
    alloc: Global,
    reader: R,
    fault: &Cell<Option<InputFault>>,
) -> Result<Option<Pieces>, AllocError>
    requires { R.failures reader ≡ 0 }
    ensures all { IfOk result (λ found. IfSome found (λ p. spec.AreAll (R.left reader) p)) }
    ensures none { IfOk result (λ found. IfNone found (spec.CanFail R.failures ⊎ spec.IsTooLong (R.left reader))) }
{
    let mut reader = reader;
    let found = read_pieces_within(alloc, &mut reader)?;
    fault.set(reader.why());
    Ok(found)
}

/// The files of a system by their names, and its standard input as `-`.
#[derive(Drop)]
pub struct SystemFiles<'a, S: System> {
    pub system: &'a S,
    /// Why a read of the last opened file failed, if one did.
    fault: Cell<Option<InputFault>>,
}

impl<'a, S: System> SystemFiles<'a, S> {
    /// Those of this system.
    pub fn new(system: &'a S) -> SystemFiles<'a, S>
        ensures { result.system.now ≡ system.now }
    {
        let fault = Cell::new(None);
        SystemFiles { system, fault }
    }

    /// The result for a name under which nothing could be opened.
    fn unopened<V>(&self) -> Result<Option<V>, AllocError>
        ensures { IfOk result IsNone }
    {
        self.fault.set(None);
        Ok(None)
    }
}

impl<S: System> Inputs for SystemFiles<'_, S> {
    ghost use Rattle.flt_files.specs.System.{IsGiven};

    ghost gives = { λ named. IsGiven (S.holds (S.disk named.system.now)) (S.lacks (S.disk named.system.now))
        (S.fails (S.disk named.system.now)) };

    fn read(&self, alloc: Global, name: &str) -> Result<Option<Vec<u8>>, AllocError> {
        if name == "-" {
            return read_opened(alloc, self.system.input(), &self.fault);
        }
        match self.system.open(name) {
            Some(file) => read_opened(alloc, file, &self.fault),
            None => self.unopened(),
        }
    }

    fn read_text(&self, alloc: Global, name: &str) -> Result<Option<Vec<u8>>, AllocError> {
        if name == "-" {
            return read_opened_text(alloc, self.system.input(), &self.fault);
        }
        match self.system.open(name) {
            Some(file) => read_opened_text(alloc, file, &self.fault),
            None => self.unopened(),
        }
    }

    fn read_pieces(&self, alloc: Global, name: &str) -> Result<Option<Pieces>, AllocError> {
        if name == "-" {
            return read_opened_pieces(alloc, self.system.input(), &self.fault);
        }
        match self.system.open(name) {
            Some(file) => read_opened_pieces(alloc, file, &self.fault),
            None => self.unopened(),
        }
    }

    fn why(&self, name: &str) -> InputFault {
        match self.fault.get() {
            Some(why) => why,
            None => self.system.why(name),
        }
    }
}
