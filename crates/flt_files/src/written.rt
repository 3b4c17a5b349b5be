//! The files of a system by their names, as they are written.

ghost use Rattle.std.specs.Prelude.{◌≡◌, ◌⊎◌, [], ◌∷◌, ◌++◌, List, Some, None, IfOk, IsTrue, OnErr, OnOk, false, string_bytes};
ghost use Rattle.std.specs.Io.KnownBytes.{Appends};
ghost use Rattle.flt_files.specs.Deeds as deeds;
ghost use Rattle.flt_files.specs.System as spec;
ghost use Rattle.flt_files.specs.declared.deeds.Fate.TheVariants.{Removed, Stays};

use crate::inputs::{Pictures, read_within};
use crate::system::{Place, System};
use crate::unwritten::OutputFault;
use std::alloc::{AllocError, Global};
use std::io::{self, Write};

/// Has a writer take all of these bytes.
fn fill<M: Write>(file: &mut M, bytes: &[u8]) -> Result<(), OutputFault>
    ensures { OnOk result (Appends (M.contents file.old) (M.contents file.new) bytes.now) }
{
    match file.write_all(bytes) {
        Ok(()) => match file.flush() {
            Ok(()) => Ok(()),
            Err(fault) => Err(OutputFault::Refused(fault)),
        },
        Err(fault) => Err(OutputFault::Refused(fault)),
    }
}

/// Writes these bytes into the pipe or the device of a name.
fn pour<S: System>(
    system: &mut S,
    name: &str,
    bytes: &[u8],
) -> Result<Result<(), OutputFault>, AllocError>
    ensures filled { IfOk result (λ poured. OnOk poured (spec.IsFilled (S.makes (S.disk system.new)) name.now bytes.now)) }
    ensures done { OnOk result (S.done system.new ≡ S.done system.old ++ deeds.opened name.now ∷ []) }
    ensures refused { OnErr result (S.done system.new ≡ S.done system.old) }
    ensures same { S.disk system.new ≡ S.disk system.old }
{
    match system.stream(name)? {
        Ok(file) => {
            let mut file = file;
            Ok(fill(&mut file, bytes))
        }
        Err(why) => Ok(Err(why)),
    }
}

/// The number of names that are tried for a new file.
const PARTS: u32 = 100;

/// The name of a new file beside another one, of a number.
fn part_of(alloc: Global, name: &str, number: u32) -> Result<String, AllocError>
    ensures { IfOk result (λ part. string_bytes part ≡ spec.part_name name.now number) }
{
    format!(in alloc; "{name}.part{number}")
}

/// Puts the file that was made last, under one name, in the place of another, or removes it.
fn put_or_discard<S: System>(
    system: &mut S,
    file: S::Made,
    part: &str,
    name: &str,
) -> Result<bool, OutputFault>
    ensures put { OnOk result (S.puts (S.disk system.new) part.now name.now) }
    ensures is_put { IfOk result IsTrue }
    ensures done { (before : List deeds.Deed) → S.done system.old ≡ before ++ deeds.made part.now (Some name.now) Stays ∷ [] →
        S.done system.new ≡ before ++ deeds.made part.now (Some name.now) (deeds.fate_of result) ∷ [] }
    ensures same { S.disk system.new ≡ S.disk system.old }
{
    match system.put(file, part, name) {
        Ok(()) => Ok(true),
        Err(why) => {
            system.discard(part);
            Err(why)
        }
    }
}

/// Writes these bytes into a new file of a name, and puts it in the place of another; or leaves no such file. False if its own name is
/// taken.
fn put_part<S: System>(
    system: &mut S,
    part: &str,
    name: &str,
    is_private: bool,
    bytes: &[u8],
) -> Result<Result<bool, OutputFault>, AllocError>
    ensures put { IfOk result (λ tried. IfOk tried (λ is_put. IsTrue is_put →
        spec.IsFilled (S.makes (S.disk system.new)) part.now bytes.now × S.puts (S.disk system.new) part.now name.now)) }
    ensures done { IfOk result (λ tried. deeds.AddsPart (S.done system.old) (S.done system.new) part.now name.now tried) }
    ensures refused { OnErr result (S.done system.new ≡ S.done system.old) }
    ensures same { S.disk system.new ≡ S.disk system.old }
{
    match system.create(part, Some(name), is_private)? {
        Ok(Some(file)) => {
            let mut file = file;
            match fill(&mut file, bytes) {
                Ok(()) => Ok(put_or_discard(system, file, part, name)),
                Err(why) => {
                    system.discard(part);
                    Ok(Err(why))
                }
            }
        }
        Ok(None) => Ok(Ok(false)),
        Err(why) => Ok(Err(why)),
    }
}

/// Writes these bytes into a new file beside that of a name, and puts it in its place. If that fails, no such file is left, and the file of
/// the name is as it was. Nobody else reads a private one before it is there.
fn replace<S: System>(
    alloc: Global,
    system: &mut S,
    name: &str,
    is_private: bool,
    bytes: &[u8],
) -> Result<Result<(), OutputFault>, AllocError>
    ensures written { IfOk result (λ put. OnOk put
        (spec.IsWritten (S.makes (S.disk system.new)) (S.puts (S.disk system.new)) name.now bytes.now)) }
    ensures put { IfOk result (λ put. OnOk put (deeds.Adds (S.done system.old) (S.done system.new) (deeds.IsReplacing name.now))) }
    ensures left { IfOk result (λ put. OnErr put (deeds.Adds (S.done system.old) (S.done system.new) (deeds.IsLeft name.now))) }
    ensures refused { OnErr result (deeds.Adds (S.done system.old) (S.done system.new) (deeds.IsLeft name.now)) }
    ensures same { S.disk system.new ≡ S.disk system.old }
{
    for tried in 0..PARTS {
        let part = part_of(alloc, name, tried + 1)?;
        match put_part(system, part.as_str(), name, is_private, bytes)? {
            Ok(true) => return Ok(Ok(())),
            Ok(false) => {}
            Err(why) => return Ok(Err(why)),
        }
    }
    let fault = io::Error::from(io::ErrorKind::AlreadyExists);
    Ok(Err(OutputFault::Refused(fault)))
}

/// Whether the file of a name has one of these bytes or the other.
fn has_either<S: System>(
    alloc: Global,
    system: &S,
    name: &str,
    one: &[u8],
    other: &[u8],
) -> Result<bool, AllocError>
    ensures { IfOk result (λ has. IsTrue has → spec.IsHeld (S.holds (S.disk system.now)) name.now one.now
        ⊎ spec.IsHeld (S.holds (S.disk system.now)) name.now other.now) }
{
    let Some(file) = system.open(name) else {
        return Ok(false);
    };
    let mut file = file;
    let Some(found) = read_within(alloc, &mut file)? else {
        return Ok(false);
    };
    if found.as_slice() == one {
        return Ok(true);
    }
    Ok(found.as_slice() == other)
}

/// Puts the file that was made last in the place of another, if that still has the bytes that were read, or has these already; or removes
/// it.
fn put_over<S: System>(
    alloc: Global,
    system: &mut S,
    file: S::Made,
    part: &str,
    name: &str,
    read: &[u8],
    bytes: &[u8],
) -> Result<Result<bool, OutputFault>, AllocError>
    ensures put { IfOk result (λ tried. OnOk tried (S.puts (S.disk system.new) part.now name.now)) }
    ensures held { IfOk result (λ tried. OnOk tried (spec.IsHeld (S.holds (S.disk system.new)) name.now read.now
        ⊎ spec.IsHeld (S.holds (S.disk system.new)) name.now bytes.now)) }
    ensures is_put { IfOk result (λ tried. IfOk tried IsTrue) }
    ensures done { (before : List deeds.Deed) → S.done system.old ≡ before ++ deeds.made part.now (Some name.now) Stays ∷ [] →
        IfOk result (λ tried. S.done system.new ≡ before ++ deeds.made part.now (Some name.now) (deeds.fate_of tried) ∷ []) }
    ensures refused { (before : List deeds.Deed) → S.done system.old ≡ before ++ deeds.made part.now (Some name.now) Stays ∷ [] →
        OnErr result (S.done system.new ≡ before ++ deeds.made part.now (Some name.now) Removed ∷ []) }
    ensures same { S.disk system.new ≡ S.disk system.old }
{
    match has_either(alloc, system, name, read, bytes) {
        Ok(true) => Ok(put_or_discard(system, file, part, name)),
        Ok(false) => {
            system.discard(part);
            Ok(Err(OutputFault::Changed))
        }
        Err(refused) => {
            system.discard(part);
            Err(refused)
        }
    }
}

/// The same as `put_part`, of a private file, if that of the name still has the bytes that were read, or has these already.
fn put_part_over<S: System>(
    alloc: Global,
    system: &mut S,
    part: &str,
    name: &str,
    read: &[u8],
    bytes: &[u8],
) -> Result<Result<bool, OutputFault>, AllocError>
    ensures put { IfOk result (λ tried. IfOk tried (λ is_put. IsTrue is_put →
        spec.IsFilled (S.makes (S.disk system.new)) part.now bytes.now × S.puts (S.disk system.new) part.now name.now)) }
    ensures held { IfOk result (λ tried. IfOk tried (λ is_put. IsTrue is_put →
        spec.IsHeld (S.holds (S.disk system.new)) name.now read.now ⊎ spec.IsHeld (S.holds (S.disk system.new)) name.now bytes.now)) }
    ensures done { IfOk result (λ tried. deeds.AddsPart (S.done system.old) (S.done system.new) part.now name.now tried) }
    ensures refused { OnErr result ((S.done system.new ≡ S.done system.old)
        ⊎ (S.done system.new ≡ S.done system.old ++ deeds.made part.now (Some name.now) Removed ∷ [])) }
    ensures same { S.disk system.new ≡ S.disk system.old }
{
    match system.create(part, Some(name), true)? {
        Ok(Some(file)) => {
            let mut file = file;
            match fill(&mut file, bytes) {
                Ok(()) => put_over(alloc, system, file, part, name, read, bytes),
                Err(why) => {
                    system.discard(part);
                    Ok(Err(why))
                }
            }
        }
        Ok(None) => Ok(Ok(false)),
        Err(why) => Ok(Err(why)),
    }
}

/// Writes these bytes into a new file beside that of a name, and puts it in its place if that still has the bytes that were read, or
/// has these already. If that fails, no such file is left, and the file of the name is as it was.
fn replace_read<S: System>(
    alloc: Global,
    system: &mut S,
    name: &str,
    read: &[u8],
    bytes: &[u8],
) -> Result<Result<(), OutputFault>, AllocError>
    ensures written { IfOk result (λ put. OnOk put
        (spec.IsWritten (S.makes (S.disk system.new)) (S.puts (S.disk system.new)) name.now bytes.now)) }
    ensures held { IfOk result (λ put. OnOk put (spec.IsHeld (S.holds (S.disk system.new)) name.now read.now
        ⊎ spec.IsHeld (S.holds (S.disk system.new)) name.now bytes.now)) }
    ensures put { IfOk result (λ put. OnOk put (deeds.Adds (S.done system.old) (S.done system.new) (deeds.IsReplacing name.now))) }
    ensures left { IfOk result (λ put. OnErr put (deeds.Adds (S.done system.old) (S.done system.new) (deeds.IsLeft name.now))) }
    ensures refused { OnErr result (deeds.Adds (S.done system.old) (S.done system.new) (deeds.IsLeft name.now)) }
    ensures same { S.disk system.new ≡ S.disk system.old }
{
    for tried in 0..PARTS {
        let part = part_of(alloc, name, tried + 1)?;
        match put_part_over(alloc, system, part.as_str(), name, read, bytes)? {
            Ok(true) => return Ok(Ok(())),
            Ok(false) => {}
            Err(why) => return Ok(Err(why)),
        }
    }
    let fault = io::Error::from(io::ErrorKind::AlreadyExists);
    Ok(Err(OutputFault::Refused(fault)))
}

/// Writes these bytes into a new file of a name, or leaves none. Returns false if something of this name is there, which stays as it is.
fn add_new<S: System>(
    system: &mut S,
    name: &str,
    bytes: &[u8],
) -> Result<Result<bool, OutputFault>, AllocError>
    ensures new { IfOk result (λ tried. IfOk tried (λ is_new. IsTrue is_new →
        spec.IsFilled (S.makes (S.disk system.new)) name.now bytes.now)) }
    ensures taken { IfOk result (λ tried. IfOk tried (λ is_new. is_new ≡ false → S.has (S.disk system.new) name.now)) }
    ensures done { IfOk result (λ tried. IfOk tried (λ is_new.
        S.done system.new ≡ S.done system.old ++ deeds.new_or_not name.now is_new ∷ [])) }
    ensures failed { IfOk result (λ tried. OnErr tried ((S.done system.new ≡ S.done system.old ++ deeds.not_made name.now None ∷ [])
        ⊎ (S.done system.new ≡ S.done system.old ++ deeds.made name.now None Removed ∷ []))) }
    ensures refused { OnErr result (S.done system.new ≡ S.done system.old) }
    ensures same { S.disk system.new ≡ S.disk system.old }
{
    match system.create(name, None, false)? {
        Ok(Some(file)) => {
            let mut file = file;
            match fill(&mut file, bytes) {
                Ok(()) => Ok(Ok(true)),
                Err(why) => {
                    system.discard(name);
                    Ok(Err(why))
                }
            }
        }
        Ok(None) => Ok(Ok(false)),
        Err(why) => Ok(Err(why)),
    }
}

/// The files of a system by their names, which are written.
#[derive(Drop)]
pub struct WrittenFiles<S: System + Drop> {
    pub system: S,
}

impl<S: System + Drop> Pictures for WrittenFiles<S> {
    ghost use Rattle.flt_files.specs.System.{IsHeld, IsWritten};

    ghost written = { λ files. IsWritten (S.makes (S.disk files.system)) (S.puts (S.disk files.system)) };

    ghost done = { λ files. S.done files.system };

    ghost has = { λ files. S.has (S.disk files.system) };

    ghost held = { λ files. IsHeld (S.holds (S.disk files.system)) };

    fn write(
        &mut self,
        alloc: Global,
        inputs: &[&str],
        name: &str,
        bytes: &[u8],
    ) -> Result<Result<(), OutputFault>, AllocError> {
        match self.system.place(name, inputs)? {
            Ok(Place::Stream) => pour(&mut self.system, name, bytes),
            Ok(Place::Free) => replace(alloc, &mut self.system, name, false, bytes),
            Ok(Place::File) => replace(alloc, &mut self.system, name, true, bytes),
            Err(why) => Ok(Err(why)),
        }
    }

    fn rewrite(
        &mut self,
        alloc: Global,
        name: &str,
        read: &[u8],
        bytes: &[u8],
    ) -> Result<Result<(), OutputFault>, AllocError> {
        match self.system.place(name, &[])? {
            Ok(Place::Stream) => Ok(Err(OutputFault::Stream)),
            Ok(Place::Free) => replace_read(alloc, &mut self.system, name, read, bytes),
            Ok(Place::File) => replace_read(alloc, &mut self.system, name, read, bytes),
            Err(why) => Ok(Err(why)),
        }
    }

    fn write_new(
        &mut self,
        name: &str,
        bytes: &[u8],
    ) -> Result<Result<bool, OutputFault>, AllocError> {
        add_new(&mut self.system, name, bytes)
    }
}
