//! The files of a driver in a folder: their names, how they are written, and the lines about them.

ghost use Rattle.flt_files.specs.Attempts.{Attempt, Failed, Grows, IsDone, Left, Wrote, made};
ghost use Rattle.flt_files.specs.Deeds.{Deed};
ghost use Rattle.flt_commands_texts.specs.Driver as spec;
ghost use Rattle.flt_commands_texts.specs.Stamp.{IsOther, IsOwnSource};
ghost use Rattle.flt_files.specs.Unwritten.{unwritten_line as line_of_unwritten};
ghost use Rattle.std.specs.Prelude.{◌≡◌, ◌<◌, ◌++◌, [], ◌∷◌, ℕ, List, IfNone, IfOk, IfSome};
ghost use Rattle.std.specs.Prelude.{OnErr, OnOk, false, map, string_bytes};

use crate::stamp::is_stamped;
use flt_files::{Inputs, OutputFault, Pictures, unwritten_line, unwritten_lines};
use flt_words::visible;
use std::alloc::{AllocError, Global};

/// The names of a driver's files.
#[derive(Drop)]
pub struct DriverNames {
    pub source: String,
    pub header: String,
    pub installation: String,
}

/// The bytes of a driver's files.
#[derive(Drop)]
pub(crate) struct DriverParts {
    pub(crate) source: Vec<u8>,
    pub(crate) header: Vec<u8>,
    pub(crate) installation: Vec<u8>,
}

/// The file under the name of a source, before it is written.
#[derive(Clone, Copy, Debug)]
pub enum SourcePlace {
    /// Nothing.
    Free,
    /// A source as `emit --into` wrote it.
    Own,
    /// Nobody asked: any file is replaced.
    Forced,
}

/// How far a driver is written after its source: first its user's header, then its INF file. Each is made unless something of its name is
/// there. Whole lines say why one isn't.
#[derive(Drop)]
pub enum RestOutcome {
    /// Both are there, and are new or as they were.
    Whole {
        has_new_header: bool,
        has_new_installation: bool,
    },
    /// There is no header.
    NoHeader(Vec<u8>),
    /// The header is there, and no INF file.
    NoInstallation {
        has_new_header: bool,
        why: Vec<u8>,
    },
}

/// How far a driver is written, its source first. Whole lines say why a file isn't.
#[derive(Drop)]
pub enum DriverOutcome {
    /// Something is there under the source's name that `emit --into` didn't write, or that was changed since; it is as it was.
    Kept(Vec<u8>),
    /// The source isn't written.
    NoSource {
        place: SourcePlace,
        why: Vec<u8>,
    },
    /// The source is written.
    Written {
        place: SourcePlace,
        rest: RestOutcome,
    },
}

/// A driver that was written into a folder, as far as that could be done.
#[derive(Drop)]
pub struct Driver {
    pub names: DriverNames,
    pub outcome: DriverOutcome,
}

// ---- the names of files

/// A byte of a filter's name.
fn letter(byte: u8) -> u8
    ensures value { result ≡ spec.letter byte }
    ensures ascii { result < 128 }
{
    if byte.is_ascii_graphic() { byte } else { b'?' }
}

/// Adds the name of a filter.
fn put_name(out: &mut String, name: &[u8]) -> Result<(), AllocError>
    ensures { OnOk result (string_bytes out.new ≡ string_bytes out.old ++ map spec.letter name.now) }
{
    for byte in name {
        out.push(letter(*byte) as char)?;
    }
    Ok(())
}

/// The name of a file of a filter in a folder.
fn file_name(alloc: Global, folder: &str, name: &[u8], ending: &str) -> Result<String, AllocError>
    ensures { IfOk result (λ file. string_bytes file ≡ spec.file_name folder.now name.now ending.now) }
{
    let mut file = String::from_str(alloc, folder)?;
    file.push_str("/")?;
    put_name(&mut file, name)?;
    file.push_str(ending)?;
    Ok(file)
}

/// The names of the files of a filter of a name in a folder.
pub(crate) fn names_in(alloc: Global, folder: &str, name: &[u8]) -> Result<DriverNames, AllocError>
    ensures { IfOk result (spec.AreNamed folder.now name.now) }
{
    Ok(DriverNames {
        source: file_name(alloc, folder, name, ".c")?,
        header: file_name(alloc, folder, name, "_user.h")?,
        installation: file_name(alloc, folder, name, ".inf")?,
    })
}

// ---- how they are written

/// Writes these bytes as the file of a name. Returns whole lines that say why that failed, if it did.
fn put<P: Pictures>(
    alloc: Global,
    inputs: &[&str],
    name: &str,
    bytes: &[u8],
    pictures: &mut P,
) -> Result<Result<(), Vec<u8>>, AllocError>
    ensures done { IfOk result (λ done. OnOk done (P.written pictures.new name.now bytes.now)) }
    ensures wrote { IfOk result (λ done. OnOk done (Grows (P.done pictures.old) (P.done pictures.new)
        (Wrote name.now bytes.now ∷ []))) }
    ensures failed { IfOk result (λ done. OnErr done (Grows (P.done pictures.old) (P.done pictures.new) (Failed name.now ∷ []))) }
    ensures kept { (other held : List ℕ) → P.written pictures.old other held → P.written pictures.new other held }
{
    match pictures.write(alloc, inputs, name, bytes)? {
        Ok(()) => Ok(Ok(())),
        Err(why) => {
            let lines = unwritten_lines(alloc, name, why)?;
            Ok(Err(lines))
        }
    }
}

/// Writes these bytes as the file of a name, if it still has the bytes that were read. Returns whole lines that say why that failed, if it
/// did.
fn put_again<P: Pictures>(
    alloc: Global,
    name: &str,
    read: &[u8],
    bytes: &[u8],
    pictures: &mut P,
) -> Result<Result<(), Vec<u8>>, AllocError>
    ensures done { IfOk result (λ done. OnOk done (P.written pictures.new name.now bytes.now)) }
    ensures wrote { IfOk result (λ done. OnOk done (Grows (P.done pictures.old) (P.done pictures.new)
        (Wrote name.now bytes.now ∷ []))) }
    ensures failed { IfOk result (λ done. OnErr done (Grows (P.done pictures.old) (P.done pictures.new) (Failed name.now ∷ []))) }
    ensures kept { (other held : List ℕ) → P.written pictures.old other held → P.written pictures.new other held }
{
    match pictures.rewrite(alloc, name, read, bytes)? {
        Ok(()) => Ok(Ok(())),
        Err(why) => {
            let lines = unwritten_lines(alloc, name, why)?;
            Ok(Err(lines))
        }
    }
}

/// Writes these bytes as a new file of a name. Returns false if something of this name is there, which stays as it is; or whole lines that
/// say why that failed.
fn put_new<P: Pictures>(
    alloc: Global,
    name: &str,
    bytes: &[u8],
    pictures: &mut P,
) -> Result<Result<bool, Vec<u8>>, AllocError>
    ensures done { IfOk result (λ done. IfOk done (λ is_new. IsDone (P.written pictures.new) (made is_new name.now bytes.now))) }
    ensures made { IfOk result (λ done. IfOk done (λ is_new. Grows (P.done pictures.old) (P.done pictures.new)
        (made is_new name.now bytes.now ∷ []))) }
    ensures failed { IfOk result (λ done. OnErr done (Grows (P.done pictures.old) (P.done pictures.new) (Failed name.now ∷ []))) }
    ensures kept { (other held : List ℕ) → P.written pictures.old other held → P.written pictures.new other held }
{
    match pictures.write_new(name, bytes)? {
        Ok(is_new) => Ok(Ok(is_new)),
        Err(why) => {
            let lines = unwritten_lines(alloc, name, why)?;
            Ok(Err(lines))
        }
    }
}

/// Makes the INF file of a driver unless it is there, after its source and its header, which is new or was there.
fn put_installation<P: Pictures>(
    alloc: Global,
    names: &DriverNames,
    parts: &DriverParts,
    has_new_header: bool,
    pictures: &mut P,
) -> Result<RestOutcome, AllocError>
    ensures { (before : List Deed) (source : Attempt) → spec.AreDone (P.written pictures.old) before (P.done pictures.old)
        (source ∷ made has_new_header (string_bytes names.now.header) parts.now.header.items ∷ []) →
        IfOk result (λ rest. spec.AreDone (P.written pictures.new) before (P.done pictures.new)
        (source ∷ spec.rest_of names.now parts.now.header.items parts.now.installation.items rest)) }
{
    let bytes = parts.installation.as_slice();
    match put_new(alloc, names.installation.as_str(), bytes, pictures)? {
        Ok(has_new_installation) => Ok(RestOutcome::Whole {
            has_new_header,
            has_new_installation,
        }),
        Err(why) => Ok(RestOutcome::NoInstallation {
            has_new_header,
            why,
        }),
    }
}

/// Makes the user's header of a driver unless it is there, after its source, and then its INF file.
fn put_rest<P: Pictures>(
    alloc: Global,
    names: &DriverNames,
    parts: &DriverParts,
    pictures: &mut P,
) -> Result<RestOutcome, AllocError>
    ensures { (before : List Deed) (source : Attempt) → spec.AreDone (P.written pictures.old) before (P.done pictures.old)
        (source ∷ []) → IfOk result (λ rest. spec.AreDone (P.written pictures.new) before (P.done pictures.new)
        (source ∷ spec.rest_of names.now parts.now.header.items parts.now.installation.items rest)) }
{
    let bytes = parts.header.as_slice();
    match put_new(alloc, names.header.as_str(), bytes, pictures)? {
        Ok(is_new) => put_installation(alloc, names, parts, is_new, pictures),
        Err(why) => Ok(RestOutcome::NoHeader(why)),
    }
}

/// Writes a driver whose source takes the place of any file, whoever wrote that.
fn put_forced<P: Pictures>(
    alloc: Global,
    inputs: &[&str],
    names: &DriverNames,
    parts: &DriverParts,
    pictures: &mut P,
) -> Result<DriverOutcome, AllocError>
    ensures done { IfOk result (λ outcome. spec.AreDone (P.written pictures.new) (P.done pictures.old) (P.done pictures.new)
        (spec.attempts_of names.now parts.now.source.items parts.now.header.items parts.now.installation.items outcome)) }
    ensures place { IfOk result (spec.HasPlace SourcePlace.Forced) }
{
    let bytes = parts.source.as_slice();
    let place = SourcePlace::Forced;
    match put(alloc, inputs, names.source.as_str(), bytes, pictures)? {
        Ok(()) => {
            let rest = put_rest(alloc, names, parts, pictures)?;
            Ok(DriverOutcome::Written { place, rest })
        }
        Err(why) => Ok(DriverOutcome::NoSource { place, why }),
    }
}

/// Writes a driver whose source takes the place of this one, which `emit --into` wrote.
fn put_over<P: Pictures>(
    alloc: Global,
    names: &DriverNames,
    parts: &DriverParts,
    found: &[u8],
    pictures: &mut P,
) -> Result<DriverOutcome, AllocError>
    ensures done { (before : List Deed) → Grows before (P.done pictures.old) (Left (string_bytes names.now.source) ∷ []) →
        IfOk result (λ outcome. spec.AreDone (P.written pictures.new) before (P.done pictures.new)
        (spec.attempts_of names.now parts.now.source.items parts.now.header.items parts.now.installation.items outcome)) }
    ensures place { IfOk result (spec.HasPlace SourcePlace.Own) }
{
    let bytes = parts.source.as_slice();
    let place = SourcePlace::Own;
    match put_again(alloc, names.source.as_str(), found, bytes, pictures)? {
        Ok(()) => {
            let rest = put_rest(alloc, names, parts, pictures)?;
            Ok(DriverOutcome::Written { place, rest })
        }
        Err(why) => Ok(DriverOutcome::NoSource { place, why }),
    }
}

/// The source that is there under a name, if `emit --into` wrote it and nobody changed it since.
fn own_source<I: Inputs>(
    alloc: Global,
    inputs: &I,
    name: &str,
) -> Result<Option<Vec<u8>>, AllocError>
    ensures own { IfOk result (λ found. IfSome found (λ bytes. IsOwnSource (I.gives inputs.now) name.now bytes.items)) }
    ensures other { IfOk result (λ found. IfNone found (IsOther (I.gives inputs.now) name.now)) }
{
    let Some(found) = inputs.read(alloc, name)? else {
        return Ok(None);
    };
    if is_stamped(alloc, found.as_slice())? {
        Ok(Some(found))
    } else {
        Ok(None)
    }
}

/// Writes a driver where something is there under its source's name, if that is a source as `emit --into` wrote it.
fn put_beside<I: Inputs, P: Pictures>(
    alloc: Global,
    inputs: &I,
    names: &DriverNames,
    parts: &DriverParts,
    pictures: &mut P,
) -> Result<DriverOutcome, AllocError>
    ensures done { (before : List Deed) → Grows before (P.done pictures.old) (Left (string_bytes names.now.source) ∷ []) →
        IfOk result (λ outcome. spec.AreDone (P.written pictures.new) before (P.done pictures.new)
        (spec.attempts_of names.now parts.now.source.items parts.now.header.items parts.now.installation.items outcome)) }
    ensures asked { IfOk result (spec.IsAskedFor (I.gives inputs.now) false (string_bytes names.now.source)) }
{
    let name = names.source.as_str();
    match own_source(alloc, inputs, name)? {
        Some(found) => put_over(alloc, names, parts, found.as_slice(), pictures),
        None => Ok(DriverOutcome::Kept(unwritten_lines(alloc, name, OutputFault::Foreign)?)),
    }
}

/// Writes the files of a driver. Its source takes the place of one that `emit --into` wrote, or, if it is forced, of any that isn't one of
/// these inputs; a user's header and an INF file that are there stay as they are. If a file can't be written, those after it aren't.
pub(crate) fn put_driver<I: Inputs, P: Pictures>(
    alloc: Global,
    inputs: &I,
    given: &[&str],
    is_forced: bool,
    names: &DriverNames,
    parts: &DriverParts,
    pictures: &mut P,
) -> Result<DriverOutcome, AllocError>
    ensures done { IfOk result (λ outcome. spec.AreDone (P.written pictures.new) (P.done pictures.old) (P.done pictures.new)
        (spec.attempts_of names.now parts.now.source.items parts.now.header.items parts.now.installation.items outcome)) }
    ensures asked { IfOk result (spec.IsAskedFor (I.gives inputs.now) is_forced (string_bytes names.now.source)) }
{
    if is_forced {
        return put_forced(alloc, given, names, parts, pictures);
    }
    let place = SourcePlace::Free;
    match put_new(
        alloc,
        names.source.as_str(),
        parts.source.as_slice(),
        pictures,
    )? {
        Ok(true) => {
            let rest = put_rest(alloc, names, parts, pictures)?;
            Ok(DriverOutcome::Written { place, rest })
        }
        Ok(false) => put_beside(alloc, inputs, names, parts, pictures),
        Err(why) => Ok(DriverOutcome::NoSource { place, why }),
    }
}

// ---- what is said

/// The exit status of a driver: 2 if a file isn't there, else 0.
pub(crate) fn driver_status(outcome: &DriverOutcome) -> u8
    ensures { result ≡ spec.driver_status outcome.now }
{
    match outcome {
        DriverOutcome::Written {
            rest: RestOutcome::Whole { .. },
            ..
        } => 0,
        _ => 2,
    }
}

/// The line that says that a file is written.
fn written_line(alloc: Global, name: &str) -> Result<Vec<u8>, AllocError>
    ensures { IfOk result (λ line. line.items ≡ spec.written_line name.now) }
{
    let name = visible(alloc, name)?;
    let line = format!(in alloc; "{name} is written\n")?;
    Ok(line.into_bytes())
}

/// The line that says that a file is as it was.
fn left_line(alloc: Global, name: &str) -> Result<Vec<u8>, AllocError>
    ensures { IfOk result (λ line. line.items ≡ spec.left_line name.now) }
{
    let name = visible(alloc, name)?;
    let line = format!(in alloc; "{name} is as it was\n")?;
    Ok(line.into_bytes())
}

/// The line for a file that is new, or was there and is as it was.
fn made_line(alloc: Global, is_new: bool, name: &str) -> Result<Vec<u8>, AllocError>
    ensures { IfOk result (λ line. line.items ≡ spec.made_line is_new name.now) }
{
    if is_new {
        written_line(alloc, name)
    } else {
        left_line(alloc, name)
    }
}

/// The same if it was there; else nothing.
fn kept_line(alloc: Global, is_new: bool, name: &str) -> Result<Vec<u8>, AllocError>
    ensures { IfOk result (λ line. line.items ≡ spec.kept_line is_new name.now) }
{
    if is_new {
        Ok(Vec::new(alloc))
    } else {
        left_line(alloc, name)
    }
}

/// The lines for a driver all of whose files are there.
fn whole_lines(
    alloc: Global,
    names: &DriverNames,
    has_new_header: bool,
    has_new_installation: bool,
) -> Result<Vec<u8>, AllocError>
    ensures { IfOk result (λ lines. lines.items ≡ spec.kept_line has_new_header (string_bytes names.now.header)
        ++ spec.kept_line has_new_installation (string_bytes names.now.installation)) }
{
    let mut lines = kept_line(alloc, has_new_header, names.header.as_str())?;
    let last = kept_line(alloc, has_new_installation, names.installation.as_str())?;
    lines.extend_from_slice(last.as_slice())?;
    Ok(lines)
}

/// The lines for a driver whose header isn't made.
fn no_header_lines(alloc: Global, names: &DriverNames, why: &[u8]) -> Result<Vec<u8>, AllocError>
    ensures { IfOk result (λ lines. lines.items ≡ spec.written_line (string_bytes names.now.source)
        ++ (why.now ++ line_of_unwritten (string_bytes names.now.header))) }
{
    let mut lines = written_line(alloc, names.source.as_str())?;
    let last = unwritten_line(alloc, names.header.as_str(), why)?;
    lines.extend_from_slice(last.as_slice())?;
    Ok(lines)
}

/// The lines for a driver whose INF file isn't made.
fn no_installation_lines(
    alloc: Global,
    names: &DriverNames,
    is_new: bool,
    why: &[u8],
) -> Result<Vec<u8>, AllocError>
    ensures { IfOk result (λ lines. lines.items ≡ spec.written_line (string_bytes names.now.source)
        ++ (spec.made_line is_new (string_bytes names.now.header)
        ++ (why.now ++ line_of_unwritten (string_bytes names.now.installation)))) }
{
    let mut lines = written_line(alloc, names.source.as_str())?;
    let header = made_line(alloc, is_new, names.header.as_str())?;
    lines.extend_from_slice(header.as_slice())?;
    let last = unwritten_line(alloc, names.installation.as_str(), why)?;
    lines.extend_from_slice(last.as_slice())?;
    Ok(lines)
}

/// The lines on the files after a source that is written.
fn rest_lines(alloc: Global, names: &DriverNames, rest: &RestOutcome) -> Result<Vec<u8>, AllocError>
    ensures { IfOk result (λ lines. lines.items ≡ spec.rest_lines names.now rest.now) }
{
    match rest {
        RestOutcome::Whole {
            has_new_header,
            has_new_installation,
        } => whole_lines(alloc, names, *has_new_header, *has_new_installation),
        RestOutcome::NoHeader(why) => no_header_lines(alloc, names, why.as_slice()),
        RestOutcome::NoInstallation {
            has_new_header,
            why,
        } => no_installation_lines(alloc, names, *has_new_header, why.as_slice()),
    }
}

/// Whole lines for the standard error: that the user's header or the INF file is as it was; or which file isn't written and why, after those
/// on the files before it.
pub(crate) fn driver_lines(alloc: Global, driver: &Driver) -> Result<Vec<u8>, AllocError>
    ensures { IfOk result (λ lines. lines.items ≡ spec.driver_lines driver.now.names driver.now.outcome) }
{
    let names = &driver.names;
    match &driver.outcome {
        DriverOutcome::Kept(why) => unwritten_line(alloc, names.source.as_str(), why.as_slice()),
        DriverOutcome::NoSource { why, .. } => {
            unwritten_line(alloc, names.source.as_str(), why.as_slice())
        }
        DriverOutcome::Written { rest, .. } => rest_lines(alloc, names, rest),
    }
}
