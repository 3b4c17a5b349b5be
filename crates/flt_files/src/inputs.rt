//! The inputs of a command.

ghost use Rattle.std.specs.Io.KnownBytes.{Consumes, IsAtEnd};
ghost use Rattle.std.specs.Prelude.{◌≡◌, ◌≢◌, ◌⊎◌, ◌≤◌, ◌<◌, [], ◌∷◌, ◌++◌, ℕ, List, Option, IfOk, IfErr, IfNone};
ghost use Rattle.std.specs.Prelude.{IfSome, OnErr, OnOk, ◌&&◌, None, Some, false, length, map, option_map, true};
ghost use Rattle.std.specs.List.{list_any};
ghost use Rattle.std.specs.Prelude;
ghost use Rattle.flt_files.specs.Attempts as attempts;
ghost use Rattle.flt_files.specs.Deeds as deeds;
ghost use Rattle.flt_files.specs.Inputs as spec;
ghost use Rattle.flt_files.specs.System as system;

use crate::failure::Failure;
use crate::pieces::Pieces;
use crate::system::Reader;
use crate::unread::{InputFault, UnreadFile};
use crate::unwritten::OutputFault;
use flt_rules::MAX_TEXT;
use std::alloc::{AllocError, Global};
use std::cmp::min;

/// The bytes of names. A name is a file's, or `-` for the standard input.
pub trait Inputs {
    // What it may give for a name: its bytes, or none.
    ghost gives: { Self → List ℕ → Option (List ℕ) → Type 0 };

    /// The bytes of a name; none if it can't be read or has more than `MAX_INPUT`.
    fn read(&self, alloc: Global, name: &str) -> Result<Option<Vec<u8>>, AllocError>
        ensures { IfOk result (λ found. gives self.now name.now (option_map (λ v. v.items) found)) };

    /// The bytes of a name that are kept if they are a text: as many as it may have, and one more; none as before.
    fn read_text(&self, alloc: Global, name: &str) -> Result<Option<Vec<u8>>, AllocError>
        ensures { IfOk result (λ found. spec.gives_text (gives self.now) name.now (option_map (λ v. v.items) found)) }
    {
        match self.read(alloc, name)? {
            Some(text) => {
                let mut text = text;
                text.truncate(KEPT);
                Ok(Some(text))
            }
            None => Ok(None),
        }
    }

    /// The same as `read`, in pieces that can be freed one by one.
    fn read_pieces(&self, alloc: Global, name: &str) -> Result<Option<Pieces>, AllocError>
        ensures { IfOk result (λ found. gives self.now name.now found) };

    /// Why a name gave nothing, as far as that is known.
    fn why(&self, _name: &str) -> InputFault {
        InputFault::Failed
    }
}

/// The files into which pictures, journals, layouts and drivers are written.
pub trait Pictures {
    // What holds once these bytes are written under a name.
    ghost written: { Self → List ℕ → List ℕ → Type 0 };

    // The deeds so far, in order.
    ghost done: { Self → List deeds.Deed };

    // Something is there under this name.
    ghost has: { Self → List ℕ → Type 0 };

    // The file of this name had these bytes when it was looked at.
    ghost held: { Self → List ℕ → List ℕ → Type 0 };

    /// Writes these bytes as the file of this name, unless it is one of the inputs. Returns why that failed, if it did; a regular file is
    /// then as it was.
    ///
    /// # Errors
    ///
    /// If memory is refused.
    fn write(
        &mut self,
        alloc: Global,
        inputs: &[&str],
        name: &str,
        bytes: &[u8],
    ) -> Result<Result<(), OutputFault>, AllocError>
        ensures done { IfOk result (λ tried. OnOk tried (written self.new name.now bytes.now)) }
        ensures wrote { IfOk result (λ tried. OnOk tried (attempts.Grows (done self.old) (done self.new)
            (attempts.Wrote name.now bytes.now ∷ []))) }
        ensures failed { IfOk result (λ tried. OnErr tried (attempts.Grows (done self.old) (done self.new)
            (attempts.Failed name.now ∷ []))) }
        ensures refused { OnErr result (deeds.Adds (done self.old) (done self.new) (deeds.IsCutShort name.now)) }
        // What was written before is written still.
        ensures kept { (other held : List ℕ) → written self.old other held → written self.new other held };

    /// Writes these bytes as the file of this name, if it still has the bytes that were read, or has these already. Returns why that failed,
    /// if it did; the file is then as it was.
    ///
    /// # Errors
    ///
    /// If memory is refused.
    fn rewrite(
        &mut self,
        alloc: Global,
        name: &str,
        read: &[u8],
        bytes: &[u8],
    ) -> Result<Result<(), OutputFault>, AllocError>
        ensures done { IfOk result (λ tried. OnOk tried (written self.new name.now bytes.now)) }
        ensures held { IfOk result (λ tried. OnOk tried (held self.new name.now read.now ⊎ held self.new name.now bytes.now)) }
        ensures wrote { IfOk result (λ tried. OnOk tried (attempts.Grows (done self.old) (done self.new)
            (attempts.Wrote name.now bytes.now ∷ []))) }
        ensures failed { IfOk result (λ tried. OnErr tried (attempts.Grows (done self.old) (done self.new)
            (attempts.Failed name.now ∷ []))) }
        ensures refused { OnErr result (deeds.Adds (done self.old) (done self.new) (deeds.IsCutShort name.now)) }
        ensures kept { (other held : List ℕ) → written self.old other held → written self.new other held };

    /// Writes these bytes as a new file of this name. Returns false if something of this name is there, which stays as it is; or why no
    /// file could be made.
    ///
    /// # Errors
    ///
    /// If memory is refused.
    fn write_new(
        &mut self,
        name: &str,
        bytes: &[u8],
    ) -> Result<Result<bool, OutputFault>, AllocError>
        ensures done { IfOk result (λ tried. IfOk tried (λ is_new.
            attempts.IsDone (written self.new) (attempts.made is_new name.now bytes.now))) }
        ensures made { IfOk result (λ tried. IfOk tried (λ is_new. attempts.Grows (done self.old) (done self.new)
            (attempts.made is_new name.now bytes.now ∷ []))) }
        ensures taken { IfOk result (λ tried. IfOk tried (λ is_new. is_new ≡ false → has self.new name.now)) }
        ensures failed { IfOk result (λ tried. OnErr tried (attempts.Grows (done self.old) (done self.new)
            (attempts.Failed name.now ∷ []))) }
        ensures refused { OnErr result (done self.new ≡ done self.old) }
        ensures kept { (other held : List ℕ) → written self.old other held → written self.new other held };
}

/// The greatest number of bytes of an input.
pub const MAX_INPUT: usize = 67_108_864;

/// The number of bytes of a text that are kept: as many as it may have, and one by which it is too long.
const KEPT: usize = MAX_TEXT + 1;

/// The number of bytes for which there is room from the start. Most texts and certificates are shorter, so that they aren't copied to grow.
const FIRST_ROOM: usize = 65_536;

/// The number of bytes of a text or a certificate that are read at once. To set more than these to zero takes the C library an instruction
/// per byte.
const AT_ONCE: usize = 2_048;

/// All bytes that a reader has; none if a read fails, or if they are more than `MAX_INPUT`.
#[tactic(auto, using(crate::proofs::Ended::all_read, crate::proofs::Ended::read_too_long))]
pub fn read_within<R: Reader>(alloc: Global, reader: &mut R) -> Result<Option<Vec<u8>>, AllocError>
    ensures all { IfOk result (λ found. IfSome found (λ v. system.AreAll (R.left reader.old) v.items)) }
    ensures few { IfOk result (λ found. IfSome found (λ v. length v.items ≤ 67108864)) }
    ensures none { IfOk result (λ found. IfNone found
        ((R.failures reader.new ≢ R.failures reader.old) ⊎ system.IsTooLong (R.left reader.old))) }
{
    let mut found = Vec::with_capacity(alloc, FIRST_ROOM)?;
    let mut buffer = [0u8; AT_ONCE];
    for _ in 0..u64::MAX {
        match reader.take(&mut buffer) {
            Err(_) => return Ok(None),
            Ok(0) => return Ok(Some(found)),
            Ok(n) => found.extend_from_slice(&buffer[..n])?,
        }
        if MAX_INPUT < found.len() {
            return Ok(None);
        }
    }
    Ok(None)
}

fn smaller(a: usize, b: usize) -> usize
    ensures { result ≡ Prelude.min a b }
{
    if a < b { a } else { b }
}

/// The bytes that are kept of all bytes of a reader; none if a read fails, or if they are more than `MAX_INPUT`.
#[tactic(auto, using(crate::proofs::Ended::all_read, crate::proofs::Ended::read_too_long))]
pub fn read_text_within<R: Reader>(
    alloc: Global,
    reader: &mut R,
) -> Result<Option<Vec<u8>>, AllocError>
    ensures all { IfOk result (λ found. IfSome found (λ v. system.AreKept (R.left reader.old) v.items)) }
    ensures none { IfOk result (λ found. IfNone found
        ((R.failures reader.new ≢ R.failures reader.old) ⊎ system.IsTooLong (R.left reader.old))) }
{
    let mut kept = Vec::with_capacity(alloc, KEPT)?;
    let mut buffer = [0u8; AT_ONCE];
    let mut total = 0;
    for _ in 0..u64::MAX {
        let count = match reader.take(&mut buffer) {
            Err(_) => return Ok(None),
            Ok(0) => return Ok(Some(kept)),
            Ok(n) => n,
        };
        total += count;
        if MAX_INPUT < total {
            return Ok(None);
        }
        let room = smaller(KEPT - kept.len(), count);
        kept.extend_from_slice(&buffer[..room])?;
    }
    Ok(None)
}

/// The greatest number of bytes of a piece. The C library maps a block of this size by itself, so its memory goes back to the system with
/// the piece. After a much greater block was freed, lists as long as that one would be copied when they grow.
const PIECE: usize = 131_072;

/// The next bytes that a reader has, `PIECE` of them or all that are left; none if a read fails.
fn read_piece<R: Reader>(alloc: Global, reader: &mut R) -> Result<Option<Vec<u8>>, AllocError>
    ensures bytes { IfOk result (λ found. IfSome found (λ v. Consumes (R.left reader.old) (R.left reader.new) v.items)) }
    ensures end { IfOk result (λ found. IfSome found (λ v. length v.items < 131072 → IsAtEnd (R.left reader.new))) }
    ensures few { IfOk result (λ found. IfSome found (λ v. length v.items ≤ 131072)) }
    ensures fine { IfOk result (λ found. IfSome found (λ _. R.failures reader.new ≡ R.failures reader.old)) }
    ensures none { IfOk result (λ found. IfNone found (R.failures reader.new ≢ R.failures reader.old)) }
{
    let mut piece = Vec::with_capacity(alloc, PIECE)?;
    let mut buffer = [0u8; 4096];
    while piece.len() < PIECE {
        let room = min(PIECE - piece.len(), buffer.len());
        match reader.take(&mut buffer[..room]) {
            Err(_) => return Ok(None),
            Ok(0) => break,
            Ok(n) => piece.extend_from_slice(&buffer[..n])?,
        }
    }
    Ok(Some(piece))
}

/// The same as `read_within`, in pieces.
#[tactic(auto, using(crate::proofs::Ended::all_read, crate::proofs::Ended::read_too_long))]
pub fn read_pieces_within<R: Reader>(
    alloc: Global,
    reader: &mut R,
) -> Result<Option<Pieces>, AllocError>
    ensures all { IfOk result (λ found. IfSome found (λ p. system.AreAll (R.left reader.old) p)) }
    ensures few { IfOk result (λ found. IfSome found (λ p. length p ≤ 67108864)) }
    ensures none { IfOk result (λ found. IfNone found
        ((R.failures reader.new ≢ R.failures reader.old) ⊎ system.IsTooLong (R.left reader.old))) }
{
    let mut pieces = Pieces::new(alloc);
    let mut length = 0;
    for _ in 0..u64::MAX {
        let piece = match read_piece(alloc, reader)? {
            Some(piece) => piece,
            None => return Ok(None),
        };
        length += piece.len();
        if MAX_INPUT < length {
            return Ok(None);
        }
        let is_last = piece.len() < PIECE;
        pieces.push(piece)?;
        if is_last {
            return Ok(Some(pieces));
        }
    }
    Ok(None)
}

/// Whether a name is that of the standard input.
pub fn is_standard(name: &str) -> bool
    ensures { result ≡ spec.is_standard name.now }
{
    name == "-"
}

/// The bytes of each name after others, in order. The standard input is there once, and `is_used` says whether it is among the others.
fn read_behind<'a, I: Inputs>(
    alloc: Global,
    inputs: &I,
    is_used: bool,
    names: &[&'a str],
) -> Result<Vec<Vec<u8>>, Failure<'a>>
    ensures ok { IfOk result (λ texts. spec.AreGivenBehind (I.gives inputs.now) is_used (map (λ name. name.now) names.now)
        (map (λ text. text.items) texts.items)) }
    ensures each { IfOk result (λ texts. length texts.items ≡ length names.now) }
    ensures err { IfErr result (spec.NamesFailBehind (I.gives inputs.now) is_used (map (λ name. name.now) names.now)) }
{
    let mut texts = Vec::new(alloc);
    let mut is_used = is_used;
    for name in names {
        if is_used && is_standard(name) {
            return Err(Failure::CannotRead(name));
        }
        match inputs.read(alloc, name)? {
            Some(text) => texts.push(text)?,
            None => return Err(Failure::CannotRead(name)),
        }
        is_used = is_used || is_standard(name);
    }
    Ok(texts)
}

/// The bytes of each name, in order. The standard input is there once.
pub fn read_all<'a, I: Inputs>(
    alloc: Global,
    inputs: &I,
    names: &[&'a str],
) -> Result<Vec<Vec<u8>>, Failure<'a>>
    ensures ok { IfOk result (λ texts. spec.AreGiven (I.gives inputs.now) (map (λ name. name.now) names.now)
        (map (λ text. text.items) texts.items)) }
    ensures each { IfOk result (λ texts. length texts.items ≡ length names.now) }
    ensures err { IfErr result (spec.NamesFail (I.gives inputs.now) (map (λ name. name.now) names.now)) }
{
    read_behind(alloc, inputs, false, names)
}

/// The bytes of one name after others, or why it gives none. The standard input gives its bytes once, and `is_used` says whether it is
/// among the others.
fn read_one<I: Inputs>(
    alloc: Global,
    inputs: &I,
    is_used: bool,
    name: &str,
) -> Result<Result<Vec<u8>, InputFault>, AllocError>
    ensures given { IfOk result (λ found. IfOk found (λ text. I.gives inputs.now name.now (Some text.items))) }
    ensures once { IfOk result (λ found. OnOk found (spec.is_standard name.now && is_used ≡ false)) }
    ensures missing { IfOk result (λ found. OnErr found
        ((spec.is_standard name.now && is_used ≡ true) ⊎ I.gives inputs.now name.now None)) }
{
    if is_used && is_standard(name) {
        return Ok(Err(InputFault::Again));
    }
    match inputs.read(alloc, name)? {
        Some(text) => Ok(Ok(text)),
        None => Ok(Err(inputs.why(name))),
    }
}

/// The names of some files that are read, their texts, and the files that aren't read.
#[derive(Drop)]
pub struct ReadFiles<'a> {
    pub names: Vec<&'a str>,
    pub texts: Vec<Vec<u8>>,
    pub unread: Vec<UnreadFile>,
}

impl<'a> ReadFiles<'a> {
    /// Adds one name, with its bytes or why it gives none. `is_used` says whether the standard input is among those before it.
    fn add<I: Inputs>(
        &mut self,
        alloc: Global,
        inputs: &I,
        is_used: bool,
        name: &'a str,
    ) -> Result<(), AllocError>
        ensures { (before : List (List ℕ)) → spec.AreReadIn (I.gives inputs.now) before self.old →
            is_used ≡ list_any spec.is_standard before →
            OnOk result (spec.AreReadIn (I.gives inputs.now) (before ++ name.entry.now ∷ []) self.new) }
    {
        match read_one(alloc, inputs, is_used, name)? {
            Ok(text) => {
                self.names.push(name)?;
                self.texts.push(text)?;
            }
            Err(why) => {
                let file = why.file(alloc, name)?;
                self.unread.push(file)?;
            }
        }
        Ok(())
    }
}

/// The bytes of each name, in order, or why it gives none. The standard input gives its bytes once.
pub fn read_each<'a, I: Inputs>(
    alloc: Global,
    inputs: &I,
    names: &[&'a str],
) -> Result<ReadFiles<'a>, AllocError>
    ensures { IfOk result (spec.AreReadIn (I.gives inputs.now) (map (λ name. name.now) names.now)) }
{
    let mut read = ReadFiles {
        names: Vec::new(alloc),
        texts: Vec::new(alloc),
        unread: Vec::new(alloc),
    };
    let mut is_used = false;
    for name in names {
        read.add(alloc, inputs, is_used, name)?;
        is_used = is_used || is_standard(name);
    }
    Ok(read)
}

/// The bytes of a journal, in pieces, and of each file after it, in order. The standard input is there once.
pub fn read_with_journal<'a, I: Inputs>(
    alloc: Global,
    inputs: &I,
    journal: &'a str,
    files: &[&'a str],
) -> Result<(Pieces, Vec<Vec<u8>>), Failure<'a>>
    ensures ok { IfOk result (λ found. spec.AreGiven (I.gives inputs.now) (journal.entry.now ∷ map (λ name. name.now) files.now)
        (found.0 ∷ map (λ text. text.items) found.1.items)) }
    ensures err { IfErr result (spec.NamesFail (I.gives inputs.now) (journal.entry.now ∷ map (λ name. name.now) files.now)) }
{
    let Some(written) = inputs.read_pieces(alloc, journal)? else {
        return Err(Failure::CannotRead(journal));
    };
    let texts = read_behind(alloc, inputs, is_standard(journal), files)?;
    Ok((written, texts))
}
