//! The services that the program needs from its system: to open a file or the standard input, and to put a file in its place.

ghost use Rattle.std.specs.Io.{ReadsAtMost};
ghost use Rattle.std.specs.Io.KnownBytes.{ReadConsumes};
ghost use Rattle.std.specs.Prelude.{◌≡◌, ◌≢◌, ◌++◌, [], ◌∷◌, ℕ, List, Option, Some, IfNone, IfSome, OnErr, OnOk, IfOk, codes, option_map};
ghost use Rattle.flt_files.specs.Deeds as deeds;
ghost use Rattle.flt_files.specs.System.{CanFail};
ghost use Rattle.flt_files.specs.declared.deeds.Fate.TheVariants.{Removed, Replaces, Stays};

use crate::unread::InputFault;
use crate::unwritten::OutputFault;
use flt_model::ReadFault;
use std::alloc::AllocError;
use std::io::Write;

/// An open file or stream, with a count of its failures.
pub trait Reader {
    // The bytes that it still gives; none where they aren't known.
    ghost left: { Self → Option (List ℕ) };

    // The count of its failures.
    ghost failures: { Self → ℕ };

    /// Puts the next bytes into the front of a buffer, and returns how many; 0 only at the end, or if the buffer has no room.
    fn take(&mut self, buffer: &mut [u8]) -> Result<usize, ReadFault>
        ensures bound { ReadsAtMost result buffer.new }
        ensures bytes { ReadConsumes (left self.old) (left self.new) result buffer.new }
        ensures fine { OnOk result (failures self.new ≡ failures self.old) }
        ensures failed { OnErr result (failures self.new ≢ failures self.old) };

    /// Why `take` failed last, as far as that is known; none if it didn't.
    fn why(&self) -> Option<InputFault> {
        None
    }
}

/// The kind of a place to which bytes will be written.
#[derive(Clone, Copy, Debug, PartialEq, Eq)]
pub enum Place {
    /// Nothing: a new file is made there.
    Free,
    /// A regular file, whose place a new one takes.
    File,
    /// A pipe or a device, which takes bytes as it is.
    Stream,
}

/// Files by their names, and one standard input, whose name is `-`. A call that changes files takes the system for itself, and adds its one
/// entry to the list of deeds first: if memory for the entry is refused, nothing is done.
pub trait System {
    /// A file that is read.
    type File: Reader + Drop;

    /// The standard input.
    type Input: Reader + Drop;

    /// A file that is written.
    type Made: Write + Drop;

    // The number of its disk: no call changes which disk it is.
    ghost disk: { Self → ℕ };

    // Its deeds, one after the other.
    ghost done: { Self → List deeds.Deed };

    // A reader that is opened under this name on the disk of a number has these bytes left, where they are known.
    ghost holds: { ℕ → List ℕ → Option (List ℕ) → Type 0 };

    // Nothing can be opened under this name.
    ghost lacks: { ℕ → List ℕ → Type 0 };

    // Something is there under this name.
    ghost has: { ℕ → List ℕ → Type 0 };

    // A read may fail.
    ghost fails: { ℕ → Type 0 };

    // A writer that is made under this name holds these bytes, where they are known.
    ghost makes: { ℕ → List ℕ → Option (List ℕ) → Type 0 };

    // What was made under the first of these names stands under the second, in place of what stood there.
    ghost puts: { ℕ → List ℕ → List ℕ → Type 0 };

    /// The file of a name; none if it can't be opened.
    fn open(&self, name: &str) -> Option<Self::File>
        ensures opened { IfSome result (λ file. holds (disk self.now) name.now (Self.File.left file)) }
        ensures fine { IfSome result (λ file. Self.File.failures file ≡ 0) }
        ensures failing { CanFail Self.File.failures → fails (disk self.now) }
        ensures none { IfNone result (lacks (disk self.now) name.now) };

    /// The standard input.
    fn input(&self) -> Self::Input
        ensures opened { holds (disk self.now) (codes "-") (Self.Input.left result) }
        ensures fine { Self.Input.failures result ≡ 0 }
        ensures failing { CanFail Self.Input.failures → fails (disk self.now) };

    /// The place of a name, if it may be written: no symbolic link, no folder, and none of the inputs of these names.
    ///
    /// # Errors
    ///
    /// If memory is refused.
    fn place(
        &mut self,
        name: &str,
        inputs: &[&str],
    ) -> Result<Result<Place, OutputFault>, AllocError>
        ensures done { IfOk result (λ found. done self.new ≡ done self.old ++ deeds.looked name.now (deeds.place_in found) ∷ []) }
        ensures refused { OnErr result (done self.new ≡ done self.old) }
        ensures same { disk self.new ≡ disk self.old };

    /// The pipe or the device of a name.
    ///
    /// # Errors
    ///
    /// If memory is refused.
    fn stream(&mut self, name: &str) -> Result<Result<Self::Made, OutputFault>, AllocError>
        ensures made { IfOk result (λ found. IfOk found (λ file. makes (disk self.new) name.now (Self.Made.contents file))) }
        ensures done { OnOk result (done self.new ≡ done self.old ++ deeds.opened name.now ∷ []) }
        ensures refused { OnErr result (done self.new ≡ done self.old) }
        ensures same { disk self.new ≡ disk self.old };

    /// A new and empty file of a name, which others may read unless it is private; none if the name is taken. It may be made to take the
    /// place of another one, its target.
    ///
    /// # Errors
    ///
    /// If memory is refused.
    fn create(
        &mut self,
        name: &str,
        target: Option<&str>,
        is_private: bool,
    ) -> Result<Result<Option<Self::Made>, OutputFault>, AllocError>
        ensures made { IfOk result (λ made. IfOk made (λ new. IfSome new (λ file.
            makes (disk self.new) name.now (Self.Made.contents file)))) }
        ensures taken { IfOk result (λ made. IfOk made (λ new. IfNone new (has (disk self.new) name.now))) }
        ensures done { IfOk result (λ made. done self.new ≡ done self.old
            ++ deeds.made_or_not name.now (option_map (λ name. name.now) target.entry) made ∷ []) }
        ensures refused { OnErr result (done self.new ≡ done self.old) }
        ensures same { disk self.new ≡ disk self.old };

    /// Puts the file that was made last, under one name, in the place of another, once the system keeps its bytes. It gets the rights, the
    /// owner and the group of the file that was there.
    fn put(&mut self, file: Self::Made, made: &str, name: &str) -> Result<(), OutputFault>
        ensures put { OnOk result (puts (disk self.new) made.now name.now) }
        ensures done { (before : List deeds.Deed) → done self.old ≡ before ++ deeds.made made.now (Some name.now) Stays ∷ [] →
            OnOk result (done self.new ≡ before ++ deeds.made made.now (Some name.now) Replaces ∷ []) }
        ensures failed { OnErr result (done self.new ≡ done self.old) }
        ensures same { disk self.new ≡ disk self.old };

    /// Removes the file that was made last, under a name.
    fn discard(&mut self, made: &str)
        ensures done { (before : List deeds.Deed) (target : Option (List ℕ)) →
            done self.old ≡ before ++ deeds.made made.now target Stays ∷ [] →
            done self.new ≡ before ++ deeds.made made.now target Removed ∷ [] }
        ensures same { disk self.new ≡ disk self.old };

    /// Why the file of a name wasn't read, which was opened last and of which no read failed, as far as that is known.
    fn why(&self, _name: &str) -> InputFault {
        InputFault::Failed
    }
}
