//! The system that the program runs on: its files by their paths, and its standard input.

ghost use Rattle.std.specs.Prelude.{◌≡◌, []};

use crate::deeds::{Act, Deeds, Fate};
use crate::inputs::{is_standard, read_within};
use crate::system::{Place, Reader, System};
use crate::unread::InputFault;
use crate::unwritten::OutputFault;
use flt_model::ReadFault;
use std::alloc::AllocError;
use std::cell::Cell;
use std::cmp::min;
use std::fs::{self, File, Metadata, OpenOptions};
use std::io::{Read, Stdin, Write};
use std::os::unix::fs::{MetadataExt, OpenOptionsExt, fchown};
use std::{io, str};

/// A file or a stream of the system that is read, with a count of its failures and the reason of the last one.
#[derive(Drop)]
pub struct CountedReader<R: Read + Drop> {
    inner: R,
    failures: u64,
    fault: Option<io::Error>,
}

impl<R: Read + Drop> CountedReader<R> {
    /// A reader without failures.
    pub fn new(inner: R) -> CountedReader<R>
        ensures inner { result.inner ≡ inner }
        ensures fine { result.failures ≡ 0 }
    {
        CountedReader {
            inner,
            failures: 0,
            fault: None,
        }
    }

    /// Why the last read failed that did; none if none did.
    pub fn fault(&self) -> Option<io::Error> {
        self.fault
    }
}

impl<R: Read + Drop> Reader for CountedReader<R> {
    ghost left = { λ r. R.remaining r.inner };

    ghost failures = { λ r. r.failures };

    fn take(&mut self, buffer: &mut [u8]) -> Result<usize, ReadFault> {
        match self.inner.read(buffer) {
            Ok(n) => Ok(n),
            Err(fault) => {
                self.fault = Some(fault);
                self.failures = self.failures.wrapping_add(1);
                Err(ReadFault)
            }
        }
    }

    fn why(&self) -> Option<InputFault> {
        match &self.fault {
            Some(fault) => Some(InputFault::of(fault)),
            None => None,
        }
    }
}

/// A file that isn't opened: a folder was named for its texts, and this isn't one.
#[derive(Drop)]
pub struct BarredFile {
    /// Its path, with U+FFFD for bytes that aren't UTF-8.
    pub path: String,
    /// Why it isn't opened.
    pub why: InputFault,
}

/// A file of the system that is written, up to the size that the system allows. Past that a write fails; the system would end the program
/// by a signal there.
#[derive(Drop)]
pub struct BoundedFile {
    file: File,
    /// The number of bytes that it may still take.
    room: u64,
}

impl Write for BoundedFile {
    fn write(&mut self, buf: &[u8]) -> io::Result<usize> {
        if buf.is_empty() {
            return Ok(0);
        }
        let room = usize::try_from(self.room).unwrap_or(usize::MAX);
        if room == 0 {
            return Err(io::Error::from(io::ErrorKind::FileTooLarge));
        }
        let count = self.file.write(&buf[..min(room, buf.len())])?;
        self.room = self.room.saturating_sub(count as u64);
        Ok(count)
    }

    fn flush(&mut self) -> io::Result<()> {
        self.file.flush()
    }
}

/// The system that the program runs on: its files by their paths, and the standard input.
#[derive(Drop)]
pub struct HostSystem<'a> {
    rt: &'a HostRuntime,
    /// The files that aren't opened, whatever there is under their paths.
    barred: &'a [BarredFile],
    /// Why the last file couldn't be opened, if it couldn't.
    fault: Cell<Option<InputFault>>,
    /// Its deeds.
    deeds: Deeds,
}

impl System for HostSystem<'_> {
    type File = CountedReader<File>;

    type Input = CountedReader<Stdin>;

    type Made = BoundedFile;

    ghost use Rattle.std.specs.Prelude.{⊤};
    ghost use Rattle.flt_files.specs.Deeds.{deeds_in};
    ghost use Rattle.flt_files.specs.System.{Unknown, Unsaid, Unseen};

    ghost disk = { λ _. 0 };

    ghost done = { λ host. deeds_in host.deeds };

    // Nothing is known of what its files hold, of which there are, and of when a read fails.
    ghost holds = { λ _. Unknown };

    ghost lacks = { λ _. Unsaid };

    ghost has = { λ _. Unsaid };

    ghost fails = { λ _. ⊤ };

    ghost makes = { λ _. Unknown };

    ghost puts = { λ _. Unseen };

    fn open(&self, name: &str) -> Option<CountedReader<File>> {
        if let Some(why) = why_barred(self.barred, name) {
            self.fault.set(Some(why));
            return None;
        }
        match fs::open(self.rt, name) {
            Ok(file) => {
                self.fault.set(None);
                Some(CountedReader::new(file))
            }
            Err(fault) => {
                self.fault.set(Some(InputFault::of(&fault)));
                None
            }
        }
    }

    fn input(&self) -> CountedReader<Stdin> {
        self.fault.set(None);
        CountedReader::new(self.rt.stdin())
    }

    fn place(
        &mut self,
        name: &str,
        inputs: &[&str],
    ) -> Result<Result<Place, OutputFault>, AllocError> {
        self.deeds
            .add(self.rt.alloc(), name, None, Act::Looked(None))?;
        match self.place_of(name, inputs) {
            Ok(place) => {
                self.deeds.settle(Act::Looked(Some(place)));
                Ok(Ok(place))
            }
            Err(why) => Ok(Err(why)),
        }
    }

    fn stream(&mut self, name: &str) -> Result<Result<BoundedFile, OutputFault>, AllocError> {
        self.deeds.add(self.rt.alloc(), name, None, Act::Opened)?;
        match self.open_to_write(name) {
            Ok(file) => Ok(Ok(BoundedFile {
                file,
                room: u64::MAX,
            })),
            Err(why) => Ok(Err(why)),
        }
    }

    fn create(
        &mut self,
        name: &str,
        target: Option<&str>,
        is_private: bool,
    ) -> Result<Result<Option<BoundedFile>, OutputFault>, AllocError> {
        let room = size_limit(self.rt)?;
        self.deeds.add(self.rt.alloc(), name, target, Act::NotMade)?;
        match self.new_file(name, is_private) {
            Ok(Some(file)) => {
                self.deeds.settle(Act::Made(Fate::Stays));
                Ok(Ok(Some(BoundedFile { file, room })))
            }
            Ok(None) => Ok(Ok(None)),
            Err(why) => Ok(Err(why)),
        }
    }

    fn put(&mut self, file: BoundedFile, made: &str, name: &str) -> Result<(), OutputFault> {
        match self.try_put(&file.file, made, name) {
            Ok(()) => {
                self.deeds.settle(Act::Made(Fate::Replaces));
                Ok(())
            }
            Err(fault) => Err(OutputFault::Refused(fault)),
        }
    }

    fn discard(&mut self, made: &str) {
        self.deeds.settle(Act::Made(Fate::Removed));
        let _ = fs::remove_file(self.rt, made);
    }

    fn why(&self, name: &str) -> InputFault {
        match self.fault.get() {
            Some(fault) => fault,
            None => self.why_long(name),
        }
    }
}

impl<'a> HostSystem<'a> {
    /// The system of a runtime, without these files.
    pub fn new(rt: &'a HostRuntime, barred: &'a [BarredFile]) -> HostSystem<'a>
        ensures { result.deeds.each.items ≡ [] }
    {
        HostSystem {
            rt,
            barred,
            fault: Cell::new(None),
            deeds: Deeds::new(rt.alloc()),
        }
    }

    /// Its deeds, one after the other.
    pub fn into_deeds(self) -> Deeds
        ensures { result ≡ self.entry.deeds }
    {
        self.deeds
    }
}

impl HostSystem<'_> {
    /// Why the file of a name isn't read, of which no call failed.
    fn why_long(&self, name: &str) -> InputFault {
        match fs::metadata(self.rt, path_of(name)) {
            Ok(found) if found.is_file() => InputFault::TooLong,
            _ => InputFault::Endless,
        }
    }

    /// The place of a name, if it may be written.
    fn place_of(&self, name: &str, inputs: &[&str]) -> Result<Place, OutputFault> {
        match fs::symlink_metadata(self.rt, name) {
            Ok(found) if found.is_symlink() => self.place_led_to(name),
            Ok(found) if found.is_dir() => Err(OutputFault::Folder),
            Ok(found) if !found.is_file() => Ok(Place::Stream),
            Ok(found) if self.is_among(&found, inputs) => Err(OutputFault::Input),
            Ok(_) => self.place_of_file(name),
            Err(fault) if fault.kind() == io::ErrorKind::NotFound => Ok(Place::Free),
            Err(fault) => Err(OutputFault::Refused(fault)),
        }
    }

    /// A new and empty file of a name; none if the name is taken.
    fn new_file(&self, name: &str, is_private: bool) -> Result<Option<File>, OutputFault> {
        let rights = if is_private { PRIVATE } else { COMMON };
        match OpenOptions::new()
            .write(true)
            .create_new(true)
            .mode(rights)
            .open(self.rt, name)
        {
            Ok(file) => Ok(Some(file)),
            Err(fault) if fault.kind() == io::ErrorKind::AlreadyExists => Ok(None),
            Err(fault) => Err(OutputFault::Refused(fault)),
        }
    }

    /// The place to which a symbolic link leads, if that isn't a file or a folder. A process names its own streams by such links.
    fn place_led_to(&self, name: &str) -> Result<Place, OutputFault> {
        match fs::metadata(self.rt, name) {
            Ok(found) if !found.is_file() && !found.is_dir() => Ok(Place::Stream),
            _ => Err(OutputFault::Link),
        }
    }

    /// The place of a regular file, if it may be written.
    fn place_of_file(&self, name: &str) -> Result<Place, OutputFault> {
        self.open_to_write(name)?;
        Ok(Place::File)
    }

    /// The file of a name, opened for writing as it is.
    fn open_to_write(&self, name: &str) -> Result<File, OutputFault> {
        match OpenOptions::new().write(true).open(self.rt, name) {
            Ok(file) => Ok(file),
            Err(fault) => Err(OutputFault::Refused(fault)),
        }
    }

    /// Whether a file is one of those of these names.
    fn is_among(&self, found: &Metadata, names: &[&str]) -> bool {
        for name in names {
            if self.is_of(found, name) {
                return true;
            }
        }
        false
    }

    /// Whether a file is that of a name, or that of the standard input.
    fn is_of(&self, found: &Metadata, name: &str) -> bool {
        match fs::metadata(self.rt, path_of(name)) {
            Ok(other) => found.dev() == other.dev() && found.ino() == other.ino(),
            Err(_) => false,
        }
    }

    /// Puts a file that was made under one name in the place of another, with the owner, the group and the rights of the file that was there.
    fn try_put(&self, file: &File, made: &str, name: &str) -> io::Result<()> {
        if let Ok(found) = fs::symlink_metadata(self.rt, name) {
            if found.is_file() {
                take_owner(file, &found)?;
                file.set_permissions(found.permissions())?;
            }
        }
        file.sync_all()?;
        fs::rename(self.rt, made, name)
    }
}

/// Where the system says how great a file of this process may become, in a line that begins so.
const LIMITS: &str = "/proc/self/limits";

const SIZE_LIMIT: &[u8] = b"Max file size";

/// The greatest number of bytes of a file of this process, as far as the system says one.
fn size_limit(rt: &HostRuntime) -> Result<u64, AllocError> {
    let Ok(file) = fs::open(rt, LIMITS) else {
        return Ok(u64::MAX);
    };
    let mut file = CountedReader::new(file);
    let Some(limits) = read_within(rt.alloc(), &mut file)? else {
        return Ok(u64::MAX);
    };
    for line in limits.as_slice().split(|byte| *byte == b'\n') {
        if let Some(rest) = line.strip_prefix(SIZE_LIMIT) {
            return Ok(first_number(rest).unwrap_or(u64::MAX));
        }
    }
    Ok(u64::MAX)
}

/// The number in a line, if one is its first word.
fn first_number(line: &[u8]) -> Option<u64> {
    let words = str::from_utf8(line).ok()?;
    let word = words.trim_start().split(' ').next()?;
    word.parse().ok()
}

/// The rights of a new file that only its owner may read and write.
const PRIVATE: u32 = 0o600;

/// Those of another one, of which the system takes what the user's mask has.
const COMMON: u32 = 0o666;

/// Gives a file the owner and the group of another one.
fn take_owner(file: &File, found: &Metadata) -> io::Result<()> {
    let own = file.metadata()?;
    if own.uid() == found.uid() && own.gid() == found.gid() {
        return Ok(());
    }
    fchown(file, Some(found.uid()), Some(found.gid()))
}

/// Why a file isn't opened, if it is one of those that aren't.
fn why_barred(barred: &[BarredFile], path: &str) -> Option<InputFault> {
    for file in barred {
        if file.path.as_str() == path {
            return Some(file.why);
        }
    }
    None
}

/// The path of an input. The standard input is a file by this one.
fn path_of(name: &str) -> &str {
    if is_standard(name) {
        "/dev/stdin"
    } else {
        name
    }
}
