//! The things that are wanted at a place of a line.

use flt_rules::Operation;
use std::alloc::{AllocError, Global};
use std::fmt;

/// A thing that is wanted at a place of a line.
#[derive(Clone, Copy)]
pub(crate) enum Expectation {
    // Of all.
    /// The first line.
    FirstLine(&'static str),
    Blank,
    LineEnd,
    LineFeed,
    /// A line feed without a carriage return before it.
    NoReturn,
    /// The end of the input.
    Nothing,
    /// The last line.
    End,
    // Of certificates.
    /// The first line, of either format.
    Format,
    /// The first line of the callback of a number, or the last line.
    Callback(usize),
    /// The number of a callback or of a point.
    Number(usize),
    /// The number of a point that comes later, from one to another.
    Rising(usize, usize),
    /// A point that comes later, the first line of the callback of a number, or the last line.
    PointOr(usize),
    /// A point that comes later, or the last line.
    PointOrEnd,
    Count,
    /// The digit of the first variable, or that the point isn't reached.
    State,
    Status(&'static str),
    Modes,
    Draining,
    Locks,
    OtherLock,
    LockEnd,
    // Of journals.
    Entry,
    Operation,
    Mode,
    Key,
    Answer,
    AnyNumber,
    // Of scripts.
    Command,
    /// The mode of an operation that comes in no other.
    Packet,
    File,
    Serial,
    /// The altitude of a filter of the stack.
    LoadedAltitude,
    /// One that isn't detached yet.
    OtherAltitude,
}

const ENTRIES: [&[u8]; 14] = [
    b"arrive",
    b"pre",
    b"skip",
    b"lower",
    b"post",
    b"cancel",
    b"canceled",
    b"work",
    b"detach",
    b"detached",
    b"drain",
    b"unlink",
    b"go",
    b"end",
];

const MODES: [&[u8]; 2] = [b"irp", b"fast"];

const PACKET: [&[u8]; 1] = [b"irp"];

const COMMANDS: [&[u8]; 4] = [b"arrive", b"cancel", b"detach", b"refuse"];

const KEYS: [&[u8]; 2] = [b"stream", b"instance"];

const ANSWERS: [&[u8]; 2] = [b"yes", b"no"];

impl Expectation {
    /// One byte is wanted.
    pub(crate) fn is_byte(self) -> bool {
        matches!(
            self,
            Expectation::State
                | Expectation::Status(_)
                | Expectation::Modes
                | Expectation::Draining
                | Expectation::Locks
                | Expectation::OtherLock
                | Expectation::LockEnd
        )
    }

    /// The whole line is wanted.
    pub(crate) fn is_line(self) -> bool {
        matches!(
            self,
            Expectation::FirstLine(_)
                | Expectation::Format
                | Expectation::Nothing
                | Expectation::End
                | Expectation::LineEnd
        )
    }

    /// The legal words, if one of few is wanted.
    pub(crate) fn words(self) -> &'static [&'static [u8]] {
        match self {
            Expectation::Entry => &ENTRIES,
            Expectation::Operation => Operation::names(),
            Expectation::Mode => &MODES,
            Expectation::Key => &KEYS,
            Expectation::Answer => &ANSWERS,
            Expectation::Packet => &PACKET,
            Expectation::Command => &COMMANDS,
            _ => &[],
        }
    }

    /// How to fix a malformed place where this is wanted.
    pub(crate) fn help(self, alloc: Global) -> Result<String, AllocError> {
        let mut help = String::from_str(alloc, self.subject())?;
        help.push_str(self.advice())?;
        Ok(help)
    }

    /// The operations with which that begins.
    fn subject(self) -> &'static str {
        match self {
            Expectation::Packet => Operation::always_irp_named(),
            _ => "",
        }
    }

    /// The rest of that.
    fn advice(self) -> &'static str {
        match self {
            Expectation::FirstLine(_) | Expectation::Format =>
                "the first line says which format follows, and in which version",
            Expectation::Blank => "one blank separates fields",
            Expectation::LineEnd => "nothing follows the last field of a line, not even a blank",
            Expectation::LineFeed => "each line ends in a line feed, the last one too",
            Expectation::NoReturn =>
                "`sed -i 's/\\r$//' FILE` leaves LF alone at the end of each line",
            Expectation::Nothing => "nothing follows the line `end`, not even an empty line",
            Expectation::End =>
                "a certificate has 16 callbacks, and a journal 1,000,000 entries at most",
            Expectation::Callback(0) =>
                "the second line is `callback 0 POINTS`, and the lines of its points follow",
            Expectation::Callback(_) =>
                "the points of a callback are followed by the next callback, `callback NUMBER POINTS`, or `end`",
            Expectation::Number(_) | Expectation::Rising(_, _) =>
                "callbacks and the points of each count from 0, without leading zeros; after `fltcert 2` later points may be left out, and the others rise",
            Expectation::PointOr(_) | Expectation::PointOrEnd =>
                "a point is followed by one with a greater number, the next callback, `callback NUMBER POINTS`, or `end`",
            Expectation::Count =>
                "the line of a callback ends with how many points it has, 1 to 512; after `fltcert 1` as many lines follow",
            Expectation::State | Expectation::Status(_) =>
                "a point's number is followed by `!` if the point isn't reached, else by a digit for each variable: NULL 1, held 2 and stale 4, added",
            Expectation::Modes => "the third field is the modes: IRP 1 and fast I/O 2, added",
            Expectation::Draining =>
                "the fourth field is draining: not draining 1 and draining 2, added",
            Expectation::Locks | Expectation::OtherLock | Expectation::LockEnd =>
                "the last field has the locks that are held, the oldest first, each once, as `0,1s` (`s` for a shared one), or `-` for none",
            Expectation::Entry =>
                "an entry begins with `arrive`, `pre`, `skip`, `lower`, `post`, `cancel`, `canceled`, `work`, `detach`, `drain`, `unlink`, `detached` or `go`",
            Expectation::Operation | Expectation::Mode =>
                "what arrives: `arrive OPERATION MODE FILE`",
            Expectation::Key =>
                "an unlinking: `unlink ALTITUDE stream FILE` or `unlink ALTITUDE instance`",
            Expectation::Answer => "what the system answered: `go ACTIVATION STEPS yes` or `no`",
            Expectation::AnyNumber => "a number is decimal, without leading zeros, and below 2^32",
            Expectation::Command =>
                "each line of a script is `arrive OPERATION MODE FILE`, `cancel SERIAL`, `detach ALTITUDE` or `refuse NUMBER`; no line is empty, none is a comment, and there is no `end`",
            Expectation::Packet => " come as I/O request packets alone: `irp`",
            Expectation::File => "files are numbered from 0, in decimal, without leading zeros",
            Expectation::Serial =>
                "operations are numbered from 0 in the order of their arrival, in decimal, without leading zeros",
            Expectation::LoadedAltitude =>
                "a script detaches filters of its stack alone: here those of the texts that parse",
            Expectation::OtherAltitude => "a script detaches each filter once at most",
        }
    }
}

impl fmt::Display for Expectation {
    fn fmt<W: fmt::Write>(&self, f: &mut fmt::Formatter<W>) -> fmt::Result {
        match self {
            Expectation::FirstLine(line) => write!(f, "`{line}`"),
            Expectation::Format => write!(f, "`fltcert 1` or `fltcert 2`"),
            Expectation::Blank => write!(f, "a blank"),
            Expectation::LineEnd => write!(f, "the end of the line"),
            Expectation::LineFeed | Expectation::NoReturn => write!(f, "a line feed"),
            Expectation::Nothing => write!(f, "nothing after `end`"),
            Expectation::End => write!(f, "`end`"),
            Expectation::Callback(0) => write!(f, "`callback 0`"),
            Expectation::Callback(number) => write!(f, "`callback {number}` or `end`"),
            Expectation::Number(number) => write!(f, "the number {number}"),
            Expectation::Rising(least, greatest) => write!(
                f,
                "a number from {least} to {greatest}"
            ),
            Expectation::PointOr(callback) => write!(f, "a point, `callback {callback}` or `end`"),
            Expectation::PointOrEnd => write!(f, "a point or `end`"),
            Expectation::Count => write!(f, "a number of points, 1 to 512"),
            Expectation::State => write!(f, "`!`, or the digit of `c0`, 1 to 7"),
            Expectation::Status(name) => write!(f, "the digit of `{name}`, 1 to 7"),
            Expectation::Modes => write!(f, "the digit of the modes, 1 to 3"),
            Expectation::Draining => write!(f, "the digit of draining, 1 to 3"),
            Expectation::Locks => write!(f, "`-`, or the number of a lock, 0 to 7"),
            Expectation::OtherLock => write!(f, "the number of another lock, 0 to 7"),
            Expectation::LockEnd => write!(f, "`,` or the end of the line"),
            Expectation::Entry => write!(f, "an entry or `end`"),
            Expectation::Operation => write!(f, "{}", Operation::any_named()),
            Expectation::Mode => write!(f, "`irp` or `fast`"),
            Expectation::Key => write!(f, "`stream` or `instance`"),
            Expectation::Answer => write!(f, "`yes` or `no`"),
            Expectation::AnyNumber => write!(f, "a number"),
            Expectation::Command => write!(f, "`arrive`, `cancel`, `detach` or `refuse`"),
            Expectation::Packet => write!(f, "`irp`"),
            Expectation::File => write!(f, "a number below 1,024"),
            Expectation::Serial => write!(f, "a number below 65,536"),
            Expectation::LoadedAltitude => write!(f, "the altitude of one of the filters"),
            Expectation::OtherAltitude => write!(f, "the altitude of another filter"),
        }
    }
}
