//! The reading of a C file, byte by byte, and the bytes of it that are the text of its annotations.

ghost use Rattle.std.specs.Prelude.{◌≡◌, ◌<◌, ◌≤◌, ◌+◌, ◌^◌, length, drop, take, IsTrue, MatchResult, OnOk, Ok, Err};
ghost use Rattle.flt_c.specs.Places as places;
ghost use Rattle.flt_c.specs.Runs as runs;
ghost use Rattle.flt_c.specs.Scan as spec;

use crate::fault::{Fault, FaultKind};
use crate::front::{
    Front, begins_directive, front_after_space, is_code, is_lenient, next_depth, next_front,
};
use crate::mode::{Mode, is_note, turn, unended};
use crate::place::{Place, further, past};

/// The state of reading.
#[derive(Clone, Copy)]
pub struct Scanner {
    pub mode: Mode,
    /// The beginning of the code of the line.
    pub front: Front,
    /// The number of open groups, counted from the skipped one on.
    pub depth: usize,
    /// The place of the next byte.
    pub at: Place,
    /// The place of the byte before, continuations left out.
    pub last: Place,
    /// Where the comment, string or character constant that is being read began.
    pub opened: Place,
    /// Where the directive began that began the skipped group, or that may begin one.
    pub group: Place,
    /// Whether the line continues another one by a continuation.
    pub joined: bool,
    /// Where the last annotation of the line began, if it has one.
    pub noted: Option<Place>,
}

/// Whether something begins at a byte, or began at the byte before.
#[derive(Clone, Copy)]
pub enum Opening {
    No,
    Here,
    Before,
}

/// Whether a mode begins something that has an end of its own.
fn opened_by(old: Mode, new: Mode) -> Opening
    ensures { result ≡ spec.opened_by old new }
{
    match new {
        Mode::LineMark(b'@') | Mode::BlockMark(b'@') => Opening::Before,
        Mode::String => match old {
            Mode::String | Mode::StringEscape => Opening::No,
            _ => Opening::Here,
        },
        Mode::Character => match old {
            Mode::Character | Mode::CharacterEscape => Opening::No,
            _ => Opening::Here,
        },
        _ => Opening::No,
    }
}

/// Notes where the part began that is read in a mode.
fn note_opening(s: &mut Scanner, new: Mode)
    ensures { s.new ≡ runs.with_opening s.old new }
{
    match opened_by(s.mode, new) {
        Opening::No => {}
        Opening::Here => s.opened = s.at,
        Opening::Before => s.opened = s.last,
    }
}

/// Takes a byte for the front of the line, and for the groups.
fn note_front(s: &mut Scanner, b: u8)
    requires { s.old.depth < 2 ^ 40 }
    ensures value { s.new ≡ runs.with_front_of s.old b }
    ensures deepens { s.new.depth ≤ s.old.depth + 1 }
{
    if is_code(s.mode) || b == b'\n' {
        let front = next_front(s.mode, s.front, b);
        if begins_directive(s.front, front) && s.depth == 0 {
            s.group = s.at;
        }
        s.depth = next_depth(s.mode, s.front, s.depth, b);
        s.front = front;
    }
}

/// The place at which a fault is reported: a raw string at its quote, a group at its directive, the others where their piece of the file
/// began.
pub(crate) fn blamed(s: &Scanner, kind: FaultKind) -> Fault
    ensures { result ≡ spec.blamed s.now kind }
{
    let place = match kind {
        FaultKind::RawString => s.at,
        FaultKind::Group => s.group,
        _ => s.opened,
    };
    Fault { kind, place }
}

/// Whether an annotation begins with this mode.
fn begins(s: &Scanner, mode: Mode) -> bool
    ensures { result ≡ spec.begins s.now mode }
{
    is_note(mode) && !is_note(s.mode)
}

/// Notes where the last annotation of the line began, after one more byte.
fn note_note(s: &mut Scanner, b: u8, mode: Mode)
    ensures { s.new ≡ runs.with_note s.old b mode }
{
    if b == b'\n' && !is_note(mode) {
        s.noted = None;
    } else if begins(s, mode) {
        s.noted = Some(s.opened);
    }
}

/// Takes a byte with which a mode begins or continues. After a fault the state is of no use.
fn go_on(s: &mut Scanner, b: u8, mode: Mode) -> Result<(), Fault>
    requires small { places.IsSmall s.old.at }
    requires flat { s.old.depth < 2 ^ 40 }
    ensures value { MatchResult result
        (λ _. spec.go_on s.old b mode ≡ Ok s.new)
        (λ fault. spec.go_on s.old b mode ≡ Err fault) }
    ensures moves { OnOk result (s.new.at ≡ places.past s.old.at b) }
    ensures deepens { OnOk result (s.new.depth ≤ s.old.depth + 1) }
{
    if begins(s, mode) && s.joined {
        return Err(blamed(s, FaultKind::Continued));
    }
    note_note(s, b, mode);
    note_opening(s, mode);
    note_front(s, b);
    s.joined = s.joined && b != b'\n';
    s.last = s.at;
    s.at = past(s.at, b);
    s.mode = mode;
    Ok(())
}

/// Takes one more byte.
pub(crate) fn step(s: &mut Scanner, b: u8) -> Result<(), Fault>
    requires small { places.IsSmall s.old.at }
    requires flat { s.old.depth < 2 ^ 40 }
    ensures value { MatchResult result
        (λ _. spec.step s.old b ≡ Ok s.new)
        (λ fault. spec.step s.old b ≡ Err fault) }
    ensures moves { OnOk result (s.new.at ≡ places.past s.old.at b) }
    ensures deepens { OnOk result (s.new.depth ≤ s.old.depth + 1) }
{
    match turn(is_lenient(s.front, s.depth), 0 < s.depth, s.mode, b) {
        Ok(mode) => go_on(s, b, mode),
        Err(kind) => Err(blamed(s, kind)),
    }
}

/// Takes a continuation of `n` bytes.
pub(crate) fn join(s: &mut Scanner, n: usize) -> Result<(), Fault>
    requires small { places.IsSmall s.old.at }
    requires short { n ≤ 3 }
    ensures value { MatchResult result
        (λ _. spec.join s.old n ≡ Ok s.new)
        (λ fault. spec.join s.old n ≡ Err fault) }
    ensures moves { OnOk result (s.new.at ≡ places.past_continuation s.old.at n) }
    ensures deepens { OnOk result (s.new.depth ≡ s.old.depth) }
{
    if is_note(s.mode) {
        return Err(blamed(s, FaultKind::Continued));
    }
    if let Some(place) = s.noted {
        return Err(Fault {
            kind: FaultKind::Continued,
            place,
        });
    }
    s.at = Place {
        line: s.at.line + 1,
        column: 1,
        start: s.at.start + n,
    };
    s.joined = true;
    Ok(())
}

/// Takes some plain bytes.
pub(crate) fn pass(s: &mut Scanner, n: usize)
    requires some { 0 < n }
    requires short { n < 2 ^ 40 }
    requires small { places.IsSmall s.old.at }
    ensures { s.new ≡ runs.passed s.old n }
{
    s.last = further(s.at, n - 1);
    s.at = further(s.at, n);
}

/// The number of bytes of the marker of an annotation in a line comment.
pub(crate) const MARKER: usize = 6;

/// Whether a text begins with this marker.
fn begins_marker(z: &[u8]) -> bool
    ensures value { result ≡ runs.begins_marker z.now }
    ensures within { IsTrue result → 6 ≤ length z.now }
{
    matches!(z, [b'/', b'/', b'@', b'f', b'l', b't', ..])
}

fn is_ordinary_code(mode: Mode) -> bool
    ensures { result ≡ runs.is_ordinary_code mode }
{
    matches!(mode, Mode::Code)
}

/// Whether a marker may come next: in code that a compiler reads, and in a line that continues no other.
fn may_take_marker(s: &Scanner) -> bool
    ensures { result ≡ runs.may_take_marker s.now }
{
    is_ordinary_code(s.mode) && s.depth == 0 && !s.joined
}

/// Whether this marker comes next.
pub(crate) fn takes_marker(s: &Scanner, z: &[u8]) -> bool
    ensures value { result ≡ runs.takes_marker s.now z.now }
    ensures within { IsTrue result → 6 ≤ length z.now }
{
    may_take_marker(s) && begins_marker(z)
}

/// Takes this marker.
pub(crate) fn take_marker(s: &mut Scanner)
    requires { places.IsSmall s.old.at }
    ensures { s.new ≡ runs.marked s.old }
{
    s.mode = Mode::LineMarked;
    s.front = front_after_space(s.front);
    s.opened = s.at;
    s.noted = Some(s.at);
    s.last = further(s.at, MARKER - 1);
    s.at = further(s.at, MARKER);
}

/// The number of bytes of the line continuation at the start of a text, or 0.
pub(crate) fn continuation(z: &[u8]) -> usize
    ensures value { result ≡ spec.continuation z.now }
    ensures within { result ≤ length z.now }
    ensures short { result ≤ 3 }
{
    match z {
        [b'\\', b'\n', ..] => 2,
        [b'\\', b'\r', b'\n', ..] => 3,
        _ => 0,
    }
}

/// The bytes after the first `n`.
#[inline(always)]
pub(crate) fn after(z: &[u8], n: usize) -> &[u8]
    requires { n ≤ length z.now }
    ensures { result.now ≡ drop n z.now }
{
    &z[n..]
}

/// The first `n` bytes.
#[inline(always)]
pub(crate) fn before(z: &[u8], n: usize) -> &[u8]
    requires { n ≤ length z.now }
    ensures { result.now ≡ take n z.now }
{
    &z[..n]
}

/// The fault of an end of the file here: something isn't closed.
pub(crate) fn open_at_end(s: &Scanner) -> Option<FaultKind>
    ensures { result ≡ spec.open_at_end s.now }
{
    match unended(is_lenient(s.front, s.depth), s.mode) {
        Some(kind) => Some(kind),
        None => {
            if 0 < s.depth {
                Some(FaultKind::Group)
            } else {
                None
            }
        }
    }
}

/// The state in which reading begins.
pub(crate) fn start() -> Scanner
    ensures { result ≡ spec.start }
{
    let first = Place {
        line: 1,
        column: 1,
        start: 0,
    };
    Scanner {
        mode: Mode::Code,
        front: Front::Nothing,
        depth: 0,
        at: first,
        last: first,
        opened: first,
        group: first,
        joined: false,
        noted: None,
    }
}
