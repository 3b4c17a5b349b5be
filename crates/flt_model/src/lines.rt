//! The lines of a journal, read byte by byte.

ghost use Rattle.std.specs.List.{starts_with};
ghost use Rattle.std.specs.Prelude.{◌≡◌, ◌≤◌, ◌+◌, ◌∷◌, ◌++◌, [], length, nat_eq, find, IfSome};
ghost use Rattle.flt_rules.specs.Place.{all_operations};
ghost use Rattle.flt_model.specs.JournalText.{operation_text, longest_operation, longest_move};
ghost use Rattle.flt_model.specs.JournalTextReading as spec;

use crate::moves::{JournalEntry, Key, Move};
use crate::scanner::{Stop, byte, exactly, number};
use crate::streams::Source;
use flt_rules::{Mode, Operation};

/// Whether an operation's name and a blank begin with some bytes and another one.
fn begins(operation: Operation, front: &[u8], next: u8) -> bool
    ensures { result ≡ starts_with nat_eq (operation_text operation) (front.now ++ next ∷ []) }
{
    match operation.name().as_bytes().strip_prefix(front) {
        Some([byte, ..]) => next == *byte,
        Some([]) => next == b' ',
        None => false,
    }
}

/// The first operation whose name and a blank begin with some bytes and another one.
fn begun(front: &[u8], next: u8) -> Option<Operation>
    ensures { result ≡ spec.begun (front.now ++ next ∷ []) }
{
    Operation::all()
        .iter()
        .copied()
        .find(|operation| begins(*operation, front, next))
}

/// An operation and the blank after it, byte by byte.
#[cold]
#[inline(never)]
#[tactic(auto, unfolding(crate::specs::JournalTextReading::operation))]
fn operation_by_bytes<R: Source>(reader: &mut R) -> Result<Operation, Stop>
    ensures read { spec.Reads (spec.operation (R.coming reader.old)) result (R.coming reader.new) }
    ensures fails { spec.Counts result (R.failures reader.old) (R.failures reader.new) }
    ensures reads { R.reads reader.new ≤ R.reads reader.old + longest_operation }
{
    let mut front: &[u8] = &[];
    loop {
        let next = byte(reader)?;
        let Some(operation) = begun(front, next) else {
            return Err(Stop::Wrong);
        };
        let name = operation.name().as_bytes();
        if front.len() == name.len() {
            return Ok(operation);
        }
        front = &name[..front.len() + 1];
    }
}

/// Whether some bytes begin with an operation's name and a blank.
#[inline(always)]
fn is_spelled(operation: Operation, bytes: &[u8]) -> bool
    ensures { result ≡ starts_with nat_eq bytes.now (operation_text operation) }
{
    matches!(
        bytes.strip_prefix(operation.name().as_bytes()),
        Some([b' ', ..])
    )
}

/// The operation with whose name and a blank some bytes begin.
#[inline(always)]
fn spelled(bytes: &[u8]) -> Option<Operation>
    ensures { result ≡ find (λ kind. starts_with nat_eq bytes.now (operation_text kind)) all_operations }
{
    Operation::all()
        .iter()
        .copied()
        .find(|operation| is_spelled(*operation, bytes))
}

/// This operation, and the number of bytes of its name and the blank. None if they are cut off or malformed.
#[inline(always)]
fn operation_in(bytes: &[u8]) -> Option<(Operation, usize)>
    ensures { IfSome result (λ q. spec.IsOperationIn bytes.now q.0 q.1) }
{
    let operation = spelled(bytes)?;
    Some((operation, operation.name().len() + 1))
}

/// The same, from the bytes at hand if they suffice.
#[inline(always)]
fn operation<R: Source>(reader: &mut R) -> Result<Operation, Stop>
    ensures read { spec.Reads (spec.operation (R.coming reader.old)) result (R.coming reader.new) }
    ensures fails { spec.Counts result (R.failures reader.old) (R.failures reader.new) }
    ensures reads { R.reads reader.new ≤ R.reads reader.old + longest_operation }
{
    match operation_in(reader.ready()) {
        Some((operation, length)) => {
            reader.pass(length);
            Ok(operation)
        }
        None => operation_by_bytes(reader),
    }
}

#[tactic(auto, unfolding(crate::specs::JournalTextReading::mode))]
fn mode<R: Source>(reader: &mut R) -> Result<Mode, Stop>
    ensures read { spec.Reads (spec.mode (R.coming reader.old)) result (R.coming reader.new) }
    ensures fails { spec.Counts result (R.failures reader.old) (R.failures reader.new) }
    ensures reads { R.reads reader.new ≤ R.reads reader.old + 5 }
{
    match byte(reader)? {
        b'i' => {
            exactly(reader, b"rp ")?;
            Ok(Mode::Irp)
        }
        b'f' => {
            exactly(reader, b"ast ")?;
            Ok(Mode::Fast)
        }
        _ => Err(Stop::Wrong),
    }
}

/// A key, up to the end of the line.
#[tactic(auto, unfolding(crate::specs::JournalTextReading::key))]
fn key<R: Source>(reader: &mut R) -> Result<Key, Stop>
    ensures read { spec.Reads (spec.key (R.coming reader.old)) result (R.coming reader.new) }
    ensures fails { spec.Counts result (R.failures reader.old) (R.failures reader.new) }
    ensures reads { R.reads reader.new ≤ R.reads reader.old + 18 }
{
    match byte(reader)? {
        b's' => {
            exactly(reader, b"tream ")?;
            Ok(Key::Stream(number(reader, b'\n')?))
        }
        b'i' => {
            exactly(reader, b"nstance\n")?;
            Ok(Key::Instance)
        }
        _ => Err(Stop::Wrong),
    }
}

/// Whether it was granted, up to the end of the line.
#[tactic(auto, unfolding(crate::specs::JournalTextReading::grant))]
fn grant<R: Source>(reader: &mut R) -> Result<bool, Stop>
    ensures read { spec.Reads (spec.grant (R.coming reader.old)) result (R.coming reader.new) }
    ensures fails { spec.Counts result (R.failures reader.old) (R.failures reader.new) }
    ensures reads { R.reads reader.new ≤ R.reads reader.old + 4 }
{
    match byte(reader)? {
        b'y' => {
            exactly(reader, b"es\n")?;
            Ok(true)
        }
        b'n' => {
            exactly(reader, b"o\n")?;
            Ok(false)
        }
        _ => Err(Stop::Wrong),
    }
}

// Each line is read from its second byte on.

/// The rest of a word, and the number after it that ends the line.
#[tactic(auto, unfolding(crate::specs::JournalTextReading::numbered))]
pub(crate) fn numbered<R: Source>(reader: &mut R, word: &[u8]) -> Result<u32, Stop>
    ensures read { spec.Reads (spec.numbered word.now (R.coming reader.old)) result (R.coming reader.new) }
    ensures fails { spec.Counts result (R.failures reader.old) (R.failures reader.new) }
    ensures reads { R.reads reader.new ≤ R.reads reader.old + (length word.now + 11) }
{
    exactly(reader, word)?;
    number(reader, b'\n')
}

/// The rest of a word, and two numbers after it that end the line.
#[tactic(auto, unfolding(crate::specs::JournalTextReading::twice_numbered))]
fn twice_numbered<R: Source>(reader: &mut R, word: &[u8]) -> Result<(u32, u32), Stop>
    ensures read { spec.Reads (spec.twice_numbered word.now (R.coming reader.old)) result (R.coming reader.new) }
    ensures fails { spec.Counts result (R.failures reader.old) (R.failures reader.new) }
    ensures reads { R.reads reader.new ≤ R.reads reader.old + (length word.now + 22) }
{
    exactly(reader, word)?;
    let first = number(reader, b' ')?;
    let second = number(reader, b'\n')?;
    Ok((first, second))
}

#[tactic(auto, unfolding(crate::specs::JournalTextReading::arrive))]
fn arrive<R: Source>(reader: &mut R) -> Result<Move, Stop>
    ensures read { spec.Reads (spec.arrive (R.coming reader.old)) result (R.coming reader.new) }
    ensures fails { spec.Counts result (R.failures reader.old) (R.failures reader.new) }
    ensures reads { R.reads reader.new ≤ R.reads reader.old + (22 + longest_operation) }
{
    exactly(reader, b"rrive ")?;
    let operation = operation(reader)?;
    let mode = mode(reader)?;
    let file = number(reader, b'\n')?;
    Ok(Move::Arrive {
        operation,
        mode,
        file,
    })
}

#[tactic(auto, unfolding(crate::specs::JournalTextReading::pre_or_post))]
fn pre_or_post<R: Source>(reader: &mut R) -> Result<Move, Stop>
    ensures read { spec.Reads (spec.pre_or_post (R.coming reader.old)) result (R.coming reader.new) }
    ensures fails { spec.Counts result (R.failures reader.old) (R.failures reader.new) }
    ensures reads { R.reads reader.new ≤ R.reads reader.old + 15 }
{
    match byte(reader)? {
        b'r' => {
            let serial = numbered(reader, b"e ")?;
            Ok(Move::Pre { serial })
        }
        b'o' => {
            let serial = numbered(reader, b"st ")?;
            Ok(Move::Post { serial })
        }
        _ => Err(Stop::Wrong),
    }
}

#[tactic(auto, unfolding(crate::specs::JournalTextReading::cancel_or_canceled))]
fn cancel_or_canceled<R: Source>(reader: &mut R) -> Result<Move, Stop>
    ensures read { spec.Reads (spec.cancel_or_canceled (R.coming reader.old)) result (R.coming reader.new) }
    ensures fails { spec.Counts result (R.failures reader.old) (R.failures reader.new) }
    ensures reads { R.reads reader.new ≤ R.reads reader.old + 30 }
{
    exactly(reader, b"ancel")?;
    match byte(reader)? {
        b' ' => {
            let serial = number(reader, b'\n')?;
            Ok(Move::Cancel { serial })
        }
        b'e' => {
            let (altitude, serial) = twice_numbered(reader, b"d ")?;
            Ok(Move::Canceled { altitude, serial })
        }
        _ => Err(Stop::Wrong),
    }
}

/// From the third byte on.
#[tactic(auto, unfolding(crate::specs::JournalTextReading::detach_or_detached))]
fn detach_or_detached<R: Source>(reader: &mut R) -> Result<Move, Stop>
    ensures read { spec.Reads (spec.detach_or_detached (R.coming reader.old)) result (R.coming reader.new) }
    ensures fails { spec.Counts result (R.failures reader.old) (R.failures reader.new) }
    ensures reads { R.reads reader.new ≤ R.reads reader.old + 18 }
{
    exactly(reader, b"tach")?;
    match byte(reader)? {
        b' ' => {
            let altitude = number(reader, b'\n')?;
            Ok(Move::Detach { altitude })
        }
        b'e' => {
            let altitude = numbered(reader, b"d ")?;
            Ok(Move::Detached { altitude })
        }
        _ => Err(Stop::Wrong),
    }
}

#[tactic(auto, unfolding(crate::specs::JournalTextReading::detach_or_drain))]
fn detach_or_drain<R: Source>(reader: &mut R) -> Result<Move, Stop>
    ensures read { spec.Reads (spec.detach_or_drain (R.coming reader.old)) result (R.coming reader.new) }
    ensures fails { spec.Counts result (R.failures reader.old) (R.failures reader.new) }
    ensures reads { R.reads reader.new ≤ R.reads reader.old + 27 }
{
    match byte(reader)? {
        b'e' => detach_or_detached(reader),
        b'r' => {
            let (altitude, serial) = twice_numbered(reader, b"ain ")?;
            Ok(Move::Drain { altitude, serial })
        }
        _ => Err(Stop::Wrong),
    }
}

#[tactic(auto, unfolding(crate::specs::JournalTextReading::unlink))]
fn unlink<R: Source>(reader: &mut R) -> Result<Move, Stop>
    ensures read { spec.Reads (spec.unlink (R.coming reader.old)) result (R.coming reader.new) }
    ensures fails { spec.Counts result (R.failures reader.old) (R.failures reader.new) }
    ensures reads { R.reads reader.new ≤ R.reads reader.old + 35 }
{
    exactly(reader, b"nlink ")?;
    let altitude = number(reader, b' ')?;
    let key = key(reader)?;
    Ok(Move::Unlink { altitude, key })
}

#[tactic(auto, unfolding(crate::specs::JournalTextReading::go))]
fn go<R: Source>(reader: &mut R) -> Result<JournalEntry, Stop>
    ensures read { spec.Reads (spec.go (R.coming reader.old)) result (R.coming reader.new) }
    ensures fails { spec.Counts result (R.failures reader.old) (R.failures reader.new) }
    ensures reads { R.reads reader.new ≤ R.reads reader.old + 28 }
{
    exactly(reader, b"o ")?;
    let activation = number(reader, b' ')?;
    let steps = number(reader, b' ')?;
    let grant = grant(reader)?;
    Ok(JournalEntry::Go {
        activation,
        steps,
        grant,
    })
}

/// A move's line that begins with this byte.
#[tactic(auto, unfolding(crate::specs::JournalTextReading::move_by))]
pub(crate) fn move_by<R: Source>(reader: &mut R, first: u8) -> Result<Move, Stop>
    ensures read { spec.Reads (spec.move_by first (R.coming reader.old)) result (R.coming reader.new) }
    ensures fails { spec.Counts result (R.failures reader.old) (R.failures reader.new) }
    ensures reads { R.reads reader.new ≤ R.reads reader.old + longest_move }
{
    match first {
        b'a' => arrive(reader),
        b'p' => pre_or_post(reader),
        b's' => {
            let serial = numbered(reader, b"kip ")?;
            Ok(Move::Skip { serial })
        }
        b'l' => {
            let serial = numbered(reader, b"ower ")?;
            Ok(Move::Lower { serial })
        }
        b'c' => cancel_or_canceled(reader),
        b'w' => {
            let item = numbered(reader, b"ork ")?;
            Ok(Move::Work { item })
        }
        b'd' => detach_or_drain(reader),
        b'u' => unlink(reader),
        _ => Err(Stop::Wrong),
    }
}

/// The line of an entry, or the last line.
#[tactic(auto, unfolding(crate::specs::JournalTextReading::line))]
pub(crate) fn line<R: Source>(reader: &mut R) -> Result<Option<JournalEntry>, Stop>
    ensures read { spec.Reads (spec.line (R.coming reader.old)) result (R.coming reader.new) }
    ensures fails { spec.Counts result (R.failures reader.old) (R.failures reader.new) }
    ensures reads { R.reads reader.new ≤ R.reads reader.old + (longest_move + 1) }
{
    match byte(reader)? {
        b'e' => {
            exactly(reader, b"nd\n")?;
            Ok(None)
        }
        b'g' => Ok(Some(go(reader)?)),
        first => Ok(Some(JournalEntry::Move(move_by(reader, first)?))),
    }
}
