//! The text of journals.

ghost use Rattle.std.specs.Prelude.{◌≡◌, ◌≢◌, ◌+◌, ◌%◌, ◌++◌, OnOk, OnErr};
ghost use Rattle.std.specs.Fmt.{decimal};
ghost use Rattle.std.specs.Io.KnownBytes.{Appends};
ghost use Rattle.flt_model.specs.JournalText as spec;

use crate::journal::Journal;
use crate::moves::{JournalEntry, Key, Move};
use crate::streams::{Sink, WriteFault, put_all};
use flt_rules::{Mode, Operation};

#[tactic(auto, using(std::proofs::lemmas::Fmt::decimal_digit, std::proofs::lemmas::Fmt::decimal_step, crate::proofs::WritingSteps::two_parts))]
fn put_decimal<W: Sink>(writer: &mut W, number: u32) -> Result<(), WriteFault>
    ensures ok { OnOk result (Appends (W.taken writer.old) (W.taken writer.new) (decimal number)) }
    ensures fine { OnOk result (W.failures writer.new ≡ W.failures writer.old) }
    ensures err { OnErr result (W.failures writer.new ≢ W.failures writer.old) }
{
    let digit = b'0' + (number % 10) as u8;
    if number < 10 {
        return put_all(writer, &[digit]);
    }
    put_decimal(writer, number / 10)?;
    put_all(writer, &[digit])
}

/// The last digit of a number.
fn last_digit(number: u32) -> u8
    ensures { result ≡ 48 + number % 10 }
{
    b'0' + (number % 10) as u8
}

/// Writes a number, and a byte after it. Its last five digits are written at once.
fn put_number<W: Sink>(writer: &mut W, number: u32, end: u8) -> Result<(), WriteFault>
    ensures ok { OnOk result (Appends (W.taken writer.old) (W.taken writer.new) (spec.number_text number end)) }
    ensures fine { OnOk result (W.failures writer.new ≡ W.failures writer.old) }
    ensures err { OnErr result (W.failures writer.new ≢ W.failures writer.old) }
{
    let tens = number / 10;
    let a = last_digit(number);
    if tens == 0 {
        return put_all(writer, &[a, end]);
    }
    let hundreds = tens / 10;
    let b = last_digit(tens);
    if hundreds == 0 {
        return put_all(writer, &[b, a, end]);
    }
    let thousands = hundreds / 10;
    let c = last_digit(hundreds);
    if thousands == 0 {
        return put_all(writer, &[c, b, a, end]);
    }
    let others = thousands / 10;
    let d = last_digit(thousands);
    if others == 0 {
        return put_all(writer, &[d, c, b, a, end]);
    }
    let e = last_digit(others);
    if others < 10 {
        return put_all(writer, &[e, d, c, b, a, end]);
    }
    put_decimal(writer, others / 10)?;
    put_all(writer, &[e, d, c, b, a, end])
}

/// Writes a word, a number and a byte after it.
#[tactic(auto, using(crate::proofs::WritingSteps::two_parts))]
fn put_named<W: Sink>(writer: &mut W, word: &[u8], number: u32, end: u8) -> Result<(), WriteFault>
    ensures ok { OnOk result (Appends (W.taken writer.old) (W.taken writer.new) (word.now ++ spec.number_text number end)) }
    ensures fine { OnOk result (W.failures writer.new ≡ W.failures writer.old) }
    ensures err { OnErr result (W.failures writer.new ≢ W.failures writer.old) }
{
    put_all(writer, word)?;
    put_number(writer, number, end)
}

fn mode_text(mode: Mode) -> &'static [u8]
    ensures { result.now ≡ spec.mode_text mode }
{
    match mode {
        Mode::Irp => b"irp ",
        Mode::Fast => b"fast ",
    }
}

fn grant_text(grant: bool) -> &'static [u8]
    ensures { result.now ≡ spec.grant_text grant }
{
    if grant { b"yes\n" } else { b"no\n" }
}

/// Writes an operation and a blank.
#[tactic(auto, using(crate::proofs::WritingSteps::two_parts))]
fn put_operation<W: Sink>(writer: &mut W, operation: Operation) -> Result<(), WriteFault>
    ensures ok { OnOk result (Appends (W.taken writer.old) (W.taken writer.new) (spec.operation_text operation)) }
    ensures fine { OnOk result (W.failures writer.new ≡ W.failures writer.old) }
    ensures err { OnErr result (W.failures writer.new ≢ W.failures writer.old) }
{
    put_all(writer, operation.name().as_bytes())?;
    put_all(writer, b" ")
}

#[tactic(auto, using(crate::proofs::WritingSteps::three_parts))]
fn put_arrive<W: Sink>(
    writer: &mut W,
    operation: Operation,
    mode: Mode,
    file: u32,
) -> Result<(), WriteFault>
    ensures ok { OnOk result (Appends (W.taken writer.old) (W.taken writer.new) (spec.move_line (Move.Arrive operation mode file))) }
    ensures fine { OnOk result (W.failures writer.new ≡ W.failures writer.old) }
    ensures err { OnErr result (W.failures writer.new ≢ W.failures writer.old) }
{
    put_all(writer, b"arrive ")?;
    put_operation(writer, operation)?;
    put_named(writer, mode_text(mode), file, b'\n')
}

/// Writes a word and two numbers.
#[tactic(auto, using(crate::proofs::WritingSteps::three_parts))]
fn put_two<W: Sink>(
    writer: &mut W,
    word: &[u8],
    altitude: u32,
    serial: u32,
) -> Result<(), WriteFault>
    ensures ok { OnOk result (Appends (W.taken writer.old) (W.taken writer.new)
        (word.now ++ (spec.number_text altitude 32 ++ spec.number_text serial 10))) }
    ensures fine { OnOk result (W.failures writer.new ≡ W.failures writer.old) }
    ensures err { OnErr result (W.failures writer.new ≢ W.failures writer.old) }
{
    put_all(writer, word)?;
    put_number(writer, altitude, b' ')?;
    put_number(writer, serial, b'\n')
}

fn put_key<W: Sink>(writer: &mut W, key: Key) -> Result<(), WriteFault>
    ensures ok { OnOk result (Appends (W.taken writer.old) (W.taken writer.new) (spec.key_text key)) }
    ensures fine { OnOk result (W.failures writer.new ≡ W.failures writer.old) }
    ensures err { OnErr result (W.failures writer.new ≢ W.failures writer.old) }
{
    match key {
        Key::Stream(file) => put_named(writer, b"stream ", file, b'\n'),
        Key::Instance => put_all(writer, b"instance\n"),
    }
}

#[tactic(auto, using(crate::proofs::WritingSteps::three_parts))]
fn put_unlink<W: Sink>(writer: &mut W, altitude: u32, key: Key) -> Result<(), WriteFault>
    ensures ok { OnOk result (Appends (W.taken writer.old) (W.taken writer.new) (spec.move_line (Move.Unlink altitude key))) }
    ensures fine { OnOk result (W.failures writer.new ≡ W.failures writer.old) }
    ensures err { OnErr result (W.failures writer.new ≢ W.failures writer.old) }
{
    put_all(writer, b"unlink ")?;
    put_number(writer, altitude, b' ')?;
    put_key(writer, key)
}

fn put_move<W: Sink>(writer: &mut W, made: Move) -> Result<(), WriteFault>
    ensures ok { OnOk result (Appends (W.taken writer.old) (W.taken writer.new) (spec.move_line made)) }
    ensures fine { OnOk result (W.failures writer.new ≡ W.failures writer.old) }
    ensures err { OnErr result (W.failures writer.new ≢ W.failures writer.old) }
{
    match made {
        Move::Arrive {
            operation,
            mode,
            file,
        } => put_arrive(writer, operation, mode, file),
        Move::Pre { serial } => put_named(writer, b"pre ", serial, b'\n'),
        Move::Skip { serial } => put_named(writer, b"skip ", serial, b'\n'),
        Move::Lower { serial } => put_named(writer, b"lower ", serial, b'\n'),
        Move::Post { serial } => put_named(writer, b"post ", serial, b'\n'),
        Move::Cancel { serial } => put_named(writer, b"cancel ", serial, b'\n'),
        Move::Canceled { altitude, serial } => put_two(writer, b"canceled ", altitude, serial),
        Move::Work { item } => put_named(writer, b"work ", item, b'\n'),
        Move::Detach { altitude } => put_named(writer, b"detach ", altitude, b'\n'),
        Move::Drain { altitude, serial } => put_two(writer, b"drain ", altitude, serial),
        Move::Unlink { altitude, key } => put_unlink(writer, altitude, key),
        Move::Detached { altitude } => put_named(writer, b"detached ", altitude, b'\n'),
    }
}

#[tactic(auto, using(crate::proofs::WritingSteps::three_parts))]
fn put_go<W: Sink>(
    writer: &mut W,
    activation: u32,
    steps: u32,
    grant: bool,
) -> Result<(), WriteFault>
    ensures ok { OnOk result (Appends (W.taken writer.old) (W.taken writer.new)
        (spec.entry_line (JournalEntry.Go activation steps grant))) }
    ensures fine { OnOk result (W.failures writer.new ≡ W.failures writer.old) }
    ensures err { OnErr result (W.failures writer.new ≢ W.failures writer.old) }
{
    put_named(writer, b"go ", activation, b' ')?;
    put_number(writer, steps, b' ')?;
    put_all(writer, grant_text(grant))
}

fn put_entry<W: Sink>(writer: &mut W, entry: JournalEntry) -> Result<(), WriteFault>
    ensures ok { OnOk result (Appends (W.taken writer.old) (W.taken writer.new) (spec.entry_line entry)) }
    ensures fine { OnOk result (W.failures writer.new ≡ W.failures writer.old) }
    ensures err { OnErr result (W.failures writer.new ≢ W.failures writer.old) }
{
    match entry {
        JournalEntry::Move(made) => put_move(writer, made),
        JournalEntry::Go {
            activation,
            steps,
            grant,
        } => put_go(writer, activation, steps, grant),
    }
}

/// Writes the one spelling of a journal.
#[tactic(auto, using(crate::proofs::WritingSteps::no_entry_taken))]
pub fn write<W: Sink>(journal: &Journal, writer: &mut W) -> Result<(), WriteFault>
    ensures ok { OnOk result (Appends (W.taken writer.old) (W.taken writer.new) (spec.spelling journal.now)) }
    ensures fine { OnOk result (W.failures writer.new ≡ W.failures writer.old) }
    ensures err { OnErr result (W.failures writer.new ≢ W.failures writer.old) }
{
    put_all(writer, b"fltjournal 1\n")?;
    for entry in journal.entries() {
        put_entry(writer, *entry)?;
    }
    put_all(writer, b"end\n")
}
