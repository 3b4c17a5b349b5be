//! Journals from their text.

ghost use Rattle.std.specs.Prelude.{◌≡◌, ◌<◌, ◌≤◌, ◌+◌, ◌*◌, [], length, IfOk, OnOk, MatchResult};
ghost use Rattle.flt_model.specs.JournalText.{most_entries};
ghost use Rattle.flt_model.specs.JournalText as format;
ghost use Rattle.flt_model.specs.JournalTextReading as spec;
ghost use Rattle.flt_rules.specs.Limits.{max_entries};

use crate::fault::JournalFault;
use crate::journal::Journal;
use crate::lines::line;
use crate::scanner::{Stop, exactly};
use crate::streams::Source;
use counted_heap::Heap;
use flt_rules::MAX_ENTRIES;
use std::alloc::Global;

const FIRST_LINE: &[u8] = b"fltjournal 1\n";

const LAST_LINE: &[u8] = b"end\n";

/// The entries, if nothing follows the last line.
fn closed<R: Source>(reader: &mut R, found: Journal) -> Result<Journal, JournalFault>
    requires { length found ≤ max_entries }
    ensures read { spec.ReadsAll (spec.closed found (R.coming reader.old)) result (R.coming reader.new) }
    ensures fails { spec.CountsAll result (R.failures reader.old) (R.failures reader.new) }
    ensures reads { R.reads reader.new ≤ R.reads reader.old + 1 }
{
    match reader.next() {
        Ok(None) => Ok(found),
        Ok(Some(_)) => Err(JournalFault::Line(found.len() + 3)),
        Err(_) => Err(JournalFault::Read),
    }
}

/// The entries, if the last line follows and nothing after it.
fn ending<R: Source>(reader: &mut R, found: Journal) -> Result<Journal, JournalFault>
    requires { length found ≤ max_entries }
    ensures read { spec.ReadsAll (spec.ending found (R.coming reader.old)) result (R.coming reader.new) }
    ensures fails { spec.CountsAll result (R.failures reader.old) (R.failures reader.new) }
    ensures reads { R.reads reader.new ≤ R.reads reader.old + 5 }
{
    match exactly(reader, LAST_LINE) {
        Ok(()) => closed(reader, found),
        Err(Stop::Wrong) => Err(JournalFault::Line(found.len() + 2)),
        Err(Stop::Failed) => Err(JournalFault::Read),
    }
}

fn entries<R: Source>(alloc: Global, reader: &mut R) -> Result<Journal, JournalFault>
    ensures read { spec.ReadsAll (spec.entries_from most_entries [] (R.coming reader.old)) result (R.coming reader.new) }
    ensures fails { spec.CountsAll result (R.failures reader.old) (R.failures reader.new) }
    ensures reads { R.reads reader.new ≤ R.reads reader.old + (max_entries * (format.longest_move + 1) + 5) }
{
    let mut heap = Heap::new(alloc);
    let mut found = Journal::new(alloc);
    for number in 0..MAX_ENTRIES {
        match line(reader) {
            Ok(Some(entry)) => found.push(&mut heap, entry)?,
            Ok(None) => return closed(reader, found),
            Err(Stop::Wrong) => return Err(JournalFault::Line(number + 2)),
            Err(Stop::Failed) => return Err(JournalFault::Read),
        }
    }
    ending(reader, found)
}

#[tactic(auto, unfolding(crate::specs::JournalTextReading::journal))]
fn journal<R: Source>(alloc: Global, reader: &mut R) -> Result<Journal, JournalFault>
    ensures read { spec.ReadsAll (spec.journal (R.coming reader.old)) result (R.coming reader.new) }
    ensures fails { spec.CountsAll result (R.failures reader.old) (R.failures reader.new) }
    ensures reads { R.reads reader.new ≤ R.reads reader.old + (max_entries * (format.longest_move + 1) + 18) }
{
    match exactly(reader, FIRST_LINE) {
        Ok(()) => entries(alloc, reader),
        Err(Stop::Wrong) => Err(JournalFault::Line(1)),
        Err(Stop::Failed) => Err(JournalFault::Read),
    }
}

/// The journal that all of the reader's bytes spell. It stops at the first malformed byte.
pub fn read<R: Source>(alloc: Global, reader: &mut R) -> Result<Journal, JournalFault>
    // What is read is spelled so, and nothing is left.
    ensures spelled { IfOk result (λ journal. R.coming reader.old ≡ format.spelling journal) }
    ensures journal { IfOk result (λ journal. format.IsJournal journal) }
    ensures all { OnOk result (R.coming reader.new ≡ []) }
    // What is spelled so is read, unless the reader fails or memory runs out.
    ensures read { (entries : format.Entries) → format.IsJournal entries → R.coming reader.old ≡ format.spelling entries →
        MatchResult result (λ journal. journal ≡ entries) spec.IsHindrance }
    // A fault names the line of the first malformed byte, and what follows that byte isn't read.
    ensures fault { MatchResult result (λ _. Unit {0}) (λ e. spec.IsFaultOf (R.coming reader.old) e (R.coming reader.new)) }
    // That the reader failed is reported where it did, and there alone.
    ensures fails { spec.CountsAll result (R.failures reader.old) (R.failures reader.new) }
    ensures reads { R.reads reader.new ≤ R.reads reader.old + 67108864 }
{
    journal(alloc, reader)
}
