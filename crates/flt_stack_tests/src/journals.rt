//! The properties of journals that tests check.

use crate::filters::{Filter, trees};
use flt_model::{Journal, JournalEntry, Move, Verdict, read};
use flt_replay::replay;
use std::alloc::Global;
use std::test::Fail;

/// The journal of these entries.
fn journal_of(alloc: Global, entries: &str) -> Result<Journal, Fail> {
    let text = format!(in alloc; "fltjournal 1\n{entries}end\n")?;
    let mut bytes = text.as_bytes();
    Ok(read(alloc, &mut bytes)?)
}

/// Whether a journal has these entries.
pub(crate) fn has_entries(alloc: Global, journal: &Journal, entries: &str) -> Result<bool, Fail> {
    let wanted = journal_of(alloc, entries)?;
    Ok(journal.entries() == wanted.entries())
}

/// Whether a journal has as many entries as these.
pub(crate) fn has_as_many(alloc: Global, journal: &Journal, entries: &str) -> Result<bool, Fail> {
    let wanted = journal_of(alloc, entries)?;
    Ok(journal.len() == wanted.len())
}

/// Whether a journal of filters is a run of the machine that breaks nothing.
pub(crate) fn is_legal(alloc: Global, filters: &[Filter], journal: &Journal) -> Result<bool, Fail> {
    let trees = trees(alloc, filters)?;
    let verdict = replay(alloc, trees.as_slice(), journal)?;
    Ok(matches!(verdict, Verdict::Legal))
}

/// The number of a journal's entries of some kinds.
#[derive(Clone, Copy)]
pub(crate) struct Tally {
    pub(crate) arrived: u32,
    pub(crate) lowered: u32,
    pub(crate) cancelled: u32,
    /// Whether each serial number that was cancelled is odd.
    pub(crate) all_odd: bool,
}

pub(crate) fn tally_of(journal: &Journal) -> Tally {
    let mut tally = Tally {
        arrived: 0,
        lowered: 0,
        cancelled: 0,
        all_odd: true,
    };
    for entry in journal.entries() {
        count(&mut tally, *entry);
    }
    tally
}

fn count(tally: &mut Tally, entry: JournalEntry) {
    match entry {
        JournalEntry::Move(Move::Arrive { .. }) => tally.arrived = tally.arrived.wrapping_add(1),
        JournalEntry::Move(Move::Lower { .. }) => tally.lowered = tally.lowered.wrapping_add(1),
        JournalEntry::Move(Move::Cancel { serial }) => {
            tally.cancelled = tally.cancelled.wrapping_add(1);
            tally.all_odd = tally.all_odd && serial % 2 == 1;
        }
        _ => {}
    }
}
