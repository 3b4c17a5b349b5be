//! Entries that a journal doesn't need are taken out of it.

use crate::judging::{is_same, judge};
use flt_model::{JournalEntry, Move, Violation};
use flt_tree::Tree;
use std::alloc::{AllocError, Global};

/// Journals of more entries stay as they are.
const MAX_ENTRIES: usize = 64;

/// The entries but that of a number.
fn without(
    alloc: Global,
    entries: &[JournalEntry],
    number: usize,
) -> Result<Vec<JournalEntry>, AllocError> {
    let mut others = Vec::new(alloc);
    for (place, entry) in entries.iter().enumerate() {
        if place != number {
            others.push(*entry)?;
        }
    }
    Ok(others)
}

/// The activation that makes an entry.
fn activation_of(entry: Option<&JournalEntry>) -> Option<u32> {
    match entry {
        Some(JournalEntry::Go { activation, .. }) => Some(*activation),
        _ => None,
    }
}

/// Whether an entry is of another activation than the last one of some entries, or more than one operation arrives.
fn is_of_several(entries: &[JournalEntry]) -> bool {
    let last = activation_of(entries.last());
    let mut arrivals: usize = 0;
    for entry in entries {
        match entry {
            JournalEntry::Go { activation, .. } => {
                if last != Some(*activation) {
                    return true;
                }
            }
            JournalEntry::Move(Move::Arrive { .. }) => arrivals = arrivals.saturating_add(1),
            JournalEntry::Move(_) => {}
        }
    }
    arrivals > 1
}

/// Whether an entry may be left out: it isn't one of the activation that breaks something.
fn may_go(entries: &[JournalEntry], number: usize) -> bool {
    match (
        activation_of(entries.get(number)),
        activation_of(entries.last()),
    ) {
        (Some(own), Some(last)) => own != last,
        _ => true,
    }
}

/// Whether entries break this by the last of them.
fn still_breaks(
    alloc: Global,
    trees: &[Tree],
    entries: &[JournalEntry],
    violation: Violation,
) -> Result<bool, AllocError> {
    match judge(alloc, trees, entries)? {
        Some(broken) => Ok(is_same(broken.violation, violation)),
        None => Ok(false),
    }
}

/// The entries without that of a number, if they break the same; none otherwise.
fn shortened(
    alloc: Global,
    trees: &[Tree],
    entries: &[JournalEntry],
    violation: Violation,
    number: usize,
) -> Result<Option<Vec<JournalEntry>>, AllocError> {
    let others = without(alloc, entries, number)?;
    if still_breaks(alloc, trees, others.as_slice(), violation)? {
        Ok(Some(others))
    } else {
        Ok(None)
    }
}

/// Leaves out entries that aren't needed, from the last one back, if there are several operations or activations.
pub(crate) fn shorten(
    alloc: Global,
    trees: &[Tree],
    entries: Vec<JournalEntry>,
    violation: Violation,
    left: &mut usize,
) -> Result<Vec<JournalEntry>, AllocError> {
    if entries.len() > MAX_ENTRIES || !is_of_several(entries.as_slice()) {
        return Ok(entries);
    }
    let mut kept = entries;
    for number in (0..kept.len()).rev() {
        let cost = kept.len();
        if may_go(kept.as_slice(), number) && cost <= *left {
            *left = left.saturating_sub(cost);
            if let Some(shorter) = shortened(alloc, trees, kept.as_slice(), violation, number)? {
                kept = shorter;
            }
        }
    }
    Ok(kept)
}
