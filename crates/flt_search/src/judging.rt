//! Journals as the monitor judges them.

ghost use Rattle.std.specs.Prelude.{◌≡◌, ◌↔◌, IfOk, IfSome, IsTrue, Contains};
ghost use Rattle.flt_replay_world.specs.Filters.{filters_of};
ghost use Rattle.flt_search.specs.Found as spec;

use counted_heap::Heap;
use flt_model::{Journal, JournalEntry, Verdict, Violation};
use flt_tree::Tree;
use std::alloc::{AllocError, Global};

/// A journal that breaks something by its last entry, and nothing before.
#[derive(Drop)]
pub struct BreakingJournal {
    pub journal: Journal,
    pub violation: Violation,
    /// The number of the last entry, from 0.
    pub entry: usize,
}

/// Whether both are the same.
pub(crate) fn is_same(one: Violation, other: Violation) -> bool
    ensures { IsTrue result ↔ (one ≡ other) }
{
    matches!(
        (one, other),
        (Violation::V1, Violation::V1)
            | (Violation::V2, Violation::V2)
            | (Violation::V3, Violation::V3)
            | (Violation::V4, Violation::V4)
            | (Violation::V5, Violation::V5)
            | (Violation::V6, Violation::V6)
            | (Violation::V7, Violation::V7)
            | (Violation::V8, Violation::V8)
    )
}

/// Whether a violation is one of those that are wanted.
pub(crate) fn is_wanted(wanted: &[Violation], violation: Violation) -> bool
    ensures { IsTrue result → Contains wanted.now violation }
{
    for one in wanted {
        if is_same(violation, *one) {
            return true;
        }
    }
    false
}

/// The journal of some entries.
///
/// # Errors
///
/// `AllocError` if a growth is refused.
pub fn journal_of(alloc: Global, entries: &[JournalEntry]) -> Result<Journal, AllocError>
    ensures { IfOk result (λ j. j ≡ entries.now) }
{
    let mut heap = Heap::new(alloc);
    let mut journal = Journal::new(alloc);
    for entry in entries {
        journal.push(&mut heap, *entry)?;
    }
    Ok(journal)
}

impl BreakingJournal {
    /// A second one of the same.
    ///
    /// # Errors
    ///
    /// `AllocError` if a growth is refused.
    pub fn copy(&self, alloc: Global) -> Result<BreakingJournal, AllocError>
        ensures { IfOk result (λ b. b ≡ self.now) }
    {
        Ok(BreakingJournal {
            journal: journal_of(alloc, self.journal.entries())?,
            violation: self.violation,
            entry: self.entry,
        })
    }
}

/// Replays some entries; none if they don't break anything by the last one.
pub(crate) fn judge(
    alloc: Global,
    trees: &[Tree],
    entries: &[JournalEntry],
) -> Result<Option<BreakingJournal>, AllocError>
    ensures { IfOk result (λ found. IfSome found (spec.IsRun (filters_of trees.now))) }
{
    let journal = journal_of(alloc, entries)?;
    match flt_replay::replay(alloc, trees, &journal)? {
        Verdict::Legal | Verdict::NotARun(_) => Ok(None),
        Verdict::Breaks(violation, entry) => {
            if entry.checked_add(1) != Some(journal.len()) {
                return Ok(None);
            }
            Ok(Some(BreakingJournal {
                journal,
                violation,
                entry,
            }))
        }
    }
}
