//! The receipt that an entry of a journal must have.
ghost use Rattle.std.specs.Prelude.{◌≡◌, ◌↔◌, [], ◌∷◌, IsTrue, MatchOption};
ghost use Rattle.flt_stack_core.specs.Receipts.{receipt};
ghost use Rattle.flt_stack_core.specs.Receipts as spec;

use crate::receipt::Receipt;
use flt_model::{JournalEntry, Move};

/// The sought receipt, as the journal gives it.
#[derive(Clone, Copy)]
pub(crate) struct SoughtReceipt {
    pub(crate) number: usize,
    pub(crate) entry: Move,
    pub(crate) answer: Option<usize>,
}

impl SoughtReceipt {
    /// The receipt of an entry, before which so many operations arrived; none of an entry that no caller made.
    pub(crate) fn of(number: usize, entry: JournalEntry, arrived: usize) -> Option<SoughtReceipt>
        ensures { MatchOption result (spec.receipt_of number arrived entry ≡ [])
            (λ sought. spec.receipt_of number arrived entry ≡ receipt sought.number sought.entry sought.answer ∷ []) }
    {
        match entry {
            JournalEntry::Move(
                Move::Arrive {
                    operation,
                    mode,
                    file,
                },
            ) => Some(SoughtReceipt {
                number,
                entry: Move::Arrive {
                    operation,
                    mode,
                    file,
                },
                answer: Some(arrived),
            }),
            JournalEntry::Move(Move::Detach { altitude }) => Some(SoughtReceipt {
                number,
                entry: Move::Detach { altitude },
                answer: None,
            }),
            _ => None,
        }
    }

    /// Whether a receipt is the one that is sought.
    pub(crate) fn is(&self, held: &Receipt) -> bool
        ensures { IsTrue result ↔ held.now ≡ receipt self.now.number self.now.entry self.now.answer }
    {
        held.number == self.number
            && held.entry == self.entry
            && is_answer(held.answer, self.answer)
    }
}

/// Whether two answers are the same.
fn is_answer(held: Option<u32>, sought: Option<usize>) -> bool
    ensures { IsTrue result ↔ held ≡ sought }
{
    match (held, sought) {
        (Some(held), Some(sought)) => held as usize == sought,
        (None, None) => true,
        _ => false,
    }
}

/// Whether an operation arrived by an entry.
pub(crate) fn is_arrival(entry: JournalEntry) -> bool
    ensures { result ≡ spec.is_arrival entry }
{
    matches!(entry, JournalEntry::Move(Move::Arrive { .. }))
}
