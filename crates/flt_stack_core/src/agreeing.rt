//! Whether a journal and seats agree.
ghost use Rattle.std.specs.Prelude.{◌≡◌, ◌↔◌, All, Contains, IfSome, IsPermutation, IsTrue, None, length, map};
ghost use Rattle.flt_stack_core.specs.Receipts.{Misses, receipts_in, together};

use crate::holds::HoldsReceipts;
use crate::search::{are_so_many, is_held};
use crate::sought::{SoughtReceipt, is_arrival};
use flt_model::{Journal, JournalEntry};

/// Whether the receipts of a journal are those that the seats hold together, each once. It is fast if each seat's numbers rise.
pub fn agree<S: HoldsReceipts>(journal: &Journal, seats: &[S]) -> bool
    ensures { IsTrue result ↔ IsPermutation (receipts_in journal.now) (together (map S.held seats.now)) }
{
    match count_held(journal.entries(), seats) {
        Some(count) => are_so_many(seats, count),
        None => false,
    }
}

/// How many receipts the entries have, if the seats hold each of them; else none.
fn count_held<S: HoldsReceipts>(entries: &[JournalEntry], seats: &[S]) -> Option<usize>
    ensures count { IfSome result (λ count. count ≡ length (receipts_in entries.now)) }
    ensures held { IfSome result (λ _. All (Contains (together (map S.held seats.now))) (receipts_in entries.now)) }
    ensures none { result ≡ None → Misses (together (map S.held seats.now)) (receipts_in entries.now) }
{
    let mut arrived: usize = 0;
    let mut count: usize = 0;
    for number in 0..entries.len() {
        let entry = entries[number];
        if let Some(sought) = SoughtReceipt::of(number, entry, arrived) {
            if !is_held(seats, &sought) {
                return None;
            }
            count += 1;
        }
        if is_arrival(entry) {
            arrived += 1;
        }
    }
    Some(count)
}
