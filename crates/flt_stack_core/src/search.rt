//! The search for a receipt among those that seats hold.
ghost use Rattle.std.specs.Prelude.{◌≡◌, ◌↔◌, ◌≤◌, IsTrue, Contains, length, map};
ghost use Rattle.flt_stack_core.specs.Receipts.{receipt, together};

use crate::holds::HoldsReceipts;
use crate::receipt::Receipt;
use crate::sought::SoughtReceipt;

/// The place of a receipt with this number, if it is there and the numbers rise.
fn place_of(held: &[Receipt], number: usize) -> usize
    ensures { result ≤ length held.now }
{
    let mut low = 0;
    let mut high = held.len();
    while low < high {
        let middle = low + (high - low) / 2;
        if held[middle].number < number {
            low = middle + 1;
        } else {
            high = middle;
        }
    }
    low
}

/// Whether the sought receipt is at its place among receipts whose numbers rise.
fn is_at_its_place(held: &[Receipt], sought: &SoughtReceipt) -> bool
    ensures { IsTrue result → Contains held.now (receipt sought.now.number sought.now.entry sought.now.answer) }
{
    let place = place_of(held, sought.number);
    place < held.len() && sought.is(&held[place])
}

/// Whether the sought receipt is among some receipts, in whatever order.
fn is_among(held: &[Receipt], sought: &SoughtReceipt) -> bool
    ensures { IsTrue result ↔ Contains held.now (receipt sought.now.number sought.now.entry sought.now.answer) }
{
    for k in 0..held.len() {
        if sought.is(&held[k]) {
            return true;
        }
    }
    false
}

/// Whether a seat holds the sought receipt, at its place.
fn is_held_in_order<S: HoldsReceipts>(seats: &[S], sought: &SoughtReceipt) -> bool
    ensures { IsTrue result → Contains (together (map S.held seats.now)) (receipt sought.now.number sought.now.entry sought.now.answer) }
{
    for k in 0..seats.len() {
        if is_at_its_place(seats[k].receipts(), sought) {
            return true;
        }
    }
    false
}

/// Whether a seat holds the sought receipt, at any place.
fn is_held_anywhere<S: HoldsReceipts>(seats: &[S], sought: &SoughtReceipt) -> bool
    ensures { IsTrue result ↔ Contains (together (map S.held seats.now)) (receipt sought.now.number sought.now.entry sought.now.answer) }
{
    for k in 0..seats.len() {
        if is_among(seats[k].receipts(), sought) {
            return true;
        }
    }
    false
}

/// Whether a seat holds the sought receipt. It looks at its place in each seat first, since receipts mostly are in their order.
pub(crate) fn is_held<S: HoldsReceipts>(seats: &[S], sought: &SoughtReceipt) -> bool
    ensures { IsTrue result ↔ Contains (together (map S.held seats.now)) (receipt sought.now.number sought.now.entry sought.now.answer) }
{
    is_held_in_order(seats, sought) || is_held_anywhere(seats, sought)
}

/// Whether the seats together hold so many.
pub(crate) fn are_so_many<S: HoldsReceipts>(seats: &[S], count: usize) -> bool
    ensures { IsTrue result ↔ length (together (map S.held seats.now)) ≡ count }
{
    let mut left = count;
    for k in 0..seats.len() {
        let here = seats[k].receipts().len();
        if left < here {
            return false;
        }
        left -= here;
    }
    left == 0
}
