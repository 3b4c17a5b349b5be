//! The lines of states that hold no lock. After their numbers, all of them have one length, so their ends need no search.

ghost use Rattle.std.specs.Prelude.{◌≡◌, ◌<◌, ◌↔◌, [], ◌∷◌, ◌++◌, length, Some, IsTrue, IfSome};
ghost use Rattle.flt_abs.specs.State.{is_proper};
ghost use Rattle.flt_cert.specs.FixedWidth as spec;
ghost use Rattle.flt_cert.specs.Format as format;

use crate::fields::{after_number, draining_of, fill, front_of, modes_of};
use flt_abs::{Abs, CONTEXTS, LockList, OPERATIONS, Statuses};
use std::alloc::Global;

/// The number of bytes of such a line after its number.
const WIDTH: usize = 23;

/// The least legal byte at each place.
static LEAST: [u8; WIDTH] = *b" 111111111 11111 1 1 -\n";

/// The greatest legal byte at each place.
static GREATEST: [u8; WIDTH] = *b" 777777777 77777 3 3 -\n";

/// The number of bytes that are compared at once. Two such groups cover a line.
const GROUP: usize = 16;

/// Where the second group begins. It ends with the line.
const SECOND: usize = WIDTH - GROUP;

/// Whether a byte is legal at a place.
#[inline(always)]
fn is_within(place: usize, byte: u8) -> bool
    requires { place < 23 }
    ensures { IsTrue result ↔ spec.Within place byte }
{
    (LEAST[place] <= byte) & (byte <= GREATEST[place])
}

/// Whether each byte is legal at its place. It looks at all of them, since a branch for each byte takes longer.
#[inline(never)]
#[tactic(auto, using(crate::proofs::FixedWidthLaws::all_compared))]
fn are_in_bounds(bytes: &[u8]) -> bool
    requires { length bytes.now ≡ 23 }
    ensures { IsTrue result → spec.InBounds bytes.now }
{
    let mut within = true;
    for place in 0..GROUP {
        let second = place + SECOND;
        within &= is_within(place, bytes[place]) & is_within(second, bytes[second]);
    }
    within
}

/// The state that the bytes after a number spell.
#[inline(always)]
fn state_of(alloc: Global, bytes: &[u8]) -> Abs
    requires long { length bytes.now ≡ 23 }
    requires bounds { spec.InBounds bytes.now }
    ensures spelled { bytes.now ≡ 32 ∷ (format.state_text result ++ 10 ∷ []) }
    ensures proper { IsTrue (is_proper result) }
{
    // Since the bytes are in bounds, no field is refused.
    let mut contexts = [Statuses::null(); CONTEXTS];
    let _ = fill(&mut contexts, &bytes[1..10]);
    let mut operations = [Statuses::null(); OPERATIONS];
    let _ = fill(&mut operations, &bytes[11..16]);
    let modes = modes_of(bytes[17]).unwrap();
    let draining = draining_of(bytes[19]).unwrap();
    Abs::new(contexts, operations, modes, draining, LockList::none(alloc)).unwrap()
}

/// The state of the point with this number, and the rest after its line, if that has the fixed width.
#[inline(always)]
pub(crate) fn fixed_state(alloc: Global, number: usize, text: &[u8]) -> Option<(Abs, &[u8])>
    requires { number < 1000 }
    ensures spelled { IfSome result (λ x. text.now ≡ format.point_line number (Some x.0) ++ x.1.now) }
    ensures proper { IfSome result (λ x. IsTrue (is_proper x.0)) }
{
    let (bytes, rest) = front_of(after_number(number, text)?, WIDTH)?;
    if !are_in_bounds(bytes) {
        return None;
    }
    Some((state_of(alloc, bytes), rest))
}
