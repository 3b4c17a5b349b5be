//! The members of a set of states.

use flt_abs::Abs;

/// A state in which a point, from 0, may be reached, and the places in the set of the states that follow: the numbers, from 0, of the
/// members that have them. They are looked at only if something follows.
#[derive(Drop)]
pub struct Member {
    pub point: usize,
    pub state: Abs,
    /// The member that follows if the call succeeds, the test holds or a turn is left.
    pub granted: usize,
    pub refused: usize,
}
