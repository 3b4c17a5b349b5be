//! A caller's record of a call that succeeded.

use flt_model::Move;

/// A caller's record of a call that succeeded.
#[derive(Clone, Copy, PartialEq, Eq)]
pub struct Receipt {
    /// The number of the entry in the journal, counted from 0.
    pub number: usize,
    /// The entry's move: an operation arrived, or a teardown began.
    pub entry: Move,
    /// The answer of the call: the serial number of the operation that arrived; none of a detach.
    pub answer: Option<u32>,
}
