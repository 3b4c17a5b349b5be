//! How a run ends.

/// How a run ends.
#[derive(Clone, Copy, Debug, PartialEq, Eq)]
pub enum Ending {
    /// The script came to its end.
    Whole,
    /// The journal, or the number of operations, was full before that.
    Full,
    /// The teardown of a filter that the script detaches had begun before that.
    Already,
    /// The caller's receipts aren't those of the journal.
    Differ,
}
