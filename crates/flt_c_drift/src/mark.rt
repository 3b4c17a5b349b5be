//! The marks of a C file: its calls, returns, callbacks and locks, in code and in annotations.

/// A call with a lock.
#[derive(Clone, Copy)]
pub struct Take {
    /// The call's place among those that take and release locks, from 0.
    pub call: usize,
    /// The place of the first lock that is declared with its expression, among the declared ones from 0, if there is one.
    pub lock: Option<usize>,
}

/// The statement that a mark makes.
#[derive(Clone, Copy)]
pub enum MarkKind {
    /// Code has the name of a call or of a function that makes it: this one of the calls, from 0.
    Calls(usize),
    /// An annotation names this one of the calls.
    Names(usize),
    /// Code returns this one of the statuses, from 0.
    Returns(usize),
    /// An annotation returns this one of the statuses.
    Answers(usize),
    /// An entry of a table registers a pre callback of this one of the operations, from 0.
    RegistersPre(usize),
    /// The same for a post callback.
    RegistersPost(usize),
    /// An entry of a table registers a callback of another major function.
    RegistersOther,
    /// An annotation begins a pre callback of this one of the operations.
    HeadsPre(usize),
    /// The same for a post callback.
    HeadsPost(usize),
    /// Code takes or releases a lock: the bytes are the first argument of the call.
    Takes(Take),
    /// An annotation does: the bytes are the expression with which the lock is declared, or else its name.
    Guards(Take),
    /// A comment `@flt-call` is malformed.
    Malformed,
    /// A line has an annotation.
    Noted,
    /// A stretch of the code begins.
    Cut,
}

/// A mark: a statement, and the bytes of the file that make it.
#[derive(Clone, Copy)]
pub struct Mark {
    pub kind: MarkKind,
    /// The number of bytes of the file before it.
    pub start: usize,
    /// The number of its bytes.
    pub length: usize,
}
