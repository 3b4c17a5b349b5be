//! The description of an entry.

use flt_model::{JournalEntry, Key};
use flt_rules::{Mode, Operation};

/// Where an entry is drawn.
#[derive(Clone, Copy)]
pub(crate) enum Column {
    /// It is about no operation.
    Margin,
    /// The column of an operation, from 0.
    Own(usize),
    /// Beyond all columns, if more operations are alive than there are columns.
    Beyond,
}

/// A callback that starts: the number of its filter, from the highest altitude, and its own in the text, both from 0.
#[derive(Clone, Copy)]
pub struct StartedCallback {
    pub filter: usize,
    pub callback: usize,
    pub draining: bool,
}

/// The event of an entry. The operation's own number isn't in it, so that two operations on the same path have the same descriptions.
#[derive(Clone, Copy)]
pub(crate) enum Happening {
    /// An operation arrives, of a kind and a mode, on a file.
    Arrives(Operation, Mode, u32),
    Skips,
    Lowers,
    Cancels,
    /// A filter of an altitude begins to be detached.
    Detaches(u32),
    Unlinks(u32, Key),
    IsDetached(u32),
    Starts(StartedCallback),
    /// The number of a filter, from the highest altitude, and a line of its text, from 1, whose statement others see; and if it is a call
    /// or a test, whether it succeeds or holds.
    Runs(usize, usize, Option<bool>),
    /// It isn't enabled.
    IsRefused(JournalEntry),
    /// It comes after the entry that ends the run.
    IsLeftOut,
}

/// The description of an entry.
#[derive(Clone, Copy)]
pub(crate) struct Telling {
    pub(crate) column: Column,
    /// The columns in which an operation isn't done, column 0 as the lowest bit.
    pub(crate) alive: u32,
    /// The callback that continues, if the column was another's before. In the margin and beyond the columns, each that continues.
    pub(crate) resumed: Option<StartedCallback>,
    pub(crate) happening: Happening,
}

/// Who is on in an entry, by their numbers.
#[derive(Clone, Copy)]
pub(crate) struct Who {
    pub(crate) operation: Option<usize>,
    pub(crate) activation: Option<usize>,
    /// Whether the activation, or the run, ends with it.
    pub(crate) ends: bool,
}
