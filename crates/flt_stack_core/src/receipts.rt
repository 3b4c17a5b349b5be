//! The receipts of a caller's calls that succeeded, with its share.
ghost use Rattle.std.specs.Prelude.{◌≡◌, ◌<◌, []};

use crate::names::{CallerEntries, Counts};
use crate::receipt::Receipt;
use std::alloc::Global;
use std::sync::ledger::Share;

/// A caller's receipts, in the order of its calls, with its share of the ledger of caller entries.
#[derive(Drop)]
pub struct Receipts<N: Counts> {
    pub list: Vec<Receipt>,
    pub share: Share<CallerEntries<N>>,
    pub ghost backed: { 0 < share.parts },
}

impl<N: Counts> Receipts<N> {
    /// No receipts yet, with some parts of the ledger.
    pub fn new(alloc: Global, share: Share<CallerEntries<N>>) -> Receipts<N>
        requires { 0 < share.parts }
        ensures list { result.list.items ≡ [] }
        ensures share { result.share ≡ share }
    {
        Receipts {
            list: Vec::new(alloc),
            share,
        }
    }
}
