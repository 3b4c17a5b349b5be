//! The seats of callers and of workers.
ghost use Rattle.std.specs.Prelude.{◌<◌, ◌↔◌, IsTrue};

use crate::pace::Pace;
use crate::places::{CallerPlace, WorkerPlace};
use crate::requests::Requests;
use crate::round::Round;
use crate::waiting::Waiting;
use flt_stack_core::{Fulls, HoldsReceipts, OtherEntries, Receipt, Receipts, StackName};
use std::sync::ledger::Share;

/// A caller's seat: its place at the exchange of the stack that gave it, the receipts of its arrivals and detaches, with its share of the
/// callers' entries, and its share of the ledger of refusals for lack of room. It may go to another thread.
#[derive(Drop)]
pub struct CallerSeat<N: StackName> {
    pub(crate) place: CallerPlace,
    pub(crate) receipts: Receipts<N>,
    pub(crate) fulls: Share<Fulls<N>>,
    pub(crate) ghost counts: { 0 < fulls.parts },
}

/// The receipts of the seat's calls that succeeded, in their order.
impl<N: StackName> HoldsReceipts for CallerSeat<N> {
    ghost held = { λ seat. seat.receipts.list.items };

    fn receipts(&self) -> &[Receipt] {
        self.receipts.list.as_slice()
    }
}

/// A worker's seat: its place at the exchange of the stack that gave it, its shares of the ledgers of the other entries and of refusals for
/// lack of room, and the leftovers of its work. It may go to another thread.
#[derive(Drop)]
pub struct WorkerSeat<N: StackName> {
    pub(crate) place: WorkerPlace,
    pub(crate) share: Share<OtherEntries<N>>,
    pub(crate) fulls: Share<Fulls<N>>,
    pub(crate) pace: Pace,
    pub(crate) round: Round,
    pub(crate) waiting: Waiting,
    pub(crate) requests: Requests,
    pub(crate) ghost backed: { 0 < share.parts },
    pub(crate) ghost counts: { 0 < fulls.parts },
}

impl<N: StackName> WorkerSeat<N> {
    /// Whether the ticket that had its turn last stays, and nothing was moved. If it is false after a call of `work`, the call found no
    /// ticket that waits for others. No clause of `work` says how the seat counts this.
    pub fn is_still(&self) -> bool
        ensures { IsTrue result ↔ 0 < self.now.round.still }
    {
        self.round.is_still()
    }
}
