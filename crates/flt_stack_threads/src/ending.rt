//! The end of a stack: the seats' shares, put together, and whether their receipts are the journal's.
ghost use Rattle.std.specs.Prelude.{◌≡◌, ◌↔◌, ◌+◌, IsPermutation, IsTrue, map, sum_by};
ghost use Rattle.flt_stack_core.specs.Receipts.{receipts_in, together};

use crate::seats::{CallerSeat, WorkerSeat};
use flt_model::Journal;
use flt_stack_core::{CallerEntries, Core, Fulls, OtherEntries, StackName, agree};
use std::sync::ledger::Share;

/// The journal of a stack whose callers' receipts together aren't the journal's.
#[derive(Drop)]
pub struct Differ(pub Journal);

/// Whether the receipts of a journal are those of these callers together, each once.
pub(crate) fn agrees<N: StackName>(core: &Core<N>, callers: &[CallerSeat<N>]) -> bool
    ensures { IsTrue result
        ↔ IsPermutation (receipts_in core.now.board.entries) (together (map (λ seat. seat.receipts.list.items) callers.now)) }
{
    agree(core.board().journal(), callers)
}

/// Adds the shares of these callers.
pub(crate) fn merge_callers<N: StackName>(
    all: &mut Share<CallerEntries<N>>,
    fulls: &mut Share<Fulls<N>>,
    seats: Vec<CallerSeat<N>>,
)
    ensures parts { all.new.parts ≡ all.old.parts + sum_by (λ seat. seat.receipts.share.parts) seats.items }
    ensures amount { all.new.amount ≡ all.old.amount + sum_by (λ seat. seat.receipts.share.amount) seats.items }
    ensures fulls { fulls.new.amount ≡ fulls.old.amount + sum_by (λ seat. seat.fulls.amount) seats.items }
{
    'seats: for seat in seats {
        let CallerSeat {
            place: _,
            receipts,
            fulls: counted,
        } = seat;
        all.merge(receipts.share);
        fulls.merge(counted);
    }
}

/// Adds the shares of these workers.
pub(crate) fn merge_workers<N: StackName>(
    all: &mut Share<OtherEntries<N>>,
    fulls: &mut Share<Fulls<N>>,
    seats: Vec<WorkerSeat<N>>,
)
    ensures parts { all.new.parts ≡ all.old.parts + sum_by (λ seat. seat.share.parts) seats.items }
    ensures amount { all.new.amount ≡ all.old.amount + sum_by (λ seat. seat.share.amount) seats.items }
    ensures fulls { fulls.new.amount ≡ fulls.old.amount + sum_by (λ seat. seat.fulls.amount) seats.items }
{
    'seats: for seat in seats {
        let WorkerSeat {
            place: _,
            share,
            fulls: counted,
            pace: _,
            round: _,
            waiting: _,
            requests: _,
        } = seat;
        all.merge(share);
        fulls.merge(counted);
    }
}
