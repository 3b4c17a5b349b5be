//! The work of a worker in a thread of its own.

ghost use Rattle.std.specs.Prelude.{◌≡◌, ◌≤◌, ◌<◌, Err, Ok};
ghost use Rattle.flt_stack_crew.specs.Following.{IsSum};
ghost use Rattle.flt_stack_core.specs.declared.turn_fault.TurnFault.TheVariants as turn_fault;
ghost use Rattle.flt_stack_threads.specs.Places.{IsWorkerOf};

use crate::progress::Progress;
use flt_stack_threads::{Gate, Stack, StackName, TurnFault, WorkerSeat};
use std::alloc::Global;
use std::sync::Wait;
use std::thread;

/// Holds no worker up.
#[derive(Drop)]
pub(crate) struct NoGate;

impl Gate for NoGate {
    fn before(&mut self, _worker: usize, _n: u64) {}
}

/// A worker's seat, how many entries it was answered that it made, and why its worker stopped: it found nothing once all commands had been
/// given, or it was refused something.
#[derive(Drop)]
pub(crate) struct WorkerEnd<N: StackName> {
    pub(crate) seat: WorkerSeat<N>,
    pub(crate) made: u64,
    pub(crate) outcome: Result<(), TurnFault>,
    pub(crate) ghost counted: { made ≤ seat.share.amount },
    pub(crate) ghost told: { outcome ≡ Ok tt → IsSum made seat.share.amount },
    pub(crate) ghost full: { outcome ≡ Err turn_fault.Full → 0 < seat.fulls.amount },
}

/// A worker's work in a run: it works until nothing is found in a call that began once all commands had been given.
pub(crate) fn work_in<N: StackName, R: Wait>(
    rt: &R,
    alloc: Global,
    stack: &Stack<N>,
    mut seat: WorkerSeat<N>,
    progress: &Progress,
) -> WorkerEnd<N>
    requires seat { IsWorkerOf stack.now.exchange seat.place }
    requires fresh { seat.share.amount ≡ 0 }
    ensures seat { IsWorkerOf stack.now.exchange result.seat.place }
    ensures parts { result.seat.share.parts ≡ seat.share.parts }
{
    let mut made: u64 = 0;
    for _ in rt.forever() {
        let is_given = progress.is_given();
        let more = match stack.work(rt, alloc, &mut seat, &mut NoGate) {
            Ok(more) => more,
            Err(fault) => {
                return WorkerEnd {
                    seat,
                    made,
                    outcome: Err(fault),
                };
            }
        };
        made = made.saturating_add(more);
        if more == 0 && is_given {
            return WorkerEnd {
                seat,
                made,
                outcome: Ok(()),
            };
        }
        progress.add(more);
        if more == 0 {
            thread::yield_now();
        }
    }
    unreachable!()
}
