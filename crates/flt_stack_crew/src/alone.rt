//! A script by one worker, which works in the caller's thread.

ghost use Rattle.std.specs.Prelude.{◌≡◌, ◌≤◌, ◌<◌, ◌+◌, [], All, length, Err, OnOk};
ghost use Rattle.flt_stack_crew.specs.Following.{IsSum};
ghost use Rattle.flt_stack_crew.specs.Giving as spec;
ghost use Rattle.flt_stack_threads.specs.Places.{IsCallerOf, IsWorkerOf, asked_by};

use crate::giving::give;
use crate::stopping::Stop;
use crate::watch::Watch;
use crate::working::NoGate;
use flt_stack_script::Script;
use flt_stack_threads::{CallerSeat, Stack, StackName, WorkerSeat};
use std::alloc::Global;
use std::sync::Wait;

/// Gives each command once the work of the one before it is done: no ticket is left, or 1,000,000 were taken. `made` counts the entries
/// that the worker was answered that it made.
pub(crate) fn follow<N: StackName, R: Wait, W: Watch>(
    rt: &R,
    alloc: Global,
    stack: &Stack<N>,
    caller: &mut CallerSeat<N>,
    worker: &mut WorkerSeat<N>,
    script: &Script,
    made: &mut u64,
    watch: &mut W,
) -> Result<(), Stop>
    requires script { All (spec.IsAimed N.trees) script.now }
    requires caller { IsCallerOf stack.now.exchange caller.old.place }
    requires worker { IsWorkerOf stack.now.exchange worker.old.place }
    requires fresh { (caller.old.receipts.list.items ≡ []) × ((asked_by caller.old.place).asked ≡ []) }
    requires shares { (caller.old.receipts.share.amount ≡ 0) × (worker.old.share.amount ≡ 0) }
    requires made { made.old ≡ 0 }
    ensures whole { OnOk result (spec.AreMade script.now caller.new.receipts.list.items (asked_by caller.new.place).asked) }
    ensures given { spec.AreGiven script.now caller.new.receipts.list.items (asked_by caller.new.place).asked }
    ensures callers { caller.new.receipts.share.amount ≡ length caller.new.receipts.list.items }
    ensures others { made.new ≤ worker.new.share.amount }
    ensures told { OnOk result (IsSum made.new worker.new.share.amount) }
    ensures full { result ≡ Err Stop.Full → 0 < caller.new.fulls.amount + worker.new.fulls.amount }
    ensures refused { result ≡ Err Stop.Already
        → spec.StopsAtDetach script.now caller.new.receipts.list.items (asked_by caller.new.place).asked }
    ensures parts { (caller.new.receipts.share.parts ≡ caller.old.receipts.share.parts)
        × (worker.new.share.parts ≡ worker.old.share.parts) }
{
    let commands = script.commands();
    let mut entries: u64 = 0;
    for command in commands {
        let given = give(rt, alloc, stack, caller, *command)?;
        let more = stack.work(rt, alloc, worker, &mut NoGate)?;
        *made = made.saturating_add(more);
        entries = entries.saturating_add(given).saturating_add(more);
        watch.after(entries);
    }
    Ok(())
}
