//! A script by several workers, each in a thread of its own where one can be made, while the caller gives the commands in this one.

ghost use Rattle.std.specs.Prelude.{◌≡◌, ◌≤◌, ◌<◌, ◌+◌, [], true, false, All, Err, IfOk, OnOk, length, map, sum_by};
ghost use Rattle.flt_stack_crew.specs.Following.{IsFollowed, IsSum};
ghost use Rattle.flt_stack_crew.specs.Giving as spec;
ghost use Rattle.flt_stack_threads.specs.Places.{IsCallerOf, IsWorkerOf, asked_by};

use crate::followed::{ScriptCut, ScriptEnd, cut_by, is_full_by};
use crate::giving::give;
use crate::progress::Progress;
use crate::stopping::Stop;
use crate::watch::Watch;
use crate::working::{NoGate, WorkerEnd, work_in};
use flt_stack_core::{CallerEntries, Core, Fulls, OtherEntries};
use flt_stack_script::Script;
use flt_stack_threads::sharing::{loaded_is_shared, sent, shared};
use flt_stack_threads::{CallerSeat, Exchange, Stack, StackName, TurnFault, WorkerSeat};
use std::alloc::{AllocError, Global};
use std::sync::ledger::Share;
use std::sync::{Mutex, Wait};
use std::thread;
use std::thread::{Threads, join};

// ---- the caller

/// The caller's seat, and why it stopped: all commands had been given, or it was refused something.
#[derive(Drop)]
struct CallerEnd<N: StackName> {
    seat: CallerSeat<N>,
    outcome: Result<(), Stop>,
}

/// The commands are given one after the other.
fn give_each<N: StackName, R: Wait, W: Watch>(
    rt: &R,
    alloc: Global,
    stack: &Stack<N>,
    seat: &mut CallerSeat<N>,
    script: &Script,
    progress: &Progress,
    watch: &mut W,
) -> Result<(), Stop>
    requires script { All (spec.IsAimed N.trees) script.now }
    requires seat { IsCallerOf stack.now.exchange seat.old.place }
    requires fresh { (seat.old.receipts.list.items ≡ []) × ((asked_by seat.old.place).asked ≡ []) }
    requires share { seat.old.receipts.share.amount ≡ 0 }
    ensures seat { IsCallerOf stack.now.exchange seat.new.place }
    ensures whole { OnOk result (spec.AreMade script.now seat.new.receipts.list.items (asked_by seat.new.place).asked) }
    ensures given { spec.AreGiven script.now seat.new.receipts.list.items (asked_by seat.new.place).asked }
    ensures counted { seat.new.receipts.share.amount ≡ length seat.new.receipts.list.items }
    ensures parts { seat.new.receipts.share.parts ≡ seat.old.receipts.share.parts }
    ensures full { result ≡ Err Stop.Full → 0 < seat.new.fulls.amount }
    ensures refused { result ≡ Err Stop.Already
        → spec.StopsAtDetach script.now seat.new.receipts.list.items (asked_by seat.new.place).asked }
{
    let commands = script.commands();
    for command in commands {
        let made = give(rt, alloc, stack, seat, *command)?;
        progress.add(made);
        watch.after(progress.entries());
    }
    Ok(())
}

/// Gives the commands, and lets the workers know when none is left.
fn give_all<N: StackName, R: Wait, W: Watch>(
    rt: &R,
    alloc: Global,
    stack: &Stack<N>,
    mut seat: CallerSeat<N>,
    script: &Script,
    progress: &Progress,
    watch: &mut W,
) -> CallerEnd<N>
    requires script { All (spec.IsAimed N.trees) script.now }
    requires seat { IsCallerOf stack.now.exchange seat.place }
    requires fresh { (seat.receipts.list.items ≡ []) × ((asked_by seat.place).asked ≡ []) }
    requires share { seat.receipts.share.amount ≡ 0 }
    ensures seat { IsCallerOf stack.now.exchange result.seat.place }
    ensures whole { OnOk result.outcome (spec.AreMade script.now result.seat.receipts.list.items (asked_by result.seat.place).asked) }
    ensures given { spec.AreGiven script.now result.seat.receipts.list.items (asked_by result.seat.place).asked }
    ensures counted { result.seat.receipts.share.amount ≡ length result.seat.receipts.list.items }
    ensures parts { result.seat.receipts.share.parts ≡ seat.receipts.share.parts }
    ensures full { result.outcome ≡ Err Stop.Full → 0 < result.seat.fulls.amount }
    ensures refused { result.outcome ≡ Err Stop.Already
        → spec.StopsAtDetach script.now result.seat.receipts.list.items (asked_by result.seat.place).asked }
{
    let outcome = give_each(rt, alloc, stack, &mut seat, script, progress, watch);
    progress.end();
    CallerEnd { seat, outcome }
}

// ---- the workers

/// The workers work, each in a thread of its own where one can be made.
fn work_all<N: StackName + Send + Sync, R: Threads + Wait + Sync>(
    rt: &R,
    alloc: Global,
    stack: &Stack<N>,
    seats: Vec<WorkerSeat<N>>,
    progress: &Progress,
) -> Result<Vec<WorkerEnd<N>>, AllocError>
    requires { All (λ seat. IsWorkerOf stack.now.exchange seat.place × (seat.share.parts ≡ 1) × (seat.share.amount ≡ 0)) seats.items }
    ensures seats { IfOk result (λ all. All (λ worked. IsWorkerOf stack.now.exchange worked.seat.place × (worked.seat.share.parts ≡ 1))
        all.items) }
    ensures count { IfOk result (λ all. length all.items ≡ length seats.items) }
{
    loaded_is_shared();
    shared::<Exchange>();
    shared::<Mutex<Core<N>>>();
    sent::<Share<CallerEntries<N>>>();
    sent::<Share<OtherEntries<N>>>();
    sent::<Share<Fulls<N>>>();
    shared::<Stack<N>>();
    thread::map_vec(
        rt,
        seats,
        &|seat: WorkerSeat<N>| -> WorkerEnd<N>
            requires { IsWorkerOf stack.now.exchange seat.place × (seat.share.parts ≡ 1) × (seat.share.amount ≡ 0) }
            ensures { IsWorkerOf stack.entry.now.exchange result.seat.place × (result.seat.share.parts ≡ 1) }
        { work_in(rt, alloc, stack, seat, progress) },
    )
}

/// The results of all workers: their seats in order, how many entries they were answered that they made, and whether one of them found the
/// journal full.
#[derive(Drop)]
struct WorkerResults<N: StackName> {
    seats: Vec<WorkerSeat<N>>,
    made: u64,
    is_full: bool,
}

/// The results of these workers together.
fn parts_of<N: StackName>(
    alloc: Global,
    all: Vec<WorkerEnd<N>>,
) -> Result<WorkerResults<N>, AllocError>
    ensures seats { IfOk result (λ ended. map (λ worked. worked.seat) all.items ≡ ended.seats.items) }
    ensures counted { IfOk result (λ ended. ended.made ≤ sum_by (λ seat. seat.share.amount) ended.seats.items) }
    ensures told { IfOk result (λ ended. ended.is_full ≡ false → IsSum ended.made (sum_by (λ seat. seat.share.amount) ended.seats.items)) }
    ensures full { IfOk result (λ ended. ended.is_full ≡ true → 0 < sum_by (λ seat. seat.fulls.amount) ended.seats.items) }
{
    let mut seats = Vec::new(alloc);
    let mut made: u64 = 0;
    let mut is_full = false;
    for worked in all {
        let WorkerEnd {
            seat,
            made: more,
            outcome,
        } = worked;
        seats.push(seat)?;
        made = made.saturating_add(more);
        is_full |= is_full_by(outcome)?;
    }
    Ok(WorkerResults {
        seats,
        made,
        is_full,
    })
}

/// The same. Each seat is still one of the stack.
fn seats_of<N: StackName>(
    alloc: Global,
    stack: &Stack<N>,
    all: Vec<WorkerEnd<N>>,
) -> Result<WorkerResults<N>, AllocError>
    requires { All (λ worked. IsWorkerOf stack.now.exchange worked.seat.place × (worked.seat.share.parts ≡ 1)) all.items }
    ensures seats { IfOk result (λ ended. All (λ seat. IsWorkerOf stack.now.exchange seat.place × (seat.share.parts ≡ 1))
        ended.seats.items) }
    ensures count { IfOk result (λ ended. length ended.seats.items ≡ length all.items) }
    ensures counted { IfOk result (λ ended. ended.made ≤ sum_by (λ seat. seat.share.amount) ended.seats.items) }
    ensures told { IfOk result (λ ended. ended.is_full ≡ false → IsSum ended.made (sum_by (λ seat. seat.share.amount) ended.seats.items)) }
    ensures full { IfOk result (λ ended. ended.is_full ≡ true → 0 < sum_by (λ seat. seat.fulls.amount) ended.seats.items) }
{
    let ended = parts_of(alloc, all)?;
    Ok(ended)
}

// ---- both

/// The first of the workers works once more. `made` counts the entries that it is answered, too.
fn work_again<N: StackName, R: Wait>(
    rt: &R,
    alloc: Global,
    stack: &Stack<N>,
    workers: &mut Vec<WorkerSeat<N>>,
    made: &mut u64,
) -> Result<(), TurnFault>
    requires some { 0 < length workers.old.items }
    requires workers { All (λ seat. IsWorkerOf stack.now.exchange seat.place × (seat.share.parts ≡ 1)) workers.old.items }
    requires made { IsSum made.old (sum_by (λ seat. seat.share.amount) workers.old.items) }
    ensures workers { All (λ seat. IsWorkerOf stack.now.exchange seat.place × (seat.share.parts ≡ 1)) workers.new.items }
    ensures count { length workers.new.items ≡ length workers.old.items }
    ensures counted { made.new ≤ sum_by (λ seat. seat.share.amount) workers.new.items }
    ensures told { OnOk result (IsSum made.new (sum_by (λ seat. seat.share.amount) workers.new.items)) }
    ensures full { result ≡ Err TurnFault.Full → 0 < sum_by (λ seat. seat.fulls.amount) workers.new.items }
{
    let more = stack.work(rt, alloc, &mut workers[0], &mut NoGate)?;
    *made = made.saturating_add(more);
    Ok(())
}

/// The caller gives the commands while the workers work. Then the first of these works once more, in this thread. It answers the caller's
/// seat and the workers', and whether the journal was found full.
pub(crate) fn follow<N: StackName + Send + Sync, R: Threads + Wait + Sync, W: Watch>(
    rt: &R,
    alloc: Global,
    stack: &Stack<N>,
    caller: CallerSeat<N>,
    workers: Vec<WorkerSeat<N>>,
    script: &Script,
    watch: &mut W,
) -> Result<ScriptEnd<N>, AllocError>
    requires script { All (spec.IsAimed N.trees) script.now }
    requires caller { IsCallerOf stack.now.exchange caller.place }
    requires fresh { (caller.receipts.list.items ≡ []) × ((asked_by caller.place).asked ≡ []) }
    requires share { caller.receipts.share.amount ≡ 0 }
    requires workers { All (λ seat. IsWorkerOf stack.now.exchange seat.place × (seat.share.parts ≡ 1) × (seat.share.amount ≡ 0))
        workers.items }
    requires some { 0 < length workers.items }
    ensures followed { IfOk result (λ f. IsFollowed script.now f.caller.receipts.list.items (asked_by f.caller.place).asked
        f.caller.receipts.share.amount (sum_by (λ seat. seat.share.amount) f.workers.items) f.made
        (f.caller.fulls.amount + sum_by (λ seat. seat.fulls.amount) f.workers.items) f.is_full f.is_refused) }
    ensures parts { IfOk result (λ f. f.caller.receipts.share.parts ≡ caller.receipts.share.parts) }
    ensures workers { IfOk result (λ f. All (λ seat. seat.share.parts ≡ 1) f.workers.items) }
    ensures count { IfOk result (λ f. length f.workers.items ≡ length workers.items) }
{
    loaded_is_shared();
    shared::<Exchange>();
    shared::<Mutex<Core<N>>>();
    sent::<Share<CallerEntries<N>>>();
    sent::<Share<OtherEntries<N>>>();
    sent::<Share<Fulls<N>>>();
    shared::<Stack<N>>();
    let progress = Progress::new();
    let (worked, given) = join(
        rt,
        || -> Result<Vec<WorkerEnd<N>>, AllocError>
            requires { All (λ seat. IsWorkerOf stack.now.exchange seat.place × (seat.share.parts ≡ 1) × (seat.share.amount ≡ 0))
                workers.items }
            ensures seats { IfOk result (λ all. All (λ worked. IsWorkerOf stack.entry.now.exchange worked.seat.place
                × (worked.seat.share.parts ≡ 1)) all.items) }
            ensures count { IfOk result (λ all. length all.items ≡ length workers.items) }
        { work_all(rt, alloc, stack, workers, &progress) },
        || -> CallerEnd<N>
            requires { All (spec.IsAimed N.trees) script.now × IsCallerOf stack.now.exchange caller.place ×
                ((caller.receipts.list.items ≡ [])
                × ((asked_by caller.place).asked ≡ [])) × (caller.receipts.share.amount ≡ 0) }
            ensures whole { OnOk result.outcome (spec.AreMade script.entry.now result.seat.receipts.list.items
                (asked_by result.seat.place).asked) }
            ensures given { spec.AreGiven script.entry.now result.seat.receipts.list.items (asked_by result.seat.place).asked }
            ensures counted { result.seat.receipts.share.amount ≡ length result.seat.receipts.list.items }
            ensures parts { result.seat.receipts.share.parts ≡ caller.receipts.share.parts }
            ensures full { result.outcome ≡ Err Stop.Full → 0 < result.seat.fulls.amount }
            ensures refused { result.outcome ≡ Err Stop.Already → spec.StopsAtDetach script.entry.now result.seat.receipts.list.items
                (asked_by result.seat.place).asked }
        { give_all(rt, alloc, stack, caller, script, &progress, watch) },
    );
    let CallerEnd { seat, outcome } = given;
    let ScriptCut {
        is_full: is_cut,
        is_refused,
    } = cut_by(outcome)?;
    let WorkerResults {
        seats,
        made,
        is_full,
    } = seats_of(alloc, stack, worked?)?;
    let mut followed = ScriptEnd {
        caller: seat,
        workers: seats,
        made,
        is_full: is_cut || is_full,
        is_refused,
    };
    if !followed.is_full && !followed.is_refused {
        let outcome = work_again(rt, alloc, stack, &mut followed.workers, &mut followed.made);
        followed.is_full = is_full_by(outcome)?;
    }
    Ok(followed)
}
