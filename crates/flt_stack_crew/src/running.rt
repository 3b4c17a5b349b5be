//! A script on the texts of some filters.

ghost use Rattle.std.specs.Prelude.{◌≡◌, ◌≤◌, ◌<◌, ◌+◌, ◌^◌, ◌∷◌, [], All, Err, IfOk, OnOk, length, map, sum_by};
ghost use Rattle.flt_stack_crew.specs.Following.{IsFollowed};
ghost use Rattle.flt_stack_crew.specs.Giving.{IsAimed};
ghost use Rattle.flt_stack_crew.specs.Running as spec;
ghost use Rattle.flt_model.specs.Expansion.{IsCleanRun};
ghost use Rattle.flt_model.specs.JournalText as journal;
ghost use Rattle.flt_stack_script.specs.ScriptText.{Commands};
ghost use Rattle.flt_stack_threads.specs.Places.{IsCallerOf, IsWorkerOf, asked_by};

use crate::ending::Ending;
use crate::followed::{ScriptCut, ScriptEnd, cut_by};
use crate::watch::Watch;
use crate::{alone, joining};
use flt_model::{Journal, journal_bytes, legal_journals_are_clean_runs};
use flt_stack::Loaded;
use flt_stack_prepare::{PreparedRun, RunFault, prepare};
use flt_stack_script::Script;
use flt_stack_threads::{Blanks, CallerSeat, Differ, Stack, StackName, WorkerSeat};
use std::alloc::{AllocError, Global};
use std::marker::Brand;
use std::sync::Wait;
use std::sync::ledger::Blank;
use std::thread::Threads;

/// The result of a script.
#[derive(Drop)]
pub struct Ran {
    /// The journal, as it is written.
    pub journal: Vec<u8>,
    /// How many entries the workers were answered that they made. If the run ends whole, they made no others.
    pub made: u64,
    /// How it ends.
    pub ending: Ending,
    /// Whether the last ticket that had a turn stays, and nothing was moved: it is true if activations wait for one another. No clause says
    /// this.
    pub is_still: bool,
}

/// A journal, how many entries the workers were answered that they made, and how it ends.
#[derive(Drop)]
struct DrivenRun {
    journal: Journal,
    made: u64,
    ending: Ending,
    is_still: bool,
}

// ---- a stack

/// One worker follows the script alone.
fn follow_alone<N: StackName, R: Wait, W: Watch>(
    rt: &R,
    alloc: Global,
    stack: &Stack<N>,
    mut caller: CallerSeat<N>,
    mut workers: Vec<WorkerSeat<N>>,
    script: &Script,
    watch: &mut W,
) -> Result<ScriptEnd<N>, AllocError>
    requires script { All (IsAimed N.trees) script.now }
    requires caller { IsCallerOf stack.now.exchange caller.place }
    requires fresh { (caller.receipts.list.items ≡ []) × ((asked_by caller.place).asked ≡ []) }
    requires share { caller.receipts.share.amount ≡ 0 }
    requires workers { All (λ seat. IsWorkerOf stack.now.exchange seat.place × (seat.share.parts ≡ 1) × (seat.share.amount ≡ 0))
        workers.items }
    requires one { length workers.items ≡ 1 }
    ensures followed { IfOk result (λ f. IsFollowed script.now f.caller.receipts.list.items (asked_by f.caller.place).asked
        f.caller.receipts.share.amount (sum_by (λ seat. seat.share.amount) f.workers.items) f.made
        (f.caller.fulls.amount + sum_by (λ seat. seat.fulls.amount) f.workers.items) f.is_full f.is_refused) }
    ensures parts { IfOk result (λ f. f.caller.receipts.share.parts ≡ caller.receipts.share.parts) }
    ensures workers { IfOk result (λ f. All (λ seat. seat.share.parts ≡ 1) f.workers.items) }
    ensures count { IfOk result (λ f. length f.workers.items ≡ length workers.items) }
{
    let mut made = 0;
    let outcome = alone::follow(
        rt,
        alloc,
        stack,
        &mut caller,
        &mut workers[0],
        script,
        &mut made,
        watch,
    );
    let ScriptCut {
        is_full,
        is_refused,
    } = cut_by(outcome)?;
    Ok(ScriptEnd {
        caller,
        workers,
        made,
        is_full,
        is_refused,
    })
}

/// This many workers follow the script, alone or together.
fn follow<N: StackName + Send + Sync, R: Threads + Wait + Sync, W: Watch>(
    rt: &R,
    alloc: Global,
    stack: &Stack<N>,
    caller: CallerSeat<N>,
    workers: Vec<WorkerSeat<N>>,
    script: &Script,
    watch: &mut W,
) -> Result<ScriptEnd<N>, AllocError>
    requires script { All (IsAimed N.trees) script.now }
    requires caller { IsCallerOf stack.now.exchange caller.place }
    requires fresh { (caller.receipts.list.items ≡ []) × ((asked_by caller.place).asked ≡ []) }
    requires share { caller.receipts.share.amount ≡ 0 }
    requires workers { All (λ seat. IsWorkerOf stack.now.exchange seat.place × (seat.share.parts ≡ 1) × (seat.share.amount ≡ 0))
        workers.items }
    requires some { 0 < length workers.items }
    ensures followed { IfOk result (λ f. IsFollowed script.now f.caller.receipts.list.items (asked_by f.caller.place).asked
        f.caller.receipts.share.amount (sum_by (λ seat. seat.share.amount) f.workers.items) f.made
        (f.caller.fulls.amount + sum_by (λ seat. seat.fulls.amount) f.workers.items) f.is_full f.is_refused) }
    ensures parts { IfOk result (λ f. f.caller.receipts.share.parts ≡ caller.receipts.share.parts) }
    ensures workers { IfOk result (λ f. All (λ seat. seat.share.parts ≡ 1) f.workers.items) }
    ensures count { IfOk result (λ f. length f.workers.items ≡ length workers.items) }
{
    if workers.len() == 1 {
        follow_alone(rt, alloc, stack, caller, workers, script, watch)
    } else {
        joining::follow(rt, alloc, stack, caller, workers, script, watch)
    }
}

/// A list of the one caller.
fn callers_of<N: StackName>(
    alloc: Global,
    caller: CallerSeat<N>,
) -> Result<Vec<CallerSeat<N>>, AllocError>
    ensures { IfOk result (λ callers. callers.items ≡ caller ∷ []) }
{
    let mut callers = Vec::with_capacity(alloc, 1)?;
    callers.push(caller)?;
    Ok(callers)
}

/// A journal has no more entries than 64 bits count. It does nothing: its clause is the law.
fn is_countable(journal: &Journal)
    ensures { length journal.now < 2 ^ 64 }
{
    let _length = journal.len();
}

/// Whether the last ticket of the first worker stays, and nothing was moved.
fn ends_still<N: StackName>(workers: &[WorkerSeat<N>]) -> bool {
    match workers.first() {
        Some(seat) => seat.is_still(),
        None => false,
    }
}

/// Ends the stack.
fn finish<N: StackName>(
    alloc: Global,
    stack: Stack<N>,
    followed: ScriptEnd<N>,
) -> Result<DrivenRun, AllocError>
    requires caller { followed.caller.receipts.share.parts ≡ N.callers_parts }
    requires workers { sum_by (λ seat. seat.share.parts) followed.workers.items ≡ N.others_parts }
    ensures clean { IfOk result (λ driven. IsCleanRun N.trees driven.journal) }
    ensures ended { IfOk result (λ driven. (commands : Commands) → IsFollowed commands followed.caller.receipts.list.items
        (asked_by followed.caller.place).asked followed.caller.receipts.share.amount
        (sum_by (λ seat. seat.share.amount) followed.workers.items) followed.made
        (followed.caller.fulls.amount + sum_by (λ seat. seat.fulls.amount) followed.workers.items) followed.is_full followed.is_refused
        → spec.IsEnded commands driven.journal driven.made driven.ending) }
{
    let ScriptEnd {
        caller,
        workers,
        made,
        is_full,
        is_refused,
    } = followed;
    let is_still = ends_still(workers.as_slice());
    let callers = callers_of(alloc, caller)?;
    let journal = match stack.finish(callers, workers) {
        Ok(journal) => journal,
        Err(Differ(journal)) => {
            return Ok(DrivenRun {
                journal,
                made,
                ending: Ending::Differ,
                is_still,
            });
        }
    };
    is_countable(&journal);
    if is_full {
        return Ok(DrivenRun {
            journal,
            made,
            ending: Ending::Full,
            is_still,
        });
    }
    if is_refused {
        return Ok(DrivenRun {
            journal,
            made,
            ending: Ending::Already,
            is_still,
        });
    }
    Ok(DrivenRun {
        journal,
        made,
        ending: Ending::Whole,
        is_still,
    })
}

/// Has one caller and so many workers follow a script on a new stack of the loaded filters, and ends it.
fn drive<N: StackName + Send + Sync, R: Threads + Wait + Sync, W: Watch>(
    rt: &R,
    alloc: Global,
    loaded: Loaded,
    script: &Script,
    workers: usize,
    blanks: Blanks,
    watch: &mut W,
) -> Result<DrivenRun, AllocError>
    requires filters { loaded ≡ N.trees }
    requires script { All (IsAimed loaded) script.now }
    requires workers { (1 ≤ workers) × (workers ≤ 16) }
    requires callers_name { blanks.callers.name ≡ N.callers_name }
    requires callers_parts { (blanks.callers.parts ≡ N.callers_parts) × (N.callers_parts ≡ 1) }
    requires others_name { blanks.others.name ≡ N.others_name }
    requires others_parts { (blanks.others.parts ≡ N.others_parts) × (N.others_parts ≡ workers) }
    requires fulls_name { blanks.fulls.name ≡ N.fulls_name }
    requires fulls_parts { (blanks.fulls.parts ≡ N.fulls_parts) × (N.fulls_parts ≡ 1 + workers) }
    ensures { IfOk result (λ driven. spec.IsDriven loaded script.now driven.journal driven.made driven.ending) }
{
    loaded.filters();
    loaded.breaks_nothing();
    legal_journals_are_clean_runs();
    let (stack, mut callers, seats) = Stack::<N>::open(alloc, loaded, blanks, 1, workers)?;
    let caller = callers.pop().unwrap();
    let followed = follow(rt, alloc, &stack, caller, seats, script, watch)?;
    finish(alloc, stack, followed)
}

/// The result of a driven script, with its journal as it is written.
fn written(alloc: Global, driven: DrivenRun) -> Result<Ran, AllocError>
    ensures journal { IfOk result (λ ran. ran.journal.items ≡ journal.spelling driven.journal) }
    ensures ending { IfOk result (λ ran. (ran.made ≡ driven.made) × (ran.ending ≡ driven.ending)) }
{
    let journal = journal_bytes(alloc, &driven.journal)?;
    Ok(Ran {
        journal,
        made: driven.made,
        ending: driven.ending,
        is_still: driven.is_still,
    })
}

// ---- all of it

/// Drives a script on the filters that some texts spell, by so many workers, and answers the journal. The texts need no certificates: each
/// gets its least one. One worker finishes each command before the next one is given. `watch` is called after each command that was given.
///
/// # Errors
///
/// The first of these that occurs, and of one kind the first file's: the number of files; a text's fault; a line of the script; a text that
/// no certificate covers; an altitude that an earlier file has. Or a growth was refused.
pub fn run<R: Threads + Wait + Sync, W: Watch>(
    rt: &R,
    alloc: Global,
    workers: usize,
    script: &[u8],
    texts: &[Vec<u8>],
    watch: &mut W,
) -> Result<Ran, RunFault>
    requires workers { (1 ≤ workers) × (workers ≤ 16) }
    ensures { spec.Answers script.now (map (λ text. text.items) texts.now) result }
{
    let PreparedRun {
        loaded,
        script: commands,
    } = prepare(rt, alloc, workers, script, texts)?;
    let blanks = Blanks {
        callers: Blank::new(1),
        others: Blank::new(workers as u64),
        fulls: Blank::new(1 + workers as u64),
    };
    let driven = drive::<Brand, R, W>(rt, alloc, loaded, &commands, workers, blanks, watch);
    drop(commands);
    Ok(written(alloc, driven?)?)
}
