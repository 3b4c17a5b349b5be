//! Stacks that several threads share.
ghost use Rattle.std.specs.Prelude.{◌≡◌, ◌+◌, ◌<◌, ◌≤◌, All};
ghost use Rattle.flt_stack_threads.specs.Places.{IsCallerOf, IsFreshCaller, IsFreshWorker, IsWorkerOf};

use crate::filters::{Filter, PASSES_ALONE, PENDS_ALONE, loaded};
use crate::fixture::{Ended, finished};
use crate::journals::{is_legal, tally_of};
use flt_rules::{Mode, Operation};
use flt_stack::Loaded;
use flt_stack_core::{CallerEntries, Core, Fulls, OtherEntries};
use flt_stack_threads::sharing::{loaded_is_shared, sent, shared};
use flt_stack_threads::{Blanks, CallerSeat, Exchange, Gate, Stack, StackName, WorkerSeat};
use std::alloc::{AllocError, Global};
use std::marker::Brand;
use std::sync::atomic::{AtomicBool, AtomicU64, Ordering};
use std::sync::ledger::{Blank, Share};
use std::sync::{Mutex, Wait};
use std::test::Fail;
use std::thread;
use std::thread::{Threads, join};

/// The plan of callers and workers, each in a thread of its own.
#[derive(Clone, Copy)]
struct Plan {
    callers: usize,
    workers: usize,
    /// The number of reads that each caller lets arrive.
    reads: u32,
    /// Whether each caller requests a cancel after each read.
    cancels: bool,
    /// Whether the first two workers wait for one another, once all callers have gone.
    meets: bool,
}

/// The progress of the threads.
#[derive(Drop)]
struct Course {
    plan: Plan,
    came: AtomicU64,
    gone: AtomicU64,
    first_of_one: AtomicBool,
    second_of_zero: AtomicBool,
    missed: AtomicBool,
}

impl Course {
    fn new(plan: Plan) -> Course
        ensures { result.plan ≡ plan }
    {
        Course {
            plan,
            came: AtomicU64::new(0),
            gone: AtomicU64::new(0),
            first_of_one: AtomicBool::new(false),
            second_of_zero: AtomicBool::new(false),
            missed: AtomicBool::new(false),
        }
    }

    fn have_callers_gone(&self) -> bool {
        self.gone.load(Ordering::SeqCst) == self.plan.callers as u64
    }

    /// Whether a worker's next call is its last one.
    fn is_over(&self, passed: bool) -> bool {
        self.have_callers_gone() && (passed || !self.plan.meets)
    }

    /// Waits until all callers have gone, if workers will meet.
    fn wait_for_callers(&self) {
        for _ in 0..1_000_000 {
            if self.have_callers_gone() || !self.plan.meets {
                return;
            }
            thread::yield_now();
        }
    }

    /// Waits until a worker has come to this point, 1,000,000 turns at most.
    fn wait_for(&self, there: &AtomicBool) {
        for _ in 0..1_000_000 {
            if there.load(Ordering::SeqCst) {
                return;
            }
            thread::yield_now();
        }
        self.missed.store(true, Ordering::SeqCst);
    }
}

/// The gate that a worker passes. Of two that meet, each waits in its first change: worker 0 until worker 1 is in its own, and worker 1
/// until worker 0 comes to its second.
#[derive(Drop)]
struct Side<'a> {
    course: &'a Course,
    passed: bool,
}

impl<'a> Gate for Side<'a> {
    fn before(&mut self, worker: usize, n: u64) {
        self.passed = true;
        let course = self.course;
        if !course.plan.meets {
            return;
        }
        match (worker, n) {
            (0, 0) => course.wait_for(&course.first_of_one),
            (0, 1) => course.second_of_zero.store(true, Ordering::SeqCst),
            (1, 0) => {
                course.first_of_one.store(true, Ordering::SeqCst);
                course.wait_for(&course.second_of_zero);
            }
            _ => {}
        }
    }
}

// ---- what one thread does

/// The serial number that a caller cancels after its read `k`. All are odd. If each of eight callers lets 100 reads arrive, the ones that a
/// caller cancels after its last five reads have arrived by then.
fn asked(k: u32, caller: u32) -> u32
    requires { caller < 8 }
    ensures { result < 65536 }
{
    16 * (99 - k % 100) + 2 * caller + 1
}

fn call<N: StackName, R: Wait>(
    rt: &R,
    alloc: Global,
    stack: &Stack<N>,
    seat: &mut CallerSeat<N>,
    plan: Plan,
    caller: u32,
)
    requires caller { caller < 8 }
    requires seat { IsCallerOf stack.now.exchange seat.old.place }
{
    for k in 0..plan.reads {
        let _ = stack.arrive(rt, alloc, seat, Operation::Read, Mode::Irp, 0);
        if plan.cancels {
            stack.cancel(seat, asked(k, caller));
        }
    }
}

/// The thread of a caller, which makes its calls and goes.
fn take_part<N: StackName, R: Wait>(
    rt: &R,
    alloc: Global,
    stack: &Stack<N>,
    course: &Course,
    mut seat: CallerSeat<N>,
) -> CallerSeat<N>
    requires { IsCallerOf stack.now.exchange seat.place × IsFreshCaller seat.place }
{
    let place = course.came.fetch_add(1, Ordering::SeqCst);
    call(rt, alloc, stack, &mut seat, course.plan, (place % 8) as u32);
    course.gone.fetch_add(1, Ordering::SeqCst);
    seat
}

/// Works until a call that began after all callers had gone has added nothing: then no ticket is left that any worker could serve. A worker
/// that will meet another one starts once they have gone, and works until it has passed.
fn work_on<N: StackName, R: Wait>(
    rt: &R,
    alloc: Global,
    stack: &Stack<N>,
    course: &Course,
    mut seat: WorkerSeat<N>,
) -> WorkerSeat<N>
    requires { IsWorkerOf stack.now.exchange seat.place × IsFreshWorker seat.place }
{
    let mut side = Side {
        course,
        passed: false,
    };
    course.wait_for_callers();
    for _ in rt.forever() {
        let is_over = course.is_over(side.passed);
        match stack.work(rt, alloc, &mut seat, &mut side) {
            Err(_) => return seat,
            Ok(0) if is_over => return seat,
            Ok(_) => thread::yield_now(),
        }
    }
    unreachable!()
}

// ---- all threads

fn call_all<N: StackName + Send + Sync, R: Threads + Wait + Sync>(
    rt: &R,
    alloc: Global,
    stack: &Stack<N>,
    course: &Course,
    callers: Vec<CallerSeat<N>>,
) -> Result<Vec<CallerSeat<N>>, AllocError>
    requires { All (λ seat. IsCallerOf stack.now.exchange seat.place × IsFreshCaller seat.place) callers.items }
{
    loaded_is_shared();
    shared::<Exchange>();
    shared::<Mutex<Core<N>>>();
    sent::<Share<CallerEntries<N>>>();
    sent::<Share<OtherEntries<N>>>();
    sent::<Share<Fulls<N>>>();
    shared::<Stack<N>>();
    thread::map_vec(
        rt,
        callers,
        &|seat| take_part(rt, alloc, stack, course, seat),
    )
}

fn work_all<N: StackName + Send + Sync, R: Threads + Wait + Sync>(
    rt: &R,
    alloc: Global,
    stack: &Stack<N>,
    course: &Course,
    workers: Vec<WorkerSeat<N>>,
) -> Result<Vec<WorkerSeat<N>>, AllocError>
    requires { All (λ seat. IsWorkerOf stack.now.exchange seat.place × IsFreshWorker seat.place) workers.items }
{
    loaded_is_shared();
    shared::<Exchange>();
    shared::<Mutex<Core<N>>>();
    sent::<Share<CallerEntries<N>>>();
    sent::<Share<OtherEntries<N>>>();
    sent::<Share<Fulls<N>>>();
    shared::<Stack<N>>();
    thread::map_vec(rt, workers, &|seat| work_on(rt, alloc, stack, course, seat))
}

/// The seats that came back.
fn seats_of<S>(alloc: Global, seats: Result<Vec<S>, AllocError>) -> Vec<S> {
    match seats {
        Ok(seats) => seats,
        Err(_) => Vec::new(alloc),
    }
}

/// The result of a plan on a stack of these filters.
fn crowd<N: StackName + Send + Sync, R: Threads + Wait + Sync>(
    rt: &R,
    alloc: Global,
    loaded: Loaded,
    blanks: Blanks,
    course: &Course,
) -> Result<Ended, AllocError>
    requires filters { loaded ≡ N.trees }
    requires callers { (1 ≤ course.now.plan.callers) × (course.now.plan.callers ≤ 16) }
    requires workers { (1 ≤ course.now.plan.workers) × (course.now.plan.workers ≤ 16) }
    requires callers_name { (blanks.callers.name ≡ N.callers_name) × (blanks.callers.parts ≡ N.callers_parts) }
    requires callers_parts { N.callers_parts ≡ course.now.plan.callers }
    requires others_name { (blanks.others.name ≡ N.others_name) × (blanks.others.parts ≡ N.others_parts) }
    requires others_parts { N.others_parts ≡ course.now.plan.workers }
    requires fulls_name { (blanks.fulls.name ≡ N.fulls_name) × (blanks.fulls.parts ≡ N.fulls_parts) }
    requires fulls_parts { N.fulls_parts ≡ course.now.plan.callers + course.now.plan.workers }
{
    loaded_is_shared();
    shared::<Exchange>();
    shared::<Mutex<Core<N>>>();
    sent::<Share<CallerEntries<N>>>();
    sent::<Share<OtherEntries<N>>>();
    sent::<Share<Fulls<N>>>();
    shared::<Stack<N>>();
    let Plan {
        callers,
        workers,
        ..
    } = course.plan;
    let (stack, callers, workers) = Stack::<N>::open(alloc, loaded, blanks, callers, workers)?;
    let shared = &stack;
    let (callers, workers) = join(
        rt,
        move || -> Result<Vec<CallerSeat<N>>, AllocError>
            requires { All (λ seat. IsCallerOf shared.now.exchange seat.place × IsFreshCaller seat.place) callers.items }
        { call_all(rt, alloc, shared, course, callers) },
        move || -> Result<Vec<WorkerSeat<N>>, AllocError>
            requires { All (λ seat. IsWorkerOf shared.now.exchange seat.place × IsFreshWorker seat.place) workers.items }
        { work_all(rt, alloc, shared, course, workers) },
    );
    let all_back = callers.is_ok() && workers.is_ok();
    let ended = finished(stack, seats_of(alloc, callers), seats_of(alloc, workers));
    if all_back { Ok(ended) } else { Err(AllocError) }
}

/// The result of a plan on a stack of these filters.
fn follow<R: Threads + Wait + Sync>(
    rt: &R,
    alloc: Global,
    loaded: Loaded,
    course: &Course,
) -> Result<Ended, AllocError>
    requires callers { (1 ≤ course.now.plan.callers) × (course.now.plan.callers ≤ 16) }
    requires workers { (1 ≤ course.now.plan.workers) × (course.now.plan.workers ≤ 16) }
{
    let Plan {
        callers,
        workers,
        ..
    } = course.plan;
    let blanks = Blanks {
        callers: Blank::new(callers as u64),
        others: Blank::new(workers as u64),
        fulls: Blank::new((callers + workers) as u64),
    };
    crowd::<Brand, R>(rt, alloc, loaded, blanks, course)
}

// ---- tests

/// Whether this many operations arrived and were lowered in a legal run, which agrees with the callers' receipts.
fn are_lowered(alloc: Global, filters: &[Filter], ended: &Ended, count: u32) -> Result<bool, Fail> {
    let tally = tally_of(&ended.journal);
    Ok(
        tally.arrived == count
            && tally.lowered == count
            && ended.agrees
            && is_legal(alloc, filters, &ended.journal)?,
    )
}

/// Two reads have arrived, and two workers work at once.
#[test]
fn two_workers_at_once(rt: HostRuntime) -> Result<(), Fail> {
    let course = Course::new(Plan {
        callers: 1,
        workers: 2,
        reads: 2,
        cancels: false,
        meets: true,
    });
    let ended = follow(&rt, rt.alloc(), loaded(rt.alloc(), &PASSES_ALONE)?, &course)?;
    let fine = are_lowered(rt.alloc(), &PASSES_ALONE, &ended, 2);
    drop(ended);
    assert!(rt; course.second_of_zero.load(Ordering::SeqCst));
    assert!(rt; !course.missed.load(Ordering::SeqCst));
    assert!(rt; fine?);
    Ok(())
}

/// Whether 800 reads arrived in a legal run and 40 to 400 of them, all with odd numbers, were cancelled.
fn are_cancelled(alloc: Global, ended: &Ended) -> Result<bool, Fail> {
    let tally = tally_of(&ended.journal);
    Ok(
        tally.arrived == 800
            && 40 <= tally.cancelled
            && tally.cancelled <= 400
            && tally.all_odd
            && ended.agrees
            && is_legal(alloc, &PENDS_ALONE, &ended.journal)?,
    )
}

/// Eight callers let 100 reads each arrive, which a filter keeps in its queue, and request 100 cancels each. The last five of each have
/// arrived when their cancels are requested, and no other serial number is cancelled.
#[test]
fn eight_callers_beside_four_workers(rt: HostRuntime) -> Result<(), Fail> {
    let course = Course::new(Plan {
        callers: 8,
        workers: 4,
        reads: 100,
        cancels: true,
        meets: false,
    });
    let ended = follow(&rt, rt.alloc(), loaded(rt.alloc(), &PENDS_ALONE)?, &course)?;
    let fine = are_cancelled(rt.alloc(), &ended);
    drop(ended);
    assert!(rt; fine?);
    Ok(())
}
