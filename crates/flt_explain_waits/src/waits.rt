//! Which activations wait for locks at the end of a run.

ghost use Rattle.std.specs.Prelude.{◌≡◌, [], length, IfOk, OnOk, MatchOption};
ghost use Rattle.flt_model.specs.Program.{by_altitude, filters_of};
ghost use Rattle.flt_model.specs.Runs.{start};
ghost use Rattle.flt_model.specs.World.{World as Machine};
ghost use Rattle.flt_replay.specs.Lesser.{moment_after};
ghost use Rattle.flt_explain_waits.specs.Waiting as spec;

use crate::asking::{Request, asked};
use crate::settling::settle;
use flt_model::Journal;
use flt_replay::world_after;
use flt_replay_course::upcoming;
use flt_replay_records::Upcoming;
use flt_replay_world::{Stack, World};
use flt_rules::LockNumber;
use flt_tree::{Span, Tree};
use std::alloc::{AllocError, Global};

/// An activation that waits for a lock.
#[derive(Clone, Copy)]
pub struct BlockedActivation {
    /// Its number, from 0.
    pub activation: usize,
    /// The number of its filter, from 0, from the highest altitude to the lowest.
    pub filter: usize,
    /// The place of the statement that takes the lock.
    pub span: Span,
    pub lock: LockNumber,
    /// The activation that holds it, of several the one that was started last.
    pub holder: Option<usize>,
}

/// Whether an activation holds a lock that another of the same filter asks for.
fn holds(world: &World<'_>, a: usize, lock: LockNumber, b: usize) -> bool
    ensures { result ≡ spec.holds world.now a lock b }
{
    if b == a || world.filter(b) != world.filter(a) {
        return false;
    }
    match world.activations.get(b) {
        Some(activation) => activation.holds_lock(lock),
        None => false,
    }
}

/// The last activation that holds a lock that another asks for.
fn last_holder(world: &World<'_>, a: usize, lock: LockNumber) -> Option<usize>
    ensures { result ≡ spec.last_holder world.now a lock (length world.now.activations) }
{
    let mut last = None;
    for b in 0..world.activations.len() {
        if holds(world, a, lock, b) {
            last = Some(b);
        }
    }
    last
}

/// The wait of an activation that asks for this lock; none if it may take it.
fn wait_for(world: &World<'_>, a: usize, request: Request) -> Option<BlockedActivation>
    ensures { result ≡ spec.wait_for world.now a request }
{
    let filter = world.filter(a);
    if world.is_free_for(filter, request.lock, a, request.access) {
        return None;
    }
    Some(BlockedActivation {
        activation: a,
        filter,
        span: request.span,
        lock: request.lock,
        holder: last_holder(world, a, request.lock),
    })
}

/// The wait of an activation; its world stays the same.
fn wait_of(world: &mut World<'_>, a: usize) -> Result<Option<BlockedActivation>, AllocError>
    ensures { IfOk result (λ wait. (world.new ≡ world.old) × (wait ≡ spec.wait_of world.old a)) }
{
    let next = upcoming(world, a)?;
    if world.has_ended(a) {
        return Ok(None);
    }
    match next {
        Some(Upcoming::Statement(statement)) => match asked(statement) {
            Some(request) => Ok(wait_for(world, a, request)),
            None => Ok(None),
        },
        Some(Upcoming::Repeat(_, _, _)) => Ok(None),
        None => Ok(None),
    }
}

/// Makes the local steps of all activations of a world, one activation after the other.
fn settle_all(world: &mut World<'_>) -> Result<(), AllocError>
    ensures { OnOk result (spec.AreSettled world.old (length world.old.activations) world.new) }
{
    for a in 0..world.activations.len() {
        settle(world, a)?;
    }
    Ok(())
}

/// The waits of the activations of a world, each by its first statement.
fn waits_at(alloc: Global, world: &mut World<'_>) -> Result<Vec<BlockedActivation>, AllocError>
    ensures { IfOk result (λ waits. (world.new ≡ world.old) × (waits.items ≡ spec.waits_at world.old (length world.old.activations))) }
{
    let mut waits = Vec::new(alloc);
    for a in 0..world.activations.len() {
        match wait_of(world, a)? {
            Some(wait) => waits.push(wait)?,
            None => {}
        }
    }
    Ok(waits)
}

/// The waits of the activations of a world, once all have made their local steps.
fn waits_in(alloc: Global, world: &mut World<'_>) -> Result<Vec<BlockedActivation>, AllocError>
    ensures { IfOk result (λ waits. spec.AreWaits world.old world.new waits.items) }
{
    settle_all(world)?;
    waits_at(alloc, world)
}

/// Which activations wait for a lock at the end of a journal on some filters, in any order: those whose next step that others see takes a
/// lock that others hold. They are in the order of their numbers. None if the journal isn't a run, or breaks something.
///
/// # Errors
///
/// If memory is refused, or a number or a count would reach 2^32.
pub fn waits_of(
    alloc: Global,
    trees: &[Tree],
    journal: &Journal,
) -> Result<Vec<BlockedActivation>, AllocError>
    ensures { IfOk result (λ waits. MatchOption
        (moment_after (by_altitude (filters_of trees.now)) (start (by_altitude (filters_of trees.now))) journal.now)
        (waits.items ≡ [])
        (λ m. (u : Machine) × spec.AreWaits m.world u waits.items)) }
{
    let stack = Stack::of(alloc, trees)?;
    match world_after(alloc, &stack, journal)? {
        Some(mut world) => waits_in(alloc, &mut world),
        None => Ok(Vec::new(alloc)),
    }
}
