//! Opening a pool: its seats, and the paths between the deques.
ghost use Rattle.std.specs.Prelude.{◌≡◌, ◌<◌, ◌+◌, ◌++◌, All, IfOk, OnOk, drop, length, map, take};
ghost use Rattle.crossbeam_deque.specs.Handles.{stealer_deque, worker_deque, worker_view};
ghost use Rattle.flt_pool.specs.Hands.{AreNewcomers, newcomer};
ghost use Rattle.flt_pool.specs.Seats.{deque_of, hands, hands_of_ways, IsPutSeatOf, IsTakeSeatOf, put_hand, reached, ReachesOthers};

use crate::OutOfMemory;
use crate::deque::Deque;
use crate::pool::Pool;
use crate::seats::{PutSeat, TakeSeat};
use crate::way::{Thief, Way};
use std::alloc::Global;
use std::collections::VecDeque;

/// A seat for each caller.
#[tactic(auto, using(crate::proofs::Steps::admits))]
pub(crate) fn put_seats(
    alloc: Global,
    pool: &Pool,
    count: usize,
) -> Result<Vec<PutSeat>, OutOfMemory>
    ensures count { IfOk result (λ seats. length seats.items ≡ count) }
    ensures seats { IfOk result (λ seats. All (λ seat. IsPutSeatOf pool.now seat × (put_hand seat ≡ newcomer)) seats.items) }
{
    let mut seats = Vec::with_capacity(alloc, count)?;
    for _ in 0..count {
        let pass = pool.inlet.pass();
        seats.push(PutSeat { pass })?;
    }
    Ok(seats)
}

/// A seat for each worker, with a path to each other worker's deque.
#[tactic(auto, using(crate::proofs::Steps::admits))]
pub(crate) fn take_seats(
    alloc: Global,
    pool: &Pool,
    count: usize,
) -> Result<Vec<TakeSeat>, OutOfMemory>
    ensures count { IfOk result (λ seats. length seats.items ≡ count) }
    ensures seats { IfOk result (λ seats. All (λ seat. IsTakeSeatOf pool.now seat × AreNewcomers (hands seat)) seats.items) }
    ensures ways { IfOk result (λ seats. All (ReachesOthers (map deque_of seats.items)) seats.items) }
{
    let (mut deques, thieves) = empty_deques(alloc, count)?;
    let mut seats = Vec::with_capacity(alloc, count)?;
    while let Some(deque) = deques.pop_front() {
        let ways = ways_past(alloc, thieves.as_slice(), seats.len())?;
        let pass = pool.inlet.pass();
        seats.push(TakeSeat { deque, pass, ways })?;
    }
    Ok(seats)
}

/// Empty deques, and a handle that steals from each.
fn empty_deques(alloc: Global, count: usize) -> Result<(VecDeque<Deque>, Vec<Thief>), OutOfMemory>
    ensures count { IfOk result (λ made. length made.0.items ≡ count) }
    ensures deques { IfOk result (λ made. All (λ deque. worker_view deque.owner ≡ newcomer) made.0.items) }
    ensures thieves { IfOk result (λ made. map stealer_deque made.1.items ≡ map (λ deque. worker_deque deque.owner) made.0.items) }
{
    let mut deques = VecDeque::with_capacity(alloc, count)?;
    let mut thieves = Vec::with_capacity(alloc, count)?;
    for _ in 0..count {
        let deque = Deque::new(alloc)?;
        thieves.push(deque.thief()?)?;
        deques.push_back(deque)?;
    }
    Ok((deques, thieves))
}

/// A path to each of these deques but the one at the place.
fn ways_past(alloc: Global, thieves: &[Thief], place: usize) -> Result<Vec<Way>, OutOfMemory>
    requires { place < length thieves.now }
    ensures deques { IfOk result (λ ways. reached ways.items
        ≡ take place (map stealer_deque thieves.now) ++ drop (place + 1) (map stealer_deque thieves.now)) }
    ensures hands { IfOk result (λ ways. AreNewcomers (hands_of_ways ways.items)) }
{
    let mut ways = Vec::with_capacity(alloc, thieves.len())?;
    add_ways(&mut ways, &thieves[..place])?;
    add_ways(&mut ways, &thieves[place + 1..])?;
    Ok(ways)
}

/// Adds a path to each of these deques.
fn add_ways(ways: &mut Vec<Way>, thieves: &[Thief]) -> Result<(), OutOfMemory>
    ensures deques { OnOk result (reached ways.new.items ≡ reached ways.old.items ++ map stealer_deque thieves.now) }
    ensures hands { OnOk result (AreNewcomers (hands_of_ways ways.old.items) → AreNewcomers (hands_of_ways ways.new.items)) }
{
    for thief in thieves {
        ways.push(Way::new(thief.clone()?))?;
    }
    Ok(())
}
