//! Tickets that one thread puts and takes, in order.
ghost use Rattle.flt_pool.specs.Seats.{IsPutSeatOf, IsTakeSeatOf};

use flt_pool::{Pool, PutSeat, TakeSeat, Ticket};
use std::sync::Wait;
use std::test::*;

/// An entry's ticket.
const ENTRY: Ticket = Ticket::Entry {
    altitude: 100,
    serial: 7,
};

/// The tickets that a worker takes if its own deque, the injector and another worker's deque have two each.
static TAKEN: [Ticket; 6] = [
    Ticket::Activation(2),
    Ticket::Operation(2),
    Ticket::Operation(1),
    ENTRY,
    Ticket::Item(3),
    Ticket::Detach(100),
];

/// Puts two tickets into the injector. Returns whether both go in.
fn put_two<R: Wait>(rt: &R, pool: &Pool, caller: &mut PutSeat) -> bool
    requires { IsPutSeatOf pool.now caller.old }
{
    pool.put(rt, caller, Ticket::Operation(1)).is_ok() && pool.put(rt, caller, ENTRY).is_ok()
}

/// Puts two tickets into a worker's own deque. Returns whether both go in.
fn push_two(pool: &Pool, worker: &mut TakeSeat, first: Ticket, second: Ticket) -> bool
    requires { IsTakeSeatOf pool.now worker.old }
    ensures { IsTakeSeatOf pool.now worker.new }
{
    worker.push(first).is_ok() && worker.push(second).is_ok()
}

/// Whether a worker takes these tickets, one after the other, and then none.
fn takes<R: Wait>(rt: &R, pool: &Pool, worker: &mut TakeSeat, tickets: &[Ticket]) -> bool
    requires { IsTakeSeatOf pool.now worker.old }
    ensures { IsTakeSeatOf pool.now worker.new }
{
    for ticket in tickets {
        if pool.take(rt, worker) != Some(*ticket) {
            return false;
        }
    }
    pool.take(rt, worker).is_none()
}

/// Each kind of ticket goes in and comes out: from the worker's own deque first, then from the injector, then from the other worker's
/// deque, and from each in the order in which it went in.
#[test]
fn takes_the_own_deque_then_the_injector_then_steals(rt: HostRuntime) -> Result<(), Fail> {
    let (pool, mut callers, mut workers) = Pool::open(rt.alloc(), 1, 2)?;
    let Some(mut caller) = callers.pop() else {
        panic!(rt; "a caller's seat")
    };
    let Some(mut other) = workers.pop() else {
        panic!(rt; "a worker's seat")
    };
    let Some(mut worker) = workers.pop() else {
        panic!(rt; "another worker's seat")
    };
    assert!(rt; push_two(&pool, &mut other, Ticket::Item(3), Ticket::Detach(100)));
    assert!(rt; put_two(&rt, &pool, &mut caller));
    assert!(rt;
        push_two(
            &pool,
            &mut worker,
            Ticket::Activation(2),
            Ticket::Operation(2)
        )
    );
    assert!(rt; takes(&rt, &pool, &mut worker, &TAKEN));
    assert!(rt; takes(&rt, &pool, &mut other, &[]));
    Ok(())
}
