//! The cancel pads on a worked example.
ghost use Rattle.flt_cancel.specs.Seats.{IsSeatOf};

use flt_cancel::{Pads, Seat};
use std::test::*;

/// Whether a worker collects exactly the cancels that a caller requests, and again those that are requested again.
fn are_collected(pads: &Pads, caller: &mut Seat, worker: &mut Seat) -> bool
    requires caller { IsSeatOf pads.now caller.old }
    requires worker { IsSeatOf pads.now worker.old }
{
    pads.ask(caller, 63);
    pads.ask(caller, 64);
    pads.ask(caller, 63);
    let first = pads.collect(worker, 0);
    let second = pads.collect(worker, 1);
    let none = pads.collect(worker, 0);
    pads.ask(caller, 65535);
    let last = pads.collect(worker, 1023);
    pads.ask(caller, 63);
    let again = pads.collect(worker, 0);
    first == 9223372036854775808
        && second == 1
        && none == 0
        && last == 9223372036854775808
        && again == 9223372036854775808
}

#[test]
fn collects_what_was_asked(rt: HostRuntime) -> Result<(), Fail> {
    let (pads, mut seats) = Pads::open(rt.alloc(), 3)?;
    let Some(mut caller) = seats.pop() else {
        panic!(rt; "a seat")
    };
    let Some(mut worker) = seats.pop() else {
        panic!(rt; "a seat")
    };
    assert!(rt; are_collected(&pads, &mut caller, &mut worker));
    Ok(())
}
