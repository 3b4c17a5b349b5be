//! The calls by which a stack's caller gives a command.

ghost use Rattle.flt_rules.specs.Place.{fits_mode};
ghost use Rattle.std.specs.Prelude.{◌≡◌, ◌≢◌, ◌<◌, ◌++◌, true, IsTrue, Err, OnErr, OnOk, length};
ghost use Rattle.flt_stack_core.specs.Refusals.{has_altitude};
ghost use Rattle.flt_stack_crew.specs.Giving as spec;
ghost use Rattle.flt_stack_script.specs.ScriptText.{is_command};
ghost use Rattle.flt_stack_threads.specs.Places.{IsCallerOf, asked_by};

use crate::stopping::Stop;
use flt_rules::{Mode, Operation};
use flt_stack_script::Command;
use flt_stack_threads::{ArriveFault, CallerSeat, DetachFault, Stack, StackName};
use std::alloc::Global;
use std::sync::Wait;

/// An operation arrives.
fn arrive<N: StackName, R: Wait>(
    rt: &R,
    alloc: Global,
    stack: &Stack<N>,
    seat: &mut CallerSeat<N>,
    operation: Operation,
    mode: Mode,
    file: u32,
) -> Result<u64, Stop>
    requires seat { IsCallerOf stack.now.exchange seat.old.place }
    requires counted { seat.old.receipts.share.amount ≡ length seat.old.receipts.list.items }
    requires mode { fits_mode operation mode ≡ true }
    requires file { file < 1024 }
    ensures seat { IsCallerOf stack.now.exchange seat.new.place }
    ensures counted { seat.new.receipts.share.amount ≡ length seat.new.receipts.list.items }
    ensures parts { seat.new.receipts.share.parts ≡ seat.old.receipts.share.parts }
    ensures full { result ≡ Err Stop.Full → 0 < seat.new.fulls.amount }
    ensures room { result ≢ Err Stop.Already }
    ensures made { OnOk result (spec.Makes (Command.Arrive operation mode file) seat.old.receipts.list.items seat.new.receipts.list.items) }
    ensures requests { asked_by seat.new.place ≡ asked_by seat.old.place }
    ensures refused { OnErr result (seat.new.receipts.list.items ≡ seat.old.receipts.list.items) }
{
    match stack.arrive(rt, alloc, seat, operation, mode, file) {
        Ok(_) => Ok(1),
        Err(ArriveFault::Full) => Err(Stop::Full),
        Err(ArriveFault::OutOfMemory) => Err(Stop::OutOfMemory),
    }
}

/// The teardown of the filter at an altitude begins.
fn detach<N: StackName, R: Wait>(
    rt: &R,
    alloc: Global,
    stack: &Stack<N>,
    seat: &mut CallerSeat<N>,
    altitude: u32,
) -> Result<u64, Stop>
    requires seat { IsCallerOf stack.now.exchange seat.old.place }
    requires known { has_altitude N.trees altitude ≡ true }
    requires counted { seat.old.receipts.share.amount ≡ length seat.old.receipts.list.items }
    ensures seat { IsCallerOf stack.now.exchange seat.new.place }
    ensures counted { seat.new.receipts.share.amount ≡ length seat.new.receipts.list.items }
    ensures parts { seat.new.receipts.share.parts ≡ seat.old.receipts.share.parts }
    ensures full { result ≡ Err Stop.Full → 0 < seat.new.fulls.amount }
    ensures made { OnOk result (spec.Makes (Command.Detach altitude) seat.old.receipts.list.items seat.new.receipts.list.items) }
    ensures requests { asked_by seat.new.place ≡ asked_by seat.old.place }
    ensures refused { OnErr result (seat.new.receipts.list.items ≡ seat.old.receipts.list.items) }
{
    match stack.detach(rt, alloc, seat, altitude) {
        Ok(()) => Ok(1),
        Err(DetachFault::NoSuch) => unreachable!(),
        Err(DetachFault::Full) => Err(Stop::Full),
        Err(DetachFault::Already) => Err(Stop::Already),
        Err(DetachFault::OutOfMemory) => Err(Stop::OutOfMemory),
    }
}

/// A command is given. It answers how many entries were made.
pub(crate) fn give<N: StackName, R: Wait>(
    rt: &R,
    alloc: Global,
    stack: &Stack<N>,
    seat: &mut CallerSeat<N>,
    command: Command,
) -> Result<u64, Stop>
    requires seat { IsCallerOf stack.now.exchange seat.old.place }
    requires counted { seat.old.receipts.share.amount ≡ length seat.old.receipts.list.items }
    requires aimed { spec.IsAimed N.trees command }
    requires command { IsTrue (is_command command) }
    ensures seat { IsCallerOf stack.now.exchange seat.new.place }
    ensures counted { seat.new.receipts.share.amount ≡ length seat.new.receipts.list.items }
    ensures parts { seat.new.receipts.share.parts ≡ seat.old.receipts.share.parts }
    ensures full { result ≡ Err Stop.Full → 0 < seat.new.fulls.amount }
    ensures already { result ≡ Err Stop.Already → spec.IsDetach command }
    ensures made { OnOk result (spec.Makes command seat.old.receipts.list.items seat.new.receipts.list.items) }
    ensures asked { OnOk result ((asked_by seat.new.place).asked ≡ (asked_by seat.old.place).asked ++ spec.asks command) }
    ensures refused { OnErr result ((seat.new.receipts.list.items ≡ seat.old.receipts.list.items)
        × (asked_by seat.new.place ≡ asked_by seat.old.place)) }
{
    match command {
        Command::Arrive {
            operation,
            mode,
            file,
        } => arrive(rt, alloc, stack, seat, operation, mode, file),
        Command::Detach { altitude } => detach(rt, alloc, stack, seat, altitude),
        Command::Cancel { serial } => {
            stack.cancel(seat, serial);
            Ok(0)
        }
        Command::Refuse { choice } => {
            stack.refuse(rt, choice as u64)?;
            Ok(0)
        }
    }
}
