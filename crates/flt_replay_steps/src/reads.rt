//! Steps that others can see and that are no calls: the value of a context, the file of an operation, and whether it is an I/O
//! request packet. A variable that is NULL leaves all as it is, and the test then fails.

ghost use Rattle.std.specs.Prelude.{◌≡◌, ◌++◌, OnOk};
ghost use Rattle.flt_model.specs.Reads as spec;
ghost use Rattle.flt_replay_world.specs.Happening.{later, Happened};

use crate::contexts::Branches;
use flt_model::Event;
use flt_model::effects::{context, need_one, operation};
use flt_replay_records::Write;
use flt_replay_world::{UncountedHeap, World};
use flt_tree::{Atom, ContextVariable, NumberVariable, OperationVariable};
use std::alloc::AllocError;

/// `n = value c`, of a context that is freed too.
pub(crate) fn read_value(
    world: &mut World<'_>,
    a: usize,
    n: NumberVariable,
    c: ContextVariable,
    events: &mut Vec<Event>,
) -> Result<(), AllocError>
    ensures { OnOk result (Happened world.new events.old.items events.new.items (spec.read_value world.old a n c (later world.old a))) }
{
    let x = world.context_in(a, c);
    need_one(&mut UncountedHeap, a, context(x), events)?;
    match x {
        Some(x) => world.go_on(a, &[], Write::Number(n, world.value(x))),
        None => world.go_on(a, &[], Write::Nothing),
    }
}

/// `value c = x`
pub(crate) fn write_value(
    world: &mut World<'_>,
    a: usize,
    c: ContextVariable,
    value: Atom,
    events: &mut Vec<Event>,
) -> Result<(), AllocError>
    ensures { OnOk result (Happened world.new events.old.items events.new.items
        (spec.write_value world.old a c value (later world.old a))) }
{
    let x = world.context_in(a, c);
    need_one(&mut UncountedHeap, a, context(x), events)?;
    if let Some(x) = x {
        world.set_value(x, world.atom_in(a, value))?;
    }
    world.go_on(a, &[], Write::Nothing)
}

/// `n = file d`
pub(crate) fn read_file(
    world: &mut World<'_>,
    a: usize,
    n: NumberVariable,
    d: OperationVariable,
    events: &mut Vec<Event>,
) -> Result<(), AllocError>
    ensures { OnOk result (Happened world.new events.old.items events.new.items (spec.read_file world.old a n d (later world.old a))) }
{
    let visit = world.operation_in(a, d);
    need_one(&mut UncountedHeap, a, operation(visit), events)?;
    match visit {
        Some(visit) => {
            let file = u64::from(world.file_of(visit));
            world.go_on(a, &[], Write::Number(n, file))
        }
        None => world.go_on(a, &[], Write::Nothing),
    }
}

/// `irp data`
pub(crate) fn test_irp<'a>(
    world: &mut World<'a>,
    a: usize,
    to: Branches<'a>,
    events: &mut Vec<Event>,
) -> Result<(), AllocError>
    ensures { OnOk result (Happened world.new events.old.items events.new.items
        (spec.test_irp world.old a (to.entry.granted.now ++ later world.old a) (to.entry.refused.now ++ later world.old a))) }
{
    let visit = world.operation_in(a, OperationVariable::Data);
    need_one(&mut UncountedHeap, a, operation(visit), events)?;
    match visit {
        Some(visit) if world.mode_of(visit).is_irp() => world.go_on(a, to.granted, Write::Nothing),
        _ => world.go_on(a, to.refused, Write::Nothing),
    }
}
