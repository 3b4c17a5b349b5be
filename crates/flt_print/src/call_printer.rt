//! Writes statuses, and calls by the slots of their shapes.

ghost use Rattle.flt_print.specs.CallWords as spec;
ghost use Rattle.flt_print.specs.Line.{begun, spaced};
ghost use Rattle.flt_print.specs.Operands.{operands_of};
ghost use Rattle.std.specs.Prelude.{◌≡◌, ◌∷◌, ◌++◌, map, OnOk};

use crate::line::{begin, name, word};
use crate::operands::{Operands, fallible_operands, fallible_shape, plain_operands, plain_shape};
use crate::vocabulary::{
    context_kind, existing_kind, fallible_kind, final_status_kind, operation_variable_kind,
    plain_kind, removed_kind,
};
use flt_syntax::{Kind, Slot, Tail};
use flt_tree::{ContextVariable, FallibleCall, Lock, PlainCall, Routine, Status};
use std::alloc::AllocError;

/// Nothing, or a word and the context after it.
fn optional(
    out: &mut Vec<u8>,
    word_before: Kind,
    context: Option<ContextVariable>,
) -> Result<(), AllocError>
    ensures { OnOk result (out.new.items ≡ out.old.items ++ spaced (spec.optional_words word_before context)) }
{
    match context {
        None => Ok(()),
        Some(c) => {
            word(out, word_before)?;
            word(out, context_kind(c))
        }
    }
}

fn status(out: &mut Vec<u8>, status: Status) -> Result<(), AllocError>
    ensures { OnOk result (out.new.items ≡ out.old.items ++ spaced (spec.status_words status)) }
{
    match status {
        Status::WithCallback(context) => {
            word(out, Kind::WithCallback)?;
            optional(out, Kind::Context, context)
        }
        Status::Synchronize(context) => {
            word(out, Kind::Synchronize)?;
            optional(out, Kind::Context, context)
        }
        Status::NoCallback => word(out, Kind::NoCallback),
        Status::Complete(status) => {
            word(out, Kind::Complete)?;
            word(out, final_status_kind(status))
        }
        Status::Pending => word(out, Kind::Pending),
        Status::DisallowFastIo => word(out, Kind::DisallowFastIo),
        Status::FinishedProcessing => word(out, Kind::FinishedProcessing),
        Status::MoreProcessingRequired => word(out, Kind::MoreProcessingRequired),
    }
}

pub fn optional_status(out: &mut Vec<u8>, found: Option<Status>) -> Result<(), AllocError>
    ensures { OnOk result (out.new.items ≡ out.old.items ++ spaced (spec.optional_status_words found)) }
{
    match found {
        None => Ok(()),
        Some(found) => status(out, found),
    }
}

fn slot(out: &mut Vec<u8>, slot: Slot, operands: &Operands<'_>) -> Result<(), AllocError>
    ensures { OnOk result (out.new.items ≡ out.old.items ++ 32 ∷ spec.slot_word (operands_of operands.now) slot) }
{
    match slot {
        Slot::Data => word(out, Kind::Data),
        Slot::As => word(out, Kind::As),
        Slot::With => word(out, Kind::Context),
        Slot::Operation => word(out, operation_variable_kind(operands.operation)),
        Slot::Removed => word(out, removed_kind(operands.removed)),
        Slot::Existing => word(out, existing_kind(operands.existing)),
        Slot::Context => word(out, context_kind(operands.context)),
        Slot::Other => word(out, context_kind(operands.other)),
        Slot::Routine | Slot::Lock(_) => name(out, operands.name),
    }
}

fn slots(out: &mut Vec<u8>, mut slots: &[Slot], operands: &Operands<'_>) -> Result<(), AllocError>
    ensures { OnOk result (out.new.items ≡ out.old.items
        ++ spaced (map (spec.slot_word (operands_of operands.now)) slots.entry.now)) }
{
    while let [next, rest @ ..] = slots {
        slot(out, *next, operands)?;
        slots = rest;
    }
    Ok(())
}

/// The end of a call.
fn tail(out: &mut Vec<u8>, tail: Tail, operands: &Operands<'_>) -> Result<(), AllocError>
    ensures { OnOk result (out.new.items ≡ out.old.items ++ spaced (spec.tail_words (operands_of operands.now) tail)) }
{
    match tail {
        Tail::Nothing => Ok(()),
        Tail::With => optional(out, Kind::Context, operands.optional),
        Tail::Old | Tail::OtherOld => optional(out, Kind::Old, operands.optional),
        Tail::Status => status(out, operands.status),
    }
}

/// The slots of a call, and its end.
fn operands(
    out: &mut Vec<u8>,
    behind: &[Slot],
    end: Tail,
    operands: &Operands<'_>,
) -> Result<(), AllocError>
    ensures { OnOk result (out.new.items ≡ out.old.items
        ++ spaced (spec.operand_words (operands_of operands.now) behind.now end)) }
{
    slots(out, behind, operands)?;
    tail(out, end, operands)
}

/// A call that can fail, after other words.
pub fn fallible_call(out: &mut Vec<u8>, call: &FallibleCall<Routine>) -> Result<(), AllocError>
    ensures { OnOk result (out.new.items ≡ out.old.items ++ spaced (spec.fallible_words call.now)) }
{
    let shape = fallible_shape(call);
    word(out, fallible_kind(shape))?;
    operands(out, shape.slots(), shape.tail(), &fallible_operands(call))
}

/// A line with a call that always succeeds, up to its end.
pub fn plain_call(
    out: &mut Vec<u8>,
    level: usize,
    locks: &[Lock],
    call: PlainCall,
) -> Result<(), AllocError>
    ensures { OnOk result (out.new.items ≡ out.old.items ++ begun level (spec.plain_words locks.now call)) }
{
    let shape = plain_shape(call);
    begin(out, level, plain_kind(shape))?;
    operands(
        out,
        shape.slots(),
        shape.tail(),
        &plain_operands(locks, call),
    )
}
