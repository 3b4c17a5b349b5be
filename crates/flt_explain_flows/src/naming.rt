//! The words for an activation.

ghost use Rattle.std.specs.Prelude.{◌≡◌, IfOk, string_bytes};
ghost use Rattle.flt_explain_timeline.specs.Words.{Puts};
ghost use Rattle.flt_explain_flows.specs.Naming as spec;

use crate::running::Active;
use flt_explain_timeline::put_callback;
use flt_tree::Filter;
use std::alloc::{AllocError, Global};
use std::fmt::Write;

/// The operation of an activation, if it is about one.
fn put_operation(out: &mut String, operation: Option<usize>) -> Result<(), AllocError>
    ensures { Puts result (string_bytes out.old) (string_bytes out.new) (spec.operation_words operation) }
{
    match operation {
        Some(number) => write!(out, ", operation {number}"),
        None => Ok(()),
    }
}

/// The head of an activation's callback, the name of its filter if there are several, and its operation.
pub(crate) fn name_of(
    alloc: Global,
    filters: &[&Filter],
    active: Active,
) -> Result<String, AllocError>
    ensures { IfOk result (λ name. string_bytes name ≡ spec.name_of filters.now active) }
{
    let mut out = String::new(alloc);
    put_callback(&mut out, filters, active.started)?;
    put_operation(&mut out, active.operation)?;
    Ok(out)
}
