//! Drifts as lines of one sentence each.

ghost use Rattle.std.specs.Prelude.{◌≡◌, ◌++◌, IfOk, OnOk, decimal, drop};
ghost use Rattle.flt_c_drift.specs.Line as spec;

use crate::drift::Drift;
use crate::report::{digits, has_difference, put, put_message};
use flt_places::Lines;
use flt_tree::Position;
use std::alloc::{AllocError, Global};

/// Adds the line of a drift at a place of the file of a name.
#[tactic(auto, unfolding(crate::specs::Line::line_at))]
fn put_line(
    alloc: Global,
    out: &mut Vec<u8>,
    name: &str,
    file: &[u8],
    place: Position,
    drift: Drift,
) -> Result<(), AllocError>
    ensures { OnOk result (out.new.items ≡ out.old.items ++ spec.line_at name.now file.now place drift) }
{
    let line = digits(alloc, place.line)?;
    let column = digits(alloc, place.column)?;
    put(out, name.as_bytes())?;
    put(out, b":")?;
    put(out, line.as_slice())?;
    put(out, b":")?;
    put(out, column.as_slice())?;
    put(out, b": ")?;
    put_message(out, file, drift)
}

/// The lines of drifts, one below the other.
fn lines_of(alloc: Global, name: &str, file: &[u8], drifts: &[Drift]) -> Result<Vec<u8>, AllocError>
    ensures { IfOk result (λ lines. lines.items ≡ spec.lines_of name.now file.now drifts.now) }
{
    let places = Lines::of(alloc, file)?;
    let mut out = Vec::new(alloc);
    for drift in drifts {
        let place = places.place(drift.start);
        put_line(alloc, &mut out, name, file, place, *drift)?;
    }
    Ok(out)
}

/// The drifts of the C file of a name, a line each: the name as it is, the place, the code and the message. The name has no line feed.
/// Notes alone have no line.
///
/// # Errors
///
/// `AllocError` if a growth is refused.
pub fn drift_lines(
    alloc: Global,
    name: &str,
    file: &[u8],
    drifts: &[Drift],
) -> Result<Vec<u8>, AllocError>
    ensures { IfOk result (λ lines. lines.items ≡ spec.drift_lines name.now file.now drifts.now) }
{
    if has_difference(drifts) {
        lines_of(alloc, name, file, drifts)
    } else {
        Ok(Vec::new(alloc))
    }
}
