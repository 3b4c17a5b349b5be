//! Thin certificates from their text.

ghost use Rattle.std.specs.Prelude.{◌≡◌, ◌<◌, ◌≤◌, [], IsTrue, OnOk, IfOk, MatchResult};
ghost use Rattle.flt_cert.specs.Reading as reading;
ghost use Rattle.flt_cert.specs.Thin.{Thin, is_thin};
ghost use Rattle.flt_cert.specs.ThinFormat.{thin_spelling};
ghost use Rattle.flt_cert.specs.ThinReading as spec;

use crate::fault::CertFault;
use crate::fields::{given_at, head_of, is_end, is_first_thin};
use crate::full_reader::point;
use crate::lines::Lines;
use crate::thin_cert::{Slot, ThinCert};
use flt_rules::MAX_CALLBACKS;
use sqlite_items::Items;
use std::alloc::{AllocError, Global};

#[tactic(auto, unfolding(crate::specs::ThinReading::first_thin))]
fn first(lines: &mut Lines) -> Result<(), CertFault>
    ensures { reading.Reads (spec.first_thin lines.old) result lines.new }
{
    let line = lines.next()?;
    lines.asked(is_first_thin(line))
}

/// Adds slots that give nothing, until there are `count`.
#[tactic(auto, using(crate::proofs::ThinReadLaws::padded_step, crate::proofs::ThinReadLaws::padded_done))]
fn pad(found: &mut Items<Slot>, count: usize) -> Result<(), AllocError>
    ensures { OnOk result (found.new ≡ spec.padded count found.old) }
{
    while found.len() < count {
        found.push(None)?;
    }
    Ok(())
}

/// Adds the points that follow, and those between that aren't given. Returns the line after them, which is taken too.
#[tactic(auto, using(crate::proofs::ThinReadLaws::no_slot_line, crate::proofs::ThinReadLaws::last_slot, crate::proofs::ThinReadLaws::no_slot_left, crate::proofs::ThinReadLaws::next_slot))]
fn slots_from<'a>(
    alloc: Global,
    lines: &mut Lines<'a>,
    count: usize,
    found: &mut Items<Slot>,
) -> Result<&'a [u8], CertFault>
    requires { count ≤ 512 }
    ensures { reading.ReadsBy (λ text. (found.new, text.now)) (spec.slots_from count count found.old lines.old) result lines.new }
{
    for _turn in 0..count {
        let line = lines.next()?;
        let Some((number, point)) = given_at(alloc, found.len(), count, line) else {
            pad(found, count)?;
            return Ok(line);
        };
        pad(found, number)?;
        found.push(Some(point))?;
    }
    let line = lines.next()?;
    pad(found, count)?;
    Ok(line)
}

/// The points of one callback, of which the first is given, and the line after them.
#[tactic(auto, unfolding(crate::specs::ThinReading::slots))]
fn slots<'a>(
    alloc: Global,
    lines: &mut Lines<'a>,
    count: usize,
) -> Result<(Items<Slot>, &'a [u8]), CertFault>
    requires { count ≤ 512 }
    ensures { reading.ReadsBy (λ r. (r.0, r.1.now)) (spec.slots count lines.old) result lines.new }
{
    let first = point(alloc, lines, 0)?;
    let mut room = Vec::new(alloc);
    room.reserve(count)?;
    let mut found = Items::from_vec(room);
    found.push(Some(first))?;
    let line = slots_from(alloc, lines, count, &mut found)?;
    Ok((found, line))
}

/// The callback with this number, from its first line on, and the line after it.
#[tactic(auto, unfolding(crate::specs::ThinReading::thin_callback))]
fn callback<'a>(
    alloc: Global,
    lines: &mut Lines<'a>,
    number: usize,
    line: &[u8],
) -> Result<(Items<Slot>, &'a [u8]), CertFault>
    requires { number < 1000 }
    ensures { reading.ReadsBy (λ r. (r.0, r.1.now)) (spec.thin_callback number line.now lines.old) result lines.new }
{
    let count = lines.asked(head_of(number, line))?;
    slots(alloc, lines, count)
}

/// The callbacks, if nothing follows the last line.
fn finish(lines: &Lines, found: Items<Items<Slot>>) -> Result<Items<Items<Slot>>, CertFault>
    ensures { reading.Reads (spec.thin_finished found lines.now) result lines.now }
{
    lines.end()?;
    Ok(found)
}

/// Whether the line is the last one, after these callbacks.
fn is_last(found: &Items<Items<Slot>>, line: &[u8]) -> bool
    ensures { result ≡ spec.is_thin_end found.now line.now }
{
    found.len() > 0 && is_end(line)
}

/// All callbacks, from the first line of the first one on.
#[tactic(auto, using(crate::proofs::ThinReadLaws::bad_callback, crate::proofs::ThinReadLaws::no_last))]
fn callbacks_from<'a>(
    alloc: Global,
    lines: &mut Lines<'a>,
    first: &'a [u8],
) -> Result<Items<Items<Slot>>, CertFault>
    ensures { reading.Reads (spec.thin_callbacks_from 16 [] first.now lines.old) result lines.new }
{
    let mut line = first;
    let mut found = Items::new(alloc);
    for number in 0..MAX_CALLBACKS {
        if is_last(&found, line) {
            return finish(lines, found);
        }
        let (slots, after) = callback(alloc, lines, number, line)?;
        found.push(slots)?;
        line = after;
    }
    if is_last(&found, line) {
        finish(lines, found)
    } else {
        Err(lines.refused())
    }
}

#[tactic(auto, unfolding(crate::specs::ThinReading::thin_callbacks))]
fn callbacks(alloc: Global, lines: &mut Lines) -> Result<Items<Items<Slot>>, CertFault>
    ensures { reading.Reads (spec.thin_callbacks lines.old) result lines.new }
{
    let line = lines.next()?;
    callbacks_from(alloc, lines, line)
}

#[tactic(auto, unfolding(crate::specs::ThinReading::thin_certificate))]
fn certificate(alloc: Global, lines: &mut Lines) -> Result<Items<Items<Slot>>, CertFault>
    ensures { reading.Reads (spec.thin_certificate lines.old) result lines.new }
{
    first(lines)?;
    callbacks(alloc, lines)
}

/// The thin certificate that all of the bytes spell in format 2.
pub(crate) fn read_thin(alloc: Global, bytes: &[u8]) -> Result<ThinCert, CertFault>
    // What is read is spelled so.
    ensures spelled { IfOk result (λ t. bytes.now ≡ thin_spelling t) }
    ensures thin { IfOk result (λ t. IsTrue (is_thin t)) }
    // What is spelled so is read, unless memory runs out.
    ensures read { (callbacks : Thin) → IsTrue (is_thin callbacks) → bytes.now ≡ thin_spelling callbacks →
        MatchResult result (λ t. t ≡ callbacks) (λ e. e ≡ CertFault.OutOfMemory) }
    // A fault names the first malformed line.
    ensures fault { MatchResult result (λ _. Unit {0}) (λ e. spec.IsThinFaultOf bytes.now e) }
{
    let mut lines = Lines::new(bytes);
    match certificate(alloc, &mut lines) {
        Ok(callbacks) => Ok(ThinCert::new(callbacks).unwrap()),
        Err(fault) => Err(fault),
    }
}
