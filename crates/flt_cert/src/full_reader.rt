//! Certificates from their text in format 1.

ghost use Rattle.std.specs.Prelude.{◌≡◌, ◌<◌, ◌≤◌, [], IsTrue, IfOk, MatchResult};
ghost use Rattle.flt_cert.specs.Format as format;
ghost use Rattle.flt_cert.specs.Reading as spec;

use crate::fault::CertFault;
use crate::fields::{head_of, is_end, is_first, point_of};
use crate::full_cert::FullCert;
use crate::lines::Lines;
use flt_abs::Abs;
use flt_rules::MAX_CALLBACKS;
use sqlite_items::Items;
use std::alloc::Global;

#[tactic(auto, unfolding(crate::specs::Reading::first))]
fn first(lines: &mut Lines) -> Result<(), CertFault>
    ensures { spec.Reads (spec.first lines.old) result lines.new }
{
    let line = lines.next()?;
    lines.asked(is_first(line))
}

#[inline(never)]
#[tactic(auto, unfolding(crate::specs::Reading::point))]
pub(crate) fn point(
    alloc: Global,
    lines: &mut Lines,
    number: usize,
) -> Result<Option<Abs>, CertFault>
    requires { number < 1000 }
    ensures { spec.Reads (spec.point number lines.old) result lines.new }
{
    let line = lines.next()?;
    lines.asked(point_of(alloc, number, line))
}

#[tactic(auto, unfolding(crate::specs::Reading::points), using(crate::proofs::ReadLaws::bad_point))]
fn points(alloc: Global, lines: &mut Lines, count: usize) -> Result<Items<Option<Abs>>, CertFault>
    requires { count ≤ 512 }
    ensures { spec.Reads (spec.points count lines.old) result lines.new }
{
    let mut found = Vec::new(alloc);
    found.reserve(count)?;
    for number in 0..count {
        found.reserve(1)?;
        // At most points no lock is held.
        if let Some(state) = lines.state(alloc, number) {
            found.push_reserved(Some(state));
            continue;
        }
        let point = point(alloc, lines, number)?;
        found.push_reserved(point);
    }
    Ok(Items::from_vec(found))
}

/// The callback with this number, from its first line on.
#[tactic(auto, unfolding(crate::specs::Reading::callback))]
fn callback(
    alloc: Global,
    lines: &mut Lines,
    number: usize,
    line: &[u8],
) -> Result<Items<Option<Abs>>, CertFault>
    requires { number < 1000 }
    ensures { spec.Reads (spec.callback number line.now lines.old) result lines.new }
{
    let count = lines.asked(head_of(number, line))?;
    points(alloc, lines, count)
}

/// The callbacks, if nothing follows the last line.
fn finish(
    lines: &Lines,
    found: Items<Items<Option<Abs>>>,
) -> Result<Items<Items<Option<Abs>>>, CertFault>
    ensures { spec.Reads (spec.finished found lines.now) result lines.now }
{
    lines.end()?;
    Ok(found)
}

/// Whether the line is the last one, after these callbacks.
fn is_last(found: &Items<Items<Option<Abs>>>, line: &[u8]) -> bool
    ensures { result ≡ spec.is_last found.now line.now }
{
    found.len() > 0 && is_end(line)
}

#[tactic(auto, using(crate::proofs::ReadLaws::no_line, crate::proofs::ReadLaws::bad_callback, crate::proofs::ReadLaws::no_last))]
fn callbacks(alloc: Global, lines: &mut Lines) -> Result<Items<Items<Option<Abs>>>, CertFault>
    ensures { spec.Reads (spec.callbacks lines.old) result lines.new }
{
    let mut found = Items::new(alloc);
    for number in 0..MAX_CALLBACKS {
        let line = lines.next()?;
        if is_last(&found, line) {
            return finish(lines, found);
        }
        let points = callback(alloc, lines, number, line)?;
        found.push(points)?;
    }
    let line = lines.next()?;
    if is_last(&found, line) {
        finish(lines, found)
    } else {
        Err(lines.refused())
    }
}

#[tactic(auto, unfolding(crate::specs::Reading::certificate))]
fn certificate(alloc: Global, lines: &mut Lines) -> Result<Items<Items<Option<Abs>>>, CertFault>
    ensures { spec.Reads (spec.certificate lines.old) result lines.new }
{
    first(lines)?;
    callbacks(alloc, lines)
}

/// The certificate that all of the bytes spell in format 1.
pub(crate) fn read_full(alloc: Global, bytes: &[u8]) -> Result<FullCert, CertFault>
    // What is read is spelled so.
    ensures spelled { IfOk result (λ cert. bytes.now ≡ format.full_spelling cert) }
    ensures certificate { IfOk result (λ cert. IsTrue (format.is_certificate cert)) }
    // What is spelled so is read, unless memory runs out.
    ensures read { (callbacks : format.Certificate) → IsTrue (format.is_certificate callbacks) →
        bytes.now ≡ format.full_spelling callbacks → MatchResult result (λ cert. cert ≡ callbacks) (λ e. e ≡ CertFault.OutOfMemory) }
    // A fault names the first malformed line.
    ensures fault { MatchResult result (λ _. Unit {0}) (λ e. spec.IsFullFaultOf bytes.now e) }
{
    let mut lines = Lines::new(bytes);
    match certificate(alloc, &mut lines) {
        Ok(callbacks) => Ok(FullCert::new(callbacks).unwrap()),
        Err(fault) => Err(fault),
    }
}
