//! Fingerprints of results, whatever lines they are on.

ghost use Rattle.std.specs.Prelude.{◌≡◌, ◌≤◌, ◌-◌, ◌∷◌, ◌++◌, [], IfOk, Some, drop, length, min, string_bytes, take};
ghost use Rattle.flt_explain_sarif.specs.Fingerprints as spec;

use flt_explain_details::{Detail, Maker};
use flt_explain_warning_details::WarningDetail;
use flt_places::{Lines, Region};
use sqlite_items::Items;
use std::alloc::{AllocError, Global};
use std::fmt;

// ---- what is at a place

/// The number of bytes before a region's end in the line in which it begins.
fn width(line: &[u8], region: Region) -> usize
    ensures { result ≡ min (spec.width line.now region) (length line.now) }
{
    if region.end.line == region.first.line {
        region.end.column.saturating_sub(1).min(line.len())
    } else {
        line.len()
    }
}

/// The bytes before a region's end in the line in which it begins.
#[tactic(auto, using(crate::proofs::Fronts::within))]
fn front(line: &[u8], region: Region) -> &[u8]
    ensures { result.now ≡ take (spec.width line.now region) line.now }
{
    &line[..width(line, region)]
}

/// A line from a column on.
#[tactic(auto, using(crate::proofs::Fronts::past))]
fn from_column(line: &[u8], column: usize) -> &[u8]
    ensures { result.now ≡ drop (column - 1) line.now }
{
    &line[column.saturating_sub(1).min(line.len())..]
}

/// The text of a region in the line in which it begins.
pub(crate) fn text_in<'a>(lines: &Lines<'a>, region: Region) -> &'a [u8]
    ensures { result.now ≡ spec.text_in lines.now region }
{
    from_column(
        front(lines.line(region.first.line), region),
        region.first.column,
    )
}

/// The word that a warning names, or another one; empty if there is none.
pub(crate) fn word_in<'a>(lines: &Lines<'a>, operand: Option<Region>) -> &'a [u8]
    ensures { result.now ≡ spec.word_in lines.now operand }
{
    match operand {
        None => b"",
        Some(region) => text_in(lines, region),
    }
}

/// The statement that caused a finding, or its own.
fn made_at(origin: &Option<Maker>, statement: Region) -> Region
    ensures { result ≡ spec.made_at origin.now statement }
{
    match origin {
        None => statement,
        Some(maker) => maker.marks.statement,
    }
}

// ---- keys

fn parts(
    alloc: Global,
    rule: &str,
    head: &[u8],
    subject: &[u8],
    statement: &[u8],
) -> Result<Vec<u8>, AllocError>
    ensures { IfOk result (λ parts. parts.items ≡ spec.parts rule.now head.now subject.now statement.now) }
{
    let mut parts = Vec::new(alloc);
    parts.extend_from_slice(rule.as_bytes())?;
    parts.extend_from_slice(b"; ")?;
    parts.extend_from_slice(head)?;
    parts.extend_from_slice(b"; ")?;
    parts.extend_from_slice(subject)?;
    parts.extend_from_slice(b"; ")?;
    parts.extend_from_slice(statement)?;
    Ok(parts)
}

pub(crate) fn key_of(
    alloc: Global,
    rule: &str,
    head: &[u8],
    subject: &[u8],
    statement: &[u8],
) -> Result<String, AllocError>
    ensures { IfOk result (λ key. string_bytes key ≡ spec.key_of rule.now head.now subject.now statement.now) }
{
    let parts = parts(alloc, rule, head, subject, statement)?;
    String::from_utf8_lossy(alloc, parts.as_slice())
}

/// The key of a finding in a text of these lines.
pub(crate) fn finding_key(
    alloc: Global,
    lines: &Lines<'_>,
    detail: &Detail,
) -> Result<String, AllocError>
    ensures { IfOk result (λ key. string_bytes key ≡ spec.finding_key lines.now detail.now) }
{
    let words = &detail.words;
    let statement = made_at(&detail.route.origin, detail.marks.statement);
    key_of(
        alloc,
        detail.finding.rule.name(),
        words.head.as_slice(),
        words.subject.as_slice(),
        text_in(lines, statement),
    )
}

/// The key of a warning in a text of these lines.
pub(crate) fn warning_key(
    alloc: Global,
    lines: &Lines<'_>,
    detail: &WarningDetail,
) -> Result<String, AllocError>
    ensures { IfOk result (λ key. string_bytes key ≡ spec.warning_key lines.now detail.now) }
{
    key_of(
        alloc,
        detail.kind.name(),
        detail.head.as_slice(),
        word_in(lines, detail.marks.operand),
        text_in(lines, detail.marks.statement),
    )
}

// ---- fingerprints

/// A key and a number.
#[derive(Drop)]
struct KeyedNumber<'a> {
    key: &'a str,
    number: usize,
}

impl fmt::Display for KeyedNumber<'_> {
    ghost output = { λ l. Some (spec.labelled l.key.now l.number) };

    fn fmt<W: fmt::Write>(&self, f: &mut fmt::Formatter<W>) -> fmt::Result {
        let key = self.key;
        let number = self.number;
        write!(f, "{key}; {number}")
    }
}

fn is_same(key: &[u8], other: &Items<u8>) -> bool
    ensures { result ≡ spec.is_same key.now other.now }
{
    other.as_slice() == key
}

/// The number of earlier results that have the same key.
fn times(before: &[Items<u8>], key: &[u8]) -> usize
    ensures exact { result ≡ spec.times before.now key.now }
    ensures within { result ≤ length before.now }
{
    let mut times = 0;
    for other in before {
        if is_same(key, other) {
            times += 1;
        }
    }
    times
}

/// The fingerprint of a result with this key, after results with the keys `before`.
fn fingerprint(alloc: Global, before: &[Items<u8>], key: &str) -> Result<String, AllocError>
    ensures { IfOk result (λ print. string_bytes print ≡ spec.fingerprint before.now key.now) }
{
    let labelled = KeyedNumber {
        key,
        number: times(before, key.as_bytes()),
    };
    format!(in alloc; "{labelled}")
}

/// The fingerprint of the next result, whose key is added to those before.
pub(crate) fn next_fingerprint(
    alloc: Global,
    before: &mut Items<Items<u8>>,
    key: &str,
) -> Result<String, AllocError>
    ensures { IfOk result (λ print. (string_bytes print ≡ spec.fingerprint before.old key.now)
        × (before.new ≡ before.old ++ key.now ∷ [])) }
{
    let print = fingerprint(alloc, before.as_slice(), key)?;
    before.push(Items::from_slice(alloc, key.as_bytes())?)?;
    Ok(print)
}
