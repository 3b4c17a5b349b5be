//! The drifts of C files: what each form writes of one, and the status that results.

ghost use Rattle.std.specs.Prelude.{◌≡◌, codes};
ghost use Rattle.flt_c_drift.specs.DriftWords as words;
ghost use Rattle.flt_explain_parts.specs.Drifted as spec;
ghost use Rattle.flt_explain_parts.specs.Members.{Adds, string_member};

use crate::members::put_string;
use flt_c_drift::{Drift, DriftKind, has_difference, help, is_difference};
use flt_places::{Lines, Region};
use flt_tree::Span;
use json::Writer;
use sqlite_items::Items;
use std::alloc::AllocError;

/// A C file, and the points in which it and its annotations differ.
#[derive(Drop)]
pub struct DriftedFile<'a> {
    pub name: &'a str,
    pub file: &'a [u8],
    /// In the order of their places.
    pub drifts: Items<Drift>,
}

// ---- a drift

fn level_word(kind: DriftKind) -> &'static str
    ensures { result.now ≡ spec.level_word kind }
{
    if is_difference(kind) {
        "warning"
    } else {
        "note"
    }
}

/// Writes whether a drift is a warning or a note.
pub fn put_drift_level(writer: &mut Writer, kind: DriftKind) -> Result<(), AllocError>
    ensures { Adds result writer.old writer.new (spec.level kind) }
{
    put_string(writer, "level", level_word(kind))
}

/// The region of `length` bytes of a file from byte `start` on, counted from 0.
pub fn region_at(lines: &Lines<'_>, start: usize, length: usize) -> Region
    ensures { result ≡ spec.region_at lines.now start length }
{
    let span = Span {
        line: 0,
        start,
        end: start,
    };
    lines.part(span, 0, length)
}

/// The region of the word that a drift is about.
pub fn region_of(lines: &Lines<'_>, drift: Drift) -> Region
    ensures { result ≡ spec.region_of lines.now drift }
{
    region_at(lines, drift.start, drift.length)
}

/// Writes how code and annotations are made to agree.
pub fn put_drift_help(writer: &mut Writer, kind: DriftKind) -> Result<(), AllocError>
    ensures { Adds result writer.old writer.new (string_member (codes "help") (words.help kind)) }
{
    put_string(writer, "help", help(kind))
}

// ---- the status

/// Whether code and annotations differ in one of some files.
fn is_drifted(drifted: &[DriftedFile<'_>]) -> bool
    ensures { result ≡ spec.is_drifted drifted.now }
{
    drifted
        .iter()
        .any(|file| has_difference(file.drifts.as_slice()))
}

/// The exit status that results from the drifts of C files: 1 if warnings count and code and annotations differ in one of the files; else
/// 0.
pub fn drift_status(is_strict: bool, drifted: &[DriftedFile<'_>]) -> u8
    ensures { result ≡ spec.drift_status is_strict drifted.now }
{
    if is_strict && is_drifted(drifted) {
        1
    } else {
        0
    }
}
