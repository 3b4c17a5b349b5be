//! The report of a text, part by part, and what writes it.

ghost use Rattle.std.specs.Prelude.{◌≡◌, ◌++◌, [], OnOk, flat_map};
ghost use Rattle.flt_explain_runs.specs.Parts as spec;
ghost use Rattle.flt_explain_runs.specs.Quiet.{quieted};

use crate::quiet::put_quiet;
use crate::totals::Tally;
use flt_explain_outcomes::Note;
use sqlite_items::Items;
use std::alloc::{AllocError, Global};

/// A line on runs, and the rows after it. Both are empty if nothing is known of runs.
#[derive(Drop)]
pub(crate) struct RunLines {
    pub(crate) line: Vec<u8>,
    pub(crate) rows: Vec<u8>,
}

/// A group of findings: its report, the note on its first, and the outcome of that with one more callback.
#[derive(Drop)]
pub(crate) struct Block {
    pub(crate) report: Vec<u8>,
    pub(crate) note: RunLines,
    pub(crate) again: RunLines,
}

/// A text's report above its last line.
#[derive(Drop)]
pub(crate) enum Body {
    /// Lines that aren't on runs.
    Lines(Vec<u8>),
    /// Groups of findings, and the notes on their firsts.
    Findings(Vec<Block>, Items<Note>),
}

/// The report of a text: the part above its last line, that line, and its tally.
#[derive(Drop)]
pub(crate) struct TextReport {
    pub(crate) body: Body,
    pub(crate) closing: String,
    pub(crate) tally: Tally,
}

impl RunLines {
    /// No lines.
    pub(crate) fn none(alloc: Global) -> RunLines
        ensures line { result.line.items ≡ [] }
        ensures rows { result.rows.items ≡ [] }
    {
        RunLines {
            line: Vec::new(alloc),
            rows: Vec::new(alloc),
        }
    }
}

/// Writes blocks. Only their lines on runs begin as such.
fn write_blocks(out: &mut Vec<u8>, blocks: &[Block]) -> Result<(), AllocError>
    ensures { OnOk result (out.new.items ≡ out.old.items ++ flat_map spec.block_bytes blocks.now) }
{
    for block in blocks {
        put_quiet(out, block.report.as_slice())?;
        out.extend_from_slice(block.note.line.as_slice())?;
        put_quiet(out, block.note.rows.as_slice())?;
        out.extend_from_slice(block.again.line.as_slice())?;
        put_quiet(out, block.again.rows.as_slice())?;
    }
    Ok(())
}

/// Writes the report of a text: the part above its last line, and that line. None of its other lines is taken for one on runs.
pub(crate) fn write(out: &mut Vec<u8>, body: &Body, closing: &str) -> Result<(), AllocError>
    ensures { OnOk result (out.new.items ≡ out.old.items ++ (spec.body_bytes body.now ++ quieted closing.now)) }
{
    match body {
        Body::Lines(lines) => put_quiet(out, lines.as_slice())?,
        Body::Findings(blocks, _) => write_blocks(out, blocks.as_slice())?,
    }
    put_quiet(out, closing.as_bytes())
}
