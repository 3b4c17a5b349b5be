//! Texts that don't parse: where one is refused, and how to fix it.

ghost use Rattle.std.specs.Prelude.{◌≡◌, IfOk, codes, map, option_copied};
ghost use Rattle.flt_explain_parts.specs.Help as spec;

use flt_explain_hints::{FaultExplanation, OpenCall, Trouble};
use flt_explain_texts::line_words;
use flt_places::{Files, lines_of};
use flt_syntax::SyntaxFault;
use flt_tree::Position;
use std::alloc::{AllocError, Global};

/// The place at which a text is refused.
pub fn place_of(fault: SyntaxFault) -> Position
    ensures { result ≡ spec.place_of fault }
{
    Position {
        line: fault.line,
        column: fault.column,
    }
}

/// The beginning of the line that says how to fix a fault.
const HELP: &[u8] = b"   = help: ";

/// The text after `HELP`, if a line begins with it.
fn help_on(line: &[u8]) -> Option<&[u8]>
    ensures { option_copied result ≡ spec.behind (codes "   = help: ") line.now }
{
    line.strip_prefix(HELP)
}

/// The same for the first line that begins with it; empty if no line does.
fn first_help<'a>(lines: &[&'a [u8]]) -> &'a [u8]
    ensures { result.now ≡ spec.first_behind (codes "   = help: ") (map (λ l. l.now) lines.now) }
{
    let mut rest = lines;
    while let [line, others @ ..] = rest {
        if let Some(help) = help_on(line) {
            return help;
        }
        rest = others;
    }
    b""
}

/// How to fix a fault; empty if its notes don't say it.
///
/// # Errors
///
/// `AllocError` if a growth is refused.
#[tactic(auto, unfolding(crate::specs::Help::help_in))]
pub fn help_of(alloc: Global, told: &FaultExplanation) -> Result<Vec<u8>, AllocError>
    ensures { IfOk result (λ help. help.items ≡ spec.help_in told.now.notes.items) }
{
    let lines = lines_of(alloc, told.notes.as_slice())?;
    Vec::from_slice(alloc, first_help(lines.as_slice()))
}

/// The number of the file in which a text is refused, from 0.
pub fn home_of(files: &Files<'_>, trouble: &Trouble<'_>) -> usize
    ensures { result ≡ spec.home_of files.now trouble.now }
{
    files.file_at(trouble.spot.fault.line)
}

/// The line of a call that lacks an operand, by its name in a file; empty if no call does.
fn open_line_by(
    alloc: Global,
    files: &Files<'_>,
    home: usize,
    open_call: Option<OpenCall>,
) -> Result<Vec<u8>, AllocError>
    ensures { IfOk result (λ line. line.items ≡ spec.open_line_by files.now home open_call) }
{
    match open_call {
        None => Ok(Vec::new(alloc)),
        Some(call) => line_words(alloc, files, home, call.line),
    }
}

/// The line of the call that lacks an operand where a text is refused, by its name in a file; empty if no call does.
///
/// # Errors
///
/// `AllocError` if a growth is refused.
pub fn open_line(
    alloc: Global,
    files: &Files<'_>,
    trouble: &Trouble<'_>,
) -> Result<Vec<u8>, AllocError>
    ensures { IfOk result (λ line. line.items ≡ spec.open_line files.now trouble.now) }
{
    open_line_by(alloc, files, home_of(files, trouble), trouble.open_call)
}
