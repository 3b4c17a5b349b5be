//! The comments of a text that leave warnings out.

ghost use Rattle.std.specs.Prelude.{◌≡◌, ◌<◌, ◌+◌, ◌^◌, length, map, IfOk};
ghost use Rattle.flt_explain_warnings.specs.Allowances as spec;

use crate::comment::{Comment, after_blanks, end_of, is_comment, read_comment};
use crate::warning::Kind;
use flt_places::{Region, lines_of};
use flt_tree::Position;
use sqlite_items::Items;
use std::alloc::{AllocError, Global};

/// A comment that leaves a warning out.
#[derive(Drop)]
pub struct Allowance {
    /// The comment, from its `#` to the end of its line without the blanks there.
    pub region: Region,
    /// `None` if its number is unknown.
    pub kind: Option<Kind>,
    /// The text after the colon, without blanks at its ends. If it is empty, the comment allows nothing.
    pub reason: Items<u8>,
    /// The line, from 1, that it is for: the first one after it that is no such comment.
    pub statement: usize,
}

/// The region of a comment in a line of a text.
fn region_in(number: usize, line: &[u8]) -> Region
    ensures { result ≡ spec.region_in number line.now }
{
    let before = line.len().saturating_sub(after_blanks(line).len());
    Region {
        first: Position {
            line: number,
            column: before + 1,
        },
        end: Position {
            line: number,
            column: end_of(line) + 1,
        },
    }
}

/// The number of the first line that is no such comment, among lines of which the first has this number.
fn statement_from(number: usize, lines: &[&[u8]]) -> usize
    requires { number + length lines.now < 2 ^ 64 }
    ensures { result ≡ spec.statement_from number (map (λ l. l.now) lines.now) }
{
    let mut at = number;
    for line in lines {
        if !is_comment(line) {
            break;
        }
        at += 1;
    }
    at
}

/// The line that a comment is for: the one that is known, or else the one found in the lines that follow it.
fn statement_of(known: Option<usize>, number: usize, rest: &[&[u8]]) -> usize
    requires { number + length rest.now < 2 ^ 64 }
    ensures { result ≡ spec.known_or known (spec.statement_from number (map (λ l. l.now) rest.now)) }
{
    match known {
        Some(statement) => statement,
        None => statement_from(number, rest),
    }
}

fn allowance_with(
    alloc: Global,
    region: Region,
    statement: usize,
    comment: Comment<'_>,
) -> Result<Allowance, AllocError>
    ensures { IfOk result (λ a. a ≡ spec.allowance_with region statement comment.entry.kind comment.entry.reason.now) }
{
    Ok(Allowance {
        region,
        kind: comment.kind,
        reason: Items::from_slice(alloc, comment.reason)?,
        statement,
    })
}

/// The comments among some lines, of which the first has the number 1.
fn in_lines(alloc: Global, lines: &[&[u8]]) -> Result<Items<Allowance>, AllocError>
    ensures { IfOk result (λ all. all ≡ spec.allowances_in 1 (map (λ l. l.now) lines.now)) }
{
    let mut found = Items::new(alloc);
    let mut known = None;
    let mut number: usize = 0;
    for line in lines {
        number += 1;
        match read_comment(line) {
            Some(comment) => {
                let statement = statement_of(known, number + 1, &lines[number..]);
                found.push(allowance_with(alloc, region_in(number, line), statement, comment)?)?;
                known = Some(statement);
            }
            None => known = None,
        }
    }
    Ok(found)
}

/// The comments of a text that leave warnings out, in order.
///
/// # Errors
///
/// `AllocError` if a growth is refused.
#[tactic(auto, unfolding(crate::specs::Allowances::allowances_of))]
pub fn allowances(alloc: Global, text: &[u8]) -> Result<Items<Allowance>, AllocError>
    ensures { IfOk result (λ all. all ≡ spec.allowances_of text.now) }
{
    let lines = lines_of(alloc, text)?;
    in_lines(alloc, lines.as_slice())
}
