//! Paragraphs of pages.

ghost use Rattle.std.specs.Prelude.{◌≡◌, ◌++◌, IfOk, OnOk, map};
ghost use Rattle.flt_explain_parts.specs.Paragraphs as spec;

use flt_places::lines_of;
use std::alloc::{AllocError, Global};

/// The lines after the first one that is empty.
fn after_gap<'a, 'b>(lines: &'b [&'a [u8]]) -> &'b [&'a [u8]]
    ensures { map (λ l. l.now) result.now ≡ spec.after_gap (map (λ l. l.now) lines.now) }
{
    let mut rest = lines;
    while let [line, others @ ..] = rest {
        if line.is_empty() {
            return others;
        }
        rest = others;
    }
    rest
}

/// Adds lines up to one that is empty, each after a blank.
fn push_continued(out: &mut Vec<u8>, lines: &[&[u8]]) -> Result<(), AllocError>
    ensures { OnOk result (out.new.items ≡ out.old.items ++ spec.continued (map (λ l. l.now) lines.now)) }
{
    let mut rest = lines;
    while let [line, others @ ..] = rest {
        if line.is_empty() {
            return Ok(());
        }
        out.push(b' ')?;
        out.extend_from_slice(line)?;
        rest = others;
    }
    Ok(())
}

/// Lines up to one that is empty, as one line.
fn joined(alloc: Global, lines: &[&[u8]]) -> Result<Vec<u8>, AllocError>
    ensures { IfOk result (λ v. v.items ≡ spec.joined (map (λ l. l.now) lines.now)) }
{
    let mut out = Vec::new(alloc);
    if let [line, others @ ..] = lines {
        out.extend_from_slice(line)?;
        push_continued(&mut out, others)?;
    }
    Ok(out)
}

/// The first paragraph of a page after its title, as one line.
pub(crate) fn first_paragraph(alloc: Global, page: &[u8]) -> Result<Vec<u8>, AllocError>
    ensures { IfOk result (λ v. v.items ≡ spec.first_paragraph page.now) }
{
    let lines = lines_of(alloc, page)?;
    joined(alloc, after_gap(lines.as_slice()))
}
