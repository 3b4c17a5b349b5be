//! Texts without findings and warnings, as JSON.

ghost use Rattle.std.specs.Prelude.{◌≡◌, ◌++◌, IfOk};
ghost use Rattle.flt_explain_forms.specs.Clean as spec;
ghost use Rattle.flt_explain_forms.specs.declared.as_lines.Style.TheVariants.{Object};
ghost use Rattle.flt_explain_parts.specs.Members.{Adds, line_of};

use crate::as_lines::Style;
use crate::preface::put_preface;
use flt_explain::Finding;
use flt_explain_parts::{close_object, open_object};
use flt_explain_texts::TextJudgement;
use flt_explain_warning_details::WarningDetail;
use json::Writer;
use std::alloc::AllocError;

fn has_none(warned: &[WarningDetail]) -> bool
    ensures { result ≡ spec.has_none warned.now }
{
    match warned {
        [] => true,
        [_, ..] => false,
    }
}

fn is_nothing(found: &[Finding], warned: &[WarningDetail]) -> bool
    ensures { result ≡ spec.is_nothing found.now warned.now }
{
    match found {
        [] => has_none(warned),
        [_, ..] => false,
    }
}

/// Whether a text parses and has neither findings nor warnings.
fn is_clean(judged: &TextJudgement, warned: &[WarningDetail]) -> bool
    ensures { result ≡ spec.is_clean judged.now warned.now }
{
    match judged {
        TextJudgement::Unread(_) => false,
        TextJudgement::Known(_, _, found) => is_nothing(found.as_slice(), warned),
    }
}

fn put_clean(writer: &mut Writer, name: &str) -> Result<(), AllocError>
    ensures { Adds result writer.old writer.new (spec.clean name.now) }
{
    open_object(writer)?;
    put_preface(writer, "clean", name)?;
    close_object(writer)
}

/// Adds the line of such a text to the output.
fn put_line(out: Vec<u8>, name: &str) -> Result<Vec<u8>, AllocError>
    ensures { IfOk result (λ v. v.items ≡ out.items ++ line_of (spec.clean name.now)) }
{
    let mut writer = Writer::new(out);
    put_clean(&mut writer, name)?;
    let mut out = writer.into_inner();
    out.push(b'\n')?;
    Ok(out)
}

fn put_object(
    out: Vec<u8>,
    name: &str,
    judged: &TextJudgement,
    warned: &[WarningDetail],
) -> Result<Vec<u8>, AllocError>
    ensures { IfOk result (λ v. v.items ≡ out.items ++ spec.clean_lines Object name.now judged.now warned.now) }
{
    if is_clean(judged, warned) {
        put_line(out, name)
    } else {
        Ok(out)
    }
}

/// Adds the line of a text to the output, if it is such a text and lines are objects.
pub(crate) fn put_clean_lines(
    out: Vec<u8>,
    style: Style,
    name: &str,
    judged: &TextJudgement,
    warned: &[WarningDetail],
) -> Result<Vec<u8>, AllocError>
    ensures { IfOk result (λ v. v.items ≡ out.items ++ spec.clean_lines style name.now judged.now warned.now) }
{
    match style {
        Style::Object => put_object(out, name, judged, warned),
        Style::Sentence => Ok(out),
    }
}
