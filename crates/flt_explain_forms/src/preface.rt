//! The first members of each object of the form `lines`.

ghost use Rattle.flt_explain_forms.specs.Preface as spec;
ghost use Rattle.flt_explain_parts.specs.Members.{Adds};

use flt_explain_parts::{put_number, put_string};
use json::Writer;
use std::alloc::AllocError;

/// The number of the form. It grows if a member is removed or gets another meaning.
const VERSION: usize = 2;

/// Writes the number of the form, the kind of the line, and the file's name.
pub(crate) fn put_preface(writer: &mut Writer, kind: &str, name: &str) -> Result<(), AllocError>
    ensures { Adds result writer.old writer.new (spec.preface kind.now name.now) }
{
    put_number(writer, "version", VERSION)?;
    put_string(writer, "kind", kind)?;
    put_string(writer, "file", name)
}
