//! The faults of texts that don't parse, as JSON.

ghost use Rattle.std.specs.Prelude.{◌≡◌, ◌++◌, IfOk, codes, map};
ghost use Rattle.flt_explain_forms.specs.Fault as spec;
ghost use Rattle.flt_explain_parts.specs.Members.{Adds, array_member, line_of, text_items};

use crate::preface::put_preface;
use flt_explain_hints::{Choices, ExpectedWord, FaultExplanation, Trouble};
use flt_explain_parts::{
    close_object, home_of, open_object, place_of, put_bytes, put_filled, put_number, put_string,
    put_text, put_texts,
};
use flt_explain_texts::fault_name;
use flt_places::{Files, file_column_up_to};
use flt_syntax::SyntaxFault;
use flt_tree::Position;
use json::Writer;
use sqlite_items::Items;
use std::alloc::{AllocError, Global};

/// The column of the last byte of the text at which a text is refused.
fn last_column(files: &Files<'_>, fault: SyntaxFault, found: &[u8]) -> usize
    ensures { result ≡ spec.last_column files.now fault found.now }
{
    file_column_up_to(files, place_of(fault), found.len())
}

/// Writes a place, and the last column of the bytes that are found there.
fn put_fault_place(writer: &mut Writer, first: Position, last: usize) -> Result<(), AllocError>
    ensures { Adds result writer.old writer.new (spec.fault_place first last) }
{
    put_number(writer, "line", first.line)?;
    put_number(writer, "column", first.column)?;
    put_number(writer, "end_line", first.line)?;
    put_number(writer, "end_column", last)
}

fn put_place(
    writer: &mut Writer,
    files: &Files<'_>,
    fault: SyntaxFault,
    found: &[u8],
) -> Result<(), AllocError>
    ensures { Adds result writer.old writer.new (spec.place files.now fault found.now) }
{
    put_fault_place(
        writer,
        files.file_place(place_of(fault)),
        last_column(files, fault, found),
    )?;
    put_string(writer, "rule", fault_name(fault.kind))
}

/// The words that are expected, in order.
fn words_of(
    alloc: Global,
    expected: &Items<ExpectedWord>,
) -> Result<Items<&'static [u8]>, AllocError>
    ensures { IfOk result (λ ws. map (λ w. w.now) ws ≡ map (λ e. e.word.now) expected.now) }
{
    let mut words = Items::new(alloc);
    for one in expected.as_slice() {
        words.push(one.word)?;
    }
    Ok(words)
}

fn put_expected(
    alloc: Global,
    writer: &mut Writer,
    expected: &Items<ExpectedWord>,
) -> Result<(), AllocError>
    ensures { Adds result writer.old writer.new
        (array_member (codes "expected") (text_items (map (λ e. e.word.now) expected.now))) }
{
    let words = words_of(alloc, expected)?;
    put_texts(alloc, writer, "expected", words.as_slice())
}

fn put_names(alloc: Global, writer: &mut Writer, names: &Items<&[u8]>) -> Result<(), AllocError>
    ensures { Adds result writer.old writer.new
        (array_member (codes "names") (text_items (map (λ n. n.now) names.now))) }
{
    put_texts(alloc, writer, "names", names.as_slice())
}

fn put_choices(alloc: Global, writer: &mut Writer, choices: &Choices<'_>) -> Result<(), AllocError>
    ensures { Adds result writer.old writer.new (spec.choices choices.now) }
{
    put_expected(alloc, writer, &choices.expected)?;
    put_names(alloc, writer, &choices.names)
}

/// Writes a fault of a file, with how to fix it.
fn put_fault(
    alloc: Global,
    writer: &mut Writer,
    files: &Files<'_>,
    trouble: &Trouble<'_>,
    told: &FaultExplanation,
    help: &Vec<u8>,
) -> Result<(), AllocError>
    ensures { Adds result writer.old writer.new
        (spec.fault files.now trouble.now told.now.title.items help.now.items) }
{
    open_object(writer)?;
    put_preface(writer, "fault", files.file_name(home_of(files, trouble)))?;
    put_place(writer, files, trouble.spot.fault, trouble.spot.bytes)?;
    put_bytes(alloc, writer, "found", Some(trouble.spot.bytes))?;
    put_choices(alloc, writer, &trouble.choices)?;
    put_bytes(alloc, writer, "meant", trouble.meant)?;
    put_text(alloc, writer, "message", &told.title)?;
    put_filled(alloc, writer, "help", help)?;
    close_object(writer)
}

/// Adds a fault on a line of its own to the output.
pub(crate) fn put_fault_line(
    alloc: Global,
    out: Vec<u8>,
    files: &Files<'_>,
    trouble: &Trouble<'_>,
    told: &FaultExplanation,
    help: &Vec<u8>,
) -> Result<Vec<u8>, AllocError>
    ensures { IfOk result (λ v. v.items ≡ out.items ++
        line_of (spec.fault files.now trouble.now told.now.title.items help.now.items)) }
{
    let mut writer = Writer::new(out);
    put_fault(alloc, &mut writer, files, trouble, told, help)?;
    let mut out = writer.into_inner();
    out.push(b'\n')?;
    Ok(out)
}
