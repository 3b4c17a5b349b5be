//! The drifts of C files, as `explain` prints them before all else.

ghost use Rattle.std.specs.Prelude.{◌≡◌, ◌++◌, IfOk, OnOk, map};
ghost use Rattle.flt_commands_explain.specs.Drifts as spec;
ghost use Rattle.flt_joined.specs.Texts.{given_of, givens};

use flt_c_drift::{Drift, DriftKind, code, drift_lines, drifts, report_drifts};
use flt_explain_forms::drift_objects;
use flt_explain_parts::DriftedFile;
use flt_joined::GivenFile;
use flt_words::{Form, visible};
use sqlite_items::Items;
use std::alloc::{AllocError, Global};

// ---- the drifts of one file

fn is_left_out(allowed: &[&str], kind: DriftKind) -> bool
    ensures { result ≡ spec.is_left_out (map (λ name. name.now) allowed.now) kind }
{
    let code = code(kind);
    for name in allowed {
        if code == *name {
            return true;
        }
    }
    false
}

/// Adds a drift, unless it is left out.
fn put_unless(out: &mut Vec<Drift>, is_left_out: bool, drift: Drift) -> Result<(), AllocError>
    ensures { OnOk result (out.new.items ≡ out.old.items ++ spec.unless is_left_out drift) }
{
    if !is_left_out {
        out.push(drift)?;
    }
    Ok(())
}

/// The drifts that aren't left out.
fn shown_among(alloc: Global, allowed: &[&str], found: &[Drift]) -> Result<Vec<Drift>, AllocError>
    ensures { IfOk result (λ shown. shown.items ≡ spec.shown_among (map (λ name. name.now) allowed.now) found.now) }
{
    let mut shown = Vec::new(alloc);
    for drift in found {
        put_unless(&mut shown, is_left_out(allowed, drift.kind), *drift)?;
    }
    Ok(shown)
}

/// The drifts of a C file that are shown; none if it can't be compared.
fn shown_drifts(alloc: Global, allowed: &[&str], file: &[u8]) -> Result<Items<Drift>, AllocError>
    ensures { IfOk result (λ shown. shown ≡ spec.shown_drifts (map (λ name. name.now) allowed.now) file.now) }
{
    match drifts(alloc, file)? {
        Ok(found) => {
            let shown = shown_among(alloc, allowed, found.as_slice())?;
            Ok(Items::from_vec(shown))
        }
        Err(_) => Ok(Items::new(alloc)),
    }
}

// ---- the drifts of all files

/// Adds a file with its drifts that are shown, if it is a C file.
fn add_file<'s>(
    alloc: Global,
    drifted: &mut Vec<DriftedFile<'s>>,
    allowed: &[&str],
    file: &'s GivenFile<'s>,
) -> Result<(), AllocError>
    ensures { OnOk result (map spec.drifts_in drifted.new.items ≡ map spec.drifts_in drifted.old.items
        ++ spec.drifts_of (map (λ name. name.now) allowed.now) (given_of file.now)) }
{
    if let Some(code) = &file.code {
        let code = code.as_slice();
        let drifts = shown_drifts(alloc, allowed, code)?;
        drifted.push(DriftedFile {
            name: file.name,
            file: code,
            drifts,
        })?;
    }
    Ok(())
}

/// The C files among some files, with their drifts, except for kinds of the names `allowed`.
pub(crate) fn drifted_files<'s>(
    alloc: Global,
    allowed: &[&str],
    files: &'s [GivenFile<'s>],
) -> Result<Vec<DriftedFile<'s>>, AllocError>
    ensures { IfOk result (λ drifted. spec.AreDrifted (map (λ name. name.now) allowed.now) (givens files.now) drifted.items) }
{
    let mut drifted = Vec::new(alloc);
    for file in files {
        add_file(alloc, &mut drifted, allowed, file)?;
    }
    Ok(drifted)
}

// ---- how they are printed

/// The drifts of a C file, as a form prints them.
fn part(alloc: Global, form: Form, drifted: &DriftedFile<'_>) -> Result<Vec<u8>, AllocError>
    ensures { IfOk result (λ bytes. bytes.items ≡ spec.part form drifted.now) }
{
    let DriftedFile { name, file, drifts } = drifted;
    match form {
        Form::Human | Form::Html => report_drifts(alloc, name, file, drifts.as_slice()),
        Form::Short => {
            let name = visible(alloc, name)?;
            drift_lines(alloc, name.as_str(), file, drifts.as_slice())
        }
        Form::Lines | Form::LinesWithRuns => drift_objects(alloc, name, file, drifts.as_slice()),
        Form::Sarif | Form::SarifWithRuns => Ok(Vec::new(alloc)),
    }
}

/// The end of the drifts that a form prints.
fn gap(form: Form, printed: &[u8]) -> &'static [u8]
    ensures { result.now ≡ spec.gap form printed.now }
{
    match printed {
        [] => &[],
        [_, ..] => match form {
            Form::Human | Form::Html => b"\n",
            _ => &[],
        },
    }
}

/// The drifts of some files, as a form prints them.
pub(crate) fn tell_drifts(
    alloc: Global,
    form: Form,
    drifted: &[DriftedFile<'_>],
) -> Result<Vec<u8>, AllocError>
    ensures { IfOk result (λ printed. printed.items ≡ spec.drifts_told form drifted.now) }
{
    let mut printed = Vec::new(alloc);
    for file in drifted {
        let more = part(alloc, form, file)?;
        printed.extend_from_slice(more.as_slice())?;
    }
    let end = gap(form, printed.as_slice());
    printed.extend_from_slice(end)?;
    Ok(printed)
}
