//! The answer of `compare`: where C files and their annotations differ, and how much was compared.

ghost use Rattle.std.specs.Prelude.{◌≡◌, ◌+◌, Err, IfOk, MatchResult, Ok, map};
ghost use Rattle.flt_c_drift.specs.Drifts.{drifts as drifts_of};
ghost use Rattle.flt_commands_texts.specs.Compare as spec;
ghost use Rattle.flt_files.specs.Inputs.{Says};
ghost use Rattle.flt_files.specs.Names.{names_of};
ghost use Rattle.flt_words.specs.Request.{Compare};

use crate::answer::TextAnswer;
use crate::comparison::Comparison;
use crate::extract::name_of;
use flt_c::{Flaw, extract};
use flt_c_drift::{drifts, report_drifts};
use flt_files::{Contents, Failure, Inputs, read_all};
use std::alloc::{AllocError, Global};
use std::slice::from_ref;

/// The reports on a file, and how many lines of annotations it has.
#[derive(Drop)]
struct Found {
    reports: Vec<u8>,
    lines: usize,
}

/// The reports on a file that has so many lines of annotations, or why it can't be read.
fn found_beside(
    alloc: Global,
    name: &str,
    file: &[u8],
    lines: usize,
) -> Result<Result<Found, Flaw>, AllocError>
    ensures { IfOk result (λ done. MatchResult done
        (λ found. spec.found_beside name.now file.now lines (drifts_of file.now) ≡ Ok (spec.found_as found.reports.items found.lines))
        (λ flaw. spec.found_beside name.now file.now lines (drifts_of file.now) ≡ Err flaw)) }
{
    match drifts(alloc, file)? {
        Ok(found) => {
            let reports = report_drifts(alloc, name, file, found.as_slice())?;
            Ok(Ok(Found { reports, lines }))
        }
        Err(flaw) => Ok(Err(flaw)),
    }
}

/// The reports on a file and how many lines of annotations it has, or why these make no text.
fn found_in(alloc: Global, name: &str, file: &Vec<u8>) -> Result<Result<Found, Flaw>, AllocError>
    ensures { IfOk result (λ done. MatchResult done
        (λ found. spec.found_in name.now file.now.items ≡ Ok (spec.found_as found.reports.items found.lines))
        (λ flaw. spec.found_in name.now file.now.items ≡ Err flaw)) }
{
    match extract(alloc, from_ref(file))? {
        Ok(text) => found_beside(alloc, name, file.as_slice(), text.lines.len()),
        Err(flawed) => Ok(Err(flawed.flaw)),
    }
}

fn sum(a: usize, b: usize) -> Result<usize, AllocError>
    ensures { IfOk result (λ n. n ≡ a + b) }
{
    match a.checked_add(b) {
        Some(n) => Ok(n),
        None => Err(AllocError),
    }
}

/// The answer on the files of some names: the comparison of all of them, or the first one that can't be compared.
fn compare_texts<'a>(
    alloc: Global,
    names: &[&'a str],
    files: &[Vec<u8>],
) -> Result<TextAnswer, Failure<'a>>
    ensures { spec.IsCompared (map (λ name. name.now) names.now) (map (λ file. file.items) files.now) result }
{
    let mut reports = Vec::new(alloc);
    let mut lines: usize = 0;
    for (number, file) in files.iter().enumerate() {
        let name = name_of(names, number);
        match found_in(alloc, name, file)? {
            Ok(found) => {
                reports.extend_from_slice(found.reports.as_slice())?;
                lines = sum(lines, found.lines)?;
            }
            Err(flaw) => return Err(Failure::Flawed(name, flaw)),
        }
    }
    let files = files.len();
    Ok(TextAnswer::Compared(Comparison {
        reports,
        lines,
        files,
    }))
}

/// The answer of `compare` on the names that it is given, and the files of these names. A file that has no annotation can't be compared,
/// nor can one whose annotations `extract` refuses.
pub fn compare_files<'a, I: Inputs>(
    alloc: Global,
    inputs: &I,
    files: &[&'a str],
    contents: &mut Contents,
) -> Result<TextAnswer, Failure<'a>>
    ensures { Says (I.gives inputs.now) (names_of (Compare (map (λ name. name.now) files.now)))
        (spec.IsCompared (map (λ name. name.now) files.now)) (map (λ text. text.items) contents.new.texts.items) result }
{
    contents.texts = read_all(alloc, inputs, files)?;
    compare_texts(alloc, files, contents.texts.as_slice())
}
