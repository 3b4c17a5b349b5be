//! The answer of `draft --functions`: which functions and tables of C files are read.

ghost use Rattle.std.specs.Prelude.{◌≡◌, map};
ghost use Rattle.flt_c_functions.specs.Options.{folders_by, lines_by, lines_of};
ghost use Rattle.flt_commands_texts.specs.Functions as spec;
ghost use Rattle.flt_files.specs.Inputs.{Says};
ghost use Rattle.flt_files.specs.Names.{names_of};
ghost use Rattle.flt_words.specs.Request.{Functions};

use crate::answer::TextAnswer;
use crate::extract::name_of;
use crate::header_inputs::HeaderInputs;
use flt_c::Flaw;
use flt_c_functions::{Options, functions};
use flt_c_tokens::Excess;
use flt_files::{Contents, Failure, Inputs, read_all};
use std::alloc::Global;

/// How it is reported that the file of a name isn't read.
fn stopped<'a>(name: &'a str, excess: Excess) -> Failure<'a>
    ensures { result ≡ spec.stopped name.entry excess }
{
    match excess {
        Excess::LargeFile => Failure::Flawed(name, Flaw::Large),
        Excess::TooManySpellings { line, column } => Failure::TooManyWords(name, line, column),
    }
}

/// The answer on files of some names.
fn list_texts<'a, I: Inputs>(
    alloc: Global,
    inputs: &I,
    options: Options<'_>,
    names: &[&'a str],
    files: &[Vec<u8>],
) -> Result<TextAnswer, Failure<'a>>
    ensures { spec.AreListed (I.gives inputs.now) (folders_by options.entry) (lines_by options.entry) (map (λ name. name.now) names.now)
        (map (λ file. file.items) files.now) result }
{
    match functions(alloc, &HeaderInputs { inputs }, options, names, files)? {
        Ok(found) => Ok(TextAnswer::Listed(found)),
        Err((number, excess)) => Err(stopped(name_of(names, number), excess)),
    }
}

/// The answer of `draft --functions` on the names that it is given, whose bytes `contents` gets. The definitions are NAME or NAME=VALUE; names
/// that are no macros count after them. Headers are looked for in the folders, in this order.
pub fn list_functions<'a, I: Inputs>(
    alloc: Global,
    inputs: &I,
    defined: &[&str],
    undefined: &[&str],
    folders: &[&str],
    files: &[&'a str],
    contents: &mut Contents,
) -> Result<TextAnswer, Failure<'a>>
    ensures { Says (I.gives inputs.now)
        (names_of (Functions (map (λ text. text.now) defined.now) (map (λ name. name.now) undefined.now)
        (map (λ name. name.now) folders.now) (map (λ name. name.now) files.now)))
        (spec.AreListed (I.gives inputs.now) (map (λ name. name.now) folders.now)
        (lines_of (map (λ text. text.now) defined.now) (map (λ name. name.now) undefined.now)) (map (λ name. name.now) files.now))
        (map (λ text. text.items) contents.new.texts.items) result }
{
    contents.texts = read_all(alloc, inputs, files)?;
    let options = Options {
        defined,
        undefined,
        folders,
    };
    list_texts(alloc, inputs, options, files, contents.texts.as_slice())
}
