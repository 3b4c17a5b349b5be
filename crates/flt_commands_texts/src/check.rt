//! The answer of `check` to the names that it is given.

ghost use Rattle.std.specs.Prelude.{map, option_map};
ghost use Rattle.flt_commands_texts.specs.Check as spec;
ghost use Rattle.flt_commands_texts.specs.Check.{IsChecked};
ghost use Rattle.flt_files.specs.Inputs.{Says};
ghost use Rattle.flt_files.specs.Names.{names_of};
ghost use Rattle.flt_words.specs.Request.{Check};

use crate::answer::TextAnswer;
use flt_check::check;
use flt_files::{Contents, Failure, Inputs, certificate_start, read_all};
use flt_graph::lower;
use flt_syntax::parse;
use std::alloc::Global;

/// Whether a certificate covers a text.
fn check_text<'a>(alloc: Global, text: &[u8], certificate: &[u8]) -> Result<TextAnswer, Failure<'a>>
    ensures { spec.Judges spec.Decides text.now certificate.now result }
{
    let tree = parse(alloc, text)?;
    let cert = flt_cert::read(alloc, certificate)?;
    let graph = lower(alloc, &tree)?;
    match check(&graph, &cert) {
        Ok(()) => Ok(TextAnswer::Accepted),
        Err(refusal) => Ok(TextAnswer::Refused(refusal)),
    }
}

/// The same for a text and its certificate in one input.
fn check_together<'a>(alloc: Global, input: &[u8]) -> Result<TextAnswer, Failure<'a>>
    ensures { spec.JudgesTogether spec.Decides input.now result }
{
    let (text, certificate) = input.split_at(certificate_start(input));
    check_text(alloc, text, certificate)
}

/// The answer of `check` to the names that it is given; `contents` becomes the bytes that these give.
pub fn check_files<'a, I: Inputs>(
    alloc: Global,
    inputs: &I,
    file: &'a str,
    cert: Option<&'a str>,
    contents: &mut Contents,
) -> Result<TextAnswer, Failure<'a>>
    ensures { Says (I.gives inputs.now) (names_of (Check file.entry.now (option_map (λ name. name.now) cert.entry))) IsChecked
        (map (λ text. text.items) contents.new.texts.items) result }
{
    match cert {
        None => {
            contents.texts = read_all(alloc, inputs, &[file])?;
            check_together(alloc, contents.texts[0].as_slice())
        }
        Some(cert) => {
            contents.texts = read_all(alloc, inputs, &[file, cert])?;
            check_text(
                alloc,
                contents.texts[0].as_slice(),
                contents.texts[1].as_slice(),
            )
        }
    }
}
