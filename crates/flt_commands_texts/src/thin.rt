//! The answer of `thin` to the names that it is given.

ghost use Rattle.std.specs.Prelude.{◌≡◌, IfOk, map, option_map};
ghost use Rattle.flt_cert.specs.Spelling.{spelling, thinned};
ghost use Rattle.flt_commands_texts.specs.Check.{Judges, JudgesTogether};
ghost use Rattle.flt_files.specs.Inputs.{Says};
ghost use Rattle.flt_files.specs.Names.{names_of};
ghost use Rattle.flt_commands_texts.specs.Thin.{IsThinned};
ghost use Rattle.flt_commands_texts.specs.Thin as spec;
ghost use Rattle.flt_words.specs.Request.{Thin};

use crate::answer::TextAnswer;
use flt_cert::Cert;
use flt_check::check;
use flt_files::{Contents, Failure, Inputs, certificate_start, read_all};
use flt_graph::{Graph, lower};
use flt_syntax::parse;
use std::alloc::{AllocError, Global};

/// A certificate, thinned, as it is written.
pub(crate) fn write_thinned(
    alloc: Global,
    graph: &Graph,
    cert: &Cert,
) -> Result<Vec<u8>, AllocError>
    ensures { IfOk result (λ bytes. bytes.items ≡ spelling (thinned graph.now cert.now)) }
{
    let left = flt_cert::thin(alloc, graph, cert)?;
    flt_cert::write(alloc, &left)
}

/// The answer of `thin` to a text and its certificate.
fn thin_text<'a>(alloc: Global, text: &[u8], certificate: &[u8]) -> Result<TextAnswer, Failure<'a>>
    ensures { Judges spec.Decides text.now certificate.now result }
{
    let tree = parse(alloc, text)?;
    let cert = flt_cert::read(alloc, certificate)?;
    let graph = lower(alloc, &tree)?;
    match check(&graph, &cert) {
        Ok(()) => Ok(TextAnswer::Certificate(write_thinned(alloc, &graph, &cert)?)),
        Err(refusal) => Ok(TextAnswer::Refused(refusal)),
    }
}

/// The same for a text and its certificate in one input.
fn thin_together<'a>(alloc: Global, input: &[u8]) -> Result<TextAnswer, Failure<'a>>
    ensures { JudgesTogether spec.Decides input.now result }
{
    let (text, certificate) = input.split_at(certificate_start(input));
    thin_text(alloc, text, certificate)
}

/// The answer of `thin` to the names that it is given; `contents` becomes the bytes that these give.
pub fn thin_files<'a, I: Inputs>(
    alloc: Global,
    inputs: &I,
    file: &'a str,
    cert: Option<&'a str>,
    contents: &mut Contents,
) -> Result<TextAnswer, Failure<'a>>
    ensures { Says (I.gives inputs.now) (names_of (Thin file.entry.now (option_map (λ name. name.now) cert.entry))) IsThinned
        (map (λ text. text.items) contents.new.texts.items) result }
{
    match cert {
        None => {
            contents.texts = read_all(alloc, inputs, &[file])?;
            thin_together(alloc, contents.texts[0].as_slice())
        }
        Some(cert) => {
            contents.texts = read_all(alloc, inputs, &[file, cert])?;
            thin_text(
                alloc,
                contents.texts[0].as_slice(),
                contents.texts[1].as_slice(),
            )
        }
    }
}
