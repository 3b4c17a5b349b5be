//! The answer of `analyse` to the name that it is given.

ghost use Rattle.std.specs.Prelude.{map};
ghost use Rattle.flt_commands_texts.specs.Analyse as spec;
ghost use Rattle.flt_commands_texts.specs.Analyse.{IsAnalysed};
ghost use Rattle.flt_files.specs.Inputs.{Says};
ghost use Rattle.flt_files.specs.Names.{names_of};
ghost use Rattle.flt_words.specs.Request.{Analyse};

use crate::answer::TextAnswer;
use crate::thin::write_thinned;
use flt_analyse::{AnalyseFault, analyse_plainly};
use flt_cert::Cert;
use flt_files::{Contents, Failure, Inputs, read_all};
use flt_graph::lower;
use flt_syntax::parse;
use std::alloc::Global;

/// The least certificate of a text, thinned.
fn analyse_text<'a>(alloc: Global, text: &[u8]) -> Result<TextAnswer, Failure<'a>>
    ensures { spec.Judges text.now result }
{
    let tree = parse(alloc, text)?;
    let graph = lower(alloc, &tree)?;
    match analyse_plainly(alloc, &graph) {
        Ok(cert) => {
            let bytes = write_thinned(alloc, &graph, &Cert::Full(cert))?;
            Ok(TextAnswer::Certificate(bytes))
        }
        Err(AnalyseFault::Refused(refusal)) => Ok(TextAnswer::Refused(refusal)),
        Err(AnalyseFault::OutOfMemory) => Err(Failure::OutOfMemory),
    }
}

/// The answer of `analyse` to the name that it is given; `contents` becomes the text that this gives.
pub fn analyse_file<'a, I: Inputs>(
    alloc: Global,
    inputs: &I,
    file: &'a str,
    contents: &mut Contents,
) -> Result<TextAnswer, Failure<'a>>
    ensures { Says (I.gives inputs.now) (names_of (Analyse file.entry.now)) IsAnalysed
        (map (λ text. text.items) contents.new.texts.items) result }
{
    contents.texts = read_all(alloc, inputs, &[file])?;
    analyse_text(alloc, contents.texts[0].as_slice())
}
