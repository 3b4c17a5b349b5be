//! The command `emit --into`: the answer on the names that it is given, and the files that it writes.

ghost use Rattle.flt_files.specs.Attempts.{Does};
ghost use Rattle.flt_commands_texts.specs.Emit.{IsReadBack, part_text};
ghost use Rattle.flt_commands_texts.specs.Driver.{IsAskedFor};
ghost use Rattle.flt_commands_texts.specs.EmitInto as spec;
ghost use Rattle.flt_commands_texts.specs.Stamp.{stamped as stamped_as};
ghost use Rattle.flt_files.specs.Inputs.{Says};
ghost use Rattle.flt_files.specs.Names.{names_of};
ghost use Rattle.flt_emit.specs.Files.{installation, user_header};
ghost use Rattle.flt_emit_read.specs.AsRead.{returns_fit};
ghost use Rattle.flt_graph.specs.Lowering.{IsLowered};
ghost use Rattle.flt_tree.specs.WellFormed.{IsWellFormed};
ghost use Rattle.flt_words.specs.Request.{EmitInto};
ghost use Rattle.flt_words.specs.declared.request.Part.TheVariants.{Source};
ghost use Rattle.std.specs.Prelude.{◌≡◌, [], ◌∷◌, None, IfOk, map, option_map, string_bytes, true};

use crate::answer::TextAnswer;
use crate::driver::{Driver, DriverParts, driver_lines, names_in, put_driver};
use crate::emit::{EmitFault, create_in, mixed_lines, source_of};
use crate::stamp::stamped;
use flt_analyse::{AnalyseFault, analyse_plainly};
use flt_check::check;
use flt_emit::{emit_header, emit_installation};
use flt_emit_read::unfit_return;
use flt_files::{Contents, Failure, Inputs, Pictures, read_all};
use flt_graph::{Graph, Tree, lower};
use flt_kinds::{ContextKinds, Spot, completed_create, context_kinds};
use flt_syntax::parse;
use std::alloc::{AllocError, Global};

// ---- filters

/// All parts of a driver, in which these statements allocate contexts of the instance.
fn parts_of(alloc: Global, tree: &Tree, listed: &[Spot]) -> Result<DriverParts, AllocError>
    requires well_formed { IsWellFormed tree.now.filter }
    requires fit { returns_fit tree.now.filter ≡ true }
    ensures source { IfOk result (λ parts. parts.source.items ≡ stamped_as (part_text Source listed.now tree.now.filter)) }
    ensures read { IfOk result (λ parts. IsReadBack Source tree.now.filter (part_text Source listed.now tree.now.filter)) }
    ensures header { IfOk result (λ parts. parts.header.items ≡ user_header tree.now.filter) }
    ensures installation { IfOk result (λ parts. parts.installation.items ≡ installation tree.now.filter) }
{
    let source = source_of(alloc, tree, listed)?;
    Ok(DriverParts {
        source: stamped(alloc, source.as_slice())?,
        header: emit_header(alloc, tree)?,
        installation: emit_installation(alloc, tree)?,
    })
}

/// Writes a driver in which each context has one kind, no open is completed and each return fits. All of it is in memory before the first
/// file is written.
fn write_known<I: Inputs, P: Pictures>(
    alloc: Global,
    inputs: &I,
    given: &[&str],
    folder: &str,
    is_forced: bool,
    tree: &Tree,
    listed: &[Spot],
    pictures: &mut P,
) -> Result<Driver, AllocError>
    requires well_formed { IsWellFormed tree.now.filter }
    requires fit { returns_fit tree.now.filter ≡ true }
    ensures put { IfOk result (spec.IsPut (P.written pictures.new)
        (Does (pictures.new ≡ pictures.old) (P.done pictures.old) (P.done pictures.new)) folder.now tree.now.filter listed.now) }
    ensures asked { IfOk result (λ driver. IsAskedFor (I.gives inputs.now) is_forced (string_bytes driver.names.source) driver.outcome) }
{
    let names = names_in(alloc, folder, tree.filter.name.as_slice())?;
    let parts = parts_of(alloc, tree, listed)?;
    let outcome = put_driver(alloc, inputs, given, is_forced, &names, &parts, pictures)?;
    Ok(Driver { names, outcome })
}

/// Writes the driver of a filter, or says why there is none.
fn write_filter<I: Inputs, P: Pictures>(
    alloc: Global,
    inputs: &I,
    given: &[&str],
    folder: &str,
    is_forced: bool,
    tree: &Tree,
    graph: &Graph,
    pictures: &mut P,
) -> Result<TextAnswer, AllocError>
    requires lowered { IsLowered tree.now.filter graph.now }
    requires well_formed { IsWellFormed tree.now.filter }
    ensures writes { IfOk result (spec.Writes (I.gives inputs.now) is_forced folder.now tree.now.filter graph.now) }
    ensures put { IfOk result (spec.IsPutFor (P.written pictures.new)
        (Does (pictures.new ≡ pictures.old) (P.done pictures.old) (P.done pictures.new)) folder.now tree.now.filter graph.now) }
{
    let listed = match context_kinds(alloc, tree, graph)? {
        ContextKinds::Refused(mixed) => return Ok(TextAnswer::NotEmitted(mixed_lines(
            graph, mixed,
        ))),
        ContextKinds::Known(listed) => listed,
    };
    if let Some(at) = completed_create(graph) {
        return Ok(TextAnswer::NotEmitted(create_in(graph, at)));
    }
    if let Some(line) = unfit_return(tree) {
        return Ok(TextAnswer::NotEmitted(EmitFault::Return { line }));
    }
    let driver = write_known(
        alloc,
        inputs,
        given,
        folder,
        is_forced,
        tree,
        listed.as_slice(),
        pictures,
    )?;
    Ok(TextAnswer::EmittedInto(driver))
}

// ---- texts

/// Writes the driver of a text that is analysed.
fn write_analysed<'a, I: Inputs, P: Pictures>(
    alloc: Global,
    inputs: &I,
    given: &[&str],
    folder: &str,
    is_forced: bool,
    text: &[u8],
    pictures: &mut P,
) -> Result<TextAnswer, Failure<'a>>
    ensures said { spec.IsEmittedInto (I.gives inputs.now) is_forced folder.now (text.now ∷ []) result }
    ensures put { spec.ArePut (P.written pictures.new)
        (Does (pictures.new ≡ pictures.old) (P.done pictures.old) (P.done pictures.new)) folder.now (text.now ∷ []) result }
{
    let tree = parse(alloc, text)?;
    let graph = lower(alloc, &tree)?;
    match analyse_plainly(alloc, &graph) {
        Ok(_) => Ok(write_filter(
            alloc, inputs, given, folder, is_forced, &tree, &graph, pictures,
        )?),
        Err(AnalyseFault::Refused(refusal)) => Ok(TextAnswer::Refused(refusal)),
        Err(AnalyseFault::OutOfMemory) => Err(Failure::OutOfMemory),
    }
}

/// Writes the driver of a text that is checked.
fn write_checked<'a, I: Inputs, P: Pictures>(
    alloc: Global,
    inputs: &I,
    given: &[&str],
    folder: &str,
    is_forced: bool,
    text: &[u8],
    certificate: &[u8],
    pictures: &mut P,
) -> Result<TextAnswer, Failure<'a>>
    ensures said { spec.IsEmittedInto (I.gives inputs.now) is_forced folder.now (text.now ∷ certificate.now ∷ []) result }
    ensures put { spec.ArePut (P.written pictures.new)
        (Does (pictures.new ≡ pictures.old) (P.done pictures.old) (P.done pictures.new)) folder.now
        (text.now ∷ certificate.now ∷ []) result }
{
    let tree = parse(alloc, text)?;
    let cert = flt_cert::read(alloc, certificate)?;
    let graph = lower(alloc, &tree)?;
    match check(&graph, &cert) {
        Ok(()) => Ok(write_filter(
            alloc, inputs, given, folder, is_forced, &tree, &graph, pictures,
        )?),
        Err(refusal) => Ok(TextAnswer::Refused(refusal)),
    }
}

/// The answer of `emit --into` on the names that it is given, and the bytes that these give. The files are written by then.
pub fn emit_files_into<'a, I: Inputs, P: Pictures>(
    alloc: Global,
    inputs: &I,
    folder: &str,
    is_forced: bool,
    file: &'a str,
    cert: Option<&'a str>,
    pictures: &mut P,
    contents: &mut Contents,
) -> Result<TextAnswer, Failure<'a>>
    ensures said { Says (I.gives inputs.now) (names_of (EmitInto folder.now is_forced file.entry.now (option_map (λ name. name.now) cert.entry)))
        (spec.IsEmittedInto (I.gives inputs.now) is_forced folder.now) (map (λ text. text.items) contents.new.texts.items) result }
    ensures put { spec.ArePut (P.written pictures.new)
        (Does (pictures.new ≡ pictures.old) (P.done pictures.old) (P.done pictures.new)) folder.now
        (map (λ text. text.items) contents.new.texts.items) result }
{
    match cert {
        None => {
            contents.texts = read_all(alloc, inputs, &[file])?;
            let text = contents.texts[0].as_slice();
            write_analysed(alloc, inputs, &[file], folder, is_forced, text, pictures)
        }
        Some(cert) => {
            contents.texts = read_all(alloc, inputs, &[file, cert])?;
            write_checked(
                alloc,
                inputs,
                &[file, cert],
                folder,
                is_forced,
                contents.texts[0].as_slice(),
                contents.texts[1].as_slice(),
                pictures,
            )
        }
    }
}

// ---- the standard error

/// Whole lines on an answer: on the files of a driver, if one is written; else nothing.
pub fn into_remark(
    alloc: Global,
    said: &Result<TextAnswer, Failure<'_>>,
) -> Result<Vec<u8>, AllocError>
    ensures { IfOk result (λ lines. lines.items ≡ spec.remark_in said.now) }
{
    match said {
        Ok(TextAnswer::EmittedInto(driver)) => driver_lines(alloc, driver),
        _ => Ok(Vec::new(alloc)),
    }
}
