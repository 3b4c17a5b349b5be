//! The command `emit`: the answer on the names that it is given.

ghost use Rattle.flt_commands_texts.specs.Emit as spec;
ghost use Rattle.flt_files.specs.Inputs.{Says};
ghost use Rattle.flt_files.specs.Names.{names_of};
ghost use Rattle.flt_emit_read.specs.AsRead.{returns_fit};
ghost use Rattle.flt_graph.specs.Lowering.{IsLowered};
ghost use Rattle.flt_kinds.specs.Kinds.{AreKinds};
ghost use Rattle.flt_tree.specs.WellFormed.{IsWellFormed};
ghost use Rattle.flt_words.specs.Request.{Emit};
ghost use Rattle.std.specs.Prelude.{◌≡◌, ◌++◌, IfOk, OnOk, map, option_map, true};

use crate::answer::TextAnswer;
use flt_analyse::{AnalyseFault, analyse_plainly};
use flt_check::check;
use flt_emit::{Allocation, emit, emit_header, emit_installation};
use flt_emit_read::{reads_back_whole, unfit_return};
use flt_files::{Contents, Failure, Inputs, read_all};
use flt_graph::{Graph, Tree, lower};
use flt_kinds::{ContextKinds, MixedContext, Spot, completed_create, context_kinds};
use flt_syntax::parse;
use flt_words::Part;
use std::alloc::{AllocError, Global};

/// Why an accepted text can't be emitted. Lines are counted from 1.
#[derive(Clone, Copy, Debug)]
pub enum EmitFault {
    /// The context that a statement of `line` allocates or gives may be set on a stream and on the instance.
    Kinds {
        line: usize,
        stream: usize,
        instance: usize,
    },
    /// A `pre create` completes with success.
    Create {
        line: usize,
    },
    /// A `return` isn't one of its place, and C has no words for it: it has no status in a pre or a post callback, or has one elsewhere. It
    /// is the first one in the text. No run comes to it.
    Return {
        line: usize,
    },
}

// ---- a part of a driver

/// Adds the allocations of some statements.
fn add_allocations(out: &mut Vec<Allocation>, spots: &[Spot]) -> Result<(), AllocError>
    ensures { OnOk result (out.new.items ≡ out.old.items ++ map spec.allocation_of spots.now) }
{
    for at in spots {
        out.push(Allocation {
            callback: at.callback,
            point: at.point,
        })?;
    }
    Ok(())
}

/// The source in which these statements allocate contexts of the instance. By the law it is read back to the filter.
pub(crate) fn source_of(alloc: Global, tree: &Tree, listed: &[Spot]) -> Result<Vec<u8>, AllocError>
    requires well_formed { IsWellFormed tree.now.filter }
    requires fit { returns_fit tree.now.filter ≡ true }
    ensures written { IfOk result (λ bytes. bytes.items ≡ spec.part_text Part.Source listed.now tree.now.filter) }
    ensures read { IfOk result (λ bytes. spec.IsReadBack Part.Source tree.now.filter bytes.items) }
{
    let mut instances = Vec::new(alloc);
    add_allocations(&mut instances, listed)?;
    reads_back_whole();
    emit(alloc, tree, instances.as_slice())
}

/// The part of the driver in which these statements allocate contexts of the instance.
fn part_of(alloc: Global, part: Part, tree: &Tree, listed: &[Spot]) -> Result<Vec<u8>, AllocError>
    requires well_formed { IsWellFormed tree.now.filter }
    requires fit { returns_fit tree.now.filter ≡ true }
    ensures written { IfOk result (λ bytes. bytes.items ≡ spec.part_text part listed.now tree.now.filter) }
    ensures read { IfOk result (λ bytes. spec.IsReadBack part tree.now.filter bytes.items) }
{
    match part {
        Part::Source => source_of(alloc, tree, listed),
        Part::User => emit_header(alloc, tree),
        Part::Inf => emit_installation(alloc, tree),
    }
}

/// The line of a statement.
fn line_of(graph: &Graph, at: Spot) -> usize
    ensures { result ≡ spec.line_of graph.now at }
{
    graph.line(at.callback, at.point)
}

/// The lines of the statements that say that a context has two kinds.
pub(crate) fn mixed_lines(graph: &Graph, mixed: MixedContext) -> EmitFault
    ensures { result ≡ spec.mixed_lines graph.now mixed }
{
    EmitFault::Kinds {
        line: line_of(graph, mixed.site),
        stream: line_of(graph, mixed.stream),
        instance: line_of(graph, mixed.instance),
    }
}

/// The line in which an open is completed.
pub(crate) fn create_in(graph: &Graph, at: Spot) -> EmitFault
    ensures { result ≡ spec.create_line graph.now at }
{
    EmitFault::Create {
        line: line_of(graph, at),
    }
}

/// The part of a filter in which each context has one kind, or why there is none.
fn emit_known(
    alloc: Global,
    part: Part,
    tree: &Tree,
    graph: &Graph,
    listed: Vec<Spot>,
) -> Result<TextAnswer, AllocError>
    requires kinds { AreKinds graph.now listed.items }
    requires well_formed { IsWellFormed tree.now.filter }
    ensures { IfOk result (spec.Emits part tree.now.filter graph.now) }
{
    if let Some(at) = completed_create(graph) {
        return Ok(TextAnswer::NotEmitted(create_in(graph, at)));
    }
    if let Some(line) = unfit_return(tree) {
        return Ok(TextAnswer::NotEmitted(EmitFault::Return { line }));
    }
    let bytes = part_of(alloc, part, tree, listed.as_slice())?;
    Ok(TextAnswer::Emitted(bytes))
}

/// The part of a filter, or why there is none.
fn emit_filter(
    alloc: Global,
    part: Part,
    tree: &Tree,
    graph: &Graph,
) -> Result<TextAnswer, AllocError>
    requires lowered { IsLowered tree.now.filter graph.now }
    requires well_formed { IsWellFormed tree.now.filter }
    ensures { IfOk result (spec.Emits part tree.now.filter graph.now) }
{
    match context_kinds(alloc, tree, graph)? {
        ContextKinds::Refused(mixed) => Ok(TextAnswer::NotEmitted(mixed_lines(graph, mixed))),
        ContextKinds::Known(listed) => emit_known(alloc, part, tree, graph, listed),
    }
}

// ---- texts

/// The part of a text that is analysed.
fn emit_analysed<'a>(alloc: Global, part: Part, text: &[u8]) -> Result<TextAnswer, Failure<'a>>
    ensures { spec.JudgesAlone (spec.Emits part) text.now result }
{
    let tree = parse(alloc, text)?;
    let graph = lower(alloc, &tree)?;
    match analyse_plainly(alloc, &graph) {
        Ok(_) => Ok(emit_filter(alloc, part, &tree, &graph)?),
        Err(AnalyseFault::Refused(refusal)) => Ok(TextAnswer::Refused(refusal)),
        Err(AnalyseFault::OutOfMemory) => Err(Failure::OutOfMemory),
    }
}

/// The part of a text that is checked.
fn emit_checked<'a>(
    alloc: Global,
    part: Part,
    text: &[u8],
    certificate: &[u8],
) -> Result<TextAnswer, Failure<'a>>
    ensures { spec.JudgesBeside (spec.Emits part) text.now certificate.now result }
{
    let tree = parse(alloc, text)?;
    let cert = flt_cert::read(alloc, certificate)?;
    let graph = lower(alloc, &tree)?;
    match check(&graph, &cert) {
        Ok(()) => Ok(emit_filter(alloc, part, &tree, &graph)?),
        Err(refusal) => Ok(TextAnswer::Refused(refusal)),
    }
}

/// The answer of `emit` on the names that it is given, and the bytes that these give.
pub fn emit_files<'a, I: Inputs>(
    alloc: Global,
    inputs: &I,
    part: Part,
    file: &'a str,
    cert: Option<&'a str>,
    contents: &mut Contents,
) -> Result<TextAnswer, Failure<'a>>
    ensures { Says (I.gives inputs.now) (names_of (Emit part file.entry.now (option_map (λ name. name.now) cert.entry)))
        (spec.IsEmitted part)
        (map (λ text. text.items) contents.new.texts.items) result }
{
    match cert {
        None => {
            contents.texts = read_all(alloc, inputs, &[file])?;
            let text = contents.texts[0].as_slice();
            emit_analysed(alloc, part, text)
        }
        Some(cert) => {
            contents.texts = read_all(alloc, inputs, &[file, cert])?;
            emit_checked(
                alloc,
                part,
                contents.texts[0].as_slice(),
                contents.texts[1].as_slice(),
            )
        }
    }
}
