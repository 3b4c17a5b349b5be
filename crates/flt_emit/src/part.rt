//! Writes one part of a source by itself, for readers that look for it.

ghost use Rattle.flt_emit.specs.Parts as spec;
ghost use Rattle.std.specs.Prelude.{◌≡◌, ◌++◌, IfOk, OnOk};

use crate::callbacks::{hook, prototype};
use crate::source::{framed, helpers};
use crate::{fixed, fixed_callbacks};
use flt_tree::{Filter, Head};
use std::alloc::{AllocError, Global};

/// A part of a source.
#[derive(Clone, Copy)]
pub enum Part<'a> {
    /// The first line of the comment, up to the filter's name.
    CommentBegin,
    /// The comment between the two names of the filter.
    SourceTitle,
    /// The comment between the name of the filter and its altitude.
    AltitudeTitle,
    /// The comment after the altitude, and the headers of the driver kit.
    Written,
    /// The contexts, up to the first lock.
    Contexts,
    /// The fields of the queue, which only a filter with a queue has.
    QueueFields,
    /// The end of the declarations that all callbacks share.
    GlobalsEnd,
    /// The prototype of a pre callback, up to its operation.
    PreHead,
    /// The rest of the prototype of a pre callback.
    PreParameters,
    /// The prototype of a post callback, up to its operation.
    PostHead,
    /// The rest of the prototype of a post callback.
    PostParameters,
    /// The prototype of the callback for cancelled operations.
    CanceledPrototype,
    /// The prototype of a routine that has an operation, up to its name.
    DeferredHead,
    /// The rest of the prototype of a routine that has an operation.
    DeferredParameters,
    /// The prototype of a routine without an operation, up to its name.
    GenericHead,
    /// The rest of the prototype of a routine without an operation.
    GenericParameters,
    /// Functions that callbacks call, with those of the queue or without.
    Helpers(bool),
    /// The prototype of a callback.
    Prototype(&'a Head),
    /// The hook of a callback.
    Hook(&'a Head),
    /// All that follows the callbacks of a filter.
    Framed(&'a Filter),
}

/// A part of a source.
fn write_part(out: &mut Vec<u8>, part: Part<'_>) -> Result<(), AllocError>
    ensures { OnOk result (out.new.items ≡ out.old.items ++ spec.part_text part.entry) }
{
    match part {
        Part::CommentBegin => fixed::comment_begin(out),
        Part::SourceTitle => fixed::source_title(out),
        Part::AltitudeTitle => fixed::altitude_title(out),
        Part::Written => fixed::written(out),
        Part::Contexts => fixed::contexts(out),
        Part::QueueFields => fixed::queue_fields(out),
        Part::GlobalsEnd => fixed::globals_end(out),
        Part::PreHead => fixed_callbacks::pre_head(out),
        Part::PreParameters => fixed_callbacks::pre_parameters(out),
        Part::PostHead => fixed_callbacks::post_head(out),
        Part::PostParameters => fixed_callbacks::post_parameters(out),
        Part::CanceledPrototype => fixed_callbacks::canceled_prototype(out),
        Part::DeferredHead => fixed_callbacks::deferred_head(out),
        Part::DeferredParameters => fixed_callbacks::deferred_parameters(out),
        Part::GenericHead => fixed_callbacks::generic_head(out),
        Part::GenericParameters => fixed_callbacks::generic_parameters(out),
        Part::Helpers(queue) => helpers(out, queue),
        Part::Prototype(head) => prototype(out, head),
        Part::Hook(head) => hook(out, head),
        Part::Framed(filter) => framed(out, filter),
    }
}

/// A part of a source, as [`emit`](crate::emit) writes it.
///
/// # Errors
///
/// `AllocError` if a growth is refused.
pub fn emit_part(alloc: Global, part: Part<'_>) -> Result<Vec<u8>, AllocError>
    ensures { IfOk result (λ text. text.items ≡ spec.part_text part.entry) }
{
    let mut out = Vec::new(alloc);
    write_part(&mut out, part)?;
    Ok(out)
}
