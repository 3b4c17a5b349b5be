//! Files that make texts.

ghost use Rattle.std.specs.Prelude.{◌≡◌, IfErr, IfOk, Some, None, option_map};
ghost use Rattle.flt_joined.specs.Made.{IsOwn};
ghost use Rattle.flt_joined.specs.Texts as spec;

use crate::making::annotations_of;
use flt_c::Flaw;
use flt_places::Stand;
use std::alloc::{AllocError, Global};
use std::slice::from_ref;

/// A file that is read.
#[derive(Drop)]
pub struct GivenFile<'a> {
    pub name: &'a str,
    /// The text that it gives: its bytes, or the annotations of a C file.
    pub text: Vec<u8>,
    /// Where the lines of annotations are; none for a file that isn't C.
    pub stands: Vec<Stand>,
    /// The file itself, if it is C.
    pub code: Option<Vec<u8>>,
}

impl<'a> GivenFile<'a> {
    /// A file that isn't C.
    pub fn plain(alloc: Global, name: &'a str, text: Vec<u8>) -> GivenFile<'a>
        ensures name { result.name.now ≡ name.now }
        ensures text { result.text ≡ text }
        ensures code { result.code ≡ None }
        ensures own { IsOwn result }
    {
        GivenFile {
            name,
            text,
            stands: Vec::new(alloc),
            code: None,
        }
    }

    /// A C file by its annotations, or why these make no text.
    ///
    /// # Errors
    ///
    /// `AllocError` if a growth is refused.
    pub fn annotated(
        alloc: Global,
        name: &'a str,
        file: Vec<u8>,
    ) -> Result<Result<GivenFile<'a>, Flaw>, AllocError>
        ensures name { IfOk result (λ done. IfOk done (λ g. g.name.now ≡ name.now)) }
        ensures text { IfOk result (λ done. IfOk done (λ g. spec.AreAnnotations file.items g.text.items)) }
        ensures code { IfOk result (λ done. IfOk done (λ g. option_map (λ code. code.items) g.code ≡ Some file.items)) }
        ensures own { IfOk result (λ done. IfOk done IsOwn) }
        ensures flawed { IfOk result (λ done. IfErr done (spec.IsFlawed file.items)) }
    {
        match annotations_of(alloc, from_ref(&file))? {
            Ok(found) => Ok(Ok(GivenFile {
                name,
                text: found.bytes,
                stands: found.stands,
                code: Some(file),
            })),
            Err(flaw) => Ok(Err(flaw.flaw)),
        }
    }
}
