//! How near words are, and the nearest of some.

ghost use Rattle.std.specs.Prelude.{◌≡◌, IfOk, string_bytes};
ghost use Rattle.std.specs.Str.{chars};
ghost use Rattle.flt_explain_hints.specs.Nearness as spec;

use std::alloc::{AllocError, Global};
use strsim::osa_distance;

/// A word as a text, in lower case.
fn lowered(alloc: Global, word: &[u8]) -> Result<String, AllocError>
    ensures { IfOk result (λ text. chars (string_bytes text) ≡ spec.lowered word.now) }
{
    let mut text = String::new(alloc);
    for byte in word {
        text.push(char::from(byte.to_ascii_lowercase()))?;
    }
    Ok(text)
}

/// The number of letters in which two words differ, in lower case: a letter that is inserted, left out or replaced, or two neighbours that
/// are swapped.
///
/// # Errors
///
/// `AllocError` if a growth is refused.
pub(crate) fn distance(alloc: Global, one: &[u8], other: &[u8]) -> Result<usize, AllocError>
    ensures { IfOk result (λ d. d ≡ spec.distance one.now other.now) }
{
    let from = lowered(alloc, one)?;
    let to = lowered(alloc, other)?;
    osa_distance(alloc, from.as_str(), to.as_str())
}

/// The nearest word so far. None if several are as near, or if there is none yet: then the distance is `usize::MAX`.
#[derive(Clone, Copy)]
pub struct Nearest<'a> {
    pub word: Option<&'a [u8]>,
    /// The number of letters in which it differs.
    pub distance: usize,
}

impl<'a> Nearest<'a> {
    /// The nearer of this word and another one to the written word. At most `reach` letters of the other word may differ.
    ///
    /// # Errors
    ///
    /// `AllocError` if a growth is refused.
    pub fn or(
        self,
        alloc: Global,
        written: &[u8],
        word: &'a [u8],
        reach: usize,
    ) -> Result<Nearest<'a>, AllocError>
        ensures { IfOk result (λ nearest. nearest ≡ spec.nearer self.entry reach word.entry (spec.distance written.now word.now)) }
    {
        let distance = distance(alloc, written, word)?;
        if distance > reach || distance > self.distance {
            return Ok(self);
        }
        if distance == self.distance {
            return Ok(Nearest {
                word: None,
                distance,
            });
        }
        Ok(Nearest {
            word: Some(word),
            distance,
        })
    }
}
