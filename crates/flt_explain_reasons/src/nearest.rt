//! The word that is meant by a misspelt one.

use flt_explain_hints::Nearest;
use std::alloc::{AllocError, Global};

/// The greatest number of letters of a word that is compared with others.
const MAX_LETTERS: usize = 16;

/// The number of letters that may differ: a third of them, but always one.
fn reach(a: &[u8], b: &[u8]) -> usize {
    (a.len().max(b.len()) / 3).max(1)
}

/// The word that is nearest to the written one. None if no word is near, or several are as near.
pub(crate) fn nearest_word<'a>(
    alloc: Global,
    written: &[u8],
    words: &[&'a [u8]],
) -> Result<Option<&'a [u8]>, AllocError> {
    if MAX_LETTERS < written.len() {
        return Ok(None);
    }
    let mut nearest = Nearest {
        word: None,
        distance: usize::MAX,
    };
    for word in words {
        nearest = nearest.or(alloc, written, *word, reach(written, word))?;
    }
    Ok(nearest.word)
}
