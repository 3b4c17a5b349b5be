//! The documents that clients have open.

ghost use Rattle.std.specs.Prelude.{◌≡◌, ◌<◌, find, length, IfOk, IfSome, option_copied};
ghost use Rattle.flt_server_session.specs.Commands as spec;
ghost use Rattle.flt_server_session.specs.Kept as kept;

use crate::language::Language;
use sqlite_items::Items;
use std::alloc::{AllocError, Global};

/// How many documents may be open.
pub(crate) const MAX_DOCUMENTS: usize = 1000;

/// The part of a document's text that a session keeps.
#[derive(Drop)]
pub enum KeptText {
    /// All of its bytes.
    Whole(Items<u8>),
    /// The number of its bytes, which are too many to be kept.
    TooLong(usize),
}

/// A document that a client has open.
#[derive(Drop)]
pub struct Document {
    pub(crate) uri: Items<u8>,
    pub(crate) text: KeptText,
}

/// Where a document is among others, if it is there.
pub(crate) fn position_of(documents: &[Document], uri: &str) -> Option<usize>
    ensures { IfSome result (λ at. at < length documents.now) }
{
    documents
        .iter()
        .position(|document| document.uri.as_slice() == uri.as_bytes())
}

fn is_named(document: &Document, uri: &str) -> bool
    ensures { result ≡ spec.is_named uri.now document.now }
{
    document.uri.as_slice() == uri.as_bytes()
}

/// A document among others, if it is there.
pub(crate) fn document_of<'a>(documents: &'a [Document], uri: &str) -> Option<&'a Document>
    ensures { option_copied result ≡ find (spec.is_named uri.now) documents.now }
{
    for document in documents {
        if is_named(document, uri) {
            return Some(document);
        }
    }
    None
}

/// The part that is kept of a text, where a document may have `most` bytes.
fn kept_of(alloc: Global, most: usize, text: &str) -> Result<KeptText, AllocError>
    ensures { IfOk result (kept.IsKeptOf most text.now) }
{
    let length = text.len();
    if most < length {
        return Ok(KeptText::TooLong(length));
    }
    let bytes = Items::from_slice(alloc, text.as_bytes())?;
    Ok(KeptText::Whole(bytes))
}

/// A document of a language, with the part of its text that is kept.
pub(crate) fn document_with<L: Language>(
    alloc: Global,
    language: &L,
    uri: &str,
    text: &str,
) -> Result<Document, AllocError>
    ensures uri { IfOk result (λ d. d.uri ≡ uri.now) }
    ensures text { IfOk result (λ d. kept.IsKeptOf (L.most uri.now) text.now d.text) }
{
    let own = Items::from_slice(alloc, uri.as_bytes())?;
    let text = kept_of(alloc, language.most_bytes(uri), text)?;
    Ok(Document { uri: own, text })
}
