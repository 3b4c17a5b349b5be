//! The trait of a language, and the questions that a session asks it.

ghost use Rattle.std.specs.Prelude.{◌≡◌, ℕ, List, IfOk};
ghost use Rattle.flt_server_session.specs.declared.document.KeptText.{KeptText};

use crate::document::KeptText;
use std::alloc::{AllocError, Global};

/// The unit in which columns are counted.
#[derive(Clone, Copy)]
pub enum Encoding {
    /// Bytes of UTF-8.
    Utf8,
    /// Units of UTF-16.
    Utf16,
}

/// A place in a document as the protocol counts it: both numbers from 0.
#[derive(Clone, Copy)]
pub struct Spot {
    pub line: usize,
    pub character: usize,
}

/// A document that is open.
#[derive(Clone, Copy)]
pub struct OpenText<'a> {
    pub uri: &'a str,
    pub text: &'a [u8],
    pub encoding: Encoding,
}

/// A question about a document.
#[derive(Clone, Copy)]
pub enum Question {
    Hover(Spot),
    Completion(Spot),
    Definition(Spot),
    /// The references at a place, with the declaration if the flag is true.
    References(Spot, bool),
    Symbols,
    Folds,
    /// From one place up to another.
    Actions(Spot, Spot),
}

/// A language whose texts are documents.
pub trait Language {
    // How many bytes a document of this name may have.
    ghost most: { List ℕ → ℕ };

    /// How many bytes a document of this name may have: a session keeps nothing but the length of a longer one.
    fn most_bytes(&self, uri: &str) -> usize
        ensures { result ≡ most uri.now };

    /// The diagnostics of a document of any length, as a JSON array.
    fn diagnostics(&self, alloc: Global, open: OpenText<'_>) -> Result<Vec<u8>, AllocError>;

    /// The result of a question, as JSON.
    fn result(
        &self,
        alloc: Global,
        open: OpenText<'_>,
        question: Question,
    ) -> Result<Vec<u8>, AllocError>;

    /// The result of a question about a document that is too long to be kept, as JSON.
    fn result_of_too_long(&self, alloc: Global, question: Question) -> Result<Vec<u8>, AllocError>;
}

/// A reporter on documents.
pub trait Reporter {
    // The report on a document of this name, of whose text this is kept, may be written so.
    ghost reports: { List ℕ → KeptText → List ℕ → Type 0 };

    /// The report on a document, as JSON. It may take long: a client asks for it by a command.
    fn report(&self, alloc: Global, uri: &str, text: &KeptText) -> Result<Vec<u8>, AllocError>
        ensures { IfOk result (λ report. reports uri.now text.now report.items) };
}
