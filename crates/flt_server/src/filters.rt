//! The language of filters, as a session asks about it.

ghost use Rattle.std.specs.Prelude.{◌≡◌};
ghost use Rattle.flt_server.specs.Documents as spec;

use crate::actions::actions;
use crate::annotated::annotations_in;
use crate::completion::completion;
use crate::diagnostics::{diagnostics, diagnostics_in_c};
use crate::folds::folds;
use crate::hover::hover;
use crate::members::{nothing, null};
use crate::places::{Document, document_in_c, document_of};
use crate::symbols::symbols;
use crate::uses::{definition, references};
use flt_c::is_c_file;
use flt_rules::MAX_TEXT;
use flt_server_session::{Language, OpenText, Question};
use std::alloc::{AllocError, Global};

/// How many bytes a C file may have that is open. One of more than a text may have is kept for reports alone.
const MAX_C_FILE: usize = 1_048_576;

/// The language of filters.
#[derive(Clone, Copy)]
pub(crate) struct Filters;

/// The result of a question about a place where no text is.
fn result_nowhere(alloc: Global, question: Question) -> Result<Vec<u8>, AllocError> {
    match question {
        Question::Hover(_) | Question::Definition(_) | Question::References(_, _) => null(alloc),
        _ => nothing(alloc),
    }
}

/// The result of a question about the byte of its place.
fn result_at(
    alloc: Global,
    document: &Document<'_>,
    question: Question,
    byte: usize,
) -> Result<Vec<u8>, AllocError> {
    match question {
        Question::Hover(_) => hover(alloc, document, byte),
        Question::Completion(_) => completion(alloc, document, byte),
        Question::Definition(_) => definition(alloc, document, byte),
        Question::References(_, declared) => references(alloc, document, byte, declared),
        _ => nothing(alloc),
    }
}

fn result_of(
    alloc: Global,
    document: &Document<'_>,
    question: Question,
) -> Result<Vec<u8>, AllocError> {
    match question {
        Question::Symbols => symbols(alloc, document),
        Question::Folds => folds(alloc, document),
        Question::Actions(start, end) => {
            actions(alloc, document, document.part_between(start, end))
        }
        Question::Hover(spot)
        | Question::Completion(spot)
        | Question::Definition(spot)
        | Question::References(spot, _) => match document.byte_at(spot) {
            Some(byte) => result_at(alloc, document, question, byte),
            None => result_nowhere(alloc, question),
        },
    }
}

/// The result of a question about a C file.
fn result_in_c(
    alloc: Global,
    open: OpenText<'_>,
    question: Question,
) -> Result<Vec<u8>, AllocError> {
    let Some(text) = annotations_in(alloc, open.text)? else {
        return result_nowhere(alloc, question);
    };
    let document = document_in_c(alloc, open, text.as_slice())?;
    result_of(alloc, &document, question)
}

impl Language for Filters {
    ghost most = { spec.most_bytes };

    fn most_bytes(&self, uri: &str) -> usize {
        if is_c_file(uri) { MAX_C_FILE } else { MAX_TEXT }
    }

    fn diagnostics(&self, alloc: Global, open: OpenText<'_>) -> Result<Vec<u8>, AllocError> {
        if is_c_file(open.uri) {
            return diagnostics_in_c(alloc, open);
        }
        let document = document_of(alloc, open)?;
        diagnostics(alloc, &document)
    }

    fn result(
        &self,
        alloc: Global,
        open: OpenText<'_>,
        question: Question,
    ) -> Result<Vec<u8>, AllocError> {
        if is_c_file(open.uri) {
            return result_in_c(alloc, open, question);
        }
        let document = document_of(alloc, open)?;
        result_of(alloc, &document, question)
    }

    fn result_of_too_long(&self, alloc: Global, question: Question) -> Result<Vec<u8>, AllocError> {
        result_nowhere(alloc, question)
    }
}
