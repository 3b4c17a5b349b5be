//! The blocks of a document, which an editor may fold.

use crate::members::{put_number, put_string};
use crate::places::Document;
use flt_explain_texts::tokens_of;
use flt_server_outline::{Fold, folds_of};
use json::Writer;
use std::alloc::{AllocError, Global};

fn put_fold(writer: &mut Writer, fold: Fold) -> Result<(), AllocError> {
    writer.begin_object()?;
    put_number(writer, "startLine", fold.first)?;
    put_number(writer, "endLine", fold.last)?;
    put_string(writer, "kind", "region")?;
    writer.end_object()
}

fn put_folds(writer: &mut Writer, folds: &[Fold]) -> Result<(), AllocError> {
    writer.begin_array()?;
    for fold in folds {
        put_fold(writer, *fold)?;
    }
    writer.end_array()
}

/// The blocks of a document, as a result.
pub(crate) fn folds(alloc: Global, document: &Document<'_>) -> Result<Vec<u8>, AllocError> {
    let tokens = tokens_of(alloc, document.text)?;
    let folds = folds_of(alloc, tokens.as_slice())?;
    let mut writer = Writer::new(Vec::new(alloc));
    put_folds(&mut writer, folds.as_slice())?;
    Ok(writer.into_inner())
}
