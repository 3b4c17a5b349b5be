//! The words in a picture.

use crate::title::broken_words;
use flt_explain_timeline::{Row, Timeline};
use flt_model::Verdict;
use std::alloc::{AllocError, Global};
use std::fmt::Write;

/// The outcome of a row's entries, followed by the name of the violation if the run breaks something there.
pub(crate) fn row_words(
    alloc: Global,
    timeline: &Timeline<'_>,
    verdict: Verdict,
    row: Row,
) -> Result<String, AllocError> {
    let mut words = timeline.words(alloc, row)?;
    if let Verdict::Breaks(violation, _) = verdict {
        if timeline.is_broken(row) {
            words.push_str(": ")?;
            words.push_str(broken_words(violation))?;
        }
    }
    Ok(words)
}

/// The words for so many rows that repeat a block.
pub(crate) fn repeated_words(alloc: Global, rows: usize) -> Result<String, AllocError> {
    let mut words = String::new(alloc);
    write!(words, "the same again, {rows} rows")?;
    Ok(words)
}

/// The words for so many lines that are left out.
pub(crate) fn left_out_words(alloc: Global, lines: usize) -> Result<String, AllocError> {
    let mut words = String::new(alloc);
    if lines == 1 {
        words.push_str("1 line is left out here")?;
    } else {
        write!(words, "{lines} lines are left out here")?;
    }
    Ok(words)
}

pub(crate) fn number_words(alloc: Global, number: usize) -> Result<String, AllocError> {
    let mut words = String::new(alloc);
    write!(words, "{number}")?;
    Ok(words)
}

/// The numbers of a first and a last entry, from 0.
pub(crate) fn entries_words(
    alloc: Global,
    first: usize,
    last: usize,
) -> Result<String, AllocError> {
    let mut words = String::new(alloc);
    write!(words, "{first}")?;
    if last > first {
        write!(words, "-{last}")?;
    }
    Ok(words)
}
