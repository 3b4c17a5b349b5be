//! The word that is meant by a misspelt one.

ghost use Rattle.std.specs.Prelude.{◌≡◌, ◌≤◌, length, map, IfOk};
ghost use Rattle.std.specs.List.{fold};
ghost use Rattle.flt_explain_hints.specs.Nearest as spec;

use crate::choices::{Choices, ExpectedWord};
use crate::nearness::Nearest;
use std::alloc::{AllocError, Global};

/// The number of letters of a word that count: those after the prefix that all final statuses share.
fn letters(word: &[u8]) -> usize
    ensures { result ≡ spec.letters word.now }
{
    if word.starts_with(b"STATUS_") {
        word.len().saturating_sub(7)
    } else {
        word.len()
    }
}

/// The number of letters that may differ: a third of those that count, but always one.
fn reach(a: &[u8], b: &[u8]) -> usize
    ensures { result ≡ spec.reach a.now b.now }
{
    (letters(a).max(letters(b)) / 3).max(1)
}

/// The nearest of the candidate so far and words of the language.
fn nearest_expected<'a>(
    alloc: Global,
    written: &[u8],
    nearest: Nearest<'a>,
    expected: &[ExpectedWord],
) -> Result<Nearest<'a>, AllocError>
    ensures { IfOk result (λ n. n ≡ fold (spec.or_nearer written.now) nearest.entry (map (λ e. e.word) expected.now)) }
{
    let mut nearest = nearest;
    for one in expected {
        nearest = nearest.or(alloc, written, one.word, reach(written, one.word))?;
    }
    Ok(nearest)
}

/// The nearest of the candidate so far and some names.
fn nearest_name<'a>(
    alloc: Global,
    written: &[u8],
    nearest: Nearest<'a>,
    names: &[&'a [u8]],
) -> Result<Nearest<'a>, AllocError>
    ensures { IfOk result (λ n. n ≡ fold (spec.or_nearer written.now) nearest.entry names.now) }
{
    let mut nearest = nearest;
    for name in names {
        nearest = nearest.or(alloc, written, *name, reach(written, name))?;
    }
    Ok(nearest)
}

/// The word that is nearest to the written one, among those that are legal there.
#[tactic(auto, unfolding(crate::specs::Nearest::nearest_word), using(crate::proofs::Folds::fold_steps))]
pub(crate) fn nearest_word<'a>(
    alloc: Global,
    written: &[u8],
    choices: &Choices<'a>,
) -> Result<Option<&'a [u8]>, AllocError>
    ensures { IfOk result (λ word. word ≡ spec.nearest_word written.now choices.now) }
{
    let none_yet = Nearest {
        word: None,
        distance: usize::MAX,
    };
    let nearest = nearest_expected(alloc, written, none_yet, choices.expected.as_slice())?;
    let nearest = nearest_name(alloc, written, nearest, choices.names.as_slice())?;
    Ok(nearest.word)
}
