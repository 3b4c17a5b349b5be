//! Misspelt names of features that the language leaves out.

ghost use Rattle.std.specs.Prelude.{◌≡◌, map, IfOk};
ghost use Rattle.flt_explain_hints.specs.Misspelt as spec;

use crate::absences::{
    Absence, contents, contexts, locks, operations, queueing, surroundings, waits,
};
use crate::nearness::distance;
use flt_syntax::{Kind, keywords};
use std::alloc::{AllocError, Global};

/// The least number of letters of a beginning: with a shorter one a word of the text's own would be taken for another.
const LEAST: usize = 8;

/// The feature that a beginning names, and the number of its letters in which a word differs.
#[derive(Clone, Copy)]
pub(crate) struct NearAbsence {
    pub(crate) absence: Absence,
    pub(crate) distance: usize,
}

fn begin_alike(word: &[u8], other: &[u8]) -> bool
    ensures { result ≡ spec.begin_alike word.now other.now }
{
    match (word, other) {
        ([one, ..], [two, ..]) => one.eq_ignore_ascii_case(two),
        _ => false,
    }
}

/// The number of letters of a beginning in which a word differs.
fn difference(alloc: Global, word: &[u8], beginning: &[u8]) -> Result<usize, AllocError>
    ensures { IfOk result (λ d. d ≡ spec.difference word.now beginning.now) }
{
    distance(alloc, &word[..beginning.len().min(word.len())], beginning)
}

/// The feature that a beginning names, if a word nearly begins with it. One letter in six may differ.
fn near(
    alloc: Global,
    word: &[u8],
    beginning: &[u8],
    absence: Absence,
) -> Result<Option<NearAbsence>, AllocError>
    ensures { IfOk result (λ near. near ≡ spec.near word.now beginning.now absence) }
{
    if !(LEAST <= beginning.len() && begin_alike(word, beginning)) {
        return Ok(None);
    }
    let distance = difference(alloc, word, beginning)?;
    if distance <= beginning.len() / 6 {
        Ok(Some(NearAbsence { absence, distance }))
    } else {
        Ok(None)
    }
}

/// The nearer of two, the first if both are as near.
fn nearer(one: Option<NearAbsence>, other: Option<NearAbsence>) -> Option<NearAbsence>
    ensures { result ≡ spec.nearer one other }
{
    match (one, other) {
        (None, _) => other,
        (_, None) => one,
        (Some(near), Some(next)) => {
            if next.distance < near.distance {
                other
            } else {
                one
            }
        }
    }
}

/// The nearest of the candidate so far and the features that the beginnings of a table name.
#[tactic(auto, using(crate::proofs::Nearer::nearer_in_turn))]
fn nearest_among(
    alloc: Global,
    word: &[u8],
    so_far: Option<NearAbsence>,
    table: &[(&'static [u8], Absence)],
) -> Result<Option<NearAbsence>, AllocError>
    ensures { IfOk result (λ near. near ≡ spec.nearer so_far (spec.nearest_among word.now (map (λ e. (e.0.now, e.1)) table.now))) }
{
    let mut nearest = so_far;
    for entry in table {
        nearest = nearer(nearest, near(alloc, word, entry.0, entry.1)?);
    }
    Ok(nearest)
}

/// The feature that the nearest beginning names, among all that the language leaves out.
#[tactic(auto, unfolding(crate::specs::Misspelt::nearest), using(crate::proofs::Nearer::nearer_in_turn))]
fn nearest(alloc: Global, word: &[u8]) -> Result<Option<NearAbsence>, AllocError>
    ensures { IfOk result (λ near. near ≡ spec.nearest word.now) }
{
    let near = nearest_among(alloc, word, None, contexts())?;
    let near = nearest_among(alloc, word, near, operations())?;
    let near = nearest_among(alloc, word, near, waits())?;
    let near = nearest_among(alloc, word, near, locks())?;
    let near = nearest_among(alloc, word, near, queueing())?;
    let near = nearest_among(alloc, word, near, contents())?;
    nearest_among(alloc, word, near, surroundings())
}

/// Whether each word of a table differs in more letters.
fn are_farther(
    alloc: Global,
    word: &[u8],
    bound: usize,
    table: &[(&'static [u8], Kind)],
) -> Result<bool, AllocError>
    ensures { IfOk result (λ b. b ≡ spec.are_farther bound word.now (map (λ e. (e.0.now, e.1)) table.now)) }
{
    for entry in table {
        if distance(alloc, word, entry.0)? <= bound {
            return Ok(false);
        }
    }
    Ok(true)
}

/// The feature that the language leaves out, if a misspelt word probably names one: the word nearly begins with its name, and no word of
/// the language is as near.
#[tactic(auto, unfolding(crate::specs::Misspelt::misspelt_absence))]
pub(crate) fn misspelt_absence(alloc: Global, word: &[u8]) -> Result<Option<Absence>, AllocError>
    ensures { IfOk result (λ absence. absence ≡ spec.misspelt_absence word.now) }
{
    let Some(near) = nearest(alloc, word)? else {
        return Ok(None);
    };
    if are_farther(alloc, word, near.distance, keywords())? {
        Ok(Some(near.absence))
    } else {
        Ok(None)
    }
}
