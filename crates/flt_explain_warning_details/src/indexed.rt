//! The comments of a text by what they allow: a kind of warnings on a line.

ghost use Rattle.std.specs.Prelude.{◌≡◌, ℕ, option_copied, slice_get, IfOk, OnOk};
ghost use Rattle.std.specs.BTreeMap.{get};
ghost use Rattle.flt_explain_warning_details.specs.Indexed.{is_key, key_cmp, ArePlaces, IsIndexed};
ghost use Rattle.flt_explain_warning_details.specs.Indexed as spec;

use crate::allowing::is_reason;
use flt_explain_warnings::{Allowance, Kind};
use std::alloc::{AllocError, Global};
use std::collections::BTreeMap;

/// Comments, and the place among them of the first one for each line and kind.
#[derive(Drop)]
pub(crate) struct IndexedComments<'a> {
    pub(crate) all: &'a [Allowance],
    places: BTreeMap<(usize, usize), usize>,
}

fn number_of(kind: Kind) -> usize
    ensures { result ≡ spec.number_of kind }
{
    match kind {
        Kind::W00 => 0,
        Kind::W01 => 1,
        Kind::W02 => 2,
        Kind::W03 => 3,
        Kind::W04 => 4,
        Kind::W05 => 5,
        Kind::W06 => 6,
        Kind::W07 => 7,
    }
}

/// The line that a comment is for, and the number of the kind that it names. `None` if it allows nothing.
fn key_of(comment: &Allowance) -> Option<(usize, usize)>
    ensures { result ≡ spec.key_of comment.now }
{
    match comment.kind {
        Some(kind) => {
            if is_reason(comment.reason.as_slice()) {
                Some((comment.statement, number_of(kind)))
            } else {
                None
            }
        }
        None => None,
    }
}

/// Puts a place under a key, unless one is there.
#[tactic(auto, using(crate::proofs::Serving::kept))]
fn add_key(
    places: &mut BTreeMap<(usize, usize), usize>,
    key: (usize, usize),
    place: usize,
) -> Result<(), AllocError>
    ensures { OnOk result ((q : ℕ × ℕ) → get key_cmp places.new q ≡ spec.placed (is_key key q) place (get key_cmp places.old q)) }
{
    if places.contains_key(&key) {
        return Ok(());
    }
    let _ = places.insert(key, place)?;
    Ok(())
}

/// Puts the place of a comment under its key, unless one before it is there.
fn add_comment(
    places: &mut BTreeMap<(usize, usize), usize>,
    comment: &Allowance,
    place: usize,
) -> Result<(), AllocError>
    ensures { OnOk result (spec.IsAdded places.old places.new comment.now place) }
{
    match key_of(comment) {
        Some(key) => add_key(places, key, place),
        None => Ok(()),
    }
}

/// The places of the first of some comments for each line and kind.
fn places_of(
    alloc: Global,
    comments: &[Allowance],
) -> Result<BTreeMap<(usize, usize), usize>, AllocError>
    ensures { IfOk result (λ places. ArePlaces places comments.now) }
{
    let mut places = BTreeMap::new(alloc);
    for (place, comment) in comments.iter().enumerate() {
        add_comment(&mut places, comment, place)?;
    }
    Ok(places)
}

impl<'a> IndexedComments<'a> {
    pub(crate) fn new(
        alloc: Global,
        comments: &'a [Allowance],
    ) -> Result<IndexedComments<'a>, AllocError>
        ensures indexed { IfOk result (λ index. IsIndexed index) }
        ensures all { IfOk result (λ index. index.all.now ≡ comments.now) }
    {
        let places = places_of(alloc, comments)?;
        Ok(IndexedComments {
            all: comments,
            places,
        })
    }

    /// The comment at a place, from 0.
    pub(crate) fn comment(&self, place: usize) -> Option<&'a Allowance>
        ensures { option_copied result ≡ slice_get self.now.all.now place }
    {
        self.all.get(place)
    }

    /// The place, from 0, of the first comment that allows a kind on a line.
    pub(crate) fn place(&self, line: usize, kind: Kind) -> Option<usize>
        requires { IsIndexed self.now }
        ensures { result ≡ spec.place_of (spec.is_for line kind) self.now.all.now }
    {
        self.places.get(&(line, number_of(kind))).copied()
    }
}
