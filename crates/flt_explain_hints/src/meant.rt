//! The word that is probably meant, and the probable mistake, in the place of a token.

ghost use Rattle.std.specs.Prelude.{◌≡◌, true, map, None, IfOk, IfSome};
ghost use Rattle.std.specs.Option.{option_map};
ghost use Rattle.flt_explain_hints.specs.Absences as absences;
ghost use Rattle.flt_explain_hints.specs.Hinting.{scene_of};
ghost use Rattle.flt_explain_hints.specs.Meant as spec;
ghost use Rattle.flt_explain_hints.specs.Trial as trial;
ghost use Rattle.flt_explain_hints.specs.Trial.{gap_of};

use crate::absences::absence_of;
use crate::before::kinds_before;
use crate::choices::Choices;
use crate::hint::Hint;
use crate::hinting::{Scene, hint};
use crate::misspelt::misspelt_absence;
use crate::names::declares_name;
use crate::nearest::nearest_word;
use crate::spot::Spot;
use crate::trial::{Gap, if_it_may};
use flt_syntax::{FaultKind, Kind, Token, same_kind};
use std::alloc::{AllocError, Global};

/// Beginnings of the driver kit's names that the language leaves out.
const PREFIXES: [&[u8]; 5] = [
    b"FLT_PREOP_SUCCESS_",
    b"FLT_PREOP_",
    b"FLT_POSTOP_",
    b"FLT_SET_CONTEXT_",
    b"IRP_MJ_",
];

/// A word without the first of some prefixes with which it begins.
fn without_one<'a>(prefixes: &[&[u8]], word: &'a [u8]) -> Option<&'a [u8]>
    ensures { option_map (λ rest. rest.now) result ≡ spec.without_one (map (λ p. p.now) prefixes.now) word.now }
{
    for prefix in prefixes {
        if word.starts_with(prefix) {
            return Some(&word[prefix.len().min(word.len())..]);
        }
    }
    None
}

/// A word of the driver kit without its prefix.
#[tactic(auto, unfolding(crate::specs::Meant::without_prefix))]
fn without_prefix(word: &[u8]) -> Option<&[u8]>
    ensures { option_map (λ rest. rest.now) result ≡ spec.without_prefix word.now }
{
    without_one(PREFIXES.as_slice(), word)
}

/// Whether a token is a misspelt name of a feature that the language leaves out.
fn is_misspelt_absence(
    alloc: Global,
    kind: FaultKind,
    found: Kind,
    word: &[u8],
) -> Result<bool, AllocError>
    ensures { IfOk result (λ b. b ≡ spec.is_misspelt_absence kind found word.now) }
{
    match kind {
        FaultKind::E03 => {
            if !same_kind(found, Kind::Name) {
                return Ok(false);
            }
            let absence = misspelt_absence(alloc, word)?;
            Ok(absence.is_some())
        }
        _ => Ok(false),
    }
}

/// Whether a word is probably a misspelt word of the language. It must be one that the language neither has nor leaves out, since another
/// word in place of one that is left out would mean something else.
fn may_be_misspelt(kind: FaultKind, found: Kind, word: &[u8]) -> bool
    ensures { result ≡ spec.may_be_misspelt kind found word.now }
{
    match kind {
        FaultKind::E03 => same_kind(found, Kind::Name) && absence_of(word).is_none(),
        FaultKind::E04 => same_kind(found, Kind::Name),
        _ => false,
    }
}

/// The part of a word that is compared with the legal words: all of it, or the rest after a prefix.
fn written(word: &[u8]) -> &[u8]
    ensures { result.now ≡ spec.written word.now }
{
    match without_prefix(word) {
        Some(rest) => rest,
        None => word,
    }
}

/// The word that is probably meant by the token.
#[tactic(auto, unfolding(crate::specs::Meant::meant_by, crate::specs::Absences::is_left_out))]
pub(crate) fn meant<'a>(
    alloc: Global,
    gap: Gap<'_>,
    spot: &Spot<'a>,
    token: Token,
    choices: &Choices<'a>,
) -> Result<Option<&'a [u8]>, AllocError>
    ensures stands { IfOk result (λ o. IfSome o (λ w. trial.MayStand (gap_of gap.entry) w.now)) }
    ensures left_out { IfOk result (λ o. absences.is_left_out spot.now.fault.kind spot.now.bytes.now ≡ true → o ≡ None) }
    ensures word { IfOk result (λ word. word ≡
        spec.meant_by (gap_of gap.entry) spot.now.fault.kind token.word.kind spot.now.bytes.now choices.now) }
{
    let kind = spot.fault.kind;
    if !may_be_misspelt(kind, token.word.kind, spot.bytes) {
        return Ok(None);
    }
    if is_misspelt_absence(alloc, kind, token.word.kind, spot.bytes)? {
        return Ok(None);
    }
    let word = nearest_word(alloc, written(spot.bytes), choices)?;
    if_it_may(alloc, gap, word)
}

/// The token, and its surroundings.
fn scene_at<'a>(
    alloc: Global,
    text: &'a [u8],
    tokens: &[Token],
    spot: &Spot<'a>,
    token: Token,
    is_meant: bool,
) -> Result<Scene<'a>, AllocError>
    ensures { IfOk result (λ scene. scene_of scene ≡
        spec.scene_at text.now tokens.now spot.now.fault.kind token spot.now.bytes.now is_meant) }
{
    let before = kinds_before(tokens, token);
    let kind = spot.fault.kind;
    Ok(Scene {
        before,
        found: token.word.kind,
        bytes: spot.bytes,
        is_meant,
        is_misspelt_absence: is_misspelt_absence(alloc, kind, token.word.kind, spot.bytes)?,
        goes_on: before.line == token.position.line,
        behind: &text[token.end.min(text.len())..],
        is_declared: declares_name(text, tokens, spot.bytes),
    })
}

/// The hint for the token at a place.
#[tactic(auto, unfolding(crate::specs::Meant::hint_at))]
pub(crate) fn hint_at<'a>(
    alloc: Global,
    text: &'a [u8],
    tokens: &[Token],
    spot: &Spot<'a>,
    token: Token,
    choices: &Choices<'_>,
    meant: Option<&[u8]>,
) -> Result<Option<Hint>, AllocError>
    ensures { IfOk result (λ hint. hint ≡
        spec.hint_at text.now tokens.now spot.now.fault.kind token spot.now.bytes.now choices.now meant.entry) }
{
    let is_meant = meant.is_some();
    if is_meant && without_prefix(spot.bytes).is_some() {
        return Ok(Some(Hint::Prefix));
    }
    let scene = scene_at(alloc, text, tokens, spot, token, is_meant)?;
    Ok(hint(spot.fault.kind, scene, choices))
}
