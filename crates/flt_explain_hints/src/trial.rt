//! Tries words in a place of a text, by the parser.

ghost use Rattle.std.specs.Prelude.{◌≡◌, IfOk, IfSome};
ghost use Rattle.flt_explain_hints.specs.Trial as spec;
ghost use Rattle.flt_explain_hints.specs.Trial.{gap_of};

use flt_syntax::{FaultKind, ParseError, SyntaxFault, Token, parse, the_fault_is_the_one_told};
use std::alloc::{AllocError, Global};

/// A place of a text: the bytes before it, and the bytes after it.
#[derive(Clone, Copy)]
pub struct Gap<'a> {
    pub before: &'a [u8],
    pub behind: &'a [u8],
}

/// The bytes after a token that are kept for a trial.
fn kept_behind(kind: FaultKind, behind: &[u8]) -> &[u8]
    ensures { result.now ≡ spec.kept_behind kind behind.now }
{
    match kind {
        FaultKind::E04 => behind,
        _ => &[],
    }
}

/// The place of a token.
pub(crate) fn gap_at(kind: FaultKind, text: &[u8], token: Token) -> Gap<'_>
    ensures { gap_of result ≡ spec.gap_at kind text.now token }
{
    let start = token.start.min(text.len());
    let end = token.end.min(text.len());
    Gap {
        before: &text[..start],
        behind: kept_behind(kind, &text[end..]),
    }
}

/// The text with a word in a place, on a line of its own.
fn tried(alloc: Global, gap: Gap<'_>, word: &[u8]) -> Result<Vec<u8>, AllocError>
    ensures { IfOk result (λ v. v.items ≡ spec.tried (gap_of gap.entry) word.now) }
{
    let mut text = Vec::new(alloc);
    text.extend_from_slice(gap.before)?;
    text.push(b'\n')?;
    text.extend_from_slice(word)?;
    text.push(b'\n')?;
    text.extend_from_slice(gap.behind)?;
    Ok(text)
}

/// The line of a word that is tried after a text, from 1.
fn line_behind(before: &[u8]) -> usize
    ensures { result ≡ spec.line_behind before.now }
{
    let mut ends: usize = 0;
    for byte in before {
        if *byte == b'\n' {
            ends += 1;
        }
    }
    2 + ends
}

fn is_past(line: usize, fault: SyntaxFault) -> bool
    ensures { result ≡ spec.is_past line fault }
{
    match fault.kind {
        FaultKind::E06 => false,
        _ => !(fault.line == line && fault.column == 1),
    }
}

/// Whether a word is legal at a place.
#[tactic(auto, unfolding(crate::specs::Trial::may_stand))]
pub(crate) fn may_stand(alloc: Global, gap: Gap<'_>, word: &[u8]) -> Result<bool, AllocError>
    ensures { IfOk result (λ b. b ≡ spec.may_stand (gap_of gap.entry) word.now) }
{
    the_fault_is_the_one_told();
    let text = tried(alloc, gap, word)?;
    match parse(alloc, text.as_slice()) {
        Ok(_) => Ok(true),
        Err(ParseError::Syntax(fault)) => Ok(is_past(line_behind(gap.before), fault)),
        Err(ParseError::OutOfMemory) => Err(AllocError),
    }
}

/// The word, if it is legal at a place.
pub(crate) fn if_it_may<'a>(
    alloc: Global,
    gap: Gap<'_>,
    word: Option<&'a [u8]>,
) -> Result<Option<&'a [u8]>, AllocError>
    ensures tried { IfOk result (λ o. o ≡ spec.if_it_may (gap_of gap.entry) word.entry) }
    ensures stands { IfOk result (λ o. IfSome o (λ w. spec.MayStand (gap_of gap.entry) w.now)) }
{
    the_fault_is_the_one_told();
    let Some(word) = word else {
        return Ok(None);
    };
    if may_stand(alloc, gap, word)? {
        Ok(Some(word))
    } else {
        Ok(None)
    }
}
