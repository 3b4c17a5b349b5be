//! The report on a text that doesn't parse.

ghost use Rattle.std.specs.Prelude.{◌≡◌, ◌≤◌, length, IfOk};
ghost use Rattle.flt_explain_hints.specs.Choices.{AreChoices};
ghost use Rattle.flt_explain_hints.specs.Spot.{tokens_of};
ghost use Rattle.flt_explain_hints.specs.Trial as trial;
ghost use Rattle.flt_explain_hints.specs.Trouble as spec;
ghost use Rattle.flt_syntax.specs.TextFails.{Fails};
ghost use Rattle.flt_rules.specs.Limits.{max_text};

use crate::choices::{Choices, choices_in};
use crate::hint::Hint;
use crate::meant::{hint_at, meant};
use crate::names::declared_names;
use crate::open_call::{OpenCall, open_call};
use crate::spot::{Spot, spot_at, tokens_of};
use crate::trial::gap_at;
use flt_syntax::{FaultKind, ParseError, SyntaxFault, Token, parse};
use std::alloc::{AllocError, Global};

/// The report on a text that doesn't parse.
#[derive(Drop)]
pub struct Trouble<'a> {
    pub spot: Spot<'a>,
    pub choices: Choices<'a>,
    /// The word that is probably meant: the only legal one that is near to the found one.
    pub meant: Option<&'a [u8]>,
    /// The call before it that lacks an operand, if one does.
    pub open_call: Option<OpenCall>,
    /// Another probable mistake, and how to fix it.
    pub hint: Option<Hint>,
}

/// The report without a token: the text is too large.
fn without_token<'a>(alloc: Global, spot: Spot<'a>) -> Trouble<'a>
    ensures spot { result.spot ≡ spot.entry }
    ensures none { spec.AreNone result }
{
    Trouble {
        spot,
        choices: Choices::none(alloc),
        meant: None,
        open_call: None,
        hint: Some(Hint::TooLarge),
    }
}

/// The words, symbols and names that are legal in the place of a token.
fn choices_at<'a>(
    alloc: Global,
    text: &'a [u8],
    tokens: &[Token],
    kind: FaultKind,
    token: Token,
) -> Result<Choices<'a>, AllocError>
    requires few { length text.now ≤ max_text }
    requires tokens { tokens.now ≡ tokens_of text.now }
    ensures { IfOk result (λ c. AreChoices text.now (trial.gap_at kind text.now token) c) }
{
    let names = declared_names(alloc, text, tokens)?;
    choices_in(alloc, text, gap_at(kind, text, token), names.as_slice())
}

/// The report at the place of a token.
fn with_token<'a>(
    alloc: Global,
    text: &'a [u8],
    tokens: &[Token],
    spot: Spot<'a>,
    token: Token,
) -> Result<Trouble<'a>, AllocError>
    requires few { length text.now ≤ max_text }
    requires tokens { tokens.now ≡ tokens_of text.now }
    ensures { IfOk result (spec.IsPlaced text.now spot.entry token) }
{
    let choices = choices_at(alloc, text, tokens, spot.fault.kind, token)?;
    let gap = gap_at(spot.fault.kind, text, token);
    let meant = meant(alloc, gap, &spot, token, &choices)?;
    let open_call = open_call(spot.fault.kind, tokens, token, &choices);
    let hint = hint_at(alloc, text, tokens, &spot, token, &choices, meant)?;
    Ok(Trouble {
        spot,
        choices,
        meant,
        open_call,
        hint,
    })
}

/// The report on a text that has this fault.
#[tactic(auto, using(crate::proofs::Placed::with_token_if, crate::proofs::Placed::without_token))]
fn trouble_at<'a>(
    alloc: Global,
    text: &'a [u8],
    fault: SyntaxFault,
) -> Result<Trouble<'a>, AllocError>
    requires { Fails text.now fault }
    ensures { IfOk result (spec.IsTrouble text.now) }
{
    let found = tokens_of(alloc, text)?;
    let tokens = found.as_slice();
    let spot = spot_at(text, tokens, fault);
    match spot.token {
        None => Ok(without_token(alloc, spot)),
        Some(token) => with_token(alloc, text, tokens, spot, token),
    }
}

/// The report on a text, if it doesn't parse: where it is refused, the token there, the words that are legal instead, and the probable
/// mistake. Each word is tried by the parser, which takes milliseconds for a text of the greatest size.
///
/// # Errors
///
/// `AllocError` if a growth is refused.
pub fn describe<'a>(alloc: Global, text: &'a [u8]) -> Result<Option<Trouble<'a>>, AllocError>
    ensures { IfOk result (spec.IsDescribed text.now) }
{
    match parse(alloc, text) {
        Ok(_) => Ok(None),
        Err(ParseError::Syntax(fault)) => Ok(Some(trouble_at(alloc, text, fault)?)),
        Err(ParseError::OutOfMemory) => Err(AllocError),
    }
}
