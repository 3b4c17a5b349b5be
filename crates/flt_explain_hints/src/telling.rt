//! Explains a text that doesn't parse, in words for people.

ghost use Rattle.std.specs.Prelude.{◌≡◌, ◌++◌, map, IfOk, OnOk};
ghost use Rattle.std.specs.Option.{option_map};
ghost use Rattle.flt_explain_hints.specs.Absences as absences;
ghost use Rattle.flt_explain_hints.specs.Phrases.{phrase_of};
ghost use Rattle.flt_explain_hints.specs.Telling as spec;

use crate::absences::Absence;
use crate::hint::Hint;
use crate::hinting::absence_in;
use crate::misspelt::misspelt_absence;
use crate::open_call::OpenCall;
use crate::phrases::{Phrase, phrases};
use crate::troubles::Trouble;
use flt_rules::Operation;
use flt_syntax::FaultKind;
use std::alloc::{AllocError, Global};

/// The explanation of a text that doesn't parse, in words.
#[derive(Drop)]
pub struct FaultExplanation {
    /// The expected and the found tokens: one line without its end.
    pub title: Vec<u8>,
    /// The text after the marks under the found token: the word that is probably meant, or nothing.
    pub meant: Vec<u8>,
    /// The lines below: the declared names that are legal there, and how to fix the mistake.
    pub notes: Vec<u8>,
}

/// The greatest number of bytes of a token that are shown.
const MAX_SHOWN: usize = 80;

fn bytes(out: &mut Vec<u8>, bytes: &[u8]) -> Result<(), AllocError>
    ensures { OnOk result (out.new.items ≡ out.old.items ++ bytes.now) }
{
    out.extend_from_slice(bytes)
}

fn text(out: &mut Vec<u8>, text: &str) -> Result<(), AllocError>
    ensures { OnOk result (out.new.items ≡ out.old.items ++ text.now) }
{
    bytes(out, text.as_bytes())
}

/// A byte as it is shown: `?` if it isn't printable ASCII.
fn shown(byte: u8) -> u8
    ensures { result ≡ spec.shown byte }
{
    if byte.is_ascii() && !byte.is_ascii_control() {
        byte
    } else {
        b'?'
    }
}

fn all_shown(out: &mut Vec<u8>, bytes: &[u8]) -> Result<(), AllocError>
    ensures { OnOk result (out.new.items ≡ out.old.items ++ map spec.shown bytes.now) }
{
    for byte in bytes {
        out.push(shown(*byte))?;
    }
    Ok(())
}

/// The closing mark after the bytes of a token.
fn closing_mark(bytes: &[u8]) -> &'static str
    ensures { result.now ≡ spec.closing_mark bytes.now }
{
    if bytes.len() > MAX_SHOWN { "..`" } else { "`" }
}

/// Bytes of a text in marks. A byte that isn't printable ASCII is a `?`.
#[tactic(auto, unfolding(crate::specs::Telling::quoted), using(crate::proofs::Written::joined))]
fn quoted(out: &mut Vec<u8>, bytes: &[u8]) -> Result<(), AllocError>
    ensures { OnOk result (out.new.items ≡ out.old.items ++ spec.quoted bytes.now) }
{
    text(out, "`")?;
    all_shown(out, &bytes[..bytes.len().min(MAX_SHOWN)])?;
    text(out, closing_mark(bytes))
}

fn said(out: &mut Vec<u8>, phrase: Phrase<'_>) -> Result<(), AllocError>
    ensures { OnOk result (out.new.items ≡ out.old.items ++ spec.said (phrase_of phrase.entry)) }
{
    match phrase {
        Phrase::Kind(name) => text(out, name),
        Phrase::Word(word) => quoted(out, word),
    }
}

/// The separator between a phrase and those after it.
fn joint(behind: &[Phrase<'_>]) -> &'static str
    ensures { result.now ≡ spec.joint (map phrase_of behind.now) }
{
    match behind {
        [] => "",
        [_] => " or ",
        _ => ", ",
    }
}

/// Some phrases, with commas and an `or` between them.
#[tactic(auto, using(crate::proofs::Written::joined))]
fn listed(out: &mut Vec<u8>, phrases: &[Phrase<'_>]) -> Result<(), AllocError>
    ensures { OnOk result (out.new.items ≡ out.old.items ++ spec.listed (map phrase_of phrases.now)) }
{
    let mut left = phrases;
    while let [one, behind @ ..] = left {
        said(out, *one)?;
        text(out, joint(behind))?;
        left = behind;
    }
    Ok(())
}

/// The found token.
fn found(out: &mut Vec<u8>, trouble: &Trouble<'_>) -> Result<(), AllocError>
    ensures { OnOk result (out.new.items ≡ out.old.items ++ spec.found trouble.now) }
{
    match trouble.spot.bytes {
        [] => text(out, "the end of the text"),
        [byte] if !byte.is_ascii() => text(out, "a byte that isn't ASCII"),
        bytes => quoted(out, bytes),
    }
}

/// The legal words, symbols and names.
#[tactic(auto, using(crate::proofs::Written::joined))]
fn awaited(out: &mut Vec<u8>, phrases: &[Phrase<'_>]) -> Result<(), AllocError>
    ensures { OnOk result (out.new.items ≡ out.old.items ++ spec.awaited (map phrase_of phrases.now)) }
{
    match phrases {
        [] => text(out, "expected a name that is declared"),
        _ => {
            text(out, "expected ")?;
            listed(out, phrases)
        }
    }
}

/// The expected and the found tokens.
#[tactic(auto, using(crate::proofs::Written::joined))]
fn expected(
    out: &mut Vec<u8>,
    trouble: &Trouble<'_>,
    phrases: &[Phrase<'_>],
) -> Result<(), AllocError>
    ensures { OnOk result (out.new.items ≡ out.old.items ++ spec.expected trouble.now (map phrase_of phrases.now)) }
{
    awaited(out, phrases)?;
    text(out, ", found ")?;
    found(out, trouble)
}

/// The operand that a call lacks: the name of a lock, or else whatever is legal there.
fn operand(out: &mut Vec<u8>, call: OpenCall, phrases: &[Phrase<'_>]) -> Result<(), AllocError>
    ensures { OnOk result (out.new.items ≡ out.old.items ++ spec.operand call (map phrase_of phrases.now)) }
{
    match call.lock() {
        Some(lock) => text(out, lock.name),
        None => listed(out, phrases),
    }
}

/// The operand that a call lacks, and the token found in its place.
#[tactic(auto, using(crate::proofs::Written::joined))]
fn operand_expected(
    out: &mut Vec<u8>,
    trouble: &Trouble<'_>,
    call: OpenCall,
    phrases: &[Phrase<'_>],
) -> Result<(), AllocError>
    ensures { OnOk result (out.new.items ≡ out.old.items ++ spec.operand_expected trouble.now call (map phrase_of phrases.now)) }
{
    text(out, "expected ")?;
    operand(out, call, phrases)?;
    text(out, ", found ")?;
    found(out, trouble)
}

/// The found token, after some words and before others.
#[tactic(auto, using(crate::proofs::Written::joined))]
fn around(
    out: &mut Vec<u8>,
    before: &str,
    trouble: &Trouble<'_>,
    behind: &str,
) -> Result<(), AllocError>
    ensures { OnOk result (out.new.items ≡ out.old.items ++ before.now ++ spec.found trouble.now ++ behind.now) }
{
    text(out, before)?;
    found(out, trouble)?;
    text(out, behind)
}

fn needs_queue(hint: Option<Hint>) -> bool
    ensures { result ≡ spec.needs_queue hint }
{
    matches!(hint, Some(Hint::NeedsQueue))
}

/// Whether nothing that has a phrase is legal there.
fn is_nothing(phrases: &[Phrase<'_>]) -> bool
    ensures { result ≡ spec.is_nothing (map phrase_of phrases.now) }
{
    match phrases {
        [] => true,
        [_, ..] => false,
    }
}

/// Whether the title says of a name only that it isn't known.
#[tactic(auto, unfolding(crate::specs::Telling::is_unknown))]
fn is_unknown(hint: Option<Hint>, phrases: &[Phrase<'_>]) -> bool
    ensures { result ≡ spec.is_unknown hint (map phrase_of phrases.now) }
{
    is_nothing(phrases) || needs_queue(hint)
}

/// The name that isn't known.
fn unknown_name(out: &mut Vec<u8>, trouble: &Trouble<'_>) -> Result<(), AllocError>
    ensures { OnOk result (out.new.items ≡ out.old.items ++ spec.unknown_name trouble.now) }
{
    text(out, "unknown name ")?;
    found(out, trouble)
}

/// The title for a name that isn't known there.
fn unknown(
    out: &mut Vec<u8>,
    trouble: &Trouble<'_>,
    phrases: &[Phrase<'_>],
) -> Result<(), AllocError>
    ensures { OnOk result (out.new.items ≡ out.old.items ++ spec.unknown trouble.now (map phrase_of phrases.now)) }
{
    if is_unknown(trouble.hint, phrases) {
        unknown_name(out, trouble)
    } else {
        expected(out, trouble, phrases)
    }
}

/// The title that a hint alone gives.
fn own_title(hint: Option<Hint>) -> Option<&'static str>
    ensures { option_map (λ words. words.now) result ≡ spec.own_title hint }
{
    match hint {
        Some(Hint::TooLarge) => Some("the text is too large"),
        Some(Hint::ByteOrderMark) => Some("the text begins with a byte order mark"),
        Some(Hint::NeedsCanceled) => Some("`queue` without a `canceled` callback"),
        Some(Hint::NeedsPre) => Some("`post` callback without its `pre` callback"),
        _ => None,
    }
}

fn is_callback_twice(hint: Option<Hint>) -> bool
    ensures { result ≡ spec.is_callback_twice hint }
{
    matches!(hint, Some(Hint::CallbackTwice))
}

/// The title by the fault.
fn title_by_fault(
    out: &mut Vec<u8>,
    trouble: &Trouble<'_>,
    phrases: &[Phrase<'_>],
) -> Result<(), AllocError>
    ensures { OnOk result (out.new.items ≡ out.old.items
        ++ spec.title_by_fault trouble.now.spot.fault.kind trouble.now (map phrase_of phrases.now)) }
{
    match trouble.spot.fault.kind {
        FaultKind::E02 => around(out, "", trouble, " is no word or number"),
        FaultKind::E04 => unknown(out, trouble, phrases),
        FaultKind::E05 => around(out, "the name ", trouble, " is declared twice"),
        FaultKind::E06 => around(out, "a limit is passed at ", trouble, ""),
        FaultKind::E08 => around(out, "", trouble, " appears twice in one call"),
        FaultKind::E01 | FaultKind::E03 | FaultKind::E07 => expected(out, trouble, phrases),
    }
}

/// The title by the hint, or else by the fault.
fn title_by_hint(
    out: &mut Vec<u8>,
    trouble: &Trouble<'_>,
    phrases: &[Phrase<'_>],
) -> Result<(), AllocError>
    ensures { OnOk result (out.new.items ≡ out.old.items
        ++ spec.title_by_hint (spec.own_title trouble.now.hint) trouble.now (map phrase_of phrases.now)) }
{
    match own_title(trouble.hint) {
        Some(words) => text(out, words),
        None if is_callback_twice(trouble.hint) => {
            around(out, "this ", trouble, " callback appears twice")
        }
        None => title_by_fault(out, trouble, phrases),
    }
}

/// The title, in one line without its end: the expected and the found tokens.
#[tactic(auto, unfolding(crate::specs::Telling::title_of))]
fn title(alloc: Global, out: &mut Vec<u8>, trouble: &Trouble<'_>) -> Result<(), AllocError>
    ensures { OnOk result (out.new.items ≡ out.old.items ++ spec.title_of trouble.now) }
{
    let phrases = phrases(alloc, &trouble.choices)?;
    match trouble.open_call {
        Some(call) => operand_expected(out, trouble, call, phrases.as_slice()),
        None => title_by_hint(out, trouble, phrases.as_slice()),
    }
}

/// Whether this word is meant.
fn question(out: &mut Vec<u8>, word: &[u8]) -> Result<(), AllocError>
    ensures { OnOk result (out.new.items ≡ out.old.items ++ spec.question word.now) }
{
    text(out, "did you mean ")?;
    quoted(out, word)?;
    text(out, "?")
}

/// The word that is probably meant, if one is.
#[tactic(auto, unfolding(crate::specs::Telling::meant_of))]
fn meant(out: &mut Vec<u8>, trouble: &Trouble<'_>) -> Result<(), AllocError>
    ensures { OnOk result (out.new.items ≡ out.old.items ++ spec.meant_of trouble.now) }
{
    match trouble.meant {
        Some(word) => question(out, word),
        None => Ok(()),
    }
}

/// Further names.
#[tactic(auto, using(crate::proofs::Written::joined))]
fn further(out: &mut Vec<u8>, names: &[&[u8]]) -> Result<(), AllocError>
    ensures { OnOk result (out.new.items ≡ out.old.items ++ spec.further names.now) }
{
    for name in names {
        text(out, ", ")?;
        quoted(out, name)?;
    }
    Ok(())
}

/// A name and further ones, in a line.
fn declared_here(out: &mut Vec<u8>, name: &[u8], names: &[&[u8]]) -> Result<(), AllocError>
    ensures { OnOk result (out.new.items ≡ out.old.items ++ spec.declared_here name.now names.now) }
{
    text(out, "   = note: declared here: ")?;
    quoted(out, name)?;
    further(out, names)?;
    text(out, "\n")
}

/// The names that are legal there, in a line.
fn names(out: &mut Vec<u8>, names: &[&[u8]]) -> Result<(), AllocError>
    ensures { OnOk result (out.new.items ≡ out.old.items ++ spec.names_line names.now) }
{
    match names {
        [first, rest @ ..] => declared_here(out, first, rest),
        [] => Ok(()),
    }
}

/// A note that a call isn't complete, with its word and the name of its line.
fn incomplete(out: &mut Vec<u8>, call: OpenCall, line: &[u8]) -> Result<(), AllocError>
    ensures { OnOk result (out.new.items ≡ out.old.items ++ spec.incomplete call line.now) }
{
    text(out, "the call before this isn't complete: ")?;
    quoted(out, call.word())?;
    text(out, " in line ")?;
    bytes(out, line)
}

/// The same with the operand that it lacks.
#[tactic(auto, unfolding(crate::specs::Telling::lacking), using(crate::proofs::Written::joined))]
fn lacking(
    out: &mut Vec<u8>,
    call: OpenCall,
    line: &[u8],
    phrases: &[Phrase<'_>],
) -> Result<(), AllocError>
    ensures { OnOk result (out.new.items ≡ out.old.items ++ spec.lacking call line.now (map phrase_of phrases.now)) }
{
    incomplete(out, call, line)?;
    text(out, " lacks ")?;
    operand(out, call, phrases)
}

/// How a lock is declared, if a call takes one and the filter declares none.
#[tactic(auto, unfolding(crate::specs::Telling::declaration))]
fn declaration(call: OpenCall, trouble: &Trouble<'_>) -> &'static str
    ensures { result.now ≡ spec.declaration call trouble.now }
{
    match call.lock() {
        Some(lock) if trouble.choices.are_none() => lock.declaration,
        _ => "",
    }
}

/// The operand that a call lacks, by the legal words.
fn lacking_there(
    alloc: Global,
    out: &mut Vec<u8>,
    trouble: &Trouble<'_>,
    call: OpenCall,
    line: &[u8],
) -> Result<(), AllocError>
    ensures { OnOk result (out.new.items ≡ out.old.items ++ spec.lacking_there trouble.now call line.now) }
{
    let phrases = phrases(alloc, &trouble.choices)?;
    lacking(out, call, line, phrases.as_slice())
}

/// How to complete a call.
#[tactic(auto, using(crate::proofs::Written::joined))]
fn call_help(
    alloc: Global,
    out: &mut Vec<u8>,
    trouble: &Trouble<'_>,
    call: OpenCall,
    line: &[u8],
) -> Result<(), AllocError>
    ensures { OnOk result (out.new.items ≡ out.old.items ++ spec.call_help trouble.now call line.now) }
{
    lacking_there(alloc, out, trouble, call, line)?;
    text(out, declaration(call, trouble))
}

/// The feature that the language leaves out, by the word that names it, even a misspelt one.
fn absence_at(alloc: Global, trouble: &Trouble<'_>) -> Result<Option<Absence>, AllocError>
    ensures { IfOk result (λ absence. absence ≡ spec.absence_at trouble.now) }
{
    let absence = absence_in(trouble.spot.bytes, &trouble.choices);
    if absence.is_some() {
        return Ok(absence);
    }
    misspelt_absence(alloc, trouble.spot.bytes)
}

/// The words after the sentence about a feature that the language leaves out.
fn put_rest(out: &mut Vec<u8>, absence: Absence) -> Result<(), AllocError>
    ensures { OnOk result (out.new.items ≡ out.old.items ++ absences.rest absence) }
{
    match absence {
        Absence::Operation => {
            text(out, Operation::all_named())?;
            text(out, ": leave the callbacks of others out")
        }
        _ => Ok(()),
    }
}

/// Writes the words about a feature that the language leaves out.
#[tactic(auto, using(crate::proofs::Written::joined))]
fn put_absence(alloc: Global, out: &mut Vec<u8>, trouble: &Trouble<'_>) -> Result<(), AllocError>
    ensures { OnOk result (out.new.items ≡ out.old.items ++ spec.absence_sentence (spec.absence_at trouble.now)) }
{
    match absence_at(alloc, trouble)? {
        Some(absence) => {
            text(out, absence.sentence())?;
            put_rest(out, absence)
        }
        None => text(out, Hint::LeftOut.sentence()),
    }
}

fn is_left_out(hint: Hint) -> bool
    ensures { result ≡ spec.is_left_out hint }
{
    matches!(hint, Hint::LeftOut)
}

/// Writes the sentence of a hint.
fn put_hint(
    alloc: Global,
    out: &mut Vec<u8>,
    trouble: &Trouble<'_>,
    hint: Hint,
) -> Result<(), AllocError>
    ensures { OnOk result (out.new.items ≡ out.old.items ++ spec.sentence_of trouble.now hint) }
{
    if is_left_out(hint) {
        put_absence(alloc, out, trouble)
    } else {
        text(out, hint.sentence())
    }
}

/// How to fix the mistake.
fn help(
    alloc: Global,
    out: &mut Vec<u8>,
    trouble: &Trouble<'_>,
    line: &[u8],
) -> Result<(), AllocError>
    ensures { OnOk result (out.new.items ≡ out.old.items ++ spec.help_by trouble.now.open_call trouble.now.hint trouble.now line.now) }
{
    match (trouble.open_call, trouble.hint) {
        (Some(call), _) => call_help(alloc, out, trouble, call, line),
        (None, Some(hint)) => put_hint(alloc, out, trouble, hint),
        (None, None) => Ok(()),
    }
}

/// How to fix the mistake, in a line.
#[tactic(auto, using(crate::proofs::Written::joined))]
fn help_line(
    alloc: Global,
    out: &mut Vec<u8>,
    trouble: &Trouble<'_>,
    line: &[u8],
) -> Result<(), AllocError>
    ensures { OnOk result (out.new.items ≡ out.old.items ++ spec.help_line trouble.now line.now) }
{
    if trouble.open_call.is_none() && trouble.hint.is_none() {
        return Ok(());
    }
    text(out, "   = help: ")?;
    help(alloc, out, trouble, line)?;
    text(out, "\n")
}

/// The declared names that are legal there, and how to fix the mistake.
#[tactic(auto, unfolding(crate::specs::Telling::notes_of), using(crate::proofs::Written::joined))]
fn notes(
    alloc: Global,
    out: &mut Vec<u8>,
    trouble: &Trouble<'_>,
    line: &[u8],
) -> Result<(), AllocError>
    ensures { OnOk result (out.new.items ≡ out.old.items ++ spec.notes_of trouble.now line.now) }
{
    if !trouble.choices.takes_name {
        names(out, trouble.choices.names.as_slice())?;
    }
    help_line(alloc, out, trouble, line)
}

/// Explains a text that doesn't parse, in words for people. The line of the call that lacks an operand, if one does, has this name.
///
/// # Errors
///
/// `AllocError` if a growth is refused.
pub fn tell(
    alloc: Global,
    trouble: &Trouble<'_>,
    line: &[u8],
) -> Result<FaultExplanation, AllocError>
    ensures title { IfOk result (λ told. told.title.items ≡ spec.title_of trouble.now) }
    ensures meant { IfOk result (λ told. told.meant.items ≡ spec.meant_of trouble.now) }
    ensures notes { IfOk result (λ told. told.notes.items ≡ spec.notes_of trouble.now line.now) }
{
    let mut told = FaultExplanation {
        title: Vec::new(alloc),
        meant: Vec::new(alloc),
        notes: Vec::new(alloc),
    };
    title(alloc, &mut told.title, trouble)?;
    meant(&mut told.meant, trouble)?;
    notes(alloc, &mut told.notes, trouble, line)?;
    Ok(told)
}
