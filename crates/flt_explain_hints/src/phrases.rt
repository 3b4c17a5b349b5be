//! Phrases for the words, symbols and names that are legal at a place.

ghost use Rattle.std.specs.Prelude.{◌≡◌, ◌++◌, map, IfOk, OnOk};
ghost use Rattle.std.specs.List.{list_any};
ghost use Rattle.std.specs.Option.{option_map};
ghost use Rattle.flt_explain_hints.specs.Phrases as spec;

use crate::choices::{Choices, ExpectedWord};
use crate::kinds::{
    begins_callback, is_context_variable, is_number_variable, is_operation_variable, is_status,
    is_variable,
};
use flt_syntax::Kind;
use sqlite_items::Items;
use std::alloc::{AllocError, Global};

/// A kind of legal words, or a word itself.
#[derive(Clone, Copy)]
pub(crate) enum Phrase<'a> {
    Kind(&'static str),
    Word(&'a [u8]),
}

fn begins_statement(kind: Kind) -> bool
    ensures { result ≡ spec.begins_statement kind }
{
    matches!(kind, Kind::If | Kind::Repeat | Kind::Return | Kind::Value)
}

fn begins_test(kind: Kind) -> bool
    ensures { result ≡ spec.begins_test kind }
{
    matches!(kind, Kind::Irp | Kind::Draining)
}

/// Whether a word is a variable or a call, which begin statements and tests.
fn begins_either(kind: Kind, word: &[u8]) -> bool
    ensures { result ≡ spec.begins_either kind word.now }
{
    is_variable(kind)
        || word.starts_with(b"Flt")
        || word.starts_with(b"Ke")
        || word.starts_with(b"Ex")
}

/// The name of a word's kind that it has wherever it appears.
fn own_name(kind: Kind) -> Option<&'static str>
    ensures { option_map (λ name. name.now) result ≡ spec.own_name kind }
{
    if begins_callback(kind) {
        Some("a callback")
    } else if is_status(kind) {
        Some("a status")
    } else if is_number_variable(kind) {
        Some("a number variable")
    } else if is_context_variable(kind) {
        Some("a context variable")
    } else if is_operation_variable(kind) {
        Some("an operation variable")
    } else {
        None
    }
}

/// The name of a word's kind, if phrases name its kind in place of the word.
fn kind_name(kind: Kind, word: &[u8], choices: &Choices<'_>) -> Option<&'static str>
    ensures { option_map (λ name. name.now) result ≡ spec.kind_name kind word.now choices.now }
{
    let begins_either = begins_either(kind, word);
    if choices.takes(Kind::Return) && (begins_statement(kind) || begins_either) {
        Some("a statement")
    } else if choices.takes(Kind::Draining) && (begins_test(kind) || begins_either) {
        Some("a test or a call that can fail")
    } else {
        own_name(kind)
    }
}

/// The phrase for a word of the language.
fn phrase_for(expected: ExpectedWord, choices: &Choices<'_>) -> Phrase<'static>
    ensures { spec.phrase_of result ≡ spec.phrase_for choices.now expected }
{
    match kind_name(expected.kind, expected.word, choices) {
        Some(name) => Phrase::Kind(name),
        None => Phrase::Word(expected.word),
    }
}

fn is_kind(phrase: Phrase<'_>, name: &str) -> bool
    ensures { result ≡ spec.is_kind name.now (spec.phrase_of phrase.entry) }
{
    match phrase {
        Phrase::Kind(other) => other == name,
        Phrase::Word(_) => false,
    }
}

fn has_kind(phrases: &[Phrase<'_>], name: &str) -> bool
    ensures { result ≡ list_any (spec.is_kind name.now) (map spec.phrase_of phrases.now) }
{
    for phrase in phrases {
        if is_kind(*phrase, name) {
            return true;
        }
    }
    false
}

/// Whether a phrase is a kind that is already among others.
fn is_said(phrases: &[Phrase<'_>], phrase: Phrase<'_>) -> bool
    ensures { result ≡ spec.is_said (map spec.phrase_of phrases.now) (spec.phrase_of phrase.entry) }
{
    match phrase {
        Phrase::Kind(name) => has_kind(phrases, name),
        Phrase::Word(_) => false,
    }
}

/// Adds the phrases for the legal words of the language, each kind once.
fn add_expected(
    phrases: &mut Items<Phrase<'static>>,
    expected: &[ExpectedWord],
    choices: &Choices<'_>,
) -> Result<(), AllocError>
    ensures { OnOk result (map spec.phrase_of phrases.new ≡ map spec.phrase_of phrases.old
        ++ spec.each_once (map spec.phrase_of phrases.old) (map (spec.phrase_for choices.now) expected.now)) }
{
    for one in expected {
        let phrase = phrase_for(*one, choices);
        if !is_said(phrases.as_slice(), phrase) {
            phrases.push(phrase)?;
        }
    }
    Ok(())
}

/// The phrases for all that is legal at a place, each kind once.
#[tactic(auto, unfolding(crate::specs::Phrases::phrases))]
pub(crate) fn phrases(
    alloc: Global,
    choices: &Choices<'_>,
) -> Result<Items<Phrase<'static>>, AllocError>
    ensures { IfOk result (λ phrases. map spec.phrase_of phrases ≡ spec.phrases choices.now) }
{
    let mut found: Items<Phrase<'static>> = Items::new(alloc);
    if choices.takes_name {
        found.push(Phrase::Kind("a name"))?;
        return Ok(found);
    }
    if choices.takes_number {
        found.push(Phrase::Kind("a number"))?;
    }
    add_expected(&mut found, choices.expected.as_slice(), choices)?;
    Ok(found)
}
