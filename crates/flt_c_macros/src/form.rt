//! The conditions that open and part groups.

ghost use Rattle.std.specs.Prelude.{◌≡◌, IfOk, OnOk};
ghost use Rattle.flt_c_macros.specs.Forms as spec;

use crate::condition::{condition, is_defined};
use crate::kind::{same_kind, spelling};
use crate::macros::Macros;
use crate::value::{negation, truth};
use flt_c_tokens::{Kind, Spellings, Token};
use sqlite_items::Items;
use std::alloc::{AllocError, Global};

/// How the rest of a line is a condition.
#[derive(Clone, Copy)]
pub enum Form {
    /// As it is: `#if`, `#elif`.
    Plain,
    /// A name that is defined: `#ifdef`, `#elifdef`.
    Defined,
    /// A name that isn't: `#ifndef`, `#elifndef`.
    NotDefined,
    /// No condition: `#else`.
    Otherwise,
}

/// Whether the name that the line is is defined.
fn line_is_defined(macros: &Macros, line: &[Token]) -> Option<u64>
    ensures { result ≡ spec.line_is_defined macros.now line.now }
{
    match line {
        [token] if same_kind(token.kind, Kind::Name) => is_defined(macros, token.word),
        _ => None,
    }
}

/// The value of a condition.
pub fn value_of(spellings: &Spellings, macros: &Macros, form: Form, line: &[Token]) -> Option<u64>
    ensures { result ≡ spec.value_of spellings.now macros.now form line.now }
{
    match form {
        Form::Plain => condition(spellings, macros, line),
        Form::Defined => line_is_defined(macros, line),
        Form::NotDefined => negation(line_is_defined(macros, line)),
        Form::Otherwise => truth(true),
    }
}

/// The words before the line, so that `#ifdef NAME` is spelled as `#if defined NAME`.
fn front_of(form: Form) -> &'static [u8]
    ensures { result.now ≡ spec.front_of form }
{
    match form {
        Form::Defined => b"defined",
        Form::NotDefined => b"! defined",
        _ => b"",
    }
}

/// Adds a spelling to a text, and a blank between them.
fn add(text: &mut Items<u8>, more: &[u8]) -> Result<(), AllocError>
    ensures { OnOk result (text.new ≡ spec.added text.old more.now) }
{
    if !text.is_empty() {
        text.push(b' ')?;
    }
    for b in more {
        text.push(*b)?;
    }
    Ok(())
}

/// The spelling of a condition: those of its tokens, with a blank between them.
#[tactic(auto, unfolding(crate::specs::Forms::spelled))]
pub fn spelled(
    alloc: Global,
    spellings: &Spellings,
    form: Form,
    line: &[Token],
) -> Result<Items<u8>, AllocError>
    ensures { IfOk result (λ text. text ≡ spec.spelled spellings.now form line.now) }
{
    let mut text = Items::from_slice(alloc, front_of(form))?;
    for token in line {
        add(&mut text, spelling(spellings, *token))?;
    }
    Ok(text)
}
