//! Guards, by which each file is read once.

ghost use Rattle.std.specs.Prelude.{◌≡◌};
ghost use Rattle.flt_c_macros.specs.Conditions.{Reads};
ghost use Rattle.flt_c_macros.specs.Guards as spec;

use crate::condition::{Line, asked};
use crate::form::{Form, value_of};
use crate::kind::{same_kind, text_of};
use crate::macros::Macros;
use crate::value::truth;
use flt_c_tokens::{Kind, Spellings, Token};

/// The name after `! defined`.
#[tactic(auto, unfolding(crate::specs::Guards::not_defined))]
fn not_defined(spellings: &Spellings, line: &mut Line<'_>) -> Option<u32>
    ensures { Reads (spec.not_defined spellings.now line.old.rest.now) result line.new.rest.now }
{
    line.expect(Kind::Exclamation)?;
    if line.sees_defined(spellings) {
        line.take();
        asked(line)
    } else {
        None
    }
}

/// The name of which a condition says that it isn't defined, and no more.
fn guarded(spellings: &Spellings, form: Form, tokens: &[Token]) -> Option<u32>
    ensures { result ≡ spec.guarded spellings.now form tokens.now }
{
    let mut line = Line { rest: tokens };
    let name = match form {
        Form::Plain => not_defined(spellings, &mut line)?,
        Form::NotDefined => line.name()?,
        _ => return None,
    };
    if line.rest.is_empty() {
        Some(name)
    } else {
        None
    }
}

/// Whether the tokens begin with the line `#define NAME`.
fn defines(spellings: &Spellings, name: u32, tokens: &[Token]) -> bool
    ensures { result ≡ spec.defines spellings.now name tokens.now }
{
    match tokens {
        [hash, command, defined, end, ..] => {
            same_kind(hash.kind, Kind::Directive)
                && same_kind(command.kind, Kind::Name)
                && text_of(spellings, command.word) == b"define".as_slice()
                && same_kind(defined.kind, Kind::Name)
                && defined.word == name
                && same_kind(end.kind, Kind::LineEnd)
        }
        _ => false,
    }
}

/// Whether a condition that opens a group is that of a guard, by the tokens after its line.
fn is_guard(
    spellings: &Spellings,
    macros: &Macros,
    form: Form,
    line: &[Token],
    after: &[Token],
) -> bool
    ensures { result ≡ spec.is_guard spellings.now macros.now form line.now after.now }
{
    match guarded(spellings, form, line) {
        None => false,
        Some(name) => macros.get(name).is_none() && defines(spellings, name, after),
    }
}

/// The value of a condition that opens a group, by its line and the tokens after it.
#[tactic(auto, unfolding(crate::specs::Guards::opening))]
pub fn opening_value(
    spellings: &Spellings,
    macros: &Macros,
    form: Form,
    line: &[Token],
    after: &[Token],
) -> Option<u64>
    ensures { result ≡ spec.opening spellings.now macros.now form line.now after.now }
{
    if is_guard(spellings, macros, form, line, after) {
        truth(true)
    } else {
        value_of(spellings, macros, form, line)
    }
}
