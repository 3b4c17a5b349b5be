//! Lines of directives.

ghost use Rattle.std.specs.Prelude.{◌≡◌, map};
ghost use Rattle.flt_c_macros.specs.Directives as spec;
ghost use Rattle.flt_c_macros.specs.States.{Does, Stay};

use crate::branch::{end, open, part};
use crate::define::{define, undefine};
use crate::error::MacroError;
use crate::form::Form;
use crate::kind::{same_kind, text_of};
use crate::state::State;
use flt_c_tokens::{Kind, Spellings, Token};
use std::alloc::Global;

/// The effect of a directive.
#[derive(Clone, Copy)]
pub enum Command {
    Define,
    Undefine,
    Open(Form),
    Part(Form),
    End,
    /// Passed over: `#include`, `#pragma`, `#error`, `#line` and what C doesn't know.
    Other,
}

/// The directives whose names are no keywords.
pub const COMMANDS: [(&[u8], Command); 8] = [
    (b"define", Command::Define),
    (b"undef", Command::Undefine),
    (b"ifdef", Command::Open(Form::Defined)),
    (b"ifndef", Command::Open(Form::NotDefined)),
    (b"elif", Command::Part(Form::Plain)),
    (b"elifdef", Command::Part(Form::Defined)),
    (b"elifndef", Command::Part(Form::NotDefined)),
    (b"endif", Command::End),
];

fn lookup(mut table: &[(&[u8], Command)], name: &[u8]) -> Command
    ensures { result ≡ spec.lookup name.now (map (λ e. (e.0.now, e.1)) table.entry.now) }
{
    while let [entry, rest @ ..] = table {
        if name == entry.0 {
            return entry.1;
        }
        table = rest;
    }
    Command::Other
}

/// The directive that a token names.
#[tactic(auto, unfolding(crate::specs::Directives::command))]
fn command_of(spellings: &Spellings, token: Token) -> Command
    ensures { result ≡ spec.command spellings.now token }
{
    if same_kind(token.kind, Kind::If) {
        Command::Open(Form::Plain)
    } else if same_kind(token.kind, Kind::Else) {
        Command::Part(Form::Otherwise)
    } else if same_kind(token.kind, Kind::Name) {
        lookup(&COMMANDS, text_of(spellings, token.word))
    } else {
        Command::Other
    }
}

/// Reads a line after its `#`. The tokens after the line say whether it is a guard.
#[tactic(auto, using(crate::proofs::Spellings::stay_there))]
pub fn directive(
    alloc: Global,
    spellings: &mut Spellings,
    state: &mut State,
    at: Token,
    line: &[Token],
    after: &[Token],
) -> Result<(), MacroError>
    ensures done { Does (spec.directive at line.now after.now (spellings.old, state.old)) result spellings.new state.new }
    ensures stay { Stay spellings.old spellings.new }
{
    let (name, rest) = match line {
        [] => return Ok(()),
        [name, rest @ ..] => (*name, rest),
    };
    match command_of(spellings, name) {
        Command::Open(form) => open(alloc, spellings, state, at, form, rest, after),
        Command::Part(form) => part(alloc, spellings, state, at, form, rest),
        Command::End => Ok(end(state, at)?),
        Command::Define if state.is_read() => Ok(define(alloc, spellings, state, at, rest)?),
        Command::Undefine if state.is_read() => Ok(undefine(state, at, rest)?),
        _ => Ok(()),
    }
}
