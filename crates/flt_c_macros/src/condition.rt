//! Reads conditions. A number is known or not; a line that is no condition is unknown.

ghost use Rattle.std.specs.Prelude.{◌≡◌, ◌≤◌, Some, length, option_map};
ghost use Rattle.flt_c_macros.specs.Conditions as spec;

use crate::kind::{same_kind, text_of};
use crate::macros::{Macro, Macros};
use crate::number::number;
use crate::value::{Operator, applied, negation, operator_of, truth};
use flt_c_tokens::{Kind, Spellings, Token};

/// How many names may stand for each other, the last of them for a number.
const MAX_NAMES: usize = 16;

/// How many operands may be within each other, by brackets and `!`.
const MAX_DEPTH: usize = 64;

/// How many kinds of operators there are, by how closely they bind.
const RANKS: usize = 4;

/// The rest of a line.
#[derive(Drop)]
pub struct Line<'a> {
    pub rest: &'a [Token],
}

impl<'a> Line<'a> {
    fn left(&self) -> usize
        ensures { result ≡ length self.now.rest.now }
    {
        self.rest.len()
    }

    fn sees(&self, kind: Kind) -> bool
        ensures { result ≡ spec.sees kind self.now.rest.now }
    {
        match self.rest {
            [] => false,
            [token, ..] => same_kind(token.kind, kind),
        }
    }

    /// Goes past the next token, and answers the number of its spelling.
    pub fn take(&mut self) -> u32
        ensures word { result ≡ spec.word self.old.rest.now }
        ensures next { self.new.rest.now ≡ spec.next self.old.rest.now }
    {
        match self.rest {
            [] => 0,
            [token, rest @ ..] => {
                self.rest = rest;
                token.word
            }
        }
    }

    #[tactic(auto, unfolding(crate::specs::Conditions::expect))]
    pub fn expect(&mut self, kind: Kind) -> Option<()>
        ensures { spec.Reads (spec.expect kind self.old.rest.now) result self.new.rest.now }
    {
        if self.sees(kind) {
            self.take();
            Some(())
        } else {
            None
        }
    }

    #[tactic(auto, unfolding(crate::specs::Conditions::name))]
    pub fn name(&mut self) -> Option<u32>
        ensures { spec.Reads (spec.name self.old.rest.now) result self.new.rest.now }
    {
        if self.sees(Kind::Name) {
            Some(self.take())
        } else {
            None
        }
    }

    /// The operator that is next.
    #[tactic(auto, unfolding(crate::specs::Conditions::sign))]
    fn sign(&self, rank: usize) -> Option<Operator>
        ensures { result ≡ spec.sign rank self.now.rest.now }
    {
        match self.rest {
            [] => None,
            [token, ..] => operator_of(rank, token.kind),
        }
    }

    /// Whether the word `defined` is next.
    pub fn sees_defined(&self, spellings: &Spellings) -> bool
        ensures { result ≡ spec.sees_defined spellings.now self.now.rest.now }
    {
        match self.rest {
            [] => false,
            [token, ..] => {
                same_kind(token.kind, Kind::Name)
                    && text_of(spellings, token.word) == b"defined".as_slice()
            }
        }
    }
}

/// Whether a name is defined, if that is known.
pub fn is_defined(macros: &Macros, name: u32) -> Option<u64>
    ensures { result ≡ spec.is_defined macros.now name }
{
    match macros.get(name) {
        None | Some(Macro::Undecided) => None,
        Some(Macro::Undefined) => truth(false),
        Some(Macro::Plain(_) | Macro::WithParameters(..)) => truth(true),
    }
}

/// The value of a name, at so many names that stand for each other.
#[tactic(auto, using(crate::proofs::Steps::named_none, crate::proofs::Steps::named_step))]
fn named(spellings: &Spellings, macros: &Macros, depth: usize, name: u32) -> Option<u64>
    ensures { result ≡ spec.named spellings.now macros.now depth name }
{
    if depth == 0 {
        return None;
    }
    match macros.get(name) {
        Some(Macro::Undefined) => Some(0),
        Some(Macro::Plain(body)) => match body.as_slice() {
            [token] if same_kind(token.kind, Kind::Number) => number(text_of(
                spellings, token.word,
            )),
            [token] if same_kind(token.kind, Kind::Name) => {
                named(spellings, macros, depth - 1, token.word)
            }
            _ => None,
        },
        _ => None,
    }
}

/// The name after `defined`.
#[tactic(auto, unfolding(crate::specs::Conditions::asked))]
pub fn asked(line: &mut Line<'_>) -> Option<u32>
    ensures { spec.Reads (spec.asked line.old.rest.now) result line.new.rest.now }
{
    if line.sees(Kind::OpenParen) {
        line.take();
        let name = line.name()?;
        line.expect(Kind::CloseParen)?;
        Some(name)
    } else {
        line.name()
    }
}

/// A number, a name, or whether a name is defined.
#[tactic(auto, unfolding(crate::specs::Conditions::simple))]
fn simple(spellings: &Spellings, macros: &Macros, line: &mut Line<'_>) -> Option<Option<u64>>
    ensures { spec.Reads (spec.simple spellings.now macros.now line.old.rest.now) result line.new.rest.now }
{
    if line.sees(Kind::Number) {
        Some(number(text_of(spellings, line.take())))
    } else if line.sees_defined(spellings) {
        line.take();
        Some(is_defined(macros, asked(line)?))
    } else {
        Some(named(spellings, macros, MAX_NAMES, line.name()?))
    }
}

/// Operands with operators between them that bind as closely as those below a rank, or closer.
#[tactic(auto, using(crate::proofs::Steps::ranked_none, crate::proofs::Steps::ranked_step, crate::proofs::Steps::more_step, crate::proofs::Steps::more_none))]
#[cycle(condition)]
fn ranked(
    spellings: &Spellings,
    macros: &Macros,
    line: &mut Line<'_>,
    depth: usize,
    rank: usize,
) -> Option<Option<u64>>
    ensures { spec.Reads (spec.ranked (spec.operand spellings.now macros.now depth) rank line.old.rest.now) result line.new.rest.now }
{
    if rank == 0 {
        return operand(spellings, macros, line, depth);
    }
    let mut left = ranked(spellings, macros, line, depth, rank - 1)?;
    for _turn in 0..line.left() {
        match line.sign(rank - 1) {
            None => return Some(left),
            Some(operator) => {
                line.take();
                let right = ranked(spellings, macros, line, depth, rank - 1)?;
                left = applied(operator, left, right);
            }
        }
    }
    Some(left)
}

/// An operand.
#[tactic(auto, using(crate::proofs::Steps::operand_none, crate::proofs::Steps::operand_step))]
#[cycle(condition)]
fn operand(
    spellings: &Spellings,
    macros: &Macros,
    line: &mut Line<'_>,
    depth: usize,
) -> Option<Option<u64>>
    ensures { spec.Reads (spec.operand spellings.now macros.now depth line.old.rest.now) result line.new.rest.now }
{
    if depth == 0 {
        return None;
    }
    if line.sees(Kind::Exclamation) {
        line.take();
        Some(negation(operand(spellings, macros, line, depth - 1)?))
    } else if line.sees(Kind::OpenParen) {
        line.take();
        let value = ranked(spellings, macros, line, depth - 1, RANKS)?;
        line.expect(Kind::CloseParen)?;
        Some(value)
    } else {
        simple(spellings, macros, line)
    }
}

/// The value of a condition.
#[tactic(auto, unfolding(crate::specs::Conditions::condition))]
pub fn condition(spellings: &Spellings, macros: &Macros, tokens: &[Token]) -> Option<u64>
    ensures { result ≡ spec.condition spellings.now macros.now tokens.now }
{
    let mut line = Line { rest: tokens };
    let value = ranked(spellings, macros, &mut line, MAX_DEPTH, RANKS)?;
    if line.rest.is_empty() { value } else { None }
}
