//! Reads a whole text.

ghost use Rattle.flt_syntax.specs.Cursor.{Reads};
ghost use Rattle.flt_syntax.specs.Lex.{tokens};
ghost use Rattle.flt_tree.specs.Measures.{is_small, are_small};
ghost use Rattle.flt_syntax.specs.File as spec;
ghost use Rattle.flt_tree.specs.Names.{lock_names, names_of, routine_names};
ghost use Rattle.flt_tree.specs.WellFormed.{IsWellFormed};
ghost use Rattle.flt_syntax.specs.Scope.{scope_of};
ghost use Rattle.flt_syntax.specs.Spelling.{Spells, SpelledIsWellFormed, SpellsAtMostOne};
ghost use Rattle.flt_syntax.specs.TextFails.{IsWhereItFails};
ghost use Rattle.std.specs.List.{list_all};
ghost use Rattle.std.specs.Prelude.{◌≡◌, ◌≤◌, [], ◌∷◌, ◌++◌, length, IsTrue, IfOk, IfErr, MatchResult, Ok};

use crate::cursor::{Tokens, bytes_of, fault, span as span_of};
use crate::fault::{FaultKind, ParseError};
use crate::head::head;
use crate::lex;
use crate::names::Names;
use crate::naming::spelled;
use crate::scope::Scope;
use crate::statement::statements;
use crate::token::Kind;
use crate::whole::whole_fault;
use flt_rules::{LockKind, MAX_ALTITUDE, MAX_DEPTH, MAX_LOCKS, MAX_REPEATS, MAX_TEXT};
use flt_tree::{Callback, Filter, Lock, Position, Statement, Tree, is_small};
use sqlite_items::Items;
use std::alloc::Global;

fn lock_kind_of(kind: Kind) -> Option<LockKind>
    ensures { result ≡ spec.lock_kind_of kind }
{
    match kind {
        Kind::Spin => Some(LockKind::Spin),
        Kind::Fast => Some(LockKind::Fast),
        Kind::Push => Some(LockKind::Push),
        _ => None,
    }
}

#[tactic(auto, unfolding(crate::specs::File::lock_kind))]
fn lock_kind(tokens: &mut Tokens<'_>) -> Result<LockKind, ParseError>
    ensures { Reads (spec.lock_kind tokens.old.rest.now) result tokens.new.rest.now }
{
    match lock_kind_of(tokens.peek()) {
        None => Err(tokens.refuse()),
        Some(kind) => {
            tokens.take();
            Ok(kind)
        }
    }
}

/// A lock, after its first word and the locks that were found.
#[tactic(auto, using(crate::proofs::Numbers::lock_is_there), unfolding(crate::specs::File::lock, crate::specs::Scope::spelled))]
fn lock<'a>(
    alloc: Global,
    text: &'a [u8],
    tokens: &mut Tokens<'_>,
    found: &[Lock],
    names: &mut Names<'a>,
) -> Result<Lock, ParseError>
    requires { names.old ≡ lock_names found.now }
    ensures reads { Reads (spec.lock text.now found.now tokens.old.rest.now) result tokens.new.rest.now }
    ensures names { IfOk result (λ l. names.new ≡ names.old ++ l.name ∷ []) }
{
    let kind = lock_kind(tokens)?;
    let twice = tokens.fault(FaultKind::E05);
    let limit = tokens.fault(FaultKind::E06);
    let name = bytes_of(text, tokens.name()?);
    if !names.add(name)? {
        return Err(twice);
    }
    if found.len() < MAX_LOCKS {
        let name = Items::from_slice(alloc, name)?;
        Ok(Lock { kind, name })
    } else {
        Err(limit)
    }
}

#[tactic(auto, using(crate::proofs::Turns::turn_left, crate::proofs::Turns::none_left, crate::proofs::Numbers::one_lock_more), unfolding(crate::specs::File::locks, crate::specs::File::locks_from))]
fn locks<'a>(
    alloc: Global,
    text: &'a [u8],
    tokens: &mut Tokens<'_>,
    names: &mut Names<'a>,
) -> Result<Items<Lock>, ParseError>
    requires { names.old ≡ [] }
    ensures reads { Reads (spec.locks text.now tokens.old.rest.now) result tokens.new.rest.now }
    ensures names { IfOk result (λ ls. names.new ≡ lock_names ls) }
{
    let mut found = Items::new(alloc);
    for _turn in 0..tokens.left() {
        if !tokens.eat(Kind::Lock) {
            return Ok(found);
        }
        let next = lock(alloc, text, tokens, found.as_slice(), names)?;
        found.push(next)?;
    }
    Err(tokens.refuse())
}

/// The place of `queue`, if it is there.
#[tactic(auto, unfolding(crate::specs::File::queue))]
fn queue(tokens: &mut Tokens<'_>) -> Option<Position>
    ensures { spec.queue tokens.old.rest.now ≡ Ok (result, tokens.new.rest.now) }
{
    let position = tokens.position();
    if tokens.eat(Kind::Queue) {
        Some(position)
    } else {
        None
    }
}

/// A callback after those that were found.
#[tactic(auto, unfolding(crate::specs::File::callback))]
fn callback<'a>(
    alloc: Global,
    scope: &Scope<'a>,
    tokens: &mut Tokens<'_>,
    found: &[Callback],
    routines: &mut Names<'a>,
    stack: &mut Vec<Statement>,
) -> Result<Callback, ParseError>
    requires { routines.old ≡ routine_names found.now }
    ensures reads { Reads (spec.callback (scope_of scope.now) found.now tokens.old.rest.now) result tokens.new.rest.now }
    ensures small { IfOk result (λ c. IsTrue (is_small c)) }
    ensures names { IfOk result (λ c. routines.new ≡ routines.old ++ names_of c.head) }
{
    let position = tokens.position();
    let from = tokens.rest;
    let limit = tokens.fault(FaultKind::E06);
    let head = head(alloc, scope.text, tokens, found, routines)?;
    let span = span_of(from, tokens.rest);
    tokens.expect(Kind::OpenBrace)?;
    let body = statements(alloc, scope, tokens, MAX_DEPTH - 1, MAX_REPEATS, stack)?;
    let brace = tokens.rest;
    tokens.expect(Kind::CloseBrace)?;
    let callback = Callback {
        head,
        position,
        span,
        body,
        end: span_of(brace, tokens.rest),
    };
    if is_small(&callback) {
        Ok(callback)
    } else {
        Err(limit)
    }
}

#[tactic(auto, using(crate::proofs::Turns::turn_left, crate::proofs::Turns::none_left, crate::proofs::Limits::all_small, crate::proofs::Numbers::one_callback_more), unfolding(crate::specs::File::callbacks, crate::specs::File::callbacks_from))]
fn callbacks(
    alloc: Global,
    scope: &Scope<'_>,
    tokens: &mut Tokens<'_>,
) -> Result<Items<Callback>, ParseError>
    ensures reads { Reads (spec.callbacks (scope_of scope.now) tokens.old.rest.now) result tokens.new.rest.now }
    ensures small { IfOk result (λ cs. IsTrue (list_all is_small cs)) }
{
    let mut found = Items::new(alloc);
    let mut routines = Names::new(alloc);
    let mut stack = Vec::new(alloc);
    for _turn in 0..tokens.left() {
        let next = callback(
            alloc,
            scope,
            tokens,
            found.as_slice(),
            &mut routines,
            &mut stack,
        )?;
        found.push(next)?;
        if tokens.sees(Kind::End) {
            return Ok(found);
        }
    }
    Err(tokens.refuse())
}

#[tactic(auto, unfolding(crate::specs::File::file))]
fn file<'a>(alloc: Global, text: &'a [u8], tokens: &mut Tokens<'_>) -> Result<Filter, ParseError>
    ensures reads { Reads (spec.file text.now tokens.old.rest.now) result tokens.new.rest.now }
    ensures small { IfOk result (λ f. IsTrue (are_small f)) }
{
    tokens.expect(Kind::Filter)?;
    let name = spelled(alloc, text, tokens)?;
    tokens.expect(Kind::Altitude)?;
    let altitude = tokens.number_within(1, MAX_ALTITUDE)?;
    let mut names: Names<'a> = Names::new(alloc);
    let locks = locks(alloc, text, tokens, &mut names)?;
    let queue = queue(tokens);
    let scope = Scope {
        text,
        locks: locks.as_slice(),
        names: &names,
        has_queue: queue.is_some(),
    };
    let callbacks = callbacks(alloc, &scope, tokens)?;
    Ok(Filter {
        name,
        altitude,
        locks,
        queue,
        callbacks,
    })
}

/// The tree that is read, or the first fault.
#[tactic(auto, unfolding(crate::specs::File::filter_of))]
fn read_text(alloc: Global, text: &[u8]) -> Result<Tree, ParseError>
    ensures value { IfOk result (λ t. spec.filter_of text.now ≡ Ok t.filter) }
    ensures fault { IfErr result (spec.IsFaultOf (spec.filter_of text.now)) }
{
    if MAX_TEXT < text.len() {
        let start = Position { line: 1, column: 1 };
        return Err(ParseError::Syntax(fault(FaultKind::E06, start)));
    }
    let found = lex::tokens(alloc, text)?;
    let mut tokens = Tokens {
        rest: found.as_slice(),
    };
    let filter = file(alloc, text, &mut tokens)?;
    match whole_fault(&filter) {
        None => Ok(Tree { filter }),
        Some(fault) => Err(ParseError::Syntax(fault)),
    }
}

/// The tree that a text spells, which is well-formed, or its first fault.
#[tactic(auto, using(crate::proofs::Laws::spelled_result))]
pub fn parse(alloc: Global, text: &[u8]) -> Result<Tree, ParseError>
    ensures spelled { IfOk result (λ t. Spells text.now t.filter) }
    ensures well_formed { IfOk result (λ t. IsWellFormed t.filter) }
    ensures read { (f : Filter) → Spells text.now f → MatchResult result (λ t. t.filter ≡ f) (λ e. e ≡ ParseError.OutOfMemory) }
    ensures value { IfOk result (λ t. spec.filter_of text.now ≡ Ok t.filter) }
    ensures fault { IfErr result (IsWhereItFails text.now) }
{
    read_text(alloc, text)
}

/// No text spells two trees.
#[tactic(auto, using(crate::proofs::Laws::only_one))]
pub fn spells_at_most_one()
    ensures { SpellsAtMostOne }
{}

/// A filter that a text spells is well-formed.
#[tactic(auto, using(crate::proofs::FineFiles::is_well_formed))]
pub fn spelled_is_well_formed()
    ensures { SpelledIsWellFormed }
{}
