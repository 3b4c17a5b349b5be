//! Writes a filter in the canonical layout.

ghost use Rattle.flt_print.specs.Line.{begun, line_text, lines_text};
ghost use Rattle.flt_tree.specs.Measures.{points, points_of, is_small};
ghost use Rattle.flt_rules.specs.Limits.{max_points};
ghost use Rattle.flt_print.specs.Printing as spec;
ghost use Rattle.flt_print.specs.Reprinting.{ParsesAgain, PrintAndParse, PrintsAtMostOne};
ghost use Rattle.std.specs.Prelude.{◌≡◌, ◌≤◌, ◌+◌, [], ◌∷◌, ◌++◌, map, flat_map, IfOk, OnOk, IsTrue};
ghost use Rattle.std.specs.List.{list_all};

use crate::action_printer::{action, condition};
use crate::call_printer::{optional_status, plain_call};
use crate::line::{begin, end, name, number, word};
use crate::vocabulary::{lock_kind_kind, operation_kind};
use flt_syntax::{Kind, reads_back_words, spelled_is_well_formed, spells_at_most_one};
use flt_tree::{Callback, Condition, Filter, Head, Lock, Statement, Tree};
use std::alloc::{AllocError, Global};

/// The brace that ends a block.
fn closing(out: &mut Vec<u8>, level: usize) -> Result<(), AllocError>
    ensures { OnOk result (out.new.items ≡ out.old.items ++ lines_text (spec.closing level)) }
{
    begin(out, level, Kind::CloseBrace)?;
    end(out)
}

/// The line that an `if` begins with.
fn if_line(out: &mut Vec<u8>, level: usize, asked: &Condition) -> Result<(), AllocError>
    ensures { OnOk result (out.new.items ≡ out.old.items ++ lines_text (spec.if_line level asked.now ∷ [])) }
{
    begin(out, level, Kind::If)?;
    condition(out, asked)?;
    word(out, Kind::OpenBrace)?;
    end(out)
}

/// The line that a `repeat` begins with.
fn repeat_line(out: &mut Vec<u8>, level: usize, turns: u64) -> Result<(), AllocError>
    ensures { OnOk result (out.new.items ≡ out.old.items ++ lines_text (spec.repeat_line level turns ∷ [])) }
{
    begin(out, level, Kind::Repeat)?;
    number(out, turns)?;
    word(out, Kind::OpenBrace)?;
    end(out)
}

/// The line between the blocks of an `if`.
fn else_line(out: &mut Vec<u8>, level: usize) -> Result<(), AllocError>
    ensures { OnOk result (out.new.items ≡ out.old.items ++ lines_text (spec.else_line level ∷ [])) }
{
    begin(out, level, Kind::CloseBrace)?;
    word(out, Kind::Else)?;
    word(out, Kind::OpenBrace)?;
    end(out)
}

#[cycle(printer)]
fn body(
    out: &mut Vec<u8>,
    level: usize,
    locks: &[Lock],
    statements: &[Statement],
) -> Result<(), AllocError>
    requires { level + points statements.now ≤ 1024 }
    ensures { OnOk result (out.new.items ≡ out.old.items ++ lines_text (spec.body_lines locks.now statements.now level)) }
{
    for next in statements {
        statement(out, level, locks, next)?;
    }
    Ok(())
}

/// The end of an `if` after its first block, with a second block if that has statements.
#[cycle(printer)]
fn otherwise(
    out: &mut Vec<u8>,
    level: usize,
    locks: &[Lock],
    refused: &[Statement],
) -> Result<(), AllocError>
    requires { level + 1 + points refused.now ≤ 1024 }
    ensures { OnOk result (out.new.items ≡ out.old.items
        ++ lines_text (spec.otherwise (map (spec.statement_lines locks.now) refused.now) level)) }
{
    match refused {
        [] => closing(out, level),
        [_, ..] => {
            else_line(out, level)?;
            body(out, level + 1, locks, refused)?;
            closing(out, level)
        }
    }
}

#[cycle(printer)]
fn statement(
    out: &mut Vec<u8>,
    level: usize,
    locks: &[Lock],
    statement: &Statement,
) -> Result<(), AllocError>
    requires { level + points_of statement.now ≤ 1024 }
    ensures { OnOk result (out.new.items ≡ out.old.items ++ lines_text (spec.statement_lines locks.now statement.now level)) }
{
    match statement {
        Statement::Act(_, found) => {
            action(out, level, *found)?;
            end(out)
        }
        Statement::Call(_, call) => {
            plain_call(out, level, locks, *call)?;
            end(out)
        }
        Statement::Return(_, status) => {
            begin(out, level, Kind::Return)?;
            optional_status(out, *status)?;
            end(out)
        }
        Statement::If(_, asked, granted, refused) => {
            if_line(out, level, asked)?;
            body(out, level + 1, locks, granted.as_slice())?;
            otherwise(out, level, locks, refused.as_slice())
        }
        Statement::Repeat(_, turns, repeated) => {
            repeat_line(out, level, *turns)?;
            body(out, level + 1, locks, repeated.as_slice())?;
            closing(out, level)
        }
    }
}

/// The head of a callback, at the beginning of its line.
fn head(out: &mut Vec<u8>, head: &Head) -> Result<(), AllocError>
    ensures { OnOk result (out.new.items ≡ out.old.items ++ begun 0 (spec.head_words head.now)) }
{
    match head {
        Head::Pre(operation) => {
            begin(out, 0, Kind::Pre)?;
            word(out, operation_kind(*operation))
        }
        Head::Post(operation) => {
            begin(out, 0, Kind::Post)?;
            word(out, operation_kind(*operation))
        }
        Head::Canceled => begin(out, 0, Kind::Canceled),
        Head::DeferredPre(routine) => {
            begin(out, 0, Kind::DeferredPre)?;
            name(out, routine.as_slice())
        }
        Head::DeferredPost(routine) => {
            begin(out, 0, Kind::DeferredPost)?;
            name(out, routine.as_slice())
        }
        Head::Generic(routine) => {
            begin(out, 0, Kind::Generic)?;
            name(out, routine.as_slice())
        }
    }
}

/// The line that a callback begins with.
fn head_line(out: &mut Vec<u8>, found: &Head) -> Result<(), AllocError>
    ensures { OnOk result (out.new.items ≡ out.old.items ++ lines_text (spec.head_line found.now ∷ [])) }
{
    head(out, found)?;
    word(out, Kind::OpenBrace)?;
    end(out)
}

fn callback(out: &mut Vec<u8>, locks: &[Lock], callback: &Callback) -> Result<(), AllocError>
    requires { IsTrue (is_small callback.now) }
    ensures { OnOk result (out.new.items ≡ out.old.items ++ lines_text (spec.callback_lines locks.now callback.now)) }
{
    head_line(out, &callback.head)?;
    body(out, 1, locks, callback.body.as_slice())?;
    closing(out, 0)
}

fn callbacks(out: &mut Vec<u8>, locks: &[Lock], mut found: &[Callback]) -> Result<(), AllocError>
    requires { IsTrue (list_all is_small found.now) }
    ensures { OnOk result (out.new.items ≡ out.old.items ++ lines_text (flat_map (spec.callback_lines locks.now) found.entry.now)) }
{
    while let [first, rest @ ..] = found {
        callback(out, locks, first)?;
        found = rest;
    }
    Ok(())
}

fn lock_lines(out: &mut Vec<u8>, mut locks: &[Lock]) -> Result<(), AllocError>
    ensures { OnOk result (out.new.items ≡ out.old.items ++ lines_text (map spec.lock_line locks.entry.now)) }
{
    while let [lock, rest @ ..] = locks {
        begin(out, 0, Kind::Lock)?;
        word(out, lock_kind_kind(lock.kind))?;
        name(out, lock.name.as_slice())?;
        end(out)?;
        locks = rest;
    }
    Ok(())
}

fn queue_line(out: &mut Vec<u8>, has_queue: bool) -> Result<(), AllocError>
    ensures { OnOk result (out.new.items ≡ out.old.items ++ lines_text (spec.queue_lines has_queue)) }
{
    if has_queue {
        begin(out, 0, Kind::Queue)?;
        end(out)?;
    }
    Ok(())
}

/// The line that a text begins with.
fn name_line(out: &mut Vec<u8>, filter: &Filter) -> Result<(), AllocError>
    ensures { OnOk result (out.new.items ≡ out.old.items ++ lines_text (spec.name_line filter.now ∷ [])) }
{
    begin(out, 0, Kind::Filter)?;
    name(out, filter.name.as_slice())?;
    word(out, Kind::Altitude)?;
    number(out, filter.altitude)?;
    end(out)
}

/// The canonical text of a tree.
#[tactic(auto, unfolding(crate::specs::Printing::canonical_text))]
pub fn print(alloc: Global, tree: &Tree) -> Result<Vec<u8>, AllocError>
    ensures { IfOk result (λ text. text.items ≡ spec.canonical_text tree.now.filter) }
{
    let filter = &tree.filter;
    let mut out = Vec::new(alloc);
    name_line(&mut out, filter)?;
    lock_lines(&mut out, filter.locks.as_slice())?;
    queue_line(&mut out, filter.queue.is_some())?;
    callbacks(
        &mut out,
        filter.locks.as_slice(),
        filter.callbacks.as_slice(),
    )?;
    Ok(out)
}

/// The canonical text of a well-formed filter spells it, apart from lines and columns, if it is not too long.
#[tactic(auto, using(crate::proofs::Reprinted::parses_again))]
pub fn parses_again()
    ensures { ParsesAgain }
{
    reads_back_words();
}

/// If a text spells a filter, the filter's canonical text spells it too, apart from lines and columns, unless it is too long.
#[tactic(auto, using(crate::proofs::Reprinted::prints_and_parses))]
pub fn print_and_parse()
    ensures { PrintAndParse }
{
    spelled_is_well_formed();
    parses_again();
}

/// Well-formed filters with one canonical text differ in lines and columns alone, if that is not too long.
#[tactic(auto, using(crate::proofs::Reprinted::prints_at_most_one))]
pub fn prints_at_most_one()
    ensures { PrintsAtMostOne }
{
    spells_at_most_one();
    parses_again();
}
