//! From a tree to its points.

ghost use Rattle.std.specs.Prelude.{◌≡◌, ◌≤◌, ◌+◌, [], ◌∷◌, ◌++◌, length, map, IsTrue, OnOk, IfOk};
ghost use Rattle.flt_tree.specs.Measures.{points_of, points, is_small};
ghost use Rattle.flt_rules.specs.Limits.{max_points};
ghost use Rattle.flt_tree.specs.declared.filter.Statement.{out-Statement};
ghost use Rattle.flt_graph.specs.Codes as code;
ghost use Rattle.flt_graph.specs.Lowering as spec;
ghost use Rattle.flt_graph.specs.Points.{entry as entry_of, point_of};

use crate::graph::{CallbackGraph, Graph, Point};
use crate::instruction::{Instruction, ResolvedCall, numbered};
use flt_tree::{Callback, Condition, Span, Statement, Tree};
use sqlite_items::Items;
use std::alloc::{AllocError, Global};

/// How many points a body has.
#[cycle(size)]
fn total(body: &[Statement]) -> usize
    requires { points body.now ≤ max_points }
    ensures { result ≡ points body.now }
{
    let mut sum = 0;
    for statement in body {
        sum += size(statement);
    }
    sum
}

/// How many points a statement has.
#[cycle(size)]
#[inline(always)]
fn size(statement: &Statement) -> usize
    requires { points_of statement.now ≤ max_points }
    ensures { result ≡ points_of statement.now }
{
    match statement {
        Statement::If(_, _, granted, refused) => {
            1 + total(granted.as_slice()) + total(refused.as_slice())
        }
        Statement::Repeat(_, _, body) => 1 + total(body.as_slice()),
        _ => 1,
    }
}

/// The point where a block begins: that of its first statement, or else the point after the block.
fn entry(block: &[Statement], at: usize, after: usize) -> usize
    ensures { result ≡ entry_of block.now at after }
{
    if block.is_empty() { after } else { at }
}

/// The point where a block begins that comes after another one, whose points are counted only if this one has some.
fn entry_behind(before: &[Statement], block: &[Statement], at: usize, after: usize) -> usize
    requires { at + points before.now ≤ max_points }
    ensures { result ≡ entry_of block.now (at + points before.now) after }
{
    if block.is_empty() {
        after
    } else {
        at + total(before)
    }
}

/// Adds a point. Room is made first: `push` would hand the point back if memory is refused, and takes longer for that.
#[inline(always)]
fn push_point(
    found: &mut Vec<Point>,
    span: Span,
    instruction: Instruction,
) -> Result<(), AllocError>
    ensures { OnOk result (found.new.items ≡ found.old.items ++ record { span = span; instruction = instruction } ∷ []) }
{
    found.reserve(1)?;
    found.push_reserved(Point { span, instruction });
    Ok(())
}

/// Adds the point of a statement, after which comes the point `after`. Each kind of statement adds its own: an instruction that is handed
/// on is taken apart and put together again.
#[inline(always)]
fn push_statement(
    callbacks: &[Callback],
    found: &mut Vec<Point>,
    statement: &Statement,
    after: usize,
) -> Result<(), AllocError>
    requires { length found.old.items + points_of statement.now ≤ max_points }
    ensures { OnOk result (found.new.items ≡ found.old.items
        ++ point_of callbacks.now (out-Statement statement.now) (length found.old.items) after ∷ []) }
{
    let at = found.len();
    match statement {
        Statement::Act(span, action) => push_point(found, *span, Instruction::Act(*action, after)),
        Statement::Call(span, call) => {
            let call = ResolvedCall::Plain(*call);
            push_point(found, *span, Instruction::Call(call, after, after))
        }
        Statement::Return(span, status) => push_point(found, *span, Instruction::Return(*status)),
        Statement::If(span, condition, granted, refused) => {
            let (granted, refused) = (granted.as_slice(), refused.as_slice());
            let yes = entry(granted, at + 1, after);
            let no = entry_behind(granted, refused, at + 1, after);
            match condition {
                Condition::Test(test) => {
                    push_point(found, *span, Instruction::Test(*test, yes, no))
                }
                Condition::Succeeds(call) => {
                    let call = ResolvedCall::Fallible(numbered(callbacks, call));
                    push_point(found, *span, Instruction::Call(call, yes, no))
                }
            }
        }
        Statement::Repeat(span, turns, body) => {
            let inside = entry(body.as_slice(), at + 1, at);
            push_point(found, *span, Instruction::Repeat(*turns, inside, after))
        }
    }
}

/// Adds the points of a block, after which comes the point `after`.
#[cycle(lower)]
fn add_block(
    callbacks: &[Callback],
    found: &mut Vec<Point>,
    block: &[Statement],
    after: usize,
) -> Result<(), AllocError>
    requires { length found.old.items + points block.now ≤ max_points }
    ensures count { OnOk result (length found.new.items ≡ length found.old.items + points block.now) }
    ensures points { OnOk result
        (found.new.items ≡ found.old.items ++ code.block_code callbacks.now block.now (length found.old.items) after) }
{
    let mut left = block.len();
    for statement in block {
        left -= 1;
        let next = if left == 0 {
            after
        } else {
            found.len() + size(statement)
        };
        add_statement(callbacks, found, statement, next)?;
    }
    Ok(())
}

/// Adds the points of a statement, after which comes the point `after`.
#[cycle(lower)]
fn add_statement(
    callbacks: &[Callback],
    found: &mut Vec<Point>,
    statement: &Statement,
    after: usize,
) -> Result<(), AllocError>
    requires { length found.old.items + points_of statement.now ≤ max_points }
    ensures count { OnOk result (length found.new.items ≡ length found.old.items + points_of statement.now) }
    ensures points { OnOk result
        (found.new.items ≡ found.old.items ++ code.statement_code callbacks.now statement.now (length found.old.items) after) }
{
    let at = found.len();
    push_statement(callbacks, found, statement, after)?;
    match statement {
        Statement::If(_, _, granted, refused) => {
            add_block(callbacks, found, granted.as_slice(), after)?;
            add_block(callbacks, found, refused.as_slice(), after)
        }
        Statement::Repeat(_, _, body) => add_block(callbacks, found, body.as_slice(), at),
        _ => Ok(()),
    }
}

/// The points of a callback, the last of which is its end.
fn callback_graph(
    alloc: Global,
    callbacks: &[Callback],
    callback: &Callback,
) -> Result<CallbackGraph, AllocError>
    requires { IsTrue (is_small callback.now) }
    ensures { IfOk result (λ g. spec.IsGraphOf callbacks.now callback.now g) }
{
    let mut found = Vec::new(alloc);
    let body = callback.body.as_slice();
    let len = total(body);
    found.reserve(len + 1)?;
    add_block(callbacks, &mut found, body, len)?;
    push_point(&mut found, callback.end, Instruction::End)?;
    Ok(CallbackGraph {
        place: callback.head.place(),
        points: Items::from_vec(found),
    })
}

/// The points of a tree.
#[tactic(auto, using(crate::proofs::Lowerings::graphs_more))]
pub fn lower(alloc: Global, tree: &Tree) -> Result<Graph, AllocError>
    ensures { IfOk result (λ g. spec.IsLowered tree.now.filter g) }
{
    let mut locks = Items::new(alloc);
    for lock in tree.filter.locks.as_slice() {
        locks.push(lock.kind)?;
    }
    let callbacks = tree.filter.callbacks.as_slice();
    let mut graphs = Items::new(alloc);
    for callback in callbacks {
        graphs.push(callback_graph(alloc, callbacks, callback)?)?;
    }
    Ok(Graph {
        locks,
        callbacks: graphs,
    })
}
