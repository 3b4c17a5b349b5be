//! Writes the statements of a callback, each with its point and its line after it.

ghost use Rattle.flt_emit.specs.Statements as spec;
ghost use Rattle.flt_tree.specs.Measures.{points, points_of};
ghost use Rattle.flt_emit.specs.Scope.{scope_of};
ghost use Rattle.std.specs.Prelude.{◌≡◌, ◌≤◌, ◌+◌, ◌++◌, IfOk, OnOk};

use crate::actions::{action, before_call, leave, plain_call};
use crate::expressions::condition;
use crate::line::{Piece, write};
use crate::scope::Scope;
use flt_tree::{Condition, Statement};
use std::alloc::AllocError;

/// The brace that ends a block.
fn closing(out: &mut Vec<u8>, level: usize) -> Result<(), AllocError>
    ensures { OnOk result (out.new.items ≡ out.old.items ++ spec.closing level) }
{
    write(out, &[Piece::Level(level), Piece::Text(b"}\n")])
}

/// The line between two blocks.
fn else_line(out: &mut Vec<u8>, level: usize) -> Result<(), AllocError>
    ensures { OnOk result (out.new.items ≡ out.old.items ++ spec.else_text level) }
{
    write(out, &[Piece::Level(level), Piece::Text(b"} else {\n")])
}

/// The line that an `if` begins with.
fn if_line(
    out: &mut Vec<u8>,
    scope: &Scope<'_>,
    level: usize,
    point: usize,
    line: usize,
    turned: bool,
    asked: &Condition,
) -> Result<(), AllocError>
    ensures { OnOk result (out.new.items ≡ out.old.items ++ spec.if_text (scope_of scope.now) level point line turned asked.now) }
{
    write(out, &[Piece::Level(level), Piece::Text(b"if (")])?;
    condition(out, scope, point, turned, asked)?;
    write(out, &[Piece::Text(b") {"), Piece::Label(point, line)])
}

/// An `if` without statements.
fn bare_line(
    out: &mut Vec<u8>,
    scope: &Scope<'_>,
    level: usize,
    point: usize,
    line: usize,
    asked: &Condition,
) -> Result<(), AllocError>
    ensures { OnOk result (out.new.items ≡ out.old.items ++ spec.bare_text (scope_of scope.now) level point line asked.now) }
{
    write(out, &[Piece::Level(level), Piece::Text(b"(VOID) (")])?;
    condition(out, scope, point, false, asked)?;
    write(out, &[Piece::Text(b");"), Piece::Label(point, line)])
}

/// The line that a `repeat` begins with.
fn repeat_line(
    out: &mut Vec<u8>,
    level: usize,
    point: usize,
    line: usize,
    turns: u64,
) -> Result<(), AllocError>
    ensures { OnOk result (out.new.items ≡ out.old.items ++ spec.repeat_text level point line turns) }
{
    write(
        out,
        &[
            Piece::Level(level),
            Piece::Text(b"for (ULONG turn"),
            Piece::Number(level as u64),
            Piece::Text(b" = "),
            Piece::Number(turns),
            Piece::Text(b"; turn"),
            Piece::Number(level as u64),
            Piece::Text(b" != 0; turn"),
            Piece::Number(level as u64),
            Piece::Text(b"--) {"),
            Piece::Label(point, line),
        ],
    )
}

/// Statements, the first of which has the point `point`. The result is the point after the last one.
#[cycle(statements)]
pub(crate) fn body(
    out: &mut Vec<u8>,
    scope: &Scope<'_>,
    level: usize,
    point: usize,
    statements: &[Statement],
) -> Result<usize, AllocError>
    requires deep { level + points statements.now ≤ 1024 }
    requires short { point + points statements.now ≤ 1024 }
    ensures next { IfOk result (λ next. next ≡ point + points statements.now) }
    ensures text { OnOk result (out.new.items ≡ out.old.items ++ spec.body_text (scope_of scope.now) statements.now level point) }
{
    let mut next = point;
    for found in statements {
        let after = statement(out, scope, level, next, found)?;
        next = after;
    }
    Ok(next)
}

/// An `if` whose first block is empty.
#[cycle(statements)]
fn turned(
    out: &mut Vec<u8>,
    scope: &Scope<'_>,
    level: usize,
    point: usize,
    line: usize,
    asked: &Condition,
    refused: &[Statement],
) -> Result<usize, AllocError>
    requires deep { level + 1 + points refused.now ≤ 1024 }
    requires short { point + 1 + points refused.now ≤ 1024 }
    ensures next { IfOk result (λ next. next ≡ point + 1 + points refused.now) }
    ensures text { OnOk result (out.new.items ≡ out.old.items
        ++ spec.turned_text (scope_of scope.now) line asked.now (spec.with_lines (scope_of scope.now) refused.now) level point) }
{
    match refused {
        [] => {
            bare_line(out, scope, level, point, line, asked)?;
            Ok(point + 1)
        }
        [_, ..] => {
            if_line(out, scope, level, point, line, true, asked)?;
            let next = body(out, scope, level + 1, point + 1, refused)?;
            closing(out, level)?;
            Ok(next)
        }
    }
}

/// The end of an `if` after its first block.
#[cycle(statements)]
fn otherwise(
    out: &mut Vec<u8>,
    scope: &Scope<'_>,
    level: usize,
    point: usize,
    refused: &[Statement],
) -> Result<usize, AllocError>
    requires deep { level + 1 + points refused.now ≤ 1024 }
    requires short { point + points refused.now ≤ 1024 }
    ensures next { IfOk result (λ next. next ≡ point + points refused.now) }
    ensures text { OnOk result (out.new.items ≡ out.old.items
        ++ spec.otherwise_text (spec.with_lines (scope_of scope.now) refused.now) level point) }
{
    match refused {
        [] => {
            closing(out, level)?;
            Ok(point)
        }
        [_, ..] => {
            else_line(out, level)?;
            let next = body(out, scope, level + 1, point, refused)?;
            closing(out, level)?;
            Ok(next)
        }
    }
}

#[cycle(statements)]
fn statement(
    out: &mut Vec<u8>,
    scope: &Scope<'_>,
    level: usize,
    point: usize,
    statement: &Statement,
) -> Result<usize, AllocError>
    requires deep { level + points_of statement.now ≤ 1024 }
    requires short { point + points_of statement.now ≤ 1024 }
    ensures next { IfOk result (λ next. next ≡ point + points_of statement.now) }
    ensures text { OnOk result (out.new.items ≡ out.old.items ++ spec.statement_text (scope_of scope.now) statement.now level point) }
{
    match statement {
        Statement::Act(at, found) => {
            write(out, &[Piece::Level(level)])?;
            action(out, scope.place, *found)?;
            write(out, &[Piece::Label(point, at.line)])?;
            Ok(point + 1)
        }
        Statement::Call(at, call) => {
            before_call(out, level, *call)?;
            write(out, &[Piece::Level(level)])?;
            plain_call(out, scope.locks, *call)?;
            write(out, &[Piece::Label(point, at.line)])?;
            Ok(point + 1)
        }
        Statement::Return(at, status) => {
            leave(out, scope.place, level, *status)?;
            write(out, &[Piece::Label(point, at.line)])?;
            Ok(point + 1)
        }
        Statement::If(at, asked, granted, refused) => match granted.as_slice() {
            [] => turned(out, scope, level, point, at.line, asked, refused.as_slice()),
            [_, ..] => {
                if_line(out, scope, level, point, at.line, false, asked)?;
                let middle = body(out, scope, level + 1, point + 1, granted.as_slice())?;
                otherwise(out, scope, level, middle, refused.as_slice())
            }
        },
        Statement::Repeat(at, turns, repeated) => {
            repeat_line(out, level, point, at.line, *turns)?;
            let next = body(out, scope, level + 1, point + 1, repeated.as_slice())?;
            closing(out, level)?;
            Ok(next)
        }
    }
}
