//! Measures bodies against the limits on points and cost.

ghost use Rattle.flt_rules.specs.Limits.{max_points, max_cost};
ghost use Rattle.flt_tree.specs.Measures as spec;
ghost use Rattle.std.specs.Prelude.{◌≡◌, ◌≤◌, ◌+◌, ◌*◌, min};

use crate::filter::{Callback, Statement};
use flt_rules::MAX_POINTS;

const MAX_COST: u64 = flt_rules::MAX_COST as u64;

/// The points of a body, or the limit if that is less.
#[cycle(points)]
fn points(body: &[Statement]) -> usize
    ensures { result ≡ min (spec.points body.now) max_points }
{
    let mut total = 0;
    for statement in body {
        total = MAX_POINTS.min(total + points_of(statement));
    }
    total
}

#[cycle(points)]
fn points_of(statement: &Statement) -> usize
    ensures { result ≡ min (spec.points_of statement.now) max_points }
{
    match statement {
        Statement::Act(_, _) | Statement::Call(_, _) | Statement::Return(_, _) => 1,
        Statement::If(_, _, granted, refused) => {
            MAX_POINTS.min(1 + points(granted.as_slice()) + points(refused.as_slice()))
        }
        Statement::Repeat(_, _, body) => MAX_POINTS.min(1 + points(body.as_slice())),
    }
}

/// The cost of a body, or the limit if that is less.
#[cycle(cost)]
fn cost(body: &[Statement]) -> u64
    ensures { result ≡ min (spec.cost body.now) max_cost }
{
    let mut total = 0;
    for statement in body {
        total = MAX_COST.min(total + cost_of(statement));
    }
    total
}

#[cycle(cost)]
fn cost_of(statement: &Statement) -> u64
    ensures { result ≡ min (spec.cost_of statement.now) max_cost }
{
    match statement {
        Statement::Act(_, _) | Statement::Call(_, _) | Statement::Return(_, _) => 1,
        Statement::If(_, _, granted, refused) => {
            MAX_COST.min(1 + cost(granted.as_slice()).max(cost(refused.as_slice())))
        }
        Statement::Repeat(_, turns, body) => repeated(*turns, cost(body.as_slice())),
    }
}

/// The cost of turns of a body, or the limit if that is less.
fn repeated(turns: u64, body: u64) -> u64
    requires { body ≤ max_cost }
    ensures { result ≡ min (1 + turns * (1 + body)) max_cost }
{
    MAX_COST.min(1 + turns.min(MAX_COST) * (1 + body))
}

/// Whether a callback is within the limits on points and cost.
pub fn is_small(callback: &Callback) -> bool
    ensures { result ≡ spec.is_small callback.now }
{
    let body = callback.body.as_slice();
    points(body) < MAX_POINTS && cost(body) < MAX_COST
}
