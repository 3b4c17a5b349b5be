//! Rows of entries: stretches in which one activation or the system is on.

ghost use Rattle.std.specs.Prelude.{◌≡◌, ◌≤◌, ◌<◌, ◌+◌, ◌^◌, ◌++◌, ◌∷◌, List, length, IfOk};
ghost use Rattle.flt_explain_timeline.specs.declared.telling.Who.{Who as Told};
ghost use Rattle.flt_explain_timeline.specs.Rows as spec;

use crate::telling::Who;
use sqlite_items::Items;
use std::alloc::{AllocError, Global};

/// Consecutive entries: the number of the first, from 0, and how many there are.
#[derive(Clone, Copy)]
pub struct Row {
    pub first: usize,
    pub count: usize,
}

/// Whether an entry is in the row of the one before it: both are about one operation or about none, and no other activation is on.
fn joins(last: Who, next: Who) -> bool
    ensures { result ≡ spec.joins last next }
{
    let unbroken = last.activation.is_none() || last.activation == next.activation;
    !last.ends && unbroken && last.operation == next.operation
}

/// Adds an entry to the row that has begun, or begins the next row with it. Returns the row that has begun then.
#[tactic(auto, using(crate::proofs::Appending::cover_append))]
fn add(rows: &mut Items<Row>, row: Row, last: Who, next: Who) -> Result<Row, AllocError>
    requires some { 1 ≤ row.count }
    requires fits { row.first + row.count + 1 < 2 ^ 64 }
    ensures covers { spec.Cover 0 rows.old row.first → IfOk result (λ r. spec.Cover 0 rows.new r.first) }
    ensures some { IfOk result (λ r. 1 ≤ r.count) }
    ensures ends { IfOk result (λ r. r.first + r.count ≡ row.first + row.count + 1) }
    ensures exact { IfOk result (λ r. (whos : List Told) →
        rows.new ++ spec.rows_after r.first r.count next whos ≡ rows.old ++ spec.rows_after row.first row.count last (next ∷ whos)) }
{
    if joins(last, next) {
        return Ok(Row {
            first: row.first,
            count: row.count + 1,
        });
    }
    rows.push(row)?;
    Ok(Row {
        first: row.first + row.count,
        count: 1,
    })
}

/// The rows of some entries.
#[tactic(auto, using(crate::proofs::Appending::cover_append))]
pub(crate) fn rows_of(alloc: Global, whos: &[Who]) -> Result<Items<Row>, AllocError>
    ensures covers { IfOk result (λ rows. spec.Cover 0 rows (length whos.now)) }
    ensures exact { IfOk result (λ rows. rows ≡ spec.rows_of whos.now) }
{
    let mut rows = Items::new(alloc);
    let Some((who, rest)) = whos.split_first() else {
        return Ok(rows);
    };
    let mut row = Row { first: 0, count: 1 };
    let mut last = *who;
    for next in rest {
        row = add(&mut rows, row, last, *next)?;
        last = *next;
    }
    rows.push(row)?;
    Ok(rows)
}
