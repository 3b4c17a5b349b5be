//! Repetitions: blocks of rows that come several times, one after the other.

ghost use Rattle.std.specs.Prelude.{◌≡◌, ◌≤◌, ◌+◌, ◌*◌, ◌/◌, ◌<◌, drop, length, slice_get, take, IfOk, IsTrue};
ghost use Rattle.std.specs.Str.{bytes_eq};
ghost use Rattle.flt_explain_timeline.specs.Folds as spec;

use crate::rows::Row;
use sqlite_items::Items;
use std::alloc::{AllocError, Global};

/// A block has fewer rows than this.
const LONGEST: usize = 25;

/// A block of rows, and the rows after it that repeat it.
#[derive(Clone, Copy)]
pub struct Fold {
    /// The number of the first row, from 0.
    pub first: usize,
    /// How many rows the block has.
    pub block: usize,
    /// How many rows repeat it: each has the descriptions of the row that is `block` rows before it.
    pub repeated: usize,
}

/// The items from a place on.
pub(crate) fn from<T>(items: &[T], first: usize) -> &[T]
    ensures { result.now ≡ drop first items.now }
{
    if first > items.len() {
        return &[];
    }
    &items[first..]
}

/// So many items from a place on, or fewer if there are fewer.
pub(crate) fn stretch<T>(items: &[T], first: usize, count: usize) -> &[T]
    ensures { result.now ≡ take count (drop first items.now) }
{
    let behind = from(items, first);
    if count > behind.len() {
        return behind;
    }
    &behind[..count]
}

/// The numbers of the descriptions in a row.
pub(crate) fn part(told: &[usize], row: Row) -> &[usize]
    ensures { result.now ≡ spec.part told.now row }
{
    stretch(told, row.first, row.count)
}

/// The numbers of the descriptions in the row of a number; none if there is no such row.
fn part_of<'a>(told: &'a [usize], rows: &[Row], number: usize) -> &'a [usize]
    ensures { result.now ≡ spec.part_of told.now (slice_get rows.now number) }
{
    match rows.get(number).copied() {
        Some(row) => part(told, row),
        None => &[],
    }
}

/// Whether the rows of two numbers have the same descriptions.
fn are_alike(told: &[usize], rows: &[Row], one: usize, other: usize) -> bool
    ensures same { IsTrue result →
        spec.part_of told.now (slice_get rows.now one) ≡ spec.part_of told.now (slice_get rows.now other) }
    ensures exact { result ≡ bytes_eq (spec.part_of told.now (slice_get rows.now one)) (spec.part_of told.now (slice_get rows.now other)) }
{
    part_of(told, rows, one) == part_of(told, rows, other)
}

/// How many rows, from the end of a block on, have the same descriptions as those a block before them.
#[tactic(auto, using(crate::proofs::Alike::alike_steps))]
fn repeated(told: &[usize], rows: &[Row], first: usize, block: usize) -> usize
    requires { first + block ≤ length rows.now }
    ensures within { first + block + result ≤ length rows.now }
    ensures repeats { spec.Repeats told.now rows.now first block result }
    ensures exact { result ≡ spec.alike told.now (drop first rows.now) (drop (first + block) rows.now) }
{
    let most = rows.len() - first - block;
    let mut alike = 0;
    while alike < most {
        if !are_alike(told, rows, first + alike, first + alike + block) {
            return alike;
        }
        alike += 1;
    }
    alike
}

/// How many of some rows are in whole blocks.
#[tactic(auto, using(crate::proofs::Alike::whole_le))]
fn whole_blocks(rows: usize, block: usize) -> usize
    requires { 1 ≤ block }
    ensures within { result ≤ rows }
    ensures exact { result ≡ rows / block * block }
{
    (rows / block).saturating_mul(block).min(rows)
}

/// The shortest block at a place that comes three times, or the row alone.
fn fold_at(told: &[usize], rows: &[Row], first: usize) -> Fold
    requires { first < length rows.now }
    ensures first { result.first ≡ first }
    ensures fold { spec.IsFold told.now rows.now result }
    ensures exact { result ≡ spec.first_fold told.now first (drop first rows.now) }
{
    for block in 1..LONGEST {
        if block > rows.len() - first {
            break;
        }
        let alike = whole_blocks(repeated(told, rows, first, block), block);
        if alike / 2 >= block {
            return Fold {
                first,
                block,
                repeated: alike,
            };
        }
    }
    Fold {
        first,
        block: 1,
        repeated: 0,
    }
}

/// The blocks of some rows.
#[tactic(auto, using(crate::proofs::Appending::folds_append, crate::proofs::Alike::folds_more))]
pub(crate) fn folds_of(
    alloc: Global,
    told: &[usize],
    rows: &[Row],
) -> Result<Items<Fold>, AllocError>
    ensures folds { IfOk result (λ folds. spec.AreFolds told.now rows.now 0 folds (length rows.now)) }
    ensures exact { IfOk result (λ folds. folds ≡ spec.folds told.now rows.now) }
{
    let mut folds = Items::new(alloc);
    let mut first = 0;
    while first < rows.len() {
        let fold = fold_at(told, rows, first);
        folds.push(fold)?;
        first = first + fold.block + fold.repeated;
    }
    Ok(folds)
}
