//! Names of stacks, as types.
ghost use Rattle.std.specs.Prelude.{ℕ};

use std::marker::{Brand, PhantomData};
use std::sync::ledger::Ledger;

/// Names three ledgers.
pub trait Counts {
    ghost callers_name: { ℕ };

    ghost callers_parts: { ℕ };

    ghost others_name: { ℕ };

    ghost others_parts: { ℕ };

    ghost fulls_name: { ℕ };

    ghost fulls_parts: { ℕ };
}

/// Names one stack: the filters that it runs, from the highest altitude to the lowest, and its three ledgers.
pub trait StackName: Counts {
    ghost use Rattle.std.specs.Prelude.{List};
    ghost use Rattle.flt_tree.specs.declared.filter.Filter.{Filter};

    ghost trees: { List Filter };
}

impl Counts for Brand {
    ghost callers_name = { 0 };

    ghost callers_parts = { 0 };

    ghost others_name = { 0 };

    ghost others_parts = { 0 };

    ghost fulls_name = { 0 };

    ghost fulls_parts = { 0 };
}

impl StackName for Brand {
    ghost use Rattle.std.specs.Prelude.{[]};

    ghost trees = { [] };
}

/// The ledger of the entries that callers made: operations that arrived, and teardowns that began.
pub struct CallerEntries<N: Counts> {
    of: PhantomData<N>,
}

impl<N: Counts> Ledger for CallerEntries<N> {
    ghost name = { N.callers_name };

    ghost parts = { N.callers_parts };
}

/// The ledger of all other entries.
pub struct OtherEntries<N: Counts> {
    of: PhantomData<N>,
}

impl<N: Counts> Ledger for OtherEntries<N> {
    ghost name = { N.others_name };

    ghost parts = { N.others_parts };
}

/// The ledger of refusals for lack of room: the journal, or the number of operations, was full.
pub struct Fulls<N: Counts> {
    of: PhantomData<N>,
}

impl<N: Counts> Ledger for Fulls<N> {
    ghost name = { N.fulls_name };

    ghost parts = { N.fulls_parts };
}
