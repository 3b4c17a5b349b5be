//! Which filters meet: those that have a callback of the same operation.

ghost use Rattle.std.specs.Prelude.{◌≡◌};
ghost use Rattle.flt_explain_outcomes.specs.Meeting as spec;

use flt_rules::Operation;
use flt_tree::{Callback, Filter, Head, Tree};

/// Whether a callback is of an operation.
fn is_of(kind: Operation, callback: &Callback) -> bool
    ensures { result ≡ spec.is_of kind callback.now }
{
    match &callback.head {
        Head::Pre(own) | Head::Post(own) => own.is_same(kind),
        _ => false,
    }
}

/// Whether a filter has a callback of an operation.
fn sees(filter: &Filter, kind: Operation) -> bool
    ensures { result ≡ spec.sees filter.now kind }
{
    filter.callbacks.as_slice().iter().any(|c| is_of(kind, c))
}

/// Whether both have a callback of an operation.
fn meet_on(one: &Filter, other: &Filter, kind: Operation) -> bool
    ensures { result ≡ spec.meet_on one.now other.now kind }
{
    sees(one, kind) && sees(other, kind)
}

fn meet(one: &Filter, other: &Filter) -> bool
    ensures { result ≡ spec.meet one.now other.now }
{
    Operation::all()
        .iter()
        .any(|kind| meet_on(one, other, *kind))
}

/// Whether a filter meets one of some others.
fn meets_some(one: &Filter, others: &[Tree]) -> bool
    ensures { result ≡ spec.meets_some one.now others.now }
{
    others.iter().any(|other| meet(one, &other.filter))
}

/// Whether the filter of a number meets one of the others.
pub(crate) fn meets_others(trees: &[Tree], number: usize) -> bool
    ensures { result ≡ spec.meets_others trees.now number }
{
    match trees.get(number) {
        Some(own) => {
            meets_some(&own.filter, &trees[..number])
                || meets_some(&own.filter, &trees[number + 1..])
        }
        None => false,
    }
}
