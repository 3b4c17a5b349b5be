//! Finds the first return that isn't one of its place.

ghost use Rattle.flt_emit_read.specs.AsRead.{fits_return, returns_fit};
ghost use Rattle.flt_emit_read.specs.Unfit as spec;
ghost use Rattle.std.specs.Prelude.{◌≡◌, is_none};

use flt_rules::Place;
use flt_tree::{Callback, Statement, Status, Tree};

fn fits(place: Place, status: Option<Status>) -> bool
    ensures { result ≡ fits_return place status }
{
    match place {
        Place::Pre(_) | Place::Post(_) => status.is_some(),
        _ => status.is_none(),
    }
}

fn unless_fits(fits: bool, line: usize) -> Option<usize>
    ensures { result ≡ spec.unless_fits fits line }
{
    if fits { None } else { Some(line) }
}

#[cycle(unfit)]
fn unfit_in(place: Place, body: &[Statement]) -> Option<usize>
    ensures { result ≡ spec.unfit_in place body.now }
{
    for statement in body {
        if let Some(line) = unfit_of(place, statement) {
            return Some(line);
        }
    }
    None
}

#[cycle(unfit)]
fn unfit_of(place: Place, statement: &Statement) -> Option<usize>
    ensures { result ≡ spec.unfit_of place statement.now }
{
    match statement {
        Statement::Act(_, _) | Statement::Call(_, _) => None,
        Statement::Return(span, status) => unless_fits(fits(place, *status), span.line),
        Statement::If(_, _, granted, refused) => {
            match unfit_in(place, granted.as_slice()) {
                Some(line) => Some(line),
                None => unfit_in(place, refused.as_slice()),
            }
        }
        Statement::Repeat(_, _, body) => unfit_in(place, body.as_slice()),
    }
}

fn unfit_callback(callback: &Callback) -> Option<usize>
    ensures { result ≡ spec.callback_unfit callback.now }
{
    unfit_in(callback.head.place(), callback.body.as_slice())
}

fn unfit_callbacks(callbacks: &[Callback]) -> Option<usize>
    ensures { result ≡ spec.callbacks_unfit callbacks.now }
{
    for callback in callbacks {
        if let Some(line) = unfit_callback(callback) {
            return Some(line);
        }
    }
    None
}

/// The line of the first `return`, in the order of the text, that isn't one of its place: that has no status in a pre or a post callback,
/// or has one elsewhere. Lines are counted from 1. An accepted text has such a return only where no run comes, and the source can't say it.
#[tactic(auto, using(crate::proofs::AllFit::is_none_where_all_fit))]
pub fn unfit_return(tree: &Tree) -> Option<usize>
    ensures first { result ≡ spec.first_unfit tree.now.filter }
    ensures fit { returns_fit tree.now.filter ≡ is_none result }
{
    unfit_callbacks(tree.filter.callbacks.as_slice())
}
