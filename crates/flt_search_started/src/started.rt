//! The set of callbacks that may start.

ghost use Rattle.std.specs.Prelude.{◌≡◌, ℕ, IfOk, IfSome, IsTrue, List, not, true};
ghost use Rattle.flt_starts.specs.Closed.{IsClosed};
ghost use Rattle.flt_starts.specs.Starts.{NeverStarts};
ghost use Rattle.flt_search_started.specs.Marks as spec;
ghost use Rattle.flt_tree.specs.declared.filter.Callback.{Callback};
ghost use Rattle.flt_search_started.specs.Marks.{is_marked as marked};

use crate::asked::{mark, mark_by_body};
use crate::callbacks::{has_pre, pre_number};
use crate::within::{body_within, is_marked};
use flt_rules::Operation;
use flt_starts::unasked_callbacks_never_start;
use flt_tree::Callback;
use sqlite_items::Items;
use std::alloc::{AllocError, Global};
use std::marker::Model;

/// The callbacks of a filter that may start, and no others. Contracts see a mark for each callback.
#[derive(Drop)]
pub struct StartedCallbacks {
    marks: Items<bool>,
}

impl Model for StartedCallbacks {
    ghost use Rattle.std.specs.Prelude.{Bool, List};

    ghost Value = { List Bool };

    ghost view = { λ s. s.marks };
}

/// Marks of the pre callbacks alone.
fn entered(alloc: Global, callbacks: &[Callback]) -> Result<Items<bool>, AllocError> {
    let mut marks = Items::new(alloc);
    for _callback in callbacks {
        marks.push(false)?;
    }
    for kind in Operation::all() {
        mark(&mut marks, pre_number(callbacks, *kind));
    }
    Ok(marks)
}

/// Marks the callbacks that the marked ones ask for.
fn mark_more(callbacks: &[Callback], marks: &mut Items<bool>) {
    for number in 0..callbacks.len() {
        if is_marked(marks.as_slice(), number) {
            let callback = &callbacks[number];
            mark_by_body(
                callbacks,
                marks,
                callback.head.place(),
                callback.body.as_slice(),
            );
        }
    }
}

/// Whether the pre callback of an operation is marked, if there is one.
fn has_entry(callbacks: &[Callback], marks: &[bool], kind: Operation) -> bool
    ensures { result ≡ spec.has_entry callbacks.now marks.now kind }
{
    !has_pre(callbacks, kind) || is_marked(marks, pre_number(callbacks, kind))
}

fn has_entries(callbacks: &[Callback], marks: &[bool]) -> bool
    ensures { result ≡ spec.has_entries callbacks.now marks.now }
{
    Operation::all()
        .iter()
        .all(|kind| has_entry(callbacks, marks, *kind))
}

/// Whether all that a marked callback asks for is marked.
fn is_kept(callbacks: &[Callback], marks: &[bool], number: usize) -> bool
    ensures { result ≡ spec.is_kept callbacks.now marks.now number }
{
    match callbacks.get(number) {
        Some(callback) => {
            !is_marked(marks, number)
                || body_within(
                    callbacks,
                    marks,
                    callback.head.place(),
                    callback.body.as_slice(),
                )
        }
        None => true,
    }
}

/// Whether all that any marked callback asks for is marked.
fn are_kept(callbacks: &[Callback], marks: &[bool]) -> bool
    ensures { IsTrue result → (k : ℕ) → spec.is_kept callbacks.now marks.now k ≡ true }
{
    for number in 0..callbacks.len() {
        if !is_kept(callbacks, marks, number) {
            return false;
        }
    }
    true
}

/// Whether nothing leads out of the marked callbacks, and each pre callback is among them.
fn are_closed(callbacks: &[Callback], marks: &[bool]) -> bool
    ensures { IsTrue result → IsClosed callbacks.now (marked marks.now) }
{
    has_entries(callbacks, marks) && are_kept(callbacks, marks)
}

impl StartedCallbacks {
    /// The callbacks of a filter that may start; none only if the search for them ended too early, which it doesn't.
    ///
    /// # Errors
    ///
    /// `AllocError` if a growth is refused.
    pub fn of(alloc: Global, callbacks: &[Callback]) -> Result<Option<StartedCallbacks>, AllocError>
        ensures { IfOk result (λ found. IfSome found (λ s. IsClosed callbacks.now (spec.is_marked s))) }
    {
        let mut marks = entered(alloc, callbacks)?;
        for _callback in callbacks {
            mark_more(callbacks, &mut marks);
        }
        if are_closed(callbacks, marks.as_slice()) {
            Ok(Some(StartedCallbacks { marks }))
        } else {
            Ok(None)
        }
    }

    /// Whether the callback of a number, from 0, is outside the set: no run of any filters starts it.
    pub fn rules_out(&self, number: usize) -> bool
        ensures value { result ≡ not (spec.is_marked self.now number) }
        ensures law { (cs : List Callback) → IsClosed cs (spec.is_marked self.now) → IsTrue result → NeverStarts cs number }
    {
        unasked_callbacks_never_start();
        !is_marked(self.marks.as_slice(), number)
    }
}
