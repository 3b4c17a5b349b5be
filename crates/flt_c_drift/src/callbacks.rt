//! Whether the callbacks that a file registers are those that its annotations begin.

ghost use Rattle.std.specs.Prelude.{◌≡◌, IfOk};
ghost use Rattle.flt_c_drift.specs.Drifts as spec;

use crate::flags::{Question, flags, is_noted};
use crate::mark::{Mark, MarkKind};
use std::alloc::{AllocError, Global};
use std::marker::Model;

/// The marks of a file, with flags for the callbacks that they are about.
#[derive(Drop)]
pub(crate) struct Callbacks<'a> {
    marks: &'a [Mark],
    /// For each of the first operations, whether an entry registers a pre callback of it.
    pre_registered: Vec<bool>,
    post_registered: Vec<bool>,
    /// For each of the first operations, whether an annotation begins a pre callback of it.
    pre_headed: Vec<bool>,
    post_headed: Vec<bool>,
    registers: bool,
    heads: bool,
    /// The place of the first callback of another major function that an entry registers.
    other: Option<usize>,
}

impl<'a> Model for Callbacks<'a> {
    ghost use Rattle.std.specs.Prelude.{◌≡◌, List};
    ghost use Rattle.flt_c_drift.specs.Drifts.{first_other, has_table, has_heads};
    ghost use Rattle.flt_c_drift.specs.Flags.{flags_of};
    ghost use Rattle.flt_c_drift.specs.declared.flags.Question.TheVariants as ask;
    ghost use Rattle.flt_c_drift.specs.declared.mark.Mark.{Mark};

    ghost Value = { List Mark };

    ghost view = { λ c. c.marks.now };

    ghost invariant = { λ c.
        (c.pre_registered.items ≡ flags_of ask.PreRegistered c.marks.now)
        × (c.post_registered.items ≡ flags_of ask.PostRegistered c.marks.now)
        × (c.pre_headed.items ≡ flags_of ask.PreHeaded c.marks.now)
        × (c.post_headed.items ≡ flags_of ask.PostHeaded c.marks.now)
        × (c.registers ≡ has_table c.marks.now)
        × (c.heads ≡ has_heads c.marks.now)
        × (c.other ≡ first_other c.marks.now) };
}

fn is_registration(kind: MarkKind) -> bool
    ensures { result ≡ spec.is_registration kind }
{
    matches!(kind, MarkKind::RegistersPre(_) | MarkKind::RegistersPost(_))
}

fn is_head(kind: MarkKind) -> bool
    ensures { result ≡ spec.is_head kind }
{
    matches!(kind, MarkKind::HeadsPre(_) | MarkKind::HeadsPost(_))
}

/// Whether an entry registers a callback of one of the operations.
fn has_table(all: &[Mark]) -> bool
    ensures { result ≡ spec.has_table all.now }
{
    all.iter().any(|mark| is_registration(mark.kind))
}

/// Whether an annotation begins a callback.
fn has_heads(all: &[Mark]) -> bool
    ensures { result ≡ spec.has_heads all.now }
{
    all.iter().any(|mark| is_head(mark.kind))
}

/// The place of a callback of another major function, if a mark is one.
fn other_in(mark: Mark) -> Option<usize>
    ensures { result ≡ spec.other_in mark }
{
    match mark.kind {
        MarkKind::RegistersOther => Some(mark.start),
        _ => None,
    }
}

/// The place of the first callback of another major function that an entry registers.
fn first_other(all: &[Mark]) -> Option<usize>
    ensures { result ≡ spec.first_other all.now }
{
    for mark in all {
        if let Some(start) = other_in(*mark) {
            return Some(start);
        }
    }
    None
}

impl<'a> Callbacks<'a> {
    /// The callbacks of a file that has these marks.
    pub(crate) fn new(alloc: Global, marks: &'a [Mark]) -> Result<Callbacks<'a>, AllocError>
        ensures { IfOk result (λ callbacks. callbacks ≡ marks.now) }
    {
        let pre_registered = flags(alloc, Question::PreRegistered, marks)?;
        let post_registered = flags(alloc, Question::PostRegistered, marks)?;
        let pre_headed = flags(alloc, Question::PreHeaded, marks)?;
        let post_headed = flags(alloc, Question::PostHeaded, marks)?;
        Ok(Callbacks {
            marks,
            pre_registered,
            post_registered,
            pre_headed,
            post_headed,
            registers: has_table(marks),
            heads: has_heads(marks),
            other: first_other(marks),
        })
    }

    /// Whether an entry registers a pre callback of an operation.
    pub(crate) fn is_pre_registered(&self, operation: usize) -> bool
        ensures { result ≡ spec.is_pre_registered operation self.now }
    {
        let flags = self.pre_registered.as_slice();
        is_noted(flags, Question::PreRegistered, operation, self.marks)
    }

    /// Whether an entry registers a post callback of an operation.
    pub(crate) fn is_post_registered(&self, operation: usize) -> bool
        ensures { result ≡ spec.is_post_registered operation self.now }
    {
        let flags = self.post_registered.as_slice();
        is_noted(flags, Question::PostRegistered, operation, self.marks)
    }

    /// Whether an annotation begins a pre callback of an operation.
    pub(crate) fn is_pre_headed(&self, operation: usize) -> bool
        ensures { result ≡ spec.is_pre_headed operation self.now }
    {
        let flags = self.pre_headed.as_slice();
        is_noted(flags, Question::PreHeaded, operation, self.marks)
    }

    /// Whether an annotation begins a post callback of an operation.
    pub(crate) fn is_post_headed(&self, operation: usize) -> bool
        ensures { result ≡ spec.is_post_headed operation self.now }
    {
        let flags = self.post_headed.as_slice();
        is_noted(flags, Question::PostHeaded, operation, self.marks)
    }

    /// Whether an entry registers a callback of one of the operations.
    pub(crate) fn has_table(&self) -> bool
        ensures { result ≡ spec.has_table self.now }
    {
        self.registers
    }

    /// Whether an annotation begins a callback.
    pub(crate) fn has_heads(&self) -> bool
        ensures { result ≡ spec.has_heads self.now }
    {
        self.heads
    }

    /// Whether the first callback of another major function that an entry registers is at a place.
    pub(crate) fn is_first_other(&self, start: usize) -> bool
        ensures { result ≡ spec.is_at (spec.first_other self.now) start }
    {
        match self.other {
            Some(first) => first == start,
            None => false,
        }
    }
}
