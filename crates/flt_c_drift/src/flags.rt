//! Whether some marks say something of a call, a status or an operation, noted once for all of them.

ghost use Rattle.std.specs.Prelude.{◌≡◌, IfOk, false, replicate};
ghost use Rattle.flt_c_drift.specs.Drifts as said;
ghost use Rattle.flt_c_drift.specs.Flags as spec;

use crate::mark::{Mark, MarkKind};
use crate::names::{CALLS, STATUSES};
use flt_rules::Operation;
use std::alloc::{AllocError, Global};

/// Fewer marks than these are searched each time, without flags.
const MANY: usize = 64;

/// Something that a mark may say of a call, a status or an operation.
#[derive(Clone, Copy)]
pub(crate) enum Question {
    /// Code has the name of this call.
    Called,
    /// An annotation names it.
    Named,
    /// An annotation returns this status.
    Answered,
    /// An entry registers a pre callback of this operation.
    PreRegistered,
    /// The same of a post callback.
    PostRegistered,
    /// An annotation begins a pre callback of this operation.
    PreHeaded,
    /// The same of a post callback.
    PostHeaded,
}

fn calls(call: usize, kind: MarkKind) -> bool
    ensures { result ≡ said.calls call kind }
{
    match kind {
        MarkKind::Calls(other) => other == call,
        _ => false,
    }
}

fn names(call: usize, kind: MarkKind) -> bool
    ensures { result ≡ said.names call kind }
{
    match kind {
        MarkKind::Names(other) => other == call,
        _ => false,
    }
}

fn answers(status: usize, kind: MarkKind) -> bool
    ensures { result ≡ said.answers status kind }
{
    match kind {
        MarkKind::Answers(other) => other == status,
        _ => false,
    }
}

fn registers_pre(operation: usize, kind: MarkKind) -> bool
    ensures { result ≡ said.registers_pre operation kind }
{
    match kind {
        MarkKind::RegistersPre(other) => other == operation,
        _ => false,
    }
}

fn registers_post(operation: usize, kind: MarkKind) -> bool
    ensures { result ≡ said.registers_post operation kind }
{
    match kind {
        MarkKind::RegistersPost(other) => other == operation,
        _ => false,
    }
}

fn heads_pre(operation: usize, kind: MarkKind) -> bool
    ensures { result ≡ said.heads_pre operation kind }
{
    match kind {
        MarkKind::HeadsPre(other) => other == operation,
        _ => false,
    }
}

fn heads_post(operation: usize, kind: MarkKind) -> bool
    ensures { result ≡ said.heads_post operation kind }
{
    match kind {
        MarkKind::HeadsPost(other) => other == operation,
        _ => false,
    }
}

/// Whether a mark says something of a number.
fn says(question: Question, number: usize, kind: MarkKind) -> bool
    ensures { result ≡ spec.says question number kind }
{
    match question {
        Question::Called => calls(number, kind),
        Question::Named => names(number, kind),
        Question::Answered => answers(number, kind),
        Question::PreRegistered => registers_pre(number, kind),
        Question::PostRegistered => registers_post(number, kind),
        Question::PreHeaded => heads_pre(number, kind),
        Question::PostHeaded => heads_post(number, kind),
    }
}

/// Whether some marks say something of a number.
fn is_said(question: Question, number: usize, marks: &[Mark]) -> bool
    ensures { result ≡ spec.is_said question number marks.now }
{
    marks.iter().any(|mark| says(question, number, mark.kind))
}

/// The count of the numbers that a question can be about.
#[tactic(auto, unfolding(crate::specs::Names::calls, crate::specs::Names::statuses, crate::specs::Names::operations))]
fn count(question: Question) -> usize
    ensures { result ≡ spec.count question }
{
    match question {
        Question::Called | Question::Named => CALLS.len(),
        Question::Answered => STATUSES.len(),
        _ => Operation::all().len(),
    }
}

/// The count of the numbers that have flags: all `count` of them if the marks are many, and none if they are few.
fn noted(count: usize, marks: usize) -> usize
    ensures { result ≡ spec.noted count marks }
{
    if marks < MANY { 0 } else { count }
}

/// The number that a mark says something of.
fn subject(question: Question, kind: MarkKind) -> Option<usize>
    ensures { result ≡ spec.subject question kind }
{
    match (question, kind) {
        (Question::Called, MarkKind::Calls(call)) => Some(call),
        (Question::Named, MarkKind::Names(call)) => Some(call),
        (Question::Answered, MarkKind::Answers(status)) => Some(status),
        (Question::PreRegistered, MarkKind::RegistersPre(operation)) => Some(operation),
        (Question::PostRegistered, MarkKind::RegistersPost(operation)) => Some(operation),
        (Question::PreHeaded, MarkKind::HeadsPre(operation)) => Some(operation),
        (Question::PostHeaded, MarkKind::HeadsPost(operation)) => Some(operation),
        _ => None,
    }
}

/// So many flags, none of which is raised.
fn no_flags(alloc: Global, count: usize) -> Result<Vec<bool>, AllocError>
    ensures { IfOk result (λ found. found.items ≡ replicate count false) }
{
    let mut found = Vec::new(alloc);
    for _number in 0..count {
        found.push(false)?;
    }
    Ok(found)
}

/// Raises the flag of a number, if it has one.
fn raise(found: &mut Vec<bool>, number: Option<usize>)
    ensures { found.new.items ≡ spec.raised number found.old.items }
{
    if let Some(number) = number {
        if number < found.len() {
            found[number] = true;
        }
    }
}

/// Whether some marks say something of each number below another one.
fn flags_below(
    alloc: Global,
    question: Question,
    marks: &[Mark],
    count: usize,
) -> Result<Vec<bool>, AllocError>
    ensures { IfOk result (λ found. found.items ≡ spec.flags question marks.now count) }
{
    let mut found = no_flags(alloc, count)?;
    for mark in marks {
        raise(&mut found, subject(question, mark.kind));
    }
    Ok(found)
}

/// Whether some marks say something of each number that a question can be about; no flags if the marks are few.
pub(crate) fn flags(
    alloc: Global,
    question: Question,
    marks: &[Mark],
) -> Result<Vec<bool>, AllocError>
    ensures { IfOk result (λ found. found.items ≡ spec.flags_of question marks.now) }
{
    let found = flags_below(alloc, question, marks, noted(count(question), marks.len()))?;
    Ok(found)
}

/// Whether some marks say something of a number, by its flag if it has one.
pub(crate) fn is_noted(flags: &[bool], question: Question, number: usize, marks: &[Mark]) -> bool
    requires { flags.now ≡ spec.flags_of question marks.now }
    ensures { result ≡ spec.is_said question number marks.now }
{
    match flags.get(number) {
        Some(flag) => *flag,
        None => is_said(question, number, marks),
    }
}
