//! The locks of a file: the expressions with which annotations declare them, and those that calls in its code have as first arguments.

ghost use Rattle.std.specs.Prelude.{◌≡◌, OnOk};
ghost use Rattle.flt_c_drift.specs.Locks as spec;

use crate::drift::Span;
use crate::mark::{Mark, MarkKind, Take};
use crate::part::{is_blank, is_code, is_note};
use crate::tokens::{MAX_DEPTH, Tokens};
use flt_c::{LockLine, Part, is_expression, lock_line_after};
use std::alloc::{AllocError, Global};

/// The most locks that a text may have.
const MAX_LOCKS: usize = 8;

/// A lock that is declared with an expression, without its name.
#[derive(Clone, Copy)]
pub(crate) struct ExpressionLock {
    /// The place of the first lock that is declared with the same expression among the declared ones, from 0.
    pub lock: usize,
    /// The bytes of the expression.
    pub expression: Span,
}

/// A lock that an annotation declares with an expression.
#[derive(Drop)]
pub(crate) struct Lock {
    name: Vec<u8>,
    tokens: Vec<u8>,
    known: ExpressionLock,
}

/// The first argument of a lock's call in code. The number of the call is its place among the calls of locks, from 0.
#[derive(Clone, Copy)]
pub(crate) enum Argument {
    /// None is being read.
    Nothing,
    /// The call's name is read: a bracket comes next.
    Called(usize),
    /// The argument of a call, with so many open brackets in it.
    Open(usize, usize),
}

/// The locks that annotations declare with expressions, and the parts of another one and of an argument that are read.
#[derive(Drop)]
pub(crate) struct Locks {
    alloc: Global,
    declared: Vec<Lock>,
    /// The line of an annotation.
    line: LockLine,
    /// The name of the lock that it declares.
    name: Vec<u8>,
    expression: Tokens,
    argument: Argument,
    tokens: Tokens,
    /// The number of marks before the argument.
    before: usize,
}

// ---- the line of an annotation

/// The line of an annotation after one more letter of the file.
fn line_with(part: Part, b: u8, line: LockLine) -> LockLine
    ensures { result ≡ spec.line_with part b line }
{
    if is_note(part) {
        lock_line_after(line, b)
    } else {
        LockLine::Nothing
    }
}

/// Whether the last byte belongs to the name of a lock.
fn is_letters(line: LockLine) -> bool
    ensures { result ≡ spec.is_letters line }
{
    matches!(line, LockLine::Letters)
}

// ---- an argument

/// Whether a bracket opens.
fn is_opening(b: u8) -> bool
    ensures { result ≡ spec.is_opening b }
{
    b == b'(' || b == b'[' || b == b'{'
}

/// Whether a bracket closes.
fn is_closing(b: u8) -> bool
    ensures { result ≡ spec.is_closing b }
{
    b == b')' || b == b']' || b == b'}'
}

/// Whether an argument with so many open brackets ends before a byte.
fn ends(depth: usize, b: u8) -> bool
    ensures { result ≡ spec.ends depth b }
{
    depth == 0 && (b == b',' || is_closing(b))
}

/// The argument after the bracket that comes after a call's name.
fn argument_of(call: usize, b: u8) -> Argument
    ensures { result ≡ spec.argument_of call b }
{
    if b == b'(' {
        Argument::Open(call, 0)
    } else {
        Argument::Nothing
    }
}

/// The argument after a bracket that opens.
fn deeper(call: usize, depth: usize) -> Argument
    ensures { result ≡ spec.deeper call depth }
{
    if depth < MAX_DEPTH {
        Argument::Open(call, depth + 1)
    } else {
        Argument::Nothing
    }
}

/// The argument after one more byte of it, or after the byte that ends it. A `;` ends it too, since it is no argument then.
fn argument_within(call: usize, depth: usize, b: u8) -> Argument
    ensures { result ≡ spec.argument_within call depth b }
{
    if ends(depth, b) || b == b';' {
        return Argument::Nothing;
    }
    if is_opening(b) {
        return deeper(call, depth);
    }
    if is_closing(b) {
        Argument::Open(call, depth.saturating_sub(1))
    } else {
        Argument::Open(call, depth)
    }
}

/// The argument after one more byte of code.
fn argument_after(argument: Argument, b: u8) -> Argument
    ensures { result ≡ spec.argument_after argument b }
{
    match argument {
        Argument::Nothing => Argument::Nothing,
        Argument::Called(call) => argument_of(call, b),
        Argument::Open(call, depth) => argument_within(call, depth, b),
    }
}

/// The argument after one more letter of the file.
fn argument_with(part: Part, b: u8, argument: Argument) -> Argument
    ensures { result ≡ spec.argument_with part b argument }
{
    if is_code(part) && !is_blank(b) {
        argument_after(argument, b)
    } else {
        argument
    }
}

/// Whether an argument begins after a letter.
fn begins(old: Argument, new: Argument) -> bool
    ensures { result ≡ spec.begins old new }
{
    matches!((old, new), (Argument::Called(_), Argument::Open(_, _)))
}

/// Whether an argument is being read.
fn is_open(argument: Argument) -> bool
    ensures { result ≡ spec.is_open argument }
{
    matches!(argument, Argument::Open(_, _))
}

/// Whether no line of an annotation is read that may declare a lock.
fn is_nothing(line: LockLine) -> bool
    ensures { result ≡ spec.is_nothing line }
{
    matches!(line, LockLine::Nothing)
}

/// Whether the line of an annotation declares no lock.
fn is_other(line: LockLine) -> bool
    ensures { result ≡ spec.is_other line }
{
    matches!(line, LockLine::Other)
}

/// Whether no argument is being read, and none begins with a bracket.
fn is_no_argument(argument: Argument) -> bool
    ensures { result ≡ spec.is_no_argument argument }
{
    matches!(argument, Argument::Nothing)
}

/// Whether the line of an annotation is the same after one more letter of the file.
fn is_same_line(part: Part, b: u8, line: LockLine) -> bool
    ensures { result ≡ spec.is_same_line part b line }
{
    if is_note(part) {
        is_other(line) && b != b'\n'
    } else {
        is_nothing(line)
    }
}

impl Locks {
    pub(crate) fn new(alloc: Global) -> Locks
        ensures { spec.locks_in result ≡ spec.no_locks }
    {
        Locks {
            alloc,
            declared: Vec::new(alloc),
            line: LockLine::Nothing,
            name: Vec::new(alloc),
            expression: Tokens::new(alloc),
            argument: Argument::Nothing,
            tokens: Tokens::new(alloc),
            before: 0,
        }
    }

    /// The place of the first lock that is declared with an expression of these tokens.
    fn place_of(&self, tokens: &[u8]) -> Option<usize>
        ensures { result ≡ spec.place_of (spec.locks_in self.now).declared tokens.now }
    {
        for lock in self.declared.as_slice() {
            if lock.tokens.as_slice() == tokens {
                return Some(lock.known.lock);
            }
        }
        None
    }

    /// The lock of a name, if it is declared with an expression.
    fn known(&self, name: &[u8]) -> Option<ExpressionLock>
        ensures { result ≡ spec.known_of (spec.locks_in self.now).declared name.now }
    {
        for lock in self.declared.as_slice() {
            if lock.name.as_slice() == name {
                return Some(lock.known);
            }
        }
        None
    }

    // ---- annotations

    /// The lock that a line declares, which ends at a place.
    fn new_lock(&self, at: usize) -> ExpressionLock
        ensures { result ≡ spec.new_lock at (spec.locks_in self.now) }
    {
        let lock = match self.place_of(self.expression.tokens()) {
            Some(place) => place,
            None => self.declared.len(),
        };
        ExpressionLock {
            lock,
            expression: Span {
                start: self.expression.start(),
                length: self.expression.length_at(at),
            },
        }
    }

    /// Adds the lock that a line declares, which ends at a place.
    fn add(&mut self, at: usize) -> Result<(), AllocError>
        ensures { OnOk result (spec.locks_in self.new ≡ spec.added at (spec.locks_in self.old)) }
    {
        let known = self.new_lock(at);
        let mut name = Vec::new(self.alloc);
        name.extend_from_slice(self.name.as_slice())?;
        let mut tokens = Vec::new(self.alloc);
        tokens.extend_from_slice(self.expression.tokens())?;
        self.declared.push(Lock {
            name,
            tokens,
            known,
        })?;
        Ok(())
    }

    /// Adds the lock that a line declares, if its expression ends before a place.
    fn declare(&mut self, at: usize, line: LockLine) -> Result<(), AllocError>
        ensures { OnOk result (spec.locks_in self.new ≡ spec.declared_at at line (spec.locks_in self.old)) }
    {
        if is_expression(self.line) && !is_expression(line) && self.is_new() {
            self.add(at)?;
        }
        Ok(())
    }

    /// Whether a lock may be added.
    fn is_new(&self) -> bool
        ensures { result ≡ spec.is_new (spec.locks_in self.now) }
    {
        self.declared.len() < MAX_LOCKS && !self.expression.tokens().is_empty()
    }

    /// Takes a byte of the name of a lock.
    fn write_name(&mut self, line: LockLine, b: u8) -> Result<(), AllocError>
        ensures { OnOk result (spec.locks_in self.new ≡ spec.name_written line b (spec.locks_in self.old)) }
    {
        if is_letters(line) {
            if !is_letters(self.line) {
                self.name.clear();
            }
            self.name.push(b)?;
        }
        Ok(())
    }

    /// Takes a byte of an expression.
    fn write_expression(&mut self, at: usize, line: LockLine, b: u8) -> Result<(), AllocError>
        ensures { OnOk result (spec.locks_in self.new ≡ spec.expression_written at line b (spec.locks_in self.old)) }
    {
        if is_expression(line) {
            if is_expression(self.line) {
                self.expression.write(at, b)?;
            } else {
                self.expression.clear();
            }
        }
        Ok(())
    }

    /// Takes one more letter of the file, as one of an annotation.
    #[tactic(auto, unfolding(crate::specs::Locks::noted))]
    fn note(&mut self, at: usize, part: Part, b: u8) -> Result<(), AllocError>
        ensures { OnOk result (spec.locks_in self.new ≡ spec.noted at part b (spec.locks_in self.old)) }
    {
        let line = line_with(part, b, self.line);
        self.declare(at, line)?;
        self.write_name(line, b)?;
        self.write_expression(at, line, b)?;
        self.line = line;
        Ok(())
    }

    // ---- code

    /// Begins to look for an argument after a word of code, if that is a lock's call.
    pub(crate) fn name_call(&mut self, call: Option<usize>)
        ensures { spec.locks_in self.new ≡ spec.called call (spec.locks_in self.old) }
    {
        if let Some(call) = call {
            self.argument = Argument::Called(call);
        }
    }

    /// The mark of the argument, if it ends before a letter, and if so many marks aren't more than there were before it.
    pub(crate) fn taken(&self, at: usize, part: Part, b: u8, marks: usize) -> Option<Mark>
        ensures { result ≡ spec.taken at part b marks (spec.locks_in self.now) }
    {
        match self.argument {
            Argument::Open(call, depth) => {
                if is_code(part) && ends(depth, b) && self.is_whole(marks) {
                    Some(self.mark(at, call))
                } else {
                    None
                }
            }
            _ => None,
        }
    }

    /// Whether the argument has tokens, and no other mark.
    fn is_whole(&self, marks: usize) -> bool
        ensures { result ≡ spec.is_whole marks (spec.locks_in self.now) }
    {
        self.before == marks && !self.tokens.tokens().is_empty()
    }

    /// The mark of the argument of a call, which ends before a place.
    fn mark(&self, at: usize, call: usize) -> Mark
        ensures { result ≡ spec.taken_mark at call (spec.locks_in self.now) }
    {
        Mark {
            kind: MarkKind::Takes(Take {
                call,
                lock: self.place_of(self.tokens.tokens()),
            }),
            start: self.tokens.start(),
            length: self.tokens.length_at(at),
        }
    }

    /// Takes a byte of the argument.
    fn write_argument(&mut self, at: usize, part: Part, b: u8) -> Result<(), AllocError>
        ensures { OnOk result (spec.locks_in self.new ≡ spec.argument_written at part b (spec.locks_in self.old)) }
    {
        if is_open(self.argument) {
            if is_code(part) {
                self.tokens.write(at, b)?;
            } else {
                self.tokens.part(at);
            }
        }
        Ok(())
    }

    /// Replaces the argument by another one, before which so many marks were made.
    fn go_on(&mut self, argument: Argument, marks: usize)
        ensures { spec.locks_in self.new ≡ spec.gone_on argument marks (spec.locks_in self.old) }
    {
        if begins(self.argument, argument) {
            self.tokens.clear();
            self.before = marks;
        }
        self.argument = argument;
    }

    /// Takes one more letter of the file, as one of code, after so many marks.
    #[tactic(auto, unfolding(crate::specs::Locks::coded))]
    fn code(&mut self, at: usize, part: Part, b: u8, marks: usize) -> Result<(), AllocError>
        ensures { OnOk result (spec.locks_in self.new ≡ spec.coded at part b marks (spec.locks_in self.old)) }
    {
        self.write_argument(at, part, b)?;
        let argument = argument_with(part, b, self.argument);
        self.go_on(argument, marks);
        Ok(())
    }

    // ---- both

    /// Takes one more letter of the file, after so many marks.
    pub(crate) fn read(
        &mut self,
        at: usize,
        part: Part,
        b: u8,
        marks: usize,
    ) -> Result<(), AllocError>
        ensures { OnOk result (spec.locks_in self.new ≡ spec.read at part b marks (spec.locks_in self.old)) }
    {
        self.note(at, part, b)?;
        self.code(at, part, b, marks)
    }

    /// Whether no argument is being read, and none begins with a bracket.
    pub(crate) fn has_no_argument(&self) -> bool
        ensures { result ≡ spec.is_no_argument (spec.locks_in self.now).argument }
    {
        is_no_argument(self.argument)
    }

    /// Whether no line of an annotation is read that may declare a lock.
    pub(crate) fn has_no_line(&self) -> bool
        ensures { result ≡ spec.is_nothing (spec.locks_in self.now).line }
    {
        is_nothing(self.line)
    }

    /// Whether a line of an annotation is read that declares none.
    pub(crate) fn has_other_line(&self) -> bool
        ensures { result ≡ spec.is_other (spec.locks_in self.now).line }
    {
        is_other(self.line)
    }

    /// Whether a letter is no part of a lock's declaration or of an argument, so that all stays as it is.
    pub(crate) fn is_still(&self, part: Part, b: u8) -> bool
        ensures { result ≡ spec.is_still part b (spec.locks_in self.now) }
    {
        is_no_argument(self.argument) && is_same_line(part, b, self.line)
    }

    /// The mark of a lock that an annotation takes or releases by a call, where its name begins at a place: that of its expression, or else
    /// that of its name.
    pub(crate) fn guard(&self, call: usize, name: &[u8], at: usize) -> Mark
        ensures { result ≡ spec.guard (spec.locks_in self.now) call name.now at }
    {
        match self.known(name) {
            Some(known) => Mark {
                kind: MarkKind::Guards(Take {
                    call,
                    lock: Some(known.lock),
                }),
                start: known.expression.start,
                length: known.expression.length,
            },
            None => Mark {
                kind: MarkKind::Guards(Take { call, lock: None }),
                start: at,
                length: name.len(),
            },
        }
    }
}
