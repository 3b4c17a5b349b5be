//! The places of a finding's statement, and of the operand in it that the finding names.

ghost use Rattle.std.specs.Prelude.{◌≡◌, IfOk};
ghost use Rattle.std.specs.List.{find};
ghost use Rattle.flt_tree.specs.Declarations as declarations;
ghost use Rattle.flt_explain_texts.specs.Operands as spec;

use crate::scene::Scene;
use flt_explain::{Subject, is_action_about, is_context, is_lock, is_operation};
use flt_graph::{Instruction, Invocation};
use flt_places::{Lines, Region};
use flt_rules::{LockNumber, MAX_TEXT};
use flt_syntax::{Token, Tree, bytes_of, tokens};
use flt_tree::{
    ContextVariable, OperationVariable, RemovedVariable, Span, Status, Test, named_context,
};
use sqlite_items::Items;
use std::alloc::{AllocError, Global};

/// The place of a finding's statement, and of its subject in it.
#[derive(Clone, Copy)]
pub struct Marks {
    /// Of an `if` its condition; of the end of a body its closing brace.
    pub statement: Region,
    /// The variable or the lock, if the statement names it.
    pub operand: Option<Region>,
}

// ---- words

fn context_word(variable: ContextVariable) -> &'static [u8]
    ensures { result.now ≡ spec.context_word variable }
{
    match variable {
        ContextVariable::C0 => b"c0",
        ContextVariable::C1 => b"c1",
        ContextVariable::C2 => b"c2",
        ContextVariable::C3 => b"c3",
        ContextVariable::C4 => b"c4",
        ContextVariable::C5 => b"c5",
        ContextVariable::C6 => b"c6",
        ContextVariable::C7 => b"c7",
        ContextVariable::Arg => b"arg",
    }
}

fn operation_word(variable: OperationVariable) -> &'static [u8]
    ensures { result.now ≡ spec.operation_word variable }
{
    match variable {
        OperationVariable::Removed(RemovedVariable::O0) => b"o0",
        OperationVariable::Removed(RemovedVariable::O1) => b"o1",
        OperationVariable::Removed(RemovedVariable::O2) => b"o2",
        OperationVariable::Removed(RemovedVariable::O3) => b"o3",
        OperationVariable::Data => b"data",
    }
}

/// The name of a lock; empty if it isn't declared.
pub fn lock_word(tree: &Tree, lock: LockNumber) -> &[u8]
    ensures { result.now ≡ declarations.lock_name tree.now.filter.locks lock }
{
    match tree.filter.locks.get(usize::from(lock.place())) {
        Some(lock) => lock.name.as_slice(),
        None => &[],
    }
}

/// The spelling of a subject in a text; empty if it has none.
pub fn word_of(tree: &Tree, subject: Subject) -> &[u8]
    ensures { result.now ≡ spec.word_of tree.now.filter subject }
{
    match subject {
        Subject::Context(variable) => context_word(variable),
        Subject::Operation(variable) => operation_word(variable),
        Subject::Lock(lock) => lock_word(tree, lock),
        Subject::Mode | Subject::Draining | Subject::Call | Subject::Status => &[],
    }
}

// ---- operands

fn is_tested(test: Test, subject: Subject) -> bool
    ensures { result ≡ spec.is_tested test subject }
{
    match (test, subject) {
        (Test::ContextIsSome(c), Subject::Context(v)) => is_context(Some(c), v),
        (Test::OperationIsSome(o), Subject::Operation(v)) => {
            is_operation(Some(OperationVariable::Removed(o)), v)
        }
        (Test::IsIrp, Subject::Operation(v)) => is_operation(Some(OperationVariable::Data), v),
        _ => false,
    }
}

fn is_called_with(call: &Invocation, subject: Subject) -> bool
    ensures { result ≡ spec.is_called_with call.now subject }
{
    match subject {
        Subject::Context(v) => is_context(call.context, v) || is_context(call.output, v),
        Subject::Operation(v) => is_operation(call.operation, v),
        Subject::Lock(l) => is_lock(call.lock, l),
        Subject::Mode | Subject::Draining | Subject::Call | Subject::Status => false,
    }
}

fn is_returned(status: Option<Status>, subject: Subject) -> bool
    ensures { result ≡ spec.is_returned status subject }
{
    match subject {
        Subject::Context(v) => is_context(named_context(status), v),
        _ => false,
    }
}

fn has_operand(instruction: &Instruction, subject: Subject) -> bool
    ensures { result ≡ spec.has_operand instruction.now subject }
{
    match instruction {
        Instruction::Act(action, _) => is_action_about(*action, subject),
        Instruction::Call(call, _, _) => is_called_with(&call.roles(), subject),
        Instruction::Test(test, _, _) => is_tested(*test, subject),
        Instruction::Return(status) => is_returned(*status, subject),
        Instruction::Repeat(_, _, _) | Instruction::End => false,
    }
}

// ---- tokens

/// The tokens of a text or of a statement; none if it has more bytes than a text may have.
///
/// # Errors
///
/// `AllocError` if a growth is refused.
pub fn tokens_of(alloc: Global, statement: &[u8]) -> Result<Items<Token>, AllocError>
    ensures { IfOk result (λ ts. ts ≡ spec.tokens_of statement.now) }
{
    if MAX_TEXT < statement.len() {
        Ok(Items::new(alloc))
    } else {
        tokens(alloc, statement)
    }
}

fn spells(statement: &[u8], word: &[u8], token: Token) -> bool
    ensures { result ≡ spec.spells statement.now word.now token }
{
    bytes_of(statement, token) == word
}

fn first_spelled(statement: &[u8], word: &[u8], tokens: &[Token]) -> Option<Token>
    ensures { result ≡ find (spec.spells statement.now word.now) tokens.now }
{
    for token in tokens {
        if spells(statement, word, *token) {
            return Some(*token);
        }
    }
    None
}

fn last_spelled(statement: &[u8], word: &[u8], tokens: &[Token]) -> Option<Token>
    ensures { result ≡ spec.last_spelled statement.now word.now tokens.now }
{
    let mut found = None;
    for token in tokens {
        if spells(statement, word, *token) {
            found = Some(*token);
        }
    }
    found
}

fn operand_among(statement: &[u8], word: &[u8], subject: Subject, tokens: &[Token]) -> Option<Token>
    ensures { result ≡ spec.operand_among statement.now word.now subject tokens.now }
{
    match subject {
        Subject::Operation(_) => first_spelled(statement, word, tokens),
        _ => last_spelled(statement, word, tokens),
    }
}

/// The token of a statement that spells the subject.
fn operand_in(
    alloc: Global,
    statement: &[u8],
    word: &[u8],
    subject: Subject,
) -> Result<Option<Token>, AllocError>
    ensures { IfOk result (λ t. t ≡ spec.operand_in statement.now word.now subject) }
{
    let tokens = tokens_of(alloc, statement)?;
    Ok(operand_among(statement, word, subject, tokens.as_slice()))
}

// ---- places

/// The place of a token of a statement.
fn placed(lines: &Lines<'_>, span: Span, token: Option<Token>) -> Option<Region>
    ensures { result ≡ spec.placed lines.now span token }
{
    match token {
        Some(token) => Some(lines.part(span, token.start, token.end)),
        None => None,
    }
}

impl Scene<'_> {
    /// The place of the subject as an operand of a point's statement, if it is one.
    fn operand(
        &self,
        alloc: Global,
        callback: usize,
        point: usize,
        subject: Subject,
    ) -> Result<Option<Region>, AllocError>
        ensures { IfOk result (λ r. r ≡
            spec.operand_at self.now.lines.now self.now.tree.now.filter self.now.graph.now callback point subject) }
    {
        if !has_operand(self.graph.instruction_ref(callback, point), subject) {
            return Ok(None);
        }
        let span = self.graph.span(callback, point);
        let statement = self.lines.bytes(span);
        let token = operand_in(alloc, statement, word_of(self.tree, subject), subject)?;
        Ok(placed(self.lines, span, token))
    }

    /// The place of a point's statement, and of the subject in it.
    ///
    /// # Errors
    ///
    /// `AllocError` if a growth is refused.
    pub fn marks(
        &self,
        alloc: Global,
        callback: usize,
        point: usize,
        subject: Subject,
    ) -> Result<Marks, AllocError>
        ensures { IfOk result
            (spec.AreMarks self.now.lines.now self.now.tree.now.filter self.now.graph.now callback point subject) }
    {
        let operand = self.operand(alloc, callback, point, subject)?;
        Ok(Marks {
            statement: self.lines.region(self.graph.span(callback, point)),
            operand,
        })
    }
}
