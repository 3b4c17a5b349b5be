//! Makes the report on a certificate, a journal or a script.

ghost use Rattle.std.specs.Prelude.{◌≡◌, IfOk, MatchResult, option_map};
ghost use Rattle.flt_cert.specs.Spelling.{IsFaultOf};
ghost use Rattle.flt_model.specs.Program.{filters_of};
ghost use Rattle.flt_explain_reasons.specs.Notice as spec;
ghost use Rattle.flt_stack_script.specs.ScriptText.{Stack};

use crate::notice::{Kind, Notice};
use crate::telling::reason;
use crate::{certificates, journals, scripts};
use flt_cert::CertFault;
use flt_model::{JournalFault, ReadFault, Source};
use flt_stack_script::ScriptFault;
use flt_tree::Tree;
use std::alloc::{AllocError, Global};

/// Bytes that are all there. No read fails.
#[derive(Drop)]
struct Bytes<'a> {
    left: &'a [u8],
}

impl Source for Bytes<'_> {
    ghost coming = { λ s. s.left.now };

    ghost at_hand = { λ s. s.left.now };

    ghost failures = { λ _. 0 };

    ghost reads = { λ _. 0 };

    fn next(&mut self) -> Result<Option<u8>, ReadFault> {
        match self.left {
            [first, others @ ..] => {
                self.left = others;
                Ok(Some(*first))
            }
            [] => Ok(None),
        }
    }

    fn ready(&self) -> &[u8] {
        self.left
    }

    fn pass(&mut self, count: usize) {
        self.left = &self.left[count..];
    }
}

/// Whether an input begins with this word.
fn begins_with(input: &[u8], word: &[u8]) -> bool
    ensures { result ≡ spec.begins_with input.now word.now }
{
    input.starts_with(word) && ends_word(&input[word.len()..])
}

/// Whether a word ends before these bytes.
fn ends_word(behind: &[u8]) -> bool
    ensures { result ≡ spec.ends_word behind.now }
{
    match behind {
        [] => true,
        [next, ..] => *next <= b' ',
    }
}

/// Whether an input begins with the word of a command.
fn begins_script(input: &[u8]) -> bool
    ensures { result ≡ spec.begins_script input.now }
{
    begins_with(input, b"arrive")
        || begins_with(input, b"cancel")
        || begins_with(input, b"detach")
        || begins_with(input, b"refuse")
}

/// The kind of an input that isn't the text of a filter. The input begins with the word that begins a certificate or a journal, or with
/// that of a script's command.
pub fn kind_of(input: &[u8]) -> Option<Kind>
    ensures { result ≡ spec.kind_of input.now }
{
    if input.starts_with(b"fltcert") {
        return Some(Kind::Certificate);
    }
    if input.starts_with(b"fltjournal") {
        return Some(Kind::Journal);
    }
    if begins_script(input) {
        return Some(Kind::Script);
    }
    None
}

/// The number of callbacks of a certificate.
fn callbacks_in(alloc: Global, input: &[u8]) -> Result<usize, CertFault>
    ensures { MatchResult result (spec.IsCertificate input.now) (IsFaultOf input.now) }
{
    match flt_cert::read(alloc, input) {
        Ok(cert) => Ok(cert.callback_count()),
        Err(fault) => Err(fault),
    }
}

fn of_certificate<'a>(
    alloc: Global,
    before: usize,
    input: &'a [u8],
) -> Result<Notice<'a>, AllocError>
    ensures { (stack : Stack) → IfOk result (spec.IsNotice stack Kind.Certificate input.now) }
{
    match callbacks_in(alloc, input) {
        Ok(callbacks) => Ok(Notice::Whole(Kind::Certificate, callbacks)),
        Err(CertFault::Line(line)) => {
            let trouble = certificates::trouble(input, line);
            let reason = reason(alloc, Kind::Certificate, before, line, &trouble)?;
            Ok(Notice::Malformed(Kind::Certificate, reason))
        }
        Err(CertFault::OutOfMemory) => Err(AllocError),
    }
}

fn of_journal<'a>(alloc: Global, before: usize, input: &'a [u8]) -> Result<Notice<'a>, AllocError>
    ensures { (stack : Stack) → IfOk result (spec.IsNotice stack Kind.Journal input.now) }
{
    match flt_model::read(alloc, &mut Bytes { left: input }) {
        Ok(journal) => Ok(Notice::Whole(Kind::Journal, journal.len())),
        Err(JournalFault::Line(line)) => {
            let trouble = journals::trouble(input, line);
            let reason = reason(alloc, Kind::Journal, before, line, &trouble)?;
            Ok(Notice::Malformed(Kind::Journal, reason))
        }
        Err(JournalFault::Read | JournalFault::OutOfMemory) => Err(AllocError),
    }
}

fn of_script<'a>(
    alloc: Global,
    stack: Option<&[Tree]>,
    before: usize,
    input: &'a [u8],
) -> Result<Notice<'a>, AllocError>
    ensures { IfOk result (spec.IsNotice (option_map (λ trees. filters_of trees.now) stack.entry) Kind.Script input.now) }
{
    match flt_stack_script::read(alloc, stack, input) {
        Ok(script) => Ok(Notice::Whole(Kind::Script, script.commands().len())),
        Err(ScriptFault::Line(line)) => {
            let trouble = scripts::trouble(stack, input, line);
            let reason = reason(alloc, Kind::Script, before, line, &trouble)?;
            Ok(Notice::Malformed(Kind::Script, reason))
        }
        Err(ScriptFault::OutOfMemory) => Err(AllocError),
    }
}

/// The report on an input that is taken for a certificate, for a journal or for a script of a stack, if the stack is known: the number of
/// its callbacks, entries or commands, or the mistake in its first malformed line. In its file it may come after some other lines.
///
/// # Errors
///
/// `AllocError` if a growth is refused.
pub fn describe<'a>(
    alloc: Global,
    kind: Kind,
    stack: Option<&[Tree]>,
    before: usize,
    input: &'a [u8],
) -> Result<Notice<'a>, AllocError>
    ensures { IfOk result (spec.IsNotice (option_map (λ trees. filters_of trees.now) stack.entry) kind input.now) }
{
    match kind {
        Kind::Certificate => of_certificate(alloc, before, input),
        Kind::Journal => of_journal(alloc, before, input),
        Kind::Script => of_script(alloc, stack, before, input),
    }
}
