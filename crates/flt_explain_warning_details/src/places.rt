//! The places of warnings in a text.

ghost use Rattle.std.specs.Prelude.{◌≡◌, option_copied, IfOk};
ghost use Rattle.flt_explain_warning_details.specs.Parsed.{of_parsed};
ghost use Rattle.flt_explain_warning_details.specs.Places as spec;

use crate::parsed::ParsedText;
use flt_explain::Subject;
use flt_explain_texts::Marks;
use flt_explain_warnings::Site;
use flt_graph::LockNumber;
use flt_places::Region;
use flt_syntax::Token;
use flt_tree::Span;
use std::alloc::{AllocError, Global};

/// The span of anything that isn't in the text.
pub(crate) const NOWHERE: Span = Span {
    line: 0,
    start: 0,
    end: 0,
};

/// The regions of the statement of a point, and in it of a subject.
pub(crate) fn marks_at(
    alloc: Global,
    text: &ParsedText<'_>,
    site: Site,
    subject: Subject,
) -> Result<Marks, AllocError>
    ensures { IfOk result (λ m. m ≡ spec.marks_at (of_parsed text.now) site subject) }
{
    let marks = text.scene.marks(alloc, site.callback, site.point, subject)?;
    Ok(Marks {
        statement: marks.statement,
        operand: marks.operand,
    })
}

/// Marks of a place that names nothing.
pub(crate) fn bare(statement: Region) -> Marks
    ensures { result ≡ spec.bare statement }
{
    Marks {
        statement,
        operand: None,
    }
}

/// The region of the head of a callback.
pub(crate) fn marks_of_head(text: &ParsedText<'_>, callback: usize) -> Marks
    ensures { result ≡ spec.marks_of_head (of_parsed text.now) callback }
{
    let span = match text.scene.tree.filter.callbacks.get(callback) {
        Some(callback) => callback.span,
        None => NOWHERE,
    };
    bare(text.scene.lines.region(span))
}

// ---- locks

/// The span of a token; `NOWHERE` if there is none.
fn span_of(token: Option<&Token>) -> Span
    ensures { result ≡ spec.span_of (option_copied token.entry) }
{
    match token {
        Some(token) => Span {
            line: token.position.line,
            start: token.start,
            end: token.end,
        },
        None => NOWHERE,
    }
}

/// The span of the word `lock` in the declaration of a lock: `filter NAME altitude NUMBER` is before the first one, and each has three
/// tokens.
fn declared(tokens: &[Token], lock: LockNumber) -> Span
    ensures { result ≡ spec.declared tokens.now lock }
{
    span_of(tokens.get(4 + 3 * usize::from(lock.place())))
}

/// The span of the name in the declaration of a lock.
fn named(tokens: &[Token], lock: LockNumber) -> Span
    ensures { result ≡ spec.named tokens.now lock }
{
    span_of(tokens.get(6 + 3 * usize::from(lock.place())))
}

/// The regions of the declaration of a lock, and in it of its name.
pub(crate) fn marks_of_lock(text: &ParsedText<'_>, lock: LockNumber) -> Marks
    ensures { result ≡ spec.marks_of_lock (of_parsed text.now) lock }
{
    let first = declared(text.tokens, lock);
    let name = named(text.tokens, lock);
    let whole = Span {
        line: first.line,
        start: first.start,
        end: name.end,
    };
    Marks {
        statement: text.scene.lines.region(whole),
        operand: Some(text.scene.lines.region(name)),
    }
}
