//! The blocks of a text.

ghost use Rattle.std.specs.Prelude.{◌≡◌, ◌<◌, ◌≤◌, ◌+◌, ◌^◌, ◌++◌, [], ℕ, IfOk, length};
ghost use Rattle.flt_server_outline.specs.Blocks as spec;

use flt_syntax::{Kind, Token};
use sqlite_items::Items;
use std::alloc::{AllocError, Global};

/// The lines of a block that an editor may fold, both from 0: the one with its opening brace, and the last before its closing brace.
#[derive(Clone, Copy)]
pub struct Fold {
    pub first: usize,
    pub last: usize,
}

/// How deep blocks nest after a token, which is as deep as there are tokens before it at most.
pub(crate) fn depth_after(depth: usize, kind: Kind) -> usize
    requires { depth < 2 ^ 63 }
    ensures depth { result ≡ spec.depth_after depth kind }
    ensures low { result ≤ depth + 1 }
{
    match kind {
        Kind::OpenBrace => depth + 1,
        Kind::CloseBrace => depth.saturating_sub(1),
        _ => depth,
    }
}

/// The fold of a block between two braces; none if fewer than two line feeds are between them.
fn fold_between(begin: Token, end: Token) -> Option<Fold>
    ensures { result ≡ spec.fold_between begin end }
{
    let first = begin.position.line.saturating_sub(1);
    let last = end.position.line.saturating_sub(2);
    if first < last {
        Some(Fold { first, last })
    } else {
        None
    }
}

fn push_between(folds: &mut Items<Fold>, begin: Option<Token>, end: Token) -> Result<(), AllocError>
    ensures { IfOk result (λ _. folds.new ≡ folds.old ++ spec.folds_if begin end) }
{
    let Some(begin) = begin else {
        return Ok(());
    };
    match fold_between(begin, end) {
        Some(fold) => folds.push(fold),
        None => Ok(()),
    }
}

/// Takes the innermost brace that is open, if there is one.
fn take_innermost(opened: &mut Items<Token>) -> Option<Token>
    ensures token { result ≡ spec.innermost opened.old }
    ensures others { opened.new ≡ spec.others opened.old }
{
    opened.pop()
}

/// Adds the fold that a token ends, if it ends one.
fn push_at(
    folds: &mut Items<Fold>,
    opened: &mut Items<Token>,
    token: Token,
) -> Result<(), AllocError>
    ensures folds { IfOk result (λ _. folds.new ≡ folds.old ++ spec.folds_at opened.old token token.word.kind) }
    ensures opened { IfOk result (λ _. opened.new ≡ spec.open_after opened.old token token.word.kind) }
{
    match token.word.kind {
        Kind::OpenBrace => opened.push(token),
        Kind::CloseBrace => {
            let begin = take_innermost(opened);
            push_between(folds, begin, token)
        }
        _ => Ok(()),
    }
}

/// The folds of the blocks of a text of several lines, in the order of their closing braces.
/// A closing brace without an opening one has none.
///
/// # Errors
///
/// `AllocError` if a growth is refused.
pub fn folds_of(alloc: Global, tokens: &[Token]) -> Result<Items<Fold>, AllocError>
    ensures { IfOk result (λ fs. fs ≡ spec.folds_from [] tokens.now) }
{
    let mut folds = Items::new(alloc);
    let mut opened = Items::new(alloc);
    for token in tokens {
        push_at(&mut folds, &mut opened, *token)?;
    }
    Ok(folds)
}
