//! Several texts, one after another.

ghost use Rattle.std.specs.Prelude.{◌≡◌, IfOk, IfErr, map};
ghost use Rattle.flt_syntax.specs.Texts as spec;

use crate::fault::{ParseError, SyntaxFault};
use crate::file::parse;
use flt_tree::Tree;
use std::alloc::{AllocFailed, Global};
use thiserror::Error;

/// Why there are no trees of several texts. Texts are numbered from 0.
#[derive(Clone, Copy, Debug, Error)]
pub enum TextsFault {
    /// The first text that has a fault, and its first fault.
    #[error("text {number} {fault}")]
    Syntax { number: usize, fault: SyntaxFault },
    #[error("out of memory")]
    OutOfMemory,
}

impl<T: Drop> From<AllocFailed<T>> for TextsFault {
    ghost use Rattle.std.specs.Prelude.{◌≡◌};
    ghost use Rattle.flt_syntax.specs.declared.texts.TextsFault.TheVariants.{OutOfMemory};

    ghost from_gives = { λ _ e. e ≡ OutOfMemory };

    fn from(_: AllocFailed<T>) -> TextsFault {
        TextsFault::OutOfMemory
    }
}

/// The trees of texts, in order.
///
/// # Errors
///
/// The first fault of the first text that has one, or if a growth is refused.
pub fn parse_all(alloc: Global, texts: &[Vec<u8>]) -> Result<Vec<Tree>, TextsFault>
    ensures ok { IfOk result (λ trees. spec.AreSpelled (map (λ text. text.items) texts.now) (map (λ t. t.filter) trees.items)) }
    ensures err { IfErr result (spec.TextsFail (map (λ text. text.items) texts.now)) }
{
    let mut trees = Vec::new(alloc);
    for (number, text) in texts.iter().enumerate() {
        match parse(alloc, text.as_slice()) {
            Ok(tree) => trees.push(tree)?,
            Err(ParseError::Syntax(fault)) => return Err(TextsFault::Syntax { number, fault }),
            Err(ParseError::OutOfMemory) => return Err(TextsFault::OutOfMemory),
        }
    }
    Ok(trees)
}
