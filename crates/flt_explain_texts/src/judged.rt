//! The verdict on a text.

ghost use Rattle.std.specs.Prelude.{◌≡◌, IfOk};
ghost use Rattle.flt_explain_texts.specs.Reports as spec;

use flt_explain::{Finding, findings};
use flt_graph::{Graph, lower};
use flt_syntax::{ParseError, SyntaxFault, Tree, parse};
use sqlite_items::Items;
use std::alloc::{AllocError, Global};

/// The verdict on a text: it doesn't parse, or it has this tree, this graph and these findings.
#[derive(Drop)]
pub enum TextJudgement {
    Unread(SyntaxFault),
    Known(Tree, Graph, Items<Finding>),
}

/// The verdict on a text.
///
/// # Errors
///
/// `AllocError` if a growth is refused.
pub fn judge(alloc: Global, text: &[u8]) -> Result<TextJudgement, AllocError>
    ensures { IfOk result (spec.IsJudged text.now) }
{
    match parse(alloc, text) {
        Ok(tree) => {
            let graph = lower(alloc, &tree)?;
            let found = findings(alloc, &graph)?;
            Ok(TextJudgement::Known(tree, graph, found))
        }
        Err(ParseError::Syntax(fault)) => Ok(TextJudgement::Unread(fault)),
        Err(ParseError::OutOfMemory) => Err(AllocError),
    }
}

impl TextJudgement {
    /// The exit status: 0 without findings, 1 with findings, 2 if the text doesn't parse.
    pub fn status(&self) -> u8
        ensures { result ≡ spec.status_of self.now }
    {
        match self {
            TextJudgement::Unread(_) => 2,
            TextJudgement::Known(_, _, found) => match found.as_slice() {
                [] => 0,
                [_, ..] => 1,
            },
        }
    }
}
