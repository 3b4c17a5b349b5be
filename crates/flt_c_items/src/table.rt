//! Where a table begins, and a `typedef`.

ghost use Rattle.std.specs.Prelude.{◌≡◌, ◌<◌, ◌+◌, ◌^◌, length, Some};
ghost use Rattle.flt_c_items.specs.Rows as spec;

use crate::front::no_token;
use crate::item::TableKind;
use crate::kind::{depth_after, same_kind};
use crate::rows::stretch;
use crate::words::Words;
use flt_c_tokens::{Kind, Token};

/// The head of a table: its tokens before the `=`, as far as they are read.
#[derive(Clone, Copy)]
pub(crate) struct TableHead {
    /// How deep in brackets its end is.
    pub depth: usize,
    /// The kind of table that a word names.
    pub kind: Option<TableKind>,
    /// The last name.
    pub name: Token,
}

/// Where a table's braces open.
#[derive(Clone, Copy)]
pub(crate) struct TableStart {
    pub kind: TableKind,
    pub name: Token,
    /// The number of tokens before its `{`.
    pub brace: usize,
}

/// The table that a word names, or the one before.
fn kind_of(words: &Words, word: u32, old: Option<TableKind>) -> Option<TableKind>
    ensures { result ≡ spec.kind_by words.now word old }
{
    if word == words.operations {
        Some(TableKind::Operations)
    } else if word == words.contexts {
        Some(TableKind::Contexts)
    } else if word == words.registration {
        Some(TableKind::Registration)
    } else {
        old
    }
}

/// The head of a table after one more token.
#[tactic(auto, unfolding(crate::specs::Rows::head_after))]
fn head_after(words: &Words, head: TableHead, token: Token) -> TableHead
    ensures { result ≡ spec.head_after words.now head token }
{
    if head.depth == 0 && same_kind(token.kind, Kind::Name) {
        TableHead {
            depth: head.depth,
            kind: kind_of(words, token.word, head.kind),
            name: token,
        }
    } else {
        TableHead {
            depth: depth_after(token.kind, head.depth),
            ..head
        }
    }
}

/// Where the braces open after the `=` of a table.
fn start_behind(head: TableHead, at: usize, tokens: &[Token]) -> Option<TableStart>
    ensures { result ≡ spec.start_by head.kind head at tokens.now }
{
    match (head.kind, tokens) {
        (Some(kind), [token, ..]) if same_kind(token.kind, Kind::OpenBrace) => Some(TableStart {
            kind,
            name: head.name,
            brace: at,
        }),
        _ => None,
    }
}

/// Where the braces of a table open in the tokens from a number up to another one, if these are one.
#[tactic(auto, unfolding(crate::specs::Rows::start))]
pub(crate) fn start(words: &Words, tokens: &[Token], from: usize, to: usize) -> Option<TableStart>
    ensures { result ≡ spec.start words.now tokens.now from to }
{
    let mut head = TableHead {
        depth: 0,
        kind: None,
        name: no_token(),
    };
    let mut at = from;
    let mut rest = stretch(tokens, from, to);
    while let [token, after @ ..] = rest {
        if head.depth == 0 && same_kind(token.kind, Kind::Assign) {
            return start_behind(head, at + 1, after);
        }
        head = head_after(words, head, *token);
        at += 1;
        rest = after;
    }
    None
}

/// The number of tokens up to the first `typedef` outside of brackets, with it; it is one of the tokens from a number up to another one.
pub(crate) fn typedef(tokens: &[Token], from: usize, to: usize) -> Option<usize>
    ensures { result ≡ spec.typedef_from 0 from (spec.stretch from to tokens.now) }
{
    let mut depth = 0;
    let mut at = from;
    let mut rest = stretch(tokens, from, to);
    while let [token, after @ ..] = rest {
        if depth == 0 && same_kind(token.kind, Kind::Typedef) {
            return Some(at + 1);
        }
        depth = depth_after(token.kind, depth);
        at += 1;
        rest = after;
    }
    None
}
