//! The statements of a text that are over before a place: words can be tried there without them.

use crate::focus::{Focus, add_hollow};
use flt_explain_texts::tokens_of;
use flt_server_outline::{MarkedToken, Role, is_variable, mark_tokens};
use flt_syntax::{Kind, Token};
use sqlite_items::Items;
use std::alloc::{AllocError, Global};

/// How many statements a callback has at most whose statements are left out. A callback has at most 512 points, with its end: with more
/// statements that limit may be why a word isn't legal.
const MAX_STATEMENTS: usize = 508;

/// The bytes from one up to another.
#[derive(Clone, Copy)]
struct Stretch {
    start: usize,
    end: usize,
}

/// Where the last two statements of a block begin.
#[derive(Clone, Copy)]
struct BlockTail {
    before: Option<usize>,
    last: Option<usize>,
}

const NONE_BEGUN: BlockTail = BlockTail {
    before: None,
    last: None,
};

/// The kinds of the tokens before and after one.
#[derive(Clone, Copy)]
struct Neighbours {
    before: Kind,
    after: Kind,
}

/// Whether a word is a call's: a capital letter and a small one begin it.
fn is_call(bytes: &[u8]) -> bool {
    match bytes {
        [first, second, ..] => first.is_ascii_uppercase() && second.is_ascii_lowercase(),
        _ => false,
    }
}

/// Whether a word of the grammar begins a statement.
fn begins_by_word(kind: Kind, bytes: &[u8], between: Neighbours) -> bool {
    match kind {
        Kind::If | Kind::Return => true,
        Kind::Value => !matches!(between.before, Kind::Assign),
        _ => is_call(bytes) && !matches!(between.before, Kind::If),
    }
}

/// Whether a variable begins a statement: something is assigned to it.
fn begins_by_variable(between: Neighbours) -> bool {
    matches!(between.after, Kind::Assign) && !matches!(between.before, Kind::Value)
}

fn begins(text: &[u8], marked: MarkedToken, between: Neighbours) -> bool {
    let kind = marked.token.word.kind;
    match marked.role {
        Role::Plain => {
            let bytes = text.get(marked.token.start..marked.token.end);
            begins_by_word(kind, bytes.unwrap_or(b""), between)
        }
        Role::Variable => is_variable(kind) && begins_by_variable(between),
        _ => false,
    }
}

/// The statements up to a token.
#[derive(Drop)]
struct Statements {
    /// The blocks that are open.
    blocks: Vec<BlockTail>,
    /// The stretches that may be left out, in order.
    over: Vec<Stretch>,
    count: usize,
    has_repeat: bool,
}

impl Statements {
    /// Whether the last bytes that may be left out begin at a byte or after it.
    fn ends_from(&self, start: usize) -> bool {
        match self.over.as_slice().last() {
            Some(last) => start <= last.start,
            None => false,
        }
    }

    /// Notes that some bytes may be left out, and all those within them.
    fn leave_out(&mut self, stretch: Stretch) -> Result<(), AllocError> {
        for _ in 0..self.over.len() {
            if self.ends_from(stretch.start) {
                self.over.pop();
            }
        }
        self.over.push(stretch)?;
        Ok(())
    }

    /// Notes that a statement begins.
    fn begin(&mut self, start: usize) -> Result<(), AllocError> {
        self.count = self.count.saturating_add(1);
        let Some(block) = self.blocks.pop() else {
            return Ok(());
        };
        if let (Some(before), Some(last)) = (block.before, block.last) {
            self.leave_out(Stretch {
                start: before,
                end: last,
            })?;
        }
        self.blocks.push(BlockTail {
            before: block.last,
            last: Some(start),
        })?;
        Ok(())
    }

    /// Notes a token.
    fn pass(
        &mut self,
        text: &[u8],
        marked: MarkedToken,
        between: Neighbours,
    ) -> Result<(), AllocError> {
        if begins(text, marked, between) {
            return self.begin(marked.token.start);
        }
        match marked.token.word.kind {
            Kind::OpenBrace => self.blocks.push(NONE_BEGUN)?,
            Kind::CloseBrace => {
                self.blocks.pop();
            }
            Kind::Repeat => self.has_repeat = true,
            _ => {}
        }
        Ok(())
    }
}

fn kind_of(tokens: &[MarkedToken], number: usize) -> Kind {
    match tokens.get(number) {
        Some(marked) => marked.token.word.kind,
        None => Kind::End,
    }
}

/// The statements of a text up to a byte.
fn statements_before(
    alloc: Global,
    text: &[u8],
    tokens: &[MarkedToken],
    byte: usize,
) -> Result<Statements, AllocError> {
    let mut found = Statements {
        blocks: Vec::new(alloc),
        over: Vec::new(alloc),
        count: 0,
        has_repeat: false,
    };
    let mut before = Kind::End;
    for (number, marked) in tokens.iter().enumerate() {
        if byte < marked.token.end {
            break;
        }
        let after = kind_of(tokens, number.saturating_add(1));
        found.pass(text, *marked, Neighbours { before, after })?;
        before = marked.token.word.kind;
    }
    Ok(found)
}

/// A text without some of its bytes: line feeds stay, and blanks after the last of them.
fn without(
    alloc: Global,
    text: &[u8],
    over: &[Stretch],
    left_out: usize,
) -> Result<Focus, AllocError> {
    let mut out = Vec::new(alloc);
    let mut at: usize = 0;
    for stretch in over {
        out.extend_from_slice(text.get(at..stretch.start).unwrap_or(b""))?;
        add_hollow(
            &mut out,
            text.get(stretch.start..stretch.end).unwrap_or(b""),
        )?;
        at = stretch.end;
    }
    out.extend_from_slice(text.get(at..).unwrap_or(b""))?;
    let dropped = text.len().saturating_sub(out.len());
    Ok(Focus {
        text: out,
        left_out: left_out.saturating_add(dropped),
    })
}

fn marked_of(alloc: Global, text: &[u8]) -> Result<Items<MarkedToken>, AllocError> {
    let tokens: Items<Token> = tokens_of(alloc, text)?;
    mark_tokens(alloc, tokens.as_slice())
}

/// A text at a place without statements that are over before it: all but the last two of each block that is open there. It is the same text
/// if it has a `repeat` there or many statements, since limits might then be the fault.
pub(crate) fn narrow(alloc: Global, focus: &Focus, byte: usize) -> Result<Focus, AllocError> {
    let text = focus.text.as_slice();
    let tokens = marked_of(alloc, text)?;
    let place = byte.saturating_sub(focus.left_out);
    let found = statements_before(alloc, text, tokens.as_slice(), place)?;
    if found.has_repeat || MAX_STATEMENTS < found.count {
        return without(alloc, text, &[], focus.left_out);
    }
    without(alloc, text, found.over.as_slice(), focus.left_out)
}
