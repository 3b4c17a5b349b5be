//! All tokens of a driver.

ghost use Rattle.std.specs.Prelude.{◌≡◌, ◌<◌, ◌≤◌, OnErr, OnOk, [], None, false, drop, length, option_copied, slice_get, slice_index_or, slice_range};
ghost use Rattle.flt_c_macros.specs.Kinds.{same_kind};
ghost use Rattle.flt_c_tokens.specs.declared.token.Kind.TheVariants as kinds;
ghost use Rattle.flt_c_macros.specs.Whole as spec;
ghost use Rattle.flt_c_macros.specs.States.{Does, Stay};

use crate::branch::close;
use crate::directive::directive;
use crate::error::MacroError;
use crate::kind::same_kind;
use crate::note::{Note, NoteKind};
use crate::state::State;
use crate::text::expand_text;
use flt_c_tokens::{Kind, Spellings, Token};
use sqlite_items::Items;
use std::alloc::{AllocError, Global};

/// How many headers may be within each other.
const MAX_DEPTH: usize = 64;

/// Tokens without directives, notes, and the numbers of the headers that were read, in order.
#[derive(Drop)]
pub struct Expansion {
    pub tokens: Items<Token>,
    pub notes: Items<Note>,
    pub headers: Items<u32>,
}

/// A part of the tokens: the `#` of the directive whose line it is, unless it is text, and the place of its first token.
#[derive(Clone, Copy)]
pub struct Part {
    pub at: Option<Token>,
    pub start: usize,
}

/// The number of the header that a line includes.
fn header_in(line: &[Token]) -> Option<u32>
    ensures { result ≡ spec.header_in line.now }
{
    match line {
        [_, header, ..] if same_kind(header.kind, Kind::Header) => Some(header.word),
        _ => None,
    }
}

/// Whether a token ends the part before it.
fn ends(at: Option<Token>, token: Token) -> bool
    ensures { result ≡ spec.ends at token }
{
    match at {
        Some(_) => same_kind(token.kind, Kind::LineEnd),
        None => same_kind(token.kind, Kind::Directive),
    }
}

/// The beginning of the next part: the `#` of a directive, or none for text.
fn beginning(token: Token) -> Option<Token>
    ensures { result ≡ spec.beginning token }
{
    if same_kind(token.kind, Kind::Directive) {
        Some(token)
    } else {
        None
    }
}

/// The first end.
fn end_in(tokens: &[Token]) -> Option<Token>
    ensures { result ≡ spec.end_in tokens.now }
{
    for token in tokens {
        if same_kind(token.kind, Kind::End) {
            return Some(*token);
        }
    }
    None
}

/// The tokens of a header.
fn tokens_of(headers: &[Items<Token>], number: u32) -> Option<&Items<Token>>
    ensures { option_copied result ≡ slice_get headers.now number }
{
    headers.get(number as usize)
}

/// Reads a header in place of the line that includes it, unless it was read.
#[tactic(auto, using(crate::proofs::Headers::read_before, crate::proofs::Headers::no_tokens, crate::proofs::Headers::too_deep, crate::proofs::Spellings::stay_there))]
#[cycle(headers)]
fn enter(
    alloc: Global,
    spellings: &mut Spellings,
    kept: &[bool],
    headers: &[Items<Token>],
    depth: usize,
    state: &mut State,
    at: Token,
    number: u32,
) -> Result<(), MacroError>
    ensures done { Does (spec.entered kept.now headers.now depth at number (spellings.old, state.old)) result spellings.new state.new }
    ensures stay { Stay spellings.old spellings.new }
{
    if state.has_read(number) {
        return Ok(());
    }
    let Some(tokens) = tokens_of(headers, number) else {
        return Ok(state.note(NoteKind::Header, at)?);
    };
    if depth == 0 {
        return Ok(state.note(NoteKind::Header, at)?);
    }
    state.enter(number)?;
    read(
        alloc,
        spellings,
        kept,
        headers,
        depth - 1,
        state,
        tokens.as_slice(),
    )
}

/// Reads a line after its `#`, and then come some tokens.
#[tactic(auto, using(crate::proofs::Spellings::stay_there))]
#[cycle(headers)]
fn read_line(
    alloc: Global,
    spellings: &mut Spellings,
    kept: &[bool],
    headers: &[Items<Token>],
    depth: usize,
    state: &mut State,
    at: Token,
    line: &[Token],
    after: &[Token],
) -> Result<(), MacroError>
    ensures done { Does (spec.line_read (spec.entered kept.now headers.now depth) (spec.header_in line.now) at line.now after.now
        (spellings.old, state.old)) result spellings.new state.new }
    ensures stay { Stay spellings.old spellings.new }
{
    match header_in(line) {
        None => directive(alloc, spellings, state, at, line, after),
        Some(number) if state.is_read() => {
            enter(alloc, spellings, kept, headers, depth, state, at, number)
        }
        Some(_) => Ok(()),
    }
}

/// Reads a part: the line after a `#`, or text; and then come some tokens.
#[tactic(auto, using(crate::proofs::Spellings::stay_there))]
#[cycle(headers)]
fn read_part(
    alloc: Global,
    spellings: &mut Spellings,
    kept: &[bool],
    headers: &[Items<Token>],
    depth: usize,
    state: &mut State,
    at: Option<Token>,
    part: &[Token],
    after: &[Token],
) -> Result<(), MacroError>
    ensures done { Does (spec.part_read kept.now (spec.entered kept.now headers.now depth) at part.now after.now
        (spellings.old, state.old)) result spellings.new state.new }
    ensures stay { Stay spellings.old spellings.new }
{
    match at {
        Some(at) => {
            read_line(
                alloc, spellings, kept, headers, depth, state, at, part, after,
            )
        }
        None if state.is_read() => Ok(expand_text(alloc, kept, state, part)?),
        None => Ok(()),
    }
}

/// Goes past the token at a place, which is no end.
#[tactic(auto, using(crate::proofs::Passed::goes_on, crate::proofs::Passed::begins, crate::proofs::Passed::fails, crate::proofs::Spellings::stay_there))]
#[cycle(headers)]
fn pass(
    alloc: Global,
    spellings: &mut Spellings,
    kept: &[bool],
    headers: &[Items<Token>],
    depth: usize,
    state: &mut State,
    tokens: &[Token],
    part: Part,
    i: usize,
    token: Token,
) -> Result<Part, MacroError>
    requires within { part.start ≤ i }
    requires some { i < length tokens.now }
    requires item { token ≡ slice_index_or tokens.now i token }
    requires goes_on { same_kind token.kind kinds.End ≡ false }
    ensures done { spec.Passes kept.now (spec.entered kept.now headers.now depth) tokens.now i
        (spec.read kept.now (spec.entered kept.now headers.now depth) part.at (slice_range tokens.now part.start i) (drop i tokens.now)
        (spellings.old, state.old)) result (spellings.new, state.new) }
    ensures stay { Stay spellings.old spellings.new }
{
    if ends(part.at, token) {
        read_part(
            alloc,
            spellings,
            kept,
            headers,
            depth,
            state,
            part.at,
            &tokens[part.start..i],
            &tokens[i + 1..],
        )?;
        Ok(Part {
            at: beginning(token),
            start: i + 1,
        })
    } else {
        Ok(part)
    }
}

/// Reads tokens from the first one to the first `End`, where headers may be so many within each other.
#[tactic(auto, using(crate::proofs::Spellings::stay_there, crate::proofs::Spellings::stay_on))]
#[cycle(headers)]
fn read(
    alloc: Global,
    spellings: &mut Spellings,
    kept: &[bool],
    headers: &[Items<Token>],
    depth: usize,
    state: &mut State,
    tokens: &[Token],
) -> Result<(), MacroError>
    ensures done { Does (spec.read kept.now (spec.entered kept.now headers.now depth) None [] tokens.now (spellings.old, state.old))
        result spellings.new state.new }
    ensures stay { Stay spellings.old spellings.new }
{
    let mut part = Part { at: None, start: 0 };
    for (i, token) in tokens.iter().enumerate() {
        if same_kind(token.kind, Kind::End) {
            let last = &tokens[part.start..i];
            return read_part(
                alloc,
                spellings,
                kept,
                headers,
                depth,
                state,
                part.at,
                last,
                &[],
            );
        }
        part = pass(
            alloc, spellings, kept, headers, depth, state, tokens, part, i, *token,
        )?;
    }
    let last = &tokens[part.start..tokens.len()];
    read_part(
        alloc,
        spellings,
        kept,
        headers,
        depth,
        state,
        part.at,
        last,
        &[],
    )
}

/// Closes the groups that are open, and writes an end if there is one.
fn finish(state: &mut State, end: Option<Token>) -> Result<(), AllocError>
    ensures { OnOk result (state.new ≡ spec.ended_with end state.old) }
{
    close(state)?;
    match end {
        None => Ok(()),
        Some(end) => state.push(end),
    }
}

/// The tokens, the notes and the headers of a state.
fn result_of(state: State) -> Expansion
    ensures { result ≡ spec.expansion state }
{
    Expansion {
        tokens: state.tokens,
        notes: state.notes,
        headers: state.headers,
    }
}

/// Reads all tokens. After an error, too, there may be more spellings.
#[tactic(auto, unfolding(crate::specs::Whole::whole))]
fn read_all(
    alloc: Global,
    spellings: &mut Spellings,
    kept: &[bool],
    headers: &[Items<Token>],
    tokens: &[Token],
) -> Result<Expansion, MacroError>
    ensures done { spec.Gives (spec.whole kept.now headers.now tokens.now spellings.old) result spellings.new }
    ensures stay { Stay spellings.old spellings.new }
{
    let mut state = State::new(alloc);
    read(
        alloc, spellings, kept, headers, MAX_DEPTH, &mut state, tokens,
    )?;
    finish(&mut state, end_in(tokens))?;
    Ok(result_of(state))
}

/// The tokens of a driver's files, without directives: groups of lines are decided or marked, and macros are expanded.
///
/// A line `# include` before a token of kind `Header` is replaced by the tokens of that header, which `headers` has by its number, if text
/// is read there; each header is read once. Options come first, as the lines `#define NAME VALUE` and `#undef NAME`. Reading ends at the
/// first `End`, that of a header at its own. `kept` says by the numbers of their spellings which names are never expanded; names that it
/// doesn't reach may be. In a branch that is marked a `#define` or `#undef` makes its name one of which nothing is known. The guard of a file,
/// `#ifndef NAME` before `#define NAME`, is true, since each file is read once.
/// Macros add no more than `MAX_ADDED`.
///
/// # Errors
///
/// `TooManySpellings` where a condition's spelling isn't there, and there are 1,048,576; `OutOfMemory` if a growth is refused. Then the
/// spellings stay as they were.
pub fn expanded(
    alloc: Global,
    spellings: &mut Spellings,
    kept: &[bool],
    headers: &[Items<Token>],
    tokens: &[Token],
) -> Result<Expansion, MacroError>
    ensures done { spec.Gives (spec.whole kept.now headers.now tokens.now spellings.old) result spellings.new }
    ensures stay { Stay spellings.old spellings.new }
    ensures kept { OnErr result (spellings.new ≡ spellings.old) }
{
    let count = spellings.len();
    match read_all(alloc, spellings, kept, headers, tokens) {
        Ok(found) => Ok(found),
        Err(error) => {
            spellings.truncate(count);
            Err(error)
        }
    }
}
