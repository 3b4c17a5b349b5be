//! Cuts a C file into tokens.

ghost use Rattle.std.specs.Prelude.{◌≡◌, ◌≤◌, ◌++◌, length, take, IfOk, OnErr, MatchResult};
ghost use Rattle.flt_c_tokens.specs.Spelled.{Knows};
ghost use Rattle.flt_c_tokens.specs.Tokens as spec;

use crate::front::front;
use crate::piece::{Part, Piece};
use crate::reading::{Reading, behind, first, past, sign_kind, token};
use crate::spellings::Spellings;
use crate::token::{Kind, Token};
use crate::vocabulary::kind_at;
use std::alloc::{AllocError, Global};

/// The most bytes that a file may have.
pub const MAX_FILE: usize = 16_777_216;

/// Why a file has no tokens.
#[derive(Clone, Copy, Debug)]
pub enum Excess {
    /// It has more than `MAX_FILE` bytes.
    LargeFile,
    /// The word at this place would be one spelling more than `MAX_SPELLINGS`.
    TooManySpellings { line: u32, column: u32 },
}

/// A word's kind: that of a name is the kind of its number.
#[inline(always)]
fn spelled_kind(kind: Kind, number: u32) -> Kind
    ensures { result ≡ spec.kind_by_number kind number }
{
    match kind {
        Kind::Name => kind_at(number as usize),
        _ => kind,
    }
}

/// Ends the line of a directive.
fn end_line(found: &mut Vec<Token>, at: Reading) -> Result<(), AllocError>
    ensures { IfOk result (λ _. found.new.items ≡ found.old.items ++ spec.line_end_at at) }
{
    if at.in_directive {
        found.push(token(at, Kind::LineEnd, 0))?;
    }
    Ok(())
}

/// Adds a word.
fn add_word(
    alloc: Global,
    spellings: &mut Spellings,
    found: &mut Vec<Token>,
    at: Reading,
    kind: Kind,
    text: &[u8],
) -> Result<Result<(), Excess>, AllocError>
    ensures added { IfOk result (λ done. MatchResult done
        (λ _. spec.Adds spellings.old spellings.new (spec.word_here at kind text.now) found.old.items found.new.items)
        (λ excess. (spellings.new ≡ spellings.old) × spec.IsFull spellings.old (spec.word_here at kind text.now) excess)) }
    ensures kept { OnErr result (spellings.new ≡ spellings.old) }
{
    found.reserve(1)?;
    match spellings.number(alloc, text)? {
        None => Ok(Err(Excess::TooManySpellings {
            line: at.line,
            column: at.column,
        })),
        Some(number) => {
            found.push_reserved(token(at, spelled_kind(kind, number), number));
            Ok(Ok(()))
        }
    }
}

/// Adds the token that a piece is, if it is one.
fn add(
    alloc: Global,
    spellings: &mut Spellings,
    found: &mut Vec<Token>,
    at: Reading,
    piece: Piece,
    z: &[u8],
) -> Result<Result<(), Excess>, AllocError>
    requires known { Knows spellings.old }
    requires within { piece.length ≤ length z.now }
    ensures added { IfOk result (λ done. MatchResult done
        (λ _. spec.Adds spellings.old spellings.new (spec.lexemes at piece z.now) found.old.items found.new.items)
        (λ excess. (spellings.new ≡ spellings.old) × spec.IsFull spellings.old (spec.lexemes at piece z.now) excess)) }
    ensures kept { OnErr result (spellings.new ≡ spellings.old) }
{
    match piece.part {
        Part::Blank => Ok(Ok(())),
        Part::Feed => {
            end_line(found, at)?;
            Ok(Ok(()))
        }
        Part::Sign(kind) => {
            found.push(token(at, sign_kind(at, kind), 0))?;
            Ok(Ok(()))
        }
        Part::Word(kind) => add_word(alloc, spellings, found, at, kind, &z[..piece.length]),
    }
}

/// Adds the tokens at the end of a file.
fn finish(found: &mut Vec<Token>, at: Reading) -> Result<(), AllocError>
    ensures { IfOk result (λ _. found.new.items ≡ found.old.items ++ spec.tokens_at_end at) }
{
    end_line(found, at)?;
    found.push(token(at, Kind::End, 0))?;
    Ok(())
}

/// The tokens of a file that is not too large. Texts that were added stay in the table even if the file isn't read to its end.
fn read(
    alloc: Global,
    spellings: &mut Spellings,
    file: &[u8],
) -> Result<Result<Vec<Token>, Excess>, AllocError>
    requires known { Knows spellings.old }
    requires small { length file.now ≤ spec.max_file }
    ensures read { IfOk result (λ found. MatchResult found
        (λ ts. spec.AreTokens spellings.old spellings.new file.now ts.items)
        (λ excess. spec.IsExcess spellings.old file.now excess)) }
    ensures begins { take (length spellings.old) spellings.new ≡ spellings.old }
{
    let mut found = Vec::new(alloc);
    let mut at = first();
    let mut rest = file;
    while let [b, after @ ..] = rest {
        if at.left > 0 {
            at = past(at, *b);
            rest = after;
            continue;
        }
        let piece = front(at.is_glued, at.last, rest);
        match add(alloc, spellings, &mut found, at, piece, rest)? {
            Ok(()) => {
                at = past(behind(at, piece), *b);
                rest = after;
            }
            Err(excess) => return Ok(Err(excess)),
        }
    }
    finish(&mut found, at)?;
    Ok(Ok(found))
}

/// The tokens of a file, the last of which is `End`. Words that aren't there yet are added to the spellings.
///
/// # Errors
///
/// `AllocError` if a growth is refused. Then, and after an excess, the spellings stay as they were.
pub fn tokens(
    alloc: Global,
    spellings: &mut Spellings,
    file: &[u8],
) -> Result<Result<Vec<Token>, Excess>, AllocError>
    ensures read { IfOk result (λ found. MatchResult found
        (λ ts. (length file.now ≤ spec.max_file) × spec.AreTokens spellings.old spellings.new file.now ts.items)
        (λ excess. (spellings.new ≡ spellings.old) × spec.IsExcess spellings.old file.now excess)) }
    ensures kept { OnErr result (spellings.new ≡ spellings.old) }
{
    if MAX_FILE < file.len() {
        return Ok(Err(Excess::LargeFile));
    }
    let count = spellings.len();
    match read(alloc, spellings, file) {
        Ok(Ok(found)) => Ok(Ok(found)),
        Ok(Err(excess)) => {
            spellings.truncate(count);
            Ok(Err(excess))
        }
        Err(refused) => {
            spellings.truncate(count);
            Err(refused)
        }
    }
}
