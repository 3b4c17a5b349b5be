//! Cuts a text into tokens.

ghost use Rattle.std.specs.Prelude.{◌≡◌, ◌≢◌, ◌<◌, ◌≤◌, ◌+◌, ◌-◌, ◌^◌, ◌++◌, ◌∷◌, [], length};
ghost use Rattle.std.specs.Prelude.{map, slice_index, IfOk, IfSome, OnOk, true, false};
ghost use Rattle.std.specs.List.{prefix_len};
ghost use Rattle.std.specs.Str.{bytes_eq};
ghost use Rattle.std.specs.Vec.{vec_len, vec_capacity};
ghost use Rattle.flt_syntax.specs.Lex as spec;
ghost use Rattle.flt_syntax.specs.Vocabulary.{vocabulary};
ghost use Rattle.flt_syntax.specs.Written.{ReadsBackWords};
ghost use Rattle.flt_tree.specs.Names as names;

use crate::token::{Kind, Token, Word};
use crate::words::{variable, words_like};
use flt_tree::Position;
use sqlite_items::Items;
use std::alloc::{AllocError, Global};

const MAX_WORD: usize = 64;

/// The bytes that occur in words: letters, digits and `_`.
const WORD_BYTES: [bool; 256] = [
    false, false, false, false, false, false, false, false, false, false, false, false, false,
    false, false, false, false, false, false, false, false, false, false, false, false, false,
    false, false, false, false, false, false, false, false, false, false, false, false, false,
    false, false, false, false, false, false, false, false, false, true, true, true, true, true,
    true, true, true, true, true, false, false, false, false, false, false, false, true, true,
    true, true, true, true, true, true, true, true, true, true, true, true, true, true, true, true,
    true, true, true, true, true, true, true, true, false, false, false, false, true, false, true,
    true, true, true, true, true, true, true, true, true, true, true, true, true, true, true, true,
    true, true, true, true, true, true, true, true, true, false, false, false, false, false, false,
    false, false, false, false, false, false, false, false, false, false, false, false, false,
    false, false, false, false, false, false, false, false, false, false, false, false, false,
    false, false, false, false, false, false, false, false, false, false, false, false, false,
    false, false, false, false, false, false, false, false, false, false, false, false, false,
    false, false, false, false, false, false, false, false, false, false, false, false, false,
    false, false, false, false, false, false, false, false, false, false, false, false, false,
    false, false, false, false, false, false, false, false, false, false, false, false, false,
    false, false, false, false, false, false, false, false, false, false, false, false, false,
    false, false, false, false, false, false, false, false, false, false, false, false, false,
    false, false, false, false, false, false, false, false, false, false,
];

/// The line that is being read: its number, how many bytes were left at its start, and how many the text has.
#[derive(Clone, Copy)]
struct Line {
    number: usize,
    from: usize,
    total: usize,
}

/// Whether both are one kind.
#[tactic(auto, unfolding(crate::specs::Lex::same_kind))]
pub fn same_kind(a: Kind, b: Kind) -> bool
    ensures value { result ≡ spec.same_kind a b }
    ensures same { result ≡ true → a ≡ b }
    ensures other { result ≡ false → a ≢ b }
{
    a == b
}

#[inline(always)]
fn word(kind: Kind) -> Word
    ensures { result ≡ spec.word kind }
{
    Word { kind, value: 0 }
}

/// The place in a line at which so many bytes are left, of those that were left at its start.
#[inline(always)]
fn place(line: usize, from: usize, left: usize) -> Position
    requires within { left ≤ from }
    requires small { from < 2 ^ 32 }
    ensures { result ≡ record { line = line; column = from - left + 1 } }
{
    Position {
        line,
        column: from - left + 1,
    }
}

/// The end of a text: after its last byte, or at `end` if that byte is a line feed.
fn end_of(line: usize, from: usize, end: Position) -> Position
    requires { from < 2 ^ 32 }
    ensures { result ≡ spec.end_of line from end }
{
    if from == 0 {
        return end;
    }
    Position {
        line,
        column: from + 1,
    }
}

fn is_blank(b: u8) -> bool
    ensures { result ≡ spec.is_blank b }
{
    b == b' ' || b == b'\t' || b == b'\n' || b == b'\r'
}

#[inline(always)]
fn is_word(b: u8) -> bool
    ensures { result ≡ names.is_word b }
{
    WORD_BYTES[b as usize]
}

/// Whether texts of one length are the same. Four bytes are compared at a time.
#[inline(always)]
fn are_same(mut a: &[u8], mut b: &[u8]) -> bool
    requires { length a.now ≡ length b.now }
    ensures { result ≡ bytes_eq a.entry.now b.entry.now }
{
    while let ([a0, a1, a2, a3, after_a @ ..], [b0, b1, b2, b3, after_b @ ..]) = (a, b) {
        if (*a0 != *b0) | (*a1 != *b1) | (*a2 != *b2) | (*a3 != *b3) {
            return false;
        }
        a = after_a;
        b = after_b;
    }
    while let ([a0, after_a @ ..], [b0, after_b @ ..]) = (a, b) {
        if *a0 != *b0 {
            return false;
        }
        a = after_a;
        b = after_b;
    }
    true
}

/// Whether a name is a word: as long, and of the same bytes.
#[inline(always)]
#[tactic(auto, using(crate::proofs::FirstBytes::as_long))]
fn is_spelled(name: &[u8], word: &[u8]) -> bool
    ensures { result ≡ bytes_eq name.now word.now }
{
    name.len() == word.len() && are_same(name, word)
}

#[inline(always)]
fn lookup(mut table: &[(&[u8], Kind)], name: &[u8]) -> Kind
    ensures { result ≡ spec.lookup (map (λ e. (e.0.now, e.1)) table.entry.now) name.now }
{
    while let [entry, rest @ ..] = table {
        if is_spelled(name, entry.0) {
            return entry.1;
        }
        table = rest;
    }
    Kind::Name
}

/// The kind of a word, looked for among those that begin as it does.
#[inline(always)]
fn kind_of(name: &[u8]) -> Kind
    ensures { result ≡ spec.lookup vocabulary name.now }
{
    lookup(words_like(name), name)
}

fn value(mut digits: &[u8]) -> Option<u64>
    ensures { result ≡ spec.value_from 0 digits.entry.now }
{
    let mut n: u64 = 0;
    while let [b, rest @ ..] = digits {
        if !b.is_ascii_digit() {
            return None;
        }
        let next = 10 * u128::from(n) + u128::from(*b - b'0');
        if next > u128::from(u64::MAX) {
            return None;
        }
        n = next as u64;
        digits = rest;
    }
    Some(n)
}

#[tactic(auto, unfolding(crate::specs::Lex::number))]
fn number(digits: &[u8]) -> Option<u64>
    requires { 0 < length digits.now }
    ensures { spec.number_by result ≡ spec.number digits.now }
{
    if digits[0] == b'0' && 1 < digits.len() {
        return None;
    }
    value(digits)
}

#[inline(always)]
fn run_len(z: &[u8]) -> usize
    ensures value { result ≡ prefix_len names.is_word z.now }
    ensures within { result ≤ length z.now }
    ensures moves { 0 < length z.now → names.is_word (slice_index z.now 0) ≡ true → 0 < result }
{
    let mut rest = z;
    while let [a, b, c, d, after @ ..] = rest {
        if !is_word(*a) || !is_word(*b) || !is_word(*c) || !is_word(*d) {
            break;
        }
        rest = after;
    }
    while let [b, after @ ..] = rest {
        if !is_word(*b) {
            break;
        }
        rest = after;
    }
    z.len() - rest.len()
}

#[inline(always)]
fn is_fault(kind: Kind) -> bool
    ensures { result ≡ spec.is_fault kind }
{
    matches!(kind, Kind::Stray | Kind::Malformed)
}

/// Adds one more token, at the front of `z`, for which there is room. The result is its length, or 0 if it is none. Each kind of token is
/// added where it is found: a token that is handed on is copied with its padding.
#[inline(always)]
fn add(found: &mut Vec<Token>, line: Line, z: &[u8], kind: Kind, value: u64, len: usize) -> usize
    requires room { vec_len found.old < vec_capacity found.old }
    requires stands { spec.StandsIn line z.now }
    requires within { len ≤ length z.now }
    ensures found { found.new.items ≡ found.old.items ++ spec.token_of line z.now (record { kind = kind; value = value }, len) ∷ [] }
    ensures step { result ≡ spec.step_of (record { kind = kind; value = value }, len) }
{
    let start = line.total - z.len();
    found.push_reserved(Token {
        word: Word { kind, value },
        position: place(line.number, line.from, z.len()),
        start,
        end: start + len,
    });
    if is_fault(kind) { 0 } else { len }
}

/// A symbol.
#[inline(always)]
fn symbol(found: &mut Vec<Token>, line: Line, z: &[u8], symbol: Kind) -> usize
    requires room { vec_len found.old < vec_capacity found.old }
    requires stands { spec.StandsIn line z.now }
    requires some { 0 < length z.now }
    ensures found { found.new.items ≡ found.old.items ++ spec.token_of line z.now (spec.word symbol, 1) ∷ [] }
    ensures step { result ≡ spec.step_of (spec.word symbol, 1) }
{
    add(found, line, z, symbol, 0, 1)
}

/// The token that `=` or `!` begins: a pair with the `=` after it, or the byte alone.
#[inline(always)]
#[tactic(auto, unfolding(crate::specs::Lex::pair_or))]
fn pair_or(found: &mut Vec<Token>, line: Line, z: &[u8], pair: Kind, alone: Kind) -> usize
    requires room { vec_len found.old < vec_capacity found.old }
    requires stands { spec.StandsIn line z.now }
    requires some { 0 < length z.now }
    ensures found { found.new.items ≡ found.old.items ++ spec.token_of line z.now (spec.pair_or pair alone z.now) ∷ [] }
    ensures step { result ≡ spec.step_of (spec.pair_or pair alone z.now) }
    ensures within { spec.IsWithin z.now (spec.pair_or pair alone z.now) }
{
    if 1 < z.len() && z[1] == b'=' {
        add(found, line, z, pair, 0, 2)
    } else {
        add(found, line, z, alone, 0, 1)
    }
}

/// A number or a word.
#[inline(always)]
#[tactic(auto, unfolding(crate::specs::Lex::run, crate::specs::Lex::keyword))]
fn run(found: &mut Vec<Token>, line: Line, z: &[u8]) -> usize
    requires room { vec_len found.old < vec_capacity found.old }
    requires stands { spec.StandsIn line z.now }
    requires some { 0 < length z.now }
    requires begins { names.is_word (slice_index z.now 0) ≡ true }
    ensures found { found.new.items ≡ found.old.items ++ spec.token_of line z.now (spec.run z.now) ∷ [] }
    ensures step { result ≡ spec.step_of (spec.run z.now) }
    ensures within { spec.IsWithin z.now (spec.run z.now) }
{
    let end = run_len(z);
    let run = &z[..end];
    if z[0].is_ascii_digit() {
        return match number(run) {
            Some(n) => add(found, line, z, Kind::Number, n, end),
            None => add(found, line, z, Kind::Malformed, 0, end),
        };
    }
    if MAX_WORD < end {
        return add(found, line, z, Kind::Malformed, 0, end);
    }
    add(found, line, z, kind_of(run), 0, end)
}

/// The variable at the front of a text, if it has two bytes and the word ends after it.
#[inline(always)]
fn variable_at(z: &[u8]) -> Option<Kind>
    ensures { IfSome result (λ kind. (spec.run z.now ≡ (spec.word kind, 2)) × (2 ≤ length z.now)) }
{
    match z {
        [letter, digit, next, ..] if !is_word(*next) => variable(*letter, *digit),
        _ => None,
    }
}

/// The same for a word that begins as a variable does: a variable needs no table.
#[inline(always)]
fn variable_or_run(found: &mut Vec<Token>, line: Line, z: &[u8]) -> usize
    requires room { vec_len found.old < vec_capacity found.old }
    requires stands { spec.StandsIn line z.now }
    requires some { 0 < length z.now }
    requires begins { names.is_word (slice_index z.now 0) ≡ true }
    ensures found { found.new.items ≡ found.old.items ++ spec.token_of line z.now (spec.run z.now) ∷ [] }
    ensures step { result ≡ spec.step_of (spec.run z.now) }
    ensures within { spec.IsWithin z.now (spec.run z.now) }
{
    match variable_at(z) {
        Some(kind) => add(found, line, z, kind, 0, 2),
        None => run(found, line, z),
    }
}

/// The token at the front of a text that begins with no blank or comment.
#[inline(always)]
#[tactic(auto, unfolding(crate::specs::Lex::token))]
fn token(found: &mut Vec<Token>, line: Line, z: &[u8]) -> usize
    requires room { vec_len found.old < vec_capacity found.old }
    requires stands { spec.StandsIn line z.now }
    requires some { 0 < length z.now }
    ensures found { found.new.items ≡ found.old.items ++ spec.token_of line z.now (spec.token z.now) ∷ [] }
    ensures step { result ≡ spec.step_of (spec.token z.now) }
    ensures within { spec.IsWithin z.now (spec.token z.now) }
{
    match z[0] {
        b'{' => symbol(found, line, z, Kind::OpenBrace),
        b'}' => symbol(found, line, z, Kind::CloseBrace),
        b'<' => symbol(found, line, z, Kind::Less),
        b'+' => symbol(found, line, z, Kind::Plus),
        b'-' => symbol(found, line, z, Kind::Minus),
        b'=' => pair_or(found, line, z, Kind::Equal, Kind::Assign),
        b'!' => pair_or(found, line, z, Kind::NotEqual, Kind::Stray),
        b'c' | b'n' | b'o' => variable_or_run(found, line, z),
        b if is_word(b) => run(found, line, z),
        _ => symbol(found, line, z, Kind::Stray),
    }
}

/// The rest of a text after the spaces at its front.
#[inline(always)]
fn after_spaces(mut rest: &[u8]) -> &[u8]
    ensures { result.now ≡ spec.after_spaces rest.entry.now }
{
    while let [b' ', after @ ..] = rest {
        rest = after;
    }
    rest
}

/// The rest of a text after a comment: from its line feed on, or nothing at the end of the text.
fn after_comment(mut rest: &[u8]) -> &[u8]
    ensures { result.now ≡ spec.after_comment rest.entry.now }
{
    while let [a, b, c, d, e, f, g, h, after @ ..] = rest {
        if *a == b'\n' || *b == b'\n' || *c == b'\n' || *d == b'\n' {
            break;
        }
        if *e == b'\n' || *f == b'\n' || *g == b'\n' || *h == b'\n' {
            break;
        }
        rest = after;
    }
    while let [b, after @ ..] = rest {
        if *b == b'\n' {
            return rest;
        }
        rest = after;
    }
    rest
}

/// The tokens up to the end or the first that is none.
pub fn tokens(alloc: Global, text: &[u8]) -> Result<Items<Token>, AllocError>
    requires { length text.now < 2 ^ 32 }
    ensures { IfOk result (λ ts. ts ≡ spec.tokens text.now) }
{
    let mut found = Vec::new(alloc);
    found.reserve(text.len() / 6)?;
    let mut number = 1;
    // How many bytes were left at the start of the line, and where the text ends if it does there.
    let mut from = text.len();
    let mut end = place(1, 0, 0);
    let mut rest = text;
    while let [b, after @ ..] = rest {
        if *b == b'\n' {
            end = place(number, from, after.len());
            number += 1;
            from = after.len();
            rest = after_spaces(after);
            continue;
        }
        if is_blank(*b) {
            rest = after_spaces(after);
            continue;
        }
        if *b == b'#' {
            rest = after_comment(after);
            continue;
        }
        found.reserve(1)?;
        let line = Line {
            number,
            from,
            total: text.len(),
        };
        let len = token(&mut found, line, rest);
        if len == 0 {
            return Ok(Items::from_vec(found));
        }
        rest = after_spaces(&rest[len..]);
    }
    found.reserve(1)?;
    found.push_reserved(Token {
        word: word(Kind::End),
        position: end_of(number, from, end),
        start: text.len(),
        end: text.len(),
    });
    Ok(Items::from_vec(found))
}

/// A text of words with blanks and line feeds between them is read back word by word. It does nothing at run time: its clause is a law.
#[tactic(auto, using(crate::proofs::Lexed::reads_back))]
pub fn reads_back_words()
    ensures { ReadsBackWords }
{}
