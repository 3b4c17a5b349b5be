//! Bodies of macros, and arguments in the places of parameters.

ghost use Rattle.std.specs.Prelude.{◌≡◌, ◌≤◌, ◌<◌, ◌++◌, IfOk, OnOk, length, option_map};
ghost use Rattle.flt_c_macros.specs.Bodies as spec;

use crate::item::{Word, placed, plain};
use crate::kind::same_kind;
use flt_c_tokens::{Kind, Token};
use sqlite_items::Items;
use std::alloc::{AllocError, Global};

/// An argument, and the name of its parameter.
#[derive(Drop)]
pub struct Given {
    pub name: u32,
    /// The argument without expansion.
    pub raw: Items<Word>,
    /// Its expansion, if it was read.
    pub words: Items<Word>,
}

/// The words of a body, at the place of a use.
pub fn words_of(alloc: Global, at: Token, body: &[Token]) -> Result<Items<Word>, AllocError>
    ensures { IfOk result (λ words. words ≡ spec.words_of at body.now) }
{
    let mut words = Items::new(alloc);
    for token in body {
        words.push(plain(placed(*token, at)))?;
    }
    Ok(words)
}

/// Whether a body has a name.
pub fn has_name(name: u32, body: &[Token]) -> bool
    ensures { result ≡ spec.has_name name body.now }
{
    for token in body {
        if same_kind(token.kind, Kind::Name) && token.word == name {
            return true;
        }
    }
    false
}

/// Whether a body has a `#` or `##`.
pub fn has_sign(body: &[Token]) -> bool
    ensures { result ≡ spec.has_sign body.now }
{
    for token in body {
        if same_kind(token.kind, Kind::Hash) || same_kind(token.kind, Kind::HashHash) {
            return true;
        }
    }
    false
}

/// Whether a body begins with `, ## __VA_ARGS__`, or with the name that stands for `...`.
fn is_joint(rest: Option<u32>, body: &[Token]) -> bool
    ensures { result ≡ spec.is_joint rest body.now }
{
    match (rest, body) {
        (Some(rest), [comma, sign, name, ..]) => {
            same_kind(comma.kind, Kind::Comma)
                && same_kind(sign.kind, Kind::HashHash)
                && same_kind(name.kind, Kind::Name)
                && name.word == rest
        }
        _ => false,
    }
}

/// How many tokens of a `, ## __VA_ARGS__` are left after the next token, if so many are left before it.
fn joint_after(rest: Option<u32>, joint: usize, body: &[Token]) -> usize
    ensures { result ≡ spec.joint_after rest joint body.now }
{
    if 0 < joint {
        joint - 1
    } else if is_joint(rest, body) {
        2
    } else {
        0
    }
}

/// The tokens of a body that are in no `, ## __VA_ARGS__`.
pub fn apart(alloc: Global, rest: Option<u32>, body: &[Token]) -> Result<Items<Token>, AllocError>
    ensures { IfOk result (λ tokens. tokens ≡ spec.apart rest 0 body.now) }
{
    let mut tokens = Items::new(alloc);
    let mut joint = 0;
    let mut left = body;
    while let [token, behind @ ..] = left {
        let next = joint_after(rest, joint, left);
        if joint == 0 && next == 0 {
            tokens.push(*token)?;
        }
        joint = next;
        left = behind;
    }
    Ok(tokens)
}

/// An argument without expansion.
fn raw_of(given: &[Given], rest: Option<u32>) -> &[Word]
    ensures { result.now ≡ spec.raw_of given.now rest }
{
    if let Some(name) = rest {
        for argument in given {
            if argument.name == name {
                return argument.raw.as_slice();
            }
        }
    }
    &[]
}

/// Adds what `, ## __VA_ARGS__` becomes.
fn join(at: Token, comma: Token, raw: &[Word], words: &mut Items<Word>) -> Result<(), AllocError>
    ensures { OnOk result (words.new ≡ words.old ++ spec.joined at comma raw.now) }
{
    if raw.is_empty() {
        return Ok(());
    }
    words.push(plain(placed(comma, at)))?;
    add(words, raw)
}

/// The argument of a parameter.
fn argument_of(given: &[Given], name: u32) -> Option<&[Word]>
    ensures { option_map (λ words. words.now) result ≡ spec.argument_of given.now name }
{
    for argument in given {
        if argument.name == name {
            return Some(argument.words.as_slice());
        }
    }
    None
}

/// Adds the words that a token of a body becomes.
fn put(given: &[Given], at: Token, token: Token, words: &mut Items<Word>) -> Result<(), AllocError>
    ensures { OnOk result (words.new ≡ words.old ++ spec.piece given.now at token) }
{
    if same_kind(token.kind, Kind::Name) {
        if let Some(argument) = argument_of(given, token.word) {
            return add(words, argument);
        }
    }
    words.push(plain(placed(token, at)))
}

/// Adds words.
fn add(words: &mut Items<Word>, more: &[Word]) -> Result<(), AllocError>
    ensures { OnOk result (words.new ≡ words.old ++ more.now) }
{
    for word in more {
        words.push(*word)?;
    }
    Ok(())
}

/// Adds what the next token of a body becomes.
fn put_at(
    given: &[Given],
    rest: Option<u32>,
    at: Token,
    joint: usize,
    token: Token,
    body: &[Token],
    words: &mut Items<Word>,
) -> Result<(), AllocError>
    ensures { OnOk result (words.new ≡ words.old ++ spec.words_at given.now rest at joint token body.now) }
{
    if 0 < joint {
        Ok(())
    } else if is_joint(rest, body) {
        join(at, token, raw_of(given, rest), words)
    } else {
        put(given, at, token, words)
    }
}

/// The words of a body with the arguments put in, if they are fewer than a number.
pub fn fill(
    alloc: Global,
    given: &[Given],
    rest: Option<u32>,
    at: Token,
    body: &[Token],
    limit: usize,
) -> Result<Option<Items<Word>>, AllocError>
    ensures { IfOk result (λ found. spec.IsFilled (spec.filled given.now rest at 0 body.now) limit found) }
{
    let mut words = Items::new(alloc);
    let mut joint = 0;
    let mut tokens = body;
    while let [token, behind @ ..] = tokens {
        put_at(given, rest, at, joint, *token, tokens, &mut words)?;
        joint = joint_after(rest, joint, tokens);
        if words.len() >= limit {
            return Ok(None);
        }
        tokens = behind;
    }
    if words.len() >= limit {
        return Ok(None);
    }
    Ok(Some(words))
}
