//! The symbols of a text: its locks, callbacks and routines.

ghost use Rattle.std.specs.Prelude.{◌≡◌, ◌++◌, IfOk, option_to_list};
ghost use Rattle.flt_server_outline.specs.Symbols as spec;

use crate::blocks::depth_after;
use crate::roles::{MarkedToken, NameOf, Role, is_word};
use flt_syntax::{Kind, Token};
use sqlite_items::Items;
use std::alloc::{AllocError, Global};

/// A part of a text: its bytes from one up to another, from 0.
#[derive(Clone, Copy)]
pub struct Part {
    pub start: usize,
    pub end: usize,
}

/// The kind of a symbol.
#[derive(Clone, Copy)]
pub enum SymbolKind {
    Lock,
    /// A callback or a routine.
    Callback,
}

/// A symbol: its name, or the words by which it begins, and all of it.
#[derive(Clone, Copy)]
pub struct Symbol {
    pub kind: SymbolKind,
    pub name: Part,
    pub whole: Part,
}

/// The bytes from the first of a token up to the last of another.
fn part_over(first: Token, last: Token) -> Part
    ensures { result ≡ spec.part_over first last }
{
    Part {
        start: first.start,
        end: last.end,
    }
}

fn begins_callback(kind: Kind) -> bool
    ensures { result ≡ spec.begins_callback kind }
{
    matches!(
        kind,
        Kind::Pre
            | Kind::Post
            | Kind::Canceled
            | Kind::DeferredPre
            | Kind::DeferredPost
            | Kind::Generic
    )
}

fn is_open_brace(kind: Kind) -> bool
    ensures { result ≡ spec.is_open_brace kind }
{
    matches!(kind, Kind::OpenBrace)
}

pub(crate) fn is_close_brace(kind: Kind) -> bool
    ensures { result ≡ spec.is_close_brace kind }
{
    matches!(kind, Kind::CloseBrace)
}

/// The brace that closes a block, after tokens in it. Blocks nest so deep before them, from 1.
fn closing(tokens: &[MarkedToken]) -> Option<Token>
    ensures { result ≡ spec.closing 1 tokens.now }
{
    let mut depth: usize = 1;
    for marked in tokens {
        let kind = marked.token.word.kind;
        if is_close_brace(kind) && depth <= 1 {
            return Some(marked.token);
        }
        depth = depth_after(depth, kind);
    }
    None
}

/// The last token of a callback whose head ends with a token: the brace that closes its block, or that token if no block follows.
fn end_of(last: Token, after: &[MarkedToken]) -> Token
    ensures { result ≡ spec.end_of last after.now }
{
    match after {
        [brace, inner @ ..] if is_open_brace(brace.token.word.kind) => {
            closing(inner).unwrap_or(last)
        }
        _ => last,
    }
}

fn callback_over(first: Token, last: Token, after: &[MarkedToken]) -> Symbol
    ensures { result ≡ spec.callback_over first last after.now }
{
    Symbol {
        kind: SymbolKind::Callback,
        name: part_over(first, last),
        whole: part_over(first, end_of(last, after)),
    }
}

/// The callback that begins with a token: its head has one more token if that is a word.
fn callback_at(first: Token, after: &[MarkedToken]) -> Symbol
    ensures { result ≡ spec.callback_at first after.now }
{
    match after {
        [second, others @ ..] if is_word(second.token.word.kind) => {
            callback_over(first, second.token, others)
        }
        _ => callback_over(first, first, after),
    }
}

fn declares_lock(role: Role) -> bool
    ensures { result ≡ spec.declares_lock role }
{
    matches!(role, Role::Declared(NameOf::Lock))
}

/// The lock that begins with a token: two more tokens, if the second is its name.
fn lock_at(first: Token, after: &[MarkedToken]) -> Option<Symbol>
    ensures { result ≡ spec.lock_at first after.now }
{
    match after {
        [_, name, ..] if declares_lock(name.role) => Some(Symbol {
            kind: SymbolKind::Lock,
            name: part_over(name.token, name.token),
            whole: part_over(first, name.token),
        }),
        _ => None,
    }
}

fn symbol_of(first: Token, after: &[MarkedToken]) -> Option<Symbol>
    ensures { result ≡ spec.symbol_of first after.now }
{
    let kind = first.word.kind;
    if begins_callback(kind) {
        return Some(callback_at(first, after));
    }
    match kind {
        Kind::Lock => lock_at(first, after),
        _ => None,
    }
}

/// The symbol that begins with the first of some tokens, which are in no block.
fn symbol_at(tokens: &[MarkedToken]) -> Option<Symbol>
    ensures { result ≡ spec.symbol_at tokens.now }
{
    let [first, after @ ..] = tokens else {
        return None;
    };
    match first.role {
        Role::Plain => symbol_of(first.token, after),
        _ => None,
    }
}

/// The same, if no block is open.
fn symbol_if(depth: usize, tokens: &[MarkedToken]) -> Option<Symbol>
    ensures { result ≡ spec.symbol_if depth tokens.now }
{
    if depth == 0 { symbol_at(tokens) } else { None }
}

fn push_if(symbols: &mut Items<Symbol>, symbol: Option<Symbol>) -> Result<(), AllocError>
    ensures { IfOk result (λ _. symbols.new ≡ symbols.old ++ option_to_list symbol) }
{
    match symbol {
        Some(symbol) => symbols.push(symbol),
        None => Ok(()),
    }
}

/// The symbols of a text, in order.
///
/// # Errors
///
/// `AllocError` if a growth is refused.
pub fn symbols_of(alloc: Global, tokens: &[MarkedToken]) -> Result<Items<Symbol>, AllocError>
    ensures { IfOk result (λ ss. ss ≡ spec.symbols_from 0 tokens.now) }
{
    let mut symbols = Items::new(alloc);
    let mut depth: usize = 0;
    for at in 0..tokens.len() {
        push_if(&mut symbols, symbol_if(depth, &tokens[at..]))?;
        depth = depth_after(depth, tokens[at].token.word.kind);
    }
    Ok(symbols)
}
