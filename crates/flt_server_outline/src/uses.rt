//! Where a name is declared and used, and where a variable is used in its callback.

ghost use Rattle.std.specs.Prelude.{◌≡◌, ◌<◌, ◌≤◌, ◌+◌, ◌^◌, IfOk, filter, find, map, option_map};
ghost use Rattle.flt_server_outline.specs.Uses as spec;

use crate::blocks::depth_after;
use crate::roles::{MarkedToken, NameOf, Role};
use crate::symbols::{Part, is_close_brace};
use flt_syntax::{Kind, Token, bytes_of};
use sqlite_items::Items;
use std::alloc::{AllocError, Global};

/// The thing that a token names.
#[derive(Clone, Copy)]
pub enum NamedThing {
    /// The filter, a lock or a routine.
    Name(NameOf),
    /// A variable of the callback whose body is this part of the text.
    Variable(Part),
}

/// A token, and the thing that it names.
#[derive(Clone, Copy)]
pub struct Mention {
    pub token: Token,
    pub named: NamedThing,
}

// ---- the token at a place

fn has(token: Token, byte: usize) -> bool
    ensures { result ≡ spec.has byte token }
{
    token.start <= byte && byte < token.end
}

fn ends_at(token: Token, byte: usize) -> bool
    ensures { result ≡ spec.ends_at byte token }
{
    token.end == byte && token.start < byte
}

fn first_with(tokens: &[MarkedToken], byte: usize) -> Option<MarkedToken>
    ensures { result ≡ find (λ m. spec.has byte m.token) tokens.now }
{
    for marked in tokens {
        if has(marked.token, byte) {
            return Some(*marked);
        }
    }
    None
}

fn first_up_to(tokens: &[MarkedToken], byte: usize) -> Option<MarkedToken>
    ensures { result ≡ find (λ m. spec.ends_at byte m.token) tokens.now }
{
    for marked in tokens {
        if ends_at(marked.token, byte) {
            return Some(*marked);
        }
    }
    None
}

/// The token that has a byte, or else the one that ends before it.
fn marked_at(tokens: &[MarkedToken], byte: usize) -> Option<MarkedToken>
    ensures { result ≡ spec.marked_at byte tokens.now }
{
    match first_with(tokens, byte) {
        Some(marked) => Some(marked),
        None => first_up_to(tokens, byte),
    }
}

// ---- the body of a callback

/// The body of a callback as its tokens are read: how deep blocks nest, and the byte with which it began.
#[derive(Clone, Copy)]
struct Body {
    depth: usize,
    start: usize,
}

/// The byte with which the body begins, after a token.
fn start_after(body: Body, token: Token) -> usize
    ensures { result ≡ spec.start_after body token token.word.kind }
{
    match token.word.kind {
        Kind::OpenBrace if body.depth == 0 => token.start,
        _ => body.start,
    }
}

/// The body after a token, before which blocks nest as deep as there are tokens before it at most.
fn body_after(body: Body, token: Token) -> Body
    requires { body.depth < 2 ^ 63 }
    ensures body { result ≡ spec.body_after body token }
    ensures low { result.depth ≤ body.depth + 1 }
{
    Body {
        depth: depth_after(body.depth, token.word.kind),
        start: start_after(body, token),
    }
}

fn ends_body(body: Body, token: Token, byte: usize) -> bool
    ensures { result ≡ spec.ends_body body token byte }
{
    is_close_brace(token.word.kind) && body.depth <= 1 && byte < token.end
}

/// The body of the callback that has a byte: up to the end of all texts if it isn't closed.
fn body_around(tokens: &[MarkedToken], byte: usize) -> Part
    ensures { result ≡ spec.body_from (record { depth = 0; start = 0 }) byte tokens.now }
{
    let mut body = Body { depth: 0, start: 0 };
    for marked in tokens {
        if ends_body(body, marked.token, byte) {
            return Part {
                start: body.start,
                end: marked.token.end,
            };
        }
        body = body_after(body, marked.token);
    }
    Part {
        start: body.start,
        end: usize::MAX,
    }
}

// ---- mentions

fn named_by(tokens: &[MarkedToken], marked: MarkedToken) -> Option<NamedThing>
    ensures { result ≡ spec.named_by tokens.now marked }
{
    match marked.role {
        Role::Declared(of) | Role::Used(of) => Some(NamedThing::Name(of)),
        Role::Variable => Some(NamedThing::Variable(body_around(tokens, marked.token.start))),
        Role::Plain => None,
    }
}

fn mention_of(tokens: &[MarkedToken], marked: MarkedToken) -> Option<Mention>
    ensures { result ≡ spec.mention_of tokens.now marked }
{
    let named = named_by(tokens, marked)?;
    Some(Mention {
        token: marked.token,
        named,
    })
}

/// The token that has a byte of a text, from 0, or else the one that ends before it, if it is a name or a variable.
pub fn mention_at(tokens: &[MarkedToken], byte: usize) -> Option<Mention>
    ensures { result ≡ spec.mention_at byte tokens.now }
{
    mention_of(tokens, marked_at(tokens, byte)?)
}

// ---- uses

fn is_same(first: NameOf, second: NameOf) -> bool
    ensures { result ≡ spec.is_same first second }
{
    match (first, second) {
        (NameOf::Filter, NameOf::Filter) => true,
        (NameOf::Lock, NameOf::Lock) => true,
        (NameOf::Routine, NameOf::Routine) => true,
        _ => false,
    }
}

fn is_within(token: Token, part: Part) -> bool
    ensures { result ≡ spec.is_within part token }
{
    part.start <= token.start && token.end <= part.end
}

/// Whether a token names something of the same kind, in the same body if that is a variable.
fn may_name(named: NamedThing, marked: MarkedToken) -> bool
    ensures { result ≡ spec.may_name named marked }
{
    match (named, marked.role) {
        (NamedThing::Name(of), Role::Declared(other) | Role::Used(other)) => is_same(of, other),
        (NamedThing::Variable(part), Role::Variable) => is_within(marked.token, part),
        _ => false,
    }
}

fn are_alike(text: &[u8], first: Token, second: Token) -> bool
    ensures { result ≡ spec.are_alike text.now first second }
{
    bytes_of(text, first) == bytes_of(text, second)
}

fn names_it(text: &[u8], mention: Mention, marked: MarkedToken) -> bool
    ensures { result ≡ spec.names_it text.now mention marked }
{
    may_name(mention.named, marked) && are_alike(text, mention.token, marked.token)
}

fn declares(role: Role) -> bool
    ensures { result ≡ spec.declares role }
{
    matches!(role, Role::Declared(_))
}

fn is_use(text: &[u8], mention: Mention, with_declaration: bool, marked: MarkedToken) -> bool
    ensures { result ≡ spec.is_use text.now mention with_declaration marked }
{
    names_it(text, mention, marked) && (with_declaration || !declares(marked.role))
}

/// The tokens of a text that name the same as one of them, in order; without its declaration if that isn't wanted.
///
/// # Errors
///
/// `AllocError` if a growth is refused.
pub fn uses_of(
    alloc: Global,
    text: &[u8],
    tokens: &[MarkedToken],
    mention: Mention,
    with_declaration: bool,
) -> Result<Items<Token>, AllocError>
    ensures { IfOk result (λ found. found ≡
        map (λ m. m.token) (filter (spec.is_use text.now mention with_declaration) tokens.now)) }
{
    let mut found = Items::new(alloc);
    for marked in tokens {
        if is_use(text, mention, with_declaration, *marked) {
            found.push(marked.token)?;
        }
    }
    Ok(found)
}

fn is_variable(named: NamedThing) -> bool
    ensures { result ≡ spec.is_variable named }
{
    matches!(named, NamedThing::Variable(_))
}

fn is_first(text: &[u8], mention: Mention, marked: MarkedToken) -> bool
    ensures { result ≡ spec.is_first text.now mention marked }
{
    names_it(text, mention, marked) && (is_variable(mention.named) || declares(marked.role))
}

/// The token of a text that declares the thing of a mention; of a variable its first use in the callback.
pub fn declaration_of(text: &[u8], tokens: &[MarkedToken], mention: Mention) -> Option<Token>
    ensures { result ≡ option_map (λ m. m.token) (find (spec.is_first text.now mention) tokens.now) }
{
    for marked in tokens {
        if is_first(text, mention, *marked) {
            return Some(marked.token);
        }
    }
    None
}
