//! The name of a header in a line of `#include`.

ghost use Rattle.std.specs.Prelude.{◌≡◌, option_map};
ghost use Rattle.flt_c_headers.specs.Inclusions as spec;

use flt_c_tokens::{Kind, Spellings, Token};

/// A name that a line includes.
#[derive(Clone, Copy)]
pub(crate) struct HeaderName<'a> {
    pub(crate) in_quotes: bool,
    pub(crate) name: &'a [u8],
}

/// The text of a word by its number.
fn text_at(spellings: &Spellings, number: u32) -> &[u8]
    ensures { result.now ≡ spec.text_at spellings.now number }
{
    match spellings.text(number) {
        Some(text) => text,
        None => &[],
    }
}

fn is_name(kind: Kind) -> bool
    ensures { result ≡ spec.is_name kind }
{
    matches!(kind, Kind::Name)
}

fn is_greater(kind: Kind) -> bool
    ensures { result ≡ spec.is_greater kind }
{
    matches!(kind, Kind::Greater)
}

/// A name, unless it is empty.
fn named(in_quotes: bool, name: &[u8]) -> Option<HeaderName<'_>>
    ensures { option_map spec.seen result ≡ spec.named in_quotes name.now }
{
    if name.is_empty() {
        return None;
    }
    Some(HeaderName { in_quotes, name })
}

/// Whether a text is a string without a prefix.
fn is_quoted(text: &[u8]) -> bool
    ensures { result ≡ spec.is_quoted text.now }
{
    text.len() >= 2 && text[0] == b'"' && text[text.len() - 1] == b'"'
}

/// The name between the quotes of a string.
#[tactic(auto, unfolding(crate::specs::Inclusions::in_quotes))]
fn in_quotes(text: &[u8]) -> Option<HeaderName<'_>>
    ensures { option_map spec.seen result ≡ spec.in_quotes text.now }
{
    if !is_quoted(text) {
        return None;
    }
    named(true, &text[1..text.len() - 1])
}

/// Where the first `>` begins.
fn first_greater(tokens: &[Token]) -> Option<u32>
    ensures { result ≡ spec.first_greater tokens.now }
{
    let mut rest = tokens;
    while let [token, after @ ..] = rest {
        if is_greater(token.kind) {
            return Some(token.start);
        }
        rest = after;
    }
    None
}

/// The name after the `<` that begins at `start`.
#[tactic(auto, unfolding(crate::specs::Inclusions::in_angles))]
fn in_angles<'a>(file: &'a [u8], start: u32, after: &[Token]) -> Option<HeaderName<'a>>
    ensures { option_map spec.seen result ≡ spec.in_angles file.entry.now start after.now }
{
    let first = start as usize + 1;
    let last = first_greater(after)? as usize;
    if last < first || file.len() < last {
        return None;
    }
    named(false, &file[first..last])
}

/// The name that begins with a token.
#[tactic(auto, unfolding(crate::specs::Inclusions::named_by))]
fn named_by<'a>(
    spellings: &'a Spellings,
    file: &'a [u8],
    token: Token,
    after: &[Token],
) -> Option<HeaderName<'a>>
    ensures { option_map spec.seen result ≡ spec.named_by spellings.entry.now file.entry.now token after.now }
{
    match token.kind {
        Kind::Text => in_quotes(text_at(spellings, token.word)),
        Kind::Less => in_angles(file, token.start, after),
        _ => None,
    }
}

/// Whether a token is the word `include`.
#[tactic(auto, unfolding(crate::specs::Inclusions::is_include))]
fn is_include(spellings: &Spellings, token: Token) -> bool
    ensures { result ≡ spec.is_include spellings.now token }
{
    is_name(token.kind) && text_at(spellings, token.word) == b"include".as_slice()
}

/// The name that a line of a file includes: the line is the tokens after its `#`.
#[tactic(auto, unfolding(crate::specs::Inclusions::inclusion))]
pub(crate) fn inclusion<'a>(
    spellings: &'a Spellings,
    file: &'a [u8],
    line: &[Token],
) -> Option<HeaderName<'a>>
    ensures { option_map spec.seen result ≡ spec.inclusion spellings.entry.now file.entry.now line.now }
{
    match line {
        [word, token, after @ ..] if is_include(spellings, *word) => {
            named_by(spellings, file, *token, after)
        }
        _ => None,
    }
}
