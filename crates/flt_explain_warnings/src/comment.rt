//! One such comment: the content of a line, without its place.

ghost use Rattle.std.specs.Prelude.{◌≡◌, ◌≤◌, ◌∷◌, [], length};
ghost use Rattle.std.specs.Char.{is_ascii_digit};
ghost use Rattle.std.specs.List.{prefix_len};
ghost use Rattle.std.specs.Option.{option_copied, option_map};
ghost use Rattle.flt_explain_warnings.specs.Comment as spec;

use crate::kinds::kind_named;
use crate::warning::Kind;

/// The content of a comment.
#[derive(Clone, Copy)]
pub(crate) struct Comment<'a> {
    /// `None` if its number is unknown.
    pub kind: Option<Kind>,
    /// Empty if it has none.
    pub reason: &'a [u8],
}

fn is_blank(byte: u8) -> bool
    ensures { result ≡ spec.is_blank byte }
{
    matches!(byte, b' ' | b'\t' | b'\r')
}

/// The text after the blanks at its front.
pub(crate) fn after_blanks(mut rest: &[u8]) -> &[u8]
    ensures { result.now ≡ spec.after_blanks rest.entry.now }
{
    while let [b, after @ ..] = rest {
        if !is_blank(*b) {
            break;
        }
        rest = after;
    }
    rest
}

/// The same, if there is at least one blank.
fn after_some_blanks(text: &[u8]) -> Option<&[u8]>
    ensures { option_copied result ≡ spec.after_some_blanks text.now }
{
    match text {
        [b, rest @ ..] if is_blank(*b) => Some(after_blanks(rest)),
        _ => None,
    }
}

/// The number of bytes of a line without the blanks at its end.
pub(crate) fn end_of(line: &[u8]) -> usize
    ensures value { result ≡ spec.end_of line.now }
    ensures within { result ≤ length line.now }
{
    let mut end = 0;
    let mut at: usize = 0;
    for byte in line {
        at += 1;
        if !is_blank(*byte) {
            end = at;
        }
    }
    end
}

/// The text after a word with which it begins.
fn after<'a>(word: &[u8], text: &'a [u8]) -> Option<&'a [u8]>
    ensures { option_copied result ≡ spec.after word.now text.now }
{
    text.strip_prefix(word)
}

/// The text after `# allow` and the blanks that follow it.
fn after_allow(text: &[u8]) -> Option<&[u8]>
    ensures { option_copied result ≡ spec.after_allow text.now }
{
    let rest = after(b"#", after_blanks(text))?;
    let rest = after(b"allow", after_blanks(rest))?;
    after_some_blanks(rest)
}

/// The number of digits at the front of a text.
fn digits(text: &[u8]) -> usize
    ensures value { result ≡ prefix_len is_ascii_digit text.now }
    ensures within { result ≤ length text.now }
{
    let mut count: usize = 0;
    for byte in text {
        if !byte.is_ascii_digit() {
            break;
        }
        count += 1;
    }
    count
}

/// The number of bytes of the name of a kind at the front of a text: a `W` and digits. 0 if there is no name.
fn name_length(text: &[u8]) -> usize
    ensures value { result ≡ spec.name_length text.now }
    ensures within { result ≤ length text.now }
{
    match text {
        [b'W', rest @ ..] => match digits(rest) {
            0 => 0,
            count => count + 1,
        },
        _ => 0,
    }
}

/// Whether a name may end before such a text.
fn may_follow(text: &[u8]) -> bool
    ensures { result ≡ spec.may_follow text.now }
{
    match text {
        [] => true,
        [b, ..] => is_blank(*b) || *b == b':',
    }
}

/// The reason after a name.
fn reason_in(text: &[u8]) -> &[u8]
    ensures { result.now ≡ spec.reason_in text.now }
{
    match after(b":", after_blanks(text)) {
        Some(rest) => after_blanks(rest),
        None => &[],
    }
}

/// The content of such a comment, from its number on.
fn said(text: &[u8]) -> Option<Comment<'_>>
    ensures { option_map (λ c. (c.kind, c.reason.now)) result ≡ spec.said text.now }
{
    let length = name_length(text);
    let rest = &text[length..];
    if length == 0 || !may_follow(rest) {
        return None;
    }
    Some(Comment {
        kind: kind_named(&text[..length]),
        reason: reason_in(rest),
    })
}

/// The content of a line that is such a comment.
#[tactic(auto, unfolding(crate::specs::Comment::comment_of))]
pub(crate) fn read_comment(line: &[u8]) -> Option<Comment<'_>>
    ensures { option_map (λ c. (c.kind, c.reason.now)) result ≡ spec.comment_of line.now }
{
    said(after_allow(&line[..end_of(line)])?)
}

pub(crate) fn is_comment(line: &[u8]) -> bool
    ensures { result ≡ spec.is_comment line.now }
{
    read_comment(line).is_some()
}
