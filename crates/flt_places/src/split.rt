//! A text cut into its lines.

ghost use Rattle.std.specs.Prelude.{◌≡◌, ◌==◌, ◌+◌, ◌<◌, ◌≤◌, drop, length, map, position, take, IfOk};
ghost use Rattle.std.specs.List.{position_or_len, slice_split};

use std::alloc::{AllocError, Global};

/// Where the first line feed is, if there is one.
fn line_feed(text: &[u8]) -> Option<usize>
    ensures { result ≡ position (λ b. b == 10) text.now }
{
    text.iter().position(|byte| *byte == b'\n')
}

/// How many bytes the first line has, without its end.
fn line_length(text: &[u8]) -> usize
    ensures value { result ≡ position_or_len (λ b. b == 10) text.now }
    ensures within { result ≤ length text.now }
{
    line_feed(text).unwrap_or(text.len())
}

fn line_up_to(text: &[u8], end: usize) -> &[u8]
    requires { end < length text.now }
    ensures { result.now ≡ take end text.now }
{
    &text[..end]
}

fn after_line(text: &[u8], end: usize) -> &[u8]
    requires { end < length text.now }
    ensures { result.now ≡ drop (end + 1) text.now }
{
    &text[end + 1..]
}

/// The lines of a text, without their ends. A text that ends with a line feed has an empty last line, as an empty text has one.
///
/// # Errors
///
/// `AllocError` if a growth is refused.
pub fn lines_of<'a>(alloc: Global, text: &'a [u8]) -> Result<Vec<&'a [u8]>, AllocError>
    ensures { IfOk result (λ lines. map (λ l. l.now) lines.items ≡ slice_split (λ b. b == 10) text.now) }
{
    let mut lines = Vec::new(alloc);
    let mut rest = text;
    let mut end = line_length(rest);
    while end < rest.len() {
        lines.push(line_up_to(rest, end))?;
        rest = after_line(rest, end);
        end = line_length(rest);
    }
    lines.push(rest)?;
    Ok(lines)
}
