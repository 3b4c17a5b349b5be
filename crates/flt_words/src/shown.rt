//! Words from outside, made safe for a terminal.

ghost use Rattle.std.specs.Prelude.{◌≡◌, ◌++◌, IfOk, OnOk, string_bytes};
ghost use Rattle.flt_words.specs.Shown as spec;

use std::alloc::{AllocError, Global};

/// Whether a terminal may act on a character in place of showing it: on a control, on one that changes the direction of the characters
/// after it, and on one that ends a line.
fn is_hidden(letter: char) -> bool
    ensures { result ≡ spec.is_hidden letter }
{
    match letter {
        '\0'..='\u{1f}' | '\u{7f}'..='\u{9f}' => true,
        '\u{61c}' | '\u{200e}'..='\u{200f}' => true,
        '\u{2028}'..='\u{202e}' | '\u{2066}'..='\u{2069}' => true,
        _ => false,
    }
}

/// Appends a character, or its escape if it is hidden.
fn put(alloc: Global, shown: &mut String, letter: char) -> Result<(), AllocError>
    ensures { OnOk result (string_bytes shown.new ≡ string_bytes shown.old ++ spec.shown letter) }
{
    if !is_hidden(letter) {
        return shown.push(letter);
    }
    let number = u32::from(letter);
    let escape = format!(in alloc; "\\u{{{number:x}}}")?;
    shown.push_str(escape.as_str())
}

/// Words in which each character that a terminal may act on is escaped, as in `\u{1b}`.
///
/// # Errors
///
/// `AllocError` if a growth is refused.
pub fn visible(alloc: Global, words: &str) -> Result<String, AllocError>
    ensures { IfOk result (λ shown. string_bytes shown ≡ spec.visible words.now) }
{
    let mut shown = String::new(alloc);
    for letter in words.chars() {
        put(alloc, &mut shown, letter)?;
    }
    Ok(shown)
}
