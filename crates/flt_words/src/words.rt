//! Reads the words of a command line as a request.

ghost use Rattle.std.specs.Prelude.{◌≡◌, ◌↔◌, Some, IfOk, IsTrue, map, string_bytes};
ghost use Rattle.flt_words.specs.Request.{Serve, asked_of};
ghost use Rattle.flt_words.specs.Words as spec;

use crate::commands::matched;
use crate::program::{program, program_for};
use crate::request::Request;
use crate::shown::visible;
use clap::error::ErrorKind;
use std::alloc::{AllocError, Global};

/// The error for malformed words if `clap` reports none for them.
const NO_WORDS: &str = "error: these words can't be taken\n\nFor more information, try '--help'.\n";

fn is_memory(kind: ErrorKind) -> bool
    ensures { result ≡ spec.is_memory kind }
{
    matches!(kind, ErrorKind::OutOfMemory)
}

/// The request of some words, of which this one is the first.
fn take_words<'a>(
    alloc: Global,
    first: &str,
    words: &'a [String],
) -> Result<Request<'a>, AllocError>
    requires first { spec.IsFirst first.now (map string_bytes words.now) }
    ensures { IfOk result (λ r. asked_of r ≡ spec.asked_words (map string_bytes words.entry.now)) }
{
    match program_for(alloc, first)?.try_get_matches_from(words) {
        Ok(matches) => matched(alloc, &matches),
        Err(error) => {
            if is_memory(error.kind()) {
                return Err(AllocError);
            }
            Ok(Request::Usage(usage(alloc, words)?))
        }
    }
}

/// The text to print for words that are malformed, or request help or the version. `clap` makes it from the words as they are shown, so
/// that a terminal acts on none of them.
fn usage(alloc: Global, words: &[String]) -> Result<String, AllocError> {
    let mut shown = Vec::new(alloc);
    for word in words {
        let word = visible(alloc, word.as_str())?;
        shown.push(word)?;
    }
    match program(alloc)?.try_get_matches_from(shown.as_slice()) {
        Ok(_) => String::from_str(alloc, NO_WORDS),
        Err(error) => {
            if is_memory(error.kind()) {
                return Err(AllocError);
            }
            format!(in alloc; "{error}")
        }
    }
}

/// Reads a program's words without its own name. If there are none, the request is a check of the standard input.
///
/// # Errors
///
/// `AllocError` if a growth is refused.
pub fn read_words<'a>(alloc: Global, words: &'a [String]) -> Result<Request<'a>, AllocError>
    ensures { IfOk result (λ r. asked_of r ≡ spec.asked (map string_bytes words.entry.now)) }
{
    match words {
        [] => Ok(Request::Check {
            file: "-",
            cert: None,
        }),
        [first, ..] => take_words(alloc, first.as_str(), words),
    }
}

fn begins_with(words: &[String], word: &str) -> bool
    ensures { IsTrue result ↔ spec.BeginWith word.now (map string_bytes words.now) }
{
    match words {
        [first, ..] => first.as_str() == word,
        [] => false,
    }
}

fn is_serve(request: &Request) -> bool
    ensures { IsTrue result ↔ (asked_of request.now ≡ Some Serve) }
{
    matches!(request, Request::Serve)
}

/// Whether a program's words ask for a server and `serve` is the first of them. Words that begin otherwise aren't read for it.
///
/// # Errors
///
/// `AllocError` if a growth is refused.
pub fn ask_to_serve(alloc: Global, words: &[String]) -> Result<bool, AllocError>
    ensures { IfOk result (λ is. IsTrue is ↔ spec.AskToServe (map string_bytes words.now)) }
{
    if !begins_with(words, "serve") {
        return Ok(false);
    }
    let request = read_words(alloc, words)?;
    Ok(is_serve(&request))
}
