//! Tokens with headers in the place of their names.

ghost use Rattle.std.specs.Prelude.{◌≡◌, ◌≤◌, ◌++◌, IfOk, OnOk, length, map};
ghost use Rattle.flt_c_headers.specs.Candidates.{candidates_if};
ghost use Rattle.flt_c_headers.specs.Inclusions.{inclusion as inclusion_of};
ghost use Rattle.flt_c_headers.specs.Reading as spec;

use crate::answer::{HeaderFiles, first_answer};
use crate::candidates::candidates;
use crate::headers::Headers;
use crate::inclusion::inclusion;
use flt_c_tokens::{Kind, Spellings, Token};
use std::alloc::{AllocError, Global};

fn is_directive(kind: Kind) -> bool
    ensures { result ≡ spec.is_directive kind }
{
    matches!(kind, Kind::Directive)
}

fn is_line_end(kind: Kind) -> bool
    ensures { result ≡ spec.is_line_end kind }
{
    matches!(kind, Kind::LineEnd)
}

/// How many tokens come before the end of a line.
#[tactic(auto, unfolding(crate::specs::Reading::line_length))]
fn line_length(tokens: &[Token]) -> usize
    ensures length { result ≡ spec.line_length tokens.now }
    ensures within { result ≤ length tokens.now }
{
    let mut length = 0;
    let mut rest = tokens;
    while let [token, after @ ..] = rest {
        if is_line_end(token.kind) {
            return length;
        }
        length += 1;
        rest = after;
    }
    length
}

/// The tokens of a line, and those from its end on.
fn parted(tokens: &[Token]) -> (&[Token], &[Token])
    ensures line { result.0.now ≡ spec.line_of tokens.now }
    ensures behind { result.1.now ≡ spec.behind_line tokens.now }
    ensures within { length result.1.now ≤ length tokens.now }
{
    tokens.split_at(line_length(tokens))
}

/// The names under which the header of a line is looked for: none if the line includes none.
fn names_for(
    alloc: Global,
    folders: &[&str],
    spellings: &Spellings,
    name: &[u8],
    file: &[u8],
    line: &[Token],
) -> Result<Vec<Vec<u8>>, AllocError>
    ensures { IfOk result (λ names. map (λ n. n.items) names.items
        ≡ candidates_if (map (λ dir. dir.now) folders.now) name.now (inclusion_of spellings.now file.now line.now)) }
{
    match inclusion(spellings, file, line) {
        Some(found) => candidates(alloc, folders, name, found.in_quotes, found.name),
        None => Ok(Vec::new(alloc)),
    }
}

/// Adds a line with the header that was found for it.
fn add_line(linked: &mut Vec<Token>, found: Option<u32>, line: &[Token]) -> Result<(), AllocError>
    ensures { OnOk result (linked.new.items ≡ linked.old.items ++ spec.with_header found line.now) }
{
    match (found, line) {
        (Some(number), [word, name, ..]) => {
            linked.push(*word)?;
            linked.push(Token {
                kind: Kind::Header,
                word: number,
                ..*name
            })?;
        }
        _ => linked.extend_from_slice(line)?,
    }
    Ok(())
}

/// Adds a line of a file with its header, if that is found.
fn link_line<I: HeaderFiles>(
    alloc: Global,
    inputs: &I,
    folders: &[&str],
    spellings: &Spellings,
    headers: &mut Headers,
    name: &[u8],
    file: &[u8],
    line: &[Token],
    linked: &mut Vec<Token>,
) -> Result<(), AllocError>
    ensures { OnOk result (spec.AddsLine (I.gives inputs.now) (map (λ dir. dir.now) folders.now) name.now file.now spellings.now
        line.now headers.old linked.old.items headers.new linked.new.items) }
{
    let names = names_for(alloc, folders, spellings, name, file, line)?;
    let found = first_answer(alloc, inputs, headers, names.as_slice())?;
    add_line(linked, found, line)
}

/// Tokens of a file of this name with headers in the place of their names.
pub(crate) fn linked<I: HeaderFiles>(
    alloc: Global,
    inputs: &I,
    folders: &[&str],
    spellings: &Spellings,
    headers: &mut Headers,
    name: &[u8],
    file: &[u8],
    tokens: &[Token],
) -> Result<Vec<Token>, AllocError>
    ensures { IfOk result (λ linked. spec.AreLinked (I.gives inputs.now) (map (λ dir. dir.now) folders.now) name.now file.now spellings.now
        tokens.now headers.old linked.items headers.new) }
{
    let mut linked = Vec::new(alloc);
    let mut rest = tokens;
    while let [token, after @ ..] = rest {
        linked.push(*token)?;
        if !is_directive(token.kind) {
            rest = after;
            continue;
        }
        let (line, behind) = parted(after);
        link_line(
            alloc,
            inputs,
            folders,
            spellings,
            headers,
            name,
            file,
            line,
            &mut linked,
        )?;
        rest = behind;
    }
    Ok(linked)
}
