//! Files of one driver: their tokens without directives, by one table of texts, and their items.

ghost use Rattle.std.specs.Prelude.{◌≡◌, [], ◌∷◌, ◌++◌, IfOk, MatchResult, Ok, map};
ghost use Rattle.flt_c_functions.specs.Sources as spec;

use crate::constant::kept;
use crate::words::words_of;
use flt_c_headers::{HeaderFiles, Headers, add_tokens, link};
use flt_c_items::{Item, Words, items};
use flt_c_macros::{Expansion, MacroError, Note, expanded};
use flt_c_tokens::{Excess, Kind, Spellings, Token};
use sqlite_items::Items;
use std::alloc::{AllocError, Global};

/// A file with its tokens, macros expanded, the notes on these, the numbers of the headers that were read in it, its items, and the words
/// that say what these are.
#[derive(Drop)]
pub(crate) struct Source<'a> {
    pub name: &'a str,
    pub words: Words,
    pub tokens: Items<Token>,
    pub notes: Items<Note>,
    pub headers: Items<u32>,
    pub items: Items<Item>,
}

// ---- tokens

/// Adds the tokens of lines, one after the other.
fn add_lines(
    alloc: Global,
    spellings: &mut Spellings,
    lines: &[Vec<u8>],
    found: &mut Vec<Token>,
) -> Result<Result<(), Excess>, AllocError>
    ensures { IfOk result (λ done. MatchResult done
        (λ _. spec.AddsAll spellings.old (map (λ l. l.items) lines.now) found.old.items spellings.new found.new.items)
        (λ excess. spec.AreUnfit spellings.old (map (λ l. l.items) lines.now) excess)) }
{
    let mut rest = lines;
    while let [line, after @ ..] = rest {
        if let Err(excess) = add_tokens(alloc, spellings, line.as_slice(), found)? {
            return Ok(Err(excess));
        }
        rest = after;
    }
    Ok(Ok(()))
}

// ---- languages

/// Whether a file is C++, by its name.
fn is_cpp(name: &[u8]) -> bool
    ensures { result ≡ spec.is_cpp name.now }
{
    name.ends_with(b".cc") || name.ends_with(b".cpp")
}

/// A kind of token, if words of C++ are names.
fn kind_in_c(kind: Kind) -> Kind
    ensures { result ≡ spec.kind_in_c kind }
{
    match kind {
        Kind::CPlusPlus => Kind::Name,
        kind => kind,
    }
}

/// Tokens of C, in which words of C++ are names.
fn in_c(alloc: Global, tokens: &[Token]) -> Result<Vec<Token>, AllocError>
    ensures { IfOk result (λ found. found.items ≡ map spec.in_c tokens.now) }
{
    let mut found = Vec::new(alloc);
    for token in tokens {
        let kind = kind_in_c(token.kind);
        found.push(Token { kind, ..*token })?;
    }
    Ok(found)
}

/// The same of the tokens of headers.
fn headers_in_c(alloc: Global, headers: &[Items<Token>]) -> Result<Vec<Items<Token>>, AllocError>
    ensures { IfOk result (λ found. found.items ≡ map (map spec.in_c) headers.now) }
{
    let mut found = Vec::new(alloc);
    for tokens in headers {
        let in_c = in_c(alloc, tokens.as_slice())?;
        found.push(Items::from_vec(in_c))?;
    }
    Ok(found)
}

// ---- files

/// Macros of some tokens are expanded, but for names of constants; or why they aren't.
fn expand(
    alloc: Global,
    spellings: &mut Spellings,
    headers: &[Items<Token>],
    tokens: &[Token],
) -> Result<Result<Expansion, Excess>, AllocError>
    ensures { IfOk result (λ done. MatchResult done
        (λ found. spec.expanded spellings.old headers.now tokens.now ≡ Ok (spellings.new, found))
        (λ excess. spec.IsPlace (spec.expanded spellings.old headers.now tokens.now) excess)) }
{
    let kept = kept(alloc, spellings, headers, tokens)?;
    match expanded(alloc, spellings, kept.as_slice(), headers, tokens) {
        Ok(found) => Ok(Ok(found)),
        Err(MacroError::TooManySpellings { line, column }) => {
            Ok(Err(Excess::TooManySpellings { line, column }))
        }
        Err(MacroError::OutOfMemory) => Err(AllocError),
    }
}

/// Tokens of a file of this name without directives.
#[tactic(auto, unfolding(crate::specs::Sources::expansion))]
fn expand_in_language(
    alloc: Global,
    spellings: &mut Spellings,
    headers: &Headers,
    name: &str,
    tokens: Vec<Token>,
) -> Result<Result<Expansion, Excess>, AllocError>
    ensures { IfOk result (λ done. MatchResult done
        (λ found. spec.Gives name.now tokens.items (record { texts = spellings.old; headers = headers.now }) spellings.new found)
        (λ excess. spec.Stops name.now tokens.items (record { texts = spellings.old; headers = headers.now }) excess)) }
{
    if is_cpp(name.as_bytes()) {
        return expand(alloc, spellings, headers.tokens(), tokens.as_slice());
    }
    let tokens = in_c(alloc, tokens.as_slice())?;
    let headers = headers_in_c(alloc, headers.tokens())?;
    expand(alloc, spellings, headers.as_slice(), tokens.as_slice())
}

/// The tokens of lines, and then of a file of this name with headers in the place of their names, or why there are none.
fn linked<I: HeaderFiles>(
    alloc: Global,
    inputs: &I,
    folders: &[&str],
    spellings: &mut Spellings,
    headers: &mut Headers,
    lines: &[Vec<u8>],
    name: &str,
    file: &[u8],
) -> Result<Result<Vec<Token>, Excess>, AllocError>
    ensures { IfOk result (λ done. MatchResult done
        (λ found. spec.Links (I.gives inputs.now) (map (λ folder. folder.now) folders.now) (map (λ l. l.items) lines.now)
        (record { texts = spellings.old; headers = headers.old }) name.now file.now found.items
        (record { texts = spellings.new; headers = headers.new }))
        (λ excess. spec.IsUnread (I.gives inputs.now) (map (λ folder. folder.now) folders.now) (map (λ l. l.items) lines.now)
        (record { texts = spellings.old; headers = headers.old }) name.now file.now excess)) }
{
    let mut found = Vec::new(alloc);
    if let Err(excess) = add_lines(alloc, spellings, lines, &mut found)? {
        return Ok(Err(excess));
    }
    let mut own = Vec::new(alloc);
    if let Err(excess) = add_tokens(alloc, spellings, file, &mut own)? {
        return Ok(Err(excess));
    }
    let linked = link(
        alloc,
        inputs,
        folders,
        spellings,
        headers,
        name,
        file,
        own.as_slice(),
    )?;
    match linked {
        Err(excess) => Ok(Err(excess)),
        Ok(own) => {
            found.extend_from_slice(own.as_slice())?;
            Ok(Ok(found))
        }
    }
}

/// The tokens of a file of this name after some lines, without directives, or why there are none.
fn read<I: HeaderFiles>(
    alloc: Global,
    inputs: &I,
    folders: &[&str],
    spellings: &mut Spellings,
    headers: &mut Headers,
    lines: &[Vec<u8>],
    name: &str,
    file: &[u8],
) -> Result<Result<Expansion, Excess>, AllocError>
    ensures { IfOk result (λ done. MatchResult done
        (λ found. spec.Expands (I.gives inputs.now) (map (λ folder. folder.now) folders.now) (map (λ l. l.items) lines.now)
        (record { texts = spellings.old; headers = headers.old }) name.now file.now
        (record { texts = spellings.new; headers = headers.new }) found)
        (λ excess. spec.IsUnread (I.gives inputs.now) (map (λ folder. folder.now) folders.now) (map (λ l. l.items) lines.now)
        (record { texts = spellings.old; headers = headers.old }) name.now file.now excess)) }
{
    match linked(
        alloc, inputs, folders, spellings, headers, lines, name, file,
    )? {
        Err(excess) => Ok(Err(excess)),
        Ok(tokens) => expand_in_language(alloc, spellings, headers, name, tokens),
    }
}

/// A file of this name, of which this is read.
fn source_of<'a>(
    alloc: Global,
    spellings: &Spellings,
    name: &'a str,
    read: Expansion,
) -> Result<Source<'a>, AllocError>
    ensures { IfOk result (λ source. spec.IsSource spellings.now name.entry.now read source) }
{
    let words = words_of(spellings);
    let items = items(alloc, &words, read.tokens.as_slice())?;
    Ok(Source {
        name,
        words,
        tokens: read.tokens,
        notes: read.notes,
        headers: read.headers,
        items: Items::from_vec(items),
    })
}

/// Reads a file of this name and adds it to those before it, or says why it isn't read.
fn add_source<'a, I: HeaderFiles>(
    alloc: Global,
    inputs: &I,
    folders: &[&str],
    spellings: &mut Spellings,
    headers: &mut Headers,
    lines: &[Vec<u8>],
    name: &'a str,
    file: &[u8],
    found: &mut Vec<Source<'a>>,
) -> Result<Result<(), Excess>, AllocError>
    ensures { IfOk result (λ done. MatchResult done
        (λ _. spec.AddsSource (I.gives inputs.now) (map (λ folder. folder.now) folders.now) (map (λ l. l.items) lines.now)
        (record { texts = spellings.old; headers = headers.old }) name.entry.now file.now found.old.items
        (record { texts = spellings.new; headers = headers.new }) found.new.items)
        (λ excess. spec.IsUnread (I.gives inputs.now) (map (λ folder. folder.now) folders.now) (map (λ l. l.items) lines.now)
        (record { texts = spellings.old; headers = headers.old }) name.entry.now file.now excess)) }
{
    match read(
        alloc, inputs, folders, spellings, headers, lines, name, file,
    )? {
        Err(excess) => Ok(Err(excess)),
        Ok(read) => {
            let source = source_of(alloc, spellings, name, read)?;
            found.push(source)?;
            Ok(Ok(()))
        }
    }
}

/// The name of a number.
fn name_at<'a>(names: &[&'a str], number: usize) -> &'a str
    ensures { result.now ≡ spec.name_at (map (λ name. name.now) names.now) number }
{
    match names.get(number) {
        Some(name) => name,
        None => "",
    }
}

/// Files of these names after the same lines, or the first that isn't read, by its number from 0, and why.
pub(crate) fn read_sources<'a, I: HeaderFiles>(
    alloc: Global,
    inputs: &I,
    folders: &[&str],
    spellings: &mut Spellings,
    headers: &mut Headers,
    lines: &[Vec<u8>],
    names: &[&'a str],
    files: &[Vec<u8>],
) -> Result<Result<Vec<Source<'a>>, (usize, Excess)>, AllocError>
    ensures { IfOk result (λ done. MatchResult done
        (λ found. spec.AreRead (I.gives inputs.now) (map (λ folder. folder.now) folders.now) (map (λ l. l.items) lines.now)
        (map (λ name. name.now) names.now) 0 (record { texts = spellings.old; headers = headers.old })
        (map (λ file. file.items) files.now) (record { texts = spellings.new; headers = headers.new }) found.items)
        (λ stopped. spec.IsFirstUnread (I.gives inputs.now) (map (λ folder. folder.now) folders.now) (map (λ l. l.items) lines.now)
        (map (λ name. name.now) names.now) 0 (record { texts = spellings.old; headers = headers.old })
        (map (λ file. file.items) files.now) stopped.0 stopped.1)) }
{
    let mut found = Vec::new(alloc);
    let mut at: usize = 0;
    let mut rest = files;
    while let [file, after @ ..] = rest {
        let name = name_at(names, at);
        if let Err(excess) = add_source(
            alloc,
            inputs,
            folders,
            spellings,
            headers,
            lines,
            name,
            file.as_slice(),
            &mut found,
        )? {
            return Ok(Err((at, excess)));
        }
        at += 1;
        rest = after;
    }
    Ok(Ok(found))
}
