//! The class of each word: whether a `typedef` gives it, or else its look.

ghost use Rattle.std.specs.Prelude.{◌≡◌, ◌++◌, map, slice_set, IfOk, OnOk};
ghost use Rattle.flt_c_functions.specs.Classes as spec;

use crate::source::Source;
use crate::text::text_at;
use flt_c_items::{Item, Part};
use flt_c_syntax::Class;
use flt_c_tokens::Spellings;
use std::alloc::{AllocError, Global};

// ---- type names

/// Adds the names that an item's `typedef` gives.
fn add_names(part: &Part, found: &mut Vec<u32>) -> Result<(), AllocError>
    ensures { OnOk result (found.new.items ≡ found.old.items ++ spec.names_of part.now) }
{
    match part {
        Part::Types(names) => found.extend_from_slice(names.as_slice()),
        _ => Ok(()),
    }
}

/// Adds those of all items of a file.
fn add_names_in(items: &[Item], found: &mut Vec<u32>) -> Result<(), AllocError>
    ensures { OnOk result (found.new.items ≡ found.old.items ++ spec.names_in items.now) }
{
    let mut rest = items;
    while let [item, after @ ..] = rest {
        add_names(&item.part, found)?;
        rest = after;
    }
    Ok(())
}

/// The names that the files' `typedef`s give.
pub(crate) fn type_names(alloc: Global, sources: &[Source<'_>]) -> Result<Vec<u32>, AllocError>
    ensures { IfOk result (λ found. found.items ≡ spec.type_names sources.now) }
{
    let mut found = Vec::new(alloc);
    let mut rest = sources;
    while let [source, after @ ..] = rest {
        add_names_in(source.items.as_slice(), &mut found)?;
        rest = after;
    }
    Ok(found)
}

// ---- looks

fn is_capital_byte(byte: u8) -> bool
    ensures { result ≡ spec.is_capital_byte byte }
{
    byte.is_ascii_uppercase() || byte.is_ascii_digit() || byte == b'_'
}

/// How many capitals a word has.
fn capitals(text: &[u8]) -> usize
    ensures { result ≡ spec.capitals text.now }
{
    text.iter().filter(|byte| byte.is_ascii_uppercase()).count()
}

/// Whether a word has capitals, digits and `_` alone.
fn is_upper(text: &[u8]) -> bool
    ensures { result ≡ spec.is_upper text.now }
{
    text.iter().all(|byte| is_capital_byte(*byte))
}

/// Whether a word has at least two capitals, with digits and `_` alone.
fn is_capital(text: &[u8]) -> bool
    ensures { result ≡ spec.is_capital text.now }
{
    is_upper(text) && 1 < capitals(text)
}

/// The class of a word that no `typedef` gives.
fn look(text: &[u8]) -> Class
    ensures { result ≡ spec.look text.now }
{
    if is_capital(text) {
        Class::Capital
    } else {
        Class::Plain
    }
}

/// The class of each word by its look.
#[tactic(auto, using(crate::proofs::Marks::look_more))]
fn looks(alloc: Global, spellings: &Spellings) -> Result<Vec<Class>, AllocError>
    ensures { IfOk result (λ found. found.items ≡ map spec.look spellings.now) }
{
    let mut found = Vec::new(alloc);
    let count = spellings.len();
    for number in 0..count {
        found.push(look(text_at(spellings, number as u32)))?;
    }
    Ok(found)
}

// ---- classes

/// Makes a word a type, if there is one of this number.
#[tactic(auto, using(crate::proofs::Marks::mark_none))]
fn mark_one(found: &mut Vec<Class>, name: u32)
    ensures { found.new.items ≡ slice_set found.old.items name Class.Type }
{
    let name = name as usize;
    if name < found.len() {
        found[name] = Class::Type;
    }
}

/// Makes words types, by their numbers.
fn mark(found: &mut Vec<Class>, types: &[u32])
    ensures { found.new.items ≡ spec.marked types.now found.old.items }
{
    let mut rest = types;
    while let [name, after @ ..] = rest {
        mark_one(found, *name);
        rest = after;
    }
}

/// The class of each word by its number: a type if it is one of these names, and else by its look.
#[tactic(auto, using(crate::proofs::Marks::marked_looks))]
pub(crate) fn classes(
    alloc: Global,
    spellings: &Spellings,
    types: &[u32],
) -> Result<Vec<Class>, AllocError>
    ensures { IfOk result (λ found. found.items ≡ spec.classes types.now spellings.now) }
{
    let mut found = looks(alloc, spellings)?;
    mark(&mut found, types);
    Ok(found)
}
