//! A name that doesn't occur in a text.

ghost use Rattle.std.specs.Prelude.{◌≡◌, ◌≤◌, [], ◌∷◌, ◌++◌, length, IfOk};
ghost use Rattle.flt_explain_hints.specs.Names as spec;
ghost use Rattle.flt_rules.specs.Limits.{max_text};

use std::alloc::{AllocError, Global};

/// The number of times that bytes occur in a text.
fn occurrences(text: &[u8], word: &[u8]) -> usize
    ensures value { result ≡ spec.occurrences word.now text.now }
    ensures few { result ≤ length text.now }
{
    let mut found: usize = 0;
    let mut rest = text;
    while let [_, behind @ ..] = rest {
        if rest.starts_with(word) {
            found += 1;
        }
        rest = behind;
    }
    found
}

/// A name with a letter after it.
fn with_letter(alloc: Global, name: &[u8], letter: u8) -> Result<Vec<u8>, AllocError>
    ensures { IfOk result (λ v. v.items ≡ name.now ++ letter ∷ []) }
{
    let mut longer = Vec::new(alloc);
    longer.extend_from_slice(name)?;
    longer.push(letter)?;
    Ok(longer)
}

/// A name with a letter after it: the one with which it occurs in a text less often.
fn rarer(alloc: Global, text: &[u8], name: &[u8]) -> Result<Vec<u8>, AllocError>
    ensures { IfOk result (λ v. spec.IsRarer text.now name.now v.items) }
{
    let one = with_letter(alloc, name, b'a')?;
    let other = with_letter(alloc, name, b'b')?;
    let with_one = occurrences(text, one.as_slice());
    let with_other = occurrences(text, other.as_slice());
    if with_one <= with_other {
        Ok(one)
    } else {
        Ok(other)
    }
}

/// A name that doesn't occur in a text: each further letter at least halves how often it occurs.
pub(crate) fn new_name(alloc: Global, text: &[u8]) -> Result<Vec<u8>, AllocError>
    requires { length text.now ≤ max_text }
    ensures { IfOk result (λ v. spec.IsNew text.now v.items) }
{
    let mut name = with_letter(alloc, &[], b'_')?;
    while occurrences(text, name.as_slice()) > 0 {
        name = rarer(alloc, text, name.as_slice())?;
    }
    Ok(name)
}
