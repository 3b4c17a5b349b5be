//! Writes lines of words.

ghost use Rattle.flt_print.specs.Line as spec;
ghost use Rattle.flt_print.specs.Vocabulary.{spelling};
ghost use Rattle.std.specs.Prelude.{◌≡◌, ◌<◌, ◌+◌, [], ◌∷◌, ◌++◌, decimal, OnOk};

use crate::vocabulary;
use flt_syntax::Kind;
use itoa::Buffer;
use std::alloc::AllocError;

/// The beginning of a line at a level, with its first word.
pub fn begin(out: &mut Vec<u8>, level: usize, word: Kind) -> Result<(), AllocError>
    ensures { OnOk result (out.new.items ≡ out.old.items ++ (spec.indentation level ++ spelling word)) }
{
    for _at in 0..level {
        out.extend_from_slice(b"  ")?;
    }
    out.extend_from_slice(vocabulary::spelling(word))
}

/// A word of the grammar after others.
pub fn word(out: &mut Vec<u8>, word: Kind) -> Result<(), AllocError>
    ensures { OnOk result (out.new.items ≡ out.old.items ++ 32 ∷ spelling word) }
{
    name(out, vocabulary::spelling(word))
}

/// A name after other words.
pub fn name(out: &mut Vec<u8>, name: &[u8]) -> Result<(), AllocError>
    ensures { OnOk result (out.new.items ≡ out.old.items ++ 32 ∷ name.now) }
{
    out.push(b' ')?;
    out.extend_from_slice(name)
}

/// The digits of a number.
fn digits(out: &mut Vec<u8>, n: u64) -> Result<(), AllocError>
    ensures { OnOk result (out.new.items ≡ out.old.items ++ decimal n) }
{
    let mut buffer = Buffer::new();
    out.extend_from_slice(buffer.format(n).as_bytes())
}

/// A number after other words.
pub fn number(out: &mut Vec<u8>, n: u64) -> Result<(), AllocError>
    ensures { OnOk result (out.new.items ≡ out.old.items ++ 32 ∷ decimal n) }
{
    out.push(b' ')?;
    digits(out, n)
}

/// The end of a line.
pub fn end(out: &mut Vec<u8>) -> Result<(), AllocError>
    ensures { OnOk result (out.new.items ≡ out.old.items ++ 10 ∷ []) }
{
    out.push(b'\n')?;
    Ok(())
}
