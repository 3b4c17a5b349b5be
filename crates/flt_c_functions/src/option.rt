//! Options as lines of directives.

ghost use Rattle.std.specs.Prelude.{◌≡◌, ◌++◌, IfOk, OnOk, map};
ghost use Rattle.flt_c_functions.specs.Options as spec;

use crate::line::put;
use std::alloc::{AllocError, Global};

/// The macros that are defined before each file, the names of none, and the folders of headers.
#[derive(Clone, Copy)]
pub struct Options<'a> {
    /// The definitions, in order: NAME, which is then 1, or NAME=VALUE.
    pub defined: &'a [&'a str],
    /// The names that are no macros. They count after the definitions.
    pub undefined: &'a [&'a str],
    /// The folders in which headers are looked for, in order.
    pub folders: &'a [&'a str],
}

/// Adds a definition, with a blank in place of its first `=`.
fn put_value(out: &mut Vec<u8>, text: &[u8]) -> Result<(), AllocError>
    ensures { OnOk result (out.new.items ≡ out.old.items ++ spec.with_value text.now) }
{
    let mut rest = text;
    while let [byte, after @ ..] = rest {
        if *byte == b'=' {
            out.push(b' ')?;
            return put(out, after);
        }
        out.push(*byte)?;
        rest = after;
    }
    put(out, b" 1")
}

/// The line of a definition.
fn define_line(alloc: Global, text: &[u8]) -> Result<Vec<u8>, AllocError>
    ensures { IfOk result (λ line. line.items ≡ spec.define_line text.now) }
{
    let mut line = Vec::from_slice(alloc, b"#define ")?;
    put_value(&mut line, text)?;
    put(&mut line, b"\n")?;
    Ok(line)
}

/// The line that says that a name is no macro.
fn undef_line(alloc: Global, text: &[u8]) -> Result<Vec<u8>, AllocError>
    ensures { IfOk result (λ line. line.items ≡ spec.undef_line text.now) }
{
    let mut line = Vec::from_slice(alloc, b"#undef ")?;
    put(&mut line, text)?;
    put(&mut line, b"\n")?;
    Ok(line)
}

/// Adds the lines of definitions.
fn add_defined(alloc: Global, texts: &[&str], lines: &mut Vec<Vec<u8>>) -> Result<(), AllocError>
    ensures { OnOk result (map (λ l. l.items) lines.new.items ≡
        map (λ l. l.items) lines.old.items ++ map spec.define_line (map (λ z. z.now) texts.now)) }
{
    for text in texts {
        let line = define_line(alloc, text.as_bytes())?;
        lines.push(line)?;
    }
    Ok(())
}

/// Adds the lines of names that are no macros.
fn add_undefined(alloc: Global, texts: &[&str], lines: &mut Vec<Vec<u8>>) -> Result<(), AllocError>
    ensures { OnOk result (map (λ l. l.items) lines.new.items ≡
        map (λ l. l.items) lines.old.items ++ map spec.undef_line (map (λ z. z.now) texts.now)) }
{
    for text in texts {
        let line = undef_line(alloc, text.as_bytes())?;
        lines.push(line)?;
    }
    Ok(())
}

/// The lines of options, in order.
pub(crate) fn lines_of(alloc: Global, options: Options<'_>) -> Result<Vec<Vec<u8>>, AllocError>
    ensures { IfOk result (λ lines. map (λ l. l.items) lines.items ≡ spec.lines_by options.entry) }
{
    let mut lines = Vec::new(alloc);
    add_defined(alloc, options.defined, &mut lines)?;
    add_undefined(alloc, options.undefined, &mut lines)?;
    Ok(lines)
}
