//! The space between items.

ghost use Rattle.flt_layout.specs.Items as items;
ghost use Rattle.flt_layout.specs.Layout as spec;
ghost use Rattle.std.specs.Prelude.{◌≡◌, ◌++◌, OnOk};

use std::alloc::AllocError;

/// Where an item is, from the item before it.
#[derive(Clone, Copy)]
pub enum Space {
    /// No item is before it.
    First,
    /// On the same line.
    Beside,
    /// On a line further down.
    Below,
    /// Below a blank line.
    Apart,
}

/// A byte further on.
pub fn moved(b: u8, space: Space) -> Space
    ensures { result ≡ items.moved b space }
{
    if b != b'\n' {
        return space;
    }
    match space {
        Space::First => Space::First,
        Space::Beside => Space::Below,
        Space::Below | Space::Apart => Space::Apart,
    }
}

/// The beginning of the next line.
fn new_line(out: &mut Vec<u8>, level: usize) -> Result<(), AllocError>
    ensures { OnOk result (out.new.items ≡ out.old.items ++ spec.new_line level) }
{
    out.push(b'\n')?;
    for _at in 0..level {
        out.extend_from_slice(b"  ")?;
    }
    Ok(())
}

/// The space before an item.
pub fn gap(out: &mut Vec<u8>, space: Space, level: usize) -> Result<(), AllocError>
    ensures { OnOk result (out.new.items ≡ out.old.items ++ spec.gap space level) }
{
    match space {
        Space::First => Ok(()),
        Space::Beside => {
            out.push(b' ')?;
            Ok(())
        }
        Space::Below => new_line(out, level),
        Space::Apart => {
            out.push(b'\n')?;
            new_line(out, level)
        }
    }
}
