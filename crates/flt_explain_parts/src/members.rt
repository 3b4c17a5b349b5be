//! Members of JSON objects.

ghost use Rattle.std.specs.Prelude.{[], ◌∷◌, map};
ghost use Rattle.std.specs.Str.Lossy.{utf8_lossy};
ghost use Rattle.json.specs.Token.{begin_array, begin_object, end_array, end_object, key, string};
ghost use Rattle.flt_explain_parts.specs.Members as spec;

use json::Writer;
use sqlite_items::Items;
use std::alloc::{AllocError, Global};

/// Begins an object.
pub fn open_object(writer: &mut Writer) -> Result<(), AllocError>
    ensures { spec.Adds result writer.old writer.new (begin_object ∷ []) }
{
    writer.begin_object()
}

/// Ends the object that was begun last.
pub fn close_object(writer: &mut Writer) -> Result<(), AllocError>
    ensures { spec.Adds result writer.old writer.new (end_object ∷ []) }
{
    writer.end_object()
}

/// Begins an array.
pub fn open_array(writer: &mut Writer) -> Result<(), AllocError>
    ensures { spec.Adds result writer.old writer.new (begin_array ∷ []) }
{
    writer.begin_array()
}

/// Ends the array that was begun last.
pub fn close_array(writer: &mut Writer) -> Result<(), AllocError>
    ensures { spec.Adds result writer.old writer.new (end_array ∷ []) }
{
    writer.end_array()
}

/// Writes the name of a member, whose value comes next.
pub fn put_key(writer: &mut Writer, name: &str) -> Result<(), AllocError>
    ensures { spec.Adds result writer.old writer.new (key name.now ∷ []) }
{
    writer.key(name)
}

/// Writes a member whose value is a text.
pub fn put_string(writer: &mut Writer, name: &str, text: &str) -> Result<(), AllocError>
    ensures { spec.Adds result writer.old writer.new (spec.string_member name.now text.now) }
{
    writer.key(name)?;
    writer.string(text)
}

/// The same for bytes; those that aren't UTF-8 become U+FFFD.
pub fn put_text(
    alloc: Global,
    writer: &mut Writer,
    name: &str,
    bytes: &Vec<u8>,
) -> Result<(), AllocError>
    ensures { spec.Adds result writer.old writer.new (spec.text_member name.now bytes.now.items) }
{
    let text = String::from_utf8_lossy(alloc, bytes.as_slice())?;
    put_string(writer, name, text.as_str())
}

/// Writes a member whose value is a number.
pub fn put_number(writer: &mut Writer, name: &str, number: usize) -> Result<(), AllocError>
    ensures { spec.Adds result writer.old writer.new (spec.number_member name.now number) }
{
    writer.key(name)?;
    writer.u64(number as u64)
}

/// Writes a member whose value is null.
pub fn put_null(writer: &mut Writer, name: &str) -> Result<(), AllocError>
    ensures { spec.Adds result writer.old writer.new (spec.null_member name.now) }
{
    writer.key(name)?;
    writer.null()
}

/// Writes a member whose value is a text, or null if it is empty; bytes that aren't UTF-8 become U+FFFD.
pub fn put_filled(
    alloc: Global,
    writer: &mut Writer,
    name: &str,
    bytes: &Vec<u8>,
) -> Result<(), AllocError>
    ensures { spec.Adds result writer.old writer.new (spec.filled_member name.now bytes.now.items) }
{
    match bytes.as_slice() {
        [] => put_null(writer, name),
        [_, ..] => put_text(alloc, writer, name, bytes),
    }
}

/// Writes a member whose value is a text; bytes that aren't UTF-8 become U+FFFD.
pub fn put_items(
    alloc: Global,
    writer: &mut Writer,
    name: &str,
    bytes: &Items<u8>,
) -> Result<(), AllocError>
    ensures { spec.Adds result writer.old writer.new (spec.text_member name.now bytes.now) }
{
    let text = String::from_utf8_lossy(alloc, bytes.as_slice())?;
    put_string(writer, name, text.as_str())
}

/// The same, with null for an empty text.
pub fn put_filled_items(
    alloc: Global,
    writer: &mut Writer,
    name: &str,
    bytes: &Items<u8>,
) -> Result<(), AllocError>
    ensures { spec.Adds result writer.old writer.new (spec.filled_member name.now bytes.now) }
{
    match bytes.as_slice() {
        [] => put_null(writer, name),
        [_, ..] => put_items(alloc, writer, name, bytes),
    }
}

fn put_item(alloc: Global, writer: &mut Writer, bytes: &[u8]) -> Result<(), AllocError>
    ensures { spec.Adds result writer.old writer.new (string (utf8_lossy bytes.now) ∷ []) }
{
    let text = String::from_utf8_lossy(alloc, bytes)?;
    writer.string(text.as_str())
}

/// Writes a member whose value is bytes; null if there are none.
pub fn put_bytes(
    alloc: Global,
    writer: &mut Writer,
    name: &str,
    bytes: Option<&[u8]>,
) -> Result<(), AllocError>
    ensures { spec.Adds result writer.old writer.new (spec.bytes_member name.now bytes.entry) }
{
    match bytes {
        None => put_null(writer, name),
        Some(bytes) => {
            put_key(writer, name)?;
            put_item(alloc, writer, bytes)
        }
    }
}

/// Writes a member whose value is texts, in order.
pub fn put_texts(
    alloc: Global,
    writer: &mut Writer,
    name: &str,
    texts: &[&[u8]],
) -> Result<(), AllocError>
    ensures { spec.Adds result writer.old writer.new
        (spec.array_member name.now (spec.text_items (map (λ text. text.now) texts.now))) }
{
    put_key(writer, name)?;
    open_array(writer)?;
    for text in texts {
        put_item(alloc, writer, text)?;
    }
    close_array(writer)
}
