//! Places in files and in their headers.

ghost use Rattle.std.specs.Prelude.{◌≡◌, OnOk};
ghost use Rattle.flt_c_functions.specs.Places as spec;

use flt_c_headers::Headers;
use flt_c_tokens::Token;
use sqlite_items::Items;
use std::alloc::AllocError;

/// The name of the file where a token is: that of a header, or of the file for which it was read.
pub(crate) fn file_name<'a>(headers: &'a Headers, name: &'a str, token: Token) -> &'a [u8]
    ensures { result.now ≡ spec.file_name headers.now.files name.entry.now token }
{
    match headers.header_at(token.start) {
        None => name.as_bytes(),
        Some(number) => match headers.name(number) {
            None => b"",
            Some(name) => name,
        },
    }
}

/// Whether a number is one of these.
fn is_among(numbers: &[u32], number: usize) -> bool
    ensures { result ≡ spec.is_among numbers.now number }
{
    for other in numbers {
        if *other as usize == number {
            return true;
        }
    }
    false
}

/// Whether a token is in a header whose items are listed already.
pub(crate) fn is_told(headers: &Headers, told: &[u32], token: Token) -> bool
    ensures { result ≡ spec.is_told headers.now.files told.now token }
{
    match headers.header_at(token.start) {
        None => false,
        Some(number) => is_among(told, number),
    }
}

/// Adds a number, unless it is there.
fn add_number(numbers: &mut Items<u32>, number: u32) -> Result<(), AllocError>
    ensures { OnOk result (numbers.new ≡ spec.with_number numbers.old number) }
{
    if is_among(numbers.as_slice(), number as usize) {
        return Ok(());
    }
    numbers.push(number)
}

/// Adds the headers that were read in a file to those that are listed.
pub(crate) fn tell(told: &mut Items<u32>, headers: &[u32]) -> Result<(), AllocError>
    ensures { OnOk result (told.new ≡ spec.told_behind told.old headers.now) }
{
    for number in headers {
        add_number(told, *number)?;
    }
    Ok(())
}
