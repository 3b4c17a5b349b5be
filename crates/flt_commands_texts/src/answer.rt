//! The answers of the commands on texts and C files, and how they are written.

ghost use Rattle.std.specs.Prelude.{◌≡◌, Some, IfOk, string_bytes};
ghost use Rattle.flt_commands_texts.specs.Answer as spec;

use crate::comparison::{Comparison, comparison_status, printed_comparison};
use crate::driver::{Driver, driver_status};
use crate::emit::EmitFault;
use crate::outcomes::{Outcomes, files_status, printed_files};
use flt_c_functions::Listing;
use flt_files::status_beside;
use flt_rules::Refusal;
use flt_words::FormatMode;
use std::alloc::{AllocError, Global};
use std::fmt;

/// The answer of a command on texts or C files.
#[derive(Drop)]
pub enum TextAnswer {
    /// The certificate covers the text.
    Accepted,
    /// A point of the text is refused.
    Refused(Refusal),
    /// A certificate that covers the text, thinned, as it is written.
    Certificate(Vec<u8>),
    /// The text of the annotations of C files, or where its lines begin.
    Extracted(Vec<u8>),
    /// The outcomes of files that are laid out, and where their layouts go.
    Formatted(FormatMode, Outcomes),
    /// A part of the driver that an accepted text is.
    Emitted(Vec<u8>),
    /// Why an accepted text can't be emitted.
    NotEmitted(EmitFault),
    /// The parts of the driver that an accepted text is are written, as far as that could be done.
    EmittedInto(Driver),
    /// The comparison of C files with their annotations.
    Compared(Comparison),
    /// The functions and tables of C files.
    Listed(Listing),
}

/// The exit status of a listing: 1 if something isn't read.
fn listing_status(is_whole: bool) -> u8
    ensures { result ≡ spec.listing_status is_whole }
{
    if is_whole { 0 } else { 1 }
}

impl TextAnswer {
    /// The exit status: 0 for yes, 1 for no, and 2 if a file isn't read, has no layout or isn't written.
    pub fn status(&self) -> u8
        ensures { result ≡ spec.status_of self.now }
    {
        match self {
            TextAnswer::Accepted | TextAnswer::Certificate(_) => 0,
            TextAnswer::Extracted(_) | TextAnswer::Emitted(_) => 0,
            TextAnswer::EmittedInto(driver) => driver_status(&driver.outcome),
            TextAnswer::Formatted(mode, found) => {
                let status = files_status(*mode, found.files.as_slice());
                status_beside(status, found.unread.as_slice())
            }
            TextAnswer::Refused(_) | TextAnswer::NotEmitted(_) => 1,
            TextAnswer::Compared(found) => comparison_status(found),
            TextAnswer::Listed(found) => listing_status(found.is_whole),
        }
    }

    /// The bytes for the standard output: the certificate, the texts, the reports, a part of a driver, or a line.
    pub fn output(self, alloc: Global) -> Result<Vec<u8>, AllocError>
        ensures { IfOk result (λ bytes. bytes.items ≡ spec.output self) }
    {
        let line = match self {
            TextAnswer::Certificate(bytes) => return Ok(bytes),
            TextAnswer::Extracted(bytes) => return Ok(bytes),
            TextAnswer::Emitted(bytes) => return Ok(bytes),
            TextAnswer::EmittedInto(_) => return Ok(Vec::new(alloc)),
            TextAnswer::Compared(found) => return printed_comparison(alloc, found),
            TextAnswer::Listed(found) => return Ok(found.text),
            TextAnswer::Formatted(mode, found) => {
                return printed_files(alloc, mode, found.files.as_slice());
            }
            TextAnswer::Accepted => String::from_str(alloc, "accepted\n")?,
            TextAnswer::Refused(refusal) => { format!(in alloc; "refused {refusal}\n")? }
            TextAnswer::NotEmitted(why) => {
                let line = unemitted_line(alloc, why)?;
                format!(in alloc; "{line}\n")?
            }
        };
        Ok(line.into_bytes())
    }
}

/// The words on a context that is set in these two lines: on a stream, and on the instance.
#[derive(Drop)]
struct Mixture(usize, usize);

impl fmt::Display for Mixture {
    ghost output = { λ m. Some (spec.mixture m.0 m.1) };

    fn fmt<W: fmt::Write>(&self, f: &mut fmt::Formatter<W>) -> fmt::Result {
        let stream = self.0;
        let instance = self.1;
        write!(
            f,
            "a context that may be set on a stream (line {stream}) and on the instance (line {instance})"
        )
    }
}

/// The line that says why a text can't be emitted, without its end.
fn unemitted_line(alloc: Global, why: EmitFault) -> Result<String, AllocError>
    ensures { IfOk result (λ line. string_bytes line ≡ spec.unemitted_line why) }
{
    match why {
        EmitFault::Kinds {
            line,
            stream,
            instance,
        } => {
            let mixture = Mixture(stream, instance);
            format!(in alloc; "not emitted line {line} {mixture}")
        }
        EmitFault::Create { line } => {
            format!(in alloc;
                "not emitted line {line} a pre create that completes with STATUS_SUCCESS"
            )
        }
        EmitFault::Return { line } => {
            format!(in alloc; "not emitted line {line} a return that does not fit its callback")
        }
    }
}
