//! The flaw of a C file, in words.

ghost use Rattle.std.specs.Prelude.{◌≡◌, IfOk, Some, string_bytes};
ghost use Rattle.flt_files.specs.Flaws as spec;
ghost use Rattle.flt_words.specs.Shown;

use flt_c::{Fault, Flaw, Place, PlaceFlaw, fault_words, flaw_place, flaw_words};
use flt_words::visible;
use std::alloc::{AllocError, Global};
use std::fmt;

/// A place of a file, as compilers write it after its name.
#[derive(Drop)]
pub struct FilePlace(pub Place);

impl fmt::Display for FilePlace {
    ghost output = { λ p. Some (spec.spot p.0) };

    fn fmt<W: fmt::Write>(&self, f: &mut fmt::Formatter<W>) -> fmt::Result {
        let line = self.0.line;
        let column = self.0.column;
        write!(f, "{line}:{column}")
    }
}

/// The line that reports a fault of a file of this name, without its end.
fn fault_line(alloc: Global, name: &str, fault: Fault) -> Result<String, AllocError>
    ensures { IfOk result (λ line. string_bytes line ≡ spec.fault_line name.now fault) }
{
    let place = FilePlace(fault.place);
    let why = fault_words(fault.kind);
    format!(in alloc; "{name}:{place}: {why}")
}

/// The line that reports the flaw of the file of a name, without its end.
pub fn flaw_line(alloc: Global, name: &str, flaw: Flaw) -> Result<String, AllocError>
    ensures { IfOk result (λ line. string_bytes line ≡ spec.flaw_line (Shown.visible name.now) flaw) }
{
    let name = visible(alloc, name)?;
    match flaw {
        Flaw::Faulty(fault) => fault_line(alloc, name.as_str(), fault),
        Flaw::Large => format!(in alloc; "{name}: too large"),
        Flaw::Bare => format!(in alloc; "{name}: no annotation"),
        Flaw::Long => format!(in alloc; "{name}: text too long"),
    }
}

/// Why the annotations of a file that is named elsewhere make no text, in words, with the place.
pub(crate) fn annotation_flaw_words(alloc: Global, flaw: Flaw) -> Result<String, AllocError> {
    let flaw = PlaceFlaw::Flawed(flaw);
    let why = flaw_words(flaw);
    match flaw_place(flaw) {
        Some(place) => {
            let place = FilePlace(place);
            format!(in alloc; "{why} at {place}")
        }
        None => String::from_str(alloc, why),
    }
}
