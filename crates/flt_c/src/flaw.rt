//! The flaws of a C file's annotations, in words.

ghost use Rattle.std.specs.Prelude.{◌≡◌};
ghost use Rattle.flt_c.specs.Flaws as spec;

use crate::fault::FaultKind;
use crate::files::Flaw;
use crate::laying::PlaceFlaw;
use crate::place::Place;

/// The fault of a C file, in words.
pub fn fault_words(kind: FaultKind) -> &'static str
    ensures { result.now ≡ spec.fault_words kind }
{
    match kind {
        FaultKind::Comment => "comment without end",
        FaultKind::String => "string without end",
        FaultKind::Character => "character constant without end",
        FaultKind::RawString => "raw string",
        FaultKind::Marker => "no blank after @flt",
        FaultKind::Continued => "annotation in a continued line",
        FaultKind::Group => "#if 0 without #endif",
    }
}

/// Why the annotations of a C file make no text, in words.
fn text_flaw_words(flaw: Flaw) -> &'static str
    ensures { result.now ≡ spec.text_flaw_words flaw }
{
    match flaw {
        Flaw::Faulty(fault) => fault_words(fault.kind),
        Flaw::Large => "a C file has at most 16,777,216 bytes",
        Flaw::Bare => "it has no annotation",
        Flaw::Long => "its annotations have more than 65,536 bytes",
    }
}

/// Why the annotations of a C file can't be laid at their places, in words.
pub fn flaw_words(flaw: PlaceFlaw) -> &'static str
    ensures { result.now ≡ spec.flaw_words flaw }
{
    match flaw {
        PlaceFlaw::Flawed(flaw) => text_flaw_words(flaw),
        PlaceFlaw::Crowded(_) => "a second annotation in one line",
    }
}

/// The place of that in the file; none if the whole file is meant.
pub fn flaw_place(flaw: PlaceFlaw) -> Option<Place>
    ensures { result ≡ spec.flaw_place flaw }
{
    match flaw {
        PlaceFlaw::Flawed(Flaw::Faulty(fault)) => Some(fault.place),
        PlaceFlaw::Flawed(_) => None,
        PlaceFlaw::Crowded(place) => Some(place),
    }
}
