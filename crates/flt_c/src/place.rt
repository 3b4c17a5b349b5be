//! Places in a file.

ghost use Rattle.std.specs.Prelude.{◌≡◌, ◌<◌, ◌^◌};
ghost use Rattle.flt_c.specs.Places as spec;
ghost use Rattle.flt_c.specs.Runs as runs;

/// A place in a file: its line and column, which count from 1, and the number of bytes before it.
#[derive(Clone, Copy, Debug)]
pub struct Place {
    pub line: usize,
    pub column: usize,
    pub start: usize,
}

/// A byte of the text, and the place in the file that it comes from.
#[derive(Clone, Copy)]
pub struct PlacedByte {
    pub byte: u8,
    pub place: Place,
}

/// The place after a byte.
pub(crate) fn past(at: Place, b: u8) -> Place
    requires { spec.IsSmall at }
    ensures { result ≡ spec.past at b }
{
    if b == b'\n' {
        Place {
            line: at.line + 1,
            column: 1,
            start: at.start + 1,
        }
    } else {
        Place {
            line: at.line,
            column: at.column + 1,
            start: at.start + 1,
        }
    }
}

/// The place so many bytes further on in a line.
pub(crate) fn further(at: Place, n: usize) -> Place
    requires small { spec.IsSmall at }
    requires short { n < 2 ^ 40 }
    ensures { result ≡ runs.further at n }
{
    Place {
        line: at.line,
        column: at.column + n,
        start: at.start + n,
    }
}
