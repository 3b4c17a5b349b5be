//! The texts that are reported, and the result of a report.

ghost use Rattle.std.specs.Prelude.{◌≡◌};
ghost use Rattle.flt_explain_texts.specs.Reports as spec;

use flt_places::Files;

/// A text, and the files in which its lines are.
#[derive(Clone, Copy)]
pub struct Source<'a> {
    pub text: &'a [u8],
    pub files: Files<'a>,
}

impl<'a> Source<'a> {
    /// The name of its first file; empty if it has none.
    pub fn name(&self) -> &'a str
        ensures { result.now ≡ spec.name_of self.now }
    {
        self.files.file_name(0)
    }
}

/// The output, and the exit status: 0 without findings, 1 with findings or with a warning that counts, 2 if a text doesn't parse.
#[derive(Drop)]
pub struct Printout {
    pub output: Vec<u8>,
    pub status: u8,
}
