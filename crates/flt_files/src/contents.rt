//! The contents of files that were read for a command line.

ghost use Rattle.std.specs.Prelude.{◌≡◌, [], None};

use flt_model::Journal;
use std::alloc::Global;

/// The contents of the names of a command line, as far as they are kept.
#[derive(Drop)]
pub struct Contents {
    pub texts: Vec<Vec<u8>>,
    pub journal: Option<Journal>,
}

impl Contents {
    /// No contents yet.
    pub fn new(alloc: Global) -> Contents
        ensures texts { result.texts.items ≡ [] }
        ensures journal { result.journal ≡ None }
    {
        Contents {
            texts: Vec::new(alloc),
            journal: None,
        }
    }
}
