//! Inputs as the files of headers.

use flt_c_headers::HeaderFiles;
use flt_files::Inputs;
use std::alloc::{AllocError, Global};

/// Inputs of which headers are read.
#[derive(Drop)]
pub struct HeaderInputs<'a, I: Inputs> {
    pub inputs: &'a I,
}

impl<I: Inputs> HeaderFiles for HeaderInputs<'_, I> {
    ghost gives = { λ headers. I.gives headers.inputs.now };

    fn read(&self, alloc: Global, name: &str) -> Result<Option<Vec<u8>>, AllocError> {
        self.inputs.read(alloc, name)
    }
}
