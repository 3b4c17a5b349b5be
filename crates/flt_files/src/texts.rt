//! Inputs that are texts.

ghost use Rattle.std.specs.Option.{option_map_or};
ghost use Rattle.std.specs.Prelude.{◌≡◌, false};
ghost use Rattle.std.specs.Str.{bytes_eq};

use crate::inputs::Inputs;
use crate::pieces::Pieces;
use crate::unread::InputFault;
use std::alloc::{AllocError, Global};

/// Inputs of which all but one are texts: as many bytes of these are kept as a text may have, and one more.
#[derive(Drop)]
pub struct Texts<'a, I: Inputs> {
    pub inputs: &'a I,
    /// The name that is read to its end, if there is one.
    pub whole: Option<&'a str>,
}

impl<I: Inputs> Texts<'_, I> {
    /// Whether a name is read to its end.
    fn is_whole(&self, name: &str) -> bool
        ensures { result ≡ option_map_or (λ whole. bytes_eq name.now whole.now) self.now.whole false }
    {
        match self.whole {
            Some(whole) => name == whole,
            None => false,
        }
    }
}

impl<I: Inputs> Inputs for Texts<'_, I> {
    ghost use Rattle.std.specs.Prelude.{option_map};
    ghost use Rattle.flt_files.specs.Inputs.{gives_but};

    ghost gives = { λ texts. gives_but (option_map (λ name. name.now) texts.whole) (I.gives texts.inputs.now) };

    fn read(&self, alloc: Global, name: &str) -> Result<Option<Vec<u8>>, AllocError> {
        if self.is_whole(name) {
            return self.inputs.read(alloc, name);
        }
        self.inputs.read_text(alloc, name)
    }

    fn read_pieces(&self, alloc: Global, name: &str) -> Result<Option<Pieces>, AllocError> {
        if self.is_whole(name) {
            return self.inputs.read_pieces(alloc, name);
        }
        let Some(text) = self.inputs.read_text(alloc, name)? else {
            return Ok(None);
        };
        let mut pieces = Pieces::new(alloc);
        pieces.push(text)?;
        Ok(Some(pieces))
    }

    fn why(&self, name: &str) -> InputFault {
        self.inputs.why(name)
    }
}
