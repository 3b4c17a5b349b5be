//! The drawing so far: elements, one after the other.

use crate::element::{Area, Colour, Element, Look};
use std::alloc::{AllocError, Global};

/// The elements drawn so far. Later ones cover earlier ones.
#[derive(Drop)]
pub(crate) struct Drawing {
    alloc: Global,
    pub(crate) elements: Vec<Element>,
}

impl Drawing {
    pub(crate) fn new(alloc: Global) -> Drawing {
        Drawing {
            alloc,
            elements: Vec::new(alloc),
        }
    }

    /// Draws a filled box.
    pub(crate) fn fill(&mut self, area: Area, colour: Colour) -> Result<(), AllocError> {
        self.elements.push(Element::Fill { area, colour })?;
        Ok(())
    }

    /// Draws a line from one height to another.
    pub(crate) fn rule(&mut self, x: usize, top: usize, bottom: usize) -> Result<(), AllocError> {
        self.elements.push(Element::Rule { x, top, bottom })?;
        Ok(())
    }

    /// Draws words from a place on, or round it if they are inside a shape, with a hint if it isn't empty.
    pub(crate) fn hinted(
        &mut self,
        x: usize,
        y: usize,
        look: Look,
        words: String,
        hint: String,
    ) -> Result<(), AllocError> {
        self.elements.push(Element::Words {
            x,
            y,
            look,
            words,
            hint,
        })?;
        Ok(())
    }

    /// The same without a hint.
    pub(crate) fn words(
        &mut self,
        x: usize,
        y: usize,
        look: Look,
        words: String,
    ) -> Result<(), AllocError> {
        let hint = String::new(self.alloc);
        self.hinted(x, y, look, words, hint)
    }

    /// Draws words side by side, each from its own place on.
    pub(crate) fn heads(
        &mut self,
        places: &[usize],
        y: usize,
        look: Look,
        heads: &[&str],
    ) -> Result<(), AllocError> {
        let alloc = self.alloc;
        let mut number: usize = 0;
        for x in places {
            if let Some(head) = heads.get(number) {
                let words = String::from_str(alloc, head)?;
                self.words(*x, y, look, words)?;
            }
            number = number.saturating_add(1);
        }
        Ok(())
    }
}
