//! The elements of a picture. All lengths are in pixels, from the left and from the top.

/// The colour that fills a box.
#[derive(Clone, Copy)]
pub(crate) enum Colour {
    Blue,
    Grey,
    Orange,
    Green,
    Purple,
    Pink,
    White,
}

/// The look of words.
#[derive(Clone, Copy)]
pub(crate) enum Look {
    Plain,
    Faint,
    /// They end at their place.
    Before,
    Bad,
    Inside,
    Above,
    Title,
}

/// The place and the size of a box.
#[derive(Clone, Copy)]
pub(crate) struct Area {
    pub(crate) x: usize,
    pub(crate) y: usize,
    pub(crate) width: usize,
    pub(crate) height: usize,
}

/// A shape, or words.
#[derive(Drop)]
pub(crate) enum Element {
    /// A filled box.
    Fill {
        area: Area,
        colour: Colour,
    },
    /// A line from one height to another.
    Rule {
        x: usize,
        top: usize,
        bottom: usize,
    },
    /// Words from a place on, or round it if they are inside a shape. The hint is shown while a pointer is over them, unless it is empty.
    Words {
        x: usize,
        y: usize,
        look: Look,
        words: String,
        hint: String,
    },
}
