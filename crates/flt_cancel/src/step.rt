//! The steps on the pads.

/// One atomic step on the pads. A seat goes by its number: the first has 0, and each split makes the next.
///
/// Contracts alone speak of steps; no value of this type is made.
pub enum Step {
    /// A seat is split off, which has seen nothing.
    Split,
    /// The seat of the first number asks for the serial.
    Ask(u32, u32),
    /// The seat of the first number collects the word of the second, and finds the bits of the third in it.
    Collect(u32, u32, u64),
}
