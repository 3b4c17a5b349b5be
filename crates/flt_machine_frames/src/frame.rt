//! Frames: activations that were taken from a machine.

use crate::standing::Standing;

/// An activation as it was taken from a machine.
#[derive(Clone, Copy)]
pub struct Frame {
    /// The activation's number, from 0.
    pub activation: u32,
    /// Its filter's number, from 0.
    pub filter: usize,
    /// The draining flag that it was given.
    pub draining: bool,
    pub standing: Standing,
}

/// A frame, and how far its activation comes by so many local steps: up to a step that others see.
#[derive(Clone, Copy)]
pub struct Advanced {
    pub frame: Frame,
    pub after: Standing,
    pub steps: u32,
}
