//! The post callbacks that will be called for an operation.

const MAX_FRAMES: usize = 4;

/// A post callback that will be called, with its context.
#[derive(Clone, Copy)]
pub struct Frame {
    pub filter: u8,
    pub context: Option<u8>,
}

const NO_FRAME: Frame = Frame {
    filter: 0,
    context: None,
};

/// The frames of an operation, the lowest filter's last.
#[derive(Clone, Copy)]
pub struct Frames {
    frames: [Frame; 4],
    used: usize,
}

impl Frames {
    pub(crate) const NONE: Frames = Frames {
        frames: [NO_FRAME; 4],
        used: 0,
    };

    /// How many there are.
    pub fn len(&self) -> usize {
        self.used
    }

    /// The frame of a number, from the first.
    pub fn get(&self, place: usize) -> Option<Frame> {
        if place < self.used {
            self.frames.get(place).copied()
        } else {
            None
        }
    }

    /// Adds a frame at the end. False if it has no room.
    pub(crate) fn push(&mut self, frame: Frame) -> bool {
        if self.used < MAX_FRAMES {
            self.frames[self.used] = frame;
            self.used += 1;
            true
        } else {
            false
        }
    }

    pub(crate) fn pop(&mut self) -> Option<Frame> {
        let last = self.used.checked_sub(1)?;
        self.used = last;
        self.frames.get(last).copied()
    }

    /// The first one of a filter is taken out.
    pub(crate) fn take(&mut self, filter: u8) -> Option<Frame> {
        let mut kept = Frames::NONE;
        let mut taken = None;
        for place in 0..MAX_FRAMES {
            if let Some(frame) = self.get(place) {
                if taken.is_none() && frame.filter == filter {
                    taken = Some(frame);
                } else {
                    kept.push(frame);
                }
            }
        }
        *self = kept;
        taken
    }

    /// Whether a filter has one.
    pub fn has(&self, filter: u8) -> bool {
        for place in 0..MAX_FRAMES {
            if let Some(frame) = self.get(place) {
                if frame.filter == filter {
                    return true;
                }
            }
        }
        false
    }
}
