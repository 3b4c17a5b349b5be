//! The number of states of each callback.

/// The number of states of each callback, and of none.
#[derive(Clone, Copy)]
pub(crate) struct Counts {
    counts: [u32; 17],
}

pub(crate) const NO_COUNTS: Counts = Counts { counts: [0; 17] };

impl Counts {
    pub(crate) fn get(&self, class: usize) -> u32 {
        match self.counts.get(class) {
            Some(count) => *count,
            None => 0,
        }
    }

    pub(crate) fn add(&mut self, class: usize) {
        if let Some(count) = self.counts.get_mut(class) {
            *count = count.saturating_add(1);
        }
    }

    pub(crate) fn remove(&mut self, class: usize) {
        if let Some(count) = self.counts.get_mut(class) {
            *count = count.saturating_sub(1);
        }
    }
}
