//! The number of workers.

ghost use Rattle.std.specs.Prelude.{◌≡◌, ◌≤◌, option_map};
ghost use Rattle.flt_words.specs.Workers as spec;

/// A number of workers: 1 to 16.
#[derive(Clone, Copy, Debug)]
pub struct Workers {
    pub(crate) count: u8,
    pub ghost some: { 1 ≤ count },
    pub ghost few: { count ≤ 16 },
}

impl Workers {
    /// A given number of workers. `None` if it is 0 or more than 16.
    pub(crate) fn new(count: u8) -> Option<Workers>
        ensures { option_map (λ w. w.count) result ≡ spec.within count }
    {
        if count == 0 || 16 < count {
            return None;
        }
        Some(Workers { count })
    }

    /// Their number.
    pub fn count(self) -> usize
        ensures count { result ≡ self.count }
        ensures some { 1 ≤ result }
        ensures few { result ≤ 16 }
    {
        self.count as usize
    }
}
