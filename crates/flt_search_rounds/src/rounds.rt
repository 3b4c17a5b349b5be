//! The bounds of each round of the search.

/// The bounds of a round.
#[derive(Clone, Copy)]
pub struct Round {
    /// The most operations that may be there and not done, and the most that may come in all.
    pub(crate) alive: u32,
    pub(crate) total: u32,
    /// The most times that an activation may be left that could continue.
    pub(crate) switches: u8,
    /// The most operations that may be cancelled.
    pub(crate) cancels: u32,
    /// Whether a filter may be detached.
    pub(crate) detaches: bool,
    /// Whether only operations come that can start a callback in which something is sought.
    pub(crate) is_near: bool,
    /// The number of files for the first operation, and for those after it.
    pub(crate) first_files: usize,
    pub(crate) files: usize,
    /// The number of states to expand, if all rounds have `ALL_STATES`.
    pub(crate) states: u32,
}

/// The number of states in all rounds, of which each has its share.
const ALL_STATES: u64 = 40_000;

impl Round {
    /// The same round, if all rounds have this many states.
    pub fn within(self, states: u32) -> Round {
        let share = u64::from(self.states) * u64::from(states) / ALL_STATES;
        Round {
            states: u32::try_from(share).unwrap_or(u32::MAX),
            ..self
        }
    }
}

/// The rounds, from the narrowest.
pub const ROUNDS: [Round; 7] = [
    Round {
        alive: 1,
        total: 1,
        switches: 0,
        cancels: 1,
        detaches: false,
        is_near: true,
        first_files: 64,
        files: 64,
        states: 8000,
    },
    Round {
        alive: 1,
        total: 1,
        switches: 1,
        cancels: 1,
        detaches: true,
        is_near: true,
        first_files: 64,
        files: 64,
        states: 4000,
    },
    Round {
        alive: 1,
        total: 2,
        switches: 0,
        cancels: 1,
        detaches: true,
        is_near: false,
        first_files: 64,
        files: 6,
        states: 8000,
    },
    Round {
        alive: 1,
        total: 1100,
        switches: 0,
        cancels: 0,
        detaches: false,
        is_near: false,
        first_files: 6,
        files: 6,
        states: 12000,
    },
    Round {
        alive: 2,
        total: 2,
        switches: 1,
        cancels: 1,
        detaches: true,
        is_near: false,
        first_files: 64,
        files: 6,
        states: 4000,
    },
    Round {
        alive: 2,
        total: 2,
        switches: 2,
        cancels: 1,
        detaches: true,
        is_near: false,
        first_files: 64,
        files: 6,
        states: 2000,
    },
    Round {
        alive: 3,
        total: 3,
        switches: 2,
        cancels: 1,
        detaches: true,
        is_near: false,
        first_files: 64,
        files: 6,
        states: 1000,
    },
];

/// The rounds of a search for a deadlock, from the narrowest: one operation with its work items, and then as many operations at once as
/// there may be activations. Only near operations come, except in the last one.
pub const MEETINGS: [Round; 5] = [
    Round {
        alive: 1,
        total: 1,
        switches: 1,
        cancels: 1,
        detaches: false,
        is_near: true,
        first_files: 6,
        files: 6,
        states: 4000,
    },
    Round {
        alive: 2,
        total: 2,
        switches: 1,
        cancels: 0,
        detaches: false,
        is_near: true,
        first_files: 6,
        files: 6,
        states: 8000,
    },
    Round {
        alive: 3,
        total: 3,
        switches: 2,
        cancels: 0,
        detaches: false,
        is_near: true,
        first_files: 1,
        files: 1,
        states: 12000,
    },
    Round {
        alive: 4,
        total: 4,
        switches: 3,
        cancels: 0,
        detaches: false,
        is_near: true,
        first_files: 1,
        files: 1,
        states: 8000,
    },
    Round {
        alive: 2,
        total: 3,
        switches: 2,
        cancels: 1,
        detaches: true,
        is_near: false,
        first_files: 6,
        files: 6,
        states: 8000,
    },
];
