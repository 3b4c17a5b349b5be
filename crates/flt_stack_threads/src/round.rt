//! The rounds of a worker that is alone, among tickets of which none moves anything.
ghost use Rattle.std.specs.Prelude.{◌≤◌, ◌<◌, ◌↔◌, IsTrue};

/// Which turns of a worker can be passed over. A ticket that stays goes to the back of the worker's deque. If each of its tickets had its
/// turn, all stay, and none moved anything, then the next round finds all as it was, like each one after it: the worker is alone, so nobody
/// else makes a move, and callers add their tickets elsewhere. Such a round leaves the tickets in their order.
#[derive(Drop)]
pub(crate) struct Round {
    /// Whether the worker has its deque for itself.
    alone: bool,
    /// How many tickets had a turn since something was moved last, at which all stayed.
    still: u64,
    /// How many entries the journal had beside the arrivals when that was last looked at.
    entries: usize,
}

impl Round {
    /// The `Round` of a worker before its first turn.
    pub(crate) fn new(alone: bool) -> Round {
        Round {
            alone,
            still: 0,
            entries: 0,
        }
    }

    /// A ticket had its turn. Either it stays and nothing was moved, or not.
    pub(crate) fn turn(&mut self, is_still: bool) {
        self.still = if is_still {
            self.still.saturating_add(1)
        } else {
            0
        };
    }

    /// Whether the ticket that had its turn last stays, and nothing was moved.
    pub(crate) fn is_still(&self) -> bool
        ensures { IsTrue result ↔ 0 < self.now.still }
    {
        self.still != 0
    }

    /// Whether turns of an earlier call count.
    pub(crate) fn goes_on(&self) -> bool {
        self.alone && self.still != 0
    }

    /// The journal has this many entries beside the arrivals, which move no ticket that stays. If their number has changed, each ticket
    /// gets a turn again.
    pub(crate) fn begin(&mut self, entries: usize) {
        if entries != self.entries {
            self.entries = entries;
            self.still = 0;
        }
    }

    /// How many turns of so many that are left can be passed over: whole rounds, if the deque has `held` tickets.
    pub(crate) fn passes(&self, held: u64, left: u32) -> u32
        ensures { result ≤ left }
    {
        let is_round = self.alone && 0 < held && held <= self.still;
        if !is_round || (left as u64) < held {
            return 0;
        }
        let held = held as u32;
        left - left % held
    }
}
