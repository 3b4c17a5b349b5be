//! The repeats in which an activation is.

use flt_graph::Turn;

const MAX_TURNS: usize = 4;

/// The repeats in progress round a point, the innermost last.
#[derive(Clone, Copy)]
pub struct Turns {
    turns: [Turn; 4],
    used: usize,
}

const NO_TURN: Turn = Turn { point: 0, left: 0 };

impl Turns {
    pub(crate) const NONE: Turns = Turns {
        turns: [NO_TURN; 4],
        used: 0,
    };

    /// The `repeat` of a number, from the outermost.
    pub fn get(&self, place: usize) -> Option<Turn> {
        if place < self.used {
            self.turns.get(place).copied()
        } else {
            None
        }
    }

    /// How many there are.
    pub fn len(&self) -> usize {
        self.used
    }

    fn last(&self) -> Option<Turn> {
        self.get(self.used.checked_sub(1)?)
    }

    /// How many turns are left of the `repeat` at a point; as many as its text has if it isn't in progress.
    pub(crate) fn left(&self, point: usize, text: u64) -> u64 {
        match self.last() {
            Some(turn) if turn.point == point => turn.left,
            _ => text,
        }
    }

    /// How many turns are left of the innermost `repeat`.
    pub fn last_left(&self) -> Option<u64> {
        match self.last() {
            Some(turn) => Some(turn.left),
            None => None,
        }
    }

    /// Sets how many turns are left of the innermost `repeat`.
    pub fn set_last_left(&mut self, left: u64) {
        if let Some(last) = self.used.checked_sub(1) {
            if let Some(turn) = self.turns.get_mut(last) {
                turn.left = left;
            }
        }
    }

    /// Whether the `repeat` at a point is in progress.
    pub(crate) fn is_in(&self, point: usize) -> bool {
        match self.last() {
            Some(turn) => turn.point == point,
            None => false,
        }
    }

    /// The `repeat` at a point is over, if it is in progress.
    pub(crate) fn leave(&mut self, point: usize) {
        if let Some(turn) = self.last() {
            if turn.point == point {
                self.used = self.used.saturating_sub(1);
            }
        }
    }

    /// A turn begins.
    pub(crate) fn begin(&mut self, turn: Turn) {
        self.leave(turn.point);
        if self.used < MAX_TURNS {
            self.turns[self.used] = turn;
            self.used += 1;
        }
    }
}
