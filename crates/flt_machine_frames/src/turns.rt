//! The repeats in progress round a point.

ghost use Rattle.std.specs.Prelude.{◌≡◌, ◌↔◌, ◌<◌, ◌≤◌, [], ◌∷◌, is_some, take, drop, length, IsTrue};
ghost use Rattle.std.specs.Option.{unwrap_or};
ghost use Rattle.std.specs.Cmp.Lexicographic.{pointwise};
ghost use Rattle.flt_graph.specs.Turns as graph;
ghost use Rattle.flt_machine_frames.specs.Turns as spec;

use flt_graph::Turn;
use flt_rules::MAX_REPEATS;
use std::marker::Model;

/// The value of an unused place.
const NO_TURN: Turn = Turn { point: 0, left: 0 };

/// The repeats in progress round a point, the innermost first, at most four. Unused places are blank, so that equal repeats are
/// equal values.
#[derive(Clone, Copy)]
pub struct Turns {
    turns: [Turn; 4],
    used: usize,
}

impl Model for Turns {
    ghost use Rattle.std.specs.Prelude.{List, length, take};
    ghost use Rattle.flt_graph.specs.declared.turns.Turn.{Turn};

    ghost Value = { List Turn };

    ghost use Rattle.flt_machine_frames.specs.Padded.{IsPadded, padded};
    ghost use Rattle.flt_machine_frames.specs.Turns.{no_turn};

    ghost view = { λ t. take t.used t.turns };

    ghost invariant = { λ t. IsPadded Turn 4 no_turn t.turns t.used };

    ghost inverse = { λ turns. record { turns = padded 4 no_turn turns; used = length turns } };

    ghost inverse_ok = { λ t h i. record { turns = h.filled i; used = h.counted i } };
}

fn is_same_turn(left: Turn, right: Turn) -> bool
    ensures { result ≡ spec.same_turn left right }
{
    left.point == right.point && left.left == right.left
}

/// Whether two lists have the same turns of the same repeats.
fn are_same(left: &[Turn], right: &[Turn]) -> bool
    ensures { result ≡ pointwise spec.same_turn left.now right.now }
{
    match left {
        [] => right.is_empty(),
        [first, rest @ ..] => match right {
            [] => false,
            [other, others @ ..] => is_same_turn(*first, *other) && are_same(rest, others),
        },
    }
}

/// The turns moved back by one place, with a first one; the last is gone.
fn with_first(turns: [Turn; 4], first: Turn) -> [Turn; 4]
    ensures { result ≡ first ∷ take 3 turns }
{
    let [a, b, c, _] = turns;
    [first, a, b, c]
}

/// The turns without the first one, and a blank after them.
fn without_first(turns: [Turn; 4]) -> [Turn; 4]
    ensures { result ≡ spec.without_first turns }
{
    let [_, b, c, d] = turns;
    [b, c, d, NO_TURN]
}

impl Turns {
    /// No `repeat` is in progress.
    pub(crate) fn none() -> Turns
        ensures { result ≡ [] }
    {
        Turns {
            turns: [NO_TURN; 4],
            used: 0,
        }
    }

    /// The repeats, the innermost first.
    pub(crate) fn as_slice(&self) -> &[Turn]
        ensures { result.now ≡ self.now }
    {
        &self.turns[..self.used]
    }

    /// How many turns are left of the `repeat` at a point; if it isn't in progress, as many as its text has.
    pub(crate) fn left_at(&self, point: usize, text: u64) -> u64
        ensures { result ≡ graph.left_at point text self.now }
    {
        match self.as_slice() {
            [first, ..] if first.point == point => first.left,
            _ => text,
        }
    }

    /// Whether the first one is of the `repeat` at a point.
    fn has_first(&self, point: usize) -> bool
        ensures { result ≡ spec.has_first point self.now }
    {
        match self.as_slice() {
            [first, ..] => first.point == point,
            _ => false,
        }
    }

    /// Leaves the `repeat` at a point, if it is in progress: those round it remain.
    pub(crate) fn leave(&mut self, point: usize)
        ensures { self.new ≡ graph.turns_round point self.old }
    {
        if self.has_first(point) {
            self.turns = without_first(self.turns);
            self.used -= 1;
        }
    }

    /// A turn of a `repeat` begins: it takes the place of that repeat's turn before, or comes within the others. False, and nothing is
    /// changed, where four others are in progress.
    pub(crate) fn begin(&mut self, turn: Turn) -> bool
        ensures begun { result ≡ is_some (spec.with_turn turn (graph.turns_round turn.point self.old)) }
        ensures after { self.new ≡ unwrap_or (spec.with_turn turn (graph.turns_round turn.point self.old)) self.old }
    {
        if self.has_first(turn.point) {
            self.turns[0] = turn;
            return true;
        }
        if self.used < MAX_REPEATS {
            self.turns = with_first(self.turns, turn);
            self.used += 1;
            return true;
        }
        false
    }

    pub(crate) fn is_same(&self, other: &Turns) -> bool
        ensures { IsTrue result ↔ (self.now ≡ other.now) }
    {
        are_same(self.as_slice(), other.as_slice())
    }
}
