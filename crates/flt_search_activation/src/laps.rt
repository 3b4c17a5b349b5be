//! Turns of a `repeat` that do the same: the rest of them is made at once.

use crate::activation::{Activation, VariableValue};
use flt_graph::OperationVariable;
use flt_search_plan::{CONTEXTS, Live, NUMBERS, Plan, REMOVED};

/// The effect of the remaining turns.
#[derive(Clone, Copy)]
pub(crate) struct Leap {
    /// The amount that each turn adds to each number.
    pub(crate) numbers: [u64; 8],
    /// The number of steps after all turns.
    pub(crate) steps: u32,
}

/// How a turn of the `repeat` at a point began.
#[derive(Clone, Copy)]
struct Lap {
    point: usize,
    numbers: [u64; 8],
    contexts: [bool; 9],
    removed: [bool; 4],
    steps: u32,
    /// The amount that the turn before added to each number, if there was one.
    added: Option<[u64; 8]>,
}

/// The turns that began last, of all repeats in progress.
#[derive(Clone, Copy)]
pub(crate) struct Laps {
    laps: [Option<Lap>; 4],
}

pub(crate) const NO_LAPS: Laps = Laps { laps: [None; 4] };

fn is_null(named: VariableValue) -> bool {
    matches!(named, VariableValue::Null)
}

/// How a turn begins.
fn lap_of(activation: &Activation, live: Live) -> Lap {
    let mut lap = Lap {
        point: activation.point,
        numbers: [0; 8],
        contexts: [false; 9],
        removed: [false; 4],
        steps: activation.steps,
        added: None,
    };
    for variable in NUMBERS {
        if live.number(variable) {
            lap.numbers[variable.place()] = activation.numbers[variable.place()];
        }
    }
    for variable in CONTEXTS {
        if live.context(variable) {
            lap.contexts[variable.place()] = is_null(activation.context(variable));
        }
    }
    for (place, variable) in REMOVED.iter().enumerate() {
        if live.removed(*variable) {
            if let Some(flag) = lap.removed.get_mut(place) {
                *flag = is_null(activation.operation(OperationVariable::Removed(*variable)));
            }
        }
    }
    lap
}

/// The differences of the numbers between the starts of two turns.
fn added_between(before: &Lap, now: &Lap) -> [u64; 8] {
    let mut added = [0; 8];
    for variable in NUMBERS {
        let place = variable.place();
        added[place] = now.numbers[place].wrapping_sub(before.numbers[place]);
    }
    added
}

fn is_nothing(added: [u64; 8]) -> bool {
    added.iter().all(|number| *number == 0)
}

/// Whether all but numbers is as it was.
fn are_alike(before: &Lap, now: &Lap) -> bool {
    before.point == now.point && before.contexts == now.contexts && before.removed == now.removed
}

/// The amounts that each turn adds, if the last two turns added the same, or the last one nothing.
fn steady(before: &Lap, now: &Lap, is_straight: bool) -> Option<[u64; 8]> {
    if !are_alike(before, now) {
        return None;
    }
    let added = added_between(before, now);
    if is_nothing(added) {
        return Some(added);
    }
    match before.added {
        Some(other) if is_straight && other == added => Some(added),
        _ => None,
    }
}

/// The number of steps after so many turns; none if they are too many.
fn steps_behind(before: &Lap, now: &Lap, turns: u64) -> Option<u32> {
    let turns = u32::try_from(turns).ok()?;
    let each = now.steps.checked_sub(before.steps)?;
    now.steps.checked_add(each.checked_mul(turns)?)
}

impl Laps {
    fn last(&self, point: usize) -> Option<Lap> {
        for lap in self.laps {
            if let Some(lap) = lap {
                if lap.point == point {
                    return Some(lap);
                }
            }
        }
        None
    }

    /// A turn begins: those of repeats within this one are forgotten.
    fn put(&mut self, depth: usize, lap: Lap) {
        let mut laps = NO_LAPS;
        for (place, own) in self.laps.iter().enumerate() {
            if let Some(other) = laps.laps.get_mut(place) {
                if place < depth {
                    *other = *own;
                } else if place == depth {
                    *other = Some(lap);
                }
            }
        }
        *self = laps;
    }

    /// The effect of the turns that are left at an activation's point; none if they aren't known to do the same.
    pub(crate) fn leap(
        &mut self,
        plan: &Plan,
        activation: &Activation,
        is_begun: bool,
        turns: u64,
    ) -> Option<Leap> {
        let point = activation.point;
        let live = plan.live(activation.filter, activation.callback, point);
        let mut now = lap_of(activation, live);
        let before = self.last(point).filter(|_| is_begun);
        let depth = activation.turns.len();
        let depth = if is_begun {
            depth.saturating_sub(1)
        } else {
            depth
        };
        if let Some(before) = before {
            let is_straight = plan.is_straight(activation.filter, activation.callback, point);
            if let Some(numbers) = steady(&before, &now, is_straight) {
                let steps = steps_behind(&before, &now, turns)?;
                return Some(Leap { numbers, steps });
            }
            now.added = Some(added_between(&before, &now));
        }
        self.put(depth, now);
        None
    }
}
