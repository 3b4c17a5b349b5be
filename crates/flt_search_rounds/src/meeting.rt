//! The world that a search for a deadlock seeks: activations are at the points of a circle, and none of them can continue.

use crate::round_search::{Search, State};
use crate::targets::Stand;
use flt_model::JournalEntry;
use flt_search_world::{Course, MAX_ACTIVATIONS, World};
use std::alloc::AllocError;

/// Whether the activation at a place is at a point.
fn is_at(world: &World, place: u8, stand: Stand) -> bool {
    let activation = world.activation(place);
    activation.is_on
        && activation.filter == stand.filter
        && activation.callback == stand.callback
        && activation.point == stand.point
}

impl<'p> Search<'p> {
    /// Whether an activation's next step isn't enabled.
    fn is_stuck(&self, world: &World, place: u8) -> bool {
        let mut other = *world;
        let mut left = 0;
        matches!(other.step(self.plan, place, true, &mut left), Course::Stuck)
    }

    /// Whether an activation is at a point and can't continue there.
    fn is_stuck_at(&self, world: &World, stand: Stand) -> bool {
        for place in 0..MAX_ACTIVATIONS {
            if is_at(world, place, stand) && self.is_stuck(world, place) {
                return true;
            }
        }
        false
    }

    /// Whether an activation is stuck at each point of the circle.
    fn is_meeting(&self, world: &World) -> bool {
        for stand in self.targets.circle.iter() {
            if !self.is_stuck_at(world, *stand) {
                return false;
            }
        }
        true
    }

    /// Notes the first state in which activations wait at all points of the circle, if one is sought.
    pub(crate) fn look_for_meeting(&mut self, state: &State) {
        if self.targets.circle.is_empty() || self.meeting.is_some() {
            return;
        }
        if self.is_meeting(&state.world) {
            self.meeting = state.node;
            self.targets.open = 0;
            self.longest = self.paths.depth(state.node);
        }
    }

    /// The entries that lead to activations that wait at all points of the circle, or none if that wasn't met.
    ///
    /// # Errors
    ///
    /// `AllocError` if a growth is refused.
    pub fn journal_to_meeting(&self) -> Result<Option<Vec<JournalEntry>>, AllocError> {
        match self.meeting {
            Some(node) => Ok(Some(self.paths.journal(node)?)),
            None => Ok(None),
        }
    }
}
