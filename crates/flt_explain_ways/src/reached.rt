//! All that a search reached, written down as states.

use crate::cover::Cover;
use crate::ground::Ground;
use crate::possible::{Part, Possible};
use crate::search::{FollowedParts, Node, Search};
use flt_abs::{Abs, CONTEXTS, Draining, Modes, OPERATIONS, Statuses, entry_state};
use flt_explain_closed::Member;
use flt_graph::Place;
use sqlite_items::Items;
use std::alloc::{AllocError, Global};

/// All that is possible if only some parts are followed: anything, in the other parts.
fn seen(followed: FollowedParts, all: Possible) -> Possible {
    let others = Possible::ALL.without(followed.parts);
    all.and(followed.parts).or(others)
}

fn statuses(seen: Possible, place: usize) -> Option<Statuses> {
    Statuses::from_digit(seen.digit(Part::at(place)))
}

fn contexts(seen: Possible) -> Option<[Statuses; CONTEXTS]> {
    Some([
        statuses(seen, 0)?,
        statuses(seen, 1)?,
        statuses(seen, 2)?,
        statuses(seen, 3)?,
        statuses(seen, 4)?,
        statuses(seen, 5)?,
        statuses(seen, 6)?,
        statuses(seen, 7)?,
        statuses(seen, 8)?,
    ])
}

fn operations(seen: Possible) -> Option<[Statuses; OPERATIONS]> {
    Some([
        statuses(seen, 9)?,
        statuses(seen, 10)?,
        statuses(seen, 11)?,
        statuses(seen, 12)?,
        statuses(seen, 13)?,
    ])
}

/// The state in which this is possible, with the locks of another state.
fn with_sets(locks: &Abs, seen: Possible) -> Option<Abs> {
    let modes = Modes::from_digit(seen.digit(Part::MODE))?;
    let draining = Draining::from_digit(seen.digit(Part::DRAINING))?;
    locks.with_sets(contexts(seen)?, operations(seen)?, modes, draining)
}

impl Search {
    /// The state of a moment; no lock is held in it if locks aren't followed, as in the state `bare`.
    fn state(&self, ground: &Ground<'_>, bare: &Abs, node: Node) -> Option<Abs> {
        let followed = self.manner.followed;
        let seen = seen(followed, node.all);
        if followed.locks {
            with_sets(ground.lists.state(node.list)?, seen)
        } else {
            with_sets(bare, seen)
        }
    }

    fn member(&self, ground: &Ground<'_>, bare: &Abs, number: usize, node: Node) -> Option<Member> {
        let lead = self.leads.get(number).copied()?;
        Some(Member {
            point: node.point,
            state: self.state(ground, bare, node)?,
            granted: lead.granted,
            refused: lead.refused,
        })
    }

    /// All that was reached.
    fn members(&self, alloc: Global, ground: &Ground<'_>) -> Result<Items<Member>, AllocError> {
        let bare = entry_state(alloc, Place::Generic);
        let mut members = Items::new(alloc);
        for (number, node) in self.nodes.iter().enumerate() {
            if let Some(member) = self.member(ground, &bare, number, *node) {
                members.push(member)?;
            }
        }
        Ok(members)
    }

    /// Adds a cover of all that was reached, and returns its number.
    pub(crate) fn write_down(
        &self,
        alloc: Global,
        ground: &Ground<'_>,
        covers: &mut Vec<Cover>,
    ) -> Result<usize, AllocError> {
        let number = covers.len();
        let members = self.members(alloc, ground)?;
        covers.push(Cover {
            callback: ground.callback,
            locks: self.manner.followed.locks,
            members,
        })?;
        Ok(number)
    }
}
