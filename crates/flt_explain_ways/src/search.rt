//! The search for paths: breadth first over the points of a callback and the possible values of the parts that are followed. A status
//! depends on another variable only through the path that is taken. So along one path each part has a set of its own, which tests and needs
//! narrow, and the path can be taken exactly if no set becomes empty. Nothing is proved of the search but that it ends: the paths that it
//! finds are checked by walking them again, and its answer that there is none by taking one step from all that it reached.

use crate::aims::Aims;
use crate::ground::Ground;
use crate::plan::{Side, Spot};
use crate::possible::{Part, Possible};
use crate::table::{Key, Table};
use std::alloc::{AllocError, Global};

/// The parts of the state that are followed: moments that differ in other parts are the same.
#[derive(Clone, Copy)]
pub(crate) struct FollowedParts {
    pub(crate) parts: Possible,
    pub(crate) locks: bool,
}

/// A stop of a path by something that isn't followed: nothing was possible of a part, or the locks broke a rule.
#[derive(Clone, Copy)]
pub(crate) enum Stop {
    Part(Part),
    Locks,
}

/// A point that was reached, with all that is possible there along the path by which it was reached first.
#[derive(Clone, Copy)]
pub(crate) struct Node {
    pub(crate) point: usize,
    pub(crate) all: Possible,
    pub(crate) list: usize,
    pub(crate) stop: Option<Stop>,
    /// How many steps lead there, and the number from which the last one does, with its outcome.
    pub(crate) steps: usize,
    pub(crate) arrival: Option<(usize, bool)>,
}

/// The numbers of the moments that follow one, by its outcomes; `NOWHERE` if none does.
#[derive(Clone, Copy)]
pub(crate) struct Lead {
    pub(crate) granted: usize,
    pub(crate) refused: usize,
}

/// No number.
pub(crate) const NOWHERE: usize = usize::MAX;

impl FollowedParts {
    pub(crate) fn is_same(self, other: FollowedParts) -> bool {
        self.parts.is_same(other.parts) && self.locks == other.locks
    }

    /// The same with the part or the locks that stopped a path.
    pub(crate) fn with(self, stop: Stop) -> FollowedParts {
        match stop {
            Stop::Part(part) => FollowedParts {
                parts: self.parts.or(Possible::whole(part)),
                ..self
            },
            Stop::Locks => FollowedParts {
                locks: true,
                ..self
            },
        }
    }

    /// How much is followed.
    pub(crate) fn size(self) -> u32 {
        let locks: u32 = if self.locks { 4 } else { 0 };
        self.parts.count().saturating_add(locks)
    }
}

impl Stop {
    pub(crate) fn of(part: Option<Part>) -> Option<Stop> {
        match part {
            Some(part) => Some(Stop::Part(part)),
            None => None,
        }
    }
}

/// The part of `all` that is kept; none if nothing is left of a part that is followed. If nothing is left of one that isn't, all that
/// `keeps` has of it is possible again, and the part is returned.
pub(crate) fn kept(
    followed: Possible,
    all: Possible,
    keeps: Possible,
) -> Option<(Possible, Option<Part>)> {
    let left = all.and(keeps);
    let missing = left.missing();
    if missing.is_nothing() {
        return Some((left, None));
    }
    if !missing.and(followed).is_nothing() {
        return None;
    }
    Some((left.or(keeps.and(missing)), missing.first()))
}

/// How a search is done.
#[derive(Clone, Copy)]
pub(crate) struct Manner {
    /// Only past points where no rule is broken.
    pub(crate) clean: bool,
    pub(crate) followed: FollowedParts,
    /// The refused outcome is looked at first. It stops paths less often, since less is held then.
    pub(crate) refused_first: bool,
    /// The search doesn't continue from moments to which the path was stopped.
    pub(crate) open_alone: bool,
}

#[derive(Drop)]
pub(crate) struct Search {
    pub(crate) manner: Manner,
    pub(crate) nodes: Vec<Node>,
    /// The numbers of the moments that follow each moment that was looked at.
    pub(crate) leads: Vec<Lead>,
    table: Table,
    /// Whether something was left out.
    is_cut: bool,
    /// How many moments were looked at.
    pub(crate) looked: usize,
}

impl Search {
    /// Begins a search, with the entry reached.
    pub(crate) fn open(
        alloc: Global,
        ground: &Ground<'_>,
        manner: Manner,
    ) -> Result<Search, AllocError> {
        let mut search = Search {
            manner,
            nodes: Vec::new(alloc),
            leads: Vec::new(alloc),
            table: Table::new(alloc)?,
            is_cut: false,
            looked: 0,
        };
        let _first = search.arrive(
            alloc,
            Node {
                point: 0,
                all: ground.entry,
                list: 0,
                stop: None,
                steps: 0,
                arrival: None,
            },
        )?;
        Ok(search)
    }

    pub(crate) fn node(&self, number: usize) -> Option<Node> {
        match self.nodes.get(number) {
            Some(node) => Some(*node),
            None => None,
        }
    }

    /// The key by which a moment differs from others.
    fn key(&self, node: Node) -> Key {
        Key {
            point: node.point,
            possible: node.all.and(self.manner.followed.parts).number(),
            list: if self.manner.followed.locks {
                node.list
            } else {
                0
            },
        }
    }

    /// Replaces a path that was stopped by one that wasn't and is as long.
    fn better(&mut self, known: usize, node: Node) {
        if let Some(before) = self.nodes.get_mut(known) {
            if before.stop.is_some() && node.stop.is_none() && before.steps == node.steps {
                *before = node;
            }
        }
    }

    /// Reaches a moment, and returns its number.
    fn arrive(&mut self, alloc: Global, node: Node) -> Result<usize, AllocError> {
        if self.manner.open_alone && node.stop.is_some() {
            return Ok(NOWHERE);
        }
        let key = self.key(node);
        match self.table.find(key) {
            Some(known) => {
                self.better(known, node);
                Ok(known)
            }
            None => {
                let number = self.nodes.len();
                self.table.insert(alloc, key, number)?;
                self.nodes.push(node)?;
                Ok(number)
            }
        }
    }

    /// Reaches a moment, if there is one, and returns its number.
    fn arrive_at(&mut self, alloc: Global, node: Option<Node>) -> Result<usize, AllocError> {
        match node {
            Some(node) => self.arrive(alloc, node),
            None => Ok(NOWHERE),
        }
    }

    /// The part of a moment that passes its point: on a clean path the part that breaks no rule, if there is one.
    fn past(&self, ground: &Ground<'_>, spot: &Spot, node: Node) -> Option<Node> {
        if !self.manner.clean {
            return Some(node);
        }
        let by_locks = ground.lists.breaks(node.list, spot.asks);
        if spot.is_broken || (by_locks && self.manner.followed.locks) {
            return None;
        }
        let fine = Possible::ALL.without(spot.bad);
        let (all, part) = kept(self.manner.followed.parts, node.all, fine)?;
        let locks = if by_locks { Some(Stop::Locks) } else { None };
        Some(Node {
            all,
            stop: node.stop.or(locks).or(Stop::of(part)),
            ..node
        })
    }

    /// The moment to which a side leads, if the point may have that outcome.
    fn by(&self, number: usize, left: Node, granted: bool, side: Option<Side>) -> Option<Node> {
        let side = side?;
        let (all, part) = kept(self.manner.followed.parts, left.all, side.keeps)?;
        Some(Node {
            point: side.point,
            all: all.without(side.clears).or(side.puts),
            list: left.list,
            stop: left.stop.or(Stop::of(part)),
            steps: left.steps.saturating_add(1),
            arrival: Some((number, granted)),
        })
    }

    /// The moments that follow that of a number: first the granted one, then the refused one.
    pub(crate) fn behind(
        &mut self,
        ground: &mut Ground<'_>,
        number: usize,
        node: Node,
    ) -> Result<(Option<Node>, Option<Node>), AllocError> {
        let spot = ground.plan.spot(node.point);
        let Some(left) = self.past(ground, &spot, node) else {
            return Ok((None, None));
        };
        let Some(list) = ground.list_behind(node.point, node.list)? else {
            self.is_cut = true;
            return Ok((None, None));
        };
        let left = Node { list, ..left };
        let granted = self.by(number, left, true, spot.granted);
        Ok((granted, self.by(number, left, false, spot.refused)))
    }

    /// Reaches the moments that follow that of a number.
    fn go_on(
        &mut self,
        alloc: Global,
        ground: &mut Ground<'_>,
        number: usize,
        node: Node,
    ) -> Result<(), AllocError> {
        let (granted, refused) = self.behind(ground, number, node)?;
        let asks_entry = ground.plan.spot(node.point).asks_entry;
        let lead = if self.manner.refused_first || asks_entry {
            let refused = self.arrive_at(alloc, refused)?;
            let granted = self.arrive_at(alloc, granted)?;
            Lead { granted, refused }
        } else {
            let granted = self.arrive_at(alloc, granted)?;
            let refused = self.arrive_at(alloc, refused)?;
            Lead { granted, refused }
        };
        self.leads.push(lead)?;
        Ok(())
    }

    /// Continues until all aims are met, nothing more can be reached, or `limit` moments were looked at.
    pub(crate) fn run(
        &mut self,
        alloc: Global,
        ground: &mut Ground<'_>,
        aims: &mut Aims,
        limit: usize,
    ) -> Result<(), AllocError> {
        for number in 0..limit {
            let Some(node) = self.node(number) else {
                return Ok(());
            };
            self.looked = number.saturating_add(1);
            aims.look(ground, self.manner.followed, number, node);
            if aims.are_met(node.steps) {
                return Ok(());
            }
            self.go_on(alloc, ground, number, node)?;
        }
        Ok(())
    }

    /// Continues until nothing more can be reached, or `limit` moments were looked at.
    pub(crate) fn reach_all(
        &mut self,
        alloc: Global,
        ground: &mut Ground<'_>,
        limit: usize,
    ) -> Result<(), AllocError> {
        for number in 0..limit {
            let Some(node) = self.node(number) else {
                return Ok(());
            };
            self.looked = number.saturating_add(1);
            self.go_on(alloc, ground, number, node)?;
        }
        Ok(())
    }

    /// Whether all that can be reached was reached.
    pub(crate) fn is_all(&self) -> bool {
        !self.manner.open_alone && !self.is_cut && self.looked >= self.nodes.len()
    }
}
