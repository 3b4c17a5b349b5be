//! The entries that lead to each state.

use flt_model::JournalEntry;
use std::alloc::{AllocError, Global};

/// The most nodes back at which repeated turns are sought, and the most entries of a turn.
const MAX_NODES: usize = 64;

const MAX_TURN: usize = 4_096;

/// Some entries after those of another node, repeated.
#[derive(Clone, Copy)]
struct Node {
    from: Option<usize>,
    first: usize,
    count: usize,
    times: usize,
    /// The number of all its entries.
    depth: usize,
}

/// All paths of a round.
#[derive(Drop)]
pub(crate) struct Paths {
    alloc: Global,
    entries: Vec<JournalEntry>,
    nodes: Vec<Node>,
}

fn push_so_often(
    entries: &mut Vec<JournalEntry>,
    part: &[JournalEntry],
    times: usize,
) -> Result<(), AllocError> {
    for _ in 0..times {
        entries.extend_from_slice(part)?;
    }
    Ok(())
}

/// Whether each entry is a step of one activation.
fn are_steps_of(entries: &[JournalEntry], serial: u32) -> bool {
    for entry in entries {
        match entry {
            JournalEntry::Go { activation, .. } if *activation == serial => {}
            _ => return false,
        }
    }
    true
}

impl Paths {
    pub(crate) fn new(alloc: Global) -> Paths {
        Paths {
            alloc,
            entries: Vec::new(alloc),
            nodes: Vec::new(alloc),
        }
    }

    /// The number of entries.
    pub(crate) fn len(&self) -> usize {
        self.entries.len()
    }

    pub(crate) fn push(&mut self, entry: JournalEntry) -> Result<(), AllocError> {
        Ok(self.entries.push(entry)?)
    }

    /// Forgets the entries from one on, which are of no node.
    pub(crate) fn forget(&mut self, first: usize) {
        self.entries.truncate(first);
    }

    /// Appends a copy of the entries from one up to another.
    pub(crate) fn copy(&mut self, first: usize, end: usize) -> Result<(), AllocError> {
        for place in first..end {
            if let Some(entry) = self.entries.get(place) {
                let entry = *entry;
                self.entries.push(entry)?;
            }
        }
        Ok(())
    }

    /// The number of entries that lead to a node. It is 0 for none.
    pub(crate) fn depth(&self, node: Option<usize>) -> usize {
        match node {
            Some(number) => match self.nodes.get(number) {
                Some(node) => node.depth,
                None => 0,
            },
            None => 0,
        }
    }

    fn add(
        &mut self,
        from: Option<usize>,
        first: usize,
        times: usize,
    ) -> Result<usize, AllocError> {
        let number = self.nodes.len();
        let count = self.entries.len().saturating_sub(first);
        let depth = self.depth(from).saturating_add(count.saturating_mul(times));
        self.nodes.push(Node {
            from,
            first,
            count,
            times,
            depth,
        })?;
        Ok(number)
    }

    /// Adds the node of the entries from one on.
    pub(crate) fn add_node(
        &mut self,
        from: Option<usize>,
        first: usize,
    ) -> Result<usize, AllocError> {
        self.add(from, first, 1)
    }

    fn part(&self, node: &Node) -> &[JournalEntry] {
        let end = node.first.saturating_add(node.count);
        if node.first <= end && end <= self.entries.len() {
            &self.entries.as_slice()[node.first..end]
        } else {
            &[]
        }
    }

    /// The nodes after another one, or after none, up to this one, from the last. None if it isn't after that.
    fn nodes_behind(
        &self,
        anchor: Option<usize>,
        node: Option<usize>,
        most: usize,
    ) -> Result<Option<Vec<Node>>, AllocError> {
        let mut path = Vec::new(self.alloc);
        let mut next = node;
        for _ in 0..most {
            if next == anchor {
                return Ok(Some(path));
            }
            let Some(number) = next else {
                return Ok(None);
            };
            let Some(node) = self.nodes.get(number) else {
                return Ok(None);
            };
            path.push(*node)?;
            next = node.from;
        }
        Ok(if next == anchor { Some(path) } else { None })
    }

    fn entries_of(&self, path: &[Node]) -> Result<Vec<JournalEntry>, AllocError> {
        let mut entries = Vec::new(self.alloc);
        for node in path.iter().rev() {
            push_so_often(&mut entries, self.part(node), node.times)?;
        }
        Ok(entries)
    }

    /// All entries that lead to a node.
    pub(crate) fn journal(&self, node: usize) -> Result<Vec<JournalEntry>, AllocError> {
        match self.nodes_behind(None, Some(node), self.nodes.len())? {
            Some(path) => self.entries_of(path.as_slice()),
            None => Ok(Vec::new(self.alloc)),
        }
    }

    /// The steps of an activation from one node to another, or none if others made some too, or if they are many.
    fn turn(
        &self,
        anchor: usize,
        node: usize,
        serial: u32,
    ) -> Result<Option<Vec<JournalEntry>>, AllocError> {
        let depth = self
            .depth(Some(node))
            .saturating_sub(self.depth(Some(anchor)));
        if depth > MAX_TURN {
            return Ok(None);
        }
        let Some(path) = self.nodes_behind(Some(anchor), Some(node), MAX_NODES)? else {
            return Ok(None);
        };
        let entries = self.entries_of(path.as_slice())?;
        if are_steps_of(entries.as_slice(), serial) {
            Ok(Some(entries))
        } else {
            Ok(None)
        }
    }

    /// Adds the node after which the steps of an activation from one node to another are repeated so many times. None if others made some
    /// too.
    pub(crate) fn add_turns(
        &mut self,
        anchor: usize,
        node: usize,
        serial: u32,
        times: usize,
    ) -> Result<Option<usize>, AllocError> {
        let Some(entries) = self.turn(anchor, node, serial)? else {
            return Ok(None);
        };
        let first = self.entries.len();
        self.entries.extend_from_slice(entries.as_slice())?;
        Ok(Some(self.add(Some(node), first, times)?))
    }
}
