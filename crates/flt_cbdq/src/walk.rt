//! A walk along one queue.
ghost use Rattle.std.specs.Prelude.{◌≡◌, [], drop, get_or};
ghost use Rattle.flt_cbdq.specs.Queues.{front_of};
ghost use Rattle.flt_cbdq.specs.Kept.{entries_of};

use crate::Entry;
use crate::nodes::entry_of;
use ilist_core::{Lists, NodeId};
use std::marker::Model;

/// A walk along a filter's queue from the front. Contracts see the entries that are left.
#[derive(Drop)]
pub struct Walk<'a> {
    lists: &'a Lists,
    /// By the number of the node.
    entries: &'a [Entry],
    /// The number of the list.
    list: usize,
    at: Option<NodeId>,
}

impl<'a> Model for Walk<'a> {
    ghost use Rattle.std.specs.Prelude.{List, map, IfSome};
    ghost use Rattle.std.specs.List.{Contains};
    ghost use Rattle.ilist_core.specs.NodeLists.{nodes_of, nodes_from};
    ghost use Rattle.flt_cbdq.specs.declared.entry.Entry.{Entry};
    ghost use Rattle.flt_cbdq.specs.Kept.{entry_at};

    ghost Value = { List Entry };

    ghost view = { λ w. map (entry_at w.entries.now) (nodes_from (nodes_of w.lists.now.lists w.list) w.at) };

    ghost invariant = { λ w. IfSome w.at (Contains (nodes_of w.lists.now.lists w.list)) };
}

impl<'a> Walk<'a> {
    /// A walk along the list of a number. If it isn't there, nothing is left.
    pub(crate) fn new(lists: &'a Lists, entries: &'a [Entry], number: usize) -> Walk<'a>
        ensures { result ≡ get_or (entries_of entries.now lists.now.lists) number [] }
    {
        let at = match lists.list(number) {
            Some(list) => lists.front(list),
            None => None,
        };
        Walk {
            lists,
            entries,
            list: number,
            at,
        }
    }

    /// The next entry, which is left no more.
    pub fn next_entry(&mut self) -> Option<Entry>
        ensures first { result ≡ front_of self.old }
        ensures rest { self.new ≡ drop 1 self.old }
    {
        let node = self.at?;
        self.at = self.lists.next(node);
        Some(*entry_of(self.entries, node))
    }
}
