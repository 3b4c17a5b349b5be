//! Lists of nodes with an entry for each node.
ghost use Rattle.std.specs.Prelude.{◌≡◌, ℕ, ◌≢◌, ◌<◌, [], ◌∷◌, ◌++◌, length, find, slice_get, get_or, set, OnOk, OnErr};
ghost use Rattle.std.specs.List.{filter};
ghost use Rattle.ilist_core.specs.NodeLists.{nodes_of, IsList};
ghost use Rattle.flt_cbdq.specs.Queues.{is_of};
ghost use Rattle.flt_cbdq.specs.Kept.{entry_at, entries_of, is_with, nodes_with, IsAdded};

use crate::Entry;
use crate::nodes_by_visit::NodesByVisit;
use counted_heap::Heap;
use ilist_core::{ListId, Lists, NodeId};
use std::alloc::AllocError;

static NO_ENTRY: Entry = Entry {
    visit: 0,
    context: None,
};

/// The entry of a node.
pub(crate) fn entry_of(entries: &[Entry], node: NodeId) -> &Entry
    ensures { result.now ≡ entry_at entries.now node }
{
    match entries.get(node.number()) {
        Some(entry) => entry,
        None => &NO_ENTRY,
    }
}

/// Makes room for the entry of a node. The rows up to it are filled with the entry that is read where no row is.
fn make_room(heap: &mut Heap, entries: &mut Vec<Entry>, node: NodeId) -> Result<(), AllocError>
    ensures room { OnOk result (node < length entries.new.items) }
    ensures same { (other : ℕ) → entry_at entries.new.items other ≡ entry_at entries.old.items other }
    ensures granted { OnOk result (heap.new ≡ heap.old) }
    ensures memory { OnErr result (heap.new ≢ heap.old) }
{
    while entries.len() <= node.number() {
        heap.push(entries, NO_ENTRY)?;
    }
    Ok(())
}

/// Gives a node an entry, and notes it as one of the entry's visit.
fn put_entry(
    heap: &mut Heap,
    entries: &mut Vec<Entry>,
    nodes: &mut NodesByVisit,
    node: NodeId,
    entry: Entry,
) -> Result<(), AllocError>
    ensures put { OnOk result (entry_at entries.new.items node ≡ entry) }
    ensures others { (other : ℕ) → other ≢ node → entry_at entries.new.items other ≡ entry_at entries.old.items other }
    ensures noted { OnOk result (nodes_with nodes.new entry.visit ≡ nodes_with nodes.old entry.visit ++ node ∷ []) }
    ensures apart { (visit : ℕ) → visit ≢ entry.visit → nodes_with nodes.new visit ≡ nodes_with nodes.old visit }
    ensures refused { OnErr result ((other : ℕ) → entry_at entries.new.items other ≡ entry_at entries.old.items other) }
    ensures unnoted { OnErr result (nodes_with nodes.new entry.visit ≡ nodes_with nodes.old entry.visit) }
    ensures granted { OnOk result (heap.new ≡ heap.old) }
    ensures memory { OnErr result (heap.new ≢ heap.old) }
{
    make_room(heap, entries, node)?;
    nodes.push(heap, entry.visit, node)?;
    entries[node.number()] = entry;
    Ok(())
}

/// Puts a new node with this entry at the end of a list.
pub(crate) fn add_entry(
    heap: &mut Heap,
    lists: &mut Lists,
    entries: &mut Vec<Entry>,
    nodes: &mut NodesByVisit,
    list: ListId,
    entry: Entry,
) -> Result<(), AllocError>
    requires { IsList lists.old list }
    ensures added { OnOk result (IsAdded list entry lists.old entries.old.items nodes.old lists.new entries.new.items nodes.new) }
    ensures seen { OnOk result (entries_of entries.new.items lists.new.lists ≡ set
        (entries_of entries.old.items lists.old.lists) list (get_or (entries_of entries.old.items lists.old.lists) list [] ++ entry ∷ [])) }
    ensures refused { OnErr result (lists.new ≡ lists.old) }
    ensures unseen { OnErr result (entries_of entries.new.items lists.new.lists ≡ entries_of entries.old.items lists.old.lists) }
    ensures same { OnErr result ((node : ℕ) → entry_at entries.new.items node ≡ entry_at entries.old.items node) }
    ensures unnoted { OnErr result ((visit : ℕ) → nodes_with nodes.new visit ≡ nodes_with nodes.old visit) }
    ensures granted { OnOk result (heap.new ≡ heap.old) }
    ensures memory { OnErr result (heap.new ≢ heap.old) }
{
    let node = lists.add_node(heap)?;
    if let Err(refused) = put_entry(heap, entries, nodes, node, entry) {
        lists.remove_node(node);
        return Err(refused);
    }
    lists.push_back(list, node);
    Ok(())
}

/// The first node of a list whose entry is of one of the visits.
pub(crate) fn find_node(
    lists: &Lists,
    entries: &[Entry],
    list: ListId,
    visits: &[usize],
) -> Option<NodeId>
    requires { IsList lists.now list }
    ensures { result ≡ find (λ node. is_of visits.now (entry_at entries.now node)) (nodes_of lists.now.lists list) }
{
    let mut at = lists.front(list);
    while let Some(node) = at {
        let next = lists.next(node);
        if visits.contains(&entry_of(entries, node).visit) {
            return Some(node);
        }
        at = next;
    }
    None
}

/// The same, if the nodes of each visit are noted: it walks along the list only if several of the visits have a node.
pub(crate) fn first_node(
    lists: &Lists,
    entries: &[Entry],
    nodes: &NodesByVisit,
    list: ListId,
    visits: &[usize],
) -> Option<NodeId>
    requires there { IsList lists.now list }
    requires noted { (visit : ℕ) → nodes_with nodes.now visit ≡ filter (is_with entries.now visit) (nodes_of lists.now.lists list) }
    ensures { result ≡ find (λ node. is_of visits.now (entry_at entries.now node)) (nodes_of lists.now.lists list) }
{
    let mut found = None;
    for visit in visits {
        let Some(node) = nodes.first(*visit) else {
            continue;
        };
        if found.is_some() {
            return find_node(lists, entries, list, visits);
        }
        found = Some(node);
    }
    found
}

/// The node of a place in a list, counted from 0.
pub(crate) fn node_at(lists: &Lists, list: ListId, place: usize) -> Option<NodeId>
    requires { IsList lists.now list }
    ensures { result ≡ slice_get (nodes_of lists.now.lists list) place }
{
    let mut at = lists.front(list);
    for _ in 0..place {
        at = lists.next(at?);
    }
    at
}
