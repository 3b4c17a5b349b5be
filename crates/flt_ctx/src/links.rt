//! The rows of contexts, and the lists of their links.
//!
//! Each link has two nodes: one in the list of its target, one in that of its filter. The lists are numbered: those of the filters come
//! first, then that of the instances, then those of the streams.
ghost use Rattle.std.specs.Prelude.{◌≡◌, ◌≢◌, ◌<◌, ◌≤◌, ℕ, ◌⊎◌, length, find, set, Some, IfOk, OnOk, OnErr};
ghost use Rattle.std.specs.FinSet as finite_set;
ghost use Rattle.ilist_core.specs.NodeLists.{nodes_of, IsList, IsNode, IsUnlinked};
ghost use Rattle.flt_ctx.specs.Contexts.{same_key, is_key};
ghost use Rattle.flt_ctx.specs.Rows.{key_of, row_at, context_of, place_of};

use crate::key::{Key, Target};
use counted_heap::Heap;
use ilist_core::{ListId, Lists, NodeId};
use std::alloc::AllocError;

/// How many lists of streams there are.
const STREAM_LISTS: usize = 1024;

/// How many lists of targets there are: one for the instances, and those of the streams.
pub(crate) const TARGET_LISTS: usize = 1025;

/// A link's key, its node in the list of its target, and that in the list of its filter.
#[derive(Clone, Copy, Drop)]
pub(crate) struct Link {
    pub key: Key,
    pub by_target: NodeId,
    pub by_filter: NodeId,
}

/// The row of a context.
#[derive(Clone, Copy, Drop)]
pub(crate) struct Row {
    pub owner: usize,
    pub references: u64,
    pub value: u64,
    pub link: Option<Link>,
}

/// The place of a target's list, counted from 0 after the lists of the filters. Streams with one remainder share a list.
pub(crate) fn place_of(target: Target) -> usize
    ensures place { result ≡ place_of target }
    ensures within { result < 1025 }
{
    match target {
        Target::Instance => 0,
        Target::Stream(file) => 1 + file as usize % STREAM_LISTS,
    }
}

/// Whether the two keys are one.
pub(crate) fn same_key(key: Key, other: Key) -> bool
    ensures { result ≡ same_key key other }
{
    key.filter == other.filter
        && match (key.target, other.target) {
            (Target::Stream(file), Target::Stream(other)) => file == other,
            (Target::Instance, Target::Instance) => true,
            _ => false,
        }
}

/// The context that a node links.
pub(crate) fn context_of(contexts: &[usize], node: NodeId) -> usize
    ensures { result ≡ context_of contexts.now node }
{
    match contexts.get(node.number()) {
        Some(context) => *context,
        None => 0,
    }
}

/// Lets a node link another context.
pub(crate) fn put_context(contexts: &mut Vec<usize>, node: NodeId, context: usize)
    ensures { contexts.new.items ≡ set contexts.old.items node context }
{
    if node.number() < contexts.len() {
        contexts[node.number()] = context;
    }
}

/// A new node that links a context, in no list yet.
pub(crate) fn add_named(
    heap: &mut Heap,
    lists: &mut Lists,
    contexts: &mut Vec<usize>,
    context: usize,
) -> Result<NodeId, AllocError>
    ensures there { IfOk result (IsNode lists.new) }
    ensures unlinked { IfOk result (IsUnlinked lists.new) }
    ensures fresh { IfOk result (λ node. IsNode lists.old node → ⊥) }
    ensures kept { IfOk result (λ _. (other : ℕ) → IsNode lists.old other → IsNode lists.new other) }
    ensures lists { lists.new.lists ≡ lists.old.lists }
    ensures named { IfOk result (λ node. context_of contexts.new.items node ≡ context) }
    ensures within { IfOk result (λ node. node < length contexts.new.items) }
    ensures others { IfOk result (λ node. (other : ℕ) → other ≢ node →
        context_of contexts.new.items other ≡ context_of contexts.old.items other) }
    ensures longer { length contexts.old.items ≤ length contexts.new.items }
    ensures made { IfOk result (λ node. (other : ℕ) → IsNode lists.new other → IsNode lists.old other ⊎ (other ≡ node)) }
    ensures undone { IfOk result (λ node. record lists.new { nodes = finite_set.remove lists.new.nodes node; next_node = node }
        ≡ lists.old) }
    ensures unchanged { OnErr result (lists.new ≡ lists.old) }
    ensures refused { OnErr result ((other : ℕ) → context_of contexts.new.items other ≡ context_of contexts.old.items other) }
    ensures granted { OnOk result (heap.new ≡ heap.old) }
    ensures memory { OnErr result (heap.new ≢ heap.old) }
{
    let node = lists.add_node(heap)?;
    if let Err(refused) = grow(heap, contexts, node) {
        lists.remove_node(node);
        return Err(refused);
    }
    contexts[node.number()] = context;
    Ok(node)
}

/// Makes room for the context that a node links.
fn grow(heap: &mut Heap, contexts: &mut Vec<usize>, node: NodeId) -> Result<(), AllocError>
    ensures within { OnOk result (node < length contexts.new.items) }
    ensures same { (other : ℕ) → context_of contexts.new.items other ≡ context_of contexts.old.items other }
    ensures longer { length contexts.old.items ≤ length contexts.new.items }
    ensures granted { OnOk result (heap.new ≡ heap.old) }
    ensures memory { OnErr result (heap.new ≢ heap.old) }
{
    while contexts.len() <= node.number() {
        heap.push(contexts, 0)?;
    }
    Ok(())
}

/// Whether the context of a number has the key.
pub(crate) fn has_key(rows: &[Row], context: usize, key: Key) -> bool
    ensures { result ≡ is_key key (key_of (row_at rows.now context).link) }
{
    match rows.get(context) {
        Some(row) => match row.link {
            Some(link) => same_key(key, link.key),
            None => false,
        },
        None => false,
    }
}

/// The first node of a list whose context has the key.
pub(crate) fn find_node(
    lists: &Lists,
    rows: &[Row],
    contexts: &[usize],
    list: ListId,
    key: Key,
) -> Option<NodeId>
    requires { IsList lists.now list }
    ensures first { result ≡
        find (λ node. is_key key (key_of (row_at rows.now (context_of contexts.now node)).link)) (nodes_of lists.now.lists list) }
{
    let mut at = lists.front(list);
    while let Some(node) = at {
        let next = lists.next(node);
        if has_key(rows, context_of(contexts, node), key) {
            return Some(node);
        }
        at = next;
    }
    None
}
