//! The contexts themselves.
//!
//! A link isn't moved in its lists when another context takes it over: its two nodes stay, and name the other context. So a replacement
//! takes no memory, and only a link that is new does, before anything is changed. The streams with a link are also in an index, where the
//! first one of a filter is found without a search.
ghost use Rattle.std.specs.Prelude.{◌≡◌, ◌≢◌, ℕ, ◌-◌, ◌^◌, ◌<◌, ◌≤◌, ◌↔◌, true, false, List, [], ◌∷◌, ◌++◌, replicate, length, is_some};
ghost use Rattle.std.specs.Prelude.{option_map, IsSome, Some, None, set, if◌then◌else◌, Ok, IfOk, OnOk, OnErr, IfSome, IfNone, MatchOption};
ghost use Rattle.flt_ctx.specs.Contexts.{context_at, is_freed, linked_at, order_of, add_reference, drop_reference, put_value};
ghost use Rattle.flt_ctx.specs.Contexts.{with_link, put_link, after_unlink, is_closed, cannot_link, CanLink, IsReplaced};
ghost use Rattle.flt_ctx.specs.declared.answers.SetAnswer.TheVariants as answer;
ghost use Rattle.flt_ctx.specs.declared.answers.UnlinkedContext.{UnlinkedContext};
ghost use Rattle.flt_ctx.specs.declared.answers.Release.TheVariants.{Freed};
ghost use Rattle.flt_ctx.specs.declared.key.Key.{Key};

use crate::OutOfMemory;
use crate::answers::{Release, SetAnswer, UnlinkedContext};
use crate::key::{Key, Target};
use crate::links::{
    Link, Row, TARGET_LISTS, add_named, context_of, find_node, place_of, put_context,
};
use crate::stream_set::StreamSet;
use counted_heap::Heap;
use ilist_core::Lists;
use std::marker::Model;

/// Contexts by number, each with the link that it may have, and the filters that are closed.
///
/// Contracts see the owner, references, value and link of each context, and whether each filter is closed. A context that isn't there
/// counts as freed, a filter that isn't there as closed.
#[derive(Drop)]
pub struct Contexts {
    rows: Vec<Row>,
    closed: Vec<bool>,
    lists: Lists,
    // By the number of a node, the context that it links.
    contexts: Vec<usize>,
    streams: StreamSet,
}

impl Model for Contexts {
    ghost use Rattle.std.specs.Prelude.{map, length};
    ghost use Rattle.flt_ctx.specs.Contexts.{ContextTable};

    ghost Value = { ContextTable };

    ghost use Rattle.flt_ctx.specs.Rows.{as_context};
    ghost use Rattle.flt_ctx.specs.Kept.{AreKept};

    ghost view = { λ c. record { contexts = map as_context c.rows.items; closed = c.closed.items } };

    ghost invariant = { λ c. AreKept c.rows.items (length c.closed.items) c.lists c.contexts.items c.streams.set };
}

impl Contexts {
    /// No context yet, for so many filters, none of them closed.
    pub fn new(heap: &mut Heap, filters: usize) -> Result<Self, OutOfMemory>
        ensures empty { IfOk result (λ c. c ≡ record { contexts = []; closed = replicate filters false }) }
        ensures granted { OnOk result (heap.new ≡ heap.old) }
        ensures memory { OnErr result (heap.new ≢ heap.old) }
    {
        let alloc = heap.alloc();
        let mut lists = Lists::new(alloc);
        let mut closed = Vec::new(alloc);
        for _ in 0..filters {
            heap.push(&mut closed, false)?;
            lists.new_list(heap)?;
        }
        for _ in 0..TARGET_LISTS {
            lists.new_list(heap)?;
        }
        Ok(Contexts {
            rows: Vec::new(alloc),
            closed,
            lists,
            contexts: Vec::new(alloc),
            streams: StreamSet::new(alloc),
        })
    }

    /// How many contexts were ever made, freed ones included: the number that the next one gets.
    pub fn len(&self) -> usize
        ensures { result ≡ length self.now.contexts }
    {
        self.rows.len()
    }

    /// Makes a context of the filter `owner`, with the value 0 and one reference, and answers its number.
    pub fn alloc(&mut self, heap: &mut Heap, owner: usize) -> Result<usize, OutOfMemory>
        ensures number { IfOk result (λ x. x ≡ length self.old.contexts) }
        ensures made { OnOk result (self.new ≡ record self.old {
          contexts = self.old.contexts ++ record { owner = owner; references = 1; value = 0; link = None } ∷ [];
        }) }
        ensures refused { OnErr result (self.new ≡ self.old) }
        ensures granted { OnOk result (heap.new ≡ heap.old) }
        ensures memory { OnErr result (heap.new ≢ heap.old) }
    {
        let number = self.rows.len();
        let row = Row {
            owner,
            references: 1,
            value: 0,
            link: None,
        };
        heap.push(&mut self.rows, row)?;
        Ok(number)
    }

    /// Adds a reference. A freed context stays as it is.
    pub fn reference(&mut self, context: usize)
        requires { (context_at self.old context).references < 2 ^ 64 - 1 }
        ensures { self.new ≡ add_reference self.old context }
    {
        if context < self.rows.len() {
            let row = &mut self.rows[context];
            if row.references != 0 {
                row.references += 1;
            }
        }
    }

    /// Drops a reference, and with the last one frees the context. A freed context stays as it is.
    pub fn release(&mut self, context: usize) -> Release
        ensures freed { (result ≡ Freed) ↔ ((context_at self.old context).references ≡ 1) }
        ensures dropped { self.new ≡ drop_reference self.old context }
    {
        if context < self.rows.len() {
            let row = &mut self.rows[context];
            if row.references != 0 {
                row.references -= 1;
                if row.references == 0 {
                    return Release::Freed;
                }
            }
        }
        Release::Alive
    }

    /// How many references the context has, or `None` once it is freed.
    pub fn references(&self, context: usize) -> Option<u64>
        ensures { result ≡ (if is_freed (context_at self.now context) then None else Some (context_at self.now context).references) }
    {
        match self.rows.get(context) {
            Some(row) if row.references != 0 => Some(row.references),
            _ => None,
        }
    }

    /// The context's value, which a freed one keeps; 0 if it doesn't exist.
    pub fn value(&self, context: usize) -> u64
        ensures { result ≡ (context_at self.now context).value }
    {
        match self.rows.get(context) {
            Some(row) => row.value,
            None => 0,
        }
    }

    /// Writes the context's value. A freed context stays as it is.
    pub fn set_value(&mut self, context: usize, value: u64)
        ensures { self.new ≡ put_value self.old context value }
    {
        if context < self.rows.len() {
            let row = &mut self.rows[context];
            if row.references != 0 {
                row.value = value;
            }
        }
    }

    /// Closes the filter: from now on `set` links nothing for it. Its links stay.
    pub fn close(&mut self, filter: usize)
        ensures { self.new ≡ record self.old { closed = set self.old.closed filter true } }
    {
        if filter < self.closed.len() {
            self.closed[filter] = true;
        }
    }

    /// Whether a context is linked there.
    pub fn linked(&self, key: Key) -> bool
        ensures { result ≡ is_some (linked_at self.now key) }
    {
        self.linked_at(key).is_some()
    }

    /// The context that is linked there; there is one at most.
    pub fn linked_at(&self, key: Key) -> Option<usize>
        ensures found { result ≡ linked_at self.now key }
        ensures alone { (x : ℕ) → (context_at self.now x).link ≡ Some key → result ≡ Some x }
    {
        let list = self.lists.list(self.closed.len() + place_of(key.target))?;
        let node = find_node(
            &self.lists,
            self.rows.as_slice(),
            self.contexts.as_slice(),
            list,
            key,
        )?;
        Some(context_of(self.contexts.as_slice(), node))
    }

    /// The first key of the filter at which a context is linked: the instance, otherwise the stream with the least number.
    pub fn first_key(&self, filter: usize) -> Option<Key>
        ensures linked { IfSome result (λ key. (key.filter ≡ filter) × (is_some (linked_at self.now key) ≡ true)) }
        ensures least { IfSome result (λ key. (x : ℕ) (other : Key) → (context_at self.now x).link ≡ Some other → other.filter ≡ filter →
            order_of key.target ≤ order_of other.target) }
        ensures none { IfNone result ((x : ℕ) (key : Key) → (context_at self.now x).link ≡ Some key → key.filter ≢ filter) }
    {
        if !self.has_links(filter) {
            return None;
        }
        let instance = Key {
            filter,
            target: Target::Instance,
        };
        if self.linked(instance) {
            return Some(instance);
        }
        let file = self.streams.least(filter)?;
        Some(Key {
            filter,
            target: Target::Stream(file),
        })
    }

    /// Whether a context is linked for the filter, which the filter's list shows at once.
    fn has_links(&self, filter: usize) -> bool
        ensures some { result ≡ true → (x : ℕ) × (key : Key) × (((context_at self.now x).link ≡ Some key) × (key.filter ≡ filter)) }
        ensures none { result ≡ false → (x : ℕ) (key : Key) → (context_at self.now x).link ≡ Some key → key.filter ≢ filter }
    {
        if filter >= self.closed.len() {
            return false;
        }
        let list = self.lists.list(filter).unwrap();
        self.lists.front(list).is_some()
    }

    /// The context that is linked there, to which it adds a reference.
    pub fn get(&mut self, key: Key) -> Option<usize>
        requires { (x : ℕ) → linked_at self.old key ≡ Some x → (context_at self.old x).references < 2 ^ 64 - 1 }
        ensures found { result ≡ linked_at self.old key }
        ensures counted { IfSome result (λ x. self.new ≡ add_reference self.old x) }
        ensures missing { IfNone result (self.new ≡ self.old) }
    {
        let found = self.linked_at(key)?;
        self.reference(found);
        Some(found)
    }

    /// Takes the context's link away, and leaves its references as they are.
    fn clear_link(&mut self, context: usize)
        ensures { self.new ≡ with_link self.old context None }
    {
        if context < self.rows.len() {
            if let Some(link) = self.rows[context].link {
                self.lists.unlink(link.by_target);
                self.lists.remove_node(link.by_target);
                self.lists.unlink(link.by_filter);
                self.lists.remove_node(link.by_filter);
                self.streams.remove(link.key);
                self.rows[context].link = None;
            }
        }
    }

    /// Makes the link of one context that of another.
    fn move_link(&mut self, from: usize, to: usize)
        requires linked { IsSome (context_at self.old from).link }
        requires free { (context_at self.old to).link ≡ None }
        requires there { to < length self.old.contexts }
        ensures { self.new ≡ with_link (with_link self.old from None) to (context_at self.old from).link }
    {
        if from < self.rows.len() {
            if let Some(link) = self.rows[from].link {
                put_context(&mut self.contexts, link.by_target, to);
                put_context(&mut self.contexts, link.by_filter, to);
                self.rows[from].link = None;
                self.rows[to].link = Some(link);
            }
        }
    }

    /// Takes the context's link away, and drops the link's reference unless the caller wants it. A context without a link loses a
    /// reference all the same.
    pub fn unlink(&mut self, context: usize, wanted: bool) -> Release
        ensures released { (result ≡ Freed) ↔ ((wanted ≡ false) × ((context_at self.old context).references ≡ 1)) }
        ensures unlinked { self.new ≡ after_unlink self.old context wanted }
    {
        self.clear_link(context);
        if wanted {
            Release::Alive
        } else {
            self.release(context)
        }
    }

    /// Unlinks the context that is linked there. The link's reference passes to the caller who wants it, otherwise it is dropped.
    pub fn delete_at(&mut self, key: Key, want_old: bool) -> Option<UnlinkedContext>
        ensures found { option_map (λ (u : UnlinkedContext). u.context) result ≡ linked_at self.old key }
        ensures released { IfSome result (λ u. (u.release ≡ Freed) ↔
            ((want_old ≡ false) × ((context_at self.old u.context).references ≡ 1))) }
        ensures unlinked { IfSome result (λ u. self.new ≡ after_unlink self.old u.context want_old) }
        ensures missing { IfNone result (self.new ≡ self.old) }
    {
        let context = self.linked_at(key)?;
        let release = self.unlink(context, want_old);
        Some(UnlinkedContext { context, release })
    }

    /// Unlinks the context, and drops the link's reference. A context without a link stays as it is.
    pub fn delete(&mut self, context: usize) -> Release
        ensures released { (result ≡ Freed) ↔
            ((is_some (context_at self.old context).link ≡ true) × ((context_at self.old context).references ≡ 1)) }
        ensures unlinked { self.new ≡ (if is_some (context_at self.old context).link then after_unlink self.old context false
            else self.old) }
    {
        if self.is_linked(context) {
            self.unlink(context, false)
        } else {
            Release::Alive
        }
    }

    /// Whether the context is linked somewhere.
    pub fn is_linked(&self, context: usize) -> bool
        ensures { result ≡ is_some (context_at self.now context).link }
    {
        match self.rows.get(context) {
            Some(row) => row.link.is_some(),
            None => false,
        }
    }

    /// Links the context there, if none is linked. Its references stay as they are.
    fn put_link(&mut self, heap: &mut Heap, context: usize, key: Key) -> Result<(), OutOfMemory>
        requires there { context < length self.old.contexts }
        requires free { (context_at self.old context).link ≡ None }
        requires open { key.filter < length self.old.closed }
        requires none { linked_at self.old key ≡ None }
        ensures ok { OnOk result (self.new ≡ with_link self.old context (Some key)) }
        ensures refused { OnErr result (self.new ≡ self.old) }
        ensures granted { OnOk result (heap.new ≡ heap.old) }
        ensures memory { OnErr result (heap.new ≢ heap.old) }
    {
        let target = self
            .lists
            .list(self.closed.len() + place_of(key.target))
            .unwrap();
        let filter = self.lists.list(key.filter).unwrap();
        let by_target = add_named(heap, &mut self.lists, &mut self.contexts, context)?;
        let by_filter = match add_named(heap, &mut self.lists, &mut self.contexts, context) {
            Ok(node) => node,
            Err(refused) => {
                self.lists.remove_node(by_target);
                return Err(refused);
            }
        };
        if let Err(refused) = self.streams.insert(heap, key) {
            self.lists.remove_node(by_filter);
            self.lists.remove_node(by_target);
            return Err(refused);
        }
        self.lists.push_back(target, by_target);
        self.lists.push_back(filter, by_filter);
        self.rows[context].link = Some(Link {
            key,
            by_target,
            by_filter,
        });
        Ok(())
    }

    /// Whether the filter is closed, or there is no such filter.
    pub fn is_closed(&self, filter: usize) -> bool
        ensures closed { result ≡ is_closed self.now filter }
        ensures open { result ≡ false → filter < length self.now.closed }
    {
        match self.closed.get(filter) {
            Some(closed) => *closed,
            None => true,
        }
    }

    /// Whether `set` refuses the context: it is linked already, freed, or not there.
    pub fn cannot_link(&self, context: usize) -> bool
        ensures cannot { result ≡ cannot_link (context_at self.now context) }
        ensures there { result ≡ false → context < length self.now.contexts }
    {
        match self.rows.get(context) {
            Some(row) => row.link.is_some() || row.references == 0,
            None => true,
        }
    }

    /// Links the context there, with a reference of the link's own.
    ///
    /// Refusals are tested in this order: the filter is closed; the context is linked or freed; another one is linked there and must be
    /// kept, which then gets one reference more if the caller wants it. One that isn't kept loses its link, whose reference passes to the
    /// caller who wants it, otherwise it is dropped.
    pub fn set(
        &mut self,
        heap: &mut Heap,
        key: Key,
        context: usize,
        keep: bool,
        want_old: bool,
    ) -> Result<SetAnswer, OutOfMemory>
        requires counted { (context_at self.old context).references < 2 ^ 64 - 1 }
        requires old_counted { (x : ℕ) → keep ≡ true → want_old ≡ true → linked_at self.old key ≡ Some x →
            (context_at self.old x).references < 2 ^ 64 - 1 }
        ensures deleting { is_closed self.old key.filter ≡ true → (result ≡ Ok answer.Deleting) × (self.new ≡ self.old) }
        ensures linked { is_closed self.old key.filter ≡ false → cannot_link (context_at self.old context) ≡ true →
            (result ≡ Ok answer.Linked) × (self.new ≡ self.old) }
        ensures defined { (x : ℕ) → CanLink self.old key context → keep ≡ true → linked_at self.old key ≡ Some x →
            (result ≡ Ok (answer.Defined x)) × (self.new ≡ (if want_old then add_reference self.old x else self.old)) }
        ensures replaced { (x : ℕ) → CanLink self.old key context → keep ≡ false → linked_at self.old key ≡ Some x →
            (IsReplaced (context_at self.old x) x want_old result) × (self.new ≡ put_link (after_unlink self.old x want_old) context key) }
        ensures done { CanLink self.old key context → linked_at self.old key ≡ None →
            OnOk result ((result ≡ Ok (answer.Done None)) × (self.new ≡ put_link self.old context key)) }
        ensures refused { OnErr result (self.new ≡ self.old) }
        ensures granted { OnOk result (heap.new ≡ heap.old) }
        ensures memory { OnErr result (heap.new ≢ heap.old) }
    {
        if self.is_closed(key.filter) {
            return Ok(SetAnswer::Deleting);
        }
        if self.cannot_link(context) {
            return Ok(SetAnswer::Linked);
        }
        match self.linked_at(key) {
            None => {
                self.put_link(heap, context, key)?;
                self.reference(context);
                Ok(SetAnswer::Done(None))
            }
            Some(other) => {
                if keep {
                    if want_old {
                        self.reference(other);
                    }
                    Ok(SetAnswer::Defined(other))
                } else {
                    let release = self.replace(other, context, want_old);
                    Ok(SetAnswer::Done(Some(UnlinkedContext {
                        context: other,
                        release,
                    })))
                }
            }
        }
    }

    /// Makes the link of one context that of another, to which it adds a reference. The link's reference to the first is dropped unless the
    /// caller wants it.
    fn replace(&mut self, from: usize, to: usize, wanted: bool) -> Release
        requires linked { IsSome (context_at self.old from).link }
        requires free { (context_at self.old to).link ≡ None }
        requires there { to < length self.old.contexts }
        requires counted { (context_at self.old to).references < 2 ^ 64 - 1 }
        ensures released { (result ≡ Freed) ↔ ((wanted ≡ false) × ((context_at self.old from).references ≡ 1)) }
        ensures linked { self.new ≡ with_link (add_reference (after_unlink self.old from wanted) to) to (context_at self.old from).link }
    {
        self.move_link(from, to);
        self.reference(to);
        if wanted {
            Release::Alive
        } else {
            self.release(from)
        }
    }
}
