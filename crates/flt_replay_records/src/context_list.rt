//! Contexts by number, in eight bytes each. Most have no value and no link: values and links are in lists of their own, as long as the last
//! context that ever had one requires.

ghost use Rattle.std.specs.Prelude.{◌≡◌, ◌<◌, ◌≤◌, ◌++◌, ◌∷◌, List, [], ℕ, Option, Some, None, length, get_or, set, OnOk, OnErr};
ghost use Rattle.std.specs.List.{list_any};
ghost use Rattle.flt_model.specs.Moves as moves;
ghost use Rattle.flt_model.specs.World as spec;
ghost use Rattle.flt_replay_records.specs.ContextLists.{no_one};

use crate::parts::in_four_bytes;
use flt_model::Link;
use std::alloc::{AllocError, Global};
use std::marker::Model;

/// The filter that allocated a context, and its references; without any it is freed.
#[derive(Drop)]
struct Allocation {
    owner: u32,
    references: u32,
}

/// Contexts by number.
#[derive(Drop)]
pub(crate) struct ContextList {
    list: Vec<Allocation>,
    /// The value of each. Past the end, it is 0.
    values: Vec<u64>,
    /// The link of each. Past the end, there is none.
    links: Vec<Option<Link>>,
}

impl Model for ContextList {
    ghost use Rattle.std.specs.Prelude.{List, ◌≤◌, length};
    ghost use Rattle.flt_model.specs.World as machine;

    ghost Value = { List machine.Context };

    ghost use Rattle.flt_replay_records.specs.ContextLists.{contexts_of};

    ghost view = { λ c. contexts_of c.list.items c.values.items c.links.items };

    ghost invariant = { λ c. (length c.values.items ≤ length c.list.items) × (length c.links.items ≤ length c.list.items) };
}

/// Makes room for the value of a context.
#[cold]
#[tactic(auto, using(crate::proofs::ContextLists::values_filled))]
fn make_value(values: &mut Vec<u64>, context: usize) -> Result<(), AllocError>
    ensures room { OnOk result (context < length values.new.items) }
    ensures same { (n : ℕ) → get_or values.new.items n 0 ≡ get_or values.old.items n 0 }
    ensures within { (n : ℕ) → length values.old.items ≤ n → context < n → length values.new.items ≤ n }
    ensures err { OnErr result (values.new.items ≡ values.old.items) }
{
    let Some(length) = context.checked_add(1) else {
        return Err(AllocError);
    };
    if values.len() < length {
        values.resize(length, 0)?;
    }
    Ok(())
}

/// Makes room for the link of a context.
#[cold]
#[tactic(auto, using(crate::proofs::ContextLists::links_filled))]
fn make_link(links: &mut Vec<Option<Link>>, context: usize) -> Result<(), AllocError>
    ensures room { OnOk result (context < length links.new.items) }
    ensures same { (n : ℕ) → get_or links.new.items n None ≡ get_or links.old.items n None }
    ensures within { (n : ℕ) → length links.old.items ≤ n → context < n → length links.new.items ≤ n }
    ensures err { OnErr result (links.new.items ≡ links.old.items) }
{
    let Some(length) = context.checked_add(1) else {
        return Err(AllocError);
    };
    if links.len() < length {
        links.resize(length, None)?;
    }
    Ok(())
}

/// Sets the number of a context's references.
#[inline(always)]
fn put_references(list: &mut Vec<Allocation>, context: usize, references: u32)
    ensures { list.new.items ≡ set list.old.items context (record (get_or list.old.items context no_one) { references = references }) }
{
    if let Some(allocated) = list.get_mut(context) {
        allocated.references = references;
    }
}

/// Whether the filter made the link.
fn is_linked_by(filter: usize, link: &Option<Link>) -> bool
    ensures { result ≡ moves.is_linked_by filter link.now }
{
    match link {
        Some(link) => link.filter == filter,
        None => false,
    }
}

/// Whether the filter made one of the links.
fn is_any_linked_by(filter: usize, links: &[Option<Link>]) -> bool
    ensures { result ≡ list_any (moves.is_linked_by filter) links.now }
{
    links.iter().any(|link| is_linked_by(filter, link))
}

impl ContextList {
    /// No contexts.
    #[tactic(auto, unfolding(crate::specs::ContextLists::contexts_of))]
    pub(crate) fn new(alloc: Global) -> ContextList
        ensures { result ≡ [] }
    {
        ContextList {
            list: Vec::new(alloc),
            values: Vec::new(alloc),
            links: Vec::new(alloc),
        }
    }

    /// The number of contexts.
    #[tactic(auto, using(crate::proofs::ContextLists::length_is))]
    pub(crate) fn len(&self) -> usize
        ensures { result ≡ length self.now }
    {
        self.list.len()
    }

    /// The filter that allocated a context, or 0 if it isn't there.
    #[inline(always)]
    #[tactic(auto, using(crate::proofs::ContextLists::owner_is))]
    pub(crate) fn owner(&self, context: usize) -> usize
        ensures { result ≡ (get_or self.now context spec.no_context).owner }
    {
        match self.list.get(context) {
            Some(allocated) => allocated.owner as usize,
            None => 0,
        }
    }

    /// The references of a context, or 0 if it is freed or not there.
    #[inline(always)]
    #[tactic(auto, using(crate::proofs::ContextLists::references_are))]
    pub(crate) fn references(&self, context: usize) -> u32
        ensures { result ≡ (get_or self.now context spec.no_context).references }
    {
        match self.list.get(context) {
            Some(allocated) => allocated.references,
            None => 0,
        }
    }

    /// The value of a context, or 0 if it isn't there.
    #[inline(always)]
    #[tactic(auto, using(crate::proofs::ContextLists::value_is))]
    pub(crate) fn value(&self, context: usize) -> u64
        ensures { result ≡ (get_or self.now context spec.no_context).value }
    {
        match self.values.get(context) {
            Some(value) => *value,
            None => 0,
        }
    }

    /// The link of a context, or none if it isn't there.
    #[inline(always)]
    #[tactic(auto, using(crate::proofs::ContextLists::link_is))]
    pub(crate) fn link(&self, context: usize) -> Option<Link>
        ensures { result ≡ (get_or self.now context spec.no_context).link }
    {
        match self.links.get(context) {
            Some(link) => *link,
            None => None,
        }
    }

    /// Whether a context has a link that the filter made.
    #[tactic(auto, using(crate::proofs::ContextLists::any_linked))]
    pub(crate) fn is_any_linked_by(&self, filter: usize) -> bool
        ensures { result ≡ list_any (λ (c : spec.Context). moves.is_linked_by filter c.link) self.now }
    {
        is_any_linked_by(filter, self.links.as_slice())
    }

    /// Adds a new context, with the value 0, one reference and no link. It fails if the owner is 2^32 or greater.
    #[tactic(auto, using(crate::proofs::ContextLists::added))]
    pub(crate) fn add(&mut self, owner: usize) -> Result<(), AllocError>
        ensures ok { OnOk result (self.new ≡ self.old ++ record { owner = owner; references = 1; value = 0; link = None } ∷ []) }
        ensures err { OnErr result (self.new ≡ self.old) }
    {
        let owner = in_four_bytes(owner)?;
        self.list.push(Allocation {
            owner,
            references: 1,
        })?;
        Ok(())
    }

    /// Sets the number of a context's references.
    #[inline(always)]
    #[tactic(auto, using(crate::proofs::ContextLists::referenced))]
    pub(crate) fn set_references(&mut self, context: usize, references: u32)
        ensures { self.new ≡ set self.old context (record (get_or self.old context spec.no_context) { references = references }) }
    {
        put_references(&mut self.list, context, references);
    }

    /// Sets a context's value.
    #[tactic(auto, using(crate::proofs::ContextLists::valued, crate::proofs::ContextLists::changed_past))]
    pub(crate) fn set_value(&mut self, context: usize, value: u64) -> Result<(), AllocError>
        ensures ok { OnOk result (self.new ≡ set self.old context (record (get_or self.old context spec.no_context) { value = value })) }
        ensures err { OnErr result (self.new ≡ self.old) }
    {
        if context >= self.list.len() {
            return Ok(());
        }
        if context >= self.values.len() {
            make_value(&mut self.values, context)?;
        }
        if let Some(place) = self.values.get_mut(context) {
            *place = value;
        }
        Ok(())
    }

    /// Sets a context's link.
    #[tactic(auto, using(crate::proofs::ContextLists::linked, crate::proofs::ContextLists::changed_past))]
    pub(crate) fn set_link(&mut self, context: usize, link: Link) -> Result<(), AllocError>
        ensures ok { OnOk result (self.new ≡ set self.old context (record (get_or self.old context spec.no_context) { link = Some link })) }
        ensures err { OnErr result (self.new ≡ self.old) }
    {
        if context >= self.list.len() {
            return Ok(());
        }
        make_link(&mut self.links, context)?;
        if let Some(place) = self.links.get_mut(context) {
            *place = Some(link);
        }
        Ok(())
    }

    /// Clears a context's link.
    #[tactic(auto, using(crate::proofs::ContextLists::linked, crate::proofs::ContextLists::unlinked))]
    pub(crate) fn clear_link(&mut self, context: usize)
        ensures { self.new ≡ set self.old context (record (get_or self.old context spec.no_context) { link = None }) }
    {
        if let Some(place) = self.links.get_mut(context) {
            *place = None;
        }
    }
}
