//! Contexts, indexed by their links.

ghost use Rattle.std.specs.Prelude.{◌≡◌, ◌+◌, ◌-◌, if◌then◌else◌, List, get_or, set, length, position, None, Some, [], ◌∷◌, ◌++◌, OnOk};
ghost use Rattle.std.specs.List.{list_any};
ghost use Rattle.flt_model.specs.Moves as moves;
ghost use Rattle.flt_model.specs.World as spec;
ghost use Rattle.flt_replay_records.specs.Links.{key_code};

use crate::context_list::ContextList;
use crate::place_set::Places;
use flt_model::{Key, Link};
use std::alloc::{AllocError, Global};
use std::marker::Model;

/// Contexts by number. Two may have one link here, though the machine links none if another is.
#[derive(Drop)]
pub struct Contexts {
    list: ContextList,
    links: Places,
}

impl Model for Contexts {
    ghost use Rattle.std.specs.Prelude.{List};
    ghost use Rattle.flt_model.specs.World as machine;

    ghost Value = { List machine.Context };

    ghost use Rattle.flt_replay_records.specs.Links.{AreLinks};

    ghost view = { λ c. c.list };

    ghost invariant = { λ c. AreLinks c.list c.links.set };
}

fn key_code(key: Key) -> usize
    ensures { result ≡ key_code key }
{
    match key {
        Key::Stream(file) => file as usize + 1,
        Key::Instance => 0,
    }
}

// ---- what is there

impl Contexts {
    /// No contexts.
    pub fn new(alloc: Global) -> Contexts
        ensures { result ≡ [] }
    {
        Contexts {
            list: ContextList::new(alloc),
            links: Places::new(alloc),
        }
    }

    /// The number of contexts there have been. Freed ones stay.
    pub fn len(&self) -> usize
        ensures { result ≡ length self.now }
    {
        self.list.len()
    }

    /// The filter that allocated a context, or 0 if it isn't there.
    #[inline(always)]
    pub fn owner(&self, context: usize) -> usize
        ensures { result ≡ (get_or self.now context spec.no_context).owner }
    {
        self.list.owner(context)
    }

    /// The references of a context, or 0 if it is freed or not there.
    #[inline(always)]
    pub fn references(&self, context: usize) -> u64
        ensures { result ≡ (get_or self.now context spec.no_context).references }
    {
        u64::from(self.list.references(context))
    }

    /// The value of a context, which a freed one keeps, or 0 if it isn't there.
    #[inline(always)]
    pub fn value(&self, context: usize) -> u64
        ensures { result ≡ (get_or self.now context spec.no_context).value }
    {
        self.list.value(context)
    }

    /// The link of a context, or none if it isn't there.
    #[inline(always)]
    pub fn link(&self, context: usize) -> Option<Link>
        ensures { result ≡ (get_or self.now context spec.no_context).link }
    {
        self.list.link(context)
    }

    /// Whether a context has a link that the filter made.
    pub fn is_any_linked_by(&self, filter: usize) -> bool
        ensures { result ≡ list_any (λ (c : spec.Context). moves.is_linked_by filter c.link) self.now }
    {
        self.list.is_any_linked_by(filter)
    }

    /// The context with the least number that has a link.
    #[tactic(auto, using(crate::proofs::PlaceSets::FirstLinked::linked_first))]
    pub fn linked_at(&self, link: Link) -> Option<usize>
        ensures { result ≡ position (λ (c : spec.Context). spec.is_linked_to link c.link) self.now }
    {
        self.links.first(link.filter, key_code(link.key))
    }
}

// ---- changes

impl Contexts {
    /// Adds a new context, with the value 0 and one reference. It fails if the owner is 2^32 or greater.
    pub fn add(&mut self, owner: usize) -> Result<(), AllocError>
        ensures { OnOk result (self.new ≡ self.old ++ record { owner = owner; references = 1; value = 0; link = None } ∷ []) }
    {
        self.list.add(owner)
    }

    /// Sets a context's value. A freed context keeps its value.
    pub fn set_value(&mut self, context: usize, value: u64) -> Result<(), AllocError>
        ensures { OnOk result (self.new ≡ if spec.is_freed (get_or self.old context spec.no_context) then self.old
            else set self.old context (record (get_or self.old context spec.no_context) { value = value })) }
    {
        if self.list.references(context) != 0 {
            self.list.set_value(context, value)?;
        }
        Ok(())
    }

    /// Adds a reference. A freed context stays as it is. It fails if the references would reach 2^32.
    pub fn add_reference(&mut self, context: usize) -> Result<(), AllocError>
        ensures { OnOk result (self.new ≡ set self.old context
            (record (get_or self.old context spec.no_context) {
              references =
                  if spec.is_freed (get_or self.old context spec.no_context) then 0
                  else (get_or self.old context spec.no_context).references + 1;
            })) }
    {
        match self.list.references(context) {
            0 => self.list.set_references(context, 0),
            references => match references.checked_add(1) {
                Some(more) => self.list.set_references(context, more),
                None => return Err(AllocError),
            },
        }
        Ok(())
    }

    /// Drops a reference. A freed context stays as it is.
    pub fn drop_reference(&mut self, context: usize)
        ensures { self.new ≡ set self.old context
            (record (get_or self.old context spec.no_context) { references = (get_or self.old context spec.no_context).references - 1 }) }
    {
        let references = self.list.references(context);
        self.list
            .set_references(context, references.saturating_sub(1));
    }

    /// Clears the context's link.
    pub fn clear_link(&mut self, context: usize)
        ensures { self.new ≡ set self.old context (record (get_or self.old context spec.no_context) { link = None }) }
    {
        if let Some(link) = self.list.link(context) {
            self.links.remove(link.filter, key_code(link.key), context);
        }
        self.list.clear_link(context);
    }

    /// Sets the context's link.
    #[tactic(auto, using(crate::proofs::ContextLists::relinked))]
    pub fn set_link(&mut self, context: usize, link: Link) -> Result<(), AllocError>
        ensures { OnOk result (self.new ≡ set self.old context (record (get_or self.old context spec.no_context) { link = Some link })) }
    {
        self.clear_link(context);
        if context >= self.list.len() {
            return Ok(());
        }
        self.links.insert(link.filter, key_code(link.key), context)?;
        if let Err(refused) = self.list.set_link(context, link) {
            self.links.remove(link.filter, key_code(link.key), context);
            return Err(refused);
        }
        Ok(())
    }
}
