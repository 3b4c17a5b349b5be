//! Changes: each is made, or nothing is.

ghost use Rattle.std.specs.Prelude.{◌≡◌, ◌≢◌, OnOk, OnErr};
ghost use Rattle.flt_machine_store.specs.Changes.{after_change, IsPossible};
ghost use Rattle.flt_machine_store.specs.declared.change.Change.TheVariants as change;

use crate::change::Change;
use crate::store::{Store, key_at};
use counted_heap::Heap;
use flt_cbdq::{Entry, InsertFault};
use flt_model::{Holder, Item, Key, Presence, Way};
use flt_ops::ArriveFault;
use flt_rules::{Access, LockNumber, Mode, Operation};
use flt_tree::ContextVariable;
use std::alloc::AllocError;

impl Store {
    /// Makes a change. If memory is refused nothing is changed.
    pub fn perform(&mut self, heap: &mut Heap, change: Change) -> Result<(), AllocError>
        requires { IsPossible self.old change }
        ensures ok { OnOk result (self.new ≡ after_change self.old change) }
        ensures refused { OnErr result (self.new ≡ self.old) }
        ensures granted { OnOk result (heap.new ≡ heap.old) }
        ensures memory { OnErr result (heap.new ≢ heap.old) }
    {
        match change {
            Change::Nothing => {}
            Change::AddReference(context) => self.add_reference(context),
            Change::DropReference(context) => self.drop_reference(context),
            Change::Write(context, value) => self.write(context, value),
            Change::Unlink(context, old) => self.unlink(context, old),
            Change::GiveUpLock(filter, lock, activation) => self.give_up_lock(
                filter, lock, activation,
            ),
            Change::RemoveNext(filter) => self.remove_next(filter),
            Change::RemoveOf(filter, serial, visit) => self.remove_of(filter, serial, visit),
            Change::Start(item) => self.start(item),
            Change::Skip(serial, filter) => self.skip(serial, filter),
            Change::Lower(serial) => self.lower(serial),
            Change::Cancel(serial) => self.cancel(serial),
            Change::Detach(filter) => self.detach(filter),
            Change::Finish(filter) => self.finish(filter),
            Change::Allocate(owner) => return self.allocate(heap, owner),
            Change::Link(context, filter, key, over, old) => {
                return self.link(heap, context, filter, key, over, old);
            }
            Change::TakeLock(filter, lock, activation, access) => {
                return self.take_lock(heap, filter, lock, activation, access);
            }
            Change::Insert(filter, visit, context) => {
                return self.insert(heap, filter, visit, context);
            }
            Change::Queue(filter, routine, visit, context) => {
                return self.queue(heap, filter, routine, visit, context);
            }
            Change::Settle(visit, context, way) => {
                return self.settle(heap, visit, context, way);
            }
            Change::Arrive(kind, mode, file) => return self.arrive(heap, kind, mode, file),
            Change::StartPre(serial, filter) => return self.start_pre(heap, serial, filter),
            Change::StartPost(serial, filter, context) => {
                return self.start_post(heap, serial, filter, context);
            }
            Change::StartDraining(serial, filter, context) => {
                return self.start_draining(heap, serial, filter, context);
            }
        }
        Ok(())
    }
}

// ---- contexts

impl Store {
    fn allocate(&mut self, heap: &mut Heap, owner: usize) -> Result<(), AllocError>
        ensures ok { OnOk result (self.new ≡ after_change self.old (change.Allocate owner)) }
        ensures refused { OnErr result (self.new ≡ self.old) }
        ensures granted { OnOk result (heap.new ≡ heap.old) }
        ensures memory { OnErr result (heap.new ≢ heap.old) }
    {
        self.contexts.alloc(heap, owner)?;
        Ok(())
    }

    fn add_reference(&mut self, context: usize)
        requires { IsPossible self.old (change.AddReference context) }
        ensures { self.new ≡ after_change self.old (change.AddReference context) }
    {
        self.contexts.reference(context);
    }

    fn drop_reference(&mut self, context: usize)
        ensures { self.new ≡ after_change self.old (change.DropReference context) }
    {
        let _ = self.contexts.release(context);
    }

    fn write(&mut self, context: usize, value: u64)
        ensures { self.new ≡ after_change self.old (change.Write context value) }
    {
        self.contexts.set_value(context, value);
    }

    // Who made the change has read which context is linked there, if any, and so knows what `set` does: it replaces that one, or
    // makes the first link. So it never has one to keep.
    fn link(
        &mut self,
        heap: &mut Heap,
        context: usize,
        filter: usize,
        key: Key,
        over: Option<usize>,
        old: Option<ContextVariable>,
    ) -> Result<(), AllocError>
        requires { IsPossible self.old (change.Link context filter key over old) }
        ensures ok { OnOk result (self.new ≡ after_change self.old (change.Link context filter key over old)) }
        ensures refused { OnErr result (self.new ≡ self.old) }
        ensures granted { OnOk result (heap.new ≡ heap.old) }
        ensures memory { OnErr result (heap.new ≢ heap.old) }
    {
        self.contexts
            .set(heap, key_at(filter, key), context, false, old.is_some())?;
        Ok(())
    }

    fn unlink(&mut self, context: usize, old: Option<ContextVariable>)
        ensures { self.new ≡ after_change self.old (change.Unlink context old) }
    {
        let _ = self.contexts.unlink(context, old.is_some());
    }
}

// ---- locks

impl Store {
    fn take_lock(
        &mut self,
        heap: &mut Heap,
        filter: usize,
        lock: LockNumber,
        activation: usize,
        access: Access,
    ) -> Result<(), AllocError>
        ensures ok { OnOk result (self.new ≡ after_change self.old (change.TakeLock filter lock activation access)) }
        ensures refused { OnErr result (self.new ≡ self.old) }
        ensures granted { OnOk result (heap.new ≡ heap.old) }
        ensures memory { OnErr result (heap.new ≢ heap.old) }
    {
        if let Some(holders) = self.holders.get_mut(filter) {
            holders[usize::from(lock.place())].push(heap, Holder { activation, access })?;
        }
        Ok(())
    }

    fn give_up_lock(&mut self, filter: usize, lock: LockNumber, activation: usize)
        ensures { self.new ≡ after_change self.old (change.GiveUpLock filter lock activation) }
    {
        if let Some(holders) = self.holders.get_mut(filter) {
            holders[usize::from(lock.place())].remove(activation);
        }
    }
}

// ---- what waits

impl Store {
    fn insert(
        &mut self,
        heap: &mut Heap,
        filter: usize,
        visit: usize,
        context: Option<usize>,
    ) -> Result<(), AllocError>
        requires { IsPossible self.old (change.Insert filter visit context) }
        ensures ok { OnOk result (self.new ≡ after_change self.old (change.Insert filter visit context)) }
        ensures refused { OnErr result (self.new ≡ self.old) }
        ensures granted { OnOk result (heap.new ≡ heap.old) }
        ensures memory { OnErr result (heap.new ≢ heap.old) }
    {
        match self.queues.insert(heap, filter, Entry { visit, context }) {
            Ok(()) => {
                self.greatest_queued = self.greatest_queued.max(visit);
                Ok(())
            }
            Err(InsertFault::OutOfMemory(_)) => Err(AllocError),
            // The queue of an attached filter takes entries.
            Err(InsertFault::Disabled(_)) => unreachable!(),
        }
    }

    fn remove_next(&mut self, filter: usize)
        ensures { self.new ≡ after_change self.old (change.RemoveNext filter) }
    {
        let _ = self.queues.remove_next(filter);
    }

    // The first entry of the operation is of the visit, so it is the visit's first.
    fn remove_of(&mut self, filter: usize, serial: u32, visit: usize)
        requires { IsPossible self.old (change.RemoveOf filter serial visit) }
        ensures { self.new ≡ after_change self.old (change.RemoveOf filter serial visit) }
    {
        let _ = self.queues.remove(filter, visit);
    }

    fn queue(
        &mut self,
        heap: &mut Heap,
        filter: usize,
        routine: usize,
        visit: Option<usize>,
        context: Option<usize>,
    ) -> Result<(), AllocError>
        ensures ok { OnOk result (self.new ≡ after_change self.old (change.Queue filter routine visit context)) }
        ensures refused { OnErr result (self.new ≡ self.old) }
        ensures granted { OnOk result (heap.new ≡ heap.old) }
        ensures memory { OnErr result (heap.new ≢ heap.old) }
    {
        let item = Item {
            filter,
            routine,
            visit,
            context,
        };
        self.items.push(heap, item)
    }

    fn start(&mut self, item: usize)
        ensures { self.new ≡ after_change self.old (change.Start item) }
    {
        self.items.take(item);
    }
}

// ---- operations

impl Store {
    fn settle(
        &mut self,
        heap: &mut Heap,
        visit: usize,
        context: Option<usize>,
        way: Way,
    ) -> Result<(), AllocError>
        ensures ok { OnOk result (self.new ≡ after_change self.old (change.Settle visit context way)) }
        ensures refused { OnErr result (self.new ≡ self.old) }
        ensures granted { OnOk result (heap.new ≡ heap.old) }
        ensures memory { OnErr result (heap.new ≢ heap.old) }
    {
        self.operations.settle(heap, visit, context, way)
    }

    fn arrive(
        &mut self,
        heap: &mut Heap,
        kind: Operation,
        mode: Mode,
        file: u32,
    ) -> Result<(), AllocError>
        requires { IsPossible self.old (change.Arrive kind mode file) }
        ensures ok { OnOk result (self.new ≡ after_change self.old (change.Arrive kind mode file)) }
        ensures refused { OnErr result (self.new ≡ self.old) }
        ensures granted { OnOk result (heap.new ≡ heap.old) }
        ensures memory { OnErr result (heap.new ≢ heap.old) }
    {
        match self.operations.arrive(heap, kind, mode, file) {
            Ok(_) => Ok(()),
            Err(ArriveFault::OutOfMemory) => Err(AllocError),
            // There is room for one operation more.
            Err(ArriveFault::Full) => unreachable!(),
        }
    }

    fn start_pre(&mut self, heap: &mut Heap, serial: u32, filter: usize) -> Result<(), AllocError>
        requires { IsPossible self.old (change.StartPre serial filter) }
        ensures ok { OnOk result (self.new ≡ after_change self.old (change.StartPre serial filter)) }
        ensures refused { OnErr result (self.new ≡ self.old) }
        ensures granted { OnOk result (heap.new ≡ heap.old) }
        ensures memory { OnErr result (heap.new ≢ heap.old) }
    {
        self.operations.start_pre(heap, serial)?;
        Ok(())
    }

    fn skip(&mut self, serial: u32, filter: usize)
        requires { IsPossible self.old (change.Skip serial filter) }
        ensures { self.new ≡ after_change self.old (change.Skip serial filter) }
    {
        let _ = self.operations.skip(serial);
    }

    fn lower(&mut self, serial: u32)
        requires { IsPossible self.old (change.Lower serial) }
        ensures { self.new ≡ after_change self.old (change.Lower serial) }
    {
        let _ = self.operations.lower(serial);
    }

    fn start_post(
        &mut self,
        heap: &mut Heap,
        serial: u32,
        filter: usize,
        context: Option<usize>,
    ) -> Result<(), AllocError>
        requires { IsPossible self.old (change.StartPost serial filter context) }
        ensures ok { OnOk result (self.new ≡ after_change self.old (change.StartPost serial filter context)) }
        ensures refused { OnErr result (self.new ≡ self.old) }
        ensures granted { OnOk result (heap.new ≡ heap.old) }
        ensures memory { OnErr result (heap.new ≢ heap.old) }
    {
        self.operations.pop_frame(heap, serial)?;
        Ok(())
    }

    fn start_draining(
        &mut self,
        heap: &mut Heap,
        serial: u32,
        filter: usize,
        context: Option<usize>,
    ) -> Result<(), AllocError>
        requires { IsPossible self.old (change.StartDraining serial filter context) }
        ensures ok { OnOk result (self.new ≡ after_change self.old (change.StartDraining serial filter context)) }
        ensures refused { OnErr result (self.new ≡ self.old) }
        ensures granted { OnOk result (heap.new ≡ heap.old) }
        ensures memory { OnErr result (heap.new ≢ heap.old) }
    {
        self.operations.drain(heap, filter, serial)?;
        Ok(())
    }

    fn cancel(&mut self, serial: u32)
        requires { IsPossible self.old (change.Cancel serial) }
        ensures { self.new ≡ after_change self.old (change.Cancel serial) }
    {
        let _ = self.operations.cancel(serial);
    }
}

// ---- filters

impl Store {
    // A filter that is being detached links nothing more, and its queue takes no entry.
    fn detach(&mut self, filter: usize)
        requires { IsPossible self.old (change.Detach filter) }
        ensures { self.new ≡ after_change self.old (change.Detach filter) }
    {
        if let Some(presence) = self.presences.get_mut(filter) {
            *presence = Presence::Detaching;
        }
        self.contexts.close(filter);
        self.queues.disable(filter);
    }

    fn finish(&mut self, filter: usize)
        requires { IsPossible self.old (change.Finish filter) }
        ensures { self.new ≡ after_change self.old (change.Finish filter) }
    {
        if let Some(presence) = self.presences.get_mut(filter) {
            *presence = Presence::Detached;
        }
    }
}
