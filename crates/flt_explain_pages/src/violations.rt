//! The pages of the violations, from docs/MACHINE.md. `tools/write-pages` writes this file.

pub(crate) const V1: &str = "V1: stale use

A callback uses a variable that names nothing, or that names a context or an operation that the activation
doesn't hold; or it uses a context that was freed, or one of another filter. Only a reference of its own keeps a context alive for
a callback. Without one, another thread deletes the context, the last reference goes, and the next read is a read of freed memory.
Using something that isn't held is a violation whether or not it is freed yet: the run in which it is freed is another interleaving of the
same callbacks. The same holds for an operation that was queued, deferred or completed: whoever has it now may complete it, and
the filter manager then reuses it.
";

pub(crate) const V2: &str = "V2: a leak

An activation ends while it holds a context. Nobody can drop the reference any more, so the context is never freed
and teardown waits for it. A context that went to a frame, an entry or a work item isn't leaked: that one's callback will hold it.
";

pub(crate) const V3: &str = "V3: settled twice

A settled visit is settled again: an operation is completed after a `return` passed it on, or the
reverse. The filter manager would resume an operation that has continued or is over.
";

pub(crate) const V4: &str = "V4: not one owner

The owners of a visit are the activations that hold it, the queue entries and the work items that have it.
It is a violation if an unsettled visit has no owner or more than one, or if a settled visit has any. Without an owner nobody will
ever complete the operation, and its caller waits for ever: a callback returned PENDING and kept the operation, or a routine ended
without completing it. If a settled visit has an owner, as where a callback queues an operation and then returns NO_CALLBACK, that
owner will complete an operation that isn't the filter's any more.
";

pub(crate) const V5: &str = "V5: a status that isn't legal

A returned status must fit the callback's stage, the operation's mode, the draining flag, the
registered callbacks (WITH_CALLBACK and SYNCHRONIZE need the post callback) and whether the operation is held or was given away; a pre or
post callback must return one; `canceled` and routines must not. A status given to FltCompletePendedPreOperation must be
WITH_CALLBACK, NO_CALLBACK or COMPLETE, for a pre visit; for the `data` of `canceled` it must be COMPLETE. Only an IRP may be
queued or deferred, whether or not that call succeeds. The filter manager acts on the status that it gets: it would look for a
post callback that doesn't exist, or wait for an operation that nobody pended.
";

pub(crate) const V6: &str = "V6: above its level

A call is made at a level above the greatest that the call allows. The level is the greatest of the
callback's own level and those of the locks that it holds. A routine that touches paged memory or waits at DISPATCH_LEVEL brings
the system down.
";

pub(crate) const V7: &str = "V7: lock discipline

An activation releases a lock that isn't the latest that it took, takes a lock that it holds, however it
holds it, or ends with a lock. In the second case it waits for itself for ever; in the third it makes everybody else wait. It is a
violation, too, if a lock has an exclusive holder while another activation holds it. This half is about the world after the step,
and the machine itself never breaks it: a lock is taken only where the other holders allow it (`locks_stay_exclusive` in
`flt_model`). It says in one sentence what locks are for.
";

pub(crate) const V8: &str = "V8: not at this place

A call is made at a place where the table doesn't allow it: for example a stream context is requested
in the pre callback of a create, which has no stream yet. Or a draining callback does more than clean up. The system isn't ready
for such a call there.
";
