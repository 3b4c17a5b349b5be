//! The pages of the rules, from docs/RULES.md. `tools/write-pages` writes this file.

pub(crate) const R01: &str = "R01: context not held where used

The callback reads or writes the value of a context, or sets, references, deletes or releases the context, while it may have no
reference to it.

The bug. A context is used after the last reference to it may be gone, or a NULL pointer is used: freed pool is read or
corrupted, or the system stops. A second release takes a reference that belongs to someone else.

    filter a altitude 100
    pre read {
      if FltGetInstanceContext c0 {
        FltReleaseContext c0
        n0 = value c0
      }
      return NO_CALLBACK
    }

  = refused callback 0 point 2 line 5 R01 context not held where used

To fix it, use the context before its release. If one of two paths releases it, set it to NULL there and test it later:

    filter a altitude 100
    pre read {
      if FltGetInstanceContext c0 {
        n0 = value c0
        if n0 == 0 {
          FltReleaseContext c0
          c0 = NULL
        }
        if c0 != NULL {
          value c0 = 0
          FltReleaseContext c0
        }
      }
      return NO_CALLBACK
    }
";

pub(crate) const R02: &str = "R02: context held at end

The callback ends while a variable may own a context. The context that the returned status names doesn't count: it goes to the
postoperation callback.

The bug. A leaked reference. The context is never freed, the filter can't be unloaded, and teardown of an instance never ends.
This mostly happens on a path that is rarely taken.

    filter a altitude 100
    pre read {
      if FltAllocateContext c0 {
        if FltSetInstanceContext KEEP_IF_EXISTS c0 old c1 {
        }
        FltReleaseContext c0
      }
      return NO_CALLBACK
    }

  = refused callback 0 point 3 line 8 R02 context held at end

If a context is already there, the set fails and gives that one in `c1`, with a reference. To fix it, release it:

    filter a altitude 100
    pre read {
      if FltAllocateContext c0 {
        if FltSetInstanceContext KEEP_IF_EXISTS c0 old c1 {
        } else {
          if c1 != NULL {
            FltReleaseContext c1
          }
        }
        FltReleaseContext c0
      }
      return NO_CALLBACK
    }
";

pub(crate) const R03: &str = "R03: held variable overwritten

A variable that may own something is set to NULL, or is given to a call that writes it.

The bug. The pointer is lost, and with it the only means to release the context or to complete the operation.

    filter a altitude 100
    pre read {
      if FltAllocateContext c0 {
        c0 = NULL
      }
      return NO_CALLBACK
    }

  = refused callback 0 point 1 line 4 R03 held variable overwritten

A loop does this too, in its second turn:

    filter a altitude 100
    pre read {
      repeat 2 {
        if FltGetInstanceContext c0 {
          n0 = value c0
        }
      }
      if c0 != NULL {
        FltReleaseContext c0
      }
      return NO_CALLBACK
    }

  = refused callback 0 point 1 line 4 R03 held variable overwritten

To fix it, release first, or use another variable.

    filter a altitude 100
    pre read {
      repeat 2 {
        if FltGetInstanceContext c0 {
          n0 = value c0
          FltReleaseContext c0
        }
      }
      return NO_CALLBACK
    }
";

pub(crate) const R04: &str = "R04: operation not held where used

`data` or an `o` variable is used while the operation may belong to someone else: after it was queued, handed to a work item or
completed, or while the variable may be NULL. In a `generic` routine `data` is always NULL, so stream calls are R04 there.

The bug. Once callback data are given away, another thread may complete and free them. Touching them is then a use after free,
which shows only under load.

    filter q altitude 100
    queue
    pre read {
      if irp data {
        if FltCbdqInsertIo data {
          n0 = file data
          return PENDING
        }
      }
      return NO_CALLBACK
    }
    canceled {
      if arg != NULL {
        FltReleaseContext arg
      }
      FltCompletePendedPreOperation data COMPLETE STATUS_CANCELLED
    }

  = refused callback 0 point 2 line 6 R04 operation not held where used

To fix it, take what you need before you give the operation away.

    filter q altitude 100
    queue
    pre read {
      if irp data {
        n0 = file data
        if FltCbdqInsertIo data {
          return PENDING
        }
      }
      return NO_CALLBACK
    }
    canceled {
      if arg != NULL {
        FltReleaseContext arg
      }
      FltCompletePendedPreOperation data COMPLETE STATUS_CANCELLED
    }
";

pub(crate) const R05: &str = "R05: operation held at end

A callback ends while an `o` variable may own an operation. In `canceled`, `deferred_pre` and `deferred_post`, `data` must be
given away too. In `pre` and `post` the status says what becomes of `data`, and R06 checks that.

The bug. An I/O that nobody completes. The thread that waits for it hangs, its process can't be ended, and the volume can't be
dismounted.

    filter a altitude 100
    queue
    canceled {
      if arg != NULL {
        FltReleaseContext arg
      }
    }

  = refused callback 0 point 2 line 7 R05 operation held at end

To fix it, complete the operation on each path to the end.

    filter a altitude 100
    queue
    canceled {
      if arg != NULL {
        FltReleaseContext arg
      }
      FltCompletePendedPreOperation data COMPLETE STATUS_CANCELLED
    }
";

pub(crate) const R06: &str = "R06: status not legal

A status is returned, or given to `FltCompletePendedPreOperation`, where the tables of the statuses don't allow it. An
operation that may be fast I/O is queued or deferred.

The bugs. `PENDING` while the callback still owns the operation, which is then lost. `NO_CALLBACK` after the operation was
queued, so that it is processed twice. `WITH_CALLBACK` without a postoperation callback. A pended fast I/O, which the filter
manager forbids. `MORE_PROCESSING_REQUIRED` while draining.

    filter a altitude 100
    pre read {
      return PENDING
    }

  = refused callback 0 point 0 line 3 R06 status not legal

Here the operation may be fast I/O, so the insert itself is refused:

    filter q altitude 100
    queue
    pre read {
        if FltCbdqInsertIo data {
          return PENDING
        }
      return NO_CALLBACK
    }
    canceled {
      if arg != NULL {
        FltReleaseContext arg
      }
      FltCompletePendedPreOperation data COMPLETE STATUS_CANCELLED
    }

  = refused callback 0 point 0 line 4 R06 status not legal

To fix it, test `irp data` first, queue the operation, and return `PENDING` only on the side where the insert succeeded:

    filter q altitude 100
    queue
    pre read {
      if irp data {
        if FltCbdqInsertIo data {
          return PENDING
        }
      }
      return NO_CALLBACK
    }
    canceled {
      if arg != NULL {
        FltReleaseContext arg
      }
      FltCompletePendedPreOperation data COMPLETE STATUS_CANCELLED
    }

The statuses that a callback may return:

  Status                      Callback                `data`             Mode  Further condition
  --------------------------  ----------------------  -----------------  ----  ---------------------------------------
  `WITH_CALLBACK`             `pre`                   held               any   there is a `post` of the same operation
  `SYNCHRONIZE`               `pre`, not of a create  held               IRP   there is a `post` of the same operation
  `NO_CALLBACK`               `pre`                   held               any
  `COMPLETE S`                `pre`                   held               any   S isn't `STATUS_PENDING`
  `PENDING`                   `pre`                   stale: given away  IRP
  `DISALLOW_FASTIO`           `pre`                   held               fast
  `FINISHED_PROCESSING`       `post`                  held               any
  `MORE_PROCESSING_REQUIRED`  `post`                  stale: given away  IRP   draining isn't possible

The statuses that `FltCompletePendedPreOperation` may be given:

  Status  `COMPLETE S`, S not `STATUS_PENDING`
  Where   wherever the call is legal

  Status  `NO_CALLBACK`
  Where   wherever the call is legal, but not for `data` in `canceled`

  Status  `WITH_CALLBACK`
  Where   as `NO_CALLBACK`, where each operation with a `pre` has its `post` in this filter

  Status  all others
  Where   nowhere
";

pub(crate) const R07: &str = "R07: call above its level

The level at the point is greater than the table of the calls allows. The level is the greatest of the callback's own level
and those to which held locks raise it. `pre` callbacks and `canceled` run at APC_LEVEL, `post create` and routines of work items at
PASSIVE_LEVEL, all other `post` callbacks at DISPATCH_LEVEL. A held spin lock raises the level to DISPATCH_LEVEL, a fast mutex to APC_LEVEL.

The bug. Paged code or a wait at DISPATCH_LEVEL. The system stops with `IRQL_NOT_LESS_OR_EQUAL`, or deadlocks. This shows only
when a completion happens to run at DISPATCH_LEVEL.

    filter a altitude 100
    pre read {
      return WITH_CALLBACK
    }
    post read {
      if FltGetInstanceContext c0 {
        FltReleaseContext c0
      }
      if arg != NULL {
        FltReleaseContext arg
      }
      return FINISHED_PROCESSING
    }

  = refused callback 1 point 0 line 6 R07 call above its level

A held spin lock raises the level as well:

    filter a altitude 100
    lock spin s
    lock fast m
    pre read {
      KeAcquireSpinLock s
      ExAcquireFastMutex m
      ExReleaseFastMutex m
      KeReleaseSpinLock s
      return NO_CALLBACK
    }

  = refused callback 0 point 1 line 6 R07 call above its level

To fix it, get the context in the preoperation callback and hand it over as completion context, or leave the work to a
deferred work item. Take fast mutexes before spin locks.

    filter a altitude 100
    pre read {
      if FltGetInstanceContext c0 {
        return WITH_CALLBACK context c0
      }
      return NO_CALLBACK
    }
    post read {
      if arg != NULL {
        FltReleaseContext arg
      }
      return FINISHED_PROCESSING
    }

The greatest level of each call:

  Call                                               Level
  -------------------------------------------------  --------
  `FltAllocateContext c`                             APC
  `FltGetStreamContext c`                            APC
  `FltGetInstanceContext c`                          APC
  `FltSetStreamContext KEEP_IF_EXISTS c old d`       APC
  `FltSetInstanceContext KEEP_IF_EXISTS c old d`     APC
  `FltSetStreamContext REPLACE_IF_EXISTS c old d`    APC
  `FltSetInstanceContext REPLACE_IF_EXISTS c old d`  APC
  `FltDeleteStreamContext old d`                     APC
  `FltDeleteInstanceContext old d`                   APC
  `FltDeleteContext c`                               APC
  `FltReferenceContext c as d`                       DISPATCH
  `FltReleaseContext c`                              DISPATCH
  `KeAcquireSpinLock l`                              DISPATCH
  `KeReleaseSpinLock l`                              DISPATCH
  `ExAcquireFastMutex l`                             APC
  `ExReleaseFastMutex l`                             APC
  `FltAcquirePushLockExclusive l`                    APC
  `FltAcquirePushLockShared l`                       APC
  `FltReleasePushLock l`                             APC
  `FltCbdqInsertIo data context c`                   APC
  `FltCbdqRemoveNextIo o context c`                  APC
  `FltQueueDeferredIoWorkItem data r context c`      DISPATCH
  `FltQueueGenericWorkItem r context c`              DISPATCH
  `FltCompletePendedPreOperation data st`            APC
  `FltCompletePendedPreOperation o st`               APC
  `FltCompletePendedPostOperation data`              DISPATCH
";

pub(crate) const R08: &str = "R08: call not legal at this place

The call isn't for this kind of callback; or draining may be set, and the call isn't one of the three that are then legal. The
test `draining` outside a `post` callback is R08 too.

The bugs. The preoperation callback of a create, in which no file is open yet, asks for a stream context. A postoperation
callback that is called for draining uses an instance that is being torn down. A callback completes `data` by a call for another
kind of callback.

    filter a altitude 100
    pre create {
      return WITH_CALLBACK
    }
    post create {
      if FltGetInstanceContext c0 {
        FltReleaseContext c0
      }
      if arg != NULL {
        FltReleaseContext arg
      }
      return FINISHED_PROCESSING
    }

  = refused callback 1 point 0 line 6 R08 call not legal at this place

To fix it, test `draining` first, clean up the completion context there, and return.

    filter a altitude 100
    pre create {
      return WITH_CALLBACK
    }
    post create {
      if draining {
        if arg != NULL {
          FltReleaseContext arg
        }
        return FINISHED_PROCESSING
      }
      if FltGetInstanceContext c0 {
        FltReleaseContext c0
      }
      if arg != NULL {
        FltReleaseContext arg
      }
      return FINISHED_PROCESSING
    }
";

pub(crate) const R09: &str = "R09: lock not the latest taken

A callback releases a lock that it doesn't hold, or releases one while it holds another that it took later. `FltReleasePushLock`
releases a push lock however it was taken.

The bug. A spin lock's release restores the level that was saved when it was taken. Out of order, the level falls while
another spin lock is still held, and the thread can be preempted with it.

    filter a altitude 100
    lock spin s
    lock spin t
    pre read {
      KeAcquireSpinLock s
      KeAcquireSpinLock t
      KeReleaseSpinLock s
      KeReleaseSpinLock t
      return NO_CALLBACK
    }

  = refused callback 0 point 2 line 7 R09 lock not the latest taken

To fix it, release in reverse order.

    filter a altitude 100
    lock spin s
    lock spin t
    pre read {
      KeAcquireSpinLock s
      KeAcquireSpinLock t
      KeReleaseSpinLock t
      KeReleaseSpinLock s
      return NO_CALLBACK
    }
";

pub(crate) const R10: &str = "R10: lock kept at end

The callback ends while it holds a lock.

The bug. The next thread that asks for the lock waits for ever. After a spin lock the processor stays at DISPATCH_LEVEL; after
a fast mutex the thread's APCs stay disabled.

    filter a altitude 100
    lock fast m
    pre read {
      ExAcquireFastMutex m
      return NO_CALLBACK
    }

  = refused callback 0 point 1 line 5 R10 lock kept at end

To fix it, release before each `return`, including those in the middle.

    filter a altitude 100
    lock fast m
    pre read {
      ExAcquireFastMutex m
      ExReleaseFastMutex m
      return NO_CALLBACK
    }
";

pub(crate) const R11: &str = "R11: lock taken twice

A callback asks for a lock that it already holds, however it holds it and asks for it.

The bug. A thread can't take a lock of any of the three kinds twice: it waits for itself.

    filter a altitude 100
    lock fast m
    pre read {
      ExAcquireFastMutex m
      ExAcquireFastMutex m
      return NO_CALLBACK
    }

  = refused callback 0 point 1 line 5 R11 lock taken twice

A shared push lock can't be made exclusive by asking for it again: the callback waits until nobody else shares the lock, and it
shares the lock itself. Two shared requests are no better: a third callback that wants the lock alone may come in between.

    filter a altitude 100
    lock push l
    pre read {
      FltAcquirePushLockShared l
      FltAcquirePushLockExclusive l
      return NO_CALLBACK
    }

  = refused callback 0 point 1 line 5 R11 lock taken twice

To fix it, take it once, around both uses; take it exclusively if one of them needs that.

    filter a altitude 100
    lock fast m
    pre read {
      ExAcquireFastMutex m
      n0 = 1
      n0 = 2
      ExReleaseFastMutex m
      return NO_CALLBACK
    }
";

pub(crate) const R12: &str = "R12: lock lists differ where paths meet

Two paths lead to one point with different locks, with the same locks in another order, or with a push lock that only one of them
shares. The fault is reported at the point that leads there.

The bug. A lock is taken under a condition and released without it, or the reverse.

    filter a altitude 100
    lock spin s
    pre read {
      if n0 == 0 {
        KeAcquireSpinLock s
      }
      return NO_CALLBACK
    }

  = refused callback 0 point 1 line 5 R12 lock lists differ where paths meet

A `repeat` body must leave the locks as they were, since its end leads back to the `repeat`. The checker doesn't count turns, so
this holds even for no turn at all:

    filter a altitude 100
    lock spin s
    pre read {
      repeat 0 {
        KeAcquireSpinLock s
      }
      return NO_CALLBACK
    }

  = refused callback 0 point 1 line 5 R12 lock lists differ where paths meet

A push lock must be held alike on both paths, even though one call releases it however it is held. How the callback holds
the lock decides what it may do under it.

    filter a altitude 100
    lock push l
    pre read {
      if n0 == 0 {
        FltAcquirePushLockShared l
      } else {
        FltAcquirePushLockExclusive l
      }
      FltReleasePushLock l
      return NO_CALLBACK
    }

  = refused callback 0 point 2 line 7 R12 lock lists differ where paths meet

To fix it, release the lock on the side that takes it, and write twice what must be done on both sides.

    filter a altitude 100
    lock spin s
    pre read {
      if n0 == 0 {
        KeAcquireSpinLock s
        n1 = n1 + 1
        KeReleaseSpinLock s
      }
      return NO_CALLBACK
    }
";

pub(crate) const R13: &str = "R13: hand-over of a variable not held

A callback hands a context to a queue entry, a work item or a status (`context c`) and might not own it.

The bug. The receiver releases what it gets. If the callback had no reference, that is one release too many, or a NULL pointer
where none is expected.

    filter a altitude 100
    pre read {
      if FltQueueGenericWorkItem w context c0 {
      }
      return NO_CALLBACK
    }
    generic w {
      if arg != NULL {
        FltReleaseContext arg
      }
    }

  = refused callback 0 point 0 line 3 R13 hand-over of a variable not held

To fix it, get the context first, and release it where the call fails. If there is no context to hand over, leave `context c`
out.

    filter a altitude 100
    pre read {
      if FltGetInstanceContext c0 {
        if FltQueueGenericWorkItem w context c0 {
        } else {
          FltReleaseContext c0
        }
      }
      return NO_CALLBACK
    }
    generic w {
      if arg != NULL {
        FltReleaseContext arg
      }
    }
";

pub(crate) const R14: &str = "R14: certificate does not cover

This is a fault of the certificate, not of the driver: the certificate doesn't cover every possible situation. Mostly the text was
changed and its certificate wasn't.

  Cause        a callback of the text isn't in the certificate, or has another number of points there
  Reported at  point 0 of the first such callback

  Cause        the certificate has more callbacks than the text, and those of the text agree
  Reported at  point 0 of the text's last callback

  Cause        a thin certificate doesn't give a point that is kept
  Reported at  that point

  Cause        a thin certificate gives a point that isn't kept
  Reported at  that point

  Cause        the entry's state isn't within that of point 0, or point 0 is `!` or has locks
  Reported at  point 0 of the callback

  Cause        a point leads to a state that isn't within the next point's, or to a point that is `!`
  Reported at  the point that leads there

Here the certificate says that `c0` is NULL at point 2, where the allocation succeeded:

    filter a altitude 100
    pre read {
      n0 = 1
      if FltAllocateContext c0 {
        FltReleaseContext c0
      }
      return NO_CALLBACK
    }

    fltcert 1
    callback 0 5
    0 111111111 11112 3 1 -
    1 111111111 11112 3 1 -
    2 111111111 11112 3 1 -
    3 511111111 11112 3 1 -
    4 !
    end

  = refused callback 0 point 1 line 4 R14 certificate does not cover

To fix it, write the line that covers it: `2 211111111 11112 3 1 -`.

    filter a altitude 100
    pre read {
      n0 = 1
      if FltAllocateContext c0 {
        FltReleaseContext c0
      }
      return NO_CALLBACK
    }

    fltcert 1
    callback 0 5
    0 111111111 11112 3 1 -
    1 111111111 11112 3 1 -
    2 211111111 11112 3 1 -
    3 511111111 11112 3 1 -
    4 !
    end

  = accepted
";

pub(crate) const R15: &str = "R15: end without status

A `pre` or `post` callback ends without a status: by a `return` alone, or at the end of its body. The fault is reported at that
point.

The bug. The filter manager gets whatever is in the register.

    filter a altitude 100
    pre read {
    }

  = refused callback 0 point 0 line 3 R15 end without status

To fix it, return a status on each path.

    filter a altitude 100
    pre read {
      return NO_CALLBACK
    }
";
