//! The pages of the warnings, from docs/RULES.md. `tools/write-pages` writes this file.

pub(crate) const W00: &str = "W00: a comment that allows nothing

A comment `# allow Wnn: ..` has no warning to allow: its number is none of W00 to W07, it gives no reason, or the line after it has no such
warning.

The bug. The comment looks as if somebody had weighed the warning. If the warning comes back later, it isn't seen.

    filter a altitude 100
    lock push list
    pre read {
      # allow W02: the list is short
      FltAcquirePushLockExclusive list
      FltReleasePushLock list
      return NO_CALLBACK
    }

W02 is about calls that give an operation away, and line 5 has none. To fix it, remove the comment, or put it on the line before the
statement that the warning is about. A warning about a lock is about its declaration, and one
about a whole callback is about its head.
";

pub(crate) const W01: &str = "W01: locks that no order allows

The text takes locks one within the other so that no order of its locks fits all places. Some of these places form a circle: at each a
callback takes the lock that the place before it holds.

The bug. A deadlock. One callback holds the first lock and waits for the second, another holds the second and waits for the first.
Both wait for ever, as does each callback that asks for one of these locks later.

    filter a altitude 100
    lock push list
    lock push table
    pre read {
      FltAcquirePushLockExclusive list
      FltAcquirePushLockExclusive table
      FltReleasePushLock table
      FltReleasePushLock list
      return NO_CALLBACK
    }
    pre cleanup {
      FltAcquirePushLockExclusive table
      FltAcquirePushLockExclusive list
      FltReleasePushLock list
      FltReleasePushLock table
      return NO_CALLBACK
    }

W01 names line 13, which takes `list` and holds `table`, and line 6, which takes `table` and holds `list`. Where a search finds a run to
the deadlock, the report shows it, row by row, and who waits for what at its end:

       = deadlock: a run leads to one, with 2 operations and 6 entries
        (left: entries; right: lines, without those that nobody else sees; `yes` and `no`: how a call went)
        0-2  o arrive read irp 0, `pre read` starts, 5
        3-5  |   o arrive cleanup irp 0, `pre cleanup` starts, 12
        activation 1 waits for `list` on line 13, held by activation 0
        activation 0 waits for `table` on line 6, held by activation 1

No step of these activations is possible any more. Where no run is found, the report says so, and that isn't a promise that there is none.

To fix it, take the locks in one order everywhere, or release the first before the second is taken:

    filter a altitude 100
    lock push list
    lock push table
    pre read {
      FltAcquirePushLockExclusive list
      FltAcquirePushLockExclusive table
      FltReleasePushLock table
      FltReleasePushLock list
      return NO_CALLBACK
    }
    pre cleanup {
      FltAcquirePushLockExclusive list
      FltAcquirePushLockExclusive table
      FltReleasePushLock table
      FltReleasePushLock list
      return NO_CALLBACK
    }

When it is wrong. The places of a circle needn't be reached at the same time. A third lock that is held at all of them prevents it, and
locks that are only ever shared are never waited for. Take the locks in one order all the same: the order is easier to keep than the
reason why it isn't needed. Where that can't be done, allow the warning at the first place that it names.
";

pub(crate) const W02: &str = "W02: given away under a lock

`FltCompletePendedPreOperation`, `FltCompletePendedPostOperation` or `FltCbdqInsertIo` is called while a lock is held.

The bug. The operation continues inside a completion: other callbacks of the filter may run before the call returns. An insert runs
`canceled` at once if the operation has been cancelled already. If one of these asks for the lock, the thread waits for itself. Others
wait for as long as the operation takes.

    filter a altitude 100
    lock fast resuming
    queue
    pre read {
      if irp data {
        if FltCbdqInsertIo data {
          if FltQueueGenericWorkItem let_go {
          }
          return PENDING
        }
      }
      return NO_CALLBACK
    }
    generic let_go {
      if arg != NULL {
        FltReleaseContext arg
      }
      ExAcquireFastMutex resuming
      if FltCbdqRemoveNextIo o0 context c0 {
        if c0 != NULL {
          FltReleaseContext c0
        }
        FltCompletePendedPreOperation o0 NO_CALLBACK
      }
      ExReleaseFastMutex resuming
    }
    canceled {
      if arg != NULL {
        FltReleaseContext arg
      }
      FltCompletePendedPreOperation data COMPLETE STATUS_CANCELLED
    }

W02 names line 23 and the lock `resuming`. To fix it, take the operation out under the lock, release the lock, and complete it then:

    filter a altitude 100
    lock fast resuming
    queue
    pre read {
      if irp data {
        if FltCbdqInsertIo data {
          if FltQueueGenericWorkItem let_go {
          }
          return PENDING
        }
      }
      return NO_CALLBACK
    }
    generic let_go {
      if arg != NULL {
        FltReleaseContext arg
      }
      ExAcquireFastMutex resuming
      if FltCbdqRemoveNextIo o0 context c0 {
        ExReleaseFastMutex resuming
        if c0 != NULL {
          FltReleaseContext c0
        }
        FltCompletePendedPreOperation o0 NO_CALLBACK
      } else {
        ExReleaseFastMutex resuming
      }
    }
    canceled {
      if arg != NULL {
        FltReleaseContext arg
      }
      FltCompletePendedPreOperation data COMPLETE STATUS_CANCELLED
    }

When it is wrong. A lock that no callback takes which may run inside the call does no harm there. Nothing looks at which callbacks
these are: release the lock first, or allow the warning and say which callbacks take the lock.
";

pub(crate) const W03: &str = "W03: pended and left

An operation is put into the queue, and nothing takes it out: no callback of the text calls `FltCbdqRemoveNextIo`; or only routines of
work items do, and the callback returns `PENDING` on a path on which it has queued none of them.

The bug. The thread that reads or writes waits until it gives up. The operation stays in the queue until it is cancelled or the filter
is unloaded.

    filter a altitude 100
    queue
    pre read {
      if irp data {
        if FltCbdqInsertIo data {
          return PENDING
        }
      }
      return NO_CALLBACK
    }
    pre cleanup {
      if FltQueueGenericWorkItem let_go {
      }
      return NO_CALLBACK
    }
    generic let_go {
      if arg != NULL {
        FltReleaseContext arg
      }
      if FltCbdqRemoveNextIo o0 context c0 {
        if c0 != NULL {
          FltReleaseContext c0
        }
        FltCompletePendedPreOperation o0 NO_CALLBACK
      }
    }
    canceled {
      if arg != NULL {
        FltReleaseContext arg
      }
      FltCompletePendedPreOperation data COMPLETE STATUS_CANCELLED
    }

W03 names the insert in line 5 and the return in line 6. To fix it, queue the routine after the insert:

    filter a altitude 100
    queue
    pre read {
      if irp data {
        if FltCbdqInsertIo data {
          if FltQueueGenericWorkItem let_go {
          }
          return PENDING
        }
      }
      return NO_CALLBACK
    }
    generic let_go {
      if arg != NULL {
        FltReleaseContext arg
      }
      if FltCbdqRemoveNextIo o0 context c0 {
        if c0 != NULL {
          FltReleaseContext c0
        }
        FltCompletePendedPreOperation o0 NO_CALLBACK
      }
    }
    canceled {
      if arg != NULL {
        FltReleaseContext arg
      }
      FltCompletePendedPreOperation data COMPLETE STATUS_CANCELLED
    }

When it is wrong. A routine that is queued before the insert doesn't count, since it may have run by then: queue it after the insert. A
filter may want operations to wait until they are cancelled, or until another callback, as here `pre cleanup`, queues the routine. Allow
the warning at the insert then, and say what ends the wait. Where the routine couldn't be queued the operation waits too, and no warning
says so: the next operation that is queued must take out all that it finds, or the callback must complete the operation itself.
";

pub(crate) const W04: &str = "W04: a value changed without a lock

The value of a context is written where others may have the context, and another use of it may come in between: a read in the same
callback, or a write in another one, with no lock in common.

The bug. A lost change. Two callbacks read the same number, each adds to it, and the second write undoes the first.

    filter a altitude 100
    pre write {
      if FltGetInstanceContext c0 {
        n0 = value c0
        n0 = n0 + 1
        value c0 = n0
        FltReleaseContext c0
      }
      return NO_CALLBACK
    }

W04 names the write in line 6 and the read in line 4. To fix it, read and write the value under one lock, the same one wherever the
value of such a context is changed:

    filter a altitude 100
    lock spin counting
    pre write {
      if FltGetInstanceContext c0 {
        KeAcquireSpinLock counting
        n0 = value c0
        n0 = n0 + 1
        value c0 = n0
        KeReleaseSpinLock counting
        FltReleaseContext c0
      }
      return NO_CALLBACK
    }

Others may have a context that the callback got from its stream or instance, that it set there, or that came back in the variable after
`old`. The same goes for `arg` and for the context of `FltCbdqRemoveNextIo` wherever the text hands over such a context, to
whichever callback. Nobody else has a context that was allocated and not set yet: give it its first value there.

When it is wrong. Contexts of two streams count as one, since nothing says which stream an operation is for. A test that is made without
the lock and made again under it counts as a read: make it under the lock alone. Writes of one and the same number, as of a flag, count too:
write it under the lock, or allow the warning at the write. Where the driver uses interlocked operations, such as
`InterlockedIncrement`, let the text take a spin lock of its own round them: `lock spin interlocked`.

No warning comes where a lock is held at the read and at the write and released in between, where a callback reads without a lock what
only another one writes, or for the context of a variable that `FltReferenceContext c0 as c1` made.
";

pub(crate) const W05: &str = "W05: the context that lost is used

`FltSetStreamContext KEEP_IF_EXISTS` or `FltSetInstanceContext KEEP_IF_EXISTS` may fail since another context is set already. The callback
then reads or writes the value of its own context, or hands that context on.

The bug. Two operations race to set a context, and the one that loses continues with its own. No other callback will ever find that
one: values written there are lost, and locks and counts that it holds guard nothing.

    filter a altitude 100
    pre read {
      if FltAllocateContext c0 {
        if FltSetStreamContext KEEP_IF_EXISTS c0 old c1 {
        }
        if c1 != NULL {
          FltReleaseContext c1
        }
        value c0 = 1
        FltReleaseContext c0
      }
      return NO_CALLBACK
    }

W05 names the set in line 4 and the write in line 9. To fix it, release the own context and continue with the other one:

    filter a altitude 100
    pre read {
      if FltAllocateContext c0 {
        if FltSetStreamContext KEEP_IF_EXISTS c0 old c1 {
        }
        if c1 != NULL {
          FltReleaseContext c0
          value c1 = 1
          FltReleaseContext c1
        } else {
          value c0 = 1
          FltReleaseContext c0
        }
      }
      return NO_CALLBACK
    }

A first value can also be written before the set: where the set fails, the other context has its own.

When it is wrong. The set also fails where no other context is there, as while the instance is torn down. The own context may be used
then: ask for the other one with `old`, and use the own one only where that is NULL. A test of a number that says the same isn't
understood.
";

pub(crate) const W06: &str = "W06: never used or reached

No call names a lock; nothing starts a callback; no path reaches a statement; or a test asks for a number that its variable never has. A
`post` callback starts where its `pre` callback returns `WITH_CALLBACK` or `SYNCHRONIZE`, or where a pended operation is completed with
`WITH_CALLBACK`; `canceled` starts where an operation is inserted into the queue; and a routine starts where a call queues it.

The bug. Something is missing. A routine that isn't queued never completes what waits for it, a `post` callback that no status asks for
never sees how its operations ended, a lock that isn't taken guards nothing, and a branch that isn't reached was meant for a case that now
goes another path.

    filter a altitude 100
    lock spin counting
    pre read {
      if n0 == 1 {
        return COMPLETE STATUS_ACCESS_DENIED
      }
      return NO_CALLBACK
      n0 = 1
    }
    post read {
      if arg != NULL {
        FltReleaseContext arg
      }
      return FINISHED_PROCESSING
    }
    generic flush {
      if arg != NULL {
        FltReleaseContext arg
      }
    }

W06 names the lock in line 2, the statement in line 8, which no path reaches, the callback in line 10, which no status asks for, and the
routine in line 16. It doesn't name the test in line 4, since the callback writes `n0`, if only in line 8. To fix it, use the
declarations, or remove them:

    filter a altitude 100
    pre read {
      if FltGetInstanceContext c0 {
        n0 = value c0
        FltReleaseContext c0
      }
      if n0 == 1 {
        return COMPLETE STATUS_ACCESS_DENIED
      }
      return NO_CALLBACK
    }

Not named. A callback that another one asks for, though that one never starts itself. Remove the one that is named, and the next
report names the other.

When it is wrong. A lock that only other code of the driver takes needn't be in the text. A test `n0 == 1` of a variable that nothing
writes can't stand for a condition of the driver that the language doesn't have: the variable is 0. Read it from the value of a context
before.
";

pub(crate) const W07: &str = "W07: needed after the last operation

A call needs the instance, in `canceled` or in the routine of a deferred work item, where the callback might hold no operation any more.

The bug. An operation that isn't completed keeps the instance that it came through: no detach ends before it. A pre or a post callback
runs for the filter manager, which keeps the instance until it returns, and a generic work item keeps it until its routine ends. In
`canceled` and in a `deferred_pre` or `deferred_post` routine the operation alone does. After its completion the instance may be torn down
at any time, and a call that is given it then uses freed memory.

    filter a altitude 100
    pre write {
      if irp data {
        if FltQueueDeferredIoWorkItem data mark {
          return PENDING
        }
      }
      return NO_CALLBACK
    }
    deferred_pre mark {
      if arg != NULL {
        FltReleaseContext arg
      }
      FltCompletePendedPreOperation data NO_CALLBACK
      if FltGetInstanceContext c0 {
        value c0 = 1
        FltReleaseContext c0
      }
    }

W07 names line 15. To fix it, call while the operation is held. A context that the callback has a reference to may be used later, and
must be released as ever:

    filter a altitude 100
    pre write {
      if irp data {
        if FltQueueDeferredIoWorkItem data mark {
          return PENDING
        }
      }
      return NO_CALLBACK
    }
    deferred_pre mark {
      if arg != NULL {
        FltReleaseContext arg
      }
      if FltGetInstanceContext c0 {
        value c0 = 1
        FltReleaseContext c0
      }
      FltCompletePendedPreOperation data NO_CALLBACK
    }

`FltCbdqInsertIo` gives an operation away as a completion does: others may complete it before the call returns.

Not named. `FltAllocateContext`, which is given the filter and not the instance, and `FltCbdqRemoveNextIo`, which is given the
queue: keep the queue in memory that outlives the instance.

When it is wrong. The rules don't forbid these calls: in the machine (docs/MACHINE.md) a filter is detached only once no activation of it is
left. A driver whose routine holds a rundown reference to its instance may call as long as it has it. Allow the warning then, and say
where the reference is taken.
";
