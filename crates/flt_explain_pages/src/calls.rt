//! The pages of the calls, from docs/RULES.md. `tools/write-pages` writes this file.

pub(crate) const FLT_ALLOCATE_CONTEXT: &str = "FltAllocateContext: a call

  call     `FltAllocateContext c`
  level    APC_LEVEL or below, else R07
  places   all
  needs    c free R03
  success  c held
  failure  c NULL

Held means surely held, free that it can't be held: it is NULL or stale. Each need is followed by the rule that is broken
otherwise. Where draining may be set, only `FltReleaseContext`, `KeAcquireSpinLock` and `KeReleaseSpinLock` are legal, else
R08.
";

pub(crate) const FLT_GET_STREAM_CONTEXT: &str = "FltGetStreamContext: a call

  call     `FltGetStreamContext c`
  level    APC_LEVEL or below, else R07
  places   not `pre create`, else R08
  needs    c free R03, data held R04
  success  c held
  failure  c NULL

Held means surely held, free that it can't be held: it is NULL or stale. Each need is followed by the rule that is broken
otherwise. Where draining may be set, only `FltReleaseContext`, `KeAcquireSpinLock` and `KeReleaseSpinLock` are legal, else
R08.
";

pub(crate) const FLT_GET_INSTANCE_CONTEXT: &str = "FltGetInstanceContext: a call

  call     `FltGetInstanceContext c`
  level    APC_LEVEL or below, else R07
  places   all
  needs    c free R03
  success  c held
  failure  c NULL

Held means surely held, free that it can't be held: it is NULL or stale. Each need is followed by the rule that is broken
otherwise. Where draining may be set, only `FltReleaseContext`, `KeAcquireSpinLock` and `KeReleaseSpinLock` are legal, else
R08.
";

pub(crate) const FLT_SET_STREAM_CONTEXT: &str = "FltSetStreamContext: a call

  call     `FltSetStreamContext KEEP_IF_EXISTS c old d`
  level    APC_LEVEL or below, else R07
  places   not `pre create`, else R08
  needs    c held R01, d free R03, data held R04
  success  d NULL
  failure  d NULL or held

  call     `FltSetStreamContext REPLACE_IF_EXISTS c old d`
  level    APC_LEVEL or below, else R07
  places   not `pre create`, else R08
  needs    c held R01, d free R03, data held R04
  success  d NULL or held
  failure  d NULL

Held means surely held, free that it can't be held: it is NULL or stale. Each need is followed by the rule that is broken
otherwise. Where draining may be set, only `FltReleaseContext`, `KeAcquireSpinLock` and `KeReleaseSpinLock` are legal, else
R08.
";

pub(crate) const FLT_SET_INSTANCE_CONTEXT: &str = "FltSetInstanceContext: a call

  call     `FltSetInstanceContext KEEP_IF_EXISTS c old d`
  level    APC_LEVEL or below, else R07
  places   all
  needs    c held R01, d free R03
  success  d NULL
  failure  d NULL or held

  call     `FltSetInstanceContext REPLACE_IF_EXISTS c old d`
  level    APC_LEVEL or below, else R07
  places   all
  needs    c held R01, d free R03
  success  d NULL or held
  failure  d NULL

Held means surely held, free that it can't be held: it is NULL or stale. Each need is followed by the rule that is broken
otherwise. Where draining may be set, only `FltReleaseContext`, `KeAcquireSpinLock` and `KeReleaseSpinLock` are legal, else
R08.
";

pub(crate) const FLT_DELETE_STREAM_CONTEXT: &str = "FltDeleteStreamContext: a call

  call     `FltDeleteStreamContext old d`
  level    APC_LEVEL or below, else R07
  places   not `pre create`, else R08
  needs    d free R03, data held R04
  success  d held
  failure  d NULL

Held means surely held, free that it can't be held: it is NULL or stale. Each need is followed by the rule that is broken
otherwise. Where draining may be set, only `FltReleaseContext`, `KeAcquireSpinLock` and `KeReleaseSpinLock` are legal, else
R08.
";

pub(crate) const FLT_DELETE_INSTANCE_CONTEXT: &str = "FltDeleteInstanceContext: a call

  call     `FltDeleteInstanceContext old d`
  level    APC_LEVEL or below, else R07
  places   all
  needs    d free R03
  success  d held
  failure  d NULL

Held means surely held, free that it can't be held: it is NULL or stale. Each need is followed by the rule that is broken
otherwise. Where draining may be set, only `FltReleaseContext`, `KeAcquireSpinLock` and `KeReleaseSpinLock` are legal, else
R08.
";

pub(crate) const FLT_DELETE_CONTEXT: &str = "FltDeleteContext: a call

  call     `FltDeleteContext c`
  level    APC_LEVEL or below, else R07
  places   all
  needs    c held R01
  success  no change
  failure  none: it always succeeds

Held means surely held, free that it can't be held: it is NULL or stale. Each need is followed by the rule that is broken
otherwise. Where draining may be set, only `FltReleaseContext`, `KeAcquireSpinLock` and `KeReleaseSpinLock` are legal, else
R08.
";

pub(crate) const FLT_REFERENCE_CONTEXT: &str = "FltReferenceContext: a call

  call     `FltReferenceContext c as d`
  level    DISPATCH_LEVEL or below, else R07
  places   all
  needs    c held R01, d free R03
  success  d held
  failure  none: it always succeeds

Held means surely held, free that it can't be held: it is NULL or stale. Each need is followed by the rule that is broken
otherwise. Where draining may be set, only `FltReleaseContext`, `KeAcquireSpinLock` and `KeReleaseSpinLock` are legal, else
R08.
";

pub(crate) const FLT_RELEASE_CONTEXT: &str = "FltReleaseContext: a call

  call     `FltReleaseContext c`
  level    DISPATCH_LEVEL or below, else R07
  places   all
  needs    c held R01
  success  c stale
  failure  none: it always succeeds

Held means surely held, free that it can't be held: it is NULL or stale. Each need is followed by the rule that is broken
otherwise. Where draining may be set, only `FltReleaseContext`, `KeAcquireSpinLock` and `KeReleaseSpinLock` are legal, else
R08.
";

pub(crate) const KE_ACQUIRE_SPIN_LOCK: &str = "KeAcquireSpinLock: a call

  call     `KeAcquireSpinLock l`
  level    DISPATCH_LEVEL or below, else R07
  places   all
  needs    l isn't taken R11
  success  l is the latest taken
  failure  none: it always succeeds

Held means surely held, free that it can't be held: it is NULL or stale. Each need is followed by the rule that is broken
otherwise. Where draining may be set, only `FltReleaseContext`, `KeAcquireSpinLock` and `KeReleaseSpinLock` are legal, else
R08.
";

pub(crate) const KE_RELEASE_SPIN_LOCK: &str = "KeReleaseSpinLock: a call

  call     `KeReleaseSpinLock l`
  level    DISPATCH_LEVEL or below, else R07
  places   all
  needs    l is the latest taken R09
  success  l isn't taken
  failure  none: it always succeeds

Held means surely held, free that it can't be held: it is NULL or stale. Each need is followed by the rule that is broken
otherwise. Where draining may be set, only `FltReleaseContext`, `KeAcquireSpinLock` and `KeReleaseSpinLock` are legal, else
R08.
";

pub(crate) const EX_ACQUIRE_FAST_MUTEX: &str = "ExAcquireFastMutex: a call

  call     `ExAcquireFastMutex l`
  level    APC_LEVEL or below, else R07
  places   all
  needs    l isn't taken R11
  success  l is the latest taken
  failure  none: it always succeeds

Held means surely held, free that it can't be held: it is NULL or stale. Each need is followed by the rule that is broken
otherwise. Where draining may be set, only `FltReleaseContext`, `KeAcquireSpinLock` and `KeReleaseSpinLock` are legal, else
R08.
";

pub(crate) const EX_RELEASE_FAST_MUTEX: &str = "ExReleaseFastMutex: a call

  call     `ExReleaseFastMutex l`
  level    APC_LEVEL or below, else R07
  places   all
  needs    l is the latest taken R09
  success  l isn't taken
  failure  none: it always succeeds

Held means surely held, free that it can't be held: it is NULL or stale. Each need is followed by the rule that is broken
otherwise. Where draining may be set, only `FltReleaseContext`, `KeAcquireSpinLock` and `KeReleaseSpinLock` are legal, else
R08.
";

pub(crate) const FLT_ACQUIRE_PUSH_LOCK_EXCLUSIVE: &str = "FltAcquirePushLockExclusive: a call

  call     `FltAcquirePushLockExclusive l`
  level    APC_LEVEL or below, else R07
  places   all
  needs    l isn't taken R11
  success  l is the latest taken
  failure  none: it always succeeds

Held means surely held, free that it can't be held: it is NULL or stale. Each need is followed by the rule that is broken
otherwise. Where draining may be set, only `FltReleaseContext`, `KeAcquireSpinLock` and `KeReleaseSpinLock` are legal, else
R08.
";

pub(crate) const FLT_ACQUIRE_PUSH_LOCK_SHARED: &str = "FltAcquirePushLockShared: a call

  call     `FltAcquirePushLockShared l`
  level    APC_LEVEL or below, else R07
  places   all
  needs    l isn't taken R11
  success  l is the latest taken, shared
  failure  none: it always succeeds

Held means surely held, free that it can't be held: it is NULL or stale. Each need is followed by the rule that is broken
otherwise. Where draining may be set, only `FltReleaseContext`, `KeAcquireSpinLock` and `KeReleaseSpinLock` are legal, else
R08.
";

pub(crate) const FLT_RELEASE_PUSH_LOCK: &str = "FltReleasePushLock: a call

  call     `FltReleasePushLock l`
  level    APC_LEVEL or below, else R07
  places   all
  needs    l is the latest taken R09
  success  l isn't taken
  failure  none: it always succeeds

Held means surely held, free that it can't be held: it is NULL or stale. Each need is followed by the rule that is broken
otherwise. Where draining may be set, only `FltReleaseContext`, `KeAcquireSpinLock` and `KeReleaseSpinLock` are legal, else
R08.
";

pub(crate) const FLT_CBDQ_INSERT_IO: &str = "FltCbdqInsertIo: a call

  call     `FltCbdqInsertIo data context c`
  level    APC_LEVEL or below, else R07
  places   `pre`, `deferred_pre`, else R08
  needs    data held R04, IRP alone R06, c held R13
  success  data, c stale
  failure  no change

Held means surely held, free that it can't be held: it is NULL or stale. Each need is followed by the rule that is broken
otherwise. Where draining may be set, only `FltReleaseContext`, `KeAcquireSpinLock` and `KeReleaseSpinLock` are legal, else
R08.
";

pub(crate) const FLT_CBDQ_REMOVE_NEXT_IO: &str = "FltCbdqRemoveNextIo: a call

  call     `FltCbdqRemoveNextIo o context c`
  level    APC_LEVEL or below, else R07
  places   all
  needs    o, c free R03
  success  o held, c NULL or held
  failure  o, c NULL

Held means surely held, free that it can't be held: it is NULL or stale. Each need is followed by the rule that is broken
otherwise. Where draining may be set, only `FltReleaseContext`, `KeAcquireSpinLock` and `KeReleaseSpinLock` are legal, else
R08.
";

pub(crate) const FLT_QUEUE_DEFERRED_IO_WORK_ITEM: &str = "FltQueueDeferredIoWorkItem: a call

  call     `FltQueueDeferredIoWorkItem data r context c`
  level    DISPATCH_LEVEL or below, else R07
  places   `pre`, `post`, else R08
  needs    data held R04, IRP alone R06, c held R13
  success  data, c stale
  failure  no change

Held means surely held, free that it can't be held: it is NULL or stale. Each need is followed by the rule that is broken
otherwise. Where draining may be set, only `FltReleaseContext`, `KeAcquireSpinLock` and `KeReleaseSpinLock` are legal, else
R08.
";

pub(crate) const FLT_QUEUE_GENERIC_WORK_ITEM: &str = "FltQueueGenericWorkItem: a call

  call     `FltQueueGenericWorkItem r context c`
  level    DISPATCH_LEVEL or below, else R07
  places   all
  needs    c held R13
  success  c stale
  failure  no change

Held means surely held, free that it can't be held: it is NULL or stale. Each need is followed by the rule that is broken
otherwise. Where draining may be set, only `FltReleaseContext`, `KeAcquireSpinLock` and `KeReleaseSpinLock` are legal, else
R08.
";

pub(crate) const FLT_COMPLETE_PENDED_PRE_OPERATION: &str = "FltCompletePendedPreOperation: a call

  call     `FltCompletePendedPreOperation data st`
  level    APC_LEVEL or below, else R07
  places   `canceled`, `deferred_pre`, else R08
  needs    data held R04, st legal R06, c held R13
  success  data, c stale
  failure  none: it always succeeds

  call     `FltCompletePendedPreOperation o st`
  level    APC_LEVEL or below, else R07
  places   all
  needs    o held R04, st legal R06, c held R13
  success  o, c stale
  failure  none: it always succeeds

Held means surely held, free that it can't be held: it is NULL or stale. Each need is followed by the rule that is broken
otherwise. Where draining may be set, only `FltReleaseContext`, `KeAcquireSpinLock` and `KeReleaseSpinLock` are legal, else
R08.
";

pub(crate) const FLT_COMPLETE_PENDED_POST_OPERATION: &str = "FltCompletePendedPostOperation: a call

  call     `FltCompletePendedPostOperation data`
  level    DISPATCH_LEVEL or below, else R07
  places   `deferred_post`, else R08
  needs    data held R04
  success  data stale
  failure  none: it always succeeds

Held means surely held, free that it can't be held: it is NULL or stale. Each need is followed by the rule that is broken
otherwise. Where draining may be set, only `FltReleaseContext`, `KeAcquireSpinLock` and `KeReleaseSpinLock` are legal, else
R08.
";
