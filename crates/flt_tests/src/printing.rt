//! Every word of the language: it is read, and printed in the canonical layout. The program prints no tree: `format` keeps comments and blank
//! lines, and is in `examples/cases/format.cases`.

use flt_print::print;
use flt_syntax::{ParseError, parse};
use std::alloc::Global;
use std::test::Fail;

/// A canonical text. It and the next one have all 90 words between them.
const PLAIN_WORDS: &[u8] =
    b"filter a altitude 1\nlock spin s\nlock fast f\nlock push p\nqueue\npre create {\n  if irp data {\n    return WITH_CALLBACK context c0\n  }\n  n0 = file o0\n  n1 = value c1\n  value c2 = n2\n  n2 = n3 + n4\n  n5 = n6 - n7\n  c3 = NULL\n  if FltAllocateContext c4 {\n    FltDeleteContext c4\n    FltReferenceContext c4 as c5\n    FltReleaseContext c5\n  } else {\n    return SYNCHRONIZE context c6\n  }\n  if FltSetStreamContext KEEP_IF_EXISTS c6 old c7 {\n    return COMPLETE STATUS_SUCCESS\n  }\n  if FltSetInstanceContext REPLACE_IF_EXISTS c7 {\n    return COMPLETE STATUS_ACCESS_DENIED\n  }\n  if FltGetStreamContext c0 {\n    return COMPLETE STATUS_INSUFFICIENT_RESOURCES\n  }\n  if FltGetInstanceContext c1 {\n    return COMPLETE STATUS_INVALID_PARAMETER\n  }\n  if FltDeleteStreamContext old c2 {\n    return COMPLETE STATUS_PENDING\n  }\n  if FltDeleteInstanceContext {\n    return DISALLOW_FASTIO\n  }\n  if FltCbdqInsertIo data context c3 {\n    return PENDING\n  }\n  return NO_CALLBACK\n}\ncanceled {\n  if arg != NULL {\n    FltReleaseContext arg\n  }\n  FltCompletePendedPreOperation data COMPLETE STATUS_CANCELLED\n}\n";

const LOCK_WORDS: &[u8] =
    b"filter a altitude 1\nlock spin s\nlock fast f\nlock push p\nqueue\npre read {\n  repeat 3 {\n    KeAcquireSpinLock s\n    KeReleaseSpinLock s\n    ExAcquireFastMutex f\n    ExReleaseFastMutex f\n    FltAcquirePushLockExclusive p\n    FltReleasePushLock p\n    FltAcquirePushLockShared p\n    FltReleasePushLock p\n  }\n  if FltCbdqRemoveNextIo o1 context c0 {\n    FltCompletePendedPreOperation o2 WITH_CALLBACK\n  }\n  if FltQueueDeferredIoWorkItem data r {\n  }\n  if FltQueueGenericWorkItem g context c1 {\n  }\n  if o3 != NULL {\n  }\n}\npost read {\n  if draining {\n    return FINISHED_PROCESSING\n  }\n  return MORE_PROCESSING_REQUIRED\n}\npre write {\n}\npre cleanup {\n}\ncanceled {\n}\ndeferred_pre r {\n}\ndeferred_post d {\n  FltCompletePendedPostOperation data\n}\ngeneric g {\n}\n";

/// A filter that pends its reads.
const PENDING_READS: &[u8] =
    b"filter q altitude 100\nqueue\npre read {\n  if irp data {\n    if FltCbdqInsertIo data {\n      return PENDING\n    }\n  }\n  return NO_CALLBACK\n}\ncanceled {\n  if arg != NULL {\n    FltReleaseContext arg\n  }\n  FltCompletePendedPreOperation data COMPLETE STATUS_CANCELLED\n}\n";

/// Texts, and their canonical texts.
static LAYOUTS: [(&[u8], &[u8]); 6] = [
    (PLAIN_WORDS, PLAIN_WORDS),
    (LOCK_WORDS, LOCK_WORDS),
    (PENDING_READS, PENDING_READS),
    (
        b"# one line\nfilter a\taltitude 7 pre read{if draining{}else{}if n0==18446744073709551615{n0=n0-10}else{return # no status\n}repeat 3{}}",
        b"filter a altitude 7\npre read {\n  if draining {\n  }\n  if n0 == 18446744073709551615 {\n    n0 = n0 - 10\n  } else {\n    return\n  }\n  repeat 3 {\n  }\n}\n",
    ),
    (
        b"filter a altitude 100 lock push p lock spin s\r\ngeneric w { KeAcquireSpinLock s if FltSetStreamContext KEEP_IF_EXISTS c0 old c1 { } FltReferenceContext arg as c2 if FltQueueGenericWorkItem w context c2 { } return SYNCHRONIZE context c3 }",
        b"filter a altitude 100\nlock push p\nlock spin s\ngeneric w {\n  KeAcquireSpinLock s\n  if FltSetStreamContext KEEP_IF_EXISTS c0 old c1 {\n  }\n  FltReferenceContext arg as c2\n  if FltQueueGenericWorkItem w context c2 {\n  }\n  return SYNCHRONIZE context c3\n}\n",
    ),
    // Each variable of numbers, of contexts and of removed operations comes back as itself.
    (
        b"filter a altitude 1 pre read { n0 = 0 n1 = 0 n2 = 0 n3 = 0 n4 = 0 n5 = 0 n6 = 0 n7 = 0 c0 = NULL c1 = NULL c2 = NULL c3 = NULL c4 = NULL c5 = NULL c6 = NULL c7 = NULL arg = NULL o0 = NULL o1 = NULL o2 = NULL o3 = NULL }",
        b"filter a altitude 1\npre read {\n  n0 = 0\n  n1 = 0\n  n2 = 0\n  n3 = 0\n  n4 = 0\n  n5 = 0\n  n6 = 0\n  n7 = 0\n  c0 = NULL\n  c1 = NULL\n  c2 = NULL\n  c3 = NULL\n  c4 = NULL\n  c5 = NULL\n  c6 = NULL\n  c7 = NULL\n  arg = NULL\n  o0 = NULL\n  o1 = NULL\n  o2 = NULL\n  o3 = NULL\n}\n",
    ),
];

/// The canonical text of a text's tree.
fn printed(alloc: Global, text: &[u8]) -> Result<Vec<u8>, ParseError> {
    Ok(print(alloc, &parse(alloc, text)?)?)
}

/// Whether the text is printed as this one.
fn is_printed(alloc: Global, text: &[u8], canonical: &[u8]) -> Result<bool, ParseError> {
    Ok(printed(alloc, text)?.as_slice() == canonical)
}

/// The first text that has another canonical text than this, or whose canonical text isn't its own.
fn wrong_layout(alloc: Global, rows: &[(&[u8], &[u8])]) -> Result<Option<usize>, ParseError> {
    for (row, (text, canonical)) in rows.iter().enumerate() {
        if !is_printed(alloc, text, canonical)? || !is_printed(alloc, canonical, canonical)? {
            return Ok(Some(row));
        }
    }
    Ok(None)
}

/// `tools/refuse-allocations.sh tests flt_tests memory` refuses each request for memory in turn.
#[test]
fn texts_are_printed_within_memory(rt: HostRuntime) -> Result<(), Fail> {
    assert!(rt; wrong_layout(rt.alloc(), &LAYOUTS)?.is_none());
    Ok(())
}
