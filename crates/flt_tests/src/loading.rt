//! The results of loading texts, each with a certificate: which are loaded, and why others aren't.

use flt_cert::CertFault;
use flt_stack::{LoadFault, load};
use flt_syntax::FaultKind;
use std::alloc::{AllocError, Global};
use std::test::Fail;

const PASSES: &[u8] = b"filter a altitude 100\npre read {\nreturn NO_CALLBACK\n}\n";

const HIGHER: &[u8] = b"filter b altitude 200\npre read {\nreturn NO_CALLBACK\n}\n";

const PASSES_CERTIFICATE: &[u8] = b"fltcert 1\ncallback 0 2\n0 111111111 11112 3 1 -\n1 !\nend\n";

const PASSES_THIN: &[u8] = b"fltcert 2\ncallback 0 2\n0 111111111 11112 3 1 -\nend\n";

const NOT_REACHED_THIN: &[u8] = b"fltcert 2\ncallback 0 2\n0 !\nend\n";

const TWICE_THIN: &[u8] = b"fltcert 2\ncallback 0 2\n0 !\n0 !\nend\n";

const NOT_REACHED: &[u8] = b"fltcert 1\ncallback 0 2\n0 !\n1 !\nend\n";

const SHORT: &[u8] = b"fltcert 1\ncallback 0 2\n0 111111111 11112 3 1 -\n1 !\nend";

// What the insert answers isn't looked at, so the read may be given away and still go on.
const IGNORES: &[u8] =
    b"filter a altitude 100\nqueue\npre read {\nif FltCbdqInsertIo data {\n}\nreturn NO_CALLBACK\n}\ncanceled {\nif arg != NULL {\nFltReleaseContext arg\n}\nFltCompletePendedPreOperation data COMPLETE STATUS_CANCELLED\n}\n";

const IGNORES_CERTIFICATE: &[u8] =
    b"fltcert 1\ncallback 0 3\n0 111111111 11112 3 1 -\n1 111111111 11116 3 1 -\n2 !\ncallback 1 4\n0 111111113 11112 1 1 -\n1 111111112 11112 1 1 -\n2 111111115 11112 1 1 -\n3 111111115 11114 1 1 -\nend\n";

// Both callbacks take the first lock first, one of the two locks shared.
const IN_ORDER: &[u8] =
    b"filter ordered altitude 100\nlock push first\nlock push second\npre read {\nFltAcquirePushLockExclusive first\nFltAcquirePushLockShared second\nFltReleasePushLock second\nFltReleasePushLock first\nreturn NO_CALLBACK\n}\npre write {\nFltAcquirePushLockShared first\nFltAcquirePushLockExclusive second\nFltReleasePushLock second\nFltReleasePushLock first\nreturn NO_CALLBACK\n}\n";

const IN_ORDER_CERTIFICATE: &[u8] =
    b"fltcert 1\ncallback 0 6\n0 111111111 11112 3 1 -\n1 111111111 11112 3 1 0\n2 111111111 11112 3 1 0,1s\n3 111111111 11112 3 1 0\n4 111111111 11112 3 1 -\n5 !\ncallback 1 6\n0 111111111 11112 3 1 -\n1 111111111 11112 3 1 0s\n2 111111111 11112 3 1 0s,1\n3 111111111 11112 3 1 0s\n4 111111111 11112 3 1 -\n5 !\nend\n";

// The writes take the second lock first.
const CROSSED: &[u8] =
    b"filter crossed altitude 200\nlock push first\nlock push second\npre read {\nFltAcquirePushLockExclusive first\nFltAcquirePushLockShared second\nFltReleasePushLock second\nFltReleasePushLock first\nreturn NO_CALLBACK\n}\npre write {\nFltAcquirePushLockShared second\nFltAcquirePushLockExclusive first\nFltReleasePushLock first\nFltReleasePushLock second\nreturn NO_CALLBACK\n}\n";

const CROSSED_CERTIFICATE: &[u8] =
    b"fltcert 1\ncallback 0 6\n0 111111111 11112 3 1 -\n1 111111111 11112 3 1 0\n2 111111111 11112 3 1 0,1s\n3 111111111 11112 3 1 0\n4 111111111 11112 3 1 -\n5 !\ncallback 1 6\n0 111111111 11112 3 1 -\n1 111111111 11112 3 1 1s\n2 111111111 11112 3 1 1s,0\n3 111111111 11112 3 1 1s\n4 111111111 11112 3 1 -\n5 !\nend\n";

// Of both texts.
const LOCKS_THIN: &[u8] =
    b"fltcert 2\ncallback 0 6\n0 111111111 11112 3 1 -\ncallback 1 6\n0 111111111 11112 3 1 -\nend\n";

// Creates are IRPs, so the other side isn't reached.
const APART: &[u8] =
    b"filter apart altitude 300\nlock push first\nlock push second\npre create {\nif irp data {\nFltAcquirePushLockExclusive first\nFltAcquirePushLockExclusive second\nFltReleasePushLock second\nFltReleasePushLock first\n} else {\nFltAcquirePushLockExclusive second\nFltAcquirePushLockExclusive first\nFltReleasePushLock first\nFltReleasePushLock second\n}\nreturn NO_CALLBACK\n}\n";

// It says that the other side may be reached.
const APART_GREATER_CERTIFICATE: &[u8] =
    b"fltcert 1\ncallback 0 11\n0 111111111 11112 3 1 -\n1 111111111 11112 1 1 -\n2 111111111 11112 1 1 0\n3 111111111 11112 1 1 0,1\n4 111111111 11112 1 1 0\n5 111111111 11112 2 1 -\n6 111111111 11112 2 1 1\n7 111111111 11112 2 1 1,0\n8 111111111 11112 2 1 1\n9 111111111 11112 3 1 -\n10 !\nend\n";

/// A file: its text, and its certificate.
type File<'a> = (&'a [u8], &'a [u8]);

/// An answer: a word, the number of the file, and the place in it: the line and the column, the line, or the point and its line.
type Answer = (&'static str, usize, usize, usize);

const LOADED: Answer = ("ok", 0, 0, 0);

const COUNT: Answer = ("count", 0, 0, 0);

/// Files, and the answers for them. The faults come in their order: a file's text before its certificate, an earlier file's before a later
/// one's, and equal altitudes last.
static CASES: [(&[File<'static>], Answer); 13] = [
    (&[], COUNT),
    (&[(PASSES, PASSES_CERTIFICATE)], LOADED),
    (
        &[(PASSES, PASSES_CERTIFICATE), (HIGHER, PASSES_CERTIFICATE)],
        LOADED,
    ),
    (
        &[(PASSES, PASSES_CERTIFICATE), (PASSES, PASSES_CERTIFICATE)],
        ("altitude", 1, 0, 0),
    ),
    (
        &[(PASSES, SHORT), (b"", PASSES_CERTIFICATE)],
        ("certificate", 0, 5, 0),
    ),
    (
        &[(PASSES, PASSES_CERTIFICATE), (b"", SHORT)],
        ("E03", 1, 1, 1),
    ),
    (&[(PASSES, NOT_REACHED)], ("refused", 0, 0, 3)),
    (
        &[(HIGHER, PASSES_CERTIFICATE), (IGNORES, IGNORES_CERTIFICATE)],
        ("refused", 1, 0, 4),
    ),
    (
        &[(PASSES, NOT_REACHED), (PASSES, SHORT)],
        ("refused", 0, 0, 3),
    ),
    (
        &[
            (PASSES, PASSES_CERTIFICATE),
            (PASSES, PASSES_CERTIFICATE),
            (HIGHER, NOT_REACHED),
        ],
        ("refused", 2, 0, 3),
    ),
    (
        &[(PASSES, PASSES_THIN), (HIGHER, PASSES_CERTIFICATE)],
        LOADED,
    ),
    (&[(PASSES, NOT_REACHED_THIN)], ("refused", 0, 0, 3)),
    (&[(PASSES, TWICE_THIN)], ("certificate", 0, 4, 0)),
];

/// Files that are loaded, and whether each filter takes its locks in an order. The last certificate shows a circle, and the least one of
/// that text doesn't.
static ORDERS: [(&[File<'static>], bool); 8] = [
    (&[(PASSES, PASSES_CERTIFICATE)], true),
    (&[(IN_ORDER, IN_ORDER_CERTIFICATE)], true),
    (&[(CROSSED, CROSSED_CERTIFICATE)], false),
    (
        &[
            (IN_ORDER, IN_ORDER_CERTIFICATE),
            (CROSSED, CROSSED_CERTIFICATE),
        ],
        false,
    ),
    (
        &[
            (CROSSED, CROSSED_CERTIFICATE),
            (IN_ORDER, IN_ORDER_CERTIFICATE),
        ],
        false,
    ),
    (
        &[
            (IN_ORDER, IN_ORDER_CERTIFICATE),
            (APART, APART_GREATER_CERTIFICATE),
        ],
        true,
    ),
    (&[(IN_ORDER, LOCKS_THIN)], true),
    (&[(IN_ORDER, LOCKS_THIN), (CROSSED, LOCKS_THIN)], false),
];

/// The answer for a fault.
fn answer_of(fault: LoadFault) -> Result<Answer, AllocError> {
    match fault {
        LoadFault::Count => Ok(COUNT),
        LoadFault::Syntax { file, fault } => match fault.kind {
            FaultKind::E03 => Ok(("E03", file, fault.line, fault.column)),
            _ => Ok(("another fault", file, fault.line, fault.column)),
        },
        LoadFault::Cert { file, fault } => match fault {
            CertFault::Line(line) => Ok(("certificate", file, line, 0)),
            CertFault::OutOfMemory => Err(AllocError),
        },
        LoadFault::Refused { file, refusal } => Ok(("refused", file, refusal.point, refusal.line)),
        LoadFault::Altitude { file } => Ok(("altitude", file, 0, 0)),
        LoadFault::OutOfMemory => Err(AllocError),
    }
}

/// The answer for files.
fn answer(alloc: Global, files: &[File]) -> Result<Answer, AllocError> {
    match load(alloc, files) {
        Ok(_) => Ok(LOADED),
        Err(fault) => answer_of(fault),
    }
}

/// The first of these cases that has another answer.
fn wrong_case(alloc: Global, cases: &[(&[File], Answer)]) -> Result<Option<usize>, AllocError> {
    for (row, (files, wanted)) in cases.iter().enumerate() {
        if answer(alloc, files)? != *wanted {
            return Ok(Some(row));
        }
    }
    Ok(None)
}

/// The texts of this many filters, each with an altitude of its own.
fn texts(alloc: Global, count: usize) -> Result<Vec<String>, AllocError> {
    let mut texts = Vec::with_capacity(alloc, count)?;
    for number in 0..count {
        let altitude = number.saturating_add(1);
        texts.push(format!(in alloc;
            "filter a altitude {altitude}\npre read {{\nreturn NO_CALLBACK\n}}\n"
        )?)?;
    }
    Ok(texts)
}

/// The answer for these texts, each with its certificate.
fn answer_of_texts(alloc: Global, texts: &[String]) -> Result<Answer, AllocError> {
    let mut files = Vec::with_capacity(alloc, texts.len())?;
    for text in texts {
        files.push((text.as_bytes(), PASSES_CERTIFICATE))?;
    }
    answer(alloc, files.as_slice())
}

/// The answer for this many filters.
fn answer_of_many(alloc: Global, count: usize) -> Result<Answer, AllocError> {
    let texts = texts(alloc, count)?;
    answer_of_texts(alloc, texts.as_slice())
}

/// `tools/refuse-allocations.sh tests flt_tests memory` refuses each request for memory in turn.
#[test]
fn loads_what_is_accepted_within_memory(rt: HostRuntime) -> Result<(), Fail> {
    assert!(rt; wrong_case(rt.alloc(), &CASES)?.is_none());
    assert!(rt; answer_of_many(rt.alloc(), 16)? == LOADED);
    assert!(rt; answer_of_many(rt.alloc(), 17)? == COUNT);
    Ok(())
}

/// Whether the filters of files take their locks in an order, or none if they aren't loaded.
fn is_ordered(alloc: Global, files: &[File]) -> Result<Option<bool>, AllocError> {
    match load(alloc, files) {
        Ok(loaded) => Ok(Some(loaded.is_ordered())),
        Err(fault) => {
            let _answer = answer_of(fault)?;
            Ok(None)
        }
    }
}

/// The first of these cases that has another answer.
fn wrong_order(alloc: Global, cases: &[(&[File], bool)]) -> Result<Option<usize>, AllocError> {
    for (row, (files, wanted)) in cases.iter().enumerate() {
        if is_ordered(alloc, files)? != Some(*wanted) {
            return Ok(Some(row));
        }
    }
    Ok(None)
}

/// The same.
#[test]
fn knows_whether_locks_are_in_order_within_memory(rt: HostRuntime) -> Result<(), Fail> {
    assert!(rt; wrong_order(rt.alloc(), &ORDERS)?.is_none());
    Ok(())
}
