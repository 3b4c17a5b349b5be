//! Filters with their certificates.

use flt_stack::{LoadFault, Loaded, load};
use flt_syntax::{Tree, parse};
use std::alloc::Global;
use std::test::Fail;

/// A filter's text, and its least certificate.
#[derive(Clone, Copy)]
pub(crate) struct Filter {
    text: &'static str,
    certificate: &'static str,
}

/// The certificate of one callback, which returns a status.
const ONE_STATUS: &str = "fltcert 1\ncallback 0 2\n0 111111111 11112 3 1 -\n1 !\nend\n";

/// Passes reads on.
pub(crate) const PASSES: Filter = Filter {
    text: "filter a altitude 100\npre read {\nreturn NO_CALLBACK\n}\n",
    certificate: ONE_STATUS,
};

/// Keeps reads in its queue until they are cancelled.
pub(crate) const PENDS: Filter = Filter {
    text: "filter q altitude 100\nqueue\npre read {\nif irp data {\nif FltCbdqInsertIo data {\nreturn PENDING\n}\n}\nreturn NO_CALLBACK\n}\ncanceled {\nif arg != NULL {\nFltReleaseContext arg\n}\nFltCompletePendedPreOperation data COMPLETE STATUS_CANCELLED\n}\n",
    certificate: "fltcert 1\ncallback 0 5\n0 111111111 11112 3 1 -\n1 111111111 11112 1 1 -\n2 111111111 11114 1 1 -\n3 111111111 11112 3 1 -\n4 !\ncallback 1 4\n0 111111113 11112 1 1 -\n1 111111112 11112 1 1 -\n2 111111115 11112 1 1 -\n3 111111115 11114 1 1 -\nend\n",
};

/// Gives each stream that is read a context, and the read too. It is drained if it is detached before the read is back.
pub(crate) const DRAINED: Filter = Filter {
    text: "filter high altitude 200\npre read {\nif FltAllocateContext c0 {\nif FltSetStreamContext KEEP_IF_EXISTS c0 {\n}\nreturn WITH_CALLBACK context c0\n}\nreturn NO_CALLBACK\n}\npost read {\nif arg != NULL {\nFltReleaseContext arg\n}\nreturn FINISHED_PROCESSING\n}\n",
    certificate: "fltcert 1\ncallback 0 5\n0 111111111 11112 3 1 -\n1 211111111 11112 3 1 -\n2 211111111 11112 3 1 -\n3 111111111 11112 3 1 -\n4 !\ncallback 1 4\n0 111111113 11112 3 3 -\n1 111111112 11112 3 3 -\n2 111111115 11112 3 3 -\n3 !\nend\n",
};

/// Lets reads continue by a deferred work item.
pub(crate) const DEFERS: Filter = Filter {
    text: "filter d altitude 300\npre read {\nif irp data {\nif FltQueueDeferredIoWorkItem data later {\nreturn PENDING\n}\n}\nreturn NO_CALLBACK\n}\ndeferred_pre later {\nif arg != NULL {\nFltReleaseContext arg\n}\nFltCompletePendedPreOperation data NO_CALLBACK\n}\n",
    certificate: "fltcert 1\ncallback 0 5\n0 111111111 11112 3 1 -\n1 111111111 11112 1 1 -\n2 111111111 11114 1 1 -\n3 111111111 11112 3 1 -\n4 !\ncallback 1 4\n0 111111113 11112 1 1 -\n1 111111112 11112 1 1 -\n2 111111115 11112 1 1 -\n3 111111115 11114 1 1 -\nend\n",
};

/// Looks at the context of its instance, beside others.
pub(crate) const SHARES: Filter = Filter {
    text: "filter s altitude 200\nlock push l\npre read {\nif FltGetInstanceContext c0 {\n} else {\nif FltAllocateContext c0 {\nif FltSetInstanceContext KEEP_IF_EXISTS c0 {\n}\n}\n}\nFltAcquirePushLockShared l\nif c0 != NULL {\nn0 = value c0\n}\nFltReleasePushLock l\nif c0 != NULL {\nFltReleaseContext c0\n}\nreturn NO_CALLBACK\n}\n",
    certificate: "fltcert 1\ncallback 0 11\n0 111111111 11112 3 1 -\n1 111111111 11112 3 1 -\n2 211111111 11112 3 1 -\n3 311111111 11112 3 1 -\n4 311111111 11112 3 1 0s\n5 211111111 11112 3 1 0s\n6 311111111 11112 3 1 0s\n7 311111111 11112 3 1 -\n8 211111111 11112 3 1 -\n9 511111111 11112 3 1 -\n10 !\nend\n",
};

/// Keeps each read in its queue with a context, until a work item takes it out.
pub(crate) const WORKS: Filter = Filter {
    text: "filter w altitude 100\nqueue\npre read {\nif irp data {\nif FltAllocateContext c0 {\nif FltCbdqInsertIo data context c0 {\nif FltQueueGenericWorkItem let_go {\n}\nreturn PENDING\n}\nFltReleaseContext c0\n}\n}\nreturn NO_CALLBACK\n}\ngeneric let_go {\nif arg != NULL {\nFltReleaseContext arg\n}\nif FltCbdqRemoveNextIo o0 context c0 {\nif c0 != NULL {\nFltReleaseContext c0\n}\nFltCompletePendedPreOperation o0 NO_CALLBACK\n}\n}\ncanceled {\nif arg != NULL {\nFltReleaseContext arg\n}\nFltCompletePendedPreOperation data COMPLETE STATUS_CANCELLED\n}\n",
    certificate: "fltcert 1\ncallback 0 8\n0 111111111 11112 3 1 -\n1 111111111 11112 1 1 -\n2 211111111 11112 1 1 -\n3 411111111 11114 1 1 -\n4 411111111 11114 1 1 -\n5 211111111 11112 1 1 -\n6 511111111 11112 3 1 -\n7 !\ncallback 1 7\n0 111111113 11111 1 1 -\n1 111111112 11111 1 1 -\n2 111111115 11111 1 1 -\n3 311111115 21111 1 1 -\n4 211111115 21111 1 1 -\n5 511111115 21111 1 1 -\n6 511111115 51111 1 1 -\ncallback 2 4\n0 111111113 11112 1 1 -\n1 111111112 11112 1 1 -\n2 111111115 11112 1 1 -\n3 111111115 11114 1 1 -\nend\n",
};

/// One that passes reads on, alone. A table weighs in each function that names it, so a static holds it.
pub(crate) static PASSES_ALONE: [Filter; 1] = [PASSES];

/// One that keeps reads in its queue, alone.
pub(crate) static PENDS_ALONE: [Filter; 1] = [PENDS];

/// Loads filters, each by its certificate.
pub(crate) fn loaded(alloc: Global, filters: &[Filter]) -> Result<Loaded, LoadFault> {
    let mut files = Vec::with_capacity(alloc, filters.len())?;
    for filter in filters {
        files.push((filter.text.as_bytes(), filter.certificate.as_bytes()))?;
    }
    load(alloc, files.as_slice())
}

/// The trees of filters.
pub(crate) fn trees(alloc: Global, filters: &[Filter]) -> Result<Vec<Tree>, Fail> {
    let mut trees = Vec::with_capacity(alloc, filters.len())?;
    for filter in filters {
        let tree = parse(alloc, filter.text.as_bytes())?;
        trees.push(tree)?;
    }
    Ok(trees)
}
