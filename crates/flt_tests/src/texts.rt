//! The filters of the tests of boards.

/// Sees each read as it goes down and as it comes back up.
pub(crate) const UPPER: &str =
    "filter b altitude 200\npre read {\nreturn WITH_CALLBACK\n}\npost read {\nif arg != NULL {\nFltReleaseContext arg\n}\nreturn FINISHED_PROCESSING\n}\n";

/// The same, below it.
pub(crate) const LOWER: &str =
    "filter a altitude 100\npre read {\nreturn WITH_CALLBACK\n}\npost read {\nif arg != NULL {\nFltReleaseContext arg\n}\nreturn FINISHED_PROCESSING\n}\n";

/// Pends each read in its queue.
pub(crate) const PENDS: &str =
    "filter q altitude 100\nqueue\npre read {\nif irp data {\nif FltCbdqInsertIo data {\nreturn PENDING\n}\n}\nreturn NO_CALLBACK\n}\ncanceled {\nif arg != NULL {\nFltReleaseContext arg\n}\nFltCompletePendedPreOperation data COMPLETE STATUS_CANCELLED\n}\n";

/// Pends each read. A write sets a context on its stream and hands it to its post callback.
pub(crate) const LINKS: &str =
    "filter q altitude 100\nqueue\npre read {\nif irp data {\nif FltCbdqInsertIo data {\nreturn PENDING\n}\n}\nreturn NO_CALLBACK\n}\ncanceled {\nif arg != NULL {\nFltReleaseContext arg\n}\nFltCompletePendedPreOperation data COMPLETE STATUS_CANCELLED\n}\npre write {\nif FltAllocateContext c0 {\nif FltSetStreamContext KEEP_IF_EXISTS c0 {\n}\nreturn WITH_CALLBACK context c0\n}\nreturn NO_CALLBACK\n}\npost write {\nif arg != NULL {\nFltReleaseContext arg\n}\nreturn FINISHED_PROCESSING\n}\n";

/// Gives each stream that is read a context.
pub(crate) const MARKS: &str =
    "filter a altitude 100\npre read {\nif FltGetStreamContext c0 {\n} else {\nif FltAllocateContext c0 {\nif FltSetStreamContext KEEP_IF_EXISTS c0 old c1 {\n}\nif c1 != NULL {\nFltReleaseContext c1\n}\n}\n}\nif c0 != NULL {\nFltReleaseContext c0\n}\nreturn NO_CALLBACK\n}\n";
