//! Thin certificates that are filled up to the full ones, which the program doesn't do. How certificates are thinned, and which thin ones are
//! refused, is in `examples/cases/thin.cases`.

use flt_cert::{Cert, ThinCert, read, write_full};
use flt_check::fill;
use flt_graph::{Graph, lower};
use flt_syntax::parse;
use std::alloc::Global;
use std::test::*;

const SMALLEST: &str = "filter a altitude 100\npre read {\nreturn NO_CALLBACK\n}\n";

const PENDING: &str =
    "filter q altitude 100\nqueue\npre read {\n  if irp data {\n    if FltCbdqInsertIo data {\n      return PENDING\n    }\n  }\n  return NO_CALLBACK\n}\ncanceled {\n  if arg != NULL {\n    FltReleaseContext arg\n  }\n  FltCompletePendedPreOperation data COMPLETE STATUS_CANCELLED\n}\n";

const STREAM_CONTEXT: &str =
    "filter a altitude 100\npre read {\nif FltGetStreamContext c0 {\n} else {\nif FltAllocateContext c0 {\nif FltSetStreamContext KEEP_IF_EXISTS c0 old c1 {\n}\nif c1 != NULL {\nFltReleaseContext c1\n}\n}\n}\nif c0 != NULL {\nFltReleaseContext c0\n}\nreturn NO_CALLBACK\n}\n";

/// A text with its least certificate, and the thin one of that.
#[derive(Drop)]
struct Worked {
    text: &'static str,
    full: &'static str,
    thin: &'static str,
}

static WORKED: [Worked; 3] = [
    Worked {
        text: SMALLEST,
        full: "fltcert 1\ncallback 0 2\n0 111111111 11112 3 1 -\n1 !\nend\n",
        thin: "fltcert 2\ncallback 0 2\n0 111111111 11112 3 1 -\nend\n",
    },
    Worked {
        text: PENDING,
        full: "fltcert 1\ncallback 0 5\n0 111111111 11112 3 1 -\n1 111111111 11112 1 1 -\n2 111111111 11114 1 1 -\n3 111111111 11112 3 1 -\n4 !\ncallback 1 4\n0 111111113 11112 1 1 -\n1 111111112 11112 1 1 -\n2 111111115 11112 1 1 -\n3 111111115 11114 1 1 -\nend\n",
        thin: "fltcert 2\ncallback 0 5\n0 111111111 11112 3 1 -\n3 111111111 11112 3 1 -\ncallback 1 4\n0 111111113 11112 1 1 -\n2 111111115 11112 1 1 -\nend\n",
    },
    Worked {
        text: STREAM_CONTEXT,
        full: "fltcert 1\ncallback 0 9\n0 111111111 11112 3 1 -\n1 111111111 11112 3 1 -\n2 211111111 11112 3 1 -\n3 231111111 11112 3 1 -\n4 221111111 11112 3 1 -\n5 351111111 11112 3 1 -\n6 251111111 11112 3 1 -\n7 551111111 11112 3 1 -\n8 !\nend\n",
        thin: "fltcert 2\ncallback 0 9\n0 111111111 11112 3 1 -\n3 231111111 11112 3 1 -\n5 351111111 11112 3 1 -\n7 551111111 11112 3 1 -\nend\n",
    },
];

/// The graph of a text.
fn graph_of(alloc: Global, text: &str) -> Result<Graph, Fail> {
    let tree = parse(alloc, text.as_bytes())?;
    let graph = lower(alloc, &tree);
    drop(tree);
    Ok(graph?)
}

/// Whether a thin certificate is filled up to one that is written as this text.
fn fills_up_to(alloc: Global, graph: &Graph, cert: &ThinCert, full: &str) -> Result<bool, Fail> {
    let filled = fill(alloc, graph, cert)?;
    let written = write_full(alloc, &filled);
    drop(filled);
    Ok(written?.as_slice() == full.as_bytes())
}

/// Whether the thin certificate of a row is read, and filled up to the full one.
fn follows_so(alloc: Global, graph: &Graph, row: &Worked) -> Result<bool, Fail> {
    match read(alloc, row.thin.as_bytes())? {
        Cert::Thin(given) => fills_up_to(alloc, graph, &given, row.full),
        Cert::Full(_) => Ok(false),
    }
}

/// Whether a row of worked certificates is right.
fn is_worked(alloc: Global, row: &Worked) -> Result<bool, Fail> {
    let graph = graph_of(alloc, row.text)?;
    follows_so(alloc, &graph, row)
}

/// The first row that is wrong, or the number of rows if all are right.
fn first_not_worked(alloc: Global, rows: &[Worked]) -> Result<usize, Fail> {
    for (place, row) in rows.iter().enumerate() {
        if !is_worked(alloc, row)? {
            return Ok(place);
        }
    }
    Ok(rows.len())
}

/// `tools/refuse-allocations.sh tests flt_tests memory` refuses each request for memory in turn.
#[test]
fn thin_certificates_fill_up_within_memory(rt: HostRuntime) -> Result<(), Fail> {
    assert!(rt; first_not_worked(rt.alloc(), &WORKED)? == 3);
    Ok(())
}
