//! The analyses of several texts on several threads: which of them are accepted, and that two are made at once.
ghost use Rattle.std.specs.Prelude.{◌≤◌};

use flt_analyse::{Start, analyse_all};
use flt_cert::FullCert;
use flt_graph::{Graph, lower};
use flt_rules::{Refusal, number};
use flt_syntax::parse;
use std::alloc::{AllocError, Global};
use std::sync::atomic::{AtomicBool, AtomicUsize, Ordering};
use std::test::*;
use std::thread;
use std::thread::Threads;

const SMALLEST: &str = "filter a altitude 100\npre read {\nreturn NO_CALLBACK\n}\n";

const LEAKING: &str =
    "filter a altitude 100\npre read {\nif FltAllocateContext c0 {\nreturn NO_CALLBACK\n}\nreturn NO_CALLBACK\n}\n";

const STREAM_CONTEXT: &str =
    "filter a altitude 100\npre read {\nif FltGetStreamContext c0 {\n} else {\nif FltAllocateContext c0 {\nif FltSetStreamContext KEEP_IF_EXISTS c0 old c1 {\n}\nif c1 != NULL {\nFltReleaseContext c1\n}\n}\n}\nif c0 != NULL {\nFltReleaseContext c0\n}\nreturn NO_CALLBACK\n}\n";

/// The callback, point, line and rule of the first fault of a text, if it has one.
type Expected = Option<(usize, usize, usize, u8)>;

/// Counts the analyses that have begun.
#[derive(Drop)]
struct Begun {
    count: AtomicUsize,
}

impl Start for Begun {
    fn before(&self, _place: usize) {
        self.count.fetch_add(1, Ordering::SeqCst);
    }
}

/// Whether an answer is the expected one.
fn is_expected(answer: &Result<FullCert, Refusal>, expected: &Expected) -> bool {
    match (answer, expected) {
        (Ok(_), None) => true,
        (Err(found), Some(fault)) => (found.callback, found.point, found.line, number(found.rule))
            == *fault,
        _ => false,
    }
}

/// The graph of a text.
fn graph_of(alloc: Global, text: &str) -> Result<Graph, Fail> {
    let tree = parse(alloc, text.as_bytes())?;
    let graph = lower(alloc, &tree);
    drop(tree);
    Ok(graph?)
}

/// The graphs of texts.
fn graphs_of(alloc: Global, texts: &[&str]) -> Result<Vec<Graph>, Fail> {
    let mut graphs = Vec::with_capacity(alloc, texts.len())?;
    for text in texts {
        graphs.push(graph_of(alloc, text)?)?;
    }
    Ok(graphs)
}

/// Whether answers are the expected ones, at the same places.
fn are_expected(answers: &[Result<FullCert, Refusal>], expected: &[Expected]) -> bool {
    for (answer, wanted) in answers.iter().zip(expected.iter()) {
        if !is_expected(answer, wanted) {
            return false;
        }
    }
    answers.len() == expected.len()
}

/// Whether this many workers have the expected answers, and each analysis was announced.
fn answer_so<R: Threads + Sync>(
    rt: &R,
    alloc: Global,
    graphs: &[Graph],
    expected: &[Expected],
    workers: usize,
) -> Result<bool, AllocError>
    requires some { 1 ≤ workers }
    requires few { workers ≤ 16 }
{
    let begun = Begun {
        count: AtomicUsize::new(0),
    };
    let answers = analyse_all(rt, alloc, graphs, workers, &begun)?;
    let fine = are_expected(answers.as_slice(), expected);
    drop(answers);
    Ok(fine && begun.count.load(Ordering::SeqCst) == expected.len())
}

static TEXTS: [&str; 3] = [SMALLEST, LEAKING, STREAM_CONTEXT];

static EXPECTED: [Expected; 3] = [None, Some((0, 1, 4, 2)), None];

/// Three graphs, and none, by 1, 2, 3 and 16 workers: each answer is at its graph's place.
#[test]
fn answers_stand_at_the_places_of_their_graphs(rt: HostRuntime) -> Result<(), Fail> {
    let graphs = graphs_of(rt.alloc(), &TEXTS)?;
    for workers in [1, 2, 3, 16] {
        assert!(rt; answer_so(&rt, rt.alloc(), graphs.as_slice(), &EXPECTED, workers)?);
        assert!(rt; answer_so(&rt, rt.alloc(), &[], &[], workers)?);
    }
    Ok(())
}

/// A meeting: place 0 waits until place 1 has begun, 1,000,000 turns at most.
#[derive(Drop)]
struct Meeting {
    second_began: AtomicBool,
    met: AtomicBool,
}

impl Start for Meeting {
    fn before(&self, place: usize) {
        if place == 1 {
            self.second_began.store(true, Ordering::SeqCst);
            return;
        }
        for _ in 0..1_000_000 {
            if self.second_began.load(Ordering::SeqCst) {
                self.met.store(true, Ordering::SeqCst);
                return;
            }
            thread::yield_now();
        }
    }
}

#[test]
fn two_analyses_at_once(rt: HostRuntime) -> Result<(), Fail> {
    let graphs = graphs_of(rt.alloc(), &[SMALLEST, LEAKING])?;
    let meeting = Meeting {
        second_began: AtomicBool::new(false),
        met: AtomicBool::new(false),
    };
    let answers = analyse_all(&rt, rt.alloc(), graphs.as_slice(), 2, &meeting)?;
    assert!(rt; answers.len() == 2);
    assert!(rt; meeting.met.load(Ordering::SeqCst));
    Ok(())
}
