//! Steps of one caller and one worker that are refused memory, and steps that no script can ask for: a script's lines wait until nothing is
//! left to do. The expected results follow by hand from the machine's rules and from the order of tickets. Scripts are in
//! `examples/cases/runs.cases`.

use crate::filters::{DEFERS, DRAINED, Filter, PASSES, PENDS, SHARES, WORKS, loaded};
use crate::fixture::{Answer, Step, Told, take_steps};
use crate::journals::{has_as_many, has_entries, is_legal};
use std::alloc::{AllocError, Global};
use std::sync::Wait;
use std::test::Fail;

/// Some filters, steps, the answer to each, and the entries of the journal at the end.
#[derive(Clone, Copy)]
struct Case {
    filters: &'static [Filter],
    steps: &'static [Step],
    answers: &'static [Answer],
    entries: &'static str,
}

/// A case whose steps are refused memory.
#[derive(Clone, Copy)]
struct Refused {
    case: Case,
    /// Whether two tickets wait at once. A move that is refused memory keeps its ticket, which then comes after the others, so that entries
    /// may come in another order.
    has_others: bool,
}

/// Every call that takes memory, and a cancel, on filters of every kind.
static WITHIN_MEMORY: [Refused; 6] = [
    Refused {
        has_others: false,
        case: Case {
            filters: &[PENDS],
            steps: &[
                Step::Refuse(1),
                Step::Arrive,
                Step::Work,
                Step::Cancel(0),
                Step::Work,
                Step::Detach(100),
                Step::Work,
                Step::Arrive,
                Step::Work,
            ],
            answers: &[
                Answer::Done,
                Answer::Serial(0),
                Answer::Added(4),
                Answer::Done,
                Answer::Added(4),
                Answer::Done,
                Answer::Added(1),
                Answer::Serial(1),
                Answer::Added(2),
            ],
            entries: "arrive read irp 0\npre 0\ngo 0 1 yes\ngo 0 1 yes\ngo 0 1 yes\ncancel 0\ncanceled 100 0\ngo 1 2 yes\ngo 1 1 yes\ndetach 100\ndetached 100\narrive read irp 0\nskip 1\nlower 1\n",
        },
    },
    // A read waits in the lower filter's queue. The upper one is drained, and its stream's context unlinked; the lower one gives the read
    // back.
    Refused {
        has_others: true,
        case: Case {
            filters: &[DRAINED, PENDS],
            steps: &[
                Step::Arrive,
                Step::Work,
                Step::Detach(200),
                Step::Work,
                Step::Detach(100),
                Step::Work,
            ],
            answers: &[
                Answer::Serial(0),
                Answer::Added(8),
                Answer::Done,
                Answer::Added(5),
                Answer::Done,
                Answer::Added(4),
            ],
            entries: "arrive read irp 0\npre 0\ngo 0 1 yes\ngo 0 1 yes\ngo 0 1 yes\npre 0\ngo 1 1 yes\ngo 1 1 yes\ngo 1 1 yes\ndetach 200\ndrain 200 0\ngo 2 2 yes\nunlink 200 stream 0\ngo 2 1 yes\ndetached 200\ndetach 100\ncanceled 100 0\ngo 3 2 yes\ngo 3 1 yes\ndetached 100\n",
        },
    },
    // A deferred work item, a lock that is shared beside a context of the instance, and a generic work item that takes a read out of a
    // queue. The second read isn't deferred, since the script refuses that choice.
    Refused {
        has_others: true,
        case: Case {
            filters: &[DEFERS, SHARES, WORKS],
            steps: &[
                Step::Arrive,
                Step::Work,
                Step::Refuse(4),
                Step::Arrive,
                Step::Work,
                Step::Detach(200),
                Step::Work,
            ],
            answers: &[
                Answer::Serial(0),
                Answer::Added(28),
                Answer::Done,
                Answer::Serial(1),
                Answer::Added(23),
                Answer::Done,
                Answer::Added(2),
            ],
            entries: "arrive read irp 0\npre 0\ngo 0 1 yes\ngo 0 1 yes\ngo 0 1 yes\nwork 0\ngo 1 2 yes\npre 0\ngo 1 1 yes\ngo 2 1 yes\ngo 2 1 yes\ngo 2 1 yes\ngo 2 1 yes\ngo 2 2 yes\ngo 2 1 yes\ngo 2 2 yes\ngo 2 1 yes\npre 0\ngo 3 1 yes\ngo 3 1 yes\ngo 3 1 yes\ngo 3 1 yes\ngo 3 1 yes\nwork 1\ngo 4 2 yes\ngo 4 2 yes\ngo 4 1 yes\nlower 0\ngo 4 1 yes\narrive read irp 0\npre 1\ngo 5 1 yes\ngo 5 1 no\ngo 5 1 yes\npre 1\ngo 6 1 yes\ngo 6 1 yes\ngo 6 2 yes\ngo 6 1 yes\ngo 6 2 yes\ngo 6 1 yes\npre 1\ngo 7 1 yes\ngo 7 1 yes\ngo 7 1 yes\ngo 7 1 yes\ngo 7 1 yes\nwork 2\ngo 8 2 yes\ngo 8 2 yes\ngo 8 1 yes\nlower 1\ngo 8 1 yes\ndetach 200\nunlink 200 instance\ndetached 200\n",
        },
    },
    // Two requests before a look are one cancel.
    Refused {
        has_others: false,
        case: Case {
            filters: &[PENDS],
            steps: &[
                Step::Arrive,
                Step::Work,
                Step::Cancel(0),
                Step::Cancel(0),
                Step::Work,
            ],
            answers: &[
                Answer::Serial(0),
                Answer::Added(4),
                Answer::Done,
                Answer::Done,
                Answer::Added(4),
            ],
            entries: "arrive read irp 0\npre 0\ngo 0 1 yes\ngo 0 1 yes\ngo 0 1 yes\ncancel 0\ncanceled 100 0\ngo 1 2 yes\ngo 1 1 yes\n",
        },
    },
    // What was asked for is collected before the first ticket.
    Refused {
        has_others: true,
        case: Case {
            filters: &[PENDS],
            steps: &[Step::Cancel(0), Step::Arrive, Step::Work],
            answers: &[Answer::Done, Answer::Serial(0), Answer::Added(8)],
            entries: "arrive read irp 0\ncancel 0\npre 0\ngo 0 1 yes\ngo 0 1 yes\ngo 0 1 yes\ncanceled 100 0\ngo 1 2 yes\ngo 1 1 yes\n",
        },
    },
    // No filter has this altitude, and a filter is detached once.
    Refused {
        has_others: false,
        case: Case {
            filters: &[PASSES],
            steps: &[
                Step::Detach(300),
                Step::Detach(100),
                Step::Detach(100),
                Step::Work,
                Step::Detach(100),
            ],
            answers: &[
                Answer::NoSuch,
                Answer::Done,
                Answer::Already,
                Answer::Added(1),
                Answer::Already,
            ],
            entries: "detach 100\ndetached 100\n",
        },
    },
];

/// Whether the journal is the case's, it is legal, and the receipts agree with it.
fn has_ended_so(alloc: Global, case: &Case, told: &Told) -> Result<bool, Fail> {
    let journal = &told.ended.journal;
    Ok(
        told.ended.agrees
            && has_entries(alloc, journal, case.entries)?
            && is_legal(alloc, case.filters, journal)?,
    )
}

/// The results of a case's steps. A stack that can't be opened is opened once more.
fn taken_again<R: Wait>(rt: &R, alloc: Global, case: &Case) -> Result<Told, Fail> {
    if let Ok(told) = take_steps(rt, alloc, loaded(alloc, case.filters)?, case.steps) {
        return Ok(told);
    }
    let mut told = take_steps(rt, alloc, loaded(alloc, case.filters)?, case.steps)?;
    told.refused = true;
    Ok(told)
}

/// Whether the journal has as many entries as the case's, it is legal, and the receipts agree with it.
fn has_ended_likewise(alloc: Global, case: &Case, told: &Told) -> Result<bool, Fail> {
    let journal = &told.ended.journal;
    Ok(
        told.ended.agrees
            && has_as_many(alloc, journal, case.entries)?
            && is_legal(alloc, case.filters, journal)?,
    )
}

/// Whether no step was refused memory twice.
fn all_went(answers: &[Answer]) -> bool {
    !answers.iter().any(|answer| *answer == Answer::Refused)
}

/// Whether steps end with the case's journal, or with one of another order if memory was refused, and have its answers if it wasn't.
fn has_gone_so(alloc: Global, row: &Refused, told: &Told) -> Result<bool, Fail> {
    if !all_went(told.answers.as_slice()) {
        return Ok(false);
    }
    if told.refused && row.has_others {
        return has_ended_likewise(alloc, &row.case, told);
    }
    Ok(
        has_ended_so(alloc, &row.case, told)?
            && (told.refused || told.answers.as_slice() == row.case.answers),
    )
}

/// Whether a row's steps succeed. If they do, but memory was refused, the result is `AllocError`.
fn goes_so_again<R: Wait>(rt: &R, alloc: Global, row: &Refused) -> Result<bool, Fail> {
    let told = taken_again(rt, alloc, &row.case)?;
    let refused = told.refused;
    let ended = has_gone_so(alloc, row, &told);
    drop(told);
    let fine = ended?;
    if fine && refused {
        return Err(AllocError)?;
    }
    Ok(fine)
}

/// The first row whose steps don't succeed.
fn wrong_row<R: Wait>(rt: &R, alloc: Global, rows: &[Refused]) -> Result<Option<usize>, Fail> {
    for (number, row) in rows.iter().enumerate() {
        if !goes_so_again(rt, alloc, row)? {
            return Ok(Some(number));
        }
    }
    Ok(None)
}

/// `tools/refuse-allocations.sh tests flt_stack_tests memory` refuses each request for memory in turn. A call that was refused memory has
/// changed nothing, and is made once more.
#[test]
fn calls_made_again_give_these_journals_within_memory(rt: HostRuntime) -> Result<(), Fail> {
    assert!(rt; wrong_row(&rt, rt.alloc(), &WITHIN_MEMORY)?.is_none());
    Ok(())
}
