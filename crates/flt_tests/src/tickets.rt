//! The subjects that get tickets by each entry of journals that are written out, and the references of contexts and the ends of operations
//! afterwards. The expected ones follow by hand: an operation that an entry leaves neither in a visit nor done, an activation that starts or
//! continues, an entry of a queue that comes to wait for its cancellation, and a teardown that begins.

use crate::scene::{Scene, journal_of};
use crate::texts;
use flt_model::{JournalEntry, Subject};
use std::alloc::Global;
use std::test::Fail;

/// The texts of a board's filters, and a journal with the subjects that get tickets by each of its entries.
#[derive(Clone, Copy)]
struct Case {
    texts: &'static [&'static str],
    /// Line by line.
    entries: &'static str,
    tickets: &'static [&'static [Subject]],
    /// The references of contexts at the end.
    references: &'static [Option<u64>],
    /// The ends of operations, as numbers (`scene.rt`).
    ends: &'static [u8],
}

const WAITS: Subject = Subject::Entry {
    altitude: 100,
    serial: 0,
};

static CASES: [Case; 5] = [
    // A read goes down through two filters and up again. Once it is up and has no post callback left it is done.
    Case {
        texts: &[texts::UPPER, texts::LOWER],
        entries: "arrive read irp 0\npre 0\ngo 0 1 yes\npre 0\ngo 1 1 yes\nlower 0\npost 0\ngo 2 2 yes\npost 0\ngo 3 2 yes\n",
        tickets: &[
            &[Subject::Operation(0)],
            &[Subject::Activation(0)],
            &[Subject::Operation(0)],
            &[Subject::Activation(1)],
            &[Subject::Operation(0)],
            &[Subject::Operation(0)],
            &[Subject::Activation(2)],
            &[Subject::Operation(0)],
            &[Subject::Activation(3)],
            &[],
        ],
        references: &[],
        ends: &[2],
    },
    // A read is cancelled while its callback still runs. Its entry waits from the cancellation on, and the operation is done as soon as it
    // is completed.
    Case {
        texts: &[texts::PENDS],
        entries: "arrive read irp 0\npre 0\ngo 0 1 yes\ngo 0 1 yes\ncancel 0\ncanceled 100 0\ngo 1 2 yes\ngo 1 1 yes\ngo 0 1 yes\n",
        tickets: &[
            &[Subject::Operation(0)],
            &[Subject::Activation(0)],
            &[Subject::Activation(0)],
            &[Subject::Activation(0)],
            &[WAITS],
            &[Subject::Activation(1)],
            &[Subject::Activation(1)],
            &[],
            &[],
        ],
        references: &[],
        ends: &[4],
    },
    // A filter is detached that pends a read: its entry waits from then on. No filter sees the second read.
    Case {
        texts: &[texts::PENDS],
        entries: "arrive read irp 0\npre 0\ngo 0 1 yes\ngo 0 1 yes\ngo 0 1 yes\ndetach 100\ncanceled 100 0\ngo 1 2 yes\ngo 1 1 yes\ndetached 100\narrive read irp 0\nskip 1\nlower 1\n",
        tickets: &[
            &[Subject::Operation(0)],
            &[Subject::Activation(0)],
            &[Subject::Activation(0)],
            &[Subject::Activation(0)],
            &[],
            &[WAITS, Subject::Detach(100)],
            &[Subject::Activation(1)],
            &[Subject::Activation(1)],
            &[],
            &[],
            &[Subject::Operation(1)],
            &[Subject::Operation(1)],
            &[],
        ],
        references: &[],
        ends: &[4, 2],
    },
    // Teardown drains a post callback, which moves its write nowhere, cancels a pended read, and takes a link away.
    Case {
        texts: &[texts::LINKS],
        entries: "arrive read irp 0\npre 0\ngo 0 1 yes\ngo 0 1 yes\ngo 0 1 yes\narrive write irp 0\npre 1\ngo 1 1 yes\ngo 1 1 yes\ngo 1 1 yes\ndetach 100\ndrain 100 1\ngo 2 2 yes\ngo 2 1 yes\ncanceled 100 0\ngo 3 2 yes\ngo 3 1 yes\nunlink 100 stream 0\ndetached 100\nlower 1\n",
        tickets: &[
            &[Subject::Operation(0)],
            &[Subject::Activation(0)],
            &[Subject::Activation(0)],
            &[Subject::Activation(0)],
            &[],
            &[Subject::Operation(1)],
            &[Subject::Activation(1)],
            &[Subject::Activation(1)],
            &[Subject::Activation(1)],
            &[Subject::Operation(1)],
            &[WAITS, Subject::Detach(100)],
            &[Subject::Activation(2)],
            &[Subject::Activation(2)],
            &[],
            &[Subject::Activation(3)],
            &[Subject::Activation(3)],
            &[],
            &[],
            &[],
            &[],
        ],
        references: &[None],
        ends: &[4, 2],
    },
    // Two reads find no context and both allocate one; one of them loses.
    Case {
        texts: &[texts::MARKS],
        entries: "arrive read irp 0\narrive read irp 0\npre 0\npre 1\ngo 0 1 yes\ngo 1 1 yes\ngo 0 1 yes\ngo 1 1 yes\ngo 0 1 yes\ngo 1 1 yes\ngo 0 3 yes\ngo 1 2 yes\ngo 1 2 yes\ngo 0 1 yes\ngo 1 1 yes\nlower 0\nlower 1\n",
        tickets: &[
            &[Subject::Operation(0)],
            &[Subject::Operation(1)],
            &[Subject::Activation(0)],
            &[Subject::Activation(1)],
            &[Subject::Activation(0)],
            &[Subject::Activation(1)],
            &[Subject::Activation(0)],
            &[Subject::Activation(1)],
            &[Subject::Activation(0)],
            &[Subject::Activation(1)],
            &[Subject::Activation(0)],
            &[Subject::Activation(1)],
            &[Subject::Activation(1)],
            &[Subject::Operation(0)],
            &[Subject::Operation(1)],
            &[],
            &[],
        ],
        references: &[Some(1), None],
        ends: &[2, 2],
    },
];

/// Whether an entry succeeds, and gives these their tickets.
fn gives(scene: &mut Scene, alloc: Global, entry: JournalEntry, wanted: &[Subject]) -> bool {
    match scene.tickets_of(alloc, entry) {
        Some(tickets) => tickets.as_slice() == wanted,
        None => false,
    }
}

/// The number of the first entry that fails or gives other tickets, if there is one.
fn first_wrong(
    scene: &mut Scene,
    alloc: Global,
    entries: &[JournalEntry],
    tickets: &[&[Subject]],
) -> Option<usize> {
    for (number, entry) in entries.iter().enumerate() {
        match tickets.get(number) {
            Some(wanted) => {
                if !gives(scene, alloc, *entry, *wanted) {
                    return Some(number);
                }
            }
            None => return Some(number),
        }
    }
    None
}

/// Whether contexts and operations are as the case has them at the end.
fn ends_so(scene: &Scene, case: &Case) -> bool {
    let look = scene.look();
    look.references.starts_with(case.references) && look.ends.starts_with(case.ends)
}

/// Drives a new board through a journal. Returns whether each entry gives its tickets, and the state at the end is the case's.
fn drive_through(alloc: Global, case: &Case, entries: &[JournalEntry]) -> Result<bool, Fail> {
    match Scene::new(alloc, case.texts) {
        Ok(mut scene) => {
            let wrong = first_wrong(&mut scene, alloc, entries, case.tickets);
            let fine = wrong.is_none() && ends_so(&scene, case);
            scene.end();
            Ok(fine)
        }
        Err(fail) => Err(fail),
    }
}

/// The same with the case's journal.
fn drive(alloc: Global, case: &Case) -> Result<bool, Fail> {
    let journal = journal_of(alloc, case.entries)?;
    drive_through(alloc, case, journal.entries())
}

/// The first case that goes otherwise.
fn wrong_case(alloc: Global, cases: &[Case]) -> Result<Option<usize>, Fail> {
    for (row, case) in cases.iter().enumerate() {
        if !drive(alloc, case)? {
            return Ok(Some(row));
        }
    }
    Ok(None)
}

#[test]
fn each_entry_gives_its_tickets(rt: HostRuntime) -> Result<(), Fail> {
    assert!(rt; wrong_case(rt.alloc(), &CASES)?.is_none());
    Ok(())
}
