//! A cancellation, a teardown or a refusal at each moment of runs that turns make. The number of entries of a run follows by hand. A move
//! or a turn that is refused memory changes nothing, and succeeds when it is made again.

use crate::scene::{Look, Scene, finding};
use crate::texts;
use flt_machine::ApplyFault;
use flt_model::{JournalEntry, Move, Subject};
use flt_rules::{Mode, Operation};
use flt_stack_core::{Choices, TurnFault};
use std::alloc::{AllocError, Global};
use std::collections::VecDeque;
use std::test::Fail;

/// Operations that arrive one after the other, each once no ticket is left, and the extra moves, each in a run of its own.
struct Case {
    texts: &'static [&'static str],
    arrivals: &'static [Operation],
    /// The number of entries of the run without an extra move or a refusal.
    entries: usize,
    /// The number of entries of the run in which a grant choice is refused, by the choice.
    refused: &'static [usize],
    asked: &'static [Asked],
}

/// A move that is made once a run has a given number of entries.
struct Asked {
    step: Move,
    /// The number of entries of the run at its end, if the move is made when it has none, one, two and so on, up to all; 0 if the move
    /// isn't enabled then.
    entries: &'static [usize],
    /// The moment from which on the first operation ends as cancelled.
    cancelled: usize,
}

const CANCEL: Move = Move::Cancel { serial: 0 };

const CANCEL_SECOND: Move = Move::Cancel { serial: 1 };

const DETACH: Move = Move::Detach { altitude: 100 };

const DETACH_UPPER: Move = Move::Detach { altitude: 200 };

const NEVER: usize = usize::MAX;

static CASES: [Case; 4] = [
    // Two filters see a read on its way down and up.
    Case {
        texts: &[texts::UPPER, texts::LOWER],
        arrivals: &[Operation::Read],
        entries: 10,
        refused: &[],
        asked: &[
            Asked {
                step: CANCEL,
                entries: &[0, 11, 11, 11, 11, 11, 11, 11, 11, 11, 0],
                cancelled: NEVER,
            },
            Asked {
                step: DETACH,
                entries: &[9, 9, 9, 9, 12, 12, 12, 12, 12, 12, 12],
                cancelled: NEVER,
            },
            Asked {
                step: DETACH_UPPER,
                entries: &[9, 9, 12, 12, 12, 12, 12, 12, 12, 12, 12],
                cancelled: NEVER,
            },
        ],
    },
    // A pended read ends with its cancellation, however early that comes.
    Case {
        texts: &[texts::PENDS],
        arrivals: &[Operation::Read],
        entries: 5,
        refused: &[],
        asked: &[
            Asked {
                step: CANCEL,
                entries: &[0, 9, 9, 9, 9, 9],
                cancelled: 1,
            },
            Asked {
                step: DETACH,
                entries: &[5, 5, 8, 8, 10, 10],
                cancelled: 4,
            },
        ],
    },
    // A drain with a completion context, a link and a queue.
    Case {
        texts: &[texts::LINKS],
        arrivals: &[Operation::Read, Operation::Write],
        entries: 14,
        refused: &[10],
        asked: &[
            Asked {
                step: CANCEL,
                entries: &[0, 18, 18, 18, 18, 18, 18, 18, 18, 18, 18, 18, 18, 18, 18],
                cancelled: 1,
            },
            Asked {
                step: CANCEL_SECOND,
                entries: &[0, 0, 0, 0, 0, 0, 15, 15, 15, 15, 15, 15, 15, 15, 0],
                cancelled: NEVER,
            },
            Asked {
                step: DETACH,
                entries: &[8, 8, 11, 11, 13, 13, 13, 19, 19, 20, 20, 20, 20, 20, 20],
                cancelled: 4,
            },
        ],
    },
    // The first read gives the stream a context, which the second one finds.
    Case {
        texts: &[texts::MARKS],
        arrivals: &[Operation::Read, Operation::Read],
        entries: 14,
        refused: &[14],
        asked: &[
            Asked {
                step: CANCEL,
                entries: &[0, 15, 15, 15, 15, 15, 15, 15, 0, 0, 0, 0, 0, 0, 0],
                cancelled: NEVER,
            },
            Asked {
                step: CANCEL_SECOND,
                entries: &[0, 0, 0, 0, 0, 0, 0, 0, 0, 15, 15, 15, 15, 15, 0],
                cancelled: NEVER,
            },
            Asked {
                step: DETACH,
                entries: &[8, 8, 13, 13, 13, 14, 14, 14, 14, 14, 17, 17, 17, 17, 17],
                cancelled: NEVER,
            },
        ],
    },
];

/// The most turns of a run.
const TURNS: usize = 100;

/// The number of subjects that are compared.
const SUBJECTS: usize = 5;

/// The most subjects that get tickets by a move.
const MOST_NAMED: usize = 2;

/// The state that drives a run.
#[derive(Drop)]
struct Player {
    subjects: VecDeque<Subject>,
    choices: Choices,
    /// The number of operations that have arrived.
    arrived: usize,
    /// Whether memory was refused.
    refused: bool,
    /// Whether a call that was refused memory changed something.
    changed: bool,
}

/// The visible state of a board and a player.
#[derive(Clone, Copy, PartialEq)]
struct Shown {
    board: Look,
    subjects: [Option<Subject>; SUBJECTS],
    choices: u64,
}

impl Player {
    fn new(alloc: Global) -> Player {
        Player {
            subjects: VecDeque::new(alloc),
            choices: Choices::new(alloc),
            arrived: 0,
            refused: false,
            changed: false,
        }
    }

    fn shown(&self, scene: &Scene) -> Shown {
        let mut subjects = [None; SUBJECTS];
        for at in 0..SUBJECTS {
            subjects[at] = self.subjects.get(at).copied();
        }
        Shown {
            board: scene.look(),
            subjects,
            choices: self.choices.made,
        }
    }

    /// Notes that a call was refused memory.
    fn note_refusal(&mut self, scene: &Scene, before: Shown) {
        self.refused = true;
        self.changed = self.changed || self.shown(scene) != before;
    }

    /// Makes a move. The subjects that get tickets by it come after the others. A move that is refused changes nothing.
    fn make(&mut self, scene: &mut Scene, alloc: Global, step: Move) -> Result<(), ApplyFault> {
        self.subjects.reserve(MOST_NAMED)?;
        let next = scene.tickets_of_move(alloc, step)?;
        for subject in next.as_slice() {
            self.subjects.push_back(*subject).map_err(AllocError::from)?;
        }
        Ok(())
    }

    /// The same. If memory is refused, the move is made once more.
    fn make_or_again(
        &mut self,
        scene: &mut Scene,
        alloc: Global,
        step: Move,
    ) -> Result<(), ApplyFault> {
        let before = self.shown(scene);
        match self.make(scene, alloc, step) {
            Err(ApplyFault::OutOfMemory) => self.note_refusal(scene, before),
            made => return made,
        }
        self.make(scene, alloc, step)
    }

    /// Takes a turn. If memory is refused, it is taken once more.
    fn turn_or_again(&mut self, scene: &mut Scene, alloc: Global) -> Result<bool, TurnFault> {
        let before = self.shown(scene);
        match scene.turn(alloc, &mut self.subjects, &mut self.choices) {
            Err(TurnFault::OutOfMemory) => self.note_refusal(scene, before),
            taken => return taken,
        }
        scene.turn(alloc, &mut self.subjects, &mut self.choices)
    }

    /// Takes a turn, or lets the next operation arrive. False if nothing is left.
    fn goes_on(
        &mut self,
        scene: &mut Scene,
        alloc: Global,
        arrivals: &[Operation],
    ) -> Result<bool, Fail> {
        if self.turn_or_again(scene, alloc)? {
            return Ok(true);
        }
        let Some(operation) = arrivals.get(self.arrived) else {
            return Ok(false);
        };
        self.arrived = self.arrived.saturating_add(1);
        let arrive = Move::Arrive {
            operation: *operation,
            mode: Mode::Irp,
            file: 0,
        };
        self.make_or_again(scene, alloc, arrive)?;
        Ok(true)
    }

    /// Continues until there are this many entries, or nothing is left. Returns whether nothing is.
    fn goes_to(
        &mut self,
        scene: &mut Scene,
        alloc: Global,
        arrivals: &[Operation],
        entries: usize,
    ) -> Result<bool, Fail> {
        for _ in 0..TURNS {
            if scene.board().journal().len() == entries {
                return Ok(false);
            }
            if !self.goes_on(scene, alloc, arrivals)? {
                return Ok(true);
            }
        }
        Ok(false)
    }

    /// Makes a move, if it is enabled. Returns whether it is.
    fn tries(&mut self, scene: &mut Scene, alloc: Global, step: Move) -> Result<bool, ApplyFault> {
        match self.make_or_again(scene, alloc, step) {
            Err(ApplyFault::NotEnabled) => Ok(false),
            made => made.map(|()| true),
        }
    }

    /// Continues until nothing is left. Returns whether nothing is, and the journal is legal.
    fn ends(&mut self, scene: &mut Scene, alloc: Global, case: &Case) -> Result<bool, Fail> {
        Ok(
            self.goes_to(scene, alloc, case.arrivals, usize::MAX)?
                && finding(alloc, case.texts, scene.board().journal())?.is_none(),
        )
    }

    /// Whether all was right. If it was, but memory was refused, the result is `OutOfMemory`.
    fn result(&self, fine: bool) -> Result<bool, ApplyFault> {
        if self.refused && fine && !self.changed {
            return Err(ApplyFault::OutOfMemory);
        }
        Ok(fine && !self.changed)
    }
}

/// The number of grant choices that were refused, by a journal.
fn refusals(entries: &[JournalEntry]) -> usize {
    entries
        .iter()
        .filter(|entry| matches!(entry, JournalEntry::Go { grant: false, .. }))
        .count()
}

/// Whether a filter of a `Detach` is detached in the end.
fn is_detached(entries: &[JournalEntry], step: Move) -> bool {
    match step {
        Move::Detach { altitude } => entries.iter().any(|entry| *entry
            == JournalEntry::Move(Move::Detached { altitude })),
        _ => true,
    }
}

/// Whether a board's run has the move at its moment, and continues from there as in the case.
fn has_move(scene: &Scene, asked: &Asked, moment: usize) -> bool {
    let journal = scene.board().journal();
    asked.entries.get(moment) == Some(&journal.len())
        && journal.entry(moment) == Some(JournalEntry::Move(asked.step))
        && is_detached(journal.entries(), asked.step)
        && (scene.look().ends[0] == 4) == (moment >= asked.cancelled)
}

/// The deviation of a run.
#[derive(Clone, Copy)]
enum Wish {
    Nothing,
    /// A grant choice is refused.
    Refusal(usize),
    /// One of the case's moves is made at a moment.
    Move(usize, usize),
}

/// Whether a run on a board agrees with the case, without a deviation.
fn goes_alone(
    scene: &mut Scene,
    player: &mut Player,
    alloc: Global,
    case: &Case,
) -> Result<bool, Fail> {
    Ok(
        player.ends(scene, alloc, case)?
            && scene.board().journal().len() == case.entries
            && player.choices.made == case.refused.len() as u64,
    )
}

/// The same with a refused grant choice, which is in the journal once.
fn goes_refused(
    scene: &mut Scene,
    player: &mut Player,
    alloc: Global,
    case: &Case,
    number: usize,
) -> Result<bool, Fail> {
    player.choices.refused.insert(number as u64)?;
    let fine = player.ends(scene, alloc, case)?;
    let entries = scene.board().journal().entries();
    Ok(fine && case.refused.get(number) == Some(&entries.len()) && refusals(entries) == 1)
}

/// The same with a move at a moment. A move that isn't enabled changes nothing.
fn goes_moved(
    scene: &mut Scene,
    player: &mut Player,
    alloc: Global,
    case: &Case,
    asked: &Asked,
    moment: usize,
) -> Result<bool, Fail> {
    player.goes_to(scene, alloc, case.arrivals, moment)?;
    let made = player.tries(scene, alloc, asked.step)?;
    let fine = player.ends(scene, alloc, case)?;
    let as_said = if made {
        has_move(scene, asked, moment)
    } else {
        asked.entries.get(moment) == Some(&0) && scene.board().journal().len() == case.entries
    };
    Ok(fine && as_said)
}

/// Whether a run on a board agrees with the case.
fn goes_by(
    scene: &mut Scene,
    player: &mut Player,
    alloc: Global,
    case: &Case,
    wish: Wish,
) -> Result<bool, Fail> {
    match wish {
        Wish::Nothing => goes_alone(scene, player, alloc, case),
        Wish::Refusal(number) => goes_refused(scene, player, alloc, case, number),
        Wish::Move(row, moment) => match case.asked.get(row) {
            Some(asked) => goes_moved(scene, player, alloc, case, asked, moment),
            None => Ok(false),
        },
    }
}

/// The same with a new player.
fn goes_so(scene: &mut Scene, alloc: Global, case: &Case, wish: Wish) -> Result<bool, Fail> {
    let mut player = Player::new(alloc);
    let fine = goes_by(scene, &mut player, alloc, case, wish)?;
    Ok(player.result(fine)?)
}

/// The same on a new board.
fn plays_so(alloc: Global, case: &Case, wish: Wish) -> Result<bool, Fail> {
    match Scene::new(alloc, case.texts) {
        Ok(mut scene) => {
            let fine = goes_so(&mut scene, alloc, case, wish);
            scene.end();
            fine
        }
        Err(fail) => Err(fail),
    }
}

/// Whether the case has a result of the move for each moment of its run.
fn has_all_moments(case: &Case, row: usize) -> bool {
    match case.asked.get(row) {
        Some(asked) => asked.entries.len().checked_sub(1) == Some(case.entries),
        None => false,
    }
}

/// Whether the move has the case's result at each moment of a run.
fn moments_go_so(alloc: Global, case: &Case, row: usize) -> Result<bool, Fail> {
    for moment in 0..=case.entries {
        if !plays_so(alloc, case, Wish::Move(row, moment))? {
            return Ok(false);
        }
    }
    Ok(has_all_moments(case, row))
}

/// The first of a case's moves that has another result at some moment.
fn first_wrong_move(alloc: Global, case: &Case) -> Result<Option<usize>, Fail> {
    for row in 0..case.asked.len() {
        if !moments_go_so(alloc, case, row)? {
            return Ok(Some(row));
        }
    }
    Ok(None)
}

/// Whether each refusal has the case's result, and there are no more grant choices.
fn refusals_go_so(alloc: Global, case: &Case) -> Result<bool, Fail> {
    for number in 0..case.refused.len() {
        if !plays_so(alloc, case, Wish::Refusal(number))? {
            return Ok(false);
        }
    }
    plays_so(alloc, case, Wish::Nothing)
}

/// The first case that has another result: its number, and that of the move, if a move has it.
fn first_wrong(alloc: Global, cases: &[Case]) -> Result<Option<(usize, Option<usize>)>, Fail> {
    for (number, case) in cases.iter().enumerate() {
        let wrong = first_wrong_move(alloc, case)?;
        if wrong.is_some() || !refusals_go_so(alloc, case)? {
            return Ok(Some((number, wrong)));
        }
    }
    Ok(None)
}

/// `tools/refuse-allocations.sh tests flt_tests memory` refuses each request for memory in turn.
#[test]
fn each_moment_comes_to_a_legal_run_within_memory(rt: HostRuntime) -> Result<(), Fail> {
    assert!(rt; first_wrong(rt.alloc(), &CASES)?.is_none());
    Ok(())
}
