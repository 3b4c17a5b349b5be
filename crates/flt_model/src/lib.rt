//! The machine that filters run on: its moves, and the text of journals, which are lists of them. `specs/` defines the machine's behaviour,
//! against which everything else of this project is checked.
#![tactic(auto)]

pub mod effects;
mod event;
mod fault;
mod journal;
mod laws;
mod line_parts;
mod lines;
mod moves;
mod parts;
mod program;
mod reader;
mod scanner;
mod settling;
mod spelled;
mod std_streams;
mod streams;
mod subject;
mod variables;
mod verdict;
mod writer;
mod written;

pub use event::{Answer, Event, Object};
pub use fault::JournalFault;
pub use journal::Journal;
pub use laws::{
    first_faults_are_told, legal_journals_are_clean_runs, local_steps_are_quiet,
    locks_stay_exclusive, one_first_fault_at_most,
};
pub use line_parts::{read_move, read_number};
pub use moves::{JournalEntry, Key, Move};
pub use parts::{Arrival, Entry, Holder, Item, Link, Outcome, Position, Presence};
pub use program::{filters_have_places, first_repeated};
pub use reader::read;
pub use scanner::Stop;
pub use settling::Way;
pub use spelled::one_journal_is_spelled;
pub use std_streams::{Reading, Writing};
pub use streams::{ReadFault, Sink, Source, WriteFault, put_all};
pub use subject::Subject;
pub use variables::Variables;
pub use verdict::{Verdict, Violation};
pub use writer::write;
pub use written::journal_bytes;
