//! The pads: opening them, asking and collecting.
ghost use Rattle.std.specs.Prelude.{◌≡◌, ℕ, ◌<◌, ◌≤◌, ◌++◌, ◌∷◌, [], length, All, IfOk};
ghost use Rattle.flt_cancel.specs.Seats.{marks, view, IsSeatOf};
ghost use Rattle.flt_cancel.specs.Serials.{group_of, serials, IsPresent};
ghost use Rattle.flt_cancel.specs.Steps.{newcomer, words_after, IsNext, WasAsked};
ghost use Rattle.flt_cancel.specs.declared.step.Step.TheVariants.{Ask, Collect};
ghost use Rattle.flt_rules.specs.Limits.{max_operations};

use crate::rule::SplitsOff;
use crate::words::{RuledTable, Words};
use crate::{OutOfMemory, Seat};
use std::alloc::Global;

/// How many words there are, each of 64 requests.
const WORDS: usize = 1024;

/// How many serials a group has: those of 16 words.
const SERIALS_OF_GROUP: u32 = 1024;

/// Requests to cancel, one bit each: serial `s` is bit `s % 64` of word `s / 64`. Sixteen words are a group, and each group has a mark,
/// which says that one of its words must be looked at. Marks are set and collected as requests are, in words of their own: the mark of
/// group `g` is bit `g` of the first one.
#[derive(Drop)]
pub struct Pads {
    words: Words,
    marks: Words,
}

impl Pads {
    /// Pads with no request and no mark, and their seats, of which none has asked or collected.
    pub fn open(alloc: Global, seats: usize) -> Result<(Pads, Vec<Seat>), OutOfMemory>
        requires { (1 ≤ seats) × (seats ≤ 32) }
        ensures count { IfOk result (λ opened. length opened.1.items ≡ seats) }
        ensures seats { IfOk result (λ opened. All (λ seat. IsSeatOf opened.0 seat × (view seat ≡ newcomer)) opened.1.items) }
        ensures marks { IfOk result (λ opened. All (λ seat. marks seat ≡ newcomer) opened.1.items) }
    {
        let mut made = Vec::with_capacity(alloc, seats)?;
        let (table, mut first) = RuledTable::of_words(alloc, &[0; WORDS], &())?;
        let (marks, mut first_mark) = RuledTable::of_words(alloc, &[0; WORDS], &())?;
        for _ in 1..seats {
            let token = table.shared.split_seat::<SplitsOff>(&mut first);
            let mark = marks.shared.split_seat::<SplitsOff>(&mut first_mark);
            made.push_reserved(Seat { token, mark });
        }
        made.push_reserved(Seat {
            token: first,
            mark: first_mark,
        });
        Ok((
            Pads {
                words: Words { table },
                marks: Words { table: marks },
            },
            made,
        ))
    }

    /// Asks for a serial, in one step, and then sets its group's mark, in another. The serial stays asked until some seat collects it,
    /// however often it is asked before that. Whoever collects the mark finds the request in its word, unless it was collected before.
    pub fn ask(&self, seat: &mut Seat, serial: u32)
        requires serial { serial < max_operations }
        requires seat { IsSeatOf self.now seat.old }
        ensures seat { IsSeatOf self.now seat.new }
        ensures asked { (view seat.new).asked ≡ (view seat.old).asked ++ serial ∷ [] }
        ensures collected { (view seat.new).collected ≡ (view seat.old).collected }
        ensures step { (by : ℕ) × IsNext by (Ask by serial) (view seat.old).seen (view seat.new).seen }
        ensures present { IsPresent (words_after (view seat.new).seen) serial }
        ensures marked { (marks seat.new).asked ≡ (marks seat.old).asked ++ group_of serial ∷ [] }
        ensures unmarked { (marks seat.new).collected ≡ (marks seat.old).collected }
        ensures mark_step { (by : ℕ) × IsNext by (Ask by (group_of serial)) (marks seat.old).seen (marks seat.new).seen }
        ensures mark_present { IsPresent (words_after (marks seat.new).seen) (group_of serial) }
    {
        self.words.ask(&mut seat.token, serial);
        self.marks.ask(&mut seat.mark, serial / SERIALS_OF_GROUP);
    }

    /// Takes all the requests of a word, in one step. Bit `b` of the result is serial `64 * word + b`.
    pub fn collect(&self, seat: &mut Seat, word: usize) -> u64
        requires word { word < 1024 }
        requires seat { IsSeatOf self.now seat.old }
        ensures seat { IsSeatOf self.now seat.new }
        ensures asked { (view seat.new).asked ≡ (view seat.old).asked }
        ensures collected { (view seat.new).collected ≡ (view seat.old).collected ++ serials word result }
        ensures step { (by : ℕ) × IsNext by (Collect by word result) (view seat.old).seen (view seat.new).seen }
        ensures were_asked { All (λ serial. WasAsked serial (view seat.new).seen) (serials word result) }
        ensures marks { marks seat.new ≡ marks seat.old }
    {
        self.words.collect(&mut seat.token, word)
    }

    /// Takes all marks, in one step. Bit `g` of the result is the mark of group `g`, whose words are `16 * g` to `16 * g + 15`. Whoever
    /// does so collects these words, or sets the marks again.
    pub fn unmark(&self, seat: &mut Seat) -> u64
        requires { IsSeatOf self.now seat.old }
        ensures seat { IsSeatOf self.now seat.new }
        ensures marked { (marks seat.new).asked ≡ (marks seat.old).asked }
        ensures unmarked { (marks seat.new).collected ≡ (marks seat.old).collected ++ serials 0 result }
        ensures mark_step { (by : ℕ) × IsNext by (Collect by 0 result) (marks seat.old).seen (marks seat.new).seen }
        ensures were_marked { All (λ group. WasAsked group (marks seat.new).seen) (serials 0 result) }
        ensures requests { view seat.new ≡ view seat.old }
    {
        self.marks.collect(&mut seat.mark, 0)
    }

    /// Sets a group's mark, in one step.
    pub fn mark(&self, seat: &mut Seat, group: u32)
        requires group { group < 64 }
        requires seat { IsSeatOf self.now seat.old }
        ensures seat { IsSeatOf self.now seat.new }
        ensures marked { (marks seat.new).asked ≡ (marks seat.old).asked ++ group ∷ [] }
        ensures unmarked { (marks seat.new).collected ≡ (marks seat.old).collected }
        ensures mark_step { (by : ℕ) × IsNext by (Ask by group) (marks seat.old).seen (marks seat.new).seen }
        ensures mark_present { IsPresent (words_after (marks seat.new).seen) group }
        ensures requests { view seat.new ≡ view seat.old }
    {
        self.marks.ask(&mut seat.mark, group);
    }
}
