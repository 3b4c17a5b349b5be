//! A cancel-safe queue: an entry is taken out without a move of the others, and those of a visit are found without a search.

ghost use Rattle.std.specs.Prelude.{◌≡◌, ◌≤◌, ◌<◌, ◌==◌, ℕ, true, false, if◌then◌else◌, [], ◌∷◌, ◌++◌, Some, None, is_some};
ghost use Rattle.std.specs.Prelude.{find, map, take, length, get_or, OnOk, OnErr, IfOk, MatchOption, ◌↔◌, IsTrue};
ghost use Rattle.flt_model.specs.Violations.{in_queue};
ghost use Rattle.flt_model.specs.declared.parts.Entry.{Entry};
ghost use Rattle.flt_replay_records.specs.Counts.{count};
ghost use Rattle.flt_replay_records.specs.Tickets.{is_of, without_first, lesser, present, stands, is_before, IsLeast};

use crate::counts::Counts;
use crate::number_map::NumberMap;
use flt_model::Entry;
use std::alloc::{AllocError, Global};
use std::marker::Model;

/// Entries in order.
#[derive(Drop)]
pub(crate) struct Queue {
    /// By ticket, which counts the entries before it since the beginning. It is none if the entry was taken out.
    entries: Vec<Option<Entry>>,
    /// The ticket of the first entry that is left, or the next one if none is.
    front: usize,
    /// For each visit, the ticket from which the search for its entries begins.
    starts: NumberMap,
    /// For each visit, the number of its entries.
    counts: Counts,
}

impl Model for Queue {
    ghost use Rattle.std.specs.Prelude.{List};
    ghost use Rattle.flt_model.specs.declared.parts.Entry.{Entry};

    ghost Value = { List Entry };

    ghost use Rattle.flt_replay_records.specs.Tickets.{present, AreTickets};

    ghost view = { λ q. present q.entries.items };

    ghost invariant = { λ q. AreTickets q.entries.items q.front q.starts q.counts };
}

impl Queue {
    pub(crate) fn new(alloc: Global) -> Queue
        ensures { result ≡ [] }
    {
        Queue {
            entries: Vec::new(alloc),
            front: 0,
            starts: NumberMap::new(alloc),
            counts: Counts::new(alloc),
        }
    }

    #[tactic(auto, using(crate::proofs::Queues::Tickets::nothing_left, crate::proofs::Queues::Tickets::something_left))]
    pub(crate) fn is_empty(&self) -> bool
        ensures { IsTrue result ↔ (self.now ≡ []) }
    {
        self.front == self.entries.len()
    }

    /// The visits of the entries, in order.
    #[tactic(auto, using(crate::proofs::Queues::Tickets::listed_on))]
    pub(crate) fn visits(&self, alloc: Global) -> Result<Vec<usize>, AllocError>
        ensures { IfOk result (λ vs. vs.items ≡ map (λ (e : Entry). e.visit) self.now) }
    {
        let mut visits = Vec::new(alloc);
        for ticket in self.front..self.entries.len() {
            list_visit(&mut visits, self.entries.as_slice(), ticket)?;
        }
        Ok(visits)
    }

    /// Adds an entry at the end.
    pub(crate) fn push(&mut self, entry: Entry) -> Result<(), AllocError>
        ensures ok { OnOk result (self.new ≡ self.old ++ entry ∷ []) }
        ensures err { OnErr result (self.new ≡ self.old) }
    {
        let ticket = self.entries.len();
        let visit = entry.visit;
        self.entries.reserve(1)?;
        begin(&mut self.starts, &self.counts, visit, ticket)?;
        self.counts.add(visit)?;
        self.entries.push_reserved(Some(entry));
        Ok(())
    }

    /// Takes the front entry out.
    pub(crate) fn take_first(&mut self) -> Option<Entry>
        ensures { MatchOption result ((self.old ≡ []) × (self.new ≡ [])) (λ e. self.old ≡ e ∷ self.new) }
    {
        let place = self.entries.get_mut(self.front)?;
        let entry = place.take()?;
        self.counts.take(entry.visit);
        self.front = next_left(self.entries.as_slice(), self.front);
        Some(entry)
    }

    /// Takes the first entry with one of some visits out.
    pub(crate) fn take_entry(&mut self, visits: &[usize]) -> Option<Entry>
        ensures { MatchOption result ((find (is_of visits.now) self.old ≡ None) × (self.new ≡ self.old))
            (λ e. (find (is_of visits.now) self.old ≡ Some e) × (self.new ≡ without_first (is_of visits.now) self.old)) }
    {
        let Some(ticket) = least_ticket(self.entries.as_slice(), &self.starts, &self.counts, visits)
        else {
            return None;
        };
        let place = self.entries.get_mut(ticket)?;
        let entry = place.take()?;
        self.counts.take(entry.visit);
        self.front = next_left(self.entries.as_slice(), self.front);
        Some(entry)
    }
}

/// Begins the search for the entries of a visit that has none at a ticket.
fn begin(
    starts: &mut NumberMap,
    counts: &Counts,
    visit: usize,
    ticket: usize,
) -> Result<(), AllocError>
    ensures begun { OnOk result (count counts.now visit ≡ 0 → (n : ℕ) →
        get_or starts.new n None ≡ (if visit == n then Some ticket else get_or starts.old n None)) }
    ensures kept { OnOk result ((count counts.now visit ≡ 0 → ⊥) → starts.new ≡ starts.old) }
    ensures err { OnErr result (starts.new ≡ starts.old) }
{
    if counts.count(visit) == 0 {
        starts.set(visit, ticket)?;
    }
    Ok(())
}

/// Lists the visit of a ticket's entry, if it is there.
fn list_visit(
    visits: &mut Vec<usize>,
    entries: &[Option<Entry>],
    ticket: usize,
) -> Result<(), AllocError>
    ensures { OnOk result
        (visits.new.items ≡ visits.old.items ++ map (λ (e : Entry). e.visit) (present (get_or entries.now ticket None ∷ []))) }
{
    if let Some(Some(entry)) = entries.get(ticket) {
        visits.push(entry.visit)?;
    }
    Ok(())
}

/// The first ticket, from a given one, whose entry is left, or the next ticket if none is.
#[tactic(auto, using(crate::proofs::Queues::Tickets::taken_on))]
fn next_left(entries: &[Option<Entry>], from: usize) -> usize
    ensures within { from ≤ length entries.now → result ≤ length entries.now }
    ensures taken { present (take from entries.now) ≡ [] → present (take result entries.now) ≡ [] }
    ensures first { result < length entries.now → is_some (get_or entries.now result None) ≡ true }
{
    let mut ticket = from;
    while let Some(None) = entries.get(ticket) {
        ticket += 1;
    }
    ticket
}

/// Whether the entry of a ticket is there and has a visit.
#[tactic(auto, unfolding(crate::specs::Tickets::stands))]
fn stands(entries: &[Option<Entry>], visit: usize, ticket: usize) -> bool
    ensures { result ≡ stands entries.now visit ticket }
{
    match entries.get(ticket) {
        Some(Some(entry)) => entry.visit == visit,
        _ => false,
    }
}

/// The first ticket of a visit, if entries are counted and none comes before its visit's start.
#[tactic(auto, using(crate::proofs::Queues::Tickets::not_counted, crate::proofs::Queues::Tickets::first_found, crate::proofs::Queues::Tickets::first_nowhere))]
fn first_ticket(
    entries: &[Option<Entry>],
    starts: &NumberMap,
    counts: &Counts,
    visit: usize,
) -> Option<usize>
    requires counted { (v : ℕ) → count counts.now v ≡ in_queue v (present entries.now) }
    requires later { (v t : ℕ) → is_before t (get_or starts.now v None) ≡ true → stands entries.now v t ≡ false }
    ensures { MatchOption result ((t : ℕ) → stands entries.now visit t ≡ false)
        (λ n. (stands entries.now visit n ≡ true) × ((t : ℕ) → t < n → stands entries.now visit t ≡ false)) }
{
    if counts.count(visit) == 0 {
        return None;
    }
    let start = starts.get(visit)?;
    for ticket in start..entries.len() {
        if stands(entries, visit, ticket) {
            return Some(ticket);
        }
    }
    None
}

/// The least ticket of some visits, if entries are counted and none comes before its visit's start.
fn least_ticket(
    entries: &[Option<Entry>],
    starts: &NumberMap,
    counts: &Counts,
    visits: &[usize],
) -> Option<usize>
    requires counted { (v : ℕ) → count counts.now v ≡ in_queue v (present entries.now) }
    requires later { (v t : ℕ) → is_before t (get_or starts.now v None) ≡ true → stands entries.now v t ≡ false }
    ensures { IsLeast entries.now visits.now result }
{
    let mut least: Option<usize> = None;
    for visit in visits {
        least = lesser(least, first_ticket(entries, starts, counts, *visit));
    }
    least
}

/// The lesser of two numbers, of which any may be missing.
fn lesser(one: Option<usize>, other: Option<usize>) -> Option<usize>
    ensures { result ≡ lesser one other }
{
    match (one, other) {
        (Some(one), Some(other)) => Some(if one < other { one } else { other }),
        (Some(one), None) => Some(one),
        (None, other) => other,
    }
}
