//! Groups of findings: those of one callback, rule, subject and origin.

ghost use Rattle.std.specs.Prelude.{◌≡◌, ◌++◌, ◌∷◌, [], IfOk, OnOk};
ghost use Rattle.flt_explain.specs.Subjects.{place as place_of_subject};
ghost use Rattle.flt_explain_origins.specs.Gathering.{common_of, joined, added, ArePlaced};
ghost use Rattle.flt_explain_origins.specs.Grouping as spec;

use crate::origin::Cause;
use flt_explain::{Finding, Subject};
use flt_rules::number;
use sqlite_items::Items;
use std::alloc::{AllocError, Global};
use std::collections::HashMap;

/// A finding, its number among all, from 0, and its cause, if that is known.
#[derive(Clone, Copy)]
pub struct TracedFinding {
    pub number: usize,
    pub finding: Finding,
    pub cause: Option<Cause>,
}

/// Findings of one callback, rule, subject and origin, in their order.
#[derive(Drop)]
pub struct Group {
    pub first: TracedFinding,
    pub others: Items<TracedFinding>,
}

/// The place of a subject among all: the variables, mode and draining, the locks, the call and the status.
fn place(subject: Subject) -> usize
    ensures { result ≡ place_of_subject subject }
{
    match subject {
        Subject::Context(variable) => variable.place(),
        Subject::Operation(variable) => 9 + variable.place(),
        Subject::Mode => 14,
        Subject::Draining => 15,
        Subject::Lock(lock) => 16 + lock.place() as usize,
        Subject::Call => 24,
        Subject::Status => 25,
    }
}

/// The properties that the findings of a group share: callback, rule, subject and cause.
#[derive(Clone, Copy, PartialEq, Eq, Hash)]
struct Common {
    callback: usize,
    rule: u8,
    subject: usize,
    /// The point whose statement is the cause; none if the cause is the callback's entry.
    point: Option<usize>,
    /// The outcome of that statement.
    granted: bool,
}

/// The properties that a finding shares with others; none if its origin isn't known.
fn common_of(traced: &TracedFinding) -> Option<Common>
    ensures { result ≡ common_of traced.now }
{
    let (point, granted) = match traced.cause? {
        Cause::Entry => (None, true),
        Cause::Made(step) => (Some(step.point), step.granted),
    };
    Some(Common {
        callback: traced.finding.callback,
        rule: number(traced.finding.rule),
        subject: place(traced.finding.subject),
        point,
        granted,
    })
}

/// Groups in the making, and the place of each by the properties that its findings share.
#[derive(Drop)]
struct GatheredGroups {
    groups: Vec<Group>,
    places: HashMap<Common, usize>,
}

/// Begins a group with a finding.
fn begin(alloc: Global, groups: &mut Vec<Group>, traced: TracedFinding) -> Result<(), AllocError>
    ensures { OnOk result (groups.new.items ≡ groups.old.items ++ spec.group traced [] ∷ []) }
{
    groups.push(Group {
        first: traced,
        others: Items::new(alloc),
    })?;
    Ok(())
}

/// Adds a finding to the group at a place.
fn join(groups: &mut Vec<Group>, place: usize, traced: TracedFinding) -> Result<(), AllocError>
    ensures { OnOk result (groups.new.items ≡ joined groups.old.items place traced) }
{
    match groups.get_mut(place) {
        Some(group) => group.others.push(traced),
        None => Ok(()),
    }
}

impl GatheredGroups {
    /// Adds the next finding to the first group that it is like, or begins one with it.
    fn add(&mut self, alloc: Global, traced: TracedFinding) -> Result<(), AllocError>
        requires places { ArePlaced self.old }
        ensures places { OnOk result (ArePlaced self.new) }
        ensures groups { OnOk result (self.new.groups.items ≡ added traced self.old.groups.items) }
    {
        let Some(common) = common_of(&traced) else {
            return begin(alloc, &mut self.groups, traced);
        };
        if let Some(place) = self.places.get(&common) {
            return join(&mut self.groups, *place, traced);
        }
        let place = self.groups.len();
        begin(alloc, &mut self.groups, traced)?;
        let _ = self.places.insert(common, place)?;
        Ok(())
    }
}

/// The groups of findings of one callback, rule, subject and origin, in the order of the first of each group. A finding whose origin isn't
/// known is in a group by itself.
///
/// # Errors
///
/// `AllocError` if a growth is refused.
pub fn groups(alloc: Global, found: &[TracedFinding]) -> Result<Items<Group>, AllocError>
    ensures { IfOk result (λ gs. gs ≡ spec.groups_of found.now) }
{
    let mut gathered = GatheredGroups {
        groups: Vec::new(alloc),
        places: HashMap::new(alloc),
    };
    for traced in found {
        gathered.add(alloc, *traced)?;
    }
    Ok(Items::from_vec(gathered.groups))
}

/// Each finding is in exactly one group, and all of a group agree. It does nothing at run time: its clauses are a law.
#[tactic(auto, using(crate::proofs::Parts::part, crate::proofs::Parts::alike))]
pub fn groups_part_findings()
    ensures part { spec.Part }
    ensures alike { spec.Alike }
{}
