//! Laws of the machine's definitions: how the verdict about a journal agrees with runs, what local steps leave unchanged, and that locks
//! stay exclusive. One law is about the text of journals: a first fault is at one place.

ghost use Rattle.std.specs.Prelude.{◌≡◌, ◌↔◌, ℕ, List, [], Some, None, if◌then◌else◌, IsTrue};
ghost use Rattle.flt_tree.specs.declared.filter.Filter.{Filter};
ghost use Rattle.flt_model.specs.Effects.{Step};
ghost use Rattle.flt_model.specs.Expansion.{IsCleanRun, IsStoppedAt, IsBrokenAt, verdict};
ghost use Rattle.flt_model.specs.JournalText.{Entries, IsFirstFault, IsJournal, spelling};
ghost use Rattle.flt_model.specs.LocalSteps.{GoesOnAlone};
ghost use Rattle.flt_model.specs.Locks.{locks_exclude};
ghost use Rattle.flt_model.specs.Runs.{Moment, broken, next};
ghost use Rattle.flt_model.specs.Steps.{Local, Transition, step};
ghost use Rattle.flt_model.specs.Streams.{Text};
ghost use Rattle.flt_model.specs.Violations.{one_owner};
ghost use Rattle.flt_model.specs.World.{World, opening};
ghost use Rattle.flt_model.specs.declared.event.Event.{Event};
ghost use Rattle.flt_model.specs.declared.moves.JournalEntry.{JournalEntry};
ghost use Rattle.flt_model.specs.declared.verdict.Verdict.TheVariants.{Legal, NotARun, Breaks};
ghost use Rattle.flt_model.specs.declared.verdict.Violation.{Violation};
ghost use Rattle.flt_model.specs.declared.verdict.Violation.TheVariants.{V4, V7};

/// A journal is legal if and only if its transitions are a run that breaks nothing. It does nothing at run time: its clause is the law.
pub fn legal_journals_are_clean_runs()
    ensures law { (filters : List Filter) (entries : List JournalEntry) → (verdict filters entries ≡ Legal) ↔ IsCleanRun filters entries }
{}

/// A verdict that isn't legal names the first fault. It names an entry before which the journal is a run that breaks nothing: `NotARun` if
/// and only if it is no run with that entry, `Breaks` if and only if with that entry it is a run that breaks something, and first the
/// violation named. It does nothing at run time: its clauses are the law.
pub fn first_faults_are_told()
    ensures stopped { (filters : List Filter) (entries : List JournalEntry) (n : ℕ) → (verdict filters entries ≡ NotARun n) ↔
        IsStoppedAt filters entries n }
    ensures broken { (filters : List Filter) (entries : List JournalEntry) (v : Violation) (n : ℕ) →
        (verdict filters entries ≡ Breaks v n) ↔ IsBrokenAt filters entries v n }
{}

/// A local step has no events and changes its activation alone, which continues. It breaks nothing that wasn't broken before it: V4 if a
/// visit didn't have its owner already, V7 if a lock was held exclusively beside another activation, and otherwise nothing. It does nothing
/// at run time: its clauses are the law.
pub fn local_steps_are_quiet()
    ensures events { (p : List Filter) (m : Moment) (a : ℕ) (s : Step) → next p m (Local a) ≡ Some s → s.events ≡ [] }
    ensures alone { (p : List Filter) (m : Moment) (a : ℕ) (s : Step) → next p m (Local a) ≡ Some s →
        GoesOnAlone m.world a s.world }
    ensures breaks { (p : List Filter) (m : Moment) (a : ℕ) (s : Step) → next p m (Local a) ≡ Some s →
        broken p m s ≡ (if one_owner m.world m.trace then (if locks_exclude m.world then None else Some V7) else Some V4) }
{}

/// At the opening, no lock is held exclusively beside another activation, and no step leads from such a world to one in which a lock is.
/// Whatever the filters do, the second half of V7 is kept by every run. It does nothing at run time: its clauses are the law.
pub fn locks_stay_exclusive()
    ensures opening { (p : List Filter) → IsTrue (locks_exclude (opening p)) }
    ensures steps { (p : List Filter) (w : World) (t : List Event) (x : Transition) (s : Step) → step p w t x ≡ Some s →
        IsTrue (locks_exclude w) → IsTrue (locks_exclude s.world) }
{}

/// A text has one first fault at most, and none if it spells a journal. It does nothing at run time: its clauses are the law.
pub fn one_first_fault_at_most()
    ensures one { (text : Text) (line : ℕ) (left : Text) (other_line : ℕ) (other_left : Text) → IsFirstFault text line left →
        IsFirstFault text other_line other_left → (line ≡ other_line) × (left ≡ other_left) }
    ensures none { (entries : Entries) (line : ℕ) (left : Text) → IsJournal entries → ¬ IsFirstFault (spelling entries) line left }
{}
