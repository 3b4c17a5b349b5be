//! A law that contracts of queues cite.

ghost use Rattle.std.specs.Prelude.{◌≡◌, Bool, List, find};
ghost use Rattle.std.specs.List.{AllByRecursion};
ghost use Rattle.flt_model.specs.declared.parts.Entry.{Entry};
ghost use Rattle.flt_replay_records.specs.Tickets.{without_first};

/// Two tests that agree on each entry find the same one, and leave the same others. It does nothing at run time: its clause is the law.
#[tactic(auto, using(crate::proofs::Queues::QueueMiddle::same_first))]
pub fn same_tests_find_the_same()
    ensures law { (test other : Entry → Bool) (entries : List Entry) →
        AllByRecursion (λ e. test e ≡ other e) entries → (find test entries ≡ find other entries)
        × (without_first test entries ≡ without_first other entries) }
{}
