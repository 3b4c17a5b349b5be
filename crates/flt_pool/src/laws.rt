//! The consequence of the rule: a law of each deque and of the injector between any two steps.
ghost use Rattle.flt_pool.specs.Laws.{NoneIsTakenTwice, SameMeansEqual};

/// Between any two steps on a deque, or on the injector, each ticket was taken from it as often as it was put into it, less how often it
/// is left in it. So no put is taken twice, and none is invented.
pub fn none_taken_twice()
    ensures balance { NoneIsTakenTwice }
    ensures same { SameMeansEqual }
{}
