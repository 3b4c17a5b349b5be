//! A path to another worker's deque.
ghost use Rattle.std.specs.Prelude.{◌≡◌, IfSome, IfNone};
ghost use Rattle.crossbeam_deque.specs.Handles.{view, IsPassOf, stealer_deque};
ghost use Rattle.flt_pool.specs.Hands.{newcomer, having_taken};

use crate::rule::{Takes, TicketRule};
use crate::{Hand, Ticket};
use crossbeam_deque::{Pass, Steal, Stealer};
use std::alloc::Global;
use std::sync::Wait;

/// A handle that steals from a deque under the rule.
pub(crate) type Thief = Stealer<Ticket, Global, Hand, TicketRule>;

/// A path by which a worker steals from one deque.
#[derive(Drop)]
pub(crate) struct Way {
    pub(crate) thief: Thief,
    pub(crate) pass: Pass<Ticket, Hand>,
    ghost fits: { IsPassOf (stealer_deque thief) pass },
}

impl Way {
    /// A path to a deque, by which nothing has gone.
    #[tactic(auto, using(crate::proofs::Steps::admits))]
    pub(crate) fn new(thief: Thief) -> Way
        ensures hand { view result.pass ≡ newcomer }
        ensures deque { stealer_deque result.thief ≡ stealer_deque thief }
    {
        let pass = thief.pass();
        Way { thief, pass }
    }

    /// The ticket at the front, if there is one. It tries again if another thread was faster.
    pub(crate) fn steal<R: Wait>(&mut self, rt: &R) -> Option<Ticket>
        ensures some { IfSome result (λ ticket. view self.new.pass ≡ having_taken ticket (view self.old.pass)) }
        ensures none { IfNone result (view self.new.pass ≡ view self.old.pass) }
        ensures deque { stealer_deque self.new.thief ≡ stealer_deque self.old.thief }
    {
        for _ in rt.forever() {
            match self.thief.steal_as::<Takes>(&mut self.pass) {
                Steal::Success(ticket) => return Some(ticket),
                Steal::Empty => return None,
                Steal::Retry => {}
            }
        }
        unreachable!()
    }
}
