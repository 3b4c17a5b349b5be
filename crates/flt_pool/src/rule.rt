//! The rule that a deque, or the injector, and the hands keep between any two steps, and the change of a hand by each kind of step.

use crate::{Hand, Ticket};
use crossbeam_deque::protocol::{Outcome, Protocol};

/// Each ticket was taken as often as it was put, less how often it is left.
pub(crate) struct TicketRule;

impl Protocol<Ticket, Hand> for TicketRule {
    ghost use Rattle.flt_pool.specs.Hands.{newcomer};
    ghost use Rattle.flt_pool.specs.Rule.{Balanced};

    ghost holds = { Balanced };

    ghost first = { newcomer };

    ghost guest = { newcomer };
}

/// Tickets come.
pub(crate) struct Puts;

impl Outcome<Ticket, Hand> for Puts {
    ghost use Rattle.flt_pool.specs.Rule.{HasPut};

    ghost then = { HasPut };
}

/// Tickets leave.
pub(crate) struct Takes;

impl Outcome<Ticket, Hand> for Takes {
    ghost use Rattle.flt_pool.specs.Rule.{HasTaken};

    ghost then = { HasTaken };
}
