//! The rule that the words and the views keep between any two steps, and the change of a view by each kind of step.

use crate::View;
use atomic_table::{Play, Split, TableRule};

/// The words and the views are those that the steps so far leave, and each step is one of the three kinds.
pub(crate) struct CancelRule;

impl TableRule<u8, View, ()> for CancelRule {
    ghost use Rattle.flt_cancel.specs.Rule.{Kept};
    ghost use Rattle.flt_cancel.specs.Steps.{newcomer};

    ghost holds = { λ _. Kept };

    ghost first = { λ _. newcomer };
}

/// A seat asks.
pub(crate) struct Asks;

impl Play<u8, View> for Asks {
    ghost use Rattle.flt_cancel.specs.Rule.{Asked};

    ghost then = { Asked };
}

/// A seat collects.
pub(crate) struct Collects;

impl Play<u8, View> for Collects {
    ghost use Rattle.flt_cancel.specs.Rule.{Collected};

    ghost then = { Collected };
}

/// A seat is split off another, whose view stays.
pub(crate) struct SplitsOff;

impl Split<View> for SplitsOff {
    ghost use Rattle.flt_cancel.specs.Steps.{newcomer};

    ghost left = { λ v. v };

    ghost right = { λ _. newcomer };
}
