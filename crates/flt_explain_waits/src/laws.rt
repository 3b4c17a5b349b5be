//! Laws of activations that wait: they can't continue, and their world is reached by local steps.

ghost use Rattle.flt_explain_waits.specs.Stuck as spec;

use flt_model::local_steps_are_quiet;

/// An activation that waits for a lock is stuck: it hasn't ended, no step of it is enabled, and the one that is named as the holder holds
/// the lock. It does nothing at run time: its clause is the law.
pub fn what_waits_is_stuck()
    ensures { spec.WhatWaitsIsStuck }
{}

/// The local steps of activations, one activation after the other, are a run without events. It does nothing at run time: its clause is the
/// law.
pub fn local_steps_are_runs()
    ensures { spec.LocalStepsAreRuns }
{
    local_steps_are_quiet();
}
