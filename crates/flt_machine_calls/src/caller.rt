//! The activation that makes a step.

use flt_machine_frames::Standing;
use flt_rules::Place;

/// The activation that makes a step: its number and its filter's, from 0, the place for which its callback is registered, and how far it
/// has come: up to the step.
#[derive(Clone, Copy)]
pub struct Caller {
    pub activation: usize,
    pub filter: usize,
    pub place: Place,
    pub standing: Standing,
}
