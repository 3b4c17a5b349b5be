//! The seats once a script was followed.

ghost use Rattle.std.specs.Prelude.{◌≡◌, true, false, Err, IfOk, IsTrue, Ok};

use crate::stopping::Stop;
use flt_stack_threads::{CallerSeat, StackName, TurnFault, WorkerSeat};
use std::alloc::AllocError;

/// The seats once a script was followed, how many entries the workers were answered that they made, whether the journal was found full, and
/// whether a detach was refused, since the teardown had begun before.
#[derive(Drop)]
pub(crate) struct ScriptEnd<N: StackName> {
    pub(crate) caller: CallerSeat<N>,
    pub(crate) workers: Vec<WorkerSeat<N>>,
    pub(crate) made: u64,
    pub(crate) is_full: bool,
    pub(crate) is_refused: bool,
}

/// Whether the caller found a journal full, and whether a detach was refused, since the teardown had begun before.
#[derive(Clone, Copy)]
pub(crate) struct ScriptCut {
    pub(crate) is_full: bool,
    pub(crate) is_refused: bool,
}

/// Why the caller stopped.
pub(crate) fn cut_by(outcome: Result<(), Stop>) -> Result<ScriptCut, AllocError>
    ensures full { IfOk result (λ cut. cut.is_full ≡ true → outcome ≡ Err Stop.Full) }
    ensures refused { IfOk result (λ cut. cut.is_refused ≡ true → outcome ≡ Err Stop.Already) }
    ensures whole { IfOk result (λ cut. cut.is_full ≡ false → cut.is_refused ≡ false → outcome ≡ Ok tt) }
{
    let (is_full, is_refused) = match outcome {
        Ok(()) => (false, false),
        Err(Stop::Full) => (true, false),
        Err(Stop::Already) => (false, true),
        Err(Stop::OutOfMemory) => return Err(AllocError),
    };
    Ok(ScriptCut {
        is_full,
        is_refused,
    })
}

/// Whether a journal was found full.
pub(crate) fn is_full_by(outcome: Result<(), TurnFault>) -> Result<bool, AllocError>
    ensures full { IfOk result (λ is_full. IsTrue is_full → outcome ≡ Err TurnFault.Full) }
    ensures whole { IfOk result (λ is_full. is_full ≡ false → outcome ≡ Ok tt) }
{
    match outcome {
        Ok(()) => Ok(false),
        Err(TurnFault::Full) => Ok(true),
        Err(TurnFault::OutOfMemory) => Err(AllocError),
    }
}
