//! The upcoming statement of an activation, and whether others see its step.

ghost use Rattle.std.specs.Prelude.{◌≡◌, Bool, List, is_some, OnOk, IfOk, MatchOption, [], ◌∷◌};
ghost use Rattle.flt_model.specs.LocalSteps.{after_action, after_statement, holds_test, local_step};
ghost use Rattle.flt_model.specs.World.{Activation, activation_at};
ghost use Rattle.flt_replay_records.specs.Rest.{statement_of};
ghost use Rattle.flt_tree.specs.declared.filter.Statement.{Statement as Written, out-Statement};
ghost use Rattle.flt_replay_world.specs.Happening.{later};

use flt_replay_records::Upcoming;
use flt_replay_world::World;
use flt_tree::{Action, Condition, Statement, Test};
use std::alloc::AllocError;

/// The upcoming statement of an activation; none at the end of its body. The world stays the same.
///
/// # Errors
///
/// If memory is refused.
pub fn upcoming<'a>(world: &mut World<'a>, a: usize) -> Result<Option<Upcoming<'a>>, AllocError>
    ensures same { OnOk result (world.new ≡ world.old) }
    ensures first { IfOk result (λ f. MatchOption f ((activation_at world.old a).rest ≡ [])
        (λ u. (activation_at world.old a).rest ≡ statement_of u ∷ later world.old a)) }
{
    match world.activations.get_mut(a) {
        Some(activation) => activation.first(),
        None => Ok(None),
    }
}

/// Whether nobody else sees the action.
fn is_local_action(action: Action) -> bool
    ensures { (act : Activation) → is_some (after_action act action) ≡ result }
{
    matches!(
        action,
        Action::SetNumber(_, _) | Action::ClearContext(_) | Action::ClearOperation(_)
    )
}

/// Whether nobody else sees the outcome of a test.
fn is_local_test(test: Test) -> bool
    ensures { (draining : Bool) (act : Activation) → is_some (holds_test draining act test) ≡ result }
{
    !matches!(test, Test::IsIrp)
}

/// Whether nobody else sees the step of a statement.
fn is_local_statement(statement: &Statement) -> bool
    ensures { (draining : Bool) (act : Activation) (rest : List Written) →
        is_some (after_statement draining act rest (out-Statement statement.now)) ≡ result }
{
    match statement {
        Statement::Act(_, action) => is_local_action(*action),
        Statement::If(_, Condition::Test(test), _, _) => is_local_test(*test),
        Statement::Repeat(_, _, _) => true,
        _ => false,
    }
}

/// Whether nobody else sees the step of an upcoming statement; the end of a body is seen.
pub fn is_local(next: Option<Upcoming<'_>>) -> bool
    ensures { (draining : Bool) (act : Activation) (statements rest : List Written) →
        MatchOption next.entry (statements ≡ []) (λ u. statements ≡ statement_of u ∷ rest) →
        is_some (local_step draining act statements) ≡ result }
{
    match next {
        Some(Upcoming::Statement(statement)) => is_local_statement(statement),
        Some(Upcoming::Repeat(_, _, _)) => true,
        None => false,
    }
}
