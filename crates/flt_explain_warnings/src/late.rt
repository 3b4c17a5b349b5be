//! W07: a call that needs the instance where no operation keeps it any more.

ghost use Rattle.std.specs.Prelude.{◌≡◌};
ghost use Rattle.std.specs.List.{list_any};
ghost use Rattle.flt_abs.specs.Sets.{is_held};
ghost use Rattle.flt_check.specs.Covering.{state_at};
ghost use Rattle.flt_explain_warnings.specs.Late as spec;

use crate::warning::{Site, Warning};
use flt_abs::Statuses;
use flt_cert::FullCert;
use flt_graph::{Call, Graph, Instruction, Place};

/// Whether in a callback at this place only operations keep the instance.
fn is_kept_by_operations(place: Place) -> bool
    ensures { result ≡ spec.is_kept_by_operations place }
{
    matches!(
        place,
        Place::Canceled | Place::DeferredPre | Place::DeferredPost
    )
}

/// Whether a call is given the instance.
fn needs_instance(call: Call) -> bool
    ensures { result ≡ spec.needs_instance call }
{
    matches!(
        call,
        Call::GetContext(_)
            | Call::SetContext(_, _)
            | Call::DeleteContextOf(_)
            | Call::QueueGenericWorkItem
    )
}

/// Whether an instruction makes such a call.
fn asks_instance(instruction: &Instruction) -> bool
    ensures { result ≡ spec.asks_instance instruction.now }
{
    match instruction {
        Instruction::Call(call, _, _) => needs_instance(call.roles().call),
        _ => false,
    }
}

/// Whether an operation of this set is surely held: the digit of a certificate has 2 for that.
#[tactic(auto, using(crate::proofs::Holding::digit_of_held))]
fn is_surely_held(set: Statuses) -> bool
    ensures { result ≡ is_held set }
{
    set.digit() == 2
}

/// Whether some of these sets is that of an operation which is surely held.
fn holds_one(sets: &[Statuses]) -> bool
    ensures { result ≡ list_any is_held sets.now }
{
    sets.iter().any(|set| is_surely_held(*set))
}

/// Whether a point is reached, and no operation is surely held there.
fn holds_none(cert: &FullCert, site: Site) -> bool
    ensures { result ≡ spec.holds_none (state_at cert.now site.callback site.point) }
{
    match cert.state(site.callback, site.point) {
        Some(state) => !holds_one(state.operations()),
        None => false,
    }
}

/// Whether a point is in such a callback and makes such a call.
fn asks_at(graph: &Graph, site: Site) -> bool
    ensures { result ≡ spec.asks_at graph.now site }
{
    is_kept_by_operations(graph.place(site.callback))
        && asks_instance(graph.instruction_ref(site.callback, site.point))
}

/// The warning that a point needs the instance where no operation keeps it.
pub(crate) fn called_late(graph: &Graph, cert: &FullCert, site: Site) -> Option<Warning>
    ensures { result ≡ spec.called_late graph.now cert.now site }
{
    if asks_at(graph, site) && holds_none(cert, site) {
        Some(Warning::CalledLate(site))
    } else {
        None
    }
}
