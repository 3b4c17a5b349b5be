//! The conditions that the table of statuses puts on an operation.

ghost use Rattle.std.specs.Prelude.{◌≡◌};
ghost use Rattle.flt_model.specs.Statuses as spec;

use flt_rules::{Mode, Possession};

/// Whether an operation is held or given away, as a row requires.
pub(crate) fn is_possessed(held: bool, possession: Possession) -> bool
    ensures { result ≡ spec.is_possessed held possession }
{
    match possession {
        Possession::Held => held,
        Possession::GivenAway => !held,
    }
}

/// Whether the mode is the one that a row requires, if it requires one.
pub(crate) fn is_of_mode(mode: Mode, wanted: Option<Mode>) -> bool
    ensures { result ≡ spec.is_of_mode mode wanted }
{
    match wanted {
        Some(wanted) => mode.is_same(wanted),
        None => true,
    }
}
