//! Whether two descriptions are the same.

ghost use Rattle.std.specs.Prelude.{◌≡◌, IsTrue};

use crate::telling::{Column, Happening, StartedCallback, Telling};
use flt_model::Key;
use flt_rules::{Mode, Operation};

#[tactic(auto, using(flt_rules::proofs::Operations::same_is))]
fn is_kind(one: Operation, other: Operation) -> bool
    ensures { IsTrue result → one ≡ other }
{
    one.is_same(other)
}

fn is_mode(one: Mode, other: Mode) -> bool
    ensures { IsTrue result → one ≡ other }
{
    match (one, other) {
        (Mode::Irp, Mode::Irp) | (Mode::Fast, Mode::Fast) => true,
        _ => false,
    }
}

fn is_key(one: Key, other: Key) -> bool
    ensures { IsTrue result → one ≡ other }
{
    match (one, other) {
        (Key::Stream(own), Key::Stream(file)) => own == file,
        (Key::Instance, Key::Instance) => true,
        _ => false,
    }
}

fn is_column(one: Column, other: Column) -> bool
    ensures { IsTrue result → one ≡ other }
{
    match (one, other) {
        (Column::Margin, Column::Margin) | (Column::Beyond, Column::Beyond) => true,
        (Column::Own(own), Column::Own(number)) => own == number,
        _ => false,
    }
}

fn is_started(one: StartedCallback, other: StartedCallback) -> bool
    ensures { IsTrue result → one ≡ other }
{
    one.filter == other.filter && one.callback == other.callback && one.draining == other.draining
}

fn is_resumed(one: Option<StartedCallback>, other: Option<StartedCallback>) -> bool
    ensures { IsTrue result → one ≡ other }
{
    match (one, other) {
        (Some(own), Some(started)) => is_started(own, started),
        (None, None) => true,
        _ => false,
    }
}

fn is_outcome(one: Option<bool>, other: Option<bool>) -> bool
    ensures { IsTrue result → one ≡ other }
{
    match (one, other) {
        (Some(own), Some(outcome)) => own == outcome,
        (None, None) => true,
        _ => false,
    }
}

fn is_arrival(one: (Operation, Mode, u32), other: (Operation, Mode, u32)) -> bool
    ensures { IsTrue result → one ≡ other }
{
    is_kind(one.0, other.0) && is_mode(one.1, other.1) && one.2 == other.2
}

/// An entry that isn't enabled ends its run, so it is like no other.
fn is_happening(one: Happening, other: Happening) -> bool
    ensures { IsTrue result → one ≡ other }
{
    match (one, other) {
        (Happening::Arrives(kind, mode, file), Happening::Arrives(other, way, number)) => {
            is_arrival((kind, mode, file), (other, way, number))
        }
        (Happening::Skips, Happening::Skips)
        | (Happening::Lowers, Happening::Lowers)
        | (Happening::Cancels, Happening::Cancels)
        | (Happening::IsLeftOut, Happening::IsLeftOut) => true,
        (Happening::Detaches(own), Happening::Detaches(altitude)) => own == altitude,
        (Happening::IsDetached(own), Happening::IsDetached(altitude)) => own == altitude,
        (Happening::Unlinks(own, key), Happening::Unlinks(altitude, other)) => {
            own == altitude && is_key(key, other)
        }
        (Happening::Starts(own), Happening::Starts(started)) => is_started(own, started),
        (Happening::Runs(filter, own, outcome), Happening::Runs(runs, line, other)) => {
            filter == runs && own == line && is_outcome(outcome, other)
        }
        _ => false,
    }
}

/// Whether two descriptions are the same; never if their entries aren't enabled.
pub(crate) fn is_same(one: Telling, other: Telling) -> bool
    ensures { IsTrue result → one ≡ other }
{
    one.alive == other.alive
        && is_column(one.column, other.column)
        && is_happening(one.happening, other.happening)
        && is_resumed(one.resumed, other.resumed)
}
