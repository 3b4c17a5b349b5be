//! W06: a test that no run passes.

ghost use Rattle.std.specs.Prelude.{◌≡◌};
ghost use Rattle.std.specs.List.{list_any};
ghost use Rattle.flt_explain_warnings.specs.Never as spec;

use crate::reading::{is_reached, points};
use crate::warning::{Site, Warning};
use flt_cert::FullCert;
use flt_graph::{Action, Graph, Instruction, NumberVariable, Point, Test};
use flt_tree::Atom;

fn is_same(a: NumberVariable, b: NumberVariable) -> bool
    ensures { result ≡ spec.is_same a b }
{
    a.place() == b.place()
}

/// The variable of numbers that an instruction writes.
fn written(instruction: &Instruction) -> Option<NumberVariable>
    ensures { result ≡ spec.written instruction.now }
{
    match instruction {
        Instruction::Act(Action::SetNumber(number, _), _) => Some(*number),
        Instruction::Act(Action::ReadValue(number, _), _) => Some(*number),
        Instruction::Act(Action::ReadFile(number, _), _) => Some(*number),
        _ => None,
    }
}

fn writes(instruction: &Instruction, number: NumberVariable) -> bool
    ensures { result ≡ spec.writes number instruction.now }
{
    match written(instruction) {
        Some(own) => is_same(own, number),
        None => false,
    }
}

/// Whether some of these points writes a variable of numbers.
fn is_written(points: &[Point], number: NumberVariable) -> bool
    ensures { result ≡ spec.is_written points.now number }
{
    points
        .iter()
        .any(|point| writes(&point.instruction, number))
}

/// The number that an atom always has; `None` if a point writes its variable.
fn fixed(points: &[Point], atom: Atom) -> Option<u64>
    ensures { result ≡ spec.fixed points.now atom }
{
    match atom {
        Atom::Number(number) => Some(number),
        Atom::Variable(variable) => {
            if is_written(points, variable) {
                None
            } else {
                Some(0)
            }
        }
    }
}

/// Whether a variable of numbers that is 0 never equals an atom with this number.
fn never_equals(fixed: Option<u64>) -> bool
    ensures { result ≡ spec.never_equals fixed }
{
    match fixed {
        Some(number) => number != 0,
        None => false,
    }
}

/// Whether a variable of numbers that is 0 is never less than an atom with this number.
fn never_less(fixed: Option<u64>) -> bool
    ensures { result ≡ spec.never_less fixed }
{
    match fixed {
        Some(number) => number == 0,
        None => false,
    }
}

/// Whether a test among these points never holds, since nothing writes its variable.
fn never_passes(points: &[Point], test: Test) -> bool
    ensures { result ≡ spec.never_passes points.now test }
{
    match test {
        Test::Equal(number, atom) => {
            !is_written(points, number) && never_equals(fixed(points, atom))
        }
        Test::Less(number, atom) => !is_written(points, number) && never_less(fixed(points, atom)),
        _ => false,
    }
}

/// Whether an instruction is such a test.
fn is_never(points: &[Point], instruction: &Instruction) -> bool
    ensures { result ≡ spec.is_never points.now instruction.now }
{
    match instruction {
        Instruction::Test(test, _, _) => never_passes(points, *test),
        _ => false,
    }
}

/// The warning that a test never holds.
pub(crate) fn never_holds(graph: &Graph, cert: &FullCert, site: Site) -> Option<Warning>
    ensures { result ≡ spec.never_holds graph.now cert.now site }
{
    let instruction = graph.instruction_ref(site.callback, site.point);
    if is_reached(cert, site) && is_never(points(graph, site.callback), instruction) {
        Some(Warning::NeverHolds(site))
    } else {
        None
    }
}
