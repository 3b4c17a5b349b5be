//! All faults at a point in a state.

ghost use Rattle.std.specs.Prelude.{◌≡◌, ◌++◌, IfOk, OnOk, map};
ghost use Rattle.flt_abs.specs.Breaks.{first_broken};
ghost use Rattle.flt_abs.specs.Setting.{setting_of};
ghost use Rattle.flt_graph.specs.Graph.{instruction_at};
ghost use Rattle.flt_explain.specs.Faults as spec;

use crate::about::is_about;
use crate::finding::{Fault, Subject};
use crate::operands::OPERANDS;
use flt_abs::{Abs, breaks_rule};
use flt_graph::{Graph, Instruction, Place};
use flt_rules::Rule;
use sqlite_items::Items;
use std::alloc::{AllocError, Global};

/// The rules that a point's own instruction can break, in their order.
const RULES: [Rule; 13] = [
    Rule::R01,
    Rule::R02,
    Rule::R03,
    Rule::R04,
    Rule::R05,
    Rule::R06,
    Rule::R07,
    Rule::R08,
    Rule::R09,
    Rule::R10,
    Rule::R11,
    Rule::R13,
    Rule::R15,
];

/// The subject of a broken rule if no operand is at fault.
fn itself(rule: Rule) -> Subject
    ensures { result ≡ spec.itself rule }
{
    match rule {
        Rule::R06 | Rule::R15 => Subject::Status,
        _ => Subject::Call,
    }
}

/// Adds those of these operands that are at fault for a broken rule.
fn blame(
    blamed: &mut Items<Subject>,
    place: Place,
    state: &Abs,
    instruction: &Instruction,
    rule: Rule,
    operands: &[Subject],
) -> Result<(), AllocError>
    ensures { OnOk result (blamed.new ≡ blamed.old ++ spec.blamed place state.now instruction.now rule operands.now) }
{
    if let [operand, others @ ..] = operands {
        if is_about(place, state, instruction, rule, *operand) {
            blamed.push(*operand)?;
        }
        blame(blamed, place, state, instruction, rule, others)?;
    }
    Ok(())
}

/// Adds a fault by a rule for each subject.
fn add(faults: &mut Items<Fault>, rule: Rule, subjects: &[Subject]) -> Result<(), AllocError>
    ensures { OnOk result (faults.new ≡ faults.old ++ map (spec.fault rule) subjects.now) }
{
    if let [subject, others @ ..] = subjects {
        faults.push(Fault {
            rule,
            subject: *subject,
        })?;
        add(faults, rule, others)?;
    }
    Ok(())
}

/// The subjects of a broken rule: those of these operands that are at fault, or else the call or the status itself.
fn subjects(
    alloc: Global,
    place: Place,
    state: &Abs,
    instruction: &Instruction,
    rule: Rule,
    operands: &[Subject],
) -> Result<Items<Subject>, AllocError>
    ensures { IfOk result (λ us. us ≡ spec.or_itself rule (spec.blamed place state.now instruction.now rule operands.now)) }
{
    let mut blamed = Items::new(alloc);
    blame(&mut blamed, place, state, instruction, rule, operands)?;
    if blamed.is_empty() {
        blamed.push(itself(rule))?;
    }
    Ok(blamed)
}

/// Adds the faults by one rule.
fn add_rule(
    alloc: Global,
    faults: &mut Items<Fault>,
    graph: &Graph,
    callback: usize,
    point: usize,
    state: &Abs,
    operands: &[Subject],
    rule: Rule,
) -> Result<(), AllocError>
    ensures { OnOk result (faults.new ≡ faults.old ++ spec.faults_of graph.now callback point state.now operands.now rule) }
{
    if breaks_rule(graph, callback, point, state, rule) {
        let instruction = graph.instruction(callback, point);
        let place = graph.place(callback);
        let subjects = subjects(alloc, place, state, &instruction, rule, operands)?;
        add(faults, rule, subjects.as_slice())?;
    }
    Ok(())
}

/// Adds the faults by some rules.
fn add_all(
    alloc: Global,
    faults: &mut Items<Fault>,
    graph: &Graph,
    callback: usize,
    point: usize,
    state: &Abs,
    operands: &[Subject],
    rules: &[Rule],
) -> Result<(), AllocError>
    ensures { OnOk result (faults.new ≡ faults.old ++ spec.faults_of_all graph.now callback point state.now operands.now rules.now) }
{
    if let [rule, others @ ..] = rules {
        add_rule(
            alloc, faults, graph, callback, point, state, operands, *rule,
        )?;
        add_all(
            alloc, faults, graph, callback, point, state, operands, others,
        )?;
    }
    Ok(())
}

/// All faults at the point of a callback in a state: the rules that it breaks, in their order, each with every operand that is at fault.
/// The first one's rule is the one that `flt_abs::transfer` returns, and there is none if that returns successors.
pub fn faults(
    alloc: Global,
    graph: &Graph,
    callback: usize,
    point: usize,
    state: &Abs,
) -> Result<Items<Fault>, AllocError>
    ensures value { IfOk result (λ fs. fs ≡ spec.faults_at graph.now callback point state.now) }
    ensures least { IfOk result (λ fs. spec.first_rule fs ≡ first_broken (setting_of graph.now callback state.now) state.now
        (instruction_at graph.now callback point)) }
{
    let mut faults = Items::new(alloc);
    add_all(
        alloc,
        &mut faults,
        graph,
        callback,
        point,
        state,
        &OPERANDS,
        &RULES,
    )?;
    Ok(faults)
}
