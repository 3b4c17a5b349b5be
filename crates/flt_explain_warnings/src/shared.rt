//! Contexts that others may have, and what callbacks do with them.

ghost use Rattle.std.specs.Prelude.{◌≡◌, ◌++◌, option_to_list, OnOk, IfOk};
ghost use Rattle.std.specs.List.{list_any};
ghost use Rattle.flt_explain_warnings.specs.Shared as spec;

use crate::flow::{blank, is_marked, mark, settle};
use crate::trail::{Trail, hands_on, is_named, status_uses, successor};
use crate::warning::Site;
use flt_graph::{Action, Call, ContextVariable, Graph, Instruction, Invocation};
use flt_rules::{Anchor, Existing};
use sqlite_items::Items;
use std::alloc::{AllocError, Global};

/// All variables of contexts.
const VARIABLES: [ContextVariable; 9] = [
    ContextVariable::C0,
    ContextVariable::C1,
    ContextVariable::C2,
    ContextVariable::C3,
    ContextVariable::C4,
    ContextVariable::C5,
    ContextVariable::C6,
    ContextVariable::C7,
    ContextVariable::Arg,
];

/// A use of a context by a callback: it reads the value, writes it, or hands the context over.
#[derive(Clone, Copy)]
pub(crate) enum Usage {
    Read,
    Write,
    HandOver,
}

/// A point that uses a context that others may have, and the anchor on which the context is set.
#[derive(Clone, Copy)]
pub(crate) struct SharedUse {
    pub(crate) site: Site,
    pub(crate) anchor: Anchor,
    pub(crate) usage: Usage,
}

/// The anchors of the contexts that callbacks hand over, so that others may be given one.
#[derive(Clone, Copy)]
struct HandedOver {
    stream: bool,
    instance: bool,
}

/// A variable whose contexts are followed, those of one anchor, and whether a callback may be given such a context.
#[derive(Clone, Copy)]
struct Sharing {
    anchor: Anchor,
    variable: ContextVariable,
    is_given: bool,
}

// ---- where others may have it

pub(crate) fn same_anchor(one: Anchor, other: Anchor) -> bool
    ensures { result ≡ spec.same_anchor one other }
{
    match one {
        Anchor::Stream => matches!(other, Anchor::Stream),
        Anchor::Instance => matches!(other, Anchor::Instance),
    }
}

/// Whether a call returns a context that others may have, by an outcome.
fn gives(sharing: Sharing, call: Call, outcome: bool) -> bool
    ensures { result ≡ spec.gives sharing call outcome }
{
    match call {
        Call::GetContext(anchor)
        | Call::DeleteContextOf(anchor)
        | Call::SetContext(anchor, Existing::Replace) => {
            outcome && same_anchor(anchor, sharing.anchor)
        }
        Call::SetContext(anchor, Existing::Keep) => {
            !outcome && same_anchor(anchor, sharing.anchor)
        }
        Call::RemoveNextIo => outcome && sharing.is_given,
        _ => false,
    }
}

/// Whether a call sets its context where others find it, by an outcome.
fn sets(sharing: Sharing, call: Call, outcome: bool) -> bool
    ensures { result ≡ spec.sets sharing call outcome }
{
    match call {
        Call::SetContext(anchor, _) => outcome && same_anchor(anchor, sharing.anchor),
        _ => false,
    }
}

/// Whether others may have the variable's context from a call on, by an outcome.
fn shares_by(sharing: Sharing, call: &Invocation, outcome: bool) -> bool
    ensures { result ≡ spec.shares_by sharing call.now outcome }
{
    (gives(sharing, call.call, outcome) && is_named(call.output, sharing.variable))
        || (sets(sharing, call.call, outcome) && is_named(call.context, sharing.variable))
}

fn shares(sharing: Sharing, instruction: &Instruction, outcome: bool) -> bool
    ensures { result ≡ spec.shares sharing instruction.now outcome }
{
    match instruction {
        Instruction::Call(call, _, _) => shares_by(sharing, &call.roles(), outcome),
        _ => false,
    }
}

/// The point from which on others may have the variable's context, by an outcome of an instruction.
fn shared_behind(sharing: Sharing, instruction: &Instruction, outcome: bool) -> Option<usize>
    ensures { result ≡ spec.shared_behind sharing instruction.now outcome }
{
    if shares(sharing, instruction, outcome) {
        successor(instruction, outcome)
    } else {
        None
    }
}

/// Marks the points after a point at which others may have the variable's context because of it.
fn begin(graph: &Graph, callback: usize, sharing: Sharing, marks: &mut Items<bool>, point: usize)
    ensures { marks.new ≡ spec.begun graph.now callback sharing point marks.old }
{
    let instruction = graph.instruction_ref(callback, point);
    mark(marks, shared_behind(sharing, instruction, true));
    mark(marks, shared_behind(sharing, instruction, false));
}

/// Marks the same after all points of a callback.
#[tactic(auto, using(crate::proofs::Sharing::one_begun, crate::proofs::Sharing::none_begun))]
fn begin_all(graph: &Graph, callback: usize, sharing: Sharing, marks: &mut Items<bool>)
    ensures { marks.new ≡ spec.all_begun graph.now callback sharing marks.old }
{
    for point in 0..graph.points(callback) {
        begin(graph, callback, sharing, marks, point);
    }
}

fn is_arg(variable: ContextVariable) -> bool
    ensures { result ≡ spec.is_arg variable }
{
    matches!(variable, ContextVariable::Arg)
}

/// The first point, if the variable has such a context at entry.
fn entered(sharing: Sharing) -> Option<usize>
    ensures { result ≡ spec.entered sharing }
{
    if sharing.is_given && is_arg(sharing.variable) {
        Some(0)
    } else {
        None
    }
}

/// The points of a callback at which others may have the variable's context.
fn shared(
    alloc: Global,
    graph: &Graph,
    callback: usize,
    sharing: Sharing,
) -> Result<Items<bool>, AllocError>
    ensures { IfOk result (λ m. m ≡ spec.shared graph.now callback sharing) }
{
    let mut marks = blank(alloc, graph.points(callback))?;
    mark(&mut marks, entered(sharing));
    begin_all(graph, callback, sharing, &mut marks);
    settle(graph, callback, Trail::Shared(sharing.variable), &mut marks);
    Ok(marks)
}

// ---- what is done with it

fn usage_by(action: Action, variable: ContextVariable) -> Option<Usage>
    ensures { result ≡ spec.usage_by action variable }
{
    match action {
        Action::ReadValue(_, context) if is_named(Some(context), variable) => Some(Usage::Read),
        Action::WriteValue(context, _) if is_named(Some(context), variable) => Some(Usage::Write),
        _ => None,
    }
}

/// The usage of a context that is handed over; `None` if it isn't.
fn handing(is_handed: bool) -> Option<Usage>
    ensures { result ≡ spec.handing is_handed }
{
    if is_handed {
        Some(Usage::HandOver)
    } else {
        None
    }
}

/// The use that an instruction makes of the variable's context.
fn usage_in(instruction: &Instruction, variable: ContextVariable) -> Option<Usage>
    ensures { result ≡ spec.usage_in instruction.now variable }
{
    match instruction {
        Instruction::Act(action, _) => usage_by(*action, variable),
        Instruction::Call(call, _, _) => {
            let call = call.roles();
            handing(hands_on(call.call) && is_named(call.context, variable))
        }
        Instruction::Return(status) => handing(status_uses(*status, variable)),
        _ => None,
    }
}

/// The use that a point makes of the variable's context, if others may have it there.
fn use_at(graph: &Graph, sharing: Sharing, marks: &[bool], site: Site) -> Option<SharedUse>
    ensures { result ≡ spec.use_at graph.now sharing marks.now site }
{
    if !is_marked(marks, site.point) {
        return None;
    }
    let instruction = graph.instruction_ref(site.callback, site.point);
    let usage = usage_in(instruction, sharing.variable)?;
    Some(SharedUse {
        site,
        anchor: sharing.anchor,
        usage,
    })
}

/// Adds the use that a point makes of the variable's context.
fn add_use(
    uses: &mut Items<SharedUse>,
    graph: &Graph,
    sharing: Sharing,
    marks: &[bool],
    site: Site,
) -> Result<(), AllocError>
    ensures { OnOk result (uses.new ≡ uses.old ++ option_to_list (spec.use_at graph.now sharing marks.now site)) }
{
    if let Some(found) = use_at(graph, sharing, marks, site) {
        uses.push(found)?;
    }
    Ok(())
}

/// Adds the uses that a callback makes of the variable's contexts, if others may have them at the marked points.
#[tactic(auto, using(crate::proofs::Sharing::one_used, crate::proofs::Sharing::none_used))]
fn add_marked(
    uses: &mut Items<SharedUse>,
    graph: &Graph,
    callback: usize,
    sharing: Sharing,
    marks: &[bool],
) -> Result<(), AllocError>
    ensures { OnOk result (uses.new ≡ uses.old ++ spec.used_in graph.now callback sharing marks.now) }
{
    for point in 0..graph.points(callback) {
        add_use(uses, graph, sharing, marks, Site { callback, point })?;
    }
    Ok(())
}

/// Adds the uses that a callback makes of the contexts of a variable.
fn add_uses(
    alloc: Global,
    uses: &mut Items<SharedUse>,
    graph: &Graph,
    callback: usize,
    sharing: Sharing,
) -> Result<(), AllocError>
    ensures { OnOk result (uses.new ≡ uses.old ++ spec.uses_of graph.now callback sharing) }
{
    let marks = shared(alloc, graph, callback, sharing)?;
    add_marked(uses, graph, callback, sharing, marks.as_slice())?;
    Ok(())
}

/// Adds the uses that a callback makes of the contexts of some variables, of either anchor.
fn add_among(
    alloc: Global,
    uses: &mut Items<SharedUse>,
    graph: &Graph,
    callback: usize,
    handed: HandedOver,
    variables: &[ContextVariable],
) -> Result<(), AllocError>
    ensures { OnOk result (uses.new ≡ uses.old ++ spec.uses_among graph.now callback handed variables.now) }
{
    if let [variable, others @ ..] = variables {
        let stream = Sharing {
            anchor: Anchor::Stream,
            variable: *variable,
            is_given: handed.stream,
        };
        let instance = Sharing {
            anchor: Anchor::Instance,
            variable: *variable,
            is_given: handed.instance,
        };
        add_uses(alloc, uses, graph, callback, stream)?;
        add_uses(alloc, uses, graph, callback, instance)?;
        add_among(alloc, uses, graph, callback, handed, others)?;
    }
    Ok(())
}

/// The uses of all callbacks of contexts that others may have, if callbacks are given those of some anchors.
#[tactic(auto, using(crate::proofs::Sharing::one_more, crate::proofs::Sharing::no_more))]
fn uses_with(
    alloc: Global,
    graph: &Graph,
    handed: HandedOver,
) -> Result<Items<SharedUse>, AllocError>
    ensures { IfOk result (λ uses. uses ≡ spec.uses_with graph.now handed) }
{
    let mut uses = Items::new(alloc);
    for callback in 0..graph.callbacks() {
        add_among(alloc, &mut uses, graph, callback, handed, &VARIABLES)?;
    }
    Ok(uses)
}

/// Whether a use hands over a context of an anchor.
fn hands_over(shared: SharedUse, anchor: Anchor) -> bool
    ensures { result ≡ spec.hands_over anchor shared }
{
    matches!(shared.usage, Usage::HandOver) && same_anchor(shared.anchor, anchor)
}

fn some_hands_over(uses: &[SharedUse], anchor: Anchor) -> bool
    ensures { result ≡ list_any (spec.hands_over anchor) uses.now }
{
    uses.iter().any(|shared| hands_over(*shared, anchor))
}

fn handed_over(uses: &[SharedUse]) -> HandedOver
    ensures { result ≡ spec.handed_over uses.now }
{
    HandedOver {
        stream: some_hands_over(uses, Anchor::Stream),
        instance: some_hands_over(uses, Anchor::Instance),
    }
}

/// The uses of all callbacks of contexts that others may have.
pub(crate) fn shared_uses(alloc: Global, graph: &Graph) -> Result<Items<SharedUse>, AllocError>
    ensures { IfOk result (λ uses. uses ≡ spec.shared_uses graph.now) }
{
    let none = HandedOver {
        stream: false,
        instance: false,
    };
    let own = uses_with(alloc, graph, none)?;
    uses_with(alloc, graph, handed_over(own.as_slice()))
}
