//! Goes over the points of a text with its thin certificate.

ghost use Rattle.std.specs.Prelude.{◌≡◌, ◌≢◌, ◌<◌, ◌≤◌, ◌+◌, ◌↔◌, ℕ, length, get_or, is_some, false, None, Some, IfSome, IfNone};
ghost use Rattle.std.specs.Option.{option_copied};
ghost use Rattle.flt_abs.specs.Leads.{lent};
ghost use Rattle.flt_abs.specs.Step.{transfer};
ghost use Rattle.flt_check.specs.Checker as check;
ghost use Rattle.flt_graph.specs.Graph.{place_at};
ghost use Rattle.flt_check.specs.Full.{full_points};
ghost use Rattle.flt_graph.specs.Kept.{is_kept as kept_at};
ghost use Rattle.flt_check.specs.Ready as spec;

use crate::checker::{entry_by, lead_fault, lesser};
use flt_abs::{Abs, Leads, joins_are_least, transfer_into};
use flt_cert::{Slot, kept_points};
use flt_graph::Graph;
use flt_rules::{MAX_POINTS, Rule};
use std::array;

/// How many points a short callback has at most. Places for their states are set to none in few instructions.
const SHORT: usize = 36;

/// How many points a callback has at most that is neither short nor long.
const MEDIUM: usize = 128;

/// The rule that a point breaks by leading to another with a state, if it breaks one. A later point that isn't given waits with this state
/// from now on.
fn follow_to(
    slots: &[Slot],
    states: &mut [Option<Abs>],
    from: usize,
    to: usize,
    state: &Abs,
) -> Option<Rule>
    requires { length slots.now ≤ length states.old }
    ensures fault { result ≡ spec.side_fault slots.now from (Some (record { point = to; state = state.now })) }
    ensures states { states.new ≡ spec.put slots.now from (Some (record { point = to; state = state.now })) states.old }
{
    if slots.len() <= to {
        return Some(Rule::R14);
    }
    if let Some(given) = &slots[to] {
        return lead_fault(state, given.as_ref());
    }
    if to <= from {
        return Some(Rule::R14);
    }
    states[to] = Some(state.copied());
    None
}

/// The same for a successor that a point may have.
#[inline(always)]
fn follow(
    slots: &[Slot],
    states: &mut [Option<Abs>],
    from: usize,
    lead: Option<(usize, &Abs)>,
) -> Option<Rule>
    requires { length slots.now ≤ length states.old }
    ensures fault { result ≡ spec.side_fault slots.now from (lent lead.entry) }
    ensures states { states.new ≡ spec.put slots.now from (lent lead.entry) states.old }
{
    match lead {
        Some((to, state)) => follow_to(slots, states, from, to, state),
        None => None,
    }
}

/// The least rule that a point breaks with its state, or that is broken where it leads.
fn state_fault(
    graph: &Graph,
    slots: &[Slot],
    states: &mut [Option<Abs>],
    callback: usize,
    point: usize,
    state: &Abs,
    leads: &mut Leads,
) -> Option<Rule>
    requires { length slots.now ≤ length states.old }
    ensures fault { result ≡ spec.slots_result slots.now point (transfer graph.now callback point state.now) }
    ensures states { states.new ≡ spec.put_result slots.now point (transfer graph.now callback point state.now) states.old }
{
    if let Some(rule) = transfer_into(graph, callback, point, state, leads) {
        return Some(rule);
    }
    let first = follow(slots, states, point, leads.first());
    let second = follow(slots, states, point, leads.second());
    lesser(first, second)
}

/// The same, with the `Leads` that were kept from the points before, if there are any yet.
fn reached_fault(
    graph: &Graph,
    slots: &[Slot],
    states: &mut [Option<Abs>],
    callback: usize,
    point: usize,
    state: &Abs,
    kept: &mut Option<Leads>,
) -> Option<Rule>
    requires { length slots.now ≤ length states.old }
    ensures fault { result ≡ spec.slots_result slots.now point (transfer graph.now callback point state.now) }
    ensures states { states.new ≡ spec.put_result slots.now point (transfer graph.now callback point state.now) states.old }
{
    match kept {
        Some(leads) => state_fault(graph, slots, states, callback, point, state, leads),
        None => {
            let mut leads = Leads::none(state);
            let fault = state_fault(graph, slots, states, callback, point, state, &mut leads);
            *kept = Some(leads);
            fault
        }
    }
}

/// The same of a point that waits.
fn waiting_fault(
    graph: &Graph,
    slots: &[Slot],
    states: &mut [Option<Abs>],
    callback: usize,
    point: usize,
    kept: &mut Option<Leads>,
) -> Option<Rule>
    requires wide { length slots.now ≤ length states.old }
    requires within { point < length states.old }
    ensures fault { result ≡ spec.slots_fault graph.now callback slots.now point (get_or states.old point None) }
    ensures states { states.new ≡ spec.put_from graph.now callback slots.now point (get_or states.old point None) states.old }
{
    let state = match &states[point] {
        Some(state) => state.copied(),
        None => return None,
    };
    reached_fault(graph, slots, states, callback, point, &state, kept)
}

/// The same of a point that may be given, and might be unreached.
fn own_fault(
    graph: &Graph,
    slots: &[Slot],
    states: &mut [Option<Abs>],
    callback: usize,
    point: usize,
    kept: &mut Option<Leads>,
) -> Option<Rule>
    requires wide { length slots.now ≤ length states.old }
    requires within { point < length slots.now }
    ensures fault { result ≡ spec.slots_fault graph.now callback slots.now point
        (spec.own_state (get_or slots.now point None) (get_or states.old point None)) }
    ensures states { states.new ≡ spec.put_from graph.now callback slots.now point
        (spec.own_state (get_or slots.now point None) (get_or states.old point None)) states.old }
{
    match &slots[point] {
        Some(Some(state)) => reached_fault(graph, slots, states, callback, point, state, kept),
        Some(None) => None,
        None => waiting_fault(graph, slots, states, callback, point, kept),
    }
}

/// The same by the points that follow from the slots; if nothing is wrong, all is ready for the next point.
fn ready_fault(
    graph: &Graph,
    slots: &[Slot],
    states: &mut [Option<Abs>],
    callback: usize,
    point: usize,
    kept: &mut Option<Leads>,
) -> Option<Rule>
    requires given { spec.AreGiven graph.now callback slots.now }
    requires few { length slots.now ≤ 512 }
    requires within { point < length slots.now }
    requires ready { spec.IsReady graph.now callback slots.now point states.old }
    ensures fault { result ≡ spec.column_own graph.now callback (full_points graph.now callback slots.now) point
        (get_or (full_points graph.now callback slots.now) point None) }
    ensures ready { IfNone result (spec.IsReady graph.now callback slots.now (point + 1) states.new) }
{
    joins_are_least();
    own_fault(graph, slots, states, callback, point, kept)
}

/// The rule that the entry of a callback breaks, if it breaks one. Its first point is given.
fn entry_fault(graph: &Graph, slots: &[Slot], callback: usize) -> Option<Rule>
    requires given { spec.AreGiven graph.now callback slots.now }
    requires some { 0 < length slots.now }
    ensures { result ≡ check.entry_by (place_at graph.now callback) (get_or (full_points graph.now callback slots.now) 0 None) }
{
    match &slots[0] {
        Some(given) => entry_by(graph.place(callback), given.as_ref()),
        None => Some(Rule::R14),
    }
}

/// The least rule that is broken at a point.
fn point_fault(
    graph: &Graph,
    slots: &[Slot],
    states: &mut [Option<Abs>],
    callback: usize,
    point: usize,
    kept: &mut Option<Leads>,
) -> Option<Rule>
    requires given { spec.AreGiven graph.now callback slots.now }
    requires few { length slots.now ≤ 512 }
    requires within { point < length slots.now }
    requires ready { spec.IsReady graph.now callback slots.now point states.old }
    ensures fault { result ≡ spec.column_point graph.now callback (full_points graph.now callback slots.now) point }
    ensures ready { IfNone result (spec.IsReady graph.now callback slots.now (point + 1) states.new) }
{
    let own = ready_fault(graph, slots, states, callback, point, kept);
    if point != 0 {
        return own;
    }
    lesser(own, entry_fault(graph, slots, callback))
}

/// No state waits.
fn nothing_waits<const N: usize>() -> [Option<Abs>; N]
    ensures count { length result ≡ N }
    ensures none { (k : ℕ) → k < N → get_or result k None ≡ None }
{
    array::from_fn(|_| None)
}

/// The first point of a callback at which a rule is broken, and the least such rule, over states of which none waits yet.
fn first_broken(
    graph: &Graph,
    slots: &[Slot],
    states: &mut [Option<Abs>],
    callback: usize,
    kept: &mut Option<Leads>,
) -> Option<(usize, Rule)>
    requires given { spec.AreGiven graph.now callback slots.now }
    requires few { length slots.now ≤ 512 }
    requires ready { spec.IsReady graph.now callback slots.now 0 states.old }
    ensures none { IfNone result (spec.FaultlessBefore graph.now callback slots.now (length slots.now)) }
    ensures some { IfSome result (λ q. spec.IsFirstBroken graph.now callback slots.now q.0 q.1) }
{
    for point in 0..slots.len() {
        if let Some(rule) = point_fault(graph, slots, states, callback, point, kept) {
            return Some((point, rule));
        }
    }
    None
}

/// The first point of a callback at which a rule is broken, and the least such rule, with places for as many states that wait.
#[inline(never)]
fn fault_among<const N: usize>(
    graph: &Graph,
    slots: &[Slot],
    callback: usize,
) -> Option<(usize, Rule)>
    requires given { spec.AreGiven graph.now callback slots.now }
    requires room { length slots.now ≤ N }
    requires few { N ≤ 512 }
    ensures none { IfNone result (spec.FaultlessBefore graph.now callback slots.now (length slots.now)) }
    ensures some { IfSome result (λ q. spec.IsFirstBroken graph.now callback slots.now q.0 q.1) }
{
    let mut states = nothing_waits::<N>();
    first_broken(graph, slots, &mut states, callback, &mut None)
}

/// The first point of a callback at which a rule is broken, and the least such rule. All places are set to none, and most callbacks have
/// few points.
pub(crate) fn callback_fault(
    graph: &Graph,
    slots: &[Slot],
    callback: usize,
) -> Option<(usize, Rule)>
    requires given { spec.AreGiven graph.now callback slots.now }
    requires few { length slots.now ≤ 512 }
    ensures none { IfNone result (spec.FaultlessBefore graph.now callback slots.now (length slots.now)) }
    ensures some { IfSome result (λ q. spec.IsFirstBroken graph.now callback slots.now q.0 q.1) }
{
    if slots.len() <= SHORT {
        fault_among::<SHORT>(graph, slots, callback)
    } else if slots.len() <= MEDIUM {
        fault_among::<MEDIUM>(graph, slots, callback)
    } else {
        fault_among::<MAX_POINTS>(graph, slots, callback)
    }
}

/// Whether a slot is given and not kept, or kept and not given.
fn is_other(slot: &Slot, kept: bool) -> bool
    ensures { (result ≡ false) ↔ (is_some slot.now ≡ kept) }
{
    slot.is_some() != kept
}

/// The first point of a callback that is given and not kept, or kept and not given.
pub(crate) fn other_point(graph: &Graph, slots: &[Slot], callback: usize) -> Option<usize>
    requires { length slots.now ≤ 512 }
    ensures none { IfNone result (spec.AreGiven graph.now callback slots.now) }
    ensures some { IfSome result (λ point. spec.IsOtherPoint graph.now callback slots.now point) }
{
    let kept = kept_points(graph, callback);
    for point in 0..slots.len() {
        if is_other(&slots[point], kept[point]) {
            return Some(point);
        }
    }
    None
}
