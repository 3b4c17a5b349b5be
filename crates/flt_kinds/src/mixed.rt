//! Contexts that have two kinds.

ghost use Rattle.flt_graph.specs.Graph.{points_at};
ghost use Rattle.flt_kinds.specs.Cells.{cells_for};
ghost use Rattle.flt_kinds.specs.Deciding as spec;
ghost use Rattle.std.specs.Prelude.{◌≡◌, ◌++◌, length, IfOk, OnOk};

use crate::cells::cell;
use crate::sites::{ContextSite, begun_at, given_at};
use crate::slot::{Slot, Spot};
use flt_graph::Graph;
use flt_rules::Anchor;
use std::alloc::{AllocError, Global};

/// A context that may be set on a stream and on the instance, or be set on one and come from the other.
#[derive(Clone, Copy)]
pub struct MixedContext {
    /// The statement that allocates or gives it.
    pub site: Spot,
    /// The statement that sets it on a stream, or `site` if that gives a stream's context.
    pub stream: Spot,
    /// The statement that sets it on the instance, or `site` if that gives the instance's context.
    pub instance: Spot,
}

/// For each place a statement that may set the context which is there, on a stream and on the instance.
#[derive(Clone, Copy)]
pub(crate) struct Setters<'a> {
    pub(crate) callbacks: usize,
    pub(crate) streams: &'a [Option<Spot>],
    pub(crate) instances: &'a [Option<Spot>],
}

fn both(site: Spot, stream: Option<Spot>, instance: Option<Spot>) -> Option<MixedContext>
    ensures { result ≡ spec.both site stream instance }
{
    match (stream, instance) {
        (Some(stream), Some(instance)) => Some(MixedContext {
            site,
            stream,
            instance,
        }),
        _ => None,
    }
}

/// A context that is allocated.
fn begun_twice(setters: Setters<'_>, at: Spot, slot: Option<Slot>) -> Option<MixedContext>
    requires streams { length setters.streams.now ≡ cells_for setters.callbacks }
    requires instances { length setters.instances.now ≡ cells_for setters.callbacks }
    ensures { result ≡ spec.begun_twice setters.entry.streams.now setters.entry.instances.now at slot }
{
    match slot {
        Some(slot) => both(
            at,
            cell(setters.callbacks, setters.streams, slot),
            cell(setters.callbacks, setters.instances, slot),
        ),
        None => None,
    }
}

/// A context that is given.
fn given_twice(setters: Setters<'_>, at: Spot, given: Option<ContextSite>) -> Option<MixedContext>
    requires streams { length setters.streams.now ≡ cells_for setters.callbacks }
    requires instances { length setters.instances.now ≡ cells_for setters.callbacks }
    ensures { result ≡ spec.given_twice setters.entry.streams.now setters.entry.instances.now at given }
{
    match given {
        Some(
            ContextSite {
                anchor: Anchor::Stream,
                slot,
            },
        ) => both(
            at,
            Some(at),
            cell(setters.callbacks, setters.instances, slot),
        ),
        Some(
            ContextSite {
                anchor: Anchor::Instance,
                slot,
            },
        ) => both(at, cell(setters.callbacks, setters.streams, slot), Some(at)),
        None => None,
    }
}

fn first_of(first: Option<MixedContext>, other: Option<MixedContext>) -> Option<MixedContext>
    ensures { result ≡ spec.first_of first other }
{
    match first {
        Some(found) => Some(found),
        None => other,
    }
}

/// A context with two kinds that a statement allocates or gives.
#[tactic(auto, unfolding(crate::specs::Deciding::mixed_at))]
fn mixed_at(
    graph: &Graph,
    setters: Setters<'_>,
    callback: usize,
    point: usize,
) -> Option<MixedContext>
    requires streams { length setters.streams.now ≡ cells_for setters.callbacks }
    requires instances { length setters.instances.now ≡ cells_for setters.callbacks }
    ensures { result ≡ spec.mixed_at graph.now setters.entry.streams.now setters.entry.instances.now callback point }
{
    let at = Spot { callback, point };
    let begun = begun_twice(setters, at, begun_at(graph, callback, point));
    let granted = given_twice(setters, at, given_at(graph, callback, point, true));
    let failed = given_twice(setters, at, given_at(graph, callback, point, false));
    first_of(begun, first_of(granted, failed))
}

/// The first one in a callback.
fn mixed_below(graph: &Graph, setters: Setters<'_>, callback: usize) -> Option<MixedContext>
    requires streams { length setters.streams.now ≡ cells_for setters.callbacks }
    requires instances { length setters.instances.now ≡ cells_for setters.callbacks }
    ensures { result ≡ spec.mixed_below graph.now setters.entry.streams.now setters.entry.instances.now callback
        (points_at graph.now callback) }
{
    let mut found = None;
    for point in 0..graph.points(callback) {
        found = first_of(found, mixed_at(graph, setters, callback, point));
    }
    found
}

/// The first one in a filter.
pub(crate) fn mixed_in(graph: &Graph, setters: Setters<'_>) -> Option<MixedContext>
    requires streams { length setters.streams.now ≡ cells_for setters.callbacks }
    requires instances { length setters.instances.now ≡ cells_for setters.callbacks }
    ensures { result ≡ spec.mixed_in graph.now setters.entry.streams.now setters.entry.instances.now (length graph.now.callbacks) }
{
    let mut found = None;
    for callback in 0..graph.callbacks() {
        found = first_of(found, mixed_below(graph, setters, callback));
    }
    found
}

/// Whether a statement allocates a context that may be set on the instance.
#[tactic(auto, unfolding(crate::specs::Deciding::is_needed))]
fn is_needed(
    graph: &Graph,
    callbacks: usize,
    instances: &[Option<Spot>],
    callback: usize,
    point: usize,
) -> bool
    requires { length instances.now ≡ cells_for callbacks }
    ensures { result ≡ spec.is_needed graph.now instances.now callback point }
{
    match begun_at(graph, callback, point) {
        Some(slot) => cell(callbacks, instances, slot).is_some(),
        None => false,
    }
}

fn add_only(out: &mut Vec<Spot>, is: bool, at: Spot) -> Result<(), AllocError>
    ensures { OnOk result (out.new.items ≡ out.old.items ++ spec.only is at) }
{
    if is {
        out.push(at)?;
    }
    Ok(())
}

fn add_needed(
    out: &mut Vec<Spot>,
    graph: &Graph,
    callbacks: usize,
    instances: &[Option<Spot>],
    callback: usize,
) -> Result<(), AllocError>
    requires { length instances.now ≡ cells_for callbacks }
    ensures { OnOk result (out.new.items ≡ out.old.items
        ++ spec.needed_below graph.now instances.now callback (points_at graph.now callback)) }
{
    for point in 0..graph.points(callback) {
        let is = is_needed(graph, callbacks, instances, callback, point);
        add_only(out, is, Spot { callback, point })?;
    }
    Ok(())
}

/// The statements that allocate contexts which may be set on the instance.
pub(crate) fn needed_in(
    alloc: Global,
    graph: &Graph,
    instances: &[Option<Spot>],
) -> Result<Vec<Spot>, AllocError>
    requires { length instances.now ≡ cells_for (length graph.now.callbacks) }
    ensures { IfOk result (λ found. found.items ≡ spec.needed_in graph.now instances.now (length graph.now.callbacks)) }
{
    let callbacks = graph.callbacks();
    let mut out = Vec::new(alloc);
    for callback in 0..callbacks {
        add_needed(&mut out, graph, callbacks, instances, callback)?;
    }
    Ok(out)
}
