//! All warnings of a text.

ghost use Rattle.std.specs.Prelude.{◌≡◌, ◌++◌, [], ◌∷◌, option_map, option_to_list, OnOk, IfOk};
ghost use Rattle.flt_graph.specs.Graph.{points_at};
ghost use Rattle.flt_explain_warnings.specs.Warnings as spec;
ghost use Rattle.flt_explain_warnings.specs.declared.warning.Warning.TheVariants.{LockCircle};

use crate::called::called_locked;
use crate::changed::changed_unlocked;
use crate::late::called_late;
use crate::lost::lost_context;
use crate::never::never_holds;
use crate::pended::{left_pended, never_removed};
use crate::shared::{SharedUse, shared_uses};
use crate::unreached::unreached;
use crate::unused::{unused_callback, unused_locks};
use crate::warning::{Kind, Site, Warning};
use flt_cert::FullCert;
use flt_graph::Graph;
use flt_order::{Circle, find_circle};
use sqlite_items::Items;
use std::alloc::{AllocError, Global};

/// The kinds that are searched point by point, in their order.
const KINDS: [Kind; 6] = [
    Kind::W02,
    Kind::W03,
    Kind::W04,
    Kind::W05,
    Kind::W06,
    Kind::W07,
];

/// Adds a warning, if there is one.
fn push(warnings: &mut Items<Warning>, warning: Option<Warning>) -> Result<(), AllocError>
    ensures { OnOk result (warnings.new ≡ warnings.old ++ option_to_list warning) }
{
    if let Some(warning) = warning {
        warnings.push(warning)?;
    }
    Ok(())
}

/// Adds the warning of a circle, if there is one.
fn push_circle(warnings: &mut Items<Warning>, circle: Option<Circle>) -> Result<(), AllocError>
    ensures { OnOk result (warnings.new ≡ warnings.old ++ spec.circle_warned circle) }
{
    if let Some(circle) = circle {
        warnings.push(Warning::LockCircle(circle))?;
    }
    Ok(())
}

/// Adds the warnings of operations that are left in the queue.
fn add_pended(
    alloc: Global,
    warnings: &mut Items<Warning>,
    graph: &Graph,
    cert: &FullCert,
    site: Site,
) -> Result<(), AllocError>
    ensures { OnOk result (warnings.new ≡ warnings.old ++ spec.pended_at graph.now cert.now site) }
{
    push(warnings, never_removed(graph, cert, site))?;
    let left = left_pended(alloc, graph, cert, site)?;
    push(warnings, left)?;
    Ok(())
}

/// Adds the warnings of callbacks, statements and tests that nothing reaches or passes.
fn add_unreached(
    warnings: &mut Items<Warning>,
    graph: &Graph,
    cert: &FullCert,
    site: Site,
) -> Result<(), AllocError>
    ensures { OnOk result (warnings.new ≡ warnings.old ++ spec.unreached_at graph.now cert.now site) }
{
    push(warnings, unused_callback(graph, site))?;
    push(warnings, unreached(graph, cert, site))?;
    push(warnings, never_holds(graph, cert, site))?;
    Ok(())
}

/// Adds the warnings of a kind at a point.
fn add_at(
    alloc: Global,
    warnings: &mut Items<Warning>,
    graph: &Graph,
    cert: &FullCert,
    uses: &[SharedUse],
    kind: Kind,
    site: Site,
) -> Result<(), AllocError>
    ensures { OnOk result (warnings.new ≡ warnings.old ++ spec.warned_at graph.now cert.now uses.now kind site) }
{
    match kind {
        Kind::W00 | Kind::W01 => {}
        Kind::W02 => push(warnings, called_locked(graph, cert, site))?,
        Kind::W03 => add_pended(alloc, warnings, graph, cert, site)?,
        Kind::W04 => push(warnings, changed_unlocked(cert, uses, site))?,
        Kind::W05 => {
            let lost = lost_context(alloc, graph, cert, site)?;
            push(warnings, lost)?;
        }
        Kind::W06 => add_unreached(warnings, graph, cert, site)?,
        Kind::W07 => push(warnings, called_late(graph, cert, site))?,
    }
    Ok(())
}

/// Adds the warnings of a kind in a callback.
#[tactic(auto, using(crate::proofs::Sweeps::one_point, crate::proofs::Sweeps::no_point))]
fn add_in(
    alloc: Global,
    warnings: &mut Items<Warning>,
    graph: &Graph,
    cert: &FullCert,
    uses: &[SharedUse],
    kind: Kind,
    callback: usize,
) -> Result<(), AllocError>
    ensures { OnOk result (warnings.new ≡ warnings.old ++ spec.warned_in graph.now cert.now uses.now kind callback) }
{
    for point in 0..graph.points(callback) {
        add_at(
            alloc,
            warnings,
            graph,
            cert,
            uses,
            kind,
            Site { callback, point },
        )?;
    }
    Ok(())
}

/// Adds the warnings of a kind in all callbacks.
#[tactic(auto, using(crate::proofs::Sweeps::one_callback, crate::proofs::Sweeps::no_callback))]
fn add_all(
    alloc: Global,
    warnings: &mut Items<Warning>,
    graph: &Graph,
    cert: &FullCert,
    uses: &[SharedUse],
    kind: Kind,
) -> Result<(), AllocError>
    ensures { OnOk result (warnings.new ≡ warnings.old ++ spec.warned_in_all graph.now cert.now uses.now kind) }
{
    for callback in 0..graph.callbacks() {
        add_in(alloc, warnings, graph, cert, uses, kind, callback)?;
    }
    Ok(())
}

/// Adds the warnings of a kind that are about declarations of locks.
fn add_declared(warnings: &mut Items<Warning>, graph: &Graph, kind: Kind) -> Result<(), AllocError>
    ensures { OnOk result (warnings.new ≡ warnings.old ++ spec.warned_declared graph.now kind) }
{
    match kind {
        Kind::W06 => unused_locks(warnings, graph)?,
        _ => {}
    }
    Ok(())
}

/// Adds the warnings of some kinds, kind after kind.
fn add_kinds(
    alloc: Global,
    warnings: &mut Items<Warning>,
    graph: &Graph,
    cert: &FullCert,
    uses: &[SharedUse],
    kinds: &[Kind],
) -> Result<(), AllocError>
    ensures { OnOk result (warnings.new ≡ warnings.old ++ spec.warned_by graph.now cert.now uses.now kinds.now) }
{
    if let [kind, others @ ..] = kinds {
        add_declared(warnings, graph, *kind)?;
        add_all(alloc, warnings, graph, cert, uses, *kind)?;
        add_kinds(alloc, warnings, graph, cert, uses, others)?;
    }
    Ok(())
}

/// The warnings of a text, by its least certificate: by kind, then by callback, then by point. A circle of locks comes first, and there is
/// one exactly if no order of the locks is kept; of several circles it is any one. Locks that no call names come before all other warnings
/// of their kind.
///
/// # Errors
///
/// `AllocError` if a growth is refused.
pub fn warnings(alloc: Global, graph: &Graph, cert: &FullCert) -> Result<Items<Warning>, AllocError>
    ensures { IfOk result (spec.AreWarnings graph.now cert.now) }
{
    let mut warnings = Items::new(alloc);
    let circle = find_circle(graph, cert);
    push_circle(&mut warnings, circle)?;
    let uses = shared_uses(alloc, graph)?;
    add_kinds(alloc, &mut warnings, graph, cert, uses.as_slice(), &KINDS)?;
    Ok(warnings)
}
