//! How filters are loaded that are read and lowered already: each certificate is checked, and if all are accepted the filters are put in
//! the order of their altitudes.

ghost use Rattle.std.specs.Prelude.{◌≡◌, ◌↔◌, List, None, length, IfErr, IfOk, IfSome, IsTrue};
ghost use Rattle.std.specs.List.{All};
ghost use Rattle.flt_machine_frames.specs.Loading.{AreGraphsOfFilters};
ghost use Rattle.flt_model.specs.Program.{filters_of};
ghost use Rattle.flt_model.specs.Runs.{breaks};
ghost use Rattle.flt_model.specs.Steps.{Transition};
ghost use Rattle.flt_stack.specs.Lowered as spec;
ghost use Rattle.flt_stack.specs.Ordering.{IsOrdered};
ghost use Rattle.flt_stack.specs.Loading.{IsCount};

use crate::fault::LoadFault;
use crate::loaded::Loaded;
use crate::ordering::is_ordered;
use crate::placing::in_order;
use flt_cert::Cert;
use flt_check::{accepted_certificates_fill_up, check};
use flt_graph::{Graph, one_graph_at_most};
use flt_model::first_repeated;
use flt_rules::{MAX_FILTERS, Refusal};
use flt_sound::{accepted_journals_break_nothing, orderly_filters_come_to_rest};
use flt_syntax::Tree;
use std::alloc::{AllocError, Global};

/// The first certificate that doesn't cover the points beside it, by its number from 0, and its first fault.
pub(crate) fn first_refusal(graphs: &[Graph], certificates: &[Cert]) -> Option<(usize, Refusal)>
    requires { length certificates.now ≡ length graphs.now }
    ensures covered { (result ≡ None) ↔ spec.AreCovered graphs.now certificates.now }
    ensures refused { IfSome result (λ first. spec.IsFirstRefusal graphs.now certificates.now first.0 first.1) }
{
    for (number, graph) in graphs.iter().enumerate() {
        if let Err(refusal) = check(graph, &certificates[number]) {
            return Some((number, refusal));
        }
    }
    None
}

/// Whether each filter takes its locks in an order, by some certificate that covers.
fn are_ordered(alloc: Global, graphs: &[Graph], certificates: &[Cert]) -> Result<bool, AllocError>
    requires covered { spec.AreCovered graphs.now certificates.now }
    requires certificates { spec.AreCertificates graphs.now certificates.now }
    ensures { IfOk result (λ ordered. IsTrue ordered ↔ All IsOrdered graphs.now) }
{
    for (number, graph) in graphs.iter().enumerate() {
        if !is_ordered(alloc, graph, &certificates[number])? {
            return Ok(false);
        }
    }
    Ok(true)
}

/// Loads filters that are read and lowered already: trees, the points of each, and a certificate for these. It answers the filters from the
/// highest altitude to the lowest if there are 1 to 16 of them, each certificate covers its points, and no two altitudes are equal.
/// Otherwise it answers the first fault: the count; then the first refusal, by its file from 0; then the first file whose altitude an
/// earlier one has.
pub fn load_lowered(
    alloc: Global,
    trees: Vec<Tree>,
    graphs: Vec<Graph>,
    certificates: &[Cert],
) -> Result<Loaded, LoadFault>
    requires lowered { AreGraphsOfFilters (filters_of trees.items) graphs.items }
    requires certificates { spec.AreCertificates graphs.items certificates.now }
    // What is answered is the filters, or the first fault.
    ensures answer { spec.Answers (filters_of trees.items) graphs.items certificates.now result }
    // What certificates cover is accepted: only equal altitudes refuse it, or memory.
    ensures accepts { spec.AreCovered graphs.items certificates.now → IsCount (length trees.items) →
        IfErr result (spec.IsAltitudeFault (filters_of trees.items)) }
    // No run of the machine on what is loaded breaks anything.
    ensures clean { IfOk result (λ loaded. (transitions : List Transition) → breaks loaded transitions ≡ None) }
{
    if trees.is_empty() || MAX_FILTERS < trees.len() {
        return Err(LoadFault::Count);
    }
    if let Some((file, refusal)) = first_refusal(graphs.as_slice(), certificates) {
        return Err(LoadFault::Refused { file, refusal });
    }
    if let Some(file) = first_repeated(trees.as_slice()) {
        return Err(LoadFault::Altitude { file });
    }
    let ordered = are_ordered(alloc, graphs.as_slice(), certificates)?;
    one_graph_at_most();
    accepted_certificates_fill_up();
    accepted_journals_break_nothing();
    orderly_filters_come_to_rest();
    let (trees, machine) = in_order(alloc, trees, graphs)?;
    let loaded = Loaded {
        trees,
        machine,
        ordered,
    };
    loaded.breaks_nothing();
    Ok(loaded)
}
