//! Runs that break something because of findings.

ghost use Rattle.std.specs.Prelude.{◌≡◌};
ghost use Rattle.std.specs.Option.{option_copied};
ghost use Rattle.flt_explain_flows.specs.FindingRun as spec;

use crate::flows::Flow;
use flt_model::Violation;
use sqlite_items::Items;

/// A run that breaks something because of a finding.
#[derive(Drop)]
pub struct FindingRun {
    /// The number of the finding's text among those that are reported, from 0.
    pub source: usize,
    /// The number of the finding among those of its text, from 0.
    pub finding: usize,
    /// The numbers of the texts of the run's filters, from 0, in the order of its filters.
    pub sources: Items<usize>,
    pub violation: Violation,
    /// The number of the entry by which it breaks that, from 0.
    pub entry: usize,
    /// Its entries, of which there is at least one, and its activations.
    pub flow: Flow,
}

/// Whether a run is that of a finding of a text.
fn is_of(run: &FindingRun, source: usize, finding: usize) -> bool
    ensures { result ≡ spec.is_of run.now source finding }
{
    run.source == source && run.finding == finding
}

/// The run of a finding of a text, if there is one; the first, if there are several.
pub fn run_of<'r>(runs: &'r [FindingRun], source: usize, finding: usize) -> Option<&'r FindingRun>
    ensures { option_copied result ≡ spec.run_of runs.now source finding }
{
    for run in runs {
        if is_of(run, source, finding) {
            return Some(run);
        }
    }
    None
}

/// The number of the text of an activation among those that are reported, if it is there.
pub fn source_of(run: &FindingRun, activation: Option<usize>) -> Option<usize>
    ensures { result ≡ spec.source_of run.now activation }
{
    match run.flow.activations.as_slice().get(activation?) {
        None => None,
        Some(activation) => run.sources.as_slice().get(activation.tree).copied(),
    }
}
