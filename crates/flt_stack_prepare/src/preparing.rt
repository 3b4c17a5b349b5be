//! A script on the texts of some filters, before anything is run.

ghost use Rattle.std.specs.Prelude.{◌≡◌, map, length, ◌≤◌, IfErr, IfOk};
ghost use Rattle.flt_stack_prepare.specs.Preparing as spec;
ghost use Rattle.flt_machine_frames.specs.Loading.{AreGraphsOfFilters};
ghost use Rattle.flt_model.specs.Program.{filters_of};
ghost use Rattle.flt_stack.specs.Loading.{IsCount};
ghost use Rattle.flt_stack.specs.Lowered.{AreCertificates, AreCovered};

use crate::certified::certify_all;
use crate::fault::RunFault;
use flt_cert::Cert;
use flt_check::accepted_certificates_fill_up;
use flt_graph::Graph;
use flt_rules::MAX_FILTERS;
use flt_stack::{LoadFault, Loaded, load_lowered};
use flt_stack_script::{Script, ScriptFault, read};
use flt_syntax::{parse_all, spelled_is_well_formed};
use flt_tree::Tree;
use std::alloc::{AllocError, Global};
use std::thread::Threads;

/// The input of a run: a script, and the filters for which it is one.
#[derive(Drop)]
pub struct PreparedRun {
    /// The filters, loaded.
    pub loaded: Loaded,
    /// The commands of the script.
    pub script: Script,
}

/// The commands that a script's bytes spell.
fn read_script(alloc: Global, trees: &[Tree], script: &[u8]) -> Result<Script, RunFault>
    ensures ok { IfOk result (spec.IsScript (filters_of trees.now) script.now) }
    ensures err { spec.ScriptFails (filters_of trees.now) script.now result }
{
    match read(alloc, Some(trees), script) {
        Ok(script) => Ok(script),
        Err(ScriptFault::Line(line)) => Err(RunFault::Script { line }),
        Err(ScriptFault::OutOfMemory) => Err(RunFault::OutOfMemory),
    }
}

/// Loads filters that are covered by their certificates, so that only equal altitudes may refuse them, or memory.
fn load_all(
    alloc: Global,
    trees: Vec<Tree>,
    graphs: Vec<Graph>,
    certificates: &[Cert],
) -> Result<Loaded, RunFault>
    requires count { IsCount (length trees.items) }
    requires lowered { AreGraphsOfFilters (filters_of trees.items) graphs.items }
    requires covered { AreCovered graphs.items certificates.now }
    requires certificates { AreCertificates graphs.items certificates.now }
    ensures loaded { IfOk result (spec.IsLoadedOf (filters_of trees.items)) }
    ensures fault { IfErr result (spec.IsAltitudeFault (filters_of trees.items)) }
{
    match load_lowered(alloc, trees, graphs, certificates) {
        Ok(loaded) => Ok(loaded),
        Err(LoadFault::Altitude { file }) => Err(RunFault::Altitude { file }),
        Err(LoadFault::OutOfMemory) => Err(RunFault::OutOfMemory),
        Err(_) => unreachable!(),
    }
}

/// Prepares a script and some texts before anything is run: the texts are read, each gets its least certificate, as many at a time as there
/// are workers, and all are loaded.
///
/// # Errors
///
/// The first of these that occurs, and of one kind the first file's: the number of files; a text's fault; a line of the script; a text that
/// no certificate covers; an altitude that an earlier file has. Or a growth was refused.
pub fn prepare<R: Threads + Sync>(
    rt: &R,
    alloc: Global,
    workers: usize,
    script: &[u8],
    texts: &[Vec<u8>],
) -> Result<PreparedRun, RunFault>
    requires workers { (1 ≤ workers) × (workers ≤ 16) }
    ensures ok { IfOk result
        (λ prepared. spec.IsPrepared script.now (map (λ text. text.items) texts.now) prepared.loaded prepared.script) }
    ensures err { IfErr result (spec.Fails script.now (map (λ text. text.items) texts.now)) }
{
    if texts.is_empty() || MAX_FILTERS < texts.len() {
        return Err(RunFault::Count);
    }
    let trees = parse_all(alloc, texts)?;
    let commands = read_script(alloc, trees.as_slice(), script)?;
    let (graphs, certificates) = certify_all(rt, alloc, workers, trees.as_slice())?;
    spelled_is_well_formed();
    accepted_certificates_fill_up();
    let loaded = load_all(alloc, trees, graphs, certificates.as_slice())?;
    Ok(PreparedRun {
        loaded,
        script: commands,
    })
}
