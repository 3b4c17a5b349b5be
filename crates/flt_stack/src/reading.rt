//! How files are read: each text to a tree with its points, and each certificate beside them.

ghost use Rattle.std.specs.Prelude.{◌≡◌, ◌++◌, ◌∷◌, [], List, map, IfOk, IfErr, OnOk, OnErr};
ghost use Rattle.flt_model.specs.Program.{filters_of};
ghost use Rattle.flt_stack.specs.Loading as spec;
ghost use Rattle.flt_tree.specs.declared.filter.Filter.{Filter};

use crate::fault::LoadFault;
use flt_cert::{Cert, CertFault};
use flt_graph::{Graph, lower};
use flt_syntax::{ParseError, Tree, parse};
use std::alloc::{AllocError, Global};

/// The filters of files, in the order in which they are given, each with its points and its certificate.
#[derive(Drop)]
pub(crate) struct ReadFilters {
    pub(crate) trees: Vec<Tree>,
    pub(crate) graphs: Vec<Graph>,
    pub(crate) certificates: Vec<Cert>,
}

impl ReadFilters {
    /// Nothing is read.
    pub(crate) fn new(alloc: Global) -> ReadFilters
        ensures { (result.trees.items ≡ []) × ((result.graphs.items ≡ []) × (result.certificates.items ≡ [])) }
    {
        ReadFilters {
            trees: Vec::new(alloc),
            graphs: Vec::new(alloc),
            certificates: Vec::new(alloc),
        }
    }

    /// One more is read.
    fn push(&mut self, tree: Tree, graph: Graph, certificate: Cert) -> Result<(), AllocError>
        ensures trees { OnOk result (self.new.trees.items ≡ self.old.trees.items ++ tree ∷ []) }
        ensures graphs { OnOk result (self.new.graphs.items ≡ self.old.graphs.items ++ graph ∷ []) }
        ensures certificates { OnOk result (self.new.certificates.items ≡ self.old.certificates.items ++ certificate ∷ []) }
        ensures same { OnErr result ((self.new.trees.items ≡ self.old.trees.items)
            × ((self.new.graphs.items ≡ self.old.graphs.items) × (self.new.certificates.items ≡ self.old.certificates.items))) }
    {
        self.trees.reserve(1)?;
        self.graphs.reserve(1)?;
        self.certificates.reserve(1)?;
        self.trees.push_reserved(tree);
        self.graphs.push_reserved(graph);
        self.certificates.push_reserved(certificate);
        Ok(())
    }
}

/// The tree of a file's text, its points, and the file's certificate.
fn read_file(
    alloc: Global,
    file: usize,
    text: &[u8],
    certificate: &[u8],
) -> Result<(Tree, Graph, Cert), LoadFault>
    ensures ok { IfOk result (λ read. spec.IsReadFile (spec.file text.now certificate.now) read.0.filter read.1 read.2) }
    ensures err { IfErr result (spec.CannotRead file (spec.file text.now certificate.now)) }
    ensures reads { (f : Filter) → spec.IsAcceptedFile (spec.file text.now certificate.now) f →
        IfErr result (λ e. e ≡ LoadFault.OutOfMemory) }
{
    let tree = match parse(alloc, text) {
        Ok(tree) => tree,
        Err(ParseError::Syntax(fault)) => return Err(LoadFault::Syntax { file, fault }),
        Err(ParseError::OutOfMemory) => return Err(LoadFault::OutOfMemory),
    };
    let cert = match flt_cert::read(alloc, certificate) {
        Ok(cert) => cert,
        Err(CertFault::OutOfMemory) => return Err(LoadFault::OutOfMemory),
        Err(fault) => return Err(LoadFault::Cert { file, fault }),
    };
    let graph = lower(alloc, &tree)?;
    Ok((tree, graph, cert))
}

/// Reads files, in the order in which they are given, until one can't be read. `filters` becomes those of the files before it.
pub(crate) fn read_all(
    alloc: Global,
    files: &[(&[u8], &[u8])],
    filters: &mut ReadFilters,
) -> Result<(), LoadFault>
    requires none { (filters.old.trees.items ≡ [])
        × ((filters.old.graphs.items ≡ []) × (filters.old.certificates.items ≡ [])) }
    ensures ok { OnOk result (spec.AreReadFiles (map (λ f. spec.file f.0.now f.1.now) files.now) (filters_of filters.new.trees.items)
        filters.new.graphs.items filters.new.certificates.items) }
    ensures err { IfErr result (spec.StopsReading (map (λ f. spec.file f.0.now f.1.now) files.now) (filters_of filters.new.trees.items)
        filters.new.graphs.items filters.new.certificates.items) }
    ensures reads { (fs : List Filter) → spec.AreAcceptedFiles (map (λ f. spec.file f.0.now f.1.now) files.now) fs →
        IfErr result (λ e. e ≡ LoadFault.OutOfMemory) }
{
    for (file, (text, certificate)) in files.iter().enumerate() {
        match read_file(alloc, file, text, certificate) {
            Ok((tree, graph, cert)) => filters.push(tree, graph, cert)?,
            Err(fault) => return Err(fault),
        }
    }
    Ok(())
}
