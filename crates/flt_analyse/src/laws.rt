//! The laws of least certificates: there is one at most, and it follows from the thin one that is left of it.

ghost use Rattle.std.specs.Prelude.{◌≡◌, IsTrue};
ghost use Rattle.flt_cert.specs.Format.{Certificate, is_certificate};
ghost use Rattle.flt_cert.specs.Thin.{thin};
ghost use Rattle.flt_check.specs.Covering.{Covers};
ghost use Rattle.flt_check.specs.Full.{full};
ghost use Rattle.flt_graph.specs.Kept.{IsRising};
ghost use Rattle.flt_graph.specs.Lowering.{IsLowered};
ghost use Rattle.flt_graph.specs.declared.graph.Graph.{Graph};
ghost use Rattle.flt_analyse.specs.Least.{IsLeast};
ghost use Rattle.flt_tree.specs.WellFormed.{IsWellFormed};
ghost use Rattle.flt_tree.specs.declared.filter.Filter.{Filter};

use flt_abs::{is_partial_order, joins_are_least};
use flt_check::thin_certificates_cover;

/// A graph has one least certificate at most. It does nothing: its clause is the law.
pub fn one_certificate_is_least()
    ensures { (g : Graph) (k l : Certificate) → Covers g k → IsLeast g k → Covers g l → IsLeast g l → k ≡ l }
{
    is_partial_order();
}

/// The least certificate of a text follows from the thin one that is left of it. It does nothing: its clauses are the law.
pub fn thin_least()
    ensures rising { (g : Graph) (k : Certificate) → IsRising g → IsTrue (is_certificate k) → Covers g k → IsLeast g k →
        full g (thin g k) ≡ k }
    ensures least { (f : Filter) (g : Graph) (k : Certificate) → IsWellFormed f → IsLowered f g → IsTrue (is_certificate k) →
        Covers g k → IsLeast g k → full g (thin g k) ≡ k }
{
    joins_are_least();
    thin_certificates_cover();
    one_certificate_is_least();
}
