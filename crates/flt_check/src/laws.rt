//! The laws of covering: a certificate covers exactly if it has no fault, and how thin certificates relate to the full ones that follow
//! from them.

ghost use Rattle.std.specs.Prelude.{◌≡◌, IsTrue};
ghost use Rattle.flt_cert.specs.Format.{Certificate, is_certificate};
ghost use Rattle.flt_cert.specs.Spelling.{is_cert, thinned};
ghost use Rattle.flt_cert.specs.Thin.{Thin, thin, is_thin};
ghost use Rattle.flt_cert.specs.declared.cert.Cert.{Cert};
ghost use Rattle.flt_check.specs.Accepting.{CertCovers, IsCertFault, full_of};
ghost use Rattle.flt_check.specs.Checker.{IsFaultless, IsLeastFault};
ghost use Rattle.flt_check.specs.Covering.{Covers, IsCertificateBelow};
ghost use Rattle.flt_check.specs.Full.{full};
ghost use Rattle.flt_check.specs.ThinCovering.{CoversThin};
ghost use Rattle.flt_check.specs.ThinFault.{IsThinFault};
ghost use Rattle.flt_rules.specs.declared.refusal.Refusal.{Refusal};
ghost use Rattle.flt_graph.specs.Kept.{IsRising};
ghost use Rattle.flt_graph.specs.Lowering.{IsLowered};
ghost use Rattle.flt_graph.specs.declared.graph.Graph.{Graph};
ghost use Rattle.flt_tree.specs.WellFormed.{IsWellFormed};
ghost use Rattle.flt_tree.specs.declared.filter.Filter.{Filter};

use flt_abs::{joins_are_least, transfer_is_monotone, transfer_keeps_states_proper};
use flt_graph::edges_lead_onwards;

/// A certificate covers a graph exactly if no fault is computed at any point. It does nothing: its clauses are the law.
pub fn covering_is_faultless()
    ensures covers { (g : Graph) (k : Certificate) → IsTrue (is_certificate k) → IsFaultless g k → Covers g k }
    ensures faultless { (g : Graph) (k : Certificate) → Covers g k → IsFaultless g k }
{}

/// A certificate has one least fault at most. It does nothing: its clause is the law.
pub fn one_fault_is_least()
    ensures { (g : Graph) (k : Certificate) (f h : Refusal) → IsLeastFault g k f → IsLeastFault g k h → f ≡ h }
{}

/// If a certificate of a text covers, the thin one that is left of it covers, and the full one that follows from that is below the
/// certificate. It does nothing: its clauses are the law.
pub fn thin_certificates_cover()
    ensures rising { (g : Graph) (k : Certificate) → IsRising g → IsTrue (is_certificate k) → Covers g k → CoversThin g (thin g k) }
    ensures covers { (f : Filter) (g : Graph) (k : Certificate) → IsWellFormed f → IsLowered f g → IsTrue (is_certificate k) →
        Covers g k → CoversThin g (thin g k) }
    ensures below { (g : Graph) (k : Certificate) → IsTrue (is_certificate k) → Covers g k → IsCertificateBelow (full g (thin g k)) k }
{
    joins_are_least();
    transfer_is_monotone();
    transfer_keeps_states_proper();
    edges_lead_onwards();
}

/// The full points that follow from a thin certificate are a certificate, which covers if the thin one does. It does nothing: its clauses
/// are the law.
pub fn thin_certificates_fill_up()
    ensures certificate { (g : Graph) (t : Thin) → IsTrue (is_thin t) → IsTrue (is_certificate (full g t)) }
    ensures covers { (g : Graph) (t : Thin) → CoversThin g t → Covers g (full g t) }
{
    joins_are_least();
    transfer_is_monotone();
    transfer_keeps_states_proper();
}

/// A thin certificate has one least fault at most. It does nothing: its clause is the law.
pub fn one_thin_fault_is_least()
    ensures { (g : Graph) (t : Thin) (f h : Refusal) → IsThinFault g t f → IsThinFault g t h → f ≡ h }
{
    one_fault_is_least();
}

/// A certificate of either format stands for a full one, which covers if it does: a full one stands for itself, a thin one for the one that
/// follows from it. It does nothing: its clauses are the law.
pub fn accepted_certificates_fill_up()
    ensures certificate { (g : Graph) (c : Cert) → IsTrue (is_cert c) → IsTrue (is_certificate (full_of g c)) }
    ensures covers { (g : Graph) (c : Cert) → CertCovers g c → Covers g (full_of g c) }
{
    thin_certificates_fill_up();
}

/// If a certificate of a text covers, the thin one that is left of it covers. It does nothing: its clause is the law.
pub fn thinned_certificates_cover()
    ensures { (f : Filter) (g : Graph) (c : Cert) → IsWellFormed f → IsLowered f g → IsTrue (is_cert c) → CertCovers g c →
        CertCovers g (thinned g c) }
{
    thin_certificates_cover();
}

/// A certificate of either format has one least fault at most, and none if it covers. It does nothing: its clauses are the law.
pub fn one_refusal_at_most()
    ensures one { (g : Graph) (c : Cert) (f h : Refusal) → IsCertFault g c f → IsCertFault g c h → f ≡ h }
    ensures none { (g : Graph) (c : Cert) (f : Refusal) → CertCovers g c → ¬ IsCertFault g c f }
{
    one_fault_is_least();
    one_thin_fault_is_least();
    covering_is_faultless();
}
