//! Laws of the text of certificates: it spells one certificate at most, and its first fault is at one line; and laws of thin ones.

ghost use Rattle.std.specs.Prelude.{◌≡◌, ℕ, IsTrue};
ghost use Rattle.flt_cert.specs.Format.{Certificate, is_certificate};
ghost use Rattle.flt_cert.specs.Spelling.{IsFirstFault, is_cert, spelling};
ghost use Rattle.flt_cert.specs.Text.{Text};
ghost use Rattle.flt_cert.specs.Thin.{thin, is_thin};
ghost use Rattle.flt_cert.specs.declared.cert.Cert.{Cert};
ghost use Rattle.flt_graph.specs.declared.graph.Graph.{Graph};

/// No text spells two certificates, of one format or of both. It does nothing at run time: its clause is the law.
pub fn one_certificate_is_spelled()
    ensures { (c d : Cert) → IsTrue (is_cert c) → IsTrue (is_cert d) → spelling c ≡ spelling d → c ≡ d }
{}

/// A text has one first fault at most, and none if it spells a certificate. It does nothing at run time: its clauses are the law.
pub fn one_fault_is_first()
    ensures one { (text : Text) (m n : ℕ) → IsFirstFault text m → IsFirstFault text n → m ≡ n }
    ensures none { (c : Cert) (n : ℕ) → IsTrue (is_cert c) → ¬ IsFirstFault (spelling c) n }
{}

/// Thinning a certificate gives a thin one. It does nothing at run time: its clause is the law.
pub fn thin_certificates_are_left()
    ensures { (g : Graph) (k : Certificate) → IsTrue (is_certificate k) → IsTrue (is_thin (thin g k)) }
{}
