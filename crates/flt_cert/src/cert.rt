//! Certificates of either format.

ghost use Rattle.std.specs.Prelude.{◌≡◌};
ghost use Rattle.flt_cert.specs.Spelling.{callbacks_in};

use crate::full_cert::FullCert;
use crate::thin_cert::ThinCert;

/// The abstract states at the points of each callback: at all of them, or at those whose states don't follow from others.
#[derive(Drop)]
pub enum Cert {
    Full(FullCert),
    Thin(ThinCert),
}

impl Cert {
    /// The number of its callbacks.
    pub fn callback_count(&self) -> usize
        ensures { result ≡ callbacks_in self.now }
    {
        match self {
            Cert::Full(full) => full.callbacks().len(),
            Cert::Thin(thin) => thin.callbacks().len(),
        }
    }
}
