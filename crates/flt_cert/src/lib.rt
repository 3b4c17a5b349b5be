//! Certificates: the abstract states at all points of callbacks, or only at those that don't follow from the points before, and their text,
//! which is read and written in both formats.
#![tactic(auto)]

mod cert;
mod fault;
mod fields;
mod fixed_width;
mod full_cert;
mod full_reader;
mod kept;
mod laws;
mod lines;
mod reader;
mod thin_cert;
mod thin_reader;
mod thinning;
mod writer;

pub use cert::Cert;
pub use fault::CertFault;
pub use full_cert::FullCert;
pub use kept::kept_points;
pub use laws::{one_certificate_is_spelled, one_fault_is_first, thin_certificates_are_left};
pub use reader::read;
pub use thin_cert::{Slot, ThinCert};
pub use thinning::thin;
pub use writer::{write, write_full};
