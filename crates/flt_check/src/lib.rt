//! The checker: whether a certificate covers a text, and if not, the least fault; the same of a thin certificate, by the points that follow
//! from those that it gives.
#![tactic(auto)]

mod accepting;
mod checker;
mod filling;
mod laws;
mod thin_checker;
mod thin_points;

pub use accepting::check;
pub use filling::fill;
pub use laws::{
    accepted_certificates_fill_up, covering_is_faultless, one_fault_is_least, one_refusal_at_most,
    one_thin_fault_is_least, thin_certificates_cover, thin_certificates_fill_up,
    thinned_certificates_cover,
};
