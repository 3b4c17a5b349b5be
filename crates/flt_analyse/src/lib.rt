//! The analyser: the least certificate that covers a text, or why there is none.
#![tactic(auto)]

mod all;
mod analyser;
mod fault;
mod laws;
mod pending;
mod ticks;
mod walk;

pub use all::{Start, analyse_all};
pub use analyser::{analyse, analyse_plainly, one_fault_is_named};
pub use fault::AnalyseFault;
pub use laws::{one_certificate_is_least, thin_least};
pub use ticks::Ticks;
