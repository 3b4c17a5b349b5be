//! The stack: filters are loaded if certificates cover them, and a board runs the loaded ones. Such a board breaks nothing, and can come to
//! rest if all filters take their locks in an order.
#![tactic(auto)]

mod fault;
mod loaded;
mod loading;
mod lowered;
mod ordering;
mod placing;
mod reading;

pub use fault::LoadFault;
pub use loaded::Loaded;
pub use loading::load;
pub use lowered::load_lowered;
