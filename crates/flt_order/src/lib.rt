//! Whether a filter takes its locks in an order, by its certificate, and if it doesn't, a circle of acquisitions that shows it.
#![tactic(auto)]

mod circle;
mod order;

pub use circle::{Circle, circles_have_no_order, find_circle};
pub use order::Acquisition;
