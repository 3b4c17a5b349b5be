//! The details of findings for other forms than reports: `details` has for each finding of a text its place, its words, and how it is
//! reached, step by step (`study`). The path of one finding may serve others that are `alike`.
#![tactic(auto)]

mod alike;
mod study;

pub use study::{Detail, Maker, Route, Stage, WayKind, details};
