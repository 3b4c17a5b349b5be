//! Explains why an input can't be read: the mistake in the first malformed line of a certificate, of a journal or of a script. The number
//! of that line comes from the readers of these three. The words about it come from small readers beside them. It exports `kind_of` and
//! `describe`.
#![tactic(auto)]

mod certificates;
mod cursor;
mod journals;
mod lines;
mod nearest;
mod notice;
mod reading;
mod scripts;
mod telling;
mod trouble;
mod wanted;

pub use notice::{Kind, Notice, Reason};
pub use reading::{describe, kind_of};
