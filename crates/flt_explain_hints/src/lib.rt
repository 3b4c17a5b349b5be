//! Explains why a text doesn't parse, and how to fix it: where it is refused, which words are legal there, and which one is probably meant.
//! The parser itself tries the legal words, so that no table can differ from it. `Nearest` is the word that is meant by a misspelt one: the
//! one in which the fewest letters differ, if it is alone.
#![tactic(auto)]

mod absences;
mod before;
mod choices;
mod hint;
mod hinting;
mod kinds;
mod meant;
mod misspelt;
mod names;
mod nearest;
mod nearness;
mod new_name;
mod open_call;
mod phrases;
mod spot;
mod telling;
mod trial;
mod troubles;

pub use choices::{Choices, ExpectedWord};
pub use hint::Hint;
pub use nearness::Nearest;
pub use open_call::OpenCall;
pub use spot::Spot;
pub use telling::{FaultExplanation, tell};
pub use troubles::{Trouble, describe};
