//! The texts that are explained, and the page on which words about them are written. A `Source` is a text with the files in which its lines
//! are; `judge` finds its faults and its findings. If it parses, a `Scene` has all that is looked up in it: the statement at a point, and
//! the words that name an operand there (`operands`). `names` has the words of calls and statuses, and `closing` the lines that end reports.
#![tactic(auto)]

mod closing;
mod judged;
mod names;
mod operands;
mod page;
mod scene;
mod sources;

pub use closing::{SyntaxLine, fault_line, fault_name, findings_line};
pub use judged::{TextJudgement, judge};
pub use names::{call_name, kind_name, level_name, status_name};
pub use operands::{Marks, lock_word, tokens_of, word_of};
pub use page::{Page, Part, line_words};
pub use scene::Scene;
pub use sources::{Printout, Source};
