//! The tokens of a C file, each with its place.
//!
//! Every file has tokens: what can't be read is a token of its own kind. A byte belongs to a class (`byte`); comments, continuations and
//! quotes end where C says (`scan`), words and numbers too (`word`), and the longest sign is taken (`sign`). The piece at the front of a
//! text is one of these (`piece`, `front`). Reading goes from front to front (`reading`, `lexer`). Words are numbers: the places of their
//! texts in a table that several files share (`spellings`), of which the words of C are the first (`vocabulary`).
#![tactic(auto)]

mod byte;
mod front;
mod lexer;
mod piece;
mod reading;
mod scan;
mod sign;
mod spellings;
mod token;
mod vocabulary;
mod word;

pub use lexer::{Excess, MAX_FILE, tokens};
pub use spellings::{MAX_SPELLINGS, Spellings};
pub use token::{Kind, Token};
pub use vocabulary::{LEAVE, leave_has_its_number};
