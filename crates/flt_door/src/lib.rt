//! The door through which bytes go out to a terminal, a page or an editor (`let_out`, `put_let_out`): line feeds, the program's own colours
//! and characters that are shown stay as they are, and in place of each other byte there is a sign.
#![tactic(auto)]

mod character;
mod door;
mod laws;
mod piece;

pub use door::{let_out, put_let_out};
pub use laws::all_that_goes_out_is_shown;
