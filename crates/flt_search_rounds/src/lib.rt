//! One round of the search for runs: the exploration of small worlds.
//!
//! `explore` goes breadth first from the world in which nothing has come (`round_search`), by the moves that may come next within the
//! bounds of its round (`coming`, `rounds`), past worlds that it has met (`key`), and at each depth by callbacks in turn (`counts`). It
//! keeps the entries that lead to each (`paths`), and notes the breaks that stand for something that is sought (`targets`), or the first
//! world in which activations wait for one another (`meeting`). No clause describes its results: safety and an end are proved, and the
//! results are replayed by the caller.
#![tactic(auto)]

mod coming;
mod counts;
mod key;
mod meeting;
mod paths;
mod round_search;
mod rounds;
mod targets;
mod watch;

pub use round_search::{Found, Left, Search, explore};
pub use rounds::{MEETINGS, ROUNDS, Round};
pub use targets::{Firsts, Stand, Targets};
pub use watch::{SearchWatch, UnwatchedSearch, WatchedSearch};
