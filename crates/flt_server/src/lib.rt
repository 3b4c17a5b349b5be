//! A server of the Language Server Protocol for texts of filters: mistakes, and the facts and words of each place. The text of a C file is
//! its annotations, and places are those of the C file. It exports `Server`, which answers the bodies of messages; `flt_server_frames`
//! reads and writes them, and `flt_server_session` knows the protocol.
//!
//! `specs/Documents.antt` says how many bytes a document may have that is kept whole.
//!
//! An answer is proved to be what `flt_server_session` says of it. The text of a result, as the words of a hover, is only tested. A
//! `Reporter` of `flt_server_session` makes the reports that clients ask for.
#![tactic(auto)]

mod actions;
mod annotated;
mod completion;
mod diagnostics;
mod drifts;
mod edits;
mod facts;
mod faults;
mod filters;
mod findings;
mod flaws;
mod focus;
mod folds;
mod hover;
mod members;
mod narrow;
mod places;
mod server;
mod symbols;
mod trial;
mod uses;
mod warned;

pub use server::Server;
