//! Messages in frames, as the Language Server Protocol sends them: bodies of known length over streams of bytes, and the loop of a server.
//!
//! A frame is a header, which has the length of the body that comes after it. A server reads a frame, has a handler answer its body
//! (`handler`), and writes the answer as frames.
#![tactic(auto)]

mod fault;
mod frame;
mod handler;
mod header;
mod incoming;
mod laws;
mod line;
mod serving;

pub use fault::ServeFault;
pub use frame::{Frame, push_frame, read_frame};
pub use handler::{Handler, MessageAnswer};
pub use incoming::Incoming;
pub use laws::{streams_have_one_reading, written_frames_are_read};
pub use serving::serve;
