//! The part of a server that knows its protocol: it answers bodies of messages.

ghost use Rattle.flt_server_frames.specs.Handling.{Reply, reply_of};
ghost use Rattle.flt_server_frames.specs.Frames.{IsShort, IsTooLong};
ghost use Rattle.std.specs.Prelude.{ℕ, List, IfOk};

use std::alloc::{AllocError, Global};

/// The answer to a message's body.
#[derive(Drop)]
pub struct MessageAnswer {
    /// The response. A body has one at most.
    pub response: Option<Vec<u8>>,
    /// Notifications to send after it, in order.
    pub notifications: Vec<Vec<u8>>,
    /// The exit status of the server, if it ends now.
    pub ends: Option<u8>,
}

/// Answers the bodies of messages, one after the other.
pub trait Handler {
    // From the first state it may answer this body by this reply, and is then in the second.
    ghost answers: { Self → List ℕ → Reply → Self → Type 0 };

    /// The answer to a body, which may be no message of the protocol. Its own state is unspecified after an error.
    fn answer(&mut self, alloc: Global, body: &[u8]) -> Result<MessageAnswer, AllocError>
        ensures { IfOk result (λ answered. IsShort body.now → answers self.old body.now (reply_of answered) self.new) };

    /// The answer to any body of more than 16,777,216 bytes, which isn't kept. Its own state is unspecified after an error.
    fn answer_too_long(&mut self, alloc: Global) -> Result<MessageAnswer, AllocError>
        ensures { IfOk result (λ answered. (body : List ℕ) → IsTooLong body → answers self.old body (reply_of answered) self.new) };
}
