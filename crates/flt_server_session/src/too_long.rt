//! The answer to a body that is too long to be read.

ghost use Rattle.std.specs.Prelude.{◌≡◌, IfOk};
ghost use Rattle.flt_server_frames.specs.Handling.{reply_of};
ghost use Rattle.flt_server_session.specs.Answers as spec;

use crate::reply::{Refusal, refused};
use flt_server_frames::MessageAnswer;
use std::alloc::{AllocError, Global};

/// The message that an editor shows its user.
const NOTICE: &[u8] =
    b"{\"jsonrpc\":\"2.0\",\"method\":\"window/showMessage\",\"params\":{\"type\":1,\"message\":\"the editor sent a message of more than 16,777,216 bytes: it isn't read, and a document in it isn't analysed\"}}";

/// The answer to a body of more than 16,777,216 bytes, whatever it says, in whatever session: an error, and a message that the editor shows
/// its user. The session stays as it was.
pub fn answer_too_long(alloc: Global) -> Result<MessageAnswer, AllocError>
    ensures { IfOk result (λ a. reply_of a ≡ spec.too_long_reply) }
{
    let response = refused(alloc, b"null", Refusal::TooLong)?;
    let notice = Vec::from_slice(alloc, NOTICE)?;
    let mut notifications = Vec::new(alloc);
    notifications.push(notice)?;
    Ok(MessageAnswer {
        response: Some(response),
        notifications,
        ends: None,
    })
}
