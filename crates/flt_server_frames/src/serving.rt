//! The loop of a server: it reads a frame, has its body answered, and sends the answer.

ghost use Rattle.flt_server_frames.specs.Frames.{IsShort, IsTooLong, framed};
ghost use Rattle.flt_server_frames.specs.Handling as spec;
ghost use Rattle.std.specs.Io.KnownBytes.{Appends};
ghost use Rattle.std.specs.List.{flat_map};
ghost use Rattle.std.specs.Prelude.{◌≡◌, ◌≢◌, ◌⊎◌, ◌++◌, ℕ, List, IfErr, IfOk, OnErr, OnOk, map};

use crate::fault::ServeFault;
use crate::frame::{Frame, push_frame, read_frame};
use crate::handler::{Handler, MessageAnswer};
use crate::incoming::Incoming;
use flt_model::{Sink, put_all};
use std::alloc::{AllocError, Global};

/// Appends bodies as frames, in order.
fn push_frames(alloc: Global, out: &mut Vec<u8>, bodies: &[Vec<u8>]) -> Result<(), AllocError>
    ensures { OnOk result (out.new.items ≡ out.old.items ++ flat_map framed (map (λ body. body.items) bodies.now)) }
{
    for body in bodies {
        push_frame(alloc, out, body.as_slice())?;
    }
    Ok(())
}

/// The messages of an answer as frames.
fn frames_of(alloc: Global, answered: &MessageAnswer) -> Result<Vec<u8>, AllocError>
    ensures { IfOk result (λ v. v.items ≡ flat_map framed (spec.messages_of (spec.reply_of answered.now))) }
{
    let mut out = Vec::new(alloc);
    if let Some(response) = &answered.response {
        push_frame(alloc, &mut out, response.as_slice())?;
    }
    push_frames(alloc, &mut out, answered.notifications.as_slice())?;
    Ok(out)
}

/// Sends the messages of an answer. The exit status, if the server ends now.
fn send<O: Sink>(
    alloc: Global,
    answered: &MessageAnswer,
    out: &mut O,
) -> Result<Option<u8>, ServeFault>
    ensures ends { IfOk result (λ ends. ends ≡ (spec.reply_of answered.now).ends) }
    ensures sent { OnOk result
        (Appends (O.taken out.old) (O.taken out.new) (flat_map framed (spec.messages_of (spec.reply_of answered.now)))) }
    ensures fine { OnOk result (O.failures out.new ≡ O.failures out.old) }
    ensures write { IfErr result (λ e. e ≡ ServeFault.Write → O.failures out.new ≢ O.failures out.old) }
    ensures memory { IfErr result (λ e. e ≢ ServeFault.Write → out.new ≡ out.old) }
    ensures read { IfErr result (λ e. e ≢ ServeFault.Read) }
{
    let frames = frames_of(alloc, answered)?;
    put_all(out, frames.as_slice())?;
    Ok(answered.ends)
}

/// Has a body answered that is too long and wasn't kept, and sends the answer. The exit status, if the server ends now.
fn answer_too_long<O: Sink, H: Handler>(
    alloc: Global,
    out: &mut O,
    handler: &mut H,
) -> Result<Option<u8>, ServeFault>
    ensures answered { IfOk result (λ ends. (body : List ℕ) → IsTooLong body →
        (reply : spec.Reply) × H.answers handler.old body reply handler.new × (reply.ends ≡ ends)
        × Appends (O.taken out.old) (O.taken out.new) (flat_map framed (spec.messages_of reply))) }
    ensures fine { OnOk result (O.failures out.new ≡ O.failures out.old) }
    ensures write { IfErr result (λ e. e ≡ ServeFault.Write → O.failures out.new ≢ O.failures out.old) }
    ensures memory { IfErr result (λ e. e ≢ ServeFault.Write → out.new ≡ out.old) }
    ensures read { IfErr result (λ e. e ≢ ServeFault.Read) }
{
    let answered = handler.answer_too_long(alloc)?;
    send(alloc, &answered, out)
}

/// Has a body answered, and sends the answer. The exit status, if the server ends now.
fn answer<O: Sink, H: Handler>(
    alloc: Global,
    body: &[u8],
    out: &mut O,
    handler: &mut H,
) -> Result<Option<u8>, ServeFault>
    ensures answered { IfOk result (λ ends. IsShort body.now →
        (reply : spec.Reply) × H.answers handler.old body.now reply handler.new × (reply.ends ≡ ends)
        × Appends (O.taken out.old) (O.taken out.new) (flat_map framed (spec.messages_of reply))) }
    ensures fine { OnOk result (O.failures out.new ≡ O.failures out.old) }
    ensures write { IfErr result (λ e. e ≡ ServeFault.Write → O.failures out.new ≢ O.failures out.old) }
    ensures memory { IfErr result (λ e. e ≢ ServeFault.Write → out.new ≡ out.old) }
    ensures read { IfErr result (λ e. e ≢ ServeFault.Read) }
{
    let answered = handler.answer(alloc, body)?;
    send(alloc, &answered, out)
}

/// Reads frames one after the other, has the body of each answered by a handler, and sends the messages of the answer as frames: the
/// response, if there is one, and the notifications after it. A body of more than 16,777,216 bytes is read past and isn't kept: the handler
/// answers it without its bytes. The server ends with the exit status of the handler, once that ends; and with 1 if no frame comes: at the
/// end of the stream, in a frame that the stream's end cuts short, and at bytes that aren't a frame's header. Nothing is read after the last
/// frame, and an answer goes out before the next frame is read.
///
/// # Errors
///
/// `OutOfMemory` if memory is refused, `Read` if a read fails: the whole answers to some first frames were sent then, and nothing else.
/// `Write` if a write fails: how much of an answer was sent then isn't known.
pub fn serve<R: Incoming, O: Sink, H: Handler>(
    alloc: Global,
    reader: &mut R,
    out: &mut O,
    handler: &mut H,
) -> Result<u8, ServeFault>
    ensures served { IfOk result (spec.IsServed H.answers handler.old handler.new (R.left reader.old) (R.left reader.new)
        (O.taken out.old) (O.taken out.new)) }
    ensures so_far { IfErr result (λ e. e ≢ ServeFault.Write →
        spec.IsServedSoFar H.answers handler.old (R.left reader.old) (O.taken out.old) (O.taken out.new)) }
    ensures write { IfErr result (λ e. e ≡ ServeFault.Write → O.failures out.new ≢ O.failures out.old) }
    ensures read { IfErr result (λ e. e ≡ ServeFault.Read → R.failures reader.new ≢ R.failures reader.old) }
    ensures fine { IfOk result (λ _. O.failures out.new ≡ O.failures out.old) }
    ensures readable { IfOk result (λ _. R.failures reader.new ≡ R.failures reader.old) }
{
    for _ in 0..u64::MAX {
        match read_frame(alloc, reader)? {
            Frame::Body(body) => {
                if let Some(status) = answer(alloc, body.as_slice(), out, handler)? {
                    return Ok(status);
                }
            }
            Frame::TooLong => {
                if let Some(status) = answer_too_long(alloc, out, handler)? {
                    return Ok(status);
                }
            }
            _ => return Ok(1),
        }
    }
    Ok(1)
}
