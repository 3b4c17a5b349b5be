//! Responses to requests.

ghost use Rattle.std.specs.Prelude.{◌≡◌, ◌++◌, IfOk};
ghost use Rattle.flt_server_session.specs.Replies as spec;

use std::alloc::{AllocError, Global};

/// The beginning of each response, up to its id.
const HEAD: &[u8] = b"{\"jsonrpc\":\"2.0\",\"id\":";

/// Why a message isn't answered by a result.
#[derive(Clone, Copy)]
pub enum Refusal {
    NotJson,
    /// JSON that is no message, or a request that can't be made now.
    NoRequest,
    UnknownMethod,
    /// A command that isn't known, or whose argument is no open document.
    BadParams,
    /// A request before `initialize`.
    NotInitialized,
    /// A body that is too long to be read.
    TooLong,
}

impl Refusal {
    /// The end of the response, after the id.
    fn tail(self) -> &'static [u8]
        ensures { result.now ≡ spec.refusal_tail self }
    {
        match self {
            Refusal::NotJson =>
                b",\"error\":{\"code\":-32700,\"message\":\"the body isn't JSON\"}}",
            Refusal::NoRequest =>
                b",\"error\":{\"code\":-32600,\"message\":\"this is no request that may be made now\"}}",
            Refusal::UnknownMethod =>
                b",\"error\":{\"code\":-32601,\"message\":\"the server doesn't know this method\"}}",
            Refusal::BadParams =>
                b",\"error\":{\"code\":-32602,\"message\":\"the server doesn't know this command, or its argument is no open document\"}}",
            Refusal::NotInitialized =>
                b",\"error\":{\"code\":-32002,\"message\":\"the server isn't initialized\"}}",
            Refusal::TooLong =>
                b",\"error\":{\"code\":-32600,\"message\":\"the body has more than 16,777,216 bytes\"}}",
        }
    }
}

/// Three texts, one after the other.
fn joined(alloc: Global, first: &[u8], second: &[u8], third: &[u8]) -> Result<Vec<u8>, AllocError>
    ensures { IfOk result (λ v. v.items ≡ first.now ++ (second.now ++ third.now)) }
{
    let mut out = Vec::new(alloc);
    out.extend_from_slice(first)?;
    out.extend_from_slice(second)?;
    out.extend_from_slice(third)?;
    Ok(out)
}

/// The response that refuses the message of an id.
pub(crate) fn refused(alloc: Global, id: &[u8], refusal: Refusal) -> Result<Vec<u8>, AllocError>
    ensures { IfOk result (λ v. v.items ≡ spec.refused id.now refusal) }
{
    joined(alloc, HEAD, id, refusal.tail())
}

/// The response to the request of an id with this text as its result.
pub(crate) fn answered(alloc: Global, id: &[u8], text: &[u8]) -> Result<Vec<u8>, AllocError>
    ensures { IfOk result (λ v. v.items ≡ spec.answered id.now text.now) }
{
    let front = joined(alloc, HEAD, id, b",\"result\":")?;
    joined(alloc, front.as_slice(), text, b"}")
}
