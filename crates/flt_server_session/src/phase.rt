//! How far a session is.

ghost use Rattle.std.specs.Prelude.{◌≡◌};
ghost use Rattle.flt_server_session.specs.Answers as spec;

/// How far a session is.
#[derive(Clone, Copy)]
pub enum Phase {
    /// `initialize` wasn't asked.
    Fresh,
    Ready,
    /// `shutdown` was asked.
    Stopped,
}

impl Phase {
    /// The status with which the server ends.
    pub(crate) fn exit_status(self) -> u8
        ensures { result ≡ spec.exit_status self }
    {
        match self {
            Phase::Fresh | Phase::Ready => 1,
            Phase::Stopped => 0,
        }
    }
}
