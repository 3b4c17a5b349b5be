//! The server of a client whose documents are texts of filters.

ghost use Rattle.std.specs.Prelude.{◌≡◌, ℕ, List, [], IfOk, OnErr};
ghost use Rattle.flt_server_frames.specs.Frames.{IsShort, IsTooLong};
ghost use Rattle.flt_server_frames.specs.Handling.{reply_of};
ghost use Rattle.flt_server.specs.Documents.{most_bytes};
ghost use Rattle.flt_server_session.specs.Answers.{IsAnswered, IsHandled};
ghost use Rattle.flt_server_session.specs.declared.phase.Phase.TheVariants.{Fresh};

use crate::filters::Filters;
use flt_server_frames::{Handler, MessageAnswer};
use flt_server_session::{Reporter, Session, answer_too_long};
use std::alloc::{AllocError, Global};

/// A server of one client.
#[derive(Drop)]
pub struct Server<R: Reporter + Drop> {
    session: Session,
    reporter: R,
}

impl<R: Reporter + Drop> Server<R> {
    /// A server whose client said nothing yet.
    pub fn new(alloc: Global, reporter: R) -> Server<R>
        ensures phase { result.session.phase ≡ Fresh }
        ensures documents { result.session.documents ≡ [] }
    {
        Server {
            session: Session::new(alloc),
            reporter,
        }
    }
}

impl<R: Reporter + Drop> Handler for Server<R> {
    ghost use Rattle.flt_server.specs.Documents.{most_bytes};
    ghost use Rattle.flt_server_session.specs.Answers.{IsHandled};

    ghost answers = { λ old body answer new. IsHandled most_bytes R.reports old.session body answer new.session };

    fn answer(&mut self, alloc: Global, body: &[u8]) -> Result<MessageAnswer, AllocError>
        ensures answered { IfOk result (λ a. IsAnswered most_bytes R.reports self.old.session body.now (reply_of a) self.new.session) }
        ensures handled { IfOk result (λ a.
            IsShort body.now → IsHandled most_bytes R.reports self.old.session body.now (reply_of a) self.new.session) }
        ensures kept { OnErr result (self.new ≡ self.old) }
    {
        self.session.answer(alloc, &Filters, &self.reporter, body)
    }

    fn answer_too_long(&mut self, alloc: Global) -> Result<MessageAnswer, AllocError>
        ensures answered { IfOk result (λ a. (body : List ℕ) → IsTooLong body →
            IsHandled most_bytes R.reports self.old.session body (reply_of a) self.new.session) }
        ensures kept { self.new ≡ self.old }
    {
        answer_too_long(alloc)
    }
}
