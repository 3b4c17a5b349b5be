//! A session of the Language Server Protocol, whatever the language: which bodies are requests, how each is answered, and the documents
//! that the client has open. It exports `Session`, `answer_too_long`, the trait `Language` with the questions that a language answers,
//! `KeptText`, which a session keeps of a document, and the trait `Reporter`.
//!
//! `specs/Answers.antt` has the properties that are proved of an answer: whether there is a response, to which request, and which error it
//! is; whether the server ends; and the state of the session afterwards. `specs/Kept.antt` says what a session keeps of a document: its
//! bytes, or nothing but their number where they are more than the language says. `specs/Outgoing.antt` says what goes out of the JSON that
//! a language or a reporter writes: each string of diagnostics, of words about a document and of reports is shown. Places have the client's
//! own name of a document, and edits the user's text, so these go out as they are. No contract here says more of the results that a language
//! writes. The report that a client asks for by a command is one that the reporter may write.
#![tactic(auto)]

mod capabilities;
mod document;
mod language;
mod message;
mod method;
mod notices;
mod outgoing;
mod params;
mod phase;
mod reply;
mod session;
mod too_long;

pub use document::KeptText;
pub use language::{Encoding, Language, OpenText, Question, Reporter, Spot};
pub use session::Session;
pub use too_long::answer_too_long;
