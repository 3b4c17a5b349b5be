//! The session of a client: its state, and how it answers a body.

ghost use Rattle.std.specs.Prelude.{◌≡◌, ◌≤◌, ◌<◌, ℕ, List, [], codes, length, None, Some, IfOk, OnOk, OnErr, option_map};
ghost use Rattle.flt_server_frames.specs.Handling.{reply_of};
ghost use Rattle.flt_server_session.specs.Answers as spec;
ghost use Rattle.flt_server_session.specs.Commands as commands;
ghost use Rattle.flt_server_session.specs.Kept.{AreKept};
ghost use Rattle.flt_server_session.specs.Messages as messages;
ghost use Rattle.flt_server_session.specs.Outgoing as outgoing;
ghost use Rattle.flt_server_session.specs.Replies as replies;
ghost use Rattle.flt_server_session.specs.Answers.{no_response, a_result, a_shown_result, an_error};
ghost use Rattle.flt_server_session.specs.declared.phase.Phase.TheVariants.{Fresh, Ready, Stopped};
ghost use Rattle.flt_server_session.specs.declared.reply.Refusal.TheVariants.{NotJson, NoRequest};
ghost use Rattle.json.specs.Json.{document};
ghost use Rattle.json.specs.Tree.{HasNumbers};
ghost use Rattle.json.specs.Value.{value_view};

use crate::capabilities::capabilities;
use crate::document::{Document, KeptText, MAX_DOCUMENTS, document_of, document_with, position_of};
use crate::language::{Encoding, Language, OpenText, Question, Reporter};
use crate::message::{Message, message_of};
use crate::method::{Notice, Topic, notice_of, topic_of};
use crate::notices::{cleared, declined, published};
use crate::outgoing::let_json_out;
use crate::params::{
    changed_text, explained_by, offers_utf8, opened_text, question_in, uri_in, version_in,
};
use crate::phase::Phase;
use crate::reply::{Refusal, answered, refused};
use flt_server_frames::MessageAnswer;
use json::{Error, Scratch, Value, to_vec};
use sqlite_items::Items;
use std::alloc::{AllocError, Global};

/// The session of a client.
#[derive(Drop)]
pub struct Session {
    pub(crate) phase: Phase,
    pub(crate) encoding: Encoding,
    /// The documents that are open, in the order in which they were opened.
    pub(crate) documents: Items<Document>,
}

/// The id of a message that has none.
const NO_ID: &[u8] = b"null";

// ---- answers

/// No answer.
fn silent(alloc: Global) -> MessageAnswer
    ensures { spec.Answers no_response None result }
{
    MessageAnswer {
        response: None,
        notifications: Vec::new(alloc),
        ends: None,
    }
}

fn responding(alloc: Global, response: Vec<u8>) -> MessageAnswer
    ensures response { option_map (λ v. v.items) result.response ≡ Some response.items }
    ensures notifications { result.notifications.items ≡ [] }
    ensures ends { result.ends ≡ None }
{
    MessageAnswer {
        response: Some(response),
        notifications: Vec::new(alloc),
        ends: None,
    }
}

/// The answer that refuses a message.
fn refusing(alloc: Global, id: &[u8], refusal: Refusal) -> Result<MessageAnswer, AllocError>
    ensures { IfOk result (spec.Answers (an_error id.now refusal) None) }
{
    let response = refused(alloc, id, refusal)?;
    Ok(responding(alloc, response))
}

/// The answer with this text as its result.
fn resulting(alloc: Global, id: &[u8], text: &[u8]) -> Result<MessageAnswer, AllocError>
    ensures { IfOk result (spec.Answers (a_result id.now) None) }
{
    let response = answered(alloc, id, text)?;
    Ok(responding(alloc, response))
}

/// The answer with what goes out of this text as its result.
fn showing(alloc: Global, id: &[u8], text: &[u8]) -> Result<MessageAnswer, AllocError>
    ensures answers { IfOk result (spec.Answers (a_shown_result id.now) None) }
    ensures text { IfOk result (λ a. (out : List ℕ) × outgoing.GoesOut text.now out
        × (option_map (λ v. v.items) a.response ≡ Some (replies.answered id.now out))) }
{
    let shown = let_json_out(alloc, text)?;
    let response = answered(alloc, id, shown.as_slice())?;
    Ok(responding(alloc, response))
}

/// The answer with the report on a document as its result.
fn reporting<R: Reporter>(
    alloc: Global,
    reporter: &R,
    id: &[u8],
    uri: &str,
    document: &Document,
) -> Result<MessageAnswer, AllocError>
    ensures answers { IfOk result (spec.Answers (a_shown_result id.now) None) }
    ensures report { IfOk result (λ a. spec.IsReported R.reports (commands.report_on id.now uri.now (Some document.now))
        (option_map (λ v. v.items) a.response)) }
{
    let report = reporter.report(alloc, uri, &document.text)?;
    showing(alloc, id, report.as_slice())
}

/// The answer that notifies of diagnostics.
fn notifying(alloc: Global, notification: Vec<u8>) -> Result<MessageAnswer, AllocError>
    requires { outgoing.IsNotice notification.items }
    ensures { IfOk result (spec.Answers no_response None) }
{
    let mut notifications = Vec::new(alloc);
    notifications.push(notification)?;
    Ok(MessageAnswer {
        response: None,
        notifications,
        ends: None,
    })
}

/// The answer that ends the server.
fn ending(alloc: Global, phase: Phase) -> MessageAnswer
    ensures { spec.Answers no_response (Some (spec.exit_status phase)) result }
{
    MessageAnswer {
        response: None,
        notifications: Vec::new(alloc),
        ends: Some(phase.exit_status()),
    }
}

/// The encoding that a client and the server share.
fn encoding_for(params: Option<&Value<'_>>) -> Encoding {
    match params {
        Some(params) if offers_utf8(params) => Encoding::Utf8,
        _ => Encoding::Utf16,
    }
}

/// The answer that notifies of the diagnostics of a document.
fn diagnosed<L: Language>(
    alloc: Global,
    language: &L,
    open: OpenText<'_>,
    version: Option<i64>,
) -> Result<MessageAnswer, AllocError>
    ensures { IfOk result (spec.Answers no_response None) }
{
    let diagnostics = language.diagnostics(alloc, open)?;
    let notice = published(alloc, open.uri, version, diagnostics.as_slice())?;
    notifying(alloc, notice)
}

/// The result of a question about a document.
fn result_about<L: Language>(
    alloc: Global,
    language: &L,
    uri: &str,
    encoding: Encoding,
    text: &KeptText,
    question: Question,
) -> Result<Vec<u8>, AllocError> {
    match text {
        KeptText::Whole(bytes) => {
            let open = OpenText {
                uri,
                text: bytes.as_slice(),
                encoding,
            };
            language.result(alloc, open, question)
        }
        KeptText::TooLong(_) => language.result_of_too_long(alloc, question),
    }
}

impl Session {
    /// The session of a client that said nothing yet.
    pub fn new(alloc: Global) -> Session
        ensures phase { result.phase ≡ Fresh }
        ensures documents { result.documents ≡ [] }
    {
        Session {
            phase: Phase::Fresh,
            encoding: Encoding::Utf16,
            documents: Items::new(alloc),
        }
    }

    // ---- documents

    /// A text of a client.
    fn text_of<'a>(&self, uri: &'a str, text: &'a str) -> OpenText<'a> {
        OpenText {
            uri,
            text: text.as_bytes(),
            encoding: self.encoding,
        }
    }

    /// Adds a document that isn't open.
    #[tactic(auto, using(crate::proofs::Keeping::one_more))]
    fn add<L: Language>(
        &mut self,
        alloc: Global,
        language: &L,
        uri: &str,
        version: Option<i64>,
        text: &str,
    ) -> Result<MessageAnswer, AllocError>
        ensures answers { IfOk result (spec.Answers no_response None) }
        ensures phase { self.new.phase ≡ self.old.phase }
        ensures documents { AreKept L.most self.old.documents → AreKept L.most self.new.documents }
        ensures kept { OnErr result (self.new ≡ self.old) }
    {
        let answer = diagnosed(alloc, language, self.text_of(uri, text), version)?;
        let document = document_with(alloc, language, uri, text)?;
        self.documents.push(document)?;
        Ok(answer)
    }

    /// Changes the document of a number.
    #[tactic(auto, using(crate::proofs::Keeping::another))]
    fn change<L: Language>(
        &mut self,
        alloc: Global,
        language: &L,
        at: usize,
        uri: &str,
        version: Option<i64>,
        text: &str,
    ) -> Result<MessageAnswer, AllocError>
        requires within { at < length self.old.documents }
        ensures answers { IfOk result (spec.Answers no_response None) }
        ensures phase { self.new.phase ≡ self.old.phase }
        ensures documents { AreKept L.most self.old.documents → AreKept L.most self.new.documents }
        ensures kept { OnErr result (self.new ≡ self.old) }
    {
        let answer = diagnosed(alloc, language, self.text_of(uri, text), version)?;
        let document = document_with(alloc, language, uri, text)?;
        self.documents.set(at, document);
        Ok(answer)
    }

    /// Opens a document that isn't open, if there is room for it.
    fn open_new<L: Language>(
        &mut self,
        alloc: Global,
        language: &L,
        uri: &str,
        version: Option<i64>,
        text: &str,
    ) -> Result<MessageAnswer, AllocError>
        ensures answers { IfOk result (spec.Answers no_response None) }
        ensures phase { self.new.phase ≡ self.old.phase }
        ensures documents { AreKept L.most self.old.documents → AreKept L.most self.new.documents }
        ensures kept { OnErr result (self.new ≡ self.old) }
    {
        if self.documents.len() < MAX_DOCUMENTS {
            return self.add(alloc, language, uri, version, text);
        }
        let notice = declined(alloc, uri)?;
        notifying(alloc, notice)
    }

    /// Opens a document, or changes it if it is open.
    fn open<L: Language>(
        &mut self,
        alloc: Global,
        language: &L,
        uri: &str,
        version: Option<i64>,
        text: &str,
    ) -> Result<MessageAnswer, AllocError>
        ensures answers { IfOk result (spec.Answers no_response None) }
        ensures phase { self.new.phase ≡ self.old.phase }
        ensures documents { AreKept L.most self.old.documents → AreKept L.most self.new.documents }
        ensures kept { OnErr result (self.new ≡ self.old) }
    {
        match position_of(self.documents.as_slice(), uri) {
            Some(at) => self.change(alloc, language, at, uri, version, text),
            None => self.open_new(alloc, language, uri, version, text),
        }
    }

    /// Changes a document if it is open.
    fn change_open<L: Language>(
        &mut self,
        alloc: Global,
        language: &L,
        uri: &str,
        version: Option<i64>,
        text: &str,
    ) -> Result<MessageAnswer, AllocError>
        ensures answers { IfOk result (spec.Answers no_response None) }
        ensures phase { self.new.phase ≡ self.old.phase }
        ensures documents { AreKept L.most self.old.documents → AreKept L.most self.new.documents }
        ensures kept { OnErr result (self.new ≡ self.old) }
    {
        match position_of(self.documents.as_slice(), uri) {
            Some(at) => self.change(alloc, language, at, uri, version, text),
            None => Ok(silent(alloc)),
        }
    }

    #[tactic(auto, using(crate::proofs::Keeping::one_less))]
    fn forget(&mut self, uri: &str)
        ensures phase { self.new.phase ≡ self.old.phase }
        ensures documents { (most : List ℕ → ℕ) → AreKept most self.old.documents → AreKept most self.new.documents }
    {
        if let Some(at) = position_of(self.documents.as_slice(), uri) {
            self.documents.remove(at);
        }
    }

    /// Closes a document.
    fn close(&mut self, alloc: Global, uri: &str) -> Result<MessageAnswer, AllocError>
        ensures answers { IfOk result (spec.Answers no_response None) }
        ensures phase { self.new.phase ≡ self.old.phase }
        ensures documents { (most : List ℕ → ℕ) → AreKept most self.old.documents → AreKept most self.new.documents }
        ensures kept { OnErr result (self.new ≡ self.old) }
    {
        let notice = cleared(alloc, uri)?;
        let answer = notifying(alloc, notice)?;
        self.forget(uri);
        Ok(answer)
    }

    // ---- notifications

    fn opened<L: Language>(
        &mut self,
        alloc: Global,
        language: &L,
        params: &Value<'_>,
    ) -> Result<MessageAnswer, AllocError>
        ensures answers { IfOk result (spec.Answers no_response None) }
        ensures phase { self.new.phase ≡ self.old.phase }
        ensures documents { AreKept L.most self.old.documents → AreKept L.most self.new.documents }
        ensures kept { OnErr result (self.new ≡ self.old) }
    {
        match (uri_in(params), opened_text(params)) {
            (Some(uri), Some(text)) => self.open(alloc, language, uri, version_in(params), text),
            _ => Ok(silent(alloc)),
        }
    }

    fn changed<L: Language>(
        &mut self,
        alloc: Global,
        language: &L,
        params: &Value<'_>,
    ) -> Result<MessageAnswer, AllocError>
        ensures answers { IfOk result (spec.Answers no_response None) }
        ensures phase { self.new.phase ≡ self.old.phase }
        ensures documents { AreKept L.most self.old.documents → AreKept L.most self.new.documents }
        ensures kept { OnErr result (self.new ≡ self.old) }
    {
        match (uri_in(params), changed_text(params)) {
            (Some(uri), Some(text)) => {
                self.change_open(alloc, language, uri, version_in(params), text)
            }
            _ => Ok(silent(alloc)),
        }
    }

    fn closed(&mut self, alloc: Global, params: &Value<'_>) -> Result<MessageAnswer, AllocError>
        ensures answers { IfOk result (spec.Answers no_response None) }
        ensures phase { self.new.phase ≡ self.old.phase }
        ensures documents { (most : List ℕ → ℕ) → AreKept most self.old.documents → AreKept most self.new.documents }
        ensures kept { OnErr result (self.new ≡ self.old) }
    {
        match uri_in(params) {
            Some(uri) => self.close(alloc, uri),
            None => Ok(silent(alloc)),
        }
    }

    fn noticed<L: Language>(
        &mut self,
        alloc: Global,
        language: &L,
        notice: Notice,
        params: &Value<'_>,
    ) -> Result<MessageAnswer, AllocError>
        ensures answers { IfOk result (spec.Answers no_response None) }
        ensures phase { self.new.phase ≡ self.old.phase }
        ensures documents { AreKept L.most self.old.documents → AreKept L.most self.new.documents }
        ensures kept { OnErr result (self.new ≡ self.old) }
    {
        match notice {
            Notice::Opened => self.opened(alloc, language, params),
            Notice::Changed => self.changed(alloc, language, params),
            Notice::Closed => self.closed(alloc, params),
        }
    }

    /// The answer to a notification in a session.
    fn told<L: Language>(
        &mut self,
        alloc: Global,
        language: &L,
        method: &str,
        params: Option<&Value<'_>>,
    ) -> Result<MessageAnswer, AllocError>
        ensures answers { IfOk result (spec.Answers no_response None) }
        ensures phase { self.new.phase ≡ self.old.phase }
        ensures documents { AreKept L.most self.old.documents → AreKept L.most self.new.documents }
        ensures kept { OnErr result (self.new ≡ self.old) }
    {
        match (notice_of(method), params) {
            (Some(notice), Some(params)) => self.noticed(alloc, language, notice, params),
            _ => Ok(silent(alloc)),
        }
    }

    fn notified<L: Language>(
        &mut self,
        alloc: Global,
        language: &L,
        method: &str,
        params: Option<&Value<'_>>,
    ) -> Result<MessageAnswer, AllocError>
        ensures answers { IfOk result (spec.Answers no_response (spec.end_of_notification self.old.phase method.now)) }
        ensures phase { self.new.phase ≡ self.old.phase }
        ensures documents { AreKept L.most self.old.documents → AreKept L.most self.new.documents }
        ensures kept { OnErr result (self.new ≡ self.old) }
    {
        if method == "exit" {
            return Ok(ending(alloc, self.phase));
        }
        match self.phase {
            Phase::Ready => self.told(alloc, language, method, params),
            Phase::Fresh | Phase::Stopped => Ok(silent(alloc)),
        }
    }

    // ---- requests

    fn initialize(
        &mut self,
        alloc: Global,
        id: &[u8],
        params: Option<&Value<'_>>,
    ) -> Result<MessageAnswer, AllocError>
        ensures answers { IfOk result (spec.Answers (a_result id.now) None) }
        ensures phase { OnOk result (self.new.phase ≡ Ready) }
        ensures documents { (most : List ℕ → ℕ) → AreKept most self.old.documents → AreKept most self.new.documents }
        ensures kept { OnErr result (self.new ≡ self.old) }
    {
        let encoding = encoding_for(params);
        let answer = resulting(alloc, id, capabilities(encoding))?;
        self.phase = Phase::Ready;
        self.encoding = encoding;
        Ok(answer)
    }

    fn shut_down(&mut self, alloc: Global, id: &[u8]) -> Result<MessageAnswer, AllocError>
        ensures answers { IfOk result (spec.Answers (a_result id.now) None) }
        ensures phase { OnOk result (self.new.phase ≡ Stopped) }
        ensures documents { (most : List ℕ → ℕ) → AreKept most self.old.documents → AreKept most self.new.documents }
        ensures kept { OnErr result (self.new ≡ self.old) }
    {
        let answer = resulting(alloc, id, b"null")?;
        self.phase = Phase::Stopped;
        Ok(answer)
    }

    /// The result of a question: null if it names no open document, or no place.
    fn result<L: Language>(
        &self,
        alloc: Global,
        language: &L,
        topic: Topic,
        params: &Value<'_>,
    ) -> Result<Vec<u8>, AllocError> {
        let Some(uri) = uri_in(params) else {
            return Vec::from_slice(alloc, b"null");
        };
        match (
            document_of(self.documents.as_slice(), uri),
            question_in(topic, params),
        ) {
            (Some(found), Some(question)) => result_about(
                alloc,
                language,
                uri,
                self.encoding,
                &found.text,
                question,
            ),
            _ => Vec::from_slice(alloc, b"null"),
        }
    }

    /// The result of a question that gives no parameters is null.
    fn result_with<L: Language>(
        &self,
        alloc: Global,
        language: &L,
        topic: Topic,
        params: Option<&Value<'_>>,
    ) -> Result<Vec<u8>, AllocError> {
        match params {
            Some(params) => self.result(alloc, language, topic, params),
            None => Vec::from_slice(alloc, b"null"),
        }
    }

    /// The answer to a question about a document, or to a method that isn't known.
    fn question<L: Language>(
        &self,
        alloc: Global,
        language: &L,
        id: &[u8],
        method: &str,
        params: Option<&Value<'_>>,
    ) -> Result<MessageAnswer, AllocError>
        ensures { IfOk result (spec.Answers (spec.of_question id.now method.now) None) }
    {
        let Some(topic) = topic_of(method) else {
            return refusing(alloc, id, Refusal::UnknownMethod);
        };
        let text = self.result_with(alloc, language, topic, params)?;
        if topic.has_words() {
            return showing(alloc, id, text.as_slice());
        }
        resulting(alloc, id, text.as_slice())
    }

    /// The answer to a command.
    fn command<R: Reporter>(
        &self,
        alloc: Global,
        reporter: &R,
        id: &[u8],
        params: Option<&Value<'_>>,
    ) -> Result<MessageAnswer, AllocError>
        ensures answers { IfOk result (spec.Answers (spec.of_report id.now (commands.report_asked self.now.documents id.now
            (option_map (λ v. value_view v.now) params.entry))) None) }
        ensures report { IfOk result (λ a. spec.IsReported R.reports (commands.report_asked self.now.documents id.now
            (option_map (λ v. value_view v.now) params.entry)) (option_map (λ v. v.items) a.response)) }
    {
        let Some(uri) = explained_by(params) else {
            return refusing(alloc, id, Refusal::BadParams);
        };
        match document_of(self.documents.as_slice(), uri) {
            Some(found) => reporting(alloc, reporter, id, uri, found),
            None => refusing(alloc, id, Refusal::BadParams),
        }
    }

    /// The answer to a request before `initialize`, or to that.
    fn first(
        &mut self,
        alloc: Global,
        id: &[u8],
        method: &str,
        params: Option<&Value<'_>>,
    ) -> Result<MessageAnswer, AllocError>
        requires fresh { self.old.phase ≡ Fresh }
        ensures answers { IfOk result (spec.Answers (spec.of_first id.now method.now) None) }
        ensures phase { OnOk result (self.new.phase ≡ spec.after_request Fresh method.now) }
        ensures documents { (most : List ℕ → ℕ) → AreKept most self.old.documents → AreKept most self.new.documents }
        ensures kept { OnErr result (self.new ≡ self.old) }
    {
        if method == "initialize" {
            self.initialize(alloc, id, params)
        } else {
            refusing(alloc, id, Refusal::NotInitialized)
        }
    }

    /// The answer to a request in a session.
    fn asked<L: Language, R: Reporter>(
        &mut self,
        alloc: Global,
        language: &L,
        reporter: &R,
        id: &[u8],
        method: &str,
        params: Option<&Value<'_>>,
    ) -> Result<MessageAnswer, AllocError>
        requires ready { self.old.phase ≡ Ready }
        ensures answers { IfOk result
            (spec.Answers (spec.of_asked self.old.documents id.now method.now (option_map (λ v. value_view v.now) params.entry)) None) }
        ensures report { IfOk result (λ a. spec.IsReported R.reports (spec.report_of_request Ready self.old.documents id.now method.now
            (option_map (λ v. value_view v.now) params.entry)) (option_map (λ v. v.items) a.response)) }
        ensures phase { OnOk result (self.new.phase ≡ spec.after_request Ready method.now) }
        ensures documents { AreKept L.most self.old.documents → AreKept L.most self.new.documents }
        ensures kept { OnErr result (self.new ≡ self.old) }
    {
        if method == "initialize" {
            return refusing(alloc, id, Refusal::NoRequest);
        }
        if method == "shutdown" {
            return self.shut_down(alloc, id);
        }
        if method == "workspace/executeCommand" {
            return self.command(alloc, reporter, id, params);
        }
        self.question(alloc, language, id, method, params)
    }

    fn requested<L: Language, R: Reporter>(
        &mut self,
        alloc: Global,
        language: &L,
        reporter: &R,
        id: &[u8],
        method: &str,
        params: Option<&Value<'_>>,
    ) -> Result<MessageAnswer, AllocError>
        ensures answers { IfOk result
            (spec.Answers (spec.of_request self.old id.now method.now (option_map (λ v. value_view v.now) params.entry)) None) }
        ensures report { IfOk result
            (λ a. spec.IsReported R.reports (spec.report_of_request self.old.phase self.old.documents id.now method.now
            (option_map (λ v. value_view v.now) params.entry)) (option_map (λ v. v.items) a.response)) }
        ensures phase { OnOk result (self.new.phase ≡ spec.after_request self.old.phase method.now) }
        ensures documents { AreKept L.most self.old.documents → AreKept L.most self.new.documents }
        ensures kept { OnErr result (self.new ≡ self.old) }
    {
        match self.phase {
            Phase::Fresh => self.first(alloc, id, method, params),
            Phase::Ready => self.asked(alloc, language, reporter, id, method, params),
            Phase::Stopped => refusing(alloc, id, Refusal::NoRequest),
        }
    }

    /// The same by the id's value.
    fn request<L: Language, R: Reporter>(
        &mut self,
        alloc: Global,
        language: &L,
        reporter: &R,
        id: &Value<'_>,
        method: &str,
        params: Option<&Value<'_>>,
    ) -> Result<MessageAnswer, AllocError>
        requires numbers { HasNumbers (value_view id.now) }
        ensures answers { IfOk result
            (spec.Answers (spec.of_request self.old (spec.id_text (value_view id.now)) method.now
            (option_map (λ v. value_view v.now) params.entry)) None) }
        ensures report { IfOk result
            (λ a. spec.IsReported R.reports
            (spec.report_of_request self.old.phase self.old.documents (spec.id_text (value_view id.now)) method.now
            (option_map (λ v. value_view v.now) params.entry)) (option_map (λ v. v.items) a.response)) }
        ensures phase { OnOk result (self.new.phase ≡ spec.after_request self.old.phase method.now) }
        ensures documents { AreKept L.most self.old.documents → AreKept L.most self.new.documents }
        ensures kept { OnErr result (self.new ≡ self.old) }
    {
        let id = to_vec(alloc, id)?;
        self.requested(alloc, language, reporter, id.as_slice(), method, params)
    }

    // ---- messages

    fn message<L: Language, R: Reporter>(
        &mut self,
        alloc: Global,
        language: &L,
        reporter: &R,
        message: Message<'_, '_>,
        params: Option<&Value<'_>>,
    ) -> Result<MessageAnswer, AllocError>
        requires numbers { messages.IsWritable message }
        ensures answers { IfOk result
            (spec.Answers (spec.of_message self.old (messages.view_of message.entry) (option_map (λ v. value_view v.now) params.entry))
            (spec.end_of_message self.old.phase (messages.view_of message.entry))) }
        ensures report { IfOk result (λ a. spec.IsReported R.reports (spec.report_of_message self.old (messages.view_of message.entry)
            (option_map (λ v. value_view v.now) params.entry)) (option_map (λ v. v.items) a.response)) }
        ensures phase { OnOk result (self.new.phase ≡ spec.after_message self.old.phase (messages.view_of message.entry)) }
        ensures documents { AreKept L.most self.old.documents → AreKept L.most self.new.documents }
        ensures kept { OnErr result (self.new ≡ self.old) }
    {
        match message {
            Message::Malformed => refusing(alloc, NO_ID, Refusal::NoRequest),
            Message::Response => Ok(silent(alloc)),
            Message::Notification(method) => self.notified(alloc, language, method, params),
            Message::Request(id, method) => self.request(
                alloc, language, reporter, id, method, params,
            ),
        }
    }

    fn value<L: Language, R: Reporter>(
        &mut self,
        alloc: Global,
        language: &L,
        reporter: &R,
        value: &Value<'_>,
    ) -> Result<MessageAnswer, AllocError>
        requires numbers { HasNumbers (value_view value.now) }
        ensures answers { IfOk result (spec.Answers (spec.of_body self.old (Some (value_view value.now)))
            (spec.end_of_body self.old.phase (Some (value_view value.now)))) }
        ensures report { IfOk result (λ a. spec.IsReported R.reports (spec.report_of_body self.old (Some (value_view value.now)))
            (option_map (λ v. v.items) a.response)) }
        ensures phase { OnOk result (self.new.phase ≡ spec.after_body self.old.phase (Some (value_view value.now))) }
        ensures documents { AreKept L.most self.old.documents → AreKept L.most self.new.documents }
        ensures kept { OnErr result (self.new ≡ self.old) }
    {
        let message = message_of(value);
        self.message(alloc, language, reporter, message, value.get("params"))
    }

    /// Answers a body.
    ///
    /// # Errors
    ///
    /// `AllocError` if a growth is refused: the session is then as it was.
    pub fn answer<L: Language, R: Reporter>(
        &mut self,
        alloc: Global,
        language: &L,
        reporter: &R,
        body: &[u8],
    ) -> Result<MessageAnswer, AllocError>
        ensures answered { IfOk result (λ a. spec.IsAnswered L.most R.reports self.old body.now (reply_of a) self.new) }
        ensures kept { OnErr result (self.new ≡ self.old) }
    {
        let mut scratch = Scratch::new(alloc);
        match Value::from_slice(alloc, body, &mut scratch) {
            Ok(value) => self.value(alloc, language, reporter, &value),
            Err(Error::Invalid) => refusing(alloc, NO_ID, Refusal::NotJson),
            Err(_) => Err(AllocError),
        }
    }
}
