//! The parameters of messages.

ghost use Rattle.std.specs.Prelude.{◌≡◌, option_map, option_and_then};
ghost use Rattle.flt_server_session.specs.Commands as spec;
ghost use Rattle.json.specs.Find.{as_str, get, get_item};
ghost use Rattle.json.specs.Value.{items_view, value_view};

use crate::language::{Question, Spot};
use crate::method::Topic;
use json::Value;

/// The member of a member.
fn inner<'v, 'a>(value: &'v Value<'a>, outer: &str, name: &str) -> Option<&'v Value<'a>> {
    value.get(outer)?.get(name)
}

fn number_in(value: &Value<'_>, name: &str) -> Option<usize> {
    let number = value.get(name)?.as_u64()?;
    Some(number as usize)
}

fn spot_of(value: &Value<'_>) -> Option<Spot> {
    let line = number_in(value, "line")?;
    let character = number_in(value, "character")?;
    Some(Spot { line, character })
}

/// The document that a message is about.
pub(crate) fn uri_in<'a>(params: &Value<'a>) -> Option<&'a str> {
    inner(params, "textDocument", "uri")?.as_str()
}

/// The version of the document that a message is about.
pub(crate) fn version_in(params: &Value<'_>) -> Option<i64> {
    inner(params, "textDocument", "version")?.as_i64()
}

/// The text of a document that is opened.
pub(crate) fn opened_text<'a>(params: &Value<'a>) -> Option<&'a str> {
    inner(params, "textDocument", "text")?.as_str()
}

/// The whole text that a change gives; none if it changes a part alone, which this server doesn't ask for.
fn whole_text<'a>(change: &Value<'a>) -> Option<&'a str> {
    if change.get("range").is_some() {
        return None;
    }
    change.get("text")?.as_str()
}

/// The last whole text among some changes.
fn last_text<'a>(changes: &[Value<'a>]) -> Option<&'a str> {
    let mut found = None;
    for change in changes {
        if let Some(text) = whole_text(change) {
            found = Some(text);
        }
    }
    found
}

/// The text of a document that is changed.
pub(crate) fn changed_text<'a>(params: &Value<'a>) -> Option<&'a str> {
    match params.get("contentChanges")? {
        Value::Array(changes) => last_text(changes.as_slice()),
        _ => None,
    }
}

/// The place that a request is about.
fn place_in(params: &Value<'_>) -> Option<Spot> {
    spot_of(params.get("position")?)
}

/// A place of the range that a request is about.
fn end_in(params: &Value<'_>, name: &str) -> Option<Spot> {
    spot_of(inner(params, "range", name)?)
}

/// Whether a client wants the declaration among the references, as it does unless it says otherwise.
fn wants_declaration(params: &Value<'_>) -> bool {
    match inner(params, "context", "includeDeclaration") {
        Some(asked) => asked.as_bool().unwrap_or(true),
        None => true,
    }
}

/// The question of a topic about a place.
fn at_place(topic: Topic, params: &Value<'_>, spot: Spot) -> Question {
    match topic {
        Topic::Hover => Question::Hover(spot),
        Topic::Completion => Question::Completion(spot),
        Topic::References => Question::References(spot, wants_declaration(params)),
        _ => Question::Definition(spot),
    }
}

/// The question of a topic; none if it needs a place that isn't given.
pub(crate) fn question_in(topic: Topic, params: &Value<'_>) -> Option<Question> {
    match topic {
        Topic::Symbols => Some(Question::Symbols),
        Topic::Folds => Some(Question::Folds),
        Topic::Actions => {
            let start = end_in(params, "start")?;
            let end = end_in(params, "end")?;
            Some(Question::Actions(start, end))
        }
        _ => {
            let spot = place_in(params)?;
            Some(at_place(topic, params, spot))
        }
    }
}

fn is_text(value: &Value<'_>, text: &str) -> bool {
    match value.as_str() {
        Some(own) => own == text,
        None => false,
    }
}

fn has_text(values: &[Value<'_>], text: &str) -> bool {
    for value in values {
        if is_text(value, text) {
            return true;
        }
    }
    false
}

fn encodings<'v, 'a>(params: &'v Value<'a>) -> Option<&'v Value<'a>> {
    inner(params.get("capabilities")?, "general", "positionEncodings")
}

/// Whether a client offers to count columns in bytes of UTF-8.
pub(crate) fn offers_utf8(params: &Value<'_>) -> bool {
    match encodings(params) {
        Some(Value::Array(offered)) => has_text(offered.as_slice(), "utf-8"),
        _ => false,
    }
}

// ---- commands

/// The text of a member.
fn text_in<'a>(value: &Value<'a>, name: &str) -> Option<&'a str>
    ensures { option_map (λ s. s.now) result ≡ option_and_then as_str (get name.now (value_view value.now)) }
{
    match value.get(name) {
        Some(member) => member.as_str(),
        None => None,
    }
}

/// The first of some values, if it is a text.
fn first_text<'a>(values: &[Value<'a>]) -> Option<&'a str>
    ensures { option_map (λ s. s.now) result ≡ option_and_then as_str (get_item 0 (items_view values.now)) }
{
    match values {
        [first, ..] => first.as_str(),
        [] => None,
    }
}

/// The first argument of a command, if it is a text.
fn argument_in<'a>(params: &Value<'a>) -> Option<&'a str>
    ensures { option_map (λ s. s.now) result ≡ spec.argument_of (value_view params.now) }
{
    match params.get("arguments") {
        Some(Value::Array(arguments)) => first_text(arguments.as_slice()),
        _ => None,
    }
}

/// The document on which a command asks for a report; none if it is another command, or names none.
fn explained_in<'a>(params: &Value<'a>) -> Option<&'a str>
    ensures { option_map (λ s. s.now) result ≡ spec.explained_in (value_view params.now) }
{
    match text_in(params, "command") {
        Some("fltstack.explain") => argument_in(params),
        _ => None,
    }
}

/// The same of parameters that may be missing.
pub(crate) fn explained_by<'a>(params: Option<&Value<'a>>) -> Option<&'a str>
    ensures { option_map (λ s. s.now) result ≡ option_and_then spec.explained_in (option_map (λ v. value_view v.now) params.entry) }
{
    match params {
        Some(params) => explained_in(params),
        None => None,
    }
}
