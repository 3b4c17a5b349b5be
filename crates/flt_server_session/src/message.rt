//! The messages of clients.

ghost use Rattle.std.specs.Prelude.{◌≡◌, Bool, true, false, ◌||◌, is_some, codes, Some, IfSome, option_map, option_and_then};
ghost use Rattle.json.specs.Find.{get, as_str};
ghost use Rattle.json.specs.Tree.{HasNumbers};
ghost use Rattle.json.specs.Value.{value_view};
ghost use Rattle.flt_server_session.specs.Messages as spec;

use json::Value;

/// A message of a client.
#[derive(Clone, Copy)]
pub enum Message<'v, 'a> {
    /// JSON that is no message.
    Malformed,
    /// A response: this server asks nothing.
    Response,
    /// A notification, by its method.
    Notification(&'a str),
    /// A request, by its id, a number or a text that its response repeats, and its method.
    Request(&'v Value<'a>, &'a str),
}

/// A message with this method and this member `id`, if it has one.
fn with_method<'v, 'a>(method: &'a str, id: Option<&'v Value<'a>>) -> Message<'v, 'a>
    requires numbers { IfSome id (λ v. HasNumbers (value_view v.now)) }
    ensures value { spec.view_of result ≡ spec.with_method method.now (option_map (λ v. value_view v.now) id.entry) }
    ensures numbers { spec.IsWritable result }
{
    let Some(id) = id else {
        return Message::Notification(method);
    };
    match id {
        Value::Number(_) | Value::String(_) => Message::Request(id, method),
        _ => Message::Malformed,
    }
}

/// A message without a method: a response, or none.
fn without_method<'v, 'a>(value: &'v Value<'a>) -> Message<'v, 'a>
    ensures value { spec.view_of result ≡ spec.without_method (value_view value.now) }
    ensures numbers { spec.IsWritable result }
{
    if value.get("result").is_some() || value.get("error").is_some() {
        Message::Response
    } else {
        Message::Malformed
    }
}

/// The method of a message.
fn method_of<'a>(value: &Value<'a>) -> Option<&'a str>
    ensures { option_map (λ s. s.now) result ≡ spec.method_of (value_view value.now) }
{
    match value.get("method") {
        Some(method) => method.as_str(),
        None => None,
    }
}

/// The member by which a request is answered.
fn id_of<'v, 'a>(value: &'v Value<'a>) -> Option<&'v Value<'a>>
    requires numbers { HasNumbers (value_view value.now) }
    ensures value { option_map (λ v. value_view v.now) result ≡ get (codes "id") (value_view value.now) }
    ensures numbers { IfSome result (λ v. HasNumbers (value_view v.now)) }
{
    value.get("id")
}

/// The message that a value is.
pub(crate) fn message_of<'v, 'a>(value: &'v Value<'a>) -> Message<'v, 'a>
    requires numbers { HasNumbers (value_view value.now) }
    ensures value { spec.view_of result ≡ spec.message_of (value_view value.now) }
    ensures numbers { spec.IsWritable result }
{
    match method_of(value) {
        Some(method) => with_method(method, id_of(value)),
        None => without_method(value),
    }
}
