//! The front of a chunk: its tokens outside of brackets, up to the brace that opens a body.

ghost use Rattle.std.specs.Prelude.{◌≡◌, true};
ghost use Rattle.flt_c_items.specs.Fronts as spec;

use crate::kind::{depth_after, is_foreign, is_group, same_kind};
use crate::words::Words;
use flt_c_tokens::{Kind, Token};

/// The forms of a chunk's front. Each says what a brace after it opens.
#[derive(Clone, Copy)]
pub(crate) enum Form {
    /// Nothing yet.
    Empty,
    /// Words and signs after which a brace has a structure's fields.
    Plain,
    /// A name and its parameters, and after them only names, qualifiers and attributes: a brace opens a body.
    Head,
    /// The same with a line of an `#if` between the name and the brace.
    Divided,
    /// `extern "C"`, or `namespace` and names: a brace opens a region.
    Region,
    /// An `=`, after which braces have values.
    Assigned,
    /// A word of C++ or of a statement, or `:`, which no declaration of C has there.
    Foreign,
}

/// A chunk's front, as far as it is read.
#[derive(Clone, Copy)]
pub(crate) struct Front {
    /// The number of tokens before it.
    pub from: usize,
    /// How deep in brackets its end is.
    pub depth: usize,
    pub form: Form,
    /// The last token outside of brackets. After an attribute's brackets it is the attribute.
    pub before: Token,
    /// The last name outside of brackets with `(` after it, and the number of tokens before that `(`.
    pub name: Token,
    pub bracket: usize,
}

/// A token that stands for none.
pub(crate) fn no_token() -> Token
    ensures { result ≡ spec.no_token }
{
    Token {
        kind: Kind::End,
        is_glued: false,
        word: 0,
        start: 0,
        line: 0,
        column: 0,
    }
}

/// The front of a chunk in which no token is yet.
pub(crate) fn front_from(from: usize) -> Front
    ensures { result ≡ spec.front_from from }
{
    Front {
        from,
        depth: 0,
        form: Form::Empty,
        before: no_token(),
        name: no_token(),
        bracket: 0,
    }
}

/// A form, unless the front has one that stays whatever comes.
fn unless_settled(form: Form, new: Form) -> Form
    ensures { result ≡ spec.unless_settled form new }
{
    match form {
        Form::Assigned => Form::Assigned,
        Form::Foreign => Form::Foreign,
        _ => new,
    }
}

/// The form after a word or sign that isn't in a function's head.
fn plain(form: Form) -> Form
    ensures { result ≡ spec.plain form }
{
    match form {
        Form::Divided => Form::Divided,
        _ => unless_settled(form, Form::Plain),
    }
}

/// The form after a word that may be in a function's head.
fn kept(form: Form) -> Form
    ensures { result ≡ spec.kept form }
{
    match form {
        Form::Empty => Form::Plain,
        _ => form,
    }
}

/// The form after a line of an `#if`.
fn divided(form: Form) -> Form
    ensures { result ≡ spec.divided form }
{
    match form {
        Form::Head => Form::Divided,
        _ => form,
    }
}

/// The form after `(`, by the kind of the token before.
fn opened_round(form: Form, before: Kind) -> Form
    ensures { result ≡ spec.opened_round before form }
{
    match before {
        Kind::Name => unless_settled(form, Form::Head),
        Kind::Attribute => form,
        _ => plain(form),
    }
}

/// The form after a string: `extern "C"` may open a region.
fn linked(words: &Words, form: Form, before: Token) -> Form
    ensures { result ≡ spec.linked words.now form before }
{
    if same_kind(before.kind, Kind::Qualifier) && before.word == words.linkage {
        unless_settled(form, Form::Region)
    } else {
        plain(form)
    }
}

/// The form after a word of C++.
fn of_c_plus_plus(words: &Words, form: Form, word: u32) -> Form
    ensures { result ≡ spec.of_c_plus_plus words.now form word }
{
    if word == words.namespace {
        unless_settled(form, Form::Region)
    } else {
        unless_settled(form, Form::Foreign)
    }
}

/// The form after one more token outside of brackets.
fn form_after(words: &Words, front: Front, token: Token) -> Form
    ensures { result ≡ spec.form_by token.kind words.now front.form front.before token.word }
{
    match token.kind {
        Kind::Assign => unless_settled(front.form, Form::Assigned),
        Kind::CPlusPlus => of_c_plus_plus(words, front.form, token.word),
        Kind::Text => linked(words, front.form, front.before),
        Kind::Name | Kind::Qualifier | Kind::Attribute | Kind::DoubleColon => kept(front.form),
        Kind::GroupIf | Kind::GroupElse | Kind::GroupEnd => divided(front.form),
        Kind::OpenParen => opened_round(front.form, front.before.kind),
        kind => {
            if is_foreign(kind) {
                unless_settled(front.form, Form::Foreign)
            } else {
                plain(front.form)
            }
        }
    }
}

/// A front after one more token in brackets.
fn inside(front: Front, token: Token) -> Front
    ensures { result ≡ spec.inside front token }
{
    Front {
        depth: depth_after(token.kind, front.depth),
        form: if is_group(token.kind) {
            divided(front.form)
        } else {
            front.form
        },
        ..front
    }
}

/// Whether the token opens the brackets after a token of the kind.
fn opens_after(kind: Kind, front: Front, token: Token) -> bool
    ensures { result ≡ spec.opens_after kind front token }
{
    same_kind(token.kind, Kind::OpenParen) && same_kind(front.before.kind, kind)
}

/// A front after one more token outside of brackets, before which there are `at` tokens.
fn outside(words: &Words, front: Front, at: usize, token: Token) -> Front
    ensures { result ≡ spec.outside words.now front at token }
{
    let names = opens_after(Kind::Name, front, token);
    Front {
        from: front.from,
        depth: depth_after(token.kind, front.depth),
        form: form_after(words, front, token),
        before: if opens_after(Kind::Attribute, front, token) {
            front.before
        } else {
            token
        },
        name: if names { front.before } else { front.name },
        bracket: if names { at } else { front.bracket },
    }
}

/// A front after one more token, before which there are `at` tokens.
#[tactic(auto, unfolding(crate::specs::Fronts::advanced))]
pub(crate) fn advanced(words: &Words, front: Front, at: usize, token: Token) -> Front
    ensures { result ≡ spec.advanced words.now front at token }
{
    if front.depth == 0 {
        outside(words, front, at, token)
    } else {
        inside(front, token)
    }
}
