//! Names of constants, which stay as they are.

ghost use Rattle.std.specs.Prelude.{◌≡◌, IfOk, Some, false, map, take};
ghost use Rattle.flt_c_functions.specs.Constants as spec;
ghost use Rattle.flt_c_functions.specs.declared.constant.Stage.TheVariants as stage;

use crate::words::number_of;
use flt_c_tokens::{Kind, Spellings, Token};
use sqlite_items::Items;
use std::alloc::{AllocError, Global};

/// How many tokens a constant may have, with the end of its line.
const MAX_BODY: usize = 16;

/// The part that a token may have in a constant.
#[derive(Clone, Copy)]
enum Role {
    Value,
    /// An operator, or a word of a type.
    Sign,
    Name,
    Open,
    Close,
    End,
    Other,
}

/// Where a token of a constant is.
#[derive(Clone, Copy)]
enum Stage {
    Plain,
    /// After an open bracket.
    Opened,
    /// After a name that follows an open bracket.
    Named,
}

/// A summary of the definitions of a name up to a place.
#[derive(Clone, Copy)]
enum Form {
    Unknown,
    Constant,
    Other,
}

fn role_of(kind: Kind) -> Role
    ensures { result ≡ spec.role_of kind }
{
    match kind {
        Kind::Number | Kind::Character => Role::Value,
        Kind::Name => Role::Name,
        Kind::OpenParen => Role::Open,
        Kind::CloseParen => Role::Close,
        Kind::LineEnd => Role::End,
        Kind::TypeWord
        | Kind::Plus
        | Kind::Minus
        | Kind::Star
        | Kind::Slash
        | Kind::Tilde
        | Kind::Bar
        | Kind::Ampersand
        | Kind::Caret
        | Kind::ShiftLeft
        | Kind::ShiftRight => Role::Sign,
        _ => Role::Other,
    }
}

/// The stage after a token, if it may be in a constant.
fn stage_behind(at: Stage, role: Role) -> Option<Stage>
    ensures { result ≡ spec.stage_behind at role }
{
    match (at, role) {
        (Stage::Named, Role::Close) => Some(Stage::Plain),
        (Stage::Named, _) => None,
        (Stage::Opened, Role::Name) => Some(Stage::Named),
        (Stage::Plain, Role::Name) => None,
        (_, Role::Open) => Some(Stage::Opened),
        (_, Role::Other) => None,
        (_, Role::End) => None,
        (_, _) => Some(Stage::Plain),
    }
}

fn is_value(role: Role) -> bool
    ensures { result ≡ spec.is_value role }
{
    matches!(role, Role::Value)
}

fn ends(role: Role) -> bool
    ensures { result ≡ spec.ends role }
{
    matches!(role, Role::End)
}

fn opens(role: Role) -> bool
    ensures { result ≡ spec.opens role }
{
    matches!(role, Role::Open)
}

fn names(role: Role) -> bool
    ensures { result ≡ spec.names role }
{
    matches!(role, Role::Name)
}

/// Whether tokens up to the end of their line are those of a constant.
fn is_plain(tokens: &[Token]) -> bool
    ensures { result ≡ spec.goes_on (Some stage.Plain) false tokens.now }
{
    let mut at = Stage::Plain;
    let mut has_value = false;
    for token in tokens {
        let role = role_of(token.kind);
        if ends(role) {
            return has_value;
        }
        let Some(next) = stage_behind(at, role) else {
            return false;
        };
        at = next;
        has_value = has_value || is_value(role);
    }
    false
}

/// Whether a macro whose name comes before these tokens has parameters.
fn has_parameters(body: &[Token]) -> bool
    ensures { result ≡ spec.has_parameters body.now }
{
    match body {
        [] => false,
        [token, ..] => token.is_glued && opens(role_of(token.kind)),
    }
}

/// The first tokens, as many as a constant may have.
fn first(body: &[Token]) -> &[Token]
    ensures { result.now ≡ take 16 body.now }
{
    if body.len() < MAX_BODY {
        body
    } else {
        &body[..MAX_BODY]
    }
}

/// Whether a macro whose name comes before these tokens is a constant.
fn is_constant(body: &[Token]) -> bool
    ensures { result ≡ spec.is_constant body.now }
{
    !has_parameters(body) && is_plain(first(body))
}

fn form_behind(form: Form, is_constant: bool) -> Form
    ensures { result ≡ spec.form_behind form is_constant }
{
    match form {
        Form::Other => Form::Other,
        _ if is_constant => Form::Constant,
        _ => Form::Other,
    }
}

/// Takes one more definition of a name into account.
fn mark(forms: &mut Vec<Form>, name: u32, is_constant: bool)
    ensures { forms.new.items ≡ spec.marked forms.old.items name is_constant }
{
    let name = name as usize;
    if name < forms.len() {
        forms[name] = form_behind(forms[name], is_constant);
    }
}

/// Takes a line after its `#` into account.
fn mark_line(forms: &mut Vec<Form>, define: u32, line: &[Token])
    ensures { forms.new.items ≡ spec.line_marked define line.now forms.old.items }
{
    match line {
        [word, name, body @ ..] if word.word == define && names(role_of(name.kind)) => {
            mark(forms, name.word, is_constant(body))
        }
        _ => {}
    }
}

fn is_directive(kind: Kind) -> bool
    ensures { result ≡ spec.is_directive kind }
{
    matches!(kind, Kind::Directive)
}

/// Takes all lines of some tokens into account.
fn mark_all(forms: &mut Vec<Form>, define: u32, tokens: &[Token])
    ensures { forms.new.items ≡ spec.all_marked define tokens.now forms.old.items }
{
    let mut rest = tokens;
    while let [token, after @ ..] = rest {
        if is_directive(token.kind) {
            mark_line(forms, define, after);
        }
        rest = after;
    }
}

/// The same of the tokens of headers.
fn mark_headers(forms: &mut Vec<Form>, define: u32, headers: &[Items<Token>])
    ensures { forms.new.items ≡ spec.headers_marked define headers.now forms.old.items }
{
    let mut rest = headers;
    while let [tokens, after @ ..] = rest {
        mark_all(forms, define, tokens.as_slice());
        rest = after;
    }
}

fn is_kept(form: Form) -> bool
    ensures { result ≡ spec.is_kept form }
{
    matches!(form, Form::Constant)
}

/// For each form whether it is that of a constant.
fn kept_by(alloc: Global, forms: &[Form]) -> Result<Vec<bool>, AllocError>
    ensures { IfOk result (λ found. found.items ≡ map spec.is_kept forms.now) }
{
    let mut found = Vec::new(alloc);
    for form in forms {
        found.push(is_kept(*form))?;
    }
    Ok(found)
}

/// For each word, by its number, whether it is a name that all its definitions in some tokens and in headers make a constant.
#[tactic(auto, unfolding(crate::specs::Constants::kept))]
pub(crate) fn kept(
    alloc: Global,
    spellings: &Spellings,
    headers: &[Items<Token>],
    tokens: &[Token],
) -> Result<Vec<bool>, AllocError>
    ensures { IfOk result (λ found. found.items ≡ spec.kept spellings.now headers.now tokens.now) }
{
    let define = number_of(spellings, b"define");
    let mut forms = Vec::new(alloc);
    forms.resize(spellings.len(), Form::Unknown)?;
    mark_all(&mut forms, define, tokens);
    mark_headers(&mut forms, define, headers);
    kept_by(alloc, forms.as_slice())
}
