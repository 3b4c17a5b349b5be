//! Groups in brackets that are not looked at, and what declarations, labels and macros begin with.

ghost use Rattle.flt_c_syntax.specs.Cursor.{Reads};
ghost use Rattle.flt_c_syntax.specs.Groups as spec;
ghost use Rattle.flt_c_syntax.specs.Statement as reading;
ghost use Rattle.flt_c_syntax.specs.Tokens as left;
ghost use Rattle.std.specs.Prelude.{◌≡◌, ◌≤◌, ◌<◌, length, MatchOption};

use crate::class::Part;
use crate::cursor::{Tokens, front, next, same_kind};
use crate::fault::ReadError;
use crate::types::{behind, is_type_part, sees};
use flt_c_tokens::{Kind, LEAVE, Token};

#[inline(always)]
fn opens(kind: Kind) -> bool
    ensures { result ≡ spec.opens kind }
{
    matches!(kind, Kind::OpenParen | Kind::OpenBracket | Kind::OpenBrace)
}

#[inline(always)]
fn closes(kind: Kind) -> bool
    ensures { result ≡ spec.closes kind }
{
    matches!(
        kind,
        Kind::CloseParen | Kind::CloseBracket | Kind::CloseBrace
    )
}

#[inline(always)]
fn ends_groups(kind: Kind) -> bool
    ensures { result ≡ spec.ends_groups kind }
{
    matches!(
        kind,
        Kind::End
            | Kind::Stray
            | Kind::Unclosed
            | Kind::Joined
            | Kind::OpenComment
            | Kind::GroupIf
            | Kind::GroupElse
            | Kind::GroupEnd
    )
}

/// The tokens after a group that begins here.
#[tactic(auto, unfolding(crate::specs::Groups::behind_group))]
fn behind_group(tokens: &[Token]) -> Option<&[Token]>
    ensures { MatchOption result (spec.behind_group tokens.now ≡ None) (λ rest. spec.behind_group tokens.now ≡ Some rest.now) }
{
    if !opens(front(tokens).kind) {
        return None;
    }
    let mut deep: usize = 0;
    let mut rest = tokens;
    while let [first, more @ ..] = rest {
        let kind = first.kind;
        if ends_groups(kind) {
            return None;
        }
        if opens(kind) {
            deep += 1;
        } else if closes(kind) {
            if deep <= 1 {
                return Some(more);
            }
            deep -= 1;
        }
        rest = more;
    }
    None
}

/// The tokens after a semicolon outside brackets.
#[tactic(auto, unfolding(crate::specs::Groups::behind_semicolon))]
fn behind_semicolon(tokens: &[Token]) -> Option<&[Token]>
    ensures { MatchOption result (spec.behind_semicolon tokens.now ≡ None) (λ rest. spec.behind_semicolon tokens.now ≡ Some rest.now) }
{
    let mut deep: usize = 0;
    let mut rest = tokens;
    while let [first, more @ ..] = rest {
        let kind = first.kind;
        if ends_groups(kind) {
            return None;
        }
        if opens(kind) {
            deep += 1;
        } else if closes(kind) {
            if deep == 0 {
                return None;
            }
            deep -= 1;
        } else if deep == 0 && same_kind(kind, Kind::Semicolon) {
            return Some(more);
        }
        rest = more;
    }
    None
}

/// A group in brackets.
#[tactic(auto, unfolding(crate::specs::Statement::group))]
pub fn group(tokens: &mut Tokens<'_>) -> Result<(), ReadError>
    ensures { Reads (reading.group tokens.old.rest.now) result tokens.new.rest.now }
{
    match behind_group(tokens.rest) {
        None => Err(tokens.refuse()),
        Some(rest) => {
            tokens.rest = rest;
            Ok(())
        }
    }
}

/// Tokens up to a semicolon outside brackets, and it.
#[tactic(auto, unfolding(crate::specs::Statement::up_to_semicolon))]
pub fn up_to_semicolon(tokens: &mut Tokens<'_>) -> Result<(), ReadError>
    ensures { Reads (reading.up_to_semicolon tokens.old.rest.now) result tokens.new.rest.now }
{
    match behind_semicolon(tokens.rest) {
        None => Err(tokens.refuse()),
        Some(rest) => {
            tokens.rest = rest;
            Ok(())
        }
    }
}

#[inline(always)]
pub fn follows_specifier(kind: Kind) -> bool
    ensures { result ≡ spec.follows_specifier kind }
{
    matches!(
        kind,
        Kind::Name
            | Kind::TypeWord
            | Kind::Qualifier
            | Kind::Struct
            | Kind::Attribute
            | Kind::Star
            | Kind::OpenBrace
    )
}

fn follows_declared(kind: Kind) -> bool
    ensures { result ≡ spec.follows_declared kind }
{
    matches!(
        kind,
        Kind::Assign | Kind::Semicolon | Kind::Comma | Kind::OpenBracket
    )
}

/// Stars, a name, and what follows a declared name.
fn is_starred(tokens: &[Token]) -> bool
    ensures { result ≡ spec.is_starred tokens.now }
{
    if !sees(Kind::Star, tokens) {
        return false;
    }
    let rest = behind(Part::Star, tokens);
    sees(Kind::Name, rest) && follows_declared(front(next(rest)).kind)
}

/// A word of a type, two names, or a name, stars, a name and what follows a declared name.
#[tactic(auto, unfolding(crate::specs::Groups::begins_declaration))]
pub fn begins_declaration(tokens: &[Token]) -> bool
    ensures { result ≡ spec.begins_declaration tokens.now }
{
    match front(tokens).kind {
        Kind::TypeWord | Kind::Qualifier | Kind::Struct => true,
        Kind::Name => {
            let rest = next(tokens);
            is_type_part(front(rest).kind) || is_starred(rest)
        }
        _ => false,
    }
}

#[inline(always)]
pub fn begins_name_label(tokens: &[Token]) -> bool
    ensures { result ≡ spec.begins_name_label tokens.now }
{
    sees(Kind::Name, tokens) && sees(Kind::Colon, next(tokens))
}

#[inline(always)]
pub fn begins_leave(tokens: &[Token]) -> bool
    ensures { result ≡ spec.begins_leave tokens.now }
{
    sees(Kind::Name, tokens) && front(tokens).word == LEAVE && sees(Kind::Semicolon, next(tokens))
}

/// The tokens after `NAME (..)`.
fn behind_call(tokens: &[Token]) -> Option<&[Token]>
    ensures { MatchOption result (spec.behind_call tokens.now ≡ None) (λ rest. spec.behind_call tokens.now ≡ Some rest.now) }
{
    let rest = next(tokens);
    if sees(Kind::Name, tokens) && sees(Kind::OpenParen, rest) {
        behind_group(rest)
    } else {
        None
    }
}

fn begins_anew(kind: Kind) -> bool
    ensures { result ≡ spec.begins_anew kind }
{
    matches!(
        kind,
        Kind::Name
            | Kind::If
            | Kind::While
            | Kind::Do
            | Kind::For
            | Kind::Switch
            | Kind::Case
            | Kind::Default
            | Kind::Goto
            | Kind::Return
            | Kind::Break
            | Kind::Continue
            | Kind::Leave
            | Kind::Try
            | Kind::Typedef
            | Kind::TypeWord
            | Kind::Qualifier
            | Kind::Struct
            | Kind::CloseBrace
            | Kind::GroupIf
            | Kind::GroupElse
            | Kind::GroupEnd
    )
}

/// `NAME (..)` without a semicolon, before a statement on a later line.
#[tactic(auto, unfolding(crate::specs::Groups::is_macro))]
pub fn is_macro(tokens: &[Token]) -> bool
    ensures { result ≡ spec.is_macro tokens.now }
{
    match behind_call(tokens) {
        None => false,
        Some(rest) => {
            let follows = front(rest);
            begins_anew(follows.kind) && front(tokens).line < follows.line
        }
    }
}

/// `NAME (..) {`
#[tactic(auto, unfolding(crate::specs::Groups::is_macro_loop))]
fn is_macro_loop(tokens: &[Token]) -> bool
    ensures { result ≡ spec.is_macro_loop tokens.now }
{
    match behind_call(tokens) {
        None => false,
        Some(rest) => sees(Kind::OpenBrace, rest),
    }
}

/// Whether a loop of a macro is here.
pub fn begins_loop(tokens: &[Token]) -> bool
    ensures { result ≡ spec.begins_loop tokens.now }
{
    !begins_name_label(tokens)
        && !begins_leave(tokens)
        && !begins_declaration(tokens)
        && is_macro_loop(tokens)
}

#[inline(always)]
pub fn ends_list(kind: Kind) -> bool
    ensures { result ≡ spec.ends_list kind }
{
    matches!(
        kind,
        Kind::CloseBrace | Kind::GroupElse | Kind::GroupEnd | Kind::End
    )
}

/// Whether a label is here, or an attribute by itself.
pub fn begins_label(tokens: &[Token]) -> bool
    ensures { result ≡ spec.begins_label_by (left.kind tokens.now) tokens.now }
{
    match front(tokens).kind {
        Kind::Case | Kind::Default | Kind::Attribute => true,
        Kind::Name => begins_name_label(tokens),
        _ => false,
    }
}
