//! Declarators: the name that one gives, its type's last word, and its stars. A parameter of a function has one, and so has each name of
//! a `typedef`.

ghost use Rattle.std.specs.Prelude.{◌≡◌};
ghost use Rattle.flt_c_items.specs.Declarators as spec;

use crate::kind::{depth_after, opens, same_kind};
use flt_c_tokens::{Kind, Token};

/// A declarator, as far as it is read. Words are numbers of spellings, 0 for none.
#[derive(Clone, Copy)]
pub(crate) struct Declarator {
    /// How deep in brackets its end is.
    pub depth: usize,
    /// Whether no token of it was there.
    pub is_empty: bool,
    /// The last name outside of brackets, unless a star or a word of a type comes after it.
    pub last: u32,
    /// The last word of its type before that.
    pub type_word: u32,
    /// The number of stars outside of brackets.
    pub stars: usize,
    /// The last name in the brackets that were opened last outside of others, but in no further ones.
    pub inner: u32,
    /// Whether the last token closed such brackets that are round.
    pub is_behind: bool,
    /// The name in round brackets right after which others were opened, as in `(*NAME)(..)`.
    pub grouped: u32,
}

/// A declarator of which nothing is known.
pub(crate) fn no_declarator() -> Declarator
    ensures { result ≡ spec.no_declarator }
{
    Declarator {
        depth: 0,
        is_empty: true,
        last: 0,
        type_word: 0,
        stars: 0,
        inner: 0,
        is_behind: false,
        grouped: 0,
    }
}

/// A declarator after one more token in brackets.
fn inside(d: Declarator, token: Token) -> Declarator
    ensures { result ≡ spec.inside d token }
{
    let depth = depth_after(token.kind, d.depth);
    Declarator {
        depth,
        is_empty: false,
        inner: if d.depth == 1 && same_kind(token.kind, Kind::Name) {
            token.word
        } else {
            d.inner
        },
        is_behind: depth == 0 && same_kind(token.kind, Kind::CloseParen),
        ..d
    }
}

/// The word before a star or a word of a type, which is no name.
fn last_type_word(d: Declarator) -> u32
    ensures { result ≡ spec.last_type_word d }
{
    if d.last == 0 { d.type_word } else { d.last }
}

/// A declarator after a name, to whose type the name before belongs.
fn named(d: Declarator, word: u32) -> Declarator
    ensures { result ≡ spec.named d word }
{
    Declarator {
        is_empty: false,
        last: word,
        type_word: last_type_word(d),
        is_behind: false,
        ..d
    }
}

/// A declarator after a word of a type.
fn typed(d: Declarator, word: u32) -> Declarator
    ensures { result ≡ spec.typed d word }
{
    Declarator {
        is_empty: false,
        last: 0,
        type_word: word,
        is_behind: false,
        ..d
    }
}

/// A declarator after a star.
fn starred(d: Declarator) -> Declarator
    ensures { result ≡ spec.starred d }
{
    Declarator {
        is_empty: false,
        last: 0,
        type_word: last_type_word(d),
        stars: d.stars.saturating_add(1),
        is_behind: false,
        ..d
    }
}

/// A declarator after another sign or word outside of brackets.
fn passed(kind: Kind, d: Declarator) -> Declarator
    ensures { result ≡ spec.passed kind d }
{
    let is_opened = opens(kind);
    Declarator {
        depth: depth_after(kind, d.depth),
        is_empty: false,
        inner: if is_opened { 0 } else { d.inner },
        is_behind: false,
        grouped: if is_opened && d.is_behind {
            d.inner
        } else {
            d.grouped
        },
        ..d
    }
}

/// A declarator after one more token.
#[tactic(auto, unfolding(crate::specs::Declarators::declared))]
pub(crate) fn declared(d: Declarator, token: Token) -> Declarator
    ensures { result ≡ spec.declared d token }
{
    if d.depth > 0 {
        return inside(d, token);
    }
    match token.kind {
        Kind::Name => named(d, token.word),
        Kind::TypeWord => typed(d, token.word),
        Kind::Star => starred(d),
        kind => passed(kind, d),
    }
}

/// The name that a declarator gives, or 0.
pub(crate) fn name_of(d: Declarator) -> u32
    ensures { result ≡ spec.name_of d }
{
    if d.grouped == 0 { d.last } else { d.grouped }
}

/// The last word of its type, or 0.
pub(crate) fn type_of(d: Declarator) -> u32
    ensures { result ≡ spec.type_of d }
{
    if d.grouped == 0 {
        d.type_word
    } else {
        last_type_word(d)
    }
}

/// Whether the token is of the kind, and outside of brackets.
pub(crate) fn stands_outside(kind: Kind, d: Declarator, token: Token) -> bool
    ensures { result ≡ spec.stands_outside kind d token }
{
    d.depth == 0 && same_kind(token.kind, kind)
}
