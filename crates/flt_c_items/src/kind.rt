//! Kinds of token, by their effect where a file is cut.

ghost use Rattle.std.specs.Prelude.{◌≡◌, ◌≢◌, true, false};
ghost use Rattle.flt_c_items.specs.Kinds as spec;

use flt_c_tokens::Kind;

/// Whether both are one kind.
#[tactic(auto, unfolding(crate::specs::Kinds::same_kind))]
pub(crate) fn same_kind(a: Kind, b: Kind) -> bool
    ensures value { result ≡ spec.same_kind a b }
    ensures same { result ≡ true → a ≡ b }
    ensures other { result ≡ false → a ≢ b }
{
    a == b
}

/// Whether it is a line of an `#if` that isn't decided.
pub(crate) fn is_group(kind: Kind) -> bool
    ensures { result ≡ spec.is_group kind }
{
    matches!(kind, Kind::GroupIf | Kind::GroupElse | Kind::GroupEnd)
}

/// Whether it opens brackets.
pub(crate) fn opens(kind: Kind) -> bool
    ensures { result ≡ spec.opens kind }
{
    matches!(kind, Kind::OpenParen | Kind::OpenBracket | Kind::OpenBrace)
}

/// Whether it closes brackets.
pub(crate) fn closes(kind: Kind) -> bool
    ensures { result ≡ spec.closes kind }
{
    matches!(
        kind,
        Kind::CloseParen | Kind::CloseBracket | Kind::CloseBrace
    )
}

/// Whether no declaration of C has it outside of brackets.
pub(crate) fn is_foreign(kind: Kind) -> bool
    ensures { result ≡ spec.is_foreign kind }
{
    matches!(
        kind,
        Kind::Colon
            | Kind::If
            | Kind::Else
            | Kind::While
            | Kind::Do
            | Kind::For
            | Kind::Switch
            | Kind::Case
            | Kind::Default
            | Kind::Goto
            | Kind::Return
            | Kind::Break
            | Kind::Continue
            | Kind::Try
            | Kind::Finally
            | Kind::Except
            | Kind::Leave
    )
}

/// Whether a function may begin with it.
pub(crate) fn begins(kind: Kind) -> bool
    ensures { result ≡ spec.begins kind }
{
    matches!(
        kind,
        Kind::Name | Kind::TypeWord | Kind::Qualifier | Kind::Struct | Kind::Attribute
    )
}

/// Whether no function's head has it before its body.
pub(crate) fn ends_front(kind: Kind) -> bool
    ensures { result ≡ spec.ends_front kind }
{
    matches!(kind, Kind::Semicolon | Kind::OpenBrace | Kind::CloseBrace)
}

/// How deep in brackets the next token is. A bracket that closes nothing leaves it outside.
pub(crate) fn depth_after(kind: Kind, depth: usize) -> usize
    ensures { result ≡ spec.depth_after kind depth }
{
    if opens(kind) {
        depth.saturating_add(1)
    } else if closes(kind) {
        depth.saturating_sub(1)
    } else {
        depth
    }
}
