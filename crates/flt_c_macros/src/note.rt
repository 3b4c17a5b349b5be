//! Notes beside the tokens.

ghost use Rattle.std.specs.Prelude.{◌≡◌};
ghost use Rattle.flt_c_macros.specs.Notes as spec;

use flt_c_tokens::Token;

/// The reason of a note.
#[derive(Clone, Copy, Debug, PartialEq, Eq)]
pub enum NoteKind {
    /// A directive that isn't as C has it. It is passed over.
    Malformed,
    /// A macro that has the name of a keyword. Its definition is passed over.
    Keyword,
    /// An `#if` whose group isn't closed at the end.
    OpenGroup,
    /// An `#elif`, `#else` or `#endif` without an `#if`.
    NoGroup,
    /// A line that includes a header without tokens, or one that would be within 64 others. It is passed over.
    Header,
    /// A use of a macro that would take too much: a body within 16 others, more than 4,096 tokens and ends of bodies for one token of text,
    /// more than `MAX_ADDED` for a file, an argument within 16 others, or more than 4,096 tokens of arguments. The name stays, and its
    /// arguments. Once fewer than 4,096 may be added to the file, one name is noted, and later ones aren't.
    Large,
    /// A use of a macro with parameters in whose body is a `#` or `##`, but for `, ## __VA_ARGS__`. The name stays, and its arguments.
    Parameters,
    /// A use of a macro with another number of arguments than it has parameters. The name stays, and the arguments.
    Arguments,
    /// A use of a macro whose brackets aren't closed before the next directive or the end. The name stays, and what follows it.
    Open,
    /// A name that was last defined or undefined in a branch that isn't decided, or a use of a macro in whose bodies there is one. The name
    /// stays.
    Undecided,
}

/// A note, and the token where it is.
#[derive(Clone, Copy)]
pub struct Note {
    pub kind: NoteKind,
    pub at: Token,
}

/// Whether two notes have the same reason.
#[tactic(auto, unfolding(crate::specs::Notes::same_reason))]
pub fn same_reason(a: NoteKind, b: NoteKind) -> bool
    ensures { result ≡ spec.same_reason a b }
{
    a == b
}

/// Whether the note before another has its reason and its place.
pub fn is_told(note: Note, before: Option<Note>) -> bool
    ensures { result ≡ spec.is_told note before }
{
    match before {
        None => false,
        Some(before) => {
            same_reason(note.kind, before.kind)
                && note.at.line == before.at.line
                && note.at.column == before.at.column
        }
    }
}
