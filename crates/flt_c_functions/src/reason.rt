//! Why reading stops, in words.

ghost use Rattle.std.specs.Prelude.{◌≡◌};
ghost use Rattle.flt_c_functions.specs.Reasons as spec;

use flt_c_items::Reason as ItemReason;
use flt_c_syntax::Reason;

/// Why the reading of a body stops, as the reason itself is displayed.
pub(crate) fn reason_words(reason: Reason) -> &'static [u8]
    ensures { result.now ≡ spec.reason_words reason }
{
    match reason {
        Reason::Unexpected => b"another token is expected",
        Reason::TooDeep => b"brackets, blocks or statements are nested too deep",
        Reason::TooLong => b"the body has too many tokens",
        Reason::Assembler => b"assembler is not read",
        Reason::CPlusPlus => b"this word of C++ is not read",
        Reason::StatementExpression => b"a statement as an expression is not read",
        Reason::Lambda => b"a lambda is not read",
        Reason::Stray => b"this byte begins no token",
        Reason::Unclosed => b"a quote does not end in its line",
        Reason::Joined => b"a line continuation joins two tokens",
        Reason::OpenComment => b"a comment does not end",
    }
}

/// Why an item isn't read.
pub(crate) fn item_words(reason: ItemReason) -> &'static [u8]
    ensures { result.now ≡ spec.item_words reason }
{
    match reason {
        ItemReason::Unclosed => b"its brackets are not closed",
        ItemReason::Unopened => b"this brace closes nothing",
        ItemReason::Headless => b"this block has no head of a function before it",
        ItemReason::Divided => b"a line of an #if is between the name of a function and its body",
        ItemReason::Foreign => b"no declaration of C has such a word or sign",
    }
}
