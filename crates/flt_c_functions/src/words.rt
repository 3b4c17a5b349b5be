//! The words that say what an item is.

ghost use Rattle.std.specs.Prelude.{◌≡◌, ◌≤◌, length};
ghost use Rattle.flt_c_tokens.specs.Spelled.{max_spellings, number_of};
ghost use Rattle.flt_c_functions.specs.Sources as spec;

use flt_c_items::Words;
use flt_c_tokens::Spellings;

/// The number of a text, or one that no token has.
#[tactic(auto, using(crate::proofs::Numbers::number_absent))]
pub(crate) fn number_of(spellings: &Spellings, text: &[u8]) -> u32
    ensures { result ≡ number_of spellings.now text.now }
{
    match spellings.number_of(text) {
        Some(number) => number,
        None => spellings.len() as u32,
    }
}

/// The words that say what an item is, by the numbers that they have among these spellings.
#[tactic(auto, unfolding(crate::specs::Sources::words_of))]
pub(crate) fn words_of(spellings: &Spellings) -> Words
    ensures words { result ≡ spec.words_of spellings.now }
    ensures few { length spellings.now ≤ max_spellings }
{
    let _count = spellings.len();
    Words {
        linkage: number_of(spellings, b"extern"),
        namespace: number_of(spellings, b"namespace"),
        internal: number_of(spellings, b"static"),
        nothing: number_of(spellings, b"void"),
        no_value: number_of(spellings, b"VOID"),
        operations: number_of(spellings, b"FLT_OPERATION_REGISTRATION"),
        contexts: number_of(spellings, b"FLT_CONTEXT_REGISTRATION"),
        registration: number_of(spellings, b"FLT_REGISTRATION"),
    }
}
