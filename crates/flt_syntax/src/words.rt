//! The words of the language by their first byte, so that a word of a text is compared with few of them.

ghost use Rattle.std.specs.Prelude.{◌≡◌, ◌∷◌, map, IfSome};
ghost use Rattle.flt_tree.specs.Names.{Text};
ghost use Rattle.flt_syntax.specs.Lex.{lookup, IsVariable};
ghost use Rattle.flt_syntax.specs.Vocabulary.{vocabulary};

use crate::token::Kind;
use crate::vocabulary as word;
use crate::vocabulary::keywords;

const LOWER_F: [(&[u8], Kind); 3] = [word::FILTER, word::FAST, word::FILE];

const LOWER_A: [(&[u8], Kind); 3] = [word::ALTITUDE, word::AS, word::ARG];

const LOWER_L: [(&[u8], Kind); 1] = [word::LOCK];

const LOWER_S: [(&[u8], Kind); 1] = [word::SPIN];

const LOWER_P: [(&[u8], Kind); 3] = [word::PUSH, word::PRE, word::POST];

const LOWER_Q: [(&[u8], Kind); 1] = [word::QUEUE];

const LOWER_C: [(&[u8], Kind); 12] = [
    word::CANCELED,
    word::CREATE,
    word::CLEANUP,
    word::CONTEXT,
    word::C0,
    word::C1,
    word::C2,
    word::C3,
    word::C4,
    word::C5,
    word::C6,
    word::C7,
];

const LOWER_D: [(&[u8], Kind); 4] = [
    word::DEFERRED_PRE,
    word::DEFERRED_POST,
    word::DATA,
    word::DRAINING,
];

const LOWER_G: [(&[u8], Kind); 1] = [word::GENERIC];

const LOWER_R: [(&[u8], Kind); 3] = [word::READ, word::REPEAT, word::RETURN];

const LOWER_W: [(&[u8], Kind); 1] = [word::WRITE];

const LOWER_V: [(&[u8], Kind); 1] = [word::VALUE];

const UPPER_N: [(&[u8], Kind); 2] = [word::NULL, word::NO_CALLBACK];

const LOWER_I: [(&[u8], Kind); 2] = [word::IF, word::IRP];

const LOWER_E: [(&[u8], Kind); 1] = [word::ELSE];

const UPPER_W: [(&[u8], Kind); 1] = [word::WITH_CALLBACK];

const UPPER_S: [(&[u8], Kind); 7] = [
    word::SYNCHRONIZE,
    word::STATUS_SUCCESS,
    word::STATUS_ACCESS_DENIED,
    word::STATUS_CANCELLED,
    word::STATUS_INSUFFICIENT_RESOURCES,
    word::STATUS_INVALID_PARAMETER,
    word::STATUS_PENDING,
];

const UPPER_P: [(&[u8], Kind); 1] = [word::PENDING];

const UPPER_D: [(&[u8], Kind); 1] = [word::DISALLOW_FAST_IO];

const UPPER_C: [(&[u8], Kind); 1] = [word::COMPLETE];

const UPPER_F: [(&[u8], Kind); 20] = [
    word::FINISHED_PROCESSING,
    word::ALLOCATE_CONTEXT,
    word::GET_STREAM_CONTEXT,
    word::GET_INSTANCE_CONTEXT,
    word::SET_STREAM_CONTEXT,
    word::SET_INSTANCE_CONTEXT,
    word::DELETE_STREAM_CONTEXT,
    word::DELETE_INSTANCE_CONTEXT,
    word::INSERT_IO,
    word::REMOVE_NEXT_IO,
    word::QUEUE_DEFERRED_IO_WORK_ITEM,
    word::QUEUE_GENERIC_WORK_ITEM,
    word::DELETE_CONTEXT,
    word::REFERENCE_CONTEXT,
    word::RELEASE_CONTEXT,
    word::ACQUIRE_PUSH_LOCK,
    word::ACQUIRE_PUSH_LOCK_SHARED,
    word::RELEASE_PUSH_LOCK,
    word::COMPLETE_PENDED_PRE_OPERATION,
    word::COMPLETE_PENDED_POST_OPERATION,
];

const UPPER_M: [(&[u8], Kind); 1] = [word::MORE_PROCESSING_REQUIRED];

const UPPER_K: [(&[u8], Kind); 3] = [
    word::KEEP_IF_EXISTS,
    word::ACQUIRE_SPIN_LOCK,
    word::RELEASE_SPIN_LOCK,
];

const UPPER_R: [(&[u8], Kind); 1] = [word::REPLACE_IF_EXISTS];

const LOWER_O: [(&[u8], Kind); 5] = [word::OLD, word::O0, word::O1, word::O2, word::O3];

const UPPER_E: [(&[u8], Kind); 2] = [word::ACQUIRE_FAST_MUTEX, word::RELEASE_FAST_MUTEX];

const LOWER_N: [(&[u8], Kind); 8] = [
    word::N0,
    word::N1,
    word::N2,
    word::N3,
    word::N4,
    word::N5,
    word::N6,
    word::N7,
];

const CALLS_A: [(&[u8], Kind); 3] = [
    word::ALLOCATE_CONTEXT,
    word::ACQUIRE_PUSH_LOCK,
    word::ACQUIRE_PUSH_LOCK_SHARED,
];

const CALLS_G: [(&[u8], Kind); 2] = [word::GET_STREAM_CONTEXT, word::GET_INSTANCE_CONTEXT];

const CALLS_R: [(&[u8], Kind); 3] = [
    word::REFERENCE_CONTEXT,
    word::RELEASE_CONTEXT,
    word::RELEASE_PUSH_LOCK,
];

/// The words that begin with `Flt` and a letter, in the order of `keywords`. All that begin with `F` if few calls or none have that letter.
#[inline(always)]
fn calls_from(letter: u8) -> &'static [(&'static [u8], Kind)]
    ensures { (rest : Text) → lookup (map (λ e. (e.0.now, e.1)) result.now) (70 ∷ 108 ∷ 116 ∷ letter ∷ rest)
        ≡ lookup vocabulary (70 ∷ 108 ∷ 116 ∷ letter ∷ rest) }
{
    match letter {
        b'A' => &CALLS_A,
        b'G' => &CALLS_G,
        b'R' => &CALLS_R,
        _ => &UPPER_F,
    }
}

/// The words that begin with a byte, in the order of `keywords`. All of them if none begins with it.
#[inline(always)]
fn words_beginning(first: u8) -> &'static [(&'static [u8], Kind)]
    ensures { (rest : Text) → lookup (map (λ e. (e.0.now, e.1)) result.now) (first ∷ rest) ≡ lookup vocabulary (first ∷ rest) }
{
    match first {
        b'f' => &LOWER_F,
        b'a' => &LOWER_A,
        b'l' => &LOWER_L,
        b's' => &LOWER_S,
        b'p' => &LOWER_P,
        b'q' => &LOWER_Q,
        b'c' => &LOWER_C,
        b'd' => &LOWER_D,
        b'g' => &LOWER_G,
        b'r' => &LOWER_R,
        b'w' => &LOWER_W,
        b'v' => &LOWER_V,
        b'N' => &UPPER_N,
        b'i' => &LOWER_I,
        b'e' => &LOWER_E,
        b'W' => &UPPER_W,
        b'S' => &UPPER_S,
        b'P' => &UPPER_P,
        b'D' => &UPPER_D,
        b'C' => &UPPER_C,
        b'F' => &UPPER_F,
        b'M' => &UPPER_M,
        b'K' => &UPPER_K,
        b'R' => &UPPER_R,
        b'o' => &LOWER_O,
        b'E' => &UPPER_E,
        b'n' => &LOWER_N,
        _ => keywords(),
    }
}

/// Words among which a name is, if it is a word: few of those of `keywords`, in the same order.
#[inline(always)]
pub(crate) fn words_like(name: &[u8]) -> &'static [(&'static [u8], Kind)]
    ensures { lookup (map (λ e. (e.0.now, e.1)) result.now) name.now ≡ lookup vocabulary name.now }
{
    match name {
        [b'F', b'l', b't', letter, ..] => calls_from(*letter),
        [first, ..] => words_beginning(*first),
        [] => &LOWER_L,
    }
}

/// The variable of contexts with a digit.
#[inline(always)]
fn context(digit: u8) -> Option<Kind>
    ensures { IfSome result (IsVariable 99 digit) }
{
    match digit {
        b'0' => Some(Kind::C0),
        b'1' => Some(Kind::C1),
        b'2' => Some(Kind::C2),
        b'3' => Some(Kind::C3),
        b'4' => Some(Kind::C4),
        b'5' => Some(Kind::C5),
        b'6' => Some(Kind::C6),
        b'7' => Some(Kind::C7),
        _ => None,
    }
}

/// The variable of numbers with a digit.
#[inline(always)]
fn number(digit: u8) -> Option<Kind>
    ensures { IfSome result (IsVariable 110 digit) }
{
    match digit {
        b'0' => Some(Kind::N0),
        b'1' => Some(Kind::N1),
        b'2' => Some(Kind::N2),
        b'3' => Some(Kind::N3),
        b'4' => Some(Kind::N4),
        b'5' => Some(Kind::N5),
        b'6' => Some(Kind::N6),
        b'7' => Some(Kind::N7),
        _ => None,
    }
}

/// The variable of removed operations with a digit.
#[inline(always)]
fn operation(digit: u8) -> Option<Kind>
    ensures { IfSome result (IsVariable 111 digit) }
{
    match digit {
        b'0' => Some(Kind::O0),
        b'1' => Some(Kind::O1),
        b'2' => Some(Kind::O2),
        b'3' => Some(Kind::O3),
        _ => None,
    }
}

/// The variable that two bytes spell, if they spell one.
#[inline(always)]
pub(crate) fn variable(letter: u8, digit: u8) -> Option<Kind>
    ensures { IfSome result (IsVariable letter digit) }
{
    match letter {
        b'c' => context(digit),
        b'n' => number(digit),
        b'o' => operation(digit),
        _ => None,
    }
}
