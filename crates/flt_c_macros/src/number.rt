//! Whole numbers of conditions.

ghost use Rattle.std.specs.Prelude.{◌≡◌, ◌<◌, ◌≤◌};
ghost use Rattle.flt_c_macros.specs.Numbers as spec;

/// The greatest number that a condition knows: 2 to the 63.
const MAX: u64 = 9_223_372_036_854_775_808;

/// The value of a digit; 16 for a byte that is none.
fn digit(b: u8) -> u64
    ensures { result ≡ spec.digit b }
{
    match b {
        b'0'..=b'9' => u64::from(b - b'0'),
        b'a'..=b'f' => u64::from(b - b'a') + 10,
        b'A'..=b'F' => u64::from(b - b'A') + 10,
        _ => 16,
    }
}

fn is_suffix(b: u8) -> bool
    ensures { result ≡ spec.is_suffix b }
{
    b == b'u' || b == b'U' || b == b'l' || b == b'L'
}

fn are_suffixes(mut text: &[u8]) -> bool
    ensures { result ≡ spec.are_suffixes text.entry.now }
{
    while let [b, rest @ ..] = text {
        if !is_suffix(*b) {
            return false;
        }
        text = rest;
    }
    true
}

fn number_from(base: u64, mut text: &[u8]) -> Option<u64>
    requires { base ≤ 16 }
    ensures { result ≡ spec.number_from base 0 text.entry.now }
{
    let mut number: u64 = 0;
    while let [b, rest @ ..] = text {
        let digit = digit(*b);
        if digit >= base {
            return if are_suffixes(text) {
                Some(number)
            } else {
                None
            };
        }
        let next = u128::from(base) * u128::from(number) + u128::from(digit);
        if next > u128::from(MAX) {
            return None;
        }
        number = next as u64;
        text = rest;
    }
    Some(number)
}

/// The digits of a number in a base; there must be one.
fn in_base(base: u64, text: &[u8]) -> Option<u64>
    requires { base ≤ 16 }
    ensures { result ≡ spec.in_base base text.now }
{
    match text {
        [b, ..] if digit(*b) < base => number_from(base, text),
        _ => None,
    }
}

fn is_x(b: u8) -> bool
    ensures { result ≡ spec.is_x b }
{
    b == b'x' || b == b'X'
}

/// The number that these bytes are after a 0.
fn after_zero(text: &[u8]) -> Option<u64>
    ensures { result ≡ spec.after_zero text.now }
{
    match text {
        [] => Some(0),
        [b, digits @ ..] if is_x(*b) => in_base(16, digits),
        _ => number_from(8, text),
    }
}

/// The whole number that a text is, if it is at most 2 to the 63.
#[tactic(auto, unfolding(crate::specs::Numbers::number))]
pub fn number(text: &[u8]) -> Option<u64>
    ensures { result ≡ spec.number text.now }
{
    match text {
        [] => None,
        [b, rest @ ..] if *b == b'0' => after_zero(rest),
        _ => in_base(10, text),
    }
}
