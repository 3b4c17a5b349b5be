//! The fields of one line.

ghost use Rattle.std.specs.Prelude.{◌≡◌, ◌<◌, ◌≤◌, ◌+◌, ◌*◌, ◌&&◌, nat_lt, [], ◌∷◌, length};
ghost use Rattle.std.specs.Prelude.{is_some, false, Some, None, IsTrue, IsFalse, IfSome};
ghost use Rattle.std.specs.Option.{option_copied, option_map};
ghost use Rattle.std.specs.Str.{bytes_eq};
ghost use Rattle.flt_abs.specs.State.{state_of};
ghost use Rattle.flt_rules.specs.Held.{holds_lock};
ghost use Rattle.flt_cert.specs.Format.{last_line};
ghost use Rattle.flt_cert.specs.Reading as spec;
ghost use Rattle.flt_cert.specs.Text as text_spec;
ghost use Rattle.flt_cert.specs.ThinFormat.{first_thin_line};
ghost use Rattle.flt_cert.specs.ThinReading as thin_spec;

use flt_abs::{Abs, CONTEXTS, Draining, LockList, Modes, OPERATIONS, Statuses};
use flt_rules::{Access, LockNumber, MAX_LOCKS};
use std::alloc::Global;

const LAST_LINE: &[u8] = b"end\n";

const FIRST_LINE: &[u8] = b"fltcert 1\n";

const FIRST_THIN_LINE: &[u8] = b"fltcert 2\n";

const CALLBACK: &[u8] = b"callback ";

/// The rest of a text that begins with `front`.
fn after<'a>(front: &[u8], text: &'a [u8]) -> Option<&'a [u8]>
    ensures { option_copied result ≡ text_spec.after front.now text.now }
{
    match front {
        [] => Some(text),
        [a, front @ ..] => match text {
            [b, text @ ..] if b == a => after(front, text),
            _ => None,
        },
    }
}

/// The rest of a text that begins with this byte.
#[inline(always)]
fn after_byte(front: u8, text: &[u8]) -> Option<&[u8]>
    ensures { option_copied result ≡ text_spec.after (front ∷ []) text.now }
{
    match text {
        [byte, text @ ..] if *byte == front => Some(text),
        _ => None,
    }
}

/// The rest of a text that begins with a number in decimal.
#[inline(always)]
pub(crate) fn after_number(number: usize, text: &[u8]) -> Option<&[u8]>
    requires { number < 1000 }
    ensures { option_copied result ≡ text_spec.after (text_spec.decimal number) text.now }
{
    // Its digits are computed in few instructions as those of a small number.
    let number = number as u16;
    let low = b'0' + (number % 10) as u8;
    if number < 10 {
        return after_byte(low, text);
    }
    let middle = b'0' + (number / 10 % 10) as u8;
    if number < 100 {
        return after_byte(low, after_byte(middle, text)?);
    }
    let high = b'0' + (number / 100) as u8;
    after_byte(low, after_byte(middle, after_byte(high, text)?)?)
}

#[inline(always)]
fn blank(text: &[u8]) -> Option<&[u8]>
    ensures { option_copied result ≡ spec.blank text.now }
{
    after_byte(b' ', text)
}

/// Whether a digit stands for a set: from 1 to 7.
#[inline(always)]
fn is_set(digit: u8) -> bool
    ensures { result ≡ (nat_lt 48 digit && nat_lt digit 56) }
{
    b'1' <= digit && digit <= b'7'
}

/// Sets each of `sets` by its digit. Returns whether each digit is that of a set.
#[inline(always)]
pub(crate) fn fill(sets: &mut [Statuses], digits: &[u8]) -> bool
    requires { length sets.old ≡ length digits.now }
    ensures known { IsTrue result → spec.sets_from [] digits.now ≡ Some sets.new }
    ensures unknown { IsFalse result → spec.sets_from [] digits.now ≡ None }
{
    let mut known = true;
    for index in 0..sets.len() {
        let digit = digits[index];
        known &= is_set(digit);
        sets[index] = Statuses::from_low_bits(digit);
    }
    known
}

/// The first `len` bytes, and the rest.
#[inline(always)]
pub(crate) fn front_of(text: &[u8], len: usize) -> Option<(&[u8], &[u8])>
    ensures value { option_map (λ x. (x.0.now, x.1.now)) result ≡ spec.front_of len text.now }
    ensures front { IfSome result (λ x. length x.0.now ≡ len) }
{
    if text.len() < len {
        None
    } else {
        Some(text.split_at(len))
    }
}

#[inline(always)]
pub(crate) fn modes_of(digit: u8) -> Option<Modes>
    ensures { result ≡ spec.modes_of digit }
{
    match digit {
        b'1'..=b'3' => Modes::from_digit(digit - b'0'),
        _ => None,
    }
}

#[inline(always)]
pub(crate) fn draining_of(digit: u8) -> Option<Draining>
    ensures { result ≡ spec.draining_of digit }
{
    match digit {
        b'1'..=b'3' => Draining::from_digit(digit - b'0'),
        _ => None,
    }
}

/// The first byte, and the rest.
#[inline(always)]
fn byte_at(text: &[u8]) -> Option<(u8, &[u8])>
    ensures { option_map (λ x. (x.0, x.1.now)) result ≡ spec.byte_at text.now }
{
    match text {
        [byte, after @ ..] => Some((*byte, after)),
        [] => None,
    }
}

/// The lock of a digit, if it isn't among those found.
fn lock_of(found: &LockList, digit: u8) -> Option<LockNumber>
    ensures value { result ≡ spec.lock_of found.now digit }
    ensures unheld { IfSome result (λ l. holds_lock l found.now ≡ false) }
{
    let place = digit.checked_sub(b'0')?;
    let lock = LockNumber::at(place as usize)?;
    if found.contains(lock) {
        None
    } else {
        Some(lock)
    }
}

/// The access to a lock, by the letter that may follow its digit, and the rest.
#[inline(always)]
fn access_at(text: &[u8]) -> (Access, &[u8])
    ensures { (result.0, result.1.now) ≡ spec.access_at text.now }
{
    match text {
        [b's', after @ ..] => (Access::Shared, after),
        _ => (Access::Exclusive, text),
    }
}

/// The locks with one more, and the rest.
fn with_lock(mut locks: LockList, text: &[u8]) -> Option<(LockList, &[u8])>
    ensures { option_map (λ x. (x.0, x.1.now)) result ≡ spec.with_lock locks text.now }
{
    let (digit, text) = byte_at(text)?;
    let lock = lock_of(&locks, digit)?;
    let (access, text) = access_at(text);
    locks.take(lock, access);
    Some((locks, text))
}

/// The locks up to the end of the line, added to those that were found, if there are at most `left` of them.
fn locks_from(left: usize, found: LockList, text: &[u8]) -> Option<LockList>
    ensures { result ≡ spec.locks_from left found text.now }
{
    if left == 0 {
        return None;
    }
    let (locks, text) = with_lock(found, text)?;
    let (next, text) = byte_at(text)?;
    if next == b',' {
        return locks_from(left - 1, locks, text);
    }
    if next == b'\n' && text.is_empty() {
        Some(locks)
    } else {
        None
    }
}

#[inline(always)]
#[tactic(auto, unfolding(crate::specs::Reading::locks_of))]
fn locks_of(alloc: Global, text: &[u8]) -> Option<LockList>
    ensures { result ≡ spec.locks_of text.now }
{
    let none = LockList::none(alloc);
    if text == b"-\n".as_slice() {
        Some(none)
    } else {
        locks_from(MAX_LOCKS, none, text)
    }
}

#[inline(always)]
fn made(
    contexts: [Statuses; CONTEXTS],
    operations: [Statuses; OPERATIONS],
    modes: Modes,
    draining: Draining,
    locks: LockList,
) -> Option<Abs>
    ensures { result ≡ spec.made (state_of contexts operations modes draining locks) }
{
    Abs::new(contexts, operations, modes, draining, locks)
}

#[tactic(auto, unfolding(crate::specs::Reading::state_at))]
fn state_at(alloc: Global, text: &[u8]) -> Option<Abs>
    ensures { result ≡ spec.state_at text.now }
{
    let (digits, text) = front_of(text, CONTEXTS)?;
    let mut contexts = [Statuses::null(); CONTEXTS];
    if !fill(&mut contexts, digits) {
        return None;
    }
    let text = blank(text)?;
    let (digits, text) = front_of(text, OPERATIONS)?;
    let mut operations = [Statuses::null(); OPERATIONS];
    if !fill(&mut operations, digits) {
        return None;
    }
    let text = blank(text)?;
    let (digit, text) = byte_at(text)?;
    let modes = modes_of(digit)?;
    let text = blank(text)?;
    let (digit, text) = byte_at(text)?;
    let draining = draining_of(digit)?;
    let text = blank(text)?;
    let locks = locks_of(alloc, text)?;
    made(contexts, operations, modes, draining, locks)
}

/// The abstract state at a point, from its line. The inner `None` means that the point isn't reached.
#[tactic(auto, unfolding(crate::specs::Reading::point_of))]
pub(crate) fn point_of(alloc: Global, number: usize, line: &[u8]) -> Option<Option<Abs>>
    requires { number < 1000 }
    ensures { result ≡ spec.point_of number line.now }
{
    let text = blank(after_number(number, line)?)?;
    if text == b"!\n".as_slice() {
        return Some(None);
    }
    Some(Some(state_at(alloc, text)?))
}

/// The number with one more digit, and the rest, if a digit comes next.
#[inline(always)]
fn with_digit(number: usize, text: &[u8]) -> (usize, &[u8])
    requires { number < 100 }
    ensures value { (result.0, result.1.now) ≡ thin_spec.with_digit number text.now }
    ensures few { result.0 ≤ 10 * number + 9 }
{
    match text {
        [digit, after @ ..] if b'0' <= *digit && *digit <= b'9' => {
            (10 * number + (*digit - b'0') as usize, after)
        }
        _ => (number, text),
    }
}

/// The number of the first digits, three at most, or 0 if there are none.
#[inline(always)]
fn number_at(text: &[u8]) -> usize
    ensures value { result ≡ thin_spec.number_at text.now }
    ensures few { result < 1000 }
{
    let (number, text) = with_digit(0, text);
    let (number, text) = with_digit(number, text);
    let (number, _text) = with_digit(number, text);
    number
}

/// The point that a line gives, and its number, which is not below `least`, and is below `count`.
#[tactic(auto, unfolding(crate::specs::ThinReading::given_at))]
pub(crate) fn given_at(
    alloc: Global,
    least: usize,
    count: usize,
    line: &[u8],
) -> Option<(usize, Option<Abs>)>
    ensures { result ≡ thin_spec.given_at least count line.now }
{
    let number = number_at(line);
    if number < least || count <= number {
        return None;
    }
    let point = point_of(alloc, number, line)?;
    Some((number, point))
}

/// The number of points of a callback, from its line.
#[tactic(auto, unfolding(crate::specs::Reading::head_of))]
pub(crate) fn head_of(number: usize, line: &[u8]) -> Option<usize>
    requires { number < 1000 }
    ensures value { result ≡ spec.head_of number line.now }
    ensures few { IfSome result (λ n. n ≤ 512) }
{
    let text = after(CALLBACK, line)?;
    count_of(blank(after_number(number, text)?)?)
}

/// The value of a digit that may come first.
fn leading(byte: u8) -> Option<usize>
    ensures { result ≡ text_spec.leading byte }
{
    match byte {
        b'1'..=b'9' => Some((byte - b'0') as usize),
        _ => None,
    }
}

fn digit_of(byte: u8) -> Option<usize>
    ensures { result ≡ text_spec.digit_of byte }
{
    match byte {
        b'0'..=b'9' => Some((byte - b'0') as usize),
        _ => None,
    }
}

/// A number from 1 to 512, up to the end of the line.
fn count_of(text: &[u8]) -> Option<usize>
    ensures value { result ≡ text_spec.count_of text.now }
    ensures few { IfSome result (λ n. n ≤ 512) }
{
    match text {
        [a, b'\n'] => leading(*a),
        [a, b, b'\n'] => Some(10 * leading(*a)? + digit_of(*b)?),
        [a, b, c, b'\n'] => {
            let count = 100 * leading(*a)? + 10 * digit_of(*b)? + digit_of(*c)?;
            if count <= 512 { Some(count) } else { None }
        }
        _ => None,
    }
}

pub(crate) fn is_first(line: &[u8]) -> Option<()>
    ensures { result ≡ spec.is_first line.now }
{
    if line == FIRST_LINE { Some(()) } else { None }
}

pub(crate) fn is_first_thin(line: &[u8]) -> Option<()>
    ensures { result ≡ thin_spec.is_first_thin line.now }
{
    if line == FIRST_THIN_LINE {
        Some(())
    } else {
        None
    }
}

/// Whether a text begins with the first line of format 2.
pub(crate) fn begins_thin(text: &[u8]) -> bool
    ensures { result ≡ is_some (text_spec.after first_thin_line text.now) }
{
    after(FIRST_THIN_LINE, text).is_some()
}

pub(crate) fn is_end(line: &[u8]) -> bool
    ensures { result ≡ bytes_eq line.now last_line }
{
    line == LAST_LINE
}
