//! Finds the probable mistake from the token where a text is refused and its surroundings.

ghost use Rattle.std.specs.Prelude.{◌≡◌, map};
ghost use Rattle.std.specs.Char.{is_ascii_digit};
ghost use Rattle.std.specs.List.{list_all};
ghost use Rattle.flt_explain_hints.specs.Hinting as spec;
ghost use Rattle.flt_explain_hints.specs.Hinting.{scene_of};

use crate::absences::{Absence, absence_of};
use crate::before::KindsBefore;
use crate::choices::Choices;
use crate::hint::Hint;
use crate::kinds::{
    begins_callback, is_context_variable, is_fallible, is_final_status, is_plain, is_variable,
    lock_of,
};
use crate::names::has_name;
use flt_rules::LockKind;
use flt_syntax::{FaultKind, Kind, same_kind};

/// The token where a text is refused, and its surroundings.
#[derive(Clone, Copy)]
pub(crate) struct Scene<'a> {
    pub(crate) before: KindsBefore,
    pub(crate) found: Kind,
    pub(crate) bytes: &'a [u8],
    /// Whether a word of the language is probably meant.
    pub(crate) is_meant: bool,
    /// Whether it is a misspelt name of a feature that the language leaves out.
    pub(crate) is_misspelt_absence: bool,
    /// Whether it is in the line of the token before it.
    pub(crate) goes_on: bool,
    /// The text after it.
    pub(crate) behind: &'a [u8],
    /// Whether the text declares a lock or a routine of this name.
    pub(crate) is_declared: bool,
}

// ---- bytes with which no token begins

/// Signs that mean the same wherever they appear.
const SIGNS: [(u8, Hint); 15] = [
    (b'*', Hint::Operator),
    (b'%', Hint::Operator),
    (b'^', Hint::Operator),
    (b'~', Hint::Operator),
    (b';', Hint::Semicolon),
    (b'(', Hint::Bracket),
    (b')', Hint::Bracket),
    (b'[', Hint::Bracket),
    (b']', Hint::Bracket),
    (b',', Hint::Bracket),
    (b'|', Hint::AndOr),
    (b'!', Hint::Not),
    (b'>', Hint::Greater),
    (b'"', Hint::Quote),
    (b'\'', Hint::Quote),
];

#[tactic(auto, unfolding(crate::specs::Hinting::signs))]
fn signs() -> &'static [(u8, Hint)]
    ensures { result.now ≡ spec.signs }
{
    &SIGNS
}

/// The meaning of a sign in a table.
fn meant_among(table: &[(u8, Hint)], byte: u8) -> Option<Hint>
    ensures { result ≡ spec.meant_among table.now byte }
{
    for entry in table {
        if entry.0 == byte {
            return Some(entry.1);
        }
    }
    None
}

fn begins_with(bytes: &[u8], first: u8) -> bool
    ensures { result ≡ spec.begins_with bytes.now first }
{
    match bytes {
        [byte, ..] => *byte == first,
        [] => false,
    }
}

/// The hint for a slash: it begins a comment of other languages, or is arithmetic.
fn slash_hint(behind: &[u8]) -> Hint
    ensures { result ≡ spec.slash_hint behind.now }
{
    if begins_with(behind, b'/') || begins_with(behind, b'*') {
        Hint::Comment
    } else {
        Hint::Operator
    }
}

/// The hint for an ampersand: it is half of an `and`, or takes the address of what follows.
fn ampersand_hint(behind: &[u8]) -> Hint
    ensures { result ≡ spec.ampersand_hint behind.now }
{
    if begins_with(behind, b'&') {
        Hint::AndOr
    } else {
        Hint::Address
    }
}

/// The hint for a point.
fn point_hint(scene: Scene<'_>, choices: &Choices<'_>) -> Hint
    ensures { result ≡ spec.point_hint (scene_of scene.entry) choices.now }
{
    if !same_kind(scene.before.last, Kind::Number) {
        Hint::Member
    } else if choices.takes(Kind::Lock) {
        Hint::AltitudeFraction
    } else {
        Hint::Fraction
    }
}

fn is_byte_order_mark(scene: Scene<'_>) -> bool
    ensures { result ≡ spec.is_byte_order_mark (scene_of scene.entry) }
{
    scene.bytes == b"\xef".as_slice() && scene.behind.starts_with(b"\xbb\xbf")
}

/// The hint for a byte that isn't ASCII.
fn foreign_hint(scene: Scene<'_>, byte: u8) -> Option<Hint>
    ensures { result ≡ spec.foreign_hint (scene_of scene.entry) byte }
{
    if is_byte_order_mark(scene) {
        Some(Hint::ByteOrderMark)
    } else if byte >= 128 {
        Some(Hint::NotAscii)
    } else {
        None
    }
}

/// The hint for a byte with which no token begins.
fn byte_hint(scene: Scene<'_>, choices: &Choices<'_>, byte: u8) -> Option<Hint>
    ensures { result ≡ spec.byte_hint (scene_of scene.entry) choices.now byte }
{
    if byte == b'/' {
        Some(slash_hint(scene.behind))
    } else if byte == b'&' {
        Some(ampersand_hint(scene.behind))
    } else if byte == b'.' {
        Some(point_hint(scene, choices))
    } else {
        meant_among(signs(), byte).or(foreign_hint(scene, byte))
    }
}

/// The hint for a token, by its first byte.
fn stray_hint(scene: Scene<'_>, choices: &Choices<'_>) -> Option<Hint>
    ensures { result ≡ spec.stray_hint (scene_of scene.entry) choices.now (scene_of scene.entry).bytes }
{
    match scene.bytes {
        [byte, ..] => byte_hint(scene, choices, *byte),
        [] => None,
    }
}

// ---- runs that are no word or number

/// Whether a run begins otherwise than a number does.
fn begins_word(run: &[u8]) -> bool
    ensures { result ≡ spec.begins_word run.now }
{
    match run {
        [first, ..] => !first.is_ascii_digit(),
        [] => false,
    }
}

fn are_digits(run: &[u8]) -> bool
    ensures { result ≡ list_all is_ascii_digit run.now }
{
    for byte in run {
        if !byte.is_ascii_digit() {
            return false;
        }
    }
    true
}

/// The hint for a run that is no word or number.
fn malformed_hint(run: &[u8]) -> Hint
    ensures { result ≡ spec.malformed_hint run.now }
{
    if run.starts_with(b"0x") || run.starts_with(b"0X") {
        Hint::Hexadecimal
    } else if begins_word(run) {
        Hint::TooLongWord
    } else if !are_digits(run) {
        Hint::LettersInNumber
    } else if begins_with(run, b'0') {
        Hint::LeadingZero
    } else {
        Hint::TooGreat
    }
}

// ---- words that the language hasn't

/// The feature that the language leaves out, if a word at a place names one.
pub(crate) fn absence_in(bytes: &[u8], choices: &Choices<'_>) -> Option<Absence>
    ensures { result ≡ spec.absence_in bytes.now choices.now }
{
    if bytes.starts_with(b"IRP_MJ_") {
        Some(Absence::Operation)
    } else if bytes.starts_with(b"STATUS_") && choices.takes(Kind::StatusSuccess) {
        Some(Absence::FinalStatus)
    } else {
        absence_of(bytes)
    }
}

/// Whether a status takes a context.
fn takes_context(kind: Kind) -> bool
    ensures { result ≡ spec.takes_context kind }
{
    matches!(kind, Kind::WithCallback | Kind::Synchronize)
}

/// The hint for a name in place of the operand of a status, after the status in its line.
fn operand_hint(scene: Scene<'_>, choices: &Choices<'_>) -> Option<Hint>
    ensures { result ≡ spec.operand_hint (scene_of scene.entry) choices.now }
{
    let last = scene.before.last;
    if scene.is_meant || !scene.goes_on {
        None
    } else if takes_context(last) && choices.takes(Kind::Context) {
        Some(Hint::NeedsContext)
    } else if same_kind(last, Kind::Complete) && choices.takes(Kind::StatusSuccess) {
        Some(Hint::NeedsFinalStatus)
    } else {
        None
    }
}

/// The hint for a word that names a feature that the language leaves out.
fn absence_hint(scene: Scene<'_>, choices: &Choices<'_>) -> Option<Hint>
    ensures { result ≡ spec.absence_hint (scene_of scene.entry) choices.now }
{
    let is_named = scene.is_misspelt_absence || absence_in(scene.bytes, choices).is_some();
    if !scene.is_meant && is_named {
        Some(Hint::LeftOut)
    } else {
        operand_hint(scene, choices)
    }
}

/// Words of C.
const LOOP_WORDS: [&[u8]; 3] = [b"while", b"for", b"do"];

const JUMP_WORDS: [&[u8]; 4] = [b"goto", b"break", b"continue", b"switch"];

const JOINING_WORDS: [&[u8]; 2] = [b"and", b"or"];

/// The hint for a word that the language hasn't.
fn name_hint(scene: Scene<'_>, choices: &Choices<'_>) -> Option<Hint>
    ensures { result ≡ spec.name_hint (scene_of scene.entry) choices.now }
{
    let word = scene.bytes;
    if has_name(LOOP_WORDS.as_slice(), word) {
        Some(Hint::Loop)
    } else if has_name(JUMP_WORDS.as_slice(), word) {
        Some(Hint::Jump)
    } else if word == b"NT_SUCCESS".as_slice() {
        Some(Hint::Success)
    } else if has_name(JOINING_WORDS.as_slice(), word) {
        Some(Hint::AndOr)
    } else if word == b"not".as_slice() {
        Some(Hint::Not)
    } else if word.starts_with(b"STATUS_") && choices.takes(Kind::NoCallback) {
        Some(Hint::FinalStatus)
    } else {
        absence_hint(scene, choices)
    }
}

// ---- tokens that the grammar doesn't have there

fn is_equality(kind: Kind) -> bool
    ensures { result ≡ spec.is_equality kind }
{
    matches!(kind, Kind::Equal | Kind::Assign)
}

fn is_sum(kind: Kind) -> bool
    ensures { result ≡ spec.is_sum kind }
{
    matches!(kind, Kind::Plus | Kind::Minus)
}

fn is_operator(kind: Kind) -> bool
    ensures { result ≡ spec.is_operator kind }
{
    is_equality(kind) || same_kind(kind, Kind::NotEqual) || is_sum(kind)
}

/// The hint for an operator.
fn operator_hint(found: Kind, choices: &Choices<'_>) -> Option<Hint>
    ensures { result ≡ spec.operator_hint found choices.now }
{
    if is_equality(found) && choices.takes(Kind::NotEqual) {
        Some(Hint::EqualsNull)
    } else if same_kind(found, Kind::Equal) && choices.takes(Kind::Assign) {
        Some(Hint::Assignment)
    } else if same_kind(found, Kind::Assign) && choices.takes(Kind::Equal) {
        Some(Hint::Comparison)
    } else if same_kind(found, Kind::NotEqual) && choices.takes(Kind::Equal) {
        Some(Hint::NotEqual)
    } else if is_sum(found) && choices.takes(Kind::Return) {
        Some(Hint::SecondOperator)
    } else {
        None
    }
}

/// Whether a variable after a status that takes a context was read as the beginning of a statement.
fn has_nameless_context(scene: Scene<'_>, choices: &Choices<'_>) -> bool
    ensures { result ≡ spec.has_nameless_context (scene_of scene.entry) choices.now }
{
    takes_context(scene.before.earlier)
        && is_context_variable(scene.before.last)
        && choices.takes(Kind::Assign)
}

/// Whether a variable that was meant to begin a statement was read as the operand of the call before it.
fn has_taken_operand(scene: Scene<'_>, choices: &Choices<'_>) -> bool
    ensures { result ≡ spec.has_taken_operand (scene_of scene.entry) choices.now }
{
    let earlier = scene.before.earlier;
    (is_plain(earlier) || same_kind(earlier, Kind::As))
        && is_variable(scene.before.last)
        && choices.takes(Kind::Return)
}

/// The hint for a context variable that lacks a word before it.
fn nameless_hint(scene: Scene<'_>, choices: &Choices<'_>) -> Option<Hint>
    ensures { result ≡ spec.nameless_hint (scene_of scene.entry) choices.now }
{
    if !is_context_variable(scene.found) {
        None
    } else if choices.takes(Kind::As) {
        Some(Hint::NamelessCopy)
    } else if choices.takes(Kind::Context) {
        Some(Hint::NamelessContext)
    } else if choices.takes(Kind::Old) {
        Some(Hint::NamelessOld)
    } else {
        None
    }
}

/// The hint for a word that belongs elsewhere in the text, or after another word.
fn place_hint(scene: Scene<'_>, choices: &Choices<'_>) -> Option<Hint>
    ensures { result ≡ spec.place_hint (scene_of scene.entry) choices.now }
{
    let is_late = choices.takes(Kind::Pre) || choices.takes(Kind::Return);
    if same_kind(scene.found, Kind::Lock) && is_late {
        Some(Hint::LateLock)
    } else if same_kind(scene.found, Kind::Queue) && is_late {
        Some(Hint::LateQueue)
    } else if same_kind(scene.before.last, Kind::Complete) && choices.takes(Kind::StatusSuccess) {
        Some(Hint::NeedsFinalStatus)
    } else {
        nameless_hint(scene, choices)
    }
}

/// The hint for a word between statements.
fn between_hint(scene: Scene<'_>, choices: &Choices<'_>) -> Option<Hint>
    ensures { result ≡ spec.between_hint (scene_of scene.entry) choices.now }
{
    let found = scene.found;
    if same_kind(found, Kind::If) && same_kind(scene.before.last, Kind::Else) {
        Some(Hint::ElseIf)
    } else if same_kind(found, Kind::Else) {
        Some(Hint::LoneElse)
    } else if (same_kind(found, Kind::End) || begins_callback(found))
        && choices.takes(Kind::CloseBrace)
    {
        Some(Hint::MissingBrace)
    } else if is_context_variable(found) && choices.takes(Kind::Null) {
        Some(Hint::Copy)
    } else if is_final_status(found) && choices.takes(Kind::NoCallback) {
        Some(Hint::FinalStatus)
    } else {
        place_hint(scene, choices)
    }
}

/// The hint for a call, or for a word between statements.
fn statement_hint(scene: Scene<'_>, choices: &Choices<'_>) -> Option<Hint>
    ensures { result ≡ spec.statement_hint (scene_of scene.entry) choices.now }
{
    if is_fallible(scene.found) && choices.takes(Kind::Return) {
        Some(Hint::CanFail)
    } else if is_plain(scene.found) && choices.takes(Kind::Draining) {
        Some(Hint::NeverFails)
    } else {
        between_hint(scene, choices)
    }
}

/// The hint that names the lock that must be declared for a call.
fn needs_lock(kind: Kind) -> Option<Hint>
    ensures { result ≡ spec.needs_lock kind }
{
    match lock_of(kind) {
        Some(LockKind::Spin) => Some(Hint::NeedsSpinLock),
        Some(LockKind::Fast) => Some(Hint::NeedsFastMutex),
        Some(LockKind::Push) => Some(Hint::NeedsPushLock),
        None => None,
    }
}

/// The hint for a token in place of a lock's name, if the filter declares no lock that the call takes: nothing is legal there.
fn lock_hint(scene: Scene<'_>, choices: &Choices<'_>) -> Option<Hint>
    ensures { result ≡ spec.lock_hint (scene_of scene.entry) choices.now }
{
    if choices.are_none() {
        needs_lock(scene.before.last)
    } else {
        None
    }
}

/// The hint for a name, an operator or another token.
fn found_hint(scene: Scene<'_>, choices: &Choices<'_>) -> Option<Hint>
    ensures { result ≡ spec.found_hint (scene_of scene.entry) choices.now }
{
    if same_kind(scene.found, Kind::Name) {
        name_hint(scene, choices)
    } else if is_operator(scene.found) {
        operator_hint(scene.found, choices)
    } else {
        statement_hint(scene, choices)
    }
}

/// The hint for a token by the tokens before it.
fn token_hint_behind(scene: Scene<'_>, choices: &Choices<'_>) -> Option<Hint>
    ensures { result ≡ spec.token_hint_behind (scene_of scene.entry) choices.now }
{
    if has_nameless_context(scene, choices) {
        Some(Hint::NamelessContext)
    } else if same_kind(scene.found, Kind::Assign) && has_taken_operand(scene, choices) {
        Some(Hint::TakenOperand)
    } else {
        found_hint(scene, choices)
    }
}

/// The hint for a token that the grammar doesn't have there.
fn token_hint(scene: Scene<'_>, choices: &Choices<'_>) -> Option<Hint>
    ensures { result ≡ spec.token_hint (scene_of scene.entry) choices.now }
{
    lock_hint(scene, choices).or(token_hint_behind(scene, choices))
}

// ---- names and limits

/// Whether a call takes the filter's queue.
fn takes_queue(kind: Kind) -> bool
    ensures { result ≡ spec.takes_queue kind }
{
    matches!(kind, Kind::InsertIo | Kind::RemoveNextIo)
}

/// The hint for a name that isn't known there.
fn unknown_hint(scene: Scene<'_>, choices: &Choices<'_>) -> Option<Hint>
    ensures { result ≡ spec.unknown_hint (scene_of scene.entry) choices.now }
{
    if takes_queue(scene.found) {
        Some(Hint::NeedsQueue)
    } else if scene.is_declared {
        Some(Hint::OtherKind)
    } else {
        lock_hint(scene, choices)
    }
}

/// The hint for a name that is declared twice.
fn twice_hint(scene: Scene<'_>) -> Hint
    ensures { result ≡ spec.twice_hint (scene_of scene.entry) }
{
    if begins_callback(scene.found) && !begins_callback(scene.before.last) {
        Hint::CallbackTwice
    } else {
        Hint::NameTwice
    }
}

fn is_lock_kind(kind: Kind) -> bool
    ensures { result ≡ spec.is_lock_kind kind }
{
    matches!(kind, Kind::Spin | Kind::Fast | Kind::Push)
}

/// The hint for a limit that is passed.
fn limit_hint(scene: Scene<'_>) -> Hint
    ensures { result ≡ spec.limit_hint (scene_of scene.entry) }
{
    let last = scene.before.last;
    let found = scene.found;
    if same_kind(last, Kind::Altitude) && same_kind(found, Kind::Number) {
        Hint::Altitude
    } else if same_kind(last, Kind::Repeat) && same_kind(found, Kind::Number) {
        Hint::Turns
    } else if is_lock_kind(last) {
        Hint::Locks
    } else if same_kind(found, Kind::OpenBrace) {
        Hint::NestedBlocks
    } else if same_kind(found, Kind::Repeat) {
        Hint::NestedRepeats
    } else {
        Hint::Callbacks
    }
}

/// The hint for a declaration that lacks another one.
fn incomplete_hint(scene: Scene<'_>) -> Hint
    ensures { result ≡ spec.incomplete_hint (scene_of scene.entry) }
{
    if same_kind(scene.found, Kind::Queue) {
        Hint::NeedsCanceled
    } else {
        Hint::NeedsPre
    }
}

/// The hint for a fault: the probable mistake, if one is known.
#[tactic(auto, unfolding(crate::specs::Hinting::hint_of))]
pub(crate) fn hint(kind: FaultKind, scene: Scene<'_>, choices: &Choices<'_>) -> Option<Hint>
    ensures { result ≡ spec.hint_of kind (scene_of scene.entry) choices.now }
{
    match kind {
        FaultKind::E01 => stray_hint(scene, choices),
        FaultKind::E02 => Some(malformed_hint(scene.bytes)),
        FaultKind::E03 => token_hint(scene, choices),
        FaultKind::E04 => unknown_hint(scene, choices),
        FaultKind::E05 => Some(twice_hint(scene)),
        FaultKind::E06 => Some(limit_hint(scene)),
        FaultKind::E07 => Some(incomplete_hint(scene)),
        FaultKind::E08 => Some(Hint::VariableTwice),
    }
}
