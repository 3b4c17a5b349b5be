//! Runs of letters with which nothing begins or ends: letters of a word, and letters of no word.

ghost use Rattle.std.specs.Prelude.{◌≡◌, ◌≤◌, ◌++◌, drop, length, map, take, OnOk};
ghost use Rattle.flt_c_drift.specs.Runs as spec;

use crate::part::{is_blank, is_word_byte, same_part};
use flt_c::{Letter, Part};
use std::alloc::AllocError;

/// A kind of run.
#[derive(Clone, Copy)]
pub(crate) enum Run {
    /// No letters.
    No,
    /// Letters of no word.
    Idle,
    /// Letters of a word of this part.
    Word(Part),
}

/// Whether a letter belongs to no word, and nothing begins or ends with it.
fn is_idle(part: Part, b: u8) -> bool
    ensures { result ≡ spec.is_idle_in part b }
{
    match part {
        Part::Other => b != b'\n',
        Part::Code => is_blank(b) && b != b'\n',
        _ => false,
    }
}

/// The number of idle letters with which some letters begin.
fn idle_count(letters: &[Letter]) -> usize
    ensures value { result ≡ spec.run_count Run.Idle letters.now }
    ensures within { result ≤ length letters.now }
{
    let mut n: usize = 0;
    for letter in letters {
        if !is_idle(letter.part, letter.byte) {
            break;
        }
        n += 1;
    }
    n
}

/// The number of letters of a word.
fn word_count(part: Part, letters: &[Letter]) -> usize
    ensures value { result ≡ spec.run_count (Run.Word part) letters.now }
    ensures within { result ≤ length letters.now }
{
    let mut n: usize = 0;
    for letter in letters {
        if !(same_part(part, letter.part) && is_word_byte(letter.byte)) {
            break;
        }
        n += 1;
    }
    n
}

/// The number of letters of a run.
pub(crate) fn run_count(run: Run, letters: &[Letter]) -> usize
    ensures value { result ≡ spec.run_count run letters.now }
    ensures within { result ≤ length letters.now }
{
    match run {
        Run::No => 0,
        Run::Idle => idle_count(letters),
        Run::Word(part) => word_count(part, letters),
    }
}

/// Adds the bytes of letters.
pub(crate) fn put_bytes(out: &mut Vec<u8>, letters: &[Letter]) -> Result<(), AllocError>
    ensures { OnOk result (out.new.items ≡ out.old.items ++ map (λ letter. letter.byte) letters.now) }
{
    for letter in letters {
        out.push(letter.byte)?;
    }
    Ok(())
}

/// The letters from one on.
pub(crate) fn after(letters: &[Letter], start: usize) -> &[Letter]
    requires { start ≤ length letters.now }
    ensures { result.now ≡ drop start letters.now }
{
    &letters[start..]
}

/// The first letters.
pub(crate) fn before(letters: &[Letter], count: usize) -> &[Letter]
    requires { count ≤ length letters.now }
    ensures { result.now ≡ take count letters.now }
{
    &letters[..count]
}
