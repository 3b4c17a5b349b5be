//! The lines of a text, one after the other, with their numbers.

ghost use Rattle.std.specs.Prelude.{◌≡◌, ◌==◌, ◌<◌, ◌≤◌, ◌∷◌, length, take, drop, Some, Ok, IsNone, IfSome, IfOk};
ghost use Rattle.flt_cert.specs.Reading as spec;
ghost use Rattle.std.specs.List.{position_or_len};
ghost use Rattle.flt_cert.specs.Text.{lines_of};

use crate::fault::CertFault;
use crate::fixed_width::fixed_state;
use flt_abs::Abs;
use std::alloc::Global;
use std::marker::Model;

/// The rest of a text, and the number of lines taken from it.
#[derive(Drop)]
pub(crate) struct Lines<'a> {
    number: usize,
    rest: &'a [u8],
}

impl<'a> Model for Lines<'a> {
    ghost use Rattle.std.specs.Prelude.{◌+◌, ◌<◌, ◌^◌, length};
    ghost use Rattle.flt_cert.specs.Reading.{Place};
    ghost use Rattle.flt_cert.specs.Text.{lines_of};

    ghost Value = { Place };

    ghost view = { λ l. record { number = l.number; lines = lines_of l.rest.now } };

    ghost invariant = { λ l. l.number + length l.rest.now < 2 ^ 63 };
}

impl<'a> Lines<'a> {
    pub(crate) fn new(text: &'a [u8]) -> Lines<'a>
        ensures { result ≡ spec.start text.now }
    {
        Lines {
            number: 0,
            rest: text,
        }
    }

    /// The next line, with its LF if it has one.
    #[tactic(auto, unfolding(crate::specs::Reading::line))]
    pub(crate) fn next(&mut self) -> Result<&'a [u8], CertFault>
        ensures { spec.ReadsBy (λ l. l.now) (spec.line self.old) result self.new }
    {
        if self.rest.is_empty() {
            return Err(CertFault::Line(self.number + 1));
        }
        let len = line_len(self.rest);
        let (line, rest) = self.rest.split_at(len);
        self.number += 1;
        self.rest = rest;
        Ok(line)
    }

    /// The state of the point with this number, if the next line has the fixed width. Otherwise no line is taken.
    #[inline(always)]
    #[tactic(auto, using(crate::proofs::Complete::state_read))]
    pub(crate) fn state(&mut self, alloc: Global, number: usize) -> Option<Abs>
        requires { number < 1000 }
        ensures read { IfSome result (λ state. spec.point number self.old ≡ Ok (Some state, self.new)) }
        ensures left { IsNone result → self.new ≡ self.old }
    {
        let (state, rest) = fixed_state(alloc, number, self.rest)?;
        self.number += 1;
        self.rest = rest;
        Some(state)
    }

    /// The value found in the latest line, or the fault that the line is malformed.
    pub(crate) fn asked<T: Drop>(&self, what: Option<T>) -> Result<T, CertFault>
        ensures value { spec.Reads (spec.asked what self.now) result self.now }
        ensures said { IfOk result (λ x. what ≡ Some x) }
    {
        what.ok_or(self.refused())
    }

    /// The fault that the latest line is malformed.
    pub(crate) fn refused(&self) -> CertFault
        ensures { result ≡ CertFault.Line self.now.number }
    {
        CertFault::Line(self.number)
    }

    /// Checks that no line is left.
    #[tactic(auto, using(crate::proofs::LineLaws::closed_more), unfolding(crate::specs::Reading::closed))]
    pub(crate) fn end(&self) -> Result<(), CertFault>
        ensures { spec.Reads (spec.closed self.now) result self.now }
    {
        if self.rest.is_empty() {
            Ok(())
        } else {
            Err(CertFault::Line(self.number + 1))
        }
    }
}

/// The number of bytes before the first line feed, or of all if there is none, in a text of few bytes.
fn len_of_few(text: &[u8]) -> usize
    ensures value { result ≡ position_or_len (λ b. b == 10) text.now }
    ensures within { result ≤ length text.now }
{
    let mut len = 0;
    while len < text.len() && text[len] != b'\n' {
        len += 1;
    }
    len
}

/// The number of bytes before the first line feed, or of all if there is none. It looks at four at once.
fn len_before_feed(text: &[u8]) -> usize
    ensures { result ≡ position_or_len (λ b. b == 10) text.now }
{
    let mut rest = text;
    while let [a, b, c, d, after @ ..] = rest {
        let passed = text.len() - rest.len();
        if *a == b'\n' {
            return passed;
        }
        if *b == b'\n' {
            return passed + 1;
        }
        if *c == b'\n' {
            return passed + 2;
        }
        if *d == b'\n' {
            return passed + 3;
        }
        rest = after;
    }
    text.len() - rest.len() + len_of_few(rest)
}

/// The length of the first line, with its LF if it has one.
#[tactic(auto, using(crate::proofs::LineLaws::whole_line, crate::proofs::LineLaws::unended_line))]
fn line_len(text: &[u8]) -> usize
    requires { 0 < length text.now }
    ensures small { result ≤ length text.now }
    ensures some { 0 < result }
    ensures lines { lines_of text.now ≡ take result text.now ∷ lines_of (drop result text.now) }
{
    let len = len_before_feed(text);
    if len < text.len() {
        len + 1
    } else {
        text.len()
    }
}
