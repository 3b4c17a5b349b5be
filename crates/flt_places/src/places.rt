//! Places in a text.

ghost use Rattle.std.specs.Prelude.{◌≡◌, ◌<◌, ◌≤◌, ◌^◌, ◌+◌, ◌-◌, ◌∷◌, ℕ, true, false, drop, get_or, length, min, nat_le, IfOk};
ghost use Rattle.std.specs.List.Sorted.{IsNonDecreasingBy, IsPartitionPoint};
ghost use Rattle.flt_places.specs.Places as spec;

use flt_tree::{Position, Span};
use sqlite_items::Items;
use std::alloc::{AllocError, Global};
use std::marker::Model;

/// The place of a part of a text: its first byte, and the number of its bytes.
#[derive(Clone, Copy)]
pub struct Site {
    pub place: Position,
    pub length: usize,
}

/// The place of some bytes: the first of them, and one column after the last.
#[derive(Clone, Copy)]
pub struct Region {
    pub first: Position,
    pub end: Position,
}

/// A text, and the bytes with which its lines begin.
#[derive(Drop)]
pub struct Lines<'a> {
    text: &'a [u8],
    /// The byte with which each line begins but the first, from 0.
    starts: Items<usize>,
}

impl<'a> Model for Lines<'a> {
    ghost use Rattle.std.specs.Prelude.{◌≡◌};
    ghost use Rattle.flt_places.specs.Places.{starts_from};
    ghost use Rattle.flt_tree.specs.Names.{Text};

    ghost Value = { Text };

    ghost view = { λ l. l.text.now };

    ghost invariant = { λ l. l.starts ≡ starts_from 0 l.text.now };
}

/// The bytes with which the lines of a text begin, except the first.
fn starts_of(alloc: Global, text: &[u8]) -> Result<Items<usize>, AllocError>
    ensures { IfOk result (λ starts. starts ≡ spec.starts_from 0 text.now) }
{
    let mut starts = Items::new(alloc);
    let mut at: usize = 0;
    for byte in text {
        at += 1;
        if *byte == b'\n' {
            starts.push(at)?;
        }
    }
    Ok(starts)
}

/// The number of these bytes, which ascend, that are at most as far as another.
fn count_until(starts: &[usize], at: usize) -> usize
    requires { IsNonDecreasingBy (λ (n : ℕ). n) starts.now }
    ensures bound { result ≤ length starts.now }
    ensures point { IsPartitionPoint (λ (n : ℕ). nat_le n at ≡ true) (λ (n : ℕ). nat_le n at ≡ false) starts.now result }
{
    starts.partition_point(|start| *start <= at)
}

/// The byte with which a line begins, from 0, given the number of lines before it. 0 if there is no such line.
#[tactic(auto, using(crate::proofs::Starts::first_or, crate::proofs::Starts::later_or))]
fn start_behind(starts: &[usize], lines: usize) -> usize
    ensures { result ≡ get_or (0 ∷ starts.now) lines 0 }
{
    match lines.checked_sub(1) {
        Some(last) => starts.get(last).copied().unwrap_or(0),
        None => 0,
    }
}

/// The place of a byte, if lines begin at these bytes, which ascend, and the first at 0.
#[tactic(auto, using(crate::proofs::Starts::by_point))]
fn counted(starts: &[usize], at: usize) -> Position
    requires at { at < 2 ^ 63 }
    requires ascending { IsNonDecreasingBy (λ (n : ℕ). n) starts.now }
    ensures place { result ≡ spec.counted 1 0 starts.now at }
    ensures within { result.column ≤ at + 1 }
{
    let lines = count_until(starts, at);
    Position {
        line: lines + 1,
        column: at.saturating_sub(start_behind(starts, lines)) + 1,
    }
}

/// The bytes before the first line feed.
fn first_line(text: &[u8]) -> &[u8]
    ensures { result.now ≡ spec.first_line text.now }
{
    let mut length: usize = 0;
    for byte in text {
        if *byte == b'\n' {
            break;
        }
        length += 1;
    }
    &text[..length]
}

impl<'a> Lines<'a> {
    /// The lines of a text.
    ///
    /// # Errors
    ///
    /// `AllocError` if a growth is refused.
    pub fn of(alloc: Global, text: &'a [u8]) -> Result<Lines<'a>, AllocError>
        ensures { IfOk result (λ lines. lines ≡ text.now) }
    {
        let starts = starts_of(alloc, text)?;
        Ok(Lines { text, starts })
    }

    /// The text itself.
    pub fn text(&self) -> &'a [u8]
        ensures { result.now ≡ self.now }
    {
        self.text
    }

    /// The place of a byte, counted from 0. It is the end of the text if there is no such byte.
    #[tactic(auto, using(crate::proofs::Starts::by_lines, crate::proofs::Starts::ascending))]
    pub fn place(&self, at: usize) -> Position
        ensures { result ≡ spec.place_in self.now at }
    {
        counted(self.starts.as_slice(), at.min(self.text.len()))
    }

    /// One column after the last of the bytes up to another.
    #[tactic(auto, using(crate::proofs::Starts::by_lines, crate::proofs::Starts::ascending))]
    fn end(&self, end: usize) -> Position
        ensures { result ≡ spec.one_column_on (spec.place_in self.now (end - 1)) }
    {
        let last = end.saturating_sub(1).min(self.text.len());
        let place = counted(self.starts.as_slice(), last);
        Position {
            line: place.line,
            column: place.column + 1,
        }
    }

    /// The place of a span: its first byte, and one column after its last.
    pub fn region(&self, span: Span) -> Region
        ensures { result ≡ spec.region_of self.now span }
    {
        Region {
            first: self.place(span.start),
            end: self.end(span.end),
        }
    }

    /// The byte at a distance after another one, but at most one after the end of the text: all further ones have the same place.
    fn behind(&self, start: usize, from: usize) -> usize
        ensures { result ≡ min (start + from) (length self.now + 1) }
    {
        start.saturating_add(from).min(self.text.len() + 1)
    }

    /// The place of a part of a span: its bytes from one up to another, counted from the span's first.
    #[tactic(auto, using(crate::proofs::Starts::part_at))]
    pub fn part(&self, span: Span, from: usize, to: usize) -> Region
        ensures { result ≡ spec.part_of self.now span from to }
    {
        Region {
            first: self.place(self.behind(span.start, from)),
            end: self.end(self.behind(span.start, to)),
        }
    }

    /// The place of a span, and its length.
    pub fn site(&self, span: Span) -> Site
        ensures { result ≡ spec.site_of self.now span }
    {
        Site {
            place: self.place(span.start),
            length: span.end.saturating_sub(span.start),
        }
    }

    /// The bytes of a span: none if they aren't there.
    pub fn bytes(&self, span: Span) -> &'a [u8]
        ensures { result.now ≡ spec.bytes_of self.now span }
    {
        if span.start <= span.end && span.end <= self.text.len() {
            &self.text[span.start..span.end]
        } else {
            &[]
        }
    }

    /// The byte with which a line begins, from 0. It is the end of the text if there is no such line.
    #[tactic(auto, using(crate::proofs::Starts::begin_of_line))]
    fn start(&self, line: usize) -> usize
        ensures within { result ≤ length self.now }
        ensures rest { spec.rest_behind (line - 1) self.now ≡ drop result self.now }
    {
        if line < 2 {
            return 0;
        }
        let start = self.starts.get(line - 2).copied();
        start.unwrap_or(self.text.len())
    }

    /// A line, from 1 (0 is taken for 1), without its line feed. It is empty if there is no such line.
    pub fn line(&self, number: usize) -> &'a [u8]
        ensures { result.now ≡ spec.line_of self.now number }
    {
        first_line(&self.text[self.start(number)..])
    }
}
