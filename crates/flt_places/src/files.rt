//! The files in which the lines of a text are.

ghost use Rattle.std.specs.Prelude.{◌≡◌};
ghost use Rattle.flt_places.specs.Files as spec;

use crate::places::Lines;
use flt_tree::Position;

/// A file in which lines of a text are.
#[derive(Drop)]
pub struct SourceFile<'a> {
    /// The name under which it is reported.
    pub name: &'a str,
    /// Its bytes, and where its lines begin.
    pub lines: Lines<'a>,
}

/// Where a line of a text is.
#[derive(Clone, Copy)]
pub struct Stand {
    /// The number of the file, from 0.
    pub file: usize,
    /// The number of the line there, from 1.
    pub line: usize,
    /// How many bytes are before it in that line.
    pub before: usize,
}

/// The files of a text, and where its lines are in them. A line after the last of `stands` is as far after it in that file as in the
/// text. So an ordinary text is a file by itself, with no `stands`.
#[derive(Clone, Copy)]
pub struct Files<'a> {
    pub all: &'a [SourceFile<'a>],
    /// Of each line of the text, from the first one on.
    pub stands: &'a [Stand],
}

/// The last of some places of lines; without any, one above the first line of the first file.
fn last_stand(stands: &[Stand]) -> Stand
    ensures { result ≡ spec.last_stand stands.now }
{
    match stands {
        [.., last] => *last,
        [] => Stand {
            file: 0,
            line: 0,
            before: 0,
        },
    }
}

/// Where a line is that comes after those with these places.
fn stand_after(stands: &[Stand], line: usize) -> Stand
    ensures { result ≡ spec.stand_after stands.now line }
{
    let last = last_stand(stands);
    Stand {
        file: last.file,
        line: last.line.saturating_add(line.saturating_sub(stands.len())),
        before: 0,
    }
}

impl<'a> Files<'a> {
    /// Where a line of the text is, by its number, from 1.
    pub fn stand_at(&self, line: usize) -> Stand
        ensures { result ≡ spec.stand_at self.now line }
    {
        match self.stands.get(line.saturating_sub(1)) {
            Some(stand) => *stand,
            None => stand_after(self.stands, line),
        }
    }

    /// The number, from 0, of the file in which a line of the text is.
    pub fn file_at(&self, line: usize) -> usize
        ensures { result ≡ spec.file_at self.now line }
    {
        self.stand_at(line).file
    }

    /// The name of the file of a number; empty if there is no such file.
    pub fn file_name(&self, number: usize) -> &'a str
        ensures { result.now ≡ spec.file_name self.now number }
    {
        match self.all.get(number) {
            Some(file) => file.name,
            None => "",
        }
    }

    /// The number in its file of a line of the text.
    pub fn file_line(&self, line: usize) -> usize
        ensures { result ≡ spec.file_line self.now line }
    {
        self.stand_at(line).line
    }

    /// The place in its file of a place in the text.
    pub fn file_place(&self, place: Position) -> Position
        ensures { result ≡ spec.file_place self.now place }
    {
        let stand = self.stand_at(place.line);
        Position {
            line: stand.line,
            column: stand.before.saturating_add(place.column),
        }
    }

    /// The whole line of the file in which a line of the text is. It is empty if there is no such line.
    pub fn line_in_file(&self, line: usize) -> &'a [u8]
        ensures { result.now ≡ spec.line_in_file self.now line }
    {
        let stand = self.stand_at(line);
        match self.all.get(stand.file) {
            Some(file) => file.lines.line(stand.line),
            None => &[],
        }
    }
}
