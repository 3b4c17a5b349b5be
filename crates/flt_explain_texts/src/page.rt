//! The page on which words are written.

ghost use Rattle.std.specs.Prelude.{◌≡◌, ◌++◌, ◌∷◌, [], flat_map, option_copied, replicate, IfOk, OnOk};
ghost use Rattle.std.specs.Fmt.{decimal};
ghost use Rattle.flt_explain_texts.specs.Page as spec;

use flt_places::Files;
use flt_shown::put_shown;
use itoa::Buffer;
use std::alloc::{AllocError, Global};

/// A part of a sentence.
#[derive(Clone, Copy)]
pub enum Part<'a> {
    /// Words of the program.
    Text(&'a str),
    /// Words of a text, between marks.
    Quoted(&'a [u8]),
    /// A word of the language, between marks.
    Word(&'a str),
    /// A finding's subject, with its marks.
    Marked((&'a [u8], &'a [u8])),
    Number(usize),
    /// A line of a text by its number in its file, after the file's name if that isn't the file of this number.
    Line(Files<'a>, usize, usize),
    Value(u64),
}

/// The output so far.
#[derive(Drop)]
pub struct Page {
    pub out: Vec<u8>,
}

impl Page {
    pub fn new(alloc: Global) -> Page
        ensures { result.out.items ≡ [] }
    {
        Page {
            out: Vec::new(alloc),
        }
    }

    /// Writes bytes as they are.
    pub fn bytes(&mut self, bytes: &[u8]) -> Result<(), AllocError>
        ensures { spec.Writes result self.old self.new bytes.now }
    {
        self.out.extend_from_slice(bytes)
    }

    /// Writes words of the program, one after the other.
    pub fn texts(&mut self, texts: &[&str]) -> Result<(), AllocError>
        ensures { spec.Writes result self.old self.new (spec.joined texts.now) }
    {
        for text in texts {
            self.bytes(text.as_bytes())?;
        }
        Ok(())
    }

    /// Writes words of the program with a number after each; after the last none, if there is one number less.
    pub fn numbers(&mut self, texts: &[&str], numbers: &[usize]) -> Result<(), AllocError>
        ensures { spec.Writes result self.old self.new (spec.numbered texts.now numbers.now) }
    {
        let mut at: usize = 0;
        for text in texts {
            self.bytes(text.as_bytes())?;
            self.number(numbers.get(at))?;
            at = at.saturating_add(1);
        }
        Ok(())
    }

    fn number(&mut self, number: Option<&usize>) -> Result<(), AllocError>
        ensures { spec.Writes result self.old self.new (spec.maybe_decimal (option_copied number.entry)) }
    {
        match number {
            Some(number) => digits(&mut self.out, *number as u64),
            None => Ok(()),
        }
    }

    /// Writes words of a text among those of the program. A tab becomes a blank. Each byte of a character on which a terminal may act, and
    /// each that isn't UTF-8, becomes a `?`, so that each has one column.
    pub fn words(&mut self, words: &[&[u8]]) -> Result<(), AllocError>
        ensures { spec.Writes result self.old self.new (spec.all_shown words.now) }
    {
        for word in words {
            put_shown(&mut self.out, word)?;
        }
        Ok(())
    }

    /// Writes the parts of a sentence, one after the other.
    pub fn say(&mut self, parts: &[Part<'_>]) -> Result<(), AllocError>
        ensures { spec.Writes result self.old self.new (flat_map spec.said parts.now) }
    {
        for part in parts {
            self.part(*part)?;
        }
        Ok(())
    }

    fn part(&mut self, part: Part<'_>) -> Result<(), AllocError>
        ensures { spec.Writes result self.old self.new (spec.said part.entry) }
    {
        match part {
            Part::Text(text) => self.bytes(text.as_bytes()),
            Part::Quoted(name) => self.words(&[b"`", name, b"`"]),
            Part::Word(word) => self.texts(&["`", word, "`"]),
            Part::Marked((mark, name)) => self.words(&[mark, name, mark]),
            Part::Line(files, home, line) => self.file_line(&files, home, line),
            Part::Number(number) => digits(&mut self.out, number as u64),
            Part::Value(value) => digits(&mut self.out, value),
        }
    }

    /// Writes the number of a line of a text in its file, after the file's name if that isn't the file of the number `home`.
    fn file_line(&mut self, files: &Files<'_>, home: usize, line: usize) -> Result<(), AllocError>
        ensures { spec.Writes result self.old self.new (spec.line_told files.now home line) }
    {
        let file = files.file_at(line);
        if file != home {
            self.words(&[files.file_name(file).as_bytes()])?;
            self.bytes(b":")?;
        }
        digits(&mut self.out, files.file_line(line) as u64)
    }

    /// Writes a line of words, as `words` does.
    pub fn line(&mut self, words: &[&[u8]]) -> Result<(), AllocError>
        ensures { spec.Writes result self.old self.new (spec.all_shown words.now ++ 10 ∷ []) }
    {
        self.words(words)?;
        self.bytes(b"\n")?;
        Ok(())
    }

    /// Writes the same sign several times, and words after it.
    pub fn run(&mut self, sign: u8, times: usize, text: &str) -> Result<(), AllocError>
        ensures { spec.Writes result self.old self.new (replicate times sign ++ text.now) }
    {
        for _time in 0..times {
            self.out.push(sign)?;
        }
        self.bytes(text.as_bytes())?;
        Ok(())
    }
}

/// A line of a text by its number in its file, after the file's name if that isn't the file of the number `home`.
///
/// # Errors
///
/// `AllocError` if a growth is refused.
pub fn line_words(
    alloc: Global,
    files: &Files<'_>,
    home: usize,
    line: usize,
) -> Result<Vec<u8>, AllocError>
    ensures { IfOk result (λ words. words.items ≡ spec.line_told files.now home line) }
{
    let mut page = Page::new(alloc);
    page.file_line(files, home, line)?;
    Ok(page.out)
}

/// Writes the digits of a number.
fn digits(out: &mut Vec<u8>, n: u64) -> Result<(), AllocError>
    ensures { OnOk result (out.new.items ≡ out.old.items ++ decimal n) }
{
    let mut buffer = Buffer::new();
    out.extend_from_slice(buffer.format(n).as_bytes())
}
