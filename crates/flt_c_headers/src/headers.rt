//! The headers of a run, by number.

ghost use Rattle.std.specs.Prelude.{◌≡◌, ◌<◌, ◌≤◌, ◌++◌, [], ◌∷◌, false, length, map, option_map, slice_get, Some, None};
ghost use Rattle.std.specs.Prelude.{IfOk, MatchOption, OnErr, OnOk};
ghost use Rattle.flt_c_headers.specs.Reading as reading;
ghost use Rattle.flt_c_headers.specs.World as spec;
ghost use Rattle.flt_c_tokens.specs.Spelled.{has_text};

use flt_c_tokens::{MAX_FILE, Token};
use indexmap::IndexSet;
use sqlite_items::Items;
use std::alloc::{AllocError, Global};
use std::marker::Model;

/// The most headers. One without room has this number, which no header has.
pub const MAX_HEADERS: usize = 1_024;

/// Where the places of headers begin: after the last of any file, and one that parts them.
const FIRST_PLACE: u32 = 16_777_217;

/// The last place of headers.
const LAST_PLACE: usize = 83_886_080;

/// A header, and where it begins in the places of headers.
#[derive(Drop)]
pub(crate) struct HeaderFile {
    pub(crate) name: Vec<u8>,
    pub(crate) bytes: Vec<u8>,
    pub(crate) base: u32,
}

/// The names that were requested, each once, with their answers; the headers that were found, each with a number, from 0; and the tokens of
/// those that are read, the first ones. Their tokens have places of their own, after those of any file.
#[derive(Drop)]
pub struct Headers {
    asked: IndexSet<Vec<u8>>,
    answers: Vec<Option<u32>>,
    files: Vec<HeaderFile>,
    tokens: Vec<Items<Token>>,
    /// Where the next header begins.
    next: u32,
}

impl Model for Headers {
    ghost use Rattle.std.specs.Prelude.{map};
    ghost use Rattle.flt_c_headers.specs.World.{IsSound, World, file_of};

    ghost Value = { World };

    ghost view = { λ s. record {
      asked = map (λ t. t.items) s.asked.keys;
      answers = s.answers.items;
      files = map file_of s.files.items;
      tokens = s.tokens.items;
    } };

    ghost invariant = { λ s. IsSound (map (λ t. t.items) s.asked.keys) s.answers.items (map file_of s.files.items) s.tokens.items s.next };
}

/// Whether there is room for a header of these bytes.
fn has_room(count: usize, base: u32, bytes: &[u8]) -> bool
    ensures { result ≡ spec.has_room_at count base bytes.now }
{
    count < MAX_HEADERS && bytes.len() <= MAX_FILE && base as usize + bytes.len() <= LAST_PLACE
}

/// The number of the last of some headers that begins at a place or before it.
fn last_before(files: &[HeaderFile], place: u32) -> Option<usize>
    ensures { result ≡ reading.header_at (map spec.file_of files.now) place }
{
    let mut number = files.len();
    while number > 0 {
        if files[number - 1].base <= place {
            return Some(number - 1);
        }
        number -= 1;
    }
    None
}

/// Adds a name with its answer.
fn note(
    alloc: Global,
    asked: &mut IndexSet<Vec<u8>>,
    answers: &mut Vec<Option<u32>>,
    name: &[u8],
    answer: Option<u32>,
) -> Result<(), AllocError>
    requires { has_text (map (λ t. t.items) asked.old.keys) name.now ≡ false }
    ensures asked { OnOk result (map (λ t. t.items) asked.new.keys ≡ map (λ t. t.items) asked.old.keys ++ name.now ∷ []) }
    ensures answers { OnOk result (answers.new.items ≡ answers.old.items ++ answer ∷ []) }
    ensures asked_kept { OnErr result (map (λ t. t.items) asked.new.keys ≡ map (λ t. t.items) asked.old.keys) }
    ensures answers_kept { OnErr result (answers.new.items ≡ answers.old.items) }
{
    answers.reserve(1)?;
    let key = Vec::from_slice(alloc, name)?;
    match asked.insert_full(key) {
        Ok(_) => {
            answers.push_reserved(answer);
            Ok(())
        }
        Err(_) => Err(AllocError),
    }
}

impl Headers {
    /// None yet.
    #[tactic(auto, unfolding(crate::specs::World::no_headers))]
    pub fn new(alloc: Global) -> Headers
        ensures { result ≡ spec.no_headers }
    {
        Headers {
            asked: IndexSet::new(alloc),
            answers: Vec::new(alloc),
            files: Vec::new(alloc),
            tokens: Vec::new(alloc),
            next: FIRST_PLACE,
        }
    }

    /// The tokens of headers by their numbers. After an error the last headers may have none.
    pub fn tokens(&self) -> &[Items<Token>]
        ensures tokens { result.now ≡ self.now.tokens }
        ensures within { length result.now ≤ length self.now.files }
    {
        self.tokens.as_slice()
    }

    /// The number of the header in which a place is.
    pub fn header_at(&self, start: u32) -> Option<usize>
        ensures { result ≡ reading.header_at self.now.files start }
    {
        last_before(self.files.as_slice(), start)
    }

    /// The name of a header.
    pub fn name(&self, number: usize) -> Option<&[u8]>
        ensures { option_map (λ name. name.now) result ≡ option_map (λ f. f.name) (slice_get self.now.files number) }
    {
        let file = self.files.get(number)?;
        Some(file.name.as_slice())
    }

    /// The answer to a name, if it was requested.
    pub(crate) fn answer(&self, name: &[u8]) -> Option<Option<u32>>
        ensures { spec.IsKnown self.now name.now result }
    {
        match self.asked.get_index_of(name) {
            Some(number) => Some(self.answers[number]),
            None => None,
        }
    }

    /// Adds a name for which nothing was found.
    pub(crate) fn add_missing(
        &mut self,
        alloc: Global,
        name: &[u8],
    ) -> Result<Option<u32>, AllocError>
        requires { spec.is_asked self.old name.now ≡ false }
        ensures answer { IfOk result (λ answer. answer ≡ spec.answer_of None self.old) }
        ensures added { OnOk result (self.new ≡ spec.with_answer name.now None self.old) }
        ensures kept { OnErr result (self.new ≡ self.old) }
    {
        note(alloc, &mut self.asked, &mut self.answers, name, None)?;
        Ok(None)
    }

    /// Adds a name and the bytes that were found.
    pub(crate) fn add_found(
        &mut self,
        alloc: Global,
        name: &[u8],
        bytes: Vec<u8>,
    ) -> Result<Option<u32>, AllocError>
        requires { spec.is_asked self.old name.now ≡ false }
        ensures answer { IfOk result (λ answer. answer ≡ spec.answer_of (Some bytes.items) self.old) }
        ensures added { OnOk result (self.new ≡ spec.with_answer name.now (Some bytes.items) self.old) }
        ensures kept { OnErr result (self.new ≡ self.old) }
    {
        let base = self.next;
        let count = self.files.len();
        if !has_room(count, base, bytes.as_slice()) {
            let answer = Some(MAX_HEADERS as u32);
            note(alloc, &mut self.asked, &mut self.answers, name, answer)?;
            return Ok(answer);
        }
        self.files.reserve(1)?;
        let own = Vec::from_slice(alloc, name)?;
        let answer = Some(count as u32);
        note(alloc, &mut self.asked, &mut self.answers, name, answer)?;
        self.next = base + bytes.len() as u32 + 1;
        self.files.push_reserved(HeaderFile {
            name: own,
            bytes,
            base,
        });
        Ok(answer)
    }

    /// A copy of the next header that has no tokens yet.
    pub(crate) fn next_file(&self, alloc: Global) -> Result<Option<HeaderFile>, AllocError>
        ensures { IfOk result (λ found. MatchOption found (length self.now.tokens ≡ length self.now.files) (spec.IsNext self.now)) }
    {
        let Some(file) = self.files.get(self.tokens.len()) else {
            return Ok(None);
        };
        let name = Vec::from_slice(alloc, file.name.as_slice())?;
        let bytes = Vec::from_slice(alloc, file.bytes.as_slice())?;
        Ok(Some(HeaderFile {
            name,
            bytes,
            base: file.base,
        }))
    }

    /// Gives the next header its tokens.
    pub(crate) fn add_tokens(&mut self, tokens: Vec<Token>) -> Result<(), AllocError>
        requires { length self.old.tokens < length self.old.files }
        ensures ok { OnOk result (self.new ≡ spec.with_tokens tokens.items self.old) }
    {
        self.tokens.push(Items::from_vec(tokens))?;
        Ok(())
    }
}
