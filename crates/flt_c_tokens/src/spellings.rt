//! Spellings by number.

ghost use Rattle.std.specs.Prelude.{◌≡◌, ◌≤◌, length, max, option_copied, slice_get, map, IfOk, IfSome, OnErr};
ghost use Rattle.std.specs.List.{IsDistinct};
ghost use Rattle.std.specs.Str.{bytes_eq};
ghost use Rattle.flt_c_tokens.specs.Spelled as spec;
ghost use Rattle.flt_c_tokens.specs.Vocabulary.{known_words};

use crate::vocabulary::vocabulary;
use indexmap::IndexSet;
use std::alloc::{AllocError, Global};
use std::marker::Model;

/// The most spellings.
pub const MAX_SPELLINGS: usize = 1_048_576;

/// Texts in the order in which they were first met, each once. The number of a text is its place. The words of C come first.
#[derive(Drop)]
pub struct Spellings {
    texts: IndexSet<Vec<u8>>,
}

impl Model for Spellings {
    ghost use Rattle.std.specs.Prelude.{◌≤◌, List, length, map};
    ghost use Rattle.flt_c_tokens.specs.Bytes.{Text};
    ghost use Rattle.flt_c_tokens.specs.Spelled.{Knows, max_spellings};

    ghost Value = { List Text };

    ghost view = { λ s. map (λ t. t.items) s.texts.keys };

    ghost invariant = { λ s. Knows (map (λ t. t.items) s.texts.keys) × (length s.texts.keys ≤ max_spellings) };
}

/// Adds a text, unless it is there, and says its place.
fn add(alloc: Global, texts: &mut IndexSet<Vec<u8>>, text: &[u8]) -> Result<usize, AllocError>
    ensures texts { IfOk result (λ n. map (λ t. t.items) texts.new.keys ≡ spec.with_text (map (λ t. t.items) texts.old.keys) text.now) }
    ensures place { IfOk result (λ n. n ≡ spec.number_of (map (λ t. t.items) texts.old.keys) text.now) }
    ensures kept { OnErr result (map (λ t. t.items) texts.new.keys ≡ map (λ t. t.items) texts.old.keys) }
{
    if let Some(number) = texts.get_index_of(text) {
        return Ok(number);
    }
    let mut key = Vec::new(alloc);
    key.extend_from_slice(text)?;
    match texts.insert_full(key) {
        Ok(added) => Ok(added.0),
        Err(_) => Err(AllocError),
    }
}

/// The words of C, in a table of their own.
fn known_texts(alloc: Global) -> Result<IndexSet<Vec<u8>>, AllocError>
    ensures { IfOk result (λ s. map (λ t. t.items) s.keys ≡ known_words) }
{
    let mut texts = IndexSet::new(alloc);
    let mut rest = vocabulary();
    while let [entry, after @ ..] = rest {
        add(alloc, &mut texts, entry.0)?;
        rest = after;
    }
    Ok(texts)
}

/// A count that is at least that of the words of C.
fn with_words(count: usize) -> usize
    ensures { result ≡ max count (length known_words) }
{
    let words = vocabulary().len();
    if count < words { words } else { count }
}

impl Spellings {
    /// The words of C alone.
    pub fn new(alloc: Global) -> Result<Spellings, AllocError>
        ensures { IfOk result (λ s. s ≡ known_words) }
    {
        let texts = known_texts(alloc)?;
        Ok(Spellings { texts })
    }

    /// How many there are.
    pub fn len(&self) -> usize
        ensures len { result ≡ length self.now }
        ensures known { spec.Knows self.now }
        ensures few { result ≤ spec.max_spellings }
        ensures once { IsDistinct bytes_eq self.now }
    {
        self.texts.len()
    }

    /// The text of a number.
    pub fn text(&self, number: u32) -> Option<&[u8]>
        ensures { option_copied result ≡ slice_get self.now number }
    {
        let text = self.texts.get_index(number as usize)?;
        Some(text.as_slice())
    }

    /// The number of a text, if it is there.
    pub fn number_of(&self, text: &[u8]) -> Option<u32>
        ensures { spec.IsFound self.now text.now result }
    {
        match self.texts.get_index_of(text) {
            Some(number) => Some(number as u32),
            None => None,
        }
    }

    /// The number of a text, which is added unless it is there. `None` if it would be one more than `MAX_SPELLINGS`.
    ///
    /// # Errors
    ///
    /// `AllocError` if a growth is refused.
    pub fn number(&mut self, alloc: Global, text: &[u8]) -> Result<Option<u32>, AllocError>
        ensures number { IfOk result (λ found. spec.IsNumbered self.old text.now found self.new) }
        ensures kept { OnErr result (self.new ≡ self.old) }
    {
        if self.texts.len() >= MAX_SPELLINGS {
            return Ok(self.number_of(text));
        }
        let number = add(alloc, &mut self.texts, text)?;
        Ok(Some(number as u32))
    }

    /// Keeps the first `count`, and the words of C: so the texts that were added since there were so many go.
    pub fn truncate(&mut self, count: usize)
        ensures { self.new ≡ spec.first_texts count self.old }
    {
        let kept = with_words(count);
        self.texts.truncate(kept);
    }
}
