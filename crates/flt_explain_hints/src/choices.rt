//! The words, symbols and names that are legal at a place of a text.

ghost use Rattle.std.specs.Prelude.{◌≡◌, ◌≤◌, false, [], ◌++◌, length, map, IfOk, OnOk};
ghost use Rattle.flt_explain_hints.specs.Choices as spec;
ghost use Rattle.flt_explain_hints.specs.Trial.{gap_of};
ghost use Rattle.flt_explain_hints.specs.Names as declared;
ghost use Rattle.flt_syntax.specs.Vocabulary.{vocabulary};
ghost use Rattle.flt_rules.specs.Limits.{max_text};

use crate::new_name::new_name;
use crate::trial::{Gap, may_stand};
use flt_syntax::{Kind, keywords, same_kind, the_fault_is_the_one_told};
use sqlite_items::Items;
use std::alloc::{AllocError, Global};

const SYMBOLS: [(&[u8], Kind); 8] = [
    (b"{", Kind::OpenBrace),
    (b"}", Kind::CloseBrace),
    (b"=", Kind::Assign),
    (b"==", Kind::Equal),
    (b"!=", Kind::NotEqual),
    (b"<", Kind::Less),
    (b"+", Kind::Plus),
    (b"-", Kind::Minus),
];

/// A word or symbol of the language, and its kind.
#[derive(Clone, Copy)]
pub struct ExpectedWord {
    pub word: &'static [u8],
    pub kind: Kind,
}

/// The words, symbols and names that are legal at a place of a text.
#[derive(Drop)]
pub struct Choices<'a> {
    /// The legal words of the language, then its legal symbols.
    pub expected: Items<ExpectedWord>,
    pub takes_number: bool,
    pub takes_name: bool,
    /// The legal names among those that the text declares.
    pub names: Items<&'a [u8]>,
}

fn symbols() -> &'static [(&'static [u8], Kind)]
    ensures { map (λ e. (e.0.now, e.1)) result.now ≡ spec.symbols }
{
    &SYMBOLS
}

/// Adds the words or symbols of a table that are legal at a place.
#[tactic(auto, unfolding(crate::specs::Choices::possible))]
fn add_possible(
    alloc: Global,
    gap: Gap<'_>,
    table: &[(&'static [u8], Kind)],
    found: &mut Items<ExpectedWord>,
) -> Result<(), AllocError>
    ensures { OnOk result (map spec.entry_of found.new ≡
        map spec.entry_of found.old ++ spec.possible (gap_of gap.entry) (map (λ e. (e.0.now, e.1)) table.now)) }
{
    for entry in table {
        if may_stand(alloc, gap, entry.0)? {
            found.push(ExpectedWord {
                word: entry.0,
                kind: entry.1,
            })?;
        }
    }
    Ok(())
}

/// The words and symbols of the language that are legal at a place.
fn expected_in(alloc: Global, gap: Gap<'_>) -> Result<Items<ExpectedWord>, AllocError>
    ensures { IfOk result
        (λ es. map spec.entry_of es ≡ spec.possible (gap_of gap.entry) vocabulary ++ spec.possible (gap_of gap.entry) spec.symbols) }
{
    let mut found = Items::new(alloc);
    add_possible(alloc, gap, keywords(), &mut found)?;
    add_possible(alloc, gap, symbols(), &mut found)?;
    Ok(found)
}

/// The names, among the given ones, that are legal at a place.
#[tactic(auto, unfolding(crate::specs::Choices::possible_names))]
fn names_in<'a>(
    alloc: Global,
    gap: Gap<'_>,
    names: &[&'a [u8]],
) -> Result<Items<&'a [u8]>, AllocError>
    ensures { IfOk result (λ ns. map (λ n. n.now) ns ≡ spec.possible_names (gap_of gap.entry) (map (λ n. n.now) names.now)) }
{
    let mut found = Items::new(alloc);
    for name in names {
        if may_stand(alloc, gap, name)? {
            found.push(*name)?;
        }
    }
    Ok(found)
}

/// Whether a name that is new to a text is legal at a place of it.
fn takes_name(alloc: Global, text: &[u8], gap: Gap<'_>) -> Result<bool, AllocError>
    requires { length text.now ≤ max_text }
    ensures { IfOk result (λ b. spec.TakesName text.now (gap_of gap.entry) b) }
{
    the_fault_is_the_one_told();
    let name = new_name(alloc, text)?;
    let taken = may_stand(alloc, gap, name.as_slice())?;
    Ok(taken)
}

/// The words, symbols and names that are legal at a place of a text that declares the given names.
pub(crate) fn choices_in<'a>(
    alloc: Global,
    text: &[u8],
    gap: Gap<'_>,
    names: &[&'a [u8]],
) -> Result<Choices<'a>, AllocError>
    requires few { length text.now ≤ max_text }
    requires names { map (λ n. n.now) names.now ≡ declared.declared_names text.now }
    ensures { IfOk result (λ c. spec.AreChoices text.now (gap_of gap.entry) c) }
{
    the_fault_is_the_one_told();
    let expected = expected_in(alloc, gap)?;
    let takes_number = may_stand(alloc, gap, b"1")?;
    let takes_name = takes_name(alloc, text, gap)?;
    let names = names_in(alloc, gap, names)?;
    Ok(Choices {
        expected,
        takes_number,
        takes_name,
        names,
    })
}

impl<'a> Choices<'a> {
    /// Nothing.
    pub(crate) fn none(alloc: Global) -> Choices<'a>
        ensures expected { result.expected ≡ [] }
        ensures number { result.takes_number ≡ false }
        ensures name { result.takes_name ≡ false }
        ensures names { result.names ≡ [] }
    {
        Choices {
            expected: Items::new(alloc),
            takes_number: false,
            takes_name: false,
            names: Items::new(alloc),
        }
    }

    /// Whether nothing is legal there.
    #[tactic(auto, unfolding(crate::specs::Choices::are_none))]
    pub(crate) fn are_none(&self) -> bool
        ensures { result ≡ spec.are_none self.now }
    {
        self.expected.len() == 0 && !self.takes_number && !self.takes_name && self.names.len() == 0
    }

    /// Whether a word or symbol of a kind is legal there.
    #[tactic(auto, unfolding(crate::specs::Choices::takes))]
    pub(crate) fn takes(&self, kind: Kind) -> bool
        ensures { result ≡ spec.takes self.now kind }
    {
        for one in self.expected.as_slice() {
            if same_kind(one.kind, kind) {
                return true;
            }
        }
        false
    }
}
