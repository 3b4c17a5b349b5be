//! The readings of texts, beside the trees of those that parse. A text that is taken for something else is read later: a script is one for
//! all these trees.

ghost use Rattle.std.specs.Prelude.{◌≡◌, ◌++◌, ◌∷◌, [], IfOk, OnOk};
ghost use Rattle.flt_syntax.specs.Spelling.{Spells};
ghost use Rattle.flt_syntax.specs.TextFails.{Fails};
ghost use Rattle.flt_explain_outcomes.specs.Parsed.{IsOther, IsUnread};
ghost use Rattle.flt_explain_outcomes.specs.Readings as spec;

use flt_explain_reasons::{Kind, kind_of};
use flt_explain_texts::Source;
use flt_syntax::{ParseError, SyntaxFault, Tree, parse};
use sqlite_items::Items;
use std::alloc::{AllocError, Global};

/// The reading of a text, without its tree.
#[derive(Clone, Copy)]
pub enum Reading {
    Unread(SyntaxFault),
    /// It is taken for a certificate, a journal or a script.
    Other(Kind),
    /// It parses: the number of its tree, from 0.
    Known(usize),
}

/// A text, and its reading.
#[derive(Clone, Copy)]
pub struct StudiedText<'a> {
    pub source: Source<'a>,
    pub reading: Reading,
}

/// Some texts, and the trees of those that parse.
#[derive(Drop)]
pub struct Readings<'a> {
    pub trees: Items<Tree>,
    pub each: Vec<StudiedText<'a>>,
}

impl<'a> Readings<'a> {
    /// Adds a text that doesn't parse and is taken for a certificate, a journal or a script.
    fn add_other(&mut self, source: Source<'a>, kind: Kind) -> Result<(), AllocError>
        requires other { IsOther source.text.now kind }
        requires old { spec.AreReadings self.old }
        ensures new { OnOk result (spec.AreReadings self.new) }
        ensures source { OnOk result (spec.sources_read self.new.each.items
            ≡ spec.sources_read self.old.each.items ++ source.entry ∷ []) }
    {
        let reading = Reading::Other(kind);
        self.each.push(StudiedText { source, reading })?;
        Ok(())
    }

    /// Adds a text that doesn't parse and isn't taken for anything else.
    fn add_unread(&mut self, source: Source<'a>, fault: SyntaxFault) -> Result<(), AllocError>
        requires fault { IsUnread source.text.now fault }
        requires old { spec.AreReadings self.old }
        ensures new { OnOk result (spec.AreReadings self.new) }
        ensures source { OnOk result (spec.sources_read self.new.each.items
            ≡ spec.sources_read self.old.each.items ++ source.entry ∷ []) }
    {
        let reading = Reading::Unread(fault);
        self.each.push(StudiedText { source, reading })?;
        Ok(())
    }

    /// Adds a text that parses.
    fn add_known(&mut self, source: Source<'a>, tree: Tree) -> Result<(), AllocError>
        requires spelled { Spells source.text.now tree.filter }
        requires old { spec.AreReadings self.old }
        ensures new { OnOk result (spec.AreReadings self.new) }
        ensures source { OnOk result (spec.sources_read self.new.each.items
            ≡ spec.sources_read self.old.each.items ++ source.entry ∷ []) }
    {
        let reading = Reading::Known(self.trees.len());
        self.trees.push(tree)?;
        self.each.push(StudiedText { source, reading })?;
        Ok(())
    }

    /// Adds a text that doesn't parse.
    fn add_unparsed(&mut self, source: Source<'a>, fault: SyntaxFault) -> Result<(), AllocError>
        requires fault { Fails source.text.now fault }
        requires old { spec.AreReadings self.old }
        ensures new { OnOk result (spec.AreReadings self.new) }
        ensures source { OnOk result (spec.sources_read self.new.each.items
            ≡ spec.sources_read self.old.each.items ++ source.entry ∷ []) }
    {
        match kind_of(source.text) {
            Some(kind) => self.add_other(source, kind),
            None => self.add_unread(source, fault),
        }
    }

    /// Adds a text.
    fn add(&mut self, alloc: Global, source: Source<'a>) -> Result<(), AllocError>
        requires old { spec.AreReadings self.old }
        ensures new { OnOk result (spec.AreReadings self.new) }
        ensures source { OnOk result (spec.sources_read self.new.each.items
            ≡ spec.sources_read self.old.each.items ++ source.entry ∷ []) }
    {
        match parse(alloc, source.text) {
            Ok(tree) => self.add_known(source, tree),
            Err(ParseError::Syntax(fault)) => self.add_unparsed(source, fault),
            Err(ParseError::OutOfMemory) => Err(AllocError),
        }
    }
}

/// The readings of texts.
pub fn read_all<'a>(alloc: Global, sources: &[Source<'a>]) -> Result<Readings<'a>, AllocError>
    ensures readings { IfOk result spec.AreReadings }
    ensures sources { IfOk result (λ r. spec.sources_read r.each.items ≡ sources.now) }
{
    let mut readings = Readings {
        trees: Items::new(alloc),
        each: Vec::new(alloc),
    };
    for source in sources {
        readings.add(alloc, *source)?;
    }
    Ok(readings)
}
