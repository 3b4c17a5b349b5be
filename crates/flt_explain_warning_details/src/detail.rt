//! The details of a warning.

ghost use Rattle.std.specs.Prelude.{◌≡◌};
ghost use Rattle.flt_explain_warning_details.specs.Options as spec;

use flt_explain_texts::Marks;
use flt_explain_warnings::{Kind, Site};
use flt_order::Acquisition;
use sqlite_items::Items;

/// Another place that a warning is about.
#[derive(Drop)]
pub struct RelatedPlace {
    pub marks: Marks,
    /// A description of what the statement there does.
    pub words: Items<u8>,
}

/// The details of a warning that every form reports.
#[derive(Drop)]
pub struct WarningDetail {
    pub kind: Kind,
    /// The point that it is about; `None` if it is about a declaration or a comment.
    pub site: Option<Site>,
    /// The regions of that statement, declaration or comment, and in it of the word that the warning names.
    pub marks: Marks,
    /// The head of its callback; empty if it is in none.
    pub head: Items<u8>,
    /// The problem, in words.
    pub title: Items<u8>,
    /// How to fix it.
    pub help: Items<u8>,
    /// The possible consequence or the reason; or nothing.
    pub note: Items<u8>,
    /// The other places that it is about, in the order in which they are read.
    pub related: Items<RelatedPlace>,
    /// The acquisitions of a circle of locks; empty for other warnings.
    pub circle: Items<Acquisition>,
    /// The reason of the comment that allows it, if one does.
    pub reason: Option<Items<u8>>,
}

impl WarningDetail {
    /// Whether no comment allows it.
    pub fn is_shown(&self) -> bool
        ensures { result ≡ spec.is_shown self.now }
    {
        self.reason.is_none()
    }
}
