//! Refusals of texts, as they are printed.

ghost use Rattle.std.specs.Prelude.{Some};
ghost use Rattle.flt_rules.specs.Refusal as spec;

use crate::rule::{Rule, text};
use std::fmt;

/// A rule that a text breaks, and where. Callbacks and points count from 0, lines from 1.
#[derive(Clone, Copy, Debug)]
pub struct Refusal {
    pub callback: usize,
    pub point: usize,
    pub line: usize,
    pub rule: Rule,
}

/// The place of a refusal.
#[derive(Drop)]
struct PlaceWords(Refusal);

impl fmt::Display for PlaceWords {
    ghost output = { λ r. Some (spec.place_words r.0) };

    fn fmt<W: fmt::Write>(&self, f: &mut fmt::Formatter<W>) -> fmt::Result {
        let callback = self.0.callback;
        let point = self.0.point;
        let line = self.0.line;
        write!(f, "callback {callback} point {point} line {line}")
    }
}

/// A rule and its words.
#[derive(Drop)]
struct RuleWords(Rule);

impl fmt::Display for RuleWords {
    ghost output = { λ r. Some (spec.rule_words r.0) };

    fn fmt<W: fmt::Write>(&self, f: &mut fmt::Formatter<W>) -> fmt::Result {
        let name = self.0.name();
        let words = text(self.0);
        write!(f, "{name} {words}")
    }
}

impl fmt::Display for Refusal {
    ghost output = { λ r. Some (spec.refusal_words r) };

    fn fmt<W: fmt::Write>(&self, f: &mut fmt::Formatter<W>) -> fmt::Result {
        let place = PlaceWords(*self);
        let rule = RuleWords(self.rule);
        write!(f, "{place} {rule}")
    }
}
