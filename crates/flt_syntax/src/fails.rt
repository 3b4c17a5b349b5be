//! The laws of where a text fails: there, and only there, where it spells no filter; and there where the reading definition says.

ghost use Rattle.flt_syntax.specs.File.{filter_of};
ghost use Rattle.flt_syntax.specs.TextFails.{Fails, SpelledFailsNowhere, ReadFailsNowhere, SpellsOrFails, FailsAtMostOnce};
ghost use Rattle.flt_syntax.specs.declared.fault.SyntaxFault.{SyntaxFault};
ghost use Rattle.flt_tree.specs.Names.{Text};
ghost use Rattle.std.specs.Prelude.{◌≡◌, ◌↔◌, Err};

/// A text that spells a filter fails nowhere. Nor do tokens from left to right, if they spell one within the limits. A text that spells
/// none fails, at one place and with one kind. It does nothing at run time: its clauses are a law.
#[tactic(auto, using(crate::proofs::Laws::spelled_fails_nowhere, crate::proofs::Laws::read_fails_nowhere, crate::proofs::Laws::fails_at_most_once))]
pub fn fails_exactly_where_nothing_is_spelled()
    ensures nowhere { SpelledFailsNowhere }
    ensures tokens { ReadFailsNowhere }
    ensures somewhere { SpellsOrFails }
    ensures once { FailsAtMostOnce }
{}

/// A text fails where the reading definition reports a fault, and with the kind that it reports. It does nothing at run time: its clause is
/// a law.
#[tactic(auto, using(crate::proofs::Laws::told))]
pub fn the_fault_is_the_one_told()
    ensures { (text : Text) (f : SyntaxFault) → (filter_of text ≡ Err f) ↔ Fails text f }
{}
