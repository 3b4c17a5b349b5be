//! The law that joins the two definitions of a text's meaning: how it is spelled, and how it is read.

ghost use Rattle.std.specs.Prelude.{◌≡◌, Ok};
ghost use Rattle.flt_syntax.specs.File.{filter_of};
ghost use Rattle.flt_syntax.specs.Spelling.{Spells};
ghost use Rattle.flt_tree.specs.Names.{Text};
ghost use Rattle.flt_tree.specs.declared.filter.Filter.{Filter};

/// A text spells a filter if and only if the reading definition reads that filter from it. It does nothing at run time: its clauses are a
/// law.
pub fn spelled_is_read()
    ensures read { (text : Text) (f : Filter) → Spells text f → filter_of text ≡ Ok f }
    ensures spelled { (text : Text) (f : Filter) → filter_of text ≡ Ok f → Spells text f }
{}
