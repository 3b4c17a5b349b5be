//! The law that the kept bytes of a text have the same outcome as all of its bytes.

ghost use Rattle.flt_files.specs.Inputs.{Text, kept};
ghost use Rattle.flt_syntax.specs.Spelling.{Spells};
ghost use Rattle.flt_syntax.specs.TextFails.{Fails};
ghost use Rattle.flt_syntax.specs.declared.fault.SyntaxFault.{SyntaxFault};
ghost use Rattle.flt_tree.specs.declared.filter.Filter.{Filter};

use flt_syntax::fails_exactly_where_nothing_is_spelled;

/// A text spells the filter that its kept bytes spell, and fails where they fail. It does nothing at run time: its clauses are the law.
pub fn kept_texts_are_told_as_whole()
    ensures spelled { (text : Text) (filter : Filter) → Spells (kept text) filter → Spells text filter }
    ensures failing { (text : Text) (f : SyntaxFault) → Fails (kept text) f → Fails text f }
{
    fails_exactly_where_nothing_is_spelled();
}
