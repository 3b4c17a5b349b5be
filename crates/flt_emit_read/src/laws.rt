//! The laws of reading back.

ghost use Rattle.flt_emit_read.specs.Laws.{ReadsBack, ReadsBackWhole, SaysOneFilter};

/// The source of a well-formed filter is read back to the filter apart from its places, each return as C has it. It does nothing at run
/// time: its clause is a law.
#[tactic(auto, using(crate::proofs::Whole::reads_back))]
pub fn reads_back()
    ensures { ReadsBack }
{}

/// Where each return is one of its place, the filter is read back apart from its places. It does nothing at run time: its clause is a law.
#[tactic(auto, using(crate::proofs::Fits::reads_back_whole))]
pub fn reads_back_whole()
    ensures { ReadsBackWhole }
{
    reads_back();
}

/// Filters with one source are the same apart from their places, each return as C has it. It does nothing at run time: its clause is a law.
#[tactic(auto, using(crate::proofs::Fits::says_one_filter))]
pub fn says_one_filter()
    ensures { SaysOneFilter }
{
    reads_back();
}
