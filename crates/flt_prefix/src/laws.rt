//! The two halves of the law of the viable prefix, with its exceptions, and the law of the first place.

ghost use Rattle.flt_prefix.specs.Prefix.{NothingGoesOn, NothingGoesOnInTexts, CallbacksBegin, FileBegins};
ghost use Rattle.flt_prefix.specs.Prefix.{FileBeginsInTexts, ViablePrefix, NoLockCall, NoBlock};
ghost use Rattle.flt_prefix.specs.Placed.{TokensArePlaced};
ghost use Rattle.flt_prefix.specs.Shown.{FirstInTheText};

use flt_syntax::fails_exactly_where_nothing_is_spelled;

/// With the tokens up to a fault E01 to E04, the one at fault among them, no filter is spelled. Of a text's E04 this holds if a variable, a
/// call or a lock is unknown, but not if a routine isn't there. It does nothing at run time: its clauses are a law.
pub fn nothing_goes_on_from_the_token()
    ensures tokens { NothingGoesOn }
    ensures texts { NothingGoesOnInTexts }
{
    fails_exactly_where_nothing_is_spelled();
}

/// The tokens before a fault E03 begin a file by the grammar, if blocks may nest however deep, and unless the fault is after the word of a
/// lock's call. It does nothing at run time: its clauses are a law.
#[tactic(auto, using(crate::proofs::Finishes::callbacks_begin, crate::proofs::FinishesFiles::file_begins, crate::proofs::Prefixes::begins_in_texts))]
pub fn something_begins_before_e03()
    ensures callbacks { CallbacksBegin }
    ensures files { FileBegins }
    ensures texts { FileBeginsInTexts }
{}

/// Both at one place of a text: its fault E03 is at a token, before which the tokens begin a file and with which they begin none. The first
/// half has the exceptions of the law before. It does nothing at run time: its clause is a law.
pub fn an_e03_ends_a_viable_prefix()
    ensures { ViablePrefix }
{
    fails_exactly_where_nothing_is_spelled();
}

/// Why there are exceptions. If no lock is declared, no call begins with the word of a lock's call. If no block is legal, no statement
/// begins with `if` or `repeat`. It does nothing at run time: its clauses are a law.
#[tactic(auto, using(crate::proofs::Exceptions::no_lock_call, crate::proofs::Exceptions::no_block_statement))]
pub fn nothing_begins_at_the_exceptions()
    ensures lock { NoLockCall }
    ensures block { NoBlock }
{}

/// Among the faults that only the whole text shows, the reported one is the first in the text: it is before all others. It does nothing at
/// run time: its clause is a law.
#[tactic(auto, using(crate::proofs::FirstShown::first_in_the_text))]
pub fn the_fault_is_the_first_in_the_text()
    ensures { FirstInTheText }
{}

/// Each token but the end of a text is at the line and the column that are counted in the text up to its first byte. It does nothing at run
/// time: its clause is a law.
#[tactic(auto, using(crate::proofs::Placed::tokens_are_placed))]
pub fn tokens_stand_where_they_are_counted()
    ensures { TokensArePlaced }
{}
