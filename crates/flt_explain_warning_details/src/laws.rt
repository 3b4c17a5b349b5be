//! The law of texts without warnings about circles of locks.

ghost use Rattle.flt_explain_warning_details.specs.Orderly.{TextsWithoutCirclesAreOrderly};

use flt_syntax::spelled_is_well_formed;

/// A text without findings and without a warning about a circle of locks is of a filter that takes its locks in an order. It does nothing
/// at run time: its clause is the law.
pub fn texts_without_circles_are_orderly()
    ensures { TextsWithoutCirclesAreOrderly }
{
    spelled_is_well_formed();
}
