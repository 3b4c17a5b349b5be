//! Laws of what goes out.

ghost use Rattle.flt_door.specs.Door.{AreShown, at_door};
ghost use Rattle.flt_shown.specs.Shown.{Text};

/// Each byte that goes out is a line feed, or belongs to a character that is shown or to one of the program's own colours, whatever is let
/// out. It does nothing at run time: its clause is the law.
#[tactic(auto, using(crate::proofs::Passing::all_shown))]
pub fn all_that_goes_out_is_shown()
    ensures { (z : Text) → AreShown (at_door z) }
{}
