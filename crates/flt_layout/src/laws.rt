//! The laws of the layout.

ghost use Rattle.flt_layout.specs.Laws.{KeepsItems, IsLaidOutOnce, KeepsComments, TokensAreItems, KeepsTokens, KeepsTree};

/// The layout keeps tokens and comments. It does nothing at run time: its clause is a law.
#[tactic(auto, using(crate::proofs::Kept::keeps_items))]
pub fn keeps_items()
    ensures { KeepsItems }
{}

/// Laying out twice is laying out once. It does nothing at run time: its clause is a law.
#[tactic(auto, using(crate::proofs::Settled::laid_out_once))]
pub fn is_laid_out_once()
    ensures { IsLaidOutOnce }
{
    keeps_items();
}

/// Each comment is in the layout once, in order, and as it was: on the line of a token or on one of its own, below a blank line or not. It
/// does nothing at run time: its clause is a law.
#[tactic(auto, using(crate::proofs::Settled::keeps_comments))]
pub fn keeps_comments()
    ensures { KeepsComments }
{
    keeps_items();
}

/// The tokens of a text are those among its items. It does nothing at run time: its clause is a law.
#[tactic(auto, using(crate::proofs::SameTokens::tokens_are_items))]
pub fn tokens_are_items()
    ensures { TokensAreItems }
{}

/// The layout keeps tokens apart from their places. It does nothing at run time: its clause is a law.
#[tactic(auto, using(crate::proofs::SameTokens::keeps_tokens))]
pub fn keeps_tokens()
    ensures { KeepsTokens }
{
    keeps_items();
    tokens_are_items();
}

/// The layout spells the filter that the text spells, apart from places, if it is not too long. It does nothing at run time: its clause is
/// a law.
#[tactic(auto, using(crate::proofs::SameTree::keeps_tree))]
pub fn keeps_tree()
    ensures { KeepsTree }
{
    keeps_tokens();
}
