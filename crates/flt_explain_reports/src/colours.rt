//! The escape sequences that set how a terminal draws the text that follows; empty without colours.

ghost use Rattle.std.specs.Prelude.{◌≡◌};
ghost use Rattle.flt_explain_reports.specs.Colours as spec;

#[tactic(auto, unfolding(crate::specs::Colours::red))]
pub(crate) fn red(coloured: bool) -> &'static str
    ensures { result.now ≡ spec.red coloured }
{
    if coloured { "\x1b[1;31m" } else { "" }
}

#[tactic(auto, unfolding(crate::specs::Colours::yellow))]
pub(crate) fn yellow(coloured: bool) -> &'static str
    ensures { result.now ≡ spec.yellow coloured }
{
    if coloured { "\x1b[1;33m" } else { "" }
}

#[tactic(auto, unfolding(crate::specs::Colours::blue))]
pub(crate) fn blue(coloured: bool) -> &'static str
    ensures { result.now ≡ spec.blue coloured }
{
    if coloured { "\x1b[1;34m" } else { "" }
}

#[tactic(auto, unfolding(crate::specs::Colours::bold))]
pub(crate) fn bold(coloured: bool) -> &'static str
    ensures { result.now ≡ spec.bold coloured }
{
    if coloured { "\x1b[1m" } else { "" }
}

/// Ends a colour or bold type.
#[tactic(auto, unfolding(crate::specs::Colours::plain))]
pub(crate) fn plain(coloured: bool) -> &'static str
    ensures { result.now ≡ spec.plain coloured }
{
    if coloured { "\x1b[0m" } else { "" }
}
