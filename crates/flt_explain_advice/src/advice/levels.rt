//! Calls above their level (R07): which level they allow, which one is possible, and what raises it.

ghost use Rattle.std.specs.Prelude.{◌≡◌, length};
ghost use Rattle.flt_explain_advice.specs.Advice.Levels as spec;
ghost use Rattle.flt_explain_advice.specs.Case.{of_case, call_in, instruction};
ghost use Rattle.flt_explain_texts.specs.Page.{Writes};

use crate::case::Case;
use flt_explain_texts::{Page, Part, call_name, kind_name, level_name};
use flt_graph::{LockKind, LockNumber};
use flt_rules::{HeldLock, Level, entry_level, raised_by, row};
use std::alloc::AllocError;

/// A lock that raises the level.
#[derive(Clone, Copy)]
pub(crate) struct RaisingLock {
    pub(crate) lock: LockNumber,
    pub(crate) kind: LockKind,
}

// ---- what is known

/// The name of the call.
fn name(case: &Case<'_>) -> &'static str
    ensures { result.now ≡ spec.name_of (call_in (instruction (of_case case.now))) }
{
    match case.call() {
        Some(call) => call_name(call.call),
        None => "this call",
    }
}

/// The greatest level that the call allows.
fn greatest(case: &Case<'_>) -> Level
    ensures { result ≡ spec.greatest (of_case case.now) }
{
    match case.call() {
        Some(call) => row(call.call).greatest,
        None => Level::Apc,
    }
}

/// A lock of a kind, if it raises the level above another.
fn raiser_of(above: Level, lock: LockNumber, kind: Option<LockKind>) -> Option<RaisingLock>
    ensures { result ≡ spec.raiser_of above lock kind }
{
    match kind {
        Some(kind) if raised_by(Some(kind)).is_above(above) => Some(RaisingLock { lock, kind }),
        _ => None,
    }
}

/// The first of some locks that raises the level above another.
#[tactic(auto, unfolding(crate::specs::Advice::Levels::first_raiser))]
fn first_raiser(case: &Case<'_>, above: Level, locks: &[HeldLock]) -> Option<RaisingLock>
    ensures { result ≡ spec.first_raiser (of_case case.now) above locks.now }
{
    match locks {
        [] => None,
        [first, others @ ..] => {
            match raiser_of(above, first.lock, case.lock_kind(first.lock)) {
                Some(raiser) => Some(raiser),
                None => first_raiser(case, above, others),
            }
        }
    }
}

/// The first lock that raises the level above the greatest that the call allows, if it is known.
#[tactic(auto, unfolding(crate::specs::Advice::Levels::raiser))]
fn raiser(case: &Case<'_>) -> Option<RaisingLock>
    ensures { result ≡ spec.raiser (of_case case.now) }
{
    match case.state() {
        Some(state) => first_raiser(case, greatest(case), state.locks().as_slice()),
        None => None,
    }
}

/// The level that is possible at the call.
#[tactic(auto, unfolding(crate::specs::Advice::Levels::level))]
fn level(case: &Case<'_>) -> Level
    ensures { result ≡ spec.level (of_case case.now) }
{
    let own = entry_level(case.place());
    match raiser(case) {
        Some(raiser) => raised_by(Some(raiser.kind)).max(own),
        None => own,
    }
}

// ---- title

/// Writes which level a call needs.
#[tactic(auto, unfolding(crate::specs::Advice::Levels::need))]
fn tell_need(page: &mut Page, name: &str, greatest: Level) -> Result<(), AllocError>
    ensures { Writes result page.old page.new (spec.need name.now greatest) }
{
    page.say(&[
        Part::Word(name),
        Part::Text(" needs "),
        Part::Text(level_name(greatest)),
        Part::Text(" or below"),
    ])
}

/// Writes that a level is possible, if it is above the greatest that is allowed.
fn tell_excess(page: &mut Page, greatest: Level, possible: Level) -> Result<(), AllocError>
    ensures { Writes result page.old page.new (spec.excess greatest possible) }
{
    if possible.is_above(greatest) {
        page.texts(&[", and this might run at ", level_name(possible)])?;
    }
    Ok(())
}

/// Writes which level the call allows, and which one is possible.
#[tactic(auto, unfolding(crate::specs::Advice::Levels::title))]
pub(crate) fn tell_title(page: &mut Page, case: &Case<'_>) -> Result<(), AllocError>
    ensures { Writes result page.old page.new (spec.title (of_case case.now)) }
{
    let greatest = greatest(case);
    tell_need(page, name(case), greatest)?;
    tell_excess(page, greatest, level(case))?;
    Ok(())
}

// ---- help

/// Writes that a lock raises the level.
#[tactic(auto, unfolding(crate::specs::Advice::Levels::lock_help))]
fn tell_lock(page: &mut Page, case: &Case<'_>, raiser: RaisingLock) -> Result<(), AllocError>
    ensures { Writes result page.old page.new (spec.lock_help (of_case case.now) raiser) }
{
    page.say(&[
        Part::Quoted(case.lock_name(raiser.lock)),
        Part::Text(" is "),
        Part::Text(kind_name(raiser.kind)),
        Part::Text(", which raises the level to "),
        Part::Text(level_name(raised_by(Some(raiser.kind)))),
        Part::Text(": make the call before it is taken, or after its release"),
    ])
}

/// Writes that the callback itself might run at a level: it is a `post` callback, since no other runs above APC_LEVEL.
#[tactic(auto, unfolding(crate::specs::Advice::Levels::callback_help))]
fn tell_callback(page: &mut Page, case: &Case<'_>, level: Level) -> Result<(), AllocError>
    ensures { Writes result page.old page.new (spec.callback_help (of_case case.now) level) }
{
    page.say(&[
        Part::Text("`post` callbacks such as "),
        Part::Quoted(case.head()),
        Part::Text(" might run at "),
        Part::Text(level_name(level)),
        Part::Text(
            ": make the call in its `pre` callback and hand the context over, or in the routine of a deferred work item",
        ),
    ])
}

/// Writes which lock raises the level.
fn tell_raiser(
    page: &mut Page,
    case: &Case<'_>,
    raiser: Option<RaisingLock>,
) -> Result<(), AllocError>
    ensures { Writes result page.old page.new (spec.raiser_help (of_case case.now) raiser) }
{
    match raiser {
        Some(raiser) => tell_lock(page, case, raiser),
        None => page.texts(&[
            "a spin lock that is held raises the level to DISPATCH_LEVEL: make the call before it is taken, or after its release",
        ]),
    }
}

/// Writes what raises the level, and where to make the call.
#[tactic(auto, unfolding(crate::specs::Advice::Levels::help))]
pub(crate) fn tell_help(page: &mut Page, case: &Case<'_>) -> Result<(), AllocError>
    ensures { Writes result page.old page.new (spec.help (of_case case.now)) }
{
    let own = entry_level(case.place());
    if own.is_above(greatest(case)) {
        tell_callback(page, case, own)
    } else {
        tell_raiser(page, case, raiser(case))
    }
}
