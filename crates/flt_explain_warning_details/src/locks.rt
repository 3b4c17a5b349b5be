//! Locks: taken in no order (W01), and held where the system may run other callbacks (W02).

ghost use Rattle.std.specs.Prelude.{◌≡◌, ◌++◌, map, IfOk, OnOk};
ghost use Rattle.flt_explain_texts.specs.Page.{Writes};
ghost use Rattle.flt_explain_warning_details.specs.Locks as spec;
ghost use Rattle.flt_explain_warning_details.specs.Parsed.{of_parsed};

use crate::detail::RelatedPlace;
use crate::parsed::ParsedText;
use crate::places::{NOWHERE, bare, marks_at};
use flt_explain::Subject;
use flt_explain_texts::{Marks, Page, Part, call_name};
use flt_explain_warnings::Site;
use flt_graph::{Instruction, LockNumber};
use flt_order::Acquisition;
use sqlite_items::Items;
use std::alloc::{AllocError, Global};

// ---- W01

/// Writes the problem of the first acquisition of a circle.
#[tactic(auto, unfolding(crate::specs::Locks::order_title))]
fn tell_order_title(
    page: &mut Page,
    text: &ParsedText<'_>,
    first: &Acquisition,
) -> Result<(), AllocError>
    ensures { Writes result page.old page.new (spec.order_title (of_parsed text.now) first.now) }
{
    page.say(&[
        Part::Quoted(text.lock(first.taken)),
        Part::Text(" is taken while "),
        Part::Quoted(text.lock(first.holding)),
        Part::Text(" is held, against the order of other places"),
    ])
}

/// Writes how to fix that.
#[tactic(auto, unfolding(crate::specs::Locks::order_help))]
fn tell_order_help(
    page: &mut Page,
    text: &ParsedText<'_>,
    first: &Acquisition,
) -> Result<(), AllocError>
    ensures { Writes result page.old page.new (spec.order_help (of_parsed text.now) first.now) }
{
    page.say(&[
        Part::Text("take these locks in one order at all places, or release "),
        Part::Quoted(text.lock(first.holding)),
        Part::Text(" before this call"),
    ])
}

/// Writes the problem of a circle.
pub(crate) fn tell_circle_title(
    page: &mut Page,
    text: &ParsedText<'_>,
    circle: &[Acquisition],
) -> Result<(), AllocError>
    ensures { Writes result page.old page.new (spec.circle_title (of_parsed text.now) circle.now) }
{
    match circle {
        [first, ..] => tell_order_title(page, text, first),
        [] => Ok(()),
    }
}

/// Writes how to fix a circle.
pub(crate) fn tell_circle_help(
    page: &mut Page,
    text: &ParsedText<'_>,
    circle: &[Acquisition],
) -> Result<(), AllocError>
    ensures { Writes result page.old page.new (spec.circle_help (of_parsed text.now) circle.now) }
{
    match circle {
        [first, ..] => tell_order_help(page, text, first),
        [] => Ok(()),
    }
}

/// Writes the possible consequence of a circle.
pub(crate) fn tell_circle_note(page: &mut Page) -> Result<(), AllocError>
    ensures { Writes result page.old page.new spec.circle_note }
{
    page.texts(&[
        "callbacks that each hold one of these locks and ask for the next might wait for one another forever",
    ])
}

/// Writes what an acquisition of a circle does.
#[tactic(auto, unfolding(crate::specs::Locks::acquisition_words))]
fn tell_acquisition(
    page: &mut Page,
    text: &ParsedText<'_>,
    acquisition: &Acquisition,
) -> Result<(), AllocError>
    ensures { Writes result page.old page.new (spec.acquisition_words (of_parsed text.now) acquisition.now) }
{
    page.say(&[
        Part::Text("takes "),
        Part::Quoted(text.lock(acquisition.taken)),
        Part::Text(" while "),
        Part::Quoted(text.lock(acquisition.holding)),
        Part::Text(" is held"),
    ])
}

fn site_of(acquisition: &Acquisition) -> Site
    ensures { result ≡ spec.site_of acquisition.now }
{
    Site {
        callback: acquisition.callback,
        point: acquisition.point,
    }
}

/// The regions of an acquisition, and in it of the lock that it takes.
fn acquisition_marks(
    alloc: Global,
    text: &ParsedText<'_>,
    acquisition: &Acquisition,
) -> Result<Marks, AllocError>
    ensures { IfOk result (λ m. m ≡ spec.acquisition_marks (of_parsed text.now) acquisition.now) }
{
    let subject = Subject::Lock(acquisition.taken);
    marks_at(alloc, text, site_of(acquisition), subject)
}

/// The regions of the first acquisition of a circle.
pub(crate) fn circle_marks(
    alloc: Global,
    text: &ParsedText<'_>,
    circle: &[Acquisition],
) -> Result<Marks, AllocError>
    ensures { IfOk result (λ m. m ≡ spec.circle_marks (of_parsed text.now) circle.now) }
{
    match circle {
        [first, ..] => acquisition_marks(alloc, text, first),
        [] => Ok(bare(text.scene.lines.region(NOWHERE))),
    }
}

/// The place of an acquisition of a circle.
fn acquisition_place(
    alloc: Global,
    text: &ParsedText<'_>,
    acquisition: &Acquisition,
) -> Result<RelatedPlace, AllocError>
    ensures { IfOk result (λ r. r ≡ spec.acquisition_place (of_parsed text.now) acquisition.now) }
{
    let marks = acquisition_marks(alloc, text, acquisition)?;
    let mut page = Page::new(alloc);
    tell_acquisition(&mut page, text, acquisition)?;
    Ok(RelatedPlace {
        marks,
        words: Items::from_vec(page.out),
    })
}

/// The places of some acquisitions.
fn acquisition_places(
    alloc: Global,
    text: &ParsedText<'_>,
    acquisitions: &[Acquisition],
) -> Result<Items<RelatedPlace>, AllocError>
    ensures { IfOk result (λ all. all ≡ map (spec.acquisition_place (of_parsed text.now)) acquisitions.now) }
{
    let mut all = Items::new(alloc);
    for acquisition in acquisitions {
        all.push(acquisition_place(alloc, text, acquisition)?)?;
    }
    Ok(all)
}

/// The places of a circle's acquisitions, without the first.
pub(crate) fn circle_places(
    alloc: Global,
    text: &ParsedText<'_>,
    circle: &[Acquisition],
) -> Result<Items<RelatedPlace>, AllocError>
    ensures { IfOk result (λ all. all ≡ spec.circle_places (of_parsed text.now) circle.now) }
{
    match circle {
        [_, others @ ..] => acquisition_places(alloc, text, others),
        [] => Ok(Items::new(alloc)),
    }
}

// ---- W02

/// The name of the call of an instruction.
pub(crate) fn called(instruction: &Instruction) -> &'static str
    ensures { result.now ≡ spec.called instruction.now }
{
    match instruction {
        Instruction::Call(call, _, _) => call_name(call.roles().call),
        _ => "this call",
    }
}

/// Writes that a call is made while a lock is held.
#[tactic(auto, unfolding(crate::specs::Locks::called_title))]
pub(crate) fn tell_called_title(
    page: &mut Page,
    text: &ParsedText<'_>,
    site: Site,
    lock: LockNumber,
) -> Result<(), AllocError>
    ensures { Writes result page.old page.new (spec.called_title (of_parsed text.now) site lock) }
{
    page.say(&[
        Part::Word(called(&text.instruction(site))),
        Part::Text(" is called while "),
        Part::Quoted(text.lock(lock)),
        Part::Text(" is held"),
    ])
}

/// Writes how to fix that.
#[tactic(auto, unfolding(crate::specs::Locks::called_help))]
pub(crate) fn tell_called_help(
    page: &mut Page,
    text: &ParsedText<'_>,
    lock: LockNumber,
) -> Result<(), AllocError>
    ensures { Writes result page.old page.new (spec.called_help (of_parsed text.now) lock) }
{
    page.say(&[
        Part::Text("release "),
        Part::Quoted(text.lock(lock)),
        Part::Text(" before this call"),
    ])
}

/// Writes the possible consequence.
#[tactic(auto, unfolding(crate::specs::Locks::called_note))]
pub(crate) fn tell_called_note(
    page: &mut Page,
    text: &ParsedText<'_>,
    lock: LockNumber,
) -> Result<(), AllocError>
    ensures { Writes result page.old page.new (spec.called_note (of_parsed text.now) lock) }
{
    page.say(&[
        Part::Text(
            "the system might run other callbacks before the call returns, and these might wait for ",
        ),
        Part::Quoted(text.lock(lock)),
    ])
}
