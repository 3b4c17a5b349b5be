//! Contexts: whose values are changed without a lock (W04), and that might not be set (W05).

ghost use Rattle.std.specs.Prelude.{◌≡◌, IfOk};
ghost use Rattle.flt_explain_texts.specs.Page.{Writes, said};
ghost use Rattle.flt_explain_warning_details.specs.Contexts as spec;
ghost use Rattle.flt_explain_warning_details.specs.Parsed.{of_parsed};

use crate::detail::RelatedPlace;
use crate::locks::called;
use crate::parsed::ParsedText;
use crate::places::marks_at;
use flt_explain::Subject;
use flt_explain_texts::{Page, Part};
use flt_explain_warnings::Site;
use flt_graph::{Action, ContextVariable, Instruction};
use sqlite_items::Items;
use std::alloc::{AllocError, Global};

/// The context that an instruction works on.
pub(crate) fn worked_on(instruction: &Instruction) -> Option<ContextVariable>
    ensures { result ≡ spec.worked_on instruction.now }
{
    match instruction {
        Instruction::Act(Action::ReadValue(_, context), _) => Some(*context),
        Instruction::Act(Action::WriteValue(context, _), _) => Some(*context),
        Instruction::Call(call, _, _) => call.roles().context,
        _ => None,
    }
}

/// The variable in which a call returns the context that it found.
fn found_in(instruction: &Instruction) -> Option<ContextVariable>
    ensures { result ≡ spec.found_in instruction.now }
{
    match instruction {
        Instruction::Call(call, _, _) => call.roles().output,
        _ => None,
    }
}

/// The subject of an instruction that works on a context: the context, or the call if there is none.
pub(crate) fn subject_of(context: Option<ContextVariable>) -> Subject
    ensures { result ≡ spec.subject_of context }
{
    match context {
        Some(context) => Subject::Context(context),
        None => Subject::Call,
    }
}

/// The context that an instruction works on, in words.
fn context_part<'a>(text: &ParsedText<'a>, context: Option<ContextVariable>) -> Part<'a>
    ensures { said result ≡ spec.context_told context }
{
    match context {
        Some(context) => Part::Quoted(text.context(context)),
        None => Part::Text("this context"),
    }
}

// ---- W04

/// Writes that a value is written under no common lock.
#[tactic(auto, unfolding(crate::specs::Contexts::changed_title))]
pub(crate) fn tell_changed_title(
    page: &mut Page,
    text: &ParsedText<'_>,
    site: Site,
) -> Result<(), AllocError>
    ensures { Writes result page.old page.new (spec.changed_title (of_parsed text.now) site) }
{
    let context = worked_on(&text.instruction(site));
    page.say(&[
        Part::Text("the value of "),
        context_part(text, context),
        Part::Text(" is written with no lock in common with another use"),
    ])
}

/// Writes how to fix that.
pub(crate) fn tell_changed_help(page: &mut Page) -> Result<(), AllocError>
    ensures { Writes result page.old page.new spec.changed_help }
{
    page.texts(&["hold one lock wherever this value is read or written"])
}

/// Writes the possible consequence.
pub(crate) fn tell_changed_note(page: &mut Page) -> Result<(), AllocError>
    ensures { Writes result page.old page.new spec.changed_note }
{
    page.texts(&["callbacks that run at the same time might lose one of two changes"])
}

/// The access of an instruction to a value, in words.
fn access(instruction: &Instruction) -> &'static str
    ensures { result.now ≡ spec.access instruction.now }
{
    match instruction {
        Instruction::Act(Action::WriteValue(_, _), _) => "writes the value of ",
        _ => "reads the value of ",
    }
}

/// Writes what the other use of a value does.
#[tactic(auto, unfolding(crate::specs::Contexts::access_words))]
fn tell_access(page: &mut Page, text: &ParsedText<'_>, site: Site) -> Result<(), AllocError>
    ensures { Writes result page.old page.new (spec.access_words (of_parsed text.now) site) }
{
    let instruction = text.instruction(site);
    page.say(&[
        Part::Text(access(&instruction)),
        context_part(text, worked_on(&instruction)),
    ])
}

/// The place of the other use of a value.
pub(crate) fn access_place(
    alloc: Global,
    text: &ParsedText<'_>,
    site: Site,
) -> Result<RelatedPlace, AllocError>
    ensures { IfOk result (λ r. r ≡ spec.access_place (of_parsed text.now) site) }
{
    let subject = subject_of(worked_on(&text.instruction(site)));
    let marks = marks_at(alloc, text, site, subject)?;
    let mut page = Page::new(alloc);
    tell_access(&mut page, text, site)?;
    Ok(RelatedPlace {
        marks,
        words: Items::from_vec(page.out),
    })
}

// ---- W05

/// Writes that a context might not be set.
#[tactic(auto, unfolding(crate::specs::Contexts::lost_title))]
pub(crate) fn tell_lost_title(
    page: &mut Page,
    text: &ParsedText<'_>,
    site: Site,
) -> Result<(), AllocError>
    ensures { Writes result page.old page.new (spec.lost_title (of_parsed text.now) site) }
{
    let instruction = text.instruction(site);
    page.say(&[
        context_part(text, worked_on(&instruction)),
        Part::Text(" is used where "),
        Part::Word(called(&instruction)),
        Part::Text(" might not have set it"),
    ])
}

/// Writes which context to use, by the variable that has it.
#[tactic(auto, unfolding(crate::specs::Contexts::lost_help))]
pub(crate) fn tell_lost_help(
    page: &mut Page,
    text: &ParsedText<'_>,
    site: Site,
) -> Result<(), AllocError>
    ensures { Writes result page.old page.new (spec.lost_help (of_parsed text.now) site) }
{
    let instruction = text.instruction(site);
    let own = context_part(text, worked_on(&instruction));
    match found_in(&instruction) {
        Some(other) => page.say(&[
            Part::Text("where the call fails, release "),
            own,
            Part::Text(" and use "),
            Part::Quoted(text.context(other)),
            Part::Text(", which has the context that is set"),
        ]),
        None => page.say(&[
            Part::Text("where the call fails, release "),
            own,
            Part::Text(" and use the context that is set: `old` and a variable receive it"),
        ]),
    }
}

/// Writes the possible consequence.
#[tactic(auto, unfolding(crate::specs::Contexts::lost_note))]
pub(crate) fn tell_lost_note(
    page: &mut Page,
    text: &ParsedText<'_>,
    site: Site,
) -> Result<(), AllocError>
    ensures { Writes result page.old page.new (spec.lost_note (of_parsed text.now) site) }
{
    page.say(&[
        Part::Text(
            "where another context is set already, no other callback sees values written in ",
        ),
        context_part(text, worked_on(&text.instruction(site))),
    ])
}

/// Writes that a context is used that might be set nowhere.
#[tactic(auto, unfolding(crate::specs::Contexts::lost_words))]
fn tell_lost_use(
    page: &mut Page,
    text: &ParsedText<'_>,
    context: Option<ContextVariable>,
) -> Result<(), AllocError>
    ensures { Writes result page.old page.new (spec.lost_words context) }
{
    page.say(&[
        Part::Text("uses "),
        context_part(text, context),
        Part::Text(", which might be set nowhere"),
    ])
}

/// The place where a context is used that might not be set.
pub(crate) fn lost_place(
    alloc: Global,
    text: &ParsedText<'_>,
    site: Site,
    point: usize,
) -> Result<RelatedPlace, AllocError>
    ensures { IfOk result (λ r. r ≡ spec.lost_place (of_parsed text.now) site point) }
{
    let context = worked_on(&text.instruction(site));
    let used = Site {
        callback: site.callback,
        point,
    };
    let marks = marks_at(alloc, text, used, subject_of(context))?;
    let mut page = Page::new(alloc);
    tell_lost_use(&mut page, text, context)?;
    Ok(RelatedPlace {
        marks,
        words: Items::from_vec(page.out),
    })
}
