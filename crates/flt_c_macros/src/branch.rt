//! Groups of lines: `#if` to `#endif`.

ghost use Rattle.flt_c_macros.specs.Branches as spec;
ghost use Rattle.flt_c_macros.specs.States.{Does, Stay};
ghost use Rattle.std.specs.Prelude.{◌≡◌, OnOk};

use crate::error::MacroError;
use crate::form::{Form, spelled, value_of};
use crate::groups::Group;
use crate::guard::opening_value;
use crate::note::NoteKind;
use crate::state::{State, mark, numbered};
use flt_c_tokens::{Kind, Spellings, Token};
use std::alloc::{AllocError, Global};

/// Marks a branch whose condition is unknown, by the number of the condition's spelling.
#[tactic(auto, unfolding(crate::specs::Branches::marked))]
fn mark_branch(
    alloc: Global,
    spellings: &mut Spellings,
    state: &mut State,
    kind: Kind,
    at: Token,
    form: Form,
    line: &[Token],
) -> Result<(), MacroError>
    ensures done { Does (spec.marked kind at form line.now (spellings.old, state.old)) result spellings.new state.new }
    ensures stay { Stay spellings.old spellings.new }
{
    let text = spelled(alloc, spellings, form, line)?;
    let word = numbered(alloc, spellings, text.as_slice(), at)?;
    state.push(mark(kind, word, at))?;
    Ok(())
}

/// Opens a group, by the line of its `#if` and the tokens after it.
#[tactic(auto, using(crate::proofs::Spellings::stay_there), unfolding(crate::specs::Branches::opened))]
pub fn open(
    alloc: Global,
    spellings: &mut Spellings,
    state: &mut State,
    at: Token,
    form: Form,
    line: &[Token],
    after: &[Token],
) -> Result<(), MacroError>
    ensures done { Does (spec.opened at form line.now after.now (spellings.old, state.old)) result spellings.new state.new }
    ensures stay { Stay spellings.old spellings.new }
{
    let mut group = Group {
        at,
        is_marked: false,
        is_read: false,
        is_over: true,
        is_certain: false,
    };
    if state.is_read() {
        match opening_value(spellings, &state.macros, form, line, after) {
            None => {
                mark_branch(alloc, spellings, state, Kind::GroupIf, at, form, line)?;
                group.is_marked = true;
                group.is_read = true;
                group.is_over = false;
            }
            Some(number) => {
                group.is_read = number != 0;
                group.is_over = number != 0;
                group.is_certain = state.is_certain();
            }
        }
    }
    state.open(group)?;
    Ok(())
}

/// The next branch of the innermost group.
#[tactic(auto, using(crate::proofs::Spellings::stay_there), unfolding(crate::specs::Branches::parted))]
pub fn part(
    alloc: Global,
    spellings: &mut Spellings,
    state: &mut State,
    at: Token,
    form: Form,
    line: &[Token],
) -> Result<(), MacroError>
    ensures done { Does (spec.parted at form line.now (spellings.old, state.old)) result spellings.new state.new }
    ensures stay { Stay spellings.old spellings.new }
{
    let mut group = match state.groups.top() {
        None => {
            state.note(NoteKind::NoGroup, at)?;
            return Ok(());
        }
        Some(group) => group,
    };
    if group.is_over {
        group.is_read = false;
    } else {
        match value_of(spellings, &state.macros, form, line) {
            None => {
                let kind = if group.is_marked {
                    Kind::GroupElse
                } else {
                    Kind::GroupIf
                };
                mark_branch(alloc, spellings, state, kind, at, form, line)?;
                group.is_marked = true;
                group.is_read = true;
                group.is_certain = false;
            }
            Some(number) => {
                if number != 0 && group.is_marked {
                    state.push(mark(Kind::GroupElse, 0, at))?;
                }
                group.is_read = number != 0;
                group.is_over = number != 0;
            }
        }
    }
    state.change(group)?;
    Ok(())
}

/// Writes the end of a group, if its beginning was written.
fn mark_end(state: &mut State, group: Group, at: Token) -> Result<(), AllocError>
    ensures { OnOk result (state.new ≡ spec.end_marked group at state.old) }
{
    if group.is_marked {
        state.push(mark(Kind::GroupEnd, 0, at))?;
    }
    Ok(())
}

/// Closes the innermost group.
pub fn end(state: &mut State, at: Token) -> Result<(), AllocError>
    ensures { OnOk result (state.new ≡ spec.ended at state.old) }
{
    match state.groups.pop() {
        None => state.note(NoteKind::NoGroup, at),
        Some(group) => mark_end(state, group, at),
    }
}

/// Closes the groups that are open at the end, and notes each.
pub fn close(state: &mut State) -> Result<(), AllocError>
    ensures { OnOk result (state.new ≡ spec.closed state.old) }
{
    while let Some(group) = state.groups.pop() {
        state.note(NoteKind::OpenGroup, group.at)?;
        mark_end(state, group, group.at)?;
    }
    Ok(())
}
