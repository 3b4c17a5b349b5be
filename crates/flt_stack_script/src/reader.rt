//! Scripts from their text.

ghost use Rattle.std.specs.Prelude.{◌≡◌, ◌++◌, Some, IfOk, IfSome, IsTrue, MatchResult, option_map};
ghost use Rattle.flt_model.specs.Program.{filters_of};
ghost use Rattle.flt_model.specs.Streams.{Text};
ghost use Rattle.flt_stack_script.specs.ScriptText as spec;
ghost use Rattle.flt_stack_script.specs.declared.command.Command.{Command};

use crate::command::Command;
use crate::fault::ScriptFault;
use crate::rules::may_follow;
use crate::script::Script;
use flt_model::{Move, read_move, read_number};
use flt_tree::Tree;
use sqlite_items::Items;
use std::alloc::Global;

/// The command that is this move, if it is one.
fn command_of(made: Move) -> Option<Command>
    ensures { result ≡ spec.command_of made }
{
    match made {
        Move::Arrive {
            operation,
            mode,
            file,
        } => Some(Command::Arrive {
            operation,
            mode,
            file,
        }),
        Move::Cancel { serial } => Some(Command::Cancel { serial }),
        Move::Detach { altitude } => Some(Command::Detach { altitude }),
        _ => None,
    }
}

/// The command whose line comes next, whether or not it is legal there.
fn command_at(text: &mut &[u8]) -> Option<Command>
    ensures spelled { IfSome result (λ command. text.old.now ≡ spec.command_line command ++ text.new.now) }
    ensures read { (command : Command) → IsTrue (spec.is_command command) → (behind : Text) →
        text.old.now ≡ spec.command_line command ++ behind → (result ≡ Some command) × (text.new.now ≡ behind) }
{
    let [first, others @ ..] = *text else {
        return None;
    };
    *text = others;
    if *first == b'r' {
        let choice = read_number(text, b"efuse ").ok()?;
        return Some(Command::Refuse { choice });
    }
    command_of(read_move(text, *first).ok()?)
}

/// The command whose line comes next, if it is legal after those before it.
fn next_command(stack: Option<&[Tree]>, before: &[Command], text: &mut &[u8]) -> Option<Command>
    ensures spelled { IfSome result (λ command. text.old.now ≡ spec.command_line command ++ text.new.now) }
    ensures follows { IfSome result
        (λ command. IsTrue (spec.may_follow (option_map (λ trees. filters_of trees.now) stack.entry) before.now command)) }
    ensures read { (command : Command) →
        IsTrue (spec.may_follow (option_map (λ trees. filters_of trees.now) stack.entry) before.now command) → (behind : Text) →
        text.old.now ≡ spec.command_line command ++ behind → (result ≡ Some command) × (text.new.now ≡ behind) }
{
    let command = command_at(text)?;
    if may_follow(stack, before, command) {
        Some(command)
    } else {
        None
    }
}

/// The script that the text spells, all of it, for a stack of these filters, if it is known.
pub fn read(alloc: Global, stack: Option<&[Tree]>, text: &[u8]) -> Result<Script, ScriptFault>
    // What is read is spelled so.
    ensures spelled { IfOk result (λ script. text.now ≡ spec.spelling script) }
    ensures script { IfOk result (λ script. IsTrue (spec.is_script (option_map (λ trees. filters_of trees.now) stack.entry) script)) }
    // What is spelled so is read, unless memory runs out.
    ensures read { (commands : spec.Commands) → IsTrue (spec.is_script (option_map (λ trees. filters_of trees.now) stack.entry) commands) →
        text.now ≡ spec.spelling commands → MatchResult result (λ script. script ≡ commands) (λ e. e ≡ ScriptFault.OutOfMemory) }
    // A fault names the first malformed line.
    ensures fault { MatchResult result (λ _. Unit {0})
        (λ e. spec.IsFaultOf (option_map (λ trees. filters_of trees.now) stack.entry) text.now e) }
{
    let mut found = Items::new(alloc);
    let mut left = text;
    while !left.is_empty() {
        match next_command(stack, found.as_slice(), &mut left) {
            Some(command) => found.push(command)?,
            None => return Err(ScriptFault::Line(found.len() + 1)),
        }
    }
    Ok(Script::new(found))
}
