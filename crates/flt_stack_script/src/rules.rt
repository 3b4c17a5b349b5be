//! Which commands are legal in a script, and where.

ghost use Rattle.std.specs.Prelude.{◌≡◌, ◌==◌, option_map};
ghost use Rattle.std.specs.List.{list_any};
ghost use Rattle.flt_model.specs.Program.{filters_of};
ghost use Rattle.flt_stack_script.specs.ScriptText as spec;

use crate::command::Command;
use flt_rules::MAX_OPERATIONS;
use flt_tree::Tree;

/// How many files there are.
const FILES: u32 = 1024;

/// How many operations a stack takes.
const OPERATIONS: u32 = MAX_OPERATIONS as u32;

/// Whether its mode and numbers are within their bounds.
fn is_command(command: Command) -> bool
    ensures { result ≡ spec.is_command command }
{
    match command {
        Command::Arrive {
            operation,
            mode,
            file,
        } => operation.fits(mode) && file < FILES,
        Command::Cancel { serial } => serial < OPERATIONS,
        Command::Detach { .. } | Command::Refuse { .. } => true,
    }
}

fn has_altitude(trees: &[Tree], altitude: u64) -> bool
    ensures { result ≡ list_any (λ tree. tree.filter.altitude == altitude) trees.now }
{
    trees.iter().any(|tree| tree.filter.altitude == altitude)
}

fn is_loaded(stack: Option<&[Tree]>, altitude: u32) -> bool
    ensures { result ≡ spec.is_loaded (option_map (λ trees. filters_of trees.now) stack.entry) altitude }
{
    match stack {
        Some(trees) => has_altitude(trees, altitude as u64),
        None => true,
    }
}

fn detaches(command: &Command, altitude: u32) -> bool
    ensures { result ≡ spec.detaches altitude command.now }
{
    match command {
        Command::Detach { altitude: other } => *other == altitude,
        _ => false,
    }
}

fn is_detached(commands: &[Command], altitude: u32) -> bool
    ensures { result ≡ list_any (spec.detaches altitude) commands.now }
{
    commands.iter().any(|command| detaches(command, altitude))
}

/// Whether the command, after others, detaches no filter but one of the stack, and that for the first time.
fn detaches_legally(stack: Option<&[Tree]>, before: &[Command], command: Command) -> bool
    ensures { result ≡ spec.detaches_legally (option_map (λ trees. filters_of trees.now) stack.entry) before.now command }
{
    match command {
        Command::Detach { altitude } => {
            is_loaded(stack, altitude) && !is_detached(before, altitude)
        }
        _ => true,
    }
}

/// Whether the command is legal after others, on a stack of these filters, if it is known.
pub(crate) fn may_follow(stack: Option<&[Tree]>, before: &[Command], command: Command) -> bool
    ensures { result ≡ spec.may_follow (option_map (λ trees. filters_of trees.now) stack.entry) before.now command }
{
    is_command(command) && detaches_legally(stack, before, command)
}
