//! Scripts as values.

ghost use Rattle.std.specs.Prelude.{◌≡◌, IsTrue};
ghost use Rattle.std.specs.List.{list_all};
ghost use Rattle.flt_stack_script.specs.ScriptText.{is_command};

use crate::command::Command;
use sqlite_items::Items;
use std::marker::Model;

/// The commands to a stack, in order. Each command's numbers and mode are within their bounds.
#[derive(Drop)]
pub struct Script {
    commands: Items<Command>,
}

impl Model for Script {
    ghost use Rattle.std.specs.Prelude.{IsTrue};
    ghost use Rattle.std.specs.List.{list_all};
    ghost use Rattle.flt_stack_script.specs.ScriptText.{Commands, is_command};

    ghost Value = { Commands };

    ghost view = { λ s. s.commands };

    ghost invariant = { λ s. IsTrue (list_all is_command s.commands) };
}

impl Script {
    pub(crate) fn new(commands: Items<Command>) -> Script
        requires { IsTrue (list_all is_command commands) }
        ensures { result ≡ commands }
    {
        Script { commands }
    }

    /// The commands, the first one first.
    pub fn commands(&self) -> &[Command]
        ensures value { result.now ≡ self.now }
        ensures each { IsTrue (list_all is_command self.now) }
    {
        self.commands.as_slice()
    }
}
