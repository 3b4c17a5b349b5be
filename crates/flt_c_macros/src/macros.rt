//! Names of macros.

ghost use Rattle.std.specs.Prelude.{◌≡◌, [], OnOk, OnErr, option_copied};
ghost use Rattle.flt_c_macros.specs.Macros as spec;

use flt_c_tokens::Token;
use indexmap::IndexMap;
use sqlite_items::Items;
use std::alloc::{AllocError, Global};
use std::marker::Model;

/// A name's definition.
#[derive(Drop)]
pub enum Macro {
    /// No macro.
    Undefined,
    /// A macro without parameters, and its body.
    Plain(Items<Token>),
    /// A macro with parameters: these by their spellings' numbers, the last of them again if it stands for `...`, and the body.
    WithParameters(Items<u32>, Option<u32>, Items<Token>),
    /// Its last line is in a branch that isn't decided: nothing is known of the name.
    Undecided,
}

/// The names that a line defined or undefined, by the numbers of their spellings, each once.
#[derive(Drop)]
pub struct Macros {
    map: IndexMap<u32, Macro>,
}

impl Model for Macros {
    ghost use Rattle.std.specs.Prelude.{List, ℕ};
    ghost use Rattle.flt_c_macros.specs.declared.macros.Macro.{Macro};

    ghost Value = { List (ℕ × Macro) };

    ghost view = { λ a. a.map.entries };
}

impl Macros {
    pub fn new(alloc: Global) -> Macros
        ensures { result ≡ [] }
    {
        Macros {
            map: IndexMap::new(alloc),
        }
    }

    pub fn get(&self, name: u32) -> Option<&Macro>
        ensures { option_copied result ≡ spec.macro_of self.now name }
    {
        self.map.get(&name)
    }

    /// Gives a name another definition.
    pub fn set(&mut self, name: u32, what: Macro) -> Result<(), AllocError>
        ensures { OnOk result (self.new ≡ spec.with_macro self.old name what) }
    {
        match self.map.insert(name, what) {
            Ok(_) => Ok(()),
            Err(_) => Err(AllocError),
        }
    }
}
