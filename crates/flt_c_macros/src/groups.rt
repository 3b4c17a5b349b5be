//! Groups of lines that are open.

ghost use Rattle.std.specs.Prelude.{◌≡◌, [], ◌∷◌, OnOk, MatchOption};
ghost use Rattle.flt_c_macros.specs.Groups as spec;

use flt_c_tokens::Token;
use sqlite_items::Items;
use std::alloc::{AllocError, Global};
use std::marker::Model;

/// A group of lines from an `#if` to its `#endif`, of which one branch is being read or passed over.
#[derive(Clone, Copy)]
pub struct Group {
    /// The `#` of its `#if`.
    pub at: Token,
    /// Whether `GroupIf` was written for it, so that a `GroupEnd` must be.
    pub is_marked: bool,
    /// Whether this branch is read.
    pub is_read: bool,
    /// Whether no later branch is read, whatever its condition.
    pub is_over: bool,
    /// Whether the text of this branch is certain to be in the driver: neither this group nor one around it is marked.
    pub is_certain: bool,
}

/// The open groups. A contract sees the innermost one first.
#[derive(Drop)]
pub struct Groups {
    groups: Items<Group>,
}

impl Model for Groups {
    ghost use Rattle.std.specs.Prelude.{List, reverse};
    ghost use Rattle.flt_c_macros.specs.declared.groups.Group.{Group};

    ghost Value = { List Group };

    ghost view = { λ a. reverse a.groups };
}

impl Groups {
    pub fn new(alloc: Global) -> Groups
        ensures { result ≡ [] }
    {
        Groups {
            groups: Items::new(alloc),
        }
    }

    /// The innermost group.
    pub fn top(&self) -> Option<Group>
        ensures { result ≡ spec.top self.now }
    {
        match self.groups.as_slice() {
            [] => None,
            [.., last] => Some(*last),
        }
    }

    pub fn push(&mut self, group: Group) -> Result<(), AllocError>
        ensures { OnOk result (self.new ≡ group ∷ self.old) }
    {
        self.groups.push(group)
    }

    /// Closes the innermost group.
    pub fn pop(&mut self) -> Option<Group>
        ensures { MatchOption result ((self.old ≡ []) × (self.new ≡ [])) (λ group. self.old ≡ group ∷ self.new) }
    {
        self.groups.pop()
    }

    /// Puts another group in the place of the innermost one.
    pub fn change(&mut self, group: Group) -> Result<(), AllocError>
        ensures { OnOk result (self.new ≡ spec.with_top group self.old) }
    {
        match self.groups.pop() {
            None => Ok(()),
            Some(_) => self.groups.push(group),
        }
    }
}
