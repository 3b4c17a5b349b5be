//! Functions of the driver that make a call of the kit's, as comments `@flt-call` declare them.

ghost use Rattle.std.specs.Prelude.{◌≡◌, [], OnOk};
ghost use Rattle.flt_c_drift.specs.Wrappers as spec;

use crate::names::call_of;
use indexmap::IndexMap;
use std::alloc::{AllocError, Global};
use std::marker::Model;

/// Functions that make one of the calls each, in the order of their declarations, and no two of one name.
#[derive(Drop)]
pub(crate) struct Wrappers {
    calls: IndexMap<Vec<u8>, usize>,
}

impl Model for Wrappers {
    ghost use Rattle.std.specs.Prelude.{List, map};
    ghost use Rattle.flt_c_drift.specs.Wrappers.{Wrapping, wrapping_of};

    ghost Value = { List Wrapping };

    ghost view = { λ w. map wrapping_of w.calls.entries };
}

impl Wrappers {
    pub(crate) fn new(alloc: Global) -> Wrappers
        ensures { result ≡ [] }
    {
        Wrappers {
            calls: IndexMap::new(alloc),
        }
    }

    /// The call that the function of a name makes.
    fn wrapped_by(&self, word: &[u8]) -> Option<usize>
        ensures { result ≡ spec.wrapped_by self.now word.now }
    {
        self.calls.get(word).copied()
    }

    /// A function makes this one of the calls, unless one of its name is declared already.
    pub(crate) fn add(&mut self, alloc: Global, name: &[u8], call: usize) -> Result<(), AllocError>
        ensures { OnOk result (self.new ≡ spec.with_wrapping self.old name.now call) }
    {
        if self.wrapped_by(name).is_some() {
            return Ok(());
        }
        let mut key = Vec::new(alloc);
        key.extend_from_slice(name)?;
        self.calls.insert(key, call)?;
        Ok(())
    }

    /// The call of a word of code: by its name, or by that of a function that makes it.
    pub(crate) fn call_in(&self, word: &[u8]) -> Option<usize>
        ensures { result ≡ spec.call_in self.now word.now }
    {
        let call = call_of(word);
        if call.is_some() {
            return call;
        }
        self.wrapped_by(word)
    }
}
