//! A map from each number to another number or none, for numbers that are given in sequence.

ghost use Rattle.std.specs.Prelude.{◌≡◌, ◌==◌, ℕ, ◌<◌, if◌then◌else◌, Some, None, get_or, length, OnOk, OnErr};

use std::alloc::{AllocError, Global};
use std::marker::Model;

/// Targets by number. It takes as much memory as the greatest number set requires.
#[derive(Drop)]
pub(crate) struct NumberMap {
    /// The target of each number. Past the end, there is none.
    targets: Vec<Option<u32>>,
}

impl Model for NumberMap {
    ghost use Rattle.std.specs.Prelude.{ℕ, List, Option};

    ghost Value = { List (Option ℕ) };

    ghost view = { λ m. m.targets.items };
}

impl NumberMap {
    pub(crate) fn new(alloc: Global) -> NumberMap
        ensures { (n : ℕ) → get_or result n None ≡ None }
    {
        NumberMap {
            targets: Vec::new(alloc),
        }
    }

    /// The target of a number.
    pub(crate) fn get(&self, number: usize) -> Option<usize>
        ensures { result ≡ get_or self.now number None }
    {
        match self.targets.get(number) {
            Some(Some(target)) => Some(*target as usize),
            Some(None) => None,
            None => None,
        }
    }

    /// Makes room for a number.
    #[tactic(auto, using(crate::proofs::NumberMaps::filled_up))]
    fn grow(&mut self, number: usize) -> Result<(), AllocError>
        ensures room { OnOk result (number < length self.new) }
        ensures same { (n : ℕ) → get_or self.new n None ≡ get_or self.old n None }
        ensures err { OnErr result (self.new ≡ self.old) }
    {
        let Some(length) = number.checked_add(1) else {
            return Err(AllocError);
        };
        if self.targets.len() < length {
            self.targets.resize(length, None)?;
        }
        Ok(())
    }

    /// Sets the target of a number. It fails if that is 2^32 or greater.
    #[tactic(auto, using(crate::proofs::NumberMaps::written, crate::proofs::NumberMaps::appended))]
    pub(crate) fn set(&mut self, number: usize, target: usize) -> Result<(), AllocError>
        ensures ok { OnOk result ((n : ℕ) → get_or self.new n None ≡ (if number == n then Some target else get_or self.old n None)) }
        ensures err { OnErr result (self.new ≡ self.old) }
    {
        let Ok(target) = u32::try_from(target) else {
            return Err(AllocError);
        };
        if number == self.targets.len() {
            self.targets.reserve(1)?;
            self.targets.push_reserved(Some(target));
            return Ok(());
        }
        self.grow(number)?;
        if let Some(place) = self.targets.get_mut(number) {
            *place = Some(target);
        }
        Ok(())
    }
}
