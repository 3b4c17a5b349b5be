//! The descriptions of entries, each once, so that its number identifies it.

ghost use Rattle.std.specs.Prelude.{◌≡◌, ℕ, Some, IfOk, IfSome, OnOk};
ghost use Rattle.flt_explain_timeline.specs.declared.telling.Telling.{Telling as Saying};

use crate::likeness::is_same;
use crate::telling::{Happening, Telling};
use std::alloc::{AllocError, Global};

/// How many descriptions are looked for. A later one has a number of its own each time, and isn't found to repeat.
const MOST: usize = 512;

/// The number of chains.
const CHAINS: usize = 64;

/// A description, and the number of the one before it in its chain.
#[derive(Clone, Copy)]
struct Link {
    telling: Telling,
    before: Option<usize>,
}

/// All descriptions, by number from 0. Equal ones are in one chain, so that few are compared.
#[derive(Drop)]
pub(crate) struct Tellings {
    all: Vec<Link>,
    /// The last one of each chain.
    chains: [Option<usize>; 64],
}

/// The chain of a description, from 0: that of a step depends on its line.
fn chain_of(telling: &Telling) -> usize {
    match telling.happening {
        Happening::Runs(_, line, _) => line % CHAINS,
        _ => 0,
    }
}

impl Tellings {
    ghost use Rattle.flt_explain_timeline.specs.Tellings as spec;

    pub(crate) fn new(alloc: Global) -> Tellings {
        Tellings {
            all: Vec::new(alloc),
            chains: [None; 64],
        }
    }

    /// The last one of a chain.
    fn last(&self, chain: usize) -> Option<usize> {
        match self.chains.get(chain) {
            Some(last) => *last,
            None => None,
        }
    }

    /// The number of a description in a chain, if it is there.
    fn find(&self, chain: usize, telling: &Telling) -> Option<usize>
        ensures { IfSome result (λ number. spec.told_by self.now number ≡ Some telling.now) }
    {
        let mut next = self.last(chain);
        for _ in 0..MOST {
            let number = next?;
            let link = self.all.get(number)?;
            if is_same(link.telling, *telling) {
                return Some(number);
            }
            next = link.before;
        }
        None
    }

    /// The number of a description.
    pub(crate) fn number(&mut self, telling: Telling) -> Result<usize, AllocError>
        ensures told { IfOk result (λ number. spec.told_by self.new number ≡ Some telling) }
        ensures kept { OnOk result
            ((number : ℕ) (t : Saying) → spec.told_by self.old number ≡ Some t → spec.told_by self.new number ≡ Some t) }
    {
        let chain = chain_of(&telling);
        if let Some(number) = self.find(chain, &telling) {
            return Ok(number);
        }
        let number = self.all.len();
        let before = self.last(chain);
        self.all.push(Link { telling, before })?;
        if number < MOST {
            if let Some(last) = self.chains.get_mut(chain) {
                *last = Some(number);
            }
        }
        Ok(number)
    }

    /// The description of a number.
    pub(crate) fn at(&self, number: usize) -> Option<Telling>
        ensures { result ≡ spec.told_by self.now number }
    {
        match self.all.get(number) {
            Some(link) => Some(link.telling),
            None => None,
        }
    }
}
