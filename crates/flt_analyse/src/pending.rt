//! The points that a walk has still to look at, as a set of bits.

ghost use Rattle.std.specs.Prelude.{◌≡◌, ◌<◌, true, false, length, slice_set, IfSome};
ghost use Rattle.flt_analyse.specs.Pending as spec;

use std::marker::Model;

/// How many points a callback has at most.
pub(crate) const POINTS: usize = 512;

/// How many bits a word has.
const BITS: usize = 64;

/// Which of the points below 512 are pending: point `p` is bit `p % 64` of word `p / 64`. The least one is found by the
/// words and one count of trailing zeros.
#[derive(Drop)]
pub(crate) struct Pending {
    words: [u64; POINTS / BITS],
}

impl Model for Pending {
    ghost use Rattle.std.specs.Prelude.{◌≡◌, List, Bool, length};
    ghost use Rattle.flt_analyse.specs.Pending.{flags};

    ghost Value = { List Bool };

    ghost view = { λ s. flags s.words };

    ghost invariant = { λ s. length s.words ≡ 8 };
}

/// The least bit that is set, counted over the words from 0.
fn first(words: &[u64]) -> Option<usize>
    requires { length words.now ≡ 8 }
    ensures value { result ≡ spec.least (spec.flags words.now) }
    ensures within { IfSome result (λ point. point < 512) }
{
    'words: for (index, word) in words.iter().enumerate() {
        if *word != 0 {
            return Some(index * BITS + word.trailing_zeros() as usize);
        }
    }
    None
}

impl Pending {
    /// None is pending.
    pub(crate) fn none() -> Pending
        ensures { result ≡ spec.no_flags 512 }
    {
        Pending {
            words: [0; POINTS / BITS],
        }
    }

    /// The point is pending from now on.
    pub(crate) fn insert(&mut self, point: usize)
        requires { point < 512 }
        ensures { self.new ≡ slice_set self.old point true }
    {
        let index = point / BITS;
        let bit = point % BITS;
        self.words[index] |= 1 << bit;
    }

    /// The point is pending no longer.
    fn remove(&mut self, point: usize)
        requires { point < 512 }
        ensures { self.new ≡ slice_set self.old point false }
    {
        let index = point / BITS;
        let bit = point % BITS;
        self.words[index] &= !(1 << bit);
    }

    /// Takes out the least point that is pending.
    pub(crate) fn take_least(&mut self) -> Option<usize>
        ensures value { result ≡ spec.least self.old }
        ensures rest { self.new ≡ spec.without (spec.least self.old) self.old }
    {
        let point = first(&self.words)?;
        self.remove(point);
        Some(point)
    }
}
