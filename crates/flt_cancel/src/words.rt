//! A table of words under the rule, and the steps of a token there.
ghost use Rattle.std.specs.Prelude.{◌≡◌, ℕ, ◌<◌, ◌++◌, ◌∷◌, [], All};
ghost use Rattle.flt_cancel.specs.Serials.{serials, IsPresent};
ghost use Rattle.flt_cancel.specs.Steps.{words_after, IsNext, WasAsked};
ghost use Rattle.flt_cancel.specs.declared.step.Step.TheVariants.{Ask, Collect};
ghost use Rattle.flt_rules.specs.Limits.{max_operations};

use crate::View;
use crate::rule::{Asks, CancelRule, Collects};
use atomic_table::Table;
use std::alloc::Global;

/// A table of words under the rule, with no slot.
pub(crate) type RuledTable = Table<u8, View, (), CancelRule, Global>;

/// A right to ask and to collect in a table. It has no bytes.
pub(crate) type Token = atomic_table::Seat<u8, View>;

/// 1,024 words of 64 bits: serial `s` is bit `s % 64` of word `s / 64`.
#[derive(Drop)]
pub(crate) struct Words {
    pub(crate) table: RuledTable,
    ghost size: { table.shared.table_id.words ≡ 1024 },
}

impl Words {
    /// Asks for a serial, in one step.
    pub(crate) fn ask(&self, token: &mut Token, serial: u32)
        requires serial { serial < max_operations }
        requires token { token.old.table_id ≡ self.now.table.shared.table_id }
        ensures token { token.new.table_id ≡ self.now.table.shared.table_id }
        ensures asked { token.new.me.0.asked ≡ token.old.me.0.asked ++ serial ∷ [] }
        ensures collected { token.new.me.0.collected ≡ token.old.me.0.collected }
        ensures step { (by : ℕ) × IsNext by (Ask by serial) token.old.me.0.seen token.new.me.0.seen }
        ensures present { IsPresent (words_after token.new.me.0.seen) serial }
    {
        let word = (serial / 64) as usize;
        let bit = 1u64 << (serial % 64);
        let words = &self.table.shared;
        words.fetch_or::<Asks>(token, word, bit);
    }

    /// Takes all requests of a word, in one step.
    pub(crate) fn collect(&self, token: &mut Token, word: usize) -> u64
        requires word { word < 1024 }
        requires token { token.old.table_id ≡ self.now.table.shared.table_id }
        ensures token { token.new.table_id ≡ self.now.table.shared.table_id }
        ensures asked { token.new.me.0.asked ≡ token.old.me.0.asked }
        ensures collected { token.new.me.0.collected ≡ token.old.me.0.collected ++ serials word result }
        ensures step { (by : ℕ) × IsNext by (Collect by word result) token.old.me.0.seen token.new.me.0.seen }
        ensures were_asked { All (λ serial. WasAsked serial token.new.me.0.seen) (serials word result) }
    {
        let words = &self.table.shared;
        words.swap::<Collects>(token, word, 0)
    }
}
