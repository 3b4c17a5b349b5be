//! Requests that a worker has collected and not tried yet.
ghost use Rattle.std.specs.Prelude.{◌≡◌, ◌↔◌, ℕ, ◌+◌, ◌*◌, ◌<◌, ◌++◌, IsTrue};
ghost use Rattle.std.specs.Int.{bit_at};
ghost use Rattle.flt_cancel.specs.Serials.{serials};
ghost use Rattle.flt_cancel.specs.Steps.{IsNext};
ghost use Rattle.flt_cancel.specs.declared.step.Step.TheVariants.{Collect};
ghost use Rattle.flt_stack_threads.specs.Places.{IsWorkerOf, collected_by, marks_by};
ghost use Rattle.flt_stack_threads.specs.Requests.{IsWithout};

use crate::exchange::Exchange;
use crate::places::WorkerPlace;
use crate::word::has_bit;

/// The requests of one word that are still to be tried. They stay here if a cancel is refused.
#[derive(Clone, Copy)]
pub(crate) struct Requests {
    pub(crate) word: usize,
    pub(crate) bits: u64,
    pub(crate) ghost in_range: { word < 1024 },
}

impl Requests {
    /// No request.
    pub(crate) fn none() -> Requests
        ensures { result.bits ≡ 0 }
    {
        Requests { word: 0, bits: 0 }
    }

    /// Collects all requests of a word.
    pub(crate) fn collect(exchange: &Exchange, place: &mut WorkerPlace, word: usize) -> Requests
        requires word { word < 1024 }
        requires place { IsWorkerOf exchange.now place.old }
        ensures place { IsWorkerOf exchange.now place.new }
        ensures word { result.word ≡ word }
        ensures collected { (collected_by place.new).collected ≡ (collected_by place.old).collected ++ serials word result.bits }
        ensures step { (by : ℕ) × IsNext by (Collect by word result.bits) (collected_by place.old).seen (collected_by place.new).seen }
        ensures marks { marks_by place.new ≡ marks_by place.old }
        ensures tickets { place.new.tickets ≡ place.old.tickets }
    {
        let bits = exchange.collect(place, word);
        Requests { word, bits }
    }

    /// Whether the request of a bit is among them.
    pub(crate) fn has(&self, bit: u32) -> bool
        requires { bit < 64 }
        ensures { IsTrue result ↔ (bit_at self.now.bits bit ≡ 1) }
    {
        has_bit(self.bits, bit)
    }

    /// The serial number that a bit stands for.
    pub(crate) fn serial(&self, bit: u32) -> u32
        requires { bit < 64 }
        ensures { result ≡ 64 * self.now.word + bit }
    {
        64 * self.word as u32 + bit
    }

    /// The request of a bit has been tried.
    pub(crate) fn remove(&mut self, bit: u32)
        requires { bit < 64 }
        ensures word { self.new.word ≡ self.old.word }
        ensures bits { IsWithout bit self.old.bits self.new.bits }
    {
        self.bits &= !(1u64 << bit);
    }
}
