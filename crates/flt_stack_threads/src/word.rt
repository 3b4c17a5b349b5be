//! The bits of a word.
ghost use Rattle.std.specs.Prelude.{◌≡◌, ◌↔◌, ◌<◌, ◌≤◌, ℕ, IsTrue};
ghost use Rattle.std.specs.Int.{bit_at};

/// Whether a bit is set.
pub(crate) fn has_bit(bits: u64, bit: u32) -> bool
    requires { bit < 64 }
    ensures { IsTrue result ↔ (bit_at bits bit ≡ 1) }
{
    bits & (1u64 << bit) != 0
}

/// Whether neither this bit nor a higher one is set.
pub(crate) fn has_none_from(bits: u64, bit: u32) -> bool
    requires { bit < 64 }
    ensures { IsTrue result → (k : ℕ) → bit ≤ k → bit_at bits k ≡ 0 }
{
    bits >> bit == 0
}

/// The lowest bit that is set, 64 if there is none.
pub(crate) fn lowest_bit(bits: u64) -> u32
    ensures few { result ≤ 64 }
    ensures below { (k : ℕ) → k < result → bit_at bits k ≡ 0 }
{
    if bits == 0 {
        return 64;
    }
    bits.trailing_zeros()
}
