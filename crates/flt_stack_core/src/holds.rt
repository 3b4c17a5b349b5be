//! Whoever holds receipts.
ghost use Rattle.std.specs.Prelude.{◌≡◌, List};
ghost use Rattle.flt_stack_core.specs.declared.receipt.Receipt.{Receipt};

use crate::receipt::Receipt;

/// Holds receipts, as a caller's seat does.
pub trait HoldsReceipts {
    // The receipts that it holds.
    ghost held: { Self → List Receipt };

    /// The receipts. They are found fast if their numbers rise.
    fn receipts(&self) -> &[Receipt]
        ensures { result.now ≡ held self.now };
}
