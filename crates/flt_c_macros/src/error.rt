//! Why nothing is expanded.

use std::alloc::AllocError;

/// Why there are no tokens without directives.
#[derive(Clone, Copy, Debug)]
pub enum MacroError {
    OutOfMemory,
    /// The directive at this place would need one spelling more than `MAX_SPELLINGS`.
    TooManySpellings { line: u32, column: u32 },
}

impl From<AllocError> for MacroError {
    ghost use Rattle.std.specs.Prelude.{◌≡◌};
    ghost use Rattle.flt_c_macros.specs.declared.error.MacroError.TheVariants.{OutOfMemory};

    ghost from_gives = { λ _ e. e ≡ OutOfMemory };

    fn from(_: AllocError) -> MacroError {
        MacroError::OutOfMemory
    }
}
