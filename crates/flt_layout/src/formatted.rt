//! Lays out a text that spells a filter.

ghost use Rattle.std.specs.Prelude.{◌≡◌, ◌≤◌, IfErr, IfOk, length};
ghost use Rattle.flt_layout.specs.Formatted as spec;

use crate::writer::lay_out;
use flt_rules::MAX_TEXT;
use flt_syntax::{ParseError, SyntaxFault, parse};
use std::alloc::{AllocError, Global};

/// Why a text isn't laid out.
#[derive(Clone, Copy, Debug)]
pub enum FormatError {
    Syntax(SyntaxFault),
    /// The layout would have more bytes than a text may have.
    Long,
    OutOfMemory,
}

impl From<AllocError> for FormatError {
    ghost use Rattle.std.specs.Prelude.{◌≡◌};
    ghost use Rattle.flt_layout.specs.declared.formatted.FormatError.TheVariants.{OutOfMemory};

    ghost from_gives = { λ _ e. e ≡ OutOfMemory };

    fn from(_: AllocError) -> FormatError {
        FormatError::OutOfMemory
    }
}

impl From<ParseError> for FormatError {
    ghost use Rattle.std.specs.Prelude.{◌≡◌};
    ghost use Rattle.flt_layout.specs.Formatted.{of_parse};

    ghost from_gives = { λ e f. f ≡ of_parse e };

    fn from(fault: ParseError) -> FormatError {
        match fault {
            ParseError::Syntax(fault) => FormatError::Syntax(fault),
            ParseError::OutOfMemory => FormatError::OutOfMemory,
        }
    }
}

/// The layout of a text that spells a filter.
///
/// # Errors
///
/// The first fault of the text, or its layout is longer than a text may be.
pub fn format(alloc: Global, text: &[u8]) -> Result<Vec<u8>, FormatError>
    ensures ok { IfOk result (λ out. spec.IsFormatted text.now out.items) }
    ensures err { IfErr result (spec.IsUnformatted text.now) }
{
    parse(alloc, text)?;
    let out = lay_out(alloc, text)?;
    if MAX_TEXT < out.len() {
        return Err(FormatError::Long);
    }
    Ok(out)
}
