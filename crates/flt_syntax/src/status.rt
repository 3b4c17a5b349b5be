//! Reads callback statuses.

ghost use Rattle.flt_syntax.specs.Cursor.{Reads};
ghost use Rattle.flt_syntax.specs.Status as spec;
ghost use Rattle.std.specs.Prelude.{◌≡◌};

use crate::cursor::Tokens;
use crate::fault::ParseError;
use crate::operand::with_context;
use crate::token::Kind;
use flt_rules::FinalStatus;
use flt_tree::Status;

fn final_status_of(kind: Kind) -> Option<FinalStatus>
    ensures { result ≡ spec.final_status_of kind }
{
    match kind {
        Kind::StatusSuccess => Some(FinalStatus::Success),
        Kind::StatusAccessDenied => Some(FinalStatus::AccessDenied),
        Kind::StatusCancelled => Some(FinalStatus::Cancelled),
        Kind::StatusInsufficientResources => Some(FinalStatus::InsufficientResources),
        Kind::StatusInvalidParameter => Some(FinalStatus::InvalidParameter),
        Kind::StatusPending => Some(FinalStatus::Pending),
        _ => None,
    }
}

#[tactic(auto, unfolding(crate::specs::Status::final_status))]
fn final_status(tokens: &mut Tokens<'_>) -> Result<FinalStatus, ParseError>
    ensures { Reads (spec.final_status tokens.old.rest.now) result tokens.new.rest.now }
{
    match final_status_of(tokens.peek()) {
        None => Err(tokens.refuse()),
        Some(status) => {
            tokens.take();
            Ok(status)
        }
    }
}

/// A status that is one word.
fn bare_status_of(kind: Kind) -> Option<Status>
    ensures { result ≡ spec.bare_status_of kind }
{
    match kind {
        Kind::NoCallback => Some(Status::NoCallback),
        Kind::Pending => Some(Status::Pending),
        Kind::DisallowFastIo => Some(Status::DisallowFastIo),
        Kind::FinishedProcessing => Some(Status::FinishedProcessing),
        Kind::MoreProcessingRequired => Some(Status::MoreProcessingRequired),
        _ => None,
    }
}

#[tactic(auto, unfolding(crate::specs::Status::bare_status))]
fn bare_status(tokens: &mut Tokens<'_>) -> Result<Status, ParseError>
    ensures { Reads (spec.bare_status tokens.old.rest.now) result tokens.new.rest.now }
{
    match bare_status_of(tokens.peek()) {
        None => Err(tokens.refuse()),
        Some(status) => {
            tokens.take();
            Ok(status)
        }
    }
}

#[tactic(auto, unfolding(crate::specs::Status::status))]
pub fn status(tokens: &mut Tokens<'_>) -> Result<Status, ParseError>
    ensures { Reads (spec.status tokens.old.rest.now) result tokens.new.rest.now }
{
    match tokens.peek() {
        Kind::WithCallback => {
            tokens.take();
            Ok(Status::WithCallback(with_context(tokens)?))
        }
        Kind::Synchronize => {
            tokens.take();
            Ok(Status::Synchronize(with_context(tokens)?))
        }
        Kind::Complete => {
            tokens.take();
            Ok(Status::Complete(final_status(tokens)?))
        }
        _ => bare_status(tokens),
    }
}

fn begins_status(kind: Kind) -> bool
    ensures { result ≡ spec.begins_status kind }
{
    matches!(
        kind,
        Kind::WithCallback | Kind::Synchronize | Kind::Complete
    ) || bare_status_of(kind).is_some()
}

#[tactic(auto, unfolding(crate::specs::Status::optional_status))]
pub fn optional_status(tokens: &mut Tokens<'_>) -> Result<Option<Status>, ParseError>
    ensures { Reads (spec.optional_status tokens.old.rest.now) result tokens.new.rest.now }
{
    if begins_status(tokens.peek()) {
        Ok(Some(status(tokens)?))
    } else {
        Ok(None)
    }
}
