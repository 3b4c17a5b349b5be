//! The statuses that callbacks return or hand to a pended operation, and where each is legal.

ghost use Rattle.std.specs.Prelude.{◌≡◌};
ghost use Rattle.flt_rules.specs.Status as spec;

use crate::place::{Mode, Stage};

/// The final statuses that COMPLETE can name. `Pending` can be written and is never legal.
#[derive(Clone, Copy)]
pub enum FinalStatus {
    Success,
    AccessDenied,
    Cancelled,
    InsufficientResources,
    InvalidParameter,
    Pending,
}

/// The callback statuses, FLT_PREOP_CALLBACK_STATUS first. The prefixes are left out.
#[derive(Clone, Copy)]
pub enum StatusWord {
    WithCallback,
    Synchronize,
    NoCallback,
    Complete,
    Pending,
    DisallowFastIo,
    FinishedProcessing,
    MoreProcessingRequired,
}

/// The possession that a returned status requires of the operation that the callback was given.
#[derive(Clone, Copy)]
pub enum Possession {
    Held,
    GivenAway,
}

/// Where a status may be returned, and whether it may be handed to a pended operation.
#[derive(Clone, Copy)]
pub struct StatusRow {
    /// The stage of the callback that may return it.
    pub stage: Stage,
    /// The possession that it requires of the operation.
    pub data: Possession,
    /// The only mode in which it is legal, if there is one.
    pub mode: Option<Mode>,
    /// Whether it requires a registered post callback of the operation.
    pub needs_post: bool,
    /// Whether it is legal for a create.
    pub in_create: bool,
    /// Whether it is legal where draining may be set.
    pub in_draining: bool,
    /// Whether FltCompletePendedPreOperation may hand it on.
    pub handed: bool,
}

const PLAIN: StatusRow = StatusRow {
    stage: Stage::Pre,
    data: Possession::Held,
    mode: None,
    needs_post: false,
    in_create: true,
    in_draining: true,
    handed: false,
};

/// The row of a status.
pub fn status_row(word: StatusWord) -> StatusRow
    ensures { result ≡ spec.status_row word }
{
    match word {
        StatusWord::WithCallback => StatusRow {
            needs_post: true,
            handed: true,
            ..PLAIN
        },
        StatusWord::Synchronize => StatusRow {
            needs_post: true,
            mode: Some(Mode::Irp),
            in_create: false,
            ..PLAIN
        },
        StatusWord::NoCallback | StatusWord::Complete => StatusRow {
            handed: true,
            ..PLAIN
        },
        StatusWord::Pending => StatusRow {
            data: Possession::GivenAway,
            mode: Some(Mode::Irp),
            ..PLAIN
        },
        StatusWord::DisallowFastIo => StatusRow {
            mode: Some(Mode::Fast),
            ..PLAIN
        },
        StatusWord::FinishedProcessing => StatusRow {
            stage: Stage::Post,
            ..PLAIN
        },
        StatusWord::MoreProcessingRequired => StatusRow {
            stage: Stage::Post,
            data: Possession::GivenAway,
            mode: Some(Mode::Irp),
            in_draining: false,
            ..PLAIN
        },
    }
}

impl StatusWord {
    ghost use Rattle.flt_rules.specs.Status.{is_complete, is_with_callback};

    pub fn is_complete(self) -> bool
        ensures { result ≡ is_complete self }
    {
        matches!(self, StatusWord::Complete)
    }

    pub fn is_with_callback(self) -> bool
        ensures { result ≡ is_with_callback self }
    {
        matches!(self, StatusWord::WithCallback)
    }
}
