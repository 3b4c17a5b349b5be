//! Where a callback runs: its place, the operation's mode, and the interrupt request levels.

ghost use Rattle.std.specs.Prelude.{◌≡◌};
ghost use Rattle.flt_rules.specs.Place as spec;

use crate::call::LockKind;

/// The operations that a filter can register callbacks for.
#[derive(Clone, Copy, PartialEq, Eq)]
pub enum Operation {
    Create,
    Read,
    Write,
    Cleanup,
}

/// How many operations there are.
pub const OPERATIONS: usize = 4;

/// All operations, in the order of their values.
const ALL: [Operation; OPERATIONS] = [
    Operation::Create,
    Operation::Read,
    Operation::Write,
    Operation::Cleanup,
];

/// Their names, in the same order.
const NAMES: [&[u8]; OPERATIONS] = [b"create", b"read", b"write", b"cleanup"];

const MAJOR_NAMES: [&[u8]; OPERATIONS] = [
    b"IRP_MJ_CREATE",
    b"IRP_MJ_READ",
    b"IRP_MJ_WRITE",
    b"IRP_MJ_CLEANUP",
];

/// How an operation came: as an I/O request packet or as fast I/O. `Operation::fits` says which operations come as fast I/O.
#[derive(Clone, Copy, PartialEq, Eq)]
pub enum Mode {
    Irp,
    Fast,
}

/// The stage of an operation: before it is passed down, or after it comes back.
#[derive(Clone, Copy, PartialEq, Eq)]
pub enum Stage {
    Pre,
    Post,
}

/// The kind of callback that runs.
#[derive(Clone, Copy)]
pub enum Place {
    Pre(Operation),
    Post(Operation),
    /// CompleteCanceledIo of the cancel-safe queue.
    Canceled,
    /// The routine of a work item that holds an operation in its pre stage.
    DeferredPre,
    /// The routine of a work item that holds an operation in its post stage.
    DeferredPost,
    /// The routine of a work item without an operation.
    Generic,
}

/// Interrupt request levels, from the lowest.
#[derive(Clone, Copy)]
pub enum Level {
    Passive,
    Apc,
    Dispatch,
}

/// The level at which a callback of this place is entered, taken at its worst.
pub fn entry_level(place: Place) -> Level
    ensures { result ≡ spec.entry_level place }
{
    match place {
        Place::Pre(_) | Place::Canceled => Level::Apc,
        Place::Post(Operation::Create) => Level::Passive,
        Place::Post(_) => Level::Dispatch,
        Place::DeferredPre | Place::DeferredPost | Place::Generic => Level::Passive,
    }
}

/// The level to which a held lock of this kind raises its holder. `Level::Passive` raises nothing.
fn raised_level(kind: LockKind) -> Level
    ensures { result ≡ spec.raised_level kind }
{
    match kind {
        LockKind::Spin => Level::Dispatch,
        LockKind::Fast => Level::Apc,
        LockKind::Push => Level::Passive,
    }
}

/// The level to which a lock that may be declared raises its holder. One that isn't declared raises nothing.
pub fn raised_by(kind: Option<LockKind>) -> Level
    ensures { result ≡ spec.raised_by kind }
{
    match kind {
        Some(kind) => raised_level(kind),
        None => Level::Passive,
    }
}

impl Operation {
    ghost use Rattle.flt_rules.specs.Place.{all_operations, fits_mode, is_always_irp, major_name, operation_name, operation_number};
    ghost use Rattle.std.specs.Prelude.{map};
    ghost use Rattle.flt_rules.specs.Place.{all_named, always_irp_named, any_named, operation_title, same_operation};

    /// All operations, in the order of their values.
    pub fn all() -> &'static [Operation]
        ensures { result.now ≡ all_operations }
    {
        &ALL
    }

    /// The names of all.
    pub fn names() -> &'static [&'static [u8]]
        ensures { map (λ name. name.now) result.now ≡ map operation_name all_operations }
    {
        &NAMES
    }

    /// The same as the driver kit has them.
    pub fn major_names() -> &'static [&'static [u8]]
        ensures { map (λ name. name.now) result.now ≡ map major_name all_operations }
    {
        &MAJOR_NAMES
    }

    /// All operations in a sentence.
    pub fn all_named() -> &'static str
        ensures { result.now ≡ all_named }
    {
        "`create`, `read`, `write` and `cleanup`"
    }

    /// One of all operations in a sentence.
    pub fn any_named() -> &'static str
        ensures { result.now ≡ any_named }
    {
        "`create`, `read`, `write` or `cleanup`"
    }

    /// The operations that come as I/O request packets alone, in a sentence.
    pub fn always_irp_named() -> &'static str
        ensures { result.now ≡ always_irp_named }
    {
        "`create` and `cleanup`"
    }

    /// The operation as texts, journals and reports have it.
    pub fn name(self) -> &'static str
        ensures { result.now ≡ operation_name self }
    {
        match self {
            Operation::Create => "create",
            Operation::Read => "read",
            Operation::Write => "write",
            Operation::Cleanup => "cleanup",
        }
    }

    /// The operation as the driver kit has it.
    pub fn major_name(self) -> &'static str
        ensures { result.now ≡ major_name self }
    {
        match self {
            Operation::Create => "IRP_MJ_CREATE",
            Operation::Read => "IRP_MJ_READ",
            Operation::Write => "IRP_MJ_WRITE",
            Operation::Cleanup => "IRP_MJ_CLEANUP",
        }
    }

    /// The operation as the names of a driver's routines have it.
    pub fn title(self) -> &'static str
        ensures { result.now ≡ operation_title self }
    {
        match self {
            Operation::Create => "Create",
            Operation::Read => "Read",
            Operation::Write => "Write",
            Operation::Cleanup => "Cleanup",
        }
    }

    /// Whether it comes as an I/O request packet alone, never as fast I/O.
    pub fn is_always_irp(self) -> bool
        ensures { result ≡ is_always_irp self }
    {
        match self {
            Operation::Create | Operation::Cleanup => true,
            Operation::Read | Operation::Write => false,
        }
    }

    /// Whether it can come in by a mode.
    pub fn fits(self, mode: Mode) -> bool
        ensures { result ≡ fits_mode self mode }
    {
        mode.is_irp() || !self.is_always_irp()
    }

    /// Its number in the list of all, from 0.
    pub fn number(self) -> usize
        ensures { result ≡ operation_number self }
    {
        match self {
            Operation::Create => 0,
            Operation::Read => 1,
            Operation::Write => 2,
            Operation::Cleanup => 3,
        }
    }

    /// Whether both are of one kind.
    pub fn is_same(self, other: Operation) -> bool
        ensures { result ≡ same_operation self other }
    {
        self == other
    }
}

impl Mode {
    ghost use Rattle.flt_rules.specs.Place.{is_irp, same_mode};

    pub fn is_same(self, other: Mode) -> bool
        ensures { result ≡ same_mode self other }
    {
        self == other
    }

    /// Whether the operation came as an I/O request packet.
    pub fn is_irp(self) -> bool
        ensures { result ≡ is_irp self }
    {
        matches!(self, Mode::Irp)
    }
}

impl Stage {
    ghost use Rattle.flt_rules.specs.Place.{same_stage};

    pub fn is_same(self, other: Stage) -> bool
        ensures { result ≡ same_stage self other }
    {
        self == other
    }
}

impl Place {
    ghost use Rattle.flt_rules.specs.Place.{answers, fits_stage, is_pre_create};

    /// Whether a callback of this place answers for its operation, with a status: a pre or a post callback.
    pub fn answers(self) -> bool
        ensures { result ≡ answers self }
    {
        matches!(self, Place::Pre(_) | Place::Post(_))
    }

    /// Whether a callback of this place returns statuses of the stage.
    pub fn fits(self, stage: Stage) -> bool
        ensures { result ≡ fits_stage self stage }
    {
        matches!(
            (self, stage),
            (Place::Pre(_), Stage::Pre) | (Place::Post(_), Stage::Post)
        )
    }

    /// Whether this is the pre callback of a create.
    pub fn is_pre_create(self) -> bool
        ensures { result ≡ is_pre_create self }
    {
        matches!(self, Place::Pre(Operation::Create))
    }
}

impl Level {
    ghost use Rattle.flt_rules.specs.Place.{greater_level, is_above};

    /// The greater of two levels.
    pub fn max(self, other: Level) -> Level
        ensures { result ≡ greater_level self other }
    {
        match (self, other) {
            (Level::Dispatch, _) | (_, Level::Dispatch) => Level::Dispatch,
            (Level::Apc, _) | (_, Level::Apc) => Level::Apc,
            (Level::Passive, Level::Passive) => Level::Passive,
        }
    }

    /// Whether this level is strictly above the other.
    pub fn is_above(self, other: Level) -> bool
        ensures { result ≡ is_above self other }
    {
        match (self, other) {
            (Level::Dispatch, Level::Passive | Level::Apc) | (Level::Apc, Level::Passive) => true,
            _ => false,
        }
    }
}
