//! The columns of operations. If there are few operations, each has its own; else a column is free for the next operation once its own is
//! done.

ghost use Rattle.std.specs.Prelude.{◌≡◌, ◌≤◌, ◌<◌, ◌^◌, length, position};
ghost use Rattle.flt_model.specs.Moves as moves;
ghost use Rattle.flt_model.specs.World as machine;
ghost use Rattle.flt_explain_timeline.specs.Columns as spec;

use crate::telling::Column;
use flt_model::Position;
use flt_replay_world::World;

/// How many columns there are.
pub(crate) const COLUMNS: usize = 8;

/// The content of a column.
#[derive(Clone, Copy)]
pub(crate) struct Tenant {
    /// The number of the operation.
    operation: Option<usize>,
    /// The activation that was on there last.
    last: Option<usize>,
    /// How many activations of the operation haven't ended.
    running: usize,
}

const FREE: Tenant = Tenant {
    operation: None,
    last: None,
    running: 0,
};

/// All columns.
#[derive(Drop)]
pub(crate) struct Columns {
    tenants: [Tenant; 8],
    /// Whether columns are used again.
    shared: bool,
}

fn has_no_frame(world: &World<'_>, operation: usize) -> bool
    ensures { result ≡ moves.is_empty (machine.route_at world.now.store operation).frames }
{
    match world.routes.get(operation) {
        Some(route) => matches!(route.frames.as_slice(), []),
        None => true,
    }
}

/// Whether the operation is up and nothing of it is left.
fn is_done(world: &World<'_>, operation: usize) -> bool
    ensures { result ≡ moves.is_done world.now.store operation }
{
    matches!(world.position(operation), Position::Up)
        && has_no_frame(world, operation)
        && world.are_settled(operation)
}

impl Tenant {
    /// Whether the operation is over, or there is none.
    fn is_over(self, world: &World<'_>) -> bool
        ensures { result ≡ spec.is_over world.now.store self }
    {
        match self.operation {
            Some(operation) => self.running == 0 && is_done(world, operation),
            None => true,
        }
    }
}

/// Whether an operation may take a column.
fn is_free(shared: bool, world: &World<'_>, tenant: &Tenant) -> bool
    ensures { result ≡ spec.is_free shared world.now.store tenant.now }
{
    if shared {
        tenant.is_over(world)
    } else {
        tenant.operation.is_none()
    }
}

fn is_of(operation: usize, tenant: &Tenant) -> bool
    ensures { result ≡ spec.is_of operation tenant.now }
{
    tenant.operation == Some(operation)
}

/// The column of a number; beyond all if there is none.
fn column_by(number: Option<usize>) -> Column
    ensures { result ≡ spec.column_by number }
{
    match number {
        Some(number) => Column::Own(number),
        None => Column::Beyond,
    }
}

/// The bit of a column.
fn bit_of(is_over: bool) -> u32
    ensures exact { result ≡ spec.bit_of is_over }
    ensures within { result ≤ 1 }
{
    if is_over { 0 } else { 1 }
}

/// The columns whose operation isn't over, the first as the lowest bit.
#[tactic(auto, using(crate::proofs::Bits::few, crate::proofs::Bits::one_more), unfolding(crate::specs::Columns::alive_in))]
fn alive_in(world: &World<'_>, tenants: &[Tenant]) -> u32
    requires { length tenants.now ≤ 8 }
    ensures exact { result ≡ spec.alive_in world.now.store tenants.now }
    ensures within { result < 2 ^ length tenants.now }
{
    match tenants {
        [] => 0,
        [first, others @ ..] => bit_of(first.is_over(world)) + 2 * alive_in(world, others),
    }
}

impl Columns {
    /// Columns without operations yet, for so many that will come.
    pub(crate) fn new(operations: usize) -> Columns
        ensures { result ≡ spec.opened operations }
    {
        Columns {
            tenants: [FREE; 8],
            shared: operations > COLUMNS,
        }
    }

    /// The number of the column of an operation.
    fn place_of(&self, operation: usize) -> Option<usize>
        ensures { result ≡ position (spec.is_of operation) self.now.tenants }
    {
        self.tenants
            .iter()
            .position(|tenant| is_of(operation, tenant))
    }

    /// The column of an operation, beyond all if it has none; the margin for no operation.
    pub(crate) fn find(&self, operation: Option<usize>) -> Column
        ensures { result ≡ spec.column_of self.now.tenants operation }
    {
        match operation {
            Some(operation) => column_by(self.place_of(operation)),
            None => Column::Margin,
        }
    }

    /// The content of a column; empty elsewhere.
    fn tenant(&self, column: Column) -> Tenant
        ensures { result ≡ spec.tenant_in self.now.tenants column }
    {
        match column {
            Column::Own(number) if number < COLUMNS => self.tenants[number],
            _ => FREE,
        }
    }

    /// Sets the content of a column; elsewhere nothing is kept.
    fn put(&mut self, column: Column, tenant: Tenant)
        ensures { self.new ≡ spec.with_tenant self.old column tenant }
    {
        if let Column::Own(number) = column {
            if number < COLUMNS {
                self.tenants[number] = tenant;
            }
        }
    }

    /// The first column that an operation may take.
    fn first_free(&self, world: &World<'_>) -> Option<usize>
        ensures { result ≡ position (spec.is_free self.now.shared world.now.store) self.now.tenants }
    {
        self.tenants
            .iter()
            .position(|tenant| is_free(self.shared, world, tenant))
    }

    /// Gives a column to an operation that arrives.
    pub(crate) fn add(&mut self, world: &World<'_>, operation: usize)
        ensures { self.new ≡ spec.arrived world.now.store self.old operation }
    {
        let column = column_by(self.first_free(world));
        let tenant = Tenant {
            operation: Some(operation),
            last: None,
            running: 0,
        };
        self.put(column, tenant);
    }

    /// Notes in a column that an activation starts.
    pub(crate) fn start(&mut self, column: Column, activation: usize)
        ensures { self.new ≡ spec.begun self.old column activation }
    {
        let tenant = self.tenant(column);
        let started = Tenant {
            operation: tenant.operation,
            last: Some(activation),
            running: tenant.running.saturating_add(1),
        };
        self.put(column, started);
    }

    /// Notes in a column that an activation continues, and whether it has ended with that.
    pub(crate) fn go_on(&mut self, column: Column, activation: usize, ends: bool)
        ensures { self.new ≡ spec.gone_on self.old column activation ends }
    {
        let tenant = self.tenant(column);
        let left = tenant.running.saturating_sub(1);
        let gone = Tenant {
            operation: tenant.operation,
            last: Some(activation),
            running: if ends { left } else { tenant.running },
        };
        self.put(column, gone);
    }

    /// Whether an activation was the last that was on in a column.
    pub(crate) fn was_on(&self, column: Column, activation: usize) -> bool
        ensures { result ≡ spec.was_on self.now.tenants column activation }
    {
        self.tenant(column).last == Some(activation)
    }

    /// The columns whose operation isn't done, column 0 as the lowest bit.
    pub(crate) fn alive(&self, world: &World<'_>) -> u32
        ensures { result ≡ spec.alive_in world.now.store self.now.tenants }
    {
        alive_in(world, &self.tenants)
    }
}
