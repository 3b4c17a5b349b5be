//! The moves that may come next in a world, within the bounds of a round.

use crate::key::is_runner;
use crate::round_search::{Search, State};
use flt_rules::{Mode, Operation, Place};
use flt_search_world::{
    ContextLink, MAX_ACTIVATIONS, MAX_CONTEXTS, MAX_FILTERS, MAX_ITEMS, MAX_OPERATIONS, Next,
    Whereabouts, World,
};
use std::alloc::AllocError;

impl<'p> Search<'p> {
    pub(crate) fn take_operations(&mut self, from: &State, cost: u8) -> Result<(), AllocError> {
        for place in 0..MAX_OPERATIONS {
            let operation = from.world.operation(place);
            if operation.is_there && !matches!(operation.at, Whereabouts::Visiting) {
                self.take(from, Next::Onwards(place), cost)?;
            }
        }
        Ok(())
    }

    fn take_canceled(
        &mut self,
        from: &State,
        filter: u8,
        place: u8,
        cost: u8,
    ) -> Result<(), AllocError> {
        if from.world.entry_of(filter, place).is_none() {
            return Ok(());
        }
        let is_cancelled = from.world.operation(place).is_cancelled;
        if is_cancelled || from.world.detaches(filter) {
            self.take(from, Next::Canceled(filter, place), cost)?;
        }
        if !is_cancelled && from.world.cancels < self.round.cancels {
            self.take(from, Next::Cancel(place), cost)?;
        }
        Ok(())
    }

    pub(crate) fn take_work(&mut self, from: &State, cost: u8) -> Result<(), AllocError> {
        for place in 0..MAX_ITEMS {
            if from.world.item(place).is_there {
                self.take(from, Next::Work(place), cost)?;
            }
        }
        Ok(())
    }

    fn take_teardown(&mut self, from: &State, filter: u8, cost: u8) -> Result<(), AllocError> {
        if !from.world.detaches(filter) {
            if self.round.detaches && !from.world.detaches_one() {
                self.take(from, Next::Detach(filter), cost)?;
            }
            return Ok(());
        }
        for place in 0..MAX_OPERATIONS {
            let operation = from.world.operation(place);
            if operation.is_there && operation.frames.has(filter) {
                self.take(from, Next::Drain(filter, place), cost)?;
            }
        }
        for place in 0..MAX_CONTEXTS {
            let context = from.world.context(place);
            if context.filter == filter && context.link != ContextLink::Nowhere {
                self.take(from, Next::Unlink(filter, context.link), cost)?;
            }
        }
        Ok(())
    }

    pub(crate) fn take_filters(&mut self, from: &State, cost: u8) -> Result<(), AllocError> {
        for filter in 0..MAX_FILTERS {
            if usize::from(filter) >= self.plan.filters() {
                return Ok(());
            }
            for place in 0..MAX_OPERATIONS {
                self.take_canceled(from, filter, place, cost)?;
            }
            self.take_teardown(from, filter, cost)?;
        }
        Ok(())
    }

    pub(crate) fn take_others(&mut self, from: &State, cost: u8) -> Result<(), AllocError> {
        for place in 0..MAX_ACTIVATIONS {
            if !is_runner(from.runner, place) && from.world.activation(place).is_on {
                self.take(from, Next::Go(place, true), cost)?;
                if from.world.has_choice(self.plan, place) {
                    self.take(from, Next::Go(place, false), cost)?;
                }
            }
        }
        Ok(())
    }

    // ---- arrivals

    /// Whether an operation of a kind may start a callback. In a round of near operations, it must be a callback in which something is
    /// sought.
    fn is_coming(&self, kind: Operation) -> bool {
        for filter in 0..MAX_FILTERS {
            if !self.round.is_near && self.plan.has_callback(filter, Place::Pre(kind)) {
                return true;
            }
            for callback in 0..self.plan.callbacks(filter) {
                if self.plan.reaches(filter, kind, callback)
                    && self.targets.is_looked_in(filter, callback)
                {
                    return true;
                }
            }
        }
        false
    }

    /// The number of files for an operation that arrives.
    fn files(&self, world: &World) -> usize {
        if world.alive() > 0 {
            2
        } else if world.arrived > 0 {
            self.round.files
        } else {
            self.round.first_files
        }
    }

    fn take_arrivals_of(
        &mut self,
        from: &State,
        kind: Operation,
        mode: Mode,
        cost: u8,
    ) -> Result<(), AllocError> {
        let files = self.files(&from.world);
        for place in 0..files {
            let file = match self.plan.file(place) {
                Some(file) => file,
                None if place == 1 && from.world.alive() > 0 && self.plan.has_streams() => 1,
                None => return Ok(()),
            };
            self.take(from, Next::Arrive(kind, mode, file), cost)?;
        }
        Ok(())
    }

    pub(crate) fn take_arrivals(&mut self, from: &State, cost: u8) -> Result<(), AllocError> {
        let world = &from.world;
        if world.alive() >= self.round.alive || world.arrived >= self.round.total {
            return Ok(());
        }
        for (place, kind) in Operation::all().iter().enumerate() {
            if self.comes(place) {
                self.take_kind(from, *kind, cost)?;
            }
        }
        Ok(())
    }

    /// Whether operations of the kind at a place come.
    fn comes(&self, place: usize) -> bool {
        match self.coming.get(place) {
            Some(comes) => *comes,
            None => false,
        }
    }

    fn take_kind(&mut self, from: &State, kind: Operation, cost: u8) -> Result<(), AllocError> {
        for mode in [Mode::Irp, Mode::Fast] {
            if kind.fits(mode) {
                self.take_arrivals_of(from, kind, mode, cost)?;
            }
        }
        Ok(())
    }

    /// Finds out which kinds of operations come.
    pub(crate) fn find_coming(&mut self) {
        for (place, kind) in Operation::all().iter().enumerate() {
            let comes = self.is_coming(*kind);
            if let Some(own) = self.coming.get_mut(place) {
                *own = comes;
            }
        }
    }
}
