//! One round of the search: worlds, breadth first by the entries that lead there.

use crate::counts::{Counts, NO_COUNTS};
use crate::key::key_of;
use crate::paths::Paths;
use crate::rounds::Round;
use crate::targets::{Met, Stand, Targets};
use crate::watch::{SearchWatch, WatchedSearch};
use flt_model::{JournalEntry, Violation};
use flt_rules::OPERATIONS;
use flt_search_plan::Plan;
use flt_search_world::{Course, NOTHING_MADE, Next, OPENING, World};
use std::alloc::{AllocError, Global};
use std::collections::{BTreeMap, HashMap};

/// The most entries of a journal.
const MAX_DEPTH: usize = 12_000;

/// The most states that wait, and the most of them in one callback.
const MAX_WAITING: usize = 12_000;

const MAX_OF_CALLBACK: u32 = 5_000;

/// The most moves of a round for each of its states.
const MOVES: u32 = 5;

/// The most passes through all depths.
const MAX_PASSES: u32 = 1_000;

/// The number of states of one callback that are expanded at one depth before others are, in the first pass through all depths, the second
/// pass, and so on.
fn fair_share(pass: u32) -> u32 {
    match pass {
        0 => 16,
        1 => 60,
        _ => 250,
    }
}

/// The most steps made in a row that nobody sees.
const MAX_CHAIN: usize = 2_000;

/// The rest of the bounds of the whole search.
#[derive(Clone, Copy)]
pub struct Left {
    pub states: u32,
    pub moves: u32,
    pub steps: u32,
}

/// A world to expand.
#[derive(Clone, Copy)]
pub(crate) struct State {
    pub(crate) node: Option<usize>,
    depth: usize,
    pub(crate) world: World,
    /// The running activation.
    pub(crate) runner: Option<u8>,
    /// The number of times that an activation was left that could continue.
    switches: u8,
    /// Whether the running one is left now.
    is_left: bool,
    /// The state that waits after it at its depth.
    next: Option<usize>,
}

/// A break that was found.
#[derive(Clone, Copy)]
pub struct Found {
    node: usize,
    pub depth: usize,
    pub stand: Stand,
    pub violation: Violation,
}

impl State {
    /// The callback that is running. If none is, a number of its own.
    fn class(&self) -> usize {
        match self.runner {
            Some(a) if self.world.activation(a).is_on => self.world.activation(a).callback,
            _ => 16,
        }
    }
}

/// A state whose activation is within turns.
#[derive(Clone, Copy)]
struct Anchor {
    node: usize,
    /// The number of turns left of the innermost `repeat`.
    left: u64,
    /// The number of local steps that lead to its next step.
    steps: u32,
}

/// The states that wait, by their depth.
#[derive(Clone, Copy)]
struct Layer {
    first: Option<usize>,
    last: Option<usize>,
}

const EMPTY: Layer = Layer {
    first: None,
    last: None,
};

/// A round.
#[derive(Drop)]
pub struct Search<'p> {
    pub(crate) plan: &'p Plan,
    pub(crate) round: Round,
    pub targets: Targets,
    pub(crate) paths: Paths,
    states: Vec<State>,
    layers: Vec<Layer>,
    /// The places in the list of states that are free, and the number of states that wait.
    free: Option<usize>,
    waiting: usize,
    classes: Counts,
    /// The number of states of one callback that are now expanded at one depth.
    share: u32,
    /// The number of the round's moves that are left.
    moves: u32,
    /// The kinds of operations that come.
    pub(crate) coming: [bool; OPERATIONS],
    /// The keys that were met, and the number of switches of each.
    seen: HashMap<u64, u8>,
    /// The states within turns that were met last, by keys without the turns that are left.
    anchors: BTreeMap<u64, Anchor>,
    pub found: Vec<Found>,
    /// The first world in which activations are at the points of the circle that is sought, and none of them can continue.
    pub(crate) meeting: Option<usize>,
    /// The most entries of a break that stands for something, or of the path to that world.
    pub(crate) longest: usize,
    pub left: Left,
    /// Whether some state wasn't expanded.
    pub is_cut: bool,
}

/// The end of a move.
#[derive(Clone, Copy)]
pub(crate) enum MoveEnd {
    Stuck,
    Broke,
    Went,
}

impl<'p> Search<'p> {
    /// A round that hasn't begun.
    fn new(
        alloc: Global,
        plan: &'p Plan,
        round: Round,
        targets: Targets,
        left: Left,
    ) -> Search<'p> {
        Search {
            plan,
            round,
            targets,
            paths: Paths::new(alloc),
            states: Vec::new(alloc),
            layers: Vec::new(alloc),
            free: None,
            waiting: 0,
            classes: NO_COUNTS,
            share: 0,
            moves: round.states.saturating_mul(MOVES),
            coming: [false; OPERATIONS],
            seen: HashMap::new(alloc),
            anchors: BTreeMap::new(alloc),
            found: Vec::new(alloc),
            meeting: None,
            longest: 0,
            left,
            is_cut: false,
        }
    }

    // ---- layers

    fn put_last(&mut self, depth: usize, number: usize) -> Result<(), AllocError> {
        for _ in self.layers.len()..depth.saturating_add(1) {
            self.layers.push(EMPTY)?;
        }
        let Some(layer) = self.layers.get_mut(depth) else {
            return Ok(());
        };
        let last = layer.last;
        layer.last = Some(number);
        match last {
            Some(last) => {
                if let Some(state) = self.states.get_mut(last) {
                    state.next = Some(number);
                }
            }
            None => layer.first = Some(number),
        }
        Ok(())
    }

    /// Whether a state wasn't met before with as few switches.
    fn is_new(&mut self, state: &State) -> Result<bool, AllocError> {
        let key = key_of(self.plan, &state.world, state.runner);
        let key = if state.is_left { key ^ 0x5555 } else { key };
        if let Some(switches) = self.seen.get(&key) {
            if *switches <= state.switches {
                return Ok(false);
            }
        }
        let _ = self.seen.insert(key, state.switches)?;
        Ok(true)
    }

    /// Adds a state to those that wait, if it is new.
    fn push_state(
        &mut self,
        from: &State,
        state: &mut State,
        first: usize,
    ) -> Result<(), AllocError> {
        state.world.sweep(self.plan);
        if !self.has_room(state)? || !self.is_new(state)? {
            self.paths.forget(first);
            return Ok(());
        }
        state.node = Some(self.paths.add_node(from.node, first)?);
        self.look_for_meeting(state);
        if self.leap(state)? {
            self.put_state(state)?;
        }
        Ok(())
    }

    /// Whether there is room for a state.
    fn has_room(&mut self, state: &State) -> Result<bool, AllocError> {
        let class = state.class();
        let is_full = self.waiting >= MAX_WAITING || self.classes.get(class) >= MAX_OF_CALLBACK;
        self.is_cut = self.is_cut || is_full;
        Ok(!is_full)
    }

    /// Adds a state to those that wait.
    fn put_state(&mut self, state: &mut State) -> Result<(), AllocError> {
        state.depth = self.paths.depth(state.node);
        state.next = None;
        if state.depth >= MAX_DEPTH {
            self.is_cut = true;
            return Ok(());
        }
        self.classes.add(state.class());
        self.waiting = self.waiting.saturating_add(1);
        let depth = state.depth;
        let number = self.place(state)?;
        self.put_last(depth, number)
    }

    // ---- turns that come again

    /// Makes at once the turns that are repeated from a state. False if the state is dropped: one like it on another path has more turns
    /// left.
    fn leap(&mut self, state: &mut State) -> Result<bool, AllocError> {
        let (Some(a), Some(node)) = (state.runner, state.node) else {
            return Ok(true);
        };
        if state.is_left {
            return Ok(true);
        }
        let Some(left) = state.world.turns_left(a) else {
            return Ok(true);
        };
        let mut other = state.world;
        other.set_turns_left(a, 0);
        let key = key_of(self.plan, &other, state.runner) ^ u64::from(state.switches);
        let own = Anchor {
            node,
            left,
            steps: state.world.activation(a).steps,
        };
        let Some(anchor) = self.anchors.get(&key) else {
            let _ = self.anchors.insert(key, own)?;
            return Ok(true);
        };
        let anchor = *anchor;
        let _ = self.anchors.insert(key, own)?;
        self.leap_from(state, a, anchor, own)
    }

    /// The same, if an earlier state was alike except for the turns that are left.
    fn leap_from(
        &mut self,
        state: &mut State,
        a: u8,
        anchor: Anchor,
        own: Anchor,
    ) -> Result<bool, AllocError> {
        let Some(each) = anchor.left.checked_sub(own.left) else {
            return Ok(true);
        };
        let (Some(times), Some(rest)) = (own.left.checked_div(each), own.left.checked_rem(each))
        else {
            return Ok(true);
        };
        if anchor.steps != own.steps || times == 0 {
            return Ok(true);
        }
        let serial = state.world.activation(a).serial;
        let Ok(turns) = usize::try_from(times) else {
            return Ok(true);
        };
        match self.paths.add_turns(anchor.node, own.node, serial, turns)? {
            Some(node) => {
                state.node = Some(node);
                state.world.set_turns_left(a, rest);
                self.is_new(state)
            }
            None => Ok(each <= 3),
        }
    }

    /// The place of a state among those that wait.
    fn place(&mut self, state: &State) -> Result<usize, AllocError> {
        if let Some(number) = self.free {
            if let Some(place) = self.states.get_mut(number) {
                self.free = place.next;
                *place = *state;
                return Ok(number);
            }
        }
        let number = self.states.len();
        self.states.push(*state)?;
        Ok(number)
    }

    /// Takes out a state that was expanded.
    fn drop_state(&mut self, number: usize, class: usize) {
        if let Some(place) = self.states.get_mut(number) {
            place.next = self.free;
            self.free = Some(number);
        }
        self.classes.remove(class);
        self.waiting = self.waiting.saturating_sub(1);
    }

    // ---- breaks

    /// The depth of the break of a number. It is great if there is no break.
    fn length_of(&self, number: Option<usize>) -> usize {
        match number {
            Some(number) => match self.found.get(number) {
                Some(found) => found.depth,
                None => usize::MAX,
            },
            None => usize::MAX,
        }
    }

    /// Notes a break by the entries from one on, if none so short stands for its violation.
    fn meet(
        &mut self,
        from: &State,
        first: usize,
        stand: Stand,
        violation: Violation,
    ) -> Result<(), AllocError> {
        let (at_point, in_callback) = self.targets.wants(stand, violation);
        let (point, whole) = self.targets.firsts(stand);
        let count = self.paths.len().saturating_sub(first);
        let depth = from.depth.saturating_add(count);
        let is_first = at_point && depth < self.length_of(point.get(violation));
        let is_spare = in_callback && depth < self.length_of(whole.get(violation));
        if !is_first && !is_spare {
            return Ok(());
        }
        let node = self.paths.add_node(from.node, first)?;
        let number = self.found.len();
        self.found.push(Found {
            node,
            depth,
            stand,
            violation,
        })?;
        self.longest = self.longest.max(depth);
        let met = Met {
            stand,
            violation,
            number,
        };
        if is_first {
            self.targets.put_at_point(met);
        }
        if is_spare {
            self.targets.put_in_callback(met);
        }
        Ok(())
    }

    /// The entries that lead to a break, its own included.
    ///
    /// # Errors
    ///
    /// `AllocError` if a growth is refused.
    pub fn journal(&self, found: &Found) -> Result<Vec<JournalEntry>, AllocError> {
        self.paths.journal(found.node)
    }

    // ---- moves

    fn stand_of(world: &World, a: u8) -> Stand {
        let activation = world.activation(a);
        Stand {
            filter: activation.filter,
            callback: activation.callback,
            point: activation.point,
        }
    }

    /// Makes the next step of an activation.
    fn step(&mut self, world: &mut World, a: u8, grant: bool) -> Result<Course, AllocError> {
        let activation = world.activation(a);
        let entry = JournalEntry::Go {
            activation: activation.serial,
            steps: activation.steps.saturating_add(1),
            grant,
        };
        let course = world.step(self.plan, a, grant, &mut self.left.steps);
        if matches!(course, Course::Goes | Course::Breaks(_)) {
            self.paths.push(entry)?;
        }
        if matches!(course, Course::Full) {
            self.is_cut = true;
        }
        Ok(course)
    }

    /// Whether an activation makes its next step at once: nobody sees it, and it leaves no choice.
    fn goes_at_once(&self, world: &World, a: u8) -> bool {
        !world.is_seen(self.plan, a) && !world.has_choice(self.plan, a)
    }

    /// The running activation, if it makes its next step at once.
    fn next_at_once(&self, state: &mut State) -> Option<u8> {
        let a = state.runner?;
        if !state.world.activation(a).is_on {
            state.runner = None;
            return None;
        }
        if self.goes_at_once(&state.world, a) {
            Some(a)
        } else {
            None
        }
    }

    /// Makes steps in a row that nobody sees and that leave no choice. The state before them waits if one of them breaks something.
    fn chain(&mut self, from: &State, state: &mut State, first: usize) -> Result<(), AllocError> {
        if self.next_at_once(state).is_none() {
            return self.push_state(from, state, first);
        }
        if state.switches >= self.round.switches {
            let _ = self.go_in_row(from, state, first)?;
            return Ok(());
        }
        let mut before = *state;
        let between = self.paths.len();
        if self.go_in_row(from, state, first)? {
            self.leave(from, &mut before, first, between)?;
        }
        Ok(())
    }

    /// Makes these steps. True if one of them breaks something.
    fn go_in_row(
        &mut self,
        from: &State,
        state: &mut State,
        first: usize,
    ) -> Result<bool, AllocError> {
        for _ in 0..MAX_CHAIN {
            let Some(a) = self.next_at_once(state) else {
                self.push_state(from, state, first)?;
                return Ok(false);
            };
            if state.world.free_context().is_none() {
                state.world.sweep(self.plan);
            }
            let stand = Search::stand_of(&state.world, a);
            match self.step(&mut state.world, a, true)? {
                Course::Goes => {}
                Course::Breaks(violation) => {
                    self.meet(from, first, stand, violation)?;
                    return Ok(true);
                }
                Course::Stuck | Course::Full => return Ok(false),
            }
        }
        self.is_cut = true;
        Ok(false)
    }

    /// Adds the state before a chain that broke something to those that wait, with its activation left.
    fn leave(
        &mut self,
        from: &State,
        state: &mut State,
        first: usize,
        between: usize,
    ) -> Result<(), AllocError> {
        let begin = self.paths.len();
        self.paths.copy(first, between)?;
        state.is_left = true;
        self.push_state(from, state, begin)
    }

    fn go(&mut self, from: &State, a: u8, grant: bool, cost: u8) -> Result<MoveEnd, AllocError> {
        let mut state = *from;
        state.runner = Some(a);
        state.is_left = false;
        state.switches = from.switches.saturating_add(cost);
        if state.world.free_context().is_none() {
            state.world.sweep(self.plan);
        }
        let first = self.paths.len();
        let stand = Search::stand_of(&state.world, a);
        match self.step(&mut state.world, a, grant)? {
            Course::Goes => {
                self.chain(from, &mut state, first)?;
                Ok(MoveEnd::Went)
            }
            Course::Breaks(violation) => {
                self.meet(from, first, stand, violation)?;
                Ok(MoveEnd::Broke)
            }
            Course::Stuck => Ok(MoveEnd::Stuck),
            Course::Full => Ok(MoveEnd::Went),
        }
    }

    fn make(&mut self, from: &State, next: Next, cost: u8) -> Result<(), AllocError> {
        let mut state = *from;
        state.is_left = false;
        state.switches = from.switches.saturating_add(cost);
        let mut made = NOTHING_MADE;
        let left = &mut self.left.steps;
        let Some(started) = state.world.make_move(self.plan, next, &mut made, left) else {
            self.is_cut = self.is_cut || state.world.is_full();
            return Ok(());
        };
        if started.is_some() {
            state.runner = started;
        }
        let first = self.paths.len();
        for place in 0..made.len() {
            if let Some(entry) = made.entry(place) {
                self.paths.push(entry)?;
            }
        }
        self.chain(from, &mut state, first)
    }

    /// Spends one of the moves that are left. False if none is.
    fn spend_move(&mut self) -> bool {
        match (self.moves.checked_sub(1), self.left.moves.checked_sub(1)) {
            (Some(own), Some(left)) => {
                self.moves = own;
                self.left.moves = left;
                true
            }
            _ => {
                self.is_cut = true;
                false
            }
        }
    }

    pub(crate) fn take(
        &mut self,
        from: &State,
        next: Next,
        cost: u8,
    ) -> Result<MoveEnd, AllocError> {
        if !self.spend_move() {
            return Ok(MoveEnd::Went);
        }
        match next {
            Next::Go(a, grant) => self.go(from, a, grant, cost),
            _ => {
                self.make(from, next, cost)?;
                Ok(MoveEnd::Went)
            }
        }
    }

    // ---- all states

    /// Continues the running activation. None if no other may come, or else the cost of another one.
    fn take_runner(&mut self, from: &State) -> Result<Option<u8>, AllocError> {
        let Some(a) = from.runner else {
            return Ok(Some(0));
        };
        if !from.world.activation(a).is_on {
            return Ok(Some(0));
        }
        if from.is_left {
            return Ok(Some(1));
        }
        let is_seen = from.world.is_seen(self.plan, a);
        let taken = self.take(from, Next::Go(a, true), 0)?;
        if from.world.has_choice(self.plan, a) {
            self.take(from, Next::Go(a, false), 0)?;
        }
        match taken {
            MoveEnd::Stuck => Ok(Some(0)),
            MoveEnd::Broke => Ok(Some(1)),
            MoveEnd::Went if is_seen => Ok(Some(1)),
            MoveEnd::Went => Ok(None),
        }
    }

    fn expand(&mut self, from: &State) -> Result<(), AllocError> {
        let Some(cost) = self.take_runner(from)? else {
            return Ok(());
        };
        if from.switches.saturating_add(cost) > self.round.switches {
            return Ok(());
        }
        self.take_operations(from, cost)?;
        self.take_work(from, cost)?;
        self.take_filters(from, cost)?;
        self.take_others(from, cost)?;
        self.take_arrivals(from, cost)
    }

    /// Whether all is found, and nothing shorter can come.
    fn is_done(&self, depth: usize) -> bool {
        self.targets.open == 0 && depth.saturating_add(1) >= self.longest
    }

    /// Spends one of the states that are left. False if none is, or no move is left.
    fn spend_state(&mut self) -> bool {
        if self.moves == 0 || self.left.moves == 0 || self.left.steps == 0 {
            self.is_cut = true;
            return false;
        }
        match (
            self.round.states.checked_sub(1),
            self.left.states.checked_sub(1),
        ) {
            (Some(own), Some(left)) => {
                self.round.states = own;
                self.left.states = left;
                true
            }
            _ => {
                self.is_cut = true;
                false
            }
        }
    }

    /// Takes out the states that wait at a depth, and returns the first.
    fn take_layer(&mut self, depth: usize) -> Option<usize> {
        let layer = self.layers.get_mut(depth)?;
        let first = layer.first;
        *layer = EMPTY;
        first
    }

    /// Has the state of a number, and those after it, wait at their depth again.
    fn put_back(&mut self, depth: usize, number: Option<usize>) -> Result<(), AllocError> {
        let mut next = number;
        for _ in 0..MAX_WAITING {
            let Some(number) = next else {
                return Ok(());
            };
            let Some(state) = self.states.get_mut(number) else {
                return Ok(());
            };
            next = state.next;
            state.next = None;
            self.put_last(depth, number)?;
        }
        Ok(())
    }

    /// Expands a state, unless enough of its callback were expanded at its depth: then it waits again. False if the round is over.
    fn take_state<W: SearchWatch>(
        &mut self,
        depth: usize,
        number: usize,
        counts: &mut Counts,
        watched: &mut WatchedSearch<'_, W>,
    ) -> Result<bool, AllocError> {
        let class = match self.states.get(number) {
            Some(state) => state.class(),
            None => return Ok(true),
        };
        if counts.get(class) >= self.share {
            self.put_back_one(depth, number)?;
            return Ok(true);
        }
        counts.add(class);
        if self.is_done(depth) || !self.spend_state() {
            return Ok(false);
        }
        if let Some(state) = self.states.get(number) {
            let state = *state;
            self.drop_state(number, class);
            self.expand(&state)?;
            watched.add_state();
        }
        Ok(true)
    }

    fn put_back_one(&mut self, depth: usize, number: usize) -> Result<(), AllocError> {
        if let Some(state) = self.states.get_mut(number) {
            state.next = None;
        }
        self.put_last(depth, number)
    }

    fn next_of(&self, number: usize) -> Option<usize> {
        match self.states.get(number) {
            Some(state) => state.next,
            None => None,
        }
    }

    /// Expands the states of a depth. False if the round is over.
    fn go_through<W: SearchWatch>(
        &mut self,
        depth: usize,
        watched: &mut WatchedSearch<'_, W>,
    ) -> Result<bool, AllocError> {
        let mut counts = NO_COUNTS;
        let mut next = self.take_layer(depth);
        for _ in 0..MAX_WAITING {
            let Some(number) = next else {
                return Ok(true);
            };
            next = self.next_of(number);
            if !self.take_state(depth, number, &mut counts, watched)? {
                return Ok(false);
            }
        }
        self.put_back(depth, next)?;
        Ok(true)
    }

    /// Passes through all depths. False if the round is over.
    fn pass<W: SearchWatch>(
        &mut self,
        watched: &mut WatchedSearch<'_, W>,
    ) -> Result<bool, AllocError> {
        for depth in 0..MAX_DEPTH {
            if depth >= self.layers.len() {
                return Ok(self.waiting > 0);
            }
            if !self.go_through(depth, watched)? {
                return Ok(false);
            }
        }
        Ok(self.waiting > 0)
    }

    /// Runs the round.
    fn run<W: SearchWatch>(
        &mut self,
        watched: &mut WatchedSearch<'_, W>,
    ) -> Result<(), AllocError> {
        let opening = State {
            node: None,
            depth: 0,
            world: OPENING,
            runner: None,
            switches: 0,
            is_left: false,
            next: None,
        };
        self.find_coming();
        let mut first = opening;
        self.push_state(&opening, &mut first, 0)?;
        for number in 0..MAX_PASSES {
            self.share = fair_share(number);
            if !self.pass(watched)? {
                return Ok(());
            }
        }
        self.is_cut = true;
        Ok(())
    }
}

/// Explores a round for these targets, with the rest of the bounds.
///
/// # Errors
///
/// `AllocError` if a growth is refused.
pub fn explore<'p, W: SearchWatch>(
    alloc: Global,
    plan: &'p Plan,
    round: Round,
    targets: Targets,
    left: Left,
    watched: &mut WatchedSearch<'_, W>,
) -> Result<Search<'p>, AllocError> {
    let mut search = Search::new(alloc, plan, round, targets, left);
    search.run(watched)?;
    Ok(search)
}
