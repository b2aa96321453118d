//! Balancing turns at a queue: opening, closing of positions, and end (docs/rules/counters.md).
ghost use Rattle.std.specs.Prelude.{◌≡◌, ◌==◌, nat_lt, ◌≤◌, ◌<◌, ◌+◌, ◌*◌, ℕ, length, map, not, IsSome, MatchOption, None, Some, if◌then◌else◌, vec_capacity, vec_len, ◌&&◌, ◌||◌};
ghost use Rattle.lb_base.specs.Sets.{mask_where};
ghost use Rattle.lb_base.specs.Mask.{has, no_cpus};
ghost use Rattle.lb_queue.specs.Turns.{fresh_at, found_by, closed_at, due_positions, idle_levels, kicked_after, tries_of};

use super::{MAX_SHAPES, NANOSECONDS_PER_MILLISECOND, Queue};
use crate::answers::{OpenTurn, TurnReply};
use lb_base::{Kind, LevelName, MAX_CPUS, Mask, Shape};
use lb_interval::{Counters, Outcome, after, due, fresh};
use lb_newidle::{COST_PER_CPU, next_level};

impl Queue {
    ghost use Rattle.lb_queue.specs.Turns.{turn, opens, positions_found, close_look, end_turn, counters_of, FitCounters, AreInOrder, IsOpenAt};

    /// What [`Queue::turn`] with these arguments would answer.
    pub fn opens(&self, at: u64, kind: Kind, version: u64, shapes: &[Shape]) -> TurnReply
        requires few { length shapes.now ≤ MAX_SHAPES }
        requires in_order { AreInOrder shapes.now }
        requires fit { FitCounters self.now.state version shapes.now }
        ensures { result ≡ opens self.now.state at kind version shapes.now }
    {
        match self.open_turn {
            Some(_) => TurnReply::TurnOpen,
            None => TurnReply::Opened(self.positions(at, kind, version, shapes)),
        }
    }

    // The positions of a turn.
    fn positions(&self, at: u64, kind: Kind, version: u64, shapes: &[Shape]) -> Mask
        requires few { length shapes.now ≤ MAX_SHAPES }
        requires fit { FitCounters self.now.state version shapes.now }
        ensures { result ≡ positions_found self.now.state at kind version shapes.now }
    {
        let now = self.clock.max(at) / NANOSECONDS_PER_MILLISECOND;
        let idle = self.lists.is_idle();
        match kind {
            Kind::Tick => self.due_positions(version, shapes, !idle, now),
            Kind::Idle => idle_positions(idle, self.avg_idle, shapes),
            Kind::Nohz => {
                if idle && self.tickless {
                    self.due_positions(version, shapes, false, now)
                } else {
                    Mask::none()
                }
            }
        }
    }

    // The positions that are due, by the counters that a turn finds.
    fn due_positions(&self, version: u64, shapes: &[Shape], busy: bool, now: u64) -> Mask
        requires few { length shapes.now ≤ MAX_SHAPES }
        ensures { result ≡ due_positions
            (found_by (version == self.now.state.version) self.now.state.counters shapes.now now) busy self.now.state.cpus now }
    {
        if version != self.version {
            return due_fresh(shapes, now, busy, self.cpus, now);
        }
        if self.counted {
            due_counted(&self.counters, busy, self.cpus, now)
        } else {
            due_fresh(shapes, 0, busy, self.cpus, now)
        }
    }

    /// Opens a turn over the shapes of a version of the CPU's domains, the i-th of them of position
    /// i, for a lane. `TurnOpen` exactly where a turn is open; otherwise the positions that are to be
    /// balanced. Where the version is another than the queue's, its counters become fresh.
    pub fn turn(
        &mut self,
        at: u64,
        lane: u32,
        kind: Kind,
        version: u64,
        shapes: &[Shape],
    ) -> TurnReply
        requires few { length shapes.now ≤ MAX_SHAPES }
        requires in_order { AreInOrder shapes.now }
        requires fit { FitCounters self.old.state version shapes.now }
        ensures step { (result, self.new.state) ≡ turn self.old.state at lane kind version shapes.now }
        ensures booked { self.new.booked ≡ self.old.booked }
    {
        if self.open_turn.is_some() {
            self.clock = self.clock.max(at);
            self.kicked = still_kicked(kind, self.kicked);
            return TurnReply::TurnOpen;
        }
        let positions = self.positions(at, kind, version, shapes);
        self.clock = self.clock.max(at);
        self.kept = Some(self.lists.renewed(self.kept, self.clock));
        let now = self.clock / NANOSECONDS_PER_MILLISECOND;
        find_counters(
            &mut self.counters,
            self.counted,
            version == self.version,
            shapes,
            now,
        );
        self.counted = true;
        self.version = version;
        self.kicked = still_kicked(kind, self.kicked);
        self.open_turn = Some(OpenTurn {
            lane,
            kind,
            positions,
        });
        TurnReply::Opened(positions)
    }

    /// Closes a position of the open turn with its outcome. `imb` is whether the last take of the
    /// position left something because of affinity; None without a take.
    pub fn close_look(&mut self, at: u64, shape: &Shape, outcome: Outcome, imb: Option<bool>)
        requires { IsOpenAt self.old.state.open_turn shape.now.position }
        ensures step { self.new.state ≡ close_look self.old.state at shape.now outcome imb }
        ensures booked { self.new.booked ≡ self.old.booked }
    {
        self.clock = self.clock.max(at);
        self.kept = Some(self.lists.renewed(self.kept, self.clock));
        let now = self.clock / NANOSECONDS_PER_MILLISECOND;
        if let Some(turn) = self.open_turn {
            close(&mut self.counters, shape, turn.kind, outcome, imb, now);
        }
    }

    /// Ends the open turn.
    pub fn end_turn(&mut self, at: u64)
        requires { IsSome self.old.state.open_turn }
        ensures step { self.new.state ≡ end_turn self.old.state at }
        ensures booked { self.new.booked ≡ self.old.booked }
    {
        self.clock = self.clock.max(at);
        self.kept = Some(self.lists.renewed(self.kept, self.clock));
        self.open_turn = None;
    }

    /// The counters of all positions, from 0. None before the first turn.
    pub fn all_counters(&self) -> Option<&[Counters]>
        ensures { MatchOption result (self.now.state.counters ≡ None) (λ cs. self.now.state.counters ≡ Some cs.now) }
    {
        if self.counted {
            Some(self.counters.as_slice())
        } else {
            None
        }
    }

    /// The counters of a position. None exactly where the queue has none of it.
    pub fn counters(&self, position: u32) -> Option<Counters>
        ensures { result ≡ counters_of self.now.state position }
    {
        if !self.counted || position as usize >= self.counters.len() {
            return None;
        }
        Some(self.counters[position as usize])
    }
}

// A mask with a position more, if it is due.
fn with_position(mask: Mask, position: u32, is_due: bool) -> Mask
    requires { position < MAX_CPUS }
    ensures { (k : ℕ) → has result k ≡ (has mask k || (is_due && (k == position))) }
{
    if is_due {
        mask.or(Mask::one(position))
    } else {
        mask
    }
}

// The positions of counters that are due.
fn due_counted(counters: &[Counters], busy: bool, cpus: u32, now: u64) -> Mask
    requires few { length counters.now ≤ MAX_SHAPES }
    requires some { 1 ≤ cpus }
    ensures { result ≡ due_positions counters.now busy cpus now }
{
    let mut mask = Mask::none();
    for p in 0..counters.len() {
        mask = with_position(mask, p as u32, due(&counters[p], busy, cpus, now));
    }
    mask
}

// The positions that are due by counters that are fresh at some milliseconds.
fn due_fresh(shapes: &[Shape], made: u64, busy: bool, cpus: u32, now: u64) -> Mask
    requires few { length shapes.now ≤ MAX_SHAPES }
    requires some { 1 ≤ cpus }
    ensures { result ≡ due_positions (map (fresh_at made) shapes.now) busy cpus now }
{
    let mut mask = Mask::none();
    for p in 0..shapes.len() {
        let counters = fresh(shapes[p].span.weight(), made);
        mask = with_position(mask, p as u32, due(&counters, busy, cpus, now));
    }
    mask
}

// The positions of a newly-idle turn, which opens none where somebody is awake.
fn idle_positions(idle: bool, avg_idle: u64, shapes: &[Shape]) -> Mask
    requires { length shapes.now ≤ MAX_SHAPES }
    ensures { result ≡ (if idle then mask_where (λ p. nat_lt p (idle_levels avg_idle 0 shapes.now)) else no_cpus) }
{
    if idle {
        Mask::all(levels(avg_idle, shapes))
    } else {
        Mask::none()
    }
}

// How many levels a newly-idle turn goes up.
fn levels(avg_idle: u64, shapes: &[Shape]) -> u32
    requires { length shapes.now ≤ MAX_SHAPES }
    ensures value { result ≡ idle_levels avg_idle 0 shapes.now }
    ensures few { result ≤ length shapes.now }
{
    let mut spent = 0;
    let mut level = 0;
    for shape in shapes {
        let weight = shape.span.weight();
        if !next_level(avg_idle, spent, weight) {
            return level;
        }
        spent += COST_PER_CPU * u64::from(weight);
        level += 1;
    }
    level
}

// The counters of each shape are made fresh.
fn renew(counters: &mut Vec<Counters>, shapes: &[Shape], now: u64)
    requires { length shapes.now ≤ vec_capacity counters.old }
    ensures items { counters.new.items ≡ map (fresh_at now) shapes.now }
    ensures capacity { vec_capacity counters.new ≡ vec_capacity counters.old }
{
    counters.clear();
    for shape in shapes {
        counters.push_reserved(fresh(shape.span.weight(), now));
    }
}

// The counters that a turn finds.
fn find_counters(
    counters: &mut Vec<Counters>,
    counted: bool,
    same: bool,
    shapes: &[Shape],
    now: u64,
)
    requires { length shapes.now ≤ vec_capacity counters.old }
    ensures items { counters.new.items ≡ found_by same (if counted then Some counters.old.items else None) shapes.now now }
    ensures capacity { vec_capacity counters.new ≡ vec_capacity counters.old }
{
    if !same {
        renew(counters, shapes, now);
    } else if !counted {
        renew(counters, shapes, 0);
    }
}

// The counters of a position after its outcome.
fn close(
    counters: &mut Vec<Counters>,
    shape: &Shape,
    kind: Kind,
    outcome: Outcome,
    imb: Option<bool>,
    now: u64,
)
    requires { shape.now.position < vec_len counters.old }
    ensures items { counters.new.items ≡ closed_at counters.old.items kind shape.now outcome imb now }
    ensures capacity { vec_capacity counters.new ≡ vec_capacity counters.old }
{
    let at = shape.position as usize;
    let closed = after(
        &counters[at],
        kind,
        outcome,
        imb,
        shape.span.weight(),
        tries(shape.name),
        now,
    );
    counters[at] = closed;
}

// The flag of a kick after a turn of a kind.
fn still_kicked(kind: Kind, kicked: bool) -> bool
    ensures { result ≡ kicked_after kind kicked }
{
    match kind {
        Kind::Tick | Kind::Idle => kicked,
        Kind::Nohz => false,
    }
}

/// The cache tries of a domain of this level: while it failed to balance no more often than so, hot
/// tasks stay (docs/rules/domains.md).
pub fn tries(name: LevelName) -> u32
    ensures { result ≡ tries_of name }
{
    match name {
        LevelName::Smt => 0,
        LevelName::Mc | LevelName::Pkg => 1,
        LevelName::Numa(_) => 2,
    }
}
