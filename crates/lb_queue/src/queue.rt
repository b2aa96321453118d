//! The run queue of a CPU: what it holds, how it is made, and what of it can be read (docs/rules/queue.md). Its calls
//! stand in `queue/`.
ghost use Rattle.std.specs.Prelude.{◌≡◌, ◌==◌, ◌+◌, ◌-◌, ◌^◌, length, true, ◌<◌, ◌≤◌, ◌≤ℤ◌, ℕ, negsuc, pos, false, None, max, IfOk, OnOk, OnErr, if◌then◌else◌};
ghost use Rattle.lb_queue.specs.Queue.{average_with};

use crate::answers::{OpenTurn, Reply};
use crate::lists::TaskLists;
use crate::sums::KeptSums;
use crate::task::Task;
use lb_active::stop_target;
use lb_base::{MAX_CPUS, Mask, NoMemory};
use lb_interval::Counters;
use lb_newidle::{MAX_AVERAGE, idle_average};
use lb_pelt::Run;
use std::alloc::Global;
use std::marker::Model;

mod commands;
mod hands;
mod requests;
mod turns;
mod values;

pub use turns::tries;

/// A turn takes at most so many shapes of domains.
pub const MAX_SHAPES: usize = 20;

/// The counters' moments are in milliseconds, the clock is in nanoseconds.
pub const NANOSECONDS_PER_MILLISECOND: u64 = 1_000_000;

/// The run queue of a CPU (docs/rules/queue.md). Contracts see its state, and how many landings are
/// booked there.
///
/// Each changing call takes a moment `at` in nanoseconds, and sets the clock to the greater of the
/// clock and `at`. Only [`Queue::new`], [`Queue::declare`] and [`Queue::book`] take memory.
pub struct Queue {
    cpu: u32,
    cpus: u32,
    lists: TaskLists,
    // the sums that the figure shows, where they were taken since a task changed
    kept: Option<KeptSums>,
    active: Option<u32>,
    tickless: bool,
    kicked: bool,
    clock: u64,
    idle_since: Option<u64>,
    avg_idle: u64,
    version: u64,
    // whether there are counters, and those there are
    counted: bool,
    counters: Vec<Counters>,
    open_turn: Option<OpenTurn>,
}

impl Model for Queue {
    ghost use Rattle.std.specs.Prelude.{◌≡◌, Some, None, if◌then◌else◌, vec_capacity};
    ghost use Rattle.lb_queue.specs.Queue.{BookedQueue};

    ghost Value = { BookedQueue };

    ghost use Rattle.lb_queue.specs.Inside.{IsInside};

    ghost view = { λ q. record {
      state =
          record {
            cpu = q.cpu;
            cpus = q.cpus;
            awake = q.lists.awake;
            asleep = q.lists.asleep;
            gone = q.lists.gone;
            active = q.active;
            tickless = q.tickless;
            kicked = q.kicked;
            clock = q.clock;
            idle_since = q.idle_since;
            avg_idle = q.avg_idle;
            version = q.version;
            counters = if q.counted then Some q.counters.items else None;
            open_turn = q.open_turn;
          };
      booked = q.lists.booked;
    } };

    ghost invariant = { λ q. IsInside q.cpu q.cpus q.lists q.counted q.counters.items (vec_capacity q.counters) q.open_turn q.kept };
}

// The average idle time as a task comes, where nobody was awake or somebody was.
fn sample(nobody: bool, idle_since: Option<u64>, clock: u64, avg_idle: u64) -> u64
    ensures { result ≡ (if nobody then average_with idle_since clock avg_idle else avg_idle) }
{
    if !nobody {
        return avg_idle;
    }
    match idle_since {
        None => avg_idle,
        Some(since) => idle_average(avg_idle, clock.saturating_sub(since)),
    }
}

// Since when it is idle, after an awake task fell asleep or ended.
fn idle_from(nobody: bool, clock: u64, idle_since: Option<u64>) -> Option<u64>
    ensures { result ≡ (if nobody then Some clock else idle_since) }
{
    if nobody { Some(clock) } else { idle_since }
}

impl Queue {
    ghost use Rattle.lb_base.specs.Sets.{is_empty, is_below};
    ghost use Rattle.lb_queue.specs.Queue.{empty_queue, new_task, declared, knows, away, at_moment};
    ghost use Rattle.lb_queue.specs.Kept.{id_limit};

    /// The empty queue of a CPU at clock 0, on a machine of `cpus` CPUs. Its version is 1, and its
    /// average idle time [`MAX_AVERAGE`].
    pub fn new(alloc: Global, cpu: u32, cpus: u32) -> Result<Queue, NoMemory>
        requires cpu { cpu < cpus }
        requires cpus { cpus ≤ MAX_CPUS }
        ensures { IfOk result (λ q. q ≡ record { state = empty_queue cpu cpus; booked = 0 }) }
    {
        let counters = Vec::with_capacity(alloc, MAX_SHAPES)?;
        Ok(Queue {
            cpu,
            cpus,
            lists: TaskLists::new(alloc, cpu),
            kept: None,
            active: None,
            tickless: false,
            kicked: false,
            clock: 0,
            idle_since: None,
            avg_idle: MAX_AVERAGE,
            version: 1,
            counted: false,
            counters,
            open_turn: None,
        })
    }

    /// Declares a task: it sleeps here. Its id is below 4,294,967,295, its nice value is in -20 to
    /// 19, and its mask is not empty and has no CPU past the machine. A refusal changes nothing.
    pub fn declare(&mut self, id: u32, nice: i32, mask: Mask) -> Result<(), NoMemory>
        requires unknown { knows self.old.state id ≡ false }
        requires id { id < id_limit }
        requires low { negsuc 19 ≤ℤ nice }
        requires high { nice ≤ℤ pos 19 }
        requires somewhere { is_empty mask ≡ false }
        requires within { is_below mask self.old.state.cpus ≡ true }
        ensures ok { OnOk result (self.new ≡ record self.old { state = declared (new_task id nice mask) self.old.state }) }
        ensures refused { OnErr result (self.new ≡ self.old) }
    {
        self.lists.make_room(1)?;
        self.kept = None;
        self.lists.add_asleep(Task::new(id, nice, mask));
        Ok(())
    }

    /// Books `k` more landings. A refusal changes nothing.
    pub fn book(&mut self, k: u64) -> Result<(), NoMemory>
        requires { self.old.booked + k < 2 ^ 32 }
        ensures ok { OnOk result (self.new ≡ record self.old { booked = self.old.booked + k }) }
        ensures refused { OnErr result (self.new ≡ self.old) }
    {
        self.lists.make_room(k)?;
        self.lists.add_booked(k);
        Ok(())
    }

    /// Gives up `k` booked landings.
    pub fn unbook(&mut self, k: u64)
        requires { k ≤ self.old.booked }
        ensures { self.new ≡ record self.old { booked = self.old.booked - k } }
    {
        self.lists.unbook(k);
    }

    /// The number of awake tasks.
    pub fn len(&self) -> u32
        ensures { result ≡ length self.now.state.awake }
    {
        self.lists.awake_len()
    }

    /// The least CPU of the task's mask, exactly where the task sleeps here and its mask lacks this
    /// CPU: where it has to wake.
    pub fn away(&self, id: u32) -> Option<u32>
        ensures { result ≡ away self.now.state id }
    {
        match self.lists.asleep_task(id) {
            None => None,
            Some(task) => {
                if task.mask.has(self.cpu) {
                    None
                } else {
                    stop_target(task.mask)
                }
            }
        }
    }

    /// The clock, in nanoseconds. It never falls.
    pub fn clock(&self) -> u64
        ensures { result ≡ self.now.state.clock }
    {
        self.clock
    }

    /// The version of the topology that the counters are of.
    pub fn version(&self) -> u64
        ensures { result ≡ self.now.state.version }
    {
        self.version
    }

    /// The flag of a kick: whether a turn on behalf of idle CPUs was asked for, and none came since.
    pub fn kicked(&self) -> bool
        ensures { result ≡ self.now.state.kicked }
    {
        self.kicked
    }

    /// Where an active request goes, if one is pending.
    pub fn active(&self) -> Option<u32>
        ensures { result ≡ self.now.state.active }
    {
        self.active
    }

    /// The turn that is open, if one is.
    pub fn open_turn(&self) -> Option<OpenTurn>
        ensures { result ≡ self.now.state.open_turn }
    {
        self.open_turn
    }

    /// The number of booked landings.
    pub fn booked(&self) -> u64
        ensures { result ≡ self.now.booked }
    {
        self.lists.booked()
    }

    /// Whether the task is awake, asleep or gone here.
    pub fn knows(&self, id: u32) -> bool
        ensures { result ≡ knows self.now.state id }
    {
        self.lists.is_awake(id) || self.lists.is_asleep(id) || self.lists.is_gone(id)
    }
}

impl Drop for Queue {
    fn drop(self) {
        let Queue {
            cpu: _,
            cpus: _,
            lists,
            kept: _,
            active: _,
            tickless: _,
            kicked: _,
            clock: _,
            idle_since: _,
            avg_idle: _,
            version: _,
            counted: _,
            counters,
            open_turn: _,
        } = self;
        drop(lists);
        drop(counters);
    }
}
