//! The engine, and what can be read of it.
ghost use Rattle.std.specs.Prelude.{◌≡◌, ◌<◌, ◌≤◌, ◌^◌, length, None};
ghost use Rattle.std.specs.List.{slice_index_or};
ghost use Rattle.lb_domain.specs.Topologies.{domains_within};
ghost use Rattle.lb_core.specs.Machine.{queue_at, course_at, figures_at, masks_at, place_at};

use lb_base::{Buffer, Fig, Items};
use lb_core::{Course, Place};
use lb_domain::Topology;
use lb_levels::Machine;
use lb_queue::{Hand, Queue};
use lb_trace::Header;
use std::marker::Model;

mod ending;
mod hands;
mod lanes;
mod opening;
mod queues;
mod take;
mod turns;

/// The engine holds the machine after some entries, and changes it in place (docs/rules/lanes.md).
/// Contracts see the machine, the hands of the lanes that are in flight, how many landings are booked
/// at each queue, and for how many more figures of each queue there is room.
///
/// A hand must land before the engine is let go: it is spent by [`Engine::end`].
pub struct Engine {
    header: Header,
    layout: Machine,
    ticket: u64,
    versions: Items<Topology>,
    queues: Vec<Queue>,
    figures: Vec<Buffer<Fig>>,
    courses: Vec<Course>,
    hands: Vec<Option<Hand>>,
    last: Vec<u64>,
    ticked: Vec<Option<u32>>,
    closing: bool,
    ended: bool,
    places: Vec<Place>,
}

impl Model for Engine {
    ghost use Rattle.std.specs.Prelude.{map};
    ghost use Rattle.lb_engine.specs.Held.{Held};

    ghost Value = { Held };

    ghost view = { λ p. record {
      machine = record {
        header = p.header;
        ticket = p.ticket;
        versions = map (λ t. t.masks) p.versions;
        queues = map (λ q. q.state) p.queues.items;
        figures = map (λ b. b.items) p.figures.items;
        courses = p.courses.items;
        last = p.last.items;
        ticked = p.ticked.items;
        closing = p.closing;
        ended = p.ended;
        places = p.places.items;
      };
      hands = p.hands.items;
      booked = map (λ q. q.booked) p.queues.items;
      spare = map (λ b. b.spare) p.figures.items;
    } };

    ghost use Rattle.lb_engine.specs.Inside.{IsInside};

    ghost invariant = { λ p. IsInside p.header p.layout p.versions };
}

impl Engine {
    /// What the trace declares.
    pub fn header(&self) -> &Header
        ensures { result.now ≡ self.now.machine.header }
    {
        &self.header
    }

    /// The last ticket; 0 before the first entry.
    pub fn ticket(&self) -> u64
        ensures { result ≡ self.now.machine.ticket }
    {
        self.ticket
    }

    /// The last published version, from 1.
    pub fn version(&self) -> u64
        ensures { result ≡ length self.now.machine.versions }
    {
        self.versions.len() as u64
    }

    /// The topology of a published version.
    pub fn topology_of(&self, version: u64) -> &Topology
        requires some { 1 ≤ version }
        requires published { version ≤ length self.now.machine.versions }
        ensures { result.now ≡ domains_within self.now.machine.header.cpus self.now.machine.header.distances (masks_at self.now.machine version) }
    {
        self.versions.get((version - 1) as usize)
    }

    /// How many CPUs there are, each with a queue.
    pub fn cpus(&self) -> u32
        requires { length self.now.machine.queues < 2 ^ 32 }
        ensures { result ≡ length self.now.machine.queues }
    {
        self.queues.len() as u32
    }

    /// How many lanes there are, each with a course.
    pub fn lanes(&self) -> u32
        requires { length self.now.machine.courses < 2 ^ 32 }
        ensures { result ≡ length self.now.machine.courses }
    {
        self.courses.len() as u32
    }

    /// The run queue of a CPU.
    pub fn queue(&self, cpu: u32) -> &Queue
        requires { cpu < length self.now.machine.queues }
        ensures { result.now.state ≡ queue_at self.now.machine.queues cpu }
    {
        &self.queues[cpu as usize]
    }

    /// The figures of a CPU so far, the opening one first: the one at place `n` has number `n`.
    pub fn figures(&self, cpu: u32) -> &[Fig]
        requires { cpu < length self.now.machine.figures }
        ensures { result.now ≡ figures_at self.now.machine.figures cpu }
    {
        self.figures[cpu as usize].as_slice()
    }

    /// What a lane may do next.
    pub fn course(&self, lane: u32) -> &Course
        requires { lane < length self.now.machine.courses }
        ensures { result.now ≡ course_at self.now.machine.courses lane }
    {
        &self.courses[lane as usize]
    }

    /// The ticket of a lane's last entry; 0 where it has none.
    pub fn last(&self, lane: u32) -> u64
        requires { lane < length self.now.machine.last }
        ensures { result ≡ slice_index_or self.now.machine.last lane 0 }
    {
        self.last[lane as usize]
    }

    /// The lane that ticked a CPU, if one did.
    pub fn ticked(&self, cpu: u32) -> Option<u32>
        requires { cpu < length self.now.machine.ticked }
        ensures { result ≡ slice_index_or self.now.machine.ticked cpu None }
    {
        self.ticked[cpu as usize]
    }

    /// Where a task is.
    pub fn place(&self, task: u32) -> Place
        requires { task < length self.now.machine.places }
        ensures { result ≡ place_at self.now.machine task }
    {
        self.places[task as usize]
    }

    /// Whether a stop was served at rest.
    pub fn is_closing(&self) -> bool
        ensures { result ≡ self.now.machine.closing }
    {
        self.closing
    }

    /// Whether the end was drawn.
    pub fn has_ended(&self) -> bool
        ensures { result ≡ self.now.machine.ended }
    {
        self.ended
    }
}
