//! The engine before any entry.
ghost use Rattle.std.specs.Prelude.{◌≡◌, ◌++◌, map, replicate, length, None, IfOk, OnOk, ◌∷◌, []};
ghost use Rattle.std.specs.List.{range_with_len};
ghost use Rattle.lb_queue.specs.Figures.{figure};
ghost use Rattle.lb_trace.specs.Accepted.{IsHeader};
ghost use Rattle.lb_levels.specs.Rows.{layout_of};
ghost use Rattle.lb_domain.specs.Topologies.{domains_within};
ghost use Rattle.lb_core.specs.Course.{opening_course};
ghost use Rattle.lb_core.specs.Machine.{opening_queue};

use super::Engine;
use lb_act::opening_queues;
use lb_base::{Buffer, Fig, Items, NoMemory};
use lb_core::{Course, Place};
use lb_course::opening_course;
use lb_domain::Topology;
use lb_levels::Machine;
use lb_queue::{Hand, Queue};
use lb_trace::Header;
use std::alloc::{AllocError, Global};

// Adds an item at the end.
fn add<T: Drop>(list: &mut Vec<T>, item: T) -> Result<(), NoMemory>
    ensures { OnOk result (list.new.items ≡ list.old.items ++ item ∷ []) }
{
    match list.push(item) {
        Ok(()) => Ok(()),
        Err(refused) => Err(AllocError::from(refused).into()),
    }
}

// The first version, with the masks of the header.
fn opening_version(
    alloc: Global,
    header: &Header,
    layout: &Machine,
) -> Result<Items<Topology>, NoMemory>
    requires header { IsHeader header.now }
    requires layout { layout.now ≡ layout_of header.now.cpus header.now.distances }
    ensures { IfOk result (λ list. list ≡ domains_within header.now.cpus header.now.distances header.now.parts ∷ []) }
{
    let mut versions = Items::new(alloc);
    versions.push(Topology::of(alloc, layout, header.parts.as_slice())?)?;
    Ok(versions)
}

// The figure of a queue before any entry, alone.
fn opening_figure(alloc: Global, queue: &Queue) -> Result<Buffer<Fig>, NoMemory>
    ensures { IfOk result (λ list. list.items ≡ figure queue.now.state 0 0 ∷ []) }
{
    let mut figures = Buffer::new(alloc);
    figures.reserve(1)?;
    figures.push_reserved(queue.figure(0, 0));
    Ok(figures)
}

// The figures of the queues before any entry.
fn opening_figures(alloc: Global, queues: &[Queue]) -> Result<Vec<Buffer<Fig>>, NoMemory>
    ensures { IfOk result (λ list. map (λ b. b.items) list.items ≡ map (λ q. figure q.state 0 0 ∷ []) queues.now) }
{
    let mut figures = Vec::new(alloc);
    for queue in queues {
        add(&mut figures, opening_figure(alloc, queue)?)?;
    }
    Ok(figures)
}

// No lane has drawn an entry.
fn no_tickets(alloc: Global, lanes: usize) -> Result<Vec<u64>, NoMemory>
    ensures { IfOk result (λ list. list.items ≡ replicate lanes 0) }
{
    Ok(vec![in alloc; 0; lanes]?)
}

// No CPU was ticked.
fn unticked(alloc: Global, cpus: usize) -> Result<Vec<Option<u32>>, NoMemory>
    ensures { IfOk result (λ list. list.items ≡ replicate cpus None) }
{
    Ok(vec![in alloc; None; cpus]?)
}

// The courses before any entry.
fn opening_courses(alloc: Global, header: &Header) -> Result<Vec<Course>, NoMemory>
    ensures { IfOk result (λ list. list.items ≡ replicate header.now.lanes (opening_course (length header.now.cpus))) }
{
    let mut courses = Vec::new(alloc);
    for _lane in 0..header.lanes {
        add(&mut courses, opening_course(alloc, header.cpus.len())?)?;
    }
    Ok(courses)
}

// Each task's place before any entry.
fn opening_places(alloc: Global, header: &Header) -> Result<Vec<Place>, NoMemory>
    ensures { IfOk result (λ list. list.items ≡ map (λ row. Place.Asleep row.home) header.now.tasks) }
{
    let mut places = Vec::new(alloc);
    for task in header.tasks.as_slice() {
        add(&mut places, Place::Asleep(task.home))?;
    }
    Ok(places)
}

// No lane has a hand.
fn no_hands(alloc: Global, lanes: u32) -> Result<Vec<Option<Hand>>, NoMemory>
    ensures { IfOk result (λ list. list.items ≡ replicate lanes None) }
{
    let mut hands = Vec::with_capacity(alloc, lanes as usize)?;
    for _lane in 0..lanes {
        hands.push_reserved(None);
    }
    Ok(hands)
}

// What the engine has of each CPU.
#[derive(Drop)]
struct CpuParts {
    queues: Vec<Queue>,
    figures: Vec<Buffer<Fig>>,
    ticked: Vec<Option<u32>>,
}

// What the engine has of each CPU before any entry.
fn opening_cpus(alloc: Global, header: &Header) -> Result<CpuParts, NoMemory>
    requires { IsHeader header.now }
    ensures queues { IfOk result (λ parts. parts.queues.items
        ≡ map (λ cpu. record { state = opening_queue header.now cpu; booked = 0 }) (range_with_len 0 (length header.now.cpus))) }
    ensures figures { IfOk result (λ parts. map (λ b. b.items) parts.figures.items
        ≡ map (λ q. figure q.state 0 0 ∷ []) parts.queues.items) }
    ensures ticked { IfOk result (λ parts. parts.ticked.items ≡ replicate (length header.now.cpus) None) }
{
    let queues = opening_queues(alloc, header)?;
    let figures = opening_figures(alloc, &queues)?;
    let ticked = unticked(alloc, header.cpus.len())?;
    Ok(CpuParts {
        queues,
        figures,
        ticked,
    })
}

// What the engine has of each lane.
struct LaneParts {
    courses: Vec<Course>,
    last: Vec<u64>,
    hands: Vec<Option<Hand>>,
}

// What the engine has of each lane before any entry.
fn opening_lanes(alloc: Global, header: &Header) -> Result<LaneParts, NoMemory>
    ensures courses { IfOk result (λ parts. parts.courses.items
        ≡ replicate header.now.lanes (opening_course (length header.now.cpus))) }
    ensures last { IfOk result (λ parts. parts.last.items ≡ replicate header.now.lanes 0) }
    ensures hands { IfOk result (λ parts. parts.hands.items ≡ replicate header.now.lanes None) }
{
    let courses = opening_courses(alloc, header)?;
    let last = no_tickets(alloc, header.lanes as usize)?;
    let hands = no_hands(alloc, header.lanes)?;
    Ok(LaneParts {
        courses,
        last,
        hands,
    })
}

impl Engine {
    ghost use Rattle.lb_core.specs.Machine.{start};
    ghost use Rattle.lb_engine.specs.Held.{HandsFit};

    /// The machine of an accepted trace before any entry. No lane has a hand.
    pub fn start(alloc: Global, header: &Header) -> Result<Engine, NoMemory>
        requires { IsHeader header.now }
        ensures machine { IfOk result (λ engine. engine.machine ≡ start header.now) }
        ensures hands { IfOk result (λ engine. HandsFit engine) }
    {
        let layout = header.machine(alloc)?;
        let versions = opening_version(alloc, header, &layout)?;
        let cpus = opening_cpus(alloc, header)?;
        let places = opening_places(alloc, header)?;
        let header = header.copy(alloc)?;
        let LaneParts {
            courses,
            last,
            hands,
        } = opening_lanes(alloc, &header)?;
        let CpuParts {
            queues,
            figures,
            ticked,
        } = cpus;
        Ok(Engine {
            header,
            layout,
            ticket: 0,
            versions,
            queues,
            figures,
            courses,
            hands,
            last,
            ticked,
            closing: false,
            ended: false,
            places,
        })
    }
}
