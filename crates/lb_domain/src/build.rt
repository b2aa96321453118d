//! The domains of every CPU, level by level from the bottom.
ghost use Rattle.std.specs.Prelude.{◌≡◌, ℕ, ◌<◌, ◌≤◌, ◌^◌, ◌==◌, ◌++◌, not, [], length, map, filter, IfOk, OnOk, Some, None};
ghost use Rattle.std.specs.List.{cons_option, range_with_len, slice_index_or};
ghost use Rattle.lb_base.specs.declared.mask.Mask.{Mask};
ghost use Rattle.lb_levels.specs.Faults.{parts_fault_of};
ghost use Rattle.lb_levels.specs.Spans.{levels_of, level_at};
ghost use Rattle.lb_domain.specs.Domains.{part_of, cut_span, is_kept, position_above, shape_above, kept_domain, below_next, domains_in, topology_of};
ghost use Rattle.lb_domain.specs.Topologies.{IsSmall};
ghost use Rattle.lb_domain.specs.Steps.{step_span, own_parts, LeadWithin};

use crate::domain::Domain;
use crate::ring::{all_leaders, ring, step_span};
use lb_base::{Items, LevelName, MAX_CPUS, Mask, NoMemory, Shape};
use lb_levels::laws::a_partition_has_no_fault;
use lb_levels::{MAX_LEVELS, Machine};
use std::alloc::Global;

// Whether the span is kept above this domain.
#[tactic(auto, unfolding(crate::specs::Domains::is_kept))]
fn is_kept(below: Option<Shape>, span: Mask) -> bool
    ensures { result ≡ is_kept below span }
{
    match below {
        Some(below) => span.weight() > 1 && below.span.bits != span.bits,
        None => span.weight() > 1,
    }
}

fn shape_above(below: Option<Shape>, name: LevelName, span: Mask) -> Shape
    requires { position_above below < 2 ^ 32 }
    ensures { result ≡ shape_above below name span }
{
    match below {
        Some(below) => Shape {
            name,
            below: Some(below.name),
            position: below.position + 1,
            span,
        },
        None => Shape {
            name,
            below: None,
            position: 0,
            span,
        },
    }
}

// The domain of a level, if it is kept.
fn domain_at(
    alloc: Global,
    machine: &Machine,
    leaders: &[Mask],
    part: Mask,
    cpu: u32,
    below: Option<Shape>,
    level: u32,
) -> Result<Option<Domain>, NoMemory>
    requires few { length machine.now.cpus ≤ MAX_CPUS }
    requires cpu { cpu < length machine.now.cpus }
    requires level { level < length (levels_of machine.now.distances) }
    requires few_levels { length (levels_of machine.now.distances) ≤ MAX_LEVELS }
    requires leaders { LeadWithin machine.now.cpus machine.now.distances part leaders.now }
    requires position { position_above below ≤ level }
    ensures { IfOk result (λ domain. domain ≡ kept_domain
        (step_span machine.now.cpus machine.now.distances part level) cpu below (level_at machine.now.distances level)
        (cut_span machine.now.cpus machine.now.distances part (level_at machine.now.distances level) cpu)) }
{
    let span = step_span(machine, part, level + 1, cpu);
    if !is_kept(below, span) {
        return Ok(None);
    }
    let leaders = leaders[level as usize].and(span);
    let groups = ring(alloc, machine, part, level, leaders, cpu)?;
    Ok(Some(Domain {
        shape: shape_above(below, machine.name(level), span),
        groups,
    }))
}

// Adds the domain of a level, if it is kept, and answers the kept domain below the next level.
fn add_kept(
    domains: &mut Items<Domain>,
    below: Option<Shape>,
    domain: Option<Domain>,
) -> Result<Option<Shape>, NoMemory>
    ensures next { IfOk result (λ next. next ≡ below_next domain below) }
    ensures added { OnOk result (domains.new ≡ domains.old ++ cons_option domain []) }
{
    match domain {
        Some(domain) => {
            let shape = domain.shape;
            domains.push(domain)?;
            Ok(Some(shape))
        }
        None => Ok(below),
    }
}

// The domains of a CPU within its part. A CPU without a part has none.
fn domains_in(
    alloc: Global,
    machine: &Machine,
    leaders: &[Mask],
    part: Option<Mask>,
    cpu: u32,
) -> Result<Items<Domain>, NoMemory>
    requires few { length machine.now.cpus ≤ MAX_CPUS }
    requires cpu { cpu < length machine.now.cpus }
    requires leaders { (own : Mask) → part ≡ Some own → LeadWithin machine.now.cpus machine.now.distances own leaders.now }
    ensures { IfOk result (λ domains. domains ≡ domains_in machine.now.cpus machine.now.distances part cpu) }
{
    let mut domains = Items::new(alloc);
    let Some(part) = part else {
        return Ok(domains);
    };
    let mut below = None;
    for level in 0..machine.levels() {
        let domain = domain_at(alloc, machine, leaders, part, cpu, below, level)?;
        below = add_kept(&mut domains, below, domain)?;
    }
    Ok(domains)
}

// The parts that have a CPU.
fn live_parts(alloc: Global, parts: &[Mask]) -> Result<Items<Mask>, NoMemory>
    ensures { IfOk result (λ live. live ≡ filter (λ part. not (part.bits == 0)) parts.now) }
{
    let mut live = Items::new(alloc);
    for part in parts {
        if part.bits != 0 {
            live.push(*part)?;
        }
    }
    Ok(live)
}

// The part that has the CPU.
fn part_of(parts: &[Mask], cpu: u32) -> Option<Mask>
    requires { cpu < MAX_CPUS }
    ensures { result ≡ part_of parts.now cpu }
{
    for part in parts {
        if part.has(cpu) {
            return Some(*part);
        }
    }
    None
}

// The part of each CPU below `cpus`.
fn own_parts(alloc: Global, cpus: u32, parts: &[Mask]) -> Result<Items<Option<Mask>>, NoMemory>
    requires { cpus ≤ MAX_CPUS }
    ensures { IfOk result (λ own. own ≡ own_parts cpus parts.now) }
{
    let mut own = Items::new(alloc);
    for cpu in 0..cpus {
        own.push(part_of(parts, cpu))?;
    }
    Ok(own)
}

// The domains of every CPU, each within its own part.
fn domains_of_all(
    alloc: Global,
    machine: &Machine,
    own: &[Option<Mask>],
    leaders: &[Mask],
) -> Result<Items<Items<Domain>>, NoMemory>
    requires all { length own.now ≡ length machine.now.cpus }
    requires leaders { (cpu : ℕ) → (part : Mask) → cpu < length own.now → slice_index_or own.now cpu None ≡ Some part
        → LeadWithin machine.now.cpus machine.now.distances part leaders.now }
    ensures { IfOk result (λ all. all ≡ map
        (λ cpu. domains_in machine.now.cpus machine.now.distances (slice_index_or own.now cpu None) cpu) (range_with_len 0 (length own.now))) }
{
    let mut all = Items::new(alloc);
    for cpu in 0..machine.cpus() {
        all.push(domains_in(alloc, machine, leaders, own[cpu as usize], cpu)?)?;
    }
    Ok(all)
}

// The domains of every CPU within disjoint parts.
pub(crate) fn topology_of(
    alloc: Global,
    machine: &Machine,
    parts: &[Mask],
) -> Result<Items<Items<Domain>>, NoMemory>
    requires { parts_fault_of (length machine.now.cpus) parts.now ≡ None }
    ensures value { IfOk result (λ all. all ≡ topology_of machine.now.cpus machine.now.distances parts.now) }
    ensures small { IfOk result IsSmall }
{
    // no two of the masks share a CPU
    a_partition_has_no_fault();
    let live = live_parts(alloc, parts)?;
    let own = own_parts(alloc, machine.cpus(), live.as_slice())?;
    let leaders = all_leaders(alloc, machine, own.as_slice())?;
    domains_of_all(alloc, machine, own.as_slice(), leaders.as_slice())
}
