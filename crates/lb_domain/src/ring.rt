//! The groups of a domain in ring order.
ghost use Rattle.std.specs.Prelude.{◌≡◌, ℕ, ◌<◌, ◌≤◌, ◌++◌, ◌&&◌, ◌||◌, ◌==◌, nat_lt, unwrap_or, map, length, IfOk, OnOk, None, true};
ghost use Rattle.std.specs.List.{slice_index_or};
ghost use Rattle.lb_base.specs.Mask.{has, members};
ghost use Rattle.lb_base.specs.Sets.{least};
ghost use Rattle.lb_levels.specs.Spans.{levels_of};
ghost use Rattle.lb_domain.specs.Domains.{is_first, ring_of};
ghost use Rattle.lb_domain.specs.Steps.{step_span, leads, AreLeaders};

use lb_base::{Items, MAX_CPUS, Mask, NoMemory};
use lb_levels::Machine;
use std::alloc::Global;

// The span of a CPU at a step, within its part.
pub(crate) fn step_span(machine: &Machine, part: Mask, step: u32, cpu: u32) -> Mask
    requires few { length machine.now.cpus ≤ MAX_CPUS }
    requires step { step ≤ length (levels_of machine.now.distances) }
    requires cpu { cpu < length machine.now.cpus }
    ensures { result ≡ step_span machine.now.cpus machine.now.distances part step cpu }
{
    if step == 0 {
        Mask::one(cpu)
    } else {
        machine.span(step - 1, cpu).and(part)
    }
}

fn is_first(mask: Mask, cpu: u32) -> bool
    ensures { result ≡ is_first (least mask) cpu }
{
    match mask.first() {
        Some(first) => first == cpu,
        None => false,
    }
}

// The first CPU of a mask, or 0 where it has none.
fn first_or_zero(mask: Mask) -> u32
    ensures first { result ≡ unwrap_or (least mask) 0 }
    ensures in_range { result < MAX_CPUS }
{
    match mask.first() {
        Some(first) => first,
        None => 0,
    }
}

// Whether the CPU has a part, and is the first of its span there.
fn leads(machine: &Machine, part: Option<Mask>, step: u32, cpu: u32) -> bool
    requires few { length machine.now.cpus ≤ MAX_CPUS }
    requires step { step ≤ length (levels_of machine.now.distances) }
    requires cpu { cpu < length machine.now.cpus }
    ensures { result ≡ leads machine.now.cpus machine.now.distances part step cpu }
{
    match part {
        Some(part) => is_first(step_span(machine, part, step, cpu), cpu),
        None => false,
    }
}

// The mask, with the CPU too if it joins.
fn joined(mask: Mask, cpu: u32, joins: bool) -> Mask
    requires { cpu < MAX_CPUS }
    ensures { (k : ℕ) → has result k ≡ (has mask k || (k == cpu && joins)) }
{
    if joins { mask.or(Mask::one(cpu)) } else { mask }
}

// The CPUs that come first in their spans at a step, each within its own mask.
fn leaders(machine: &Machine, own: &[Option<Mask>], step: u32) -> Mask
    requires step { step ≤ length (levels_of machine.now.distances) }
    requires all { length own.now ≡ length machine.now.cpus }
    ensures { (k : ℕ) → has result k ≡ (nat_lt k (length own.now) && leads machine.now.cpus machine.now.distances
        (slice_index_or own.now k None) step k) }
{
    let mut leaders = Mask::none();
    for cpu in 0..machine.cpus() {
        let joins = leads(machine, own[cpu as usize], step, cpu);
        leaders = joined(leaders, cpu, joins);
    }
    leaders
}

// For each step below the uppermost level, the CPUs that come first in their spans.
pub(crate) fn all_leaders(
    alloc: Global,
    machine: &Machine,
    own: &[Option<Mask>],
) -> Result<Items<Mask>, NoMemory>
    requires { length own.now ≡ length machine.now.cpus }
    ensures { IfOk result (AreLeaders machine.now.cpus machine.now.distances own.now) }
{
    let mut all = Items::new(alloc);
    for step in 0..machine.levels() {
        all.push(leaders(machine, own, step))?;
    }
    Ok(all)
}

// Adds the spans of these CPUs at a step.
fn push_spans(
    groups: &mut Items<Mask>,
    machine: &Machine,
    part: Mask,
    step: u32,
    leaders: Mask,
) -> Result<(), NoMemory>
    requires few { length machine.now.cpus ≤ MAX_CPUS }
    requires step { step ≤ length (levels_of machine.now.distances) }
    requires cpus { (k : ℕ) → has leaders k ≡ true → k < length machine.now.cpus }
    ensures { OnOk result (groups.new ≡ groups.old ++ map (step_span machine.now.cpus machine.now.distances part step) (members leaders)) }
{
    let mut next = leaders.first();
    while let Some(cpu) = next {
        groups.push(step_span(machine, part, step, cpu))?;
        next = leaders.next_after(cpu);
    }
    Ok(())
}

// The groups that these CPUs lead at a step, from that of the CPU's own group on.
pub(crate) fn ring(
    alloc: Global,
    machine: &Machine,
    part: Mask,
    step: u32,
    leaders: Mask,
    cpu: u32,
) -> Result<Items<Mask>, NoMemory>
    requires few { length machine.now.cpus ≤ MAX_CPUS }
    requires step { step ≤ length (levels_of machine.now.distances) }
    requires cpus { (k : ℕ) → has leaders k ≡ true → k < length machine.now.cpus }
    requires cpu { cpu < length machine.now.cpus }
    ensures { IfOk result (λ groups. groups ≡ ring_of (step_span machine.now.cpus machine.now.distances part step) (members leaders) cpu) }
{
    let own = first_or_zero(step_span(machine, part, step, cpu));
    let before = Mask::all(own);
    let mut groups = Items::new(alloc);
    push_spans(&mut groups, machine, part, step, leaders.without(before))?;
    push_spans(&mut groups, machine, part, step, leaders.and(before))?;
    Ok(groups)
}
