//! The levels of a machine and the spans of its CPUs.
ghost use Rattle.std.specs.Prelude.{◌≡◌, ℕ, ◌==◌, ◌||◌, ◌&&◌, ◌<◌, ◌≤◌, IfOk, length, map};
ghost use Rattle.std.specs.List.{range_with_len};
ghost use Rattle.lb_base.specs.Mask.{has};
ghost use Rattle.lb_levels.specs.Rows.{AllHaveNodes, IsSquare};
ghost use Rattle.lb_levels.specs.Spans.{is_far, levels_of, shares, span_of, spans_at};

use crate::cpu_row::CpuRow;
use crate::limits::MAX_DISTANCE;
use crate::rows::{distance, is_entry};
use lb_base::{Items, LevelName, MAX_CPUS, Mask, NoMemory};
use std::alloc::Global;

// Whether some node is at distance `d` from another.
fn is_far(distances: &[Items<u32>], d: u32) -> bool
    requires square { IsSquare distances.now }
    requires some { 0 < length distances.now }
    ensures { result ≡ is_far distances.now d }
{
    distance(distances, 0, 0) < d && is_entry(distances, d)
}

// The levels, from the bottom.
pub(crate) fn levels_of(
    alloc: Global,
    distances: &[Items<u32>],
) -> Result<Items<LevelName>, NoMemory>
    requires square { IsSquare distances.now }
    requires some { 0 < length distances.now }
    ensures { IfOk result (λ names. names ≡ levels_of distances.now) }
{
    let mut names = Items::new(alloc);
    names.push(LevelName::Smt)?;
    names.push(LevelName::Mc)?;
    names.push(LevelName::Pkg)?;
    for d in 0..MAX_DISTANCE + 1 {
        if is_far(distances, d) {
            names.push(LevelName::Numa(d))?;
        }
    }
    Ok(names)
}

// Whether the CPUs of two rows share what the level stands for.
fn shares(distances: &[Items<u32>], level: LevelName, a: CpuRow, b: CpuRow) -> bool
    requires square { IsSquare distances.now }
    requires from { a.node < length distances.now }
    requires to { b.node < length distances.now }
    ensures { result ≡ shares distances.now level a b }
{
    match level {
        LevelName::Smt => a.core == b.core,
        LevelName::Mc => a.cache == b.cache,
        LevelName::Pkg => a.node == b.node,
        LevelName::Numa(d) => distance(distances, a.node as usize, b.node as usize) <= d,
    }
}

// The mask, with the CPU too if it joins.
fn joined(span: Mask, cpu: u32, joins: bool) -> Mask
    requires { cpu < MAX_CPUS }
    ensures { (k : ℕ) → has result k ≡ (has span k || (k == cpu && joins)) }
{
    if joins { span.or(Mask::one(cpu)) } else { span }
}

// The span of a CPU at a level.
fn span_of(cpus: &[CpuRow], distances: &[Items<u32>], level: LevelName, cpu: usize) -> Mask
    requires square { IsSquare distances.now }
    requires nodes { AllHaveNodes cpus.now distances.now }
    requires few { length cpus.now ≤ MAX_CPUS }
    requires in_range { cpu < length cpus.now }
    ensures { result ≡ span_of cpus.now distances.now level cpu }
{
    let mut span = Mask::none();
    for k in 0..cpus.len() {
        let joins = shares(distances, level, cpus[cpu], cpus[k]);
        span = joined(span, k as u32, joins);
    }
    span
}

// The spans of all CPUs at a level.
fn spans_at(
    alloc: Global,
    cpus: &[CpuRow],
    distances: &[Items<u32>],
    level: LevelName,
) -> Result<Items<Mask>, NoMemory>
    requires square { IsSquare distances.now }
    requires nodes { AllHaveNodes cpus.now distances.now }
    requires few { length cpus.now ≤ MAX_CPUS }
    ensures { IfOk result (λ spans. spans ≡ spans_at cpus.now distances.now level) }
{
    let mut spans = Items::new(alloc);
    for cpu in 0..cpus.len() {
        spans.push(span_of(cpus, distances, level, cpu))?;
    }
    Ok(spans)
}

// The spans of all CPUs at each of these levels.
pub(crate) fn spans_of(
    alloc: Global,
    cpus: &[CpuRow],
    distances: &[Items<u32>],
    levels: &[LevelName],
) -> Result<Items<Items<Mask>>, NoMemory>
    requires square { IsSquare distances.now }
    requires nodes { AllHaveNodes cpus.now distances.now }
    requires few { length cpus.now ≤ MAX_CPUS }
    ensures { IfOk result (λ spans. spans ≡ map (spans_at cpus.now distances.now) levels.now) }
{
    let mut spans = Items::new(alloc);
    for level in levels {
        spans.push(spans_at(alloc, cpus, distances, *level)?)?;
    }
    Ok(spans)
}
