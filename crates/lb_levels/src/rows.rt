//! The tests of the rows of CPUs and of the table of distances, each with the first place that
//! fails it.
ghost use Rattle.std.specs.Prelude.{◌≡◌, ◌<◌, ◌≤◌, ◌==◌, ◌&&◌, ◌||◌, not, true, length, take};
ghost use Rattle.std.specs.List.{range_with_len, list_any, list_all};
ghost use Rattle.lb_levels.specs.Rows.{nodes_in_range, clashes, cpu_clashes, distance, distances_at, is_bad_entry, is_bad_distance, is_entry, is_within, is_inside, is_apart, are_nested, is_nested_at, first_not_nested, IsSquare};
ghost use Rattle.lb_levels.specs.Faults.{nodes_of, first_clash, is_misfit, first_misfit, first_bad_row};

use crate::cpu_row::CpuRow;
use crate::limits::{MAX_DISTANCE, MAX_NODES};
use lb_base::{Items, MAX_CPUS};

fn clashes(a: CpuRow, b: CpuRow) -> bool
    ensures { result ≡ clashes a b }
{
    (a.core == b.core && !(a.cache == b.cache && a.node == b.node))
        || (a.cache == b.cache && !(a.node == b.node))
}

#[tactic(auto, unfolding(crate::specs::Rows::cpu_clashes))]
fn cpu_clashes(earlier: &[CpuRow], row: CpuRow) -> bool
    ensures { result ≡ cpu_clashes earlier.now row }
{
    earlier.iter().any(|other| clashes(*other, row))
}

// The first CPU that cannot stand beside those before it.
pub(crate) fn first_clash(cpus: &[CpuRow]) -> Option<u32>
    requires { length cpus.now ≤ MAX_CPUS }
    ensures { result ≡ first_clash cpus.now }
{
    for cpu in 0..cpus.len() {
        if cpu_clashes(&cpus[..cpu], cpus[cpu]) {
            return Some(cpu as u32);
        }
    }
    None
}

// How many nodes there are.
pub(crate) fn nodes_of(cpus: &[CpuRow]) -> u32
    requires { nodes_in_range cpus.now ≡ true }
    ensures count { result ≡ nodes_of cpus.now }
    ensures few { result ≤ MAX_NODES }
{
    let mut nodes = 0;
    for row in cpus {
        nodes = nodes.max(row.node + 1);
    }
    nodes
}

fn is_misfit(nodes: usize, distances: &[Items<u32>], a: usize) -> bool
    requires { a < nodes }
    ensures { result ≡ is_misfit nodes distances.now a }
{
    match distances.get(a) {
        Some(row) => row.len() != nodes,
        None => true,
    }
}

// The first row that is missing, too many or of the wrong size.
pub(crate) fn first_misfit(nodes: u32, distances: &[Items<u32>]) -> Option<u32>
    requires some { 0 < nodes }
    requires few { nodes ≤ MAX_NODES }
    ensures { result ≡ first_misfit nodes distances.now }
{
    for a in 0..nodes {
        if is_misfit(nodes as usize, distances, a as usize) {
            return Some(a);
        }
    }
    if distances.len() > nodes as usize {
        Some(nodes)
    } else {
        None
    }
}

pub(crate) fn distance(distances: &[Items<u32>], a: usize, b: usize) -> u32
    requires square { IsSquare distances.now }
    requires from { a < length distances.now }
    requires to { b < length distances.now }
    ensures { result ≡ distance distances.now a b }
{
    *distances[a].get(b)
}

// Whether the entry for node `b` cannot stand in the row of node `a`.
fn is_bad_entry(distances: &[Items<u32>], a: usize, b: usize) -> bool
    requires square { IsSquare distances.now }
    requires from { a < length distances.now }
    requires to { b < length distances.now }
    ensures { result ≡ is_bad_entry distances.now a b }
{
    let own = distance(distances, 0, 0);
    let here = distance(distances, a, b);
    if b == a {
        here != own
    } else if here <= own {
        true
    } else {
        b < a && here != distance(distances, b, a)
    }
}

// Whether the row of node `a` cannot stand below those before it.
fn is_bad_row(distances: &[Items<u32>], a: usize) -> bool
    requires square { IsSquare distances.now }
    requires from { a < length distances.now }
    ensures { result ≡ is_bad_distance (take a distances.now) (distances_at distances.now a) }
{
    for b in 0..distances.len() {
        if is_bad_entry(distances, a, b) {
            return true;
        }
    }
    false
}

// The first row that cannot stand below those before it.
pub(crate) fn first_bad_row(distances: &[Items<u32>]) -> Option<u32>
    requires square { IsSquare distances.now }
    requires few { length distances.now ≤ MAX_NODES }
    ensures { result ≡ first_bad_row distances.now }
{
    for a in 0..distances.len() {
        if is_bad_row(distances, a) {
            return Some(a as u32);
        }
    }
    None
}

// Whether some node is at distance `d` from some node.
pub(crate) fn is_entry(distances: &[Items<u32>], d: u32) -> bool
    ensures { result ≡ is_entry distances.now d }
{
    distances.iter().any(|row| has_entry(row.as_slice(), d))
}

fn has_entry(row: &[u32], d: u32) -> bool
    ensures { result ≡ list_any (λ e. e == d) row.now }
{
    row.iter().any(|e| *e == d)
}

// Whether node `b` is within distance `d` of node `a`.
fn is_within(distances: &[Items<u32>], d: u32, a: usize, b: usize) -> bool
    requires square { IsSquare distances.now }
    requires from { a < length distances.now }
    requires to { b < length distances.now }
    ensures { result ≡ is_within distances.now d a b }
{
    distance(distances, a, b) <= d
}

// Whether a node is within distance `d` of `b` if it is within it of `a`.
fn follows(distances: &[Items<u32>], d: u32, a: usize, b: usize, node: usize) -> bool
    requires square { IsSquare distances.now }
    requires from { a < length distances.now }
    requires to { b < length distances.now }
    requires in_range { node < length distances.now }
    ensures { result ≡ (not (is_within distances.now d a node) || is_within distances.now d b node) }
{
    !is_within(distances, d, a, node) || is_within(distances, d, b, node)
}

// Whether each node within distance `d` of `a` is within it of `b`.
fn is_inside(distances: &[Items<u32>], d: u32, a: usize, b: usize) -> bool
    requires square { IsSquare distances.now }
    requires from { a < length distances.now }
    requires to { b < length distances.now }
    ensures { result ≡ is_inside distances.now d a b }
{
    for node in 0..distances.len() {
        if !follows(distances, d, a, b, node) {
            return false;
        }
    }
    true
}

// Whether a node is within distance `d` of both.
fn is_shared(distances: &[Items<u32>], d: u32, a: usize, b: usize, node: usize) -> bool
    requires square { IsSquare distances.now }
    requires from { a < length distances.now }
    requires to { b < length distances.now }
    requires in_range { node < length distances.now }
    ensures { result ≡ (is_within distances.now d a node && is_within distances.now d b node) }
{
    is_within(distances, d, a, node) && is_within(distances, d, b, node)
}

// Whether no node is within distance `d` of both.
fn is_apart(distances: &[Items<u32>], d: u32, a: usize, b: usize) -> bool
    requires square { IsSquare distances.now }
    requires from { a < length distances.now }
    requires to { b < length distances.now }
    ensures { result ≡ is_apart distances.now d a b }
{
    for node in 0..distances.len() {
        if is_shared(distances, d, a, b, node) {
            return false;
        }
    }
    true
}

fn are_nested(distances: &[Items<u32>], d: u32, a: usize, b: usize) -> bool
    requires square { IsSquare distances.now }
    requires from { a < length distances.now }
    requires to { b < length distances.now }
    ensures { result ≡ are_nested distances.now d a b }
{
    (is_inside(distances, d, a, b) && is_inside(distances, d, b, a)) || is_apart(distances, d, a, b)
}

// Whether the nodes within distance `d` of node `a` are nested with those of each node.
fn is_nested_with_all(distances: &[Items<u32>], d: u32, a: usize) -> bool
    requires square { IsSquare distances.now }
    requires from { a < length distances.now }
    ensures { result ≡ list_all (are_nested distances.now d a) (range_with_len 0 (length distances.now)) }
{
    for b in 0..distances.len() {
        if !are_nested(distances, d, a, b) {
            return false;
        }
    }
    true
}

fn is_nested_at(distances: &[Items<u32>], d: u32) -> bool
    requires square { IsSquare distances.now }
    ensures { result ≡ is_nested_at distances.now d }
{
    for a in 0..distances.len() {
        if !is_nested_with_all(distances, d, a) {
            return false;
        }
    }
    true
}

// The least distance at which the nodes are not nested.
pub(crate) fn first_not_nested(distances: &[Items<u32>]) -> Option<u32>
    requires square { IsSquare distances.now }
    ensures { result ≡ first_not_nested distances.now }
{
    for d in 0..MAX_DISTANCE + 1 {
        if is_entry(distances, d) && !is_nested_at(distances, d) {
            return Some(d);
        }
    }
    None
}
