//! The whole decision of a CPU about a domain.
ghost use Rattle.std.specs.Prelude.{◌≡◌, ◌<◌, ◌^◌};

use lb_base::{Fig, Kind, LevelName, Mask, MoveKind, Shape};
use lb_imbalance::{Decision, decide};

#[test]
fn two_cpus_of_one_cache(rt: HostRuntime) {
    let full = (2, 1_000, 1_024, 1_024);
    let load = Decision::Pull {
        source: 1,
        kind: MoveKind::Load,
        imbalance: 85,
    };
    let level = (2, 1_500, 1_024, 1_024);
    assert!(rt; decide_for_two(level, level, Kind::Tick) == Decision::Balanced);
    let below = (2, 1_170, 1_024, 1_024);
    assert!(rt; decide_for_two(full, below, Kind::Tick) == Decision::Balanced);
    let above = (2, 1_171, 1_024, 1_024);
    assert!(rt; decide_for_two(full, above, Kind::Tick) == load);
}

#[test]
fn a_busy_and_an_idle_destination(rt: HostRuntime) {
    // a busy destination is left alone, one that has just become idle is not
    let one_light = (1, 100, 100, 100);
    let three_light = (3, 900, 300, 300);
    assert!(rt; decide_for_two(one_light, three_light, Kind::Tick) == Decision::Balanced);
    assert!(rt; decide_for_two(one_light, three_light, Kind::Idle) == tasks(1, 1));
    // a waiting task is pulled, a single one is not
    let idle = (0, 0, 0, 0);
    let waiting = (2, 1_024, 900, 1_300);
    let single = (1, 1_024, 900, 1_024);
    assert!(rt; decide_for_two(idle, waiting, Kind::Nohz) == tasks(1, 1));
    assert!(rt; decide_for_two(idle, single, Kind::Tick) == Decision::Balanced);
}

#[test]
fn two_cores_of_two_threads(rt: HostRuntime) {
    let shape = Shape {
        name: LevelName::Mc,
        below: Some(LevelName::Smt),
        position: 1,
        span: Mask { bits: 0b1111 },
    };
    let groups = [Mask { bits: 0b0011 }, Mask { bits: 0b1100 }];
    let figs = [
        fig((0, 0, 0, 0)),
        fig((1, 100, 100, 100)),
        fig((3, 2_000, 800, 900)),
        fig((3, 900, 700, 700)),
    ];
    let none = Mask { bits: 0 };
    let third = Mask { bits: 0b0100 };
    assert!(rt; decide(&shape, &groups, &figs, 1, Kind::Tick, none) == Decision::NotMine);
    assert!(rt; decide(&shape, &groups, &figs, 0, Kind::Tick, none) == tasks(2, 2));
    assert!(rt; decide(&shape, &groups, &figs, 0, Kind::Tick, third) == tasks(3, 1));
}

// The decision of CPU 0 of two that share a cache, by their tasks, loads, utilisations and
// runnable averages.
fn decide_for_two(
    local: (u32, u32, u32, u32),
    other: (u32, u32, u32, u32),
    kind: Kind,
) -> Decision {
    let shape = Shape {
        name: LevelName::Mc,
        below: None,
        position: 0,
        span: Mask { bits: 0b11 },
    };
    let groups = [Mask { bits: 0b01 }, Mask { bits: 0b10 }];
    let figs = [fig(local), fig(other)];
    decide(&shape, &groups, &figs, 0, kind, Mask { bits: 0 })
}

fn tasks(source: u32, imbalance: u64) -> Decision {
    Decision::Pull {
        source,
        kind: MoveKind::Tasks,
        imbalance,
    }
}

fn fig(of: (u32, u32, u32, u32)) -> Fig
    ensures value { result ≡ record { n = 0; ticket = 0; nr = of.0; load = of.1; util = of.2; runnable = of.3; flags = 0 } }
    ensures small { (result.nr < 2 ^ 32) × (result.load < 2 ^ 32) × (result.util < 2 ^ 32) × (result.runnable < 2 ^ 32) }
{
    let (nr, load, util, runnable) = of;
    Fig {
        n: 0,
        ticket: 0,
        nr: u64::from(nr),
        load: u64::from(load),
        util: u64::from(util),
        runnable: u64::from(runnable),
        flags: 0,
    }
}
