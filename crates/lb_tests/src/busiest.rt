//! The busiest group and the source queue.
use lb_base::{Fig, GroupType, Mask, MoveKind, Stats};
use lb_busiest::{busiest, source};

#[test]
fn the_type_decides(rt: HostRuntime) {
    let spare = group(GroupType::HasSpare, 0, 1, 0);
    let full = group(GroupType::Overloaded, 900, 0, 9);
    let few = group(GroupType::Overloaded, 10, 0, 2);
    let marked = group(GroupType::Imbalanced, 700, 0, 9);
    // groups without tasks, and the local one, are none
    assert!(rt; busiest(&[full, spare, spare]).is_none());
    assert!(rt; busiest(&[full, marked, few]) == Some(2));
}

#[test]
fn the_first_of_one_type(rt: HostRuntime) {
    let spare = group(GroupType::HasSpare, 0, 1, 0);
    // by load, the first of two
    let some = group(GroupType::Overloaded, 400, 0, 3);
    let many = group(GroupType::Overloaded, 400, 0, 9);
    assert!(rt; busiest(&[spare, some, many]) == Some(1));
    let less = group(GroupType::FullyBusy, 200, 0, 3);
    let more = group(GroupType::FullyBusy, 300, 0, 2);
    assert!(rt; busiest(&[spare, less, more]) == Some(2));
    // by nothing
    let less = group(GroupType::Imbalanced, 300, 0, 2);
    let more = group(GroupType::Imbalanced, 400, 0, 3);
    assert!(rt; busiest(&[spare, less, more]) == Some(1));
}

#[test]
fn the_first_of_those_with_spare(rt: HostRuntime) {
    let spare = group(GroupType::HasSpare, 0, 1, 0);
    // by fewer idle CPUs
    let idle = group(GroupType::HasSpare, 300, 1, 5);
    let none_idle = group(GroupType::HasSpare, 200, 0, 2);
    assert!(rt; busiest(&[spare, idle, none_idle]) == Some(2));
    // by more tasks
    let more = group(GroupType::HasSpare, 100, 0, 3);
    assert!(rt; busiest(&[spare, none_idle, more]) == Some(2));
}

#[test]
fn the_first_of_the_sources(rt: HostRuntime) {
    let sources = [
        source_of_four(MoveKind::Load, 900),
        source_of_four(MoveKind::Load, 899),
        source_of_four(MoveKind::Util, 1),
        source_of_four(MoveKind::Tasks, 1),
    ];
    assert!(rt; sources == [Some(1), Some(2), Some(2), Some(2)]);
}

// The source among four CPUs beside a busier one that is not of the group.
fn source_of_four(kind: MoveKind, imbalance: u64) -> Option<u32> {
    let figs = [
        fig(9, 9_000, 900),
        fig(1, 900, 300),
        fig(2, 800, 300),
        fig(2, 800, 0),
        fig(0, 5_000, 700),
    ];
    source(&figs, Mask { bits: 0b11110 }, kind, imbalance)
}

fn group(group: GroupType, avg: u64, idle: u32, nr: u64) -> Stats {
    Stats {
        nr,
        load: 0,
        util: 0,
        runnable: 0,
        cap: 1_024,
        weight: 1,
        idle,
        avg,
        group,
    }
}

fn fig(nr: u64, load: u64, util: u64) -> Fig {
    Fig {
        n: 0,
        ticket: 0,
        nr,
        load,
        util,
        runnable: 0,
        flags: 0,
    }
}
