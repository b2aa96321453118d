//! The statistics and the type of a group of CPUs.
ghost use Rattle.std.specs.Prelude.{◌≡◌};

use lb_base::GroupType::{FullyBusy, HasSpare, Imbalanced, Overloaded};
use lb_base::{Fig, Mask, Stats};
use lb_stats::{classify, group_stats};

#[test]
fn groups_at_the_edges_of_their_types(rt: HostRuntime) {
    let types = [
        classify(2, 1, 1_024, 875, 875, false, 117),
        classify(2, 1, 1_024, 876, 876, false, 117),
        classify(1, 1, 1_024, 876, 876, false, 117),
        classify(1, 1, 1_024, 876, 876, true, 117),
        classify(2, 1, 1_024, 0, 1_198, false, 117),
        classify(2, 1, 1_024, 0, 1_199, false, 117),
        classify(1, 2, 2_048, 2_000, 2_000, false, 110),
        classify(5, 0, 0, 0, 0, true, 117),
    ];
    let wanted = [
        HasSpare, Overloaded, FullyBusy, Imbalanced, HasSpare, Overloaded, HasSpare, HasSpare,
    ];
    assert!(rt; types == wanted);
}

#[test]
fn the_flag_of_the_position_below_marks_a_group(rt: HostRuntime) {
    let figs = [
        fig(2, 1_500, 1_024, 1_024, 0),
        fig(0, 120, 40, 0, 1 << 8),
        fig(3, 2_100, 640, 700, 1 << 9),
    ];
    let group = Mask { bits: 6 };
    let stats = Stats {
        nr: 3,
        load: 2_220,
        util: 680,
        runnable: 700,
        cap: 2_048,
        weight: 2,
        idle: 1,
        avg: 1_110,
        group: Imbalanced,
    };
    assert!(rt; group_stats(&figs, group, 1, 117) == stats);
    let unmarked = Stats {
        group: HasSpare,
        ..stats
    };
    assert!(rt; group_stats(&figs, group, 0, 117) == unmarked);
}

fn fig(nr: u64, load: u64, util: u64, runnable: u64, flags: u64) -> Fig
    ensures { result ≡ record { n = 0; ticket = 0; nr = nr; load = load; util = util; runnable = runnable; flags = flags } }
{
    Fig {
        n: 0,
        ticket: 0,
        nr,
        load,
        util,
        runnable,
        flags,
    }
}
