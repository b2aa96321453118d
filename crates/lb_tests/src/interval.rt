//! The counters of a position after each outcome, and when it is due.
use lb_base::Kind;
use lb_interval::{Counters, Outcome, after, due, fresh};

#[test]
fn counts_as_the_rule_says(rt: HostRuntime) {
    let new = fresh(2, 0);
    let failing = Counters { failures: 3, ..new };
    let left = [
        after_tick(&failing, Outcome::Failed, Some(false), 2, 8),
        after_tick(&failing, Outcome::Asking, Some(false), 2, 8),
        after_tick(&new, Outcome::Moved(1), Some(false), 2, 2),
        after_tick(&new, Outcome::Balanced, None, 2, 2),
        after_tick(&fresh(3, 0), Outcome::Pinned, Some(true), 3, 3),
    ];
    let wanted = [
        counters(8, 2, 4, false),
        counters(8, 2, 2, false),
        counters(2, 2, 0, false),
        counters(2, 4, 0, false),
        counters(3, 6, 0, true),
    ];
    assert!(rt; left == wanted);
}

#[test]
fn is_due_as_the_rule_says(rt: HostRuntime) {
    let is_due = [
        due(&fresh(2, 0), false, 2, 1),
        due(&fresh(2, 0), false, 2, 2),
        due(&fresh(2, 0), true, 2, 30),
        due(&fresh(2, 0), true, 2, 31),
        due(&fresh(0, 0), true, 2, 0),
        due(&fresh(0, 0), true, 2, 1),
        due(&fresh(64, 0), true, 2, 199),
        due(&fresh(64, 0), true, 2, 200),
    ];
    assert!(rt; is_due == [false, true, false, true, false, true, false, true]);
}

// The counters after a turn by the tick, at a span of so many CPUs and one cache try.
fn after_tick(
    c: &Counters,
    outcome: Outcome,
    imb: Option<bool>,
    weight: u32,
    now_ms: u64,
) -> Counters {
    after(c, Kind::Tick, outcome, imb, weight, 1, now_ms)
}

fn counters(last: u64, interval: u64, failures: u32, imb: bool) -> Counters {
    Counters {
        last,
        interval,
        failures,
        imb,
    }
}
