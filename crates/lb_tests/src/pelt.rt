//! Load signals: decay, advance and value.
use lb_pelt::{Run, Signal, Value, advance, decay, value_at};

#[test]
fn decays_as_the_rule_says(rt: HostRuntime) {
    let left = [
        decay(u64::MAX, 2015),
        decay(u64::MAX, 2016),
        decay(u64::MAX, 2017),
        decay(47742, 32),
    ];
    assert!(rt; left == [1, 0, 0, 23870]);
}

#[test]
fn advances_as_the_rule_says(rt: HostRuntime) {
    let waited = Signal {
        stamp: 1048576,
        part: 0,
        load_sum: 1002,
        runnable_sum: 1026048,
        util_sum: 0,
    };
    assert!(rt; advance(&Signal::zero(), Run::Waiting, 1048576) == waited);
}

#[test]
fn reads_as_the_rule_says(rt: HostRuntime) {
    let zero = Signal::zero();
    let full = Signal {
        load_sum: 46718,
        ..zero
    };
    let values = [
        value_at(&zero, Run::Waiting, 1024, 1048576),
        value_at(&zero, Run::Waiting, 1024, 33554432),
        value_at(&full, Run::Asleep, 88761, 0),
        value_at(&full, Run::Asleep, 15, 0),
    ];
    let wanted = [
        unused(21, 21),
        unused(512, 512),
        unused(88761, 0),
        unused(15, 0),
    ];
    assert!(rt; values == wanted);
}

// The value of a task that never ran.
fn unused(load: u64, runnable: u64) -> Value {
    Value {
        load,
        runnable,
        util: 0,
    }
}
