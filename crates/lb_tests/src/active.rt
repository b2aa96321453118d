//! When a source is asked to push, where a stopped task goes, and which task is pushed.
use lb_active::{active_pick, stop_target, wants_active};
use lb_base::{Kind, Mask, TaskView};

#[test]
fn asks_as_the_rule_says(rt: HostRuntime) {
    let asked = [
        wants_active(3, 1, Kind::Tick),
        wants_active(4, 1, Kind::Tick),
        wants_active(4, 1, Kind::Nohz),
        wants_active(4, 1, Kind::Idle),
    ];
    assert!(rt; asked == [false, true, true, false]);
}

#[test]
fn chooses_as_the_rule_says(rt: HostRuntime) {
    let targets = [stop_target(Mask { bits: 6 }), stop_target(Mask::none())];
    assert!(rt; targets == [Some(1), None]);
    let list = [task(1, 2), task(0, 3), task(2, 2)];
    let picked = [
        active_pick(&list, 0),
        active_pick(&list, 1),
        active_pick(&list, 2),
        active_pick(&list, 64),
    ];
    assert!(rt; picked == [Some(0), Some(2), None, None]);
}

fn task(id: u32, bits: u64) -> TaskView {
    TaskView {
        id,
        mask: Mask { bits },
        running: false,
        hot: false,
        load: 0,
        util: 0,
    }
}
