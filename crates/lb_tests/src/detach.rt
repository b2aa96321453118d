//! Which tasks a pull takes, and in which order the others stay.
use lb_base::{Mask, MoveKind, TaskView};
use lb_detach::{Env, Picked, picks};

fn task(id: u32, running: bool, hot: bool, cpu: u64) -> TaskView {
    TaskView {
        id,
        mask: Mask { bits: cpu },
        running,
        hot,
        load: 0,
        util: 0,
    }
}

// The tasks 32 to 0 from the front to the back, of which all but 32 are hot, or are pinned elsewhere.
fn many(hot: bool) -> [TaskView; 33] {
    let mut list = [task(32, false, false, 1); 33];
    for i in 1..33 {
        let cpu = if hot { 1 } else { 2 };
        list[i] = task(32 - i as u32, false, hot, cpu);
    }
    list
}

// The numbers from 31 down to 0, and then 32.
fn turned() -> [u32; 33] {
    let mut ids = [32; 33];
    for i in 0..32 {
        ids[i] = 31 - i as u32;
    }
    ids
}

const PULL: Env = Env {
    to: 0,
    idle: true,
    newly: false,
    kind: MoveKind::Tasks,
    imbalance: 1,
    failures: 0,
    tries: 1,
};

#[test]
fn leaves_running_and_hot_tasks(rt: HostRuntime) {
    let Ok(mut picked) = Picked::new(rt.alloc(), 3) else {
        panic!(rt; "no room")
    };
    let list = [
        task(3, false, false, 1),
        task(2, false, true, 1),
        task(1, true, false, 1),
    ];
    let hot_stays = Env {
        failures: 1,
        ..PULL
    };
    picks(&list, &hot_stays, &mut picked);
    assert!(rt; is_picked(&picked, &[3], &[2, 1], 0) && is_free(&picked));
    let hot_goes = Env {
        failures: 2,
        ..PULL
    };
    picks(&list, &hot_goes, &mut picked);
    assert!(rt; is_picked(&picked, &[2], &[1, 3], 0) && is_free(&picked));
    // No CPU has the number 64, so every task is pinned elsewhere.
    picks(&list, &Env { to: 64, ..PULL }, &mut picked);
    assert!(rt; picked.ids.is_empty() && picked.some_pinned && picked.all_pinned);
}

#[test]
fn ends_after_32(rt: HostRuntime) {
    let Ok(mut picked) = Picked::new(rt.alloc(), 33) else {
        panic!(rt; "no room")
    };
    picks(&many(true), &PULL, &mut picked);
    assert!(rt; is_picked(&picked, &[], &turned(), 1) && is_free(&picked));
}

#[test]
fn goes_on_while_all_are_pinned(rt: HostRuntime) {
    let Ok(mut picked) = Picked::new(rt.alloc(), 33) else {
        panic!(rt; "no room")
    };
    picks(&many(false), &PULL, &mut picked);
    assert!(rt; is_last_picked(&picked) && picked.left == 0);
    assert!(rt; picked.some_pinned && !picked.all_pinned);
}

// Whether these tasks are taken, and those stay, and so much is left to move.
fn is_picked(picked: &Picked, ids: &[u32], order: &[u32], left: u64) -> bool {
    picked.ids.as_slice() == ids && picked.order.as_slice() == order && picked.left == left
}

// Whether each examined task may run at the destination.
fn is_free(picked: &Picked) -> bool {
    !picked.some_pinned && !picked.all_pinned
}

// Whether the task 32 is taken, and all others stay.
fn is_last_picked(picked: &Picked) -> bool {
    picked.ids.as_slice() == [32].as_slice()
        && picked.order.len() == 32
        && turned().starts_with(picked.order.as_slice())
}
