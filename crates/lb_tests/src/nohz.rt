//! Which CPU without a tick is kicked, and for which turns are made.
use lb_base::{Fig, Mask};
use lb_nohz::{kick_target, turns};

#[test]
fn kicks_as_the_rule_says(rt: HostRuntime) {
    let kicks = [
        kicked([1, 0, 257], Mask { bits: 3 }),
        kicked([0, 256, 256], Mask { bits: 7 }),
        kicked([0, 257, 1], Mask { bits: 7 }),
        kicked([1, 0, 1], Mask { bits: 6 }),
    ];
    let wanted = [
        (Some(0), Mask { bits: 1 }),
        (None, Mask { bits: 0 }),
        (Some(1), Mask { bits: 6 }),
        (Some(2), Mask { bits: 4 }),
    ];
    assert!(rt; kicks == wanted);
}

fn kicked(flags: [u64; 3], span: Mask) -> (Option<u32>, Mask) {
    let none = Fig {
        n: 0,
        ticket: 0,
        nr: 0,
        load: 0,
        util: 0,
        runnable: 0,
        flags: 0,
    };
    let mut figs = [none; 64];
    figs[0].flags = flags[0];
    figs[1].flags = flags[1];
    figs[2].flags = flags[2];
    (kick_target(&figs, span), turns(&figs, span))
}
