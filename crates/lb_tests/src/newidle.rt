//! What a newly-idle turn may spend, and the average idle time.
use lb_newidle::{idle_average, next_level};

#[test]
fn spends_as_the_rule_says(rt: HostRuntime) {
    let goes_on = [next_level(1999, 0, 2), next_level(2000, 0, 2)];
    assert!(rt; goes_on == [false, true]);
}

#[test]
fn averages_as_the_rule_says(rt: HostRuntime) {
    let averages = [
        idle_average(1000000, 0),
        idle_average(100, 93),
        idle_average(100, 92),
        idle_average(0, 15),
        idle_average(999999, 1000000000),
    ];
    assert!(rt; averages == [875000, 100, 99, 1, 1000000]);
}
