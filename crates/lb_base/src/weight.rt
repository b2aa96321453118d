//! The weight of a nice value.
ghost use Rattle.std.specs.Prelude.{◌≡◌, negsuc, pos, ◌≤ℤ◌};
ghost use Rattle.lb_base.specs.Weight.{weight_of};

const WEIGHTS: [u64; 40] = [
    88761, 71755, 56483, 46273, 36291, 29154, 23254, 18705, 14949, 11916, 9548, 7620, 6100, 4904,
    3906, 3121, 2501, 1991, 1586, 1277, 1024, 820, 655, 526, 423, 335, 272, 215, 172, 137, 110, 87,
    70, 56, 45, 36, 29, 23, 18, 15,
];

/// The load weight of a nice value, -20 to 19: 1,024 for nice 0, more for a lower value
/// (docs/rules/signals.md).
#[tactic(auto, unfolding(crate::specs::Weight::weight_of, crate::specs::Weight::weights))]
pub fn weight_of_nice(nice: i32) -> u64
    requires low { negsuc 19 ≤ℤ nice }
    requires high { nice ≤ℤ pos 19 }
    ensures { result ≡ weight_of nice }
{
    WEIGHTS[(nice + 20) as usize]
}
