//! How a sum decays with time (docs/rules/signals.md).
ghost use Rattle.std.specs.Prelude.{◌≡◌};
ghost use Rattle.lb_pelt.specs.Decay.{decayed};

/// 2 ^ 32 times the n-th power of the 32nd root of a half.
const INVERSES: [u32; 32] = [
    0xffffffff, 0xfa83b2da, 0xf5257d14, 0xefe4b99a, 0xeac0c6e6, 0xe5b906e6, 0xe0ccdeeb, 0xdbfbb796,
    0xd744fcc9, 0xd2a81d91, 0xce248c14, 0xc9b9bd85, 0xc5672a10, 0xc12c4cc9, 0xbd08a39e, 0xb8fbaf46,
    0xb504f333, 0xb123f581, 0xad583ee9, 0xa9a15ab4, 0xa5fed6a9, 0xa2704302, 0x9ef5325f, 0x9b8d39b9,
    0x9837f050, 0x94f4efa8, 0x91c3d373, 0x8ea4398a, 0x8b95c1e3, 0x88980e80, 0x85aac367, 0x82cd8698,
];

/// What is left of `v` after `n` periods of 1,024 units: half of it after 32, nothing after more
/// than 2,016 (docs/rules/signals.md).
#[tactic(auto, unfolding(crate::specs::Decay::decayed, crate::specs::Decay::inverse_at, crate::specs::Decay::inverses))]
pub fn decay(v: u64, n: u64) -> u64
    ensures { result ≡ decayed v n }
{
    if n > 2016 {
        return 0;
    }
    let scaled = u128::from(v >> (n / 32)) * u128::from(INVERSES[(n % 32) as usize]);
    (scaled >> 32) as u64
}
