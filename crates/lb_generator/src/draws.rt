//! The numbers that are drawn, one from the other (docs/rules/generator.md).
ghost use Rattle.std.specs.Prelude.{◌≡◌, ◌<◌};

/// Numbers that are drawn one after the other (docs/rules/generator.md).
#[derive(Drop)]
pub(crate) struct Draws {
    pub(crate) state: u64,
}

impl Draws {
    ghost use Rattle.lb_generator.specs.Draws.{draw, IsDrawn};

    /// A number below `choices`.
    #[tactic(auto, unfolding(crate::specs::Draws::draw, crate::specs::Draws::next_state))]
    pub(crate) fn draw(&mut self, choices: u32) -> u32
        requires { 0 < choices }
        ensures drawn { IsDrawn (draw choices self.old.state) result self.new.state }
        ensures in_range { result < choices }
    {
        let next = self
            .state
            .wrapping_mul(6_364_136_223_846_793_005)
            .wrapping_add(1_442_695_040_888_963_407);
        let upper = next >> 33;
        self.state = next;
        (upper % u64::from(choices)) as u32
    }
}
