//! Whole numbers drawn from a seed.
ghost use Rattle.std.specs.Prelude.{◌≡◌, ◌<◌, ◌^◌, ◌/◌, ◌%◌};
ghost use Rattle.act_gen.specs.Draws.{next_state, state};

/// The draws from a seed.
#[derive(Clone, Copy)]
pub struct Draws {
    /// The state of the last draw; before the first, the seed.
    pub state: u64,
}

/// The multiplier of a step.
const MULTIPLIER: u64 = 6_364_136_223_846_793_005;

/// The increment of a step.
const INCREMENT: u64 = 1_442_695_040_888_963_407;

impl Draws {
    /// The draws from a seed, of which some have been made.
    #[tactic(auto, using(crate::proofs::States::first_state, crate::proofs::States::later_state))]
    pub fn after(seed: u32, made: u32) -> Draws
        ensures { result.state ≡ state seed made }
    {
        let mut draws = Draws {
            state: u64::from(seed),
        };
        'made: for _k in 0..made {
            draws.draw(1);
        }
        draws
    }

    /// The next draw, as a number below this one.
    pub fn draw(&mut self, below: u32) -> u32
        requires { 0 < below }
        ensures state { self.new.state ≡ next_state self.old.state }
        ensures value { result ≡ self.new.state / 2 ^ 33 % below }
        ensures bound { result < below }
    {
        self.state = self.state.wrapping_mul(MULTIPLIER).wrapping_add(INCREMENT);
        (self.state >> 33) as u32 % below
    }
}
