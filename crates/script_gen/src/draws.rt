//! The numbers that a script is drawn from.

ghost use Rattle.std.specs.Prelude.{◌≡◌, ◌<◌};
ghost use Rattle.script_gen.specs.Draws.{next, draw};

// Of Knuth's linear congruential generator of 64 bits.
const MULTIPLIER: u64 = 6364136223846793005;

const INCREMENT: u64 = 1442695040888963407;

/// Draws, by the state that the next one begins with.
#[derive(Drop)]
pub struct Draws {
    pub state: u64,
}

impl Draws {
    /// Takes a step, and gives a number below `n` by the high bits of the new state.
    #[tactic(auto, unfolding(crate::specs::Draws::next))]
    pub fn draw(&mut self, n: u32) -> u32
        requires { 0 < n }
        ensures state { self.new.state ≡ next self.old.state }
        ensures value { result ≡ draw self.old.state 0 n }
        ensures below { result < n }
    {
        self.state = self.state.wrapping_mul(MULTIPLIER).wrapping_add(INCREMENT);
        ((self.state >> 33) % u64::from(n)) as u32
    }
}
