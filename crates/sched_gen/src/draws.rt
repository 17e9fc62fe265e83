ghost use Rattle.std.specs.Prelude.{◌≡◌};
ghost use Rattle.sched_gen.specs.Schedule.{next_state, drawn};

use std::marker::Model;

/// A linear congruential generator modulo 2 to the 64th (D. E. Knuth, MMIX, 1999), seen as its state.
#[derive(Debug, Drop)]
pub struct Draws {
    state: u64,
}

impl Model for Draws {
    ghost use Rattle.std.specs.Prelude.{ℕ};

    ghost Value = { ℕ };

    ghost view = { λ d. d.state };
}

impl Draws {
    /// The generator that starts at this number.
    pub fn new(number: u64) -> Draws
        ensures { result ≡ number }
    {
        Draws { state: number }
    }

    /// Goes on to the next state and gives its upper 31 bits.
    #[tactic(auto, using(crate::proofs::Rounds::wrapped), unfolding(crate::specs::Schedule::drawn))]
    pub fn draw(&mut self) -> u64
        ensures state { self.new ≡ next_state self.old }
        ensures value { result ≡ drawn (next_state self.old) }
    {
        let state = self
            .state
            .wrapping_mul(6364136223846793005)
            .wrapping_add(1442695040888963407);
        self.state = state;
        state / 8589934592
    }
}
