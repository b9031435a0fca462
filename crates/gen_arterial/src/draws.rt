//! The draws of a seed, one after another.

ghost use Rattle.std.specs.Prelude.{◌≡◌, ◌<◌, ◌+◌, ◌^◌, ℕ};

/// The numbers that a seed draws, in their order.
#[derive(Drop)]
pub struct Draws {
    state: u32,
    ghost in_range: { state < 2 ^ 31 },
}

impl Draws {
    ghost use Rattle.gen_arterial.specs.Draws.{drawn};
    ghost use Rattle.gen_arterial.specs.Drawing.{IsAt};

    /// The draws of a seed, from the first.
    pub fn new(seed: u32) -> Draws
        ensures { IsAt result seed 0 }
    {
        Draws {
            state: seed % 2_147_483_648,
        }
    }

    /// The next draw: one of the `n` numbers from 0 on.
    #[tactic(auto, unfolding(crate::specs::Draws::drawn))]
    pub fn draw(&mut self, n: u32) -> u32
        requires { 0 < n }
        ensures drawn { (seed place : ℕ) → IsAt self.old seed place → result ≡ drawn seed place n }
        ensures next { (seed place : ℕ) → IsAt self.old seed place → IsAt self.new seed (place + 1) }
        ensures below { result < n }
    {
        let next = (1_103_515_245 * u64::from(self.state) + 12_345) % 2_147_483_648;
        self.state = next as u32;
        self.state / 65_536 % n
    }
}
