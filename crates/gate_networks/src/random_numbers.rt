//! Draws random numbers.
ghost use Rattle.std.specs.Prelude.{◌<◌};

/// A sequence of numbers that depends only on its seed.
#[derive(Drop)]
pub struct RandomNumbers(u64);

impl RandomNumbers {
    /// Returns the sequence after the state `number`.
    pub fn from_state(number: u64) -> RandomNumbers {
        RandomNumbers(number)
    }

    /// Returns the sequence of `seed`.
    pub fn from_seed(seed: u64) -> RandomNumbers {
        RandomNumbers(seed.wrapping_mul(11_400_714_819_323_198_485))
    }

    /// Returns the sequence of `seed`. Nearby seeds give unrelated sequences.
    pub fn from_mixed_seed(seed: u64) -> RandomNumbers {
        let first = seed.wrapping_mul(11_400_714_819_323_198_485);
        let second = (first ^ (first >> 30)).wrapping_mul(13_787_848_793_156_543_929);
        let third = (second ^ (second >> 27)).wrapping_mul(10_723_151_780_598_845_931);
        RandomNumbers(third ^ (third >> 31))
    }

    /// Returns the next number below `bound`.
    pub fn draw(&mut self, bound: u32) -> u32
        requires { 0 < bound }
        ensures { result < bound }
    {
        self.0 = self
            .0
            .wrapping_mul(6_364_136_223_846_793_005)
            .wrapping_add(1_442_695_040_888_963_407);
        ((self.0 >> 33) % bound as u64) as u32
    }

    /// Whether an event with probability 1 in `many` happens.
    pub fn draw_chance(&mut self, many: u32) -> bool
        requires { 0 < many }
    {
        self.draw(many) == 0
    }
}
