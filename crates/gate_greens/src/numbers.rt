//! Draws random numbers.

/// A sequence of numbers that depends only on its seed.
#[derive(Drop)]
pub struct Numbers(u64);

impl Numbers {
    /// Returns the sequence of `seed`. Nearby seeds give unrelated sequences.
    pub fn of_seed(seed: u64) -> Numbers {
        let first = seed.wrapping_mul(11_400_714_819_323_198_485);
        let second = (first ^ (first >> 30)).wrapping_mul(13_787_848_793_156_543_929);
        let third = (second ^ (second >> 27)).wrapping_mul(10_723_151_780_598_845_931);
        Numbers(third ^ (third >> 31))
    }

    /// Returns the next number below `bound`, or 0 if `bound` is 0. `bound` should be below 2^33.
    pub fn below(&mut self, bound: u64) -> u64 {
        self.0 = self
            .0
            .wrapping_mul(6_364_136_223_846_793_005)
            .wrapping_add(1_442_695_040_888_963_407);
        if bound == 0 {
            return 0;
        }
        (self.0 >> 31) % bound
    }

    /// Returns the next number from `least` to `most`.
    pub fn between(&mut self, least: u64, most: u64) -> u64 {
        let many = most.saturating_sub(least).saturating_add(1);
        least.saturating_add(self.below(many))
    }

    /// Returns the next number from `least` to `most`. Two draws in three give an end of this range.
    pub fn between_ends(&mut self, least: u64, most: u64) -> u64 {
        match self.below(3) {
            0 => least,
            1 => most,
            _ => self.between(least, most),
        }
    }

    /// Whether an event with probability 1 in `many` happens.
    pub fn is_drawn(&mut self, many: u64) -> bool {
        self.below(many) == 0
    }

    /// Returns one of `options`, or 0 if there are none.
    pub fn pick(&mut self, options: &[u64]) -> u64 {
        let index = self.below(options.len() as u64);
        options.get(index as usize).copied().unwrap_or(0)
    }
}
