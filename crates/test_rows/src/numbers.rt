//! Numbers that look random, and are the same in each run.

/// Numbers of 32 bits: those of Knuth's generator for 64 bits, without their low 32 bits.
#[derive(Clone, Copy, Debug)]
pub struct NumberStream {
    state: u64,
}

impl NumberStream {
    /// The numbers behind the seed.
    pub fn from(seed: u64) -> NumberStream {
        NumberStream { state: seed }
    }

    /// The next number.
    pub fn next(&mut self) -> u64 {
        self.state = self
            .state
            .wrapping_mul(6_364_136_223_846_793_005)
            .wrapping_add(1_442_695_040_888_963_407);
        self.state >> 32
    }
}

/// A number below the count, or 0.
pub fn below(number: u64, count: usize) -> u32 {
    u32::try_from(number % (count as u64).max(1)).unwrap_or(0)
}

/// The count, where it has 32 bits.
pub fn small(count: usize) -> u32 {
    u32::try_from(count).unwrap_or(0)
}
