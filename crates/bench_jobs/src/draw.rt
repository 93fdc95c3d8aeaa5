//! Numbers that are drawn.
ghost use Rattle.std.specs.Prelude.{◌<◌};

/// Draws numbers, the same ones from the same seed (SplitMix64).
#[derive(Drop)]
pub struct Draw {
    state: u64,
}

impl Draw {
    pub fn new(seed: u64) -> Draw {
        Draw { state: seed }
    }

    /// The next number of 64 bits.
    pub fn number(&mut self) -> u64 {
        self.state = self.state.wrapping_add(0x9e37_79b9_7f4a_7c15);
        mixed(self.state)
    }

    /// The next number, below that one.
    pub fn below(&mut self, bound: u64) -> u64
        requires { 0 < bound }
        ensures { result < bound }
    {
        self.number() % bound
    }
}

/// The number with its bits mixed.
pub fn mixed(number: u64) -> u64 {
    let first = (number ^ number >> 30).wrapping_mul(0xbf58_476d_1ce4_e5b9);
    let second = (first ^ first >> 27).wrapping_mul(0x94d0_49bb_1331_11eb);
    second ^ second >> 31
}

/// The last 32 bits of a number.
pub fn low(number: u64) -> u32 {
    (number & 0xffff_ffff) as u32
}
