//! Numbers that are drawn.

ghost use Rattle.std.specs.Prelude.{◌<◌};

/// Numbers that look like chance, from a seed that is not 0.
#[derive(Drop)]
pub struct Draws {
    pub seed: u64,
}

impl Draws {
    /// A number below `bound`, which is not 0.
    pub fn below(&mut self, bound: u64) -> u64
        requires { 0 < bound }
        ensures { result < bound }
    {
        // a step of xorshift, of 64 bits
        self.seed ^= self.seed << 13;
        self.seed ^= self.seed >> 7;
        self.seed ^= self.seed << 17;
        self.seed % bound
    }

    /// A drawn number from 0 to 255.
    pub fn byte(&mut self) -> u8 {
        self.below(256) as u8
    }
}
