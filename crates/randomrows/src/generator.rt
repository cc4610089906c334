// The generator of random numbers: a 64-bit xorshift.

#[derive(Drop)]
pub struct Generator {
    state: u64,
}

impl Generator {
    pub fn new(seed: u64) -> Generator {
        Generator { state: seed }
    }

    // The next number.
    pub fn number(&mut self) -> u64 {
        self.state ^= self.state << 13;
        self.state ^= self.state >> 7;
        self.state ^= self.state << 17;
        self.state
    }

    // A number below `limit`; 0 where that is 0.
    pub fn draw(&mut self, limit: usize) -> usize {
        let number = (self.number() >> 11) as usize;
        number.checked_rem(limit).unwrap_or(0)
    }
}
