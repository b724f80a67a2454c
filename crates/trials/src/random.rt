// Numbers that look random and are the same in every run.
#[derive(Drop)]
pub struct Random {
    state: u64,
}

impl Random {
    pub fn new(seed: u64) -> Random {
        Random { state: seed | 1 }
    }

    // The next number of a xorshift generator.
    fn next(&mut self) -> u64 {
        let mut x = self.state;
        x ^= x.wrapping_shl(13);
        x ^= x.wrapping_shr(7);
        x ^= x.wrapping_shl(17);
        self.state = x;
        x.wrapping_mul(0x2545_f491_4f6c_dd1d).wrapping_shr(11)
    }

    // One of 0 to n - 1; 0 if n is 0.
    pub fn below(&mut self, n: u32) -> u32 {
        if n == 0 {
            return 0;
        }
        let r = self.next() % u64::from(n);
        u32::try_from(r).unwrap_or(0)
    }

    // One of low to high, where low is no more than high.
    pub fn between(&mut self, low: u32, high: u32) -> u32 {
        low.saturating_add(self.below(high.saturating_sub(low).saturating_add(1)))
    }
}
