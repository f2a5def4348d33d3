// Made numbers, the same in every run.
ghost use Rattle.std.specs.Prelude.{◌-◌, ◌≤◌};

#[derive(Clone, Copy)]
pub(crate) struct Random(pub(crate) u64);

impl Random {
    // The next of Marsaglia's xorshift numbers.
    pub(crate) fn next(&mut self) -> u64 {
        let mut x = self.0;
        x ^= x << 13;
        x ^= x >> 7;
        x ^= x << 17;
        self.0 = x;
        x.wrapping_mul(2685821657736338717)
    }

    // A number below n, and 0 where n is 0.
    pub(crate) fn below(&mut self, n: u16) -> u16
        ensures { result ≤ n - 1 }
    {
        let x = self.next() >> 32;
        // `as`: it is below n, or 0.
        x.checked_rem(u64::from(n)).unwrap_or(0) as u16
    }
}
