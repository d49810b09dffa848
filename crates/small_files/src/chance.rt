// The pseudo-random numbers: a linear congruence modulo the prime 2^31 - 1.
ghost use Rattle.std.specs.Prelude.{◌-◌, ◌<◌, ◌≤◌};

use std::ops::RangeInclusive;

// The state of the generator.
#[derive(Drop)]
pub struct Chance {
    pub state: u64,
    ghost below_prime: { state < 2147483647 },
}

impl Chance {
    // The next number below a bound, and 0 where the bound is 0. The state goes on by one step; one
    // that is not 0 never becomes 0.
    pub(crate) fn draw(&mut self, below: u8) -> u8
        ensures { result ≤ below - 1 }
    {
        self.state = self.state * 48271 % 2147483647;
        if below == 0 {
            return 0;
        }
        (self.state % u64::from(below)) as u8
    }

    // One of the numbers of a range.
    pub(crate) fn within(&mut self, range: RangeInclusive<u8>) -> u8 {
        let more = range.end().saturating_sub(*range.start());
        range
            .start()
            .saturating_add(self.draw(more.saturating_add(1)))
    }

    // Whether something holds that does in so many of four draws.
    pub(crate) fn holds(&mut self, times: u8) -> bool {
        self.draw(4) < times
    }
}
