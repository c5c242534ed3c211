// The pairs of terms, one after the other: the divisors of each.
ghost use Rattle.std.specs.Prelude.{◌≡◌, ◌+◌, ◌≤◌};
ghost use Rattle.series.specs.Walk.{deepened, by_next, odd_from, even_from, PairFits};

use crate::Walk;

impl Walk {
    // The pair that comes next, of a series whose terms 1, 2, .. are divided by n (n + 1) for n = FIRST, FIRST + 2, .. (R11, R71).
    // Each pair's n stands in its own arm, so that the quotients are products.
    #[inline(always)]
    pub fn further<const FIRST: u64>(self) -> Walk
        requires few { FIRST ≤ 2 }
        requires fits { PairFits self (odd_from FIRST self.pairs) (even_from FIRST self.pairs) }
        ensures { result ≡ deepened self (odd_from FIRST self.pairs) (even_from FIRST self.pairs) }
    {
        match self.pairs {
            0 => self.pair(FIRST),
            1 => self.pair(FIRST + 4),
            2 => self.pair(FIRST + 8),
            3 => self.pair(FIRST + 12),
            _ => self.pair(FIRST + 16),
        }
    }

    // The pair of terms with the divisors n (n + 1) and (n + 2) (n + 3).
    #[inline(always)]
    fn pair(self, n: u64) -> Walk
        requires few { n ≤ 18 }
        requires fits { PairFits self (by_next n) (by_next (n + 2)) }
        ensures { result ≡ deepened self (by_next n) (by_next (n + 2)) }
    {
        self.deepen(n * (n + 1), (n + 2) * (n + 3))
    }
}
