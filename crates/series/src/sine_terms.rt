// Sine's terms among the series.
ghost use Rattle.series.specs.Sine.{sine};

use crate::{Biased, Series, Walk};
use grid::{Angle, Depth};

#[derive(Clone, Copy)]
pub struct SineTerms;

// R61: the greatest angles at which the terms are spent after one pair, after two, after three and after four.
const SPENT_1: u64 = 14_417_715;

const SPENT_2: u64 = 128_808_899;

const SPENT_3: u64 = 341_821_575;

const SPENT_4: u64 = 614_482_590;

impl Series for SineTerms {
    ghost series = { sine };

    fn begin(x: Angle) -> Walk {
        let units = x.units;
        Walk::begin(x, units)
    }

    // R11: 2k (2k + 1) is 2 3, 4 5, ..
    #[inline(always)]
    fn further(w: Walk) -> Walk {
        w.further::<2>()
    }

    // The pairs stand one after the other, so that a compiler knows the number of each, which is faster than a choice for each. That
    // the terms are spent is told by the angle, which a processor knows long before them.
    fn bounds_at(x: Angle, d: Depth) -> Biased {
        let n = d.pairs;
        let angle = x.units;
        let mut w = Self::further(Self::begin(x));
        if n == 1 || angle <= SPENT_1 {
            return w.bounds();
        }
        w = Self::further(w);
        if n == 2 || angle <= SPENT_2 {
            return w.bounds();
        }
        w = Self::further(w);
        if n == 3 || angle <= SPENT_3 {
            return w.bounds();
        }
        w = Self::further(w);
        if n == 4 || angle <= SPENT_4 {
            return w.bounds();
        }
        Self::further(w).bounds()
    }
}
