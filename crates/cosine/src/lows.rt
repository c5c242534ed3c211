// Lo of sine and of cosine at depth 5, at one angle.
ghost use Rattle.std.specs.Prelude.{◌≡◌, ◌≤◌};
ghost use Rattle.grid.specs.Grid.{T_units};
ghost use Rattle.series.specs.Sine.{sine};
ghost use Rattle.series.specs.Walk.{Unfinished};
ghost use Rattle.cosine.specs.Cosine.{cosine};
ghost use Rattle.cosine.specs.Lows.{Begun, further, lows_at};

use crate::CosineTerms;
use grid::Angle;
use series::sine_terms::SineTerms;
use series::{Bound, Series, Walk};

// Both, biased as the series' bounds are.
#[derive(Clone, Copy)]
pub struct Lows {
    pub sine: Bound,
    pub cosine: Bound,
}

// Sine's walk and cosine's, side by side, so that a processor makes them at once.
#[derive(Clone, Copy)]
struct Walks {
    sine: Walk,
    cosine: Walk,
}

impl Walks {
    fn begin(x: Angle) -> Walks
        ensures { Begun x result }
    {
        Walks {
            sine: SineTerms::begin(x),
            cosine: CosineTerms::begin(x),
        }
    }

    // The next pair of terms of both.
    #[inline(always)]
    fn further(self) -> Walks
        requires { Unfinished sine self.sine × Unfinished cosine self.cosine }
        ensures { result ≡ further self }
    {
        Walks {
            sine: SineTerms::further(self.sine),
            cosine: CosineTerms::further(self.cosine),
        }
    }
}

// Each pair is written out, since a compiler then knows its number, and so its divisors.
pub fn at(x: Angle) -> Lows
    ensures value { result ≡ lows_at x }
    ensures within { x ≤ T_units }
{
    let w = Walks::begin(x)
        .further()
        .further()
        .further()
        .further()
        .further();
    Lows {
        sine: Bound {
            biased: w.sine.greatest,
        },
        cosine: Bound {
            biased: w.cosine.greatest,
        },
    }
}
