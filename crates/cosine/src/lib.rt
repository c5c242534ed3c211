// Cosine bounds in whole units: CosLo and CosHi of an angle at a depth.
#![tactic(auto)]

ghost use Rattle.std.specs.Prelude.{◌≡◌};
ghost use Rattle.cosine.specs.Cosine.{cosine, cosine_rule};

use grid::Angle;
use series::{Bounds, Series, Walk};

pub mod lows;

// Cosine's terms among the series.
#[derive(Clone, Copy)]
pub struct CosineTerms;

impl Series for CosineTerms {
    ghost series = { cosine };

    fn begin(x: Angle) -> Walk {
        Walk::begin(x, grid::ONE)
    }

    // R71: (2k - 1) 2k is 1 2, 3 4, ..
    #[inline(always)]
    #[tactic(auto, using(crate::proofs::OfCosine::further_fits, crate::proofs::OfCosine::further_is))]
    fn further(w: Walk) -> Walk {
        w.further::<1>()
    }
}

// R74: CosLo and CosHi of an angle of x units at a depth, or the code of what is out of limits: 3, then 10.
pub fn cosine(x: u32, depth: u32) -> Bounds
    ensures { result ≡ cosine_rule x depth }
{
    series::lo_and_hi::<CosineTerms>(x, depth)
}
