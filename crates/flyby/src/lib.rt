// Flybys: the two end tests of the hyperbolic equation, e sinh X - X = M.
#![tactic(auto)]

ghost use Rattle.std.specs.Prelude.{◌≡◌};
ghost use Rattle.std.proofs.Common.{rules};
ghost use Rattle.grid.specs.Flyby.{X_top};
ghost use Rattle.flyby.specs.Ends.{end_at};
ghost use Rattle.flyby.specs.Entry.{end_known, lower_rule, upper_rule};
ghost use Rattle.flyby.specs.Posed.{coded_flyby};

use ends::{End, Tested};
use grid::codes::Refusal;
use grid::{FlybyAngle, codes};
use std::marker::Model;

// M, and B of the eccentricity B / 2^28.
#[derive(Clone, Copy, Debug, PartialEq, Eq)]
pub struct Flyby {
    pub mean: u64,
    pub shape: u64,
}

impl Model for Flyby {
    ghost use Rattle.flyby.specs.Posed as flybys;

    ghost Value = { flybys.Flyby };

    ghost view = { λ f. record { mean = f.mean; shape = f.shape } };

    ghost invariant = { λ f. flybys.FlybyIn (record { mean = f.mean; shape = f.shape }) };

    ghost inverse = { λ f. record { mean = f.mean; shape = f.shape } };
}

// M and B as they are given.
#[derive(Clone, Copy, Debug, PartialEq, Eq)]
pub struct FlybyGrid {
    pub m: u32,
    pub b: u32,
}

// R81: a flyby within its limits, or its code: 1, then 2.
impl TryFrom<FlybyGrid> for Flyby {
    type Error = Refusal;

    ghost try_from_gives = { λ given r. r ≡ coded_flyby given.m given.b };

    fn try_from(given: FlybyGrid) -> Result<Self, Refusal> {
        let m = codes::limited(given.m, grid::FLYBY_M, Refusal::BadM)?;
        let b = codes::spanned(given.b, grid::FLYBY_B_LEAST, grid::FLYBY_B, Refusal::BadA)?;
        Ok(Flyby {
            mean: u64::from(m),
            shape: u64::from(b),
        })
    }
}

// R85: whether x is accepted as an upper end, or as a lower one. Only the bound that the test needs is made.
#[tactic(auto, unfolding(crate::specs::Ends::end_at), using(crate::proofs::Products::low_product, crate::proofs::Products::high_product))]
pub fn accepted(f: Flyby, x: FlybyAngle, upper: bool) -> bool
    ensures { result ≡ end_at upper f.mean f.shape x }
{
    let level = grid::ONE * (x.units + f.mean);
    if upper {
        level <= f.shape * sinh::low(x)
    } else {
        f.shape * sinh::high(x) <= level
    }
}

// Its tests know no depth, so that the depth asked for is 1.
impl Tested for Flyby {
    ghost test = { λ f upper d x. end_at upper f.mean f.shape x };

    ghost last = { λ _. 1 };

    ghost TOP = { X_top };

    ghost room = { Prim.search rules };

    const TOP: u64 = grid::FLYBY_UNITS;

    fn last_depth(self) -> u32 {
        1
    }

    fn accepted_from(self, units: u64, upper: bool) -> Option<u32> {
        accepted(self, FlybyAngle { units }, upper).then_some(1)
    }
}

// The end test of whatever was given, of an upper end or of a lower one, or why there is none: code 1, 2, then 10.
fn end_test(x: u32, given: FlybyGrid, upper: bool) -> Result<bool, Refusal>
    ensures { result ≡ end_known upper x given.m given.b }
{
    let flyby = Flyby::try_from(given)?;
    let x = FlybyAngle::try_from(x)?;
    Ok(accepted(flyby, x, upper))
}

// R87: whether x is an accepted lower end, or the code of what is out of limits: 1, 2, then 10.
pub fn lower_end(x: u32, given: FlybyGrid) -> End
    ensures { result ≡ lower_rule x given.m given.b }
{
    End::from(end_test(x, given, false))
}

// R87: whether x is an accepted upper end, or its code.
pub fn upper_end(x: u32, given: FlybyGrid) -> End
    ensures { result ≡ upper_rule x given.m given.b }
{
    End::from(end_test(x, given, true))
}
