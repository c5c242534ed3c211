// The grid on which the user's numbers stand, and the codes of what stands outside it.
#![tactic(auto)]

ghost use Rattle.std.specs.Prelude.{◌≡◌, ◌+◌, ◌-◌, ◌≤◌, ℕ, min};
ghost use Rattle.grid.specs.Grid.{one, T_units};
ghost use Rattle.grid.specs.Limits.{DepthIn};
ghost use Rattle.grid.specs.Make.{angle_up_to, coded_signed, coded_eccentricity, coded_depth};

use codes::Refusal;
use std::marker::Model;

pub mod codes;

// An angle of 0 to TOP units; one unit is 2^-28 radian.
#[derive(Clone, Copy, Debug, PartialEq, Eq)]
pub struct AngleTo<const TOP: u64> {
    pub units: u64,
}

impl<const TOP: u64> Model for AngleTo<TOP> {
    ghost Value = { ℕ };

    ghost view = { λ x. x.units };

    ghost invariant = { λ x. x.units ≤ TOP };

    ghost inverse = { λ n. record { units = n } };
}

// Of an orbit's, up to T.
pub type Angle = AngleTo<T>;

// The size of an orbit's mean anomaly, up to H.
pub type Mean = AngleTo<H>;

// Of a flyby's, up to two radians.
pub type FlybyAngle = AngleTo<FLYBY_UNITS>;

impl Angle {
    pub const H: u32 = H as u32;

    pub const T: u32 = T as u32;
}

impl<const TOP: u64> TryFrom<u32> for AngleTo<TOP> {
    type Error = Refusal;

    ghost try_from_gives = { λ n r. r ≡ angle_up_to TOP n };

    fn try_from(units: u32) -> Result<Self, Refusal> {
        let units = u64::from(units);
        if units <= TOP {
            Ok(AngleTo { units })
        } else {
            Err(Refusal::BadX)
        }
    }
}

// Of a number that may be below 0, where no angle is.
impl TryFrom<i64> for Angle {
    type Error = Refusal;

    ghost try_from_gives = { λ z r. r ≡ coded_signed z };

    fn try_from(z: i64) -> Result<Self, Refusal> {
        if (0..=T as i64).contains(&z) {
            Ok(Angle { units: z as u64 })
        } else {
            Err(Refusal::BadX)
        }
    }
}

// An eccentricity of A / 2^28, with A from 0 to 2^28.
#[derive(Clone, Copy, Debug, PartialEq, Eq)]
pub struct Eccentricity {
    pub units: u64,
}

impl Model for Eccentricity {
    ghost Value = { ℕ };

    ghost view = { λ e. e.units };

    ghost invariant = { λ e. e.units ≤ one };

    ghost inverse = { λ n. record { units = n } };
}

impl Eccentricity {
    // A for e = 1, and one radian in units.
    pub const ONE: u32 = 268_435_456;
}

impl TryFrom<u32> for Eccentricity {
    type Error = Refusal;

    ghost try_from_gives = { λ n r. r ≡ coded_eccentricity n };

    fn try_from(units: u32) -> Result<Self, Refusal> {
        let units = u64::from(codes::limited(units, Eccentricity::ONE, Refusal::BadA)?);
        Ok(Eccentricity { units })
    }
}

// How many pairs of terms are used: 1 to 5.
#[derive(Clone, Copy, Debug, PartialEq, Eq)]
pub struct Depth {
    pub pairs: u32,
}

impl Model for Depth {
    ghost Value = { ℕ };

    ghost view = { λ d. d.pairs };

    ghost invariant = { λ d. DepthIn d.pairs };

    ghost inverse = { λ n. record { pairs = n } };
}

impl Depth {
    pub const LEAST: u32 = 1;

    pub const GREATEST: u32 = 5;
}

impl TryFrom<u32> for Depth {
    type Error = Refusal;

    ghost try_from_gives = { λ n r. r ≡ coded_depth n };

    fn try_from(pairs: u32) -> Result<Self, Refusal> {
        let pairs = codes::spanned(pairs, Depth::LEAST, Depth::GREATEST, Refusal::BadDepth)?;
        Ok(Depth { pairs })
    }
}

// The largest size of a mean anomaly, the whole part of pi times 2^28.
pub const H: u64 = 843_314_856;

// The largest angle tested, H + 64.
pub const T: u64 = 843_314_920;

// One radian, for angles in 64 bits.
pub const ONE: u64 = Eccentricity::ONE as u64;

// R81: the largest mean anomaly of a flyby, in units; B of its eccentricity B / 2^28, from e = 1 to e = 4; and the largest X tested,
// two radians.
pub const FLYBY_M: u32 = 2_147_483_647;

pub const FLYBY_B_LEAST: u32 = Eccentricity::ONE;

pub const FLYBY_B: u32 = 1_073_741_824;

pub const FLYBY_TOP: u32 = 536_870_912;

// The same in 64 bits.
pub const FLYBY_UNITS: u64 = FLYBY_TOP as u64;

// n units below x, or 0 where that is below 0.
pub fn step_down(x: u64, n: u64) -> u64
    ensures { result ≡ x - n }
{
    x.saturating_sub(n)
}

// n units above x, or the top where that is above it.
pub fn step_up(x: u64, n: u64, top: u64) -> u64
    ensures { result ≡ min (x + n) top }
{
    x.saturating_add(n).min(top)
}
