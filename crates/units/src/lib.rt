// From a double to whole units of 2^-28: the floor and the ceiling.
#![tactic(auto)]

ghost use Rattle.std.specs.Prelude.{◌≡◌};
ghost use Rattle.units.specs.Units.{exactly, mirror_double, is_below_zero, coded_units};

use grid::Eccentricity;

// A number in units, rounded down and rounded up: of a whole number of units both are the number itself.
#[derive(Clone, Copy, Debug, PartialEq, Eq)]
pub struct Units {
    pub floor: u64,
    pub ceiling: u64,
}

impl From<u64> for Units {
    ghost from_gives = { λ n r. r ≡ exactly n };

    fn from(n: u64) -> Self {
        Units {
            floor: n,
            ceiling: n,
        }
    }
}

// 2^28, the units in one radian.
pub const RADIAN: f64 = Eccentricity::ONE as f64;

// R59: a double, or on the mirror its negative.
pub fn mirror(value: f64, mirrored: bool) -> f64
    ensures { result ≡ mirror_double mirrored value }
{
    if mirrored { -value } else { value }
}

// R60: whether a double is below 0: neither zero is, nor a NaN.
pub fn is_below_zero(value: f64) -> bool
    ensures { result ≡ is_below_zero value }
{
    value < 0.0
}

// The value in units where it is 0 to the limit, else the refusal. A NaN fails every test, and -0.0 passes as 0 does. The
// product is exact, or it overflows to an infinity, which no limit reaches.
pub fn in_units<R: Copy>(value: f64, limit: u32, refusal: R) -> Result<Units, R>
    ensures { result ≡ coded_units value limit refusal }
{
    if value >= 0.0 {
        let product = value * RADIAN;
        if product <= limit as f64 {
            let floor = std::num::truncating_f64_to_u64(product);
            let ceiling = if (floor as f64) < product {
                floor + 1
            } else {
                floor
            };
            return Ok(Units { floor, ceiling });
        }
    }
    Err(refusal)
}
