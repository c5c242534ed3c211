// How far from the root of Kepler's equation an estimate certainly is: at least, and at most.
#![tactic(auto)]

ghost use Rattle.std.specs.Prelude.{◌≡◌};
ghost use Rattle.units.specs.Limits.{UnitsIn};
ghost use Rattle.distance.specs.Distance.{off_by, distance_known, distance_answer, distance_rule};

use enclosure::Found;
use grid::codes::Refusal;
use grid::{Angle, Depth, codes};
use orbit::pose::{Given, Problem};
use units::Units;

// R67: how far away from the root, in units: this much or more, and this much or less.
#[derive(Clone, Copy, Debug, PartialEq, Eq)]
pub struct Away {
    pub least: u32,
    pub most: u32,
}

// A code, and with code 0 the least and the greatest distance from the root, in units.
#[repr(C)]
#[derive(Clone, Copy, Default)]
pub struct Off {
    pub code: u32,
    pub least: u32,
    pub most: u32,
}

// R67: the distances of an estimate by the ends that were found.
fn off_by(found: Found, u: Units) -> Away
    requires { UnitsIn u }
    ensures { result ≡ off_by found u }
{
    let a = found.a.units;
    let b = found.b.units;
    let least = grid::step_down(a, u.ceiling).max(grid::step_down(u.floor, b));
    let most = grid::step_down(u.ceiling, a).max(grid::step_down(b, u.floor));
    Away {
        least: least as u32,
        most: most as u32,
    }
}

// R68: the distances, or why there are none: code 1, 2, then 4. On the mirror the estimate is mirrored.
#[tactic(auto, using(units::proofs::Rounding::estimate_fits))]
fn posed_off<G: Given>(given: G, estimate: f64) -> Result<Away, Refusal>
    ensures { result ≡ distance_known (G.given given) estimate }
{
    let posed = given.pose()?;
    let value = units::mirror(estimate, posed.mirrored);
    let u = units::in_units(value, Angle::T, Refusal::BadEstimate)?;
    let cell = posed.of;
    let depth = Depth {
        pairs: Depth::GREATEST,
    };
    let found = enclosure::find_ends(Problem { cell, depth });
    Ok(off_by(found, u))
}

impl From<Result<Away, Refusal>> for Off {
    ghost from_gives = { λ known r. r ≡ distance_answer known };

    fn from(known: Result<Away, Refusal>) -> Self {
        match known {
            Ok(away) => Off {
                code: codes::DONE,
                least: away.least,
                most: away.most,
            },
            Err(refusal) => Off {
                code: refusal.code(),
                ..Off::default()
            },
        }
    }
}

// R68: the distances from the root of whatever is given, or the code of what is out of limits.
pub fn distance<G: Given>(given: G, estimate: f64) -> Off
    ensures { result ≡ distance_rule (G.given given) estimate }
{
    Off::from(posed_off(given, estimate))
}
