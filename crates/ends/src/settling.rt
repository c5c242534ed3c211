// How an end test is settled: by the walk through the sine's terms, at one depth after the other.
ghost use Rattle.std.specs.Prelude.{◌≡◌, ◌+◌, ◌*◌, Bool, true, false, not};
ghost use Rattle.orbit.specs.Cell.{orbit_at};
ghost use Rattle.ends.specs.Ends.{end_at};
ghost use Rattle.ends.specs.Least.{from_least};
ghost use Rattle.ends.specs.Corner.{one_mean, corner_of, test_by, own_mean, own_bound, at_depth, said};

use grid::{Angle, Depth, Eccentricity, Mean};
use orbit::pose::{Cell, Problem};
use series::sine_terms::SineTerms;
use series::{Bound, Series};
use std::marker::Model;

// What no depth changes in the test of one M and one A: A, 2^28 M, and 2^28 X + A 2^34, so that no number is below 0.
#[derive(Clone, Copy)]
pub struct Corner {
    shape: u64,
    mean: u64,
    level: u64,
}

impl Model for Corner {
    ghost use Rattle.ends.specs.Corner as corners;

    ghost Value = { corners.Corner };

    ghost view = { λ c. record { shape = c.shape; mean = c.mean; level = c.level } };

    ghost invariant = { λ c. corners.CornerIn (record { shape = c.shape; mean = c.mean; level = c.level }) };

    ghost inverse = { λ c. record { shape = c.shape; mean = c.mean; level = c.level } };
}

impl Corner {
    fn at(m: Mean, a: Eccentricity, x: Angle) -> Corner
        ensures { result ≡ corner_of (orbit_at m a) x }
    {
        Corner {
            shape: a.units,
            mean: grid::ONE * m.units,
            level: grid::ONE * x.units + a.units * series::BIAS,
        }
    }

    // 2^28 M + A bound.
    fn against(self, bound: Bound) -> u64
        ensures { result ≡ self.shape * bound + self.mean }
    {
        self.shape * bound.biased + self.mean
    }
}

// An end, by its tests. Each end's stand in its own type, which is faster than a choice of the bound.
pub trait Side {
    ghost upper: { Bool };

    // The M that the test goes by.
    fn mean(cell: Cell) -> Mean
        ensures { result ≡ own_mean upper cell.m };

    // The bound that the test goes by, of Lo and Hi, and the other end's.
    fn bounds(lo: Bound, hi: Bound) -> (Bound, Bound)
        ensures { result ≡ (own_bound upper lo hi, own_bound (not upper) lo hi) };

    // The test of one M and one A by a bound of the sine.
    fn accepts(c: Corner, bound: Bound) -> bool
        ensures { result ≡ test_by upper c bound };
}

#[derive(Clone, Copy)]
pub struct LowerSide;

impl Side for LowerSide {
    ghost upper = { false };

    fn mean(cell: Cell) -> Mean {
        let m = cell.m;
        Mean { units: m.floor }
    }

    fn bounds(lo: Bound, hi: Bound) -> (Bound, Bound) {
        (lo, hi)
    }

    fn accepts(c: Corner, bound: Bound) -> bool {
        c.level <= c.against(bound)
    }
}

#[derive(Clone, Copy)]
pub struct UpperSide;

impl Side for UpperSide {
    ghost upper = { true };

    fn mean(cell: Cell) -> Mean {
        let m = cell.m;
        Mean { units: m.ceiling }
    }

    fn bounds(lo: Bound, hi: Bound) -> (Bound, Bound) {
        (hi, lo)
    }

    fn accepts(c: Corner, bound: Bound) -> bool {
        c.against(bound) <= c.level
    }
}

// What one depth says of an end, by the bound that its test goes by and the other end's: whether both corners accept it, where that
// settles every greater depth's test too. What is accepted stays so, and where the other bound fails the least corner no depth accepts.
fn at_depth<S: Side>(least: Corner, most: Corner, own: Bound, other: Bound) -> Option<bool>
    ensures { result ≡ said (at_depth S.upper least most own other) }
{
    if S::accepts(least, own) {
        if S::accepts(most, own) {
            Some(true)
        } else {
            None
        }
    } else if S::accepts(least, other) {
        None
    } else {
        Some(false)
    }
}

// The least depth up to the one asked for that accepts an end, by one M and by A rounded down and up: the walk stops at the first depth
// that settles it. Where the terms are spent (R61), what isn't accepted is accepted at no greater depth.
#[inline(never)]
fn walked<S: Side>(
    m: Mean,
    floor: Eccentricity,
    ceiling: Eccentricity,
    depth: Depth,
    x: Angle,
) -> Option<u32>
    ensures { result ≡ from_least (λ d. end_at S.upper (one_mean m floor ceiling) d x) depth }
{
    let least = Corner::at(m, floor, x);
    let most = Corner::at(m, ceiling, x);
    let mut w = SineTerms::begin(x);
    for done in 0..depth.pairs {
        w = SineTerms::further(w);
        let lo = Bound { biased: w.greatest };
        let hi = Bound { biased: w.least };
        let (own, other) = S::bounds(lo, hi);
        if let Some(accepts) = at_depth::<S>(least, most, own, other) {
            return accepts.then_some(done + 1);
        }
        if w.spent() {
            break;
        }
    }
    None
}

// The least depth of a problem that accepts an end. Its parts are handed on, which is faster than the problem.
#[inline(always)]
pub fn settle<S: Side>(p: Problem, x: Angle) -> Option<u32>
    ensures { result ≡ from_least (λ d. end_at S.upper p.cell d x) p.depth }
{
    let cell = p.cell;
    let a = cell.a;
    let floor = Eccentricity { units: a.floor };
    let ceiling = Eccentricity { units: a.ceiling };
    walked::<S>(S::mean(cell), floor, ceiling, p.depth, x)
}
