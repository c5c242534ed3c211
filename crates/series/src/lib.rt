// Bounds of an alternating series in whole units, and sine's: Lo and Hi of an angle at a depth.
#![tactic(auto)]

ghost use Rattle.std.specs.Prelude.{◌≡◌, ℕ, suc, ◌*◌, ◌^◌, ◌≤◌};
ghost use Rattle.std.proofs.Math.IntN.{sub_ℕ};
ghost use Rattle.grid.specs.Grid.{one, T_units, depths};
ghost use Rattle.whole.specs.Round.{rounded};
ghost use Rattle.series.specs.Terms as terms;
ghost use Rattle.series.specs.Sine.{sine};
ghost use Rattle.series.specs.Walk.{bias, walk, begun, deepened, spent_at, term_limit, TermFits, PairFits, Unfinished, InRange};
ghost use Rattle.series.specs.Entry.{bounds_rule, sine_rule};
ghost use Rattle.series.specs.Asked.{biased_bounds, asked_for, unbiased, bounds_answer, interval_known};

use grid::codes::Refusal;
use grid::{Angle, Depth, codes};
use sine_terms::SineTerms;
use std::marker::Model;

mod pairs;
pub mod sine_terms;

// 2^34, which is added to a bound so that it is never below 0.
pub const BIAS: u64 = 17_179_869_184;

// A bound with the bias added.
#[derive(Clone, Copy, Debug, PartialEq, Eq)]
pub struct Bound {
    pub biased: u64,
}

impl Model for Bound {
    ghost use Rattle.std.specs.Prelude.{ℕ, ◌*◌, ◌≤◌};
    ghost use Rattle.series.specs.Walk.{bias};

    ghost Value = { ℕ };

    ghost view = { λ b. b.biased };

    ghost invariant = { λ b. b.biased ≤ 2 * bias };

    ghost inverse = { λ n. record { biased = n } };
}

impl Bound {
    // The signed number that was biased.
    pub fn value(self) -> i64
        ensures { result ≡ sub_ℕ self bias }
    {
        (self.biased as i64) - (BIAS as i64)
    }
}

// Lo and Hi, biased.
#[derive(Clone, Copy)]
pub struct Biased {
    pub lo: Bound,
    pub hi: Bound,
}

impl Biased {
    // The same as they are.
    pub fn values(self) -> Interval
        ensures { result ≡ unbiased self }
    {
        Interval {
            lo: self.lo.value(),
            hi: self.hi.value(),
        }
    }
}

// The two bounds that a number lies between.
#[derive(Clone, Copy)]
pub struct Interval {
    pub lo: i64,
    pub hi: i64,
}

// What an entry answers.
#[repr(C)]
#[derive(Clone, Copy, Default)]
pub struct Bounds {
    pub code: u32,
    pub lo: i64,
    pub hi: i64,
}

impl From<Result<Interval, Refusal>> for Bounds {
    ghost from_gives = { λ known r. r ≡ bounds_answer known };

    fn from(known: Result<Interval, Refusal>) -> Self {
        match known {
            Ok(bounds) => Bounds {
                code: codes::DONE,
                lo: bounds.lo,
                hi: bounds.hi,
            },
            Err(refusal) => Bounds {
                code: refusal.code(),
                ..Bounds::default()
            },
        }
    }
}

// The angle and the depth that are asked about.
#[derive(Clone, Copy)]
pub struct Asked {
    pub angle: Angle,
    pub depth: Depth,
}

// The walk through the terms of a series at an angle, after `pairs` pairs of them.
#[derive(Clone, Copy)]
pub struct Walk {
    pub angle: u64,
    pub pairs: u64,
    // the square, rounded down and up: Q- and Q+
    pub floor: u64,
    pub ceiling: u64,
    // the term numbered 2 pairs, rounded down and up: l and u
    pub down: u64,
    pub up: u64,
    // the raw bounds of this depth, biased
    pub low: u64,
    pub high: u64,
    // the greatest raw low and the least raw high so far, biased
    pub greatest: u64,
    pub least: u64,
}

// The best bounds of a walk, biased.
#[derive(Clone, Copy)]
pub struct Best {
    pub lo: u64,
    pub hi: u64,
}

const ROUND: u64 = grid::ONE - 1;

// n / 2^28, rounded up where the bound is to lie above, and else down.
pub fn scaled<const ABOVE: bool>(n: u64) -> u64
    requires { n ≤ 2 ^ 63 }
    ensures { result ≡ rounded ABOVE n one }
{
    if ABOVE { (n + ROUND) >> 28 } else { n >> 28 }
}

// t q / (2^28 divisor), rounded so once: the shift's loss can't reach the next multiple.
pub fn term<const ABOVE: bool>(t: u64, q: u64, divisor: u64) -> u64
    requires { TermFits t q divisor }
    ensures { result ≡ rounded ABOVE (t * q) (one * divisor) }
{
    let product = scaled::<ABOVE>(t * q);
    if ABOVE {
        (product + (divisor - 1)) / divisor
    } else {
        product / divisor
    }
}

impl Walk {
    // The walk before its first pair, of a series whose term 0 at the angle x is given.
    pub fn begin(x: Angle, term0: u64) -> Walk
        requires { term0 ≤ term_limit }
        ensures at { result ≡ begun x term0 }
        ensures top { x ≤ T_units }
    {
        let square = x.units * x.units;
        Walk {
            angle: x.units,
            pairs: 0,
            floor: scaled::<false>(square),
            ceiling: scaled::<true>(square),
            down: term0,
            up: term0,
            low: BIAS,
            high: BIAS + term0,
            greatest: 0,
            least: 2 * BIAS,
        }
    }

    // One pair of terms further, with the divisors of the odd-numbered and the even-numbered one.
    #[tactic(auto, unfolding(crate::specs::Walk::deepened))]
    pub fn deepen(self, odd: u64, even: u64) -> Walk
        requires { PairFits self odd even }
        ensures { result ≡ deepened self odd even }
    {
        let odd_down = term::<false>(self.down, self.floor, odd);
        let odd_up = term::<true>(self.up, self.ceiling, odd);
        let even_down = term::<false>(odd_down, self.floor, even);
        let even_up = term::<true>(odd_up, self.ceiling, even);
        let low = self.low + self.down - odd_up;
        let high = self.high + even_up - odd_down;
        Walk {
            pairs: self.pairs + 1,
            down: even_down,
            up: even_up,
            low,
            high,
            greatest: self.greatest.max(low),
            least: self.least.min(high),
            ..self
        }
    }

    // The bounds that it has come to, whatever its numbers are.
    pub fn best(self) -> Best
        ensures { result ≡ record { lo = self.greatest; hi = self.least } }
    {
        Best {
            lo: self.greatest,
            hi: self.least,
        }
    }

    // The same, of a walk of a series: they are within their limits.
    fn bounds(self) -> Biased
        requires { (self.greatest ≤ 2 * bias) × (self.least ≤ 2 * bias) }
        ensures { result ≡ record { lo = self.greatest; hi = self.least } }
    {
        let best = self.best();
        Biased {
            lo: Bound { biased: best.lo },
            hi: Bound { biased: best.hi },
        }
    }

    // R61: whether the terms are spent, so that no further pair makes a bound better.
    pub fn spent(self) -> bool
        ensures { result ≡ spent_at self }
    {
        self.down == 0 && self.up <= 1
    }
}

// A series whose terms can be walked through.
pub trait Series {
    ghost series: { terms.Series };

    // The walk before the first pair.
    fn begin(x: Angle) -> Walk
        ensures at { result ≡ walk series x 0 }
        ensures top { x ≤ T_units }
        ensures range { InRange series x };

    // The next pair of terms.
    fn further(w: Walk) -> Walk
        requires { Unfinished series w }
        ensures { result ≡ walk series w.angle (suc w.pairs) };

    // R16, R71: Lo and Hi, biased. The walk ends at the depth, or where the terms are spent (R61).
    fn bounds_at(x: Angle, d: Depth) -> Biased
        ensures value { result ≡ biased_bounds series x d }
        ensures range { InRange series x }
    {
        let mut w = Self::further(Self::begin(x));
        for _ in 1..d.pairs {
            if w.spent() {
                break;
            }
            w = Self::further(w);
        }
        w.bounds()
    }
}

// What an entry is asked about, or why it is refused: code 3, then 10.
pub fn ask(x: u32, depth: u32) -> Result<Asked, Refusal>
    ensures { result ≡ asked_for x depth }
{
    let depth = Depth::try_from(depth)?;
    let angle = Angle::try_from(x)?;
    Ok(Asked { angle, depth })
}

// The bounds of a series at an angle of x units and a depth, or why there are none.
fn known<S: Series>(x: u32, depth: u32) -> Result<Interval, Refusal>
    ensures { result ≡ interval_known S.series x depth }
{
    let q = ask(x, depth)?;
    Ok(S::bounds_at(q.angle, q.depth).values())
}

// The same as C has them, with the code of what is out of limits.
pub fn lo_and_hi<S: Series>(x: u32, depth: u32) -> Bounds
    ensures { result ≡ bounds_rule S.series x depth }
{
    Bounds::from(known::<S>(x, depth))
}

// R16: Lo and Hi of an angle of x units at a depth, or the code of what is out of limits.
pub fn sine(x: u32, depth: u32) -> Bounds
    ensures { result ≡ sine_rule x depth }
{
    lo_and_hi::<SineTerms>(x, depth)
}
