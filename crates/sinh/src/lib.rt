// The hyperbolic sine between two whole numbers: sine's terms, all of them added.
#![tactic(auto)]

ghost use Rattle.std.specs.Prelude.{◌≡◌, ◌≤◌};
ghost use Rattle.grid.specs.Flyby.{X_top};
ghost use Rattle.sinh.specs.Sinh.{last, low, high};
ghost use Rattle.sinh.specs.Adding.{added_to};
ghost use Rattle.sinh.specs.Entry.{sinh_known, sinh_rule};

use grid::FlybyAngle;
use grid::codes::Refusal;
use series::{Bounds, Interval};

// R82: the number of the last term.
const LAST: u64 = 9;

// The last term that was added, and the sum up to it.
#[derive(Clone, Copy)]
struct Added {
    term: u64,
    sum: u64,
}

// The terms 0 to 9, added. A compiler writes the nine turns out, so that the quotients are products.
fn add_terms<const ABOVE: bool>(x: FlybyAngle) -> Added
    ensures value { result ≡ added_to ABOVE x last }
    ensures within { x ≤ X_top }
{
    let q = series::scaled::<ABOVE>(x.units * x.units);
    let mut term = x.units;
    let mut sum = x.units;
    for k in 1..=LAST {
        term = series::term::<ABOVE>(term, q, 2 * k * (2 * k + 1));
        sum += term;
    }
    Added { term, sum }
}

// R82: the lower bound.
#[tactic(auto, unfolding(crate::specs::Sinh::low))]
pub fn low(x: FlybyAngle) -> u64
    ensures { result ≡ low x }
{
    add_terms::<false>(x).sum
}

// R82: the upper bound, with the last term once more.
#[tactic(auto, unfolding(crate::specs::Sinh::high), using(crate::proofs::Limits::high_small))]
pub fn high(x: FlybyAngle) -> u64
    ensures { result ≡ high x }
{
    let all = add_terms::<true>(x);
    all.sum + all.term
}

// R84: low and high of x units, or why there are none.
#[tactic(auto, using(crate::proofs::Limits::low_small, crate::proofs::Limits::high_small))]
fn known(x: u32) -> Result<Interval, Refusal>
    ensures { result ≡ sinh_known x }
{
    let x = FlybyAngle::try_from(x)?;
    Ok(Interval {
        lo: low(x) as i64,
        hi: high(x) as i64,
    })
}

// R84: the same as C has them, with code 10.
pub fn sinh(x: u32) -> Bounds
    ensures { result ≡ sinh_rule x }
{
    Bounds::from(known(x))
}
