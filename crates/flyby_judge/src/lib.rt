// The judge of a claim about a flyby: does the hyperbolic equation have its root within N units of an estimate?
#![tactic(auto)]

ghost use Rattle.std.specs.Prelude.{◌≡◌};
ghost use Rattle.flyby_judge.specs.Judge.{claim_of, judge_rule};
ghost use Rattle.flyby_judge.specs.Decision.{decided_known};

use flyby::{Flyby, FlybyGrid};
use grid::codes::Refusal;
use judge::{Case, Decision, Judged, Tolerance};

// The verdict on a claim, or why there is none: code 1, 2, 4, then 5. Its depth is 1, as a flyby's tests know no depth.
fn decide(given: FlybyGrid, estimate: f64, n: u32) -> Result<Decision, Refusal>
    ensures { result ≡ decided_known (claim_of given.m given.b estimate n) }
{
    let tested = Flyby::try_from(given)?;
    let units = units::in_units(estimate, grid::FLYBY_TOP, Refusal::BadEstimate)?;
    let tolerance = Tolerance::try_from(n)?;
    let case = Case {
        tested,
        units,
        tolerance,
    };
    Ok(case.decide())
}

// R89: the verdict on a claim, or the code of what is out of limits: 1, 2, 4, then 5.
pub fn judge(given: FlybyGrid, estimate: f64, n: u32) -> Judged
    ensures { result ≡ judge_rule (claim_of given.m given.b estimate n) }
{
    Judged::from(decide(given, estimate, n))
}
