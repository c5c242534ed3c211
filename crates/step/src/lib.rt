// One step of Newton or Halley in doubles, from an estimate of the root of Kepler's equation, and its judging.
#![tactic(auto)]

ghost use Rattle.std.specs.Prelude.{◌≡◌};
ghost use Rattle.std.proofs.Math.IntN.{sub_ℕ};
ghost use Rattle.series.specs.Walk.{bias};
ghost use Rattle.step.specs.Step.{in_radians, local_at, flat, handed_over, newton_step, halley_step, step_number, step_estimate};
ghost use Rattle.step.specs.Entry.{step_rule, judged_rule};
ghost use Rattle.step.specs.Known.{unless_flat, step_of, coded_method, step_known, step_answer, judged_on, judged_known, judged_answer};

use cosine::lows;
use grid::codes::Refusal;
use grid::{Angle, codes};
use judge::{Claim, Tolerance, Verdict};
use orbit::pose::{Cell, Given, Grid, Problem};
use series::Bound;

// R78: a method, by its number.
#[derive(Clone, Copy, Debug, PartialEq, Eq)]
pub enum Method {
    Newton = 1,
    Halley = 2,
}

impl TryFrom<u32> for Method {
    type Error = Refusal;

    ghost try_from_gives = { λ n r. r ≡ coded_method n };

    fn try_from(n: u32) -> Result<Self, Refusal> {
        match n {
            1 => Ok(Method::Newton),
            2 => Ok(Method::Halley),
            _ => Err(Refusal::BadMethod),
        }
    }
}

// R77: the number of no step, beside those of the methods.
pub const FLAT: u32 = 3;

// R77: the step taken, with the new estimate. Flat hands nothing over.
#[derive(Clone, Copy, Debug)]
pub enum Taken {
    Newton(f64),
    Halley(f64),
    Flat,
}

impl Taken {
    // R77: the number of a step: its method's, or that of no step.
    fn number(self) -> u32
        ensures { result ≡ step_number self }
    {
        match self {
            Taken::Newton(_) => Method::Newton as u32,
            Taken::Halley(_) => Method::Halley as u32,
            Taken::Flat => FLAT,
        }
    }

    // R77: the estimate beside it.
    fn estimate(self) -> f64
        ensures { result ≡ step_estimate self }
    {
        match self {
            Taken::Newton(y) | Taken::Halley(y) => y,
            Taken::Flat => 0.0,
        }
    }

    // R79: the judge's verdict on it. Of a flat step there is nothing to judge.
    fn verdict(self, given: Grid, n: u32, depth: u32) -> Option<Verdict>
        ensures { result ≡ judged_on given.m given.a n depth self }
    {
        let estimate = match self {
            Taken::Newton(estimate) | Taken::Halley(estimate) => estimate,
            Taken::Flat => return None,
        };
        let claim = Claim {
            given,
            estimate,
            n,
            depth,
        };
        judge::decide(claim).ok().map(|decision| decision.verdict)
    }
}

// A code, and with code 0 the number of the step and its estimate.
#[repr(C)]
#[derive(Clone, Copy, Default)]
pub struct Stepped {
    pub code: u32,
    pub step: u32,
    pub estimate: f64,
}

impl From<Result<Taken, Refusal>> for Stepped {
    ghost from_gives = { λ known r. r ≡ step_answer known };

    fn from(known: Result<Taken, Refusal>) -> Self {
        match known {
            Ok(taken) => Stepped {
                code: codes::DONE,
                step: taken.number(),
                estimate: taken.estimate(),
            },
            Err(refusal) => Stepped {
                code: refusal.code(),
                ..Stepped::default()
            },
        }
    }
}

// A step taken, and the judge's verdict on its estimate: what is handed over is what was judged.
#[derive(Clone, Copy, Debug)]
pub struct Outcome {
    taken: Taken,
    verdict: Option<Verdict>,
}

// The same as C has it, with a code.
#[repr(C)]
#[derive(Clone, Copy, Default)]
pub struct JudgedStep {
    pub code: u32,
    pub step: u32,
    pub estimate: f64,
    pub verdict: u32,
}

impl From<Result<Outcome, Refusal>> for JudgedStep {
    ghost from_gives = { λ known r. r ≡ judged_answer known };

    fn from(known: Result<Outcome, Refusal>) -> Self {
        match known {
            Ok(outcome) => JudgedStep {
                code: codes::DONE,
                step: outcome.taken.number(),
                estimate: outcome.taken.estimate(),
                verdict: outcome.verdict.map_or(0, u32::from),
            },
            Err(refusal) => JudgedStep {
                code: refusal.code(),
                ..JudgedStep::default()
            },
        }
    }
}

// R75: a bound in radians.
fn radians(bound: Bound) -> f64
    ensures { result ≡ in_radians (sub_ℕ bound bias) }
{
    (bound.value() as f64) / units::RADIAN
}

// R77: whether nothing is handed over: by the divisor, or by the check that the new estimate would meet.
fn flat(divisor: f64, y: f64) -> bool
    ensures { result ≡ flat divisor y }
{
    divisor == 0.0 || units::in_units(y, Angle::T, Refusal::BadEstimate).is_err()
}

// R77: the new estimate on M's side; a zero is plus zero on either.
fn handed(y: f64, mirrored: bool) -> f64
    ensures { result ≡ handed_over mirrored y }
{
    if y == 0.0 {
        0.0
    } else {
        units::mirror(y, mirrored)
    }
}

// R77: what is handed over, unless the step is flat.
fn unless_flat(divisor: f64, y: f64, mirrored: bool) -> Option<f64>
    ensures { result ≡ unless_flat mirrored divisor y }
{
    if flat(divisor, y) {
        None
    } else {
        Some(handed(y, mirrored))
    }
}

// R76: the estimate E, g = e sin E, the residual F and the slope D.
#[derive(Clone, Copy, Debug)]
pub struct Local {
    estimate: f64,
    g: f64,
    residual: f64,
    slope: f64,
}

impl Local {
    // R75, R76: of M and A, and an estimate as it is posed, with its floor in units. Each operation is rounded once, and they stand
    // in the rule's order.
    fn at(cell: Cell, x: f64, floor: Angle) -> Local
        ensures { result ≡ local_at cell.m.floor cell.a.floor x floor }
    {
        let low = lows::at(floor);
        let s = radians(low.sine);
        let k = radians(low.cosine);
        let m = (cell.m.floor as f64) / units::RADIAN;
        let e = (cell.a.floor as f64) / units::RADIAN;
        let g = e * s;
        Local {
            estimate: x,
            g,
            residual: (x - m) - g,
            slope: 1.0 - e * k,
        }
    }

    // No division by zero is made, so that a caller whose processor stops at one is not stopped here.
    fn newton(self, mirrored: bool) -> Taken
        ensures { result ≡ newton_step mirrored self }
    {
        if self.slope == 0.0 {
            return Taken::Flat;
        }
        let y = self.estimate - self.residual / self.slope;
        unless_flat(self.slope, y, mirrored).map_or(Taken::Flat, Taken::Newton)
    }

    fn halley(self, mirrored: bool) -> Taken
        ensures { result ≡ halley_step mirrored self }
    {
        let divisor = 2.0 * self.slope * self.slope - self.residual * self.g;
        if divisor == 0.0 {
            return Taken::Flat;
        }
        let y = self.estimate - 2.0 * self.residual * self.slope / divisor;
        unless_flat(divisor, y, mirrored).map_or(Taken::Flat, Taken::Halley)
    }

    // R78: the step of a method.
    fn step(self, method: Method, mirrored: bool) -> Taken
        ensures { result ≡ step_of method mirrored self }
    {
        match method {
            Method::Newton => self.newton(mirrored),
            Method::Halley => self.halley(mirrored),
        }
    }
}

// R78: the step from an estimate, or why there is none: code 1, 2, 4, then 21.
#[tactic(auto, using(units::proofs::Rounding::estimate_fits))]
fn take(given: Grid, estimate: f64, method: u32) -> Result<Taken, Refusal>
    ensures { result ≡ step_known given.m given.a estimate method }
{
    let posed = given.pose()?;
    let value = units::mirror(estimate, posed.mirrored);
    let u = units::in_units(value, Angle::T, Refusal::BadEstimate)?;
    let method = Method::try_from(method)?;
    let local = Local::at(posed.of, value, Angle { units: u.floor });
    Ok(local.step(method, posed.mirrored))
}

// R79: the same, judged, or why there is none: code 1, 2, 3, 4, 5, then 21.
#[tactic(auto, using(units::proofs::Rounding::estimate_fits))]
fn take_judged(
    given: Grid,
    estimate: f64,
    method: u32,
    n: u32,
    depth: u32,
) -> Result<Outcome, Refusal>
    ensures { result ≡ judged_known given.m given.a estimate method n depth }
{
    let posed = Problem::pose(given, depth)?;
    let value = units::mirror(estimate, posed.mirrored);
    let u = units::in_units(value, Angle::T, Refusal::BadEstimate)?;
    Tolerance::try_from(n)?;
    let method = Method::try_from(method)?;
    let local = Local::at(posed.of.cell, value, Angle { units: u.floor });
    let taken = local.step(method, posed.mirrored);
    Ok(Outcome {
        taken,
        verdict: taken.verdict(given, n, depth),
    })
}

// R78: the step from an estimate, or the code of what is out of limits: 1, 2, 4, then 21.
pub fn step(given: Grid, estimate: f64, method: u32) -> Stepped
    ensures { result ≡ step_rule given.m given.a estimate method }
{
    Stepped::from(take(given, estimate, method))
}

// R79: the step from an estimate, judged, or the code of what is out of limits: 1, 2, 3, 4, 5, then 21.
pub fn step_judged(given: Grid, estimate: f64, method: u32, n: u32, depth: u32) -> JudgedStep
    ensures { result ≡ judged_rule given.m given.a estimate method n depth }
{
    JudgedStep::from(take_judged(given, estimate, method, n, depth))
}
