// The judge of a claim: does Kepler's equation have its root within N units of an estimate?
#![tactic(auto)]

ghost use Rattle.std.specs.Prelude.{◌≡◌, ◌≤◌, ⊤};
ghost use Rattle.grid.specs.Grid.{depths};
ghost use Rattle.grid.specs.Limits.{DepthIn};
ghost use Rattle.units.specs.Limits.{UnitsUpTo};
ghost use Rattle.judge.specs.Verdict.{verdict_number};
ghost use Rattle.judge.specs.Judge.{judge_rule};
ghost use Rattle.judge.specs.Settle.{settle_rule};
ghost use Rattle.judge.specs.Decision.{tests_by, confirmed_from, above_from, below_from, decided_by, settled_known, judged_answer, settled_answer};
ghost use Rattle.judge.specs.Limits.{coded_tolerance};

use ends::Tested;
use grid::codes::Refusal;
use grid::{Angle, Depth, codes};
use orbit::pose::{Given, Problem};
use std::alloc::AllocError;
use std::marker::Model;
use units::Units;

#[derive(Clone, Copy, Debug, PartialEq, Eq)]
pub enum Verdict {
    Confirmed = 16,
    Refuted = 17,
    Undecided = 18,
}

// R45: the number of a verdict.
impl From<Verdict> for u32 {
    ghost from_gives = { λ v n. n ≡ verdict_number v };

    fn from(v: Verdict) -> u32 {
        v as u32
    }
}

// A tolerance of 0 to 65535 units.
#[derive(Clone, Copy, Debug, PartialEq, Eq)]
pub struct Tolerance {
    pub units: u64,
}

impl Model for Tolerance {
    ghost use Rattle.std.specs.Prelude.{ℕ, ◌≤◌};
    ghost use Rattle.grid.specs.Grid.{N_units};

    ghost Value = { ℕ };

    ghost view = { λ n. n.units };

    ghost invariant = { λ n. n.units ≤ N_units };

    ghost inverse = { λ n. record { units = n } };
}

impl Tolerance {
    pub const GREATEST: u32 = 65_535;
}

impl TryFrom<u32> for Tolerance {
    type Error = Refusal;

    ghost try_from_gives = { λ n r. r ≡ coded_tolerance n };

    fn try_from(units: u32) -> Result<Self, Refusal> {
        let units = u64::from(codes::limited(units, Tolerance::GREATEST, Refusal::BadN)?);
        Ok(Tolerance { units })
    }
}

// R48: what is judged: a problem, an estimate in radians, the tolerance and the depth.
#[derive(Drop)]
pub struct Claim<G: Given> {
    pub given: G,
    pub estimate: f64,
    pub n: u32,
    pub depth: u32,
}

// In contracts it is a claim about what was given, whichever way it was.
impl<G: Given> Model for Claim<G> {
    ghost use Rattle.judge.specs.Judge as judged;

    ghost Value = { judged.Claim };

    ghost view = { λ c. record { given = G.given c.given; estimate = c.estimate; n = c.n; depth = c.depth } };
}

// A verdict, and the least depth that gives it: 1 to 5, and the last where no depth decides.
#[derive(Clone, Copy, Debug, PartialEq, Eq)]
pub struct Decision {
    pub verdict: Verdict,
    pub depth: u32,
}

// A code, and with code 0 the verdict's number: 16, 17 or 18.
#[repr(C)]
#[derive(Clone, Copy, Default)]
pub struct Judged {
    pub code: u32,
    pub verdict: u32,
}

impl From<Result<Decision, Refusal>> for Judged {
    ghost from_gives = { λ known r. r ≡ judged_answer known };

    fn from(known: Result<Decision, Refusal>) -> Self {
        match known {
            Ok(decision) => Judged {
                code: codes::DONE,
                verdict: u32::from(decision.verdict),
            },
            Err(refusal) => Judged {
                code: refusal.code(),
                ..Judged::default()
            },
        }
    }
}

// A code, and with code 0 the verdict's number and the least depth that gives it.
#[repr(C)]
#[derive(Clone, Copy, Default)]
pub struct Settled {
    pub code: u32,
    pub verdict: u32,
    pub depth: u32,
}

impl From<Result<Decision, Refusal>> for Settled {
    ghost from_gives = { λ known r. r ≡ settled_answer known };

    fn from(known: Result<Decision, Refusal>) -> Self {
        match known {
            Ok(decision) => Settled {
                code: codes::DONE,
                verdict: u32::from(decision.verdict),
                depth: decision.depth,
            },
            Err(refusal) => Settled {
                code: refusal.code(),
                ..Settled::default()
            },
        }
    }
}

// A claim whose numbers are all within their limits: that the root of what is tested lies within a tolerance of an estimate, which
// is known in whole units.
pub struct Case<P: Tested> {
    pub tested: P,
    pub units: Units,
    pub tolerance: Tolerance,
    ghost within: { UnitsUpTo P.TOP units },
    ghost tried: { DepthIn (P.last tested) },
}

impl<P: Tested> Clone for Case<P> {
    ghost is_clone = { λ k r. r ≡ k };

    ghost is_infallible = { λ _. ⊤ };

    fn clone(&self) -> Result<Case<P>, AllocError> {
        Ok(*self)
    }
}

impl<P: Tested> Copy for Case<P> {}

impl<P: Tested> Case<P> {
    // R43, of the reach p to q of R42: the least depth that confirms.
    fn confirmed_from(&self) -> Option<u32>
        ensures { result ≡ confirmed_from (tests_by (P.test self.now.tested) P.TOP) self.now.units self.now.tolerance (P.last self.now.tested) }
    {
        let n = self.tolerance;
        let p = grid::step_down(self.units.ceiling, n.units);
        let q = grid::step_up(self.units.floor, n.units, P::TOP);
        let low = self.tested.accepted_from(p, false)?;
        let high = self.tested.accepted_from(q, true)?;
        Some(low.max(high))
    }

    // R44: the least depth with an accepted lower end one unit above q.
    fn lower_above(&self) -> Option<u32>
        ensures { result ≡ above_from (tests_by (P.test self.now.tested) P.TOP) self.now.units self.now.tolerance (P.last self.now.tested) }
    {
        let n = self.tolerance;
        let floor = self.units.floor;
        let next = n.units + 1;
        if next <= P::TOP - floor {
            self.tested.accepted_from(floor + next, false)
        } else {
            None
        }
    }

    // R44: the least depth with an accepted upper end one unit below p.
    fn upper_below(&self) -> Option<u32>
        ensures { result ≡ below_from (tests_by (P.test self.now.tested) P.TOP) self.now.units self.now.tolerance (P.last self.now.tested) }
    {
        let n = self.tolerance;
        let x = self.units.ceiling.checked_sub(n.units + 1)?;
        self.tested.accepted_from(x, true)
    }

    // The verdict, with no end tested that it doesn't need. No claim has two refuting ends.
    pub fn decide(&self) -> Decision
        ensures { result ≡ decided_by (tests_by (P.test self.now.tested) P.TOP) self.now.units self.now.tolerance (P.last self.now.tested) }
    {
        let (verdict, depth) = if let Some(depth) = self.confirmed_from() {
            (Verdict::Confirmed, depth)
        } else if let Some(depth) = self.lower_above() {
            (Verdict::Refuted, depth)
        } else if let Some(depth) = self.upper_below() {
            (Verdict::Refuted, depth)
        } else {
            (Verdict::Undecided, self.tested.last_depth())
        };
        Decision { verdict, depth }
    }
}

// The verdict on a claim and the least depth that gives it, or why there is none: code 1, 2, 3, 4, then 5. On the mirror the estimate
// is mirrored.
pub fn decide<G: Given>(claim: Claim<G>) -> Result<Decision, Refusal>
    ensures { result ≡ settled_known claim }
{
    let posed = Problem::pose(claim.given, claim.depth)?;
    let value = units::mirror(claim.estimate, posed.mirrored);
    let units = units::in_units(value, Angle::T, Refusal::BadEstimate)?;
    let tolerance = Tolerance::try_from(claim.n)?;
    let case = Case {
        tested: posed.of,
        units,
        tolerance,
    };
    Ok(case.decide())
}

// The verdict on a claim, or the code of what is out of limits: 1, 2, 3, 4, then 5.
pub fn judge<G: Given>(claim: Claim<G>) -> Judged
    ensures { result ≡ judge_rule claim }
{
    Judged::from(decide(claim))
}

// R62: the verdict on a claim and the least depth that gives it, or the code of what is out of limits: 1, 2, 4, then 5.
pub fn settle<G: Given>(given: G, estimate: f64, n: u32) -> Settled
    ensures { result ≡ settle_rule (G.given given) estimate n }
{
    let depth = Depth::GREATEST;
    Settled::from(decide(Claim {
        given,
        estimate,
        n,
        depth,
    }))
}
