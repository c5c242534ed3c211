// The C library: every entry, thin over the crate that has its rule. include/stripeawn.h documents them for C.
#![tactic(auto)]

ghost use Rattle.std.specs.Prelude.{◌≡◌, length};
ghost use Rattle.series.specs.Entry.{sine_rule};
ghost use Rattle.cosine.specs.Cosine.{cosine_rule};
ghost use Rattle.orbit.specs.Given.{grid, doubles};
ghost use Rattle.ends.specs.Entry.{lower_rule, upper_rule};
ghost use Rattle.enclosure.specs.Enclosure.{enclosure_rule};
ghost use Rattle.proposal.specs.Propose.{proposal_rule};
ghost use Rattle.judge.specs.Judge.{judge_rule};
ghost use Rattle.judge.specs.Settle.{settle_rule};
ghost use Rattle.distance.specs.Distance.{distance_rule};
ghost use Rattle.step.specs.Entry.{step_rule, judged_rule};
ghost use Rattle.sinh.specs.Entry.{sinh_rule};
ghost use Rattle.flyby.specs.Entry as flyby_ends;
ghost use Rattle.flyby_enclosure.specs.Enclosure as flyby_enclosure;
ghost use Rattle.flyby_judge.specs.Judge as flyby_judge;
ghost use Rattle.claims.specs.Form.{twenty};
ghost use Rattle.claims.specs.Batch.{batch_rule, answers_after};

use claims::Batch;
use distance::Off;
use enclosure::Enclosure;
use ends::End;
use flyby::FlybyGrid;
use judge::{Claim, Judged, Settled};
use orbit::pose::{Doubles, Grid};
use proposal::Proposal;
use series::Bounds;
use step::{JudgedStep, Stepped};

#[unsafe(no_mangle)]
pub extern "C" fn stripeawn_sine(x: u32, depth: u32) -> Bounds
    ensures { result ≡ sine_rule x depth }
{
    series::sine(x, depth)
}

#[unsafe(no_mangle)]
pub extern "C" fn stripeawn_cosine(x: u32, depth: u32) -> Bounds
    ensures { result ≡ cosine_rule x depth }
{
    cosine::cosine(x, depth)
}

#[unsafe(no_mangle)]
pub extern "C" fn stripeawn_lower_end(x: i32, m: i32, a: u32, depth: u32) -> End
    ensures { result ≡ lower_rule x (grid m a) depth }
{
    ends::lower_end(x, Grid { m, a }, depth)
}

#[unsafe(no_mangle)]
pub extern "C" fn stripeawn_upper_end(x: i32, m: i32, a: u32, depth: u32) -> End
    ensures { result ≡ upper_rule x (grid m a) depth }
{
    ends::upper_end(x, Grid { m, a }, depth)
}

#[unsafe(no_mangle)]
pub extern "C" fn stripeawn_lower_end_double(x: i32, m: f64, e: f64, depth: u32) -> End
    ensures { result ≡ lower_rule x (doubles m e) depth }
{
    ends::lower_end(x, Doubles { m, e }, depth)
}

#[unsafe(no_mangle)]
pub extern "C" fn stripeawn_upper_end_double(x: i32, m: f64, e: f64, depth: u32) -> End
    ensures { result ≡ upper_rule x (doubles m e) depth }
{
    ends::upper_end(x, Doubles { m, e }, depth)
}

#[unsafe(no_mangle)]
pub extern "C" fn stripeawn_enclose(m: i32, a: u32, depth: u32) -> Enclosure
    ensures { result ≡ enclosure_rule (grid m a) depth }
{
    enclosure::enclose(Grid { m, a }, depth)
}

#[unsafe(no_mangle)]
pub extern "C" fn stripeawn_enclose_double(m: f64, e: f64, depth: u32) -> Enclosure
    ensures { result ≡ enclosure_rule (doubles m e) depth }
{
    enclosure::enclose(Doubles { m, e }, depth)
}

#[unsafe(no_mangle)]
pub extern "C" fn stripeawn_propose(m: i32, a: u32) -> Proposal
    ensures { result ≡ proposal_rule (grid m a) }
{
    proposal::propose(Grid { m, a })
}

#[unsafe(no_mangle)]
pub extern "C" fn stripeawn_propose_double(m: f64, e: f64) -> Proposal
    ensures { result ≡ proposal_rule (doubles m e) }
{
    proposal::propose(Doubles { m, e })
}

#[unsafe(no_mangle)]
pub extern "C" fn stripeawn_judge(m: i32, a: u32, estimate: f64, n: u32, depth: u32) -> Judged
    ensures { result ≡ judge_rule (record { given = grid m a; estimate = estimate; n = n; depth = depth }) }
{
    let given = Grid { m, a };
    judge::judge(Claim {
        given,
        estimate,
        n,
        depth,
    })
}

#[unsafe(no_mangle)]
pub extern "C" fn stripeawn_judge_double(
    m: f64,
    e: f64,
    estimate: f64,
    n: u32,
    depth: u32,
) -> Judged
    ensures { result ≡ judge_rule (record { given = doubles m e; estimate = estimate; n = n; depth = depth }) }
{
    let given = Doubles { m, e };
    judge::judge(Claim {
        given,
        estimate,
        n,
        depth,
    })
}

#[unsafe(no_mangle)]
pub extern "C" fn stripeawn_settle(m: i32, a: u32, estimate: f64, n: u32) -> Settled
    ensures { result ≡ settle_rule (grid m a) estimate n }
{
    judge::settle(Grid { m, a }, estimate, n)
}

#[unsafe(no_mangle)]
pub extern "C" fn stripeawn_settle_double(m: f64, e: f64, estimate: f64, n: u32) -> Settled
    ensures { result ≡ settle_rule (doubles m e) estimate n }
{
    judge::settle(Doubles { m, e }, estimate, n)
}

#[unsafe(no_mangle)]
pub extern "C" fn stripeawn_distance(m: i32, a: u32, estimate: f64) -> Off
    ensures { result ≡ distance_rule (grid m a) estimate }
{
    distance::distance(Grid { m, a }, estimate)
}

#[unsafe(no_mangle)]
pub extern "C" fn stripeawn_distance_double(m: f64, e: f64, estimate: f64) -> Off
    ensures { result ≡ distance_rule (doubles m e) estimate }
{
    distance::distance(Doubles { m, e }, estimate)
}

#[unsafe(no_mangle)]
pub extern "C" fn stripeawn_step(m: i32, a: u32, estimate: f64, method: u32) -> Stepped
    ensures { result ≡ step_rule m a estimate method }
{
    step::step(Grid { m, a }, estimate, method)
}

#[unsafe(no_mangle)]
pub extern "C" fn stripeawn_step_judged(
    m: i32,
    a: u32,
    estimate: f64,
    method: u32,
    n: u32,
    depth: u32,
) -> JudgedStep
    ensures { result ≡ judged_rule m a estimate method n depth }
{
    step::step_judged(Grid { m, a }, estimate, method, n, depth)
}

#[unsafe(no_mangle)]
pub extern "C" fn stripeawn_flyby_sinh(x: u32) -> Bounds
    ensures { result ≡ sinh_rule x }
{
    sinh::sinh(x)
}

#[unsafe(no_mangle)]
pub extern "C" fn stripeawn_flyby_lower_end(x: u32, m: u32, b: u32) -> End
    ensures { result ≡ flyby_ends.lower_rule x m b }
{
    flyby::lower_end(x, FlybyGrid { m, b })
}

#[unsafe(no_mangle)]
pub extern "C" fn stripeawn_flyby_upper_end(x: u32, m: u32, b: u32) -> End
    ensures { result ≡ flyby_ends.upper_rule x m b }
{
    flyby::upper_end(x, FlybyGrid { m, b })
}

#[unsafe(no_mangle)]
pub extern "C" fn stripeawn_flyby_enclose(m: u32, b: u32) -> Enclosure
    ensures { result ≡ flyby_enclosure.enclosure_rule m b }
{
    flyby_enclosure::enclose(FlybyGrid { m, b })
}

#[unsafe(no_mangle)]
pub extern "C" fn stripeawn_flyby_judge(m: u32, b: u32, estimate: f64, n: u32) -> Judged
    ensures { result ≡ flyby_judge.judge_rule (flyby_judge.claim_of m b estimate n) }
{
    flyby_judge::judge(FlybyGrid { m, b }, estimate, n)
}

#[unsafe(no_mangle)]
pub extern "C" fn stripeawn_judge_claims(claims: &[u8], answers: &mut [u8]) -> Batch
    ensures value { result ≡ batch_rule twenty (length claims.now) (length answers.old) }
    ensures answers_after { answers.new ≡ answers_after twenty claims.now answers.old }
{
    claims::judge_claims(claims, answers)
}
