// The two end tests: whether an angle is accepted as an end below or above the root.
#![tactic(auto)]

ghost use Rattle.std.specs.Prelude.{◌≡◌, ℕ, ◌≤◌, Bool, T};
ghost use Rattle.std.proofs.Common.{rules};
ghost use Rattle.grid.specs.Grid.{T_units};
ghost use Rattle.ends.specs.Ends.{end_at};
ghost use Rattle.ends.specs.Least.{from_least};
ghost use Rattle.ends.specs.Top.{TopIn};
ghost use Rattle.ends.specs.Entry.{end_known, end_answer, lower_rule, upper_rule};

use grid::codes::Refusal;
use grid::{Angle, codes};
use orbit::pose::{Given, Problem};
use settling::{LowerSide, UpperSide};

mod settling;

// What has ends to be tested: a problem at each depth up to its own, or a flyby, whose tests know no depth.
pub trait Tested: Copy {
    // Whether an end is accepted, upper or lower, at a depth and at an X.
    ghost test: { Self → Bool → ℕ → ℕ → Bool };

    // The depth asked for.
    ghost last: { Self → ℕ };

    ghost TOP: { ℕ };

    // The greatest X that is tested.
    const TOP: u64;

    // The depth asked for, which is never 0.
    fn last_depth(self) -> u32
        ensures value { result ≡ last self }
        ensures some { 1 ≤ result };

    // The least depth that accepts an end; what is accepted stays so.
    fn accepted_from(self, x: u64, upper: bool) -> Option<u32>
        requires { x ≤ TOP }
        ensures least { result ≡ from_least (λ d. test self upper d x) (last self) }
        ensures kept { (l k : ℕ) → l ≤ k → T (test self upper l x) → T (test self upper k x) };

    // Whether the depth asked for accepts it.
    fn accepts(self, x: u64, upper: bool) -> bool
        requires { x ≤ TOP }
        ensures { result ≡ test self upper (last self) x }
    {
        self.accepted_from(x, upper).is_some()
    }

    // There is room for a search, and what it finds has a negative.
    ghost room: { TopIn TOP };
}

impl Tested for Problem {
    ghost test = { λ p upper d x. end_at upper p.cell d x };

    ghost last = { λ p. p.depth };

    ghost TOP = { T_units };

    ghost room = { Prim.search rules };

    const TOP: u64 = grid::T;

    fn last_depth(self) -> u32 {
        let depth = self.depth;
        depth.pairs
    }

    // An upper end's test goes by the greatest M, a lower end's by the least.
    #[inline(always)]
    #[tactic(auto, using(crate::proofs::Corners::deeper))]
    fn accepted_from(self, units: u64, upper: bool) -> Option<u32> {
        let x = Angle { units };
        if upper {
            settling::settle::<UpperSide>(self, x)
        } else {
            settling::settle::<LowerSide>(self, x)
        }
    }
}

// What a public end test answers: accepted is 1 or 0.
#[repr(C)]
#[derive(Clone, Copy, Default)]
pub struct End {
    pub code: u32,
    pub accepted: u32,
}

impl From<Result<bool, Refusal>> for End {
    ghost from_gives = { λ known end. end ≡ end_answer known };

    fn from(known: Result<bool, Refusal>) -> Self {
        match known {
            Ok(accepted) => End {
                code: codes::DONE,
                accepted: u32::from(accepted),
            },
            Err(refusal) => End {
                code: refusal.code(),
                ..End::default()
            },
        }
    }
}

// The end test of whatever is given, of an upper end or of a lower one, or why there is none: code 1, 2, 3, then 10. On the mirror
// x is mirrored, and the other end is tested.
fn end_test<G: Given>(x: i32, given: G, depth: u32, upper: bool) -> Result<bool, Refusal>
    ensures { result ≡ end_known upper x (G.given given) depth }
{
    let posed = Problem::pose(given, depth)?;
    let mirrored = posed.mirrored;
    let angle = Angle::try_from(orbit::mirror(i64::from(x), mirrored))?;
    Ok(
        posed
            .of
            .accepts(angle.units, orbit::mirror_end(upper, mirrored)),
    )
}

// Whether x is an accepted lower end, or its code.
pub fn lower_end<G: Given>(x: i32, given: G, depth: u32) -> End
    ensures { result ≡ lower_rule x (G.given given) depth }
{
    End::from(end_test(x, given, depth, false))
}

// Whether x is an accepted upper end, or its code.
pub fn upper_end<G: Given>(x: i32, given: G, depth: u32) -> End
    ensures { result ≡ upper_rule x (G.given given) depth }
{
    End::from(end_test(x, given, depth, true))
}
