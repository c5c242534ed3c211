// The proposal: where the rotations end, and the certificate that says how near the root is.
#![tactic(auto)]

ghost use Rattle.std.specs.Prelude.{◌≡◌, ◌<◌};
ghost use Rattle.proposal.specs.Certify.{widths, certifies};
ghost use Rattle.proposal.specs.Propose.{proposed, mirror_candidate, proposal_known, proposal_answer, proposal_rule};

use ends::Tested;
use grid::codes::Refusal;
use grid::{Angle, Depth, Eccentricity, Mean, codes};
use orbit::pose::{Cell, Given, Posed, Problem};

// R40: what is proposed. The angle is E; y is near e sin E, and x near e cos E; j is E's certificate.
#[derive(Clone, Copy, Debug, PartialEq, Eq)]
pub struct Candidate {
    pub angle: i32,
    pub y: i64,
    pub x: i64,
    pub j: u32,
}

// The entry's answer: a code, and with code 0 what is proposed.
#[repr(C)]
#[derive(Clone, Copy, Default)]
pub struct Proposal {
    pub code: u32,
    pub angle: i32,
    pub y: i64,
    pub x: i64,
    pub j: u32,
}

// R38: how many widths 2^j there are: the last one reaches from 0 to T.
const WIDTHS: u32 = 31;

// R38: whether both ends of the width 2^j about E are accepted at depth 5.
#[tactic(auto, unfolding(crate::specs::Certify::certifies))]
fn holds(cell: Cell, angle: Angle, j: u32) -> bool
    requires { j < widths }
    ensures { result ≡ certifies cell angle j }
{
    let width = 1u64 << j;
    let units = angle.units;
    let low = grid::step_down(units, width);
    let high = grid::step_up(units, width, grid::T);
    let depth = Depth {
        pairs: Depth::GREATEST,
    };
    Problem { cell, depth }.accepts(low, false) && Problem { cell, depth }.accepts(high, true)
}

// The rotations by M and A rounded down, with E brought into range and certified (R38): the last width always holds. R59: on the
// mirror E and y change their signs, and x does not.
fn conclude(posed: Posed<Cell>) -> Candidate
    ensures { result ≡ mirror_candidate posed.mirrored (proposed posed.of) }
{
    let mirrored = posed.mirrored;
    let cell = posed.of;
    let m = cell.m;
    let a = cell.a;
    let s = rotations::rotate(Mean { units: m.floor }, Eccentricity { units: a.floor });
    let angle = rotations::bring(s.angle);
    let j = (0..WIDTHS).find(move |&j| holds(cell, angle, j)).unwrap();
    Candidate {
        angle: orbit::mirror_angle(angle, mirrored),
        y: orbit::mirror(s.sine, mirrored),
        x: s.cosine,
        j,
    }
}

// What is proposed for whatever is given, or why there is nothing: code 1, then 2.
fn posed_proposal<G: Given>(given: G) -> Result<Candidate, Refusal>
    ensures { result ≡ proposal_known (G.given given) }
{
    Ok(conclude(given.pose()?))
}

impl From<Result<Candidate, Refusal>> for Proposal {
    ghost from_gives = { λ known r. r ≡ proposal_answer known };

    fn from(known: Result<Candidate, Refusal>) -> Self {
        match known {
            Ok(candidate) => Proposal {
                code: codes::DONE,
                angle: candidate.angle,
                y: candidate.y,
                x: candidate.x,
                j: candidate.j,
            },
            Err(refusal) => Proposal {
                code: refusal.code(),
                ..Proposal::default()
            },
        }
    }
}

// Returned: the angle E proposed, y and x of the last rotation, and the certificate j, the smallest width such that the ends
// max(E - 2^j, 0) and min(E + 2^j, T) are accepted at depth 5 (R38). How near E is, j alone says (R39).
// Code: 0 done; 1 M out of its limits; 2 the eccentricity out of its limits. With code 1 or 2 all other numbers are 0.
pub fn propose<G: Given>(given: G) -> Proposal
    ensures { result ≡ proposal_rule (G.given given) }
{
    Proposal::from(posed_proposal(given))
}
