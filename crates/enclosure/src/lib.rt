// The enclosure of a root between two accepted ends, found by halving.
#![tactic(auto)]

ghost use Rattle.std.specs.Prelude.{◌≡◌, ◌≤◌, true, false};
ghost use Rattle.enclosure.specs.Halving.{last_bracket, searched};
ghost use Rattle.enclosure.specs.Enclosure.{refusal, enclosure_known, enclosure_answer, enclosure_rule};
ghost use Rattle.enclosure.specs.Moves.{moves_p, enclosed_by};

use ends::Tested;
use grid::codes::Refusal;
use grid::{Angle, codes};
use orbit::pose::{Given, Posed, Problem};

// A code, and with code 0 the two ends, in units.
#[repr(C)]
#[derive(Clone, Copy, Default)]
pub struct Enclosure {
    pub code: u32,
    pub lower: i32,
    pub upper: i32,
}

// Nothing but a code.
pub fn refused(code: u32) -> Enclosure
    ensures { result ≡ refusal code }
{
    Enclosure {
        code,
        ..Enclosure::default()
    }
}

// The ends that the searches find of what is posed.
#[derive(Clone, Copy, Debug, PartialEq, Eq)]
pub struct Found {
    pub a: Angle,
    pub b: Angle,
}

// Where a search stands.
#[derive(Clone, Copy)]
pub struct Bracket {
    pub p: u64,
    pub q: u64,
}

// R25: the last p and q of a search from 0 to the top: that of a lower end moves p to what is accepted, that of an upper end to
// what is not.
fn last_bracket<P: Tested>(tested: P, upper: bool) -> Bracket
    ensures low { result.p ≤ P.TOP }
    ensures high { result.q ≤ P.TOP }
    ensures last { result ≡ last_bracket (moves_p upper (P.test tested upper (P.last tested))) P.TOP }
{
    let mut p = 0;
    let mut q = P::TOP;
    while q - p > 1 {
        let middle = (p + q) / 2;
        if tested.accepts(middle, upper) != upper {
            p = middle;
        } else {
            q = middle;
        }
    }
    Bracket { p, q }
}

// R26, R27: both searches. The upper end is one where the top is accepted as such.
pub fn find_ends<P: Tested>(tested: P) -> Found
    ensures { result ≡ searched (P.test tested false (P.last tested)) (P.test tested true (P.last tested)) P.TOP }
{
    let a = last_bracket(tested, false).p;
    let b = if tested.accepts(0, true) {
        0
    } else {
        last_bracket(tested, true).q
    };
    Found {
        a: Angle { units: a },
        b: Angle { units: b },
    }
}

// R28, R88: both ends, or the refusal where the top is not accepted as an upper end.
pub fn enclosed<P: Tested>(tested: P, none: Refusal) -> Result<Found, Refusal>
    ensures { result ≡ enclosed_by (P.test tested false (P.last tested)) (P.test tested true (P.last tested)) P.TOP none }
{
    if tested.accepts(P::TOP, true) {
        Ok(find_ends(tested))
    } else {
        Err(none)
    }
}

// R59: the ends a and b that were found, or on the mirror -b and -a.
impl From<Result<Posed<Found>, Refusal>> for Enclosure {
    ghost from_gives = { λ known r. r ≡ enclosure_answer known };

    fn from(known: Result<Posed<Found>, Refusal>) -> Self {
        match known {
            Ok(posed) => {
                let mirrored = posed.mirrored;
                let found = posed.of;
                let (low, high) = if mirrored {
                    (found.b, found.a)
                } else {
                    (found.a, found.b)
                };
                Enclosure {
                    code: codes::DONE,
                    lower: orbit::mirror_angle(low, mirrored),
                    upper: orbit::mirror_angle(high, mirrored),
                }
            }
            Err(refusal) => refused(refusal.code()),
        }
    }
}

// The ends of whatever is given at a depth, or why there are none: code 1, 2, 3, then 6.
#[tactic(auto, unfolding(crate::specs::Enclosure::found_lower, crate::specs::Enclosure::found_upper))]
fn posed_ends<G: Given>(given: G, depth: u32) -> Result<Posed<Found>, Refusal>
    ensures { result ≡ enclosure_known (G.given given) depth }
{
    let posed = Problem::pose(given, depth)?;
    let of = enclosed(posed.of, Refusal::NoUpperEnd)?;
    let mirrored = posed.mirrored;
    Ok(Posed { mirrored, of })
}

// The enclosure of whatever is given at a depth, or its code.
pub fn enclose<G: Given>(given: G, depth: u32) -> Enclosure
    ensures { result ≡ enclosure_rule (G.given given) depth }
{
    Enclosure::from(posed_ends(given, depth))
}
