// The enclosure of a flyby's root between two accepted ends, found by halving.
#![tactic(auto)]

ghost use Rattle.std.specs.Prelude.{◌≡◌};
ghost use Rattle.flyby_enclosure.specs.Enclosure.{enclosure_known, enclosure_rule};

use enclosure::{Enclosure, Found};
use flyby::{Flyby, FlybyGrid};
use grid::codes::Refusal;
use orbit::pose::Posed;

// R88: the ends of a flyby, which nothing mirrors, or why there are none: code 1, 2, then 15, where the top is not accepted as an
// upper end.
#[tactic(auto, unfolding(crate::specs::Enclosure::found_lower, crate::specs::Enclosure::found_upper))]
fn posed_ends(given: FlybyGrid) -> Result<Posed<Found>, Refusal>
    ensures { result ≡ enclosure_known given.m given.b }
{
    let flyby = Flyby::try_from(given)?;
    let of = enclosure::enclosed(flyby, Refusal::NoFlybyEnd)?;
    Ok(Posed {
        mirrored: false,
        of,
    })
}

// R88: the enclosure of M and B, or its code.
pub fn enclose(given: FlybyGrid) -> Enclosure
    ensures { result ≡ enclosure_rule given.m given.b }
{
    Enclosure::from(posed_ends(given))
}
