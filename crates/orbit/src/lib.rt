// A problem, posed once: M and the eccentricity as they are known, and the depth at which it is asked.
#![tactic(auto)]

ghost use Rattle.std.specs.Prelude.{◌≡◌, pos};
ghost use Rattle.whole.specs.Room.{Roomy};
ghost use Rattle.orbit.specs.Mirror.{mirror, mirror_end};

use grid::Angle;
pub use pose::{Cell, Problem};

pub mod pose;

// R59: a number, or on the mirror its negative.
pub fn mirror(z: i64, mirrored: bool) -> i64
    requires { Roomy z }
    ensures { result ≡ mirror mirrored z }
{
    whole::signed(z, !mirrored)
}

// R59: an angle, or on the mirror its negative, as C takes it.
pub fn mirror_angle(angle: Angle, mirrored: bool) -> i32
    ensures { result ≡ mirror mirrored (pos angle) }
{
    mirror(angle.units as i64, mirrored) as i32
}

// R59: which end it is, true for an upper one: on the mirror the ends change places.
pub fn mirror_end(upper: bool, mirrored: bool) -> bool
    ensures { result ≡ mirror_end mirrored upper }
{
    upper != mirrored
}
