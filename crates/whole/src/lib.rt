// The sign and the size of a whole number, beside the definitions and laws that every other crate cites.
#![tactic(auto)]

ghost use Rattle.std.specs.Prelude.{◌≡◌, nat_abs};
ghost use Rattle.whole.specs.Sign.{signed_by, negative};
ghost use Rattle.whole.specs.Room.{Roomy};

// z, or its negative.
pub fn signed(z: i64, plus: bool) -> i64
    requires { Roomy z }
    ensures { result ≡ signed_by plus z }
{
    if plus { z } else { -z }
}

// Whether z is below 0.
pub fn negative(z: i32) -> bool
    ensures { result ≡ negative z }
{
    z.is_negative()
}

// How far z is from 0. Unsigned, since the least number has a size that no i32 holds.
pub fn size(z: i32) -> u32
    ensures { result ≡ nat_abs z }
{
    z.unsigned_abs()
}
