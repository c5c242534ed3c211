// R5: why a call is refused, with the code of each reason. R6: of those that apply the first of 7, 8, 9, 1, 2, 3, 10, 4, 5, 6, 15, 21
// is answered.
ghost use Rattle.std.specs.Prelude.{◌≡◌, cond, ltb, Ok, Err};
ghost use Rattle.grid.specs.Codes.{number, failed, or, earlier};

use std::error::Error;
use std::fmt;

// The code of a call that is not refused.
pub const DONE: u32 = 0;

#[derive(Clone, Copy, Debug, PartialEq, Eq)]
pub enum Refusal {
    BadM = 1,
    BadA = 2,
    BadDepth = 3,
    BadEstimate = 4,
    BadN = 5,
    NoUpperEnd = 6,
    BadLength = 7,
    ShortAnswers = 8,
    BadReserved = 9,
    BadX = 10,
    NoFlybyEnd = 15,
    BadMethod = 21,
}

impl Refusal {
    pub fn code(self) -> u32
        ensures { result ≡ number (failed self) }
    {
        self as u32
    }
}

impl fmt::Display for Refusal {
    ghost use Rattle.std.specs.Prelude.{Some};
    ghost use Rattle.grid.specs.Messages.{refusal_text};

    ghost output = { λ refusal. Some (refusal_text refusal) };

    fn fmt<W: fmt::Write>(&self, f: &mut fmt::Formatter<W>) -> fmt::Result {
        f.write_str(match self {
            Refusal::BadM => "the mean anomaly is out of its limits",
            Refusal::BadA => "the eccentricity is out of its limits",
            Refusal::BadDepth => "the depth is not 1 to 5",
            Refusal::BadEstimate => "the estimate is out of its limits",
            Refusal::BadN => "the tolerance is above its limit",
            Refusal::NoUpperEnd => "the largest angle is not accepted as an upper end",
            Refusal::BadLength => "the claims are no whole number of records",
            Refusal::ShortAnswers => "there is no room for the answers",
            Refusal::BadReserved => "a reserved byte is not 0",
            Refusal::BadX => "the angle is out of its limits",
            Refusal::NoFlybyEnd => "the largest X is not accepted as an upper end",
            Refusal::BadMethod => "the method is neither 1 nor 2",
        })
    }
}

impl Error for Refusal {}

// A number that is not below its least nor above its limit.
pub fn spanned<R: Copy>(n: u32, least: u32, limit: u32, refusal: R) -> Result<u32, R>
    ensures { result ≡ cond (or (ltb n least) (ltb limit n)) (Err refusal) (Ok n) }
{
    if (least..=limit).contains(&n) {
        Ok(n)
    } else {
        Err(refusal)
    }
}

// A number that is not above its limit.
pub fn limited<R: Copy>(n: u32, limit: u32, refusal: R) -> Result<u32, R>
    ensures { result ≡ cond (ltb limit n) (Err refusal) (Ok n) }
{
    spanned(n, 0, limit, refusal)
}

// The code of two lists of checks, one after the other, where each has its own.
pub fn earlier(code: u32, next: u32) -> u32
    ensures { result ≡ earlier code next }
{
    if code == DONE { next } else { code }
}
