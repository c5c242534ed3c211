// R49: one claim record; R50: its answer byte.
ghost use Rattle.std.specs.Prelude.{◌≡◌, ◌+◌, ◌≤◌, length};
ghost use Rattle.std.specs.Float.{binary64};
ghost use Rattle.std.specs.Float.Ieee.{of_bits};
ghost use Rattle.claims.specs.Form.{value_of};
ghost use Rattle.claims.specs.Record.{claim_from, verdict_known, answer_at};

use crate::form::{Field, Form};
use grid::codes::Refusal;
use judge::{Claim, Verdict};
use orbit::pose::Grid;

// The bits of a double: the weight of its sign, and positive infinity.
const SIGN: u64 = 0x8000_0000_0000_0000;

const INFINITY: u64 = 0x7ff0_0000_0000_0000;

// The double of a bit pattern. A pattern that is above infinity's, its sign taken off, is a NaN's, and of those only
// the value is made.
fn double(bits: u64) -> f64
    ensures { result ≡ of_bits binary64 bits }
{
    if INFINITY < bits % SIGN {
        f64::NAN
    } else {
        f64::from_bits(bits)
    }
}

// A field of a record.
fn value_of(bytes: &[u8], field: Field) -> u64
    requires bytes_in_bounds { field.at + field.bytes ≤ length bytes.now }
    requires bytes_bound { field.bytes ≤ 8 }
    ensures { result ≡ value_of bytes.now 0 field }
{
    little::number_at(bytes, field.at, field.bytes)
}

// One of at most four bytes.
fn word_of(bytes: &[u8], field: Field) -> u32
    requires bytes_in_bounds { field.at + field.bytes ≤ length bytes.now }
    requires bytes_bound { field.bytes ≤ 4 }
    ensures { result ≡ value_of bytes.now 0 field }
{
    value_of(bytes, field) as u32
}

// One record: its bytes, and the form that they are read by.
#[derive(Drop)]
pub struct Record<'a> {
    pub form: Form,
    pub bytes: &'a [u8],
    ghost fits: { form.width ≤ length bytes.now },
}

impl<'a> Record<'a> {
    // R49: what it claims: M and A in units, an estimate in radians, the tolerance and the depth.
    fn claim(&self) -> Claim<Grid>
        ensures { result ≡ claim_from self.now.form self.now.bytes.now 0 }
    {
        let form = self.form;
        Claim {
            given: Grid {
                m: little::signed_word(word_of(self.bytes, form.m)),
                a: word_of(self.bytes, form.a),
            },
            estimate: double(value_of(self.bytes, form.estimate)),
            n: word_of(self.bytes, form.n),
            depth: word_of(self.bytes, form.depth),
        }
    }

    // R50: the verdict on its claim, or why there is none: code 9, then the claim's.
    fn verdict(&self) -> Result<Verdict, Refusal>
        ensures { result ≡ verdict_known self.now.form self.now.bytes.now 0 }
    {
        if value_of(self.bytes, self.form.reserved) != 0 {
            return Err(Refusal::BadReserved);
        }
        let decision = judge::decide(self.claim())?;
        Ok(decision.verdict)
    }

    // R50: its answer byte.
    pub fn answer_byte(&self) -> u8
        ensures { result ≡ answer_at self.now.form self.now.bytes.now 0 }
    {
        match self.verdict() {
            Ok(verdict) => u32::from(verdict) as u8,
            Err(refusal) => refusal.code() as u8,
        }
    }
}
