// Claim records and the batch that judges them.
#![tactic(auto)]

ghost use Rattle.std.specs.Prelude.{◌≡◌, length};
ghost use Rattle.claims.specs.Form.{twenty};
ghost use Rattle.claims.specs.Batch.{coded_count, batch_answer, batch_rule, answers_after};

use form::Form;
use grid::codes;
use grid::codes::Refusal;
use record::Record;

pub mod form;
mod record;

// What a batch returns: its code, and how many claims were answered.
#[repr(C)]
#[derive(Clone, Copy, Default)]
pub struct Batch {
    pub code: u32,
    pub count: u64,
}

impl From<Result<usize, Refusal>> for Batch {
    ghost from_gives = { λ known batch. batch ≡ batch_answer known };

    fn from(known: Result<usize, Refusal>) -> Self {
        match known {
            Ok(count) => Batch {
                code: codes::DONE,
                count: count as u64,
            },
            Err(refusal) => Batch {
                code: refusal.code(),
                ..Batch::default()
            },
        }
    }
}

// R51: how many claims so many bytes hold, where each has a place for its answer among so many, or why they are not counted: code
// 7, then 8.
fn batch_of(form: Form, bytes: usize, room: usize) -> Result<usize, Refusal>
    ensures { result ≡ coded_count form bytes room }
{
    let width = form.width;
    if bytes % width != 0 {
        return Err(Refusal::BadLength);
    }
    let count = bytes / width;
    if room < count {
        return Err(Refusal::ShortAnswers);
    }
    Ok(count)
}

// Judges the records of `claims`, all of one form, writes one byte for each to the start of `answers`, and returns how many: none
// is written where the batch is refused.
pub fn judge_records(form: Form, claims: &[u8], answers: &mut [u8]) -> Result<usize, Refusal>
    ensures value { result ≡ coded_count form (length claims.now) (length answers.old) }
    ensures answers_after { answers.new ≡ answers_after form claims.now answers.old }
{
    let count = batch_of(form, claims.len(), answers.len())?;
    for (i, bytes) in claims.chunks_exact(form.width).enumerate() {
        answers[i] = Record { form, bytes }.answer_byte();
    }
    Ok(count)
}

// R51: the batch over records of 20 bytes.
pub fn judge_claims(claims: &[u8], answers: &mut [u8]) -> Batch
    ensures value { result ≡ batch_rule twenty (length claims.now) (length answers.old) }
    ensures answers_after { answers.new ≡ answers_after twenty claims.now answers.old }
{
    Batch::from(judge_records(form::TWENTY, claims, answers))
}
