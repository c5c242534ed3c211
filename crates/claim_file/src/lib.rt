// The program that judges a file of claims: standard input to standard output.
#![tactic(auto)]

ghost use Rattle.std.specs.Prelude.{◌≡◌, ◌<◌, ◌≤◌, length, take, IfOk, OnOk, IfSome};
ghost use Rattle.std.specs.Io.{ReadsAtMost};
ghost use Rattle.std.specs.Io.KnownBytes.{Consumes, IsAtEnd, Appends};
ghost use Rattle.claim_file.specs.File.{output, output_in};

use claims::form::TWENTY;
use std::io;
use std::io::{Input, Print, Read, Write};

// The longest input: its claims and its bytes.
const MOST_CLAIMS: usize = 3_276;

const MOST_BYTES: usize = MOST_CLAIMS * TWENTY.width;

// Puts what is written for an input at the start of `answers`, and returns how many bytes that is.
#[tactic(auto, using(crate::proofs::Output::longer))]
pub fn answer_file(input: &[u8], answers: &mut [u8; MOST_CLAIMS]) -> usize
    ensures value { result ≡ length (output input.now) }
    ensures answers_after { answers.new ≡ output_in input.now answers.old }
    ensures within { result ≤ length answers.new }
    ensures prefix_len { result ≡ length (take result answers.new) }
{
    if input.len() > MOST_BYTES {
        return 0;
    }
    claims::judge_records(TWENTY, input, answers).unwrap_or(0)
}

// Reads until `input` is full or the reader has no more bytes, and returns how many stand at the start of `input`.
// `read_to_end` would take a heap, and `read_exact` says nothing of the bytes of a shorter input.
fn read_full<R: Read>(reader: &mut R, input: &mut [u8]) -> io::Result<usize>
    ensures within { ReadsAtMost result input.new }
    ensures bytes { IfOk result (λ n. Consumes (R.remaining reader.old) (R.remaining reader.new) (take n input.new)) }
    ensures end { IfOk result (λ n. n < length input.new → IsAtEnd (R.remaining reader.new)) }
{
    let mut done = 0;
    while done < input.len() {
        let n = reader.read(&mut input[done..])?;
        if n == 0 {
            break;
        }
        done += n;
    }
    Ok(done)
}

// Writes what is written for an input.
fn write_answers<W: Write>(input: &[u8], writer: &mut W) -> io::Result<()>
    ensures { OnOk result (Appends (W.contents writer.old) (W.contents writer.new) (output input.now)) }
{
    let mut answers = [0u8; MOST_CLAIMS];
    let count = answer_file(input, &mut answers);
    writer.write_all(&answers[..count])
}

// R53: judges the bytes that are read. One byte more than the longest input is read, so that a longer one is noticed; then
// no more is waited for. An input that can't be read to its end is not judged.
pub fn judge<R: Read, W: Write>(reader: &mut R, writer: &mut W) -> io::Result<()>
    ensures { OnOk result (IfSome (R.remaining reader.old)
        (λ bytes. Appends (W.contents writer.old) (W.contents writer.new) (output bytes))) }
{
    let mut input = [0u8; MOST_BYTES + 1];
    let n = read_full(reader, &mut input)?;
    write_answers(&input[..n], writer)
}

// Judges standard input.
pub fn run(rt: &(impl Input + Print)) -> io::Result<()> {
    judge(&mut rt.reader(), &mut io::writer(rt))
}
