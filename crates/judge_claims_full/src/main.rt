// The program of judge_claims, on the longest input: every verdict and every code that a record can have.
#![tactic(auto)]

use std::io;

fn main(rt: HostRuntime) -> io::Result<()> {
    claim_file::run(&rt)
}
