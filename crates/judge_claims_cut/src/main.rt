// The program of judge_claims, on an input that ends within a record: it writes nothing.
#![tactic(auto)]

use std::io;

fn main(rt: HostRuntime) -> io::Result<()> {
    claim_file::run(&rt)
}
