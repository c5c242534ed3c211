// The program of judge_claims, on an input of one claim too many: it writes nothing.
#![tactic(auto)]

use std::io;

fn main(rt: HostRuntime) -> io::Result<()> {
    claim_file::run(&rt)
}
