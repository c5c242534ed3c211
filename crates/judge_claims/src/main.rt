// Judges the claims of standard input and writes the answer bytes to standard output.
#![tactic(auto)]

use std::io;

fn main(rt: HostRuntime) -> io::Result<()> {
    claim_file::run(&rt)
}
