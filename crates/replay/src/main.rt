// Answers the lines of the comparison with the original: the stored sample, and what oracle/compare gives it.
#![tactic(auto)]

use std::io;

fn main(rt: HostRuntime) -> io::Result<()> {
    stream::run(&mut rt.stdin(), &mut rt.stdout())
}
