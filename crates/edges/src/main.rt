// Answers the lines of document 01's checks at the edges, which stand in `stdin` beside it.
#![tactic(auto)]

use std::io;

fn main(rt: HostRuntime) -> io::Result<()> {
    stream::run(&mut rt.stdin(), &mut rt.stdout())
}
