// Levels of events, days and means against vectors from real arithmetic of more than sixty digits (tools/level_vectors). Each difference is
// shown; the last line counts them.
#![tactic(auto)]

use std::io;

fn main(rt: HostRuntime) -> io::Result<()> {
    script::run(&mut rt.stdin(), &mut rt.stdout(), false)
}
