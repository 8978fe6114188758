// All short lists of movements and peaks against every largest pairing of them, found by trying all pairings (tools/pairing_cases). Each difference is
// shown; the last line counts them. One line is wrong on purpose, so that a difference is seen to be counted.
#![tactic(auto)]

use std::io;

fn main(rt: HostRuntime) -> io::Result<()> {
    script::run(&mut rt.stdin(), &mut rt.stdout(), false)
}
