// The level at a thrust, for many tables, against its bits by another implementation of IEEE 754 (tools/thrust_vectors). Each difference is shown; the last
// line counts them. One line is wrong on purpose, so that a difference is seen to be counted.
#![tactic(auto)]

use std::io;

fn main(rt: HostRuntime) -> io::Result<()> {
    script::run(&mut rt.stdin(), &mut rt.stdout(), false)
}
