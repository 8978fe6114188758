// How many mixes pass, for small books against the lists tried one by one and for large ones against a product of polynomials (tools/mix_cases). Each
// difference is shown; the last line counts them. One line is wrong on purpose, so that a difference is seen to be counted.
#![tactic(auto)]

use std::io;

fn main(rt: HostRuntime) -> io::Result<()> {
    script::run(&mut rt.stdin(), &mut rt.stdout(), false)
}
