// The cases of document 01: 'Edges', 'Plausible and false' and every row of 'Refused calls' at its bound, one below and one above. Each line shows
// what came and what should come; the last one counts the differences. One line is wrong on purpose, so that a difference is seen to be counted.
#![tactic(auto)]

use std::io;

fn main(rt: HostRuntime) -> io::Result<()> {
    script::run(&mut rt.stdin(), &mut rt.stdout(), true)
}
