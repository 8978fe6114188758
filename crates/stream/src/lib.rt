// Reading through a buffer of fixed size: what is not used up stays, in its order, and what is free is filled again.
#![tactic(auto)]

ghost use Rattle.std.specs.Prelude.{◌≡◌, ◌+◌, ◌-◌, ◌<◌, ◌≤◌, false, IsTrue, IfOk, OnErr, Ok, min, ltb, length, take, drop};
ghost use Rattle.std.specs.Io.KnownBytes.{Consumes, IsAtEnd};
ghost use Rattle.stream.specs.Part.{part, SameRun};

use std::io;
use std::io::Read;

// One read into what is free behind a place.
fn read_behind<R: Read>(input: &mut R, held: &mut [u8], at: usize) -> io::Result<usize>
    requires { at < length held.old }
    ensures held_after { take at held.new ≡ take at held.old }
    ensures size { IfOk result (λ n. at + n ≤ length held.new) }
    ensures whole { length held.new ≡ length held.old }
    ensures bytes { IfOk result (λ n. Consumes (R.remaining input.old) (R.remaining input.new) (take n (drop at held.new))) }
    ensures end { IfOk result (λ n. n ≡ 0 → IsAtEnd (R.remaining input.new)) }
{
    input.read(&mut held[at..])
}

// Fills a buffer from a place on, until it is full or the input has ended, and gives the number of bytes that are held then. The bytes before
// the place stay, after a failed read too.
fn fill_from<R: Read>(input: &mut R, held: &mut [u8], from: usize) -> io::Result<usize>
    requires { from ≤ length held.old }
    ensures held_after { take from held.new ≡ take from held.old }
    ensures size { IfOk result (λ n. (from ≤ n) × (n ≤ length held.new)) }
    ensures whole { length held.new ≡ length held.old }
    ensures bytes { IfOk result (λ n. Consumes (R.remaining input.old) (R.remaining input.new) (drop from (take n held.new))) }
    ensures end { IfOk result (λ n. n < length held.new → IsAtEnd (R.remaining input.new)) }
{
    // Each turn goes on by what one read gave, which no iterator knows.
    let mut at = from;
    while at < held.len() {
        let count = read_behind(input, held, at)?;
        if count == 0 {
            return Ok(at);
        }
        at += count;
    }
    Ok(at)
}

// Fills a buffer from the input, until it is full or the input has ended, and gives the number of bytes that were read.
pub fn fill<R: Read>(input: &mut R, held: &mut [u8]) -> io::Result<usize>
    ensures size { IfOk result (λ n. n ≤ length held.new) }
    ensures whole { length held.new ≡ length held.old }
    ensures bytes { IfOk result (λ n. Consumes (R.remaining input.old) (R.remaining input.new) (take n held.new)) }
    ensures end { IfOk result (λ n. n < length held.new → IsAtEnd (R.remaining input.new)) }
{
    fill_from(input, held, 0)
}

// Moves the bytes from a place up to another to the beginning, fills what is free behind them from the input, and gives the number of bytes that
// are held then. It is below the buffer's length only where the input has ended. After a failed read these bytes stand at the beginning, and
// behind them whatever the reads have left there.
pub fn refill<R: Read>(input: &mut R, held: &mut [u8], from: usize, to: usize) -> io::Result<usize>
    ensures held_after { take (length (part held.old from to)) held.new ≡ part held.old from to }
    ensures size { IfOk result (λ n. (length (part held.old from to) ≤ n) × (n ≤ length held.new)) }
    ensures whole { length held.new ≡ length held.old }
    ensures in_order { IfOk result (λ n. SameRun (part held.old from to) (R.remaining input.old) (take n held.new) (R.remaining input.new)) }
    ensures end { IfOk result (λ n. n < length held.new → IsAtEnd (R.remaining input.new)) }
{
    let end = to.min(held.len());
    let start = from.min(end);
    held.copy_within(start..end, 0);
    fill_from(input, held, end - start)
}

// The bytes of a buffer that are not used up yet, from a place up to another, and whether the input ends with them.
#[derive(Clone, Copy)]
pub struct Rest {
    pub at: usize,
    pub end: usize,
    // Both places hold either way, and a step is told the end as a flag.
    pub ended: bool,
}

// Sees that as many bytes as are needed are held, or as the buffer has room for, or all that is left of the input: its end is seen by the bytes ending
// before the buffer does. The bytes that are not used up yet stay, in their order; after a failed read they stand at the beginning. At first there
// are none, at the end of the buffer.
pub fn hold_enough<R: Read>(
    input: &mut R,
    held: &mut [u8],
    at: usize,
    end: usize,
    need: usize,
) -> io::Result<Rest>
    ensures held_after { IfOk result (λ r. take (length (part held.old at end)) (drop r.at held.new) ≡ part held.old at end) }
    ensures failed { OnErr result (take (length (part held.old at end)) held.new ≡ part held.old at end) }
    ensures size { IfOk result (λ r. (r.at + length (part held.old at end) ≤ r.end) × (r.end ≤ length held.new)) }
    ensures whole { length held.new ≡ length held.old }
    ensures ended { IfOk result (λ r. r.ended ≡ ltb r.end (length held.new)) }
    ensures enough { IfOk result (λ r. r.ended ≡ false → min need (length held.new) ≤ r.end - r.at) }
    ensures in_order { IfOk result
        (λ r. SameRun (part held.old at end) (R.remaining input.old) (part held.new r.at r.end) (R.remaining input.new)) }
    ensures input_ended { IfOk result (λ r. (end < length held.old → IsAtEnd (R.remaining input.old))
        → r.end < length held.new → IsAtEnd (R.remaining input.new)) }
{
    let last = end.min(held.len());
    let first = at.min(last);
    if last < held.len() || need <= last - first {
        return Ok(Rest {
            at: first,
            end: last,
            ended: last < held.len(),
        });
    }
    let filled = refill(input, held, first, last)?;
    Ok(Rest {
        at: 0,
        end: filled,
        ended: filled < held.len(),
    })
}
