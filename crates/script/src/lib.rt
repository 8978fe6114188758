// A script of calls, read from an input: each line names a call of an entry point and the answer that should come. Every call is made, and
// what came is compared with what should come.
//
//     LABEL: CALL WORDS = ANSWER          a call; answers that are right are separated by '|', and one that is plausible and wrong stands behind ', not'
//     TEXT                                a line without ':' is a heading
//
// In a call 8000*3 stands for 8000 8000 8000, -6000 for that number in 32 bits, two's complement, and '-' alone for below scale or no Lmax. The calls are told by their first letter: book,
// terminal, after, next, offer, close, spread, highest, week, year, rewrite, verdict, land, pair, mixes, interpolate, degrees; and hour by its first two. The words of
// interpolate and degrees are f64 numbers, each by its bits in 16 hexadecimal digits. An hour is answered by its energy in two halves of 64 bits, the lower
// one first. The numbers lent to mixes, and its count, are 7 before the call; ' beyond' at the end of its answer says that one of the numbers that stay was changed.
#![tactic(auto)]

mod angles;
mod calls;
mod campaigns;
mod hours;
mod pairs;
mod thrusts;

use judging::Progress;
use std::io;
use std::io::{Read, Write};

// A line is shorter than this: 6016 numbers of five digits and their spaces are 36096 bytes, and longer windows are written with '*'.
const LONGEST_LINE: usize = 40960;

// No script has more lines.
const MOST_LINES: u32 = 1000000;

// A script as far as it is run: the day that its calls open and close, and how many calls were made.
#[derive(Drop)]
struct Script<'a, W> {
    out: &'a mut W,
    shows_all: bool,
    day: [u32; 320],
    progress: Progress,
}

impl<'a, W: Write> Script<'a, W> {
    // Writes the label of a call, what came, and what should come.
    fn show(&mut self, label: &[u8], came: &[u8], should: &[u8]) -> io::Result<()> {
        for part in [label, b":", came, b", should be", should, b"\n"] {
            self.out.write_all(part)?;
        }
        Ok(())
    }

    // Makes the call of a line, which stands behind the colon, and counts it. Writes it where its answer is not right, or where every call is shown.
    fn run_call(&mut self, label: &[u8], behind: &[u8]) -> io::Result<()> {
        let equals = judging::place_of(behind, 0, b'=');
        let call = behind.get(1..equals).unwrap_or(&[]);
        let should = behind.get(equals + 1..).unwrap_or(&[]);
        let text = calls::make(&mut self.day, call);
        let came = text.as_bytes();
        let before = self.progress;
        self.progress = judging::with_call(before, came, should);
        if self.shows_all || self.progress.different != before.different {
            self.show(label, came, should)?;
        }
        Ok(())
    }

    // One line: a call, or a heading.
    fn run_line(&mut self, line: &[u8]) -> io::Result<()> {
        let colon = judging::place_of(line, 0, b':');
        if colon < line.len() {
            return self.run_call(&line[..colon], &line[colon + 1..]);
        }
        if self.shows_all {
            self.out.write_all(line)?;
            self.out.write_all(b"\n")?;
        }
        Ok(())
    }

    // Runs every line of the input, read through a buffer.
    fn run_lines<R: Read>(&mut self, input: &mut R, held: &mut [u8]) -> io::Result<()> {
        let mut at = 0;
        let mut end = 0;
        for _ in 0..MOST_LINES {
            // A read that gave nothing is tried again: more may come from a terminal.
            if end - at < LONGEST_LINE {
                end = stream::refill(input, held, at, end)?;
                at = 0;
            }
            if at == end {
                break;
            }
            let left = &held[at..end];
            let length = judging::place_of(left, 0, b'\n');
            self.run_line(&left[..length])?;
            at = (at + length + 1).min(end);
        }
        Ok(())
    }
}

// Runs the script on the input. Writes every call, or those alone whose answer is not right, and last the number of calls and of differences.
pub fn run<R: Read, W: Write>(input: &mut R, out: &mut W, shows_all: bool) -> io::Result<()> {
    let mut held = [0u8; 65536];
    let mut script = Script {
        out,
        shows_all,
        day: [0u32; 320],
        progress: Progress {
            calls: 0,
            different: 0,
        },
    };
    script.run_lines(input, &mut held)?;
    let progress = script.progress;
    writeln!(
        out,
        "{} calls, {} different",
        progress.calls, progress.different
    )
}
