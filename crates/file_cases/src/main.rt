// Any bytes as day files: each case has a label of 40 bytes, its length in four bytes, and the bytes. A file is read from memory, and by the machine of
// steps in whole, byte by byte and in pieces of seven bytes; what these print is compared with each other. A line shows the label, what the file ends with,
// and what closing the day that it leaves answers at equal calibration levels; a label that begins with '*' shows every line. The last line counts the
// files whose ways of reading differ. The cases are made by tools/file_cases.
#![tactic(auto)]

ghost use Rattle.std.specs.Prelude.{◌≡◌, length};

use arrayvec::ArrayVec;
use closing::Closing;
use ledger::Day;
use quantity::{Level, Refusal};
use std::io;
use std::io::{Read, Write};
use steps::{Came, Reader};

// No run has more cases, and no file takes more steps.
const MOST_CASES: u32 = 10000;

const MOST_STEPS: u32 = 1000000;

// A line of the day program, and all that a file prints. What does not fit is left out.
type Line = ArrayVec<u8, 64>;

type Text = ArrayVec<u8, 4096>;

// A file on its way through the machine: the reader, the bytes that are not used up, and how many of them are delivered.
#[derive(Clone, Copy)]
struct Passage<'a> {
    reader: Reader,
    left: &'a [u8],
    delivered: usize,
}

// Puts the line of what came behind the others.
fn put_line<const N: usize>(text: &mut ArrayVec<u8, N>, came: Came) {
    let mut line = [0u8; 64];
    let count = steps::put_line(&mut line, came);
    let _fits = text.write_all(&line[..count]);
}

// Puts the line of closing a day at equal calibration levels.
fn put_left<const N: usize>(text: &mut ArrayVec<u8, N>, day: Day) {
    let closed = closing::close_day(day, Level(9400), Level(9400));
    put_line(text, Came::Closed(closed.answer));
}

// A step on what is delivered of a file. Where more is needed, a piece more is delivered.
fn take_step<'a>(passage: Passage<'a>, piece: usize, text: &mut Text) -> Passage<'a> {
    let window = &passage.left[..passage.delivered.min(passage.left.len())];
    let step = steps::step(passage.reader, window, window.len() == passage.left.len());
    put_line(text, step.came);
    let used = step.used.min(window.len());
    let held = window.len() - used;
    let left = &passage.left[used..];
    let more = match step.came {
        Came::More => piece.min(left.len() - held),
        _ => 0,
    };
    Passage {
        reader: step.reader,
        left,
        delivered: held + more,
    }
}

// The lines of a file that is delivered in pieces, and of closing the day that it leaves.
fn run_in_pieces(file: &[u8], piece: usize) -> Text {
    let mut text = ArrayVec::new();
    let mut passage = Passage {
        reader: steps::fresh(),
        left: file,
        delivered: 0,
    };
    for _ in 0..MOST_STEPS {
        if steps::is_done(passage.reader) {
            break;
        }
        passage = take_step(passage, piece, &mut text);
    }
    put_left(&mut text, passage.reader.day);
    text
}

// The lines without that of the day that is left.
fn without_left<'a>(text: &'a [u8], left: &[u8]) -> &'a [u8] {
    &text[..text.len().saturating_sub(left.len())]
}

// Whether a file comes to a text byte by byte and in pieces of seven bytes, and the text ends with what reading from memory gives.
fn all_agree(file: &[u8], text: &[u8], last: &[u8], left: &[u8]) -> bool {
    text.ends_with(left)
        && without_left(text, left).ends_with(last)
        && run_in_pieces(file, 1).as_slice() == text
        && run_in_pieces(file, 7).as_slice() == text
}

// What the machine says at the end of a file, by what reading from memory gives.
fn came_of(answer: Result<Result<Closing, Refusal>, Refusal>) -> Came {
    match answer {
        Ok(closed) => Came::Closed(closed),
        Err(refusal) => Came::Fault(refusal),
    }
}

// Writes a case: its label, the last line or each line, and the line of the day that is left.
fn write_case<W: Write>(
    out: &mut W,
    label: &[u8; 40],
    text: &[u8],
    last: &[u8],
    left: &[u8],
) -> io::Result<()> {
    out.write_all(label)?;
    if label[0] == b'*' {
        out.write_all(b"\n")?;
        out.write_all(without_left(text, left))?;
    } else {
        out.write_all(last)?;
    }
    out.write_all(b"    leaves ")?;
    out.write_all(left)
}

// Reads a file in each way, writes what comes of it, and says whether the ways agree.
fn run_file<W: Write>(out: &mut W, label: &[u8; 40], file: &[u8]) -> io::Result<bool> {
    let read = day_file::day_of_file(file);
    let mut last = Line::new();
    put_line(&mut last, came_of(read.answer));
    let mut left = Line::new();
    put_left(&mut left, read.day);
    let text = run_in_pieces(file, file.len());
    write_case(
        out,
        label,
        text.as_slice(),
        last.as_slice(),
        left.as_slice(),
    )?;
    Ok(all_agree(file, text.as_slice(), last.as_slice(), left.as_slice()))
}

// Runs the next case, if there is one, and says whether its ways of reading agree.
fn run_case<R: Read, W: Write>(
    input: &mut R,
    out: &mut W,
    held: &mut [u8],
) -> io::Result<Option<bool>>
    ensures { length held.new ≡ length held.old }
{
    let mut label = [0u8; 40];
    let mut size = [0u8; 4];
    if stream::fill(input, &mut label)? < 40 || stream::fill(input, &mut size)? < 4 {
        return Ok(None);
    }
    let most = (little_endian::four_bytes(&size, 0) as usize).min(held.len());
    let count = stream::fill(input, &mut held[..most])?;
    Ok(Some(run_file(out, &label, &held[..count])?))
}

// Runs each case, and gives the number of those whose ways of reading differ.
fn run_cases<R: Read, W: Write>(input: &mut R, out: &mut W, held: &mut [u8]) -> io::Result<u32> {
    let mut different = 0;
    for case in 0..MOST_CASES {
        let Some(agrees) = run_case(input, out, held)? else {
            break;
        };
        different += u32::from(!agrees);
    }
    Ok(different)
}

fn main(rt: HostRuntime) -> io::Result<()> {
    let mut held = [0u8; 65536];
    let different = run_cases(&mut rt.stdin(), &mut rt.stdout(), &mut held)?;
    println!(rt; "files whose ways of reading differ: {different}")
}
