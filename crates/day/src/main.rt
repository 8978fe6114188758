// The day program: reads a day file from standard input, and writes a line for each event and a last one for the day or the fault.
//
// `run` works on any reader and writer: of an input whose bytes are known, it writes the report of the file that they are. Of standard input and output
// no contract says which bytes come and go, so there it is assumed: reading hands over the bytes of the input in their order, none left out and none
// twice, and gives none only where the input has ended; `write_all` writes what it is handed, behind what was written before.
#![tactic(auto)]

ghost use Rattle.std.specs.Prelude.{◌≡◌, ◌<◌, ◌≤◌, IfOk, IfSome, OnOk, OnErr, length, take};
ghost use Rattle.std.specs.Io.KnownBytes.{Appends, IsAtEnd};
ghost use Rattle.day_file.specs.Window.{longest_record};
ghost use Rattle.stream.specs.Part.{part, SameRun};
ghost use Rattle.steps.specs.Machine.{coming_reading, is_done, line_for};
ghost use Rattle.steps.specs.Report.{report_of};
ghost use Rattle.day.specs.Turn.{Turned, unused};

use std::io;
use std::io::{Read, Write};
use steps::{Came, Reader};

// What a turn comes to: the reader, where the bytes begin that the step saw, where those begin and end that are not used up, and what came.
#[derive(Clone, Copy)]
struct Turn {
    reader: Reader,
    from: usize,
    at: usize,
    end: usize,
    came: Came,
}

// Sees that enough is held, and makes a step on it. After a failed read the bytes that are not used up stand at the beginning.
fn take_turn<R: Read>(
    input: &mut R,
    room: &mut [u16; 24000],
    held: &mut [u8],
    last: Turn,
) -> io::Result<Turn>
    requires { longest_record ≤ length held.old }
    ensures turned { IfOk result (λ r. Turned held.old last held.new r) }
    ensures failed { OnErr result (take (length (unused last held.old)) held.new ≡ unused last held.old) }
    ensures whole { length held.new ≡ length held.old }
    ensures in_order { IfOk result
        (λ r. SameRun (unused last held.old) (R.remaining input.old) (part held.new r.from r.end) (R.remaining input.new)) }
    ensures input_ended { IfOk result (λ r. (last.end < length held.old → IsAtEnd (R.remaining input.old))
        → r.end < length held.new → IsAtEnd (R.remaining input.new)) }
{
    let need = steps::longest_need(last.reader);
    let rest = stream::hold_enough(input, held, last.at, last.end, need)?;
    let step = steps::step_with(last.reader, &held[rest.at..rest.end], rest.ended, room);
    Ok(Turn {
        reader: step.reader,
        from: rest.at,
        at: rest.at + step.used,
        end: rest.end,
        came: step.came,
    })
}

// Writes the line of what came, if there is one.
fn write_line<W: Write>(out: &mut W, came: Came) -> io::Result<()>
    ensures { OnOk result (Appends (W.contents out.old) (W.contents out.new) (line_for (coming_reading came))) }
{
    let mut line = [0u8; 64];
    let count = steps::put_line(&mut line, came);
    out.write_all(&line[..count])
}

// Takes turns until the last line is written. At first nothing is held, at the end of the buffer. What is printed of an input whose bytes are known is the
// report of the file that they are.
fn run<R: Read, W: Write>(
    input: &mut R,
    out: &mut W,
    room: &mut [u16; 24000],
    held: &mut [u8],
) -> io::Result<()>
    requires { longest_record ≤ length held.old }
    ensures { OnOk result (IfSome (R.remaining input.old) (λ file. Appends (W.contents out.old) (W.contents out.new) (report_of file))) }
{
    let size = held.len();
    let mut turn = Turn {
        reader: steps::fresh(),
        from: size,
        at: size,
        end: size,
        came: Came::Nothing,
    };
    // How many turns there are shows only as the file is read.
    while !steps::is_done(turn.reader) {
        turn = take_turn(input, room, held, turn)?;
        write_line(out, turn.came)?;
    }
    Ok(())
}

// The room for samples is made once.
fn main(rt: HostRuntime) -> io::Result<()> {
    let mut room = [0u16; 24000];
    let mut held = [0u8; 65536];
    run(&mut rt.stdin(), &mut rt.stdout(), &mut room, &mut held)
}
