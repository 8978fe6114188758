// The reader of day files for C and Rust: a file from any transport, in whatever pieces it comes. The reader is 336 words that the caller lends: any
// words make a reader, and the words of a reader stand for that very reader.
#![tactic(auto)]

ghost use Rattle.std.specs.Prelude.{◌≡◌, ◌++◌, ◌-◌, ◌≤◌, length, replicate, take};
ghost use Rattle.day_words.specs.Words.{word_count, day_words, day_from};
ghost use Rattle.offering.specs.Offer.{offer_outcome};
ghost use Rattle.closing.specs.Close.{close_outcome};
ghost use Rattle.steps.specs.Machine.{fresh_reader, coming_reading};
ghost use Rattle.c_reader.specs.Words.{stage_number, stage_from, place_words, reader_words, reader_from};
ghost use Rattle.c_reader.specs.Calls.{came_number, event_numbers, close_numbers, numbers_for, step_leaves};

use closing::Closing;
use ledger::Day;
use offering::Accepted;
use quantity::{Level, Refusal};
use steps::{Came, Reader, Stage};

// Where the words of a reader stand that are behind those of its day.
const STAGE: usize = 320;

const BEFORE: usize = 321;

const AFTER: usize = 322;

const COUNT: usize = 323;

const DONE: usize = 324;

// A stage as a word, and back. Functions and no From: the type is of another crate, and the word is of the reader alone.
fn stage_number(stage: Stage) -> u32
    ensures { result ≡ stage_number stage }
{
    match stage {
        Stage::Fresh => 0,
        Stage::Events => 1,
        Stage::Ended => 2,
    }
}

fn stage_from(n: u32) -> Stage
    ensures { result ≡ stage_from n }
{
    match n {
        0 => Stage::Fresh,
        1 => Stage::Events,
        _ => Stage::Ended,
    }
}

// The first numbers of some, the rest of which are 0.
fn padded<const N: usize>(first: &[u32]) -> [u32; N]
    requires { length first.now ≤ N }
    ensures { result ≡ first.now ++ replicate (N - length first.now) 0 }
{
    let mut numbers = [0; N];
    numbers[..first.len()].copy_from_slice(first);
    numbers
}

// The sixteen words behind those of the day.
fn place_words(reader: Reader) -> [u32; 16]
    ensures { result ≡ place_words reader }
{
    padded(&[
        stage_number(reader.stage),
        reader.before.0,
        reader.after.0,
        reader.count as u32,
        reader.done as u32,
    ])
}

// The words of its day.
fn words_of(day: Day) -> [u32; 320]
    ensures { result ≡ day_words day }
{
    let mut first = [0; 320];
    day_words::encode(day, &mut first);
    first
}

// Writes the words of a reader.
#[tactic(auto, unfolding(crate::specs::Words::reader_words))]
fn encode(reader: Reader, words: &mut [u32; 336])
    ensures { words.new ≡ reader_words reader }
{
    let (day, place) = words.split_at_mut(STAGE);
    day.copy_from_slice(&words_of(reader.day));
    place.copy_from_slice(&place_words(reader));
}

// The day that the first words stand for.
fn day_of(words: &[u32; 336]) -> Day
    ensures { result ≡ day_from (take word_count words.now) }
{
    let mut first = [0; 320];
    first.copy_from_slice(&words[..STAGE]);
    day_words::decode(&first)
}

// The reader that some words stand for.
#[tactic(auto, unfolding(crate::specs::Words::reader_from))]
fn decode(words: &[u32; 336]) -> Reader
    ensures { result ≡ reader_from words.now }
{
    Reader {
        stage: stage_from(words[STAGE]),
        day: day_of(words),
        before: Level(words[BEFORE]),
        after: Level(words[AFTER]),
        count: (words[COUNT] % 65536) as u16,
        done: (words[DONE] % 65536) as u16,
    }
}

// What came, by the number that C is told.
fn came_number(came: Came) -> u8
    ensures { result ≡ came_number (coming_reading came) }
{
    match came {
        Came::More => 0,
        Came::Started => 1,
        Came::Answered { number, answer } => 2,
        Came::Closed(answer) => 3,
        Came::Fault(refusal) => 4,
        Came::Nothing => 5,
    }
}

fn event_numbers(number: u32, answer: Result<Accepted, Refusal>) -> [u32; 8]
    ensures { result ≡ event_numbers number (offer_outcome answer) }
{
    match answer {
        Err(refusal) => padded(&[u8::from(refusal) as u32, number]),
        Ok(Accepted { exposure, lmax }) => {
            padded(&[0, number, c_interface::level_bits(exposure), lmax.0])
        }
    }
}

fn close_numbers(answer: Result<Closing, Refusal>) -> [u32; 8]
    ensures { result ≡ close_numbers (close_outcome answer) }
{
    match answer {
        Err(refusal) => padded(&[u8::from(refusal) as u32]),
        Ok(closing) => [
            0,
            c_interface::level_bits(closing.answer.level),
            u8::from(closing.answer.method) as u32,
            closing.day_events,
            closing.night_events,
            c_interface::highest_number(closing.highest),
            c_interface::level_bits(closing.lowest_ldn),
            c_interface::level_bits(closing.highest_ldn),
        ],
    }
}

fn numbers_of(came: Came) -> [u32; 8]
    ensures { result ≡ numbers_for (coming_reading came) }
{
    match came {
        Came::Answered { number, answer } => event_numbers(number, answer),
        Came::Closed(answer) => close_numbers(answer),
        Came::Fault(refusal) => padded(&[u8::from(refusal) as u32]),
        Came::More | Came::Started | Came::Nothing => [0; 8],
    }
}

// Opens a reader: that of a file of which nothing is read.
pub fn moatburdock_open_reader(reader: &mut [u32; 336])
    ensures { reader.new ≡ reader_words fresh_reader }
{
    encode(steps::fresh(), reader);
}

// A step of a reader: `window` holds the bytes of the file that are not used up yet, as many as there are at hand, and `ended` says that the file ends
// with them. Answers what came, and gives how many bytes are used up, the numbers of what came, and its line.
pub fn moatburdock_read_step(
    reader: &mut [u32; 336],
    window: &[u8],
    ended: bool,
    used: &mut usize,
    numbers: &mut [u32; 8],
    line: &mut [u8; 64],
    size: &mut usize,
) -> u8
    ensures { record {
      answer = result;
      lent = record {
        reader = reader.new;
        used = used.new;
        numbers = numbers.new;
        line = line.new;
        size = size.new;
      };
    }
        ≡ step_leaves
        reader.old line.old window.now ended }
{
    let stepped = steps::step(decode(reader), window, ended);
    encode(stepped.reader, reader);
    *used = stepped.used;
    *numbers = numbers_of(stepped.came);
    *size = steps::put_line(line, stepped.came);
    came_number(stepped.came)
}
