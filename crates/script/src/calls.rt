// The calls of a script, made through the functions that C calls: each takes its arguments from the numbers of a line.
use crate::{angles, campaigns, hours, pairs, thrusts};
use script_text::answers::{Answer, Finding, Level, Lmax, Margin, Text};
use script_text::numbers;
use script_text::numbers::{Numbers, in_8_bits, in_16_bits};
use script_text::words::Values;
use std::fmt::Display;

// A call has at most this many records.
const MOST_RECORDS: usize = 400;

// Where the method of a record begins.
const UPPER: u64 = 4294967296;

// 'A', or 'R' and the number of the refusal, as C has it.
pub fn answered(answer: u8) -> Text {
    Text::new().with(Answer(answer))
}

// The same, and then more where there is no refusal.
pub fn answered_with<F: FnOnce(Text) -> Text>(answer: u8, more: F) -> Text
    requires { F.IsAlwaysCallable more }
{
    let text = answered(answer);
    if answer == 0 { more(text) } else { text }
}

// The same, and then what was lent: where there is a refusal, only if that is not what stood there before.
pub fn answered_in<D: Display + Drop>(answer: u8, changed: bool, lent: D) -> Text {
    let text = answered(answer);
    if answer == 0 || changed {
        return text.with(lent);
    }
    text
}

// The level of a record.
fn level_of(day_record: u64) -> Level {
    Level(((day_record % UPPER) as u32).cast_signed())
}

// The settings that document 01 has.
const RATE: u32 = 10;

const FIRST_DAYTIME_TICK: u32 = 216000;

const LAST_DAYTIME_TICK: u32 = 791999;

// What a day is opened with beside its book.
#[derive(Clone, Copy)]
struct Opening {
    rate: u32,
    first: u32,
    last: u32,
    end: i32,
}

// The end where the day before has no stretch. A rate that is not listed here is refused, whatever the end is.
fn no_end(rate: u32) -> i32 {
    match rate {
        10 => -6000,
        20 => -12000,
        _ => -24000,
    }
}

// Opens a day in words that are 0, so that a refused opening leaves a day of no class. The flights by day are the numbers from a place on.
fn open(day: &mut [u32; 320], opening: Opening, numbers: &Numbers, from: usize) -> Text {
    let mut flights = Values::new();
    flights.take_all(numbers, in_16_bits);
    *day = [0u32; 320];
    answered(c_interface::moatburdock_open_day(
        day,
        opening.rate,
        opening.first,
        opening.last,
        opening.end,
        flights.before_slash(from),
        flights.behind_slash(),
    ))
}

// book DAY FLIGHTS / NIGHT FLIGHTS: with the settings of document 01
fn open_before(day: &mut [u32; 320], numbers: &Numbers) -> Text {
    let opening = Opening {
        rate: RATE,
        first: FIRST_DAYTIME_TICK,
        last: LAST_DAYTIME_TICK,
        end: no_end(RATE),
    };
    open(day, opening, numbers, 0)
}

// terminal RATE FIRST LAST DAY FLIGHTS / NIGHT FLIGHTS
fn open_terminal(day: &mut [u32; 320], numbers: &Numbers) -> Text {
    let opening = Opening {
        rate: numbers.at(0),
        first: numbers.at(1),
        last: numbers.at(2),
        end: no_end(numbers.at(0)),
    };
    open(day, opening, numbers, 3)
}

// after END RATE FIRST LAST DAY FLIGHTS / NIGHT FLIGHTS: with the end of the day before
fn open_after(day: &mut [u32; 320], numbers: &Numbers) -> Text {
    let opening = Opening {
        rate: numbers.at(1),
        first: numbers.at(2),
        last: numbers.at(3),
        end: numbers.at(0).cast_signed(),
    };
    open(day, opening, numbers, 4)
}

// next: the end to open the next day with
fn end_for_next_day(day: &[u32; 320]) -> Text {
    answered(0).with(c_interface::moatburdock_end_for_next_day(day))
}

// offer START CLASS WIND WET BACKGROUND TOLERANCE / SAMPLES: without a tolerance it is 0
fn offer(day: &mut [u32; 320], numbers: &Numbers) -> Text {
    let tolerance = numbers.before_slash(5).first().copied().unwrap_or(0);
    let mut samples = Values::new();
    samples.take_all(numbers, in_16_bits);
    let mut exposure = 0;
    let mut lmax = 0;
    let answer = c_interface::moatburdock_offer(
        day,
        numbers.at(0).cast_signed(),
        in_8_bits(numbers.at(1)),
        in_16_bits(numbers.at(2)),
        numbers.at(3) != 0,
        numbers.at(4),
        in_16_bits(tolerance),
        samples.behind_slash(),
        &mut exposure,
        &mut lmax,
    );
    answered_with(answer, |text| text.with(Level(exposure)).with(Lmax(lmax)))
}

// What a closing answers, and what it leaves in what it was lent.
#[derive(Clone, Copy)]
struct Closed {
    answer: u8,
    day_record: u64,
    lowest_ldn: i32,
    highest_ldn: i32,
    counts: [u32; 3],
    highest_by_class: [u32; 16],
}

// Closes a day at the calibration levels of a line. Before the call 7 stands in the place of the lowest and of the highest Ldn, and of each class.
fn close_day(day: &[u32; 320], numbers: &Numbers) -> Closed {
    let mut day_record = 0;
    let mut lowest_ldn = 7;
    let mut highest_ldn = 7;
    let mut counts = [0u32; 3];
    let mut highest_by_class = [7u32; 16];
    let answer = c_interface::moatburdock_close_day(
        day,
        numbers.at(0),
        numbers.at(1),
        &mut day_record,
        &mut lowest_ldn,
        &mut highest_ldn,
        &mut counts,
        &mut highest_by_class,
    );
    Closed {
        answer,
        day_record,
        lowest_ldn,
        highest_ldn,
        counts,
        highest_by_class,
    }
}

// close BEFORE AFTER
fn close(day: &[u32; 320], numbers: &Numbers) -> Text {
    let closed = close_day(day, numbers);
    let record = closed.day_record;
    let [by_day, by_night, lmax] = closed.counts;
    answered_with(closed.answer, |text| {
        text.with(level_of(record))
            .with(record / UPPER)
            .with(by_day)
            .with(by_night)
            .with(Lmax(lmax))
    })
}

// spread BEFORE AFTER: closes, and shows what then stands in the place of the lowest and of the highest Ldn
fn spread(day: &[u32; 320], numbers: &Numbers) -> Text {
    let closed = close_day(day, numbers);
    answered(closed.answer)
        .with(Level(closed.lowest_ldn))
        .with(Level(closed.highest_ldn))
}

// highest BEFORE AFTER: closes, and shows what then stands in the place of each class
fn highest_by_class(day: &[u32; 320], numbers: &Numbers) -> Text {
    let closed = close_day(day, numbers);
    let mut text = answered(closed.answer);
    for lmax in closed.highest_by_class {
        text = text.with(Lmax(lmax));
    }
    text
}

// The record of a day with a level of these bits, by method one.
fn record_of(bits: u32) -> u64 {
    UPPER + u64::from(bits)
}

// The records of days, whose levels are the numbers from a place on.
fn records_from<const N: usize>(numbers: &Numbers, from: usize) -> [u64; N] {
    let mut records = [record_of(0); N];
    for (i, record) in records.iter_mut().enumerate() {
        *record = record_of(numbers.at(from.saturating_add(i)));
    }
    records
}

// week LEVELS, and year LEVELS
fn mean<F: FnOnce(&[u64], &mut i32) -> u8>(numbers: &Numbers, form: F) -> Text
    requires { F.IsAlwaysCallable form }
{
    let records = records_from::<MOST_RECORDS>(numbers, 0);
    let lent = records.get(..numbers.all().len()).unwrap_or(&[]);
    let mut level = 0;
    let answer = form(lent, &mut level);
    answered_with(answer, |text| text.with(Level(level)))
}

// rewrite PLACE LEVEL READ / SEVEN LEVELS: the record at PLACE gets LEVEL, then the level of the one at READ is read
fn rewrite(numbers: &Numbers) -> Text {
    let mut records = records_from::<7>(numbers, 3);
    let place = numbers.at(0) as usize;
    let answer = c_interface::moatburdock_rewrite_record(
        &mut records,
        place,
        record_of(numbers.at(1)),
    );
    let mut found = 0;
    let at = numbers.at(2) as usize;
    let read = c_interface::moatburdock_read_record(&records, at, &mut found);
    if read != 0 {
        return answered(answer).with(Answer(read));
    }
    answered(answer).with(level_of(found))
}

// verdict CLASS LEVEL SENSITIVE LMAX
fn verdict(numbers: &Numbers) -> Text {
    let mut finding = 0;
    let mut margin = 0;
    let answer = c_interface::moatburdock_verdict(
        in_8_bits(numbers.at(0)),
        numbers.at(1).cast_signed(),
        numbers.at(2) != 0,
        numbers::lmax(numbers.at(3)),
        &mut finding,
        &mut margin,
    );
    answered_with(
        answer,
        |text| text.with(Finding(finding)).with(Margin(margin)),
    )
}

// land LETTER DIGIT, as ASCII codes
fn land_class(numbers: &Numbers) -> Text {
    let mut class = 0;
    let answer = c_interface::moatburdock_land_class(
        in_8_bits(numbers.at(0)),
        in_8_bits(numbers.at(1)),
        &mut class,
    );
    answered_with(answer, |text| text.with(class))
}

// Makes a call, told by its first letter, and hour from highest by the second.
pub fn make(day: &mut [u32; 320], call: &[u8]) -> Text {
    let mut numbers = Numbers::new();
    numbers::read(call, &mut numbers);
    match call {
        [b'b', ..] => open_before(day, &numbers),
        [b't', ..] => open_terminal(day, &numbers),
        [b'a', ..] => open_after(day, &numbers),
        [b'n', ..] => end_for_next_day(day),
        [b'o', ..] => offer(day, &numbers),
        [b'c', ..] => close(day, &numbers),
        [b's', ..] => spread(day, &numbers),
        [b'h', b'o', ..] => hours::energy_of_hour(day, &numbers),
        [b'h', ..] => highest_by_class(day, &numbers),
        [b'w', ..] => mean(&numbers, c_interface::moatburdock_week_mean),
        [b'y', ..] => mean(&numbers, c_interface::moatburdock_year_mean),
        [b'r', ..] => rewrite(&numbers),
        [b'v', ..] => verdict(&numbers),
        [b'l', ..] => land_class(&numbers),
        [b'p', ..] => pairs::pair(&numbers),
        [b'm', ..] => campaigns::mixes(&numbers),
        [b'i', ..] => thrusts::interpolate(call),
        [b'd', ..] => angles::degrees(call),
        _ => Text::new(),
    }
}
