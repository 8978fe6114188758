// The entry points for C and Rust: on numbers, and with the day as 320 words that the caller lends. Each that can be refused answers 0 or the number of
// the refusal, and a refused call leaves all that it was lent as it was. Levels are hundredths of a decibel; BELOW_SCALE stands for 'below scale', and NO_LMAX for no Lmax.
#![tactic(auto)]

ghost use Rattle.std.specs.Prelude.{◌≡◌, ◌+◌, ◌*◌, ◌<◌, ◌≤◌};
ghost use Rattle.quantity.specs.Answers.{reading, method_number, highest_reading};
ghost use Rattle.quantity.specs.Instants.{ticks_of};
ghost use Rattle.quantity.specs.Lent.{leaves};
ghost use Rattle.ledger.specs.Day.{opening_of, levels_by_class};
ghost use Rattle.mean.specs.Mean.{mean_outcome, mean_of};
ghost use Rattle.land.specs.Answers.{finding_reading};
ghost use Rattle.pairing.specs.Pairing.{instants};
ghost use Rattle.c_interface.specs.Numbers.{
  level_from,
  level_number,
  level_bits,
  highest_from,
  highest_number,
  class_numbers,
  upper,
  record_number,
  record_level,
  record_levels,
  finding_number,
};
ghost use Rattle.c_interface.specs.Calls.{
  open_leaves,
  offering_as,
  offer_leaves,
  end_given,
  energy_given,
  close_leaves,
  week_leaves,
  year_leaves,
  read_leaves,
  rewrite_leaves,
  verdict_leaves,
  PairLeaves,
  class_leaves,
};

use admission::Recording;
use land::Finding;
use quantity::{DayAnswer, Level, Reading, Refusal, SignedLevel, Tick, Tolerance};

// What stands for 'below scale': the lowest number of 32 bits, which is under every level.
const BELOW_SCALE: i32 = i32::MIN;

// What stands for no Lmax.
const NO_LMAX: u32 = u32::MAX;

// What stands for no margin.
const NO_MARGIN: i32 = i32::MAX;

// The upper 32 bits of a number of 64 begin here: the method of a record, and every second limb of an energy.
const UPPER: u64 = 4294967296;

// What C is given in place of an enum or an Option, and reads back. Functions and no From: the types are of other crates, and these numbers are for C alone.
fn level_from(n: i32) -> Reading
    ensures { reading result ≡ level_from n }
{
    if BELOW_SCALE < n {
        Reading::At(SignedLevel(n))
    } else {
        Reading::BelowScale
    }
}

fn level_number(level: Reading) -> i32
    ensures { result ≡ level_number (reading level) }
{
    match level {
        Reading::At(at) => at.0,
        Reading::BelowScale => BELOW_SCALE,
    }
}

// The 32 bits of a level's number, as a record and a step of the reader hold it.
pub fn level_bits(level: Reading) -> u32
    ensures { result ≡ level_bits (reading level) }
{
    quantity::bits_of(level_number(level))
}

fn highest_from(n: u32) -> Option<Level>
    ensures { highest_reading result ≡ highest_from n }
{
    (n != NO_LMAX).then_some(Level(n))
}

pub fn highest_number(highest: Option<Level>) -> u32
    ensures { result ≡ highest_number (highest_reading highest) }
{
    highest.map_or(NO_LMAX, |at| at.0)
}

// The highest Lmax of each class.
fn class_numbers(levels: [Option<Level>; 16]) -> [u32; 16]
    ensures { result ≡ class_numbers (levels_by_class levels) }
{
    // A loop: `map` took 490 instructions in place of 110.
    let mut numbers = [0; 16];
    for (i, number) in numbers.iter_mut().enumerate() {
        *number = highest_number(levels[i]);
    }
    numbers
}

// Two numbers of 32 bits as one of 64.
fn joined(low: u32, high: u32) -> u64
    ensures { result ≡ low + upper * high }
{
    low as u64 + UPPER * (high as u64)
}

// The level of a record.
fn record_level(day_record: u64) -> Reading
    ensures { reading result ≡ record_level day_record }
{
    level_from(quantity::signed_of((day_record % UPPER) as u32))
}

// The record of a day's answer.
fn record_of(answer: DayAnswer) -> u64
    ensures { result ≡ record_number (reading answer.level) (method_number answer.method) }
{
    joined(level_bits(answer.level), u8::from(answer.method) as u32)
}

// Opens a day: the samples a second of its terminal, the first and the last daytime tick, the end of the previous day's last stretch in ticks after the new
// midnight, and the book, for each class the flights by day and by night.
pub fn moatburdock_open_day(
    day: &mut [u32; 320],
    rate: u32,
    first: u32,
    last: u32,
    end: i32,
    daytime: &[u16],
    night: &[u16],
) -> u8
    ensures { record { answer = result; lent = day.new }
        ≡ open_leaves day.old (opening_of rate first last (ticks_of end) daytime.now night.now) }
{
    let before = quantity::instant_of(end);
    let opened = ledger::open_day(rate, Tick(first), Tick(last), before, daytime, night);
    if let Ok(fresh) = opened {
        day_words::encode(fresh, day);
    }
    quantity::answer_number(opened)
}

// Offers an event to a day: its start in ticks after midnight, negative before it, the class of the flight, the wind in tenths of m/s, rain, snow or thunder,
// the background level, the tolerance of the meter and the samples. Gives LAE and Lmax.
pub fn moatburdock_offer(
    day: &mut [u32; 320],
    start: i32,
    class: u8,
    wind: u16,
    wet: bool,
    background: u32,
    tolerance: u16,
    samples: &[u16],
    exposure: &mut i32,
    lmax: &mut u32,
) -> u8
    ensures { record { answer = result; lent = record { day = day.new; exposure = exposure.new; lmax = lmax.new } }
        ≡ offer_leaves
        (record { day = day.old; exposure = exposure.old; lmax = lmax.old })
        (offering_as start class wind wet background tolerance samples.now) }
{
    let recording = Recording {
        start: quantity::instant_of(start),
        class,
        wind,
        wet,
        background: Level(background),
        tolerance: Tolerance(tolerance),
    };
    let offered = offering::offer(day_words::decode(day), recording, samples);
    if let Ok(accepted) = offered.answer {
        day_words::encode(offered.day, day);
        *exposure = level_number(accepted.exposure);
        *lmax = accepted.lmax.0;
    }
    quantity::answer_number(offered.answer)
}

// The end to open the next day with: that of the day's last accepted stretch in ticks after the next midnight, and 600 s before it where there is none.
pub fn moatburdock_end_for_next_day(day: &[u32; 320]) -> i32
    ensures { result ≡ end_given day.now }
{
    quantity::after_midnight(ledger::end_for_next_day(day_words::decode(day)))
}

// Gives the energy of the events whose peak lies in a clock hour, of both periods and without weights, in two halves, the lower one first. An hour above 23
// has 0.
pub fn moatburdock_hour_energy(day: &[u32; 320], hour: u32, energy: &mut [u64; 2])
    ensures { energy.new ≡ energy_given day.now hour }
{
    let sum = ledger::hour_energy(day_words::decode(day), hour);
    *energy = [joined(sum[0], sum[1]), joined(sum[2], sum[3])];
}

// Closes a day, with the calibration levels before and after. Gives the day's record, the lowest and the highest Ldn within the tolerances of the meters, Nd',
// Nn' and the highest Lmax, and the highest Lmax of each class.
pub fn moatburdock_close_day(
    day: &[u32; 320],
    before: u32,
    after: u32,
    day_record: &mut u64,
    lowest_ldn: &mut i32,
    highest_ldn: &mut i32,
    counts: &mut [u32; 3],
    highest_by_class: &mut [u32; 16],
) -> u8
    ensures { record {
      answer = result;
      lent = record {
        day_record = day_record.new;
        lowest_ldn = lowest_ldn.new;
        highest_ldn = highest_ldn.new;
        counts = counts.new;
        highest_by_class = highest_by_class.new;
      };
    }
        ≡ close_leaves
        (record {
          day_record = day_record.old;
          lowest_ldn = lowest_ldn.old;
          highest_ldn = highest_ldn.old;
          counts = counts.old;
          highest_by_class = highest_by_class.old;
        })
        day.now before after }
{
    let closed = closing::close_day(day_words::decode(day), Level(before), Level(after));
    if let Ok(closing) = closed.answer {
        *day_record = record_of(closing.answer);
        *lowest_ldn = level_number(closing.lowest_ldn);
        *highest_ldn = level_number(closing.highest_ldn);
        *counts = [
            closing.day_events,
            closing.night_events,
            highest_number(closing.highest),
        ];
        *highest_by_class = class_numbers(closed.highest_by_class);
    }
    quantity::answer_number(closed.answer)
}

// The mean of the records, where their number is from the fewest to the most.
fn mean_of(records: &[u64], fewest: usize, most: usize) -> Result<Reading, Refusal>
    requires { (0 < fewest) × (most ≤ 366) }
    ensures { mean_outcome result ≡ mean_of fewest most (record_levels records.now) }
{
    mean::mean_of(records, fewest, most, record_level)
}

// Gives the level of a mean.
fn give_mean(answer: Result<Reading, Refusal>, level: &mut i32) -> u8
    ensures { record { answer = result; lent = level.new } ≡ leaves level.old (mean_outcome answer) level_number }
{
    quantity::give(answer.map(level_number), level)
}

// The mean of a week, of exactly 7 records.
pub fn moatburdock_week_mean(records: &[u64], level: &mut i32) -> u8
    ensures { record { answer = result; lent = level.new } ≡ week_leaves level.old records.now }
{
    give_mean(mean_of(records, 7, 7), level)
}

// The mean of a year, of 1 to 366 records.
pub fn moatburdock_year_mean(records: &[u64], level: &mut i32) -> u8
    ensures { record { answer = result; lent = level.new } ≡ year_leaves level.old records.now }
{
    give_mean(mean_of(records, 1, 366), level)
}

// The record at a place of the year.
#[tactic(auto, unfolding(quantity::specs::Rules::first_of))]
pub fn moatburdock_read_record(records: &[u64], place: usize, day_record: &mut u64) -> u8
    ensures { record { answer = result; lent = day_record.new }
        ≡ read_leaves day_record.old records.now place }
{
    quantity::give(
        records.get(place).copied().ok_or(Refusal::DayCount),
        day_record,
    )
}

// Puts a new record at a place of the year.
pub fn moatburdock_rewrite_record(records: &mut [u64], place: usize, new: u64) -> u8
    ensures { record { answer = result; lent = records.new } ≡ rewrite_leaves records.old place new }
{
    quantity::answer_number(mean::rewrite(records, place, new, record_level(new)))
}

// What a verdict names, by its number in C.
fn finding_number(finding: Finding) -> u8
    ensures { result ≡ finding_number (finding_reading finding) }
{
    match finding {
        Finding::Within => 0,
        Finding::OverLevel => 1,
        Finding::OverMaximum => 2,
        Finding::Both => 3,
        Finding::NoLimit => 4,
    }
}

// The verdict on land of a class, for a year's level, a sensitive building or none, and the highest Lmax. Gives what it names and the margin.
pub fn moatburdock_verdict(
    class: u8,
    yearly: i32,
    sensitive: bool,
    lmax: u32,
    finding: &mut u8,
    margin: &mut i32,
) -> u8
    ensures { record { answer = result; lent = record { finding = finding.new; margin = margin.new } }
        ≡ verdict_leaves
        (record { finding = finding.old; margin = margin.old })
        class yearly sensitive lmax }
{
    let verdict = land::verdict(class, level_from(yearly), sensitive, highest_from(lmax));
    if let Ok(assessment) = verdict {
        *finding = finding_number(assessment.finding);
        *margin = assessment.margin.unwrap_or(NO_MARGIN);
    }
    quantity::answer_number(verdict)
}

// The class of a land code of two ASCII bytes.
pub fn moatburdock_land_class(letter: u8, digit: u8, class: &mut u8) -> u8
    ensures { record { answer = result; lent = class.new } ≡ class_leaves class.old letter digit }
{
    quantity::give(land::land_class(letter, digit).map(u8::from), class)
}

// Pairs movements with peaks that are no further apart than the tolerance, each at most once and as many as can be. All times are in ticks after midnight,
// negative before it. Gives the count of the pairs, and for each entry its partner's place counted from 1, or 0.
pub fn moatburdock_pair_movements(
    movements: &[i32],
    peaks: &[i32],
    tolerance: u32,
    movement_marks: &mut [u16],
    peak_marks: &mut [u16],
    count: &mut u16,
) -> u8
    ensures { PairLeaves (instants movements.now) (instants peaks.now) tolerance
        (record {
          count = count.old;
          marks = record { movements = movement_marks.old; peaks = peak_marks.old };
        })
        (record {
          answer = result;
          lent = record {
            count = count.new;
            marks = record { movements = movement_marks.new; peaks = peak_marks.new };
          };
        }) }
{
    let pairs = pairing::pair_movements(movements, peaks, tolerance, movement_marks, peak_marks);
    quantity::give(pairs, count)
}
