// The day as 320 words of 32 bits, for callers that keep it in memory of their own. Any 320 words stand for a day, and the words of a day stand for that
// very day.
#![tactic(auto)]

ghost use Rattle.std.specs.Prelude.{◌≡◌, List, ℕ, ◌+◌, ◌*◌, ◌≤◌, length};
ghost use Rattle.runs.specs.Put.{Put};
ghost use Rattle.day_words.specs.Again.{count_again, cell_again, class_again};
ghost use Rattle.day_words.specs.Words.{
  ReadsAgain,
  NarrowCount,
  FourLimbs,
  AnyLevel,
  word_count,
  words_of_each,
  count_words,
  period_words,
  highest_words,
  settings_words,
  day_words,
  words_at,
  read_each,
  count_from,
  cell_from,
  class_from,
  period_from,
  rate_from,
  settings_from,
  day_from,
};

use clock::{Rate, Settings};
use ledger::{Cell, Day, Period};
use quantity::{Instant, Level, Tick};

// The words of a day. Those behind the last that is used are 0; fields to come take their places there.
pub const DAY_WORDS: usize = 320;

// Where the parts of a day begin: of a period its booked flights, its accepted events, its cells, and its lowest and its highest energy; of a day its periods and
// what stands behind them.
const ACCEPTED: usize = 16;

const CELLS: usize = 32;

const LOWEST: usize = 128;

const HIGHEST_ENERGY: usize = 132;

const DAYTIME: usize = 0;

const NIGHT: usize = 136;

const CLASSES: usize = 272;

const END: usize = 273;

const HIGHEST: usize = 274;

const HIGHEST_BY_CLASS: usize = 276;

const SETTINGS: usize = 308;

const UNUSED: usize = DAY_WORDS - SETTINGS - 3;

// What stands in a day in a number of its own, each in the same number of words.
trait Entry: Copy {
    ghost WIDTH: { ℕ };

    const WIDTH: usize;

    ghost to_words: { Self → List ℕ };

    ghost from_words: { List ℕ → ℕ → Self };

    ghost Fits: { Self → Type 0 };

    // Puts its words, and gives the place behind them.
    fn put(self, words: &mut [u32], at: usize) -> usize
        requires { at + WIDTH ≤ length words.old }
        ensures put { Put words.old at (to_words self) words.new result }
        ensures place { result ≡ at + WIDTH };

    // The entry that the words at a place stand for.
    fn read(words: &[u32], at: usize) -> Self
        requires { at + WIDTH ≤ length words.now }
        ensures { result ≡ from_words words.now at };

    ghost again: { ReadsAgain to_words from_words Fits };
}

// A count of 16 bits; a word stands for its lowest 16.
impl Entry for u16 {
    ghost WIDTH = { 1 };

    const WIDTH: usize = 1;

    ghost to_words = { count_words };

    ghost from_words = { count_from };

    ghost Fits = { NarrowCount };

    ghost again = { count_again };

    fn put(self, words: &mut [u32], at: usize) -> usize {
        words[at] = u32::from(self);
        at + 1
    }

    fn read(words: &[u32], at: usize) -> u16 {
        (words[at] % 65536) as u16
    }
}

impl Entry for Cell {
    ghost WIDTH = { 4 };

    const WIDTH: usize = 4;

    ghost to_words = { λ c. c.energy };

    ghost from_words = { cell_from };

    ghost Fits = { FourLimbs };

    ghost again = { cell_again };

    fn put(self, words: &mut [u32], at: usize) -> usize {
        runs::put(words, at, &self.energy)
    }

    fn read(words: &[u32], at: usize) -> Cell {
        Cell {
            energy: limbs_at(words, at),
        }
    }
}

// A highest level: whether there is one, and that level.
impl Entry for Option<Level> {
    ghost WIDTH = { 2 };

    const WIDTH: usize = 2;

    ghost to_words = { highest_words };

    ghost from_words = { class_from };

    ghost Fits = { AnyLevel };

    ghost again = { class_again };

    fn put(self, words: &mut [u32], at: usize) -> usize {
        match self {
            None => runs::put(words, at, &[0, 0]),
            Some(level) => runs::put(words, at, &[1, level.0]),
        }
    }

    fn read(words: &[u32], at: usize) -> Option<Level> {
        (words[at] != 0).then_some(Level(words[at + 1]))
    }
}

// Puts the words of entries, one behind the other.
fn put_each<T: Entry>(words: &mut [u32], at: usize, entries: &[T]) -> usize
    requires { at + T.WIDTH * length entries.now ≤ length words.old }
    ensures put { Put words.old at (words_of_each T.to_words entries.now) words.new result }
    ensures place { result ≡ at + T.WIDTH * length entries.now }
{
    for (i, entry) in entries.iter().enumerate() {
        entry.put(words, at + T::WIDTH * i);
    }
    at + T::WIDTH * entries.len()
}

// Reads entries that stand one behind the other from a place on.
fn read_each<T: Entry>(words: &[u32], at: usize, entries: &mut [T])
    requires { at + T.WIDTH * length entries.old ≤ length words.now }
    ensures { entries.new ≡ read_each (T.from_words words.now) T.WIDTH at (length entries.old) }
{
    for (i, entry) in entries.iter_mut().enumerate() {
        *entry = T::read(words, at + T::WIDTH * i);
    }
}

// Puts a period, 136 words. Inlined: a call of it takes 71 instructions more.
#[inline(always)]
fn put_period(words: &mut [u32; 320], at: usize, period: &Period) -> usize
    requires { at + 136 ≤ word_count }
    ensures put { Put words.old at (period_words period.now) words.new result }
    ensures place { result ≡ at + 136 }
{
    let accepted = put_each(words, at, &period.booked);
    let cells = put_each(words, accepted, &period.accepted);
    let lowest = put_each(words, cells, &period.cells);
    let highest = runs::put(words, lowest, &period.lowest);
    runs::put(words, highest, &period.highest)
}

// The settings: the rate, and the first and the last daytime tick.
fn settings_words(settings: Settings) -> [u32; 3]
    ensures { result ≡ settings_words settings }
{
    [settings.rate as u32, settings.first.0, settings.last.0]
}

// Writes the words of a day.
pub fn encode(day: Day, words: &mut [u32; 320])
    ensures { words.new ≡ day_words day }
{
    let night = put_period(words, DAYTIME, &day.daytime);
    let classes = put_period(words, night, &day.night);
    let highest = runs::put(words, classes, &[day.classes as u32, day.end.0]);
    let by_class = day.highest.put(words, highest);
    let settings = put_each(words, by_class, &day.highest_by_class);
    let unused = runs::put(words, settings, &settings_words(day.settings));
    runs::put(words, unused, &[0; UNUSED]);
}

// The four limbs at a place.
fn limbs_at(words: &[u32], at: usize) -> [u32; 4]
    requires { at + 4 ≤ length words.now }
    ensures { result ≡ words_at words.now at 4 }
{
    [words[at], words[at + 1], words[at + 2], words[at + 3]]
}

// The period at a place.
fn period_at(words: &[u32], at: usize) -> Period
    requires { at + 136 ≤ length words.now }
    ensures { result ≡ period_from words.now at }
{
    let mut period = Period {
        booked: [0; 16],
        accepted: [0; 16],
        cells: ledger::empty_cells(),
        lowest: limbs_at(words, at + LOWEST),
        highest: limbs_at(words, at + HIGHEST_ENERGY),
    };
    read_each(words, at, &mut period.booked);
    read_each(words, at + ACCEPTED, &mut period.accepted);
    read_each(words, at + CELLS, &mut period.cells);
    period
}

// The rate that a word stands for: a word above 1 stands for the fastest. No TryFrom, since every word is a rate.
fn rate_from(word: u32) -> Rate
    ensures { result ≡ rate_from word }
{
    match word {
        0 => Rate::Ten,
        1 => Rate::Twenty,
        _ => Rate::Forty,
    }
}

// The settings at a place.
fn settings_at(words: &[u32], at: usize) -> Settings
    requires { at + 3 ≤ length words.now }
    ensures { result ≡ settings_from words.now at }
{
    Settings {
        rate: rate_from(words[at]),
        first: Tick(words[at + 1]),
        last: Tick(words[at + 2]),
    }
}

// The day that some words stand for.
pub fn decode(words: &[u32; 320]) -> Day
    ensures { result ≡ day_from words.now }
{
    let mut highest_by_class = ledger::none_by_class();
    read_each(words, HIGHEST_BY_CLASS, &mut highest_by_class);
    Day {
        settings: settings_at(words, SETTINGS),
        classes: (words[CLASSES] % 256) as u8,
        daytime: period_at(words, DAYTIME),
        night: period_at(words, NIGHT),
        end: Instant(words[END]),
        highest: Entry::read(words, HIGHEST),
        highest_by_class,
    }
}
