// How many mixes of measured flights would pass: lists of counts, one for each class of a book, that meet the conditions of method two.
#![tactic(auto)]

ghost use Rattle.std.specs.Prelude.{◌≡◌, Bool, false, ℕ, suc, ◌+◌, ◌-◌, ◌*◌, ◌^◌, ◌≤◌, ◌<◌, length, get_or, set};
ghost use Rattle.quantity.specs.Answers.{check_number};
ghost use Rattle.quantity.specs.Rules.{first_of};
ghost use Rattle.ledger.specs.Book.{most_classes, both_periods, is_book_invalid};
ghost use Rattle.mixes.specs.Mix.{mixes_of};
ghost use Rattle.mixes.specs.Answers.{is_measured_outside, table_size, mix_rules, mix_reading, Answered};
ghost use Rattle.mixes.specs.Ways.{
  fits,
  least_of,
  Between,
  sum_below,
  with_class,
  ways,
  no_class,
  most_of_class,
  Asked,
  Booked,
  cells,
  Tabulates,
  back,
  Rising,
  Falls,
  part,
  Copied,
  RowRoom,
  Begun,
  ClassPut,
  RowFits,
};

use method::Count;
use quantity::Refusal;
use std::ops::Range;

// No more classes are counted.
const MOST_CLASSES: usize = 8;

// A class that has flights must have an event.
fn least_of(flights: u64) -> u64
    ensures { result ≡ least_of flights }
{
    flights.min(1)
}

// The counts of a class that fit. Twenty times n'k N lies from 20 nk N' - N N' to 20 nk N' + N N', which is divided by 20 N, upwards at the first and downwards at
// the last.
fn fit_range(flights: u64, all: Count) -> Range<u64>
    requires { Asked all × (flights ≤ most_of_class) }
    ensures { Between (fits all flights) result.start result.end }
{
    let (all_flights, all_events) = (u64::from(all.flights), u64::from(all.events));
    let share = 20 * (flights * all_events);
    let tolerance = all_flights * all_events;
    let unit = 20 * all_flights;
    let lowest = share.saturating_sub(tolerance).div_ceil(unit);
    let highest = (share + tolerance) / unit;
    let first = lowest.max(least_of(flights));
    let end = (highest.min(flights) + 1).max(first);
    first..end
}

// Of no class there is one list, whose sum is 0.
fn lists_of_no_class(sum: usize) -> u64
    ensures { result ≡ no_class sum }
{
    u64::from(sum == 0)
}

// The row of no class.
fn start_row(row: &mut [u64])
    ensures { Tabulates row.new (length row.old) no_class }
{
    for (sum, number) in row.iter_mut().enumerate() {
        *number = lists_of_no_class(sum);
    }
}

// Each number of a row becomes the sum of those up to it.
fn accumulate(row: &mut [u64])
    requires { sum_below (cells row.old) (length row.old) < 2 ^ 64 }
    ensures { Tabulates row.new (length row.old) (λ s. sum_below (cells row.old) (suc s)) }
{
    let mut sum: u64 = 0;
    for number in row.iter_mut() {
        sum += *number;
        *number = sum;
    }
}

// The number so many places before a place, 0 where there is none.
fn number_back(row: &[u64], place: usize, steps: usize) -> u64
    requires { place < length row.now }
    ensures { result ≡ back row.now place steps }
{
    if steps <= place {
        row[place - steps]
    } else {
        0
    }
}

// A number of a row becomes what stands `first` places before it less what stands `end` places before it.
fn subtract_at(row: &mut [u64], place: usize, first: usize, end: usize)
    requires { Falls row.old place first end }
    ensures { row.new ≡ set row.old place (back row.old place first - back row.old place end) }
{
    let upper = number_back(row, place, first);
    let lower = number_back(row, place, end);
    row[place] = upper - lower;
}

// Each number of a rising row, from the last place down, so that what stands before a place is not changed yet.
fn subtract_back(row: &mut [u64], first: usize, end: usize)
    requires { (first ≤ end) × Rising row.old }
    ensures { Tabulates row.new (length row.old) (λ s. back row.old s first - back row.old s end) }
{
    for place in (0..row.len()).rev() {
        subtract_at(row, place, first, end);
    }
}

// One class more: the lists of the classes so far, by their sums, behind each count of the class that fits.
fn add_class(row: &mut [u64], range: Range<u64>)
    requires { (range.start ≤ range.end) × (sum_below (cells row.old) (length row.old) < 2 ^ 64) }
    ensures { (fit : ℕ → Bool) → Between fit range.start range.end → Tabulates row.new (length row.old) (with_class fit (cells row.old)) }
{
    accumulate(row);
    subtract_back(row, range.start as usize, range.end as usize);
}

// The flights of a class, by day and night.
fn flights_of(daytime: &[u16], night: &[u16], class: usize) -> u64
    requires { (class < length daytime.now) × (class < length night.now) }
    ensures { (result ≡ get_or (both_periods daytime.now night.now) class 0) × (result ≤ most_of_class) }
{
    u64::from(daytime[class]) + u64::from(night[class])
}

// The row from a place on becomes that of the row behind it.
fn copy_row(table: &mut [u64], at: usize, size: usize)
    requires { at + size + size ≤ length table.old }
    ensures { Copied table.old table.new at size }
{
    let behind = at + size;
    table.copy_within(behind..behind + size, at);
}

// A class's row begins as the row behind it, and that of the last class as the row of no class.
fn begin_row(table: &mut [u64], at: usize, size: usize)
    requires { RowRoom table.old at size }
    ensures { Begun table.old table.new at size }
{
    let end = at + size;
    if end < table.len() {
        copy_row(table, at, size);
    } else {
        start_row(&mut table[at..end]);
    }
}

// The row from a place on takes in a class.
fn put_class(table: &mut [u64], at: usize, size: usize, range: Range<u64>)
    requires { (range.start ≤ range.end) × RowFits table.old at size }
    ensures { ClassPut table.old table.new at size range.start range.end }
{
    add_class(&mut table[at..at + size], range);
}

// A row for each class, the last one first; the first class's row is that of all classes.
fn fill_table(table: &mut [u64], daytime: &[u16], night: &[u16], all: Count, size: usize)
    requires { Booked daytime.now night.now all × (length table.old ≡ length daytime.now * size) × (1 ≤ size) }
    ensures { Tabulates (part table.new 0 size) size (ways all (both_periods daytime.now night.now)) }
{
    for class in (0..daytime.len()).rev() {
        let at = class * size;
        begin_row(table, at, size);
        let range = fit_range(flights_of(daytime, night, class), all);
        put_class(table, at, size, range);
    }
}

// The mixes of N' measured flights, by a row of N' + 1 numbers for each class.
fn count_in(table: &mut [u64], daytime: &[u16], night: &[u16], all: Count) -> u64
    requires { Booked daytime.now night.now all × (length table.old ≡ table_size (length daytime.now) all.events) }
    ensures { result ≡ length (mixes_of daytime.now night.now all.events) }
{
    let last = all.events as usize;
    fill_table(table, daytime, night, all, last + 1);
    table[last]
}

// The numbers that the rows take: one of N' + 1 for each class.
fn table_size(classes: usize, measured: u32) -> usize
    requires { classes ≤ most_classes }
    ensures { result ≡ table_size classes measured }
{
    classes * (measured as usize + 1)
}

// Refusal 25: N' is 0 or above N.
fn is_measured_outside(daytime: &[u16], night: &[u16], measured: u32) -> bool
    requires { is_book_invalid daytime.now night.now ≡ false }
    ensures { result ≡ is_measured_outside daytime.now night.now measured }
{
    measured == 0 || ledger::flights_of_book(daytime, night) < measured
}

// Refusals 10, 24, 25 and 26, or none.
fn check_mixes(daytime: &[u16], night: &[u16], measured: u32, lent: usize) -> Result<(), Refusal>
    ensures { check_number result ≡ first_of (mix_rules daytime.now night.now measured lent) }
{
    if ledger::is_book_invalid(daytime, night) {
        return Err(Refusal::BookInvalid);
    }
    if MOST_CLASSES < daytime.len() {
        return Err(Refusal::TooManyClasses);
    }
    if is_measured_outside(daytime, night, measured) {
        return Err(Refusal::MeasuredOutside);
    }
    if lent < table_size(daytime.len(), measured) {
        return Err(Refusal::TableTooShort);
    }
    Ok(())
}

// Counts the mixes of so many measured flights that would pass on a book: for each class the flights by day and by night. The table is lent for the rows, which
// are left free; what is lent beyond them stays, and at a refusal all of it.
pub fn count_mixes(
    daytime: &[u16],
    night: &[u16],
    measured: u32,
    table: &mut [u64],
) -> Result<u64, Refusal>
    ensures { Answered daytime.now night.now measured table.old (mix_reading result) table.new }
{
    check_mixes(daytime, night, measured, table.len())?;
    let all = Count {
        flights: ledger::flights_of_book(daytime, night),
        events: measured,
    };
    let size = table_size(daytime.len(), measured);
    Ok(count_in(&mut table[..size], daytime, night, all))
}
