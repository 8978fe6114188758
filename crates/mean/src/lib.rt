// The weekly and the yearly mean of days' levels (6-5, 6-6), and the year's records, which the caller lends as a run of day answers.
#![tactic(auto)]

ghost use Rattle.std.specs.Prelude.{◌≡◌, ◌≤◌, ◌<◌, cond, length, map, set};
ghost use Rattle.quantity.specs.Answers.{reading, check_number, check_outcome};
ghost use Rattle.quantity.specs.Rules.{first_of, follow};
ghost use Rattle.decades.specs.Sums.{Readable};
ghost use Rattle.quantity.specs.Scale.{is_reading_outside};
ghost use Rattle.mean.specs.Mean.{mean_outcome, mean_of, week_mean_of, year_mean_of};
ghost use Rattle.mean.specs.Records.{readings, read_outcome, record_at, rules_of_rewriting, rewrite_number, rewritten};
ghost use Rattle.mean.specs.Total.{sums_with, Tells};

use decades::Sums;
use quantity::{DayAnswer, Reading, Refusal};

// Adds one day's level to the sums of e over the raised levels by decades. A level that is outside is refused by 14, and not added.
fn add_day(sums: &mut [u64; 26], level: Reading) -> Result<(), Refusal>
    requires { Readable sums.old }
    ensures { (check_number result ≡ cond (is_reading_outside (reading level)) 14 0) × (sums.new ≡ sums_with sums.old (reading level)) }
{
    if quantity::is_reading_outside(level) {
        return Err(Refusal::RecordLevelOutside);
    }
    match level {
        Reading::At(at) => decades::add_level(sums, quantity::raised(at)),
        Reading::BelowScale => {}
    }
    Ok(())
}

// The mean of days, of each of which a function tells the level, where their number is from the fewest to the most.
pub fn mean_of<T: Copy, F: Fn(T) -> Reading>(
    days: &[T],
    fewest: usize,
    most: usize,
    level: F,
) -> Result<Reading, Refusal>
    requires few { (0 < fewest) × (most ≤ 366) }
    requires callable { F.IsAlwaysCallable level }
    ensures { (told : _) → Tells (F.post level) told → mean_outcome result ≡ mean_of fewest most (map told days.now) }
{
    if !(fewest..=most).contains(&days.len()) {
        return Err(Refusal::DayCount);
    }
    let mut sums = [0u64; 26];
    for day in days {
        add_day(&mut sums, level(*day))?;
    }
    Ok(Sums { decades: sums }.largest_level(days.len() as u32))
}

// The mean of a week, of exactly 7 days.
pub fn week_mean(days: &[DayAnswer]) -> Result<Reading, Refusal>
    ensures { mean_outcome result ≡ week_mean_of (readings days.now) }
{
    mean_of(days, 7, 7, |day| day.level)
}

// The mean of a year, of 1 to 366 days.
pub fn year_mean(days: &[DayAnswer]) -> Result<Reading, Refusal>
    ensures { mean_outcome result ≡ year_mean_of (readings days.now) }
{
    mean_of(days, 1, 366, |day| day.level)
}

// The record at a place of the year.
#[tactic(auto, unfolding(crate::specs::Records::record_at, quantity::specs::Rules::first_of))]
pub fn read_record(days: &[DayAnswer], place: usize) -> Result<DayAnswer, Refusal>
    ensures { read_outcome result ≡ record_at days.now place }
{
    days.get(place).copied().ok_or(Refusal::DayCount)
}

// Puts a new record of a level at a place of a run, whatever its records are.
#[tactic(auto, unfolding(quantity::specs::Rules::first_of))]
pub fn rewrite<T: Copy>(
    records: &mut [T],
    place: usize,
    new: T,
    new_level: Reading,
) -> Result<(), Refusal>
    ensures answer { check_number result ≡ first_of (rules_of_rewriting (length records.old) place (reading new_level)) }
    ensures run { records.new ≡ follow (check_outcome result) (λ _. records.old) (λ _. set records.old place new) }
{
    if records.len() <= place {
        return Err(Refusal::DayCount);
    }
    if quantity::is_reading_outside(new_level) {
        return Err(Refusal::RecordLevelOutside);
    }
    records[place] = new;
    Ok(())
}

// Puts a new record at a place of the year.
#[tactic(auto, unfolding(crate::specs::Records::rewrite_number, crate::specs::Records::rewritten))]
pub fn rewrite_record(days: &mut [DayAnswer], place: usize, new: DayAnswer) -> Result<(), Refusal>
    ensures { (check_number result ≡ rewrite_number (length days.old) place new) × (days.new ≡ rewritten days.old place new) }
{
    rewrite(days, place, new, new.level)
}
