// Closing a day: the two formulas of Ldn, and the level by the one that the numbers of flights and events choose.
#![tactic(auto)]

ghost use Rattle.std.specs.Prelude.{◌≡◌, ◌*◌, ◌^◌, ◌<◌, ltb};
ghost use Rattle.quantity.specs.Answers.{reading, method_number};
ghost use Rattle.quantity.specs.Numbers.{distance};
ghost use Rattle.limbs.specs.Value.{base, value};
ghost use Rattle.method.specs.Sizes.{FewIn};
ghost use Rattle.closing.specs.Formula.{formula_by, level_by};
ghost use Rattle.closing.specs.Close.{largest_drift, close_outcome, closed, closed_reading, day_closed};

use clock::Rate;
use ledger::Day;
use method::Totals;
use quantity::{DayAnswer, Level, Method, Reading, Refusal};

// What closing reports: Ldn and its method, the lowest and the highest Ldn within the tolerances of the meters, the accepted events by day and by night, and the
// highest Lmax.
#[derive(Clone, Copy)]
pub struct Closing {
    pub answer: DayAnswer,
    pub lowest_ldn: Reading,
    pub highest_ldn: Reading,
    pub day_events: u32,
    pub night_events: u32,
    pub highest: Option<Level>,
}

// A closing: its answer, and the highest Lmax of each class. A refused one has none in every class, beside the answer, since the exports write these then too.
#[derive(Clone, Copy)]
pub struct Closed {
    pub answer: Result<Closing, Refusal>,
    pub highest_by_class: [Option<Level>; 16],
}

// A formula of Ldn: the weights of the energies by day and by night, the divisor, and the offset that is taken off the level.
#[derive(Clone, Copy)]
pub struct Formula {
    pub daytime: u32,
    pub night: u32,
    pub divisor: u32,
    pub offset: u32,
}

// A night event counts tenfold (6-2), and so does a night flight (6-4).
const NIGHT_WEIGHT: u32 = 10;

// The draft's 49.4 dB (6-4).
const METHOD_TWO_OFFSET: u32 = 4940;

// The calibration levels may differ by half a decibel.
const LARGEST_DRIFT: u32 = 50;

// The formula of a method: one (6-2) weighs the events themselves, two (6-4) their mean by the flights.
fn formula_by(rate: Rate, method: Method, totals: Totals) -> Formula
    requires { FewIn totals }
    ensures { result ≡ formula_by rate (method_number method) totals }
{
    match method {
        Method::One => Formula {
            daytime: 1,
            night: NIGHT_WEIGHT,
            divisor: clock::day_ticks(rate),
            offset: 0,
        },
        Method::Two => {
            let weight = totals.daytime.flights + NIGHT_WEIGHT * totals.night.flights;
            Formula {
                daytime: weight,
                night: weight,
                divisor: clock::samples_a_second(rate)
                    * (totals.daytime.events + totals.night.events),
                offset: METHOD_TWO_OFFSET,
            }
        }
    }
}

// A period's energy times a weight, with room for the sum of two.
fn weighted(sum: [u32; 4], weight: u32) -> [u32; 6]
    ensures { (value result ≡ weight * value sum) × (value result < base ^ 5) }
{
    let mut product = [0u32; 6];
    limbs::load(&mut product, &sum);
    limbs::scale(&mut product, weight);
    product
}

// The level of the energies by day and by night by a formula.
fn level_by(formula: Formula, daytime: [u32; 4], night: [u32; 4]) -> Reading
    requires { 0 < formula.divisor }
    ensures { reading result ≡ level_by formula (value daytime) (value night) }
{
    let mut sum = weighted(daytime, formula.daytime);
    limbs::add(&mut sum, &weighted(night, formula.night));
    level::level_over(sum, formula.divisor, formula.offset)
}

// Refusal 11: the calibration levels differ by too much.
fn has_drifted(before: Level, after: Level) -> bool
    ensures { result ≡ ltb largest_drift (distance before.0 after.0) }
{
    LARGEST_DRIFT < before.0.abs_diff(after.0)
}

// What closing answers, with the calibration levels before and after.
fn answer_of(day: Day, before: Level, after: Level) -> Result<Closing, Refusal>
    ensures { close_outcome result ≡ closed day before.0 after.0 }
{
    if has_drifted(before, after) {
        return Err(Refusal::CalibrationDrift);
    }
    let choice = method::choose_method(day);
    let method = choice.answer?;
    let formula = formula_by(day.settings.rate, method, choice.totals);
    Ok(Closing {
        answer: DayAnswer {
            level: level_by(
                formula,
                ledger::energy_of(day.daytime),
                ledger::energy_of(day.night),
            ),
            method,
        },
        lowest_ldn: level_by(formula, day.daytime.lowest, day.night.lowest),
        highest_ldn: level_by(formula, day.daytime.highest, day.night.highest),
        day_events: choice.totals.daytime.events,
        night_events: choice.totals.night.events,
        highest: day.highest,
    })
}

// Closes a day with the calibration levels before and after. The day is read alone: more offers may follow.
pub fn close_day(day: Day, before: Level, after: Level) -> Closed
    ensures { closed_reading result ≡ day_closed day before.0 after.0 }
{
    let answer = answer_of(day, before, after);
    Closed {
        answer,
        highest_by_class: match answer {
            Ok(_) => day.highest_by_class,
            Err(_) => ledger::none_by_class(),
        },
    }
}
