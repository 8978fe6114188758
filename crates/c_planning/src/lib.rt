// The entry points for C and Rust that planners use: on f64, and the count of mixes. Each answers 0 or the number of a refusal, and a refused call leaves what it was lent as it was.
#![tactic(auto)]

ghost use Rattle.std.specs.Prelude.{◌≡◌, ◌≤◌, length};
ghost use Rattle.thrust.specs.Rows.{thrust_reading};
ghost use Rattle.thrust.specs.Laws.{Alike, IsNumber};
ghost use Rattle.start_of_roll.specs.Correction.{correction_at_angle, IsFinite};
ghost use Rattle.c_planning.specs.Calls.{rows_of, level_by_runs, ExactByRuns, level_leaves, correction_leaves, MixesLeave};

use quantity::Refusal;
use start_of_roll::Correction;
use thrust::Row;

// The rows of two runs, at the beginning of an array.
fn rows_of(thrusts: &[f64], levels: &[f64]) -> [Row; thrust::MOST_ROWS]
    requires { (length levels.now ≡ length thrusts.now) × (length thrusts.now ≤ 32) }
    ensures { Alike result (rows_of thrusts.now levels.now) (length thrusts.now) }
{
    let mut rows = [Row {
        thrust: 0.0,
        level: 0.0,
    }; thrust::MOST_ROWS];
    for (i, thrust) in thrusts.iter().enumerate() {
        rows[i] = Row {
            thrust: *thrust,
            level: levels[i],
        };
    }
    rows
}

// The level at a thrust, by rows in two runs.
fn level_by_runs(thrusts: &[f64], levels: &[f64], thrust: f64) -> Result<f64, Refusal>
    ensures result_value { thrust_reading result ≡ level_by_runs thrusts.now levels.now thrust }
    ensures exact { ExactByRuns thrusts.now levels.now thrust (thrust_reading result) }
    ensures number { IsNumber (thrust_reading result) }
{
    if levels.len() != thrusts.len() {
        return Err(Refusal::RowsUnfit);
    }
    if thrust::MOST_ROWS < thrusts.len() {
        return Err(Refusal::RowsUnfit);
    }
    thrust::level_at_thrust(rows_of(thrusts, levels), thrusts.len(), thrust)
}

// The level in dB at a thrust in kN, by rows of a thrust and a level each: the thrusts in one run, the levels in another.
pub fn moatburdock_level_at_thrust(
    thrusts: &[f64],
    levels: &[f64],
    thrust: f64,
    level: &mut f64,
) -> u8
    ensures level_after { record { answer = result; lent = level.new }
        ≡ level_leaves level.old thrusts.now levels.now thrust }
    ensures exact { ExactByRuns thrusts.now levels.now thrust (level_by_runs thrusts.now levels.now thrust) }
    ensures number { IsNumber (level_by_runs thrusts.now levels.now thrust) }
{
    quantity::give(level_by_runs(thrusts, levels, thrust), level)
}

// Where a point lies from the start of roll, as a number: C has no enum with a value.
const IN_FRONT: u8 = 0;

const BESIDE: u8 = 1;

const BEHIND: u8 = 2;

// The correction in dB for a point at an angle in degrees from the start of roll: where the point lies and, beside and behind, the correction. In front there is
// none, and what stands in its place stays.
pub fn moatburdock_correction_at_angle(angle: f64, position: &mut u8, correction: &mut f64) -> u8
    ensures correction_after { record { answer = result; lent = record { position = position.new; correction = correction.new } }
        ≡ correction_leaves (record { position = position.old; correction = correction.old }) angle }
    ensures finite { IsFinite (correction_at_angle angle) }
{
    let answer = start_of_roll::correction_at_angle(angle);
    if let Ok(found) = answer {
        match found {
            Correction::InFront => *position = IN_FRONT,
            Correction::Beside(number) => {
                *position = BESIDE;
                *correction = number;
            }
            Correction::Behind(number) => {
                *position = BEHIND;
                *correction = number;
            }
        }
    }
    quantity::answer_number(answer)
}

// How many mixes of so many measured flights would pass on a book: for each class the flights by day and by night. The table is lent for a row of N' + 1 numbers
// for each class, which are left free.
pub fn moatburdock_count_mixes(
    daytime: &[u16],
    night: &[u16],
    measured: u32,
    table: &mut [u64],
    count: &mut u64,
) -> u8
    ensures { MixesLeave daytime.now night.now measured
        (record { count = count.old; table = table.old })
        (record { answer = result; lent = record { count = count.new; table = table.new } }) }
{
    quantity::give(mixes::count_mixes(daytime, night, measured, table), count)
}
