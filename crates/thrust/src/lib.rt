// The level at a thrust between two rows of measured ones (formula B.3), in f64.
#![tactic(auto)]

ghost use Rattle.std.specs.Prelude.{◌≡◌, ◌-◌, ◌≤◌, ◌<◌, length};
ghost use Rattle.thrust.specs.Rows.{row_at, every, in_range, rises, fit, lower_place, level_between, level_at_thrust, thrust_reading};
ghost use Rattle.thrust.specs.Laws.{ExactAtRows, IsNumber};

use quantity::Refusal;

// A thrust in kN and the level in dB that was measured at it.
#[derive(Clone, Copy)]
pub struct Row {
    pub thrust: f64,
    pub level: f64,
}

// No table has more rows.
pub const MOST_ROWS: usize = 32;

fn is_in_range(row: Row) -> bool
    ensures { result ≡ in_range row }
{
    floats::is_within(0.0, 1000.0, row.thrust) && floats::is_within(0.0, 140.0, row.level)
}

// Whether each row is in range, the last one first.
fn are_in_range(rows: &[Row]) -> bool
    ensures { result ≡ every (λ k. in_range (row_at rows.now k)) (length rows.now) }
{
    rows.iter().rev().all(|row| is_in_range(*row))
}

// Whether each thrust is below the next one.
fn thrusts_rise(rows: &[Row]) -> bool
    ensures { result ≡ every (rises rows.now) (length rows.now - 1) }
{
    rows.is_sorted_by(|row, next| row.thrust < next.thrust)
}

// Whether rows are let through by refusal 20.
#[tactic(auto, unfolding(crate::specs::Rows::fit))]
fn are_fit(rows: &[Row]) -> bool
    ensures { result ≡ fit rows.now (length rows.now) }
{
    2 <= rows.len() && rows.len() <= MOST_ROWS && thrusts_rise(rows) && are_in_range(rows)
}

// The place of the lower row: the last whose thrust is at most the given one.
fn lower_place(rows: &[Row], thrust: f64) -> usize
    requires { 0 < length rows.now }
    ensures value { result ≡ lower_place rows.now thrust (length rows.now - 1) }
    ensures inside { result < length rows.now }
{
    rows.iter()
        .rposition(|row| row.thrust <= thrust)
        .unwrap_or(0)
}

// B.3, each operation rounded once.
#[tactic(auto, unfolding(crate::specs::Rows::level_between))]
fn level_between(row: Row, next: Row, thrust: f64) -> f64
    ensures { result ≡ level_between row next thrust }
{
    row.level + (next.level - row.level) * (thrust - row.thrust) / (next.thrust - row.thrust)
}

// The level in dB at a thrust in kN, by some rows.
#[tactic(auto, using(crate::proofs::Fit::two_rows, crate::proofs::Answering::unfit, crate::proofs::Answering::outside, crate::proofs::Answering::at_last, crate::proofs::Answering::at_lower))]
fn level_by(rows: &[Row], thrust: f64) -> Result<f64, Refusal>
    ensures { thrust_reading result ≡ level_at_thrust rows.now (length rows.now) thrust }
{
    if !are_fit(rows) {
        return Err(Refusal::RowsUnfit);
    }
    let last = rows.len() - 1;
    if !floats::is_within(rows[0].thrust, rows[last].thrust, thrust) {
        return Err(Refusal::ThrustOutside);
    }
    let place = lower_place(rows, thrust);
    if place == last {
        return Ok(rows[last].level);
    }
    Ok(level_between(rows[place], rows[place + 1], thrust))
}

// The level in dB at a thrust in kN, by the first `count` rows. They come by value with their number, the form that document 02 names; inside they are a slice.
pub fn level_at_thrust(rows: [Row; MOST_ROWS], count: usize, thrust: f64) -> Result<f64, Refusal>
    ensures result_value { thrust_reading result ≡ level_at_thrust rows count thrust }
    ensures exact { ExactAtRows rows count thrust (thrust_reading result) }
    ensures number { IsNumber (thrust_reading result) }
{
    if MOST_ROWS < count {
        return Err(Refusal::RowsUnfit);
    }
    level_by(&rows[..count], thrust)
}
