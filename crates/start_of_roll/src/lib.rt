// The correction for points beside and behind the start of roll (formulas B.14 and B.15), in f64.
#![tactic(auto)]

ghost use Rattle.std.specs.Prelude.{◌≡◌};
ghost use Rattle.start_of_roll.specs.Correction.{beside_at, behind_at, correction_at_angle, answer_reading, IsFinite};

use quantity::Refusal;

// Where a point lies from the start of roll, with its correction in dB. In front there is none.
#[derive(Clone, Copy)]
pub enum Correction {
    InFront,
    Beside(f64),
    Behind(f64),
}

// B.14, each operation rounded once.
fn beside_at(angle: f64) -> f64
    ensures { result ≡ beside_at angle }
{
    51.44 - 1.553 * angle + 0.015147 * (angle * angle) - 0.000047173 * (angle * angle * angle)
}

// B.15, each operation rounded once; its signs are not those of B.14, so that one formula for both would turn some.
fn behind_at(angle: f64) -> f64
    ensures { result ≡ behind_at angle }
{
    339.18 - 2.5802 * angle - 0.0045545 * (angle * angle) + 0.000044193 * (angle * angle * angle)
}

// The correction at an angle in degrees, between the line from the start of roll to the point and the runway.
pub fn correction_at_angle(angle: f64) -> Result<Correction, Refusal>
    ensures result_value { answer_reading result ≡ correction_at_angle angle }
    ensures finite { IsFinite (answer_reading result) }
{
    if !floats::is_within(0.0, 180.0, angle) {
        return Err(Refusal::AngleOutside);
    }
    if angle < 90.0 {
        return Ok(Correction::InFront);
    }
    if angle <= 148.4 {
        return Ok(Correction::Beside(beside_at(angle)));
    }
    Ok(Correction::Behind(behind_at(angle)))
}
