// The verdict on a piece of land: its class by its code, the limit of its class, and what a year's level and Lmax exceed.
#![tactic(auto)]

ghost use Rattle.std.specs.Prelude.{◌≡◌, ◌≤◌, false, pos, ◌-ℤ◌};
ghost use Rattle.quantity.specs.Answers.{reading, highest_reading};
ghost use Rattle.quantity.specs.Limits.{highest_day_level};
ghost use Rattle.quantity.specs.Scale.{is_level_outside, is_reading_outside};
ghost use Rattle.quantity.specs.Rules.{refused, follow};
ghost use Rattle.land.specs.Classes.{class_of, limit_of};
ghost use Rattle.land.specs.Answers.{
  class_number,
  land_class_reading,
  limit_reading,
  margin_reading,
  finding_reading,
  verdict_reading,
};
ghost use Rattle.land.specs.Verdict.{
  over,
  exceeds,
  margin_of,
  negative,
  over_maximum,
  finding_of,
  land_class_of,
  verdict_of,
};

use quantity::{Level, Reading, Refusal};

// Lmax at a sensitive building is not above it.
const HIGHEST_MAXIMUM: u32 = 9000;

// The classes of land use, I to IV.
#[derive(Clone, Copy)]
pub enum LandClass {
    One,
    Two,
    Three,
    Four,
}

// What a verdict names.
#[derive(Clone, Copy)]
pub enum Finding {
    Within,
    OverLevel,
    OverMaximum,
    Both,
    NoLimit,
}

// A verdict: what it names, and the margin.
#[derive(Clone, Copy)]
pub struct Assessment {
    pub finding: Finding,
    pub margin: Option<i32>,
}

// The number of a class in document 01.
impl From<LandClass> for u8 {
    ghost from_gives = { λ class number. number ≡ class_number class };

    fn from(class: LandClass) -> u8 {
        match class {
            LandClass::One => 1,
            LandClass::Two => 2,
            LandClass::Three => 3,
            LandClass::Four => 4,
        }
    }
}

// The class with a number.
impl TryFrom<u8> for LandClass {
    type Error = Refusal;

    ghost try_from_gives = { λ number class. land_class_reading class ≡ land_class_of number };

    #[tactic(auto, unfolding(quantity::specs::Rules::first_of))]
    fn try_from(number: u8) -> Result<LandClass, Refusal> {
        match number {
            1 => Ok(LandClass::One),
            2 => Ok(LandClass::Two),
            3 => Ok(LandClass::Three),
            4 => Ok(LandClass::Four),
            _ => Err(Refusal::LandUnknown),
        }
    }
}

// The class of the land code of two ASCII bytes.
#[tactic(auto, unfolding(crate::specs::Classes::class_of, quantity::specs::Rules::first_of))]
pub fn land_class(letter: u8, digit: u8) -> Result<LandClass, Refusal>
    ensures { land_class_reading result ≡ land_class_of (class_of letter digit) }
{
    match (letter, digit) {
        (b'R', b'0'..=b'9') => Ok(LandClass::One),
        (b'A', b'1'..=b'2') => Ok(LandClass::Two),
        (b'A', b'3' | b'5'..=b'6' | b'8'..=b'9') => Ok(LandClass::One),
        (b'A', b'4' | b'7') => Ok(LandClass::Three),
        (b'B', b'1'..=b'2' | b'9') => Ok(LandClass::Two),
        (b'B', b'3'..=b'4') => Ok(LandClass::Three),
        (b'M' | b'W', b'0'..=b'9') => Ok(LandClass::Three),
        (b'S' | b'U', b'0'..=b'9') => Ok(LandClass::Four),
        (b'G', b'1' | b'3') => Ok(LandClass::Three),
        (b'G', b'2') => Ok(LandClass::Four),
        _ => Err(Refusal::LandUnknown),
    }
}

// The limit of table 1.
pub fn limit_of(class: LandClass) -> Option<Level>
    ensures { limit_reading result ≡ limit_of (class_number class) }
{
    match class {
        LandClass::One => Some(Level(5700)),
        LandClass::Two => Some(Level(6200)),
        LandClass::Three => Some(Level(6700)),
        LandClass::Four => None,
    }
}

// Whether the highest Lmax exceeds a bound.
fn highest_exceeds(highest: Option<Level>, bound: u32) -> bool
    ensures { result ≡ exceeds (highest_reading highest) bound }
{
    highest.is_some_and(|level| bound < level.0)
}

// A limit minus a level.
fn difference(limit: u32, level: i32) -> i32
    requires { (limit ≤ highest_day_level) × (is_level_outside level ≡ false) }
    ensures { result ≡ pos limit -ℤ level }
{
    (limit as i32) - level
}

// Whether a margin is negative.
fn is_negative(margin: Option<i32>) -> bool
    ensures { result ≡ negative (margin_reading margin) }
{
    margin.is_some_and(|m| m < 0)
}

// Whether Lmax exceeds 90 dB at a sensitive building on land of class I or II.
fn over_maximum(class: LandClass, sensitive: bool, highest: Option<Level>) -> bool
    ensures { result ≡ over_maximum (class_number class) sensitive (highest_reading highest) }
{
    matches!(class, LandClass::One | LandClass::Two)
        && sensitive
        && highest_exceeds(highest, HIGHEST_MAXIMUM)
}

// What a verdict names where there is a limit.
fn named(level: bool, maximum: bool) -> Finding
    ensures { finding_reading result ≡ over level maximum }
{
    match (level, maximum) {
        (true, true) => Finding::Both,
        (true, false) => Finding::OverLevel,
        (false, true) => Finding::OverMaximum,
        (false, false) => Finding::Within,
    }
}

// The margin of a year's level to a limit, neither of them outside.
fn margin_of(limit: Option<Level>, yearly: Reading) -> Option<i32>
    requires { (exceeds (limit_reading limit) highest_day_level ≡ false) × (is_reading_outside (reading yearly) ≡ false) }
    ensures { margin_reading result ≡ margin_of (limit_reading limit) (reading yearly) }
{
    match (limit, yearly) {
        (Some(most), Reading::At(level)) => Some(difference(most.0, level.0)),
        _ => None,
    }
}

// What a verdict names, with a limit or without.
fn finding_of(limit: Option<Level>, margin: Option<i32>, maximum: bool) -> Finding
    ensures { finding_reading result ≡ finding_of (limit_reading limit) (margin_reading margin) maximum }
{
    match limit {
        None => Finding::NoLimit,
        Some(_) => named(is_negative(margin), maximum),
    }
}

// The verdict on land of a class.
#[tactic(auto, using(crate::proofs::Assessing::known_class), unfolding(quantity::specs::Rules::first_of))]
fn assess(
    class: LandClass,
    yearly: Reading,
    sensitive: bool,
    highest: Option<Level>,
) -> Result<Assessment, Refusal>
    ensures { verdict_reading result ≡ verdict_of (class_number class) (reading yearly) sensitive (highest_reading highest) }
{
    if quantity::is_reading_outside(yearly) {
        return Err(Refusal::RecordLevelOutside);
    }
    if highest_exceeds(highest, quantity::HIGHEST_SAMPLE) {
        return Err(Refusal::LevelTooHigh);
    }
    let limit = limit_of(class);
    let margin = margin_of(limit, yearly);
    let finding = finding_of(limit, margin, over_maximum(class, sensitive, highest));
    Ok(Assessment { finding, margin })
}

// The verdict on land of the class with this number, for a year's level, a sensitive building or none, and the highest Lmax.
pub fn verdict(
    class: u8,
    yearly: Reading,
    sensitive: bool,
    highest: Option<Level>,
) -> Result<Assessment, Refusal>
    ensures { verdict_reading result ≡ verdict_of class (reading yearly) sensitive (highest_reading highest) }
{
    assess(LandClass::try_from(class)?, yearly, sensitive, highest)
}

// The verdict on land with this code.
pub fn verdict_of_code(
    letter: u8,
    digit: u8,
    yearly: Reading,
    sensitive: bool,
    highest: Option<Level>,
) -> Result<Assessment, Refusal>
    ensures { verdict_reading result ≡ verdict_of (class_of letter digit) (reading yearly) sensitive (highest_reading highest) }
{
    assess(land_class(letter, digit)?, yearly, sensitive, highest)
}
