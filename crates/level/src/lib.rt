// The level of a sum over a divisor: the quotient is cut to its ten leading digits, and these are looked up among the mantissas.
#![tactic(auto)]

ghost use Rattle.std.specs.Prelude.{◌≡◌, ℕ, ◌+◌, ◌*◌, ◌/◌, ◌^◌, ◌≤◌, ◌<◌};
ghost use Rattle.quantity.specs.Answers.{reading};
ghost use Rattle.quantity.specs.Scale.{depth_factor};
ghost use Rattle.power.specs.Power.{G, m};
ghost use Rattle.limbs.specs.Value.{base, value};
ghost use Rattle.level.specs.Level.{reading_at, largest_level, level_of};
ghost use Rattle.level.specs.Leading.{Leads, Found, without};

use quantity::Reading;

// The first mantissa, m(0).
pub const UNIT: u64 = 1000000000;

// The depth of the scale below 0 as a factor of energies: 50 dB are five decades.
pub const DEPTH_FACTOR: u32 = 100000;

// The turns that close any range of the thousand mantissas, since each turn halves it: 2^10 is 1024.
const MOST_TURNS: u32 = 10;

// A number cut to its leading digits, and the number of decimal digits that were omitted.
#[derive(Clone, Copy)]
pub struct Leading {
    pub digits: u64,
    pub omitted: u32,
    ghost few: { omitted ≤ 100 },
}

// The place of the largest mantissa that is at most the digits. The search stops when one place is left; the count shows that the turns do not run out
// before.
fn place_of(digits: u64) -> u32
    requires { (G ≤ digits) × (digits < 10 * G) }
    ensures { Found digits result }
{
    let mut low: u32 = 0;
    let mut high: u32 = 1000;
    let mut turns_left = MOST_TURNS;
    while low + 1 < high {
        turns_left -= 1;
        let middle = (low + high) / 2;
        if power::mantissa(middle as usize) <= digits {
            low = middle;
        } else {
            high = middle;
        }
    }
    low
}

// The same number, cut to ten digits at the most, and how many digits are then omitted.
fn ten_digits(number: Leading) -> (u64, u32)
    ensures same { (n : ℕ) → Leads n number.digits number.omitted → Leads n result.0 result.1 }
    ensures short { (result.0 < 10 * G) × (result.1 ≤ 120) }
{
    let mut digits = number.digits;
    let mut omitted = number.omitted;
    // A turn takes a digit off; how many there are is not known before.
    while 10 * UNIT <= digits {
        digits /= 10;
        omitted += 1;
    }
    (digits, omitted)
}

// The reading of a raised level, less an offset.
fn reading_at(height: u32, offset: u32) -> Reading
    requires { height ≤ 200000 }
    ensures { reading result ≡ reading_at (without offset height) }
{
    if height < offset {
        return Reading::BelowScale;
    }
    Reading::At(quantity::lowered(height - offset))
}

// The largest level of which the power is at most a number, whose leading digits are given, with an offset on the table.
pub fn level_of_leading(number: Leading, offset: u32) -> Reading
    ensures { (n : ℕ) → Leads n number.digits number.omitted → reading result ≡ largest_level offset 1 n }
{
    let (digits, omitted) = ten_digits(number);
    if digits < UNIT {
        return Reading::BelowScale;
    }
    reading_at(1000 * omitted + place_of(digits), offset)
}

// The quotient of a sum by a divisor, without its lowest digits where it passes 64 bits. A divisor is a number of a formula, as the definitions have it: that it is above 0 is required of it and
// no type holds it.
fn leading_quotient(sum: [u32; 6], divisor: u32) -> Leading
    requires { 0 < divisor }
    ensures { Leads (value sum / divisor) result.digits result.omitted }
{
    let mut quotient = sum;
    limbs::divide(&mut quotient, divisor);
    let mut omitted: u32 = 0;
    // A turn takes nine digits off; how many there are is not known before.
    while !limbs::fits_u64(&quotient) {
        limbs::divide(&mut quotient, 1000000000);
        omitted += 9;
    }
    Leading {
        digits: limbs::low_u64(&quotient),
        omitted,
    }
}

// A sum times the depth of the scale.
fn deepened(sum: [u32; 6]) -> [u32; 6]
    requires { value sum < 2 * base ^ 5 }
    ensures { value result ≡ depth_factor * value sum }
{
    let mut product = sum;
    limbs::scale(&mut product, DEPTH_FACTOR);
    product
}

// The level of a sum over a divisor, with an offset on the table.
pub fn level_over(sum: [u32; 6], divisor: u32, offset: u32) -> Reading
    requires { (0 < divisor) × (value sum < 2 * base ^ 5) }
    ensures { reading result ≡ level_of offset divisor (value sum) }
{
    let quotient = leading_quotient(deepened(sum), divisor);
    level_of_leading(quotient, offset)
}
