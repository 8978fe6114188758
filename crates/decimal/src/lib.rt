// A number in decimal, as ASCII bytes.
#![tactic(auto)]

ghost use Rattle.std.specs.Prelude.{◌≡◌, ℕ, ◌+◌, ◌^◌, ◌<◌, ◌≤◌, length, take, drop};
ghost use Rattle.std.specs.Counts.{IsPrefixLen};
ghost use Rattle.decimal.specs.Digits.{digit, digits_within, decimal};

// The digit of a number below ten.
fn digit_of(n: u64) -> u8
    requires { n < 10 }
    ensures { result ≡ digit n }
{
    b'0' + n as u8
}

// Puts a number of at most so many digits at the front of a buffer, and gives their count.
#[tactic(auto, using(std::proofs::lemmas::Grind::common_steps, crate::proofs::Decimal::one_digit, crate::proofs::Decimal::one_more))]
fn put_within(n: u64, most: usize, out: &mut [u8; 20]) -> usize
    requires fewest { 0 < most }
    requires most { most ≤ 20 }
    requires holds { n < 10 ^ most }
    ensures size { result ≤ most }
    ensures digits { take result out.new ≡ digits_within most n }
    ensures rest { drop result out.new ≡ drop result out.old }
{
    if n < 10 {
        out[0] = digit_of(n);
        return 1;
    }
    let count = put_within(n / 10, most - 1, out);
    out[count] = digit_of(n % 10);
    count + 1
}

// Puts a number's digits at the front of a buffer, and gives their count: a slice of them could not say that the rest of the buffer stays.
pub fn put_digits(n: u64, out: &mut [u8; 20]) -> usize
    ensures in_bounds { IsPrefixLen result out.new }
    ensures fewest { (m : ℕ) → 0 < m → n < 10 ^ m → result ≤ m }
    ensures digits { take result out.new ≡ decimal n }
    ensures rest { drop result out.new ≡ drop result out.old }
{
    put_within(n, 20, out)
}
