// Natural numbers as runs of 32-bit limbs, least first, over slices of any length: what GMP's mpn layer does, by one proof for every length.
// A clause `whole` gives the number, a clause `digits` the very limbs.
#![tactic(auto)]

ghost use Rattle.std.specs.Prelude.{◌≡◌, ◌==◌, ◌+◌, ◌*◌, ◌/◌, ◌%◌, ◌^◌, ◌≤◌, ◌<◌, length, get_or, ltb};
ghost use Rattle.std.specs.List.{list_all};
ghost use Rattle.limbs.specs.Value.{base, value, limbs_of};

// A limb is below it.
const BASE: u64 = 4294967296;

// A number of two limbs: `low` + 2^32 * `high`.
#[derive(Clone, Copy)]
pub struct Wide {
    pub low: u32,
    pub high: u32,
}

// `x` as two limbs.
pub fn split(x: u64) -> Wide
    ensures { result.low + result.high * base ≡ x }
{
    Wide {
        low: (x % BASE) as u32,
        high: (x / BASE) as u32,
    }
}

fn limb_product(a: u32, b: u32, carry: u32) -> Wide
    ensures { result.low + result.high * base ≡ a * b + carry }
{
    split((a as u64) * (b as u64) + (carry as u64))
}

// `a` times `k`, in place; the result is the limb that is carried out.
pub fn scale(a: &mut [u32], k: u32) -> u32
    ensures whole { value a.new + result * base ^ length a.old ≡ value a.old * k }
    ensures digits { a.new ≡ limbs_of (length a.old) (value a.old * k) }
{
    let mut carry = 0;
    for limb in a.iter_mut() {
        let t = limb_product(*limb, k, carry);
        *limb = t.low;
        carry = t.high;
    }
    carry
}

fn limb_sum(a: u32, b: u32, carry: u32) -> Wide
    ensures { result.low + result.high * base ≡ a + b + carry }
{
    split((a as u64) + (b as u64) + (carry as u64))
}

// `a` plus `b`, in place; the result is the limb that is carried out.
pub fn add(a: &mut [u32], b: &[u32]) -> u32
    requires { length a.old ≡ length b.now }
    ensures whole { value a.new + result * base ^ length a.old ≡ value a.old + value b.now }
    ensures digits { a.new ≡ limbs_of (length a.old) (value a.old + value b.now) }
{
    let mut carry = 0;
    for (i, limb) in a.iter_mut().enumerate() {
        let t = limb_sum(*limb, b[i], carry);
        *limb = t.low;
        carry = t.high;
    }
    carry
}

// A quotient of one limb, and what is left.
#[derive(Clone, Copy)]
struct Division {
    quotient: u32,
    remainder: u32,
}

// The limb `low` below a remainder `high` of the limbs above it, divided by `d`.
fn limb_quotient(high: u32, low: u32, d: u32) -> Division
    requires { high < d }
    ensures { (result.quotient * d + result.remainder ≡ high * base + low) × (result.remainder < d) }
{
    let x = (high as u64) * BASE + (low as u64);
    Division {
        quotient: (x / (d as u64)) as u32,
        remainder: (x % (d as u64)) as u32,
    }
}

// `a` divided by `d`, in place; the result is the remainder.
pub fn divide(a: &mut [u32], d: u32) -> u32
    requires { 0 < d }
    ensures whole { (value a.new * d + result ≡ value a.old) × (result < d) }
    ensures quotient { value a.new ≡ value a.old / d }
    ensures digits { a.new ≡ limbs_of (length a.old) (value a.old / d) }
{
    let mut remainder = 0;
    for i in (0..a.len()).rev() {
        let t = limb_quotient(remainder, a[i], d);
        a[i] = t.quotient;
        remainder = t.remainder;
    }
    remainder
}

// `a` becomes the number that `b` is. The clause `below` bounds it for callers that hold `b` as an array.
pub fn load(a: &mut [u32], b: &[u32])
    requires { length b.now ≤ length a.old }
    ensures whole { value a.new ≡ value b.now }
    ensures digits { a.new ≡ limbs_of (length a.old) (value b.now) }
    ensures below { value b.now < base ^ length b.now }
{
    let (low, high) = a.split_at_mut(b.len());
    low.copy_from_slice(b);
    high.fill(0);
}

// `a` becomes the number `x`.
pub fn put(a: &mut [u32], x: u64)
    requires { 2 ≤ length a.old }
    ensures whole { value a.new ≡ x }
    ensures digits { a.new ≡ limbs_of (length a.old) x }
{
    let t = split(x);
    let pair = [t.low, t.high];
    load(a, &pair);
}

// Whether all limbs are 0.
fn are_zero(limbs: &[u32]) -> bool
    ensures { result ≡ list_all (λ x. x == 0) limbs.now }
{
    limbs.iter().all(|limb| *limb == 0)
}

// Whether `a` is a number that a u64 holds: each limb above the second is 0.
pub fn fits_u64(a: &[u32]) -> bool
    ensures { result ≡ ltb (value a.now) (base * base) }
{
    a.len() <= 2 || are_zero(&a[2..])
}

// The limb at `i`; one that `a` has not is 0.
fn limb_at(a: &[u32], i: usize) -> u32
    ensures { result ≡ get_or a.now i 0 }
{
    a.get(i).copied().unwrap_or(0)
}

// The two lowest limbs of `a` as a number.
pub fn low_u64(a: &[u32]) -> u64
    ensures { result ≡ value a.now % (base * base) }
{
    (limb_at(a, 0) as u64) + (limb_at(a, 1) as u64) * BASE
}
