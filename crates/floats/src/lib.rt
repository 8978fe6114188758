// What the computations on f64 share.
#![tactic(auto)]

ghost use Rattle.std.specs.Prelude.{◌≡◌};
ghost use Rattle.floats.specs.Arithmetic.{within};

// Whether x is from low to high. A NaN is in no range, and bounds no range.
pub fn is_within(low: f64, high: f64, x: f64) -> bool
    ensures { result ≡ within low high x }
{
    low <= x && x <= high
}
