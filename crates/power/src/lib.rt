// Powers of ten at levels: e(c), which is 10^(c / 1000) to ten digits, is a mantissa of this table times a power of ten.
#![tactic(auto)]

ghost use Rattle.std.specs.Prelude.{◌≡◌, ◌*◌, ◌≤◌, ◌<◌};
ghost use Rattle.power.specs.Power.{m, G};

mod mantissas;

// m(f), looked up in the table.
pub fn mantissa(f: usize) -> u64
    requires { f < 1000 }
    ensures entry { result ≡ m f }
    ensures ten_digits { (G ≤ result) × (result < 10 * G) }
{
    mantissas::MANTISSAS[f]
}
