// Little-endian numbers in a run of bytes. What lies outside the run is the caller's to see: each function requires that its bytes are there.
#![tactic(auto)]

ghost use Rattle.std.specs.Prelude.{◌≡◌, ◌+◌, ◌*◌, ◌≤◌, ◌<◌, length};
ghost use Rattle.little_endian.specs.Bytes.{one_byte, two_bytes, four_bytes, numbers_at};

// The number in one byte.
pub fn one_byte(bytes: &[u8], at: usize) -> u16
    requires { at + 1 ≤ length bytes.now }
    ensures { (result ≡ one_byte bytes.now at) × (result < 256) }
{
    u16::from(bytes[at])
}

// The number in two bytes, the lower one first.
pub fn two_bytes(bytes: &[u8], at: usize) -> u16
    requires { at + 2 ≤ length bytes.now }
    ensures { result ≡ two_bytes bytes.now at }
{
    u16::from_le_bytes([bytes[at], bytes[at + 1]])
}

// The number in four bytes, the lowest one first.
pub fn four_bytes(bytes: &[u8], at: usize) -> u32
    requires { at + 4 ≤ length bytes.now }
    ensures { result ≡ four_bytes bytes.now at }
{
    u32::from_le_bytes([bytes[at], bytes[at + 1], bytes[at + 2], bytes[at + 3]])
}

// Fills a run with numbers of two bytes each: the first at a place, each a step behind the one before.
#[tactic(auto, unfolding(crate::specs::Bytes::numbers_at))]
pub fn read_numbers(bytes: &[u8], at: usize, step: usize, numbers: &mut [u16])
    requires { at + step * length numbers.old + 2 ≤ length bytes.now + step }
    ensures { numbers.new ≡ numbers_at bytes.now at step (length numbers.old) }
{
    for (i, number) in numbers.iter_mut().enumerate() {
        *number = two_bytes(bytes, at + step * i);
    }
}
