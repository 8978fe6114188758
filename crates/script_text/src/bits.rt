// The words of a line that are f64 numbers, each by its bits in hexadecimal digits, of which the last sixteen count.
use crate::words::{Values, Word};

// A call has at most this many: some more than a table may have.
const MOST: usize = 128;

// A word as far as it is read: the bits that its digits are.
#[derive(Clone, Copy)]
struct Digits(Option<u64>);

impl Word for Digits {
    type Value = f64;

    fn begun(_byte: u8) -> Digits {
        Digits(None)
    }

    // One digit more pushes out the first of sixteen.
    fn longer(self, byte: u8) -> Option<Digits> {
        let digit = match byte {
            b'0'..=b'9' => byte - b'0',
            b'a'..=b'f' => byte - b'a' + 10,
            _ => return None,
        };
        let last = self.0.unwrap_or(0) % 0x1000_0000_0000_0000;
        Some(Digits(Some(last * 16 + u64::from(digit))))
    }

    fn value(self) -> Option<(f64, u32)> {
        Some((std::num::f64_from_bits_with_nan(self.0?), 1))
    }
}

// Reads the values of a call, behind its name.
pub fn read(call: &[u8]) -> Values<f64, MOST> {
    let mut words = call.splitn(2, |b| *b == b' ');
    words.next();
    let mut values = Values::new();
    values.read::<Digits>(words.next().unwrap_or(&[]));
    values
}
