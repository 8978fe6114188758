// The words of a line that are numbers in decimal, '-' as below scale or no Lmax, and 8000*3 as 8000 8000 8000. A number is held in 32 bits, a
// negative one in two's complement.
use crate::words::{Values, Word};
use arrayvec::ArrayVec;

// A call has at most this many numbers.
pub const MOST: usize = 24016;

// The numbers of a call.
pub type Numbers = Values<u32, MOST>;

// What '-' stands for among the numbers: below scale, as C has it, by its bits; or no Lmax.
pub const NONE: u32 = 2147483648;

// What stands for no Lmax in C.
pub const NO_LMAX: u32 = 4294967295;

// A word as far as it is read: the number that its digits are, whether '-' stands before them, and the number before '*', behind which the digits say
// how often that number stands there.
#[derive(Clone, Copy)]
struct Number {
    digits: Option<u32>,
    negative: bool,
    repeated: Option<u32>,
}

impl Number {
    // '-' alone is NONE, and before digits it is their number taken from 0.
    fn once(self) -> Option<u32> {
        if self.negative {
            return Some(self.digits.map_or(NONE, u32::wrapping_neg));
        }
        self.digits
    }
}

// A number with one digit more; one that would pass 32 bits stays.
fn with_digit(number: u32, digit: u8) -> u32 {
    let longer = 10 * u64::from(number) + u64::from(digit);
    u32::try_from(longer).unwrap_or(number)
}

impl Word for Number {
    type Value = u32;

    fn begun(byte: u8) -> Number {
        Number {
            digits: None,
            negative: byte == b'-',
            repeated: None,
        }
    }

    fn longer(self, byte: u8) -> Option<Number> {
        match byte {
            b'0'..=b'9' => Some(Number {
                digits: Some(with_digit(self.digits.unwrap_or(0), byte - b'0')),
                ..self
            }),
            b'*' => Some(Number {
                digits: None,
                negative: false,
                repeated: Some(self.once().unwrap_or(0)),
            }),
            _ => None,
        }
    }

    fn value(self) -> Option<(u32, u32)> {
        if let Some(repeated) = self.repeated {
            return Some((repeated, self.digits.unwrap_or(0)));
        }
        Some((self.once()?, 1))
    }
}

// Reads the numbers of a call.
pub fn read(call: &[u8], numbers: &mut Numbers) {
    numbers.read::<Number>(call);
}

// A number in 16 bits and in 8, at the most the largest.
pub fn in_16_bits(n: u32) -> u16 {
    u16::try_from(n).unwrap_or(u16::MAX)
}

pub fn in_8_bits(n: u32) -> u8 {
    u8::try_from(n).unwrap_or(u8::MAX)
}

// A number as an Lmax.
pub fn lmax(n: u32) -> u32 {
    if n == NONE { NO_LMAX } else { n }
}

// Some numbers, each in another form.
pub fn all<T: Default + Drop, F: Fn(u32) -> T>(numbers: &[u32], form: F) -> ArrayVec<T, MOST>
    requires { F.IsAlwaysCallable form }
{
    let mut all = ArrayVec::new();
    for number in numbers {
        if all.try_push(form(*number)).is_err() {
            break;
        }
    }
    all
}

#[cfg(test)]
mod tests {
    use super::*;

    #[test]
    fn each_number_in_another_form(rt: HostRuntime) {
        let all = all(&[7, 65535, 65536, 0], in_16_bits);
        assert_eq!(rt; all.as_slice(), [7u16, 65535, 65535, 0].as_slice());
    }

    #[test]
    fn of_no_numbers_none(rt: HostRuntime) {
        let all = all(&[], u32::cast_signed);
        assert!(rt; all.is_empty());
    }

    #[test]
    fn as_many_as_there_is_room_for(rt: HostRuntime) {
        let mut numbers = [3; MOST + 1];
        numbers[0] = 2;
        numbers[MOST] = 4;
        let all = all(&numbers, in_8_bits);
        assert_eq!(rt; all.len(), MOST);
        assert_eq!(rt; all.as_slice().first(), Some(&2));
        assert_eq!(rt; all.as_slice().last(), Some(&3));
    }
}
