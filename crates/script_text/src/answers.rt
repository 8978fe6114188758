// The text of an answer: words, each behind a space.
use crate::numbers;
use arrayvec::ArrayVec;
use std::fmt;
use std::fmt::Display;
use std::io::Write;

// Some text: the bytes up to the count. What does not fit is left out.
#[derive(Clone, Copy)]
pub struct Text {
    pub bytes: [u8; 128],
    pub count: usize,
}

impl Text {
    pub fn new() -> Text {
        Text {
            bytes: [0; 128],
            count: 0,
        }
    }

    // The text with a word more.
    pub fn with<D: Display + Drop>(mut self, word: D) -> Text {
        let mut more = ArrayVec::<u8, 128>::new();
        let _fits = write!(more, " {word}");
        let at = self.count.min(128);
        let behind = at + more.len().min(128 - at);
        self.bytes[at..behind].copy_from_slice(&more.as_slice()[..behind - at]);
        self.count = behind;
        self
    }

    pub fn as_bytes(&self) -> &[u8] {
        &self.bytes[..self.count.min(128)]
    }
}

// 'A', or 'R' and the number of the refusal.
#[derive(Clone, Copy)]
pub struct Answer(pub u8);

impl Display for Answer {
    fn fmt<W: fmt::Write>(&self, f: &mut fmt::Formatter<W>) -> fmt::Result {
        match self.0 {
            0 => write!(f, "A"),
            refusal => write!(f, "R {refusal}"),
        }
    }
}

// Lmax, or '-' for none.
#[derive(Clone, Copy)]
pub struct Lmax(pub u32);

impl Display for Lmax {
    fn fmt<W: fmt::Write>(&self, f: &mut fmt::Formatter<W>) -> fmt::Result {
        match self.0 {
            numbers::NO_LMAX => write!(f, "-"),
            lmax => write!(f, "{lmax}"),
        }
    }
}

// A level, or '-' for below scale.
#[derive(Clone, Copy)]
pub struct Level(pub i32);

impl Display for Level {
    fn fmt<W: fmt::Write>(&self, f: &mut fmt::Formatter<W>) -> fmt::Result {
        match self.0 {
            i32::MIN => write!(f, "-"),
            level => write!(f, "{level}"),
        }
    }
}

// A margin; the largest number stands for none.
#[derive(Clone, Copy)]
pub struct Margin(pub i32);

impl Display for Margin {
    fn fmt<W: fmt::Write>(&self, f: &mut fmt::Formatter<W>) -> fmt::Result {
        match self.0 {
            i32::MAX => write!(f, "none"),
            margin => write!(f, "{margin}"),
        }
    }
}

// What a verdict names, by its number in C.
#[derive(Clone, Copy)]
pub struct Finding(pub u8);

impl Display for Finding {
    fn fmt<W: fmt::Write>(&self, f: &mut fmt::Formatter<W>) -> fmt::Result {
        match self.0 {
            0 => write!(f, "within"),
            1 => write!(f, "over level"),
            2 => write!(f, "over maximum"),
            3 => write!(f, "both"),
            _ => write!(f, "no limit"),
        }
    }
}

// The bits of an f64, or 'NaN', whose bits are left free.
#[derive(Clone, Copy)]
pub struct Bits(pub f64);

impl Display for Bits {
    fn fmt<W: fmt::Write>(&self, f: &mut fmt::Formatter<W>) -> fmt::Result {
        let x = self.0;
        if x.is_nan() {
            return write!(f, "NaN");
        }
        let bits = x.to_bits();
        write!(f, "{bits:016x}")
    }
}
