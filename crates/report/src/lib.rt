// The lines of the day program, each made into a lent buffer.
#![tactic(auto)]

ghost use Rattle.std.specs.Prelude.{◌≡◌, ℕ, List, [], ◌∷◌, ◌++◌, ◌+◌, ◌≤◌, length, take};
ghost use Rattle.quantity.specs.Answers.{reading, highest_reading, refusal_number};
ghost use Rattle.offering.specs.Offer.{offer_outcome};
ghost use Rattle.closing.specs.Close.{closing_reading, close_outcome};
ghost use Rattle.std.specs.Counts.{IsPrefixLen};
ghost use Rattle.decimal.specs.Digits.{decimal};
ghost use Rattle.runs.specs.Put.{Put};
ghost use Rattle.report.specs.Text.{
  field,
  spaced,
  signed_text,
  reading_text,
  highest_text,
  offer_fields,
  closing_fields,
  close_fields,
  letter_r,
  event_line,
  day_line,
  fault_line,
};

use closing::Closing;
use offering::Accepted;
use quantity::{Level, Reading, Refusal};
use std::marker::Model;

// A line that is being made, of 64 bytes at the most; clauses see the bytes that it has so far.
#[derive(Drop)]
struct Line {
    bytes: [u8; 64],
    size: usize,
}

impl Model for Line {
    ghost Value = { List ℕ };

    ghost view = { λ l. take l.size l.bytes };

    ghost invariant = { λ l. l.size ≤ 64 };
}

// What a field of a line shows, in so many bytes at the most. Not Display: what that writes is promised only where the writer does not fail, and a line never
// does.
trait Show {
    ghost MOST: { ℕ };

    ghost text: { Self → List ℕ };

    fn show(self, line: &mut Line)
        requires { length line.old + MOST ≤ 64 }
        ensures shown { line.new ≡ line.old ++ text self }
        ensures size { length line.new ≤ length line.old + MOST };
}

// A letter.
impl Show for u8 {
    ghost MOST = { 1 };

    ghost text = { λ letter. letter ∷ [] };

    fn show(self, line: &mut Line) {
        line.put(&[self]);
    }
}

impl Show for u32 {
    ghost MOST = { 10 };

    ghost text = { decimal };

    fn show(self, line: &mut Line) {
        let mut digits = [0; 20];
        let count = decimal::put_digits(u64::from(self), &mut digits);
        line.put(&digits[..count]);
    }
}

// '-' before the digits of a negative number.
impl Show for i32 {
    ghost MOST = { 11 };

    ghost text = { signed_text };

    fn show(self, line: &mut Line) {
        if self < 0 {
            line.put(b"-");
        }
        quantity::size_of(self).show(line);
    }
}

// '-' for below scale.
impl Show for Reading {
    ghost MOST = { 11 };

    ghost text = { λ answer. reading_text (reading answer) };

    fn show(self, line: &mut Line) {
        match self {
            Reading::At(level) => level.0.show(line),
            Reading::BelowScale => b'-'.show(line),
        }
    }
}

// '-' where there is no highest level.
impl Show for Option<Level> {
    ghost MOST = { 10 };

    ghost text = { λ highest. highest_text (highest_reading highest) };

    fn show(self, line: &mut Line) {
        match self {
            Some(level) => level.0.show(line),
            None => b'-'.show(line),
        }
    }
}

impl Line {
    fn new(letter: u8) -> Line
        ensures { result ≡ letter ∷ [] }
    {
        let mut line = Line {
            bytes: [0; 64],
            size: 0,
        };
        line.put(&[letter]);
        line
    }

    fn put(&mut self, bytes: &[u8])
        requires { length self.old + length bytes.now ≤ 64 }
        ensures { self.new ≡ self.old ++ bytes.now }
    {
        self.size = runs::put(&mut self.bytes, self.size, bytes);
    }

    fn put_field<T: Show>(&mut self, item: T)
        requires { length self.old + (1 + T.MOST) ≤ 64 }
        ensures put { self.new ≡ self.old ++ field (T.text item) }
        ensures size { length self.new ≤ length self.old + (1 + T.MOST) }
    {
        self.put(b" ");
        item.show(self);
    }

    // Puts the letter R and the number of a refusal.
    fn put_refusal(&mut self, refusal: Refusal)
        requires { length self.old + 13 ≤ 64 }
        ensures put { self.new ≡ self.old ++ spaced (letter_r ∷ decimal (refusal_number refusal) ∷ []) }
        ensures size { length self.new ≤ length self.old + 13 }
    {
        self.put_field(b'R');
        self.put_field(u32::from(u8::from(refusal)));
    }

    // Puts the letter A, LAE and Lmax, or the refusal.
    fn put_offer(&mut self, answer: Result<Accepted, Refusal>)
        requires { length self.old + 25 ≤ 64 }
        ensures put { self.new ≡ self.old ++ spaced (offer_fields (offer_outcome answer)) }
        ensures size { length self.new ≤ length self.old + 25 }
    {
        match answer {
            Ok(accepted) => {
                self.put_field(b'A');
                self.put_field(accepted.exposure);
                self.put_field(accepted.lmax.0);
            }
            Err(refusal) => self.put_refusal(refusal),
        }
    }

    // Puts the letter A, Ldn, the method, Nd', Nn' and the highest Lmax.
    fn put_closing(&mut self, closing: Closing)
        requires { length self.old + 58 ≤ 64 }
        ensures put { self.new ≡ self.old ++ spaced (closing_fields (closing_reading closing)) }
        ensures size { length self.new ≤ length self.old + 58 }
    {
        self.put_field(b'A');
        self.put_field(closing.answer.level);
        self.put_field(u32::from(u8::from(closing.answer.method)));
        self.put_field(closing.day_events);
        self.put_field(closing.night_events);
        self.put_field(closing.highest);
    }

    // Puts what a closing answers, or the refusal.
    fn put_close(&mut self, answer: Result<Closing, Refusal>)
        requires { length self.old + 58 ≤ 64 }
        ensures put { self.new ≡ self.old ++ spaced (close_fields (close_outcome answer)) }
        ensures size { length self.new ≤ length self.old + 58 }
    {
        match answer {
            Ok(closing) => self.put_closing(closing),
            Err(refusal) => self.put_refusal(refusal),
        }
    }

    // Ends the line, and puts it at the beginning of a lent one.
    fn end_in(mut self, line: &mut [u8; 64]) -> usize
        requires { length self + 1 ≤ 64 }
        ensures prefix_len { IsPrefixLen result line.new }
        ensures put { Put line.old 0 (self ++ 10 ∷ []) line.new result }
    {
        self.put(b"\n");
        runs::put(line, 0, &self.bytes[..self.size])
    }
}

// The line of an event: its number, then LAE and Lmax or the refusal.
pub fn event_line(line: &mut [u8; 64], i: u32, answer: Result<Accepted, Refusal>) -> usize
    ensures prefix_len { IsPrefixLen result line.new }
    ensures put { Put line.old 0 (event_line i (offer_outcome answer)) line.new result }
{
    let mut text = Line::new(b'E');
    text.put_field(i);
    text.put_offer(answer);
    text.end_in(line)
}

// The line of a day: Ldn, the method, Nd', Nn' and the highest Lmax, or the refusal.
pub fn day_line(line: &mut [u8; 64], answer: Result<Closing, Refusal>) -> usize
    ensures prefix_len { IsPrefixLen result line.new }
    ensures put { Put line.old 0 (day_line (close_outcome answer)) line.new result }
{
    let mut text = Line::new(b'D');
    text.put_close(answer);
    text.end_in(line)
}

// The line of a fault.
pub fn fault_line(line: &mut [u8; 64], refusal: Refusal) -> usize
    ensures prefix_len { IsPrefixLen result line.new }
    ensures put { Put line.old 0 (fault_line (refusal_number refusal)) line.new result }
{
    let mut text = Line::new(b'F');
    text.put_field(u32::from(u8::from(refusal)));
    text.end_in(line)
}
