// Runs of day records that a program holds as an array of structs and lends: the means over them, and a record rewritten and read again. What is printed
// is compared with levels of document 01.
#![tactic(auto)]

use quantity::{DayAnswer, Method, Reading, Refusal, SignedLevel};
use std::io::Write;
use std::{fmt, io};

// A level as it is printed, behind a space: '-' below scale.
#[derive(Clone, Copy)]
struct Shown(Reading);

impl fmt::Display for Shown {
    fn fmt<W: fmt::Write>(&self, f: &mut fmt::Formatter<W>) -> fmt::Result {
        match self.0 {
            Reading::At(level) => write!(f, " {}", level.0),
            Reading::BelowScale => f.write_str(" -"),
        }
    }
}

// An answer as it is printed: the value, or 'R' and the number of the refusal.
#[derive(Clone, Copy)]
struct Answer<T>(Result<T, Refusal>);

impl<T: fmt::Display> fmt::Display for Answer<T> {
    fn fmt<W: fmt::Write>(&self, f: &mut fmt::Formatter<W>) -> fmt::Result {
        match &self.0 {
            Ok(value) => write!(f, "{value}"),
            Err(refusal) => write!(f, " R {}", u8::from(*refusal)),
        }
    }
}

// A day by method one.
fn day_of(level: i32) -> DayAnswer {
    DayAnswer {
        level: Reading::At(SignedLevel(level)),
        method: Method::One,
    }
}

fn show_mean<W: Write>(
    out: &mut W,
    label: &str,
    answer: Result<Reading, Refusal>,
) -> io::Result<()> {
    write!(out, "{label}{}\n", Answer(answer.map(Shown)))
}

// A record of a week of days of 6000 rewritten ('A' where it is), and the record that is read afterwards.
fn show_rewriting<W: Write>(
    out: &mut W,
    label: &str,
    place: usize,
    new: DayAnswer,
    at: usize,
) -> io::Result<()> {
    let mut days = [day_of(6000); 7];
    let answer = mean::rewrite_record(&mut days, place, new).map(|()| " A");
    let read = mean::read_record(&days, at).map(|day| Shown(day.level));
    write!(out, "{label}{}{}\n", Answer(answer), Answer(read))
}

// Means and records of document 01.
fn show_loud_days<W: Write>(out: &mut W) -> io::Result<()> {
    let six = day_of(6000);
    let seven = day_of(7000);
    let loud = day_of(20001);
    let week = [six, six, six, six, six, six, seven];
    show_mean(
        out,
        "six days 6000 and one 7000, 6359:",
        mean::week_mean(&week),
    )?;
    show_mean(out, "seven days 6000, 6000:", mean::week_mean(&[six; 7]))?;
    show_mean(out, "366 days 6000, 6000:", mean::year_mean(&[six; 366]))?;
    show_mean(out, "367 days, R 13:", mean::year_mean(&[six; 367]))?;
    let week = [six, six, loud, six, six, six, six];
    show_mean(out, "a day above 20000, R 14:", mean::week_mean(&week))?;
    show_rewriting(
        out,
        "the last record rewritten and read, A 7000:",
        6,
        seven,
        6,
    )?;
    show_rewriting(out, "another record read, A 6000:", 6, seven, 5)?;
    show_rewriting(out, "no such place, R 13 and R 13:", 7, seven, 7)?;
    show_rewriting(out, "a level above 20000, R 14 and 6000:", 0, loud, 0)
}

// Those of quiet fields.
fn show_quiet_days<W: Write>(out: &mut W) -> io::Result<()> {
    let six = day_of(6000);
    let minus = day_of(-1);
    let lowest = day_of(-5000);
    let under = day_of(-5001);
    let quiet = DayAnswer {
        level: Reading::BelowScale,
        method: Method::One,
    };
    show_mean(
        out,
        "seven days -5000, -5000:",
        mean::week_mean(&[lowest; 7]),
    )?;
    let week = [lowest, lowest, lowest, quiet, lowest, lowest, lowest];
    show_mean(
        out,
        "a day below scale among them, -:",
        mean::week_mean(&week),
    )?;
    let week = [minus, minus, minus, day_of(845), minus, minus, minus];
    show_mean(out, "six days -1 and one 845, 268:", mean::week_mean(&week))?;
    let week = [six, six, under, six, six, six, six];
    show_mean(out, "a day under -5000, R 14:", mean::week_mean(&week))?;
    show_rewriting(
        out,
        "a record of -5000 written and read, A -5000:",
        3,
        lowest,
        3,
    )?;
    show_rewriting(out, "a record of -1 written and read, A -1:", 3, minus, 3)?;
    show_rewriting(out, "a level under -5000, R 14 and 6000:", 0, under, 0)
}

fn main(rt: HostRuntime) -> io::Result<()> {
    let mut out = rt.stdout();
    show_loud_days(&mut out)?;
    show_quiet_days(&mut out)
}
