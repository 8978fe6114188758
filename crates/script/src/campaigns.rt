// The call `mixes` of a script, made through the function that C calls.
use crate::calls;
use script_text::answers::Text;
use script_text::numbers::{Numbers, in_16_bits};
use script_text::words::Values;

// No more numbers are lent: some more than a table may need.
const MOST_LENT: usize = 16384;

// What stands in each number of the table before the call, and in the count.
const BEFORE: u64 = 7;

// How many numbers of the table a call that is not refused may change. No such call has more classes than 8, or more than 2000 flights to measure.
fn used(classes: usize, measured: u32) -> usize {
    classes.min(8) * (measured.min(2000) as usize + 1)
}

// mixes MEASURED LENT DAY FLIGHTS / NIGHT FLIGHTS: so many numbers are lent for the table
pub fn mixes(numbers: &Numbers) -> Text {
    let measured = numbers.at(0);
    let mut flights = Values::new();
    flights.take_all(numbers, in_16_bits);
    let daytime = flights.before_slash(2);
    let mut room = [BEFORE; MOST_LENT];
    let mut count = BEFORE;
    let answer = c_planning::moatburdock_count_mixes(
        daytime,
        flights.behind_slash(),
        measured,
        &mut room[..(numbers.at(1) as usize).min(MOST_LENT)],
        &mut count,
    );
    let text = calls::answered_in(answer, count != BEFORE, count);
    let kept_from = if answer == 0 {
        used(daytime.len(), measured)
    } else {
        0
    };
    if room.iter().skip(kept_from).all(|number| *number == BEFORE) {
        return text;
    }
    text.with("beyond")
}
