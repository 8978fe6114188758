// The call `pair` of a script, made through the function that C calls.
use crate::calls;
use script_text::answers::Text;
use script_text::numbers::Numbers;
use script_text::words::Values;

// No more marks are lent for a list: some more than a list may have entries.
const MOST_MARKS: usize = 2048;

// No more marks of a list are shown.
const MOST_SHOWN: usize = 8;

// What stands in each mark before the call.
const BEFORE: u16 = 7;

// The text, and behind '/' the first marks of a list.
fn with_marks(text: Text, marks: &[u16]) -> Text {
    let mut text = text.with("/");
    for mark in marks.iter().take(MOST_SHOWN) {
        text = text.with(*mark);
    }
    text
}

// pair TOLERANCE MARKS MARKS MOVEMENTS / PEAKS: so many marks are lent for the movements, and so many for the peaks
pub fn pair(numbers: &Numbers) -> Text {
    let mut times = Values::new();
    times.take_all(numbers, u32::cast_signed);
    let mut movement_room = [BEFORE; MOST_MARKS];
    let mut peak_room = [BEFORE; MOST_MARKS];
    let movement_marks = &mut movement_room[..(numbers.at(1) as usize).min(MOST_MARKS)];
    let peak_marks = &mut peak_room[..(numbers.at(2) as usize).min(MOST_MARKS)];
    let mut count = 0;
    let answer = c_interface::moatburdock_pair_movements(
        times.before_slash(3),
        times.behind_slash(),
        numbers.at(0),
        movement_marks,
        peak_marks,
        &mut count,
    );
    let text = calls::answered_with(answer, |text| text.with(count));
    with_marks(with_marks(text, movement_marks), peak_marks)
}
