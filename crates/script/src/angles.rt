// The call `degrees` of a script, made through the function that C calls.
use crate::calls;
use script_text::answers::{Bits, Text};
use script_text::bits;

// What stands before the call in what it is lent. No position has this number, and no angle this correction.
const POSITION_BEFORE: u8 = 7;

const CORRECTION_BEFORE: f64 = 7.0;

// Where a point lies, by its number in C, or nothing where the call left that as it was.
fn with_position(text: Text, position: u8) -> Text {
    match position {
        0 => text.with("in front"),
        1 => text.with("beside"),
        2 => text.with("behind"),
        POSITION_BEFORE => text,
        _ => text.with(position),
    }
}

// The bits of a correction, or nothing where the call left that as it was.
fn with_correction(text: Text, correction: f64) -> Text {
    if correction == CORRECTION_BEFORE {
        return text;
    }
    text.with(Bits(correction))
}

// degrees ANGLE
pub fn degrees(call: &[u8]) -> Text {
    let mut position = POSITION_BEFORE;
    let mut correction = CORRECTION_BEFORE;
    let answer = c_planning::moatburdock_correction_at_angle(
        bits::read(call).at(0),
        &mut position,
        &mut correction,
    );
    with_correction(with_position(calls::answered(answer), position), correction)
}
