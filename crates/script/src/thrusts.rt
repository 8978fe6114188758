// The call `interpolate` of a script, made through the function that C calls.
use crate::calls;
use script_text::answers::{Bits, Text};
use script_text::bits;

// What stands in the level before the call.
const BEFORE: f64 = 7.0;

// interpolate THRUST THRUSTS / LEVELS
pub fn interpolate(call: &[u8]) -> Text {
    let values = bits::read(call);
    let mut level = BEFORE;
    let answer = c_planning::moatburdock_level_at_thrust(
        values.before_slash(1),
        values.behind_slash(),
        values.at(0),
        &mut level,
    );
    calls::answered_in(answer, level != BEFORE, Bits(level))
}
