// The call `hour` of a script, made through the function that C calls.
use crate::calls;
use script_text::answers::Text;
use script_text::numbers::Numbers;

// What stands in each half before the call, and in no answer of a case.
const BEFORE: u64 = 7;

// hour HOUR: the lower half of its energy, then the upper one
pub fn energy_of_hour(day: &[u32; 320], numbers: &Numbers) -> Text {
    let mut energy = [BEFORE; 2];
    c_interface::moatburdock_hour_energy(day, numbers.at(0), &mut energy);
    let [lower, upper] = energy;
    calls::answered(0).with(lower).with(upper)
}
