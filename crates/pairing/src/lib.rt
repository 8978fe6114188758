// The tower's movements held against the peaks of events: a largest pairing of two rising lists of times.
#![tactic(auto)]

ghost use Rattle.std.specs.Prelude.{◌≡◌, false, not, ◌+◌, ◌<◌, ltb, length, replicate};
ghost use Rattle.quantity.specs.Instants.{ticks_of};
ghost use Rattle.quantity.specs.Numbers.{distance};
ghost use Rattle.pairing.specs.Pairing.{instants, Largest};
ghost use Rattle.pairing.specs.Answers.{most_entries, falls, unfit, pairing_reading, Answered};

use quantity::Refusal;

// No list has more entries.
const MOST_ENTRIES: usize = 2000;

// Whether a list falls: some time in it is earlier than the one before.
fn has_fall(times: &[i32]) -> bool
    ensures { result ≡ falls (instants times.now) }
{
    !times.is_sorted_by(
        |time, next| -> bool
            ensures { result ≡ not (ltb (ticks_of next.now) (ticks_of time.now)) }
        { time <= next },
    )
}

// Whether a list is refused with the marks that are lent for it.
#[tactic(auto, using(crate::proofs::Instants::as_many, crate::proofs::Rising::too_long, crate::proofs::Rising::other_length, crate::proofs::Rising::by_fall))]
fn is_unfit(times: &[i32], marks: &[u16]) -> bool
    ensures { result ≡ unfit (instants times.now) marks.now }
{
    MOST_ENTRIES < times.len() || marks.len() != times.len() || has_fall(times)
}

// How far apart two times are.
fn distance(time: i32, other: i32) -> u32
    ensures { result ≡ distance (ticks_of time) (ticks_of other) }
{
    time.abs_diff(other)
}

// The mark that names a place.
fn mark_of(place: usize) -> u16
    requires { place < most_entries }
    ensures { result ≡ place + 1 }
{
    (place + 1) as u16
}

// Pairs the first movement and the first peak that are left where the tolerance allows it, and leaves the earlier of the two unpaired otherwise:
// it is too early for all that follow in the other list.
fn pair_all(
    movements: &[i32],
    peaks: &[i32],
    tolerance: u32,
    movement_marks: &mut [u16],
    peak_marks: &mut [u16],
) -> u16
    requires fit { (unfit (instants movements.now) movement_marks.old ≡ false) × (unfit (instants peaks.now) peak_marks.old ≡ false) }
    requires clear { (movement_marks.old ≡ replicate (length movement_marks.old) 0) × (peak_marks.old ≡ replicate (length peak_marks.old) 0) }
    ensures { Largest (instants movements.now) (instants peaks.now) tolerance
        (record { movements = movement_marks.new; peaks = peak_marks.new })
        result }
{
    let mut i = 0;
    let mut j = 0;
    let mut count: u16 = 0;
    // Each turn moves on in one list or in both, and a mark names a place, so the places are counted.
    while i < movements.len() && j < peaks.len() {
        let movement = movements[i];
        let peak = peaks[j];
        if distance(movement, peak) <= tolerance {
            movement_marks[i] = mark_of(j);
            peak_marks[j] = mark_of(i);
            count += 1;
            i += 1;
            j += 1;
        } else if movement < peak {
            i += 1;
        } else {
            j += 1;
        }
    }
    count
}

// Pairs movements with peaks that are no further apart than the tolerance, each at most once, and as many as can be. Times are in ticks after midnight,
// negative before it, and the tolerance is in ticks. An entry's mark is its partner's place counted from 1, or 0 where it is unpaired.
#[tactic(auto, using(crate::proofs::Answering::unfit_movements, crate::proofs::Answering::unfit_peaks, crate::proofs::Answering::still_fit, crate::proofs::Answering::answered))]
pub fn pair_movements(
    movements: &[i32],
    peaks: &[i32],
    tolerance: u32,
    movement_marks: &mut [u16],
    peak_marks: &mut [u16],
) -> Result<u16, Refusal>
    ensures { Answered (instants movements.now) (instants peaks.now) tolerance
        (record { movements = movement_marks.old; peaks = peak_marks.old })
        (pairing_reading result)
        (record { movements = movement_marks.new; peaks = peak_marks.new }) }
{
    if is_unfit(movements, movement_marks) || is_unfit(peaks, peak_marks) {
        return Err(Refusal::ListUnfit);
    }
    movement_marks.fill(0);
    peak_marks.fill(0);
    Ok(pair_all(movements, peaks, tolerance, movement_marks, peak_marks))
}
