// What C calls for planning: each export hands on to `c_planning` and states its clauses again.
ghost use Rattle.std.specs.Prelude.{◌≡◌};
ghost use Rattle.thrust.specs.Laws.{IsNumber};
ghost use Rattle.start_of_roll.specs.Correction.{correction_at_angle, IsFinite};
ghost use Rattle.c_planning.specs.Calls.{level_by_runs, ExactByRuns, level_leaves, correction_leaves, MixesLeave};

// The level in dB at a thrust in kN, by rows of a thrust and a level each: the thrusts in one run, the levels in another.
#[unsafe(no_mangle)]
pub extern "C" fn moatburdock_level_at_thrust(
    thrusts: &[f64],
    levels: &[f64],
    thrust: f64,
    level: &mut f64,
) -> u8
    ensures level_after { record { answer = result; lent = level.new }
        ≡ level_leaves level.old thrusts.now levels.now thrust }
    ensures exact { ExactByRuns thrusts.now levels.now thrust (level_by_runs thrusts.now levels.now thrust) }
    ensures number { IsNumber (level_by_runs thrusts.now levels.now thrust) }
{
    c_planning::moatburdock_level_at_thrust(thrusts, levels, thrust, level)
}

// The correction in dB for a point at an angle in degrees from the start of roll: where the point lies and, beside and behind, the correction. In front there is
// none, and what stands in its place stays.
#[unsafe(no_mangle)]
pub extern "C" fn moatburdock_correction_at_angle(
    angle: f64,
    position: &mut u8,
    correction: &mut f64,
) -> u8
    ensures correction_after { record { answer = result; lent = record { position = position.new; correction = correction.new } }
        ≡ correction_leaves (record { position = position.old; correction = correction.old }) angle }
    ensures finite { IsFinite (correction_at_angle angle) }
{
    c_planning::moatburdock_correction_at_angle(angle, position, correction)
}

// How many mixes of so many measured flights would pass on a book: for each class the flights by day and by night. The table is lent for a row of N' + 1 numbers
// for each class, which are left free.
#[unsafe(no_mangle)]
pub extern "C" fn moatburdock_count_mixes(
    daytime: &[u16],
    night: &[u16],
    measured: u32,
    table: &mut [u64],
    count: &mut u64,
) -> u8
    ensures { MixesLeave daytime.now night.now measured
        (record { count = count.old; table = table.old })
        (record { answer = result; lent = record { count = count.new; table = table.new } }) }
{
    c_planning::moatburdock_count_mixes(daytime, night, measured, table, count)
}
