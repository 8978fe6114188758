// What C calls to keep the ledger of a day, and for means, records, verdicts and pairings: each export hands on to `c_interface` and states its clauses again.
ghost use Rattle.std.specs.Prelude.{◌≡◌};
ghost use Rattle.quantity.specs.Instants.{ticks_of};
ghost use Rattle.ledger.specs.Day.{opening_of};
ghost use Rattle.pairing.specs.Pairing.{instants};
ghost use Rattle.c_interface.specs.Calls.{open_leaves, offering_as, offer_leaves, end_given, energy_given, close_leaves, week_leaves, year_leaves, read_leaves, rewrite_leaves, verdict_leaves, PairLeaves, class_leaves};

// Opens a day: the samples a second of its terminal, the first and the last daytime tick, the end of the previous day's last stretch in ticks after the new
// midnight, and the book, for each class the flights by day and by night.
#[unsafe(no_mangle)]
pub extern "C" fn moatburdock_open_day(
    day: &mut [u32; 320],
    rate: u32,
    first: u32,
    last: u32,
    end: i32,
    daytime: &[u16],
    night: &[u16],
) -> u8
    ensures { record { answer = result; lent = day.new }
        ≡ open_leaves day.old (opening_of rate first last (ticks_of end) daytime.now night.now) }
{
    c_interface::moatburdock_open_day(day, rate, first, last, end, daytime, night)
}

// Offers an event to a day: its start in ticks after midnight, negative before it, the class of the flight, the wind in tenths of m/s, rain, snow or thunder,
// the background level, the tolerance of the meter and the samples. Gives LAE and Lmax.
#[unsafe(no_mangle)]
pub extern "C" fn moatburdock_offer(
    day: &mut [u32; 320],
    start: i32,
    class: u8,
    wind: u16,
    wet: bool,
    background: u32,
    tolerance: u16,
    samples: &[u16],
    exposure: &mut i32,
    lmax: &mut u32,
) -> u8
    ensures { record { answer = result; lent = record { day = day.new; exposure = exposure.new; lmax = lmax.new } }
        ≡ offer_leaves
        (record { day = day.old; exposure = exposure.old; lmax = lmax.old })
        (offering_as start class wind wet background tolerance samples.now) }
{
    c_interface::moatburdock_offer(
        day, start, class, wind, wet, background, tolerance, samples, exposure, lmax,
    )
}

// The end to open the next day with: that of the day's last accepted stretch in ticks after the next midnight, and 600 s before it where there is none.
#[unsafe(no_mangle)]
pub extern "C" fn moatburdock_end_for_next_day(day: &[u32; 320]) -> i32
    ensures { result ≡ end_given day.now }
{
    c_interface::moatburdock_end_for_next_day(day)
}

// Gives the energy of the events whose peak lies in a clock hour, of both periods and without weights, in two halves, the lower one first. An hour above 23
// has 0.
#[unsafe(no_mangle)]
pub extern "C" fn moatburdock_hour_energy(day: &[u32; 320], hour: u32, energy: &mut [u64; 2])
    ensures { energy.new ≡ energy_given day.now hour }
{
    c_interface::moatburdock_hour_energy(day, hour, energy);
}

// Closes a day, with the calibration levels before and after. Gives the day's record, the lowest and the highest Ldn within the tolerances of the meters, Nd',
// Nn' and the highest Lmax, and the highest Lmax of each class.
#[unsafe(no_mangle)]
pub extern "C" fn moatburdock_close_day(
    day: &[u32; 320],
    before: u32,
    after: u32,
    day_record: &mut u64,
    lowest_ldn: &mut i32,
    highest_ldn: &mut i32,
    counts: &mut [u32; 3],
    highest_by_class: &mut [u32; 16],
) -> u8
    ensures { record {
      answer = result;
      lent = record {
        day_record = day_record.new;
        lowest_ldn = lowest_ldn.new;
        highest_ldn = highest_ldn.new;
        counts = counts.new;
        highest_by_class = highest_by_class.new;
      };
    }
        ≡ close_leaves
        (record {
          day_record = day_record.old;
          lowest_ldn = lowest_ldn.old;
          highest_ldn = highest_ldn.old;
          counts = counts.old;
          highest_by_class = highest_by_class.old;
        })
        day.now before after }
{
    c_interface::moatburdock_close_day(
        day,
        before,
        after,
        day_record,
        lowest_ldn,
        highest_ldn,
        counts,
        highest_by_class,
    )
}

// The mean of a week, of exactly 7 records.
#[unsafe(no_mangle)]
pub extern "C" fn moatburdock_week_mean(records: &[u64], level: &mut i32) -> u8
    ensures { record { answer = result; lent = level.new } ≡ week_leaves level.old records.now }
{
    c_interface::moatburdock_week_mean(records, level)
}

// The mean of a year, of 1 to 366 records.
#[unsafe(no_mangle)]
pub extern "C" fn moatburdock_year_mean(records: &[u64], level: &mut i32) -> u8
    ensures { record { answer = result; lent = level.new } ≡ year_leaves level.old records.now }
{
    c_interface::moatburdock_year_mean(records, level)
}

// The record at a place of the year.
#[unsafe(no_mangle)]
pub extern "C" fn moatburdock_read_record(records: &[u64], place: usize, day_record: &mut u64) -> u8
    ensures { record { answer = result; lent = day_record.new }
        ≡ read_leaves day_record.old records.now place }
{
    c_interface::moatburdock_read_record(records, place, day_record)
}

// Puts a new record at a place of the year.
#[unsafe(no_mangle)]
pub extern "C" fn moatburdock_rewrite_record(records: &mut [u64], place: usize, new: u64) -> u8
    ensures { record { answer = result; lent = records.new } ≡ rewrite_leaves records.old place new }
{
    c_interface::moatburdock_rewrite_record(records, place, new)
}

// The verdict on land of a class, for a year's level, a sensitive building or none, and the highest Lmax. Gives what it names and the margin.
#[unsafe(no_mangle)]
pub extern "C" fn moatburdock_verdict(
    class: u8,
    yearly: i32,
    sensitive: bool,
    lmax: u32,
    finding: &mut u8,
    margin: &mut i32,
) -> u8
    ensures { record { answer = result; lent = record { finding = finding.new; margin = margin.new } }
        ≡ verdict_leaves
        (record { finding = finding.old; margin = margin.old })
        class yearly sensitive lmax }
{
    c_interface::moatburdock_verdict(class, yearly, sensitive, lmax, finding, margin)
}

// The class of a land code of two ASCII bytes.
#[unsafe(no_mangle)]
pub extern "C" fn moatburdock_land_class(letter: u8, digit: u8, class: &mut u8) -> u8
    ensures { record { answer = result; lent = class.new } ≡ class_leaves class.old letter digit }
{
    c_interface::moatburdock_land_class(letter, digit, class)
}

// Pairs movements with peaks that are no further apart than the tolerance, each at most once and as many as can be. All times are in ticks after midnight,
// negative before it. Gives the count of the pairs, and for each entry its partner's place counted from 1, or 0.
#[unsafe(no_mangle)]
pub extern "C" fn moatburdock_pair_movements(
    movements: &[i32],
    peaks: &[i32],
    tolerance: u32,
    movement_marks: &mut [u16],
    peak_marks: &mut [u16],
    count: &mut u16,
) -> u8
    ensures { PairLeaves (instants movements.now) (instants peaks.now) tolerance
        (record {
          count = count.old;
          marks = record { movements = movement_marks.old; peaks = peak_marks.old };
        })
        (record {
          answer = result;
          lent = record {
            count = count.new;
            marks = record { movements = movement_marks.new; peaks = peak_marks.new };
          };
        }) }
{
    c_interface::moatburdock_pair_movements(
        movements,
        peaks,
        tolerance,
        movement_marks,
        peak_marks,
        count,
    )
}
