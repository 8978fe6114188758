// The choice of the method by the numbers of flights and of accepted events: the missing tenth of method one, the shares of method two.
#![tactic(auto)]

ghost use Rattle.std.specs.Prelude.{◌≡◌, ◌||◌, ◌&&◌, ◌+◌, ◌-◌, ◌*◌, ◌≤◌, ◌<◌, get_or};
ghost use Rattle.quantity.specs.Numbers.{distance};
ghost use Rattle.ledger.specs.Book.{most_classes};
ghost use Rattle.method.specs.Method.{count_of, class_count, totals_of, counts_of, both_of, few_missing, method_one_holds, is_measured, share_holds, shares_hold, method_two_holds, method_outcome, method_of};
ghost use Rattle.method.specs.Sizes.{most_of_period, Few, FewIn};

use ledger::{Day, Period};
use quantity::{Method, Refusal};

// A number of flights in the book, and of accepted events.
#[derive(Clone, Copy)]
pub struct Count {
    pub flights: u32,
    pub events: u32,
}

// By day Nd and Nd', by night Nn and Nn'.
#[derive(Clone, Copy)]
pub struct Totals {
    pub daytime: Count,
    pub night: Count,
}

// The numbers of a day, which stand beside a refusal too, and the method that they choose.
#[derive(Clone, Copy)]
pub struct Choice {
    pub totals: Totals,
    pub answer: Result<Method, Refusal>,
}

// The flights and the events of a period.
fn period_count(period: Period) -> Count
    ensures value { result ≡ count_of period }
    ensures few { Few most_of_period result }
{
    Count {
        flights: ledger::sum_of_classes(period.booked),
        events: ledger::sum_of_classes(period.accepted),
    }
}

// Nd, Nd', Nn and Nn' of a day.
pub fn totals_of(day: Day) -> Totals
    ensures value { result ≡ totals_of day }
    ensures few { FewIn result }
{
    Totals {
        daytime: period_count(day.daytime),
        night: period_count(day.night),
    }
}

// Whether at most a tenth of a period's flights are missing among its events.
fn few_missing(period: Count) -> bool
    ensures { result ≡ few_missing period }
{
    10 * u64::from(period.flights.saturating_sub(period.events)) <= u64::from(period.flights)
}

// The conditions of method one: by day and by night apart.
fn method_one_holds(totals: Totals) -> bool
    ensures { result ≡ method_one_holds totals }
{
    few_missing(totals.daytime) && few_missing(totals.night)
}

// By day and night together. A function and no Add, since it is for numbers within bounds.
fn both(daytime: Count, night: Count) -> Count
    requires { Few most_of_period daytime × Few most_of_period night }
    ensures { result ≡ both_of daytime night }
{
    Count {
        flights: daytime.flights + night.flights,
        events: daytime.events + night.events,
    }
}

// The flights and the events of a class in a period. A class is a plain number, as callers and loops have it, so its bound is required of it and no type holds it.
fn count_in(period: &Period, class: usize) -> Count
    requires { class < most_classes }
    ensures { (result.flights ≡ get_or period.now.booked class 0) × (result.events ≡ get_or period.now.accepted class 0) × Few most_of_period result }
{
    Count {
        flights: u32::from(period.booked[class]),
        events: u32::from(period.accepted[class]),
    }
}

// The flights and the events of a class by day and night. The day is lent: a copy for each class took most of a refused closing.
fn class_count(day: &Day, class: usize) -> Count
    requires { class < most_classes }
    ensures { result ≡ class_count day.now class }
{
    both(count_in(&day.daytime, class), count_in(&day.night, class))
}

// Whether a class with flights has an accepted event.
fn is_measured(class: Count) -> bool
    ensures { result ≡ is_measured class }
{
    class.flights == 0 || 1 <= class.events
}

// Whether a class is measured, and its share of all events differs from its share of all flights by five points at the most.
pub fn share_holds(class: Count, all: Count) -> bool
    ensures { result ≡ share_holds all class }
{
    let by_events = u64::from(class.events) * u64::from(all.flights);
    let by_flights = u64::from(class.flights) * u64::from(all.events);
    is_measured(class)
        && by_events.abs_diff(by_flights) <= u64::from(all.flights) * u64::from(all.events) / 20
}

// The condition of method two on each class.
fn shares_hold(day: Day, all: Count) -> bool
    ensures { result ≡ shares_hold all (class_count day) most_classes }
{
    (0..16).all(|class| share_holds(class_count(&day, class), all))
}

// The conditions of method two.
fn method_two_holds(day: Day, totals: Totals) -> bool
    requires { FewIn totals }
    ensures { result ≡ method_two_holds totals (class_count day) }
{
    let all = both(totals.daytime, totals.night);
    1 <= all.events && shares_hold(day, all)
}

// The method of a day that has a book: method one where its conditions hold, else method two where its own do.
fn method_on(day: Day, totals: Totals) -> Result<Method, Refusal>
    requires { FewIn totals × (totals ≡ totals_of day) }
    ensures { method_outcome result ≡ method_of (counts_of day) }
{
    if day.classes == 0 {
        return Err(Refusal::NoMethod);
    }
    if method_one_holds(totals) {
        return Ok(Method::One);
    }
    if method_two_holds(day, totals) {
        return Ok(Method::Two);
    }
    Err(Refusal::NoMethod)
}

// The numbers of a day, which stand beside a refusal too, and the method that they choose. A day of no class has no book and so no method.
pub fn choose_method(day: Day) -> Choice
    ensures totals_value { (result.totals ≡ totals_of day) × (method_outcome result.answer ≡ method_of (counts_of day)) }
    ensures few { FewIn result.totals }
{
    let totals = totals_of(day);
    let answer = method_on(day, totals);
    Choice { totals, answer }
}
