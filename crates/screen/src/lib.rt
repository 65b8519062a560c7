// What the screen shows of a lookup's answer: document 01, 'Loading and showing'.
#![tactic(auto)]

ghost use Rattle.std.specs.Prelude.{◌≡◌, ◌≤◌};
ghost use Rattle.group.specs.Numbers.{quantum_most};
ghost use Rattle.screen.specs.Screen.{admitted, neg_power, shift_of, shown_shift, degrees_of, handed_on, answer_of, record_of};

use group::{PARAMETERS_MOST, Point, QUANTUM_MOST, Refusal};

// Milliarcseconds in a degree.
const DEGREE: f64 = group::MAS_IN_DEGREE as f64;

// Three shifts in the group's unit.
#[derive(Clone, Copy)]
pub struct Shifts {
    pub first: f64,
    pub second: f64,
    pub third: f64,
}

// The screen record: the point's degrees, and its shifts in the group's unit.
#[derive(Clone, Copy)]
pub struct ScreenRecord {
    pub longitude: f64,
    pub latitude: f64,
    pub first: f64,
    pub second: f64,
    pub third: f64,
}

// Whether a quantum and a count of parameters are within their limits.
fn admits(quantum: u64, parameters: u64) -> bool
    ensures { result ≡ admitted quantum parameters }
{
    quantum <= QUANTUM_MOST && (1..=PARAMETERS_MOST).contains(&parameters)
}

// 2 to the power -q.
fn power(q: u64) -> f64
    requires { q ≤ quantum_most }
    ensures { result ≡ neg_power q }
{
    1.0 / ((1u64 << q) as f64)
}

// A whole result, in steps of 2^-q, as a float in the unit.
#[tactic(auto, unfolding(crate::specs::Screen::shift_of))]
fn shift(steps: i64, q: u64) -> f64
    requires { q ≤ quantum_most }
    ensures { result ≡ shift_of q steps }
{
    std::num::nearest_i64_to_f64(steps) * power(q)
}

// The shift of parameter p, from 0, and +0 if there are no more than p.
#[tactic(auto, unfolding(crate::specs::Screen::shown_shift))]
fn shown_shift(parameters: u64, p: u64, steps: i64, q: u64) -> f64
    requires { q ≤ quantum_most }
    ensures { result ≡ shown_shift q parameters p steps }
{
    if p < parameters { shift(steps, q) } else { 0.0 }
}

// Milliarcseconds in degrees.
fn degrees(mas: i64) -> f64
    ensures { result ≡ degrees_of mas }
{
    std::num::nearest_i64_to_f64(mas) / DEGREE
}

// A lookup's refusal as the screen hands it on; a number outside the table of refusals is refused by 2 with place 0.
fn handed_on(r: Refusal) -> Refusal
    ensures { result ≡ handed_on r }
{
    if group::in_table(r.number) {
        return r;
    }
    Refusal {
        number: 2,
        place: 0,
    }
}

// The shifts of a fix in the unit, each the whole result times 2 to the power -quantum, +0 for a parameter that the group doesn't have; or
// the lookup's refusal with its place. A quantum above QUANTUM_MOST, parameters other than 1 to PARAMETERS_MOST, or a
// refusal's number outside the table are refused by 2 with place 0.
#[tactic(auto, unfolding(crate::specs::Screen::answer_of, crate::specs::Screen::shown, group::specs::Refusals::refuse_if))]
pub fn screen_answer(
    found: Result<fix::Fix, group::Refusal>,
    quantum: u64,
    parameters: u64,
) -> Result<Shifts, Refusal>
    ensures { result ≡ answer_of found quantum parameters }
{
    if !admits(quantum, parameters) {
        return Err(Refusal {
            number: 2,
            place: 0,
        });
    }
    match found {
        Ok(f) => Ok(Shifts {
            first: shown_shift(parameters, 0, f.first, quantum),
            second: shown_shift(parameters, 1, f.second, quantum),
            third: shown_shift(parameters, 2, f.third, quantum),
        }),
        Err(r) => Err(handed_on(r)),
    }
}

// The screen record of a point and its screen answer: the point in degrees with the shifts; five times +0 after a refusal.
#[tactic(auto, unfolding(crate::specs::Screen::record_of))]
pub fn record_of(point: Point, answer: Result<Shifts, Refusal>) -> ScreenRecord
    ensures { result ≡ record_of point answer }
{
    match answer {
        Ok(shifts) => ScreenRecord {
            longitude: degrees(point.lon.0),
            latitude: degrees(point.lat.0),
            first: shifts.first,
            second: shifts.second,
            third: shifts.third,
        },
        Err(_) => ScreenRecord {
            longitude: 0.0,
            latitude: 0.0,
            first: 0.0,
            second: 0.0,
            third: 0.0,
        },
    }
}

// The point in degrees and its shifts as `screen_answer` has them; five times +0 after a refusal.
pub fn screen_record(
    point: Point,
    found: Result<fix::Fix, group::Refusal>,
    quantum: u64,
    parameters: u64,
) -> ScreenRecord
    ensures { result ≡ record_of point (answer_of found quantum parameters) }
{
    record_of(point, screen_answer(found, quantum, parameters))
}
