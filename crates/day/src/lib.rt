// The factor of a group's functions on a day, and the result: a value times that factor.
#![tactic(auto)]

ghost use Rattle.std.specs.Prelude.{◌≡◌, true, ℕ, ◌*◌, ◌^◌, ◌≤◌, ◌<◌, length, pos, nat_abs, ◌<ℤ◌};
ghost use Rattle.numbers.specs.Round.{round_z};
ghost use Rattle.group.specs.Numbers.{functions_most, day_most, day_fits, factor_most, value_most};
ghost use Rattle.group.specs.Limits.{ramp_numbers_fit, step_numbers_fit, ramp2_numbers_fit, function_fits};
ghost use Rattle.abi.specs.Words.{function_words};
ghost use Rattle.flat.specs.Functions.{function_in};
ghost use Rattle.day.specs.Flat.{factor_in};
ghost use Rattle.day.specs.Even.{Even};
ghost use Rattle.day.specs.Day.{ramp_factor, step_parts, step_factor, ramp2_parts, ramp2_factor, function_factor, result_of};

use group::{FACTOR_ONE, Function, RESULT_MOST, Ramp, Ramp2, Shape, Step};

// The size of a function's factor, in millionths.
const FACTOR: u64 = group::FUNCTION_FACTOR_MOST as u64;

// n over d, to the nearest whole number, a tie to the even one, of a size up to an even limit: so many
// times d are added before the rounding, and the limit is taken off behind it.
fn rounded(n: i64, d: i64, most: u64) -> i64
    requires { (pos 0 <ℤ d) × Even most × (nat_abs n ≤ most * nat_abs d) × (most * nat_abs d < 2 ^ 62) }
    ensures { result ≡ round_z n (nat_abs d) }
{
    let whole = d as u64;
    let lifted = numbers::lifted(n, most * whole);
    numbers::lowered(numbers::nearest_even(lifted, whole), most)
}

// The factor of a ramp on a day, in millionths.
fn ramp_factor(r: Ramp, day: i64) -> i64
    requires { ramp_numbers_fit r.a r.s0 r.b r.s1 ≡ true }
    ensures { result ≡ ramp_factor r.a r.s0 r.b r.s1 day }
{
    let Ramp { a, s0, b, s1 } = r;
    if b <= day {
        return s1;
    }
    if day <= a {
        return s0;
    }
    rounded(s0 * (b - day) + s1 * (day - a), b - a, FACTOR)
}

// The plain function of a step on a day.
fn step_parts(event: i64, day: i64) -> i64
    ensures { result ≡ step_parts event day }
{
    if event <= day { 1 } else { 0 }
}

// The factor of a step on a day, in millionths.
fn step_factor(s: Step, day: i64) -> i64
    requires { step_numbers_fit s.event s.reference s.mult ≡ true }
    ensures { result ≡ step_factor s.event s.reference s.mult day }
{
    let Step {
        event,
        reference,
        mult,
    } = s;
    mult * (step_parts(event, day) - step_parts(event, reference))
}

// The plain function of a ramp2 on a day, in parts of its length. (No `clamp`, which requires that start is not above end.)
fn ramp2_parts(start: i64, end: i64, day: i64) -> i64
    requires { (nat_abs start ≤ day_most) × (nat_abs end ≤ day_most) }
    ensures { result ≡ ramp2_parts start end day }
{
    if end <= day {
        return end - start;
    }
    if day <= start {
        return 0;
    }
    day - start
}

// The factor of a ramp2 on a day, in millionths.
fn ramp2_factor(r: Ramp2, day: i64) -> i64
    requires { ramp2_numbers_fit r.start r.end r.reference r.mult ≡ true }
    ensures { result ≡ ramp2_factor r.start r.end r.reference r.mult day }
{
    let Ramp2 {
        start,
        end,
        reference,
        mult,
    } = r;
    let parts = ramp2_parts(start, end, day) - ramp2_parts(start, end, reference);
    rounded(mult * parts, end - start, FACTOR)
}

// The factor of a function of any kind on a day, in millionths.
#[tactic(auto, unfolding(crate::specs::Day::shape_factor))]
fn function_factor(f: Function, day: i64) -> i64
    requires { function_fits f ≡ true }
    ensures { result ≡ function_factor f day }
{
    match f.shape {
        Shape::Ramp(r) => ramp_factor(r, day),
        Shape::Step(s) => step_factor(s, day),
        Shape::Ramp2(r) => ramp2_factor(r, day),
    }
}

// The sum of the factors of the first n functions of a flat list on a day, in millionths; the factor 1 if there are none.
pub fn day_factor(functions: &[i64], n: usize, day: i64) -> i64
    requires { (n ≤ functions_most) × (n * function_words ≤ length functions.now)
        × ((i : ℕ) → i < n → function_fits (function_in functions.now i) ≡ true) × (day_fits day ≡ true) }
    ensures { result ≡ factor_in functions.now n day }
{
    if n == 0 {
        return FACTOR_ONE;
    }
    let mut sum = 0;
    for i in 0..n {
        let f = flat::function_at(functions, i);
        sum += function_factor(f, day);
    }
    sum
}

// A value in steps times a day factor in millionths, in steps.
pub fn result_of(value: i64, factor: i64) -> i64
    requires { (nat_abs value ≤ value_most) × (nat_abs factor ≤ factor_most) }
    ensures { result ≡ result_of value factor }
{
    if factor == FACTOR_ONE {
        return value;
    }
    rounded(value * factor, FACTOR_ONE, RESULT_MOST)
}
