// Rounding to the nearest whole number, ties to even; signed numbers as unsigned ones; a list of indices.
#![tactic(auto)]

ghost use Rattle.std.specs.Prelude.{◌≡◌, ◌+◌, ◌*◌, ◌≤◌, ◌<◌, ◌^◌, nat_abs, pos, ◌+ℤ◌, length};
ghost use Rattle.numbers.specs.Round.{gain, nearest};
ghost use Rattle.numbers.specs.Order.{raised, count_of};
ghost use Rattle.numbers.specs.Lists.{Indices, Kept};

// What stands for a number below zero where numbers are unsigned: beyond every limit, so that what C hands over is judged by its limit and never has
// to be an Option.
pub const BEYOND: u64 = u64::MAX;

// A quotient q that left r over from a division by d, rounded: one more above half, at a tie the even one.
fn settle(q: u64, r: u64, d: u64) -> u64
    requires { (r < d) × (0 < r → q < 2 ^ 63) }
    ensures { result ≡ q + gain (2 * r) d q }
{
    let s = d - r;
    if r < s {
        return q;
    }
    let up = q + 1;
    if s < r {
        return up;
    }
    let h = up >> 1;
    h + h
}

// n over d, to the nearest whole number, a tie to the even one; a divisor 0 answers 0.
pub fn nearest_even(n: u64, d: u64) -> u64
    ensures { result ≡ nearest n d }
{
    if d == 0 {
        return 0;
    }
    let q = n / d;
    settle(q, n - q * d, d)
}

// n over 2 to the power k, to the nearest whole number, a tie to the even one.
pub fn nearest_shifted(n: u64, k: u64) -> u64
    requires { k < 64 }
    ensures { result ≡ nearest n (2 ^ k) }
{
    let q = n >> k;
    settle(q, n - (q << k), 1 << k)
}

// n over 2 to the power 32, to the nearest whole number, a tie to the even one: no test of what is left over.
pub fn nearest_shifted_32(n: u64) -> u64
    requires { n < 2 ^ 63 }
    ensures { result ≡ nearest n (2 ^ 32) }
{
    let q = n >> 32;
    let h = q >> 1;
    (n + 2147483647 + (q - (h + h))) >> 32
}

// A number where numbers are unsigned; one below zero is BEYOND.
pub fn count_of(x: i64) -> u64
    ensures { result ≡ count_of x }
{
    u64::try_from(x).unwrap_or(BEYOND)
}

// x + m, and 0 for an x below -m.
pub fn raised(m: u32, x: i64) -> u64
    ensures { result ≡ raised m x }
{
    let wide = u64::from(m);
    let n = x.unsigned_abs();
    if x < 0 {
        wide.saturating_sub(n)
    } else {
        wide + n
    }
}

// x + m, of an x not below -m: one addition, no test of the sign.
pub fn lifted(x: i64, m: u64) -> u64
    requires { (nat_abs x ≤ m) × (m < 2 ^ 62) }
    ensures { x +ℤ pos m ≡ pos result }
{
    (x + m as i64) as u64
}

// a - b as a signed number.
pub fn lowered(a: u64, b: u64) -> i64
    requires { (a < 2 ^ 63) × (b < 2 ^ 63) }
    ensures { result +ℤ pos b ≡ pos a }
{
    a as i64 - b as i64
}

// A byte as a wider number.
pub fn wide(b: u8) -> u64
    ensures { (result ≡ b) × (result < 256) }
{
    u64::from(b)
}

// Stores in each of the first n places its own index.
pub fn fill_indices(n: usize, out: &mut [u64])
    requires { n ≤ length out.old }
    ensures { Indices n out.new × Kept n out.old out.new }
{
    for (i, place) in out[..n].iter_mut().enumerate() {
        *place = i as u64;
    }
}
