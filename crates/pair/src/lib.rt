// Two-word whole numbers: the sum of four products, and rounding to the nearest over a divisor of one word.
#![tactic(auto)]

ghost use Rattle.std.specs.Prelude.{◌≡◌, ◌+◌, ◌*◌, ◌≤◌, ◌<◌, ◌^◌, ltb};
ghost use Rattle.numbers.specs.Round.{gain, nearest};
ghost use Rattle.pair.specs.Pair.{pair_value};
ghost use Rattle.pair.specs.Division.{Parts};

// A digit of half a word is below this.
const BASE: u64 = 4294967296;

// One word more than a word can hold.
const WORD: u128 = 18446744073709551616;

// The number high times 2 to the power 64, and low.
#[derive(Clone, Copy)]
pub struct Pair {
    pub high: u64,
    pub low: u64,
}

// What a division by one word leaves.
#[derive(Clone, Copy)]
struct Part {
    quotient: u64,
    rest: u64,
}

// a times p.
pub fn product(a: u64, p: u32) -> Pair
    ensures { pair_value result ≡ a * p }
{
    let whole = u128::from(a) * u128::from(p);
    Pair {
        high: (whole >> 64) as u64,
        low: (whole % WORD) as u64,
    }
}

// x and y together, where two words can hold them.
pub fn added(x: Pair, y: Pair) -> Pair
    requires { pair_value x + pair_value y < 2 ^ 128 }
    ensures { pair_value result ≡ pair_value x + pair_value y }
{
    let (low, carry) = x.low.overflowing_add(y.low);
    Pair {
        high: x.high + y.high + u64::from(carry),
        low,
    }
}

// The sum of two products.
fn two_products(a: u64, p: u32, b: u64, q: u32) -> Pair
    ensures { pair_value result ≡ a * p + b * q }
{
    added(product(a, p), product(b, q))
}

// The sum of four products of a word and half a word: below 2 to the power 98, so it fits two words whatever they are.
pub fn sum_of_products(a: u64, p: u32, b: u64, q: u32, c: u64, r: u32, d: u64, s: u32) -> Pair
    ensures { pair_value result ≡ a * p + b * q + c * r + d * s }
{
    added(two_products(a, p, b, q), two_products(c, r, d, s))
}

// Whether the number of the digits s and x, of which s may be longer, is below w.
fn short_of(s: u64, x: u64, w: u64) -> bool
    requires { x < 2 ^ 32 }
    ensures { result ≡ ltb (s * 2 ^ 32 + x) w }
{
    s < BASE && s * BASE + x < w
}

// What is left of the number of the digits s and x, of which s may be longer, without w, where one word can hold it: what leaves the
// word on the way comes back.
fn left_over(s: u64, x: u64, w: u64) -> u64
    requires { (x < 2 ^ 32) × (w ≤ s * 2 ^ 32 + x) × (s * 2 ^ 32 + x < w + 2 ^ 64) }
    ensures { w + result ≡ s * 2 ^ 32 + x }
{
    s.wrapping_mul(BASE).wrapping_add(x).wrapping_sub(w)
}

// One digit of a quotient, and the rest: of r and one digit x behind it, over a divisor with its top bit set.
fn digit(r: u64, x: u64, d: u64) -> Part
    requires { (2 ^ 63 ≤ d) × (r < d) × (x < 2 ^ 32) }
    ensures { Parts (r * 2 ^ 32 + x) d result × (result.quotient < 2 ^ 32) }
{
    let upper = d >> 32;
    let lower = d % BASE;
    let mut q = r / upper;
    let mut s = r - q * upper;
    // A while and no for: what is left says how often the estimate is lowered.
    while short_of(s, x, q * lower) {
        q -= 1;
        s += upper;
    }
    Part {
        quotient: q,
        rest: left_over(s, x, q * lower),
    }
}

// A word of a quotient, and the rest, over a divisor with its top bit set that is above the high word.
fn two_digits(n: Pair, d: u64) -> Part
    requires { (2 ^ 63 ≤ d) × (n.high < d) }
    ensures { Parts (pair_value n) d result }
{
    let first = digit(n.high, n.low >> 32, d);
    let second = digit(first.rest, n.low % BASE, d);
    Part {
        quotient: first.quotient * BASE + second.quotient,
        rest: second.rest,
    }
}

// How far d is to be shifted for its top bit to be set.
fn top_shift(d: u64) -> u32
    requires { 0 < d }
    ensures { (2 ^ 63 ≤ d * 2 ^ result) × (d * 2 ^ result < 2 ^ 64) × (result < 64) }
{
    d.leading_zeros()
}

// n times 2 to the power k, where two words can hold it.
fn shifted_up(n: Pair, k: u32) -> Pair
    requires { (k < 64) × ((n.high + 1) * 2 ^ k ≤ 2 ^ 64) }
    ensures { pair_value result ≡ pair_value n * 2 ^ k }
{
    if k == 0 {
        return n;
    }
    Pair {
        high: (n.high << k) + (n.low >> (64 - k)),
        low: n.low << k,
    }
}

// What a quotient with this low word gains that left r over from a division by d: 1 above half, at a tie what makes it even.
fn gained(low: u64, r: u64, d: u64) -> u64
    requires { r < d }
    ensures { result ≡ gain (2 * r) d low }
{
    let s = d - r;
    if r < s {
        return 0;
    }
    if s < r {
        return 1;
    }
    low % 2
}

// n over d, to the nearest whole number, a tie to the even one; a divisor 0 answers 0.
pub fn nearest_pair(n: Pair, d: u64) -> Pair
    ensures { pair_value result ≡ nearest (pair_value n) d }
{
    if d == 0 {
        return Pair { high: 0, low: 0 };
    }
    let high = n.high / d;
    let k = top_shift(d);
    let divisor = d << k;
    let top = Pair {
        high: n.high - high * d,
        low: n.low,
    };
    let part = two_digits(shifted_up(top, k), divisor);
    let more = gained(part.quotient, part.rest, divisor);
    added(
        Pair {
            high,
            low: part.quotient,
        },
        Pair { high: 0, low: more },
    )
}
