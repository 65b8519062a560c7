// The rounding alone, over lists, so that the benchmark can time it: no part of the library that users link.
#![tactic(auto)]

ghost use Rattle.std.specs.Prelude.{◌≡◌, min};
ghost use Rattle.timed.specs.Timed.{RoundedWords, RoundedPairs};

// The lesser of two lengths. No `.min`: where the division signs of what rounds are counted, no method is followed.
fn shorter(a: usize, b: usize) -> usize
    ensures { result ≡ min a b }
{
    if a < b { a } else { b }
}

// Stores each numerator over its divisor, rounded, as far as all three lists go. By index, as the other: of iterators zipped a proof has to
// follow each, and the loop says no more.
#[unsafe(no_mangle)]
pub extern "C" fn timed_nearest_even(numerators: &[u64], divisors: &[u64], out: &mut [u64])
    ensures { RoundedWords numerators.now divisors.now out.old out.new }
{
    let n = shorter(numerators.len(), shorter(divisors.len(), out.len()));
    for i in 0..n {
        out[i] = numbers::nearest_even(numerators[i], divisors[i]);
    }
}

// Stores the low word of each two-word numerator over its divisor, rounded, as far as all four lists go.
#[unsafe(no_mangle)]
pub extern "C" fn timed_nearest_pairs(
    highs: &[u64],
    lows: &[u64],
    divisors: &[u64],
    out: &mut [u64],
)
    ensures { RoundedPairs highs.now lows.now divisors.now out.old out.new }
{
    let n = shorter(
        highs.len(),
        shorter(lows.len(), shorter(divisors.len(), out.len())),
    );
    for i in 0..n {
        let numerator = pair::Pair {
            high: highs[i],
            low: lows[i],
        };
        let rounded = pair::nearest_pair(numerator, divisors[i]);
        out[i] = rounded.low;
    }
}
