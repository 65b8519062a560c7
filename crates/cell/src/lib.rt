// The cell of a point along an axis, and the value of a cell at a point: the weighted mean of its used corners.
#![tactic(auto)]

ghost use Rattle.std.specs.Prelude.{◌≡◌, true, ◌^◌, ◌/◌, ◌%◌, ◌≤◌, ◌<◌, pos, ◌+ℤ◌, nat_abs, ◌&&◌};
ghost use Rattle.numbers.specs.Order.{within};
ghost use Rattle.group.specs.Numbers.{nodes_least, is_mark};
ghost use Rattle.pair.specs.Pair.{pair_value};
ghost use Rattle.cell.specs.Cell.{cell_along, weights_of, used, used_some, weighted_sum, value_of};
ghost use Rattle.cell.specs.Sizes.{Distances, Weighed};
ghost use Rattle.cell.specs.TwoParts.{parts_of};
ghost use Rattle.cell.specs.Unsigned.{corner_shift, near_most, near_total, corners_near, summed, blended};

use group::MARK;
use pair::Pair;

// What is added to any corner, so that none is below 0: even, so that ties stay.
const SHIFT: u64 = 2147483648;

// What a sum is parted by: 2 to the power 32.
const PARTED_BY: u64 = 2 * SHIFT;

// How far from 0 a corner may lie for the one-word way: even too.
const NEAR_MOST: i32 = 4194304;

const NEAR_LEAST: i32 = -NEAR_MOST;

const NEAR_SHIFT: u64 = NEAR_MOST as u64;

// The greatest total for it: one more, and a sum might not fit 64 bits.
pub const NEAR_TOTAL: u64 = u64::MAX / (2 * NEAR_SHIFT);

// The cell of a point along one axis: its index, from 0, and the distance from its node of lower index.
#[derive(Clone, Copy)]
pub struct Along {
    pub index: u64,
    pub rest: u64,
}

// The weights of the corners (0, 0), (1, 0), (0, 1), (1, 1) of a cell, which add to the total, the product of the spacing sizes.
#[derive(Clone, Copy)]
pub struct Weights {
    pub w00: u64,
    pub w10: u64,
    pub w01: u64,
    pub w11: u64,
    pub total: u64,
}

// What the corners (0, 0), (1, 0), (0, 1), (1, 1) of a cell hold, in steps.
#[derive(Clone, Copy)]
pub struct Corners {
    pub v00: i32,
    pub v10: i32,
    pub v01: i32,
    pub v11: i32,
}

// A whole number in two parts: high times 2 to the power 32, and low, which is below that.
#[derive(Clone, Copy)]
pub struct TwoParts {
    pub high: i64,
    pub low: u64,
}

// The cell of a point that lies a distance from node 0, on an axis with this spacing size and count of nodes.
// An `if` and no `min`, since what counts the division signs of a lookup follows no method.
#[tactic(auto, unfolding(crate::specs::Cell::cell_along, crate::specs::Cell::cell_index))]
pub fn cell_along(distance: u64, spacing: u64, count: u64) -> Along
    requires { (0 < spacing) × (nodes_least ≤ count) }
    ensures { result ≡ cell_along distance spacing count }
{
    let last = count - 2;
    let whole = distance / spacing;
    let index = if whole <= last { whole } else { last };
    Along {
        index,
        rest: distance - index * spacing,
    }
}

// The weights at the distances fx, fy from a cell's node of lower indices, with the spacing sizes sx, sy.
#[tactic(auto, using(crate::proofs::WeightLaws::weighed), unfolding(crate::specs::Cell::weights_of))]
pub fn weights_at(sx: u64, sy: u64, fx: u64, fy: u64) -> Weights
    requires { Distances sx sy fx fy }
    ensures { result ≡ weights_of sx sy fx fy }
{
    let gx = sx - fx;
    let gy = sy - fy;
    Weights {
        w00: gx * gy,
        w10: fx * gy,
        w01: gx * fy,
        w11: fx * fy,
        total: sx * sy,
    }
}

// Whether a corner of this weight is used, as one whose weight is not 0 is, and holds the no-data mark.
fn marked(weight: u64, value: i32) -> bool
    ensures { result ≡ (used weight && is_mark value) }
{
    (0 < weight) & (value == MARK)
}

// Whether a used corner holds the no-data mark.
#[tactic(auto, unfolding(crate::specs::Cell::used_some))]
pub fn used_marked(w: Weights, v: Corners) -> bool
    ensures { result ≡ used_some is_mark w v }
{
    marked(w.w00, v.v00) | marked(w.w10, v.v10) | marked(w.w01, v.v01) | marked(w.w11, v.v11)
}

// What a corner holds, shifted.
fn shifted(v: i32) -> u32
    ensures { v +ℤ pos corner_shift ≡ pos result }
{
    numbers::lifted(v as i64, SHIFT) as u32
}

// The weighted sum of four numbers over the total, rounded, where the sum fits one word.
#[tactic(auto, unfolding(crate::specs::Unsigned::blended))]
fn blend_one_word(w: Weights, a: u64, b: u64, c: u64, d: u64) -> u64
    requires { summed w a b c d < 2 ^ 64 }
    ensures { result ≡ blended w a b c d }
{
    let sum = w.w00 * a + w.w10 * b + w.w01 * c + w.w11 * d;
    numbers::nearest_even(sum, w.total)
}

// The weighted sum of four shifted numbers over the total, rounded, by two-word numbers.
fn blend_two_words(w: Weights, a: u32, b: u32, c: u32, d: u32) -> u64
    requires { Weighed w }
    ensures { (result ≡ blended w a b c d) × (result < 2 ^ 32) }
{
    let sum = pair::sum_of_products(w.w00, a, w.w10, b, w.w01, c, w.w11, d);
    pair::nearest_pair(sum, w.total).low
}

// The value of a cell whatever its total and its corners, in steps: in two words.
pub fn value_two_words(w: Weights, v: Corners) -> i64
    requires { Weighed w }
    ensures { result ≡ value_of w v }
{
    let q = blend_two_words(
        w,
        shifted(v.v00),
        shifted(v.v10),
        shifted(v.v01),
        shifted(v.v11),
    );
    numbers::lowered(q, SHIFT)
}

// n less m times 2 to the power 32, in its two parts.
fn parted(n: Pair, m: u64) -> TwoParts
    requires { (pair_value n < 2 ^ 94) × (m < 2 ^ 63) }
    ensures { (result.high +ℤ pos m ≡ pos (pair_value n / 2 ^ 32)) × (result.low ≡ pair_value n % 2 ^ 32) }
{
    let whole = n.high * PARTED_BY + n.low / PARTED_BY;
    TwoParts {
        high: numbers::lowered(whole, m),
        low: n.low % PARTED_BY,
    }
}

// The weighted sum of a cell's corners, whatever they hold: exact, in two parts.
pub fn weighted_sum(w: Weights, v: Corners) -> TwoParts
    requires { Weighed w }
    ensures { result ≡ parts_of (weighted_sum w v) }
{
    let a = shifted(v.v00);
    let b = shifted(v.v10);
    let c = shifted(v.v01);
    let d = shifted(v.v11);
    let sum = pair::sum_of_products(w.w00, a, w.w10, b, w.w01, c, w.w11, d);
    let raised = pair::added(sum, pair::product(w.total, SHIFT as u32));
    parted(raised, w.total)
}

// Whether a corner lies so near 0 that the one-word way can take it: no branch, for speed.
fn is_near(v: i32) -> bool
    ensures { result ≡ within near_most v }
{
    (NEAR_LEAST <= v) & (v <= NEAR_MOST)
}

// Whether every corner, used or not, lies so near 0. None then holds the mark.
#[tactic(auto, unfolding(crate::specs::Unsigned::corners_near))]
pub fn all_near(v: Corners) -> bool
    ensures { result ≡ corners_near v }
{
    is_near(v.v00) & is_near(v.v10) & is_near(v.v01) & is_near(v.v11)
}

// What a corner near 0 holds, raised so that it is not below 0.
fn raised_near(v: i32) -> u64
    requires { nat_abs v ≤ near_most }
    ensures { v +ℤ pos near_most ≡ pos result }
{
    numbers::lifted(v as i64, NEAR_SHIFT)
}

// The value of a cell whose total is at most NEAR_TOTAL and whose corners lie near 0, in steps: in one word.
pub fn value_one_word(w: Weights, v: Corners) -> i64
    requires { Weighed w × (w.total ≤ near_total) × (corners_near v ≡ true) }
    ensures { result ≡ value_of w v }
{
    let q = blend_one_word(
        w,
        raised_near(v.v00),
        raised_near(v.v10),
        raised_near(v.v01),
        raised_near(v.v11),
    );
    numbers::lowered(q, NEAR_SHIFT)
}
