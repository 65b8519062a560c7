// What a lookup is made of: the numbers by which an examiner can work its answer out again.
#![tactic(auto)]

ghost use Rattle.std.specs.Prelude.{◌≡◌, false, [], ◌++◌, ℕ, ◌+◌, ◌^◌, ◌<◌, ◌≤◌, pos, nat_abs, length, Ok};
ghost use Rattle.numbers.specs.Lists.{at};
ghost use Rattle.group.specs.Numbers.{lon_turn, grids_most, rank_most, factor_most};
ghost use Rattle.abi.specs.Abi.{list_of, group_of_words};
ghost use Rattle.flat.specs.Lists.{Room};
ghost use Rattle.judge.specs.Judge.{judged};
ghost use Rattle.cell.specs.Cell.{is_beyond};
ghost use Rattle.fix.specs.Fix.{corner_some};
ghost use Rattle.fix.specs.Inside.{InsideGrid, RangeListed};
ghost use Rattle.fix.specs.Parts.{Begun};
ghost use Rattle.lookup.specs.Lookup.{looked_in};
ghost use Rattle.lookup.specs.Flat.{Laid};
ghost use Rattle.explain.specs.Explain.{worked_in, worked_numbers, pieces_at, cell_numbers, pieces_of, pieces_numbers, explained_by, explained};
ghost use Rattle.explain.specs.Flat.{rank_beside, parameters_numbers, Explainable};

use abi::GROUP_WORDS;
use cell::Weights;
use fix::Offset;
use group::{GRIDS_MOST, Group, LON_TURN, Point, Refusal};

// The zero of the distances of longitudes.
const LON_ZERO: u64 = group::LON_ZERO as u64;

// The numbers of an explanation: those of the cell, those of each parameter, and one for each grid.
const CELL_WORDS: usize = 18;

const WORKED_WORDS: usize = 8;

const PARAMETERS_WORDS: usize = 3 * WORKED_WORDS;

const OTHERS_FROM: usize = CELL_WORDS + PARAMETERS_WORDS;

pub const EXPLANATION_WORDS: usize = OTHERS_FROM + GRIDS_MOST;

// What a lookup is made of, in the order of include/bulhyemik.h.
pub type Explanation = [i64; EXPLANATION_WORDS];

// The numbers of a point's cell in the grid numbered c, by the longitude used and the day's factor.
fn cell_numbers(l: Offset, c: u64, lon: i64, factor: i64) -> [i64; CELL_WORDS]
    requires { InsideGrid l × (0 < l.np) × (c ≤ grids_most) }
    ensures { result ≡ cell_numbers (pieces_at c lon l [] factor (λ k. 0)) }
{
    let x = cell::cell_along(l.dx, l.sx, l.ni);
    let y = cell::cell_along(l.dy, l.sy, l.nj);
    let w = cell::weights_at(l.sx, l.sy, x.rest, y.rest);
    let low = fix::position(l, x.index, y.index);
    let high = low + l.ni * l.np;
    [
        c as i64,
        lon,
        x.index as i64,
        y.index as i64,
        x.rest as i64,
        y.rest as i64,
        l.sx as i64,
        l.sy as i64,
        w.w00 as i64,
        w.w10 as i64,
        w.w01 as i64,
        w.w11 as i64,
        w.total as i64,
        low as i64,
        (low + l.np) as i64,
        high as i64,
        (high + l.np) as i64,
        factor,
    ]
}

// The numbers of parameter p, from 0, of a point with the weights w of its cell's corners, whose node of lower indices stands at a.
fn worked_numbers(
    l: Offset,
    w: Weights,
    a: u64,
    nodes: &[i32],
    p: u64,
    factor: i64,
) -> [i64; WORKED_WORDS]
    requires { Begun l (length nodes.now) w a × (nat_abs factor ≤ factor_most) × (corner_some is_beyond l nodes.now ≡ false) }
    ensures { result ≡ worked_numbers (worked_in l nodes.now factor p) }
{
    if l.np <= p {
        return [0i64; WORKED_WORDS];
    }
    let v = fix::corners_at(l, nodes, a, p);
    let sum = cell::weighted_sum(w, v);
    let value = cell::value_two_words(w, v);
    let result = day::result_of(value, factor);
    [
        v.v00 as i64,
        v.v10 as i64,
        v.v01 as i64,
        v.v11 as i64,
        sum.high,
        sum.low as i64,
        value,
        result,
    ]
}

// Those of all three parameters.
fn parameters_numbers(l: Offset, nodes: &[i32], factor: i64) -> [i64; PARAMETERS_WORDS]
    requires { InsideGrid l × RangeListed l (length nodes.now) × (0 < l.np) × (nat_abs factor ≤ factor_most) × (corner_some is_beyond l nodes.now ≡ false) }
    ensures { result ≡ parameters_numbers l nodes.now factor }
{
    let s = fix::cell_of(l);
    let a = fix::position(l, s.i, s.j);
    let w = s.weights;
    let first = worked_numbers(l, w, a, nodes, 0, factor);
    let second = worked_numbers(l, w, a, nodes, 1, factor);
    let third = worked_numbers(l, w, a, nodes, 2, factor);
    let mut out = [0i64; PARAMETERS_WORDS];
    abi::store_numbers(&mut out, 0, &first);
    abi::store_numbers(&mut out, WORKED_WORDS, &second);
    abi::store_numbers(&mut out, 2 * WORKED_WORDS, &third);
    out
}

// The rank of grid k, from 0, of so many, where it holds the point (x, y) and is not the one numbered c, from 1; else 0.
fn rank_beside(sides: &[u64], ranks: &[u64], grids: usize, c: u64, x: u64, y: u64, k: usize) -> u64
    requires { Room sides.now ranks.now grids × (lon_turn ≤ x) × (x + lon_turn < 2 ^ 64) × ((i : ℕ) → i < grids → at ranks.now i ≤ rank_most) }
    ensures { (result ≡ rank_beside sides.now ranks.now grids c x y k) × (result ≤ rank_most) }
{
    if k < grids && k as u64 + 1 != c && choice::turn_holds(sides, k, LON_TURN, x, y) {
        ranks[k]
    } else {
        0
    }
}

// Those of all grids.
fn ranks_beside(
    sides: &[u64],
    ranks: &[u64],
    grids: usize,
    c: u64,
    x: u64,
    y: u64,
) -> [i64; GRIDS_MOST]
    requires { Room sides.now ranks.now grids × (lon_turn ≤ x) × (x + lon_turn < 2 ^ 64) × ((i : ℕ) → i < grids → at ranks.now i ≤ rank_most) }
    ensures { result ≡ list_of (λ k. pos (rank_beside sides.now ranks.now grids c x y k)) grids_most }
{
    std::array::from_fn(|k| rank_beside(sides, ranks, grids, c, x, y, k) as i64)
}

// All numbers of a point in the grid numbered c, with the ranks of the others that hold it.
fn all_numbers(
    l: Offset,
    c: u64,
    lon: i64,
    nodes: &[i32],
    factor: i64,
    others: &[i64; GRIDS_MOST],
) -> Explanation
    requires { InsideGrid l × RangeListed l (length nodes.now) × (0 < l.np) × (c ≤ grids_most) × (nat_abs factor ≤ factor_most) × (corner_some is_beyond l nodes.now ≡ false) }
    ensures { result ≡ cell_numbers (pieces_at c lon l [] factor (λ k. 0)) ++ (parameters_numbers l nodes.now factor ++ others.now) }
{
    let cell = cell_numbers(l, c, lon, factor);
    let parameters = parameters_numbers(l, nodes, factor);
    let mut out = [0i64; EXPLANATION_WORDS];
    abi::store_numbers(&mut out, 0, &cell);
    abi::store_numbers(&mut out, CELL_WORDS, &parameters);
    abi::store_numbers(&mut out, OTHERS_FROM, others);
    out
}

// The numbers of an accepted lookup, whose grid is numbered c.
fn found_numbers(
    words: &[i64; GROUP_WORDS],
    sides: &[u64],
    ranks: &[u64],
    frames: &[u64],
    nodes: &[i32],
    point: Point,
    day: i64,
    c: u64,
) -> Explanation
    requires { Explainable (group_of_words words.now) nodes.now point day c
        × Laid (group_of_words words.now) sides.now ranks.now frames.now }
    ensures { result ≡ pieces_numbers (pieces_of (group_of_words words.now) nodes.now point day c) }
{
    let x = extent::lon_from_least(point.lon);
    let y = extent::lat_from_least(point.lat);
    let others = ranks_beside(sides, ranks, abi::grid_count(words) as usize, c, x, y);
    let used = lookup::used_at(sides, c, x, y);
    let lon = numbers::lowered(used, LON_ZERO);
    let factor = lookup::factor_on(words, abi::function_count(words), day);
    let frame = flat::frame_at(frames, (c - 1) as usize);
    let l = lookup::offset_in(frame, abi::parameter_count(words), used, y);
    all_numbers(l, c, lon, nodes, factor, &others)
}

// What a lookup in an accepted group, whose flat lists are these, is made of.
fn explain_accepted(
    words: &[i64; GROUP_WORDS],
    sides: &[u64],
    ranks: &[u64],
    frames: &[u64],
    nodes: &[i32],
    point: Point,
    day: i64,
) -> Result<Explanation, Refusal>
    requires { (judged (group_of_words words.now) ≡ Ok tt) × Laid (group_of_words words.now) sides.now ranks.now frames.now }
    ensures { result ≡ explained_by (group_of_words words.now) nodes.now point day
        (looked_in (group_of_words words.now) nodes.now point day) }
{
    let fix = lookup::look_accepted(words, sides, ranks, frames, nodes, point, day)?;
    Ok(found_numbers(words, sides, ranks, frames, nodes, point, day, fix.grid))
}

// What a lookup in a group handed over as a list of numbers is made of, as `explain` says.
pub fn explain_words(
    words: &[i64; GROUP_WORDS],
    nodes: &[i32],
    point: Point,
    day: i64,
) -> Result<Explanation, Refusal>
    ensures { result ≡ explained (group_of_words words.now) nodes.now point day }
{
    let mut sides = [0u64; flat::SIDES];
    let mut ranks = [0u64; group::GRIDS_MOST];
    let mut frames = [0u64; flat::FRAMES];
    judge::judge_into(words, &mut sides, &mut ranks, &mut frames)?;
    explain_accepted(words, &sides, &ranks, &frames, nodes, point, day)
}

// What the lookup of a point on a day is made of: refused as `lookup` refuses, else the chosen grid's number, the longitude used, the
// cell's indices, the distances from its node of lower indices, the spacing sizes, the weights and their total, the positions of
// the corners, the day's factor, for each parameter the corners, their weighted sum in two parts, the value and the result, and the
// ranks of the other grids that hold the point. With document 01's grid `basin`, no functions and the nodes 0 10 20 / 100 110 120,
// the point (5, 5) has the cell (0, 0), four weights of 25, the sum 5500, the value 55 and the result 55.
pub fn explain(group: Group, nodes: &[i32], point: Point, day: i64) -> Result<Explanation, Refusal>
    ensures { result ≡ explained group nodes.now point day }
{
    let words = abi::numbers_of(group);
    explain_words(&words, nodes, point, day)
}
