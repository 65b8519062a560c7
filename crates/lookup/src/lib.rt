// The lookup: what a group of grids says of a point on a day.
#![tactic(auto)]

ghost use Rattle.std.specs.Prelude.{◌≡◌, true, ◌+◌, ◌*◌, ◌^◌, ◌<◌, ◌≤◌, ltb, nat_abs, length, Ok};
ghost use Rattle.numbers.specs.First.{first};
ghost use Rattle.group.specs.Numbers.{lon_turn, parameters_most, functions_most, grids_most, day_fits, factor_most};
ghost use Rattle.abi.specs.Words.{group_words};
ghost use Rattle.abi.specs.Abi.{group_of_words};
ghost use Rattle.flat.specs.Frames.{frame_at, frame_end};
ghost use Rattle.flat.specs.Lists.{Room, Framed};
ghost use Rattle.numbers.specs.Lists.{at};
ghost use Rattle.choice.specs.Rect.{turn_holds};
ghost use Rattle.choice.specs.Choice.{chosen};
ghost use Rattle.judge.specs.Judge.{judged};
ghost use Rattle.day.specs.Flat.{factor_in};
ghost use Rattle.lookup.specs.Answer.{stored_record};
ghost use Rattle.lookup.specs.Lookup.{point_fits, nodes_judged, fix_at, fix_of, looked_in, looked, LookupReady};
ghost use Rattle.lookup.specs.Flat.{distance, offset_in, Chosen, Laid, FramesSized, function_rows, FunctionsFit};
ghost use Rattle.lookup.specs.Flat.{used_at, fix_held, HeldChosen, fix_ranked, LaidRows};

use abi::GROUP_WORDS;
use choice::Holder;
use fix::{Fix, Offset};
use flat::Frame;
use group::{Group, LON_TURN, Point, Refusal};

// A lookup's answer as C has it: the number and the place of its refusal, 0 and 0 if there is none, and the chosen grid's number and
// its results in steps, zeros beside a refusal.
#[repr(C)]
#[derive(Clone, Copy)]
pub struct Answer {
    pub number: u64,
    pub place: u64,
    pub grid: i64,
    pub first: i64,
    pub second: i64,
    pub third: i64,
}

// A lookup's answer as a record.
pub fn answer_of(found: Result<Fix, Refusal>) -> Answer
    ensures { result ≡ stored_record found }
{
    match found {
        Ok(f) => Answer {
            number: 0,
            place: 0,
            grid: abi::as_stored(f.grid),
            first: f.first,
            second: f.second,
            third: f.third,
        },
        Err(r) => Answer {
            number: r.number,
            place: r.place,
            grid: 0,
            first: 0,
            second: 0,
            third: 0,
        },
    }
}

// A point, as distances in mas from the least longitude and latitude, seen from a grid.
pub fn offset_in(f: Frame, np: u64, x: u64, y: u64) -> Offset
    ensures { result ≡ offset_in f np x y }
{
    Offset {
        dx: x.abs_diff(f.lon),
        dy: y.abs_diff(f.lat),
        sx: f.dlon,
        sy: f.dlat,
        ni: f.ni,
        nj: f.nj,
        start: f.start,
        np,
    }
}

// The fix of a point (x, y) in the grid numbered c, from 1; refusal 7 where c is 0, for none, as `chosen` has it.
pub fn fix_chosen(
    frames: &[u64],
    c: u64,
    np: u64,
    nodes: &[i32],
    factor: i64,
    x: u64,
    y: u64,
) -> Result<Fix, Refusal>
    requires { Chosen frames.now c np (length nodes.now) x y × (nat_abs factor ≤ factor_most) }
    ensures { result ≡ fix_at c (λ k. offset_in (frame_at frames.now k) np x y) nodes.now factor }
{
    if c == 0 {
        return Err(Refusal {
            number: 7,
            place: 0,
        });
    }
    let k = (c - 1) as usize;
    let l = offset_in(flat::frame_at(frames, k), np, x, y);
    fix::fix_in(l, nodes, factor, c)
}

// The number of the grid chosen at a point (x, y), from 1, by the lists of so many grids; 0 for none, as `chosen` has it.
fn chosen_flat(sides: &[u64], ranks: &[u64], grids: usize, x: u64, y: u64) -> u64
    requires { Room sides.now ranks.now grids × (lon_turn ≤ x) × (x + lon_turn < 2 ^ 64) }
    ensures { result ≡ chosen (λ i. turn_holds lon_turn sides.now i x y) (at ranks.now) grids }
{
    choice::chosen_at(&sides[..grids * 4], &ranks[..grids], LON_TURN, x, y)
}

// The longitude that the grid numbered c, from 1, uses of a point (x, y); x itself where c is 0, for none, as `chosen` has it.
pub fn used_at(sides: &[u64], c: u64, x: u64, y: u64) -> u64
    requires { (c * 4 ≤ length sides.now) × (lon_turn ≤ x) × (x + lon_turn < 2 ^ 64) }
    ensures { result ≡ used_at sides.now c x y }
{
    if c == 0 {
        return x;
    }
    choice::used_lon(sides, (c - 1) as usize, LON_TURN, x, y)
}

// The fix of a point (x, y) in the grid that holds it by one of its rectangles, for that one's turn; refusal 7 where nothing does.
pub fn fix_held(
    frames: &[u64],
    held: Option<Holder>,
    np: u64,
    nodes: &[i32],
    factor: i64,
    x: u64,
    y: u64,
) -> Result<Fix, Refusal>
    requires { HeldChosen frames.now held np (length nodes.now) x y × (nat_abs factor ≤ factor_most) }
    ensures { result ≡ fix_held frames.now held np nodes.now factor x y }
{
    match held {
        None => Err(Refusal {
            number: 7,
            place: 0,
        }),
        Some(h) => {
            let at = x + h.shift - LON_TURN;
            fix_chosen(frames, h.owner + 1, np, nodes, factor, at, y)
        }
    }
}

// The lookup of one point (x, y), given as distances in mas from the zeros of longitude and latitude, in an accepted group of which
// the flat lists are made once, for many points: refusal 7 or 8, or the fix. The rectangles stand in the order of their owners'
// ranks, best first: the owner of the first that holds the point is chosen; a grid may own several, one for each turn.
pub fn look_ranked(
    rows: &[u64],
    owners: &[u64],
    shifts: &[u64],
    frames: &[u64],
    count: usize,
    np: u64,
    nodes: &[i32],
    factor: i64,
    x: u64,
    y: u64,
) -> Result<Fix, Refusal>
    requires { LaidRows rows.now owners.now shifts.now frames.now count np (length nodes.now) x y × (nat_abs factor ≤ factor_most) }
    ensures { result ≡ fix_ranked rows.now owners.now shifts.now frames.now count np
        nodes.now factor x y }
{
    let held = choice::first_holder(rows, owners, shifts, count, x, y);
    fix_held(frames, held, np, nodes, factor, x, y)
}

// The first of n grids whose node range, of np parameters, ends behind so many nodes, n if none does.
fn first_short(frames: &[u64], n: u64, np: u64, count: u64) -> u64
    requires { (n * 7 ≤ length frames.now) × (np ≤ parameters_most) × FramesSized frames.now n }
    ensures { result ≡ first (λ k. ltb count (frame_end np (frame_at frames.now k))) n }
{
    for i in 0..n {
        let f = flat::frame_at(frames, i as usize);
        if count < extent::node_end(f.start, f.ni, f.nj, np) {
            return i;
        }
    }
    n
}

// Whether a point is within the limits.
pub fn point_fits(p: Point) -> bool
    ensures { result ≡ point_fits p }
{
    (group::LON_LEAST..=group::LON_MOST).contains(&p.lon.0)
        & (group::LAT_LEAST..=group::LAT_MOST).contains(&p.lat.0)
}

// Whether a day is within the limit.
pub fn day_fits(day: i64) -> bool
    ensures { result ≡ day_fits day }
{
    group::day_fits(day)
}

// The factor of the first functions of a group's numbers, so many, on a day within the limit, in millionths.
pub fn factor_on(numbers: &[i64], functions: u64, day: i64) -> i64
    requires { (group_words ≤ length numbers.now) × (functions ≤ functions_most) × FunctionsFit numbers.now functions × (day_fits day ≡ true) }
    ensures { result ≡ factor_in (function_rows numbers.now) functions day }
{
    day::day_factor(
        &numbers[abi::HEAD_WORDS..abi::GRIDS_FROM],
        functions as usize,
        day,
    )
}

// The lookup in an accepted group, whose flat lists are these, of a point and a day within the limits, with every node range within the
// list: refusal 7 or 8, or the fix.
fn look_in(
    words: &[i64; GROUP_WORDS],
    sides: &[u64],
    ranks: &[u64],
    frames: &[u64],
    nodes: &[i32],
    point: Point,
    day: i64,
) -> Result<Fix, Refusal>
    requires { LookupReady (group_of_words words.now) (length nodes.now) point day
        × Laid (group_of_words words.now) sides.now ranks.now frames.now }
    ensures { result ≡ fix_of (group_of_words words.now) nodes.now point day }
{
    let x = extent::lon_from_least(point.lon);
    let y = extent::lat_from_least(point.lat);
    let c = chosen_flat(sides, ranks, abi::grid_count(words) as usize, x, y);
    let at = used_at(sides, c, x, y);
    let factor = factor_on(words, abi::function_count(words), day);
    fix_chosen(frames, c, abi::parameter_count(words), nodes, factor, at, y)
}

// Refusal 13 of so many nodes, for an accepted group with these frames.
pub fn judge_nodes(words: &[i64; GROUP_WORDS], frames: &[u64], nodes: usize) -> Result<(), Refusal>
    requires { (judged (group_of_words words.now) ≡ Ok tt) × Framed (group_of_words words.now) (group_of_words words.now).grids frames.now
        × (grids_most * 7 ≤ length frames.now) }
    ensures { result ≡ nodes_judged (group_of_words words.now) nodes }
{
    let n = abi::grid_count(words);
    let short = first_short(frames, n, abi::parameter_count(words), nodes as u64);
    if short < n {
        return Err(Refusal {
            number: 13,
            place: short + 1,
        });
    }
    Ok(())
}

// The lookup in an accepted group, whose flat lists are these: refusal 6, 9, 13, 7 or 8, or the fix.
pub fn look_accepted(
    words: &[i64; GROUP_WORDS],
    sides: &[u64],
    ranks: &[u64],
    frames: &[u64],
    nodes: &[i32],
    point: Point,
    day: i64,
) -> Result<Fix, Refusal>
    requires { (judged (group_of_words words.now) ≡ Ok tt) × Laid (group_of_words words.now) sides.now ranks.now frames.now }
    ensures { result ≡ looked_in (group_of_words words.now) nodes.now point day }
{
    if !point_fits(point) {
        return Err(Refusal {
            number: 6,
            place: 0,
        });
    }
    if !day_fits(day) {
        return Err(Refusal {
            number: 9,
            place: 0,
        });
    }
    judge_nodes(words, frames, nodes.len())?;
    look_in(words, sides, ranks, frames, nodes, point, day)
}

// What a group handed over as a list of numbers says of a point on a day, as `lookup` says.
pub fn look_words(
    words: &[i64; GROUP_WORDS],
    nodes: &[i32],
    point: Point,
    day: i64,
) -> Result<Fix, Refusal>
    ensures { result ≡ looked (group_of_words words.now) nodes.now point day }
{
    let mut sides = [0u64; flat::SIDES];
    let mut ranks = [0u64; group::GRIDS_MOST];
    let mut frames = [0u64; flat::FRAMES];
    judge::judge_into(words, &mut sides, &mut ranks, &mut frames)?;
    look_accepted(words, &sides, &ranks, &frames, nodes, point, day)
}

// What a group says of a point on a day: the number of the chosen grid and its results in steps, or the first refusal of 2 to 5
// (the group), 6 (the point is outside the limits), 9 (the day is), 13 (the node list ends before some grid's range does), 7 (no
// grid holds the point) and 8 (a used corner is the mark). With document 01's grid `basin`, no functions and the nodes
// 0 10 20 / 100 110 120, the point (5, 5) on any day answers grid 1 and 55, 0, 0.
pub fn lookup(group: Group, nodes: &[i32], point: Point, day: i64) -> Result<Fix, Refusal>
    ensures { result ≡ looked group nodes.now point day }
{
    let words = abi::numbers_of(group);
    look_words(&words, nodes, point, day)
}
