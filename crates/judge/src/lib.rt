// The judge of a group handed over as a record or as a list of numbers: refusals 2 to 5.
#![tactic(auto)]

ghost use Rattle.std.specs.Prelude.{◌≡◌, true, false, cond, not, ◌&&◌, ◌||◌, ℕ, ◌+◌, ◌-◌, ◌*◌, ◌^◌, ◌<◌, ◌≤◌, ltb, leb, eqb, length, set, Ok, Err};
ghost use Rattle.numbers.specs.First.{first, some};
ghost use Rattle.group.specs.Numbers.{parameters_most, functions_most, grids_most};
ghost use Rattle.group.specs.Refusals.{refuse_if};
ghost use Rattle.group.specs.Limits.{function_fits, function_blank, grid_fits, grid_blank, head_fits};
ghost use Rattle.abi.specs.Abi.{function_of_words, grid_of_words, group_of_words};
ghost use Rattle.extent.specs.Extent.{inside};
ghost use Rattle.extent.specs.Sides.{ahead};
ghost use Rattle.flat.specs.Lists.{FlatRoom, Flattened};
ghost use Rattle.judge.specs.Judge.{bad_grid, judged};
ghost use Rattle.judge.specs.Rules.{HeadLimits, judged_from, KeyRoom, Scanned, Left};
ghost use Rattle.judge.specs.Keys.{word_at, name_keys, put_four, agree, some_reaches, rank_rule, clash};

use abi::GROUP_WORDS;
use flat::{LON_FIRST, LON_LAST};
use group::{
    Function, Grid, Group, LON_TURN, Name, Refusal, function_blank, function_fits, grid_fits,
    head_numbers_fit, name_fits,
};

// The entries of a record, used or not.
const FUNCTIONS: u64 = group::FUNCTIONS_MOST as u64;

const GRIDS: u64 = group::GRIDS_MOST as u64;

// Four numbers of each, by which grids are compared.
const FOURS: usize = group::GRIDS_MOST * 4;

// What two grids may not share: a name; or a rank, where they hold a coordinate in common: where their extents share one as they are
// written, or round the earth. An enum and no closure, since which of them ranks are compared by is known only at run time.
#[derive(Clone, Copy)]
enum Shared {
    Name,
    Rank,
    Turn,
}

// The numbers by which a grid is compared with another.
#[derive(Clone, Copy)]
struct Keys {
    key: u64,
    a: u64,
    b: u64,
    c: u64,
    d: u64,
}

// What one pass over the grids finds: the first whose line is outside its limits, and the first whose far edge, width or node range is; each is
// the count of grids if there is none.
#[derive(Clone, Copy)]
struct Scan {
    bad: u64,
    edge: u64,
}

// Whether a function entry from one on is no ramp of zeros.
fn some_unused_function(words: &[i64; GROUP_WORDS], from: u64) -> bool
    requires { from ≤ functions_most }
    ensures { result ≡ some (λ k. leb from k && not (function_blank (function_of_words words.now k))) functions_most }
{
    for k in from..FUNCTIONS {
        if !function_blank(abi::function_of_words(words, k as usize)) {
            return true;
        }
    }
    false
}

// Whether a grid entry from one on is not all zero.
fn some_unused_grid(words: &[i64; GROUP_WORDS], from: u64) -> bool
    requires { from ≤ grids_most }
    ensures { result ≡ some (λ k. leb from k && not (grid_blank (grid_of_words words.now k))) grids_most }
{
    for k in from..GRIDS {
        if !abi::grid_clear(words, k as usize) {
            return true;
        }
    }
    false
}

// The first of n functions that is outside its limits, n if none is.
fn first_bad_function(words: &[i64; GROUP_WORDS], n: u64) -> u64
    requires { n ≤ functions_most }
    ensures { result ≡ first (λ k. not (function_fits (function_of_words words.now k))) n }
{
    for k in 0..n {
        if !function_fits(abi::function_of_words(words, k as usize)) {
            return k;
        }
    }
    n
}

// The eight bytes of a name from one on, as one number.
fn word(name: Name, from: usize) -> u64
    requires { from ≤ 16 }
    ensures { result ≡ word_at name from }
{
    let bytes = std::array::from_fn(|j| name.bytes[from + j]);
    u64::from_be_bytes(bytes)
}

// The numbers by which a name is compared with the others.
fn name_keys(name: Name) -> Keys
    ensures { result ≡ name_keys name }
{
    Keys {
        key: name.len,
        a: word(name, 0),
        b: word(name, 8),
        c: word(name, 16),
        d: 0,
    }
}

// Stores the keys of grid i.
fn put_keys(fours: &mut [u64], keys: &mut [u64], i: usize, m: Keys)
    requires { (i * 4 + 3 < length fours.old) × (i < length keys.old) }
    ensures { (fours.new ≡ put_four fours.old i m) × (keys.new ≡ set keys.old i m.key) }
{
    let at = i * 4;
    fours[at] = m.a;
    fours[at + 1] = m.b;
    fours[at + 2] = m.c;
    fours[at + 3] = m.d;
    keys[i] = m.key;
}

// Stores what the lists have of a grid whose line is within its limits, as that of grid k, and answers whether its far edges, its width
// and its node range are within theirs.
fn list_grid(
    g: Grid,
    np: u64,
    k: usize,
    fours: &mut [u64],
    keys: &mut [u64],
    sides: &mut [u64],
    ranks: &mut [u64],
    frames: &mut [u64],
) -> bool
    requires { (grid_fits g ≡ true) × (np ≤ parameters_most) × KeyRoom fours.old keys.old (k + 1)
        × FlatRoom sides.old ranks.old frames.old (k + 1) }
    ensures { (result ≡ inside np g) × (fours.new ≡ put_four fours.old k (name_keys g.name))
        × (keys.new ≡ set keys.old k g.name.len)
        × Flattened g k sides.old ranks.old frames.old sides.new ranks.new frames.new }
{
    put_keys(fours, keys, k, name_keys(g.name));
    flat::flatten(g, k, sides, ranks, frames);
    extent::grid_inside(g, np)
}

// The first of i + 1 grids outside the limits of 4, i + 1 if none is: `edge` is that of the first i, and the last is inside or not.
fn edge_after(edge: u64, i: u64, inside: bool) -> u64
    requires { i < grids_most }
    ensures { result ≡ cond (eqb edge i && inside) (i + 1) edge }
{
    if (edge == i) & inside {
        return i + 1;
    }
    edge
}

// One pass over n grids, to the first whose line is outside its limits: judges 2 and 4 and fills the lists.
// The lists stay apart: the caller lends three of them, and `flat` fills these as they are lent.
fn scan_grids(
    words: &[i64; GROUP_WORDS],
    n: u64,
    np: u64,
    fours: &mut [u64],
    keys: &mut [u64],
    sides: &mut [u64],
    ranks: &mut [u64],
    frames: &mut [u64],
) -> Scan
    requires { (np ≤ parameters_most) × KeyRoom fours.old keys.old n × FlatRoom sides.old ranks.old frames.old n }
    ensures { (result.bad ≡ first (bad_grid (group_of_words words.now)) n)
        × (n ≤ result.bad → Scanned (group_of_words words.now) np n result.edge
        fours.new keys.new sides.new ranks.new frames.new) }
{
    let mut edge = 0;
    for i in 0..n {
        let g = abi::grid_of_words(words, i as usize);
        if !grid_fits(g) {
            return Scan { bad: i, edge };
        }
        let inside = list_grid(g, np, i as usize, fours, keys, sides, ranks, frames);
        edge = edge_after(edge, i, inside);
    }
    Scan { bad: n, edge }
}

// How far east of w the longitude x lies, round the earth.
fn ahead(w: u64, x: u64) -> u64
    ensures { result ≡ ahead w x }
{
    if w <= x {
        return (x - w) % LON_TURN;
    }
    LON_TURN - 1 - (w - x - 1) % LON_TURN
}

// Whether two extents share a longitude round the earth: the west side of one lies in the other.
fn lons_meet(w: u64, e: u64, v: u64, f: u64) -> bool
    ensures { result ≡ (leb (ahead v w) (f - v) || leb (ahead w v) (e - w)) }
{
    let first = ahead(v, w) <= f.saturating_sub(v);
    let second = ahead(w, v) <= e.saturating_sub(w);
    first | second
}

// Whether the ranges from w to e and from v to f share a number.
fn ranges_meet(w: u64, e: u64, v: u64, f: u64) -> bool
    ensures { result ≡ (leb w f && leb v e) }
{
    (w <= f) & (v <= e)
}

// Whether the keys of grids j and k agree.
fn keys_agree(shared: Shared, fours: &[u64], j: usize, k: usize) -> bool
    requires { (j * 4 + 3 < length fours.now) × (k * 4 + 3 < length fours.now) }
    ensures { result ≡ agree shared fours.now j k }
{
    let p = j * 4;
    let q = k * 4;
    match shared {
        Shared::Name => {
            (fours[p] == fours[q])
                & (fours[p + 1] == fours[q + 1])
                & (fours[p + 2] == fours[q + 2])
                & (fours[p + 3] == fours[q + 3])
        }
        Shared::Rank => {
            let lons = ranges_meet(fours[p], fours[p + 1], fours[q], fours[q + 1]);
            let lats = ranges_meet(fours[p + 2], fours[p + 3], fours[q + 2], fours[q + 3]);
            lons & lats
        }
        Shared::Turn => {
            let lons = lons_meet(fours[p], fours[p + 1], fours[q], fours[q + 1]);
            let lats = ranges_meet(fours[p + 2], fours[p + 3], fours[q + 2], fours[q + 3]);
            lons & lats
        }
    }
}

// Whether grid j shares with grid k what it may not.
#[tactic(auto, unfolding(crate::specs::Keys::clash))]
fn grids_clash(shared: Shared, fours: &[u64], keys: &[u64], j: usize, k: usize) -> bool
    requires { (j * 4 + 3 < length fours.now) × (k * 4 + 3 < length fours.now) × (j < length keys.now) × (k < length keys.now) }
    ensures { result ≡ clash shared fours.now keys.now k j }
{
    if keys[j] != keys[k] {
        return false;
    }
    keys_agree(shared, fours, j, k)
}

// Whether some grid before grid k shares with it what it may not.
fn clashes_earlier(shared: Shared, fours: &[u64], keys: &[u64], k: usize) -> bool
    requires { (k * 4 + 3 < length fours.now) × (k < length keys.now) }
    ensures { result ≡ some (clash shared fours.now keys.now k) k }
{
    for j in 0..k {
        if grids_clash(shared, fours, keys, j, k) {
            return true;
        }
    }
    false
}

// The first of n grids that shares with an earlier one what it may not, n if none does.
fn first_clash(shared: Shared, fours: &[u64], keys: &[u64], n: u64) -> u64
    requires { (n * 4 ≤ length fours.now) × (n ≤ length keys.now) }
    ensures { result ≡ first (λ k. some (clash shared fours.now keys.now k) k) n }
{
    for k in 0..n {
        if clashes_earlier(shared, fours, keys, k as usize) {
            return k;
        }
    }
    n
}

// Whether one of n grids reaches the ends of the admitted longitudes.
fn some_reaches(sides: &[u64], n: u64) -> bool
    requires { n * 4 ≤ length sides.now }
    ensures { result ≡ some_reaches sides.now n }
{
    for k in 0..n {
        let at = k as usize * 4;
        if (sides[at] <= LON_FIRST) | (LON_LAST <= sides[at + 1]) {
            return true;
        }
    }
    false
}

// How the ranks of n grids are compared: round the earth only where one of them reaches the ends of the admitted longitudes.
fn rank_rule(sides: &[u64], n: u64) -> Shared
    requires { n * 4 ≤ length sides.now }
    ensures { result ≡ rank_rule sides.now n }
{
    if some_reaches(sides, n) {
        return Shared::Turn;
    }
    Shared::Rank
}

// Refuses the first of n that a test named, i, at its place counted from `base`; i is n where the test named none.
fn refuse_at(number: u64, i: u64, n: u64, base: u64) -> Result<(), Refusal>
    requires { n + base < 2 ^ 64 }
    ensures { result ≡ refuse_if Err (ltb i n) number (i + base) (Ok tt) }
{
    if i < n {
        return Err(Refusal {
            number,
            place: i + base,
        });
    }
    Ok(())
}

// Refusal 2 of the grid lines, of which the first is line `from`, then 3 to 5; what it leaves in the lists, `judge_into` says.
fn judge_grids(
    words: &[i64; GROUP_WORDS],
    from: u64,
    sides: &mut [u64],
    ranks: &mut [u64],
    frames: &mut [u64],
) -> Result<(), Refusal>
    requires { HeadLimits (group_of_words words.now) × (from ≤ functions_most + 2) × FlatRoom sides.old ranks.old frames.old grids_most }
    ensures { (result ≡ judged_from from (group_of_words words.now))
        × Left result (group_of_words words.now) sides.new ranks.new frames.new }
{
    let n = abi::grid_count(words);
    let np = abi::parameter_count(words);
    let mut fours = [0u64; FOURS];
    let mut keys = [0u64; group::GRIDS_MOST];
    let found = scan_grids(words, n, np, &mut fours, &mut keys, sides, ranks, frames);
    refuse_at(2, found.bad, n, from)?;
    refuse_at(3, first_clash(Shared::Name, &fours, &keys, n), n, 1)?;
    refuse_at(4, found.edge, n, 1)?;
    let rule = rank_rule(sides, n);
    refuse_at(5, first_clash(rule, sides, ranks, n), n, 1)
}

// Whether a group's name is well formed and the numbers of its line are within their limits.
#[tactic(auto, unfolding(group::specs::Limits::head_fits))]
fn head_fits(words: &[i64; GROUP_WORDS]) -> bool
    ensures { result ≡ head_fits (group_of_words words.now) }
{
    let name = name_fits(abi::name_of(words));
    let numbers = head_numbers_fit(
        abi::quantum_of(words),
        abi::parameter_count(words),
        abi::function_count(words),
        abi::grid_count(words),
    );
    name & numbers
}

// What a group handed over as a list of numbers is judged, as `judge` says; of an accepted group the lists are left with the sides, ranks
// and frames of its grids, for the call that goes on with it.
pub fn judge_into(
    words: &[i64; GROUP_WORDS],
    sides: &mut [u64],
    ranks: &mut [u64],
    frames: &mut [u64],
) -> Result<(), Refusal>
    requires { FlatRoom sides.old ranks.old frames.old grids_most }
    ensures { (result ≡ judged (group_of_words words.now))
        × Left result (group_of_words words.now) sides.new ranks.new frames.new }
{
    let first_line = Refusal {
        number: 2,
        place: 1,
    };
    if !head_fits(words) {
        return Err(first_line);
    }
    let m = abi::function_count(words);
    if some_unused_function(words, m) {
        return Err(first_line);
    }
    if some_unused_grid(words, abi::grid_count(words)) {
        return Err(first_line);
    }
    refuse_at(2, first_bad_function(words, m), m, 2)?;
    judge_grids(words, m + 2, sides, ranks, frames)
}

// The same, where the call needs no lists.
pub fn judge_words(words: &[i64; GROUP_WORDS]) -> Result<(), Refusal>
    ensures { result ≡ judged (group_of_words words.now) }
{
    let mut sides = [0u64; flat::SIDES];
    let mut ranks = [0u64; group::GRIDS_MOST];
    let mut frames = [0u64; flat::FRAMES];
    judge_into(words, &mut sides, &mut ranks, &mut frames)
}

// What a group handed over as a record is judged: accepted, or the refusal of the lowest number from 2 to 5 with its place.
pub fn judge(group: Group) -> Result<(), Refusal>
    ensures { result ≡ judged group }
{
    let words = abi::numbers_of(group);
    judge_words(&words)
}
