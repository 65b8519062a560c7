// Which grid is chosen at a point. Sides are four numbers a grid: west, east, south, north, edges included, grid i, from 0, at 4 * i. The
// lists are flat ones of numbers since tables of a fixed length hold them.
// Longitudes run round a circle: `turn` is a whole turn, and x + turn and x - turn are the point (x, y) too.
#![tactic(auto)]

ghost use Rattle.std.specs.Prelude.{◌≡◌, ◌+◌, ◌*◌, ◌<◌, ◌≤◌, ◌^◌, length};
ghost use Rattle.numbers.specs.Lists.{at};
ghost use Rattle.choice.specs.Rect.{rect_holds, turn_holds, turn_used, pair_count};
ghost use Rattle.choice.specs.Choice.{better_of, chosen};
ghost use Rattle.choice.specs.Blocks.{blocks};
ghost use Rattle.choice.specs.Holder.{held_by};

// The owner and the shift of a rectangle that holds a point.
#[derive(Clone, Copy)]
pub struct Holder {
    pub owner: u64,
    pub shift: u64,
}

// How many rectangles have all four sides, and a number in a second list.
pub fn pair_count(sides: &[u64], numbers: &[u64]) -> usize
    ensures { result ≡ pair_count sides.now numbers.now }
{
    (sides.len() / 4).min(numbers.len())
}

// Whether rectangle i holds the point.
pub fn rect_holds(sides: &[u64], i: usize, x: u64, y: u64) -> bool
    requires { i * 4 + 3 < length sides.now }
    ensures { result ≡ rect_holds sides.now i x y }
{
    let at = i * 4;
    // all four sides are tested, so that no branch is made
    (sides[at] <= x) & ((x <= sides[at + 1]) & ((sides[at + 2] <= y) & (y <= sides[at + 3])))
}

// Whether rectangle i holds the point, as it is or a whole turn farther east or west.
pub fn turn_holds(sides: &[u64], i: usize, turn: u64, x: u64, y: u64) -> bool
    requires { (i * 4 + 3 < length sides.now) × (turn ≤ x) × (x + turn < 2 ^ 64) }
    ensures { result ≡ turn_holds turn sides.now i x y }
{
    let here = rect_holds(sides, i, x, y);
    let east = rect_holds(sides, i, x + turn, y);
    let west = rect_holds(sides, i, x - turn, y);
    here | (east | west)
}

// The first longitude of x, x + turn and x - turn, in that order, at which rectangle i holds the point.
pub fn used_lon(sides: &[u64], i: usize, turn: u64, x: u64, y: u64) -> u64
    requires { (i * 4 + 3 < length sides.now) × (turn ≤ x) × (x + turn < 2 ^ 64) }
    ensures { result ≡ turn_used turn sides.now i x y }
{
    if rect_holds(sides, i, x, y) {
        return x;
    }
    if rect_holds(sides, i, x + turn, y) {
        return x + turn;
    }
    x - turn
}

// Whether grid j, where it holds the point, keeps the choice from the grid numbered k, from 1: its rank number is lower. Where k is 0, for
// none, any grid does.
pub fn is_blocker(ranks: &[u64], j: usize, k: usize) -> bool
    requires { (j < length ranks.now) × (k ≤ length ranks.now) }
    ensures { result ≡ blocks (at ranks.now) j k }
{
    if k == 0 {
        return true;
    }
    ranks[j] < ranks[k - 1]
}

// The better of grid i, where it holds the point, and the grid numbered c, one of those before it or 0 for none, as `chosen` has it.
fn better_of(sides: &[u64], ranks: &[u64], turn: u64, x: u64, y: u64, i: usize, c: u64) -> u64
    requires { (i < pair_count sides.now ranks.now) × (c ≤ i) × (turn ≤ x) × (x + turn < 2 ^ 64) }
    ensures { result ≡ better_of (turn_holds turn sides.now i x y) (at ranks.now) i c }
{
    if turn_holds(sides, i, turn, x, y) && is_blocker(ranks, i, c as usize) {
        i as u64 + 1
    } else {
        c
    }
}

// The number, from 1, of the grid chosen at the point, 0 if none is, as in C's records. A grid counts if it has four sides and a rank.
pub fn chosen_at(sides: &[u64], ranks: &[u64], turn: u64, x: u64, y: u64) -> u64
    requires { (turn ≤ x) × (x + turn < 2 ^ 64) }
    ensures { result ≡ chosen (λ i. turn_holds turn sides.now i x y) (at ranks.now)
        (pair_count sides.now ranks.now) }
{
    let mut c = 0;
    for i in 0..pair_count(sides, ranks) {
        c = better_of(sides, ranks, turn, x, y, i, c);
    }
    c
}

// The owner and the shift of the first of so many rectangles that holds the point as it is. Where they stand in the order of their owners'
// ranks, best first, the owner is the grid chosen at the point (HolderLaws); a grid may own several.
pub fn first_holder(
    sides: &[u64],
    owners: &[u64],
    shifts: &[u64],
    rows: usize,
    x: u64,
    y: u64,
) -> Option<Holder>
    requires { (rows * 4 ≤ length sides.now) × (rows ≤ length owners.now) × (rows ≤ length shifts.now) }
    ensures { result ≡ held_by (λ i. rect_holds sides.now i x y) (at owners.now) (at shifts.now) rows }
{
    for i in 0..rows {
        if rect_holds(sides, i, x, y) {
            return Some(Holder {
                owner: owners[i],
                shift: shifts[i],
            });
        }
    }
    None
}
