// The fix of a point in the grid chosen for it, or refusal 8.
#![tactic(auto)]

ghost use Rattle.std.specs.Prelude.{◌≡◌, ◌≤◌, ◌<◌, nat_abs, length, Err};
ghost use Rattle.group.specs.Numbers.{factor_most};
ghost use Rattle.fix.specs.Fix.{position, cell_of, corners_of, fix_in};
ghost use Rattle.fix.specs.Inside.{InsideGrid, RangeListed};
ghost use Rattle.fix.specs.Parts.{Begun};

use cell::{Corners, Weights};
use group::Refusal;

// A point in a grid: its distances in mas from node 0 and the spacing sizes, along parallel and meridian; the counts of nodes,
// START and the count of parameters.
#[derive(Clone, Copy)]
pub struct Offset {
    pub dx: u64,
    pub dy: u64,
    pub sx: u64,
    pub sy: u64,
    pub ni: u64,
    pub nj: u64,
    pub start: u64,
    pub np: u64,
}

// A point's cell: the indices of its node of lower indices, and the weights of its corners.
#[derive(Clone, Copy)]
pub struct Cell {
    pub i: u64,
    pub j: u64,
    pub weights: Weights,
}

// An accepted lookup: the chosen grid's number, from 1, and its results in steps, those of missing parameters 0.
#[derive(Clone, Copy)]
pub struct Fix {
    pub grid: u64,
    pub first: i64,
    pub second: i64,
    pub third: i64,
}

// The cell of a point in a grid.
pub fn cell_of(l: Offset) -> Cell
    requires { InsideGrid l }
    ensures { result ≡ cell_of l }
{
    let x = cell::cell_along(l.dx, l.sx, l.ni);
    let y = cell::cell_along(l.dy, l.sy, l.nj);
    let weights = cell::weights_at(l.sx, l.sy, x.rest, y.rest);
    Cell {
        i: x.index,
        j: y.index,
        weights,
    }
}

// The position of the first parameter of node (i, j) in the node list.
pub fn position(l: Offset, i: u64, j: u64) -> u64
    requires { InsideGrid l × (i < l.ni) × (j < l.nj) × (0 < l.np) }
    ensures { result ≡ position l i j 0 }
{
    l.start + (j * l.ni + i) * l.np
}

// What the corners of the point's cell hold of parameter p; a is the position of the cell's node of lower indices.
pub fn corners_at(l: Offset, nodes: &[i32], a: u64, p: u64) -> Corners
    requires { InsideGrid l × RangeListed l (length nodes.now) × (a ≡ position l (cell_of l).i (cell_of l).j 0) × (p < l.np) }
    ensures { result ≡ corners_of l nodes.now p }
{
    let low = a + p;
    let high = low + l.ni * l.np;
    let i = low as usize;
    let j = (low + l.np) as usize;
    let k = high as usize;
    let m = (high + l.np) as usize;
    Corners {
        v00: nodes[i],
        v10: nodes[j],
        v01: nodes[k],
        v11: nodes[m],
    }
}

// Refusal 8.
fn no_data() -> Result<Fix, Refusal>
    ensures { result ≡ Err (record { number = 8; place = 0 }) }
{
    Err(Refusal {
        number: 8,
        place: 0,
    })
}

// The fix of a point with the weights w of its cell's corners, whose node of lower indices stands at a, whatever these hold: in two words.
fn fix_far(
    l: Offset,
    w: Weights,
    a: u64,
    nodes: &[i32],
    factor: i64,
    grid: u64,
) -> Result<Fix, Refusal>
    requires { Begun l (length nodes.now) w a × (0 < l.np) × (nat_abs factor ≤ factor_most) }
    ensures { result ≡ fix_in l nodes.now factor grid }
{
    let u = corners_at(l, nodes, a, 0);
    if cell::used_marked(w, u) {
        return no_data();
    }
    let first = day::result_of(cell::value_two_words(w, u), factor);
    if l.np <= 1 {
        return Ok(Fix {
            grid,
            first,
            second: 0,
            third: 0,
        });
    }
    let v = corners_at(l, nodes, a, 1);
    if cell::used_marked(w, v) {
        return no_data();
    }
    let second = day::result_of(cell::value_two_words(w, v), factor);
    if l.np <= 2 {
        return Ok(Fix {
            grid,
            first,
            second,
            third: 0,
        });
    }
    let t = corners_at(l, nodes, a, 2);
    if cell::used_marked(w, t) {
        return no_data();
    }
    let third = day::result_of(cell::value_two_words(w, t), factor);
    Ok(Fix {
        grid,
        first,
        second,
        third,
    })
}

// The fix of a point with the weights w of its cell's corners, whose node of lower indices stands at a: in one word as long as the total
// and the corners of each parameter allow it, else by `fix_far`. One parameter at a time, with no loop and no call that is shared, so that each is
// compiled in its place; `fix_far` is lent copies, so that what they are copied from stays in registers.
fn fix_from(
    l: Offset,
    w: Weights,
    a: u64,
    nodes: &[i32],
    factor: i64,
    grid: u64,
) -> Result<Fix, Refusal>
    requires { Begun l (length nodes.now) w a × (0 < l.np) × (nat_abs factor ≤ factor_most) }
    ensures { result ≡ fix_in l nodes.now factor grid }
{
    let u = corners_at(l, nodes, a, 0);
    if (cell::NEAR_TOTAL < w.total) | !cell::all_near(u) {
        let m = l;
        let x = w;
        let n = nodes;
        return fix_far(m, x, a, n, factor, grid);
    }
    let first = day::result_of(cell::value_one_word(w, u), factor);
    if l.np <= 1 {
        return Ok(Fix {
            grid,
            first,
            second: 0,
            third: 0,
        });
    }
    let v = corners_at(l, nodes, a, 1);
    if !cell::all_near(v) {
        let m = l;
        let x = w;
        let n = nodes;
        return fix_far(m, x, a, n, factor, grid);
    }
    let second = day::result_of(cell::value_one_word(w, v), factor);
    if l.np <= 2 {
        return Ok(Fix {
            grid,
            first,
            second,
            third: 0,
        });
    }
    let t = corners_at(l, nodes, a, 2);
    if !cell::all_near(t) {
        let m = l;
        let x = w;
        let n = nodes;
        return fix_far(m, x, a, n, factor, grid);
    }
    let third = day::result_of(cell::value_one_word(w, t), factor);
    Ok(Fix {
        grid,
        first,
        second,
        third,
    })
}

// The fix of a point in the grid of a number, from 1, with the day factor in millionths: refusal 8 where a used corner is the
// mark, else the results. No 32-bit number but the mark is beyond the limit of node values, so 11 never comes.
pub fn fix_in(l: Offset, nodes: &[i32], factor: i64, grid: u64) -> Result<Fix, Refusal>
    requires { InsideGrid l × RangeListed l (length nodes.now) × (nat_abs factor ≤ factor_most) }
    ensures { result ≡ fix_in l nodes.now factor grid }
{
    if l.np == 0 {
        return Ok(Fix {
            grid,
            first: 0,
            second: 0,
            third: 0,
        });
    }
    let s = cell_of(l);
    let a = position(l, s.i, s.j);
    fix_from(l, s.weights, a, nodes, factor, grid)
}
