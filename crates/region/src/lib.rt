// The southmost, then westmost point of a rectangle that no blocker holds. Blockers are rectangles, four unsigned numbers each in one flat
// list: west, east, south, north, sides included.
#![tactic(auto)]

ghost use Rattle.std.specs.Prelude.{◌≡◌, ◌<◌, ◌≤◌};
ghost use Rattle.region.specs.First.{first_in};
ghost use Rattle.region.specs.Earlier.{earlier};
ghost use Rattle.region.specs.Free.{free, reaches, rect_count};
ghost use Rattle.region.specs.Rows.{RowAnswer};

// A point: longitude and latitude.
#[derive(Clone, Copy)]
pub struct Spot {
    pub x: u64,
    pub y: u64,
}

// The bounds of a search, included.
#[derive(Clone, Copy)]
pub struct Bounds {
    pub west: u64,
    pub east: u64,
    pub south: u64,
    pub north: u64,
}

// Of a row: its westmost free longitude, or the last row that the blockers of this one hold whole.
// No Option and no Result: either number is an answer, with a meaning of its own.
#[derive(Clone, Copy)]
enum Row {
    Open(u64),
    Shut(u64),
}

// Whether rectangle i lies in row y and does not end west of x.
fn reaches(rs: &[u64], i: usize, x: u64, y: u64) -> bool
    requires { i < rect_count rs.now }
    ensures { result ≡ reaches rs.now i x y }
{
    let at = i * 4;
    // all three sides are tested, so that no branch is made
    (x <= rs[at + 1]) & ((rs[at + 2] <= y) & (y <= rs[at + 3]))
}

// In row y of an area, the westmost longitude that no rectangle holds; or, where rectangles hold them all, how far north, up to the
// area's side, these same rectangles do. Goes once through a list from west to east; in another one it begins anew for a rectangle that it
// passed because it lay ahead.
fn first_in_row(rs: &[u64], y: u64, a: Bounds) -> Row
    requires { (y ≤ a.north) × (a.west ≤ a.east) }
    ensures { RowAnswer rs.now y a.west a.east a.north result }
{
    let n = rs.len() / 4;
    let mut x = a.west;
    let mut top = a.north;
    let mut ahead = false;
    let mut i = 0;
    // no `for`, since the walk may begin anew
    while i < n {
        let at = i * 4;
        let reached = reaches(rs, i, x, y);
        i += 1;
        if reached {
            if x < rs[at] {
                ahead = true;
            } else {
                top = top.min(rs[at + 3]);
                let to = rs[at + 1];
                if a.east <= to {
                    return Row::Shut(top);
                }
                x = to + 1;
                if ahead {
                    ahead = false;
                    i = 0;
                }
            }
        }
    }
    Row::Open(x)
}

// The southmost, then westmost point of an area that no rectangle holds; quickest if the rectangles stand from west to east.
pub fn first_free(rs: &[u64], a: Bounds) -> Option<Spot>
    ensures { result ≡ first_in (free rs.now) a.west a.east a.south a.north }
{
    if a.east < a.west {
        return None;
    }
    let mut y = a.south;
    // no `for`, since rows that are shut together are passed at once
    while y <= a.north {
        match first_in_row(rs, y, a) {
            Row::Open(x) => {
                return Some(Spot { x, y });
            }
            Row::Shut(top) => {
                if a.north <= top {
                    return None;
                }
                y = top + 1;
            }
        }
    }
    None
}

// Of two points the one further south, and in one row the one further west.
pub fn earlier_spot(a: Option<Spot>, b: Option<Spot>) -> Option<Spot>
    ensures { result ≡ earlier a b }
{
    let Some(p) = a else {
        return b;
    };
    let Some(q) = b else {
        return a;
    };
    if p.y < q.y || (p.y == q.y && p.x <= q.x) {
        a
    } else {
        b
    }
}
