// The group record of document 01 and the limits of its lines, refusal 2.
// Tests of numbers are joined by `&`: each is cheap, and none needs a branch.
#![tactic(auto)]

ghost use Rattle.std.specs.Prelude.{◌≡◌, not, ◌&&◌, ◌||◌, leb, ltb, eqb, pos};
ghost use Rattle.numbers.specs.First.{every};
ghost use Rattle.numbers.specs.Order.{between};
ghost use Rattle.group.specs.Numbers.{name_most, nodes_least, nodes_most, lon_edge_fits, lat_edge_fits, day_fits, function_factor_fits};
ghost use Rattle.group.specs.Blank.{blank_name, blank_function, blank_grid, blank_group};
ghost use Rattle.group.specs.Limits.{name_byte, byte_fits, name_fits};
ghost use Rattle.group.specs.Limits.{spacing_fits, ramp_numbers_fit, step_numbers_fit, ramp2_numbers_fit, function_fits, ramp_blank, function_blank};
ghost use Rattle.group.specs.Limits.{origin_fits, counts_fit, head_numbers_fit, grid_fits};
ghost use Rattle.group.specs.Refusals.{in_table};

// Milliarcseconds (mas) in a degree.
pub const MAS_IN_DEGREE: u64 = 3600000;

// Where a grid's edges may lie, in mas.
pub const LON_EDGE_MOST: i64 = 1296000000;

pub const LON_EDGE_LEAST: i64 = -LON_EDGE_MOST;

pub const LAT_EDGE_MOST: i64 = 324000000;

pub const LAT_EDGE_LEAST: i64 = -LAT_EDGE_MOST;

// Where points and the sides of areas may lie, in mas.
pub const LON_MOST: i64 = 648000000;

pub const LON_LEAST: i64 = -LON_MOST;

pub const LAT_MOST: i64 = 324000000;

pub const LAT_LEAST: i64 = -LAT_MOST;

// A whole turn, in mas.
pub const LON_TURN: u64 = 1296000000;

// Distances are counted from so far west and so far south of 0, in mas; of longitudes, a turn beyond every edge.
pub const LON_ZERO: u32 = 2592000000;

pub const LAT_ZERO: u32 = 324000000;

// The bytes of a name.
pub const NAME_MOST: usize = 24;

// Q, NP and the counts of functions and grids.
pub const QUANTUM_MOST: u64 = 20;

pub const PARAMETERS_MOST: u64 = 3;

pub const FUNCTIONS_MOST: usize = 8;

pub const GRIDS_MOST: usize = 64;

// The size of a spacing, in mas.
pub const SPACING_MOST: i64 = 36000000;

pub const SPACING_LEAST: i64 = -SPACING_MOST;

// Nodes along an axis, a rank and the first position in the node list.
pub const NODES_LEAST: u64 = 2;

pub const NODES_MOST: u64 = 16384;

pub const RANK_MOST: u64 = 1000;

pub const START_MOST: u64 = 16777215;

// Where every node range has ended.
pub const LIST_MOST: u64 = START_MOST + 1;

// What a node holds, in steps: a value, or the no-data mark.
pub const VALUE_MOST: i32 = 2147483647;

pub const MARK: i32 = -2147483648;

// A day.
pub const DAY_MOST: i64 = 1000000;

pub const DAY_LEAST: i64 = -DAY_MOST;

// The factor 1, and the size of a function's factor, in millionths.
pub const FACTOR_ONE: i64 = 1000000;

pub const FUNCTION_FACTOR_MOST: i64 = 10000000;

pub const FUNCTION_FACTOR_LEAST: i64 = -FUNCTION_FACTOR_MOST;

// The size of a sum of factors, in millionths, and of a result, in steps.
pub const FACTOR_MOST: u64 = FUNCTIONS_MOST as u64 * FUNCTION_FACTOR_MOST as u64;

pub const RESULT_MOST: u64 = VALUE_MOST as u64 * FACTOR_MOST / FACTOR_ONE as u64;

// A longitude in mas: a point's lies from LON_LEAST to LON_MOST, a grid's edge from LON_EDGE_LEAST to LON_EDGE_MOST.
#[repr(C)]
#[derive(Clone, Copy)]
pub struct Longitude(pub i64);

// A latitude in mas, with limits of the same kind.
#[repr(C)]
#[derive(Clone, Copy)]
pub struct Latitude(pub i64);

// A point, in mas.
#[derive(Clone, Copy)]
pub struct Point {
    pub lon: Longitude,
    pub lat: Latitude,
}

// A point, in mas, on a day.
#[repr(C)]
#[derive(Clone, Copy)]
pub struct Position {
    pub lon: Longitude,
    pub lat: Latitude,
    pub day: i64,
}

// A name of 1 to 24 bytes of A to Z, a to z, 0 to 9, _ and -; every byte behind its length is 0.
#[derive(Clone, Copy)]
pub struct Name {
    pub bytes: [u8; NAME_MOST],
    pub len: u64,
}

// What node values and results are in, before the quantum.
#[derive(Clone, Copy)]
pub enum Unit {
    ArcSecond,
    Metre,
}

// A ramp: s0 millionths until the day a, s1 from the day b on, linear between.
#[derive(Clone, Copy)]
pub struct Ramp {
    pub a: i64,
    pub s0: i64,
    pub b: i64,
    pub s1: i64,
}

// A step: it leaps by mult millionths on the day event, and is 0 on the day reference.
#[derive(Clone, Copy)]
pub struct Step {
    pub event: i64,
    pub reference: i64,
    pub mult: i64,
}

// A ramp2: it changes by mult millionths from the day start to the day end, linearly, and is 0 on the day reference.
#[derive(Clone, Copy)]
pub struct Ramp2 {
    pub start: i64,
    pub end: i64,
    pub reference: i64,
    pub mult: i64,
}

// The kinds of functions, each with just its numbers.
#[derive(Clone, Copy)]
pub enum Shape {
    Ramp(Ramp),
    Step(Step),
    Ramp2(Ramp2),
}

// A function of time, of any kind.
#[derive(Clone, Copy)]
pub struct Function {
    pub shape: Shape,
}

// A grid: node (i, j) lies at lon + i·dlon, lat + j·dlat; rank 1 is best; start is its first position in the node list.
#[derive(Clone, Copy)]
pub struct Grid {
    pub name: Name,
    pub lon: Longitude,
    pub lat: Latitude,
    pub dlon: i64,
    pub dlat: i64,
    pub ni: u64,
    pub nj: u64,
    pub rank: u64,
    pub start: u64,
}

// A group: one step of a node value is 2 to the power -quantum of the unit; entries behind the two counts are unused.
#[derive(Clone, Copy)]
pub struct Group {
    pub name: Name,
    pub unit: Unit,
    pub quantum: u64,
    pub parameters: u64,
    pub functions: u64,
    pub grids: u64,
    pub function: [Function; FUNCTIONS_MOST],
    pub grid: [Grid; GRIDS_MOST],
}

// A refusal of document 01: its number, and the line, grid or position that it names, 0 if none. The number is no enum: C hands back any to the screen,
// which answers to one outside the table too.
#[derive(Clone, Copy)]
pub struct Refusal {
    pub number: u64,
    pub place: u64,
}

// Whether a number stands in the table of refusals.
pub fn in_table(number: u64) -> bool
    ensures { result ≡ in_table number }
{
    (1..=13).contains(&number)
}

// Whether a byte may stand in a name.
pub fn name_byte(b: u8) -> bool
    ensures { result ≡ name_byte b }
{
    matches!(b, b'A'..=b'Z')
        | matches!(b, b'a'..=b'z')
        | matches!(b, b'0'..=b'9')
        | (b == b'_')
        | (b == b'-')
}

// Whether byte i of a name of this length is right: of the alphabet within its length, and 0 behind it.
fn byte_fits(b: u8, len: usize, i: usize) -> bool
    ensures { result ≡ (ltb i len && name_byte b) || (leb len i && eqb b 0) }
{
    ((i < len) & name_byte(b)) | ((len <= i) & (b == 0))
}

// Whether each of a name's 24 bytes is right: all of them are tested, with no early answer and no branch, for speed.
fn bytes_fit(name: Name) -> bool
    ensures { result ≡ every (byte_fits name) name_most }
{
    let len = name.len as usize;
    let mut fit = true;
    for (i, b) in name.bytes.iter().enumerate() {
        fit = fit & byte_fits(*b, len, i);
    }
    fit
}

// Whether a name is well formed.
#[tactic(auto, unfolding(crate::specs::Limits::name_fits))]
pub fn name_fits(name: Name) -> bool
    ensures { result ≡ name_fits name }
{
    (1..=NAME_MOST as u64).contains(&name.len) & bytes_fit(name)
}

// Whether the numbers of a group line are within their limits.
pub fn head_numbers_fit(quantum: u64, parameters: u64, functions: u64, grids: u64) -> bool
    ensures { result ≡ head_numbers_fit (pos quantum) (pos parameters) (pos functions) (pos grids) }
{
    (quantum <= QUANTUM_MOST)
        & (1..=PARAMETERS_MOST).contains(&parameters)
        & (functions <= FUNCTIONS_MOST as u64)
        & (1..=GRIDS_MOST as u64).contains(&grids)
}

// Whether a day is within its limits.
pub fn day_fits(day: i64) -> bool
    ensures { result ≡ day_fits day }
{
    (DAY_LEAST..=DAY_MOST).contains(&day)
}

// Whether a function's factor is within its limits.
fn factor_fits(factor: i64) -> bool
    ensures { result ≡ function_factor_fits factor }
{
    (FUNCTION_FACTOR_LEAST..=FUNCTION_FACTOR_MOST).contains(&factor)
}

// Whether a ramp is within its limits, with a not above b.
fn ramp_fits(r: Ramp) -> bool
    ensures { result ≡ ramp_numbers_fit r.a r.s0 r.b r.s1 }
{
    day_fits(r.a) & factor_fits(r.s0) & day_fits(r.b) & factor_fits(r.s1) & (r.a <= r.b)
}

// Whether a step is within its limits.
fn step_fits(s: Step) -> bool
    ensures { result ≡ step_numbers_fit s.event s.reference s.mult }
{
    day_fits(s.event) & day_fits(s.reference) & factor_fits(s.mult)
}

// Whether a ramp2 is within its limits, with start below end.
fn ramp2_fits(r: Ramp2) -> bool
    ensures { result ≡ ramp2_numbers_fit r.start r.end r.reference r.mult }
{
    day_fits(r.start)
        & day_fits(r.end)
        & day_fits(r.reference)
        & factor_fits(r.mult)
        & (r.start < r.end)
}

// Whether a function is within its limits.
pub fn function_fits(f: Function) -> bool
    ensures { result ≡ function_fits f }
{
    match f.shape {
        Shape::Ramp(r) => ramp_fits(r),
        Shape::Step(s) => step_fits(s),
        Shape::Ramp2(r) => ramp2_fits(r),
    }
}

// Whether a ramp is all zero.
fn ramp_blank(r: Ramp) -> bool
    ensures { result ≡ ramp_blank r }
{
    (r.a == 0) & (r.s0 == 0) & (r.b == 0) & (r.s1 == 0)
}

// Whether a function is an unused entry.
pub fn function_blank(f: Function) -> bool
    ensures { result ≡ function_blank f }
{
    match f.shape {
        Shape::Ramp(r) => ramp_blank(r),
        Shape::Step(_) => false,
        Shape::Ramp2(_) => false,
    }
}

// Whether the longitude of a grid's edge is within its limits.
pub fn lon_edge_fits(lon: i64) -> bool
    ensures { result ≡ lon_edge_fits lon }
{
    (LON_EDGE_LEAST..=LON_EDGE_MOST).contains(&lon)
}

// Whether the latitude of a grid's edge is within its limits.
pub fn lat_edge_fits(lat: i64) -> bool
    ensures { result ≡ lat_edge_fits lat }
{
    (LAT_EDGE_LEAST..=LAT_EDGE_MOST).contains(&lat)
}

// Whether a spacing is within its limits, and not 0.
fn spacing_fits(spacing: i64) -> bool
    ensures { result ≡ spacing_fits spacing }
{
    (SPACING_LEAST..=-1).contains(&spacing) | (1..=SPACING_MOST).contains(&spacing)
}

// Whether a grid's first node and spacings are within their limits.
fn origin_fits(g: Grid) -> bool
    ensures { result ≡ origin_fits g.lon.0 g.lat.0 g.dlon g.dlat }
{
    lon_edge_fits(g.lon.0) & lat_edge_fits(g.lat.0) & spacing_fits(g.dlon) & spacing_fits(g.dlat)
}

// Whether a count of nodes along an axis is within its limits.
fn nodes_fit(nodes: u64) -> bool
    ensures { result ≡ between (pos nodes_least) (pos nodes_most) (pos nodes) }
{
    (NODES_LEAST..=NODES_MOST).contains(&nodes)
}

// Whether a grid's node counts, rank and start are within their limits.
fn counts_fit(g: Grid) -> bool
    ensures { result ≡ counts_fit (pos g.ni) (pos g.nj) (pos g.rank) (pos g.start) }
{
    nodes_fit(g.ni) & nodes_fit(g.nj) & (1..=RANK_MOST).contains(&g.rank) & (g.start <= START_MOST)
}

// Whether a grid's name is well formed and its numbers are within their limits.
#[tactic(auto, unfolding(crate::specs::Limits::grid_fits))]
pub fn grid_fits(g: Grid) -> bool
    ensures { result ≡ grid_fits g }
{
    name_fits(g.name) & origin_fits(g) & counts_fit(g)
}

// The empty name.
pub fn blank_name() -> Name
    ensures { result ≡ blank_name }
{
    Name {
        bytes: [0; NAME_MOST],
        len: 0,
    }
}

// An unused function: a ramp of zeros.
pub fn blank_function() -> Function
    ensures { result ≡ blank_function }
{
    Function {
        shape: Shape::Ramp(Ramp {
            a: 0,
            s0: 0,
            b: 0,
            s1: 0,
        }),
    }
}

// An unused grid.
pub fn blank_grid() -> Grid
    ensures { result ≡ blank_grid }
{
    Grid {
        name: blank_name(),
        lon: Longitude(0),
        lat: Latitude(0),
        dlon: 0,
        dlat: 0,
        ni: 0,
        nj: 0,
        rank: 0,
        start: 0,
    }
}

// The group that stands beside a refusal: no name, no numbers, no entries.
pub fn blank_group() -> Group
    ensures { result ≡ blank_group }
{
    Group {
        name: blank_name(),
        unit: Unit::ArcSecond,
        quantum: 0,
        parameters: 0,
        functions: 0,
        grids: 0,
        function: [blank_function(); FUNCTIONS_MOST],
        grid: [blank_grid(); GRIDS_MOST],
    }
}
