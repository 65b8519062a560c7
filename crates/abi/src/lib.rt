// A group as the C interface passes it, a list of numbers: from the list to the record and back.
#![tactic(auto)]

ghost use Rattle.std.specs.Prelude.{◌≡◌, ◌+◌, ◌*◌, ◌/◌, ◌%◌, ◌≤◌, ◌<◌, length, get_or};
ghost use Rattle.std.proofs.lemmas.List.Edits.{sets};
ghost use Rattle.group.specs.Record.{no_grid};
ghost use Rattle.group.specs.Blank.{blank_function};
ghost use Rattle.group.specs.Limits.{grid_blank};
ghost use Rattle.group.specs.Numbers.{name_most, functions_most, grids_most};
ghost use Rattle.abi.specs.Words.{name_words, head_words, grids_from, group_words};
ghost use Rattle.abi.specs.Abi.{number_at, byte_at, count_at, list_of, byte_of, name_of_words, unit_of, function_of, function_of_words, grid_of_words, group_of_words};
ghost use Rattle.abi.specs.Clear.{FourTold};
ghost use Rattle.abi.specs.Abi.{stored, unit_number, name_number, function_numbers, grid_numbers, head_numbers, joined, numbers_of};

use group::{
    FUNCTIONS_MOST, Function, GRIDS_MOST, Grid, Group, Latitude, Longitude, NAME_MOST, Name, Ramp,
    Ramp2, Shape, Step, Unit,
};

// The numbers that hold a name, a group line, a function and a grid.
const NAME_WORDS: usize = NAME_MOST / 8;

pub const HEAD_WORDS: usize = 9;

pub const FUNCTION_WORDS: usize = 5;

const GRID_WORDS: usize = 12;

// Where the grids begin, and the numbers of a group.
pub const GRIDS_FROM: usize = HEAD_WORDS + FUNCTIONS_MOST * FUNCTION_WORDS;

pub const GROUP_WORDS: usize = GRIDS_FROM + GRIDS_MOST * GRID_WORDS;

// The indices of the group line's numbers, behind its name.
const LENGTH_INDEX: usize = NAME_WORDS;

const UNIT_INDEX: usize = 4;

const QUANTUM_INDEX: usize = 5;

const PARAMETERS_INDEX: usize = 6;

const FUNCTIONS_INDEX: usize = 7;

const GRIDS_INDEX: usize = 8;

// The places of the first function's numbers.
const KIND: usize = HEAD_WORDS;

const FIRST: usize = HEAD_WORDS + 1;

const SECOND: usize = HEAD_WORDS + 2;

const THIRD: usize = HEAD_WORDS + 3;

const FOURTH: usize = HEAD_WORDS + 4;

// The places of the first grid's numbers, behind its name.
const GRID_LENGTH: usize = GRIDS_FROM + LENGTH_INDEX;

const LON: usize = GRIDS_FROM + 4;

const LAT: usize = GRIDS_FROM + 5;

const DLON: usize = GRIDS_FROM + 6;

const DLAT: usize = GRIDS_FROM + 7;

const NI: usize = GRIDS_FROM + 8;

const NJ: usize = GRIDS_FROM + 9;

const RANK: usize = GRIDS_FROM + 10;

const START: usize = GRIDS_FROM + 11;

// The greatest signed number.
const SIGNED_MOST: i64 = i64::MAX;

// Number k of a group's numbers.
fn number_at(numbers: &[i64; GROUP_WORDS], k: usize) -> i64
    requires { k < group_words }
    ensures { result ≡ number_at numbers.now k }
{
    numbers[k]
}

// The same where the record is unsigned.
fn count_at(numbers: &[i64; GROUP_WORDS], k: usize) -> u64
    requires { k < group_words }
    ensures { result ≡ count_at numbers.now k }
{
    numbers::count_of(number_at(numbers, k))
}

// Byte j of eight that a number holds, the lowest first.
fn byte_of(word: u64, j: u64) -> u8
    requires { j < 8 }
    ensures { result ≡ byte_of word j }
{
    ((word >> (8 * j)) % 256) as u8
}

// The bytes that three numbers hold, eight each.
fn bytes_of(words: [u64; NAME_WORDS]) -> [u8; NAME_MOST]
    ensures { result ≡ list_of (λ j. byte_of (get_or words (j / 8) 0) (j % 8)) name_most }
{
    std::array::from_fn(|i| byte_of(words[i / 8], (i % 8) as u64))
}

// The name of a length whose bytes stand in three numbers from place k on.
fn name_of_words(numbers: &[i64; GROUP_WORDS], k: usize, len: u64) -> Name
    requires { k + name_words ≤ group_words }
    ensures { result ≡ name_of_words numbers.now k len }
{
    let bytes = bytes_of([
        count_at(numbers, k),
        count_at(numbers, k + 1),
        count_at(numbers, k + 2),
    ]);
    Name { bytes, len }
}

// The unit of a number: 0 is arc-second, 1 is metre.
fn unit_of(x: i64) -> Unit
    ensures { result ≡ unit_of x }
{
    if x == 0 { Unit::ArcSecond } else { Unit::Metre }
}

// Q, beyond its limit if the unit is neither 0 nor 1.
#[tactic(auto, unfolding(crate::specs::Abi::group_of_words))]
pub fn quantum_of(numbers: &[i64; GROUP_WORDS]) -> u64
    ensures { result ≡ (group_of_words numbers.now).quantum }
{
    let u = number_at(numbers, UNIT_INDEX);
    if (0..=1).contains(&u) {
        count_at(numbers, QUANTUM_INDEX)
    } else {
        numbers::BEYOND
    }
}

// The name of a group's numbers.
#[tactic(auto, unfolding(crate::specs::Abi::group_of_words))]
pub fn name_of(numbers: &[i64; GROUP_WORDS]) -> Name
    ensures { result ≡ (group_of_words numbers.now).name }
{
    name_of_words(numbers, 0, count_at(numbers, LENGTH_INDEX))
}

// Its count of parameters.
#[tactic(auto, unfolding(crate::specs::Abi::group_of_words))]
pub fn parameter_count(numbers: &[i64; GROUP_WORDS]) -> u64
    ensures { result ≡ (group_of_words numbers.now).parameters }
{
    count_at(numbers, PARAMETERS_INDEX)
}

// Its count of functions.
#[tactic(auto, unfolding(crate::specs::Abi::group_of_words))]
pub fn function_count(numbers: &[i64; GROUP_WORDS]) -> u64
    ensures { result ≡ (group_of_words numbers.now).functions }
{
    count_at(numbers, FUNCTIONS_INDEX)
}

// Its count of grids.
#[tactic(auto, unfolding(crate::specs::Abi::group_of_words))]
pub fn grid_count(numbers: &[i64; GROUP_WORDS]) -> u64
    ensures { result ≡ (group_of_words numbers.now).grids }
{
    count_at(numbers, GRIDS_INDEX)
}

// The function of a kind and four numbers; if they are of no kind, one that is neither within its limits nor unused.
#[tactic(auto, unfolding(crate::specs::Abi::function_of))]
pub fn function_of(kind: i64, a: i64, b: i64, c: i64, d: i64) -> Function
    ensures { result ≡ function_of kind a b c d }
{
    let shape = match kind {
        0 => Shape::Ramp(Ramp {
            a,
            s0: b,
            b: c,
            s1: d,
        }),
        1 if d == 0 => Shape::Step(Step {
            event: a,
            reference: b,
            mult: c,
        }),
        2 => Shape::Ramp2(Ramp2 {
            start: a,
            end: b,
            reference: c,
            mult: d,
        }),
        _ => Shape::Ramp(Ramp {
            a: SIGNED_MOST,
            s0: 0,
            b: 0,
            s1: 0,
        }),
    };
    Function { shape }
}

// Function k of a group's numbers.
#[tactic(auto, unfolding(crate::specs::Abi::function_of_words))]
pub fn function_of_words(numbers: &[i64; GROUP_WORDS], k: usize) -> Function
    requires { k < functions_most }
    ensures { result ≡ function_of_words numbers.now k }
{
    function_of(
        number_at(numbers, k * FUNCTION_WORDS + KIND),
        number_at(numbers, k * FUNCTION_WORDS + FIRST),
        number_at(numbers, k * FUNCTION_WORDS + SECOND),
        number_at(numbers, k * FUNCTION_WORDS + THIRD),
        number_at(numbers, k * FUNCTION_WORDS + FOURTH),
    )
}

// Grid k of a group's numbers.
#[tactic(auto, unfolding(crate::specs::Abi::grid_of_words))]
pub fn grid_of_words(numbers: &[i64; GROUP_WORDS], k: usize) -> Grid
    requires { k < grids_most }
    ensures { result ≡ grid_of_words numbers.now k }
{
    let name = name_of_words(
        numbers,
        k * GRID_WORDS + GRIDS_FROM,
        count_at(numbers, k * GRID_WORDS + GRID_LENGTH),
    );
    Grid {
        name,
        lon: Longitude(number_at(numbers, k * GRID_WORDS + LON)),
        lat: Latitude(number_at(numbers, k * GRID_WORDS + LAT)),
        dlon: number_at(numbers, k * GRID_WORDS + DLON),
        dlat: number_at(numbers, k * GRID_WORDS + DLAT),
        ni: count_at(numbers, k * GRID_WORDS + NI),
        nj: count_at(numbers, k * GRID_WORDS + NJ),
        rank: count_at(numbers, k * GRID_WORDS + RANK),
        start: count_at(numbers, k * GRID_WORDS + START),
    }
}

// The length of grid k's name.
#[tactic(auto, unfolding(crate::specs::Abi::name_of_words, crate::specs::Abi::grid_of_words))]
pub fn grid_name_length(numbers: &[i64; GROUP_WORDS], k: usize) -> u64
    requires { k < grids_most }
    ensures { result ≡ (grid_of_words numbers.now k).name.len }
{
    count_at(numbers, k * GRID_WORDS + GRID_LENGTH)
}

// Byte i of grid k's name, or one of the zeros behind it.
pub fn grid_name_byte(numbers: &[i64; GROUP_WORDS], k: usize, i: usize) -> u8
    requires { (k < grids_most) × (i < name_most) }
    ensures { result ≡ byte_at (grid_of_words numbers.now k).name.bytes i }
{
    let at = k * GRID_WORDS + GRIDS_FROM + i / 8;
    byte_of(count_at(numbers, at), (i % 8) as u64)
}

// Whether the four numbers from place k on are all 0. Each is read by its place: of numbers that a chain goes over no proof knows
// that they have 64 bits, which the bytes of a name need.
fn four_clear(numbers: &[i64; GROUP_WORDS], k: usize) -> bool
    requires { k + 3 < group_words }
    ensures { FourTold numbers.now k result }
{
    (numbers[k] == 0) & (numbers[k + 1] == 0) & (numbers[k + 2] == 0) & (numbers[k + 3] == 0)
}

// Whether grid k is unused: its twelve numbers are all 0.
pub fn grid_clear(numbers: &[i64; GROUP_WORDS], k: usize) -> bool
    requires { k < grids_most }
    ensures { result ≡ grid_blank (grid_of_words numbers.now k) }
{
    four_clear(numbers, k * GRID_WORDS + GRIDS_FROM)
        & four_clear(numbers, k * GRID_WORDS + LON)
        & four_clear(numbers, k * GRID_WORDS + NI)
}

// The functions of a group's numbers.
fn functions_of(numbers: &[i64; GROUP_WORDS]) -> [Function; FUNCTIONS_MOST]
    ensures { result ≡ list_of (function_of_words numbers.now) functions_most }
{
    std::array::from_fn(|k| function_of_words(numbers, k))
}

// The grids of a group's numbers.
fn grids_of(numbers: &[i64; GROUP_WORDS]) -> [Grid; GRIDS_MOST]
    ensures { result ≡ list_of (grid_of_words numbers.now) grids_most }
{
    std::array::from_fn(|k| grid_of_words(numbers, k))
}

// The group that a list of numbers stands for.
#[tactic(auto, unfolding(crate::specs::Abi::group_of_words))]
pub fn group_of_words(numbers: &[i64; GROUP_WORDS]) -> Group
    ensures { result ≡ group_of_words numbers.now }
{
    Group {
        name: name_of(numbers),
        unit: unit_of(number_at(numbers, UNIT_INDEX)),
        quantum: quantum_of(numbers),
        parameters: parameter_count(numbers),
        functions: function_count(numbers),
        grids: grid_count(numbers),
        function: functions_of(numbers),
        grid: grids_of(numbers),
    }
}

// An unsigned number as it is stored.
pub fn as_stored(n: u64) -> i64
    ensures { result ≡ stored n }
{
    n.min(SIGNED_MOST as u64) as i64
}

// Stores numbers from place k on.
pub fn store_numbers(out: &mut [i64], k: usize, numbers: &[i64])
    requires { k + length numbers.now ≤ length out.old }
    ensures { out.new ≡ sets out.old k numbers.now }
{
    out[k..k + numbers.len()].copy_from_slice(numbers);
}

// Number w of the three that hold the bytes of a name, the first of its eight lowest.
fn name_number(name: Name, w: usize) -> i64
    requires { w < name_words }
    ensures { result ≡ name_number name w }
{
    let bytes = std::array::from_fn(|j| name.bytes[w * 8 + j]);
    as_stored(u64::from_le_bytes(bytes))
}

// The number of a unit.
fn unit_number(unit: Unit) -> i64
    ensures { result ≡ unit_number unit }
{
    match unit {
        Unit::ArcSecond => 0,
        Unit::Metre => 1,
    }
}

// The numbers of a group's line.
fn head_numbers(group: Group) -> [i64; HEAD_WORDS]
    ensures { result ≡ head_numbers group }
{
    [
        name_number(group.name, 0),
        name_number(group.name, 1),
        name_number(group.name, 2),
        as_stored(group.name.len),
        unit_number(group.unit),
        as_stored(group.quantum),
        as_stored(group.parameters),
        as_stored(group.functions),
        as_stored(group.grids),
    ]
}

// The numbers of a grid's line.
fn grid_numbers(g: Grid) -> [i64; GRID_WORDS]
    ensures { result ≡ grid_numbers g }
{
    [
        name_number(g.name, 0),
        name_number(g.name, 1),
        name_number(g.name, 2),
        as_stored(g.name.len),
        g.lon.0,
        g.lat.0,
        g.dlon,
        g.dlat,
        as_stored(g.ni),
        as_stored(g.nj),
        as_stored(g.rank),
        as_stored(g.start),
    ]
}

// A function's kind and the numbers of its line, 0 where its kind has only three.
fn function_numbers(f: Function) -> [i64; FUNCTION_WORDS]
    ensures { result ≡ function_numbers f }
{
    match f.shape {
        Shape::Ramp(r) => [0, r.a, r.s0, r.b, r.s1],
        Shape::Step(s) => [1, s.event, s.reference, s.mult, 0],
        Shape::Ramp2(r) => [2, r.start, r.end, r.reference, r.mult],
    }
}

// Functions and grids are stored by twins: a loop of one line each, and a generic one's contract would have to speak of what its closure gives.

// Stores the numbers of all functions.
fn store_functions(out: &mut [i64], functions: [Function; FUNCTIONS_MOST])
    requires { grids_from ≤ length out.old }
    ensures { out.new ≡ sets out.old head_words (joined (λ k. function_numbers (get_or functions k blank_function)) functions_most) }
{
    for (i, f) in functions.iter().enumerate() {
        store_numbers(out, i * FUNCTION_WORDS + HEAD_WORDS, &function_numbers(*f));
    }
}

// Stores the numbers of all grids.
fn store_grids(out: &mut [i64], grids: [Grid; GRIDS_MOST])
    requires { group_words ≤ length out.old }
    ensures { out.new ≡ sets out.old grids_from (joined (λ k. grid_numbers (get_or grids k no_grid)) grids_most) }
{
    for (i, g) in grids.iter().enumerate() {
        store_numbers(out, i * GRID_WORDS + GRIDS_FROM, &grid_numbers(*g));
    }
}

// Stores a group from place 0 on.
fn store_group(out: &mut [i64], group: Group)
    requires { group_words ≤ length out.old }
    ensures { out.new ≡ sets out.old 0 (numbers_of group) }
{
    store_numbers(out, 0, &head_numbers(group));
    store_functions(out, group.function);
    store_grids(out, group.grid);
}

// The numbers of a group.
pub fn numbers_of(group: Group) -> [i64; GROUP_WORDS]
    ensures { result ≡ numbers_of group }
{
    let mut out = [0i64; GROUP_WORDS];
    store_group(&mut out, group);
    out
}
