// Logs: the judge of other people's, and the writer of our own lines.
#![tactic(auto)]

ghost use Rattle.std.specs.Prelude.{◌≡◌, ◌≤◌, ◌<◌, length, Ok};
ghost use Rattle.text.specs.Fields.{same};
ghost use Rattle.text.specs.Wrote.{Wrote};
ghost use Rattle.group.specs.Numbers.{name_most, parameters_most, grids_most};
ghost use Rattle.line.specs.Names.{name_text};
ghost use Rattle.abi.specs.Abi.{number_at, grid_of_words, group_of_words};
ghost use Rattle.lookup.specs.Lookup.{looked};
ghost use Rattle.exercise.specs.Tables.{CallReady};
ghost use Rattle.logs.specs.Kinds.{kind_number};
ghost use Rattle.logs.specs.Line.{same_shifts, found_kind};
ghost use Rattle.logs.specs.Log.{log_fault, log_judged};
ghost use Rattle.logs.specs.Writing.{line_text, found_written, found_after, line_written, line_after};
ghost use Rattle.logs.specs.Reading.{EntryRead, FoundIn, TurnReady, TurnTaken, FixFound};

use abi::GROUP_WORDS;
use exercise::{Scale, Tables};
use fix::Fix;
use group::{Group, Latitude, Longitude, Point, Position, Refusal};
use text::CUTS;

// The tests of a line, in their order: its form, its lookup, its grid and its shifts.
#[derive(Clone, Copy)]
pub enum Kind {
    Form,
    Lookup,
    Grid,
    Shift,
}

impl Kind {
    // Its number: 1 form, 2 lookup refused, 3 other grid, 4 other shift.
    pub fn number(self) -> u64
        ensures { result ≡ kind_number self }
    {
        match self {
            Kind::Form => 1,
            Kind::Lookup => 2,
            Kind::Grid => 3,
            Kind::Shift => 4,
        }
    }
}

// The first bad line of a log, from 1, and the test that it fails.
#[derive(Clone, Copy)]
pub struct Fault {
    pub line: u64,
    pub kind: Kind,
}

// A line that was judged: the first test that it fails, or none, and the scale of the day last looked up.
#[derive(Clone, Copy)]
pub struct Turn {
    pub kind: Option<Kind>,
    pub scale: Scale,
}

// The fields of a line: `fix`, LON LAT DAY from here, GRID here, the shifts from here.
const PLACE_FIELD: usize = 1;

const GRID_FIELD: usize = 4;

const SHIFT_FIELD: usize = 5;

// Room for a position's numbers, and for the shifts.
const PLACE: usize = 3;

const SHIFTS: usize = group::PARAMETERS_MOST as usize;

// The most bytes of a written line.
const LINE_MOST: usize = 102;

// What a line says: the numbers of its position, the name of its grid, and its shifts with zeros behind them.
#[derive(Clone, Copy)]
struct Entry<'a> {
    place: [i64; PLACE],
    name: &'a [u8],
    shifts: [i64; SHIFTS],
}

// Reads a line with so many shifts, where it is of the form.
fn read_entry(line: &[u8], np: usize) -> Option<Entry<'_>>
    requires { np ≤ parameters_most }
    ensures { EntryRead np line.now result }
{
    let mut cuts = [0; CUTS];
    if !line::cut_as(line, &mut cuts, b"fix", SHIFT_FIELD + np) {
        return None;
    }
    let name = text::cut_field(line, &cuts, GRID_FIELD);
    if !line::is_name(name) {
        return None;
    }
    let mut place = [0i64; PLACE];
    if !line::read_numbers(line, &cuts, PLACE_FIELD, &mut place) {
        return None;
    }
    let mut shifts = [0i64; SHIFTS];
    if !line::read_numbers(line, &cuts, SHIFT_FIELD, &mut shifts[..np]) {
        return None;
    }
    Some(Entry {
        place,
        name,
        shifts,
    })
}

// Whether grid k of a group's numbers has this name.
fn names_grid(words: &[i64; GROUP_WORDS], k: usize, name: &[u8]) -> bool
    requires { (k < grids_most) × ((grid_of_words words.now k).name.len ≤ name_most) }
    ensures { result ≡ same name.now (name_text (grid_of_words words.now k).name) }
{
    if name.len() as u64 != abi::grid_name_length(words, k) {
        return false;
    }
    for (i, b) in name.iter().enumerate() {
        if *b != abi::grid_name_byte(words, k, i) {
            return false;
        }
    }
    true
}

// Whether the first n shifts are the results.
fn same_shifts(shifts: &[i64], results: &[i64], n: usize) -> bool
    requires { (n ≤ length shifts.now) × (n ≤ length results.now) }
    ensures { result ≡ same_shifts n shifts.now (number_at results.now) }
{
    for q in 0..n {
        if shifts[q] != results[q] {
            return false;
        }
    }
    true
}

// The kind of a line that names a grid and shifts, by what the lookup of its position answers.
fn kind_of(
    words: &[i64; GROUP_WORDS],
    found: Result<Fix, Refusal>,
    name: &[u8],
    shifts: &[i64],
) -> Option<Kind>
    requires { FoundIn (group_of_words words.now) found × (length shifts.now ≡ parameters_most) }
    ensures { result ≡ found_kind (group_of_words words.now) name.now shifts.now found }
{
    let Ok(f) = found else {
        return Some(Kind::Lookup);
    };
    let k = (f.grid - 1) as usize;
    if !names_grid(words, k, name) {
        return Some(Kind::Grid);
    }
    let results = [f.first, f.second, f.third];
    if !same_shifts(shifts, &results, abi::parameter_count(words) as usize) {
        return Some(Kind::Shift);
    }
    None
}

// The lookup of a point on the day of a scale, by the tables of an accepted call: refusal 6, 9, 7 or 8, or the fix. It is written out
// beside the lookup of many points: as one function with two callers it is in neither loop, and many points took up to 1.44 times as long.
fn look_at(
    words: &[i64; GROUP_WORDS],
    tables: &Tables,
    nodes: &[i32],
    scale: Scale,
    point: Point,
) -> Result<Fix, Refusal>
    requires { TurnReady (group_of_words words.now) (length nodes.now) tables.now scale }
    ensures { result ≡ looked (group_of_words words.now) nodes.now point scale.day }
{
    if !lookup::point_fits(point) {
        return Err(Refusal {
            number: 6,
            place: 0,
        });
    }
    if !lookup::day_fits(scale.day) {
        return Err(Refusal {
            number: 9,
            place: 0,
        });
    }
    let x = extent::lon_from_least(point.lon);
    let y = extent::lat_from_least(point.lat);
    let held = choice::first_holder(
        &tables.rows,
        &tables.owners,
        &tables.shifts,
        tables.count,
        x,
        y,
    );
    let np = abi::parameter_count(words);
    lookup::fix_held(&tables.frames, held, np, nodes, scale.factor, x, y)
}

// Judges a line, given without its line feed, by the tables of an accepted call and the scale of the day last looked up.
fn judge_line(
    words: &[i64; GROUP_WORDS],
    tables: &Tables,
    nodes: &[i32],
    scale: Scale,
    line: &[u8],
) -> Turn
    requires { TurnReady (group_of_words words.now) (length nodes.now) tables.now scale }
    ensures { TurnTaken (group_of_words words.now) nodes.now line.now result }
{
    let np = abi::parameter_count(words) as usize;
    let Some(said) = read_entry(line, np) else {
        return Turn {
            kind: Some(Kind::Form),
            scale,
        };
    };
    let point = Point {
        lon: Longitude(said.place[0]),
        lat: Latitude(said.place[1]),
    };
    let next = exercise::scale_on(words, scale, said.place[2]);
    let found = look_at(words, tables, nodes, next, point);
    Turn {
        kind: kind_of(words, found, said.name, &said.shifts),
        scale: next,
    }
}

// Judges every line of a log in an accepted call. No range or list says where the lines begin: each turn goes on behind the line feed that
// it found, which is looked for in blocks of bytes.
fn judge_lines(
    words: &[i64; GROUP_WORDS],
    tables: &Tables,
    nodes: &[i32],
    log: &[u8],
) -> Option<Fault>
    requires { CallReady (group_of_words words.now) (length nodes.now) tables.now }
    ensures { result ≡ log_fault (group_of_words words.now) nodes.now log.now }
{
    let mut scale = exercise::no_scale();
    let mut next = 0;
    let mut n: u64 = 0;
    while next < log.len() {
        let e = text::find_from(log, next, b'\n');
        if e == log.len() {
            return Some(Fault {
                line: n + 1,
                kind: Kind::Form,
            });
        }
        let turn = judge_line(words, tables, nodes, scale, &log[next..e]);
        if let Some(kind) = turn.kind {
            return Some(Fault { line: n + 1, kind });
        }
        scale = turn.scale;
        next = e + 1;
        n += 1;
    }
    None
}

// `judge_log` over a group handed over as a list of numbers.
pub fn log_words(
    words: &[i64; GROUP_WORDS],
    nodes: &[i32],
    log: &[u8],
) -> Result<Option<Fault>, Refusal>
    ensures { result ≡ log_judged (group_of_words words.now) nodes.now log.now }
{
    let mut tables = exercise::NO_TABLES;
    exercise::judge_call(words, nodes.len(), true, &mut tables)?;
    Ok(judge_lines(words, &tables, nodes, log))
}

// Judges a log, one line for each position: `fix` LON LAT DAY GRID V1 .. VNP, parted by tabs, each line closed by its line feed.
// Answers the first bad line, from 1, and the first test that it fails: it is not of this form, the lookup is refused, another grid is
// chosen, or the shifts are others; none if the log passes, as an empty one does. Refusals 2 to 5 (the group), then 13 (the node list ends before some
// grid's range does). With document 01's grid `basin` and no functions, `fix 5 5 0 basin 55` passes, with tabs for the spaces.
pub fn judge_log(group: Group, nodes: &[i32], log: &[u8]) -> Result<Option<Fault>, Refusal>
    ensures { result ≡ log_judged group nodes.now log.now }
{
    let words = abi::numbers_of(group);
    log_words(&words, nodes, log)
}

// Writes the line of a fix at a position, with its line feed.
fn put_line(words: &[i64; GROUP_WORDS], position: Position, f: Fix, out: &mut [u8]) -> usize
    requires { FixFound (group_of_words words.now) position f × (length (line_text (group_of_words words.now) position f) ≤ length out.old) }
    ensures { Wrote 0 (line_text (group_of_words words.now) position f) out.old result out.new }
{
    let p = text::put_bytes(b"fix", out, 0);
    let q = text::put_number(position.lon.0, out, p);
    let r = text::put_number(position.lat.0, out, q);
    let s = text::put_number(position.day, out, r);
    let grid = abi::grid_of_words(words, (f.grid - 1) as usize);
    let t = line::put_name(grid.name, out, s);
    let results = [f.first, f.second, f.third];
    let u = line::put_numbers(&results, abi::parameter_count(words) as usize, out, t);
    text::put_byte(b'\n', out, u)
}

// Writes the line of a fix, or nothing where the output is too short for it.
fn write_fix(
    words: &[i64; GROUP_WORDS],
    position: Position,
    f: Fix,
    out: &mut [u8],
) -> Result<usize, Refusal>
    requires { FixFound (group_of_words words.now) position f }
    ensures answer { result ≡ found_written (group_of_words words.now) position (length out.old) (Ok f) }
    ensures bytes { out.new ≡ found_after (group_of_words words.now) position (Ok f) out.old }
{
    let mut bytes = [0u8; LINE_MOST];
    let n = put_line(words, position, f, &mut bytes);
    if out.len() < n {
        return Err(Refusal {
            number: 12,
            place: 0,
        });
    }
    line::put_front(&bytes, n, out, 0);
    Ok(n)
}

// `write_log_line` over a group handed over as a list of numbers.
pub fn line_words(
    words: &[i64; GROUP_WORDS],
    nodes: &[i32],
    position: Position,
    out: &mut [u8],
) -> Result<usize, Refusal>
    ensures answer { result ≡ line_written (group_of_words words.now) nodes.now position (length out.old) }
    ensures bytes { out.new ≡ line_after (group_of_words words.now) nodes.now position out.old }
{
    let point = Point {
        lon: position.lon,
        lat: position.lat,
    };
    let f = lookup::look_words(words, nodes, point, position.day)?;
    write_fix(words, position, f, out)
}

// Writes the one line of a position, `fix` LON LAT DAY GRID V1 .. VNP with its line feed, and answers the count of bytes, at most 102;
// what stands behind them stays. Refused as the lookup is, then by 12 if the output is too short; nothing is written then. Under the
// same group and nodes the line passes `judge_log`.
pub fn write_log_line(
    group: Group,
    nodes: &[i32],
    position: Position,
    out: &mut [u8],
) -> Result<usize, Refusal>
    ensures answer { result ≡ line_written group nodes.now position (length out.old) }
    ensures bytes { out.new ≡ line_after group nodes.now position out.old }
{
    let words = abi::numbers_of(group);
    line_words(&words, nodes, position, out)
}
