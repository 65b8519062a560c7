// The lines of a header: reading one and writing one.
#![tactic(auto)]

ghost use Rattle.std.specs.Prelude.{◌≡◌, cond, ◌&&◌, ◌∷◌, [], ◌++◌, map, ◌+◌, ◌≤◌, ◌<◌, eqb, length, take, drop, Ok, Err};
ghost use Rattle.text.specs.Parts.{split, led, join, field_of};
ghost use Rattle.text.specs.Cuts.{fields_most, Cuts};
ghost use Rattle.text.specs.Decimal.{int_text};
ghost use Rattle.text.specs.Fields.{same, read_ints};
ghost use Rattle.text.specs.Wrote.{Wrote};
ghost use Rattle.group.specs.Numbers.{name_most};
ghost use Rattle.group.specs.Limits.{shape_fits};
ghost use Rattle.line.specs.Names.{is_name, name_of, name_text, read_name, read_unit, unit_text};
ghost use Rattle.group.specs.Refusals.{refusal};
ghost use Rattle.line.specs.Lines.{head_line, head_text, function_line, function_text, grid_line, grid_text};
ghost use Rattle.line.specs.Numbers.{read_count, as_read, NumbersRead};

use group::{Function, Grid, Latitude, Longitude, Name, Ramp, Ramp2, Refusal, Shape, Step, Unit};

// A group line: all of a group but its functions and grids.
#[derive(Clone, Copy)]
pub struct Head {
    pub name: Name,
    pub unit: Unit,
    pub quantum: u64,
    pub parameters: u64,
    pub functions: u64,
    pub grids: u64,
}

// Whether a field is a name.
pub fn is_name(s: &[u8]) -> bool
    ensures { result ≡ is_name s.now }
{
    (1..=group::NAME_MOST).contains(&s.len()) && s.iter().all(|b| group::name_byte(*b))
}

// Text as a name, with zeros behind it.
fn name_of(s: &[u8]) -> Name
    requires { length s.now ≤ name_most }
    ensures { result ≡ name_of s.now }
{
    let mut bytes = [0; group::NAME_MOST];
    bytes[..s.len()].copy_from_slice(s);
    Name {
        bytes,
        len: s.len() as u64,
    }
}

// A field as a name.
fn read_name(s: &[u8]) -> Option<Name>
    ensures { result ≡ read_name s.now }
{
    if is_name(s) { Some(name_of(s)) } else { None }
}

// A field as a unit.
fn read_unit(s: &[u8]) -> Option<Unit>
    ensures { result ≡ read_unit s.now }
{
    if text::same_bytes(s, b"arc-second") {
        Some(Unit::ArcSecond)
    } else if text::same_bytes(s, b"metre") {
        Some(Unit::Metre)
    } else {
        None
    }
}

// Cuts a line into its fields: whether it begins with the word and has so many fields.
pub fn cut_as(line: &[u8], cuts: &mut [usize; text::CUTS], word: &[u8], count: usize) -> bool
    requires { length cuts.old ≡ fields_most + 1 }
    ensures value { result ≡ (same (field_of line.now 0) word.now && eqb (length (split 9 line.now)) count) }
    ensures cuts { Cuts line.now cuts.new }
{
    let n = text::cut_fields(line, cuts);
    let keyed = text::same_bytes(text::cut_field(line, cuts, 0), word);
    keyed & (n == count)
}

// Reads the fields from `first` on: whether each is a number, and then the numbers. They go to the caller's part, since how many
// they are is known only there, and nothing is on a heap.
pub fn read_numbers(
    line: &[u8],
    cuts: &[usize; text::CUTS],
    first: usize,
    numbers: &mut [i64],
) -> bool
    requires { Cuts line.now cuts.now × (first + length numbers.old ≤ fields_most) × (first + length numbers.old ≤ length (split 9 line.now)) }
    ensures { NumbersRead (read_ints (take (length numbers.old) (drop first (split 9 line.now)))) result numbers.new }
{
    for (k, number) in numbers.iter_mut().enumerate() {
        let Some(z) = text::read_number(text::cut_field(line, cuts, first + k)) else {
            return false;
        };
        *number = z;
    }
    true
}

// The N fields from `first` on as numbers, where each is one.
fn numbers_from<const N: usize>(
    line: &[u8],
    cuts: &[usize; text::CUTS],
    first: usize,
) -> Option<[i64; N]>
    requires { Cuts line.now cuts.now × (first + N ≤ fields_most) × (first + N ≤ length (split 9 line.now)) }
    ensures { result ≡ as_read (read_ints (take N (drop first (split 9 line.now)))) }
{
    let mut numbers = [0; N];
    read_numbers(line, cuts, first, &mut numbers).then_some(numbers)
}

// All fields behind a line's first as numbers, where they are N and each is one.
fn numbers_behind<const N: usize>(
    line: &[u8],
    cuts: &[usize; text::CUTS],
    count: usize,
) -> Option<[i64; N]>
    requires { Cuts line.now cuts.now × (count ≡ length (split 9 line.now)) × (N < fields_most) }
    ensures { result ≡ as_read (read_count N (drop 1 (split 9 line.now))) }
{
    if count != 1 + N {
        return None;
    }
    numbers_from(line, cuts, 1)
}

// What was read from line n, or refusal 2 where a number is outside its limit.
fn limited<T: Copy>(read: T, fits: bool, n: u64) -> Result<T, Refusal>
    ensures { result ≡ cond fits (Ok read) (Err (refusal 2 n)) }
{
    if fits {
        Ok(read)
    } else {
        Err(Refusal {
            number: 2,
            place: n,
        })
    }
}

// Line 1 as a group line.
pub fn group_line(line: &[u8]) -> Result<Head, Refusal>
    ensures { result ≡ head_line 1 line.now }
{
    let malformed = Refusal {
        number: 1,
        place: 1,
    };
    let mut cuts = [0; text::CUTS];
    if !cut_as(line, &mut cuts, b"group", 7) {
        return Err(malformed);
    }
    let name = read_name(text::cut_field(line, &cuts, 1)).ok_or(malformed)?;
    let unit = read_unit(text::cut_field(line, &cuts, 2)).ok_or(malformed)?;
    let [q, np, functions, grids] = numbers_from::<4>(line, &cuts, 3).ok_or(malformed)?;
    let head = Head {
        name,
        unit,
        quantum: numbers::count_of(q),
        parameters: numbers::count_of(np),
        functions: numbers::count_of(functions),
        grids: numbers::count_of(grids),
    };
    let fits = group::head_numbers_fit(head.quantum, head.parameters, head.functions, head.grids);
    limited(head, fits, 1)
}

// The function of this shape, read from line n: refused by 2 also where A is above B or START not below END.
fn function_made(shape: Shape, n: u64) -> Result<Function, Refusal>
    ensures { result ≡ cond (shape_fits shape) (Ok (record { shape = shape })) (Err (refusal 2 n)) }
{
    let function = Function { shape };
    limited(function, group::function_fits(function), n)
}

// Line n as a function.
pub fn function_line(line: &[u8], n: u64) -> Result<Function, Refusal>
    ensures { result ≡ function_line n line.now }
{
    let malformed = Refusal {
        number: 1,
        place: n,
    };
    let mut cuts = [0; text::CUTS];
    let count = text::cut_fields(line, &mut cuts);
    let word = text::cut_field(line, &cuts, 0);
    if text::same_bytes(word, b"ramp") {
        let [a, s0, b, s1] = numbers_behind::<4>(line, &cuts, count).ok_or(malformed)?;
        return function_made(Shape::Ramp(Ramp { a, s0, b, s1 }), n);
    }
    if text::same_bytes(word, b"step") {
        let [event, reference, mult] = numbers_behind::<3>(line, &cuts, count).ok_or(malformed)?;
        let step = Step {
            event,
            reference,
            mult,
        };
        return function_made(Shape::Step(step), n);
    }
    if text::same_bytes(word, b"ramp2") {
        let [start, end, reference, mult] = numbers_behind::<4>(line, &cuts, count).ok_or(
            malformed,
        )?;
        let ramp2 = Ramp2 {
            start,
            end,
            reference,
            mult,
        };
        return function_made(Shape::Ramp2(ramp2), n);
    }
    Err(malformed)
}

// Line n as a grid.
pub fn grid_line(line: &[u8], n: u64) -> Result<Grid, Refusal>
    ensures { result ≡ grid_line n line.now }
{
    let malformed = Refusal {
        number: 1,
        place: n,
    };
    let mut cuts = [0; text::CUTS];
    if !cut_as(line, &mut cuts, b"grid", 10) {
        return Err(malformed);
    }
    let name = read_name(text::cut_field(line, &cuts, 1)).ok_or(malformed)?;
    let numbers = numbers_from::<8>(line, &cuts, 2).ok_or(malformed)?;
    let [lon, lat, dlon, dlat, ni, nj, rank, start] = numbers;
    let grid = Grid {
        name,
        lon: Longitude(lon),
        lat: Latitude(lat),
        dlon,
        dlat,
        ni: numbers::count_of(ni),
        nj: numbers::count_of(nj),
        rank: numbers::count_of(rank),
        start: numbers::count_of(start),
    };
    limited(grid, group::grid_fits(grid), n)
}

// Writes the first n bytes of s.
pub fn put_front(s: &[u8], n: usize, out: &mut [u8], at: usize) -> usize
    requires { (n ≤ length s.now) × (at + length (take n s.now) ≤ length out.old) }
    ensures { Wrote at (take n s.now) out.old result out.new }
{
    text::put_bytes(&s[..n], out, at)
}

// Writes a tab and a name.
pub fn put_name(name: Name, out: &mut [u8], at: usize) -> usize
    requires { (name.len ≤ name_most) × (at + length (9 ∷ name_text name) ≤ length out.old) }
    ensures { Wrote at (9 ∷ name_text name) out.old result out.new }
{
    let p = text::put_byte(b'\t', out, at);
    put_front(&name.bytes, name.len as usize, out, p)
}

// Writes a tab and a unit.
fn put_unit(unit: Unit, out: &mut [u8], at: usize) -> usize
    requires { at + length (9 ∷ unit_text unit) ≤ length out.old }
    ensures { Wrote at (9 ∷ unit_text unit) out.old result out.new }
{
    match unit {
        Unit::ArcSecond => text::put_bytes(b"\tarc-second", out, at),
        Unit::Metre => text::put_bytes(b"\tmetre", out, at),
    }
}

// Writes a group line with its line feed.
pub fn put_head(head: Head, out: &mut [u8], at: usize) -> usize
    requires { (head.name.len ≤ name_most) × (at + length (head_text head ++ (10 ∷ [])) ≤ length out.old) }
    ensures { Wrote at (head_text head ++ (10 ∷ [])) out.old result out.new }
{
    let p = text::put_bytes(b"group", out, at);
    let q = put_name(head.name, out, p);
    let r = put_unit(head.unit, out, q);
    let s = text::put_count(head.quantum, out, r);
    let t = text::put_count(head.parameters, out, s);
    let u = text::put_count(head.functions, out, t);
    let v = text::put_count(head.grids, out, u);
    text::put_byte(10, out, v)
}

// Writes the first n numbers, each behind a tab.
pub fn put_numbers(numbers: &[i64], n: usize, out: &mut [u8], at: usize) -> usize
    requires { (n ≤ length numbers.now) × (at + length (led 9 (map int_text (take n numbers.now))) ≤ length out.old) }
    ensures { Wrote at (led 9 (map int_text (take n numbers.now))) out.old result out.new }
{
    let mut next = at;
    for z in &numbers[..n] {
        next = text::put_number(*z, out, next);
    }
    next
}

// Writes a line of a word and numbers, with its line feed.
fn put_line(word: &[u8], numbers: &[i64], out: &mut [u8], at: usize) -> usize
    requires { at + length (join 9 (word.now ∷ map int_text numbers.now) ++ (10 ∷ [])) ≤ length out.old }
    ensures { Wrote at (join 9 (word.now ∷ map int_text numbers.now) ++ (10 ∷ [])) out.old result out.new }
{
    let p = text::put_bytes(word, out, at);
    let q = put_numbers(numbers, numbers.len(), out, p);
    text::put_byte(10, out, q)
}

// Writes a function line with its line feed.
pub fn put_function(function: Function, out: &mut [u8], at: usize) -> usize
    requires { at + length (function_text function ++ (10 ∷ [])) ≤ length out.old }
    ensures { Wrote at (function_text function ++ (10 ∷ [])) out.old result out.new }
{
    match function.shape {
        Shape::Ramp(r) => put_line(b"ramp", &[r.a, r.s0, r.b, r.s1], out, at),
        Shape::Step(s) => put_line(b"step", &[s.event, s.reference, s.mult], out, at),
        Shape::Ramp2(r) => put_line(b"ramp2", &[r.start, r.end, r.reference, r.mult], out, at),
    }
}

// Writes a grid line with its line feed.
pub fn put_grid(grid: Grid, out: &mut [u8], at: usize) -> usize
    requires { (grid.name.len ≤ name_most) × (at + length (grid_text grid ++ (10 ∷ [])) ≤ length out.old) }
    ensures { Wrote at (grid_text grid ++ (10 ∷ [])) out.old result out.new }
{
    let p = text::put_bytes(b"grid", out, at);
    let q = put_name(grid.name, out, p);
    let r = text::put_number(grid.lon.0, out, q);
    let s = text::put_number(grid.lat.0, out, r);
    let t = text::put_number(grid.dlon, out, s);
    let u = text::put_number(grid.dlat, out, t);
    let v = text::put_count(grid.ni, out, u);
    let w = text::put_count(grid.nj, out, v);
    let x = text::put_count(grid.rank, out, w);
    let y = text::put_count(grid.start, out, x);
    text::put_byte(10, out, y)
}
