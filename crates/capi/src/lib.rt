// The C interface: every public call over numbers, slices and references to arrays, as include/bulhyemik.h documents it.
#![tactic(auto)]

ghost use Rattle.std.specs.Prelude.{◌≡◌, ◌≤◌, length, get_or, replicate, pos};
ghost use Rattle.std.proofs.lemmas.List.Edits.{sets};
ghost use Rattle.group.specs.Numbers.{grids_most};
ghost use Rattle.group.specs.Refusals.{refusal, refusal_of};
ghost use Rattle.inforce.specs.InForce.{blank_entry};
ghost use Rattle.screen.specs.Screen.{shifts_of};
ghost use Rattle.abi.specs.Abi.{joined};
ghost use Rattle.capi.specs.Answers.{version, left, left_by, area_of, hole_numbers, fault_numbers, lent_text, field_part};
ghost use Rattle.capi.specs.Answers.{judge_answer, read_answer, write_answer, lookup_answer, many_answer, hole_answer, log_answer, line_answer, load_answer};
ghost use Rattle.capi.specs.InForce.{entries_from, list_words, stored_entry, stored_list, in_force_answer};
ghost use Rattle.capi.specs.Screen.{lookup_of, shown_of, shifts_answer, record_answer};

use abi::GROUP_WORDS;
use extent::{LatSpan, LonSpan};
use fix::Fix;
use group::{GRIDS_MOST, Latitude, Longitude, Point, Position, Refusal};
use inforce::{Area, GridInForce, InForce};
use logs::Fault;
use lookup::Answer;
use screen::Shifts;

// The version of the interface: major * 1,000,000 + minor * 1,000 + patch.
const VERSION: u64 = 4000000;

// The numbers of an entry of a list of grids in force, where the entries begin, and the numbers of the list.
const ENTRY_WORDS: usize = 3;

const ENTRIES_FROM: usize = 1;

const LIST_WORDS: usize = ENTRIES_FROM + GRIDS_MOST * ENTRY_WORDS;

// The version of the interface.
#[unsafe(no_mangle)]
pub extern "C" fn bulhyemik_version() -> u64
    ensures { result ≡ version }
{
    VERSION
}

// Tells C what an answer refuses: the place is left, and the number returned, 0 and 0 where it refuses nothing.
fn told<T>(answer: &Result<T, Refusal>, place: &mut u64) -> u64
    ensures { refusal result place.new ≡ refusal_of answer.now }
{
    match answer {
        Ok(_) => {
            *place = 0;
            0
        }
        Err(refusal) => {
            *place = refusal.place;
            refusal.number
        }
    }
}

// Judges a group: refusals 2 to 5.
#[unsafe(no_mangle)]
pub extern "C" fn bulhyemik_judge(group: &[i64; GROUP_WORDS], place: &mut u64) -> u64
    ensures { refusal result place.new ≡ judge_answer group.now }
{
    told(&judge::judge_words(group), place)
}

// Reads a header text into a group, which stays as it was after a refusal: 1 or 2 at the first faulty line, then 3, 4, 5.
#[unsafe(no_mangle)]
#[tactic(auto, unfolding(crate::specs::Answers::read_answer))]
pub extern "C" fn bulhyemik_read_header(
    text: &[u8],
    group: &mut [i64; GROUP_WORDS],
    place: &mut u64,
) -> u64
    ensures { left result place.new group.new ≡ read_answer text.now group.old }
{
    let reading = header::read_header(text);
    if let Ok(found) = reading {
        *group = abi::numbers_of(found);
    }
    told(&reading, place)
}

// The count of bytes of a writing, 0 beside a refusal.
fn written_count(written: Result<usize, Refusal>) -> u64
    ensures { result ≡ left_by (λ n. n) 0 written }
{
    match written {
        Ok(n) => n as u64,
        Err(_) => 0,
    }
}

// Writes the header text of a group: refusals 2 to 5, then 12 if `out` is too short. What stands behind the text stays.
#[unsafe(no_mangle)]
pub extern "C" fn bulhyemik_write_header(
    group: &[i64; GROUP_WORDS],
    out: &mut [u8],
    count: &mut u64,
    place: &mut u64,
) -> u64
    ensures { left result place.new (lent_text count.new out.new) ≡ write_answer group.now out.old }
{
    let written = header::write_words(group, out);
    *count = written_count(written);
    told(&written, place)
}

// The line and the kind of a judgement, zeros where the log passes and beside a refusal.
fn fault_numbers(judged: Result<Option<Fault>, Refusal>) -> [u64; 2]
    ensures { result ≡ left_by fault_numbers (replicate 2 0) judged }
{
    match judged {
        Ok(Some(fault)) => [fault.line, fault.kind.number()],
        Ok(None) => [0, 0],
        Err(_) => [0, 0],
    }
}

// Judges a log: refusals 2 to 5, then 13; else the first bad line and its kind, zeros if there is none.
#[unsafe(no_mangle)]
pub extern "C" fn bulhyemik_judge_log(
    group: &[i64; GROUP_WORDS],
    nodes: &[i32],
    log: &[u8],
    fault: &mut [u64; 2],
    place: &mut u64,
) -> u64
    ensures { left result place.new fault.new ≡ log_answer group.now nodes.now log.now }
{
    let judged = logs::log_words(group, nodes, log);
    *fault = fault_numbers(judged);
    told(&judged, place)
}

// Writes the line of a position, its longitude and latitude in mas and its day: refusals of a lookup, then 12 if `out` is too short.
// What stands behind the line stays.
#[unsafe(no_mangle)]
pub extern "C" fn bulhyemik_write_log_line(
    group: &[i64; GROUP_WORDS],
    nodes: &[i32],
    position: &[i64; 3],
    out: &mut [u8],
    count: &mut u64,
    place: &mut u64,
) -> u64
    ensures { left result place.new (lent_text count.new out.new)
        ≡ line_answer group.now nodes.now position.now out.old }
{
    let at = Position {
        lon: Longitude(position[0]),
        lat: Latitude(position[1]),
        day: position[2],
    };
    let written = logs::line_words(group, nodes, at, out);
    *count = written_count(written);
    told(&written, place)
}

// Finds a field of a line, counted from 0: where it begins and where it ends. Nothing is refused.
#[unsafe(no_mangle)]
pub extern "C" fn bulhyemik_field(line: &[u8], number: u64, part: &mut [u64; 2])
    ensures { part.new ≡ field_part line.now number }
{
    let from = text::part_start(line, number as usize, 9);
    let to = text::find_from(line, from, 9);
    *part = [from as u64, to as u64];
}

// Looks a point in mas up on a day: refusals 2 to 5, then 6, 9, 13, 7, 8.
#[unsafe(no_mangle)]
pub extern "C" fn bulhyemik_lookup(
    group: &[i64; GROUP_WORDS],
    nodes: &[i32],
    lon: i64,
    lat: i64,
    day: i64,
    fix: &mut [i64; 4],
    place: &mut u64,
) -> u64
    ensures { left result place.new fix.new ≡ lookup_answer group.now nodes.now lon lat day }
{
    let point = Point {
        lon: Longitude(lon),
        lat: Latitude(lat),
    };
    let a = lookup::answer_of(lookup::look_words(group, nodes, point, day));
    *fix = [a.grid, a.first, a.second, a.third];
    *place = a.place;
    a.number
}

// Looks every point of a list up, each on its own day: refusals 2 to 5, 12 and 13, after which the results stay as they were.
#[unsafe(no_mangle)]
pub extern "C" fn bulhyemik_lookup_many(
    group: &[i64; GROUP_WORDS],
    nodes: &[i32],
    points: &[Position],
    results: &mut [Answer],
    place: &mut u64,
) -> u64
    ensures { left result place.new results.new
        ≡ many_answer group.now nodes.now points.now results.old }
{
    told(&exercise::many_words(group, nodes, points, results), place)
}

// The numbers of a list of grids in force: the count, and three of each entry.
fn list_numbers(list: InForce) -> [i64; LIST_WORDS]
    ensures { result ≡ stored_list list }
{
    let mut out = [0i64; LIST_WORDS];
    abi::store_numbers(&mut out, 0, &[abi::as_stored(list.count)]);
    store_entries(&mut out, list.entries);
    out
}

// Stores the numbers of all entries, behind the count.
fn store_entries(out: &mut [i64], entries: [GridInForce; GRIDS_MOST])
    requires { list_words ≤ length out.old }
    ensures { out.new ≡ sets out.old entries_from (joined (λ k. stored_entry (get_or entries k blank_entry)) grids_most) }
{
    for i in 0..GRIDS_MOST {
        let e = entries[i];
        let numbers = [abi::as_stored(e.grid), e.lon.0, e.lat.0];
        abi::store_numbers(out, i * ENTRY_WORDS + ENTRIES_FROM, &numbers);
    }
}

// The same, zeros beside a refusal.
fn listed(found: Result<InForce, Refusal>) -> [i64; LIST_WORDS]
    ensures { result ≡ left_by stored_list (replicate list_words (pos 0)) found }
{
    match found {
        Ok(list) => list_numbers(list),
        Err(_) => [0; LIST_WORDS],
    }
}

// An area of its sides.
fn area_of(west: i64, east: i64, south: i64, north: i64) -> Area
    ensures { result ≡ area_of west east south north }
{
    Area {
        lon: LonSpan {
            west: Longitude(west),
            east: Longitude(east),
        },
        lat: LatSpan {
            south: Latitude(south),
            north: Latitude(north),
        },
    }
}

// Lists the grids in force in an area, its sides in mas: refusals 2 to 5, then 10.
#[unsafe(no_mangle)]
pub extern "C" fn bulhyemik_grids_in_force(
    group: &[i64; GROUP_WORDS],
    west: i64,
    east: i64,
    south: i64,
    north: i64,
    list: &mut [i64; LIST_WORDS],
    place: &mut u64,
) -> u64
    ensures { left result place.new list.new ≡ in_force_answer group.now (area_of west east south north) }
{
    let found = inforce::force_words(group, area_of(west, east, south, north));
    *list = listed(found);
    told(&found, place)
}

// The numbers of a hole: 1, its longitude and its latitude, or zeros where there is none and beside a refusal.
fn hole_numbers(found: Result<Option<Point>, Refusal>) -> [i64; 3]
    ensures { result ≡ left_by hole_numbers (replicate 3 (pos 0)) found }
{
    match found {
        Ok(Some(p)) => [1, p.lon.0, p.lat.0],
        _ => [0, 0, 0],
    }
}

// Finds the southmost, then westmost coordinate of an area at which no grid is chosen, all in mas: refusals 2 to 5, then 10.
#[unsafe(no_mangle)]
pub extern "C" fn bulhyemik_hole(
    group: &[i64; GROUP_WORDS],
    west: i64,
    east: i64,
    south: i64,
    north: i64,
    uncovered: &mut [i64; 3],
    place: &mut u64,
) -> u64
    ensures { left result place.new uncovered.new ≡ hole_answer group.now (area_of west east south north) }
{
    let found = inforce::hole_words(group, area_of(west, east, south, north));
    *uncovered = hole_numbers(found);
    told(&found, place)
}

// Loads floats in units as nodes in steps of 2 to the power -quantum: refusals 2, 12 and 11.
#[unsafe(no_mangle)]
pub extern "C" fn bulhyemik_load_nodes(
    floats: &[f32],
    flag: f32,
    quantum: i64,
    nodes: &mut [i32],
    place: &mut u64,
) -> u64
    ensures { left result place.new nodes.new ≡ load_answer quantum flag floats.now nodes.old }
{
    let q = numbers::count_of(quantum);
    told(&nodes::load_nodes(floats, flag, q, nodes), place)
}

// A lookup's answer of the number that it returned, the place that it left and the numbers that it filled.
fn lookup_of(number: u64, at: u64, fix: &[i64; 4]) -> Result<Fix, Refusal>
    ensures { result ≡ lookup_of number at fix.now }
{
    if number == 0 {
        return Ok(Fix {
            grid: numbers::count_of(fix[0]),
            first: fix[1],
            second: fix[2],
            third: fix[3],
        });
    }
    Err(Refusal { number, place: at })
}

// The shifts of a screen answer.
fn shift_floats(s: Result<Shifts, Refusal>) -> [f64; 3]
    ensures { result ≡ shifts_of s }
{
    match s {
        Ok(shifts) => [shifts.first, shifts.second, shifts.third],
        Err(_) => [0.0, 0.0, 0.0],
    }
}

// Turns a lookup's answer into three shifts in units: refusal 2 of Q and NP, then the lookup's own.
#[unsafe(no_mangle)]
pub extern "C" fn bulhyemik_screen_answer(
    quantum: i64,
    parameters: i64,
    number: u64,
    at: u64,
    fix: &[i64; 4],
    shifts: &mut [f64; 3],
    place: &mut u64,
) -> u64
    ensures { left result place.new shifts.new ≡ shifts_answer (shown_of quantum parameters number at fix.now) }
{
    let q = numbers::count_of(quantum);
    let np = numbers::count_of(parameters);
    let shown = screen::screen_answer(lookup_of(number, at, fix), q, np);
    *shifts = shift_floats(shown);
    told(&shown, place)
}

// Fills the screen record: the degrees of a point in mas, and the shifts as `bulhyemik_screen_answer` has them.
#[unsafe(no_mangle)]
pub extern "C" fn bulhyemik_screen_record(
    lon: i64,
    lat: i64,
    quantum: i64,
    parameters: i64,
    number: u64,
    at: u64,
    fix: &[i64; 4],
    screen: &mut [f64; 5],
    place: &mut u64,
) -> u64
    ensures { left result place.new screen.new ≡ record_answer lon lat (shown_of quantum parameters number at fix.now) }
{
    let q = numbers::count_of(quantum);
    let np = numbers::count_of(parameters);
    let point = Point {
        lon: Longitude(lon),
        lat: Latitude(lat),
    };
    let shown = screen::screen_answer(lookup_of(number, at, fix), q, np);
    let r = screen::record_of(point, shown);
    *screen = [r.longitude, r.latitude, r.first, r.second, r.third];
    told(&shown, place)
}
