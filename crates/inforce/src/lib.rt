// Which grids of a group are chosen at one or more coordinates of an area, and where first: the grids in force. And where none is: the hole.
#![tactic(auto)]

ghost use Rattle.std.specs.Prelude.{◌≡◌, ◌<◌, ◌^◌};
ghost use Rattle.group.specs.Numbers.{grids_most};
ghost use Rattle.abi.specs.Abi.{group_of_words};
ghost use Rattle.flat.specs.Lists.{Room};
ghost use Rattle.inforce.specs.Area.{lon_fits, lat_fits, area_fits, lon_at, lat_at, area_from_least, area_judged};
ghost use Rattle.inforce.specs.Flat.{FlatSound, Admitted, Ready, SidesLeft, flat_listing, flat_hole};
ghost use Rattle.inforce.specs.InForce.{in_force_in, shown_entry, blank_entry, accepted_list, in_force_of};
ghost use Rattle.inforce.specs.Hole.{hole_in, shown_hole, accepted_hole, hole_of};
ghost use Rattle.inforce.specs.Handed.{shown_list, Narrow, NarrowSpot};

use abi::GROUP_WORDS;
use coverage::{Entry, Listing};
use extent::{LatSpan, LonSpan, lat_from_least, lon_from_least};
use group::{
    GRIDS_MOST, Group, LAT_LEAST, LAT_MOST, LON_LEAST, LON_MOST, Latitude, Longitude, Point,
    Refusal,
};
use region::Spot;

// The zeros of the distances.
const LON_ZERO: u64 = group::LON_ZERO as u64;

const LAT_ZERO: u64 = group::LAT_ZERO as u64;

// The sides of all rectangles that a group's grids can have.
const RECT_SIDES: usize = flat::ROWS * 4;

// The numbers of all grids that a group can have, and 0.
const NUMBERS: usize = GRIDS_MOST + 1;

// An area: all whole coordinates from west to east and from south to north, sides included, in mas.
#[derive(Clone, Copy)]
pub struct Area {
    pub lon: LonSpan,
    pub lat: LatSpan,
}

// A grid in force: its number, from 1, and the southmost, then westmost coordinate at which it is chosen, in mas.
#[derive(Clone, Copy)]
pub struct GridInForce {
    pub grid: u64,
    pub lon: Longitude,
    pub lat: Latitude,
}

// The grids in force: how many, and 64 entries, best rank first; unused ones are zero.
#[derive(Clone, Copy)]
pub struct InForce {
    pub count: u64,
    pub entries: [GridInForce; GRIDS_MOST],
}

// Whether longitudes are within the limits, west not above east.
fn lon_fits(s: LonSpan) -> bool
    ensures { result ≡ lon_fits s }
{
    (LON_LEAST..=LON_MOST).contains(&s.west.0)
        && (LON_LEAST..=LON_MOST).contains(&s.east.0)
        && s.west.0 <= s.east.0
}

// Whether latitudes are within the limits, south not above north.
fn lat_fits(s: LatSpan) -> bool
    ensures { result ≡ lat_fits s }
{
    (LAT_LEAST..=LAT_MOST).contains(&s.south.0)
        && (LAT_LEAST..=LAT_MOST).contains(&s.north.0)
        && s.south.0 <= s.north.0
}

// Whether an area is admitted.
#[tactic(auto, unfolding(crate::specs::Area::area_fits))]
fn area_fits(a: Area) -> bool
    ensures { result ≡ area_fits a }
{
    lon_fits(a.lon) && lat_fits(a.lat)
}

// An area by the distances of its sides from the least longitude and latitude.
fn area_from_least(a: Area) -> region::Bounds
    ensures { result ≡ area_from_least a }
{
    region::Bounds {
        west: lon_from_least(a.lon.west),
        east: lon_from_least(a.lon.east),
        south: lat_from_least(a.lat.south),
        north: lat_from_least(a.lat.north),
    }
}

// Judges a group and an area: refusals 2 to 5, then 10, a side outside the limits, west above east or south above north. Stores the sides and
// ranks of an accepted group's grids.
fn judge_area(
    words: &[i64; GROUP_WORDS],
    area: Area,
    sides: &mut [u64],
    ranks: &mut [u64],
) -> Result<(), Refusal>
    requires { Room sides.old ranks.old grids_most }
    ensures { (result ≡ area_judged (group_of_words words.now) area)
        × SidesLeft result (group_of_words words.now) sides.new ranks.new }
{
    let mut frames = [0u64; flat::FRAMES];
    judge::judge_into(words, sides, ranks, &mut frames)?;
    if !area_fits(area) {
        return Err(Refusal {
            number: 10,
            place: 0,
        });
    }
    Ok(())
}

// The longitude at a distance from the least.
fn lon_at(x: u64) -> Longitude
    requires { x < 2 ^ 63 }
    ensures { result.0 ≡ lon_at x }
{
    Longitude(numbers::lowered(x, LON_ZERO))
}

// The latitude at a distance from the least.
fn lat_at(y: u64) -> Latitude
    requires { y < 2 ^ 63 }
    ensures { result.0 ≡ lat_at y }
{
    Latitude(numbers::lowered(y, LAT_ZERO))
}

// An entry with its coordinate in mas.
fn shown_entry(e: Entry) -> GridInForce
    requires { (e.lon < 2 ^ 63) × (e.lat < 2 ^ 63) }
    ensures { result ≡ shown_entry e }
{
    GridInForce {
        grid: e.grid,
        lon: lon_at(e.lon),
        lat: lat_at(e.lat),
    }
}

// The grids in force by an accepted group's flat lists, the area and the coordinates as distances.
fn list_flat(sides: &[u64], ranks: &[u64], n: usize, a: region::Bounds) -> Listing
    requires { FlatSound sides.now ranks.now n × Admitted a }
    ensures { result ≡ flat_listing sides.now ranks.now n a }
{
    let mut order = [0u64; GRIDS_MOST];
    let mut rects = [0u64; RECT_SIDES];
    let mut owners = [0u64; flat::ROWS];
    let mut shifts = [0u64; flat::ROWS];
    let grids = flat::order_by_rank(&ranks[..n], &mut order);
    let count = flat::turn_rows(sides, &order[..grids], &mut rects, &mut owners, &mut shifts);
    let m = count * 4;
    coverage::in_force(
        &rects[..m],
        &owners[..count],
        &ranks[..n],
        &order[..grids],
        a,
    )
}

// An unused entry.
fn blank_entry() -> GridInForce
    ensures { result ≡ blank_entry }
{
    GridInForce {
        grid: 0,
        lon: Longitude(0),
        lat: Latitude(0),
    }
}

// A list with its coordinates in mas.
fn shown_list(l: Listing) -> InForce
    requires { Narrow l }
    ensures { result ≡ shown_list l }
{
    let none = blank_entry();
    let mut entries = [none; GRIDS_MOST];
    for i in 0..l.count {
        entries[i] = shown_entry(l.entries[i]);
    }
    InForce {
        count: l.count as u64,
        entries,
    }
}

// The list of an accepted group, whose grids' sides and ranks are these, and an admitted area.
fn list_in(words: &[i64; GROUP_WORDS], sides: &[u64], ranks: &[u64], area: Area) -> InForce
    requires { Ready (group_of_words words.now) area sides.now ranks.now }
    ensures { result ≡ accepted_list (in_force_in (group_of_words words.now) area) }
{
    let n = abi::grid_count(words) as usize;
    let l = list_flat(sides, ranks, n, area_from_least(area));
    shown_list(l)
}

// The grids in force of a group handed over as a list of numbers, as `grids_in_force` says.
pub fn force_words(words: &[i64; GROUP_WORDS], area: Area) -> Result<InForce, Refusal>
    ensures { result ≡ in_force_of (group_of_words words.now) area }
{
    let mut sides = [0u64; flat::SIDES];
    let mut ranks = [0u64; GRIDS_MOST];
    judge_area(words, area, &mut sides, &mut ranks)?;
    Ok(list_in(words, &sides, &ranks, area))
}

// The grids in force in an area: each grid chosen at one or more of its coordinates, best rank first, with the southmost, then westmost
// such coordinate. Refusals 2 to 5, then 10.
pub fn grids_in_force(group: Group, area: Area) -> Result<InForce, Refusal>
    ensures { result ≡ in_force_of group area }
{
    let words = abi::numbers_of(group);
    force_words(&words, area)
}

// The hole by an accepted group's flat lists, the area and the coordinate as distances.
fn hole_flat(sides: &[u64], ranks: &[u64], n: usize, a: region::Bounds) -> Option<Spot>
    requires { FlatSound sides.now ranks.now n × Admitted a }
    ensures { result ≡ flat_hole sides.now ranks.now n a }
{
    let mut order = [0u64; NUMBERS];
    let mut rects = [0u64; RECT_SIDES];
    let mut owners = [0u64; flat::ROWS];
    let mut shifts = [0u64; flat::ROWS];
    let end = n + 1;
    numbers::fill_indices(end, &mut order);
    let count = flat::turn_rows(sides, &order[1..end], &mut rects, &mut owners, &mut shifts);
    let m = count * 4;
    coverage::hole(&rects[..m], &owners[..count], &ranks[..n], a)
}

// The coordinate that was found, in mas.
fn shown_hole(s: Spot) -> Point
    requires { NarrowSpot s }
    ensures { result ≡ shown_hole s }
{
    Point {
        lon: lon_at(s.x),
        lat: lat_at(s.y),
    }
}

// The hole of an accepted group, whose grids' sides and ranks are these, and an admitted area.
fn hole_in(words: &[i64; GROUP_WORDS], sides: &[u64], ranks: &[u64], area: Area) -> Option<Point>
    requires { Ready (group_of_words words.now) area sides.now ranks.now }
    ensures { result ≡ accepted_hole (hole_in (group_of_words words.now) area) }
{
    let n = abi::grid_count(words) as usize;
    let spot = hole_flat(sides, ranks, n, area_from_least(area))?;
    Some(shown_hole(spot))
}

// The hole of a group handed over as a list of numbers, as `hole` says.
pub fn hole_words(words: &[i64; GROUP_WORDS], area: Area) -> Result<Option<Point>, Refusal>
    ensures { result ≡ hole_of (group_of_words words.now) area }
{
    let mut sides = [0u64; flat::SIDES];
    let mut ranks = [0u64; GRIDS_MOST];
    judge_area(words, area, &mut sides, &mut ranks)?;
    Ok(hole_in(words, &sides, &ranks, area))
}

// Whether an area has a coordinate at which no grid is chosen, and the southmost, then westmost such. Refusals 2 to 5, then 10.
pub fn hole(group: Group, area: Area) -> Result<Option<Point>, Refusal>
    ensures { result ≡ hole_of group area }
{
    let words = abi::numbers_of(group);
    hole_words(&words, area)
}
