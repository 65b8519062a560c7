// Where a grid lies: its extent, its node range and refusal 4; and its sides as unsigned numbers, which loops walk.
#![tactic(auto)]

ghost use Rattle.std.specs.Prelude.{◌≡◌, ◌+◌, ◌-◌, ◌*◌, ◌≤◌, nat_abs};
ghost use Rattle.group.specs.Numbers.{parameters_most, spacing_most, nodes_least, nodes_most, start_most};
ghost use Rattle.extent.specs.Extent.{lon_axis, lat_axis, far_edge, span_of, lon_span, lat_span, inside};
ghost use Rattle.extent.specs.Sizes.{Reach, Sized};
ghost use Rattle.extent.specs.Sides.{lon_from_least, lat_from_least, sides_of};

use group::{Grid, Latitude, Longitude};

// One direction of a grid: the first node, the spacing and the number of nodes.
#[derive(Clone, Copy)]
pub struct Axis {
    pub at: i64,
    pub step: i64,
    pub nodes: u64,
}

// From the least to the greatest number along one direction.
#[derive(Clone, Copy)]
pub struct Span {
    pub low: i64,
    pub high: i64,
}

// The longitudes of an extent.
#[derive(Clone, Copy)]
pub struct LonSpan {
    pub west: Longitude,
    pub east: Longitude,
}

// The latitudes of an extent.
#[derive(Clone, Copy)]
pub struct LatSpan {
    pub south: Latitude,
    pub north: Latitude,
}

// An extent as distances in mas from the least longitude and latitude, -LON_ZERO and -LAT_ZERO.
#[derive(Clone, Copy)]
pub struct Sides {
    pub west: u64,
    pub east: u64,
    pub south: u64,
    pub north: u64,
}

// What follows of longitudes and of latitudes differs in types and fields alone, which keep the one from the other: no generic form is plainer.

// A grid's nodes along a parallel.
fn lon_axis(g: Grid) -> Axis
    ensures { result ≡ lon_axis g }
{
    Axis {
        at: g.lon.0,
        step: g.dlon,
        nodes: g.ni,
    }
}

// A grid's nodes along a meridian.
fn lat_axis(g: Grid) -> Axis
    ensures { result ≡ lat_axis g }
{
    Axis {
        at: g.lat.0,
        step: g.dlat,
        nodes: g.nj,
    }
}

// Where the last node lies.
#[tactic(auto, unfolding(crate::specs::Extent::far_edge))]
fn far_edge(a: Axis) -> i64
    requires { Reach a }
    ensures { result ≡ far_edge a }
{
    let last = (a.nodes - 1) as i64;
    a.at + last * a.step
}

// From the least to the greatest node.
#[tactic(auto, unfolding(crate::specs::Extent::span_of))]
fn span_of(a: Axis) -> Span
    requires { Reach a }
    ensures { result ≡ span_of a }
{
    let far = far_edge(a);
    Span {
        low: a.at.min(far),
        high: a.at.max(far),
    }
}

// A grid's longitudes.
#[tactic(auto, unfolding(crate::specs::Extent::lon_span))]
fn lon_span(g: Grid) -> LonSpan
    requires { Reach (lon_axis g) }
    ensures { result ≡ lon_span g }
{
    let s = span_of(lon_axis(g));
    LonSpan {
        west: Longitude(s.low),
        east: Longitude(s.high),
    }
}

// A grid's latitudes.
#[tactic(auto, unfolding(crate::specs::Extent::lat_span))]
fn lat_span(g: Grid) -> LatSpan
    requires { Reach (lat_axis g) }
    ensures { result ≡ lat_span g }
{
    let s = span_of(lat_axis(g));
    LatSpan {
        south: Latitude(s.low),
        north: Latitude(s.high),
    }
}

// The position in the node list behind the last of ni · nj nodes of np parameters, from START on.
pub fn node_end(start: u64, ni: u64, nj: u64, np: u64) -> u64
    requires { (start ≤ start_most) × (ni ≤ nodes_most) × (nj ≤ nodes_most) × (np ≤ parameters_most) }
    ensures { result ≡ start + ni * nj * np }
{
    start + ni * nj * np
}

// How far it is from the first of ni nodes to the last.
fn width(ni: u64, dlon: i64) -> u64
    requires { (nodes_least ≤ ni) × (ni ≤ nodes_most) × (nat_abs dlon ≤ spacing_most) }
    ensures { result ≡ (ni - 1) * nat_abs dlon }
{
    (ni - 1) * dlon.unsigned_abs()
}

// Whether a grid's far edges are within the limits, its width within a turn and its node range within the longest list.
#[tactic(auto, unfolding(crate::specs::Extent::inside))]
pub fn grid_inside(g: Grid, np: u64) -> bool
    requires { (np ≤ parameters_most) × Sized g }
    ensures { result ≡ inside np g }
{
    let x = far_edge(lon_axis(g));
    let y = far_edge(lat_axis(g));
    let wide = width(g.ni, g.dlon);
    let end = node_end(g.start, g.ni, g.nj, np);
    group::lon_edge_fits(x)
        & group::lat_edge_fits(y)
        & (wide <= group::LON_TURN)
        & (end <= group::LIST_MOST)
}

// The distance in mas from the least longitude, 0 west of it.
pub fn lon_from_least(l: Longitude) -> u64
    ensures { result ≡ lon_from_least l.0 }
{
    numbers::raised(group::LON_ZERO, l.0)
}

// The distance in mas from the least latitude, 0 south of it.
pub fn lat_from_least(l: Latitude) -> u64
    ensures { result ≡ lat_from_least l.0 }
{
    numbers::raised(group::LAT_ZERO, l.0)
}

// A grid's sides.
#[tactic(auto, unfolding(crate::specs::Sides::sides_of))]
pub fn sides_of(g: Grid) -> Sides
    requires { Sized g }
    ensures { result ≡ sides_of g }
{
    let x = lon_span(g);
    let y = lat_span(g);
    Sides {
        west: lon_from_least(x.west),
        east: lon_from_least(x.east),
        south: lat_from_least(y.south),
        north: lat_from_least(y.north),
    }
}
