// Runs the marked cases of document 01 through the public calls and prints what they answer; M10 also in one call for many points, M11 and M12
// also with their holes.
#![tactic(auto)]

use extent::{LatSpan, LonSpan};
use group::{Group, Latitude, Longitude, MARK, Point, Refusal};
use inforce::{Area, InForce};
use std::{fmt, io};

// The group of a header text, the blank one of a text that is refused.
fn read(text: &[u8]) -> Group {
    header::read_header(text).unwrap_or(group::blank_group())
}

// The header of document 01.
fn basin() -> Group {
    read(
        b"group\tdock\tmetre\t13\t1\t1\t1\nramp\t100\t0\t200\t1000000\ngrid\tbasin\t0\t0\t10\t10\t3\t2\t1\t0\n",
    )
}

// The same with no functions.
fn plain() -> Group {
    read(b"group\tdock\tmetre\t13\t1\t0\t1\ngrid\tbasin\t0\t0\t10\t10\t3\t2\t1\t0\n")
}

// G1 of rank 3 over 0..20, G2 of rank 1 over 0..10, G3 of rank 2 over 10..20.
fn m11() -> Group {
    read(
        b"group\tdock\tmetre\t13\t1\t0\t3\ngrid\tG1\t0\t0\t10\t10\t3\t2\t3\t0\ngrid\tG2\t0\t0\t10\t10\t2\t2\t1\t0\ngrid\tG3\t10\t0\t10\t10\t2\t2\t2\t0\n",
    )
}

// The same with G3 over 12..22.
fn m12() -> Group {
    read(
        b"group\tdock\tmetre\t13\t1\t0\t3\ngrid\tG1\t0\t0\t10\t10\t3\t2\t3\t0\ngrid\tG2\t0\t0\t10\t10\t2\t2\t1\t0\ngrid\tG3\t12\t0\t10\t10\t2\t2\t2\t0\n",
    )
}

// An area by its sides, in mas.
fn area(west: i64, east: i64, south: i64, north: i64) -> Area {
    Area {
        lon: LonSpan {
            west: Longitude(west),
            east: Longitude(east),
        },
        lat: LatSpan {
            south: Latitude(south),
            north: Latitude(north),
        },
    }
}

// A refusal: its number, and its place where it names one.
#[derive(Clone, Copy)]
struct Refused(Refusal);

impl fmt::Display for Refused {
    fn fmt<W: fmt::Write>(&self, f: &mut fmt::Formatter<W>) -> fmt::Result {
        let refusal = self.0;
        write!(f, "refused {}", refusal.number)?;
        if refusal.place != 0 {
            write!(f, " at {}", refusal.place)?;
        }
        Ok(())
    }
}

// A longitude and a latitude, in mas.
#[derive(Clone, Copy)]
struct At(Longitude, Latitude);

impl fmt::Display for At {
    fn fmt<W: fmt::Write>(&self, f: &mut fmt::Formatter<W>) -> fmt::Result {
        let At(Longitude(lon), Latitude(lat)) = *self;
        write!(f, "({lon}, {lat})")
    }
}

// What reading a header text answers: accepted, or the refusal.
fn header(rt: &impl Print, label: &str, text: &[u8]) -> io::Result<()> {
    print!(rt; "{label}: ")?;
    match header::read_header(text) {
        Ok(_) => println!(rt; "accepted"),
        Err(r) => println!(rt; "{}", Refused(r)),
    }
}

// A lookup's answer at a point in mas: the chosen grid's number and its first result, or the refusal.
fn looked(
    rt: &impl Print,
    label: &str,
    group: Group,
    nodes: &[i32],
    lon: i64,
    lat: i64,
    day: i64,
) -> io::Result<()> {
    let p = Point {
        lon: Longitude(lon),
        lat: Latitude(lat),
    };
    print!(rt; "{label} {}: ", At(p.lon, p.lat))?;
    match lookup::lookup(group, nodes, p, day) {
        Ok(f) => println!(rt; "grid {}, {}", f.grid, f.first),
        Err(r) => println!(rt; "{}", Refused(r)),
    }
}

// The answer in grid `basin` with no functions, where the day plays no part.
fn looked_plain(rt: &impl Print, label: &str, nodes: &[i32], lon: i64, lat: i64) -> io::Result<()> {
    looked(rt, label, plain(), nodes, lon, lat, 0)
}

// Writes the grids in force, each with its coordinate, with commas between them.
fn say_list(rt: &impl Print, list: &InForce) -> io::Result<()> {
    for (i, e) in list.entries.iter().enumerate() {
        if i as u64 == list.count {
            break;
        }
        let before = if i == 0 { "" } else { ", " };
        print!(rt; "{before}{} at {}", e.grid, At(e.lon, e.lat))?;
    }
    println!(rt; "")
}

// The grids in force in an area, or the refusal.
fn in_force(rt: &impl Print, label: &str, group: Group, a: Area) -> io::Result<()> {
    print!(rt; "{label}: ")?;
    match inforce::grids_in_force(group, a) {
        Ok(list) => say_list(rt, &list),
        Err(r) => println!(rt; "{}", Refused(r)),
    }
}

// The hole in an area if there is one, or the refusal.
fn hole(rt: &impl Print, label: &str, group: Group, a: Area) -> io::Result<()> {
    print!(rt; "{label}: ")?;
    match inforce::hole(group, a) {
        Ok(Some(p)) => println!(rt; "at {}", At(p.lon, p.lat)),
        Ok(None) => println!(rt; "none"),
        Err(r) => println!(rt; "{}", Refused(r)),
    }
}

// The node that a float loads as at quantum 0, or the refusal.
fn loaded(rt: &impl Print, label: &str, x: f32) -> io::Result<()> {
    let mut nodes = [MARK];
    print!(rt; "{label}: ")?;
    match nodes::load_nodes(&[x], -1.0, 0, &mut nodes) {
        Ok(()) => println!(rt; "{}", nodes[0]),
        Err(r) => println!(rt; "{}", Refused(r)),
    }
}

// M1 to M3.
fn lookups(rt: &impl Print) -> io::Result<()> {
    let nodes = [0, 10, 20, 100, 110, 120];
    looked_plain(rt, "M1", &nodes, 5, 5)?;
    looked_plain(rt, "M2", &nodes, 20, 10)?;
    looked_plain(rt, "M3", &nodes, 21, 10)
}

// M4 to M7: ties go to the even step.
fn ties(rt: &impl Print) -> io::Result<()> {
    looked_plain(rt, "M4", &[0, 1, 0, 0, 1, 0], 5, 5)?;
    looked_plain(rt, "M5", &[1, 2, 0, 1, 2, 0], 5, 5)?;
    looked_plain(rt, "M6", &[0, -1, 0, 0, -1, 0], 5, 5)?;
    looked_plain(rt, "M7", &[-1, -2, 0, -1, -2, 0], 5, 5)
}

// M8 and M9, with the mark at node (1, 0), and a latitude beyond the limit.
fn marks(rt: &impl Print) -> io::Result<()> {
    let nodes = [0, MARK, 20, 100, 110, 120];
    looked_plain(rt, "M8", &nodes, 0, 5)?;
    looked_plain(rt, "M9", &nodes, 1, 5)?;
    looked_plain(rt, "a latitude beyond the limit", &nodes, 5, 324000001)
}

// M10: where every node is 1,000,000, the result is the day factor.
fn factors(rt: &impl Print) -> io::Result<()> {
    let nodes = [1000000; 6];
    looked(rt, "M10, day 99", basin(), &nodes, 5, 5, 99)?;
    looked(rt, "M10, day 133", basin(), &nodes, 5, 5, 133)?;
    looked(rt, "M10, day 200", basin(), &nodes, 5, 5, 200)
}

// Writes the answers of the columns, six numbers each: the chosen grid's number and its first result, or the refusal.
fn say_answers(rt: &impl Print, answers: &[i64]) -> io::Result<()> {
    for (i, answer) in answers.chunks_exact(6).enumerate() {
        let before = if i == 0 { "" } else { "; " };
        if answer[0] == 0 {
            print!(rt; "{before}grid {}, {}", answer[2], answer[3])?;
        } else {
            print!(rt; "{before}refused {}", answer[0])?;
        }
    }
    println!(rt; "")
}

// M10's three days and a day beyond the limit in one call, as columns.
fn days_at_once(rt: &impl Print) -> io::Result<()> {
    let nodes = [1000000; 6];
    let days = [99, 133, 200, 1000001];
    let mut results = [-1i64; 24];
    print!(rt; "M10, its days and 1000001 at once: ")?;
    match exercise::lookup_columns(basin(), &nodes, &[5; 4], &[5; 4], &days, &mut results) {
        Ok(()) => say_answers(rt, &results),
        Err(r) => println!(rt; "{}", Refused(r)),
    }
}

// M11 and M12, and M11 in the area of longitudes ±648,000,000 and latitudes ±324,000,000.
fn areas(rt: &impl Print) -> io::Result<()> {
    let small = area(0, 20, 0, 10);
    in_force(rt, "M11", m11(), small)?;
    in_force(rt, "M12", m12(), small)?;
    let earth = area(-648000000, 648000000, -324000000, 324000000);
    in_force(rt, "M11 in the whole earth", m11(), earth)
}

// No hole in M11's area, one a column beyond it, one at the last coordinate of M12's north row, since G3 ends at 22 there, and a refused area.
fn holes(rt: &impl Print) -> io::Result<()> {
    hole(rt, "M11, the hole", m11(), area(0, 20, 0, 10))?;
    hole(
        rt,
        "M11, one column wider, the hole",
        m11(),
        area(0, 21, 0, 10),
    )?;
    hole(
        rt,
        "M12, its north row up to 23, the hole",
        m12(),
        area(0, 23, 10, 10),
    )?;
    hole(
        rt,
        "M11, west above east, the hole",
        m11(),
        area(20, 0, 0, 10),
    )
}

// M11 with G2 and G3 of equal ranks.
fn equal_ranks(rt: &impl Print) -> io::Result<()> {
    header(
        rt,
        "M11 with G2 and G3 of equal ranks",
        b"group\tdock\tmetre\t13\t1\t0\t3\ngrid\tG1\t0\t0\t10\t10\t3\t2\t3\t0\ngrid\tG2\t0\t0\t10\t10\t2\t2\t1\t0\ngrid\tG3\t10\t0\t10\t10\t2\t2\t1\t0\n",
    )
}

// Every marked case, one line each.
fn main(rt: HostRuntime) -> io::Result<()> {
    lookups(&rt)?;
    ties(&rt)?;
    marks(&rt)?;
    factors(&rt)?;
    days_at_once(&rt)?;
    areas(&rt)?;
    holes(&rt)?;
    equal_ranks(&rt)?;
    loaded(&rt, "0.5 at Q 0", 0.5)?;
    loaded(&rt, "1.5 at Q 0", 1.5)
}
