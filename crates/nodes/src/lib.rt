// Loading floats into nodes: document 01, 'Loading and showing'.
#![tactic(auto)]

ghost use Rattle.std.specs.Prelude.{◌≡◌, true, false, not, map, ◌+◌, ◌-◌, ◌*◌, ◌^◌, ◌≤◌, ◌<◌, min, T, leb, length};
ghost use Rattle.std.specs.Float.{binary32};
ghost use Rattle.std.specs.Float.Ieee.{of_bits, is_nan};
ghost use Rattle.numbers.specs.Round.{nearest};
ghost use Rattle.group.specs.Numbers.{quantum_most, value_most};
ghost use Rattle.nodes.specs.Load.{signed, marks, refused_float, node_of, first_refused, loaded, nodes_after};
ghost use Rattle.nodes.specs.Size.{size_of};
ghost use Rattle.nodes.specs.Plain.{greatest, AllPlain, FirstFrom, Filled};

use group::Refusal;

// The greatest size of a node, in steps.
const LIMIT: u64 = group::VALUE_MOST as u64;

// The size of an infinity, and of all from 2^31 on.
const SIZE_MOST: u64 = 2147483648;

// The bit of a float's sign.
const SIGN: u32 = 2147483648;

// The first digit of most floats, which their bits leave out; the exponent's field is counted in it.
const FIRST_DIGIT: u32 = 8388608;

// The bits of the greatest float that is no more than LIMIT when rounded: 2,147,483,520.
const GREATEST: u32 = 1325400063;

// Floats that are looked at before it is asked whether one of them isn't plain.
const BLOCK: usize = 64;

// Whether x becomes the mark: a NaN, or bits equal to the flag's.
#[tactic(auto, unfolding(crate::specs::Load::marks))]
fn marked(x: f32, flag: f32) -> bool
    ensures { result ≡ marks flag x }
{
    x.is_nan() || (!flag.is_nan() && x.to_bits() == flag.to_bits())
}

// digits · 2^up / 2^149 to the nearest whole number, a tie to the even one, but no more than SIZE_MOST.
fn scaled(digits: u64, up: u32) -> u64
    requires { (digits < 2 ^ 24) × (149 ≤ up → 2 ^ 23 ≤ digits) }
    ensures { result ≡ min (nearest (digits * 2 ^ up) (2 ^ 149)) (2 ^ 31) }
{
    if 157 <= up {
        return SIZE_MOST;
    }
    if 149 <= up {
        return digits << (up - 149);
    }
    let down = 149 - up;
    if 24 < down {
        return 0;
    }
    numbers::nearest_shifted(digits, u64::from(down))
}

// The size, in steps of 2^-q, of the float with the bits b, rounded, but no more than SIZE_MOST.
fn size(b: u32, q: u32) -> u64
    requires { (q ≤ quantum_most) × T (not (is_nan (of_bits binary32 b))) }
    ensures { result ≡ size_of q (of_bits binary32 b) }
{
    let field = b % SIGN / FIRST_DIGIT;
    let digits = b % FIRST_DIGIT;
    if field == 255 {
        return SIZE_MOST;
    }
    if field == 0 {
        return scaled(u64::from(digits), q);
    }
    scaled(u64::from(FIRST_DIGIT + digits), field - 1 + q)
}

// n, below zero where `below` says so.
fn with_sign(below: bool, n: u64) -> i32
    requires { n < 2 ^ 31 }
    ensures { result ≡ signed below n }
{
    if below { -(n as i32) } else { n as i32 }
}

// Whether x is refused: no mark, and infinite or rounded beyond the limit.
#[tactic(auto, unfolding(crate::specs::Load::refused_float))]
fn refuses(x: f32, flag: f32, q: u32) -> bool
    requires { q ≤ quantum_most }
    ensures { result ≡ refused_float q flag x }
{
    !marked(x, flag) && LIMIT < size(x.to_bits(), q)
}

// The node, in steps of 2^-q, of the float with the bits b, which isn't beyond the limit.
fn bits_node(b: u32, q: u32) -> i32
    requires { (q ≤ quantum_most) × T (not (is_nan (of_bits binary32 b))) × (size_of q (of_bits binary32 b) ≤ value_most) }
    ensures { result ≡ signed (leb 2147483648 b) (size_of q (of_bits binary32 b)) }
{
    let up = (b % SIGN / FIRST_DIGIT).saturating_sub(118 - q);
    let digits = FIRST_DIGIT + b % FIRST_DIGIT;
    with_sign(
        SIGN <= b,
        numbers::nearest_shifted_32(u64::from(digits) << up),
    )
}

// The node of a float that isn't refused, in steps.
fn node(x: f32, flag: f32, q: u32) -> i32
    requires { (q ≤ quantum_most) × (refused_float q flag x ≡ false) }
    ensures { result ≡ node_of q flag x }
{
    if marked(x, flag) {
        return group::MARK;
    }
    bits_node(x.to_bits(), q)
}

// The greatest float that is loaded at the quantum q.
fn greatest(q: u32) -> f32
    requires { q ≤ quantum_most }
    ensures { result ≡ greatest q }
{
    f32::from_bits(GREATEST - q * FIRST_DIGIT)
}

// Whether the floats from a to e are all no farther from 0 than the greatest that is loaded, and none has the flag's value: no branch in
// the loop, for speed.
fn all_plain(floats: &[f32], a: usize, e: usize, flag: f32, q: u32) -> bool
    requires { (q ≤ quantum_most) × (a ≤ e) × (e ≤ length floats.now) }
    ensures { result ≡ true → AllPlain (greatest q) flag floats.now a e }
{
    let hi = greatest(q);
    let lo = -hi;
    let mut all = true;
    for i in a..e {
        let x = floats[i];
        all = all & ((lo <= x) & (x <= hi) & (x != flag));
    }
    all
}

// The index of the first float from a to e that is refused, and e where none is.
fn refused_from(floats: &[f32], a: usize, e: usize, flag: f32, q: u32) -> usize
    requires { (q ≤ quantum_most) × (a ≤ e) × (e ≤ length floats.now) }
    ensures { FirstFrom q flag floats.now a e result }
{
    if all_plain(floats, a, e, flag, q) {
        return e;
    }
    for j in a..e {
        if refuses(floats[j], flag, q) {
            return j;
        }
    }
    e
}

// The index of the first float that is refused, and the count of floats where none is.
fn first_refused(floats: &[f32], flag: f32, q: u32) -> usize
    requires { q ≤ quantum_most }
    ensures { result ≡ first_refused q flag floats.now }
{
    for a in (0..floats.len()).step_by(BLOCK) {
        let e = (a + BLOCK).min(floats.len());
        let i = refused_from(floats, a, e, flag, q);
        if i < e {
            return i;
        }
    }
    floats.len()
}

// Writes the nodes of the floats from a to e. `plain` is the same for all of them, so the compiler takes its test out of the loop.
fn fill_block(floats: &[f32], a: usize, e: usize, flag: f32, q: u32, nodes: &mut [i32])
    requires limits { (q ≤ quantum_most) × (a ≤ e) × (e ≤ length floats.now) }
    requires filled { Filled q flag floats.now a nodes.old × (first_refused q flag floats.now ≡ length floats.now) }
    ensures { Filled q flag floats.now e nodes.new }
{
    let plain = all_plain(floats, a, e, flag, q);
    for k in a..e {
        let x = floats[k];
        nodes[k] = if plain {
            bits_node(x.to_bits(), q)
        } else {
            node(x, flag, q)
        };
    }
}

// Writes the node of each float.
fn fill(floats: &[f32], flag: f32, q: u32, nodes: &mut [i32])
    requires limits { (q ≤ quantum_most) × (length floats.now ≡ length nodes.old) }
    requires none_refused { first_refused q flag floats.now ≡ length floats.now }
    ensures { nodes.new ≡ map (node_of q flag) floats.now }
{
    for a in (0..floats.len()).step_by(BLOCK) {
        let e = (a + BLOCK).min(floats.len());
        fill_block(floats, a, e, flag, q, nodes);
    }
}

// Turns each float into a node, in steps of 2^-quantum: a NaN, or bits equal to the flag's, into the mark, any other float into
// the nearest whole number of steps, a tie into the even one (0.5 at quantum 0 into 0, 1.5 into 2). Refused, with no node written: a quantum
// above QUANTUM_MOST (2), nodes of another count than the floats (12), and a float that is infinite or rounds beyond ±VALUE_MOST (11, at the first
// such float's position, from 1).
pub fn load_nodes(floats: &[f32], flag: f32, quantum: u64, nodes: &mut [i32]) -> Result<(), Refusal>
    ensures value { result ≡ loaded quantum flag floats.now (length nodes.old) }
    ensures nodes_after { nodes.new ≡ nodes_after quantum flag floats.now nodes.old }
{
    if group::QUANTUM_MOST < quantum {
        return Err(Refusal {
            number: 2,
            place: 0,
        });
    }
    if floats.len() != nodes.len() {
        return Err(Refusal {
            number: 12,
            place: 0,
        });
    }
    let q = quantum as u32;
    let i = first_refused(floats, flag, q);
    if i < floats.len() {
        return Err(Refusal {
            number: 11,
            place: i as u64 + 1,
        });
    }
    fill(floats, flag, q, nodes);
    Ok(())
}
