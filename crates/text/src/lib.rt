// The parts of a text: fields between tabs, decimal numbers, words; and their writing into lent bytes.
#![tactic(auto)]

ghost use Rattle.std.specs.Prelude.{◌≡◌, true, ◌∷◌, [], ◌+◌, ◌-◌, ◌*◌, ◌≤◌, ◌<◌, min, pos, neg_ℤ, length, drop};
ghost use Rattle.text.specs.Parts.{behind, split, up_to, start_of, Lacks, field_of};
ghost use Rattle.text.specs.Cuts.{fields_most, Cut, Cuts};
ghost use Rattle.text.specs.Decimal.{digits_from, read_nat, read_int, decimal, int_text};
ghost use Rattle.text.specs.Number.{number_most, natural_of, number_of};
ghost use Rattle.text.specs.Fields.{same};
ghost use Rattle.text.specs.Wrote.{Wrote};

// Bytes that are looked at before it is asked whether c is among them, and how far the end has to be for that.
const BLOCK: usize = 16;

const FAR: usize = 64;

// Whether none of the bytes from a to e is c.
fn lacks(s: &[u8], a: usize, e: usize, c: u8) -> bool
    requires { (a ≤ e) × (e ≤ length s.now) }
    ensures { result ≡ true → Lacks c s.now a e }
{
    let mut none = true;
    // `&` and no `all`: no branch is taken between the bytes of a block.
    for k in a..e {
        none = none & (s[k] != c);
    }
    none
}

// A place at or behind a with no byte c before it: past whole blocks while the end is far.
fn past_blocks(s: &[u8], a: usize, c: u8) -> usize
    ensures { result + up_to c (drop result s.now) ≡ a + up_to c (drop a s.now) }
{
    let mut i = a;
    // A while: it goes on by whole blocks.
    while i < s.len() && FAR <= s.len() - i && lacks(s, i, i + BLOCK, c) {
        i += BLOCK;
    }
    i
}

// Where the first byte c at or behind a stands, or the end.
pub fn find_from(s: &[u8], a: usize, c: u8) -> usize
    ensures { result ≡ a + up_to c (drop a s.now) }
{
    let start = past_blocks(s, a, c);
    for i in start..s.len() {
        if s[i] == c {
            return i;
        }
    }
    start.max(s.len())
}

// Where part k of s, parted at c, starts: behind the k-th c, or at the end.
pub fn part_start(s: &[u8], k: usize, c: u8) -> usize
    ensures { result ≡ start_of c s.now k }
{
    let mut i = 0;
    for _ in 0..k {
        let e = find_from(s, i, c);
        if s.len() <= e {
            return e;
        }
        i = e + 1;
    }
    i
}

// Field `number` of a line, counted from 0, as a part of the caller's own line; past the last field the empty part at the
// line's end. A line is all the bytes lent, parted at tabs alone.
pub fn field(line: &[u8], number: usize) -> &[u8]
    ensures result_value { result.now ≡ field_of line.now number }
    ensures ref_ptr_value { result.ref_ptr ≡ behind line.entry.ref_ptr (start_of 9 line.now number) }
{
    let a = part_start(line, number, b'\t');
    let e = find_from(line, a, b'\t');
    &line[a..e]
}

// Room for where ten fields start, and for one place behind the last.
pub const CUTS: usize = 11;

// Walks a line once: leaves in `cuts` where each field starts that it has room for, and behind the last field one more than its end;
// answers how many fields the line has.
pub fn cut_fields(line: &[u8], cuts: &mut [usize; CUTS]) -> usize
    requires { length cuts.old ≡ fields_most + 1 }
    ensures value { result ≡ length (split 9 line.now) }
    ensures cuts { Cuts line.now cuts.new }
{
    let mut n: usize = 0;
    let mut i = 0;
    cuts[0] = 0;
    // A loop: only its last turn meets the line's end.
    loop {
        let e = find_from(line, i, b'\t');
        i = e + 1;
        n += 1;
        if n < CUTS {
            cuts[n] = i;
        }
        if line.len() <= e {
            return n;
        }
    }
}

// Field `number` of a line that is cut there.
pub fn cut_field<'a>(line: &'a [u8], cuts: &[usize; CUTS], number: usize) -> &'a [u8]
    requires { (number < fields_most) × Cut line.now cuts.now number }
    ensures { result.now ≡ field_of line.now number }
{
    let a = cuts[number];
    let e = cuts[number + 1] - 1;
    &line[a..e]
}

// Sizes are told apart up to here, which is beyond every limit.
const NUMBER_MOST: u64 = 1000000000000000000;

// The number m with the digit b behind it, or NUMBER_MOST.
fn push_digit(m: u64, b: u8) -> u64
    requires { (m ≤ number_most) × ((48 ≤ b) × (b ≤ 57)) }
    ensures { result ≡ min (m * 10 + (b - 48)) number_most }
{
    let n = m * 10 + u64::from(b - b'0');
    n.min(NUMBER_MOST)
}

// Digits as a number; NUMBER_MOST stands for all that is beyond it.
fn read_digits(s: &[u8]) -> Option<u64>
    ensures { result ≡ natural_of (digits_from 0 s.now) }
{
    let mut m = 0;
    for b in s {
        if !b.is_ascii_digit() {
            return None;
        }
        m = push_digit(m, *b);
    }
    Some(m)
}

// A number without a sign.
fn read_natural(s: &[u8]) -> Option<u64>
    ensures { result ≡ natural_of (read_nat s.now) }
{
    match s {
        [] | [b'0', _, ..] => None,
        _ => read_digits(s),
    }
}

// m as a signed number.
fn plus(m: u64) -> i64
    requires { m ≤ number_most }
    ensures { result ≡ pos m }
{
    m as i64
}

// -m.
fn minus(m: u64) -> i64
    requires { m ≤ number_most }
    ensures { result ≡ neg_ℤ (pos m) }
{
    -plus(m)
}

// A field as a decimal number, below zero led by `-`, with no plus, no leading zero and no -0;
// NUMBER_MOST and -NUMBER_MOST stand for all that is beyond them.
pub fn read_number(s: &[u8]) -> Option<i64>
    ensures { result ≡ number_of (read_int s.now) }
{
    match s {
        [b'-', digits @ ..] => match read_natural(digits)? {
            0 => None,
            m => Some(minus(m)),
        },
        _ => Some(plus(read_natural(s)?)),
    }
}

// Whether s holds the bytes of w.
pub fn same_bytes(s: &[u8], w: &[u8]) -> bool
    ensures { result ≡ same s.now w.now }
{
    s == w
}

// Writes s into out from `at` on, and answers the place behind it.
pub fn put_bytes(s: &[u8], out: &mut [u8], at: usize) -> usize
    requires { at + length s.now ≤ length out.old }
    ensures { Wrote at s.now out.old result out.new }
{
    let next = at + s.len();
    out[at..next].copy_from_slice(s);
    next
}

// Writes one byte.
pub fn put_byte(b: u8, out: &mut [u8], at: usize) -> usize
    requires { at < length out.old }
    ensures { Wrote at (b ∷ []) out.old result out.new }
{
    out[at] = b;
    at + 1
}

// Writes n's digits into out from `at` on, and answers the place behind them.
fn put_digits(n: u64, out: &mut [u8], at: usize) -> usize
    requires { at + length (decimal n) ≤ length out.old }
    ensures { Wrote at (decimal n) out.old result out.new }
{
    if n < 10 {
        out[at] = b'0' + n as u8;
        return at + 1;
    }
    let p = put_digits(n / 10, out, at);
    out[p] = b'0' + (n % 10) as u8;
    p + 1
}

// Writes a tab and a number.
pub fn put_number(z: i64, out: &mut [u8], at: usize) -> usize
    requires { at + length (9 ∷ int_text z) ≤ length out.old }
    ensures { Wrote at (9 ∷ int_text z) out.old result out.new }
{
    out[at] = b'\t';
    if z < 0 {
        out[at + 1] = b'-';
        return put_digits(z.unsigned_abs(), out, at + 2);
    }
    put_digits(z.unsigned_abs(), out, at + 1)
}

// Writes a tab and a count.
pub fn put_count(n: u64, out: &mut [u8], at: usize) -> usize
    requires { at + length (9 ∷ int_text (pos n)) ≤ length out.old }
    ensures { Wrote at (9 ∷ int_text (pos n)) out.old result out.new }
{
    let p = put_byte(b'\t', out, at);
    put_digits(n, out, p)
}
