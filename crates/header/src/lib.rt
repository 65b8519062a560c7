// The header text: reading a group and writing it.
#![tactic(auto)]

ghost use Rattle.std.specs.Prelude.{◌≡◌, ℕ, ◌+◌, ◌^◌, ◌≤◌, ◌<◌, List, [], ◌∷◌, ◌++◌, length, drop, All, Result, Ok, ⊤};
ghost use Rattle.group.specs.Numbers.{name_most, functions_most, grids_most};
ghost use Rattle.group.specs.declared.Refusal.{Refusal};
ghost use Rattle.abi.specs.Abi.{group_of_words};
ghost use Rattle.text.specs.Parts.{split};
ghost use Rattle.text.specs.Wrote.{Wrote};
ghost use Rattle.judge.specs.Judge.{judged};
ghost use Rattle.line.specs.Lines.{function_line, function_text, grid_line, grid_text};
ghost use Rattle.header.specs.Items.{read_items, closed, Are};
ghost use Rattle.header.specs.Whole.{lines_reading, grid_lines, read_entries_of, read_lines, header_text};
ghost use Rattle.header.specs.Header.{read_header, written, bytes_after};

use abi::GROUP_WORDS;
use group::{Function, Grid, Group, Refusal};
use line::Head;

// What stands on a line of its own behind the group line.
trait Entry: Copy {
    // What line n is read as, the text of an entry, and which entries have one.
    ghost read_line: { ℕ → List ℕ → Result Self Refusal };

    ghost text: { Self → List ℕ };

    ghost HasText: { Self → Type 0 };

    fn read(line: &[u8], n: u64) -> Result<Self, Refusal>
        ensures { result ≡ read_line n line.now };

    fn put(self, out: &mut [u8], at: usize) -> usize
        requires { HasText self × (at + length (text self ++ (10 ∷ [])) ≤ length out.old) }
        ensures { Wrote at (text self ++ (10 ∷ [])) out.old result out.new };
}

impl Entry for Function {
    ghost read_line = { function_line };

    ghost text = { function_text };

    ghost HasText = { λ f. ⊤ };

    fn read(line: &[u8], n: u64) -> Result<Function, Refusal> {
        line::function_line(line, n)
    }

    fn put(self, out: &mut [u8], at: usize) -> usize {
        line::put_function(self, out, at)
    }
}

impl Entry for Grid {
    ghost read_line = { grid_line };

    ghost text = { grid_text };

    ghost HasText = { λ g. g.name.len ≤ name_most };

    fn read(line: &[u8], n: u64) -> Result<Grid, Refusal> {
        line::grid_line(line, n)
    }

    fn put(self, out: &mut [u8], at: usize) -> usize {
        line::put_grid(self, out, at)
    }
}

// Reads all these entries from the lines from `first` on, which begins at `at`, and answers the place behind the last.
fn read_each<T: Entry>(
    text: &[u8],
    at: usize,
    first: u64,
    entries: &mut [T],
) -> Result<usize, Refusal>
    requires { (at ≤ length text.now) × (first + length entries.old < 2 ^ 64) }
    ensures { Are text.now (read_items T.read_line (length entries.old) first (split 10 (drop at text.now))) entries.new result }
{
    let mut next = at;
    for (k, entry) in entries.iter_mut().enumerate() {
        let n = first + k as u64;
        let e = text::find_from(text, next, 10);
        if e == text.len() {
            return Err(Refusal {
                number: 1,
                place: n,
            });
        }
        *entry = T::read(&text[next..e], n)?;
        next = e + 1;
    }
    Ok(next)
}

// The lines behind the group line, from `at` on.
fn read_entries(text: &[u8], at: usize, head: Head) -> Result<Group, Refusal>
    requires { (at ≤ length text.now) × ((head.functions ≤ functions_most) × (head.grids ≤ grids_most)) }
    ensures { result ≡ lines_reading (read_entries_of function_line grid_lines head (split 10 (drop at text.now))) }
{
    let mut function = [group::blank_function(); group::FUNCTIONS_MOST];
    let next = read_each(text, at, 2, &mut function[..head.functions as usize])?;
    let mut grid = [group::blank_grid(); group::GRIDS_MOST];
    let end = read_each(
        text,
        next,
        2 + head.functions,
        &mut grid[..head.grids as usize],
    )?;
    if end != text.len() {
        return Err(Refusal {
            number: 1,
            place: 2 + head.functions + head.grids,
        });
    }
    Ok(Group {
        name: head.name,
        unit: head.unit,
        quantum: head.quantum,
        parameters: head.parameters,
        functions: head.functions,
        grids: head.grids,
        function,
        grid,
    })
}

// The lines of a text: refusals 1 and 2.
fn read_lines(text: &[u8]) -> Result<Group, Refusal>
    ensures { result ≡ lines_reading (read_lines text.now) }
{
    let e = text::find_from(text, 0, 10);
    if e == text.len() {
        return Err(Refusal {
            number: 1,
            place: 1,
        });
    }
    let head = line::group_line(&text[..e])?;
    read_entries(text, e + 1, head)
}

// Reads a header. Refusal 1 or 2 names the first faulty line; 3, 4 and 5, of a text whose lines are all right, name a grid.
pub fn read_header(text: &[u8]) -> Result<Group, Refusal>
    ensures { result ≡ read_header text.now }
{
    let group = read_lines(text)?;
    judge::judge(group)?;
    Ok(group)
}

// Writes entries, a line each.
fn put_each<T: Entry>(entries: &[T], out: &mut [u8], at: usize) -> usize
    requires texts { All T.HasText entries.now }
    requires room { at + length (closed T.text entries.now) ≤ length out.old }
    ensures { Wrote at (closed T.text entries.now) out.old result out.new }
{
    let mut next = at;
    for entry in entries {
        next = entry.put(out, next);
    }
    next
}

// Writes the text of an accepted group.
fn put_group(group: Group, out: &mut [u8]) -> usize
    requires { (judged group ≡ Ok tt) × (length (header_text group) ≤ length out.old) }
    ensures { Wrote 0 (header_text group) out.old result out.new }
{
    let head = Head {
        name: group.name,
        unit: group.unit,
        quantum: group.quantum,
        parameters: group.parameters,
        functions: group.functions,
        grids: group.grids,
    };
    let p = line::put_head(head, out, 0);
    let q = put_each(&group.function[..group.functions as usize], out, p);
    put_each(&group.grid[..group.grids as usize], out, q)
}

// Writes a group of this verdict, as `write_header` says.
fn write_judged(
    verdict: Result<(), Refusal>,
    group: Group,
    out: &mut [u8],
) -> Result<usize, Refusal>
    requires { verdict ≡ judged group }
    ensures answer { result ≡ written group (length out.old) }
    ensures bytes { out.new ≡ bytes_after group out.old }
{
    verdict?;
    let mut bytes = [0u8; 6732];
    let n = put_group(group, &mut bytes);
    if out.len() < n {
        return Err(Refusal {
            number: 12,
            place: 0,
        });
    }
    line::put_front(&bytes, n, out, 0);
    Ok(n)
}

// Writes a group handed over as a list of numbers, as `write_header` says.
pub fn write_words(words: &[i64; GROUP_WORDS], out: &mut [u8]) -> Result<usize, Refusal>
    ensures answer { result ≡ written (group_of_words words.now) (length out.old) }
    ensures bytes { out.new ≡ bytes_after (group_of_words words.now) out.old }
{
    write_judged(judge::judge_words(words), abi::group_of_words(words), out)
}

// Writes a group as header text and answers the count of bytes, at most 6732; what stands behind them stays. A group that isn't
// accepted is refused by 2 to 5, then an output that is too short by 12; nothing is written then.
pub fn write_header(group: Group, out: &mut [u8]) -> Result<usize, Refusal>
    ensures answer { result ≡ written group (length out.old) }
    ensures bytes { out.new ≡ bytes_after group out.old }
{
    write_judged(judge::judge(group), group, out)
}
