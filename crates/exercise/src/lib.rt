// A whole exercise at once: one call looks many points up, each on its own day, in one group.
#![tactic(auto)]

ghost use Rattle.std.specs.Prelude.{◌≡◌, ◌+◌, ◌*◌, ◌≤◌, eqb, length, Ok};
ghost use Rattle.std.proofs.lemmas.List.Edits.{sets};
ghost use Rattle.abi.specs.Abi.{group_of_words};
ghost use Rattle.judge.specs.Judge.{judged};
ghost use Rattle.lookup.specs.Lookup.{looked};
ghost use Rattle.flat.specs.Lists.{Framed};
ghost use Rattle.group.specs.Numbers.{grids_most};
ghost use Rattle.lookup.specs.Flat.{Laid};
ghost use Rattle.exercise.specs.Exercise.{many_verdict, many_judged, answer_at, results_after, columns_agree, columns_after, answer_words};
ghost use Rattle.exercise.specs.Tables.{Tabled, CallJudged, CallReady, scale_for, no_scale, stored_numbers};

use abi::GROUP_WORDS;
use fix::Fix;
use flat::ROWS;
use group::{GRIDS_MOST, Group, Latitude, Longitude, Point, Position, Refusal};
use lookup::Answer;

// The numbers of an answer in a list of them.
const ANSWER_WORDS: usize = 6;

// What a call for many points looks each of them up by, made once: the rows by rank with their owners and shifts, how many there are, and
// the frames of all grids.
#[derive(Clone, Copy)]
pub struct Tables {
    pub rows: [u64; ROWS * 4],
    pub owners: [u64; ROWS],
    pub shifts: [u64; ROWS],
    pub count: usize,
    pub frames: [u64; flat::FRAMES],
}

// Tables of zeros, for `judge_call` to fill.
pub const NO_TABLES: Tables = Tables {
    rows: [0; ROWS * 4],
    owners: [0; ROWS],
    shifts: [0; ROWS],
    count: 0,
    frames: [0; flat::FRAMES],
};

// A day outside the limit, which stands for none: its scale is a true one, so that no Option is needed.
const NO_DAY: i64 = group::DAY_MOST + 1;

// A day and its factor, in millionths, which is 0 on a day outside the limit.
#[derive(Clone, Copy)]
pub struct Scale {
    pub day: i64,
    pub factor: i64,
}

// The scale before the first point.
pub fn no_scale() -> Scale
    ensures { result ≡ no_scale }
{
    Scale {
        day: NO_DAY,
        factor: 0,
    }
}

// The scale of a day: that of the point before if it has the same day, else worked out anew.
pub fn scale_on(words: &[i64; GROUP_WORDS], before: Scale, day: i64) -> Scale
    requires { (judged (group_of_words words.now) ≡ Ok tt) × (before ≡ scale_for (group_of_words words.now) before.day) }
    ensures { result ≡ scale_for (group_of_words words.now) day }
{
    if day == before.day {
        return before;
    }
    if !lookup::day_fits(day) {
        return Scale { day, factor: 0 };
    }
    Scale {
        day,
        factor: lookup::factor_on(words, abi::function_count(words), day),
    }
}

// Fills the tables of an accepted group, whose frames stand in them, from its other lists.
fn fill_tables(words: &[i64; GROUP_WORDS], sides: &[u64], ranks: &[u64], tables: &mut Tables)
    requires { (judged (group_of_words words.now) ≡ Ok tt) × Laid (group_of_words words.now) sides.now ranks.now tables.old.frames }
    ensures { Tabled (group_of_words words.now) tables.new }
{
    let n = abi::grid_count(words) as usize;
    tables.count = flat::rank_rows(
        sides,
        &ranks[..n],
        &mut tables.rows,
        &mut tables.owners,
        &mut tables.shifts,
    );
}

// Refusals 12, unless the lengths agree, and 13 of a call for many points in an accepted group.
fn judge_rest(
    words: &[i64; GROUP_WORDS],
    frames: &[u64],
    nodes: usize,
    agree: bool,
) -> Result<(), Refusal>
    requires { (judged (group_of_words words.now) ≡ Ok tt) × Framed (group_of_words words.now) (group_of_words words.now).grids frames.now
        × (grids_most * 7 ≤ length frames.now) }
    ensures { result ≡ many_judged (group_of_words words.now) nodes agree }
{
    if !agree {
        return Err(Refusal {
            number: 12,
            place: 0,
        });
    }
    lookup::judge_nodes(words, frames, nodes)
}

// Refusals 2 to 5, 12 and 13 of a call for many points; if there is none, the tables by which it is answered are filled. They are lent: in a
// Result they would be copied, which a call for few points would feel.
pub fn judge_call(
    words: &[i64; GROUP_WORDS],
    nodes: usize,
    agree: bool,
    tables: &mut Tables,
) -> Result<(), Refusal>
    ensures { CallJudged (group_of_words words.now) nodes agree result tables.new }
{
    let mut sides = [0u64; flat::SIDES];
    let mut ranks = [0u64; GRIDS_MOST];
    judge::judge_into(words, &mut sides, &mut ranks, &mut tables.frames)?;
    judge_rest(words, &tables.frames, nodes, agree)?;
    fill_tables(words, &sides, &ranks, tables);
    Ok(())
}

// The lookup of a point on the day of a scale, by the tables of an accepted call: refusal 6, 9, 7 or 8, or the fix.
fn look_ready(
    words: &[i64; GROUP_WORDS],
    tables: &Tables,
    nodes: &[i32],
    scale: Scale,
    point: Point,
) -> Result<Fix, Refusal>
    requires { CallReady (group_of_words words.now) (length nodes.now) tables.now × (scale ≡ scale_for (group_of_words words.now) scale.day) }
    ensures { result ≡ looked (group_of_words words.now) nodes.now point scale.day }
{
    if !lookup::point_fits(point) {
        return Err(Refusal {
            number: 6,
            place: 0,
        });
    }
    if !lookup::day_fits(scale.day) {
        return Err(Refusal {
            number: 9,
            place: 0,
        });
    }
    let x = extent::lon_from_least(point.lon);
    let y = extent::lat_from_least(point.lat);
    lookup::look_ranked(
        &tables.rows,
        &tables.owners,
        &tables.shifts,
        &tables.frames,
        tables.count,
        abi::parameter_count(words),
        nodes,
        scale.factor,
        x,
        y,
    )
}

// The answer at a position, whose day has this scale, by the tables of an accepted call.
fn look_one(
    words: &[i64; GROUP_WORDS],
    tables: &Tables,
    nodes: &[i32],
    scale: Scale,
    position: Position,
) -> Answer
    requires { CallReady (group_of_words words.now) (length nodes.now) tables.now × (scale ≡ scale_for (group_of_words words.now) position.day) }
    ensures { result ≡ answer_at (group_of_words words.now) nodes.now position }
{
    let point = Point {
        lon: position.lon,
        lat: position.lat,
    };
    lookup::answer_of(look_ready(words, tables, nodes, scale, point))
}

// `lookup_many` over a group handed over as a list of numbers.
pub fn many_words(
    words: &[i64; GROUP_WORDS],
    nodes: &[i32],
    points: &[Position],
    results: &mut [Answer],
) -> Result<(), Refusal>
    ensures { (result ≡ many_verdict (group_of_words words.now) (length nodes.now)
        (eqb (length points.now) (length results.old)))
        × (results.new ≡ results_after (group_of_words words.now) nodes.now points.now results.old) }
{
    let mut tables = NO_TABLES;
    let agree = points.len() == results.len();
    judge_call(words, nodes.len(), agree, &mut tables)?;
    let mut scale = no_scale();
    for (i, p) in points.iter().enumerate() {
        scale = scale_on(words, scale, p.day);
        results[i] = look_one(words, &tables, nodes, scale, *p);
    }
    Ok(())
}

// Looks every point of a list up, each on its own day: result k becomes what the single lookup of point k answers, refusals
// included. The first refusal of 2 to 5 (the group), 12 (the lists differ in length) and 13 (the node list ends before some grid's
// range does) refuses the whole call and leaves all results as they were. No points is a valid call.
pub fn lookup_many(
    group: Group,
    nodes: &[i32],
    points: &[Position],
    results: &mut [Answer],
) -> Result<(), Refusal>
    ensures { (result ≡ many_verdict group (length nodes.now) (eqb (length points.now) (length results.old)))
        × (results.new ≡ results_after group nodes.now points.now results.old) }
{
    let words = abi::numbers_of(group);
    many_words(&words, nodes, points, results)
}

// Stores the numbers of answer k.
fn store_answer(results: &mut [i64], k: usize, a: Answer)
    requires { k * answer_words + answer_words ≤ length results.old }
    ensures { results.new ≡ sets results.old (k * answer_words) (stored_numbers a) }
{
    let numbers = [
        abi::as_stored(a.number),
        abi::as_stored(a.place),
        a.grid,
        a.first,
        a.second,
        a.third,
    ];
    abi::store_numbers(results, k * ANSWER_WORDS, &numbers);
}

// Whether three columns have the same length, and the results six times that.
fn columns_agree(lons: usize, lats: usize, days: usize, results: usize) -> bool
    ensures { result ≡ columns_agree lons lats days results }
{
    let whole = (results / ANSWER_WORDS == lons) & (results % ANSWER_WORDS == 0);
    ((lats == lons) & (days == lons)) & whole
}

// `lookup_columns` over a group handed over as a list of numbers.
pub fn columns_words(
    words: &[i64; GROUP_WORDS],
    nodes: &[i32],
    lons: &[i64],
    lats: &[i64],
    days: &[i64],
    results: &mut [i64],
) -> Result<(), Refusal>
    ensures { (result ≡ many_verdict (group_of_words words.now) (length nodes.now)
        (columns_agree (length lons.now) (length lats.now) (length days.now) (length results.old)))
        × (results.new ≡ columns_after (group_of_words words.now) nodes.now
        lons.now lats.now days.now results.old) }
{
    let agree = columns_agree(lons.len(), lats.len(), days.len(), results.len());
    let mut tables = NO_TABLES;
    judge_call(words, nodes.len(), agree, &mut tables)?;
    let mut scale = no_scale();
    for i in 0..lons.len() {
        let day = days[i];
        let p = Position {
            lon: Longitude(lons[i]),
            lat: Latitude(lats[i]),
            day,
        };
        scale = scale_on(words, scale, day);
        store_answer(results, i, look_one(words, &tables, nodes, scale, p));
    }
    Ok(())
}

// The call `lookup_many` over plain numbers: the points as three columns, longitudes and latitudes in mas and days, and the results as
// six numbers a point, the refusal's number and place, the grid's number and three results in steps. Refusals and lent memory are
// those of `lookup_many`; 12 comes unless the columns have one length and the results six times that.
pub fn lookup_columns(
    group: Group,
    nodes: &[i32],
    lons: &[i64],
    lats: &[i64],
    days: &[i64],
    results: &mut [i64],
) -> Result<(), Refusal>
    ensures { (result ≡ many_verdict group (length nodes.now)
        (columns_agree (length lons.now) (length lats.now) (length days.now) (length results.old)))
        × (results.new ≡ columns_after group nodes.now lons.now lats.now days.now results.old) }
{
    let words = abi::numbers_of(group);
    columns_words(&words, nodes, lons, lats, days, results)
}
