// The stripes of an opened file, built into lent numbers. First all is read and the numbers needed are added up, with every refusal; then it is read again and written.
// A group takes at most 16,777,733 numbers (5, 3 for each of 256 stripes, and each of 65,535 chunks in each of them), and there are fewer than 2^32 groups: no sum and no place wraps.
// kept: the lent numbers and the place behind what was put are two, and the place is handed back. Document 01: `Vec` is lent slices, `&mut inside` a returned value.
#![tactic(auto)]

ghost use Rattle.std.specs.Prelude.{◌≡◌, [], ◌∷◌, ◌+◌, ◌*◌, ◌≤◌, ◌<◌, length};
ghost use Rattle.answer.specs.Answers.{how_many, left};
ghost use Rattle.answer.specs.Over.{over};
ghost use Rattle.stripes.specs.Stripes.{chunks_in, stripes_from};
ghost use Rattle.stripes.specs.Numbers.{low, high, group_entry, group_entries, all_stripes, group_need, need_of};
ghost use Rattle.reader_stripes.specs.Building.{boxed_at, stripes_need, stripes_of};
ghost use Rattle.reader_stripes.specs.Steps.{gathered, weighed, added, up_to, box_at, depth_in, box_read, all_read, all_numbers, boxes_of, CutFrom, stripe_entry, Rooms, Striped};

mod cut;

use answer::Answer;
use boxes::BBox;
pub use cut::Cut;
use opened::Opened;
use stripes::Striping;

// Where the next stripe's entry goes, and where the next chunk number.
#[derive(Clone, Copy)]
pub struct Places {
    pub stripe: usize,
    pub chunk: usize,
}

// ---- the numbers needed

// How many chunk numbers chunk i of a group takes: 49 where its box leaves the group's and the group has stripes.
#[tactic(auto, unfolding(crate::specs::Steps::weighed, crate::specs::Steps::box_at, crate::specs::Steps::depth_in))]
fn chunk_need(o: Opened, s: &[u8], group: BBox, c: Cut, i: usize) -> Answer<u64>
    ensures { (result ≡ weighed (depth_in c.striping) (box_at o s.now group c.striping i)) × up_to c.striping.k result }
{
    let b = reader_records::chunk_at(o, s, i)?.bbox;
    if c.striping.k == 0 {
        return Ok(0);
    }
    answer::claim(49, stripes::within_height(group, b))?;
    Ok(u64::from(stripes::depth(c.striping, b)))
}

// How many numbers a group takes: its entry, its stripes' and all chunk numbers.
fn chunks_need(o: Opened, s: &[u8], group: BBox, c: Cut) -> Answer<u64>
    ensures { (result ≡ added (depth_in c.striping) (5 + 3 * c.striping.k) (gathered (box_at o s.now group c.striping) c.count c.first)) × up_to 16_777_733 result }
{
    let from = c.first as usize;
    let mut sum = 5 + 3 * u64::from(c.striping.k);
    for i in from..from + c.count as usize {
        sum += chunk_need(o, s, group, c, i)?;
    }
    Ok(sum)
}

fn group_need(o: Opened, s: &[u8], i: usize) -> Answer<u64>
    ensures { (result ≡ weighed group_need (boxed_at o s.now i)) × up_to 16_777_733 result }
{
    let g = reader_records::group_at(o, s, i)?;
    chunks_need(o, s, g.bbox, Cut::of(g.first, g.count, g.bbox))
}

// How many numbers the stripes of the file take.
pub fn stripes_need(o: Opened, s: &[u8]) -> Answer<u64>
    ensures { result ≡ stripes_need o s.now }
{
    let mut sum = 0;
    for i in 0..o.groups.count as usize {
        sum += group_need(o, s, i)?;
    }
    Ok(sum)
}

// ---- what is read again, once all is known to be in order: a refusal cannot come any more, and is read as nothing

const NOWHERE: BBox = BBox {
    minx: 0,
    miny: 0,
    maxx: 0,
    maxy: 0,
};

#[tactic(auto, unfolding(crate::specs::Steps::box_read))]
fn box_read(o: Opened, s: &[u8], i: usize) -> BBox
    ensures { result ≡ box_read o s.now i }
{
    reader_records::chunk_at(o, s, i).map_or(NOWHERE, |v| v.bbox)
}

fn cut_at(o: Opened, s: &[u8], i: usize) -> Cut
    ensures { CutFrom o s.now i result }
{
    match reader_records::group_at(o, s, i) {
        Ok(g) => Cut::of(g.first, g.count, g.bbox),
        Err(_) => Cut::of(0, 0, NOWHERE),
    }
}

// ---- entries

// The two halves of a place.
fn halves(place: usize) -> [u32; 2]
    ensures { result ≡ low place ∷ high place ∷ [] }
{
    [
        (place % 0x1_0000_0000) as u32,
        (place / 0x1_0000_0000) as u32,
    ]
}

// Numbers in a row, from a place on.
#[tactic(auto, using(crate::proofs::Laying::over_mid))]
fn put(numbers: &mut [u32], at: usize, row: &[u32])
    requires { at + length row.now ≤ length numbers.old }
    ensures { numbers.new ≡ over numbers.old at row.now }
{
    numbers[at..at + row.len()].copy_from_slice(row);
}

// A group's entry, whose stripes' entries start at that place.
#[tactic(auto, unfolding(stripes::specs::Numbers::group_entry))]
fn put_group(numbers: &mut [u32], at: usize, t: Striping, place: usize)
    requires { at + 5 ≤ length numbers.old }
    ensures { numbers.new ≡ over numbers.old at (group_entry t place) }
{
    if t.k == 0 {
        put(numbers, at, &[0; 5]);
        return;
    }
    let [low, high] = halves(place);
    put(
        numbers,
        at,
        &[t.least.cast_unsigned(), t.height, t.k, low, high],
    );
}

// A stripe's entry: where its chunk numbers start, and how many they are.
#[tactic(auto, unfolding(crate::specs::Steps::stripe_entry))]
fn put_stripe(numbers: &mut [u32], at: usize, from: usize, to: usize)
    requires { (at + 3 ≤ length numbers.old) × (from ≤ to) × (to < from + 0x1_0000_0000) }
    ensures { numbers.new ≡ over numbers.old at (stripe_entry from to) }
{
    let [low, high] = halves(from);
    put(numbers, at, &[low, high, (to - from) as u32]);
}

// ---- all entries and chunk numbers

// The groups' entries, from the first number on; where the chunk numbers start.
fn put_groups(o: Opened, s: &[u8], numbers: &mut [u32]) -> usize
    requires { 5 * o.groups.count ≤ length numbers.old }
    ensures { (result ≡ 5 * o.groups.count + 3 * length (all_stripes (all_read o s.now))) × (numbers.new ≡ over numbers.old 0 (group_entries (all_read o s.now) (5 * o.groups.count))) }
{
    let n = o.groups.count as usize;
    let mut place = 5 * n;
    for i in 0..n {
        let t = cut_at(o, s, i).striping;
        put_group(numbers, 5 * i, t, place);
        place += 3 * t.k as usize;
    }
    place
}

// The numbers of a group's chunks that stand in a stripe; the place behind them.
fn put_chunks(o: Opened, s: &[u8], c: Cut, stripe: u32, numbers: &mut [u32], from: usize) -> usize
    requires { (0 < c.striping.k) × (from + length (chunks_in c.striping stripe 0 (boxes_of o s.now c)) ≤ length numbers.old) }
    ensures { (result ≡ from + length (chunks_in c.striping stripe 0 (boxes_of o s.now c))) × (result < from + 0x1_0000_0000) × (numbers.new ≡ over numbers.old from (chunks_in c.striping stripe 0 (boxes_of o s.now c))) }
{
    let first = c.first as usize;
    let mut at = from;
    for j in 0..c.count {
        let b = box_read(o, s, first + j as usize);
        if stripes::stands_in(c.striping, stripe, b) {
            numbers[at] = j;
            at += 1;
        }
    }
    at
}

// A stripe: its chunk numbers and its entry.
fn put_one(o: Opened, s: &[u8], c: Cut, stripe: u32, numbers: &mut [u32], p: Places) -> Places
    requires { (0 < c.striping.k) × Rooms numbers.old p (chunks_in c.striping stripe 0 (boxes_of o s.now c) ∷ []) }
    ensures { Striped numbers.old p (chunks_in c.striping stripe 0 (boxes_of o s.now c) ∷ []) result numbers.new }
{
    let to = put_chunks(o, s, c, stripe, numbers, p.chunk);
    put_stripe(numbers, p.stripe, p.chunk, to);
    Places {
        stripe: p.stripe + 3,
        chunk: to,
    }
}

// The stripes of a group.
fn put_stripes(o: Opened, s: &[u8], c: Cut, numbers: &mut [u32], p: Places) -> Places
    requires { Rooms numbers.old p (stripes_from c.striping (boxes_of o s.now c) c.striping.k 0) }
    ensures { Striped numbers.old p (stripes_from c.striping (boxes_of o s.now c) c.striping.k 0) result numbers.new }
{
    let mut q = p;
    for i in 0..c.striping.k {
        q = put_one(o, s, c, i, numbers, q);
    }
    q
}

// All numbers: the groups' entries, then the stripes' and the chunk numbers, group by group.
fn put_all(o: Opened, s: &[u8], numbers: &mut [u32])
    requires { need_of (all_read o s.now) ≤ length numbers.old }
    ensures { numbers.new ≡ over numbers.old 0 (all_numbers o s.now) }
{
    let n = o.groups.count as usize;
    let mut q = Places {
        stripe: 5 * n,
        chunk: put_groups(o, s, numbers),
    };
    for i in 0..n {
        let c = cut_at(o, s, i);
        q = put_stripes(o, s, c, numbers, q);
    }
}

// The stripes of the file into lent numbers: how many were written. A refusal leaves the lent numbers as they were; those behind are never touched: all is read and added up before the first is written.
pub fn stripes(o: Opened, s: &[u8], numbers: &mut [u32]) -> Answer<u64>
    ensures result_value { result ≡ how_many (stripes_of o s.now (length numbers.old)) }
    ensures memory { numbers.new ≡ left numbers.old (stripes_of o s.now (length numbers.old)) }
{
    let n = stripes_need(o, s)?;
    answer::claim(46, n <= numbers.len() as u64)?;
    put_all(o, s, numbers);
    Ok(n)
}
