// A group's chunks, walked plainly or by stripes: for any opened record, any bytes and any numbers.
#![tactic(auto)]

ghost use Rattle.std.specs.Prelude.{◌≡◌, ◌+◌, ◌*◌, ◌<◌};
ghost use Rattle.std.specs.Int.{w32};
ghost use Rattle.std.proofs.Common.{to_z};
ghost use Rattle.reader_ways.specs.Ways.{way_of, entry_at, stripe_at, height_of, numbered, numbered_from, stripe_walk, striped_scan, group_scan_by};

use answer::{Answer, Walk, Walked};
use opened::Opened;
use plane::Point;
use reader_records::GroupRecord;
use stripes::Striping;

// A group's entry in the numbers: how it is cut, and where its stripes' entries start.
#[derive(Clone, Copy)]
pub struct Entry {
    pub striping: Striping,
    pub first: usize,
}

// A stripe's entry: where its chunk numbers start, and how many there are.
#[derive(Clone, Copy)]
pub struct Stripe {
    pub first: usize,
    pub count: u32,
}

// Which way a group's chunks are walked: plainly, or by the stripes that these numbers say.
#[derive(Clone, Copy)]
pub enum Way<'a> {
    Plain,
    Striped(&'a [u32]),
}

// The place that two numbers say, low half first.
fn place_of(low: u32, high: u32) -> usize
    ensures { result ≡ low + 0x1_0000_0000 * high }
{
    low as usize + 0x1_0000_0000 * (high as usize)
}

// Group i's entry.
#[tactic(auto, unfolding(crate::specs::Ways::entry_at, crate::specs::Ways::entry_in))]
fn entry_at(numbers: &[u32], i: usize) -> Answer<Entry>
    ensures { result ≡ entry_at numbers.now i }
{
    if numbers.len() / 5 <= i {
        return answer::fail(44);
    }
    let at = 5 * i;
    let striping = Striping {
        least: numbers[at].cast_signed(),
        height: numbers[at + 1],
        k: numbers[at + 2],
    };
    Ok(Entry {
        striping,
        first: place_of(numbers[at + 3], numbers[at + 4]),
    })
}

// The entry of a stripe, of those that start at that place.
#[tactic(auto, unfolding(crate::specs::Ways::stripe_at, crate::specs::Ways::stripe_in))]
fn stripe_at(numbers: &[u32], first: usize, stripe: u32) -> Answer<Stripe>
    ensures { result ≡ stripe_at numbers.now first stripe }
{
    if numbers.len() < first {
        return answer::fail(44);
    }
    let past = 3 * (stripe as usize);
    if numbers.len() - first < past + 3 {
        return answer::fail(44);
    }
    let at = first + past;
    Ok(Stripe {
        first: place_of(numbers[at], numbers[at + 1]),
        count: numbers[at + 2],
    })
}

// A point's height: the greatest whole number at or below its y; 0 outside the domain's heights.
fn height_of(y: f64) -> i32
    ensures { result ≡ height_of y }
{
    if (-9_000_000.0 <= y) & (y <= 9_000_000.0) {
        floors::floor(y) as i32
    } else {
        0
    }
}

// A chunk by its number within the group.
#[tactic(auto, unfolding(crate::specs::Ways::numbered, answer::specs::Checks::claim))]
fn numbered(o: Opened, s: &[u8], p: Point, g: GroupRecord, c: u32) -> Walk<()>
    ensures { result ≡ numbered o s.now p g c }
{
    let at = c as usize;
    let count = usize::from(g.count);
    answer::claim(34, at < count)?;
    reader_groups::scan_alone(o, s, p, g.exit, at + 1 < count, g.first as usize + at)
}

// The chunks of so many numbers from a place on, as they stand.
fn numbered_from(
    o: Opened,
    s: &[u8],
    p: Point,
    g: GroupRecord,
    numbers: &[u32],
    count: u32,
    first: usize,
) -> Walk<()>
    ensures { result ≡ numbered_from o s.now p g numbers.now count first }
{
    let mut odd = false;
    for i in 0..count {
        let at = first + i as usize;
        if numbers.len() <= at {
            return answer::fail(44);
        }
        match numbered(o, s, p, g, numbers[at])? {
            Walked::On => return Ok(Walked::On),
            Walked::Off(b, ()) => odd = answer::plus(odd, b),
        }
    }
    Ok(Walked::Off(odd, ()))
}

// By an entry with stripes: the chunks of the stripe that the point's height lies in.
#[tactic(auto, unfolding(crate::specs::Ways::stripe_walk, answer::specs::Checks::claim))]
fn stripe_walk(o: Opened, s: &[u8], p: Point, g: GroupRecord, numbers: &[u32], e: Entry) -> Walk<()>
    requires { 0 < e.striping.k }
    ensures { result ≡ stripe_walk o s.now p g numbers.now e }
{
    answer::claim(34, 0 < e.striping.height)?;
    let stripe = stripes::stripe_of(e.striping, height_of(p.y));
    let t = stripe_at(numbers, e.first, stripe)?;
    numbered_from(o, s, p, g, numbers, t.count, t.first)
}

// Group i by its entry; plainly where it has no stripes.
#[tactic(auto, unfolding(crate::specs::Ways::striped_scan))]
fn striped_scan(
    numbers: &[u32],
    o: Opened,
    s: &[u8],
    p: Point,
    i: usize,
    g: GroupRecord,
) -> Walk<()>
    ensures { result ≡ striped_scan numbers.now o s.now p i g }
{
    let e = entry_at(numbers, i)?;
    if e.striping.k == 0 {
        return reader_groups::scan_group(o, s, p, g);
    }
    stripe_walk(o, s, p, g, numbers, e)
}

// Past all chunks of a group, which has that index.
#[tactic(auto, unfolding(crate::specs::Ways::group_scan_by))]
pub fn scan_by(
    way: Way<'_>,
    o: Opened,
    s: &[u8],
    p: Point,
    index: usize,
    g: GroupRecord,
) -> Walk<()>
    ensures { result ≡ group_scan_by (way_of way.entry) o s.now p index g }
{
    match way {
        Way::Plain => reader_groups::scan_group(o, s, p, g),
        Way::Striped(numbers) => striped_scan(numbers, o, s, p, index, g),
    }
}
