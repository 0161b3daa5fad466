// The first question for a position: the zone that contains it, which is the first of its candidates that does.
#![tactic(auto)]

ghost use Rattle.std.specs.Prelude.{◌≡◌, ◌+◌, ◌<◌};
ghost use Rattle.reader_lookup.specs.Asking.{scaled, hit_at, first_hit, unlooked, lookup_by, lookup_of};
ghost use Rattle.reader_ways.specs.Ways.{way_of};

use answer::Answer;
use opened::Opened;
use plane::Point;
use reader_ways::Way;
use replies::Choice;

// Candidates in a row: of the candidate list, or all zones in order. How many, and the place of the first.
#[derive(Clone, Copy)]
pub struct Candidates {
    pub grid: bool,
    pub count: u32,
    pub from: u32,
    ghost fits: { from + count < 0x1_0000_0000 },
}

// A position in hundred-thousandths of a degree.
pub fn scaled_at(lng: f64, lat: f64) -> Point
    ensures { result ≡ scaled lng lat }
{
    Point {
        x: lng * 100_000.0,
        y: lat * 100_000.0,
    }
}

// Whether one candidate is answered unlooked-at.
fn is_unlooked(o: Opened, n: u32, lng: f64, lat: f64) -> bool
    ensures { result ≡ unlooked o n lng lat }
{
    (n == 1)
        & ((o.flags / 2 % 2 == 0)
            & (((-179.0 < lng) & (lng < 179.0)) & ((-89.0 < lat) & (lat < 89.0))))
}

// The candidate at a place, where it contains the point.
// kept: the flag stands beside the place as in the definition `hit_at`, which the demands cite.
#[tactic(auto, unfolding(crate::specs::Asking::hit_at, crate::specs::Asking::candidate_of))]
pub fn hit_at(
    way: Way<'_>,
    o: Opened,
    s: &[u8],
    p: Point,
    grid: bool,
    place: u32,
) -> Answer<Option<u32>>
    ensures { result ≡ hit_at (way_of way.entry) o s.now p grid place }
{
    let zone = if grid {
        reader_cells::candidate_at(o, s, place)?
    } else {
        place
    };
    let b = reader_zones::timezone_contains(way, o, s, p, zone as usize)?;
    if b { Ok(Some(zone)) } else { Ok(None) }
}

// The first of the candidates that contains the point.
#[tactic(auto, using(crate::proofs::AskingLaws::first_start, crate::proofs::AskingLaws::first_no, crate::proofs::AskingLaws::first_yes, crate::proofs::AskingLaws::first_on, crate::proofs::AskingLaws::first_end))]
fn first_in(way: Way<'_>, o: Opened, s: &[u8], p: Point, c: Candidates) -> Answer<Option<u32>>
    ensures { result ≡ first_hit (hit_at (way_of way.entry) o s.now p c.grid) c.count c.from }
{
    for place in c.from..c.from + c.count {
        if let Some(zone) = hit_at(way, o, s, p, c.grid, place)? {
            return Ok(Some(zone));
        }
    }
    Ok(None)
}

// The zone that a position lies in.
#[tactic(auto, unfolding(crate::specs::Asking::lookup_by, crate::specs::Asking::lookup_among))]
pub fn lookup_by(way: Way<'_>, o: Opened, s: &[u8], lng: f64, lat: f64) -> Answer<Option<u32>>
    ensures { result ≡ lookup_by (way_of way.entry) o s.now lng lat }
{
    let c = match reader_cells::candidates(o, s, lng, lat)? {
        Choice::None => return Ok(None),
        Choice::All(count) => Candidates {
            grid: false,
            count,
            from: 0,
        },
        Choice::Listed(count, from) => {
            if is_unlooked(o, count, lng, lat) {
                return Ok(Some(reader_cells::candidate_at(o, s, from)?));
            }
            Candidates {
                grid: true,
                count,
                from,
            }
        }
    };
    first_in(way, o, s, scaled_at(lng, lat), c)
}

// The same by the plain walk.
pub fn lookup(o: Opened, s: &[u8], lng: f64, lat: f64) -> Answer<Option<u32>>
    ensures { result ≡ lookup_of o s.now lng lat }
{
    lookup_by(Way::Plain, o, s, lng, lat)
}
