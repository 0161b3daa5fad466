// Containment: polygons and zones over their rings, and a whole-number point in one zone.
#![tactic(auto)]

ghost use Rattle.std.specs.Prelude.{◌≡◌, true, false, ◌+◌, ◌-◌, ◌<◌};
ghost use Rattle.reader_zones.specs.Zones.{holes_out, poly_inside, poly_of, zone_by, contains_by, contains_at, first_so};
ghost use Rattle.reader_ways.specs.Ways.{way_of};
ghost use Rattle.plane.specs.Places.{point};

use answer::Answer;
use opened::Opened;
use plane::{I32Point, Point};
use reader_records::ListRecord;
use reader_ways::Way;

// Whether the point is in none of the holes: the rings from `from` on, `count` with the outer one.
#[tactic(auto, using(crate::proofs::ZonesLaws::seek_start, crate::proofs::ZonesLaws::seek_no, crate::proofs::ZonesLaws::seek_yes, crate::proofs::ZonesLaws::seek_on, crate::proofs::ZonesLaws::seek_end))]
fn holes_out(way: Way<'_>, o: Opened, s: &[u8], p: Point, count: u16, from: usize) -> Answer<bool>
    requires { from < 0x2_0000_0000 }
    ensures { result ≡ holes_out (way_of way.entry) o s.now p (count - 1) from }
{
    for i in from..from + usize::from(count.saturating_sub(1)) {
        if reader_rings::ring_contains(way, o, s, p, false, i)? {
            return Ok(false);
        }
    }
    Ok(true)
}

// Whether a polygon contains the point, which lies in its box: its first ring does, and no hole.
fn poly_inside(way: Way<'_>, o: Opened, s: &[u8], p: Point, q: ListRecord) -> Answer<bool>
    ensures { result ≡ poly_inside (way_of way.entry) o s.now p q }
{
    let from = q.first as usize;
    if reader_rings::ring_contains(way, o, s, p, true, from)? {
        holes_out(way, o, s, p, q.count, from + 1)
    } else {
        Ok(false)
    }
}

// Whether one of the polygons does. Its box is tested first, before anything is called.
#[tactic(auto, using(crate::proofs::ZonesLaws::seek_start, crate::proofs::ZonesLaws::seek_no, crate::proofs::ZonesLaws::seek_yes, crate::proofs::ZonesLaws::seek_on, crate::proofs::ZonesLaws::seek_end), unfolding(crate::specs::Zones::poly_of, reader_records::specs::Records::poly_at))]
fn polys_from(way: Way<'_>, o: Opened, s: &[u8], p: Point, count: u16, from: usize) -> Answer<bool>
    requires { from < 0x1_0000_0000 }
    ensures { result ≡ first_so (poly_of (way_of way.entry) o s.now p) true false count from }
{
    let off = o.polys.off;
    let all = o.polys.count;
    let below = o.rings.count;
    for i in from..from + usize::from(count) {
        let q = reader_records::list_at(s, off, all, below, i)?;
        if q.bbox.contains(p) && poly_inside(way, o, s, p, q)? {
            return Ok(true);
        }
    }
    Ok(false)
}

// Whether zone `index` contains the point. Its two numbers are read one by one, so that they are handed over in registers: stored one by one and read as one, they would be waited for.
#[tactic(auto, unfolding(crate::specs::Zones::zone_by))]
pub fn timezone_contains(way: Way<'_>, o: Opened, s: &[u8], p: Point, index: usize) -> Answer<bool>
    ensures { result ≡ zone_by (way_of way.entry) o s.now p index }
{
    let p = Point { x: p.x, y: p.y };
    let z = reader_records::tz_at(o, s, index)?;
    if z.bbox.contains(p) {
        polys_from(way, o, s, p, z.count, z.first as usize)
    } else {
        Ok(false)
    }
}

// Whether the zone contains the point of whole numbers: a zone number too large is 45, then a point outside the domain is no.
#[tactic(auto, unfolding(crate::specs::Zones::contains_by, answer::specs::Checks::claim))]
pub fn contains_by(way: Way<'_>, o: Opened, s: &[u8], zone: u32, x: i32, y: i32) -> Answer<bool>
    ensures { result ≡ contains_by (way_of way.entry) o s.now zone (point x y) }
{
    answer::claim(45, zone < o.zones.count)?;
    let q = I32Point { x, y };
    if boxes::point_in_domain(q) {
        timezone_contains(way, o, s, tzb_core::raycast::to_point(q), zone as usize)
    } else {
        Ok(false)
    }
}

// The same by the plain walk.
pub fn contains(o: Opened, s: &[u8], zone: u32, x: i32, y: i32) -> Answer<bool>
    ensures { result ≡ contains_at o s.now zone (point x y) }
{
    contains_by(Way::Plain, o, s, zone, x, y)
}
