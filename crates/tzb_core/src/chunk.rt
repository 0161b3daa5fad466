// Chunk code: the points of one chunk's bytes, the scan of its segments, their count, and the trace of a box. The bytes s are that chunk's own.
ghost use Rattle.std.specs.Prelude.{◌≡◌, ◌+◌, ◌*◌, ◌<◌, ◌≤◌, true, ◌||◌, ◌∷◌, length, slice_set};
ghost use Rattle.answer.specs.Answers.{about, outcome};
ghost use Rattle.answer.specs.Checks.{claim};
ghost use Rattle.varints.specs.Varint.{at_end};
ghost use Rattle.plane.specs.Domain.{in_domain};
ghost use Rattle.boxes.specs.Box.{in_box};
ghost use Rattle.chunks.specs.Points.{numbers_at, moved_by, must_lie, first_of, next_at};
ghost use Rattle.rays.specs.Ray.{ray_of};
ghost use Rattle.chunks.specs.Scan.{scan_of};
ghost use Rattle.chunks.specs.Along.{along};
ghost use Rattle.chunks.specs.Trace.{also, tracer, trace_of};
ghost use Rattle.chunks.specs.Count.{with_side, counter, count_of};
ghost use Rattle.chunks.specs.Decode.{led, filled, decode_of, decoded};
ghost use Rattle.tzb_core.specs.Steps.{Around, both_below, both_above, aside};
ghost use Rattle.chunks.specs.Steps.{onward, points_from, put, read_from};

use crate::varint::Place;
use crate::{delta, raycast};
use answer::{Answer, Walk, Walked};
use boxes::BBox;
use plane::{I32Point, Point, Seen};

// Heights around a point: one below lo is below the point, and one above hi is above it.
#[derive(Clone, Copy)]
struct Band {
    lo: i32,
    hi: i32,
}

// Two numbers, x and y, where y starts, and the place after both. Taken into every loop that reads points: called, it costs half as much again.
#[tactic(auto, using(chunks::proofs::PointsLaws::numbers_first, chunks::proofs::PointsLaws::numbers_second, chunks::proofs::PointsLaws::numbers_both))]
#[inline(always)]
fn numbers(s: &[u8], at: Place) -> Answer<(I32Point, Place, Place)>
    ensures { result ≡ numbers_at s.now at }
{
    let (x, n) = at.varint(s)?;
    let (y, m) = n.varint(s)?;
    Ok((I32Point { x, y }, n, m))
}

// A delta added to the point q, x before y; its numbers stand at the places i and j. A sum that i32 does not hold is refused at its number.
#[tactic(auto, using(crate::proofs::NextRead::moved_x))]
fn moved_by(q: I32Point, d: I32Point, i: Place, j: Place) -> Answer<I32Point>
    ensures { result ≡ moved_by q d i j }
{
    let x = i.about(delta::add_delta(q.x, d.x))?;
    let y = j.about(delta::add_delta(q.y, d.y))?;
    Ok(I32Point { x, y })
}

// A point that must lie in the domain, whose y stands at the place j, and the place n after it.
#[tactic(auto, using(crate::proofs::NextRead::lies, crate::proofs::NextRead::lies_not))]
fn inside_at(q: I32Point, j: Place, n: Place) -> Answer<(I32Point, Place)>
    ensures { result ≡ must_lie q j n }
{
    j.about(answer::claim(42, boxes::point_in_domain(q)))?;
    Ok((q, n))
}

// The first point of a chunk, read alone, and the place after it.
#[tactic(auto, using(chunks::proofs::PointsLaws::first_no, chunks::proofs::PointsLaws::first_at_law))]
pub fn first_point(s: &[u8]) -> Answer<(I32Point, Place)>
    ensures { result ≡ first_of s.now }
{
    let (q, j, n) = numbers(s, Place::new(0))?;
    inside_at(q, j, n)
}

// The point after q, whose bytes stand at the place, and the place after it.
#[tactic(auto, using(chunks::proofs::PointsLaws::next_no, crate::proofs::NextRead::next_left, crate::proofs::NextRead::next_lies))]
#[inline(always)]
pub fn next_point(s: &[u8], q: I32Point, at: Place) -> Answer<(I32Point, Place)>
    ensures { result ≡ next_at s.now q at }
{
    let (d, j, n) = numbers(s, at)?;
    let t = moved_by(q, d, at, j)?;
    inside_at(t, j, n)
}

// No bytes are left over.
fn check_end(s: &[u8], at: Place) -> Answer<()>
    ensures { result ≡ about at (claim 43 (at_end s.now at)) }
{
    at.about(answer::claim(43, at.at_end(s)))
}

// The height without its fraction; where it is none of the domain's, heights that nothing in the domain is beyond.
fn band_at(y: f64) -> Band
    ensures { Around result y }
{
    if y >= -9223372036854775808.0 {
        if y < 9223372036854775808.0 {
            let t = std::num::truncating_f64_to_i64(y);
            if (-9_000_000 <= t) & (t <= 9_000_000) {
                let h = t as i32;
                return Band { lo: h, hi: h };
            }
        }
    }
    Band {
        lo: -9_000_000,
        hi: 9_000_000,
    }
}

// kept: as one test with that of both_above, it is compiled to jumps, and a scan takes 10.4 ns a point for 7.9.
fn both_below(u: i32, v: i32, lo: i32) -> bool
    ensures { result ≡ both_below u v lo }
{
    u < lo && v < lo
}

fn both_above(u: i32, v: i32, hi: i32) -> bool
    ensures { result ≡ both_above u v hi }
{
    hi < u && hi < v
}

fn is_beyond(u: i32, v: i32, lo: i32, hi: i32) -> bool
    ensures { result ≡ (both_below u v lo || both_above u v hi) }
{
    both_below(u, v, lo) || both_above(u, v, hi)
}

// The segment is not level, and lies below the point or above it: the ray test sees nothing of it.
fn is_aside(b: Band, u: I32Point, v: I32Point) -> bool
    ensures { result ≡ aside b u v }
{
    let uy = u.y;
    let vy = v.y;
    let lo = b.lo;
    let hi = b.hi;
    if is_beyond(uy, vy, lo, hi) {
        return (uy < vy) | (vy < uy);
    }
    false
}

// What the point sees of the segment from u to v.
#[tactic(auto, using(crate::proofs::Skips::skips))]
fn segment_seen(b: Band, u: I32Point, v: I32Point, p: Point) -> Seen
    requires around { Around b p.y }
    requires u_value { in_domain u ≡ true }
    requires v_value { in_domain v ≡ true }
    ensures { result ≡ ray_of u v p }
{
    if is_aside(b, u, v) {
        return Seen::Off(false);
    }
    raycast::raycast_seg(u, v, p)
}

// kept: `count`, `first` and `from` are what the loop starts from, one of the caller and two that `first_point` hands back.
// From the first point on, over that many points more.
fn scan_from(s: &[u8], p: Point, count: u16, first: I32Point, from: Place) -> Walk<I32Point>
    requires { in_domain first ≡ true }
    ensures { result ≡ onward s.now p count first from }
{
    let b = band_at(p.y);
    let mut q = first;
    let mut at = from;
    let mut odd = false;
    for _ in 0..count {
        let (t, next) = next_point(s, q, at)?;
        match segment_seen(b, q, t, p) {
            Seen::On => {
                return Ok(Walked::On);
            }
            Seen::Off(counts) => {
                odd = answer::plus(odd, counts);
            }
        }
        q = t;
        at = next;
    }
    check_end(s, at)?;
    Ok(Walked::Off(odd, q))
}

// Every segment of a chunk, in stored order as its points are read: an on-edge hit ends the walk, leftover bytes are tested last.
pub fn scan_chunk(s: &[u8], count: u16, p: Point) -> Walk<I32Point>
    ensures { result ≡ scan_of s.now count p }
{
    answer::claim(32, 0 < count)?;
    let (q, n) = first_point(s)?;
    scan_from(s, p, count - 1, q, n)
}

// The first point, and that many more: whether the box covers them all, and the last.
fn trace_from(
    s: &[u8],
    b: BBox,
    count: u16,
    first: I32Point,
    from: Place,
) -> Answer<(bool, I32Point)>
    ensures { result ≡ also (in_box b first) (along (tracer b) s.now count first from) }
{
    let mut q = first;
    let mut at = from;
    let mut inside = boxes::in_box(b, first);
    for _ in 0..count {
        let (t, next) = next_point(s, q, at)?;
        inside &= boxes::in_box(b, t);
        q = t;
        at = next;
    }
    check_end(s, at)?;
    Ok((inside, q))
}

// All points of a chunk, as they are read: leftover bytes are tested last. Past them: whether the box covers them all, and the last of them.
pub fn trace_chunk(s: &[u8], count: u16, b: BBox) -> Answer<(bool, I32Point)>
    ensures { result ≡ trace_of s.now count b }
{
    answer::claim(32, 0 < count)?;
    let (q, n) = first_point(s)?;
    trace_from(s, b, count - 1, q, n)
}

// The segment from a to b counted, where its ends differ; three are enough.
#[tactic(auto, unfolding(chunks::specs::Count::with_side, plane::specs::Segment::same_point))]
pub fn with_side(a: I32Point, b: I32Point, n: u32) -> u32
    ensures { result ≡ with_side a b n }
{
    if (a != b) & (n < 3) { n + 1 } else { n }
}

// From the first point on, over that many points more: the third segment that counts ends the walk.
fn count_from(
    s: &[u8],
    count: u16,
    first: I32Point,
    from: Place,
    sides: u32,
) -> Answer<(u32, I32Point)>
    ensures { result ≡ along counter s.now count first from sides }
{
    let mut q = first;
    let mut at = from;
    let mut n = sides;
    for _ in 0..count {
        let (t, next) = next_point(s, q, at)?;
        n = with_side(q, t, n);
        if 3 <= n {
            return Ok((n, t));
        }
        q = t;
        at = next;
    }
    check_end(s, at)?;
    Ok((n, q))
}

// The segments of a chunk, after the point before it and with so many counted: the third ends the walk. How many are counted then, and the last point read.
pub fn count_chunk(s: &[u8], count: u16, before: I32Point, sides: u32) -> Answer<(u32, I32Point)>
    ensures { result ≡ count_of s.now count before sides }
{
    answer::claim(32, 0 < count)?;
    let (q, m) = first_point(s)?;
    let n = with_side(before, q, sides);
    if 3 <= n {
        return Ok((n, q));
    }
    count_from(s, count - 1, q, m, n)
}

// kept: the lent numbers and a place in them are two. Document 01: `Vec` is lent slices.
// The two numbers of a point, from that place of the memory on, where there is room for both.
fn put_point(out: &mut [i32], i: usize, q: I32Point)
    requires { i < 0x1_0000_0000 }
    ensures { i + 1 < length out.old → out.new ≡ slice_set (slice_set out.old i q.x) (i + 1) q.y }
{
    if i + 1 < out.len() {
        out[i] = q.x;
        out[i + 1] = q.y;
    }
}

// The first point, and that many more: whether all can be read, and no bytes are left over. Where there is room for all, the numbers of those that can be read are written.
fn fill_from(s: &[u8], count: u16, first: I32Point, from: Place, out: &mut [i32]) -> Answer<()>
    ensures result_value { result ≡ outcome (points_from s.now count first from) }
    ensures memory { 2 + 2 * count ≤ length out.old → out.new ≡ put out.old 0 (first ∷ read_from s.now count first from) }
{
    put_point(out, 0, first);
    let mut q = first;
    let mut at = from;
    for i in 0..count {
        let (t, next) = next_point(s, q, at)?;
        put_point(out, 2 + 2 * (i as usize), t);
        q = t;
        at = next;
    }
    check_end(s, at)
}

// The first point, and that many more: all are read before the first number is written. Until then the numbers stay in a buffer for HELD of them; where it has no room for all, the points are read a second time.
fn decode_in<const HELD: usize>(
    s: &[u8],
    count: u16,
    first: I32Point,
    from: Place,
    out: &mut [i32],
) -> Answer<()>
    requires held { HELD ≤ 512 }
    requires room { 2 + 2 * count ≤ length out.old }
    ensures { (result ≡ outcome (led first (points_from s.now count first from))) × (out.new ≡ filled out.old (led first (points_from s.now count first from))) }
{
    let mut held = [0i32; HELD];
    fill_from(s, count, first, from, &mut held)?;
    let n = 2 + 2 * (count as usize);
    if HELD < n {
        return fill_from(s, count, first, from, out);
    }
    out[..n].copy_from_slice(&held[..n]);
    Ok(())
}

// The points of a chunk into lent numbers, two a point. A refusal leaves the lent memory as it was, and what lies behind the points is never touched.
// kept: numbers, two a point, are what C lends (tzb_decode), so not a slice of points.
pub fn decode_points(s: &[u8], count: u16, out: &mut [i32]) -> Answer<()>
    ensures result_value { result ≡ decode_of s.now count out.old }
    ensures memory { out.new ≡ decoded s.now count out.old }
{
    answer::claim(32, 0 < count)?;
    answer::claim(46, 2 * (count as usize) <= out.len())?;
    let (q, n) = first_point(s)?;
    // memory costs time to be set to zero: room for 16, for 64, and for 256 points
    match count {
        ..=16 => decode_in::<32>(s, count - 1, q, n, out),
        17..=64 => decode_in::<128>(s, count - 1, q, n, out),
        _ => decode_in::<512>(s, count - 1, q, n, out),
    }
}
