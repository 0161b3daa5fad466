// A chunk's bytes in the file: its range, and a refusal's place in the file; its first point, the scan of its segments, their count, the trace of a box, and its points decoded into lent numbers.
#![tactic(auto)]

ghost use Rattle.std.specs.Prelude.{◌≡◌, ◌+◌, ◌*◌, ◌≤◌, ◌<◌, length};
ghost use Rattle.answer.specs.Answers.{behind, outcome};
ghost use Rattle.chunks.specs.Decode.{filled};
ghost use Rattle.reader_chunks.specs.Chunks.{start_of, end_of, span, first_in, scan_in, trace_in, count_in, first_at, trace_at, count_at, decode_at, decoded_at};
ghost use Rattle.reader_chunks.specs.Steps.{lent, points_in, room_for};

use answer::{Answer, Walk};
use boxes::BBox;
use opened::Opened;
use plane::{I32Point, Point};
use reader_records::ChunkRecord;
use tzb_core::chunk;

// Where a chunk's first byte stands.
#[tactic(auto, unfolding(crate::specs::Chunks::start_of))]
pub fn start_of(o: Opened, v: ChunkRecord) -> usize
    ensures { (result ≡ start_of o v) × (result < 0x2_0000_0000) }
{
    (o.points.off as usize) + (v.off as usize)
}

// Where the points end.
fn points_end(o: Opened) -> usize
    ensures { result ≡ o.points.off + o.points.len }
{
    (o.points.off as usize) + (o.points.len as usize)
}

// Where chunk `index` ends: where the next of the file starts, or with the points.
#[tactic(auto, using(crate::proofs::ChunksLaws::end_last, crate::proofs::ChunksLaws::end_no, crate::proofs::ChunksLaws::end_is))]
pub fn end_of(o: Opened, s: &[u8], index: usize) -> Answer<usize>
    ensures { result ≡ end_of o s.now index }
{
    if index.saturating_add(1) < o.chunks.count as usize {
        let v = reader_records::chunk_at(o, s, index + 1)?;
        return Ok(start_of(o, v));
    }
    Ok(points_end(o))
}

// The bytes from a to e: an empty range or one turned round is 37, one past the end 44.
#[tactic(auto, using(crate::proofs::ChunksLaws::span_none, crate::proofs::ChunksLaws::span_short, crate::proofs::ChunksLaws::span_is))]
fn bytes(s: &[u8], a: usize, e: usize) -> Answer<&[u8]>
    ensures { lent result ≡ span s.now a e }
{
    if e <= a {
        return answer::fail(37);
    }
    if s.len() < e {
        return answer::fail(44);
    }
    Ok(&s[a..e])
}

// What is asked of bytes that stand behind `before` others: a refusal's place is counted from the first of all.
fn behind<T>(before: usize, told: Answer<T>) -> Answer<T>
    ensures { result ≡ behind before told }
{
    told.map_err(|r| r.counted_from(before))
}

// The first point alone, of the bytes from a to e.
#[tactic(auto, using(crate::proofs::ChunksLaws::first_no, crate::proofs::ChunksLaws::first_bad, crate::proofs::ChunksLaws::first_is))]
pub fn first_in(s: &[u8], a: usize, e: usize) -> Answer<I32Point>
    ensures { result ≡ first_in s.now a e }
{
    let b = bytes(s, a, e)?;
    let (q, _) = behind(a, chunk::first_point(b))?;
    Ok(q)
}

// Through all segments of the points in the bytes from a to e.
#[tactic(auto, using(crate::proofs::ChunksLaws::scan_no))]
pub fn scan_in(s: &[u8], count: u16, p: Point, a: usize, e: usize) -> Walk<I32Point>
    ensures { result ≡ scan_in s.now count p a e }
{
    let b = bytes(s, a, e)?;
    behind(a, chunk::scan_chunk(b, count, p))
}

// All points in the bytes from a to e, against a box: whether it covers them, and the last of them.
#[tactic(auto, using(crate::proofs::ChunksLaws::trace_no))]
pub fn trace_in(s: &[u8], count: u16, b: BBox, a: usize, e: usize) -> Answer<(bool, I32Point)>
    ensures { result ≡ trace_in s.now count b a e }
{
    let c = bytes(s, a, e)?;
    behind(a, chunk::trace_chunk(c, count, b))
}

// The segments of the points in the bytes from a to e, after the point before them and with so many counted: how many then, and the last point read.
#[tactic(auto, using(crate::proofs::ChunksLaws::count_no))]
fn count_in(
    s: &[u8],
    count: u16,
    before: I32Point,
    sides: u32,
    a: usize,
    e: usize,
) -> Answer<(u32, I32Point)>
    ensures { result ≡ count_in s.now count before sides a e }
{
    let b = bytes(s, a, e)?;
    behind(a, chunk::count_chunk(b, count, before, sides))
}

// The first point alone, of chunk `index`.
#[tactic(auto, using(crate::proofs::ChunksLaws::at_no, crate::proofs::ChunksLaws::at_far, crate::proofs::ChunksLaws::at_is))]
pub fn first_at(o: Opened, s: &[u8], index: usize) -> Answer<I32Point>
    ensures { result ≡ first_at o s.now index }
{
    let v = reader_records::chunk_at(o, s, index)?;
    let e = end_of(o, s, index)?;
    first_in(s, start_of(o, v), e)
}

// All points of chunk `index`, against its own box.
#[tactic(auto, using(crate::proofs::ChunksLaws::trace_at_no, crate::proofs::ChunksLaws::trace_at_far, crate::proofs::ChunksLaws::trace_at_is))]
pub fn trace_at(o: Opened, s: &[u8], index: usize) -> Answer<(bool, I32Point)>
    ensures { result ≡ trace_at o s.now index }
{
    let v = reader_records::chunk_at(o, s, index)?;
    let e = end_of(o, s, index)?;
    trace_in(s, v.count, v.bbox, start_of(o, v), e)
}

// The segments of chunk `index`, after the point before it and with so many counted.
#[tactic(auto, using(crate::proofs::ChunksLaws::count_at_no, crate::proofs::ChunksLaws::count_at_far, crate::proofs::ChunksLaws::count_at_is))]
pub fn count_at(
    o: Opened,
    s: &[u8],
    index: usize,
    before: I32Point,
    sides: u32,
) -> Answer<(u32, I32Point)>
    ensures { result ≡ count_at o s.now index before sides }
{
    let v = reader_records::chunk_at(o, s, index)?;
    let e = end_of(o, s, index)?;
    count_in(s, v.count, before, sides, start_of(o, v), e)
}

// All points in the bytes from a to e, into lent numbers that have the room.
fn decode_in(s: &[u8], count: u16, a: usize, e: usize, out: &mut [i32]) -> Answer<()>
    requires count_nonzero { 0 < count }
    requires count_in_bounds { 2 * count ≤ length out.old }
    ensures { (result ≡ outcome (points_in s.now count a e)) × (out.new ≡ filled out.old (points_in s.now count a e)) }
{
    let b = bytes(s, a, e)?;
    behind(a, chunk::decode_points(b, count, out))
}

// 32 and 46 of a chunk of so many points and of room for so many numbers, before its bytes are sought.
#[tactic(auto, using(crate::proofs::CheckedLaws::room_barred, crate::proofs::CheckedLaws::room_told))]
fn check_room(count: u16, room: usize) -> Answer<()>
    ensures { result ≡ room_for count room }
{
    answer::claim(32, 0 < count)?;
    answer::claim(46, 2 * (count as usize) <= room)
}

// The points of chunk `index` into lent numbers, two a point. A refusal leaves the lent memory as it was, and what lies behind the points is never touched.
pub fn decode_chunk_points(o: Opened, s: &[u8], index: usize, out: &mut [i32]) -> Answer<()>
    ensures result_value { result ≡ decode_at o s.now index out.old }
    ensures memory { out.new ≡ decoded_at o s.now index out.old }
{
    let v = reader_records::chunk_at(o, s, index)?;
    check_room(v.count, out.len())?;
    let e = end_of(o, s, index)?;
    decode_in(s, v.count, start_of(o, v), e, out)
}

// What `decode_chunk_points` answers with that room. Nothing is written: the trace of a chunk is refused as its points are.
pub fn check_chunk_points(o: Opened, s: &[u8], index: usize, out: &[i32]) -> Answer<()>
    ensures { result ≡ decode_at o s.now index out.now }
{
    let v = reader_records::chunk_at(o, s, index)?;
    check_room(v.count, out.len())?;
    trace_at(o, s, index)?;
    Ok(())
}
