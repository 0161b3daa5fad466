// Containment: the walk over a group's chunks.
#![tactic(auto)]

ghost use Rattle.std.specs.Prelude.{◌≡◌, ◌+◌, ◌-◌, ◌<◌};
ghost use Rattle.answer.specs.Answers.{ok};
ghost use Rattle.answer.specs.Walks.{add};
ghost use Rattle.rays.specs.Ray.{ray_of};
ghost use Rattle.chunks.specs.Scan.{past};
ghost use Rattle.reader_chunks.specs.Chunks.{start_of, first_in, scan_in};
ghost use Rattle.reader_groups.specs.Groups.{next_first, skip_to, scan_to, joined_to, pass_at, last_in, last_at, alone_at, chunks_from, group_scan};
ghost use Rattle.reader_groups.specs.Steps.{dropped, passed, pass_alone, own_first, Kept, Leaves, Hands};

mod reached;

use answer::{Answer, Walk, Walked};
use opened::Opened;
use plane::{I32Point, Point, Seen};
use reached::Reached;
use reader_records::{ChunkRecord, GroupRecord};
use tzb_core::raycast;

// After a stretch of parity `odd`.
#[tactic(auto, unfolding(answer::specs::Walks::add))]
pub fn after(odd: bool, w: Walk<()>) -> Walk<()>
    ensures { result ≡ add odd w }
{
    match w? {
        Walked::On => Ok(Walked::On),
        Walked::Off(b, ()) => Ok(Walked::Off(answer::plus(odd, b), ())),
    }
}

// The first point of the chunk c, which ends at e.
fn known_first(o: Opened, s: &[u8], c: Reached, e: usize) -> Answer<I32Point>
    requires { Kept c.first (first_in s.now (start_of o c.record) e) }
    ensures { result ≡ first_in s.now (start_of o c.record) e }
{
    match c.first {
        Some(q) => Ok(q),
        None => reader_chunks::first_in(s, reader_chunks::start_of(o, c.record), e),
    }
}

// Through all segments of the chunk with record v, which ends at e.
fn scan_of(o: Opened, s: &[u8], p: Point, v: ChunkRecord, e: usize) -> Walk<I32Point>
    ensures { result ≡ scan_in s.now v.count p (start_of o v) e }
{
    reader_chunks::scan_in(s, v.count, p, reader_chunks::start_of(o, v), e)
}

// The first point of the chunk behind c, whose record is n.
#[tactic(auto, unfolding(crate::specs::Groups::next_first))]
fn next_first(o: Opened, s: &[u8], c: Reached, n: ChunkRecord) -> Answer<I32Point>
    ensures { result ≡ next_first o s.now c.index n }
{
    let e = reader_chunks::end_of(o, s, c.index + 1)?;
    reader_chunks::first_in(s, reader_chunks::start_of(o, n), e)
}

// kept: the point is the question's, c and n are two chunks: nothing else is asked of the three together.
// A chunk to the right of the point: by its own first point and the next chunk's.
#[tactic(auto, unfolding(crate::specs::Groups::skip_to))]
fn skip_to(o: Opened, s: &[u8], p: Point, c: Reached, n: ChunkRecord) -> Walk<Option<I32Point>>
    requires { Kept c.first (first_in s.now (start_of o c.record) (start_of o n)) }
    ensures { (dropped result ≡ skip_to o s.now p c.index c.record n) × Leaves (next_first o s.now c.index n) result }
{
    let a = known_first(o, s, c, reader_chunks::start_of(o, n))?;
    let b = next_first(o, s, c, n)?;
    Ok(Walked::Off(raycast::endpoint_parity(a, b, p), Some(b)))
}

// Past the segment from q to the next chunk's first point b, after a stretch of parity `odd`.
#[tactic(auto, unfolding(answer::specs::Walks::add))]
fn join(odd: bool, q: I32Point, b: I32Point, p: Point) -> Walk<Option<I32Point>>
    ensures { (dropped result ≡ add odd (past (ray_of q b p) tt)) × Leaves (ok b) result }
{
    match raycast::raycast_seg(q, b, p) {
        Seen::On => Ok(Walked::On),
        Seen::Off(c) => Ok(Walked::Off(answer::plus(odd, c), Some(b))),
    }
}

// Any other chunk: through its segments, and the one that joins it to the next chunk.
#[tactic(auto, using(crate::proofs::Remembering::leaves_at), unfolding(crate::specs::Groups::scan_to, answer::specs::Walks::add))]
fn scan_to(o: Opened, s: &[u8], p: Point, c: Reached, n: ChunkRecord) -> Walk<Option<I32Point>>
    ensures { (dropped result ≡ scan_to o s.now p c.index c.record n) × Leaves (next_first o s.now c.index n) result }
{
    match scan_of(o, s, p, c.record, reader_chunks::start_of(o, n))? {
        Walked::On => Ok(Walked::On),
        Walked::Off(odd, q) => join(odd, q, next_first(o, s, c, n)?, p),
    }
}

#[tactic(auto, unfolding(crate::specs::Groups::joined_to))]
fn joined_to(o: Opened, s: &[u8], p: Point, c: Reached, n: ChunkRecord) -> Walk<Option<I32Point>>
    requires { Kept c.first (first_in s.now (start_of o c.record) (start_of o n)) }
    ensures { (dropped result ≡ joined_to o s.now p c.index c.record n) × Leaves (next_first o s.now c.index n) result }
{
    let b = c.record.bbox;
    if !b.relevant(p) {
        return Ok(Walked::Off(false, None));
    }
    if b.right(p) {
        skip_to(o, s, p, c, n)
    } else {
        scan_to(o, s, p, c, n)
    }
}

// Past the chunk c, which another follows: that one is reached.
// kept: taken into its two callers. Called, it wrote the next chunk to memory and read it back: a group of 65,535 chunks passed unread took a fifth longer.
#[tactic(auto, using(crate::proofs::Remembering::chunk_index, crate::proofs::Remembering::own_next, crate::proofs::Remembering::kept_at), unfolding(crate::specs::Groups::pass_at, answer::specs::Walks::add))]
#[inline(always)]
fn pass_at(o: Opened, s: &[u8], p: Point, c: Reached) -> Walk<Reached>
    requires { Kept c.first (own_first o s.now c.index c.record) }
    ensures { (passed result ≡ pass_at o s.now p c.index c.record) × Hands o s.now (c.index + 1) result }
{
    let index = c.index + 1;
    let record = reader_records::chunk_at(o, s, index)?;
    match joined_to(o, s, p, c, record)? {
        Walked::On => Ok(Walked::On),
        Walked::Off(b, first) => Ok(Walked::Off(
            b,
            Reached {
                index,
                record,
                first,
            },
        )),
    }
}

// Past a group's last chunk, which ends at e, and of which x is the last point.
#[tactic(auto, unfolding(crate::specs::Groups::last_in, answer::specs::Walks::add))]
fn last_in(o: Opened, s: &[u8], p: Point, c: Reached, x: I32Point, e: usize) -> Walk<()>
    requires { Kept c.first (first_in s.now (start_of o c.record) e) }
    ensures { result ≡ last_in o s.now p c.index c.record x e }
{
    let b = c.record.bbox;
    if b.right(p) {
        let a = known_first(o, s, c, e)?;
        return Ok(Walked::Off(raycast::endpoint_parity(a, x, p), ()));
    }
    match scan_of(o, s, p, c.record, e)? {
        Walked::On => Ok(Walked::On),
        Walked::Off(odd, _) => Ok(Walked::Off(odd, ())),
    }
}

#[tactic(auto, using(crate::proofs::Remembering::own_is, crate::proofs::Remembering::kept_at), unfolding(crate::specs::Groups::last_at))]
fn last_at(o: Opened, s: &[u8], p: Point, c: Reached, x: I32Point) -> Walk<()>
    requires { Kept c.first (own_first o s.now c.index c.record) }
    ensures { result ≡ last_at o s.now p c.index c.record x }
{
    let b = c.record.bbox;
    if !b.relevant(p) {
        return Ok(Walked::Off(false, ()));
    }
    last_in(o, s, p, c, x, reader_chunks::end_of(o, s, c.index)?)
}

// Past the chunk c, which another follows: what is then known of the next is dropped.
#[tactic(auto, unfolding(crate::specs::Steps::pass_alone, answer::specs::Walks::add))]
fn pass_alone(o: Opened, s: &[u8], p: Point, c: Reached) -> Walk<()>
    requires { Kept c.first (own_first o s.now c.index c.record) }
    ensures { result ≡ pass_alone o s.now p c.index c.record }
{
    match pass_at(o, s, p, c)? {
        Walked::On => Ok(Walked::On),
        Walked::Off(b, _) => Ok(Walked::Off(b, ())),
    }
}

// Chunk i by its number alone: x is its group's last point, and another chunk of the group follows it or not.
#[tactic(auto, using(crate::proofs::Remembering::chunk_index), unfolding(crate::specs::Groups::alone_at, crate::specs::Steps::pass_alone))]
pub fn scan_alone(o: Opened, s: &[u8], p: Point, x: I32Point, follows: bool, i: usize) -> Walk<()>
    ensures { result ≡ alone_at o s.now p x follows i }
{
    let v = reader_records::chunk_at(o, s, i)?;
    let b = v.bbox;
    if !b.relevant(p) {
        return Ok(Walked::Off(false, ()));
    }
    let c = Reached {
        index: i,
        record: v,
        first: None,
    };
    if follows {
        pass_alone(o, s, p, c)
    } else {
        last_at(o, s, p, c, x)
    }
}

// `count` chunks in a row, of which `head` is the first, and x the last point of the last.
fn scan_chunks(o: Opened, s: &[u8], p: Point, x: I32Point, count: u16, head: Reached) -> Walk<()>
    requires { Kept head.first (own_first o s.now head.index head.record) }
    ensures { result ≡ chunks_from o s.now p x (count - 1) head.index head.record }
{
    let mut c = head;
    let mut odd = false;
    for _ in 1..count {
        match pass_at(o, s, p, c)? {
            Walked::On => return Ok(Walked::On),
            Walked::Off(b, next) => {
                odd = answer::plus(odd, b);
                c = next;
            }
        }
    }
    after(odd, last_at(o, s, p, c, x))
}

// Past all chunks of a group.
#[tactic(auto, using(crate::proofs::Remembering::chunk_index), unfolding(crate::specs::Groups::group_scan))]
pub fn scan_group(o: Opened, s: &[u8], p: Point, g: GroupRecord) -> Walk<()>
    ensures { result ≡ group_scan o s.now p g }
{
    let index = g.first as usize;
    let record = reader_records::chunk_at(o, s, index)?;
    scan_chunks(
        o,
        s,
        p,
        g.exit,
        g.count,
        Reached {
            index,
            record,
            first: None,
        },
    )
}
