// Containment: the walk round a ring, over its groups.
#![tactic(auto)]

ghost use Rattle.std.specs.Prelude.{◌≡◌, false, List, ℕ, ◌+◌, ◌-◌, ◌≤◌, ◌<◌, length};
ghost use Rattle.answer.specs.Walks.{verdict};
ghost use Rattle.reader_records.specs.Records.{group_in};
ghost use Rattle.reader_ways.specs.Ways.{way_of, group_scan_by};
ghost use Rattle.reader_rings.specs.Rings.{turn_of, turned_at, joint_of, group_walk, turn_walk, op_step, ops_from, ring_end, ring_rest, ring_of, ring_contains};
ghost use Rattle.reader_rings.specs.Steps.{beside_told, leg_told, LegRoom, sum_after};
ghost use Rattle.opened.specs.Widths.{group_wide};

use answer::{Answer, Walk, Walked};
use opened::Opened;
use plane::{I32Point, Point, Seen};
use reader_records::{GroupRecord, RingRecord};
use reader_ways::Way;

// A group with its index, and its ends as a ring op has them.
#[derive(Clone, Copy)]
pub struct Turned {
    pub entry: I32Point,
    pub exit: I32Point,
    pub index: usize,
    pub group: GroupRecord,
}

// How far round: the last exit, and the points so far.
#[derive(Clone, Copy)]
pub struct Round {
    pub exit: I32Point,
    pub sum: usize,
}

// The word of the op with index i, and where its group stands.
#[tactic(auto, using(reader_records::proofs::RecordsLaws::place_none, reader_records::proofs::RecordsLaws::place_group, reader_records::proofs::RecordsLaws::place_room), unfolding(crate::specs::Rings::turned_at))]
fn leg_at(o: Opened, s: &[u8], i: usize) -> Answer<(usize, usize)>
    ensures { (leg_told s.now result ≡ turned_at o s.now i) × LegRoom s.now result }
{
    let word = reader_records::op_at(o, s, i)?;
    let at = reader_records::group_place(o, s, word % 0x8000_0000)?;
    Ok((word, at))
}

// The group at a tested place, as the op's word has it: the top bit turns it round.
#[tactic(auto, unfolding(crate::specs::Rings::turn_of))]
fn turned_in(s: &[u8], w: usize, at: usize) -> Turned
    requires { at + group_wide ≤ length s.now }
    ensures { result ≡ turn_of w (group_in s.now at) }
{
    let g = reader_records::group_in(s, at);
    let a = g.entry;
    let b = g.exit;
    let index = w % 0x8000_0000;
    if w < 0x8000_0000 {
        Turned {
            entry: a,
            exit: b,
            index,
            group: g,
        }
    } else {
        Turned {
            entry: b,
            exit: a,
            index,
            group: g,
        }
    }
}

// Past the segment that joins two ends, where they differ.
#[tactic(auto, unfolding(crate::specs::Rings::joint_of, plane::specs::Segment::same_point))]
fn joint(p: Point, a: I32Point, b: I32Point) -> Walk<()>
    ensures { result ≡ joint_of p a b }
{
    if a == b {
        return Ok(Walked::Off(false, ()));
    }
    match tzb_core::raycast::raycast_seg(a, b, p) {
        Seen::On => Ok(Walked::On),
        Seen::Off(b) => Ok(Walked::Off(b, ())),
    }
}

// What a group's box and its ends tell of it: the parity of a group that lies beside the point, or that its chunks have to be walked.
#[tactic(auto, unfolding(crate::specs::Rings::group_walk))]
fn lies_beside(p: Point, g: GroupRecord) -> Option<bool>
    ensures { (w : Way) (o : Opened) (s : List ℕ) (i : ℕ) → beside_told result (group_scan_by (way_of w) o s p i g) ≡ group_walk (way_of w) o s p i g }
{
    if !g.bbox.relevant(p) {
        return Some(false);
    }
    if g.bbox.right(p) {
        return Some(tzb_core::raycast::endpoint_parity(g.entry, g.exit, p));
    }
    None
}

// Past a group: nothing, by its ends alone, or through its chunks.
#[tactic(auto, using(crate::proofs::RingsLaws::walk_past, crate::proofs::RingsLaws::walk_through), unfolding(crate::specs::Rings::group_walk))]
fn group_walk(way: Way<'_>, o: Opened, s: &[u8], p: Point, index: usize, g: GroupRecord) -> Walk<()>
    ensures { result ≡ group_walk (way_of way.entry) o s.now p index g }
{
    match lies_beside(p, g) {
        Some(b) => Ok(Walked::Off(b, ())),
        None => reader_ways::scan_by(way, o, s, p, index, g),
    }
}

// Past a group, from the exit a of the group before. It asks `lies_beside` itself and does not call group_walk, so that the compiler can test the box before the opened record is handed on: two callers of scan_by keep that out of line, and `lies_beside` goes into the loop.
#[tactic(auto, using(crate::proofs::RingsLaws::walk_past, crate::proofs::RingsLaws::walk_through, answer::proofs::WalksLaws::add_off), unfolding(crate::specs::Rings::turn_walk))]
fn turn_walk(way: Way<'_>, o: Opened, s: &[u8], p: Point, a: I32Point, t: Turned) -> Walk<()>
    ensures { result ≡ turn_walk (way_of way.entry) o s.now p a t }
{
    match joint(p, a, t.entry)? {
        Walked::On => Ok(Walked::On),
        Walked::Off(b, ()) => match lies_beside(p, t.group) {
            Some(c) => Ok(Walked::Off(answer::plus(b, c), ())),
            None => reader_groups::after(b, reader_ways::scan_by(way, o, s, p, t.index, t.group)),
        },
    }
}

// Past op i, after z.
#[tactic(auto, unfolding(crate::specs::Rings::op_step))]
fn op_step(way: Way<'_>, o: Opened, s: &[u8], p: Point, i: usize, z: Round) -> Walk<Round>
    requires { z.sum < 0x4000_0000_0000_0000 }
    ensures { (result ≡ op_step (way_of way.entry) o s.now p i z) × (sum_after z.sum result ≤ z.sum + 0x1_0000_0000) }
{
    let (word, at) = leg_at(o, s, i)?;
    let t = turned_in(s, word, at);
    match turn_walk(way, o, s, p, z.exit, t)? {
        Walked::On => Ok(Walked::On),
        Walked::Off(b, ()) => Ok(Walked::Off(
            b,
            Round {
                exit: t.exit,
                sum: z.sum + t.group.points as usize,
            },
        )),
    }
}

// Past the ops from `from` on, `count` with the first.
fn ops_from(
    way: Way<'_>,
    o: Opened,
    s: &[u8],
    p: Point,
    count: u16,
    from: usize,
    so: Round,
) -> Walk<Round>
    requires { (from < 0x2_0000_0000) × (so.sum < 0x1_0000_0000) }
    ensures { result ≡ ops_from (way_of way.entry) o s.now p (count - 1) from so }
{
    let mut z = so;
    let mut odd = false;
    for i in from..from + usize::from(count.saturating_sub(1)) {
        match op_step(way, o, s, p, i, z)? {
            Walked::On => return Ok(Walked::On),
            Walked::Off(b, y) => {
                odd = answer::plus(odd, b);
                z = y;
            }
        }
    }
    Ok(Walked::Off(odd, z))
}

// After the last group: 36, then the segment back to the start.
#[tactic(auto, unfolding(crate::specs::Rings::ring_end, answer::specs::Checks::claim))]
fn ring_end(p: Point, r: RingRecord, start: I32Point, z: Round) -> Walk<()>
    ensures { result ≡ ring_end p r start z }
{
    answer::claim(36, reader_records::count_rule(r, z.sum))?;
    joint(p, z.exit, start)
}

// Past the groups after the first, t.
#[tactic(auto, unfolding(crate::specs::Rings::ring_rest))]
fn ring_rest(way: Way<'_>, o: Opened, s: &[u8], p: Point, r: RingRecord, t: Turned) -> Walk<()>
    ensures { result ≡ ring_rest (way_of way.entry) o s.now p r t }
{
    let so = Round {
        exit: t.exit,
        sum: t.group.points as usize,
    };
    match ops_from(way, o, s, p, r.count, r.first as usize + 1, so)? {
        Walked::On => Ok(Walked::On),
        Walked::Off(b, z) => reader_groups::after(b, ring_end(p, r, t.entry, z)),
    }
}

// Past all groups of a ring, and back to the start.
#[tactic(auto, unfolding(crate::specs::Rings::ring_of))]
fn ring_walk(way: Way<'_>, o: Opened, s: &[u8], p: Point, r: RingRecord) -> Walk<()>
    ensures { result ≡ ring_of (way_of way.entry) o s.now p r }
{
    let (word, at) = leg_at(o, s, r.first as usize)?;
    let t = turned_in(s, word, at);
    match group_walk(way, o, s, p, t.index, t.group)? {
        Walked::On => Ok(Walked::On),
        Walked::Off(b, ()) => reader_groups::after(b, ring_rest(way, o, s, p, r, t)),
    }
}

// Inside or not, where a point on an edge gets `edge`.
fn verdict_of(edge: bool, w: Walk<()>) -> Answer<bool>
    ensures { result ≡ verdict edge w }
{
    match w? {
        Walked::On => Ok(edge),
        Walked::Off(b, ()) => Ok(b),
    }
}

// Whether ring `index` contains the point; one on an edge gets `edge`.
#[tactic(auto, unfolding(crate::specs::Rings::ring_contains))]
pub fn ring_contains(
    way: Way<'_>,
    o: Opened,
    s: &[u8],
    p: Point,
    edge: bool,
    index: usize,
) -> Answer<bool>
    ensures { result ≡ ring_contains (way_of way.entry) o s.now p edge index }
{
    let r = reader_records::ring_at(o, s, index)?;
    if r.bbox.contains(p) {
        verdict_of(edge, ring_walk(way, o, s, p, r))
    } else {
        Ok(false)
    }
}
