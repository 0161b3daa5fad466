// Directory records, by index: of any opened record and any bytes.
#![tactic(auto)]

ghost use Rattle.std.specs.Prelude.{◌≡◌, ◌+◌, ◌≤◌, ◌&&◌, ℕ, List, length, Bool};
ghost use Rattle.boxes.specs.Box.{box_in_domain};
ghost use Rattle.reader_records.specs.Records.{directory, record_at, ruled, box_in, point_in, list_in, list_rule, list_at, poly_at, ring_in, ring_rule, ring_at, count_rule, op_at, group_in, group_rule, group_place, group_at, chunk_in, chunk_rule, chunk_at, fits_below, tz_at};
ghost use Rattle.std.proofs.Common.{rules};
ghost use Rattle.opened.specs.Widths.{list_wide, ring_wide, group_wide, chunk_wide};

use answer::Answer;
use boxes::BBox;
use fields::Number;
use opened::Opened;
use plane::I32Point;

// A zone with its polygons, a polygon with its rings.
#[derive(Clone, Copy)]
pub struct ListRecord {
    pub first: u32,
    pub count: u16,
    pub bbox: BBox,
}

#[derive(Clone, Copy)]
pub struct RingRecord {
    pub first: u32,
    pub points: u32,
    pub count: u16,
    pub bbox: BBox,
}

#[derive(Clone, Copy)]
pub struct GroupRecord {
    pub first: u32,
    pub points: u32,
    pub count: u16,
    pub entry: I32Point,
    pub exit: I32Point,
    pub bbox: BBox,
}

#[derive(Clone, Copy)]
pub struct ChunkRecord {
    pub off: u32,
    pub count: u16,
    pub bbox: BBox,
}

// A record of a directory: how many bytes it takes, how it is read at a tested place, and its rule, given how many records the directory below has.
trait Record: Copy {
    ghost WIDE: { ℕ };

    ghost reading: { List ℕ → ℕ → Self };

    ghost rule: { ℕ → Self → Bool };

    const WIDE: usize;

    fn read(s: &[u8], at: usize) -> Self
        requires { at + WIDE ≤ length s.now }
        ensures { result ≡ reading s.now at };

    fn keeps(self, below: u32) -> bool
        ensures { result ≡ rule below self };

    ghost narrow: { WIDE ≤ 64 };
}

// kept: widths up to 64 keep the sum from wrapping, and places are asked in range of three readers: each is one call away from the test. A directory's two numbers are handed on one by one: a record by value made lookups a fifth slower.
// Where record `index` of `width` bytes stands, in a directory of `count` records from `off` on.
#[tactic(auto, unfolding(crate::specs::Records::record_at))]
fn record_at(s: &[u8], off: u32, count: u32, width: usize, index: usize) -> Answer<usize>
    requires { width ≤ 64 }
    ensures { result ≡ record_at s.now (directory off count) width index }
{
    answer::claim(34, index < count as usize)?;
    let at = off as usize + index * width;
    answer::claim(44, at + width <= s.len())?;
    Ok(at)
}

// Record `index` of a directory, if it keeps its rule.
#[tactic(auto, unfolding(crate::specs::Records::ruled))]
fn record_as<R: Record>(s: &[u8], off: u32, count: u32, below: u32, index: usize) -> Answer<R>
    ensures { result ≡ ruled (record_at s.now (directory off count) R.WIDE index) (R.reading s.now) (R.rule below) 34 }
{
    let at = record_at(s, off, count, R::WIDE, index)?;
    let v = R::read(s, at);
    answer::claim(34, v.keeps(below))?;
    Ok(v)
}

#[tactic(auto, unfolding(crate::specs::Records::box_in))]
fn box_in(s: &[u8], at: usize) -> BBox
    requires { at + 16 ≤ length s.now }
    ensures { result ≡ box_in s.now at }
{
    BBox {
        minx: i32::at(s, at),
        miny: i32::at(s, at + 4),
        maxx: i32::at(s, at + 8),
        maxy: i32::at(s, at + 12),
    }
}

#[tactic(auto, unfolding(crate::specs::Records::point_in))]
fn point_in(s: &[u8], at: usize) -> I32Point
    requires { at + 8 ≤ length s.now }
    ensures { result ≡ point_in s.now at }
{
    I32Point {
        x: i32::at(s, at),
        y: i32::at(s, at + 4),
    }
}

// A box in the domain; what it bounds is at least one, and all within the directory below.
#[tactic(auto, unfolding(crate::specs::Records::fits_below))]
fn spans(b: BBox, first: u32, count: u16, below: u32) -> bool
    ensures { result ≡ (box_in_domain b && fits_below first count below) }
{
    b.in_domain() & ((0 < count) & (first as usize + usize::from(count) <= below as usize))
}

impl Record for ListRecord {
    ghost WIDE = { list_wide };

    ghost reading = { list_in };

    ghost rule = { list_rule };

    const WIDE: usize = opened::LIST_WIDE;

    #[tactic(auto, unfolding(crate::specs::Records::list_in))]
    fn read(s: &[u8], at: usize) -> ListRecord {
        ListRecord {
            first: u32::at(s, at),
            count: u16::at(s, at + 4),
            bbox: box_in(s, at + 8),
        }
    }

    #[tactic(auto, unfolding(crate::specs::Records::list_rule))]
    fn keeps(self, below: u32) -> bool {
        spans(self.bbox, self.first, self.count, below)
    }

    ghost narrow = { Prim.search rules };
}

// A zone or a polygon: record `index` of a directory of `count` from `off` on; the directory below has `below`.
#[tactic(auto, unfolding(crate::specs::Records::list_at))]
pub fn list_at(s: &[u8], off: u32, count: u32, below: u32, index: usize) -> Answer<ListRecord>
    ensures { result ≡ list_at s.now (directory off count) below index }
{
    record_as(s, off, count, below, index)
}

#[tactic(auto, unfolding(crate::specs::Records::list_at))]
pub fn tz_at(o: Opened, s: &[u8], index: usize) -> Answer<ListRecord>
    ensures { result ≡ tz_at o s.now index }
{
    record_as(s, o.zones.off, o.zones.count, o.polys.count, index)
}

#[tactic(auto, unfolding(crate::specs::Records::list_at))]
pub fn poly_at(o: Opened, s: &[u8], index: usize) -> Answer<ListRecord>
    ensures { result ≡ poly_at o s.now index }
{
    record_as(s, o.polys.off, o.polys.count, o.rings.count, index)
}

impl Record for RingRecord {
    ghost WIDE = { ring_wide };

    ghost reading = { ring_in };

    ghost rule = { ring_rule };

    const WIDE: usize = opened::RING_WIDE;

    #[tactic(auto, unfolding(crate::specs::Records::ring_in))]
    fn read(s: &[u8], at: usize) -> RingRecord {
        RingRecord {
            first: u32::at(s, at),
            points: u32::at(s, at + 4),
            count: u16::at(s, at + 8),
            bbox: box_in(s, at + 12),
        }
    }

    #[tactic(auto, unfolding(crate::specs::Records::ring_rule))]
    fn keeps(self, below: u32) -> bool {
        spans(self.bbox, self.first, self.count, below)
    }

    ghost narrow = { Prim.search rules };
}

#[tactic(auto, unfolding(crate::specs::Records::ring_at))]
pub fn ring_at(o: Opened, s: &[u8], index: usize) -> Answer<RingRecord>
    ensures { result ≡ ring_at o s.now index }
{
    record_as(s, o.rings.off, o.rings.count, o.ops.count, index)
}

// The points of a ring's groups, less the number of groups, are its own.
#[tactic(auto, unfolding(crate::specs::Records::count_rule))]
pub fn count_rule(v: RingRecord, sum: usize) -> bool
    ensures { result ≡ count_rule v sum }
{
    sum == v.points as usize + usize::from(v.count)
}

// A ring op's word: its group's index, which is one of the directory, and in the top bit whether that is turned round.
#[tactic(auto, unfolding(crate::specs::Records::op_at, crate::specs::Records::op_rule, crate::specs::Records::ruled))]
pub fn op_at(o: Opened, s: &[u8], index: usize) -> Answer<usize>
    ensures { result ≡ op_at o s.now index }
{
    let at = record_at(s, o.ops.off, o.ops.count, opened::OP_WIDE, index)?;
    let word = u32::at(s, at) as usize;
    answer::claim(35, word % 0x8000_0000 < o.groups.count as usize)?;
    Ok(word)
}

// The group record that stands at a tested place.
#[tactic(auto, unfolding(crate::specs::Records::group_in))]
pub fn group_in(s: &[u8], at: usize) -> GroupRecord
    requires { at + group_wide ≤ length s.now }
    ensures { result ≡ group_in s.now at }
{
    GroupRecord {
        first: u32::at(s, at),
        points: u32::at(s, at + 4),
        count: u16::at(s, at + 8),
        entry: point_in(s, at + 12),
        exit: point_in(s, at + 20),
        bbox: box_in(s, at + 28),
    }
}

#[tactic(auto, unfolding(crate::specs::Records::group_rule))]
pub fn group_rule(below: u32, v: GroupRecord) -> bool
    ensures { result ≡ group_rule below v }
{
    spans(v.bbox, v.first, v.count, below)
        & (boxes::point_in_domain(v.entry) & boxes::point_in_domain(v.exit))
}

impl Record for GroupRecord {
    ghost WIDE = { group_wide };

    ghost reading = { group_in };

    ghost rule = { group_rule };

    const WIDE: usize = opened::GROUP_WIDE;

    fn read(s: &[u8], at: usize) -> GroupRecord {
        group_in(s, at)
    }

    fn keeps(self, below: u32) -> bool {
        group_rule(below, self)
    }

    ghost narrow = { Prim.search rules };
}

// Where group `index` stands, if its record keeps the rule.
#[tactic(auto, unfolding(crate::specs::Records::group_place, crate::specs::Records::ruled))]
pub fn group_place(o: Opened, s: &[u8], index: usize) -> Answer<usize>
    ensures { result ≡ group_place o s.now index }
{
    let at = record_at(s, o.groups.off, o.groups.count, opened::GROUP_WIDE, index)?;
    answer::claim(34, group_rule(o.chunks.count, group_in(s, at)))?;
    Ok(at)
}

#[tactic(auto, unfolding(crate::specs::Records::group_at))]
pub fn group_at(o: Opened, s: &[u8], index: usize) -> Answer<GroupRecord>
    ensures { result ≡ group_at o s.now index }
{
    record_as(s, o.groups.off, o.groups.count, o.chunks.count, index)
}

// The chunk record that stands at a tested place.
#[tactic(auto, unfolding(crate::specs::Records::chunk_in))]
pub fn chunk_in(s: &[u8], at: usize) -> ChunkRecord
    requires { at + chunk_wide ≤ length s.now }
    ensures { result ≡ chunk_in s.now at }
{
    ChunkRecord {
        off: u32::at(s, at),
        count: u16::at(s, at + 4),
        bbox: box_in(s, at + 8),
    }
}

#[tactic(auto, unfolding(crate::specs::Records::chunk_rule))]
pub fn chunk_rule(v: ChunkRecord) -> bool
    ensures { result ≡ chunk_rule v }
{
    v.bbox.in_domain()
}

// A chunk's rule asks nothing of a directory below.
impl Record for ChunkRecord {
    ghost WIDE = { chunk_wide };

    ghost reading = { chunk_in };

    ghost rule = { λ _. chunk_rule };

    const WIDE: usize = opened::CHUNK_WIDE;

    fn read(s: &[u8], at: usize) -> ChunkRecord {
        chunk_in(s, at)
    }

    fn keeps(self, _below: u32) -> bool {
        chunk_rule(self)
    }

    ghost narrow = { Prim.search rules };
}

#[tactic(auto, unfolding(crate::specs::Records::chunk_at))]
pub fn chunk_at(o: Opened, s: &[u8], index: usize) -> Answer<ChunkRecord>
    ensures { result ≡ chunk_at o s.now index }
{
    record_as(s, o.chunks.off, o.chunks.count, 0, index)
}
