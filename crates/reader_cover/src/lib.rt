// What the full check asks of one record: a ring's point count, a group's joints and ends, a box and those below it.
#![tactic(auto)]

ghost use Rattle.std.specs.Prelude.{◌≡◌, ℕ, Bool, ◌+◌, ◌≤◌, ◌<◌};
ghost use Rattle.plane.specs.Lines.{last_of};
ghost use Rattle.boxes.specs.Box.{in_box};
ghost use Rattle.shapes.specs.Shapes.{covers};
ghost use Rattle.reader_chunks.specs.Chunks.{first_at, chunk_points};
ghost use Rattle.reader_cover.specs.Cover.{points_add, sum_of_ops, joint_covers, joints_cover, chunk_under, group_under, ring_under, poly_under, ends_fit, group_covers, group_of_op, part_fits};
ghost use Rattle.answer.specs.Answers.{holds};
ghost use Rattle.reader_cover.specs.All.{all};
ghost use Rattle.plane.specs.Segment.{same_point};

use answer::Answer;
use boxes::BBox;
use opened::Opened;
use plane::I32Point;
use reader_records::{GroupRecord, RingRecord};

// kept: a case for each test, as `part_fits` has it, of which the promise of `parts_fit` speaks.
// What is asked of each part of something larger.
#[derive(Clone, Copy)]
pub enum Part {
    // The box covers that of a chunk.
    Chunk(BBox),
    // The box covers that of the group that an op names.
    Group(BBox),
    // The box covers that of a ring.
    Ring(BBox),
    // The box covers that of a polygon.
    Polygon(BBox),
    // A chunk's box covers the next chunk's first point.
    Joint,
}

// The box covers the other.
#[tactic(auto, unfolding(shapes::specs::Shapes::covers))]
fn covers(b: BBox, c: BBox) -> bool
    ensures { result ≡ covers b c }
{
    ((b.minx <= c.minx) & (c.maxx <= b.maxx)) & ((b.miny <= c.miny) & (c.maxy <= b.maxy))
}

// The group that an op names.
#[tactic(auto, unfolding(crate::specs::Cover::group_of_op))]
fn op_group(o: Opened, s: &[u8], index: usize) -> Answer<GroupRecord>
    ensures { result ≡ group_of_op o s.now index }
{
    let word = reader_records::op_at(o, s, index)?;
    reader_records::group_at(o, s, word % 0x8000_0000)
}

// The point counts of a ring's groups, added.
fn sum_of_ops(o: Opened, s: &[u8], v: RingRecord) -> Answer<usize>
    ensures { result ≡ sum_of_ops o s.now v.count v.first }
{
    let first = v.first as usize;
    let to = first + v.count as usize;
    let mut sum: usize = 0;
    for j in first..to {
        let g = op_group(o, s, j)?;
        sum += g.points as usize;
    }
    Ok(sum)
}

// A ring's groups' point counts, less its number of groups, add to its point count.
#[tactic(auto, unfolding(crate::specs::Cover::points_add, answer::specs::Answers::holds))]
pub fn points_add(o: Opened, s: &[u8], v: RingRecord) -> bool
    ensures { result ≡ points_add o s.now v }
{
    sum_of_ops(o, s, v).is_ok_and(|sum| reader_records::count_rule(v, sum))
}

// ---- the parts of something larger

// kept: four of one line, each asks another directory, as the specs' definitions do (chunk_under, group_under, ring_under, poly_under); what they share is `covers`.
// The box covers that of a chunk.
#[tactic(auto, unfolding(crate::specs::Cover::chunk_under, answer::specs::Answers::holds))]
fn chunk_under(o: Opened, s: &[u8], b: BBox, index: usize) -> bool
    ensures { result ≡ chunk_under o s.now b index }
{
    reader_records::chunk_at(o, s, index).is_ok_and(|v| covers(b, v.bbox))
}

// The box covers that of the group that an op names.
#[tactic(auto, unfolding(crate::specs::Cover::group_under, answer::specs::Answers::holds))]
pub fn group_under(o: Opened, s: &[u8], b: BBox, index: usize) -> bool
    ensures { result ≡ group_under o s.now b index }
{
    op_group(o, s, index).is_ok_and(|v| covers(b, v.bbox))
}

// The box covers that of a ring.
#[tactic(auto, unfolding(crate::specs::Cover::ring_under, answer::specs::Answers::holds))]
pub fn ring_under(o: Opened, s: &[u8], b: BBox, index: usize) -> bool
    ensures { result ≡ ring_under o s.now b index }
{
    reader_records::ring_at(o, s, index).is_ok_and(|v| covers(b, v.bbox))
}

// The box covers that of a polygon.
#[tactic(auto, unfolding(crate::specs::Cover::poly_under, answer::specs::Answers::holds))]
pub fn poly_under(o: Opened, s: &[u8], b: BBox, index: usize) -> bool
    ensures { result ≡ poly_under o s.now b index }
{
    reader_records::poly_at(o, s, index).is_ok_and(|v| covers(b, v.bbox))
}

// The next chunk's first point lies in the box.
#[tactic(auto, unfolding(answer::specs::Answers::holds))]
fn next_in_box(o: Opened, s: &[u8], b: BBox, next: usize) -> bool
    ensures { result ≡ holds (in_box b) (first_at o s.now next) }
{
    reader_chunks::first_at(o, s, next).is_ok_and(|q| boxes::in_box(b, q))
}

// A chunk's box covers the next chunk's first point.
#[tactic(auto, unfolding(crate::specs::Cover::joint_covers, answer::specs::Answers::holds))]
fn joint_covers(o: Opened, s: &[u8], index: usize) -> bool
    requires { index < 0x1_0001_0000 }
    ensures { result ≡ joint_covers o s.now index }
{
    reader_records::chunk_at(o, s, index).is_ok_and(|v| next_in_box(o, s, v.bbox, index + 1))
}

// Each of `count` records or parts, from `first` on, passes the test.
pub fn each_passes<F: Fn(usize) -> bool>(first: u32, count: u32, fits: F) -> bool
    ghost test: { ℕ → Bool }
    requires callable { (j : ℕ) → first ≤ j → j < first + count → F.pre fits j }
    requires decides { (j : ℕ) (r : Bool) → F.post fits j r → r ≡ test j }
    ensures { result ≡ all test count first }
{
    let from = first as usize;
    let to = from + count as usize;
    for j in from..to {
        if !fits(j) {
            return false;
        }
    }
    true
}

// Each of `count` parts, from `first` on.
pub fn parts_fit(o: Opened, s: &[u8], part: Part, first: u32, count: u16) -> bool
    ensures { result ≡ all (part_fits o s.now part) count first }
{
    let n = u32::from(count);
    match part {
        Part::Chunk(b) => each_passes(first, n, move |j| chunk_under(o, s, b, j)),
        Part::Group(b) => each_passes(first, n, move |j| group_under(o, s, b, j)),
        Part::Ring(b) => each_passes(first, n, move |j| ring_under(o, s, b, j)),
        Part::Polygon(b) => each_passes(first, n, move |j| poly_under(o, s, b, j)),
        Part::Joint => each_passes(first, n, move |j| joint_covers(o, s, j)),
    }
}

// ---- a group

// Within a group, each chunk's box but the last's covers the next chunk's first point.
#[tactic(auto, unfolding(crate::specs::Cover::joints_cover))]
pub fn joints_cover(o: Opened, s: &[u8], v: GroupRecord) -> bool
    ensures { result ≡ joints_cover o s.now v }
{
    parts_fit(o, s, Part::Joint, v.first, v.count.saturating_sub(1))
}

// The point is the first of chunk `index`.
#[tactic(auto, unfolding(answer::specs::Answers::holds))]
fn is_first(o: Opened, s: &[u8], q: I32Point, index: usize) -> bool
    ensures { result ≡ holds (same_point q) (first_at o s.now index) }
{
    reader_chunks::first_at(o, s, index).is_ok_and(|first| boxes::same_point(q, first))
}

// The point is the last of chunk `index`.
fn is_last(o: Opened, s: &[u8], q: I32Point, index: usize) -> bool
    ensures { result ≡ holds (λ l. same_point q (last_of l)) (chunk_points o s.now index) }
{
    reader_chunks::trace_at(o, s, index).is_ok_and(|(_, last)| boxes::same_point(q, last))
}

// The group's entry and exit are its first and last point.
#[tactic(auto, unfolding(crate::specs::Cover::ends_fit))]
fn ends_fit(o: Opened, s: &[u8], v: GroupRecord) -> bool
    ensures { result ≡ ends_fit o s.now v }
{
    let first = v.first as usize;
    let last = first + v.count.saturating_sub(1) as usize;
    is_first(o, s, v.entry, first) & is_last(o, s, v.exit, last)
}

// All boxes of a group's chunks are covered by its own.
fn chunks_under(o: Opened, s: &[u8], v: GroupRecord) -> bool
    ensures { result ≡ all (chunk_under o s.now v.bbox) v.count v.first }
{
    parts_fit(o, s, Part::Chunk(v.bbox), v.first, v.count)
}

// The group's box covers its chunks' boxes; its entry and exit are its first and last point.
#[tactic(auto, unfolding(crate::specs::Cover::group_covers))]
pub fn group_covers(o: Opened, s: &[u8], v: GroupRecord) -> bool
    ensures { result ≡ group_covers o s.now v }
{
    chunks_under(o, s, v) & ends_fit(o, s, v)
}
