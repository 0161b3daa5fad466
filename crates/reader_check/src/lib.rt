// The full check after opening: F2 to F6, demand by demand, over every record of every directory.
#![tactic(auto)]

ghost use Rattle.std.specs.Prelude.{◌≡◌, true};
ghost use Rattle.reader_records.specs.Records.{poly_at, ring_at, op_at, group_at, tz_at};
ghost use Rattle.reader_chunks.specs.Chunks.{chunk_points};
ghost use Rattle.reader_cover.specs.Cover.{points_add, chunk_covers, joints_cover, group_covers, ring_covers, poly_covers, zone_covers};
ghost use Rattle.shapes.specs.Words.{has_room};
ghost use Rattle.shapes.specs.Layout as Layout;
ghost use Rattle.directories.specs.Directories.{directories};
ghost use Rattle.reader_check.specs.FullCheck.{Chunk, met, records_hold, chunks_decode, rings_have_room, chunk_boxes_cover, groups_cover, boxes_cover, lowest_broken};
ghost use Rattle.answer.specs.Answers.{holds, answered};

use opened::Opened;
use reader_cover::Part;
use reader_records::{ListRecord, RingRecord};

// ---- F2: a zone, a polygon, an op meets its rule; a ring does, and its points add.

#[tactic(auto, unfolding(answer::specs::Answers::answered, answer::specs::Answers::holds))]
fn zone_there(o: Opened, s: &[u8], index: usize) -> bool
    ensures { result ≡ answered (tz_at o s.now index) }
{
    reader_records::tz_at(o, s, index).is_ok()
}

#[tactic(auto, unfolding(answer::specs::Answers::answered, answer::specs::Answers::holds))]
fn poly_there(o: Opened, s: &[u8], index: usize) -> bool
    ensures { result ≡ answered (poly_at o s.now index) }
{
    reader_records::poly_at(o, s, index).is_ok()
}

#[tactic(auto, unfolding(answer::specs::Answers::answered, answer::specs::Answers::holds))]
fn op_there(o: Opened, s: &[u8], index: usize) -> bool
    ensures { result ≡ answered (op_at o s.now index) }
{
    reader_records::op_at(o, s, index).is_ok()
}

#[tactic(auto, unfolding(answer::specs::Answers::holds))]
fn ring_adds(o: Opened, s: &[u8], index: usize) -> bool
    ensures { result ≡ holds (points_add o s.now) (ring_at o s.now index) }
{
    reader_records::ring_at(o, s, index).is_ok_and(|v| reader_cover::points_add(o, s, v))
}

// F2 by document 02: a ring has room in it.
fn ring_has_room(o: Opened, s: &[u8], index: usize) -> bool
    requires { (records_hold o s.now ≡ true) × (chunks_decode o s.now ≡ true) }
    ensures { result ≡ has_room (Layout.ring_at (directories o s.now) index) }
{
    reader_records::ring_at(o, s, index).is_ok_and(|v| reader_room::has_room(o, s, v))
}

// ---- F3: a chunk decodes.

#[tactic(auto, using(reader_cover::proofs::Traces::trace_decodes), unfolding(answer::specs::Answers::answered, answer::specs::Answers::holds))]
fn chunk_decodes(o: Opened, s: &[u8], index: usize) -> bool
    ensures { result ≡ answered (chunk_points o s.now index) }
{
    reader_chunks::trace_at(o, s, index).is_ok()
}

// ---- F4: a chunk's box covers its points; within a group, the next chunk's first.

fn chunk_covers(o: Opened, s: &[u8], index: usize) -> bool
    ensures { result ≡ chunk_covers o s.now index }
{
    reader_chunks::trace_at(o, s, index).is_ok_and(|(inside, _)| inside)
}

#[tactic(auto, unfolding(answer::specs::Answers::holds))]
fn group_joined(o: Opened, s: &[u8], index: usize) -> bool
    ensures { result ≡ holds (joints_cover o s.now) (group_at o s.now index) }
{
    reader_records::group_at(o, s, index).is_ok_and(|v| reader_cover::joints_cover(o, s, v))
}

// ---- F5: a group's box covers its chunks', and its ends are its first and last point.

#[tactic(auto, unfolding(answer::specs::Answers::holds))]
fn group_holds(o: Opened, s: &[u8], index: usize) -> bool
    ensures { result ≡ holds (group_covers o s.now) (group_at o s.now index) }
{
    reader_records::group_at(o, s, index).is_ok_and(|v| reader_cover::group_covers(o, s, v))
}

// ---- F6: the box covers those below it.

// kept: three coverings of one shape, since the specs have a definition for each (ring_covers, poly_covers, zone_covers), over other records and directories.
#[tactic(auto, unfolding(reader_cover::specs::Cover::ring_covers))]
fn ring_covers(o: Opened, s: &[u8], v: RingRecord) -> bool
    ensures { result ≡ ring_covers o s.now v }
{
    reader_cover::parts_fit(o, s, Part::Group(v.bbox), v.first, v.count)
}

#[tactic(auto, unfolding(answer::specs::Answers::holds))]
fn ring_holds(o: Opened, s: &[u8], index: usize) -> bool
    ensures { result ≡ holds (ring_covers o s.now) (ring_at o s.now index) }
{
    reader_records::ring_at(o, s, index).is_ok_and(|v| ring_covers(o, s, v))
}

#[tactic(auto, unfolding(reader_cover::specs::Cover::poly_covers))]
fn poly_covers(o: Opened, s: &[u8], v: ListRecord) -> bool
    ensures { result ≡ poly_covers o s.now v }
{
    reader_cover::parts_fit(o, s, Part::Ring(v.bbox), v.first, v.count)
}

#[tactic(auto, unfolding(answer::specs::Answers::holds))]
fn poly_holds(o: Opened, s: &[u8], index: usize) -> bool
    ensures { result ≡ holds (poly_covers o s.now) (poly_at o s.now index) }
{
    reader_records::poly_at(o, s, index).is_ok_and(|v| poly_covers(o, s, v))
}

#[tactic(auto, unfolding(reader_cover::specs::Cover::zone_covers))]
fn zone_covers(o: Opened, s: &[u8], v: ListRecord) -> bool
    ensures { result ≡ zone_covers o s.now v }
{
    reader_cover::parts_fit(o, s, Part::Polygon(v.bbox), v.first, v.count)
}

#[tactic(auto, unfolding(answer::specs::Answers::holds))]
fn zone_holds(o: Opened, s: &[u8], index: usize) -> bool
    ensures { result ≡ holds (zone_covers o s.now) (tz_at o s.now index) }
{
    reader_records::tz_at(o, s, index).is_ok_and(|v| zone_covers(o, s, v))
}

// ---- the rules, over every record of every directory

// F2, the older part.
#[tactic(auto, unfolding(crate::specs::FullCheck::records_hold, crate::specs::FullCheck::all_met, crate::specs::FullCheck::met))]
fn records_hold(o: Opened, s: &[u8]) -> bool
    ensures { result ≡ records_hold o s.now }
{
    reader_cover::each_passes(0, o.zones.count, move |i| zone_there(o, s, i))
        && reader_cover::each_passes(0, o.polys.count, move |i| poly_there(o, s, i))
        && reader_cover::each_passes(0, o.ops.count, move |i| op_there(o, s, i))
        && reader_cover::each_passes(0, o.rings.count, move |i| ring_adds(o, s, i))
}

// The first demand of F4.
#[tactic(auto, unfolding(crate::specs::FullCheck::met))]
fn chunks_cover(o: Opened, s: &[u8]) -> bool
    ensures { result ≡ met o s.now Chunk }
{
    reader_cover::each_passes(0, o.chunks.count, move |i| chunk_covers(o, s, i))
}

// F3: a box that covers a chunk's points says that they decode, so no chunk is read where all are covered.
#[tactic(auto, using(crate::proofs::Rooms::all_decode), unfolding(crate::specs::FullCheck::chunks_decode, crate::specs::FullCheck::all_met, crate::specs::FullCheck::met))]
fn chunks_decode(o: Opened, s: &[u8], covered: bool) -> bool
    requires { covered ≡ met o s.now Chunk }
    ensures { result ≡ chunks_decode o s.now }
{
    covered || reader_cover::each_passes(0, o.chunks.count, move |i| chunk_decodes(o, s, i))
}

// F2, document 02's part.
#[tactic(auto, unfolding(crate::specs::FullCheck::rings_have_room, crate::specs::FullCheck::all_met, crate::specs::FullCheck::met))]
fn rings_have_room(o: Opened, s: &[u8]) -> bool
    requires { (records_hold o s.now ≡ true) × (chunks_decode o s.now ≡ true) }
    ensures { result ≡ rings_have_room o s.now }
{
    reader_cover::each_passes(0, o.rings.count, move |i| ring_has_room(o, s, i))
}

// F4, where its first demand is known.
#[tactic(auto, unfolding(crate::specs::FullCheck::chunk_boxes_cover, crate::specs::FullCheck::all_met, crate::specs::FullCheck::met))]
fn chunk_boxes_cover(o: Opened, s: &[u8], covered: bool) -> bool
    requires { covered ≡ met o s.now Chunk }
    ensures { result ≡ chunk_boxes_cover o s.now }
{
    covered && reader_cover::each_passes(0, o.groups.count, move |i| group_joined(o, s, i))
}

// F5.
#[tactic(auto, unfolding(crate::specs::FullCheck::groups_cover, crate::specs::FullCheck::all_met, crate::specs::FullCheck::met))]
fn groups_cover(o: Opened, s: &[u8]) -> bool
    ensures { result ≡ groups_cover o s.now }
{
    reader_cover::each_passes(0, o.groups.count, move |i| group_holds(o, s, i))
}

// F6.
#[tactic(auto, unfolding(crate::specs::FullCheck::boxes_cover, crate::specs::FullCheck::all_met, crate::specs::FullCheck::met))]
fn boxes_cover(o: Opened, s: &[u8]) -> bool
    ensures { result ≡ boxes_cover o s.now }
{
    reader_cover::each_passes(0, o.rings.count, move |i| ring_holds(o, s, i))
        && reader_cover::each_passes(0, o.polys.count, move |i| poly_holds(o, s, i))
        && reader_cover::each_passes(0, o.zones.count, move |i| zone_holds(o, s, i))
}

// kept: a number, 0 for none, as `lowest_broken` has it, of which the theorems of the demands speak.
// The lowest broken rule, 2 to 6; 0 where none is. The chunks' boxes are looked at before F3, so that chunks are read once for F3 and F4.
#[tactic(auto, unfolding(crate::specs::FullCheck::lowest_broken, crate::specs::FullCheck::rule))]
pub fn broken_rule(o: Opened, s: &[u8]) -> u32
    ensures { result ≡ lowest_broken o s.now }
{
    if !records_hold(o, s) {
        return 2;
    }
    let covered = chunks_cover(o, s);
    if !chunks_decode(o, s, covered) {
        return 3;
    }
    if !rings_have_room(o, s) {
        return 2;
    }
    if !chunk_boxes_cover(o, s, covered) {
        return 4;
    }
    if !groups_cover(o, s) {
        return 5;
    }
    if !boxes_cover(o, s) {
        return 6;
    }
    0
}
