// A zone as GeoJSON text in lent memory. Asked only of a file that the full check accepts.
// One walk measures and writes: what finds no room is counted all the same.
// A position takes at most 27 bytes and a mark, so a ring of 10,000 takes at most 280,001, a polygon of 65,535 rings at most 18,349,931,071, and a zone of 65,535 polygons at most 1,202,562,732,803,559: no place wraps.
// kept: the lent memory and the place behind what was drawn are two, and the place is handed back. Document 01: `Vec` is lent slices, `&mut inside` a returned value.
// kept: `Ready` is asked of the record and the bytes, which stay two parameters (document 01), so no type carries it.
#![tactic(auto)]

ghost use Rattle.std.specs.Prelude.{◌≡◌, ◌+◌, ◌*◌, ◌≤◌, ◌<◌, length};
ghost use Rattle.plane.specs.Lines.{every};
ghost use Rattle.plane.specs.Runs.{run};
ghost use Rattle.answer.specs.Answers.{how_many, left};
ghost use Rattle.shapes.specs.Layout.{ring_at, polygon_at, zone_at};
ghost use Rattle.shapes.specs.Outline.{outline, outlines, zone_drawable};
ghost use Rattle.geojson.specs.Text.{ring_text, map_text};
ghost use Rattle.answer.specs.Over.{over};
ghost use Rattle.directories.specs.Directories.{directories};
ghost use Rattle.reader_outline.specs.Held.{points_in};
ghost use Rattle.reader_outline.specs.Told.{Ready};
ghost use Rattle.reader_map.specs.Map.{zone_text, in_room};
ghost use Rattle.reader_map.specs.Steps.{to_come, DrawnAs, way, spot_of, ring_fits, polygon_fits, side_text, part_text};

use answer::Answer;
use opened::Opened;

// ---- a ring

// Where in the lent numbers position i of k stands, as they are written.
fn spot(back: bool, k: usize, i: usize) -> usize
    requires { (i < k) × (k ≤ 10_000) }
    ensures { (result ≡ 2 * spot_of back k i) × (result + 1 < 2 * k) }
{
    if back { 2 * (k - 1 - i) } else { 2 * i }
}

// The first k positions of the lent numbers, as they stand or backwards.
fn write_ring(held: &[i32], k: usize, back: bool, out: &mut [u8], from: usize) -> usize
    requires { (0 < k) × (k ≤ 10_000) × (2 * k ≤ length held.now) × (from ≤ 0x2000_0000_0000_0000) }
    ensures { (result ≡ from + length (ring_text (way back (points_in held.now k)))) × (result ≤ from + 280_001) × (out.new ≡ over out.old from (ring_text (way back (points_in held.now k)))) }
{
    let mut at = from;
    let mut mark = b'[';
    for i in 0..k {
        let x = spot(back, k, i);
        let next = lettering::put(out, at, mark);
        at = lettering::position(out, next, held[x], held[x + 1]);
        mark = b',';
    }
    lettering::put(out, at, b']')
}

// A ring of the file, by its number: 48 if it cannot be drawn.
fn draw_ring(
    o: Opened,
    s: &[u8],
    ring: usize,
    hole: bool,
    held: &mut [i32; 20_000],
    out: &mut [u8],
    at: usize,
) -> Answer<usize>
    requires { Ready o s.now × (ring < o.rings.count) × (at ≤ 0x2000_0000_0000_0000) }
    ensures { DrawnAs (ring_fits (ring_at (directories o s.now) ring)) (ring_text (outline hole (ring_at (directories o s.now) ring))) 280_001 at result out.old out.new }
{
    let (k, back) = reader_outline::outline_of(o, s, ring, hole, held)?;
    Ok(write_ring(held, k, back, out, at))
}

// ---- a polygon

// Its rings: the first is the outer one, the others are holes.
fn draw_rings(
    o: Opened,
    s: &[u8],
    first: usize,
    count: u16,
    held: &mut [i32; 20_000],
    out: &mut [u8],
    from: usize,
) -> Answer<usize>
    requires { Ready o s.now × (first < 0x1_0000_0000) × (first + count ≤ o.rings.count) × (from ≤ 0x1000_0000_0000_0000) }
    ensures { DrawnAs (every ring_fits (run (ring_at (directories o s.now)) count first)) (to_come (side_text o s.now first) 91 count first) 18_349_931_071 from result out.old out.new }
{
    let mut at = from;
    let mut mark = b'[';
    for i in first..first + count as usize {
        let next = lettering::put(out, at, mark);
        at = draw_ring(o, s, i, first < i, held, out, next)?;
        mark = b',';
    }
    Ok(lettering::put(out, at, b']'))
}

// A polygon of the file, by its number.
fn draw_polygon(
    o: Opened,
    s: &[u8],
    index: usize,
    held: &mut [i32; 20_000],
    out: &mut [u8],
    at: usize,
) -> Answer<usize>
    requires { Ready o s.now × (index < o.polys.count) × (at ≤ 0x1000_0000_0000_0000) }
    ensures { DrawnAs (polygon_fits (polygon_at (directories o s.now) index)) (part_text o s.now index) 18_349_931_071 at result out.old out.new }
{
    let v = reader_records::poly_at(o, s, index)?;
    draw_rings(o, s, v.first as usize, v.count, held, out, at)
}

// ---- a zone

// kept: `draw_rings` again, over other parts: their promises name another text and another bound, and one function would take both as ghost values.
// Its polygons.
fn draw_polygons(
    o: Opened,
    s: &[u8],
    first: usize,
    count: u16,
    held: &mut [i32; 20_000],
    out: &mut [u8],
    from: usize,
) -> Answer<usize>
    requires { Ready o s.now × (first < 0x1_0000_0000) × (first + count ≤ o.polys.count) × (from ≤ 0x800_0000_0000_0000) }
    ensures { DrawnAs (every polygon_fits (run (polygon_at (directories o s.now)) count first)) (to_come (part_text o s.now) 91 count first) 1_202_562_732_803_521 from result out.old out.new }
{
    let mut at = from;
    let mut mark = b'[';
    for i in first..first + count as usize {
        let next = lettering::put(out, at, mark);
        at = draw_polygon(o, s, i, held, out, next)?;
        mark = b',';
    }
    Ok(lettering::put(out, at, b']'))
}

// A zone of the file, by its number: the whole text.
fn draw_zone(
    o: Opened,
    s: &[u8],
    zone: usize,
    held: &mut [i32; 20_000],
    out: &mut [u8],
) -> Answer<usize>
    requires { Ready o s.now × (zone < o.zones.count) }
    ensures { DrawnAs (zone_drawable (zone_at (directories o s.now) zone)) (map_text (outlines (zone_at (directories o s.now) zone))) 1_202_562_732_803_559 0 result out.old out.new }
{
    let v = reader_records::tz_at(o, s, zone)?;
    let from = lettering::head(out, 0);
    let e = draw_polygons(o, s, v.first as usize, v.count, held, out, from)?;
    Ok(lettering::tail(out, e))
}

// With memory of its own for the positions of one ring.
fn draw(o: Opened, s: &[u8], zone: usize, out: &mut [u8]) -> Answer<usize>
    requires { Ready o s.now × (zone < o.zones.count) }
    ensures { DrawnAs (zone_drawable (zone_at (directories o s.now) zone)) (map_text (outlines (zone_at (directories o s.now) zone))) 1_202_562_732_803_559 0 result out.old out.new }
{
    let mut held = [0i32; 20_000];
    draw_zone(o, s, zone, &mut held, out)
}

// ---- what is asked

// How many bytes the text of a zone takes. Nothing is written but a byte of its own.
pub fn map_size(o: Opened, s: &[u8], zone: u32) -> Answer<usize>
    requires { Ready o s.now }
    ensures { result ≡ how_many (zone_text o s.now zone) }
{
    answer::claim(45, zone < o.zones.count)?;
    let mut none = [0u8; 1];
    draw(o, s, zone as usize, &mut none)
}

// The text of a zone into the first bytes of `out`: how many they are. A refusal leaves the lent memory as it was, and bytes behind the text are never touched: all is measured before the first byte is written.
pub fn map_into(o: Opened, s: &[u8], zone: u32, out: &mut [u8]) -> Answer<usize>
    requires { Ready o s.now }
    ensures result_value { result ≡ how_many (in_room (length out.old) (zone_text o s.now zone)) }
    ensures memory { out.new ≡ left out.old (in_room (length out.old) (zone_text o s.now zone)) }
{
    let n = map_size(o, s, zone)?;
    answer::claim(46, n <= out.len())?;
    draw(o, s, zone as usize, out)
}
