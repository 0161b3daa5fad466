// A ring's positions read from the file into lent numbers, two a position, and its outline. Asked only of a file that the full check accepts.
// kept: the lent numbers and how many positions stand in them are two, and the number is handed back; so its bound, 10,000, is asked. Document 01: `Vec` is lent slices, `&mut inside` a returned value.
// kept: `Ready` is asked of the record and the bytes, which stay two parameters (document 01), so no type carries it.
#![tactic(auto)]

ghost use Rattle.std.specs.Prelude.{◌≡◌, true, [], ◌++◌, ◌+◌, ◌*◌, ◌≤◌, ◌<◌, length, set, get_or, nat_abs, ◌*ℤ◌};
ghost use Rattle.plane.specs.Domain.{in_domain};
ghost use Rattle.plane.specs.Lines.{every, origin};
ghost use Rattle.shapes.specs.Shapes.{chunk_points, leg_points};
ghost use Rattle.shapes.specs.Layout.{leg_at};
ghost use Rattle.shapes.specs.Outline.{closed, swept, doubled_area};
ghost use Rattle.directories.specs.Directories.{chunk_shape, directories};
ghost use Rattle.reader_outline.specs.Held.{spots, points_in};
ghost use Rattle.reader_outline.specs.Told.{Ready, few_enough, Keeps, positions_at, drawn_by, outline_at};
ghost use Rattle.reader_outline.specs.Steps.{row_points, side_points, legs_row, entry_of, joined_on, legs_on, Starts, turned_in};

use answer::Answer;
use opened::Opened;
use plane::I32Point;
use reader_records::GroupRecord;

// The point at a place.
fn point_at(held: &[i32], i: usize) -> I32Point
    requires { 2 * i + 1 < length held.now }
    ensures { result ≡ get_or (spots held.now) i origin }
{
    I32Point {
        x: held[2 * i],
        y: held[2 * i + 1],
    }
}

// A point put at a place.
fn put_at(held: &mut [i32], i: usize, q: I32Point)
    requires { 2 * i + 1 < length held.old }
    ensures { spots held.new ≡ set (spots held.old) i q }
{
    held[2 * i] = q.x;
    held[2 * i + 1] = q.y;
}

// The points from one place to another turned round, in place.
fn turn_round(held: &mut [i32], from: usize, to: usize)
    requires { (from ≤ to) × (2 * to ≤ length held.old) }
    ensures { spots held.new ≡ turned_in (spots held.old) from to }
{
    for d in 0..(to - from) / 2 {
        let i = from + d;
        let j = to - d - 1;
        let p = point_at(held, i);
        let q = point_at(held, j);
        put_at(held, i, q);
        put_at(held, j, p);
    }
}

// The points of chunk `index`, behind the first k positions.
fn fill_chunk(
    o: Opened,
    s: &[u8],
    index: usize,
    held: &mut [i32; 20_000],
    k: usize,
) -> Answer<usize>
    requires ready { Ready o s.now }
    requires index_lt_count { index < o.chunks.count }
    requires few { k ≤ 10_000 }
    ensures { (result ≡ few_enough (points_in held.old k ++ chunk_points (chunk_shape o s.now index))) × Keeps held.new (points_in held.old k ++ chunk_points (chunk_shape o s.now index)) }
{
    let v = reader_records::chunk_at(o, s, index)?;
    match reader_chunks::decode_chunk_points(o, s, index, &mut held[2 * k..]) {
        Ok(()) => Ok(k + v.count as usize),
        Err(_) => answer::fail(48),
    }
}

// The points of that many chunks from chunk `first` on, behind the first k positions.
fn fill_chunks(
    o: Opened,
    s: &[u8],
    first: usize,
    count: u16,
    held: &mut [i32; 20_000],
    k: usize,
) -> Answer<usize>
    requires ready { Ready o s.now }
    requires count_bound { first + count ≤ o.chunks.count }
    requires few { k ≤ 10_000 }
    ensures { (result ≡ few_enough (points_in held.old k ++ row_points o s.now count first)) × Keeps held.new (points_in held.old k ++ row_points o s.now count first) }
{
    let mut n = k;
    for i in first..first + count as usize {
        n = fill_chunk(o, s, i, held, n)?;
    }
    Ok(n)
}

// The same of a group, turned round where its op says so.
fn fill_group(
    o: Opened,
    s: &[u8],
    g: GroupRecord,
    turned: bool,
    held: &mut [i32; 20_000],
    k: usize,
) -> Answer<usize>
    requires ready { Ready o s.now }
    requires count_bound { g.first + g.count ≤ o.chunks.count }
    requires few { k ≤ 10_000 }
    ensures { (result ≡ few_enough (points_in held.old k ++ side_points o s.now g turned)) × Keeps held.new (points_in held.old k ++ side_points o s.now g turned) }
{
    let n = fill_chunks(o, s, g.first as usize, g.count, held, k)?;
    if turned {
        turn_round(held, k, n);
    }
    Ok(n)
}

// Where a group is entered.
#[tactic(auto, unfolding(crate::specs::Steps::entry_of))]
fn entry_of(g: GroupRecord, turned: bool) -> I32Point
    ensures { result ≡ entry_of g turned }
{
    if turned { g.exit } else { g.entry }
}

// The place from which a leg that is entered at e is written: over the last position where that is e.
fn leg_start(held: &[i32; 20_000], k: usize, e: I32Point) -> usize
    requires { k ≤ 10_000 }
    ensures { Starts held.now k e result }
{
    if 0 < k && point_at(held, k - 1) == e {
        return k - 1;
    }
    k
}

// The leg of op `op`, behind the first k positions: an entry equal to the last of them stands once.
fn fill_leg(o: Opened, s: &[u8], op: usize, held: &mut [i32; 20_000], k: usize) -> Answer<usize>
    requires ready { Ready o s.now }
    requires op_lt_count { op < o.ops.count }
    requires few { k ≤ 10_000 }
    ensures { (result ≡ few_enough (joined_on (points_in held.old k) (leg_points (leg_at (directories o s.now) op)))) × Keeps held.new (joined_on (points_in held.old k) (leg_points (leg_at (directories o s.now) op))) }
{
    let w = reader_records::op_at(o, s, op)?;
    let g = reader_records::group_at(o, s, w % 0x8000_0000)?;
    let turned = !(w < 0x8000_0000);
    let j = leg_start(held, k, entry_of(g, turned));
    fill_group(o, s, g, turned, held, j)
}

// The legs of that many ops from op `first` on, one after another.
fn fill_legs(
    o: Opened,
    s: &[u8],
    first: usize,
    count: u16,
    held: &mut [i32; 20_000],
) -> Answer<usize>
    requires ready { Ready o s.now }
    requires count_bound { first + count ≤ o.ops.count }
    ensures { (result ≡ few_enough (legs_on [] (legs_row o s.now count first))) × Keeps held.new (legs_on [] (legs_row o s.now count first)) }
{
    let mut n: usize = 0;
    for i in first..first + count as usize {
        n = fill_leg(o, s, i, held, n)?;
    }
    Ok(n)
}

// The first k positions, and the first of them once more unless it is the last.
fn close_ring(held: &mut [i32; 20_000], k: usize) -> Answer<usize>
    requires k_nonzero { 0 < k }
    requires few { k ≤ 10_000 }
    ensures { (result ≡ few_enough (closed (points_in held.old k))) × Keeps held.new (closed (points_in held.old k)) }
{
    let a = point_at(held, 0);
    let z = point_at(held, k - 1);
    if z == a {
        return Ok(k);
    }
    if k == 10_000 {
        return answer::fail(48);
    }
    put_at(held, k, a);
    Ok(k + 1)
}

// The positions of ring `ring` into an array, two a position: 48 where there are over 10,000.
fn fill_ring(o: Opened, s: &[u8], ring: usize, held: &mut [i32; 20_000]) -> Answer<usize>
    requires ready { Ready o s.now }
    requires ring_lt_count { ring < o.rings.count }
    ensures { (result ≡ few_enough (positions_at o s.now ring)) × Keeps held.new (positions_at o s.now ring) }
{
    let v = reader_records::ring_at(o, s, ring)?;
    let n = fill_legs(o, s, v.first as usize, v.count, held)?;
    close_ring(held, n)
}

// The positions of ring `ring` into lent numbers, two a position: 48 where there are over 10,000.
pub fn ring_positions(o: Opened, s: &[u8], ring: usize, held: &mut [i32]) -> Answer<usize>
    requires ready { Ready o s.now }
    requires ring_lt_count { ring < o.rings.count }
    requires held_len { length held.old ≡ 20_000 }
    ensures { (result ≡ few_enough (positions_at o s.now ring)) × Keeps held.new (positions_at o s.now ring) }
{
    let Some(room) = held.as_mut_array() else {
        unreachable!()
    };
    fill_ring(o, s, ring, room)
}

// The product of two coordinates.
fn product(x: i32, y: i32) -> i64
    requires { (nat_abs x ≤ 18_000_000) × (nat_abs y ≤ 9_000_000) }
    ensures { result ≡ x *ℤ y }
{
    i64::from(x) * i64::from(y)
}

// What the way from one point to the next adds to the doubled area.
fn sweep(a: I32Point, b: I32Point) -> i64
    requires a_value { in_domain a ≡ true }
    requires b_value { in_domain b ≡ true }
    ensures { result ≡ swept a b }
{
    product(a.x, b.y) - product(b.x, a.y)
}

// The exact doubled area of the first k positions.
pub fn doubled_area(held: &[i32], k: usize) -> i64
    requires k_bound { (k ≤ 10_000) × (2 * k ≤ length held.now) }
    requires k_value { every in_domain (points_in held.now k) ≡ true }
    ensures { result ≡ doubled_area (points_in held.now k) }
{
    let mut sum: i64 = 0;
    for i in 1..k {
        sum += sweep(point_at(held, i - 1), point_at(held, i));
    }
    sum
}

// The outline of a ring, which may be a hole, of the first n positions: 48 for under four, or zero area.
fn drawn(held: &[i32], n: usize, hole: bool) -> Answer<(usize, bool)>
    requires n_bound { (n ≤ 10_000) × (2 * n ≤ length held.now) }
    requires n_value { every in_domain (points_in held.now n) ≡ true }
    ensures { result ≡ drawn_by (points_in held.now n) hole }
{
    if n < 4 {
        return answer::fail(48);
    }
    let area = doubled_area(held, n);
    if area == 0 {
        return answer::fail(48);
    }
    Ok((n, if hole { 0 < area } else { area < 0 }))
}

// The outline of ring `ring`, which may be a hole: its positions into lent numbers, how many they are, and whether they are written from the first backwards. 48 for a ring of under four positions, over 10,000, or zero area.
pub fn outline_of(
    o: Opened,
    s: &[u8],
    ring: usize,
    hole: bool,
    held: &mut [i32],
) -> Answer<(usize, bool)>
    requires ready { Ready o s.now }
    requires ring_lt_count { ring < o.rings.count }
    requires held_len { length held.old ≡ 20_000 }
    ensures result_value { result ≡ outline_at o s.now ring hole }
    ensures memory { Keeps held.new (positions_at o s.now ring) }
{
    let n = ring_positions(o, s, ring, held)?;
    drawn(held, n, hole)
}
