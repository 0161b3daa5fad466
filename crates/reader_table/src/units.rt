// Which sections share no byte with an earlier one, told by a map of the file: a bit for each unit of four bytes.
// A section that 12 lets pass starts with a unit, so two sections share a byte only where they share a unit's first.
ghost use Rattle.std.specs.Prelude.{◌≡◌, true, ◌+◌, ◌*◌, ◌≤◌, ◌<◌, length};
ghost use Rattle.reader_table.specs.Table.{sections};
ghost use Rattle.reader_table.specs.Steps.{own, Strides, Taken, Clipped, TakenBy, Split, Placed, Settled};

use super::Table;

// Bits of one byte of the map, and how many units they stand for.
#[derive(Clone, Copy)]
struct Stride {
    bits: u8,
    units: usize,
}

// The bit of a unit in its byte.
fn own_bit(k: usize) -> u8
    ensures { result ≡ own k }
{
    1u8 << (k % 8)
}

// The bits from unit k on: those of a whole byte where it ends by `to`, else one.
fn bits_from(k: usize, to: usize) -> Stride
    requires { k < 0x1_0000_0000 }
    ensures { Strides k result }
{
    if (k % 8 == 0) && (k + 8 <= to) {
        return Stride {
            bits: 255,
            units: 8,
        };
    }
    Stride {
        bits: own_bit(k),
        units: 1,
    }
}

// Marks the units from one to another, up to the first that was marked before: whether none was.
fn take_units(map: &mut [u8], from: usize, to: usize) -> bool
    requires { (to ≤ 8 * length map.old) × (to < 0x1_0000_0000) }
    ensures { result ≡ true → Taken map.old map.new from to }
{
    let mut k = from;
    // kept: a step is of one unit or of eight
    while k < to {
        let t = bits_from(k, to);
        let bits = t.bits;
        let b = k / 8;
        let old = map[b];
        if old & bits != 0 {
            return false;
        }
        map[b] = old | bits;
        k += t.units;
    }
    true
}

// A unit's place in the window of so many units from `base` on: its first or its end, where the unit lies before it or behind it.
fn clip(unit: usize, base: usize, size: usize) -> usize
    ensures { Clipped unit base size result }
{
    unit.saturating_sub(base).min(size)
}

// Entry i takes its units of the window: whether all were free.
fn take_entry(t: Table<'_>, i: usize, base: usize, map: &mut [u8]) -> bool
    requires { (i < sections t.s.now) × (base < 0x1_0000_0000) × (8 * length map.old < 0x1_0000_0000) }
    ensures { result ≡ true → TakenBy t.entry.s.now i base map.old map.new }
{
    let off = t.field(i, 4);
    let len = t.field(i, 8);
    let size = 8 * map.len();
    let from = clip(off / 4, base, size);
    let to = clip((off + len + 3) / 4, base, size);
    take_units(map, from, to)
}

// Of the first n entries, those before the first that shares a unit of the window with an earlier one.
#[tactic(auto, using(crate::proofs::Windows::marked_none, crate::proofs::Windows::marked_more, crate::proofs::Windows::split_none, crate::proofs::Windows::split_more))]
fn split_with(t: Table<'_>, n: usize, base: usize, map: &mut [u8]) -> usize
    requires { (n ≤ sections t.s.now) × (base < 0x1_0000_0000) × (8 * length map.old < 0x1_0000_0000) }
    ensures { (result ≤ n) × Split t.entry.s.now result base (base + 8 * length map.old) }
{
    for i in 0..n {
        if !take_entry(t, i, base, map) {
            return i;
        }
    }
    n
}

// The same with a map of its own, for 2 MB of the file.
fn split_in(t: Table<'_>, n: usize, base: usize) -> usize
    requires { (n ≤ sections t.s.now) × (base < 0x1_0000_0000) }
    ensures { (result ≤ n) × Split t.entry.s.now result base (base + 0x8_0000) }
{
    let mut map = [0u8; 0x1_0000];
    split_with(t, n, base, &mut map)
}

// The entries before the first that 12 or 13 refuses.
#[tactic(auto, using(crate::proofs::Windows::placed_none, crate::proofs::Windows::placed_more))]
fn placed_run(t: Table<'_>) -> usize
    ensures { (result ≤ sections t.entry.s.now) × Placed t.entry.s.now result }
{
    let n = t.count();
    for i in 0..n {
        if t.placed(i).is_err() {
            return i;
        }
    }
    n
}

// The entries before the first that 12 or 13 refuses, or that shares a byte with an earlier one: a look at each entry for every 2 MB.
pub(super) fn settled(t: Table<'_>) -> usize
    ensures { Settled t.entry.s.now result }
{
    let end = t.s.len() / 4;
    let mut n = placed_run(t);
    let mut base = 16 + 4 * t.count();
    // kept: the proof speaks of `base` behind the last window, and a `step_by` has no such value
    while base < end {
        n = split_in(t, n, base);
        base += 0x8_0000;
    }
    n
}
