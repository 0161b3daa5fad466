// Zones in the order of their names: the sort, in lent memory.
#![tactic(auto)]

ghost use Rattle.std.specs.Prelude.{◌≡◌, true, ◌++◌, ◌+◌, ◌-◌, ◌<◌, ◌≤◌, length, take, drop, get_or};
ghost use Rattle.reader_named.specs.Asked.{name_or};
ghost use Rattle.reader_order.specs.Order.{insert, insert_all, ordered, in_order};
ghost use Rattle.reader_order.specs.Steps.{place_for};
ghost use Rattle.texts.specs.Spelled.{comes_before};

use opened::Opened;

// Whether a name comes before that of a zone, which is empty where it is refused.
fn before_zone(o: Opened, s: &[u8], own: &[u8], zone: u32) -> bool
    ensures { result ≡ comes_before own.now (name_or o s.now zone) }
{
    texts::comes_before(own, reader_named::name(o, s, zone))
}

// The place of the first zone whose name comes after own: behind all where there is none. The zones are in order: the last is looked at first, then the place is found by halving. `after` is the place after the one that is looked at.
fn place_for(o: Opened, s: &[u8], zones: &[u32], own: &[u8]) -> usize
    requires { in_order (name_or o s.now) zones.now ≡ true }
    ensures { result ≡ place_for (name_or o s.now) own.now zones.now }
{
    let mut low = 0;
    let mut high = zones.len();
    let mut after = high;
    // kept: a search of std looks at the middle first, and zones that are in order already would no more cost one comparison each
    while low < high {
        let middle = after - 1;
        if before_zone(o, s, own, zones[middle]) {
            high = middle;
        } else {
            low = after;
        }
        after = low + (high - low) / 2 + 1;
    }
    low
}

// kept: the zones up to k and behind it are one lent slice, in which the move crosses k.
// The zone at place k put into the zones before it, which are in order.
fn settle(o: Opened, s: &[u8], zones: &mut [u32], k: usize)
    requires k_in_bounds { k < length zones.old }
    requires zones_value { in_order (name_or o s.now) (take k zones.old) ≡ true }
    ensures { zones.new ≡ insert (name_or o s.now) (get_or zones.old k 0) (take k zones.old) ++ drop (k + 1) zones.old }
{
    let zone = zones[k];
    let own = reader_named::name(o, s, zone);
    let place = place_for(o, s, &zones[..k], own);
    zones.copy_within(place..k, place + 1);
    zones[place] = zone;
}

// Zones in the order of their names, put in one after another: so the time of the moves grows with the square of their number.
fn sort_few(o: Opened, s: &[u8], zones: &mut [u32])
    ensures { zones.new ≡ ordered (name_or o s.now) zones.old }
{
    for k in 1..zones.len() {
        settle(o, s, zones, k);
    }
}

// The held zones put into the zones, of which the last, as many as are held, are written over. Both are in order. The last held goes first: then no zone is written over that is still to move.
fn merge_held(o: Opened, s: &[u8], zones: &mut [u32], held: &[u32])
    requires room { length held.now ≤ length zones.old }
    requires zones_value { in_order (name_or o s.now) (take (length zones.old - length held.now) zones.old) ≡ true }
    requires held_value { in_order (name_or o s.now) held.now ≡ true }
    ensures { zones.new ≡ insert_all (name_or o s.now) (take (length zones.old - length held.now) zones.old) held.now }
{
    let mut end = zones.len() - held.len();
    for j in (0..held.len()).rev() {
        let zone = held[j];
        let own = reader_named::name(o, s, zone);
        let place = place_for(o, s, &zones[..end], own);
        zones.copy_within(place..end, place + j + 1);
        zones[place + j] = zone;
        end = place;
    }
}

// kept: the zones up to k and behind it are one lent slice, in which the moves cross k.
// The zones from place k on, at most 256, sorted and put into those before it, which are in order.
#[tactic(auto, using(crate::proofs::Merged::block_merged, crate::proofs::Merged::block_alone))]
fn add_block(o: Opened, s: &[u8], zones: &mut [u32], k: usize)
    requires k_in_bounds { (k ≤ length zones.old) × (length zones.old ≤ k + 256) }
    requires zones_value { in_order (name_or o s.now) (take k zones.old) ≡ true }
    ensures { zones.new ≡ insert_all (name_or o s.now) (take k zones.old) (ordered (name_or o s.now) (drop k zones.old)) }
{
    sort_few(o, s, &mut zones[k..]);
    if 0 < k {
        let mut held = [0u32; 256];
        let held = &mut held[..zones.len() - k];
        held.copy_from_slice(&zones[k..]);
        merge_held(o, s, zones, held);
    }
}

// Zones in the order of their names, equal names as they come. Blocks of 256 are sorted and put into what is sorted already: so each zone costs few comparisons, and each block one move of the zones before it. Names that are in order already cost one comparison each, two where there are more blocks.
pub fn sort_zones(o: Opened, s: &[u8], zones: &mut [u32])
    ensures { zones.new ≡ ordered (name_or o s.now) zones.old }
{
    let n = zones.len();
    for block in 0..n.div_ceil(256) {
        let k = 256 * block;
        add_block(o, s, &mut zones[..n.min(k + 256)], k);
    }
}
