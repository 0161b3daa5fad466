// The journal's entries as bytes: written into lent memory, and read. Over the number of places for zones, which the caller says: nothing in an entry tells it.
#![tactic(auto)]

ghost use Rattle.std.specs.Prelude.{◌≡◌, [], ◌∷◌, ◌+◌, ◌*◌, ◌≤◌, ◌<◌, length, get_or, replicate};
ghost use Rattle.std.specs.Int.{w32};
ghost use Rattle.std.proofs.Common.{to_z, of_z};
ghost use Rattle.fields.specs.Le.{le};
ghost use Rattle.plane.specs.Places.{point};
ghost use Rattle.fields.specs.Row.{row_bytes, row_in};
ghost use Rattle.fields.specs.Stores.{Laid};
ghost use Rattle.answer.specs.Answers.{outcome, left, ◌then◌, ok};
ghost use Rattle.entries.specs.Entry.{entry, unused, places_of};
ghost use Rattle.entries.specs.Forms.{all_below, all_different, placed, zones_form, formed, laid_of, write_of};
ghost use Rattle.entries.specs.Reading.{all_unused, of_forms, entry_is, read_of, head_of};

use answer::Answer;
use fields::Number;
use plane::I32Point;

// ---- the forms

// Whether every zone number is below 65535, so that it fits a place.
#[tactic(auto, unfolding(entries::specs::Forms::all_below, answer::specs::Checks::below))]
pub fn all_below(zones: &[u32]) -> bool
    ensures { result ≡ all_below zones.now }
{
    zones.iter().all(|zone| *zone < 65535)
}

// Whether no zone is among those behind it.

fn all_different(zones: &[u32]) -> bool
    ensures { result ≡ all_different zones.now }
{
    let mut rest = zones;
    while let Some((zone, behind)) = rest.split_first() {
        if behind.contains(zone) {
            return false;
        }
        rest = behind;
    }
    true
}

// Whether every place is one that is not used.
#[tactic(auto, unfolding(entries::specs::Reading::all_unused, answer::specs::Checks::same))]
fn all_unused(places: &[u32]) -> bool
    ensures { result ≡ all_unused places.now }
{
    places.iter().all(|place| *place == 65535)
}

// Whether there are no zones, or the position is one of the domain.
#[tactic(auto, using(entries::proofs::FormsLaws::placed_none, entries::proofs::FormsLaws::placed_some))]
fn is_placed(q: I32Point, zones: &[u32]) -> bool
    ensures { result ≡ placed q zones.now }
{
    zones.is_empty() || boxes::point_in_domain(q)
}

// kept: each caller has the position, the zones and the reason apart, so a struct of them would only be made to be taken apart.
// The form of an answer: its reason is 0.
#[tactic(auto, using(entries::proofs::FormsLaws::zones_many, entries::proofs::FormsLaws::zones_far, entries::proofs::FormsLaws::zones_above, entries::proofs::FormsLaws::zones_all))]
fn has_zones_form(places: u8, q: I32Point, zones: &[u32]) -> bool
    ensures { result ≡ zones_form places q zones.now }
{
    zones.len() <= usize::from(places)
        && is_placed(q, zones)
        && all_below(zones)
        && all_different(zones)
}

fn is_formed(places: u8, q: I32Point, zones: &[u32], reason: u32) -> bool
    ensures { result ≡ formed places (entry q zones.now reason) }
{
    if reason == 0 {
        has_zones_form(places, q, zones)
    } else {
        zones.is_empty() && reason <= 46
    }
}

// ---- to bytes

// kept: the place is one of the entry, and may lie behind the zones.
// What stands in a place: a zone, or that it is not used.
fn place_of(zones: &[u32], i: usize) -> u64
    ensures { result ≡ get_or zones.now i unused }
{
    zones.get(i).map_or(65535, |zone| u64::from(*zone))
}

// The places of an entry, which stand behind its position.
fn lay_places(places: usize, zones: &[u32], out: &mut [u8])
    requires { (places < 256) × (length zones.now ≤ places) × (8 + 2 * places ≤ length out.old) }
    ensures { Laid out.old 8 (row_bytes (replicate places 2) (places_of places zones.now)) out.new }
{
    for i in 0..places {
        fields::store(out, 8 + 2 * i, 2, place_of(zones, i));
    }
}

// The bits of a position.
fn position_bits(q: I32Point) -> [u64; 2]
    ensures { result ≡ of_z w32 q.x ∷ of_z w32 q.y ∷ [] }
{
    [
        u64::from(q.x.cast_unsigned()),
        u64::from(q.y.cast_unsigned()),
    ]
}

const POSITION: [usize; 2] = [4, 4];

const END: [usize; 2] = [1, 1];

// The bytes of an entry, of any form or none, into lent memory; 46 where there is no room for them, and then nothing is written. What lies behind is never touched.
pub fn lay_entry(places: u8, q: I32Point, zones: &[u32], reason: u32, out: &mut [u8]) -> Answer<()>
    requires { length zones.now ≤ places }
    ensures result_value { result ≡ outcome (laid_of places (entry q zones.now reason) out.old) }
    ensures memory { out.new ≡ left out.old (laid_of places (entry q zones.now reason) out.old) }
{
    let n = usize::from(places);
    let end = 8 + 2 * n;
    if out.len() < end + 2 {
        return answer::fail(46);
    }
    fields::store_row(out, 0, &POSITION, &position_bits(q));
    lay_places(n, zones, out);
    let last = [zones.len() as u64, u64::from(reason)];
    fields::store_row(out, end, &END, &last);
    Ok(())
}

// The entry into lent memory: 50 where it is of no form, then 46 where there is no room, and then nothing is written.
pub fn write_entry(
    places: u8,
    q: I32Point,
    zones: &[u32],
    reason: u32,
    out: &mut [u8],
) -> Answer<()>
    ensures result_value { result ≡ outcome (write_of places (entry q zones.now reason) out.old) }
    ensures memory { out.new ≡ left out.old (write_of places (entry q zones.now reason) out.old) }
{
    if !is_formed(places, q, zones, reason) {
        return answer::fail(50);
    }
    lay_entry(places, q, zones, reason, out)
}

// ---- from bytes

// The first places of an entry's bytes, as many as are lent for them.
#[tactic(auto, using(entries::proofs::PlacesLaws::loaded_none, entries::proofs::PlacesLaws::loaded_next, entries::proofs::PlacesLaws::loaded_all))]
fn load_places(s: &[u8], out: &mut [u32])
    requires { (length out.old < 256) × (8 + 2 * length out.old ≤ length s.now) }
    ensures { out.new ≡ row_in (replicate (length out.old) 2) s.now 8 }
{
    for i in 0..out.len() {
        out[i] = u32::from(u16::at(s, 8 + 2 * i));
    }
}

// The position of an entry's bytes.
fn point_in(s: &[u8]) -> I32Point
    requires { 8 ≤ length s.now }
    ensures { result ≡ point (to_z w32 (le 4 s.now 0)) (to_z w32 (le 4 s.now 4)) }
{
    I32Point {
        x: i32::at(s, 0),
        y: i32::at(s, 4),
    }
}

// Whether the places of an entry, of which count are used, its position and its reason are of the forms.
#[tactic(auto, using(entries::proofs::ReadLaws::forms_many, entries::proofs::ReadLaws::forms_used, entries::proofs::ReadLaws::forms_all, entries::proofs::FormsLaws::part_is))]
fn is_of_forms(places: u8, q: I32Point, held: &[u32], count: usize, reason: u32) -> bool
    requires { length held.now ≡ places }
    ensures { result ≡ of_forms places q held.now count reason }
{
    count <= held.len()
        && all_unused(&held[count..])
        && is_formed(places, q, &held[..count], reason)
}

// Whether bytes are an entry of the forms, with memory that holds its places: of another length they are none.
fn check_with(places: u8, bytes: &[u8], held: &mut [u32]) -> bool
    requires { length held.old ≡ places }
    ensures { result ≡ entry_is places bytes.now }
{
    let end = 8 + 2 * usize::from(places);
    if bytes.len() != end + 2 {
        return false;
    }
    load_places(bytes, held);
    let count = usize::from(bytes[end]);
    let reason = u32::from(bytes[end + 1]);
    is_of_forms(places, point_in(bytes), held, count, reason)
}

// The same with memory of its own: a count is a byte, so no entry has more places.
pub fn is_entry(places: u8, bytes: &[u8]) -> bool
    ensures { result ≡ entry_is places bytes.now }
{
    let mut held = [0u32; 255];
    check_with(places, bytes, &mut held[..usize::from(places)])
}

// The entry that stands in the bytes, its zones in the first lent places: 50 where they are of no form, then 46 exactly where fewer places are lent than it has zones, and then nothing is written. Places behind the zones are never touched.
pub fn read_entry(places: u8, bytes: &[u8], zones: &mut [u32]) -> Answer<(I32Point, u8, u8)>
    ensures result_value { result ≡ (read_of places bytes.now (length zones.old) then λ e. ok (head_of e)) }
    ensures memory { zones.new ≡ left zones.old (read_of places bytes.now (length zones.old) then λ e. ok e.zones) }
{
    if !is_entry(places, bytes) {
        return answer::fail(50);
    }
    let end = 8 + 2 * usize::from(places);
    let count = bytes[end];
    let n = usize::from(count);
    if zones.len() < n {
        return answer::fail(46);
    }
    load_places(bytes, &mut zones[..n]);
    Ok((point_in(bytes), count, bytes[end + 1]))
}
