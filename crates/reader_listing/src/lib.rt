// All zones that a position lies in, in the order of their names, into lent places.
#![tactic(auto)]

ghost use Rattle.std.specs.Prelude.{◌≡◌, length, set};
ghost use Rattle.std.proofs.lemmas.List.Edits.{sets};
ghost use Rattle.reader_ways.specs.Ways.{way_of};
ghost use Rattle.reader_cells.specs.Asked.{candidates_of};
ghost use Rattle.reader_lookup.specs.Asking.{hit_at};
ghost use Rattle.answer.specs.Answers.{ok, ◌then◌, fine, how_many, left, outcome};
ghost use Rattle.answer.specs.Checks.{and_then};
ghost use Rattle.reader_named.specs.Asked.{name_at};
ghost use Rattle.reader_listing.specs.Steps.{seen, tally, Kept, looked_at};
ghost use Rattle.reader_listing.specs.All.{all_hits, placed, list_for, list_by, list_of};

use answer::Answer;
use opened::Opened;
use plane::Point;
use reader_lookup::Candidates;
use reader_ways::Way;
use replies::Choice;

// The first refusal of names, with one name more.
#[tactic(auto, unfolding(answer::specs::Checks::and_then, reader_named::specs::Asked::name_at))]
fn name_after(names: Answer<()>, o: Opened, s: &[u8], zone: u32) -> Answer<()>
    ensures { result ≡ and_then names (outcome (name_at o s.now zone)) }
{
    names?;
    reader_named::name_bounds(s, o.names.off, o.zones.count, zone)?;
    Ok(())
}

// A zone kept at a place, where there is room.
// kept: k counts the zones that were found, and the memory may hold fewer
fn keep(held: &mut [u32], k: u32, zone: u32)
    ensures { held.new ≡ set held.old k zone }
{
    let k = k as usize;
    if k < held.len() {
        held[k] = zone;
    }
}

// kept: the record and the bytes stay parameters, so a struct of the way, the point and the candidates would stand beside them in each call all the same
// Every one of the candidates is tested, and the names of those that contain the point are read: how many they are. They are kept in `held` as far as there is room.
fn gather(
    way: Way<'_>,
    o: Opened,
    s: &[u8],
    p: Point,
    c: Candidates,
    held: &mut [u32],
) -> Answer<u32>
    ensures result_value { result ≡ tally o s.now fine 0 (all_hits (hit_at (way_of way.entry) o s.now p c.grid) c.count c.from) }
    ensures memory { held.new ≡ sets held.old 0 (seen (hit_at (way_of way.entry) o s.now p c.grid) c.count c.from) }
{
    let mut names = Ok(());
    let mut k: u32 = 0;
    for place in c.from..c.from + c.count {
        if let Some(zone) = reader_lookup::hit_at(way, o, s, p, c.grid, place)? {
            names = name_after(names, o, s, zone);
            keep(held, k, zone);
            k += 1;
        }
    }
    names?;
    Ok(k)
}

// The zones of the candidates that contain the point, in candidate order, where there is a place for each: from `held`, where all were kept, and else by asking again.
fn write_hits(
    way: Way<'_>,
    o: Opened,
    s: &[u8],
    p: Point,
    c: Candidates,
    held: &[u32],
    out: &mut [u32],
)
    requires { Kept (seen (hit_at (way_of way) o s.now p c.grid) c.count c.from) held.now (length out.old) }
    ensures { out.new ≡ seen (hit_at (way_of way.entry) o s.now p c.grid) c.count c.from }
{
    if out.len() <= held.len() {
        out.copy_from_slice(&held[..out.len()]);
    } else {
        let _ = gather(way, o, s, p, c, out);
    }
}

// The same in the order of their names, if there are places for all k: 46 exactly if there are more zones than places.
// kept: k counts the zones that were found, and the memory may hold fewer
fn place_hits(
    way: Way<'_>,
    o: Opened,
    s: &[u8],
    p: Point,
    c: Candidates,
    held: &[u32],
    k: u32,
    out: &mut [u32],
) -> Answer<u32>
    requires { Kept (seen (hit_at (way_of way) o s.now p c.grid) c.count c.from) held.now k }
    ensures result_value { result ≡ how_many (placed o s.now (length out.old) (seen (hit_at (way_of way.entry) o s.now p c.grid) c.count c.from)) }
    ensures memory { out.new ≡ left out.old (placed o s.now (length out.old) (seen (hit_at (way_of way.entry) o s.now p c.grid) c.count c.from)) }
{
    let n = k as usize;
    answer::claim(46, n <= out.len())?;
    let places = &mut out[..n];
    write_hits(way, o, s, p, c, held, places);
    reader_order::sort_zones(o, s, places);
    Ok(k)
}

// The zones of the candidates that contain the point, in the order of their names. All tests are made, all names read and the places counted before the first zone is written: until then the zones stay in `held`.
fn list_with(
    way: Way<'_>,
    o: Opened,
    s: &[u8],
    p: Point,
    c: Candidates,
    held: &mut [u32],
    out: &mut [u32],
) -> Answer<u32>
    ensures result_value { result ≡ how_many (all_hits (hit_at (way_of way.entry) o s.now p c.grid) c.count c.from then list_for o s.now (length out.old)) }
    ensures memory { out.new ≡ left out.old (all_hits (hit_at (way_of way.entry) o s.now p c.grid) c.count c.from then list_for o s.now (length out.old)) }
{
    let k = gather(way, o, s, p, c, held)?;
    place_hits(way, o, s, p, c, held, k, out)
}

// The same with memory of its own. A cell has at most 15 candidates, so 16 places hold all of its zones. Without GRID a position may lie in as many zones as the record has: where there are more than 16, they are asked a second time. So no array of 65,536 is needed, and a record made by hand with still more zones is answered too.
pub fn list_in(
    way: Way<'_>,
    o: Opened,
    s: &[u8],
    p: Point,
    c: Candidates,
    out: &mut [u32],
) -> Answer<u32>
    ensures result_value { result ≡ how_many (all_hits (hit_at (way_of way.entry) o s.now p c.grid) c.count c.from then list_for o s.now (length out.old)) }
    ensures memory { out.new ≡ left out.old (all_hits (hit_at (way_of way.entry) o s.now p c.grid) c.count c.from then list_for o s.now (length out.old)) }
{
    let mut held = [0u32; 16];
    list_with(way, o, s, p, c, &mut held, out)
}

// How many zones of the candidates contain the point, if that many places hold all. None is kept.
fn count_in(
    way: Way<'_>,
    o: Opened,
    s: &[u8],
    p: Point,
    c: Candidates,
    places: usize,
) -> Answer<u32>
    ensures { result ≡ how_many (all_hits (hit_at (way_of way.entry) o s.now p c.grid) c.count c.from then list_for o s.now places) }
{
    let mut none = [0u32; 0];
    let k = gather(way, o, s, p, c, &mut none)?;
    answer::claim(46, k as usize <= places)?;
    Ok(k)
}

// The candidates for a position. Where there is none, that is no candidate from any place on.
fn candidates(o: Opened, s: &[u8], lng: f64, lat: f64) -> Answer<Candidates>
    ensures { (result then λ c. ok (c.grid, c.count, c.from)) ≡ looked_at (candidates_of o s.now lng lat) }
{
    let (grid, count, from) = match reader_cells::candidates(o, s, lng, lat)? {
        Choice::None => (false, 0, 0),
        Choice::All(n) => (false, n, 0),
        Choice::Listed(n, place) => (true, n, place),
    };
    Ok(Candidates { grid, count, from })
}

// All zones that a position lies in, in the order of their names, into the first places of `out`: how many there are. A refusal leaves the lent memory as it was, and places behind the zones are never touched.
pub fn lookup_into_by(
    way: Way<'_>,
    o: Opened,
    s: &[u8],
    lng: f64,
    lat: f64,
    out: &mut [u32],
) -> Answer<u32>
    ensures result_value { result ≡ how_many (list_by (way_of way.entry) o s.now lng lat (length out.old)) }
    ensures memory { out.new ≡ left out.old (list_by (way_of way.entry) o s.now lng lat (length out.old)) }
{
    let c = candidates(o, s, lng, lat)?;
    list_in(way, o, s, reader_lookup::scaled_at(lng, lat), c, out)
}

// The same by the plain walk.
pub fn lookup_into(o: Opened, s: &[u8], lng: f64, lat: f64, out: &mut [u32]) -> Answer<u32>
    ensures result_value { result ≡ how_many (list_of o s.now lng lat (length out.old)) }
    ensures memory { out.new ≡ left out.old (list_of o s.now lng lat (length out.old)) }
{
    lookup_into_by(Way::Plain, o, s, lng, lat, out)
}

// What `lookup_into_by` answers with that many places. Nothing is written.
pub fn count_into_by(
    way: Way<'_>,
    o: Opened,
    s: &[u8],
    lng: f64,
    lat: f64,
    places: usize,
) -> Answer<u32>
    ensures { result ≡ how_many (list_by (way_of way.entry) o s.now lng lat places) }
{
    let c = candidates(o, s, lng, lat)?;
    count_in(way, o, s, reader_lookup::scaled_at(lng, lat), c, places)
}
