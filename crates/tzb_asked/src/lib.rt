// Every question, asked with the opened record as bytes beside the file's bytes. A record that cannot be read is refused first; none is trusted.
#![tactic(auto)]

ghost use Rattle.std.specs.Prelude.{◌≡◌, length};
ghost use Rattle.answer.specs.Answers.{outcome, left, how_many};
ghost use Rattle.chunks.specs.Decode.{filled};
ghost use Rattle.tzb_asked.specs.Asked.{name_asked, ends_asked, ends_after, choice_asked, candidate_asked, contains_asked_by, decode_asked, lookup_asked_by, list_asked_by, need_asked, stripes_asked};
ghost use Rattle.reader_ways.specs.Ways.{way_of};
ghost use Rattle.plane.specs.Places.{point};

use answer::Answer;
use reader_ways::Way;
use replies::Choice;

// kept: record, file, longitude and latitude are the C interface's parameters, and are handed on as they come.

// Where a zone's name stands in the file.
#[tactic(auto, unfolding(crate::specs::Asked::name_asked))]
pub fn name_bounds(record: &[u8], file: &[u8], zone: u32) -> Answer<(usize, usize)>
    ensures { result ≡ name_asked «record».now file.now zone }
{
    let o = tzb_record::read_record(record)?;
    reader_named::name_bounds(file, o.names.off, o.zones.count, zone)
}

// Where it starts and where it ends, into the first two lent numbers; those behind are never touched. A refusal leaves them all as they were.
#[tactic(auto, using(crate::proofs::AskedLaws::two_set, answer::proofs::CheckLaws::le_at, answer::proofs::CheckLaws::gt_at), unfolding(crate::specs::Asked::ends_asked))]
pub fn name_ends(record: &[u8], file: &[u8], zone: u32, ends: &mut [u64]) -> Answer<()>
    ensures result_value { result ≡ outcome (ends_asked «record».now file.now zone (length ends.old)) }
    ensures memory { ends.new ≡ ends_after ends.old (ends_asked «record».now file.now zone (length ends.old)) }
{
    let (from, to) = name_bounds(record, file, zone)?;
    if ends.len() < 2 {
        return answer::fail(46);
    }
    ends[0] = from as u64;
    ends[1] = to as u64;
    Ok(())
}

// The candidates of a position.
#[tactic(auto, unfolding(crate::specs::Asked::choice_asked))]
pub fn candidates(record: &[u8], file: &[u8], lng: f64, lat: f64) -> Answer<Choice>
    ensures { result ≡ choice_asked «record».now file.now lng lat }
{
    let o = tzb_record::read_record(record)?;
    reader_cells::candidates(o, file, lng, lat)
}

// The zone at a place of the candidate list.
#[tactic(auto, unfolding(crate::specs::Asked::candidate_asked))]
pub fn candidate_at(record: &[u8], file: &[u8], place: u32) -> Answer<u32>
    ensures { result ≡ candidate_asked «record».now file.now place }
{
    let o = tzb_record::read_record(record)?;
    reader_cells::candidate_at(o, file, place)
}

// Whether the zone contains the point of whole numbers, walked plainly or by the stripes that the numbers say.
#[tactic(auto, unfolding(crate::specs::Asked::contains_asked_by))]
pub fn contains_by(
    way: Way<'_>,
    record: &[u8],
    file: &[u8],
    zone: u32,
    x: i32,
    y: i32,
) -> Answer<bool>
    ensures { result ≡ contains_asked_by (way_of way.entry) «record».now file.now zone (point x y) }
{
    let o = tzb_record::read_record(record)?;
    reader_zones::contains_by(way, o, file, zone, x, y)
}

// The points of a chunk into lent numbers, two a point: how many points. A refusal leaves the lent numbers as they were, and those behind the points are never touched.
#[tactic(auto, using(crate::proofs::Many::many_decoded, crate::proofs::Many::unread, answer::proofs::AnswersLaws::outcome_no), unfolding(crate::specs::Asked::decode_asked))]
pub fn decode(record: &[u8], file: &[u8], chunk: u32, out: &mut [i32]) -> Answer<u32>
    ensures result_value { result ≡ how_many (decode_asked «record».now file.now chunk out.old) }
    ensures memory { out.new ≡ filled out.old (decode_asked «record».now file.now chunk out.old) }
{
    let o = tzb_record::read_record(record)?;
    let index = chunk as usize;
    let entry = reader_records::chunk_at(o, file, index)?;
    reader_chunks::decode_chunk_points(o, file, index, out)?;
    Ok(u32::from(entry.count))
}

// What it answers with that room: whether the points could be decoded. Nothing is written.
#[tactic(auto, unfolding(crate::specs::Asked::decode_asked))]
pub fn check_decode(record: &[u8], file: &[u8], chunk: u32, out: &[i32]) -> Answer<()>
    ensures { result ≡ outcome (decode_asked «record».now file.now chunk out.now) }
{
    let o = tzb_record::read_record(record)?;
    reader_chunks::check_chunk_points(o, file, chunk as usize, out)
}

// The zone that a position lies in.
#[tactic(auto, unfolding(crate::specs::Asked::lookup_asked_by))]
pub fn lookup_by(
    way: Way<'_>,
    record: &[u8],
    file: &[u8],
    lng: f64,
    lat: f64,
) -> Answer<Option<u32>>
    ensures { result ≡ lookup_asked_by (way_of way.entry) «record».now file.now lng lat }
{
    let o = tzb_record::read_record(record)?;
    reader_lookup::lookup_by(way, o, file, lng, lat)
}

// All zones that a position lies in, in the order of their names, into the first places of `zones`: how many there are. A refusal leaves the lent places as they were, and those behind the zones are never touched.
#[tactic(auto, unfolding(crate::specs::Asked::list_asked_by))]
pub fn lookup_into_by(
    way: Way<'_>,
    record: &[u8],
    file: &[u8],
    lng: f64,
    lat: f64,
    zones: &mut [u32],
) -> Answer<u32>
    ensures result_value { result ≡ how_many (list_asked_by (way_of way.entry) «record».now file.now lng lat (length zones.old)) }
    ensures memory { zones.new ≡ left zones.old (list_asked_by (way_of way.entry) «record».now file.now lng lat (length zones.old)) }
{
    let o = tzb_record::read_record(record)?;
    reader_listing::lookup_into_by(way, o, file, lng, lat, zones)
}

// What it answers with that many places. Nothing is written.
#[tactic(auto, unfolding(crate::specs::Asked::list_asked_by))]
pub fn count_into_by(
    way: Way<'_>,
    record: &[u8],
    file: &[u8],
    lng: f64,
    lat: f64,
    places: usize,
) -> Answer<u32>
    ensures { result ≡ how_many (list_asked_by (way_of way.entry) «record».now file.now lng lat places) }
{
    let o = tzb_record::read_record(record)?;
    reader_listing::count_into_by(way, o, file, lng, lat, places)
}

// How many numbers the stripes of the file take.
#[tactic(auto, unfolding(crate::specs::Asked::need_asked))]
pub fn stripes_need(record: &[u8], file: &[u8]) -> Answer<u64>
    ensures { result ≡ need_asked «record».now file.now }
{
    let o = tzb_record::read_record(record)?;
    reader_stripes::stripes_need(o, file)
}

// The stripes into lent numbers: how many were written. A refusal leaves the lent numbers as they were, and those behind the stripes are never touched.
#[tactic(auto, unfolding(crate::specs::Asked::stripes_asked))]
pub fn stripes(record: &[u8], file: &[u8], numbers: &mut [u32]) -> Answer<u64>
    ensures result_value { result ≡ how_many (stripes_asked «record».now file.now (length numbers.old)) }
    ensures memory { numbers.new ≡ left numbers.old (stripes_asked «record».now file.now (length numbers.old)) }
{
    let o = tzb_record::read_record(record)?;
    reader_stripes::stripes(o, file, numbers)
}
