// The exports, for programs in other languages: numbers and byte slices in, one number out. Each is total, and asks nothing of its caller.
#![tactic(auto)]

ghost use Rattle.std.specs.Prelude.{◌≡◌, [], length, ◌+◌, ◌*◌, ◌<◌};
ghost use Rattle.rounding.specs.Upward.{next_up};
ghost use Rattle.checksum.specs.Crc32.{crc32};
ghost use Rattle.utf8.specs.Rfc3629.{utf8};
ghost use Rattle.boxes.specs.Box.{contains, relevant};
ghost use Rattle.rays.specs.Ray.{ray_of, parity_of};
ghost use Rattle.varints.specs.Varint.{number_at};
ghost use Rattle.chunks.specs.Decode.{filled};
ghost use Rattle.tzb.specs.FullCheck.{full_check_of};
ghost use Rattle.tzb_asked.specs.Asked.{zones_asked, name_asked, ends_asked, ends_after, choice_asked, candidate_asked, contains_asked, decode_asked, lookup_asked, list_asked, contains_asked_by, lookup_asked_by, list_asked_by, need_asked, stripes_asked};
ghost use Rattle.reader_ways.specs.Ways.{striped};
ghost use Rattle.tzb_codes.specs.Codes.{bit_of, done_code, kind_code, listed_of, inside_code, zone_code, check_code, rule_of, needed_code, drawn_code, seen_code, number_code, start_code, end_code, place_of};
ghost use Rattle.tzb_map.specs.Map.{map_of, map_in, how_long, as_answer};
ghost use Rattle.tzb_c.specs.Opens.{open_into, lookup_once};
ghost use Rattle.tzb_c.specs.Exports.{number_of, length_from, box_of};
ghost use Rattle.plane.specs.Places.{point, position};
ghost use Rattle.answer.specs.Answers.{ok, ◌then◌, left, how_many};
ghost use Rattle.entries.specs.Entry.{entry};
ghost use Rattle.tzb_journal.specs.Journal.{journal_asked, journal_written, journal_read, position_of, count_and_reason};

use answer::Answer;
use boxes::BBox;
use plane::{I32Point, Point};
use reader_ways::Way;
use tzb_core::varint::Place;

// kept: the C interface has these parameters, one by one.

// ---- opening, and questions over the opened record

// Opens the file and writes the opened record into the first 84 bytes of lent memory: 0, or -1000 - n for refusal n, and then nothing is written. 46 where there is no room.
#[tactic(auto, using(crate::proofs::OpensLaws::open_barred, crate::proofs::OpensLaws::open_into_law, tzb_codes::proofs::CodesLaws::done_outcome))]
pub fn tzb_open(file: &[u8], record: &mut [u8]) -> i32
    ensures value { result ≡ done_code (open_into file.now «record».old) }
    ensures memory { «record».new ≡ left «record».old (open_into file.now «record».old) }
{
    match tzb::open(file) {
        Ok(o) => tzb_codes::done_code(tzb_record::write_record(o, record)),
        Err(k) => tzb_codes::refusal_code(k),
    }
}

// How many zones there are: their numbers are those below. -1000 - n for refusal n.
#[tactic(auto, unfolding(tzb_asked::specs::Asked::zones_asked))]
pub fn tzb_zone_count(record: &[u8]) -> i64
    ensures { result ≡ number_code (zones_asked «record».now) }
{
    tzb_codes::number_code(tzb_record::read_record(record).map(|o| o.zones.count))
}

// Where a zone's name starts in the file, or -1000 - n for refusal n.
#[tactic(auto, using(crate::proofs::Kept::name_inside))]
pub fn tzb_name_start(record: &[u8], file: &[u8], zone: u32) -> i64
    ensures { result ≡ start_code (name_asked «record».now file.now zone) }
{
    // kept: the C interface has an export for each end
    match tzb_asked::name_bounds(record, file, zone) {
        Ok((from, _)) => from as i64,
        Err(k) => tzb_codes::refusal_code64(k),
    }
}

// Where it ends: the place after its last byte, or -1000 - n for refusal n.
#[tactic(auto, using(crate::proofs::Kept::name_inside))]
pub fn tzb_name_end(record: &[u8], file: &[u8], zone: u32) -> i64
    ensures { result ≡ end_code (name_asked «record».now file.now zone) }
{
    match tzb_asked::name_bounds(record, file, zone) {
        Ok((_, to)) => to as i64,
        Err(k) => tzb_codes::refusal_code64(k),
    }
}

// Both, into the first two lent numbers: 0, or -1000 - n for refusal n, and then nothing is written. 46 where fewer than two are lent.
#[tactic(auto, using(tzb_codes::proofs::CodesLaws::done_outcome))]
pub fn tzb_name(record: &[u8], file: &[u8], zone: u32, ends: &mut [u64]) -> i32
    ensures value { result ≡ done_code (ends_asked «record».now file.now zone (length ends.old)) }
    ensures memory { ends.new ≡ ends_after ends.old (ends_asked «record».now file.now zone (length ends.old)) }
{
    tzb_codes::done_code(tzb_asked::name_ends(record, file, zone, ends))
}

// What the candidates of a position are: 0 none, 1 all zones, 2 those listed for a cell, -1000 - n for refusal n.
pub fn tzb_choice(record: &[u8], file: &[u8], lng: f64, lat: f64) -> i32
    ensures { result ≡ kind_code (choice_asked «record».now file.now lng lat) }
{
    tzb_codes::kind_code(tzb_asked::candidates(record, file, lng, lat))
}

// How many are listed, times 2 ^ 32, and the place of the first; the number of all zones; else 0.
pub fn tzb_listed(record: &[u8], file: &[u8], lng: f64, lat: f64) -> u64
    ensures { result ≡ listed_of (choice_asked «record».now file.now lng lat) }
{
    tzb_codes::listed_of(tzb_asked::candidates(record, file, lng, lat))
}

// The zone at a place of the candidate list, or -1000 - n for refusal n.
pub fn tzb_candidate(record: &[u8], file: &[u8], place: u32) -> i64
    ensures { result ≡ number_code (candidate_asked «record».now file.now place) }
{
    tzb_codes::number_code(tzb_asked::candidate_at(record, file, place))
}

// Whether a zone contains a point of whole numbers, in hundred-thousandths of a degree: 1, 0, or -1000 - n for refusal n.
pub fn tzb_contains(record: &[u8], file: &[u8], zone: u32, x: i32, y: i32) -> i32
    ensures { result ≡ inside_code (contains_asked «record».now file.now zone (point x y)) }
{
    tzb_codes::inside_code(tzb_asked::contains_by(Way::Plain, record, file, zone, x, y))
}

// The place in the file, counted from its first byte, of the number that the refusal of tzb_contains is about; -1 where it has none, and where there is no refusal.
pub fn tzb_contains_place(record: &[u8], file: &[u8], zone: u32, x: i32, y: i32) -> i64
    ensures { result ≡ place_of (contains_asked «record».now file.now zone (point x y)) }
{
    tzb_codes::place_of(tzb_asked::contains_by(Way::Plain, record, file, zone, x, y))
}

// The points of a chunk into lent numbers, two a point: how many points, or -1000 - n for refusal n, and then nothing is written.
pub fn tzb_decode(record: &[u8], file: &[u8], chunk: u32, out: &mut [i32]) -> i64
    ensures value { result ≡ number_code (how_many (decode_asked «record».now file.now chunk out.old)) }
    ensures memory { out.new ≡ filled out.old (decode_asked «record».now file.now chunk out.old) }
{
    tzb_codes::number_code(tzb_asked::decode(record, file, chunk, out))
}

// The place in the file, counted from its first byte, of the number that the refusal of tzb_decode is about; -1 where it has none, and where there is no refusal. Nothing is written.
#[tactic(auto, using(tzb_codes::proofs::CodesLaws::place_outcome))]
pub fn tzb_decode_place(record: &[u8], file: &[u8], chunk: u32, out: &[i32]) -> i64
    ensures { result ≡ place_of (decode_asked «record».now file.now chunk out.now) }
{
    tzb_codes::place_of(tzb_asked::check_decode(record, file, chunk, out))
}

#[tactic(auto, unfolding(crate::specs::Opens::lookup_once))]
fn lookup_once(file: &[u8], lng: f64, lat: f64) -> Answer<Option<u32>>
    ensures { result ≡ lookup_once file.now lng lat }
{
    let o = tzb::open(file)?;
    tzb::lookup(o, file, lng, lat)
}

// Opens the file and asks for the zone that a position lies in, in degrees: its number, -1 for none, -1000 - n for refusal n.
#[tactic(auto, using(crate::proofs::Kept::once_small))]
pub fn tzb_lookup(file: &[u8], lng: f64, lat: f64) -> i32
    ensures { result ≡ zone_code (lookup_once file.now lng lat) }
{
    match lookup_once(file, lng, lat) {
        Ok(None) => -1,
        Ok(Some(zone)) => zone as i32,
        Err(k) => tzb_codes::refusal_code(k),
    }
}

// The place in the file, counted from its first byte, of the number that the refusal of tzb_lookup is about; -1 where it has none, and where there is no refusal.
pub fn tzb_lookup_place(file: &[u8], lng: f64, lat: f64) -> i64
    ensures { result ≡ place_of (lookup_once file.now lng lat) }
{
    tzb_codes::place_of(lookup_once(file, lng, lat))
}

// The same as tzb_lookup with the record, once the file was opened: its number, -1 for none, -1000 - n for refusal n.
pub fn tzb_ask(record: &[u8], file: &[u8], lng: f64, lat: f64) -> i64
    ensures { result ≡ zone_code (lookup_asked «record».now file.now lng lat) }
{
    tzb_codes::zone_code(tzb_asked::lookup_by(Way::Plain, record, file, lng, lat))
}

// The place in the file, counted from its first byte, of the number that the refusal of tzb_ask is about; -1 where it has none, and where there is no refusal.
pub fn tzb_ask_place(record: &[u8], file: &[u8], lng: f64, lat: f64) -> i64
    ensures { result ≡ place_of (lookup_asked «record».now file.now lng lat) }
{
    tzb_codes::place_of(tzb_asked::lookup_by(Way::Plain, record, file, lng, lat))
}

// All zones that a position lies in, in the order of their names, into lent places: how many there are, or -1000 - n for refusal n, and then nothing is written.
pub fn tzb_ask_all(record: &[u8], file: &[u8], lng: f64, lat: f64, zones: &mut [u32]) -> i64
    ensures value { result ≡ number_code (how_many (list_asked «record».now file.now lng lat (length zones.old))) }
    ensures memory { zones.new ≡ left zones.old (list_asked «record».now file.now lng lat (length zones.old)) }
{
    tzb_codes::number_code(tzb_asked::lookup_into_by(Way::Plain, record, file, lng, lat, zones))
}

// The place in the file, counted from its first byte, of the number that the refusal of tzb_ask_all is about; -1 where it has none, and where there is no refusal. Nothing is written.
#[tactic(auto, using(tzb_codes::proofs::CodesLaws::place_many))]
pub fn tzb_ask_all_place(record: &[u8], file: &[u8], lng: f64, lat: f64, zones: &[u32]) -> i64
    ensures { result ≡ place_of (list_asked «record».now file.now lng lat (length zones.now)) }
{
    tzb_codes::place_of(tzb_asked::count_into_by(Way::Plain, record, file, lng, lat, zones.len()))
}

// ---- stripes
// kept: the C interface has an export for each way

// How many numbers the stripes of the file take, or -1000 - n for refusal n: 49 where, in a group of two chunks or more, a chunk's box leaves the group's in y.
pub fn tzb_stripes_need(record: &[u8], file: &[u8]) -> i64
    ensures { result ≡ needed_code (need_asked «record».now file.now) }
{
    tzb_codes::needed_code(tzb_asked::stripes_need(record, file))
}

// The stripes of the file into lent numbers: how many were written, or -1000 - n for refusal n, and then nothing is written. The refusals of the need come first, then 46 where there is no room.
pub fn tzb_stripes(record: &[u8], file: &[u8], numbers: &mut [u32]) -> i64
    ensures value { result ≡ needed_code (how_many (stripes_asked «record».now file.now (length numbers.old))) }
    ensures memory { numbers.new ≡ left numbers.old (stripes_asked «record».now file.now (length numbers.old)) }
{
    tzb_codes::needed_code(tzb_asked::stripes(record, file, numbers))
}

// The same as tzb_contains, by stripes: what tzb_contains answers, where the numbers are those of this record and this file. Of other numbers 44 for a place past them, 34 for a chunk outside its group or a height of 0.
pub fn tzb_contains_striped(
    record: &[u8],
    numbers: &[u32],
    file: &[u8],
    zone: u32,
    x: i32,
    y: i32,
) -> i32
    ensures { result ≡ inside_code (contains_asked_by (striped numbers.now) «record».now file.now zone (point x y)) }
{
    tzb_codes::inside_code(tzb_asked::contains_by(Way::Striped(numbers), record, file, zone, x, y))
}

// The same as tzb_contains_place, by stripes.
pub fn tzb_contains_striped_place(
    record: &[u8],
    numbers: &[u32],
    file: &[u8],
    zone: u32,
    x: i32,
    y: i32,
) -> i64
    ensures { result ≡ place_of (contains_asked_by (striped numbers.now) «record».now file.now zone (point x y)) }
{
    tzb_codes::place_of(tzb_asked::contains_by(Way::Striped(numbers), record, file, zone, x, y))
}

// The same as tzb_ask, by stripes.
pub fn tzb_ask_striped(record: &[u8], numbers: &[u32], file: &[u8], lng: f64, lat: f64) -> i64
    ensures { result ≡ zone_code (lookup_asked_by (striped numbers.now) «record».now file.now lng lat) }
{
    tzb_codes::zone_code(tzb_asked::lookup_by(Way::Striped(numbers), record, file, lng, lat))
}

// The same as tzb_ask_place, by stripes.
pub fn tzb_ask_striped_place(record: &[u8], numbers: &[u32], file: &[u8], lng: f64, lat: f64) -> i64
    ensures { result ≡ place_of (lookup_asked_by (striped numbers.now) «record».now file.now lng lat) }
{
    tzb_codes::place_of(tzb_asked::lookup_by(Way::Striped(numbers), record, file, lng, lat))
}

// The same as tzb_ask_all, by stripes.
pub fn tzb_ask_all_striped(
    record: &[u8],
    numbers: &[u32],
    file: &[u8],
    lng: f64,
    lat: f64,
    zones: &mut [u32],
) -> i64
    ensures value { result ≡ number_code (how_many (list_asked_by (striped numbers.now) «record».now file.now lng lat (length zones.old))) }
    ensures memory { zones.new ≡ left zones.old (list_asked_by (striped numbers.now) «record».now file.now lng lat (length zones.old)) }
{
    tzb_codes::number_code(tzb_asked::lookup_into_by(
        Way::Striped(numbers),
        record,
        file,
        lng,
        lat,
        zones,
    ))
}

// The same as tzb_ask_all_place, by stripes.
#[tactic(auto, using(tzb_codes::proofs::CodesLaws::place_many))]
pub fn tzb_ask_all_striped_place(
    record: &[u8],
    numbers: &[u32],
    file: &[u8],
    lng: f64,
    lat: f64,
    zones: &[u32],
) -> i64
    ensures { result ≡ place_of (list_asked_by (striped numbers.now) «record».now file.now lng lat (length zones.now)) }
{
    tzb_codes::place_of(tzb_asked::count_into_by(
        Way::Striped(numbers),
        record,
        file,
        lng,
        lat,
        zones.len(),
    ))
}

// ---- the full check

// Checks F1 to F6 over the whole file: 0 where it is accepted; -1000 - n for opening's refusal n; -1047 where another rule is broken. Of an accepted file no question is refused but for a number that is too large, a place of the candidate list that no cell lists, or room that is too short.
pub fn tzb_full_check(file: &[u8]) -> i32
    ensures { result ≡ check_code (full_check_of file.now) }
{
    tzb_codes::check_code(tzb::full_check(file))
}

// The lowest broken rule where the full check says -1047, 2 to 6; else 0.
pub fn tzb_full_check_rule(file: &[u8]) -> u32
    ensures { result ≡ rule_of (full_check_of file.now) }
{
    tzb_codes::rule_of(tzb::full_check(file))
}

// ---- a zone as a map

// A zone of the file as GeoJSON text (RFC 7946), into the first lent bytes: how many they are, or -1000 - n for refusal n, and then nothing is written. The full check's refusals come first; then 45, 48 where a ring cannot be drawn, 46 where there is no room. Beside -1047, tzb_full_check_rule says the rule.
pub fn tzb_map(file: &[u8], zone: u32, out: &mut [u8]) -> i64
    ensures value { result ≡ drawn_code (how_long (map_in file.now zone (length out.old))) }
    ensures memory { out.new ≡ left out.old (as_answer (map_in file.now zone (length out.old))) }
{
    tzb_codes::drawing_code(tzb_map::map(file, zone, out))
}

// How many bytes that text takes, or -1000 - n for refusal n: the same refusals but for 46.
pub fn tzb_map_length(file: &[u8], zone: u32) -> i64
    ensures { result ≡ drawn_code (how_long (map_of file.now zone)) }
{
    tzb_codes::drawing_code(tzb_map::map_length(file, zone))
}

// ---- the journal

// The journal's entry of a whole-number position, into the first 10 + 2 * places bytes of lent memory: 0, or -1000 - n for refusal n of the call, and then nothing is written: 44 for an opened record of another length, 50 for a number of places that is not offered, 46 where there is no room. Any refusal of the question is the entry's reason.
#[tactic(auto, using(tzb_codes::proofs::CodesLaws::done_outcome))]
pub fn tzb_journal_ask(
    record: &[u8],
    file: &[u8],
    places: u32,
    x: i32,
    y: i32,
    out: &mut [u8],
) -> i32
    ensures value { result ≡ done_code (journal_asked «record».now file.now places (point x y) out.old) }
    ensures memory { out.new ≡ left out.old (journal_asked «record».now file.now places (point x y) out.old) }
{
    let q = I32Point { x, y };
    tzb_codes::done_code(tzb_journal::ask(record, file, places, q, out))
}

// An entry of these parts into lent memory: 0, or -1000 - n for refusal n, and then nothing is written: 50 for a number of places that is not offered, or an entry of no form, then 46 where there is no room.
#[tactic(auto, using(tzb_codes::proofs::CodesLaws::done_outcome))]
pub fn tzb_journal_write(
    places: u32,
    x: i32,
    y: i32,
    zones: &[u32],
    reason: u32,
    out: &mut [u8],
) -> i32
    ensures value { result ≡ done_code (journal_written places (entry (point x y) zones.now reason) out.old) }
    ensures memory { out.new ≡ left out.old (journal_written places (entry (point x y) zones.now reason) out.old) }
{
    let q = I32Point { x, y };
    tzb_codes::done_code(tzb_journal::write(places, q, zones, reason, out))
}

fn count_and_reason(count: u8, reason: u8) -> u32
    ensures { (result ≡ 256 * count + reason) × (result < 0x1_0000) }
{
    256 * u32::from(count) + u32::from(reason)
}

// The entry that stands in the bytes: 256 times its count plus its reason, its position in the first two lent numbers, its zones in the first lent places. Or -1000 - n for refusal n, and then nothing is written: 50 for a number of places that is not offered, or bytes of no form, then 46 where there is no room for the position or for the zones.
#[tactic(auto, using(crate::proofs::ExportsLaws::count_told_law))]
pub fn tzb_journal_read(places: u32, bytes: &[u8], position: &mut [i32], zones: &mut [u32]) -> i32
    ensures value { result ≡ number_code (journal_read places bytes.now (length position.old) (length zones.old) then λ e. ok (count_and_reason e)) }
    ensures memory { (position.new ≡ left position.old (journal_read places bytes.now (length position.old) (length zones.old) then λ e. ok (position_of e))) × (zones.new ≡ left zones.old (journal_read places bytes.now (length position.old) (length zones.old) then λ e. ok e.zones)) }
{
    match tzb_journal::read(places, bytes, position, zones) {
        Ok((_, count, reason)) => count_and_reason(count, reason) as i32,
        Err(k) => tzb_codes::refusal_code(k),
    }
}

// ---- for comparison runs

// The number at a place of the bytes, or 0 where it is refused.
#[tactic(auto, unfolding(crate::specs::Exports::number_of))]
pub fn tzb_number(bytes: &[u8], at: usize) -> i32
    ensures { result ≡ number_of (number_at bytes.now at) }
{
    match Place::new(at).varint(bytes) {
        Ok((n, _)) => n,
        Err(_) => 0,
    }
}

// How many bytes that number has, or -1000 - n for refusal n.
#[tactic(auto, using(varints::proofs::Places::number_place), unfolding(crate::specs::Exports::length_from))]
pub fn tzb_number_length(bytes: &[u8], at: usize) -> i32
    ensures { result ≡ length_from at (number_at bytes.now at) }
{
    match Place::new(at).varint(bytes) {
        Ok((_, next)) => (next.at() - at) as i32,
        Err(k) => tzb_codes::refusal_code(k),
    }
}

// 1 where the point lies in the box, 0 where not.
pub fn tzb_box_contains(minx: i32, miny: i32, maxx: i32, maxy: i32, x: f64, y: f64) -> u32
    ensures { result ≡ bit_of (contains (box_of minx miny maxx maxy) (position x y)) }
{
    let b = BBox {
        minx,
        miny,
        maxx,
        maxy,
    };
    tzb_codes::bit(b.contains(Point { x, y }))
}

// 1 where what lies in the box can matter to the ray from the point, 0 where not.
pub fn tzb_box_relevant(minx: i32, miny: i32, maxx: i32, maxy: i32, x: f64, y: f64) -> u32
    ensures { result ≡ bit_of (relevant (box_of minx miny maxx maxy) (position x y)) }
{
    let b = BBox {
        minx,
        miny,
        maxx,
        maxy,
    };
    tzb_codes::bit(b.relevant(Point { x, y }))
}

// The CRC-32 of the bytes.
pub fn tzb_crc32(bytes: &[u8]) -> u32
    ensures { result ≡ crc32 bytes.now }
{
    crc::crc32_ieee(bytes)
}

// 1 where the bytes are UTF-8, 0 where not.
pub fn tzb_utf8(bytes: &[u8]) -> u32
    ensures { result ≡ bit_of (utf8 [] bytes.now) }
{
    tzb_codes::bit(utf8::utf8_ok(bytes))
}

// What the point sees of the segment from a to b: 2 it is on it, 1 the segment counts, 0 neither.
pub fn tzb_ray(ax: i32, ay: i32, bx: i32, by: i32, x: f64, y: f64) -> i32
    ensures { result ≡ seen_code (ray_of (point ax ay) (point bx by) (position x y)) }
{
    let a = I32Point { x: ax, y: ay };
    let b = I32Point { x: bx, y: by };
    tzb_codes::seen_code(tzb_core::raycast::raycast_seg(a, b, Point { x, y }))
}

// 1 where one end alone is above the point, 0 where not.
pub fn tzb_parity(ax: i32, ay: i32, bx: i32, by: i32, x: f64, y: f64) -> u32
    ensures { result ≡ bit_of (parity_of (position x y) (point ax ay) (point bx by)) }
{
    let a = I32Point { x: ax, y: ay };
    let b = I32Point { x: bx, y: by };
    tzb_codes::bit(tzb_core::raycast::endpoint_parity(a, b, Point { x, y }))
}

// The next float upward.
pub fn tzb_next_up(x: f64) -> f64
    ensures { result ≡ next_up x }
{
    tzb_core::raycast::next_up(x)
}
