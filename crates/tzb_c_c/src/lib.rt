// The exports' C face: each calls the function of tzb_c that has its name, with that function's promise in the same words. include/tzb.h declares them; what each is for is said in tzb_c.
#![tactic(auto)]

ghost use Rattle.std.specs.Prelude.{◌≡◌, [], length};
ghost use Rattle.rounding.specs.Upward.{next_up};
ghost use Rattle.checksum.specs.Crc32.{crc32};
ghost use Rattle.utf8.specs.Rfc3629.{utf8};
ghost use Rattle.boxes.specs.Box.{contains, relevant};
ghost use Rattle.rays.specs.Ray.{ray_of, parity_of};
ghost use Rattle.varints.specs.Varint.{number_at};
ghost use Rattle.chunks.specs.Decode.{filled};
ghost use Rattle.tzb.specs.FullCheck.{full_check_of};
ghost use Rattle.tzb_asked.specs.Asked.{zones_asked, name_asked, ends_asked, ends_after, choice_asked, candidate_asked, contains_asked, decode_asked, lookup_asked, list_asked, contains_asked_by, lookup_asked_by, list_asked_by, need_asked, stripes_asked};
ghost use Rattle.reader_ways.specs.Ways.{striped};
ghost use Rattle.tzb_codes.specs.Codes.{bit_of, done_code, kind_code, listed_of, inside_code, zone_code, check_code, rule_of, needed_code, drawn_code, seen_code, number_code, start_code, end_code, place_of};
ghost use Rattle.tzb_map.specs.Map.{map_of, map_in, how_long, as_answer};
ghost use Rattle.tzb_c.specs.Opens.{open_into, lookup_once};
ghost use Rattle.tzb_c.specs.Exports.{number_of, length_from, box_of};
ghost use Rattle.plane.specs.Places.{point, position};
ghost use Rattle.answer.specs.Answers.{ok, ◌then◌, left, how_many};
ghost use Rattle.entries.specs.Entry.{entry};
ghost use Rattle.tzb_journal.specs.Journal.{journal_asked, journal_written, journal_read, position_of, count_and_reason};

// kept: the C interface has these parameters, one by one, and each symbol its function in tzb_c.

// ---- opening, and questions over the opened record

#[unsafe(no_mangle)]
pub extern "C" fn tzb_open(file: &[u8], record: &mut [u8]) -> i32
    ensures value { result ≡ done_code (open_into file.now «record».old) }
    ensures memory { «record».new ≡ left «record».old (open_into file.now «record».old) }
{
    tzb_c::tzb_open(file, record)
}

#[unsafe(no_mangle)]
pub extern "C" fn tzb_zone_count(record: &[u8]) -> i64
    ensures { result ≡ number_code (zones_asked «record».now) }
{
    tzb_c::tzb_zone_count(record)
}

#[unsafe(no_mangle)]
pub extern "C" fn tzb_name_start(record: &[u8], file: &[u8], zone: u32) -> i64
    ensures { result ≡ start_code (name_asked «record».now file.now zone) }
{
    tzb_c::tzb_name_start(record, file, zone)
}

#[unsafe(no_mangle)]
pub extern "C" fn tzb_name_end(record: &[u8], file: &[u8], zone: u32) -> i64
    ensures { result ≡ end_code (name_asked «record».now file.now zone) }
{
    tzb_c::tzb_name_end(record, file, zone)
}

#[unsafe(no_mangle)]
pub extern "C" fn tzb_name(record: &[u8], file: &[u8], zone: u32, ends: &mut [u64]) -> i32
    ensures value { result ≡ done_code (ends_asked «record».now file.now zone (length ends.old)) }
    ensures memory { ends.new ≡ ends_after ends.old (ends_asked «record».now file.now zone (length ends.old)) }
{
    tzb_c::tzb_name(record, file, zone, ends)
}

#[unsafe(no_mangle)]
pub extern "C" fn tzb_choice(record: &[u8], file: &[u8], lng: f64, lat: f64) -> i32
    ensures { result ≡ kind_code (choice_asked «record».now file.now lng lat) }
{
    tzb_c::tzb_choice(record, file, lng, lat)
}

#[unsafe(no_mangle)]
pub extern "C" fn tzb_listed(record: &[u8], file: &[u8], lng: f64, lat: f64) -> u64
    ensures { result ≡ listed_of (choice_asked «record».now file.now lng lat) }
{
    tzb_c::tzb_listed(record, file, lng, lat)
}

#[unsafe(no_mangle)]
pub extern "C" fn tzb_candidate(record: &[u8], file: &[u8], place: u32) -> i64
    ensures { result ≡ number_code (candidate_asked «record».now file.now place) }
{
    tzb_c::tzb_candidate(record, file, place)
}

#[unsafe(no_mangle)]
pub extern "C" fn tzb_contains(record: &[u8], file: &[u8], zone: u32, x: i32, y: i32) -> i32
    ensures { result ≡ inside_code (contains_asked «record».now file.now zone (point x y)) }
{
    tzb_c::tzb_contains(record, file, zone, x, y)
}

#[unsafe(no_mangle)]
pub extern "C" fn tzb_contains_place(record: &[u8], file: &[u8], zone: u32, x: i32, y: i32) -> i64
    ensures { result ≡ place_of (contains_asked «record».now file.now zone (point x y)) }
{
    tzb_c::tzb_contains_place(record, file, zone, x, y)
}

#[unsafe(no_mangle)]
pub extern "C" fn tzb_decode(record: &[u8], file: &[u8], chunk: u32, out: &mut [i32]) -> i64
    ensures value { result ≡ number_code (how_many (decode_asked «record».now file.now chunk out.old)) }
    ensures memory { out.new ≡ filled out.old (decode_asked «record».now file.now chunk out.old) }
{
    tzb_c::tzb_decode(record, file, chunk, out)
}

#[unsafe(no_mangle)]
pub extern "C" fn tzb_decode_place(record: &[u8], file: &[u8], chunk: u32, out: &[i32]) -> i64
    ensures { result ≡ place_of (decode_asked «record».now file.now chunk out.now) }
{
    tzb_c::tzb_decode_place(record, file, chunk, out)
}

#[unsafe(no_mangle)]
pub extern "C" fn tzb_lookup(file: &[u8], lng: f64, lat: f64) -> i32
    ensures { result ≡ zone_code (lookup_once file.now lng lat) }
{
    tzb_c::tzb_lookup(file, lng, lat)
}

#[unsafe(no_mangle)]
pub extern "C" fn tzb_lookup_place(file: &[u8], lng: f64, lat: f64) -> i64
    ensures { result ≡ place_of (lookup_once file.now lng lat) }
{
    tzb_c::tzb_lookup_place(file, lng, lat)
}

#[unsafe(no_mangle)]
pub extern "C" fn tzb_ask(record: &[u8], file: &[u8], lng: f64, lat: f64) -> i64
    ensures { result ≡ zone_code (lookup_asked «record».now file.now lng lat) }
{
    tzb_c::tzb_ask(record, file, lng, lat)
}

#[unsafe(no_mangle)]
pub extern "C" fn tzb_ask_place(record: &[u8], file: &[u8], lng: f64, lat: f64) -> i64
    ensures { result ≡ place_of (lookup_asked «record».now file.now lng lat) }
{
    tzb_c::tzb_ask_place(record, file, lng, lat)
}

#[unsafe(no_mangle)]
pub extern "C" fn tzb_ask_all(
    record: &[u8],
    file: &[u8],
    lng: f64,
    lat: f64,
    zones: &mut [u32],
) -> i64
    ensures value { result ≡ number_code (how_many (list_asked «record».now file.now lng lat (length zones.old))) }
    ensures memory { zones.new ≡ left zones.old (list_asked «record».now file.now lng lat (length zones.old)) }
{
    tzb_c::tzb_ask_all(record, file, lng, lat, zones)
}

#[unsafe(no_mangle)]
pub extern "C" fn tzb_ask_all_place(
    record: &[u8],
    file: &[u8],
    lng: f64,
    lat: f64,
    zones: &[u32],
) -> i64
    ensures { result ≡ place_of (list_asked «record».now file.now lng lat (length zones.now)) }
{
    tzb_c::tzb_ask_all_place(record, file, lng, lat, zones)
}

// ---- stripes

#[unsafe(no_mangle)]
pub extern "C" fn tzb_stripes_need(record: &[u8], file: &[u8]) -> i64
    ensures { result ≡ needed_code (need_asked «record».now file.now) }
{
    tzb_c::tzb_stripes_need(record, file)
}

#[unsafe(no_mangle)]
pub extern "C" fn tzb_stripes(record: &[u8], file: &[u8], numbers: &mut [u32]) -> i64
    ensures value { result ≡ needed_code (how_many (stripes_asked «record».now file.now (length numbers.old))) }
    ensures memory { numbers.new ≡ left numbers.old (stripes_asked «record».now file.now (length numbers.old)) }
{
    tzb_c::tzb_stripes(record, file, numbers)
}

#[unsafe(no_mangle)]
pub extern "C" fn tzb_contains_striped(
    record: &[u8],
    numbers: &[u32],
    file: &[u8],
    zone: u32,
    x: i32,
    y: i32,
) -> i32
    ensures { result ≡ inside_code (contains_asked_by (striped numbers.now) «record».now file.now zone (point x y)) }
{
    tzb_c::tzb_contains_striped(record, numbers, file, zone, x, y)
}

#[unsafe(no_mangle)]
pub extern "C" fn tzb_contains_striped_place(
    record: &[u8],
    numbers: &[u32],
    file: &[u8],
    zone: u32,
    x: i32,
    y: i32,
) -> i64
    ensures { result ≡ place_of (contains_asked_by (striped numbers.now) «record».now file.now zone (point x y)) }
{
    tzb_c::tzb_contains_striped_place(record, numbers, file, zone, x, y)
}

#[unsafe(no_mangle)]
pub extern "C" fn tzb_ask_striped(
    record: &[u8],
    numbers: &[u32],
    file: &[u8],
    lng: f64,
    lat: f64,
) -> i64
    ensures { result ≡ zone_code (lookup_asked_by (striped numbers.now) «record».now file.now lng lat) }
{
    tzb_c::tzb_ask_striped(record, numbers, file, lng, lat)
}

#[unsafe(no_mangle)]
pub extern "C" fn tzb_ask_striped_place(
    record: &[u8],
    numbers: &[u32],
    file: &[u8],
    lng: f64,
    lat: f64,
) -> i64
    ensures { result ≡ place_of (lookup_asked_by (striped numbers.now) «record».now file.now lng lat) }
{
    tzb_c::tzb_ask_striped_place(record, numbers, file, lng, lat)
}

#[unsafe(no_mangle)]
pub extern "C" fn tzb_ask_all_striped(
    record: &[u8],
    numbers: &[u32],
    file: &[u8],
    lng: f64,
    lat: f64,
    zones: &mut [u32],
) -> i64
    ensures value { result ≡ number_code (how_many (list_asked_by (striped numbers.now) «record».now file.now lng lat (length zones.old))) }
    ensures memory { zones.new ≡ left zones.old (list_asked_by (striped numbers.now) «record».now file.now lng lat (length zones.old)) }
{
    tzb_c::tzb_ask_all_striped(record, numbers, file, lng, lat, zones)
}

#[unsafe(no_mangle)]
pub extern "C" fn tzb_ask_all_striped_place(
    record: &[u8],
    numbers: &[u32],
    file: &[u8],
    lng: f64,
    lat: f64,
    zones: &[u32],
) -> i64
    ensures { result ≡ place_of (list_asked_by (striped numbers.now) «record».now file.now lng lat (length zones.now)) }
{
    tzb_c::tzb_ask_all_striped_place(record, numbers, file, lng, lat, zones)
}

// ---- the full check

#[unsafe(no_mangle)]
pub extern "C" fn tzb_full_check(file: &[u8]) -> i32
    ensures { result ≡ check_code (full_check_of file.now) }
{
    tzb_c::tzb_full_check(file)
}

#[unsafe(no_mangle)]
pub extern "C" fn tzb_full_check_rule(file: &[u8]) -> u32
    ensures { result ≡ rule_of (full_check_of file.now) }
{
    tzb_c::tzb_full_check_rule(file)
}

// ---- a zone as a map

#[unsafe(no_mangle)]
pub extern "C" fn tzb_map(file: &[u8], zone: u32, out: &mut [u8]) -> i64
    ensures value { result ≡ drawn_code (how_long (map_in file.now zone (length out.old))) }
    ensures memory { out.new ≡ left out.old (as_answer (map_in file.now zone (length out.old))) }
{
    tzb_c::tzb_map(file, zone, out)
}

#[unsafe(no_mangle)]
pub extern "C" fn tzb_map_length(file: &[u8], zone: u32) -> i64
    ensures { result ≡ drawn_code (how_long (map_of file.now zone)) }
{
    tzb_c::tzb_map_length(file, zone)
}

// ---- the journal

#[unsafe(no_mangle)]
pub extern "C" fn tzb_journal_ask(
    record: &[u8],
    file: &[u8],
    places: u32,
    x: i32,
    y: i32,
    out: &mut [u8],
) -> i32
    ensures value { result ≡ done_code (journal_asked «record».now file.now places (point x y) out.old) }
    ensures memory { out.new ≡ left out.old (journal_asked «record».now file.now places (point x y) out.old) }
{
    tzb_c::tzb_journal_ask(record, file, places, x, y, out)
}

#[unsafe(no_mangle)]
pub extern "C" fn tzb_journal_write(
    places: u32,
    x: i32,
    y: i32,
    zones: &[u32],
    reason: u32,
    out: &mut [u8],
) -> i32
    ensures value { result ≡ done_code (journal_written places (entry (point x y) zones.now reason) out.old) }
    ensures memory { out.new ≡ left out.old (journal_written places (entry (point x y) zones.now reason) out.old) }
{
    tzb_c::tzb_journal_write(places, x, y, zones, reason, out)
}

#[unsafe(no_mangle)]
pub extern "C" fn tzb_journal_read(
    places: u32,
    bytes: &[u8],
    position: &mut [i32],
    zones: &mut [u32],
) -> i32
    ensures value { result ≡ number_code (journal_read places bytes.now (length position.old) (length zones.old) then λ e. ok (count_and_reason e)) }
    ensures memory { (position.new ≡ left position.old (journal_read places bytes.now (length position.old) (length zones.old) then λ e. ok (position_of e))) × (zones.new ≡ left zones.old (journal_read places bytes.now (length position.old) (length zones.old) then λ e. ok e.zones)) }
{
    tzb_c::tzb_journal_read(places, bytes, position, zones)
}

// ---- for comparison runs

#[unsafe(no_mangle)]
pub extern "C" fn tzb_number(bytes: &[u8], at: usize) -> i32
    ensures { result ≡ number_of (number_at bytes.now at) }
{
    tzb_c::tzb_number(bytes, at)
}

#[unsafe(no_mangle)]
pub extern "C" fn tzb_number_length(bytes: &[u8], at: usize) -> i32
    ensures { result ≡ length_from at (number_at bytes.now at) }
{
    tzb_c::tzb_number_length(bytes, at)
}

#[unsafe(no_mangle)]
pub extern "C" fn tzb_box_contains(
    minx: i32,
    miny: i32,
    maxx: i32,
    maxy: i32,
    x: f64,
    y: f64,
) -> u32
    ensures { result ≡ bit_of (contains (box_of minx miny maxx maxy) (position x y)) }
{
    tzb_c::tzb_box_contains(minx, miny, maxx, maxy, x, y)
}

#[unsafe(no_mangle)]
pub extern "C" fn tzb_box_relevant(
    minx: i32,
    miny: i32,
    maxx: i32,
    maxy: i32,
    x: f64,
    y: f64,
) -> u32
    ensures { result ≡ bit_of (relevant (box_of minx miny maxx maxy) (position x y)) }
{
    tzb_c::tzb_box_relevant(minx, miny, maxx, maxy, x, y)
}

#[unsafe(no_mangle)]
pub extern "C" fn tzb_crc32(bytes: &[u8]) -> u32
    ensures { result ≡ crc32 bytes.now }
{
    tzb_c::tzb_crc32(bytes)
}

#[unsafe(no_mangle)]
pub extern "C" fn tzb_utf8(bytes: &[u8]) -> u32
    ensures { result ≡ bit_of (utf8 [] bytes.now) }
{
    tzb_c::tzb_utf8(bytes)
}

#[unsafe(no_mangle)]
pub extern "C" fn tzb_ray(ax: i32, ay: i32, bx: i32, by: i32, x: f64, y: f64) -> i32
    ensures { result ≡ seen_code (ray_of (point ax ay) (point bx by) (position x y)) }
{
    tzb_c::tzb_ray(ax, ay, bx, by, x, y)
}

#[unsafe(no_mangle)]
pub extern "C" fn tzb_parity(ax: i32, ay: i32, bx: i32, by: i32, x: f64, y: f64) -> u32
    ensures { result ≡ bit_of (parity_of (position x y) (point ax ay) (point bx by)) }
{
    tzb_c::tzb_parity(ax, ay, bx, by, x, y)
}

#[unsafe(no_mangle)]
pub extern "C" fn tzb_next_up(x: f64) -> f64
    ensures { result ≡ next_up x }
{
    tzb_c::tzb_next_up(x)
}
