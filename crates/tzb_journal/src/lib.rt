// The journal of answers: what a whole-number question is answered, as an entry, and the journal's calls. Over the number of places; three alone are offered as yet.
#![tactic(auto)]

ghost use Rattle.std.specs.Prelude.{◌≡◌, [], ◌≤◌, length};
ghost use Rattle.answer.specs.Answers.{ok, refused, ◌then◌, outcome, left};
ghost use Rattle.entries.specs.Entry.{entry};
ghost use Rattle.entries.specs.Forms.{laid_of};
ghost use Rattle.entries.specs.Reading.{entry_of, head_of};
ghost use Rattle.tzb_journal.specs.Journal.{fitting, noted, entry_for, offered, journal_asked, journal_written, journal_read, position_of};
ghost use Rattle.tzb_journal.specs.Steps.{unread};

use answer::{Answer, Refusal};
use opened::Opened;
use plane::I32Point;

// ---- the question

// An entry with no zones, and that refusal as its reason.
fn note_refusal(places: u8, q: I32Point, why: Refusal, out: &mut [u8]) -> Answer<()>
    ensures result_value { result ≡ outcome (laid_of places (entry q [] why.number) out.old) }
    ensures memory { out.new ≡ left out.old (laid_of places (entry q [] why.number) out.old) }
{
    entry_bytes::lay_entry(places, q, &[], why.number, out)
}

// An entry with these zones, or 45 as its reason where one of them fits no place.
fn note_zones(places: u8, q: I32Point, zones: &[u32], out: &mut [u8]) -> Answer<()>
    requires { length zones.now ≤ places }
    ensures result_value { result ≡ outcome (laid_of places (noted q (fitting zones.now)) out.old) }
    ensures memory { out.new ≡ left out.old (laid_of places (noted q (fitting zones.now)) out.old) }
{
    if entry_bytes::all_below(zones) {
        entry_bytes::lay_entry(places, q, zones, 0, out)
    } else {
        note_refusal(places, q, answer::refuse(45), out)
    }
}

// The answer of an opened file, with as many places for zones as the entry has.
fn note_with(
    places: u8,
    o: Opened,
    file: &[u8],
    q: I32Point,
    held: &mut [u32],
    out: &mut [u8],
) -> Answer<()>
    requires { length held.old ≡ places }
    ensures result_value { result ≡ outcome (laid_of places (entry_for places (ok o) file.now q) out.old) }
    ensures memory { out.new ≡ left out.old (laid_of places (entry_for places (ok o) file.now q) out.old) }
{
    match reader_whole::whole_list(o, file, q, held) {
        Ok(n) => note_zones(places, q, &held[..n as usize], out),
        Err(why) => note_refusal(places, q, why, out),
    }
}

// The same with memory of its own: a count is a byte, so no entry has more places.
fn note_opened(places: u8, o: Opened, file: &[u8], q: I32Point, out: &mut [u8]) -> Answer<()>
    ensures result_value { result ≡ outcome (laid_of places (entry_for places (ok o) file.now q) out.old) }
    ensures memory { out.new ≡ left out.old (laid_of places (entry_for places (ok o) file.now q) out.old) }
{
    let mut held = [0u32; 255];
    note_with(places, o, file, q, &mut held[..usize::from(places)], out)
}

// The entry of a position, by what opening answered of the file, into lent memory: 46 where there is no room for it, and then nothing is written. Any other refusal is the entry's reason. What lies behind is never touched.
pub fn note(
    places: u8,
    opening: Answer<Opened>,
    file: &[u8],
    q: I32Point,
    out: &mut [u8],
) -> Answer<()>
    ensures result_value { result ≡ outcome (laid_of places (entry_for places (opening) file.now q) out.old) }
    ensures memory { out.new ≡ left out.old (laid_of places (entry_for places (opening) file.now q) out.old) }
{
    match opening {
        Ok(o) => note_opened(places, o, file, q, out),
        Err(why) => note_refusal(places, q, why, out),
    }
}

// ---- the journal's calls

// Whether a caller may say that number of places.
fn is_offered(places: u32) -> bool
    ensures { result ≡ offered places }
{
    places == 3
}

// The entry of a position, with the opened record as bytes: 44 where it cannot be read, 50 for a number of places that is not offered, then 46 where there is no room.
pub fn ask(record: &[u8], file: &[u8], places: u32, q: I32Point, out: &mut [u8]) -> Answer<()>
    ensures result_value { result ≡ outcome (journal_asked «record».now file.now places q out.old) }
    ensures memory { out.new ≡ left out.old (journal_asked «record».now file.now places q out.old) }
{
    let o = tzb_record::read_record(record)?;
    answer::claim(50, is_offered(places))?;
    note_opened(places as u8, o, file, q, out)
}

// The entry into lent memory: 50 for a number of places that is not offered, or where it is of no form; then 46 where there is no room.
pub fn write(places: u32, q: I32Point, zones: &[u32], reason: u32, out: &mut [u8]) -> Answer<()>
    ensures result_value { result ≡ outcome (journal_written places (entry q zones.now reason) out.old) }
    ensures memory { out.new ≡ left out.old (journal_written places (entry q zones.now reason) out.old) }
{
    answer::claim(50, is_offered(places))?;
    entry_bytes::write_entry(places as u8, q, zones, reason, out)
}

// Why there is no answer where fewer than two numbers are lent for the position.
fn why_unread(places: u8, bytes: &[u8]) -> Refusal
    ensures { refused result ≡ unread (entry_of places bytes.now) }
{
    if entry_bytes::is_entry(places, bytes) {
        answer::refuse(46)
    } else {
        answer::refuse(50)
    }
}

// The entry that stands in the bytes: its position in the first two numbers that are lent for it, its zones in the first places. 50 for a number of places that is not offered, or where the bytes are of no form; then 46 where there is no room for the position or for the zones, and then nothing is written.
pub fn read(
    places: u32,
    bytes: &[u8],
    position: &mut [i32],
    zones: &mut [u32],
) -> Answer<(I32Point, u8, u8)>
    ensures result_value { result ≡ (journal_read places bytes.now (length position.old) (length zones.old) then λ e. ok (head_of e)) }
    ensures memory { (position.new ≡ left position.old (journal_read places bytes.now (length position.old) (length zones.old) then λ e. ok (position_of e))) × (zones.new ≡ left zones.old (journal_read places bytes.now (length position.old) (length zones.old) then λ e. ok e.zones)) }
{
    answer::claim(50, is_offered(places))?;
    if position.len() < 2 {
        return Err(why_unread(places as u8, bytes));
    }
    let (q, count, reason) = entry_bytes::read_entry(places as u8, bytes, zones)?;
    position[..2].copy_from_slice(&[q.x, q.y]);
    Ok((q, count, reason))
}
