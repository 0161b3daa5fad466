// The question for a zone's name, for any record, any bytes and any zone number.
#![tactic(auto)]

ghost use Rattle.std.specs.Prelude.{◌≡◌, ◌+◌, ◌<◌};
ghost use Rattle.reader_named.specs.Asked.{bounds_at, name_or, name_from, behind, refusal_of, name_at};

use answer::Answer;
use fields::Number;
use opened::Opened;

// The two offsets, and the name's bytes, for any bytes and any zone number.
#[tactic(auto, unfolding(crate::specs::Asked::bounds_at, reader_names::specs::Names::edge, answer::specs::Checks::claim, answer::specs::Checks::below, answer::specs::Checks::at_most))]
pub fn name_bounds(s: &[u8], names: u32, zones: u32, zone: u32) -> Answer<(usize, usize)>
    ensures { result ≡ bounds_at s.now names zones zone }
{
    answer::claim(45, zone < zones)?;
    let at = names as usize;
    let p = at + 4 + 4 * (zone as usize);
    answer::claim(44, p + 8 <= s.len())?;
    let blob = at + 8 + 4 * (zones as usize);
    let from = blob + u32::at(s, p) as usize;
    let to = blob + u32::at(s, p + 4) as usize;
    answer::claim(23, from <= to)?;
    answer::claim(44, to <= s.len())?;
    Ok((from, to))
}

// A zone's name as that part of the lent file, empty where it is refused: its bytes, and the place in memory at which they stand.
#[tactic(auto, using(crate::proofs::Places::bounds_good), unfolding(crate::specs::Asked::name_or, crate::specs::Asked::name_at, crate::specs::Asked::name_from, crate::specs::Asked::behind))]
pub fn name(o: Opened, s: &[u8], zone: u32) -> &[u8]
    ensures result_value { result.now ≡ name_or o s.now zone }
    ensures place { result.ref_ptr ≡ behind s.entry.ref_ptr (name_from o s.now zone) }
{
    match name_bounds(s, o.names.off, o.zones.count, zone) {
        Ok((from, to)) => &s[from..to],
        Err(_) => &s[..0],
    }
}

// kept: a number, 0 for none, as `refusal_of` has it; README and the pages name it.
// The number by which a zone's name is refused, or 0.
#[tactic(auto, unfolding(crate::specs::Asked::refusal_of, crate::specs::Asked::name_at))]
pub fn name_refusal(o: Opened, s: &[u8], zone: u32) -> u32
    ensures { result ≡ refusal_of (name_at o s.now zone) }
{
    match name_bounds(s, o.names.off, o.zones.count, zone) {
        Ok(_) => 0,
        Err(k) => k.number,
    }
}
