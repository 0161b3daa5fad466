// Asks the small files of standard input to decode chunks, for containment and for both lookups, and writes how many questions are
// answered as the list says before the first difference or the list's end. A file is opened, and its record is then asked with its own
// bytes, and with other bytes. Of lent memory every number is looked at, also after a refusal.
#![tactic(auto)]

use answer::Answer;
use harness::{Asking, Said, float, is_counted, number, size, whole};
use opened::Opened;
use std::io;

// ---- lent memory: 64 places. Each holds 1,234,567,890, which is neither a coordinate nor a zone.

const LENT: u32 = 1_234_567_890;

fn bytes_of(held: &[u32; 64]) -> [u8; 256] {
    let mut out = [0u8; 256];
    for i in 0..64 {
        out[4 * i..4 * i + 4].copy_from_slice(&held[i].to_le_bytes());
    }
    out
}

// Whether the first numbers are those that are expected, by the sum of their bytes, and the places behind as they were lent.
fn is_held(held: &[u32; 64], q: &[u8]) -> bool {
    let count = harness::count(q);
    if 64 < count {
        return false;
    }
    let end = 4 * count;
    let bytes = bytes_of(held);
    let lent = bytes_of(&[LENT; 64]);
    (crc::crc32_ieee(harness::part(&bytes, 0, end)) == number(q, 40))
        & (harness::part(&bytes, end, 256) == harness::part(&lent, end, 256))
}

// ---- a question is 48 bytes: its kind, a chunk or a zone, two numbers, a longitude, a latitude; then what is expected: the refusal or 0,
// two numbers, zeros. Behind a refusal stand its place and one more, and zeros: then no number may have changed.

fn is_checked(a: Answer<()>, q: &[u8]) -> bool {
    match a {
        Ok(()) => number(q, 32) == 0,
        Err(why) => Said::refused(why).is_expected(q),
    }
}

// With the first of the places.
fn decode(o: Opened, s: &[u8], chunk: usize, out: &mut [i32], room: usize) -> Answer<()> {
    if out.len() < room {
        return answer::fail(0);
    }
    reader_chunks::decode_chunk_points(o, s, chunk, &mut out[0..room])
}

fn is_decoded(o: Opened, s: &[u8], q: &[u8]) -> bool {
    let mut out = [LENT.cast_signed(); 64];
    let c = decode(o, s, size(q, 4), &mut out, size(q, 8));
    let held = out.map(|z| z.cast_unsigned());
    is_checked(c, q) & is_held(&held, q)
}

// With the first of the places.
fn list(o: Opened, s: &[u8], q: &[u8], out: &mut [u32], places: usize) -> Answer<u32> {
    if out.len() < places {
        return Ok(0xffff_ffff);
    }
    reader_listing::lookup_into(o, s, float(q, 16), float(q, 24), &mut out[0..places])
}

fn is_listed(o: Opened, s: &[u8], q: &[u8]) -> bool {
    let mut out = [LENT; 64];
    let l = list(o, s, q, &mut out, size(q, 8));
    is_counted(l.map(u64::from), q) & is_held(&out, q)
}

fn is_answered(o: Opened, s: &[u8], q: &[u8]) -> bool {
    let zone = number(q, 4);
    match number(q, 0) {
        1 => is_decoded(o, s, q),
        2 => Said::verdict(reader_zones::contains(
            o,
            s,
            zone,
            whole(q, 8),
            whole(q, 12),
        )).is_expected(q),
        3 => Said::found(reader_lookup::lookup(o, s, float(q, 16), float(q, 24))).is_expected(q),
        4 => is_listed(o, s, q),
        _ => false,
    }
}

fn replay(file: &[u8], s: &[u8], q: &[u8]) -> bool {
    tzb::open(file).is_ok_and(|o| is_answered(o, s, q))
}

fn main(rt: HostRuntime) -> io::Result<()> {
    let mut input = rt.stdin();
    let mut file = [0u8; 1024];
    let mut lent = [0u8; 1024];
    let mut a = Asking::new();
    // kept: what comes next says when the list ends; nothing is counted here
    while 0 < a.tally.left {
        if a.questions == 0 {
            a = a.lend(&mut input, &mut file, &mut lent)?;
        } else {
            let right = harness::next(&mut input, &mut [0u8; 48], |q| {
                replay(harness::held(&file), harness::held(&lent), q)
            })?;
            a = a.with(right);
        }
    }
    harness::tell(
        &mut rt.stdout(),
        a.tally.right,
        b" questions of chunks, containment and lookups answered as documents 01 and 02 say\n",
    )
}
