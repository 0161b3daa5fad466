// Reads and writes the entries of standard input, each of which stands in a row with what document 02 says of it, and writes how many
// are answered so before the first difference or the list's end. A row says how many bytes are read or zones written, and how much is
// lent for the answer. A row to read has the bytes, a row to write the position, the reason and the zones; then come the zones that are
// read or the end of the entry, the refusal or 0, and three numbers.
#![tactic(auto)]

ghost use Rattle.std.specs.Prelude.{◌<◌};

use answer::Answer;
use harness::Said;
use plane::I32Point;
use std::io;
use std::io::Read;

const PLACES: u8 = 3;

// What stands in memory that is lent, as a byte and as a number.
const LENT: u8 = 0xa5;

const LENT_ZONE: u32 = 0xa5a5_a5a5;

// How many bytes there are to read, or zones to write.
fn length(r: &[u8; 64]) -> usize
    ensures { result < 256 }
{
    usize::from(r[1])
}

// How much is lent: places for the zones that are read, or bytes for the entry that is written.
fn room(r: &[u8; 64]) -> usize {
    usize::from(r[2])
}

// ---- to read

// Whether the places hold the row's first zones, and behind them what was lent.
fn are_zones(places: &[u32; 4], r: &[u8; 64], count: usize) -> bool {
    for i in 0..4 {
        let expected = if i < count {
            harness::number(r, 36 + 4 * i)
        } else {
            LENT_ZONE
        };
        if places[i] != expected {
            return false;
        }
    }
    true
}

// How many zones the row says there are: 0 too where it is refused.
fn zone_count(r: &[u8; 64]) -> usize {
    harness::size(r, 52) / 256
}

fn is_head(r: &[u8; 64], q: I32Point, count: u8, reason: u8) -> bool {
    (harness::number(r, 48) == 0)
        & (harness::number(r, 52) == 256 * u32::from(count) + u32::from(reason))
        & (harness::whole(r, 56) == q.x)
        & (harness::whole(r, 60) == q.y)
}

// Whether the row says what was answered.
fn is_said(r: &[u8; 64], a: Answer<(I32Point, u8, u8)>) -> bool {
    match a {
        Ok((q, count, reason)) => is_head(r, q, count, reason),
        Err(why) => Said::refused(why).is_expected(r),
    }
}

// Into the first of these places, as many as the row says. There must be as many.
fn is_read_into(r: &[u8; 64], places: &mut [u32]) -> bool {
    let n = room(r);
    if places.len() < n {
        return false;
    }
    let bytes = harness::part(r, 4, 4 + length(r));
    let a = entry_bytes::read_entry(PLACES, bytes, &mut places[0..n]);
    is_said(r, a)
}

// There is one place more than an entry has. Those that are not lent stay too.
fn is_read(r: &[u8; 64]) -> bool {
    let mut places = [LENT_ZONE; 4];
    let said = is_read_into(r, &mut places);
    said & are_zones(&places, r, zone_count(r))
}

// ---- to write

// Whether the bytes from that place on are as they were lent.
fn is_lent(out: &[u8], from: usize) -> bool {
    out.iter().skip(from).all(|b| *b == LENT)
}

fn write(r: &[u8; 64], zones: &[u32], out: &mut [u8]) -> Answer<()> {
    let q = I32Point {
        x: harness::whole(r, 4),
        y: harness::whole(r, 8),
    };
    entry_bytes::write_entry(PLACES, q, zones, harness::number(r, 12), out)
}

// Whether the entry is the row's, and what lies behind as it was.
fn is_laid(r: &[u8; 64], out: &[u8]) -> bool {
    let said = Said(
        0,
        harness::number(out, 0),
        harness::number(out, 4),
        harness::number(out, 8),
    );
    said.is_expected(r) & (harness::number(out, 12) == harness::number(r, 36)) & is_lent(out, 16)
}

// Into the first of these bytes, as many as the row says. There must be as many, and those that are not lent stay too.
fn is_written_into(r: &[u8; 64], zones: &[u32], out: &mut [u8]) -> bool {
    let n = room(r);
    if out.len() < n {
        return false;
    }
    match write(r, zones, &mut out[0..n]) {
        Ok(()) => is_laid(r, out),
        Err(why) => Said::refused(why).is_expected(r) & is_lent(out, 0),
    }
}

// With the first of these zones, and more bytes than an entry needs.
fn is_written_with(r: &[u8; 64], zones: &[u32]) -> bool {
    let n = length(r);
    if zones.len() < n {
        return false;
    }
    let mut out = [LENT; 24];
    is_written_into(r, &zones[0..n], &mut out)
}

fn is_written(r: &[u8; 64]) -> bool {
    let zones = [
        harness::number(r, 16),
        harness::number(r, 20),
        harness::number(r, 24),
        harness::number(r, 28),
        harness::number(r, 32),
    ];
    is_written_with(r, &zones)
}

// Whether there is one more row, and the port says the same.
fn next<R: Read>(input: &mut R) -> io::Result<bool> {
    let mut r = [0u8; 64];
    if !harness::read(input, &mut r)? {
        return Ok(false);
    }
    Ok(match r[0] {
        0 => is_read(&r),
        1 => is_written(&r),
        _ => false,
    })
}

fn main(rt: HostRuntime) -> io::Result<()> {
    let right = harness::replay(&mut rt.stdin(), |input| next(input))?;
    harness::tell(
        &mut rt.stdout(),
        right,
        b" entries read or written as document 02 says\n",
    )
}
