// Asks the small files of standard input for their stripes, and questions by stripes, and writes how many are answered as the list says
// before the first difference or the list's end. A file is opened, and its record is then asked with its own bytes and with others, and
// with the numbers that are built of it and with others. Of lent memory every number is looked at, also after a refusal.
#![tactic(auto)]

ghost use Rattle.std.specs.Prelude.{◌-◌, ◌≤◌, IfOk};

use answer::Answer;
use harness::{Asking, Said, float, is_counted, number, size, whole};
use opened::Opened;
use reader_ways::Way;
use std::io;
use std::io::Read;

// ---- numbers: those that a record holds, and lent memory, of which each place holds 1,234,567,890

const LENT: u32 = 1_234_567_890;

// The numbers of a record, four bytes each.
fn numbers_of(r: &[u8; 1024]) -> [u32; 256] {
    let mut out = [0u32; 256];
    for i in 0..254 {
        out[i] = number(r, 8 + 4 * i);
    }
    out
}

// As many of them as the record says.
fn first(all: &[u32], count: usize) -> &[u32] {
    if all.len() < count {
        return &all[..0];
    }
    &all[0..count]
}

// Whether the first so many places hold what is expected, and those behind what was lent.
fn is_left(out: &[u32], count: usize, expected: &[u32]) -> bool {
    if expected.len() < count {
        return false;
    }
    let n = count.min(out.len());
    out[..n] == expected[..n] && out[n..].iter().all(|held| *held == LENT)
}

// ---- a question is 48 bytes: its kind, a zone or how many places are lent, two numbers, a longitude, a latitude; then what is expected:
// the refusal or 0, and three numbers. Behind a refusal stand its place and one more, and zeros: then no number may have changed.

// Into the first of the places.
fn build(o: Opened, s: &[u8], out: &mut [u32], room: usize) -> Answer<u64> {
    if out.len() < room {
        return Ok(0xffff_ffff_ffff);
    }
    reader_stripes::stripes(o, s, &mut out[0..room])
}

// What is built is what the list lends: all of it is looked at.
fn is_built(o: Opened, s: &[u8], numbers: &[u32], q: &[u8]) -> bool {
    let mut out = [LENT; 256];
    let n = build(o, s, &mut out, size(q, 4));
    is_counted(n, q) & is_left(&out, harness::count(q), numbers)
}

// Into the first of the places.
fn list(
    o: Opened,
    s: &[u8],
    numbers: &[u32],
    q: &[u8],
    out: &mut [u32],
    places: usize,
) -> Answer<u32> {
    if out.len() < places {
        return Ok(0xffff_ffff);
    }
    let lng = float(q, 16);
    let lat = float(q, 24);
    reader_listing::lookup_into_by(Way::Striped(numbers), o, s, lng, lat, &mut out[0..places])
}

// At most two zones are listed.
fn is_listed(o: Opened, s: &[u8], numbers: &[u32], q: &[u8]) -> bool {
    let mut out = [LENT; 16];
    let l = list(o, s, numbers, q, &mut out, size(q, 4));
    let zones = [number(q, 40), number(q, 44)];
    is_counted(l.map(u64::from), q) & is_left(&out, harness::count(q), &zones)
}

fn is_contained(o: Opened, s: &[u8], numbers: &[u32], q: &[u8]) -> bool {
    let x = whole(q, 8);
    let y = whole(q, 12);
    Said::verdict(reader_zones::contains_by(
        Way::Striped(numbers),
        o,
        s,
        number(q, 4),
        x,
        y,
    )).is_expected(q)
}

fn is_found(o: Opened, s: &[u8], numbers: &[u32], q: &[u8]) -> bool {
    let lng = float(q, 16);
    let lat = float(q, 24);
    Said::found(reader_lookup::lookup_by(Way::Striped(numbers), o, s, lng, lat)).is_expected(q)
}

fn is_answered(o: Opened, s: &[u8], numbers: &[u32], q: &[u8]) -> bool {
    match number(q, 0) {
        1 => is_counted(reader_stripes::stripes_need(o, s), q),
        2 => is_built(o, s, numbers, q),
        3 => is_contained(o, s, numbers, q),
        4 => is_found(o, s, numbers, q),
        5 => is_listed(o, s, numbers, q),
        _ => false,
    }
}

fn replay(file: &[u8], s: &[u8], numbers: &[u32], q: &[u8]) -> bool {
    tzb::open(file).is_ok_and(|o| is_answered(o, s, numbers, q))
}

// With the numbers that the record holds.
fn replay_with(file: &[u8; 1024], lent: &[u8; 1024], numbers: &[u8; 1024], q: &[u8]) -> bool {
    let all = numbers_of(numbers);
    let count = harness::held(numbers).len() / 4;
    replay(
        harness::held(file),
        harness::held(lent),
        first(&all, count),
        q,
    )
}

// Reads the bytes and the numbers that are lent next, or a file where those were all.
fn lend<R: Read>(
    a: Asking,
    input: &mut R,
    file: &mut [u8; 1024],
    lent: &mut [u8; 1024],
    numbers: &mut [u8; 1024],
) -> io::Result<Asking>
    ensures { IfOk result (λ b. b.tally.left ≤ a.tally.left - 1) }
{
    let b = a.lend(input, file, lent)?;
    if b.questions == 0 {
        return Ok(b);
    }
    if harness::read_held(input, numbers)? {
        return Ok(b);
    }
    Ok(b.with(false))
}

fn main(rt: HostRuntime) -> io::Result<()> {
    let mut input = rt.stdin();
    let mut file = [0u8; 1024];
    let mut lent = [0u8; 1024];
    let mut numbers = [0u8; 1024];
    let mut a = Asking::new();
    // kept: what comes next says when the list ends; nothing is counted here
    while 0 < a.tally.left {
        if a.questions == 0 {
            a = lend(a, &mut input, &mut file, &mut lent, &mut numbers)?;
        } else {
            let right = harness::next(&mut input, &mut [0u8; 48], |q| {
                replay_with(&file, &lent, &numbers, q)
            })?;
            a = a.with(right);
        }
    }
    harness::tell(
        &mut rt.stdout(),
        a.tally.right,
        b" answers with stripes as document 02 says\n",
    )
}
