// Asks the small files of standard input for names and candidates, and writes how many questions are answered as the list says before
// the first difference or the list's end. A file is opened, and its record is then asked with its own bytes, with the first of them,
// and with other bytes.
#![tactic(auto)]

use answer::Answer;
use harness::{Asking, Said, float, number, size};
use opened::Opened;
use replies::Choice;
use std::io;

fn is_at(bounds: Answer<(usize, usize)>, q: &[u8]) -> bool {
    match bounds {
        Ok((from, to)) => (from == size(q, 28)) & (to == size(q, 32)),
        Err(why) => why.number == number(q, 24),
    }
}

// Where it stands, its refusal, and the sum of its bytes.
fn is_name(o: Opened, s: &[u8], q: &[u8]) -> bool {
    let zone = number(q, 4);
    let bounds = reader_named::name_bounds(s, o.names.off, o.zones.count, zone);
    let name = tzb::name(o, s, zone);
    is_at(bounds, q)
        & (tzb::name_refusal(o, s, zone) == number(q, 24))
        & (crc::crc32_ieee(name) == number(q, 36))
}

// The last number: 0 none, 1 all zones, 2 those listed for a cell, 3 refused. A cell that lists none counts as none.
fn choice(a: Answer<Choice>) -> Said {
    match a {
        Ok(Choice::None) => Said(0, 0, 0, 0),
        Ok(Choice::All(count)) => Said(0, count, 0, 1),
        Ok(Choice::Listed(0, _)) => Said(0, 0, 0, 0),
        Ok(Choice::Listed(count, place)) => Said(0, count, place, 2),
        Err(why) => Said(why.number, 0, 0, 3),
    }
}

fn candidate(a: Answer<u32>) -> Said {
    Said::told(a.map(|zone| (zone, 0, 0)))
}

// A question is 40 bytes: its kind, a zone or a place, a longitude, a latitude; then what is expected.
fn is_answered(o: Opened, s: &[u8], q: &[u8]) -> bool {
    match number(q, 0) {
        1 => is_name(o, s, q),
        2 => choice(tzb::candidates(o, s, float(q, 8), float(q, 16))).is_expected(q),
        3 => candidate(tzb::candidate_at(o, s, number(q, 4))).is_expected(q),
        _ => false,
    }
}

fn replay(file: &[u8], s: &[u8], q: &[u8]) -> bool {
    tzb::open(file).is_ok_and(|o| is_answered(o, s, q))
}

fn main(rt: HostRuntime) -> io::Result<()> {
    let mut input = rt.stdin();
    let mut file = [0u8; 1024];
    let mut lent = [0u8; 1024];
    let mut a = Asking::new();
    // kept: what comes next says when the list ends; nothing is counted here
    while 0 < a.tally.left {
        if a.questions == 0 {
            a = a.lend(&mut input, &mut file, &mut lent)?;
        } else {
            let right = harness::next(&mut input, &mut [0u8; 40], |q| {
                replay(harness::held(&file), harness::held(&lent), q)
            })?;
            a = a.with(right);
        }
    }
    harness::tell(
        &mut rt.stdout(),
        a.tally.right,
        b" questions of names and candidates answered as document 01 says\n",
    )
}
