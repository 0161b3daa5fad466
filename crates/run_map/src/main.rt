// Asks the small files of standard input for maps of their zones. A case is two records: the file with the number that document 02 gives
// (0 where the text is written; opening's number; 47 and a hundred times the lowest broken rule; 45, 48 or 46); then the text that is
// expected, the zone, and at the end how much room is lent. Writes how many are answered so before the first difference or the list's
// end.
#![tactic(auto)]

use replies::Fault;
use std::io;
use std::io::Read;

// Whether the drawing is that long where the number is 0, and else is refused by it.
fn is_said(d: Result<usize, Fault>, number: u32, long: usize) -> bool {
    match d {
        Ok(n) => (number == 0) & (n == long),
        Err(Fault::Refused(why)) => (why.number != 0) & (why.number == number),
        Err(Fault::Broken(why, rule)) => {
            (why.number == 47) & (number % 100 == 47) & (rule == number / 100)
        }
    }
}

// Whether the bytes are the text, and behind it what was lent.
fn is_written(out: &[u8], text: &[u8]) -> bool {
    out.strip_prefix(text)
        .is_some_and(|rest| rest.iter().all(|b| *b == 0xa5))
}

// The length that is asked for alone: no room is too short.
fn is_measured(r: &[u8; 1024], q: &[u8; 1024]) -> bool {
    let expected = harness::number(r, 4);
    let long = harness::held(q).len();
    let d = tzb_map::map_length(harness::held(r), harness::number(q, 4));
    if expected == 46 {
        return is_said(d, 0, long);
    }
    is_said(d, expected, long)
}

// The text into the first bytes of what is lent.
fn draw(file: &[u8], zone: u32, out: &mut [u8], room: usize) -> Result<usize, Fault> {
    if out.len() < room {
        return Ok(0xffff_ffff);
    }
    tzb_map::map(file, zone, &mut out[..room])
}

// The text that is expected: after a refusal nothing is written.
fn expected_text(number: u32, q: &[u8; 1024]) -> &[u8] {
    let all = harness::held(q);
    if number != 0 {
        return harness::part(all, 0, 0);
    }
    all
}

// The text in the room that is lent, and what lies behind it.
fn is_drawn(r: &[u8; 1024], q: &[u8; 1024]) -> bool {
    let mut out = [0xa5u8; 1024];
    let d = draw(
        harness::held(r),
        harness::number(q, 4),
        &mut out,
        harness::size(q, 1020),
    );
    let number = harness::number(r, 4);
    let text = expected_text(number, q);
    is_said(d, number, text.len()) & is_written(&out, text)
}

// Whether there is one more case, and the port says the same.
fn next<R: Read>(input: &mut R) -> io::Result<bool> {
    let mut r = [0u8; 1024];
    let mut q = [0u8; 1024];
    if harness::read_held(input, &mut r)? & harness::read_held(input, &mut q)? {
        return Ok(is_measured(&r, &q) & is_drawn(&r, &q));
    }
    Ok(false)
}

fn main(rt: HostRuntime) -> io::Result<()> {
    let right = harness::replay(&mut rt.stdin(), |input| next(input))?;
    harness::tell(
        &mut rt.stdout(),
        right,
        b" maps drawn as document 02 says\n",
    )
}
