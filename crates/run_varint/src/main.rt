// Replays the list of standard input, on which the Rust original answered, and writes how many numbers the port reads alike
// before the first difference or the list's end.
#![tactic(auto)]

use answer::Answer;
use harness::{number, whole};
use std::io;
use tzb_core::varint::Place;

// A record: how many of the next eight bytes are lent, those bytes, the place, the refusal or 0, how many bytes the number has, the
// number; with a refusal its place and one more.
fn is_same(read: Answer<(i32, Place)>, r: &[u8; 16]) -> bool {
    match read {
        Ok((n, next)) => {
            (r[10] == 0) & (n == whole(r, 12)) & (next.at() == (r[9] as usize) + (r[11] as usize))
        }
        Err(why) => (why.number == r[10] as u32) & (harness::place(why) == number(r, 12)),
    }
}

fn replay(r: &[u8; 16]) -> bool {
    let n = r[0] as usize;
    if 8 < n {
        return false;
    }
    let place = Place::new(r[9] as usize);
    is_same(place.varint(&r[1..1 + n]), r)
}

// Whether there is one more record, and the port says the same of it.
fn next<R: io::Read>(input: &mut R) -> io::Result<bool> {
    let mut r = [0u8; 16];
    Ok(harness::read(input, &mut r)? && replay(&r))
}

fn main(rt: HostRuntime) -> io::Result<()> {
    let right = harness::replay(&mut rt.stdin(), |input| next(input))?;
    harness::tell(
        &mut rt.stdout(),
        right,
        b" numbers read as the original reads them\n",
    )
}
