// Replays the list of standard input, on which the Rust original answered, and writes at how many segments the port answers alike
// before the first difference or the list's end.
#![tactic(auto)]

use harness::{float, whole};
use plane::{I32Point, Point, Seen};
use std::io;
use std::io::Read;

// On the segment 2, a segment that counts 1, neither 0.
fn answer(seen: Seen) -> u8 {
    match seen {
        Seen::On => 2,
        Seen::Off(counts) => u8::from(counts),
    }
}

// A record: both ends, the point, the answer, seven bytes of zero.
fn replay(r: &[u8; 40]) -> bool {
    let a = I32Point {
        x: whole(r, 0),
        y: whole(r, 4),
    };
    let b = I32Point {
        x: whole(r, 8),
        y: whole(r, 12),
    };
    let p = Point {
        x: float(r, 16),
        y: float(r, 24),
    };
    answer(tzb_core::raycast::raycast_seg(a, b, p)) == r[32]
}

// Whether there is one more record, and the port says the same of it.
fn next<R: Read>(input: &mut R) -> io::Result<bool> {
    let mut r = [0u8; 40];
    Ok(harness::read(input, &mut r)? && replay(&r))
}

fn main(rt: HostRuntime) -> io::Result<()> {
    let right = harness::replay(&mut rt.stdin(), |input| next(input))?;
    harness::tell(
        &mut rt.stdout(),
        right,
        b" segments answered as the original answers\n",
    )
}
