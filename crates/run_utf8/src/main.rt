// Runs the vectors of standard input through `utf8::utf8_ok` and writes how many answers are right. Each vector is tried
// after 0 to 9 letters, and with none or eight letters behind it, so that it starts at every place of the eight bytes that are
// looked at together.
#![tactic(auto)]

ghost use Rattle.std.specs.Prelude.{◌≤◌};

use std::io;

#[derive(Clone, Copy)]
struct Tally {
    right: u64,
    tried: u64,
    vectors: u64,
}

// The byte at i, and 0 past the end.
fn byte(s: &[u8], i: usize) -> u8 {
    if i < s.len() { s[i] } else { 0 }
}

// A hexadecimal digit, and 16 for any other byte.
fn digit(b: u8) -> u8
    ensures { result ≤ 16 }
{
    match b {
        b'0'..=b'9' => b - b'0',
        b'A'..=b'F' => b - 55,
        _ => 16,
    }
}

// Whether the answer on the part is the expected one.
fn same(s: &[u8], from: usize, to: usize, good: bool) -> u64
    ensures { result ≤ 1 }
{
    if utf8::utf8_ok(harness::part(s, from, to)) == good {
        1
    } else {
        0
    }
}

// The right answers of twenty: the n bytes from 9 on, with letters around them.
fn twenty(s: &[u8], n: usize, good: bool) -> u64
    requires { n ≤ 16 }
{
    let mut right = 0;
    for k in 0..10 {
        right += same(s, 9 - k, 9 + n, good) + same(s, 9 - k, 17 + n, good);
    }
    right
}

// The right answers on the vector whose digits start at `at`.
fn line(s: &[u8], at: usize, good: bool) -> u64
    requires { at ≤ 70000 }
{
    let mut bytes = [b'a'; 40];
    let mut n = 0;
    // kept: a vector may end before its sixteenth byte, and how many came is used
    while n < 16 {
        let high = digit(byte(s, at + 3 * n));
        let low = digit(byte(s, at + 3 * n + 1));
        if 15 < high {
            break;
        }
        if 15 < low {
            break;
        }
        bytes[9 + n] = 16 * high + low;
        n += 1;
    }
    twenty(&bytes, n, good)
}

fn with(c: Tally, right: u64) -> Tally {
    Tally {
        right: c.right.wrapping_add(right),
        tried: c.tried.wrapping_add(20),
        vectors: c.vectors.wrapping_add(1),
    }
}

// The tally, with the vector that starts at i if one does.
fn add(c: Tally, s: &[u8], i: usize) -> Tally
    requires { i ≤ 65536 }
{
    if 0 < i {
        if byte(s, i - 1) != b'\n' {
            return c;
        }
    }
    let sign = byte(s, i);
    if (sign != b'+') & (sign != b'-') {
        return c;
    }
    with(c, line(s, i + 2, sign == b'+'))
}

fn run(s: &[u8]) -> Tally {
    let mut c = Tally {
        right: 0,
        tried: 0,
        vectors: 0,
    };
    for i in 0..65536 {
        c = add(c, s, i);
    }
    c
}

fn main(rt: HostRuntime) -> io::Result<()> {
    let mut input = [0u8; 65536];
    let n = harness::fill(&mut rt.stdin(), &mut input)?;
    let c = run(&input[..n]);
    let mut out = rt.stdout();
    harness::write(&mut out, b"utf8: ")?;
    harness::tell(&mut out, c.right, b" of ")?;
    harness::tell(&mut out, c.tried, b" right, ")?;
    harness::tell(&mut out, c.vectors, b" vectors\n")
}
