// UTF-8 by RFC 3629: are the bytes of a slice well formed?
#![tactic(auto)]

ghost use Rattle.std.specs.Prelude.{◌≡◌, true, false, [], ◌+◌, ◌≤◌, ◌<◌, length, drop, MatchOption};
ghost use Rattle.utf8.specs.Rfc3629.{utf8};
ghost use Rattle.utf8.specs.Steps.{Plain};

use fields::Number;

// How many bytes the first character has; none where none stands there.
fn size(s: &[u8]) -> Option<usize>
    requires { 0 < length s.now }
    ensures { MatchOption result (utf8 [] s.now ≡ false) (λ n. (0 < n) × (n ≤ length s.now) × (utf8 [] s.now ≡ utf8 [] (drop n s.now))) }
{
    match s[0] {
        0x00..=0x7f => Some(1),
        0xc2..=0xdf => match s {
            [_, 0x80..=0xbf, ..] => Some(2),
            _ => None,
        },
        0xe0..=0xef => match s {
            [0xe0, 0xa0..=0xbf, 0x80..=0xbf, ..]
            | [0xe1..=0xec, 0x80..=0xbf, 0x80..=0xbf, ..]
            | [0xed, 0x80..=0x9f, 0x80..=0xbf, ..]
            | [0xee..=0xef, 0x80..=0xbf, 0x80..=0xbf, ..] => Some(3),
            _ => None,
        },
        0xf0..=0xf4 => match s {
            [0xf0, 0x90..=0xbf, 0x80..=0xbf, 0x80..=0xbf, ..]
            | [0xf1..=0xf3, 0x80..=0xbf, 0x80..=0xbf, 0x80..=0xbf, ..]
            | [0xf4, 0x80..=0x8f, 0x80..=0xbf, 0x80..=0xbf, ..] => Some(4),
            _ => None,
        },
        _ => None,
    }
}

// The eight bytes from i on are characters: none has its top bit.
fn eight(s: &[u8], i: usize) -> bool
    requires { i + 8 ≤ length s.now }
    ensures { result ≡ true → Plain s.now i (i + 8) }
{
    u64::at(s, i) & 0x8080_8080_8080_8080 == 0
}

fn sixteen(s: &[u8], i: usize) -> bool
    requires { i + 16 ≤ length s.now }
    ensures { result ≡ true → Plain s.now i (i + 16) }
{
    eight(s, i) & eight(s, i + 8)
}

// The place after the blocks of 32 ASCII bytes that stand at i.
fn blocks_from(s: &[u8], i: usize) -> usize
    requires { i ≤ length s.now }
    ensures plain { Plain s.now i result }
    ensures lower_bound { (i ≤ result) × (result ≤ length s.now) }
{
    let blocks = (s.len() - i) / 32;
    for k in 0..blocks {
        let at = i + 32 * k;
        if !(sixteen(s, at) && sixteen(s, at + 16)) {
            return at;
        }
    }
    i + 32 * blocks
}

// The place after the ASCII bytes that stand at i: eight and blocks of 32, or what is left where the last eight bytes are ASCII. Where there are none of these it is i itself.
fn ascii_from(s: &[u8], i: usize) -> usize
    requires { i ≤ length s.now }
    ensures plain { Plain s.now i result }
    ensures lower_bound { (i ≤ result) × (result ≤ length s.now) }
{
    if s.len() < 8 {
        i
    } else if s.len() - i < 8 {
        if eight(s, s.len() - 8) { s.len() } else { i }
    } else if eight(s, i) {
        blocks_from(s, i + 8)
    } else {
        i
    }
}

// The match of `size` judges each character. Before the first, and after each of one byte, a run of ASCII is passed over.
pub fn utf8_ok(s: &[u8]) -> bool
    ensures { result ≡ utf8 [] s.now }
{
    let mut i = ascii_from(s, 0);
    // kept: each turn goes on by what `size` and `ascii_from` find, so no iterator counts the places
    while i < s.len() {
        let Some(n) = size(&s[i..]) else {
            return false;
        };
        i += n;
        if n == 1 {
            i = ascii_from(s, i);
        }
    }
    true
}
