// The varint: zigzag LEB128, Protocol Buffers' sint32. A place is a value; a number read there comes with the place after it, and its refusal has the place of its first byte.
ghost use Rattle.std.specs.Prelude.{ℕ, ◌≡◌, ◌+◌, ◌-◌, ◌<◌, ◌≤◌, true, length};
ghost use Rattle.answer.specs.Answers.{about};
ghost use Rattle.varints.specs.Varint.{unzig, digits, number_at, at_end};
ghost use Rattle.varints.specs.Steps.{rest};

use answer::Answer;
use std::marker::Model;

// Where the next number starts.
#[derive(Clone, Copy)]
pub struct Place {
    at: usize,
}

impl Model for Place {
    ghost Value = { ℕ };

    ghost view = { λ p. p.at };

    ghost inverse = { λ n. record { at = n } };
}

// 0, -1, 1, -2, .. for 0, 1, 2, 3, ..
pub fn unzigzag(n: u32) -> i32
    ensures { result ≡ unzig n }
{
    let h = (n / 2) as i32;
    if n % 2 == 0 { h } else { !h }
}

// The bytes after the second, where the first two have the digits low. Of the fifth, any of the bits 0xf0 is too much, whatever else it is.
fn varint_slow(s: &[u8], from: usize, low: u32) -> Answer<(u32, Place)>
    requires { low < 16384 }
    ensures { result ≡ rest low 16384 2 s.now from }
{
    let mut n = low;
    let mut unit: u32 = 16384;
    for at in from..s.len() {
        let b = s[at] as u32;
        if (unit == 0x1000_0000) & (15 < b) {
            return answer::fail(40);
        }
        if b < 128 {
            if b == 0 {
                return answer::fail(39);
            }
            return Ok((n + unit * b, Place { at: at + 1 }));
        }
        n += unit * (b - 128);
        unit *= 128;
    }
    answer::fail(38)
}

// Where no two bytes are left: one of one byte, or none.
fn varint_last(s: &[u8], from: usize) -> Answer<(u32, Place)>
    requires { length s.now ≤ from + 1 }
    ensures { result ≡ digits 4 true s.now from }
{
    match s.get(from) {
        Some(&b) if b < 128 => Ok((b as u32, Place { at: from + 1 })),
        _ => answer::fail(38),
    }
}

// Numbers of one and of two bytes are read directly and by one test, since which of the two comes next cannot be foretold: more is 1 where the second byte belongs to the number, and then second is that byte, else 0. All longer ones are the loop's, from their third byte on.
fn varint_digits(s: &[u8], from: usize) -> Answer<(u32, Place)>
    ensures { result ≡ digits 4 true s.now from }
{
    if from < s.len().saturating_sub(1) {
        let b0 = s[from] as u32;
        let next = from + 1;
        let b1 = s[next] as u32;
        if (127 < b0) & (127 < b1) {
            return varint_slow(s, next + 1, (b0 - 128) + 128 * (b1 - 128));
        }
        let more = b0 / 128;
        let second = more * b1;
        if second < more {
            return answer::fail(39);
        }
        let at = next + (more as usize);
        return Ok((b0 + 128 * second - 128 * more, Place { at }));
    }
    varint_last(s, from)
}

impl Place {
    pub fn new(at: usize) -> Place
        ensures { result ≡ at }
    {
        Place { at }
    }

    pub fn at(self) -> usize
        ensures { result ≡ self }
    {
        self.at
    }

    pub fn at_end(self, s: &[u8]) -> bool
        ensures { result ≡ at_end s.now self }
    {
        self.at == s.len()
    }

    // What is asked about the byte at the place: a refusal has this place.
    pub(crate) fn about<T>(self, told: Answer<T>) -> Answer<T>
        ensures { result ≡ about self told }
    {
        told.map_err(|r| r.placed_at(self.at))
    }

    // The number at the place, and the place after it.
    #[tactic(auto, using(crate::proofs::NextRead::number_no, crate::proofs::NextRead::number_ok))]
    pub fn varint(self, s: &[u8]) -> Answer<(i32, Place)>
        ensures { result ≡ number_at s.now self }
    {
        let (n, next) = self.about(varint_digits(s, self.at))?;
        Ok((unzigzag(n), next))
    }
}
