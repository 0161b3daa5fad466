// Answers as single numbers, for the exports: -1000 - n for refusal n. Each function is total.
#![tactic(auto)]

ghost use Rattle.std.specs.Prelude.{◌≡◌};
ghost use Rattle.tzb_codes.specs.Codes.{bit_of, refusal_code, done_code, number_code, kind_code, listed_of, inside_code, zone_code, check_code, rule_of, whole_code, needed_code, drawn_code, seen_code, place_code, place_of};

use answer::{Answer, Refusal};
use plane::Seen;
use replies::{Choice, Fault};

// 1 yes, 0 no.
pub fn bit(b: bool) -> u32
    ensures { result ≡ bit_of b }
{
    u32::from(b)
}

// -1000 - n for refusal n.
pub fn refusal_code(r: Refusal) -> i32
    ensures { result ≡ refusal_code r }
{
    -1000 - (r.number.min(999) as i32)
}

pub fn refusal_code64(r: Refusal) -> i64
    ensures { result ≡ refusal_code r }
{
    i64::from(refusal_code(r))
}

// 0 where it was done.
pub fn done_code(a: Answer<()>) -> i32
    ensures { result ≡ done_code a }
{
    match a {
        Ok(()) => 0,
        Err(k) => refusal_code(k),
    }
}

// A count, a zone or a place.
pub fn number_code(a: Answer<u32>) -> i64
    ensures { result ≡ number_code a }
{
    match a {
        Ok(n) => i64::from(n),
        Err(k) => refusal_code64(k),
    }
}

// What the candidates are: 0 none, 1 all zones, 2 those listed for a cell.
pub fn kind_code(a: Answer<Choice>) -> i32
    ensures { result ≡ kind_code a }
{
    match a {
        Ok(Choice::None) => 0,
        Ok(Choice::All(_)) => 1,
        Ok(Choice::Listed(_, _)) => 2,
        Err(k) => refusal_code(k),
    }
}

// How many are listed, times 2 ^ 32, and the place of the first; the number of all zones; else 0.
pub fn listed_of(a: Answer<Choice>) -> u64
    ensures { result ≡ listed_of a }
{
    match a {
        Ok(Choice::None) => 0,
        Ok(Choice::All(n)) => u64::from(n),
        Ok(Choice::Listed(n, place)) => u64::from(n) * 0x1_0000_0000 + u64::from(place),
        Err(_) => 0,
    }
}

// 1 inside, 0 not.
pub fn inside_code(a: Answer<bool>) -> i32
    ensures { result ≡ inside_code a }
{
    match a {
        Ok(inside) => i32::from(inside),
        Err(k) => refusal_code(k),
    }
}

// A zone, -1 for none.
pub fn zone_code(a: Answer<Option<u32>>) -> i64
    ensures { result ≡ zone_code a }
{
    match a {
        Ok(None) => -1,
        Ok(Some(zone)) => i64::from(zone),
        Err(k) => refusal_code64(k),
    }
}

// The full check: 0 accepted, opening's refusal, or -1047.
pub fn check_code(c: Result<(), Fault>) -> i32
    ensures { result ≡ check_code c }
{
    match c {
        Ok(()) => 0,
        Err(Fault::Refused(k)) => refusal_code(k),
        Err(Fault::Broken(k, _)) => refusal_code(k),
    }
}

// The rule beside -1047, else 0.
pub fn rule_of(c: Result<(), Fault>) -> u32
    ensures { result ≡ rule_of c }
{
    match c {
        Ok(()) => 0,
        Err(Fault::Refused(_)) => 0,
        Err(Fault::Broken(_, rule)) => rule,
    }
}

// A length or a count. One of 2 ^ 63 or more, which none is, is told as 2 ^ 63 - 1.
fn whole_code(n: u64) -> i64
    ensures { result ≡ whole_code n }
{
    n.min(0x7fff_ffff_ffff_ffff) as i64
}

// How many numbers the stripes of a file take, or were written.
pub fn needed_code(a: Answer<u64>) -> i64
    ensures { result ≡ needed_code a }
{
    match a {
        Ok(n) => whole_code(n),
        Err(k) => refusal_code64(k),
    }
}

// A map: how many bytes it has, a refusal, or -1047.
pub fn drawing_code(d: Result<usize, Fault>) -> i64
    ensures { result ≡ drawn_code d }
{
    match d {
        Ok(n) => whole_code(n as u64),
        Err(Fault::Refused(k)) => refusal_code64(k),
        Err(Fault::Broken(k, _)) => refusal_code64(k),
    }
}

// What a point sees of a segment: 2 it is on it, 1 the segment counts, 0 neither.
pub fn seen_code(s: Seen) -> i32
    ensures { result ≡ seen_code s }
{
    match s {
        Seen::On => 2,
        Seen::Off(counts) => i32::from(counts),
    }
}

// ---- places

// The place of the byte that a refusal is about, -1 where there is none.
pub fn place_code(r: Refusal) -> i64
    ensures { result ≡ place_code r }
{
    i64::try_from(r.place).unwrap_or(-1)
}

// The same of an answer, -1 also where it is no refusal.
pub fn place_of<T: Copy>(a: Answer<T>) -> i64
    ensures { result ≡ place_of a }
{
    match a {
        Ok(_) => -1,
        Err(k) => place_code(k),
    }
}
